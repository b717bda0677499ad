//! The book in memory.
#![tactic(auto)]

pub mod plain_book;
mod purses;
mod redemptions;
mod results;
mod shelves;
mod totals;

pub use plain_book::{PlainBook, new_book};
