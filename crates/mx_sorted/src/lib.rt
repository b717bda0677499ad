//! Sorted tables of rows in memory.
#![tactic(auto)]

mod blocks;
pub mod rows;
pub mod table;

pub use rows::Rows;
pub use table::{Key, Table};
