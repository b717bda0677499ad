//! The office: what each caller's command does, over any book.
#![tactic(auto)]

mod archive;
mod decisions;
pub mod laws;
mod limits;
mod members;
mod money;
pub mod office;
mod purses;
pub mod values;

pub use office::Office;
pub use values::{Decided, Outcome};
