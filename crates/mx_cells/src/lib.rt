//! What stands in the cells of a row: how each value of the books is kept there, and how it is read back.
#![tactic(auto)]

pub mod cells;
pub mod codes;
pub mod entries;
pub mod shown;
