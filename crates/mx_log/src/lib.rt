//! Whether a log of SQLite is damaged where no stop of a program leaves it so.
#![tactic(auto)]

mod damage;
mod file;
mod folding;
mod frames;

pub use damage::is_damaged;
pub use file::holds_damage;
pub use folding::{Folded, fold};
