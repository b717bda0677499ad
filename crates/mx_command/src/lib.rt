//! What is asked of an office, and what it answers.
#![tactic(auto)]

pub mod values;

pub use values::{Command, Lines, Messages, Names, Refusal, Reply};
