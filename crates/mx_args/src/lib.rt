//! The command line of the program: the words after its name, and the task that they name.
#![tactic(auto)]

mod commands;
pub mod line;
pub mod task;

pub use line::read_line;
pub use task::{AskedCopies, AskedReport, LineFault, Task, Word};
