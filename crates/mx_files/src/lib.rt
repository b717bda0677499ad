//! The tasks of the program over the files that they name.
#![tactic(auto)]

mod bytes;
pub mod check;
pub mod closing;
pub mod copier;
mod database;
pub mod files;
pub mod folder;
pub mod in_memory;
pub mod init;
mod log;
pub mod making;
mod mark;
pub mod perform;
pub mod places;
pub mod plan;
pub mod program;
pub mod series;
pub mod stored_file;
pub mod stores;
mod unopened;
pub mod watched;
