//! Runs that no task of the program makes: over new tables in memory, and lives over the same books, each ended by a stop, or by
//! a close of the files that hold them.
#![tactic(auto)]

mod answered;
pub mod files;
pub mod lives;
pub mod tables;

pub use answered::Life;
pub use files::{closed_lives, new_files, stopped_lives};
pub use lives::live_on;
pub use tables::run_memory_tables;
