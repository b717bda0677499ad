//! The laws of the office: functions that do nothing, whose contracts speak of the definitions alone.

pub mod arrival;
pub mod balance;
pub mod conservation;
pub mod isolation;
pub mod reachable;
pub mod refinement;
pub mod statements;
