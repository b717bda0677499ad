//! The laws of the desk: functions that do nothing, whose contracts speak of the definitions and of what calls leave.

pub mod isolation;
pub mod lives;
