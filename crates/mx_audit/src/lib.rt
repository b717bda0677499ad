//! The audit of tables: whether their rows spell a World.
#![tactic(auto)]

mod audit;
mod columns;
mod copying;
mod findings;
mod look;
mod misfits;
mod missing;
pub mod opening;
pub mod ordered;
mod scan;
mod seen;
pub mod tables;
mod typed;

pub use copying::{copy, has_first_tables, raise};
pub use opening::{Refusal, Refused, migrate, open};
pub use ordered::Ordered;
