//! The desk: HTTP over any reader and writer.
#![tactic(auto)]

pub mod answer;
pub mod callers;
pub mod clients;
pub mod counted;
pub mod desk;
pub mod fault;
pub mod fields;
pub mod first;
pub mod head;
pub mod held;
pub mod input;
pub mod laws;
pub mod outlet;
pub mod output;
pub mod rounds;
pub mod workspace;

pub use counted::Counted;
pub use fault::DeskFault;
pub use outlet::Outlet;
pub use workspace::Workspace;
