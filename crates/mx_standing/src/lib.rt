//! Books that always represent a World.
#![tactic(auto)]

pub mod standing;

pub use standing::Standing;
