//! Purses: what a purse is, what always holds of one, its operations, and the messages between purses.
#![tactic(auto)]

mod conditions;
pub mod message;
pub mod purse;
pub mod refusals;
pub mod status;
pub mod words;

pub use message::{Handled, Message};
pub use purse::Purse;
pub use purse::bare::BarePurse;
pub use refusals::{CreditRefusal, LoadRefusal, RedeemRefusal, StartRefusal};
pub use status::Status;
