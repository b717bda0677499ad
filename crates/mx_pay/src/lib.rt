//! The values of payments: names, amounts, sequence numbers, payment details, logs, code texts and tokens.
//!
//! Each reader (`read`, `read_bytes`, `new`, `read_code`) accepts exactly the values that its type allows, and
//! answers None for every other. All types are `Copy`, and no calls but `code_text` and `push_entry`
//! take memory.
#![tactic(auto)]

pub mod codes;
pub mod details;
pub mod log;
pub mod names;
pub mod numbers;
pub mod token;

pub use codes::{code_text, push_entry, read_code, read_details, read_seq};
pub use details::PayDetails;
pub use log::{Log, MOST_ENTRIES};
pub use names::{MOST_NAME_BYTES, Name};
pub use numbers::{Amount, MOST_AMOUNT, MOST_NUMBER, Seq};
pub use token::{TOKEN_BYTES, Token};
