//! Reports over any book: the statements of purses and the reconciliation of the scheme, as values and as texts; and the
//! import of rolls.
#![tactic(auto)]

pub mod even;
pub mod progress;
pub mod reconciliation;
mod roll_rows;
pub mod rolls;
pub mod rows;
pub mod statements;
mod texts;

pub use even::{is_even_member, is_even_scheme, is_even_statement, leads_to_balance};
pub use progress::{Nobody, Progress};
pub use reconciliation::{Report, reconcile, reconcile_text};
pub use rolls::{
    RefusedRow, RollFault, RollFaultKind, RollReason, RollReport, import_roll, import_roll_telling,
};
pub use rows::rows_stay;
pub use statements::{StatementsText, all_statements, statement, statement_text};
