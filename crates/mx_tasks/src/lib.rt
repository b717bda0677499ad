//! What the tasks of the program do, over any book, reader and writer.
#![tactic(auto)]

pub mod cause;
pub mod exits;
pub mod fault;
pub mod import;
pub mod in_memory;
pub mod report;
pub mod runs;
pub mod serve;
pub mod teller;
pub mod terminal;
pub mod voice;
pub mod work;

pub use cause::Cause;
pub use fault::TaskFault;
pub use report::ReportKind;
pub use serve::alarm::{Alarm, Alarmed};
pub use work::{Done, Work, do_work, work_in_book};
