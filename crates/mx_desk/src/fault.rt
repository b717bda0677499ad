//! Why a run ends early.

/// Why a run of the desk ends early.
#[derive(Clone, Copy, Debug, PartialEq, Eq)]
pub enum DeskFault {
    /// A read failed.
    Read,
    /// A write or a flush failed, or a write took nothing.
    Write,
    /// The reads were used up.
    Turns,
}
