//! Who is told how far an import is.

/// Who is told how far an import is. The import goes on in the same way whatever is done with it.
pub trait Progress {
    /// So many rows of the roll are done and kept: added, found the same or refused.
    fn done(&mut self, rows: u64);
}

/// Nobody.
#[derive(Clone, Copy)]
pub struct Nobody;

impl Progress for Nobody {
    fn done(&mut self, _rows: u64) {}
}
