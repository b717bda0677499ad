//! Where responses go.
ghost use Rattle.std.specs.Io.KnownBytes.{Keeps};

use std::io::{BufWriter, Write};

/// Where responses go: a writer that learns when the store of the books fails.
pub trait Outlet: Write {
    ghost use Rattle.std.specs.Io.KnownBytes.{Keeps};

    /// Learns that a round, or its last request, is given up because the store failed. What was written stays as it is.
    fn store_failed(&mut self)
        ensures { Keeps (Self.contents self.old) (Self.contents self.new) };
}

/// A text in memory: nobody learns of the store.
impl Outlet for Vec<u8> {
    fn store_failed(&mut self) {}
}

/// A buffer before any writer: nobody learns of the store.
impl<W: Write + Drop> Outlet for BufWriter<W> {
    fn store_failed(&mut self) {}
}
