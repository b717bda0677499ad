//! What a client is talked to over.
ghost use Rattle.std.specs.Prelude.{◌≡◌, ℕ, List, None, Option, take, MatchResult};
ghost use Rattle.std.specs.Io.{ReadsAtMost, WritesAtMost};
ghost use Rattle.std.specs.Io.KnownBytes.{append_known};

use mio::net::TcpStream;
use std::io;
use std::io::{Read, Write};
use std::net::Shutdown;

/// A connection to a client. No call waits: where it would, it answers `WouldBlock`.
pub trait Connection {
    /// The bytes that reads have given, where they are known.
    ghost received: { Self → Option (List ℕ) } = { λ _. None };

    /// The bytes that were written, where they are known.
    ghost written: { Self → Option (List ℕ) } = { λ _. None };

    /// Reads some bytes, or none at the end.
    fn read(&mut self, buf: &mut [u8]) -> io::Result<usize>
        ensures bound { ReadsAtMost result buf.new }
        ensures bytes { MatchResult result
            (λ n. received self.new ≡ append_known (received self.old) (take n buf.new))
            (λ _. received self.new ≡ received self.old) }
        ensures written { written self.new ≡ written self.old };

    /// Writes some bytes.
    fn write(&mut self, buf: &[u8]) -> io::Result<usize>
        ensures bound { WritesAtMost result buf.now }
        ensures bytes { MatchResult result
            (λ n. written self.new ≡ append_known (written self.old) (take n buf.now))
            (λ _. written self.new ≡ written self.old) }
        ensures received { received self.new ≡ received self.old };

    /// Ends what is written: the client is told that nothing comes behind it.
    fn end_writing(&mut self) -> io::Result<()>
        ensures written { written self.new ≡ written self.old }
        ensures received { received self.new ≡ received self.old };
}

/// A connection of the system.
impl Connection for TcpStream {
    fn read(&mut self, buf: &mut [u8]) -> io::Result<usize> {
        Read::read(self, buf)
    }

    fn write(&mut self, buf: &[u8]) -> io::Result<usize> {
        Write::write(self, buf)
    }

    fn end_writing(&mut self) -> io::Result<()> {
        self.shutdown(Shutdown::Write)
    }
}
