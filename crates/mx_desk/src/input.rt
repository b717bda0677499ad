//! The bytes that were read and not used yet.
ghost use Rattle.std.specs.Prelude.{◌≡◌, ◌+◌, ◌<◌, ◌≤◌, ◌++◌, ℕ, List, [], Ok, IfOk, OnOk, OnErr, IfErr, length, take, drop};
ghost use Rattle.std.specs.Io.KnownBytes.{Consumes, Keeps, IsAtEnd};
ghost use Rattle.mx_desk.specs.Devices.{capped};

use crate::counted::Counted;
use crate::fault::DeskFault;
use std::io::Read;
use std::marker::Model;

/// The longest head and the longest body, in bytes.
pub const CAPACITY: usize = 12288;

/// The bytes that were read and not used yet, at most 12,288, in one array. A contract sees them as a list.
#[derive(Drop)]
pub struct Input {
    bytes: [u8; CAPACITY],
    start: usize,
    filled: usize,
}

impl Model for Input {
    ghost use Rattle.std.specs.Prelude.{List, ℕ, ◌≤◌, take, drop};

    ghost Value = { List ℕ };

    ghost view = { λ s. drop s.start (take s.filled s.bytes) };

    ghost invariant = { λ s. (s.start ≤ s.filled) × (s.filled ≤ 12288) };
}

impl Input {
    /// No bytes.
    pub fn new() -> Input
        ensures { result ≡ [] }
    {
        Input {
            bytes: [0; CAPACITY],
            start: 0,
            filled: 0,
        }
    }

    /// The bytes that were read and not used yet.
    pub fn pending(&self) -> &[u8]
        ensures value { result.now ≡ self.now }
        ensures fits { length self.now ≤ 12288 }
    {
        &self.bytes[self.start..self.filled]
    }

    /// Forgets the first bytes, so many as `count` says.
    pub fn forget(&mut self, count: usize)
        requires { count ≤ length self.old }
        ensures { self.new ≡ drop count self.old }
    {
        self.start += count;
    }

    /// Reads once, and keeps what came behind what is pending. Says how many bytes came; 0 where the reader is at its
    /// end. A fault is `Read`, where the read failed.
    pub fn read_from<R: Read>(&mut self, reader: &mut Counted<R>) -> Result<usize, DeskFault>
        requires { length self.old < 12288 }
        ensures ok { IfOk result (λ n. (more : List ℕ) × (length more ≡ n)
            × (self.new ≡ self.old ++ more)
            × Consumes (R.remaining reader.old.device) (R.remaining reader.new.device) more) }
        ensures end { result ≡ Ok 0 → IsAtEnd (R.remaining reader.new.device) }
        ensures err { OnErr result ((self.new ≡ self.old)
            × Keeps (R.remaining reader.old.device) (R.remaining reader.new.device)) }
        ensures fault { IfErr result (λ e. e ≡ DeskFault.Read) }
        ensures calls { reader.new.calls ≡ capped (reader.old.calls + 1) }
        ensures whole { OnOk result (reader.new.failures ≡ reader.old.failures) }
        ensures failed { OnErr result (reader.new.failures ≡ capped (reader.old.failures + 1)) }
    {
        let (start, end) = (self.start, self.filled);
        self.bytes[..end].rotate_left(start);
        let filled = end - start;
        self.start = 0;
        self.filled = filled;
        match reader.read(&mut self.bytes[filled..]) {
            Ok(count) => {
                self.filled = filled + count;
                Ok(count)
            }
            Err(_) => Err(DeskFault::Read),
        }
    }
}
