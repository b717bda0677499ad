//! A device whose calls and failures are counted.
ghost use Rattle.std.specs.Prelude.{◌≡◌, ◌+◌, OnOk, OnErr, IfOk, MatchResult, length, ◌<◌, ◌≢◌, ℕ};
ghost use Rattle.std.specs.Io.{ReadsAtMost, WritesAtMost};
ghost use Rattle.std.specs.Io.KnownBytes.{ReadConsumes, WriteAppends, Keeps};
ghost use Rattle.mx_desk.specs.Devices.{capped};

use crate::outlet::Outlet;
use std::io;
use std::io::{Read, Write};

/// A reader or a writer, with how often it was called and how often it failed. Neither count passes the largest
/// u64.
#[derive(Drop)]
pub struct Counted<D> {
    device: D,
    calls: u64,
    failures: u64,
}

impl<D> Counted<D> {
    /// The device, with both counts 0.
    pub fn new(device: D) -> Counted<D>
        ensures device { result.device ≡ device }
        ensures calls { result.calls ≡ 0 }
        ensures failures { result.failures ≡ 0 }
    {
        Counted {
            device,
            calls: 0,
            failures: 0,
        }
    }

    /// How often it was called, by a read or a write.
    pub fn calls(&self) -> u64
        ensures { result ≡ self.now.calls }
    {
        self.calls
    }

    /// How often it failed: by an error of a read, a write or a flush, or by taking nothing of a text that isn't empty.
    pub fn failures(&self) -> u64
        ensures { result ≡ self.now.failures }
    {
        self.failures
    }

    /// The device itself.
    pub fn into_inner(self) -> D
        ensures { result ≡ self.device }
    {
        self.device
    }

    fn note_call(&mut self)
        ensures { self.new ≡ record self.old { calls = capped (self.old.calls + 1) } }
    {
        self.calls = self.calls.saturating_add(1);
    }

    fn note_failure(&mut self)
        ensures { self.new ≡ record self.old { failures = capped (self.old.failures + 1) } }
    {
        self.failures = self.failures.saturating_add(1);
    }
}

impl<D: Outlet> Counted<D> {
    /// Has the device learn that a request is given up because the store failed. It counts as no call.
    pub fn store_failed(&mut self)
        ensures bytes { Keeps (D.contents self.old.device) (D.contents self.new.device) }
        ensures calls { self.new.calls ≡ self.old.calls }
        ensures failures { self.new.failures ≡ self.old.failures }
    {
        self.device.store_failed();
    }
}

impl<D: Read> Read for Counted<D> {
    ghost remaining = { λ c. D.remaining c.device };

    fn read(&mut self, buf: &mut [u8]) -> io::Result<usize>
        ensures bound { ReadsAtMost result buf.new }
        ensures bytes { ReadConsumes (D.remaining self.old.device)
            (D.remaining self.new.device) result buf.new }
        ensures calls { self.new.calls ≡ capped (self.old.calls + 1) }
        ensures failures { MatchResult result (λ _. self.new.failures ≡ self.old.failures)
            (λ _. self.new.failures ≡ capped (self.old.failures + 1)) }
    {
        self.note_call();
        let answer = self.device.read(buf);
        if answer.is_err() {
            self.note_failure();
        }
        answer
    }
}

impl<D: Write> Write for Counted<D> {
    ghost contents = { λ c. D.contents c.device };

    fn write(&mut self, buf: &[u8]) -> io::Result<usize>
        ensures bound { WritesAtMost result buf.now }
        ensures bytes { WriteAppends (D.contents self.old.device)
            (D.contents self.new.device) result buf.now }
        ensures calls { self.new.calls ≡ capped (self.old.calls + 1) }
        ensures ok { IfOk result (λ n. n ≢ 0 → self.new.failures ≡ self.old.failures) }
        ensures none { IfOk result
            (λ n. n ≡ 0 → 0 < length buf.now → self.new.failures ≡ capped (self.old.failures + 1)) }
        ensures nothing { IfOk result (λ n. n ≡ 0 → length buf.now ≡ 0
            → self.new.failures ≡ self.old.failures) }
        ensures err { OnErr result (self.new.failures ≡ capped (self.old.failures + 1)) }
    {
        self.note_call();
        let answer = self.device.write(buf);
        let failed = match &answer {
            Ok(n) => *n == 0 && !buf.is_empty(),
            Err(_) => true,
        };
        if failed {
            self.note_failure();
        }
        answer
    }

    fn flush(&mut self) -> io::Result<()>
        ensures bytes { Keeps (D.contents self.old.device) (D.contents self.new.device) }
        ensures calls { self.new.calls ≡ self.old.calls }
        ensures failures { MatchResult result (λ _. self.new.failures ≡ self.old.failures)
            (λ _. self.new.failures ≡ capped (self.old.failures + 1)) }
    {
        let answer = self.device.flush();
        if answer.is_err() {
            self.note_failure();
        }
        answer
    }
}
