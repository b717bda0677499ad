//! What texts are said to.
ghost use Rattle.std.specs.Prelude.{ℕ, List, None, Option, IfSome};
ghost use Rattle.std.specs.Io.KnownBytes.{Appends};

use std::fmt::Display;
use std::io::Stderr;

/// What texts are said to: standard error, or a terminal in memory.
pub trait Voice {
    /// All that was said, where it is known.
    ghost said: { Self → Option (List ℕ) } = { λ _. None };

    /// Says a text, with no line end behind it.
    fn say<D: Display + Drop>(&mut self, text: D)
        ensures { IfSome (D.output text) (Appends (said self.old) (said self.new)) };
}

/// Standard error. A text that can't be written there is lost.
impl Voice for Stderr {
    fn say<D: Display + Drop>(&mut self, text: D) {
        let _ = self.eprint(text);
    }
}

/// Standard error, through what prints there.
impl<R: Eprint> Voice for &R {
    fn say<D: Display + Drop>(&mut self, text: D) {
        let _ = self.eprint(text);
    }
}
