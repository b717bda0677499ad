//! Voices that may be terminals.
ghost use Rattle.std.specs.Prelude.{◌≡◌, Bool, None, Option, IfSome};

use crate::voice::Voice;
use std::io::{IsTerminal, Stderr};

/// A voice that may be a terminal, at which someone sees what is said.
pub trait Terminal: Voice {
    /// Whether it is one, where that is known.
    ghost is_seen: { Self → Option Bool } = { λ _. None };

    /// Whether it is one.
    fn is_terminal(&self) -> bool
        ensures { IfSome (is_seen self.now) (λ is. result ≡ is) };
}

/// Standard error.
impl Terminal for Stderr {
    fn is_terminal(&self) -> bool {
        IsTerminal::is_terminal(self)
    }
}
