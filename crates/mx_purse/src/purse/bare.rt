//! A purse without its log.
ghost use Rattle.std.specs.Prelude.{◌≡◌, is_some};
ghost use Rattle.mx_pay.specs.Log.{entry_at};
ghost use Rattle.mx_purse.specs.Bare.{bare_of, with_log};
ghost use Rattle.mx_purse.specs.State.{IsPurse};

use crate::purse::Purse;
use crate::status::Status;
use mx_pay::{Log, Name, Seq};

/// The parts of a purse but its log, which is large and mostly empty.
#[derive(Clone, Copy)]
pub struct BarePurse {
    /// The name of the purse.
    pub name: Name,
    /// How much it holds.
    pub balance: u64,
    /// The sequence number that its next payment takes.
    pub next: Seq,
    /// Where it stands in a payment.
    pub status: Status,
    /// How many statement lines it has.
    pub lines: u64,
}

impl BarePurse {
    /// The purse of these parts with this log.
    #[inline]
    pub fn with_log(&self, log: Log) -> Purse
        requires { IsPurse (with_log self.now log) }
        ensures { result ≡ with_log self.now log }
    {
        Purse {
            name: self.name,
            balance: self.balance,
            next: self.next,
            status: self.status,
            log,
            lines: self.lines,
        }
    }
}

impl Purse {
    /// The purse without its log.
    pub fn bare(&self) -> BarePurse
        ensures value { result ≡ bare_of self.now }
        ensures whole { IsPurse self.now }
    {
        BarePurse {
            name: self.name,
            balance: self.balance,
            next: self.next,
            status: self.status,
            lines: self.lines,
        }
    }

    /// Whether there are details in the log.
    pub fn has_log(&self) -> bool
        ensures { result ≡ is_some (entry_at self.now.log 0) }
    {
        self.log.at(0).is_some()
    }
}
