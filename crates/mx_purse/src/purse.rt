//! The purse: its parts, and what always holds of them.
ghost use Rattle.std.specs.Prelude.{◌≡◌, ◌≤◌, ◌+◌, ◌^◌, ◌↔◌, IsNone, IfSome};
ghost use Rattle.mx_pay.specs.Limits.{most_number};
ghost use Rattle.mx_purse.specs.State.{new_purse, IsPurse};

pub mod bare;
mod operations;

use crate::conditions::are_whole;
use crate::status::Status;
use mx_pay::{Log, Name, Seq};
use std::marker::Model;

/// A purse: its name, its balance, its next sequence number, its status with the details of the payment
/// under way, its exception log and how many statement lines it has. A contract sees it as the record of
/// these parts. Every purse meets the conditions of `IsPurse`.
#[derive(Clone, Copy)]
pub struct Purse {
    name: Name,
    balance: u64,
    next: Seq,
    status: Status,
    log: Log,
    lines: u64,
}

impl Model for Purse {
    ghost use Rattle.mx_purse.specs.State.{State, IsPurse, coded_state};

    ghost Value = { State };

    ghost coded = { coded_state };

    ghost view = { λ p. record {
      name = p.name;
      balance = p.balance;
      next = p.next;
      status = p.status;
      log = p.log;
      lines = p.lines;
    } };

    ghost invariant = { λ p. IsPurse (record {
      name = p.name;
      balance = p.balance;
      next = p.next;
      status = p.status;
      log = p.log;
      lines = p.lines;
    }) };

    ghost inverse = { λ p. record {
      name = p.name;
      balance = p.balance;
      next = p.next;
      status = p.status;
      log = p.log;
      lines = p.lines;
    } };
}

impl Purse {
    /// A new purse of that name: at rest, with balance 0, next sequence number 0, an empty log and no
    /// statement lines.
    pub fn new(name: Name) -> Purse
        ensures value { result ≡ new_purse name }
        ensures whole { IsPurse result }
    {
        // The reader says that the name is one.
        let _text = name.as_str();
        Purse {
            name,
            balance: 0,
            next: Seq::zero(),
            status: Status::EaFrom,
            log: Log::new(),
            lines: 0,
        }
    }

    /// The purse of these parts: its name, its balance, its next sequence number, its status, its exception
    /// log and how many statement lines it has. None exactly where they break a condition of a purse: where
    /// the balance is above 10^15, the lines are above the limit of the status, an entry of the log doesn't
    /// name the purse or has the purse's own number not below `next`, or the status has details that don't
    /// name the purse on its side, have its own number not below `next`, are in the log already or find no
    /// room there, or in epr have a value above the balance.
    pub fn from_parts(
        name: Name,
        balance: u64,
        next: Seq,
        status: Status,
        log: Log,
        lines: u64,
    ) -> Option<Purse>
        ensures some { IfSome result (λ p. p ≡ record {
          name = name;
          balance = balance;
          next = next;
          status = status;
          log = log;
          lines = lines;
        }) }
        ensures whole { IfSome result IsPurse }
        ensures none { IsNone result ↔ (¬ IsPurse (record {
          name = name;
          balance = balance;
          next = next;
          status = status;
          log = log;
          lines = lines;
        })) }
    {
        if !are_whole(&name, balance, next, &status, &log, lines) {
            return None;
        }
        Some(Purse {
            name,
            balance,
            next,
            status,
            log,
            lines,
        })
    }

    /// The name of the purse.
    pub fn name(&self) -> Name
        ensures value { result ≡ self.now.name }
        ensures whole { IsPurse self.now }
    {
        self.name
    }

    /// How much the purse holds, from 0 to 10^15.
    pub fn balance(&self) -> u64
        ensures value { result ≡ self.now.balance }
        ensures limit { result ≤ most_number }
    {
        self.balance
    }

    /// The sequence number that the next payment takes, from 0 to 10^15.
    pub fn next(&self) -> Seq
        ensures { result ≡ self.now.next }
    {
        self.next
    }

    /// Where the purse stands in a payment, with the details of the payment under way.
    pub fn status(&self) -> Status
        ensures { result ≡ self.now.status }
    {
        self.status
    }

    /// The exception log: the details of the payments that the purse logged when it aborted, at most 16.
    pub fn log(&self) -> Log
        ensures { result ≡ self.now.log }
    {
        self.log
    }

    /// How many statement lines the purse has, from 0 to 10^15 + 2.
    pub fn lines(&self) -> u64
        ensures value { result ≡ self.now.lines }
        ensures limit { result ≤ most_number + 2 }
    {
        self.lines
    }
}
