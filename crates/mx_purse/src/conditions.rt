//! The conditions of a purse, tested on its parts.
ghost use Rattle.std.specs.Prelude.{◌≡◌, ◌↔◌, IfSome, IsTrue};
ghost use Rattle.mx_pay.specs.Details.{IsDetails};
ghost use Rattle.mx_purse.specs.State.{IsPurse, details_of};
ghost use Rattle.mx_purse.specs.Conditions.{can_log, in_status};

use crate::status::Status;
use mx_pay::names::same_name;
use mx_pay::{Log, MOST_NUMBER, Name, PayDetails, Seq};

/// Whether details can be added to a log.
fn can_log(log: &Log, details: &PayDetails) -> bool
    ensures { result ≡ can_log log.now details.now }
{
    !log.has(details) && !log.is_full()
}

/// Whether a purse of these parts meets the conditions of its status.
fn fits_status(name: &Name, balance: u64, next: Seq, status: &Status, log: &Log, lines: u64) -> bool
    ensures value { result ≡ in_status (record {
      name = name.now;
      balance = balance;
      next = next;
      status = status.now;
      log = log.now;
      lines = lines;
    }) status.now }
    ensures details { IfSome (details_of status.now) IsDetails }
{
    match status {
        Status::EaFrom | Status::EaTo => lines <= MOST_NUMBER + 2,
        Status::Epr(held) => {
            same_name(&held.from(), name)
                && held.from_seq().get() < next.get()
                && held.value().get() <= balance
                && can_log(log, held)
                && lines <= MOST_NUMBER
        }
        Status::Epv(held) => {
            same_name(&held.to(), name)
                && held.to_seq().get() < next.get()
                && can_log(log, held)
                && lines <= MOST_NUMBER
        }
        Status::Epa(held) => {
            same_name(&held.from(), name)
                && held.from_seq().get() < next.get()
                && can_log(log, held)
                && lines <= MOST_NUMBER + 1
        }
    }
}

/// Whether a purse of these parts meets all its conditions.
pub(crate) fn are_whole(
    name: &Name,
    balance: u64,
    next: Seq,
    status: &Status,
    log: &Log,
    lines: u64,
) -> bool
    ensures { IsTrue result ↔ IsPurse (record {
      name = name.now;
      balance = balance;
      next = next;
      status = status.now;
      log = log.now;
      lines = lines;
    }) }
{
    // Each reader says its value's limits.
    let _text = name.as_str();
    let _next = next.get();
    balance <= MOST_NUMBER
        && fits_status(name, balance, next, status, log, lines)
        && log.are_of(name, next)
}
