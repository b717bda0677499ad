//! Logs.
ghost use Rattle.std.specs.Prelude.{◌≡◌, ◌≤◌, ◌↔◌, ◌||◌, IsTrue, not, nat_le, is_some, count_by, slice_get, if◌then◌else◌};
ghost use Rattle.std.specs.List.{list_all, list_any};
ghost use Rattle.mx_pay.specs.Limits.{most_entries};
ghost use Rattle.mx_pay.specs.Log.{IsLogValue, none_logged, log_len, has_logged, entry_at, with_entry, is_within, is_same_log, is_below, all_owned};
ghost use Rattle.mx_pay.specs.Places.{put_in, holds_at, stands_in, option_join, is_behind, owns_place};

use crate::details::PayDetails;
use crate::names::{Name, same_name};
use crate::numbers::Seq;
use std::marker::Model;

/// How many payments a log holds at most.
pub const MOST_ENTRIES: usize = 16;

/// An exception log: at most 16 payment details, all different, kept in order. A contract sees it as the set
/// of these details.
#[derive(Clone, Copy)]
pub struct Log {
    entries: [Option<PayDetails>; MOST_ENTRIES],
}

impl Model for Log {
    ghost use Rattle.std.specs.Option.{some_prefix};
    ghost use Rattle.mx_pay.specs.Log.{Entries, coded_entries, log_of, logged, places, IsLog};
    ghost use Rattle.mx_pay.specs.Orders.{log_fields};

    ghost Value = { Entries };

    ghost coded = { coded_entries };

    ghost view = { λ l. log_of (some_prefix l.entries) };

    ghost invariant = { λ l. IsLog l.entries };

    ghost inverse = { λ s. record { entries = places (logged s) } };

    ghost inverse_ok = { λ l h i. record { entries = log_fields l.entries h i } };
}

impl Log {
    /// The empty log, which has no details.
    pub fn new() -> Log
        ensures { result ≡ none_logged }
    {
        Log {
            entries: [None; MOST_ENTRIES],
        }
    }

    /// How many details the log has, from 0 to 16.
    pub fn len(&self) -> usize
        ensures value { result ≡ log_len self.now }
        ensures limit { result ≤ most_entries }
        ensures valid { IsLogValue self.now }
    {
        count(&self.entries)
    }

    /// Whether the log has 16 details, so that no more can be added.
    pub fn is_full(&self) -> bool
        ensures value { result ≡ nat_le most_entries (log_len self.now) }
        ensures valid { IsLogValue self.now }
    {
        self.at(MOST_ENTRIES - 1).is_some()
    }

    /// The details at `place`, counted from 0, in order. None exactly where the log has no more than `place`
    /// details.
    pub fn at(&self, place: usize) -> Option<PayDetails>
        ensures value { result ≡ entry_at self.now place }
        ensures valid { IsLogValue self.now }
    {
        slot(&self.entries, place)
    }

    /// Whether `details` are in the log.
    pub fn has(&self, details: &PayDetails) -> bool
        ensures value { result ≡ has_logged self.now details.now }
        ensures valid { IsLogValue self.now }
    {
        holds(&self.entries, details)
    }

    /// Adds `details` at their place in the order. The answer is false exactly where they are in the log
    /// already or the log has 16 details; it is then as it was.
    pub fn add(&mut self, details: PayDetails) -> bool
        ensures answer { result ≡ not
            (nat_le most_entries (log_len self.old) || has_logged self.old details) }
        ensures new { self.new ≡ (if result then with_entry self.old details else self.old) }
    {
        // The reader says the limits of the details.
        let _limits = details.value();
        if self.is_full() || self.has(&details) {
            return false;
        }
        insert_into(&mut self.entries, details);
        true
    }

    /// Whether all details of this log are in `other`.
    pub fn is_within(&self, other: &Log) -> bool
        ensures { result ≡ is_within self.now other.now }
    {
        all_in(&self.entries, other)
    }

    /// Whether the two logs are the same: whether they have the same details.
    pub fn is_same(&self, other: &Log) -> bool
        ensures value { result ≡ is_same_log self.now other.now }
        ensures same { IsTrue result ↔ (self.now ≡ other.now) }
    {
        self.is_within(other) && other.is_within(self)
    }

    /// Whether all details of the log name the purse `name`, on either side, and have the purse's own
    /// sequence number below `next`.
    pub fn are_of(&self, name: &Name, next: Seq) -> bool
        ensures value { result ≡ all_owned name.now next self.now }
        ensures valid { IsLogValue self.now }
    {
        all_owned(&self.entries, name, next)
    }

    /// Whether `details` come behind all that the log has.
    pub(crate) fn is_below(&self, details: &PayDetails) -> bool
        ensures { result ≡ is_below details.now self.now }
    {
        all_before(&self.entries, details)
    }
}

/// Puts details where they belong in the order, and moves those behind them on by one place.
fn insert_into(entries: &mut [Option<PayDetails>], details: PayDetails)
    ensures { entries.new ≡ put_in details entries.old }
{
    let mut carried = details;
    for slot in entries.iter_mut() {
        match *slot {
            None => {
                *slot = Some(carried);
                return;
            }
            Some(held) => {
                if carried < held {
                    *slot = Some(carried);
                    carried = held;
                }
            }
        }
    }
}

fn count(entries: &[Option<PayDetails>]) -> usize
    ensures { result ≡ count_by is_some entries.now }
{
    entries.iter().filter(|entry| entry.is_some()).count()
}

fn slot(entries: &[Option<PayDetails>], place: usize) -> Option<PayDetails>
    ensures { result ≡ option_join (slice_get entries.now place) }
{
    match entries.get(place) {
        None => None,
        Some(entry) => *entry,
    }
}

fn holds(entries: &[Option<PayDetails>], details: &PayDetails) -> bool
    ensures { result ≡ list_any (holds_at details.now) entries.now }
{
    entries.iter().any(|entry| match entry {
        None => false,
        Some(held) => details.cmp(held).is_eq(),
    })
}

fn all_in(entries: &[Option<PayDetails>], log: &Log) -> bool
    ensures { result ≡ list_all (stands_in log.now) entries.now }
{
    entries.iter().all(|entry| match entry {
        None => true,
        Some(details) => log.has(details),
    })
}

fn all_before(entries: &[Option<PayDetails>], details: &PayDetails) -> bool
    ensures { result ≡ list_all (is_behind details.now) entries.now }
{
    entries.iter().all(|entry| match entry {
        None => true,
        Some(held) => held.cmp(details).is_lt(),
    })
}

fn is_owned(entry: &Option<PayDetails>, name: &Name, next: Seq) -> bool
    ensures { result ≡ owns_place name.now next entry.now }
{
    match entry {
        None => true,
        Some(held) => {
            (same_name(&held.from(), name) && held.from_seq().get() < next.get())
                || (same_name(&held.to(), name) && held.to_seq().get() < next.get())
        }
    }
}

fn all_owned(entries: &[Option<PayDetails>], name: &Name, next: Seq) -> bool
    ensures { result ≡ list_all (owns_place name.now next) entries.now }
{
    entries.iter().all(|entry| is_owned(entry, name, next))
}
