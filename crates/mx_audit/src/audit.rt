//! The audit of the rows of all tables, one after another.
ghost use Rattle.std.specs.Prelude.{◌≡◌, ◌++◌, ◌∷◌, [], IfErr, IfOk, OnOk, true, false};
ghost use Rattle.mx_audit.specs.Audit.{Goes, IsBegun, TakesIn, all_of, cleared_of, fits_row, with_row};
ghost use Rattle.mx_audit.specs.Readings.{laid_of};
ghost use Rattle.mx_audit.specs.Seen.{Sees};

use crate::findings::Findings;
use crate::scan::Takes;
use crate::seen::Seen;
use crate::tables::Counts;
use crate::typed::{Source, TypedRow, read_row};
use mx_book::StoreFault;
use mx_pay::{Log, Name, PayDetails};
use mx_purse::Message;
use sqlite::Row;
use std::alloc::{AllocError, Global};

/// Details of a purse, that have to be looked up.
type Results = Vec<(Name, PayDetails)>;

/// The audit so far.
#[derive(Drop)]
pub struct Audit {
    /// What was seen of the rows that fit.
    pub seen: Seen,
    /// The table that is gone over.
    pub source: Source,
    /// How many rows don't fit, or aren't rows of their table.
    pub found: u64,
    /// The results that lie in trays.
    pub laid: Results,
    /// What clears in inboxes would clear.
    pub cleared: Results,
    /// How many rows of some tables fit.
    pub counts: Counts,
    /// The first findings.
    pub findings: Findings,
}

impl Audit {
    /// Nothing is gone over yet. So many findings are to be kept at most.
    pub fn new(alloc: Global, most: usize) -> Audit
        ensures { IsBegun result }
    {
        Audit {
            seen: Seen::new(alloc),
            source: Source::Members,
            found: 0,
            laid: Vec::new(alloc),
            cleared: Vec::new(alloc),
            counts: Counts::new(),
            findings: Findings::new(alloc, most),
        }
    }

    /// Takes in a row, and says whether it fits what was seen before it. One that doesn't fit changes nothing. Memory where
    /// there is none: then the audit is of no use any more.
    fn take_in(&mut self, row: &TypedRow) -> Result<bool, StoreFault>
        ensures fits { IfOk result (λ fits. fits ≡ fits_row self.old.seen row.now) }
        ensures takes { IfOk result (λ fits. fits ≡ true → TakesIn row.now self.old self.new) }
        ensures found { self.new.found ≡ self.old.found }
        ensures source { self.new.source ≡ self.old.source }
    {
        if !see(&mut self.seen, row)? {
            return Ok(false);
        }
        keep(&mut self.laid, &mut self.cleared, row)?;
        self.counts.add(row);
        Ok(true)
    }
}

/// Takes in a row, and says whether it fits what was seen before it. One that doesn't fit changes nothing, and nor does an
/// AllocError.
fn see(seen: &mut Seen, row: &TypedRow) -> Result<bool, AllocError>
    ensures ok { Sees result seen.old seen.new (fits_row seen.old row.now)
        (with_row seen.old row.now) }
    ensures err { IfErr result (λ _. seen.new ≡ seen.old) }
{
    match row {
        TypedRow::Member(name, member) => seen.see_member(*name, member),
        TypedRow::Holder(holder, member) => seen.see_holder(*holder, *member),
        TypedRow::Token(token, caller) => seen.see_token(*token, caller),
        TypedRow::Purse(name, purse) => seen.see_purse(*name, purse),
        TypedRow::Message(purse, number, message) => seen.see_message(*purse, *number, message),
        TypedRow::Line(purse, number, _) => seen.see_line(*purse, *number),
        TypedRow::Laid(purse, _)
        | TypedRow::Archived(purse, _)
        | TypedRow::Load(purse, _, _)
        | TypedRow::Redemption(purse, _, _) => Ok(seen.has_purse(*purse)),
        TypedRow::Version | TypedRow::Settled(_) => Ok(true),
    }
}

/// Keeps what has to be looked up of a row. Memory where there is none: then it isn't all kept.
fn keep(laid: &mut Results, cleared: &mut Results, row: &TypedRow) -> Result<(), StoreFault>
    ensures laid { OnOk result (laid.new.items ≡ laid.old.items ++ laid_of row.now) }
    ensures cleared { OnOk result (cleared.new.items ≡ cleared.old.items ++ cleared_of row.now) }
{
    match row {
        TypedRow::Laid(purse, details) => keep_one(laid, *purse, *details),
        TypedRow::Message(purse, _, Message::Clear(set)) => keep_all(cleared, *purse, set),
        _ => Ok(()),
    }
}

/// Keeps details of a purse. Memory where there is none.
fn keep_one(kept: &mut Results, purse: Name, details: PayDetails) -> Result<(), StoreFault>
    ensures { OnOk result (kept.new.items ≡ kept.old.items ++ (purse, details) ∷ []) }
{
    Ok(kept.push((purse, details))?)
}

/// Keeps each entry of a set of details for a purse. Memory where there is none: then they aren't all kept.
fn keep_all(kept: &mut Results, purse: Name, set: &Log) -> Result<(), StoreFault>
    ensures { OnOk result (kept.new.items ≡ kept.old.items ++ all_of purse set.now) }
{
    for place in 0..set.len() {
        if let Some(details) = set.at(place) {
            keep_one(kept, purse, details)?;
        }
    }
    Ok(())
}

impl Takes for Audit {
    ghost takes = { λ old row new. Goes row old new };

    fn take(&mut self, row: &Row) -> Result<(), StoreFault> {
        let fits = match read_row(self.source, row) {
            Ok(typed) => self.take_in(&typed)?,
            Err(_) => false,
        };
        if !fits {
            self.found = self.found.saturating_add(1);
            self.findings.tell_row(&self.seen, self.source, row)?;
        }
        Ok(())
    }
}
