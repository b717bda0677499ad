//! The audit of all tables of a store.
ghost use Rattle.sqlite.specs.Held.{state};
ghost use Rattle.std.specs.Prelude.{◌≡◌, ◌<◌, ◌↔◌, length};
ghost use Rattle.std.specs.Result.{result_map_both};
ghost use Rattle.mx_tables.specs.Answers.{ArePurses};
ghost use Rattle.mx_tables.specs.Results.{AreDetails};
ghost use Rattle.mx_tables.specs.States.{IsAwake, Reads};
ghost use Rattle.mx_audit.specs.Audited.{Audits, GoesOver, GoesOverOne, IsLookedUp};
ghost use Rattle.mx_audit.specs.Scans.{Scans};

use crate::audit::Audit;
use crate::look::{look_up_cleared, look_up_laid};
use crate::missing::find_missing;
use crate::ordered::Ordered;
use crate::scan::scan;
use crate::seen::Seen;
use crate::typed::{Source, TypedRow};
use mx_book::StoreFault;
use mx_pay::Name;
use sqlite::{Alter, Connection};
use std::alloc::{AllocError, Global};

/// How many rows fit.
#[derive(Clone, Copy)]
pub struct Counts {
    /// Members.
    pub members: u64,
    /// Holders.
    pub holders: u64,
    /// Purses.
    pub purses: u64,
    /// Lines.
    pub lines: u64,
}

impl Counts {
    /// None so far.
    pub(crate) fn new() -> Counts {
        Counts {
            members: 0,
            holders: 0,
            purses: 0,
            lines: 0,
        }
    }

    /// One row more.
    pub(crate) fn add(&mut self, row: &TypedRow) {
        match row {
            TypedRow::Member(_, _) => self.members = self.members.saturating_add(1),
            TypedRow::Holder(_, _) => self.holders = self.holders.saturating_add(1),
            TypedRow::Purse(_, _) => self.purses = self.purses.saturating_add(1),
            TypedRow::Line(_, _, _) => self.lines = self.lines.saturating_add(1),
            _ => {}
        }
    }
}

/// What an audit came to.
#[derive(Drop)]
pub struct Checked {
    /// How many findings there are.
    pub found: u64,
    /// The first of them, at most as many as were asked for: of each a table, a key and what is wrong.
    pub findings: Vec<String>,
    /// How many members, holders, purses and lines fit.
    pub counts: Counts,
    /// What was seen of the rows that fit.
    seen: Seen,
}

impl Checked {
    /// The names of the purses that fit, in order.
    pub fn purses(&self, alloc: Global) -> Result<Vec<Name>, AllocError> {
        let mut names = Vec::new(alloc);
        for row in self.seen.purses() {
            names.push(row.0)?;
        }
        Ok(names)
    }
}

/// The tables, in the order in which they are gone over: what a row is held against comes before it.
pub(crate) const SOURCES: [Source; 12] = [
    Source::Meta,
    Source::Members,
    Source::Holders,
    Source::Tokens,
    Source::Purses,
    Source::Inbox,
    Source::Lines,
    Source::Tray,
    Source::Archive,
    Source::Loads,
    Source::Redemptions,
    Source::Settled,
];

/// Goes over the rows of a table. Memory where there is none, and Store where the query fails otherwise.
fn go_over<S: Alter>(
    conn: &mut Connection<S>,
    audit: &mut Audit,
    source: &Source,
) -> Result<(), StoreFault>
    ensures { Scans S.Store conn.old conn.new result
        (GoesOverOne (state S.Store conn.old).now.trees source.now audit.old audit.new) }
{
    audit.source = *source;
    scan(conn, source.text(), &[], audit)
}

/// Goes over the rows of these tables, one table after another. A fault is that of the first that fails.
fn go_over_all<S: Alter>(
    conn: &mut Connection<S>,
    audit: &mut Audit,
    sources: &[Source],
) -> Result<(), StoreFault>
    requires { 0 < length sources.now }
    ensures { Scans S.Store conn.old conn.new result
        (GoesOver (state S.Store conn.old).now.trees sources.now audit.old audit.new) }
{
    for source in sources {
        go_over(conn, audit, source)?;
    }
    Ok(())
}

/// How many of what has to be looked up isn't as it should be. Memory where there is none, and Store where a query fails
/// otherwise. The connection was found open.
fn look_up<S: Alter>(
    alloc: Global,
    conn: &mut Connection<S>,
    audit: &mut Audit,
) -> Result<u64, StoreFault>
    ensures { IsAwake (state S.Store conn.old) → Reads S.Store conn.old conn.new result
        (λ r found. ArePurses r → AreDetails r.archive → (found ≡ 0 ↔ IsLookedUp r audit.old)) }
{
    let findings = &mut audit.findings;
    let laid = look_up_laid(alloc, conn, findings, &audit.laid)?;
    let cleared = look_up_cleared(alloc, conn, findings, &audit.cleared)?;
    Ok(laid.saturating_add(cleared))
}

/// Goes over the tables of a store, to the end also where there are findings, and keeps so many of the first at most.
/// What it finds are rows that aren't rows of their table, or don't fit those before them; tokens and lines that are
/// missing; and results that lie or would be cleared where they can't. What doesn't fit is missing to the rest, so one
/// mistake can tell several findings. Memory where there is none, and Store where a query fails otherwise.
pub fn check<S: Ordered>(
    alloc: Global,
    conn: &mut Connection<S>,
    most: usize,
) -> Result<Checked, StoreFault>
    ensures { Audits S.Store conn.old conn.new
        (result_map_both (λ c. c.found) (λ e. e) result) }
{
    // The reader says that the tables obey their schema.
    let _schema = conn.schema();
    let mut audit = Audit::new(alloc, most);
    go_over_all(conn, &mut audit, &SOURCES)?;
    let missing = find_missing(conn, &audit.seen, &mut audit.findings)?;
    let unfit = audit.found;
    let looked = look_up(alloc, conn, &mut audit)?;
    Ok(Checked {
        found: unfit.saturating_add(missing).saturating_add(looked),
        findings: audit.findings.into_texts(),
        counts: audit.counts,
        seen: audit.seen,
    })
}
