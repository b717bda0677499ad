//! What is missing once all rows were gone over.
ghost use Rattle.std.specs.Prelude.{◌≡◌, ◌↔◌, IfOk, true};
ghost use Rattle.sqlite.specs.Held.{state};
ghost use Rattle.mx_tables.specs.States.{IsAwake, Reads};
ghost use Rattle.mx_audit.specs.Seen.{is_whole};

use crate::findings::{Findings, Subject, Wrong};
use crate::scan::{Takes, scan};
use crate::seen::{PurseSeen, Seen};
use mx_book::{MOST_MESSAGES, MOST_PURSES, StoreFault};
use mx_cells::cells::number_at;
use mx_pay::Name;
use sqlite::{Alter, Connection, Row};
use sqlite_value::value::ValueRef;

/// How much is missing: tokens of the operator, of members and of holders, and lines of purses. Holders with more than
/// 64 purses and purses with more than 32 messages count too. Memory where there is none, and Store where a query fails
/// otherwise. The connection was found open.
pub fn find_missing<S: Alter>(
    conn: &mut Connection<S>,
    seen: &Seen,
    findings: &mut Findings,
) -> Result<u64, StoreFault>
    ensures missing { IfOk result (λ missing. missing ≡ 0 ↔ is_whole seen.now ≡ true) }
    ensures reads { IsAwake (state S.Store conn.old)
        → Reads S.Store conn.old conn.new result (λ _ _. Unit {0}) }
{
    if seen.is_whole() {
        return Ok(0);
    }
    let tokens = tell_operator(seen, findings)?;
    let members = tell_members(seen, findings)?;
    let holders = tell_holders(seen, findings)?;
    let purses = tell_purses(conn, seen, findings)?;
    let missing = tokens
        .saturating_add(members)
        .saturating_add(holders)
        .saturating_add(purses);
    Ok(missing.max(1))
}

/// Tells where the operator has no token, and counts that.
fn tell_operator(seen: &Seen, findings: &mut Findings) -> Result<u64, StoreFault> {
    if seen.has_operator() {
        return Ok(0);
    }
    findings.tell(&Subject::Books, &Wrong::Told("the operator has no token"))?;
    Ok(1)
}

/// Tells the members with no clerk's token, and counts them.
fn tell_members(seen: &Seen, findings: &mut Findings) -> Result<u64, StoreFault> {
    let mut found: u64 = 0;
    for row in seen.members() {
        if !row.1 {
            found = found.saturating_add(1);
            findings.tell(
                &Subject::Named("member", row.0),
                &Wrong::Told("no clerk's token"),
            )?;
        }
    }
    Ok(found)
}

/// Tells the holders with no token and those with more than 64 purses, and counts both.
fn tell_holders(seen: &Seen, findings: &mut Findings) -> Result<u64, StoreFault> {
    let mut found: u64 = 0;
    for row in seen.holders() {
        let subject = Subject::Named("holder", row.0);
        if !row.1.has_token {
            found = found.saturating_add(1);
            findings.tell(&subject, &Wrong::Told("no token"))?;
        }
        if row.1.purses > MOST_PURSES as u64 {
            found = found.saturating_add(1);
            findings.tell(&subject, &Wrong::Told("more than 64 purses"))?;
        }
    }
    Ok(found)
}

/// Tells the purses with more than 32 messages and those whose lines aren't all there, and counts both.
fn tell_purses<S: Alter>(
    conn: &mut Connection<S>,
    seen: &Seen,
    findings: &mut Findings,
) -> Result<u64, StoreFault>
    ensures { IsAwake (state S.Store conn.old)
        → Reads S.Store conn.old conn.new result (λ _ _. Unit {0}) }
{
    let mut found: u64 = 0;
    for row in seen.purses() {
        let more = tell_purse(conn, findings, row.0, &row.1)?;
        found = found.saturating_add(more);
    }
    Ok(found)
}

/// Tells where a purse has more than 32 messages, and where its lines aren't all there, and counts both.
fn tell_purse<S: Alter>(
    conn: &mut Connection<S>,
    findings: &mut Findings,
    name: Name,
    purse: &PurseSeen,
) -> Result<u64, StoreFault>
    ensures { IsAwake (state S.Store conn.old)
        → Reads S.Store conn.old conn.new result (λ _ _. Unit {0}) }
{
    let crowded = tell_crowded(findings, name, purse)?;
    if purse.lines == purse.line_count {
        return Ok(crowded);
    }
    tell_gap(conn, findings, name, purse.line_count)?;
    Ok(crowded.saturating_add(1))
}

/// Tells where a purse has more than 32 messages, and counts that.
fn tell_crowded(findings: &mut Findings, name: Name, purse: &PurseSeen) -> Result<u64, StoreFault> {
    if purse.messages <= MOST_MESSAGES as u64 {
        return Ok(0);
    }
    findings.tell(
        &Subject::Named("purse", name),
        &Wrong::Told("more than 32 messages"),
    )?;
    Ok(1)
}

/// The query that shows the numbers of a purse's lines, as they rise.
const NUMBERS: &str = "SELECT number FROM line WHERE purse = ?1 ORDER BY number";

/// Tells which line of a purse that has to have so many is the first that isn't there. It asks for them only where the
/// finding is to be kept.
fn tell_gap<S: Alter>(
    conn: &mut Connection<S>,
    findings: &mut Findings,
    purse: Name,
    count: u64,
) -> Result<(), StoreFault>
    ensures { IsAwake (state S.Store conn.old)
        → Reads S.Store conn.old conn.new result (λ _ _. Unit {0}) }
{
    if !findings.has_room() {
        return Ok(());
    }
    let mut gap = Gap {
        next: 1,
        behind: None,
    };
    let name = ValueRef::Text(purse.as_str().as_bytes());
    scan(conn, NUMBERS, &[name], &mut gap)?;
    let (subject, wrong) = told_of(&gap, purse, count);
    findings.tell(&subject, &wrong)
}

/// What is told of the first gap in the lines of a purse that has to have so many. Where there is none, some of them
/// don't fit.
fn told_of(gap: &Gap, purse: Name, count: u64) -> (Subject, Wrong) {
    let named = Subject::Named("purse", purse);
    if gap.next > count {
        return (named, Wrong::Told("not all of its lines fit"));
    }
    match gap.behind {
        Some(number) => (Subject::Line(purse, number), Wrong::NoLine(gap.next)),
        None => (named, Wrong::Missing(gap.next)),
    }
}

/// The first gap in numbers that rise.
#[derive(Drop)]
struct Gap {
    /// The first number above 0 that wasn't there so far.
    next: u64,
    /// The first that came behind it.
    behind: Option<u64>,
}

impl Takes for Gap {
    ghost takes = { λ _ _ _. Unit {0} };

    fn take(&mut self, row: &Row) -> Result<(), StoreFault> {
        let Ok(number) = number_at(row, 0) else {
            return Ok(());
        };
        if self.behind.is_some() || number < self.next {
            return Ok(());
        }
        if number == self.next {
            self.next = self.next.saturating_add(1);
        } else {
            self.behind = Some(number);
        }
        Ok(())
    }
}
