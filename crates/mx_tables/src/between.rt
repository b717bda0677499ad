//! The value between purses: what is on its way, and what is lost.
ghost use Rattle.std.specs.Prelude.{◌≡◌, ◌≤◌, IfOk};
ghost use Rattle.sqlite.specs.Held.{state};
ghost use Rattle.mx_pay.specs.Limits.{most_amount, most_number};
ghost use Rattle.mx_pay.specs.Log.{has_logged};
ghost use Rattle.mx_book.specs.RowEdits.{log_at};
ghost use Rattle.mx_book.specs.RowTotals.{has_sent, lost_by};
ghost use Rattle.mx_tables.specs.Answers.{ArePurses};
ghost use Rattle.mx_tables.specs.Counted.{MayAdd, left_value, log_row, result_row, waiting_row};
ghost use Rattle.mx_tables.specs.Results.{AreDetails, AreEntries};
ghost use Rattle.mx_tables.specs.States.{Asks, AsksOf, IsAwake};
ghost use Rattle.mx_tables.specs.declared.sums.Adds.TheVariants.{Archived, Logged, Waiting};

use crate::purses::find_purse;
use crate::results::find_archived;
use crate::settled::find_settled;
use crate::sums::plus;
use mx_book::sent::is_sent_by;
use mx_book::{PurseRow, StoreFault};
use mx_cells::cells::{entry_at, log_at, name_at, status_at};
use mx_pay::names::same_name;
use mx_pay::{Name, PayDetails};
use mx_purse::Status;
use sqlite::{Alter, Connection, Row};
use std::alloc::Global;

/// Whether a purse waits for the acknowledgement of details, or has them in its log.
fn has_sent(purse: &Option<PurseRow>, details: &PayDetails) -> bool
    ensures { result ≡ has_sent purse.now details.now }
{
    match purse {
        Some(row) => is_sent_by(row, details),
        None => false,
    }
}

/// Whether details are in the log of a purse.
#[tactic(auto, using(crate::proofs::CountedSums::nothing_logged))]
fn is_logged(purse: &Option<PurseRow>, details: &PayDetails) -> bool
    ensures { result ≡ has_logged (log_at purse.now) details.now }
{
    match purse {
        Some(row) => row.purse.log().has(details),
        None => false,
    }
}

/// The value of details, where it has left the purse that pays: it waits for their acknowledgement, has them in its
/// log, or they are archived for it.
pub fn value_left<S: Alter>(
    alloc: Global,
    conn: &mut Connection<S>,
    details: &PayDetails,
) -> Result<u128, StoreFault>
    ensures asks { Asks S.Store conn.old conn.new result
        (λ r n. ArePurses r → AreDetails r.archive
        → n ≡ left_value r.purses r.archive details.now) }
    ensures small { IfOk result (λ n. n ≤ most_amount) }
{
    let value = details.value().get() as u128;
    let payer = details.from();
    let row = find_purse(conn, &payer)?;
    if has_sent(&row, details) {
        return Ok(value);
    }
    let found = find_archived(alloc, conn, &payer, details)?;
    Ok(if found { value } else { 0 })
}

/// What the purse of the status in a row waits for, where it has left the other purse; nothing where it waits for no value.
/// Store where the row shows no status. The connection was found open.
pub fn await_row<S: Alter>(
    alloc: Global,
    conn: &mut Connection<S>,
    row: &Row,
) -> Result<u128, StoreFault>
    ensures asks { IsAwake (state S.Store conn.old)
        → AsksOf S.Store conn.old conn.new (MayAdd Waiting row.now) result
        (λ r n. ArePurses r → AreDetails r.archive
        → n ≡ waiting_row r.purses r.archive row.now) }
    ensures small { IfOk result (λ n. n ≤ most_amount) }
{
    match status_at(row, 0)? {
        Status::Epv(details) => value_left(alloc, conn, &details),
        _ => Ok(0),
    }
}

/// The value of details that are logged for a purse, where they are to it, it has left the other purse, and they aren't
/// settled. The connection was found open.
fn lost_by<S: Alter>(
    alloc: Global,
    conn: &mut Connection<S>,
    purse: &Name,
    details: &PayDetails,
) -> Result<u128, StoreFault>
    ensures asks { IsAwake (state S.Store conn.old) → Asks S.Store conn.old conn.new result
        (λ r n. ArePurses r → AreEntries r
        → n ≡ lost_by r.purses r.archive r.settled purse.now details.now) }
    ensures small { IfOk result (λ n. n ≤ most_amount) }
{
    if !same_name(&details.to(), purse) {
        return Ok(0);
    }
    let settled = find_settled(alloc, conn, details)?;
    if settled {
        Ok(0)
    } else {
        value_left(alloc, conn, details)
    }
}

/// What is lost by the log in a row, by a connection that was found open.
pub fn lose_row<S: Alter>(
    alloc: Global,
    conn: &mut Connection<S>,
    row: &Row,
) -> Result<u128, StoreFault>
    ensures asks { IsAwake (state S.Store conn.old)
        → AsksOf S.Store conn.old conn.new (MayAdd Logged row.now) result
        (λ r n. ArePurses r → AreEntries r
        → n ≡ log_row r.purses r.archive r.settled row.now) }
    ensures small { IfOk result (λ n. n ≤ most_number) }
{
    let purse = name_at(row, 0)?;
    let log = log_at(row, 1)?;
    let mut sum = 0;
    for place in 0..log.len() {
        let details = log.at(place).ok_or(StoreFault::Store)?;
        sum = plus(sum, lost_by(alloc, conn, &purse, &details)?)?;
    }
    Ok(sum)
}

/// What is lost by the archived result in a row, where the log of its purse hasn't it still. Store where there is no such
/// purse.
pub fn lose_result<S: Alter>(
    alloc: Global,
    conn: &mut Connection<S>,
    row: &Row,
) -> Result<u128, StoreFault>
    ensures asks { AsksOf S.Store conn.old conn.new (MayAdd Archived row.now) result
        (λ r n. ArePurses r → AreEntries r
        → n ≡ result_row r.purses r.archive r.settled row.now) }
    ensures small { IfOk result (λ n. n ≤ most_amount) }
{
    let purse = name_at(row, 0)?;
    let details = entry_at(row, 1)?;
    let kept = find_purse(conn, &purse)?;
    if kept.is_none() {
        return Err(StoreFault::Store);
    }
    if is_logged(&kept, &details) {
        Ok(0)
    } else {
        lost_by(alloc, conn, &purse, &details)
    }
}
