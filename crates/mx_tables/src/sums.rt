//! What the books come to: sums over rows.
ghost use Rattle.std.specs.Prelude.{◌≡◌, ◌+◌, ◌<◌, ◌≤◌, ◌^◌, IfOk, is_ok, pos, sum_by, true};
ghost use Rattle.std.specs.FinMap as fmap;
ghost use Rattle.std.specs.List.{AllByRecursion};
ghost use Rattle.sqlite.specs.Held.{state};
ghost use Rattle.sqlite_value.specs.Order.{column};
ghost use Rattle.sqlite_value.specs.declared.value.Value.TheVariants.{Int};
ghost use Rattle.mx_pay.specs.Limits.{most_number};
ghost use Rattle.mx_book.specs.RowEdits.{member_at};
ghost use Rattle.mx_book.specs.RowReads.{is_counted};
ghost use Rattle.mx_book.specs.Sums.{sum_values};
ghost use Rattle.mx_tables.specs.Answers.{ArePurses};
ghost use Rattle.mx_tables.specs.Counted.{MayAdd, adds_text, amounts_text, counted_row, most_of, number_of, row_adds, row_sums, sum_of};
ghost use Rattle.mx_tables.specs.Results.{AreEntries};
ghost use Rattle.mx_tables.specs.States.{Asks, AsksOf, IsAwake, Tells};
ghost use Rattle.mx_tables.specs.declared.sums.Adds.TheVariants.{Counted};
ghost use Rattle.mx_book.specs.Totals.{member_totals_of, totals_of};

use crate::asking::ask;
use crate::between::{await_row, lose_result, lose_row};
use crate::holders::{find_holder, is_of};
use crate::members::find_member;
use crate::purses::find_owner;
use mx_book::{MemberTotals, Scope, StoreFault, Totals};
use mx_cells::cells::{amount_at, money_at, name_at};
use mx_pay::Name;
use sqlite::{Alter, Connection, Row};
use std::alloc::Global;

/// The sum with a number more. Store where it is too large.
pub fn plus(sum: u128, more: u128) -> Result<u128, StoreFault>
    ensures is { IfOk result (λ n. n ≡ sum + more) }
    ensures fits { sum + more < 2 ^ 128 → is_ok result ≡ true }
{
    sum.checked_add(more).ok_or(StoreFault::Store)
}

/// The member of the holder of a purse, or None where there is no such purse or holder.
pub(crate) fn find_member_at<S: Alter>(
    conn: &mut Connection<S>,
    purse: &Name,
) -> Result<Option<Name>, StoreFault>
    ensures { Asks S.Store conn.old conn.new result
        (λ r v. v ≡ member_at r.holders (fmap.get r.purses purse.now)) }
{
    match find_owner(conn, purse)? {
        None => Ok(None),
        Some(holder) => find_holder(conn, &holder),
    }
}

/// Whether a purse counts, by a connection that was found open.
fn counts<S: Alter>(
    conn: &mut Connection<S>,
    scope: &Scope,
    purse: &Name,
) -> Result<bool, StoreFault>
    ensures { IsAwake (state S.Store conn.old) → Asks S.Store conn.old conn.new result
        (λ r b. b ≡ is_counted r.holders scope.now (fmap.get r.purses purse.now)) }
{
    match scope {
        Scope::Scheme => Ok(true),
        Scope::Member(member) => Ok(is_of(member, &find_member_at(conn, purse)?)),
    }
}

/// What a row adds to a sum, by a connection that was found open: its number, where the purse that it names counts.
fn count_row<S: Alter>(
    conn: &mut Connection<S>,
    amounts: Amounts,
    scope: &Scope,
    row: &Row,
) -> Result<u128, StoreFault>
    ensures asks { IsAwake (state S.Store conn.old)
        → AsksOf S.Store conn.old conn.new (MayAdd (Counted amounts scope.now) row.now) result
        (λ r n. n ≡ counted_row r.purses r.holders scope.now row.now) }
    ensures small { IfOk result (λ n. n ≤ most_number) }
{
    let purse = name_at(row, 0)?;
    let number = amounts.number_in(row)?;
    let counted = counts(conn, scope, &purse)?;
    Ok(if counted { number as u128 } else { 0 })
}

/// Amounts of purses.
#[derive(Clone, Copy)]
pub enum Amounts {
    /// What was redeemed that isn't collected.
    Uncollected,
    /// What was loaded.
    Issued,
    /// What was redeemed.
    Redeemed,
    /// The balances.
    Balances,
}

impl Amounts {
    /// The query of each of these amounts, after the purse that it is of.
    pub fn text(self) -> &'static str
        ensures { result.now ≡ amounts_text self }
    {
        match self {
            Amounts::Uncollected => "SELECT purse, amount FROM redemption WHERE collected = 0",
            Amounts::Issued => "SELECT purse, amount FROM load",
            Amounts::Redeemed => "SELECT purse, amount FROM redemption",
            Amounts::Balances => "SELECT name, balance FROM purse",
        }
    }

    /// The number in a row of its query. Store where it isn't one of these amounts.
    pub fn number_in(self, row: &Row) -> Result<u64, StoreFault>
        ensures shown { IfOk result (λ n. column row.now 1 ≡ Int (pos n)) }
        ensures valid { IfOk result (λ n. n ≤ most_of self) }
        ensures there { (n : _) → n ≤ most_of self → column row.now 1 ≡ Int (pos n)
            → is_ok result ≡ true }
    {
        match self {
            Amounts::Balances => money_at(row, 1),
            _ => Ok(amount_at(row, 1)?.get()),
        }
    }
}

/// What is summed: what each row of a query adds.
#[derive(Clone, Copy)]
pub enum Adds {
    /// The amounts of the purses that count.
    Counted(Amounts, Scope),
    /// What each purse waits for that has left the other purse; nothing where it waits for no value.
    Waiting,
    /// What is lost by the log of each purse.
    Logged,
    /// What is lost by each archived result.
    Archived,
}

impl Adds {
    /// The query of these rows.
    fn text(&self) -> &'static str
        ensures { result.now ≡ adds_text self.now }
    {
        match self {
            Adds::Counted(amounts, _) => amounts.text(),
            Adds::Waiting => "SELECT status, details FROM purse",
            Adds::Logged => "SELECT name, log FROM purse",
            Adds::Archived => "SELECT purse, details FROM archive",
        }
    }
}

/// What a row adds to a sum, by a connection that was found open.
fn row_adds<S: Alter>(
    alloc: Global,
    conn: &mut Connection<S>,
    adds: &Adds,
    row: &Row,
) -> Result<u128, StoreFault>
    ensures asks { IsAwake (state S.Store conn.old)
        → AsksOf S.Store conn.old conn.new (MayAdd adds.now row.now) result
        (λ r n. ArePurses r → AreEntries r → n ≡ row_adds r adds.now row.now) }
    ensures small { IfOk result (λ n. n ≤ most_number) }
{
    match adds {
        Adds::Counted(amounts, scope) => count_row(conn, *amounts, scope, row),
        Adds::Waiting => await_row(alloc, conn, row),
        Adds::Logged => lose_row(alloc, conn, row),
        Adds::Archived => lose_result(alloc, conn, row),
    }
}

/// A sum over the rows of a query.
pub fn sum_of<S: Alter>(
    alloc: Global,
    conn: &mut Connection<S>,
    adds: &Adds,
) -> Result<u128, StoreFault>
    ensures asks { Asks S.Store conn.old conn.new result
        (λ r n. ArePurses r → AreEntries r → n ≡ sum_of r adds.now) }
    ensures small { IfOk result (λ n. n < 2 ^ 114) }
{
    let rows = ask(conn, adds.text(), &[])?;
    let mut sum = 0;
    for row in &rows {
        sum = plus(sum, row_adds(alloc, conn, adds, row)?)?;
    }
    Ok(sum)
}

/// The sums of the purses that count.
#[derive(Clone, Copy)]
pub struct Sums {
    /// What they redeemed that isn't collected yet.
    uncollected: u128,
    /// What was loaded onto them.
    issued: u128,
    /// What they redeemed.
    redeemed: u128,
    /// Their balances.
    balances: u128,
}

/// The sums of the purses that count.
fn sum_all<S: Alter>(
    alloc: Global,
    conn: &mut Connection<S>,
    scope: &Scope,
) -> Result<Sums, StoreFault>
    ensures { Asks S.Store conn.old conn.new result
        (λ r sums. ArePurses r → AreEntries r → sums ≡ row_sums r scope.now) }
{
    Ok(Sums {
        uncollected: sum_of(alloc, conn, &Adds::Counted(Amounts::Uncollected, *scope))?,
        issued: sum_of(alloc, conn, &Adds::Counted(Amounts::Issued, *scope))?,
        redeemed: sum_of(alloc, conn, &Adds::Counted(Amounts::Redeemed, *scope))?,
        balances: sum_of(alloc, conn, &Adds::Counted(Amounts::Balances, *scope))?,
    })
}

/// What the books come to for a member, or None where there is no such member.
pub fn sum_member<S: Alter>(
    alloc: Global,
    conn: &mut Connection<S>,
    member: &Name,
) -> Result<Option<MemberTotals>, StoreFault>
    ensures { Tells S.Store conn.old conn.new result (λ w v. v ≡ member_totals_of w member.now) }
{
    let Some(row) = find_member(conn, member)? else {
        return Ok(None);
    };
    let sums = sum_all(alloc, conn, &Scope::Member(*member))?;
    Ok(Some(MemberTotals {
        granted: row.granted as u128,
        float: row.float as u128,
        uncollected: sums.uncollected,
        issued: sums.issued,
        redeemed: sums.redeemed,
        balances: sums.balances,
    }))
}

/// The sum of the money in a column of rows.
fn sum_column(rows: &[Row], at: usize) -> Result<u128, StoreFault>
    ensures is { IfOk result (λ n. n ≡ sum_by (λ row. number_of (column row at)) rows.now) }
    ensures there { AllByRecursion (λ row. (n : _) × (n ≤ most_number)
        × (column row at ≡ Int (pos n))) rows.now → is_ok result ≡ true }
{
    let mut sum = 0;
    for row in rows {
        sum = plus(sum, money_at(row, at)? as u128)?;
    }
    Ok(sum)
}

/// The sum of all grants, and that of all floats.
fn sum_grants<S: Alter>(conn: &mut Connection<S>) -> Result<(u128, u128), StoreFault>
    ensures { Asks S.Store conn.old conn.new result
        (λ r sums. (sums.0 ≡ sum_values (λ m. m.granted) r.members)
        × (sums.1 ≡ sum_values (λ m. m.float) r.members)) }
{
    let rows = ask(conn, "SELECT granted, unspent FROM member", &[])?;
    Ok((sum_column(&rows, 0)?, sum_column(&rows, 1)?))
}

/// What the books come to for the whole scheme.
pub fn sum_scheme<S: Alter>(alloc: Global, conn: &mut Connection<S>) -> Result<Totals, StoreFault>
    ensures { Tells S.Store conn.old conn.new result (λ w v. v ≡ totals_of w) }
{
    let (granted, float) = sum_grants(conn)?;
    let sums = sum_all(alloc, conn, &Scope::Scheme)?;
    let transit = sum_of(alloc, conn, &Adds::Waiting)?;
    let in_logs = sum_of(alloc, conn, &Adds::Logged)?;
    let in_archive = sum_of(alloc, conn, &Adds::Archived)?;
    Ok(Totals {
        granted,
        float,
        uncollected: sums.uncollected,
        issued: sums.issued,
        redeemed: sums.redeemed,
        balances: sums.balances,
        transit,
        lost: plus(in_logs, in_archive)?,
    })
}
