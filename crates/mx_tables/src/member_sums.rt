//! The sums of each member: one pass over each table.
ghost use Rattle.std.specs.Prelude.{◌≡◌, ◌+◌, ◌<◌, ◌≤◌, ◌^◌, IfErr, IfOk, List, OnOk, is_ok, map, true};
ghost use Rattle.std.specs.FinMap as fmap;
ghost use Rattle.std.specs.List.{AllByRecursion};
ghost use Rattle.mx_pay.specs.Limits.{most_number};
ghost use Rattle.mx_pay.specs.Names.{name_cmp};
ghost use Rattle.mx_sorted.specs.Slots.{map_of};
ghost use Rattle.mx_book.specs.declared.values.Scope.TheVariants.{Member};
ghost use Rattle.mx_tables.specs.Answers.{Displays};
ghost use Rattle.mx_tables.specs.Counted.{HasNoSums, IsListed, MayOwe, amounts_of, counted_row, member_listed, row_sums, sum_at, sums_at, totals_row};
ghost use Rattle.mx_tables.specs.States.{Asks, AsksOf, IsForMemory, Tells};
ghost use Rattle.mx_book.specs.Totals.{members_totals_of};

use crate::asking::ask;
use crate::sums::{Amounts, find_member_at, plus};
use mx_book::{MemberTotals, StoreFault};
use mx_cells::cells::{money_at, name_at};
use mx_pay::Name;
use mx_sorted::Table;
use sqlite::{Alter, Connection, Row};
use std::alloc::Global;

/// The sum of a member, or 0 where nothing was added to it.
fn sum_at(sums: &Table<Name, u128>, member: Name) -> u128
    ensures { result ≡ sum_at (map_of name_cmp sums.now) member }
{
    sums.get(member).copied().unwrap_or(0)
}

/// Adds a number to the sum of a member. Store where the sum is too large.
fn add_to(sums: &mut Table<Name, u128>, member: Name, more: u128) -> Result<(), StoreFault>
    ensures is { let before = map_of name_cmp sums.old in
        OnOk result (map_of name_cmp sums.new ≡ fmap.insert before member
        (sum_at before member + more)) }
    ensures fits { sum_at (map_of name_cmp sums.old) member + more < 2 ^ 128
        → IfErr result IsForMemory }
{
    let sum = plus(sum_at(sums, member), more)?;
    sums.reserve(1)?;
    sums.put(member, sum);
    Ok(())
}

/// Adds the number of a row of amounts to the sum of the member of the purse that it names. Store where there is no such
/// purse or holder.
fn add_row<S: Alter>(
    conn: &mut Connection<S>,
    sums: &mut Table<Name, u128>,
    amounts: Amounts,
    row: &Row,
) -> Result<(), StoreFault>
    ensures asks { AsksOf S.Store conn.old conn.new
        (MayOwe (map_of name_cmp sums.old) amounts row.now) result
        (λ r _. (m : List _)
        → sum_at (map_of name_cmp sums.new) m ≡ sum_at (map_of name_cmp sums.old) m
        + counted_row r.purses r.holders (Member m) row.now) }
    ensures small { (most : _)
        → ((m : List _) → sum_at (map_of name_cmp sums.old) m ≤ most)
        → OnOk result ((m : List _) → sum_at (map_of name_cmp sums.new) m ≤ most + most_number) }
{
    let purse = name_at(row, 0)?;
    let number = amounts.number_in(row)?;
    let Some(owner) = find_member_at(conn, &purse)? else {
        return Err(StoreFault::Store);
    };
    add_to(sums, owner, number as u128)
}

/// Adds up amounts, for each member, where nothing is summed yet.
fn add_amounts<S: Alter>(
    conn: &mut Connection<S>,
    sums: &mut Table<Name, u128>,
    amounts: Amounts,
) -> Result<(), StoreFault>
    requires { map_of name_cmp sums.old ≡ fmap.empty }
    ensures { Asks S.Store conn.old conn.new result
        (λ r _. (m : List _)
        → sum_at (map_of name_cmp sums.new) m ≡ amounts_of r (Member m) amounts) }
{
    let rows = ask(conn, amounts.text(), &[])?;
    for row in &rows {
        add_row(conn, sums, amounts, row)?;
    }
    Ok(())
}

/// The sums of the purses, for each member.
#[derive(Drop)]
pub struct MemberSums {
    /// What was redeemed that isn't collected yet.
    uncollected: Table<Name, u128>,
    /// What was loaded.
    issued: Table<Name, u128>,
    /// What was redeemed.
    redeemed: Table<Name, u128>,
    /// The balances.
    balances: Table<Name, u128>,
}

/// No sums yet.
fn no_sums(alloc: Global) -> MemberSums
    ensures { HasNoSums result }
{
    MemberSums {
        uncollected: Table::new(alloc),
        issued: Table::new(alloc),
        redeemed: Table::new(alloc),
        balances: Table::new(alloc),
    }
}

/// Adds up all amounts, for each member, where nothing is summed yet.
fn add_all<S: Alter>(conn: &mut Connection<S>, sums: &mut MemberSums) -> Result<(), StoreFault>
    requires { HasNoSums sums.old }
    ensures { Asks S.Store conn.old conn.new result
        (λ r _. (m : List _) → sums_at sums.new m ≡ row_sums r (Member m)) }
{
    add_amounts(conn, &mut sums.uncollected, Amounts::Uncollected)?;
    add_amounts(conn, &mut sums.issued, Amounts::Issued)?;
    add_amounts(conn, &mut sums.redeemed, Amounts::Redeemed)?;
    add_amounts(conn, &mut sums.balances, Amounts::Balances)
}

/// The member of a row with what the books come to for it.
fn totals_in(row: &Row, sums: &MemberSums) -> Result<(Name, MemberTotals), StoreFault>
    ensures is { IfOk result (λ total. total ≡ totals_row sums.now row.now) }
    ensures there { Displays IsListed member_listed row.now → is_ok result ≡ true }
{
    let name = name_at(row, 0)?;
    let totals = MemberTotals {
        granted: money_at(row, 1)? as u128,
        float: money_at(row, 2)? as u128,
        uncollected: sum_at(&sums.uncollected, name),
        issued: sum_at(&sums.issued, name),
        redeemed: sum_at(&sums.redeemed, name),
        balances: sum_at(&sums.balances, name),
    };
    Ok((name, totals))
}

/// The members of these rows, each with what the books come to for it.
fn totals_in_rows(
    alloc: Global,
    rows: &[Row],
    sums: &MemberSums,
) -> Result<Vec<(Name, MemberTotals)>, StoreFault>
    ensures is { IfOk result (λ totals. totals.items ≡ map (totals_row sums.now) rows.now) }
    ensures there { AllByRecursion (Displays IsListed member_listed) rows.now
        → IfErr result IsForMemory }
{
    let mut totals = Vec::new(alloc);
    for row in rows {
        let total = totals_in(row, sums)?;
        totals.push(total)?;
    }
    Ok(totals)
}

/// Each member, in order, with what the books come to for it.
pub fn sum_members<S: Alter>(
    alloc: Global,
    conn: &mut Connection<S>,
) -> Result<Vec<(Name, MemberTotals)>, StoreFault>
    ensures { Tells S.Store conn.old conn.new result (λ w v. v.items ≡ members_totals_of w) }
{
    let rows = ask(
        conn,
        "SELECT name, granted, unspent FROM member ORDER BY name",
        &[],
    )?;
    let mut sums = no_sums(alloc);
    add_all(conn, &mut sums)?;
    totals_in_rows(alloc, &rows, &sums)
}
