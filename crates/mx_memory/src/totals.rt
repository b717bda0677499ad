//! What the books come to: sums over the rows of members and purses.
ghost use Rattle.std.specs.Prelude.{◌≡◌, ◌≤◌, ◌^◌, ℕ, List, sum_by, Some};
ghost use Rattle.std.specs.FinMap.{get};
ghost use Rattle.mx_pay.specs.Limits.{most_amount};
ghost use Rattle.mx_pay.specs.Log.{has_logged, none_logged};
ghost use Rattle.mx_memory.specs.Logs.{bare_balance, row_with};
ghost use Rattle.mx_pay.specs.Names.{name_cmp};
ghost use Rattle.mx_pay.specs.Details.{Details, details_cmp};
ghost use Rattle.mx_book.specs.declared.values.MemberRow.{MemberRow as KeptMember};
ghost use Rattle.mx_memory.specs.declared.purses.BareRow.{BareRow as KeptBare};
ghost use Rattle.mx_book.specs.declared.values.Redemption.{Redemption as Kept};
ghost use Rattle.mx_sorted.specs.Slots.{map_of};
ghost use Rattle.mx_sorted.specs.Left.{rows_left};
ghost use Rattle.mx_book.specs.RowReads.{is_counted, counted_of, uncollected_amount};
ghost use Rattle.mx_book.specs.RowEdits.{log_at};
ghost use Rattle.mx_purse.specs.Operations.{expects_ack};
ghost use Rattle.mx_book.specs.RowTotals.{has_sent, has_left, awaited, lost_by, lost_in_log, lost_in_archive};
ghost use Rattle.mx_book.specs.World.{Name as NameOf, result_cmp};

use crate::purses::{BareRow, Purses};
use crate::redemptions::is_of;
use mx_book::sent::waits;
use mx_book::values::{MemberRow, Redemption, Scope};
use mx_pay::names::same_name;
use mx_pay::{Amount, Log, Name, PayDetails};
use mx_purse::status::Status;
use mx_sorted::{Rows, Table};

/// The sum of all grants to these members.
pub(crate) fn granted_in(rows: Rows<'_, Name, MemberRow>) -> u128
    ensures { result ≡ sum_by (λ (e : List ℕ × KeptMember). e.1.granted) (rows_left rows.entry) }
{
    let mut sum = 0;
    for row in rows {
        sum += row.1.granted as u128;
    }
    sum
}

/// What is left to these members to load purses with.
pub(crate) fn float_in(rows: Rows<'_, Name, MemberRow>) -> u128
    ensures { result ≡ sum_by (λ (e : List ℕ × KeptMember). e.1.float) (rows_left rows.entry) }
{
    let mut sum = 0;
    for row in rows {
        sum += row.1.float as u128;
    }
    sum
}

/// Whether a purse counts.
fn is_counted(purses: &Purses, holders: &Table<Name, Name>, scope: &Scope, purse: Name) -> bool
    ensures { result ≡ is_counted (map_of name_cmp holders.now) scope.now
        (get (map_of name_cmp purses.now) purse) }
{
    match scope {
        Scope::Scheme => true,
        Scope::Member(name) => is_of(purses, holders, *name, purse),
    }
}

/// What these loads come to, of the purses that count.
pub(crate) fn issued_in(
    rows: Rows<'_, (Name, Name), Amount>,
    purses: &Purses,
    holders: &Table<Name, Name>,
    scope: &Scope,
) -> u128
    ensures { result ≡ sum_by (λ (e : (List ℕ × List ℕ) × ℕ). counted_of
        (map_of name_cmp purses.now) (map_of name_cmp holders.now) scope.now (λ n. n) e.0 e.1)
        (rows_left rows.entry) }
{
    let mut sum = 0;
    for row in rows {
        if is_counted(purses, holders, scope, row.0.0) {
            sum += row.1.get() as u128;
        }
    }
    sum
}

/// What these redemptions come to, of the purses that count.
pub(crate) fn redeemed_in(
    rows: Rows<'_, (Name, Name), Redemption>,
    purses: &Purses,
    holders: &Table<Name, Name>,
    scope: &Scope,
) -> u128
    ensures { result ≡ sum_by (λ (e : (List ℕ × List ℕ) × Kept). counted_of
        (map_of name_cmp purses.now) (map_of name_cmp holders.now) scope.now
        (λ x. x.amount) e.0 e.1) (rows_left rows.entry) }
{
    let mut sum = 0;
    for row in rows {
        if is_counted(purses, holders, scope, row.0.0) {
            sum += row.1.amount.get() as u128;
        }
    }
    sum
}

/// What those of these redemptions come to that aren't collected, of the purses that count.
pub(crate) fn uncollected_in(
    rows: Rows<'_, (Name, Name), Redemption>,
    purses: &Purses,
    holders: &Table<Name, Name>,
    scope: &Scope,
) -> u128
    ensures { result ≡ sum_by (λ (e : (List ℕ × List ℕ) × Kept). counted_of
        (map_of name_cmp purses.now)
        (map_of name_cmp holders.now) scope.now uncollected_amount e.0 e.1) (rows_left rows.entry) }
{
    let mut sum = 0;
    for row in rows {
        if !row.1.collected && is_counted(purses, holders, scope, row.0.0) {
            sum += row.1.amount.get() as u128;
        }
    }
    sum
}

/// Whether the purse of this row counts.
fn counts(holders: &Table<Name, Name>, scope: &Scope, row: &BareRow) -> bool
    ensures { result ≡ is_counted (map_of name_cmp holders.now) scope.now
        (Some (row_with row.now none_logged)) }
{
    match scope {
        Scope::Scheme => true,
        Scope::Member(name) => match holders.get(row.holder) {
            None => false,
            Some(owner) => same_name(name, owner),
        },
    }
}

/// The balances of those of these purses that count.
pub(crate) fn balances_in(
    rows: Rows<'_, Name, BareRow>,
    holders: &Table<Name, Name>,
    scope: &Scope,
) -> u128
    ensures { result ≡ sum_by (λ (e : List ℕ × KeptBare). bare_balance (map_of name_cmp holders.now)
        scope.now e.1) (rows_left rows.entry) }
{
    let mut sum = 0;
    for row in rows {
        if counts(holders, scope, &row.1) {
            sum += row.1.purse.balance as u128;
        }
    }
    sum
}

/// Whether the value of details has left the purse that pays: it waits for their acknowledgement, has them in its
/// log, or they are archived for it.
fn has_left(purses: &Purses, archive: &Table<(Name, PayDetails), ()>, details: &PayDetails) -> bool
    ensures { result ≡ has_left (map_of name_cmp purses.now)
        (map_of result_cmp archive.now) details.now }
{
    let payer = details.from();
    has_sent(purses, payer, details) || archive.get((payer, *details)).is_some()
}

/// Whether a purse waits for the acknowledgement of details, or has them in its log.
fn has_sent(purses: &Purses, purse: Name, details: &PayDetails) -> bool
    ensures { result ≡ has_sent (get (map_of name_cmp purses.now) purse) details.now }
{
    match purses.bare(purse) {
        None => false,
        Some(row) => waits(row.purse.status, details) || purses.log_of(purse).has(details),
    }
}

/// The value that a purse of this status waits for, where it has left the other purse.
fn awaited(status: Status, purses: &Purses, archive: &Table<(Name, PayDetails), ()>) -> u64
    ensures value { result ≡ awaited (map_of name_cmp purses.now)
        (map_of result_cmp archive.now) status }
    ensures limit { result ≤ most_amount }
{
    match status {
        Status::Epv(details) => {
            if has_left(purses, archive, &details) {
                details.value().get()
            } else {
                0
            }
        }
        Status::EaFrom | Status::EaTo | Status::Epr(_) | Status::Epa(_) => 0,
    }
}

/// What these purses wait for that has left the other purse.
pub(crate) fn transit_in(
    rows: Rows<'_, Name, BareRow>,
    purses: &Purses,
    archive: &Table<(Name, PayDetails), ()>,
) -> u128
    ensures { result ≡ sum_by (λ (e : List ℕ × KeptBare). awaited (map_of name_cmp purses.now)
        (map_of result_cmp archive.now) e.1.purse.status) (rows_left rows.entry) }
{
    let mut sum = 0;
    for row in rows {
        sum += awaited(row.1.purse.status, purses, archive) as u128;
    }
    sum
}

/// The value of details that are logged for a purse, where they are to it, it has left the other purse, and they aren't
/// settled.
fn lost_by(
    purses: &Purses,
    archive: &Table<(Name, PayDetails), ()>,
    settled: &Table<PayDetails, ()>,
    purse: Name,
    details: &PayDetails,
) -> u64
    ensures value { result ≡ lost_by (map_of name_cmp purses.now) (map_of result_cmp archive.now)
        (map_of details_cmp settled.now) purse details.now }
    ensures limit { result ≤ most_amount }
{
    if same_name(&details.to(), &purse)
        && has_left(purses, archive, details)
        && settled.get(*details).is_none()
    {
        details.value().get()
    } else {
        0
    }
}

/// What is lost by the log of a purse.
fn lost_in_log(
    purses: &Purses,
    archive: &Table<(Name, PayDetails), ()>,
    settled: &Table<PayDetails, ()>,
    purse: Name,
    log: &Log,
) -> u128
    ensures value { result ≡ lost_in_log (map_of name_cmp purses.now)
        (map_of result_cmp archive.now)
        (map_of details_cmp settled.now) purse log.now }
    ensures limit { result ≤ 2 ^ 48 }
{
    let mut sum = 0;
    for place in 0..log.len() {
        if let Some(details) = log.at(place) {
            sum += lost_by(purses, archive, settled, purse, &details) as u128;
        }
    }
    sum
}

/// What is lost by the logs of these purses.
pub(crate) fn lost_in_logs(
    rows: Rows<'_, Name, BareRow>,
    purses: &Purses,
    archive: &Table<(Name, PayDetails), ()>,
    settled: &Table<PayDetails, ()>,
) -> u128
    ensures value { result ≡ sum_by (λ (e : List ℕ × KeptBare).
        lost_in_log (map_of name_cmp purses.now) (map_of result_cmp archive.now)
        (map_of details_cmp settled.now) e.0 (log_at (get (map_of name_cmp purses.now) e.0)))
        (rows_left rows.entry) }
    ensures limit { result ≤ 2 ^ 112 }
{
    let mut sum = 0;
    for row in rows {
        sum += lost_in_log(purses, archive, settled, row.0, &purses.log_of(row.0));
    }
    sum
}

/// What is lost by details that are archived for a purse, where its log hasn't them still.
fn lost_in_archive(
    purses: &Purses,
    archive: &Table<(Name, PayDetails), ()>,
    settled: &Table<PayDetails, ()>,
    purse: Name,
    details: &PayDetails,
) -> u64
    ensures value { result ≡ lost_in_archive (map_of name_cmp purses.now)
        (map_of result_cmp archive.now)
        (map_of details_cmp settled.now) (purse, details.now) }
    ensures limit { result ≤ most_amount }
{
    if is_logged(purses, purse, details) {
        0
    } else {
        lost_by(purses, archive, settled, purse, details)
    }
}

/// Whether details are in the log of a purse.
fn is_logged(purses: &Purses, purse: Name, details: &PayDetails) -> bool
    ensures { result ≡ has_logged (log_at (get (map_of name_cmp purses.now) purse)) details.now }
{
    purses.log_of(purse).has(details)
}

/// What is lost by these archived details, where the logs haven't them still.
pub(crate) fn lost_in_results(
    rows: Rows<'_, (Name, PayDetails), ()>,
    purses: &Purses,
    archive: &Table<(Name, PayDetails), ()>,
    settled: &Table<PayDetails, ()>,
) -> u128
    ensures value { result ≡ sum_by (λ (e : (NameOf × Details) × Unit {0}).
        lost_in_archive (map_of name_cmp purses.now) (map_of result_cmp archive.now)
        (map_of details_cmp settled.now) e.0)
        (rows_left rows.entry) }
    ensures limit { result ≤ 2 ^ 112 }
{
    let mut sum = 0;
    for row in rows {
        sum += lost_in_archive(purses, archive, settled, row.0.0, &row.0.1) as u128;
    }
    sum
}
