//! The index of the redemptions that aren't collected, by member.
ghost use Rattle.std.specs.Prelude.{◌≡◌, ◌≤◌, ◌&&◌, IfErr, IfOk, Option, OnOk, not, map, sum_by};
ghost use Rattle.std.specs.FinMap as fmap;
ghost use Rattle.std.specs.List.{AllByRecursion};
ghost use Rattle.mx_pay.specs.Limits.{most_amount};
ghost use Rattle.mx_pay.specs.Names.{is_name};
ghost use Rattle.mx_book.specs.Index.{IsIndex, is_met, stands};
ghost use Rattle.mx_book.specs.Reads.{uncollected_of};
ghost use Rattle.mx_book.specs.RowEdits.{is_redeemed_of};
ghost use Rattle.mx_book.specs.Under.{pair_cmp};
ghost use Rattle.mx_book.specs.World.{Name as NameOf};
ghost use Rattle.mx_memory.specs.Due.{amount_at, owed};
ghost use Rattle.mx_tables.specs.Answers.{Displays};
ghost use Rattle.mx_tables.specs.Cached.{IsDue, ReadsThrough, due_of, keys_due};
ghost use Rattle.mx_tables.specs.Counted.{AreNames, is_among, key_in, key_shown};
ghost use Rattle.mx_tables.specs.States.{Asks, IsForMemory};
ghost use Rattle.mx_pay.specs.Names.{name_cmp};
ghost use Rattle.mx_tables.specs.declared.cache.Cache.{Cache as CacheOf};

use crate::asking::ask;
use crate::cache::Cache;
use crate::redemptions::find_redemption;
use crate::sums::find_member_at;
use mx_book::StoreFault;
use mx_cells::cells::name_at;
use mx_pay::Name;
use mx_pay::names::same_name;
use mx_sorted::Table;
use sqlite::{Alter, Connection, Row};
use std::alloc::{AllocError, Global};

/// Purses and references of redemptions that aren't collected, each under the member of the purse. None is no redemption,
/// and comes before all of them.
pub type Due = Table<(Name, Option<(Name, Name)>), ()>;

/// Puts a redemption under the member of its purse, where there is one.
pub fn owe(due: &mut Due, member: Option<Name>, key: (Name, Name)) -> Result<(), AllocError>
    ensures { OnOk result (due_of due.new ≡ owed (due_of due.old) member key) }
{
    due.reserve(1)?;
    if let Some(member) = member {
        due.put((member, Some(key)), ());
    }
    Ok(())
}

/// The redemptions under a member, in order.
pub fn list_keys(alloc: Global, due: &Due, member: Name) -> Result<Vec<(Name, Name)>, AllocError>
    ensures { IfOk result (λ r. r.items ≡ keys_due (due_of due.now) member) }
{
    let rows = due.rows_from((member, None));
    rows.take_while(|row| same_name(&member, &row.0.0))
        .filter_map(|row| row.0.1)
        .collect(alloc)
}

/// Takes these redemptions out from under a member.
pub fn drop_keys(due: &mut Due, member: Name, keys: &[(Name, Name)])
    ensures { (n : NameOf) (q : Option (NameOf × NameOf))
        → fmap.contains_key (due_of due.new) (n, q) ≡ (fmap.contains_key (due_of due.old) (n, q)
        && not (is_name n member && stands (λ _. is_among keys.now) n q)) }
{
    for key in keys {
        due.remove((member, Some(*key)));
    }
}

/// The purses and references that these rows show.
fn read_keys(alloc: Global, rows: &[Row]) -> Result<Vec<(Name, Name)>, StoreFault>
    ensures is { IfOk result (λ v. v.items ≡ map key_in rows.now) }
    ensures there { AllByRecursion (Displays AreNames key_shown) rows.now
        → IfErr result IsForMemory }
{
    let mut keys = Vec::new(alloc);
    for row in rows {
        keys.push((name_at(row, 0)?, name_at(row, 1)?))?;
    }
    Ok(keys)
}

/// The index of these redemptions.
fn index_keys<S: Alter>(
    alloc: Global,
    conn: &mut Connection<S>,
    keys: &[(Name, Name)],
) -> Result<Due, StoreFault>
    ensures { (k : CacheOf) → ReadsThrough S.Store conn.old conn.new k k result
        (λ r w due. IsIndex (pair_cmp name_cmp name_cmp)
        (λ n key. is_among keys.now key && is_redeemed_of r.purses r.holders n key) (due_of due)) }
{
    let mut due = Due::new(alloc);
    for key in keys {
        let member = find_member_at(conn, &key.0)?;
        owe(&mut due, member, *key)?;
    }
    Ok(due)
}

/// The redemptions that aren't collected, by a pass over the table of redemptions.
fn ask_due<S: Alter>(
    alloc: Global,
    conn: &mut Connection<S>,
) -> Result<Vec<(Name, Name)>, StoreFault>
    ensures { Asks S.Store conn.old conn.new result
        (λ r keys. (key : NameOf × NameOf) → is_among keys.items key
        ≡ is_met (λ x. not x.collected) (fmap.get r.redemptions key)) }
{
    let rows = ask(
        conn,
        "SELECT purse, reference FROM redemption WHERE collected = 0",
        &[],
    )?;
    read_keys(alloc, &rows)
}

/// The index of the redemptions that aren't collected.
fn list_due<S: Alter>(alloc: Global, conn: &mut Connection<S>) -> Result<Due, StoreFault>
    ensures { (k : CacheOf) → ReadsThrough S.Store conn.old conn.new k k result
        (λ r w due. IsDue r (due_of due)) }
{
    let keys = ask_due(alloc, conn)?;
    index_keys(alloc, conn, &keys)
}

/// The redemptions that aren't collected, taken out of the cache where they are cached.
fn take_due<S: Alter>(
    alloc: Global,
    conn: &mut Connection<S>,
    cache: &mut Cache,
) -> Result<Due, StoreFault>
    ensures { ReadsThrough S.Store conn.old conn.new cache.old cache.new result
        (λ r w due. IsDue r (due_of due)) }
{
    match cache.take_due() {
        Some(due) => Ok(due),
        None => list_due(alloc, conn),
    }
}

/// The amount of a redemption, or 0 where there is none.
fn read_amount<S: Alter>(conn: &mut Connection<S>, key: &(Name, Name)) -> Result<u64, StoreFault>
    ensures asks { Asks S.Store conn.old conn.new result
        (λ r n. n ≡ amount_at (fmap.get r.redemptions key.now)) }
    ensures small { IfOk result (λ n. n ≤ most_amount) }
{
    match find_redemption(conn, &key.0, &key.1)? {
        Some(amount) => Ok(amount.get()),
        None => Ok(0),
    }
}

/// What these redemptions come to.
fn sum_amounts<S: Alter>(
    conn: &mut Connection<S>,
    keys: &[(Name, Name)],
) -> Result<u128, StoreFault>
    ensures { (k : CacheOf) → ReadsThrough S.Store conn.old conn.new k k result
        (λ r w n. n ≡ sum_by (λ key. amount_at (fmap.get r.redemptions key)) keys.now) }
{
    let mut sum = 0;
    for key in keys {
        let amount = read_amount(conn, key)?;
        sum += amount as u128;
    }
    Ok(sum)
}

/// What the redemptions of a member's purses come to that aren't collected.
pub fn sum_due<S: Alter>(
    alloc: Global,
    conn: &mut Connection<S>,
    cache: &mut Cache,
    member: Name,
) -> Result<u128, StoreFault>
    ensures { ReadsThrough S.Store conn.old conn.new cache.old cache.new result
        (λ r w n. n ≡ uncollected_of w member) }
{
    let due = take_due(alloc, conn, cache)?;
    let keys = list_keys(alloc, &due, member);
    cache.fill_due(due);
    sum_amounts(conn, &keys?)
}
