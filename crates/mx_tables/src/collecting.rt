//! The redemptions of a member's purses are collected.
ghost use Rattle.std.specs.Prelude.{◌≡◌, IsTrue};
ghost use Rattle.std.specs.FinMap as fmap;
ghost use Rattle.std.specs.Ordering.{eq_by_cmp};
ghost use Rattle.mx_book.specs.RowEdits.{marked, member_at, rewritten};
ghost use Rattle.mx_book.specs.Under.{pair_cmp, remake};
ghost use Rattle.mx_book.specs.declared.edits.Edit.TheVariants.{AddRedemption, Collect};
ghost use Rattle.mx_memory.specs.Due.{is_fit};
ghost use Rattle.mx_pay.specs.Names.{name_cmp};
ghost use Rattle.mx_tables.specs.Cached.{WritesThrough};
ghost use Rattle.mx_tables.specs.Counted.{collected_where, is_among, is_owned};
ghost use Rattle.mx_tables.specs.States.{Finds, Writes};

use crate::asking::{About, ask_about_inside, ask_inside, run};
use crate::cache::Cache;
use crate::due::{drop_keys, list_keys, owe};
use crate::given;
use crate::holders::is_of;
use crate::redemptions::insert_redemption;
use mx_book::StoreFault;
use mx_cells::cells::{name_at, name_in};
use mx_pay::{Amount, Name};
use sqlite::{Alter, Row, Savepoint};

/// Collects the redemptions of the purse that a row names before its holder, where the holder is the member's.
fn collect_row<S: Alter>(
    tx: &mut Savepoint<'_, S>,
    member: &Name,
    row: &Row,
) -> Result<(), StoreFault>
    ensures { Writes S.Store tx.old tx.new result
        (λ r. record r {
          redemptions =
              remake (collected_where (λ k. is_owned r.holders member.now row.now k.0)) r.redemptions;
        }) }
{
    let purse = name_at(row, 0)?;
    let owner = name_in(ask_about_inside(tx, About::Holder, &name_at(row, 1)?)?)?;
    if is_of(member, &owner) {
        run(
            tx,
            "UPDATE redemption SET collected = 1 WHERE purse = ?1",
            &[given::text(purse.as_str())],
        )
    } else {
        Ok(())
    }
}

/// Collects the redemptions of the purses of the member's holders, by a pass over all purses.
pub fn collect_all<S: Alter>(tx: &mut Savepoint<'_, S>, member: &Name) -> Result<(), StoreFault>
    ensures { Writes S.Store tx.old tx.new result
        (λ r. record r {
          redemptions = remake
              (marked r.purses r.holders member.now) r.redemptions;
        }) }
{
    let rows = ask_inside(tx, "SELECT name, holder FROM purse", &[])?;
    for row in &rows {
        collect_row(tx, member, row)?;
    }
    Ok(())
}

/// Collects the redemption of this purse and reference, where there is one.
fn collect_key<S: Alter>(tx: &mut Savepoint<'_, S>, key: &(Name, Name)) -> Result<(), StoreFault>
    ensures { Writes S.Store tx.old tx.new result
        (λ r. record r {
          redemptions = remake (collected_where
              (λ k. eq_by_cmp (pair_cmp name_cmp name_cmp) k key.now)) r.redemptions;
        }) }
{
    run(
        tx,
        "UPDATE redemption SET collected = 1 WHERE purse = ?1 AND reference = ?2",
        &[given::text(key.0.as_str()), given::text(key.1.as_str())],
    )
}

/// Collects the redemptions of these purses and references.
fn collect_keys<S: Alter>(
    tx: &mut Savepoint<'_, S>,
    keys: &[(Name, Name)],
) -> Result<(), StoreFault>
    ensures { Writes S.Store tx.old tx.new result
        (λ r. record r {
          redemptions = remake (collected_where (is_among keys.now)) r.redemptions;
        }) }
{
    for key in keys {
        collect_key(tx, key)?;
    }
    Ok(())
}

/// Collects the redemptions of the purses of the member's holders, and follows that in the cache.
pub fn collect<S: Alter>(
    tx: &mut Savepoint<'_, S>,
    cache: &mut Cache,
    member: Name,
) -> Result<(), StoreFault>
    ensures { WritesThrough S.Store tx.old tx.new cache.old cache.new result
        (λ r. IsTrue (is_fit r (Collect member))) (λ r. rewritten r (Collect member)) }
{
    let Some(mut due) = cache.take_due() else {
        return collect_all(tx, &member);
    };
    let keys = list_keys(cache.alloc(), &due, member)?;
    collect_keys(tx, &keys)?;
    drop_keys(&mut due, member, &keys);
    cache.fill_due(due);
    Ok(())
}

/// The member of the holder of a purse, or None where there is no such purse or holder.
fn find_member_inside<S: Alter>(
    tx: &mut Savepoint<'_, S>,
    purse: &Name,
) -> Result<Option<Name>, StoreFault>
    ensures { Finds S.Store tx.old tx.new result
        (λ r v. v ≡ member_at r.holders (fmap.get r.purses purse.now)) }
{
    match name_in(ask_about_inside(tx, About::Owner, purse)?)? {
        None => Ok(None),
        Some(holder) => name_in(ask_about_inside(tx, About::Holder, &holder)?),
    }
}

/// Adds a redemption of a purse, which isn't collected, and follows that in the cache.
pub fn redeem<S: Alter>(
    tx: &mut Savepoint<'_, S>,
    cache: &mut Cache,
    key: (Name, Name),
    amount: Amount,
) -> Result<(), StoreFault>
    ensures { WritesThrough S.Store tx.old tx.new cache.old cache.new result
        (λ r. IsTrue (is_fit r (AddRedemption key.0 key.1 amount)))
        (λ r. rewritten r (AddRedemption key.0 key.1 amount)) }
{
    insert_redemption(tx, &key.0, &key.1, amount)?;
    let Some(mut due) = cache.take_due() else {
        return Ok(());
    };
    let member = find_member_inside(tx, &key.0)?;
    match owe(&mut due, member, key) {
        Ok(()) => {
            cache.fill_due(due);
            Ok(())
        }
        Err(_) => Ok(()),
    }
}
