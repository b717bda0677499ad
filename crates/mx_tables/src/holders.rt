//! Holders.
ghost use Rattle.std.specs.Prelude.{◌≡◌};
ghost use Rattle.std.specs.FinMap as fmap;
ghost use Rattle.mx_book.specs.World.{is_of};
ghost use Rattle.mx_tables.specs.Cached.{ReadsThrough};
ghost use Rattle.mx_tables.specs.States.{Asks, Writes};
ghost use Rattle.mx_book.specs.Reads.{holder_of};

use crate::asking::{About, ask_about, run};
use crate::cache::Cache;
use crate::given;
use crate::owners::take_owners;
use mx_book::held::count_held;
use mx_book::{HolderRow, StoreFault};
use mx_cells::cells::name_in;
use mx_pay::Name;
use mx_pay::names::same_name;
use sqlite::{Alter, Connection, Savepoint};
use std::alloc::Global;

/// Adds a holder of a member.
pub fn insert_holder<S: Alter>(
    tx: &mut Savepoint<'_, S>,
    name: &Name,
    member: &Name,
) -> Result<(), StoreFault>
    ensures { Writes S.Store tx.old tx.new result
        (λ r. record r { holders = fmap.insert r.holders name.now member.now }) }
{
    run(
        tx,
        "INSERT INTO holder (name, member) VALUES (?1, ?2)",
        &[given::text(name.as_str()), given::text(member.as_str())],
    )
}

/// The member of a holder, or None where there is no such holder.
pub fn find_holder<S: Alter>(
    conn: &mut Connection<S>,
    name: &Name,
) -> Result<Option<Name>, StoreFault>
    ensures { Asks S.Store conn.old conn.new result
        (λ r v. v ≡ fmap.get r.holders name.now) }
{
    name_in(ask_about(conn, About::Holder, name)?)
}

/// The member of a holder and how many purses the holder has, or None where there is no such holder.
pub fn read_holder<S: Alter>(
    alloc: Global,
    conn: &mut Connection<S>,
    cache: &mut Cache,
    name: &Name,
) -> Result<Option<HolderRow>, StoreFault>
    ensures { ReadsThrough S.Store conn.old conn.new cache.old cache.new result
        (λ r w v. v ≡ holder_of w name.now) }
{
    let Some(member) = find_holder(conn, name)? else {
        return Ok(None);
    };
    let owners = take_owners(alloc, conn, cache)?;
    let purses = count_held(&owners, *name);
    cache.fill_owners(owners);
    Ok(Some(HolderRow { member, purses }))
}

/// Whether it is this name that was found.
pub fn is_of(name: &Name, found: &Option<Name>) -> bool
    ensures { result ≡ is_of name.now found.now }
{
    match found {
        Some(found) => same_name(name, found),
        None => false,
    }
}
