//! The index of purses by holder.
ghost use Rattle.std.specs.Prelude.{◌≡◌, IfErr, IfOk};
ghost use Rattle.std.specs.List.{AllByRecursion, list_any};
ghost use Rattle.mx_book.specs.Index.{IsHeld, IsIndex};
ghost use Rattle.mx_book.specs.Reads.{purses_of};
ghost use Rattle.mx_pay.specs.Names.{name_cmp};
ghost use Rattle.mx_tables.specs.Answers.{Displays, is_owned_in};
ghost use Rattle.mx_tables.specs.Counted.{HaveNames, owned_shown};
ghost use Rattle.mx_tables.specs.Cached.{ReadsThrough, index_of};
ghost use Rattle.mx_tables.specs.States.{Asks, IsForMemory};

use crate::asking::ask;
use crate::cache::Cache;
use mx_book::StoreFault;
use mx_book::held::{Held, names_held};
use mx_cells::cells::name_at;
use mx_pay::Name;
use sqlite::{Alter, Connection, Row};
use std::alloc::Global;

/// The index of the purses whose names and holders these rows show.
fn index_rows(alloc: Global, rows: &[Row]) -> Result<Held, StoreFault>
    ensures is { IfOk result
        (λ held. IsIndex name_cmp (λ h p. list_any (is_owned_in h p) rows.now) (index_of held)) }
    ensures there { AllByRecursion (Displays HaveNames owned_shown) rows.now
        → IfErr result IsForMemory }
{
    let mut held = Held::new(alloc);
    for row in rows {
        held.reserve(1)?;
        held.put((name_at(row, 1)?, Some(name_at(row, 0)?)), ());
    }
    Ok(held)
}

/// The purses of each holder, by a pass over the table of purses.
fn list_owners<S: Alter>(alloc: Global, conn: &mut Connection<S>) -> Result<Held, StoreFault>
    ensures { Asks S.Store conn.old conn.new result
        (λ r held. IsHeld r.purses (index_of held)) }
{
    let rows = ask(conn, "SELECT name, holder FROM purse", &[])?;
    index_rows(alloc, &rows)
}

/// The purses of each holder, taken out of the cache where they are cached.
pub fn take_owners<S: Alter>(
    alloc: Global,
    conn: &mut Connection<S>,
    cache: &mut Cache,
) -> Result<Held, StoreFault>
    ensures { ReadsThrough S.Store conn.old conn.new cache.old cache.new result
        (λ r w held. IsHeld r.purses (index_of held)) }
{
    match cache.take_owners() {
        Some(owners) => Ok(owners),
        None => list_owners(alloc, conn),
    }
}

/// The names of the purses of a holder, in order.
pub fn list_purses<S: Alter>(
    alloc: Global,
    conn: &mut Connection<S>,
    cache: &mut Cache,
    holder: &Name,
) -> Result<Vec<Name>, StoreFault>
    ensures { ReadsThrough S.Store conn.old conn.new cache.old cache.new result
        (λ r w v. v.items ≡ purses_of w holder.now) }
{
    let owners = take_owners(alloc, conn, cache)?;
    let names = names_held(alloc, &owners, *holder);
    cache.fill_owners(owners);
    Ok(names?)
}
