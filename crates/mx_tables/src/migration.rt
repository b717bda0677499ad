//! From tables of version 1 to those of version 2.
ghost use Rattle.std.specs.Prelude.{◌≡◌, ◌≤◌, ◌⊎◌, IfErr, IfOk, IsTrue, OnErr, OnOk, false};
ghost use Rattle.sqlite.specs.Held.{state};
ghost use Rattle.sqlite.specs.State.{HasCleanDisk};
ghost use Rattle.mx_tables.specs.Made.{IsUnknown};
ghost use Rattle.mx_tables.specs.Migration.{IsWhole, Migrates, UpgradesOpen, SetsVersion, StopsUpgrading};
ghost use Rattle.mx_tables.specs.Schema.{number_of, office_schema, schema_of};
ghost use Rattle.mx_tables.specs.States.{Commits, IsOurs, StaysIdle, StaysAt, Steps, worry, IsSound, IsHonest};
ghost use Rattle.mx_tables.specs.declared.migration.Migrated.TheVariants.{Done};
ghost use Rattle.mx_tables.specs.declared.opening.OpenFault.TheVariants.{NotThisSchema};

use crate::asking::{fault_of, run_one};
use crate::edits::find_open;
use crate::making::{Version, make_settled};
use crate::opening::{OpenFault, open_fault, version_number, version_of};
use mx_book::StoreFault;
use sqlite::{Alter, Connection, Savepoint};
use std::alloc::Global;

/// What became of a store.
#[derive(Clone, Copy, Debug, PartialEq, Eq)]
pub enum Migrated {
    /// It had version 1, and has version 2 now.
    Done,
    /// It had version 2 already.
    Already,
}

/// Sets the version in `meta` to 2. Store where `meta` has no row of id 1.
fn set_version<S: Alter>(tx: &mut Savepoint<'_, S>) -> Result<(), StoreFault>
    ensures { Steps S.Store tx.old tx.new result
        (λ _. (state S.Store tx.old.conn.now).now.schema ≡ office_schema
        → SetsVersion (state S.Store tx.old.conn.now).now (state S.Store tx.new.conn.now).now) }
{
    run_one(tx, "UPDATE meta SET version = 2 WHERE id = 1", &[])
}

/// Makes the table that version 1 lacks and sets the version, in a connection that is found open.
fn upgrade<S: Alter>(tx: &mut Savepoint<'_, S>) -> Result<(), StoreFault>
    ensures { Steps S.Store tx.old tx.new result
        (λ _. UpgradesOpen (state S.Store tx.old.conn.now) (state S.Store tx.new.conn.now).now) }
{
    find_open(tx)?;
    if let Err(error) = make_settled(tx) {
        return Err(fault_of(error));
    }
    set_version(tx)
}

/// Brings tables of version 1 to version 2 in one transaction, or leaves them.
fn upgrade_all<S: Alter>(conn: &mut Connection<S>) -> Result<(), StoreFault>
    requires { conn.old.in_transaction ≡ false }
    ensures commits { Commits (state S.Store conn.old) (state S.Store conn.new) result
        (UpgradesOpen (state S.Store conn.old) (state S.Store conn.new).now) }
    ensures live { HasCleanDisk (state S.Store conn.new)
        → OnOk result (IsTrue (state S.Store conn.new).is_open) }
    ensures stops { StopsUpgrading (state S.Store conn.old) (state S.Store conn.new) }
{
    let mut tx = match conn.savepoint() {
        Ok(tx) => tx,
        Err(error) => return Err(fault_of(error)),
    };
    upgrade(&mut tx)?;
    match tx.commit() {
        Ok(()) => Ok(()),
        Err(error) => Err(fault_of(error)),
    }
}

/// The version of a store, whose schema is that of the version, and whose `meta` has its number. A store with none is refused: for
/// want of memory; as NotThisSchema, only where it has no table `meta`, or its schema and the version in `meta` aren't those of
/// one version; or as Store, where it refuses the query, or its tables are others.
pub fn find_version<S: Alter>(
    alloc: Global,
    store: &mut Connection<S>,
) -> Result<Version, OpenFault>
    requires idle { store.old.in_transaction ≡ false }
    requires steady { IsTrue (state S.Store store.old).is_open
        → (state S.Store store.old).now ≡ (state S.Store store.old).committed }
    ensures rests { StaysIdle (state S.Store store.old) (state S.Store store.new) }
    ensures live { HasCleanDisk (state S.Store store.new)
        → OnOk result (IsTrue (state S.Store store.new).is_open) }
    ensures stays { IfOk result (λ version.
        StaysAt false (schema_of version) (state S.Store store.old) (state S.Store store.new)) }
    ensures whole { IsSound (state S.Store store.new)
        → IfOk result (λ version. IsWhole version (state S.Store store.old).now) }
    ensures unknown { IsHonest (state S.Store store.new) → IfErr result
        (λ fault. fault ≡ NotThisSchema → IsUnknown number_of (state S.Store store.old).now) }
{
    let version = version_of(alloc, store.schema())?;
    match version_number(store) {
        Ok(number) if number == version.number() => Ok(version),
        Ok(_) => Err(OpenFault::NotThisSchema),
        Err(fault) => Err(fault),
    }
}

/// Brings a store of version 1 to version 2, all of it or nothing: it gets the table of settled details and the
/// version 2 in `meta`. A store that is refused is left as it was: for want of memory; as NotThisSchema, only where it
/// has no table `meta`, or its schema and the version in `meta` aren't those of one version; or as Store, where the
/// store refuses a statement for another cause, its tables are others, or a transaction is open on it.
pub fn migrate<S: Alter>(alloc: Global, store: &mut Connection<S>) -> Result<Migrated, OpenFault>
    ensures later { worry (state S.Store store.old) ≤ worry (state S.Store store.new) }
    ensures ours { OnOk result (IsOurs false (state S.Store store.new)) }
    ensures live { IsHonest (state S.Store store.new)
        → OnOk result (IsSound (state S.Store store.new)) }
    ensures migrates { IsSound (state S.Store store.new) → IfOk result
        (λ made. Migrates made (state S.Store store.old).now (state S.Store store.new).now) }
    ensures left { IsSound (state S.Store store.new) → OnErr result
        ((state S.Store store.new).now ≡ (state S.Store store.old).now) }
    ensures idle { store.old.in_transaction ≡ false
        → HasCleanDisk (state S.Store store.new) → store.new.in_transaction ≡ false }
    ensures unknown { IsHonest (state S.Store store.new) → IfErr result
        (λ fault. fault ≡ NotThisSchema → IsUnknown number_of (state S.Store store.old).now) }
    ensures stops { IsHonest (state S.Store store.new) → (db : _)
        → (state S.Store store.new).may_leave db → (state S.Store store.old).may_leave db
        ⊎ ((IsSound (state S.Store store.old)) × Migrates Done (state S.Store store.old).now
        (record { schema = office_schema; trees = db })) }
{
    if !store.is_autocommit() {
        return Err(OpenFault::Store);
    }
    match find_version(alloc, store)? {
        Version::Two => Ok(Migrated::Already),
        Version::One => match upgrade_all(store) {
            Ok(()) => Ok(Migrated::Done),
            Err(fault) => Err(open_fault(fault)),
        },
    }
}
