//! Openings that audit: what is opened spells a World.
ghost use Rattle.std.specs.Prelude.{◌≡◌, ◌≢◌, ◌≤◌, ◌⊎◌, IfErr, IfOk, OnErr, OnOk, false};
ghost use Rattle.sqlite.specs.Held.{state};
ghost use Rattle.sqlite.specs.State.{HasCleanDisk};
ghost use Rattle.mx_book.specs.World.{World};
ghost use Rattle.mx_tables.specs.Holds.{Spells, SpellsOne};
ghost use Rattle.mx_tables.specs.Made.{HasVersion, IsUnknown};
ghost use Rattle.mx_tables.specs.Migration.{Migrates};
ghost use Rattle.mx_tables.specs.Rounds.{IsSettled};
ghost use Rattle.mx_tables.specs.Schema.{number_of, office_schema};
ghost use Rattle.mx_tables.specs.States.{IsAwake, IsOurs, Stays, StaysIdle, worry, IsSound, IsHonest};
ghost use Rattle.mx_tables.specs.declared.migration.Migrated.TheVariants.{Done};
ghost use Rattle.mx_tables.specs.declared.opening.OpenFault.TheVariants as open_fault;
ghost use Rattle.mx_audit.specs.Audited.{Refuses};
ghost use Rattle.mx_audit.specs.declared.opening.Refusal.TheVariants.{NotThisSchema, Unsound};
ghost use Rattle.mx_audit.specs.declared.tables.Checked.{Checked};

use crate::ordered::Ordered;
use crate::tables::{Checked, check};
use mx_book::StoreFault;
use mx_standing::Standing;
use mx_tables::{Migrated, OpenFault, Tables};
use sqlite::{Alter, Connection};
use std::alloc::Global;

/// Why books were not opened or not migrated.
#[derive(Drop)]
pub enum Refusal {
    /// There is no memory.
    Memory,
    /// The store refused a statement, or its schema is another one.
    Store,
    /// There is no table `meta`, or it hasn't the version that is asked for.
    NotThisSchema,
    /// The rows of the tables spell no World: this was found.
    Unsound(Checked),
}

/// Why a store was refused, and the store.
#[derive(Drop)]
pub struct Refused<S: Alter> {
    /// Why.
    pub fault: Refusal,
    /// The store, as it was.
    pub store: Connection<S>,
}

/// Checks the tables of a store, and keeps so many of the first findings. Unsound where there is one.
fn expect_sound<S: Ordered>(
    alloc: Global,
    store: &mut Connection<S>,
    most: usize,
) -> Result<Checked, Refusal>
    ensures stays { IsOurs false (state S.Store store.old)
        → Stays false (state S.Store store.old) (state S.Store store.new) }
    ensures sound { IsOurs false (state S.Store store.old) → IsSound (state S.Store store.new)
        → HasVersion 2 (state S.Store store.old).now
        → OnOk result ((w : World) × SpellsOne (state S.Store store.old).now w) }
    ensures unsound { IsOurs false (state S.Store store.old) → IsSound (state S.Store store.new)
        → IfErr result (λ fault. (c : Checked) → fault ≡ Unsound c
        → (w : World) → ¬ Spells (state S.Store store.old).now w) }
    ensures known { IfErr result (λ fault. fault ≢ NotThisSchema) }
    ensures live { OnOk result (IsAwake (state S.Store store.new)) }
{
    match check(alloc, store, most) {
        Ok(checked) if checked.found == 0 => Ok(checked),
        Ok(checked) => Err(Refusal::Unsound(checked)),
        Err(StoreFault::Memory) => Err(Refusal::Memory),
        Err(StoreFault::Store) => Err(Refusal::Store),
    }
}

/// The same cause, of an opening that audits.
pub fn as_refusal(fault: OpenFault) -> Refusal
    ensures sound { (c : Checked) → result ≢ Unsound c }
    ensures known { result ≡ NotThisSchema → fault ≡ open_fault.NotThisSchema }
{
    match fault {
        OpenFault::Memory => Refusal::Memory,
        OpenFault::Store => Refusal::Store,
        OpenFault::NotThisSchema => Refusal::NotThisSchema,
    }
}

/// The book of the tables that a store has, and what was counted in them. A store that is refused is left as it was: as
/// `Tables::open` refuses it; as Unsound with so many of the first findings, only where its tables spell no World; or where
/// the check has no memory, or the store refuses one of its queries.
pub fn open<S: Ordered>(
    alloc: Global,
    store: Connection<S>,
    most: usize,
) -> Result<(Standing<Tables<S>>, Checked), Refused<S>>
    ensures rests { IfOk result
        (λ t. StaysIdle (state S.Store store) (state S.Store t.0.book.0)) }
    ensures settled { IfOk result (λ t. IsSettled S.Store t.0.book) }
    ensures ours { IfOk result (λ t. IsOurs false (state S.Store t.0.book.0)) }
    ensures live { IfOk result (λ t. IsAwake (state S.Store t.0.book.0)) }
    ensures sound { IfOk result (λ t. IsSound (state S.Store t.0.book.0)
        → (w : World) × SpellsOne (state S.Store store).now w) }
    ensures refused { IfErr result (λ e. Refuses S.Store store e.fault e.store) }
{
    let mut opened = match Tables::open(alloc, store) {
        Ok(book) => book.into_store(),
        Err(refused) => {
            return Err(Refused {
                fault: as_refusal(refused.fault),
                store: refused.store,
            });
        }
    };
    match expect_sound(alloc, &mut opened, most) {
        Ok(checked) => Ok((Standing::of(Tables::over(alloc, opened)), checked)),
        Err(fault) => Err(Refused {
            fault,
            store: opened,
        }),
    }
}

/// Brings a store to version 2 as `mx_tables::migrate` does, and audits it. A store is refused as that refuses it, and then left
/// as it was; as Unsound, only where its tables spell no World; or where the audit has no memory, or the store refuses one of
/// its queries. Where the audit refuses it, it is of version 2 then, with its other rows as they were.
pub fn migrate<S: Ordered>(alloc: Global, store: &mut Connection<S>) -> Result<Migrated, Refusal>
    ensures later { worry (state S.Store store.old) ≤ worry (state S.Store store.new) }
    ensures ours { OnOk result (IsOurs false (state S.Store store.new)) }
    ensures live { IsHonest (state S.Store store.new)
        → OnOk result (IsSound (state S.Store store.new)) }
    ensures migrates { IsSound (state S.Store store.new) → IfOk result
        (λ made. Migrates made (state S.Store store.old).now (state S.Store store.new).now) }
    ensures sound { IsSound (state S.Store store.new)
        → OnOk result ((w : World) × SpellsOne (state S.Store store.new).now w) }
    ensures unsound { IsSound (state S.Store store.new)
        → IfErr result (λ fault. (c : Checked) → fault ≡ Unsound c
        → (w : World) → ¬ Spells (state S.Store store.new).now w) }
    ensures left { IsSound (state S.Store store.new) → OnErr result
        (((state S.Store store.new).now ≡ (state S.Store store.old).now)
        ⊎ (IsOurs false (state S.Store store.new)
        × Migrates Done (state S.Store store.old).now (state S.Store store.new).now)) }
    ensures idle { store.old.in_transaction ≡ false
        → HasCleanDisk (state S.Store store.new) → store.new.in_transaction ≡ false }
    ensures unknown { IsHonest (state S.Store store.new) → IfErr result
        (λ fault. fault ≡ NotThisSchema → IsUnknown number_of (state S.Store store.old).now) }
    ensures stops { IsHonest (state S.Store store.new) → (db : _)
        → (state S.Store store.new).may_leave db → (state S.Store store.old).may_leave db
        ⊎ ((IsSound (state S.Store store.old)) × Migrates Done (state S.Store store.old).now
        (record { schema = office_schema; trees = db })) }
{
    let migrated = match mx_tables::migrate(alloc, store) {
        Ok(migrated) => migrated,
        Err(fault) => return Err(as_refusal(fault)),
    };
    expect_sound(alloc, store, 0)?;
    Ok(migrated)
}
