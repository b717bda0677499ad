//! Books in a store, wherever that keeps them.
ghost use Rattle.std.specs.Prelude.{◌≡◌, ◌≤◌, ◌⊎◌, [], false, IfErr, IfOk, IsErr, OnErr, OnOk};
ghost use Rattle.sqlite.specs.Held.{state as state_of};
ghost use Rattle.sqlite.specs.State.{HasCleanDisk};
ghost use Rattle.mx_book.specs.World.{World, opening};
ghost use Rattle.mx_desk.specs.Rounds.{Leads};
ghost use Rattle.mx_desk.specs.Steps.{state};
ghost use Rattle.mx_audit.specs.Audited.{Refuses};
ghost use Rattle.mx_audit.specs.Copies.{HasRaised};
ghost use Rattle.mx_tables.specs.Migration.{Migrates};
ghost use Rattle.mx_tables.specs.States.{IsOurs, Leaves, StaysIdle, worry, IsSound, IsHonest};
ghost use Rattle.mx_tables.specs.declared.migration.Migrated.TheVariants.{Done as Raised};
ghost use Rattle.mx_tasks.specs.Faults.{Untouched};
ghost use Rattle.mx_tasks.specs.Runs.{IsRunFault, TaskRuns};
ghost use Rattle.mx_tasks.specs.Works.{Works};
ghost use Rattle.mx_files.specs.Durable.{Endures, IsCopy, Represents};
ghost use Rattle.mx_files.specs.Opened.{open_fault_of};

use mx_audit::opening::as_refusal;
use mx_audit::{Ordered, Refusal, Refused, copy, migrate, open, raise};
use mx_book::Book;
use mx_desk::{Counted, Outlet};
use mx_pay::Token;
use mx_standing::Standing;
use mx_tables::{Migrated, Tables};
use mx_tasks::runs::run_in_book;
use mx_tasks::serve::chore::Chore;
use mx_tasks::{Done, TaskFault, Work, work_in_book};
use sqlite::{Alter, Connection};
use std::alloc::Global;
use std::io::Read;

/// What a fault of books that can't be made or opened is.
pub fn unmade(fault: Refusal) -> TaskFault
    ensures { result ≡ open_fault_of fault }
{
    match fault {
        Refusal::Memory => TaskFault::Memory,
        Refusal::Store | Refusal::Unsound(_) => TaskFault::Store,
        Refusal::NotThisSchema => TaskFault::NotThisSchema,
    }
}

/// Makes new books in a store, for the operator with this token, and gives the store back. They represent the World that
/// has nothing but that token.
///
/// # Errors
///
/// `NotThisSchema` where the store has tables; `Memory` or `Store` where it refuses a statement. The store is given up
/// then.
pub fn make_in_store<S: Alter + Drop>(
    alloc: Global,
    store: Connection<S>,
    operator: Token,
) -> Result<Connection<S>, TaskFault>
    ensures made { IfOk result (λ c. IsSound (state_of S.Store c)
        → Represents (state_of S.Store c).now (opening operator)) }
    ensures ours { IfOk result (λ c. IsOurs false (state_of S.Store c)) }
    ensures lasts { IfOk result (λ c. IsSound (state_of S.Store c)
        → Leaves (state_of S.Store c) (state_of S.Store c).now) }
{
    match Tables::create(alloc, store, operator) {
        Ok(book) => Ok(book.into_store()),
        Err(refused) => Err(unmade(as_refusal(refused.fault))),
    }
}

/// Copies the books in a store to a new one, and gives the store back, as it was.
///
/// # Errors
///
/// Those of `open`. The answer is `Memory` or `Store` where a store has no memory, or refuses a statement.
pub fn copy_in_store<S: Ordered + Drop, T: Alter>(
    alloc: Global,
    store: Connection<S>,
    to: &mut Connection<T>,
) -> Result<(Result<(), TaskFault>, Connection<S>), Refused<S>>
    ensures rests { IfOk result (λ x. StaysIdle (state_of S.Store store) (state_of S.Store x.1)) }
    ensures copies { IfOk result (λ x. OnOk x.0 (IsOurs false (state_of S.Store x.1)
        × (IsSound (state_of S.Store x.1) → (w : World) × Represents (state_of S.Store store).now w
        × IsCopy (state_of T.Store to.new) w))) }
    ensures refused { IfErr result (λ e. Refuses S.Store store e.fault e.store) }
{
    match open(alloc, store, 0) {
        Ok((book, _)) => {
            let mut opened = book.into_inner().into_store();
            match copy(alloc, &mut opened, to) {
                Ok(_) => Ok((Ok(()), opened)),
                Err(fault) => Ok((Err(unmade(as_refusal(fault))), opened)),
            }
        }
        Err(refused) => Err(refused),
    }
}

/// Copies the books in a store to a new one, brings them to the schema of this version there, and audits them. The first is given
/// back as it was.
///
/// # Errors
///
/// As of `migrate_in_store`.
pub fn raise_in_store<S: Ordered, T: Ordered>(
    alloc: Global,
    store: Connection<S>,
    to: &mut Connection<T>,
) -> (Result<Migrated, TaskFault>, Connection<S>)
    ensures rests { StaysIdle (state_of S.Store store) (state_of S.Store result.1) }
    ensures ours { OnOk result.0 (IsOurs false (state_of T.Store to.new)) }
    ensures raises { IsSound (state_of S.Store result.1) → IsSound (state_of T.Store to.new)
        → IfOk result.0 (λ made. HasRaised made (state_of S.Store store).now
        (state_of T.Store to.new).now) }
{
    let mut store = store;
    match raise(alloc, &mut store, to) {
        Ok(made) => (Ok(made), store),
        Err(refusal) => (Err(unmade(refusal)), store),
    }
}

/// Answers the requests of the input over the books in a store, and gives what came of that, with the store (`runs`). It says
/// what an opening finds after a stop at that moment (`Endures`). A stop in the midst of the run is a store that fails from
/// there on.
///
/// # Errors
///
/// Those of `open`. Nothing was read or written then, and the store is given back as it was.
pub fn run_in_store<S: Ordered + Drop, R: Read, W: Outlet>(
    alloc: Global,
    store: Connection<S>,
    reader: &mut Counted<R>,
    writer: &mut Counted<W>,
) -> Result<(Result<u64, TaskFault>, Connection<S>), Refused<S>>
    ensures later { IfOk result
        (λ x. worry (state_of S.Store store) ≤ worry (state_of S.Store x.1)) }
    ensures fault { IfOk result (λ x. IfErr x.0 IsRunFault) }
    ensures runs { IfOk result (λ x. IsHonest (state_of S.Store x.1)
        → (w : World) × Represents (state_of S.Store store).now w
        × Leads (λ ms now. TaskRuns ⟦<Standing<Tables<S>> as Book>⟧.fails
        (state [] (R.remaining reader.old.device) (W.contents writer.old.device) w) x.0 ms
        (state [] (R.remaining reader.new.device) (W.contents writer.new.device) now))
        (Endures (state_of S.Store x.1) w)) }
    ensures ours { IfOk result (λ x. IsOurs false (state_of S.Store x.1)) }
    ensures lasts { IfOk result (λ x. IsSound (state_of S.Store x.1)
        → Leaves (state_of S.Store x.1) (state_of S.Store x.1).now) }
    ensures unopened { IsErr result → Untouched reader.old reader.new writer.old writer.new }
    ensures refused { IfErr result (λ e. Refuses S.Store store e.fault e.store) }
{
    match open(alloc, store, 0) {
        Ok((book, _)) => {
            let (answer, left) = run_in_book(alloc, book, reader, writer);
            Ok((answer, left.into_inner().into_store()))
        }
        Err(refused) => Err(refused),
    }
}

/// Does a piece of work over the books in a store, and gives what came of it, with the store (`works`). Of requests it says
/// what `run_in_store` does.
///
/// # Errors
///
/// As of `run_in_store`.
pub fn work_in_store<S: Ordered + Drop, C: Chore>(
    rt: &HostRuntime,
    store: Connection<S>,
    work: &Work<'_>,
    chore: &mut C,
) -> Result<(Result<Done, TaskFault>, Connection<S>), Refused<S>>
    ensures later { IfOk result
        (λ x. worry (state_of S.Store store) ≤ worry (state_of S.Store x.1)) }
    ensures works { IfOk result (λ x. IsHonest (state_of S.Store x.1)
        → (w : World) × Represents (state_of S.Store store).now w
        × Works ⟦<Standing<Tables<S>> as Book>⟧.fails (IsSound (state_of S.Store x.1))
        (Represents (state_of S.Store x.1).now) (Endures (state_of S.Store x.1) w) w work.now x.0) }
    ensures ours { IfOk result (λ x. IsOurs false (state_of S.Store x.1)) }
    ensures lasts { IfOk result (λ x. IsSound (state_of S.Store x.1)
        → Leaves (state_of S.Store x.1) (state_of S.Store x.1).now) }
    ensures refused { IfErr result (λ e. Refuses S.Store store e.fault e.store) }
{
    match open(rt.alloc(), store, 0) {
        Ok((book, _)) => {
            let (answer, left) = work_in_book(rt, work, book, chore);
            Ok((answer, left.into_inner().into_store()))
        }
        Err(refused) => Err(refused),
    }
}

/// Brings the books in a store to the schema of this version, and audits them.
///
/// # Errors
///
/// `NotThisSchema` where the store has no books of a version that is known; `Store` where the rows are no books, or it refuses a
/// statement; `Memory`.
pub fn migrate_in_store<S: Ordered>(
    alloc: Global,
    store: &mut Connection<S>,
) -> Result<Migrated, TaskFault>
    ensures later { worry (state_of S.Store store.old) ≤ worry (state_of S.Store store.new) }
    ensures ours { OnOk result (IsOurs false (state_of S.Store store.new)) }
    ensures migrates { IsSound (state_of S.Store store.new) → IfOk result
        (λ made. Migrates made (state_of S.Store store.old).now (state_of S.Store store.new).now) }
    ensures idle { store.old.in_transaction ≡ false
        → HasCleanDisk (state_of S.Store store.new) → store.new.in_transaction ≡ false }
    ensures left { IsSound (state_of S.Store store.new) → OnErr result
        (((state_of S.Store store.new).now ≡ (state_of S.Store store.old).now)
        ⊎ (IsOurs false (state_of S.Store store.new)
        × Migrates Raised (state_of S.Store store.old).now (state_of S.Store store.new).now)) }
{
    match migrate(alloc, store) {
        Ok(migrated) => Ok(migrated),
        Err(fault) => Err(unmade(fault)),
    }
}
