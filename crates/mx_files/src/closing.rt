//! Books in two files of any disk, a database and its log: what is done over them, up to the close.
ghost use Rattle.std.specs.Prelude.{◌≡◌, ◌⊎◌, ℕ, [], false, Err, Result, IfErr, IfOk, IfSome, IsErr, IsOk, IsTrue, OnErr, OnOk};
ghost use Rattle.sqlite.specs.Effect.{IsDatabase};
ghost use Rattle.sqlite_store.specs.declared.store.FileStore.{FileStore};
ghost use Rattle.sqlite.specs.Files.{file_state, over_files};
ghost use Rattle.sqlite.specs.Held.{Held, state as state_of};
ghost use Rattle.sqlite.specs.State.{HasCleanDisk, Opens};
ghost use Rattle.mx_book.specs.World.{World, opening};
ghost use Rattle.mx_desk.specs.Rounds.{Leads};
ghost use Rattle.mx_desk.specs.Steps.{state};
ghost use Rattle.mx_audit.specs.Audited.{Refuses};
ghost use Rattle.mx_audit.specs.Copies.{HasRaised};
ghost use Rattle.mx_tables.specs.States.{IsOurs, IsSound};
ghost use Rattle.mx_tasks.specs.Faults.{Untouched};
ghost use Rattle.mx_tasks.specs.Runs.{IsRunFault, TaskRuns};
ghost use Rattle.mx_tasks.specs.Works.{Works};
ghost use Rattle.mx_tasks.specs.declared.fault.TaskFault.{TaskFault};
ghost use Rattle.mx_tasks.specs.declared.work.Done.{Done};
ghost use Rattle.mx_tables.specs.declared.migration.Migrated.{Migrated};
ghost use Rattle.mx_tables.specs.declared.migration.Migrated.TheVariants.{Done as Raised};
ghost use Rattle.mx_files.specs.Durable.{IsCopy, Represents};
ghost use Rattle.mx_files.specs.Opened.{IsWrong};
ghost use Rattle.mx_files.specs.InFiles.{AreHonest, AreShut, Closes, HoldCopy, HoldRaised, IsKept, IsLeftOf, IsRefused, HoldRounds, HoldTrees, HoldWorld, Raises, closed_answer};

use crate::check::check_in_store;
use crate::stores::{
    copy_in_store, make_in_store, migrate_in_store, raise_in_store, run_in_store, unmade,
    work_in_store,
};
use mx_audit::{Ordered, Refused};
use mx_book::Book;
use mx_desk::{Counted, Outlet};
use mx_pay::Token;
use mx_standing::Standing;
use mx_tables::{Migrated, Tables};
use mx_tasks::serve::chore::Chore;
use mx_tasks::{Done, TaskFault, Work};
use sqlite::{Alter, Connection, FileFrom, FileStore, Files, Unknown};
use sqlite_disk::Disk;
use std::alloc::Global;
use std::io::Read;

/// What a task leaves of the two files of its books.
#[derive(Drop)]
pub enum Left<D: Disk> {
    /// They were closed.
    Closed(Files<D>),
    /// They can't be closed: a stop leaves of them what it could leave before.
    Unclosed(FileStore<D>),
    /// They weren't opened, or the task has none.
    Nothing,
}

/// How a task ended, and what it leaves of the files of its books.
#[derive(Drop)]
pub struct Ended<T, D: Disk> {
    /// What it answered.
    pub answer: Result<T, TaskFault>,
    /// The files.
    pub left: Left<D>,
    /// Those of a copy, where the task made one.
    pub copy: Left<FileFrom<Unknown>>,
}

/// How the copying of books ended, and what it leaves of the files of both.
#[derive(Drop)]
pub struct Copied<T, D: Disk, C: Disk> {
    /// What it answered.
    pub answer: Result<T, TaskFault>,
    /// The files that were copied.
    pub left: Left<D>,
    /// Those of the copy.
    pub copy: Left<C>,
}

impl<D: Disk + Drop> Left<D> {
    /// The files, where they were closed.
    pub fn into_closed(self) -> Option<Files<D>>
        ensures { IfSome result (λ files. self ≡ Left.Closed files) }
    {
        match self {
            Left::Closed(files) => Some(files),
            Left::Unclosed(_) | Left::Nothing => None,
        }
    }
}

impl<T, D: Disk> Ended<T, D> {
    /// A task that leaves no files of books.
    pub fn of(answer: Result<T, TaskFault>) -> Ended<T, D>
        ensures { result ≡ record { answer = answer; left = Left.Nothing; copy = Left.Nothing } }
    {
        Ended {
            answer,
            left: Left::Nothing,
            copy: Left::Nothing,
        }
    }
}

impl<T: Drop, D: Disk + Drop> Ended<T, D> {
    /// The files, where what was answered is no fault.
    pub fn into_left(self) -> Result<Left<D>, TaskFault>
        ensures left { IfOk result (λ left. (left ≡ self.left) × IsOk self.answer) }
        ensures gives { IsOk self.answer → IsOk result }
    {
        let Ended { answer, left, .. } = self;
        match answer {
            Ok(_) => Ok(left),
            Err(fault) => Err(fault),
        }
    }
}

/// Closes the two files of a store.
fn closed<D: Disk + Drop>(store: Connection<FileStore<D>>) -> Left<D>
    ensures listed { IsTrue (file_state store).is_open → IsDatabase (file_state store).now }
    ensures settled { store.in_transaction ≡ false → IsTrue (file_state store).is_open
        → (file_state store).committed.trees ≡ (file_state store).now.trees }
    ensures left { IsLeftOf store result }
{
    match store.close_files() {
        Ok(files) => Left::Closed(files),
        Err((_, left)) => Left::Unclosed(left),
    }
}

/// What was answered, once the files are left so.
fn told<T: Drop, D: Disk>(left: &Left<D>, answer: Result<T, TaskFault>) -> Result<T, TaskFault>
    ensures { result ≡ closed_answer left.now answer }
{
    match left {
        Left::Unclosed(_) => match answer {
            Ok(_) => Err(TaskFault::Store),
            Err(fault) => Err(fault),
        },
        Left::Closed(_) | Left::Nothing => answer,
    }
}

/// Closes the two files of a store, behind what was answered. Where they can't be closed the answer is `Store`, unless it is a
/// fault already.
fn close_behind<D: Disk + Drop, T: Drop>(
    answer: Result<T, TaskFault>,
    store: Connection<FileStore<D>>,
) -> (Result<T, TaskFault>, Left<D>)
    ensures answer { result.0 ≡ closed_answer result.1 answer }
    ensures shut { IsOk result.0 → AreShut result.1 }
    ensures closes { Closes store result.1 }
{
    let left = closed(store);
    (told(&left, answer), left)
}

/// Ends a task over the two files of a store, which are closed as `close_behind` does.
pub fn close<D: Disk + Drop, T: Drop>(
    answer: Result<T, TaskFault>,
    store: Connection<FileStore<D>>,
) -> Ended<T, D>
    ensures answer { result.answer ≡ closed_answer result.left answer }
    ensures alone { result.copy ≡ Left.Nothing }
    ensures shut { IsOk result.answer → AreShut result.left }
    ensures closes { Closes store result.left }
{
    let (answer, left) = close_behind(answer, store);
    Ended {
        answer,
        left,
        copy: Left::Nothing,
    }
}

/// Closes the files of a store of which nothing was done, for this fault. They hold what they held.
pub(crate) fn close_idle<D: Disk + Drop, T: Drop>(
    fault: TaskFault,
    store: Connection<FileStore<D>>,
) -> Ended<T, D>
    ensures fault { result.answer ≡ Err fault }
    ensures keeps { AreHonest result.left → IsKept store result.left }
{
    close(Err(fault), store)
}

/// Closes the files of a store whose books were refused. They are as they were.
fn close_refused<D: Disk + Drop, T: Drop>(refused: Refused<FileStore<D>>) -> Ended<T, D>
    ensures fault { IsErr result.answer }
    ensures refused { (store : Held (FileStore D D.Disk))
        → Refuses over_files store refused.fault refused.store
        → AreHonest result.left → IsRefused store result }
{
    close(Err(unmade(refused.fault)), refused.store)
}

/// Makes new books in the files of a store, for the operator with this token, and closes the files.
///
/// # Errors
///
/// As of `make_in_store`.
pub fn make_in_files<D: Disk + Drop>(
    alloc: Global,
    store: Connection<FileStore<D>>,
    operator: Token,
) -> Result<Ended<(), D>, TaskFault>
    ensures shut { IfOk result (λ ended. IsOk ended.answer → AreShut ended.left) }
    ensures made { IfOk result
        (λ ended. AreHonest ended.left → HoldWorld ended.left (opening operator)) }
{
    let made = make_in_store(alloc, store, operator)?;
    Ok(close(Ok(()), made))
}

/// Copies the books in the files of a store to a new one, and closes the files. They hold what they held.
///
/// # Errors
///
/// As of `copy_in_store`; `Store` too where the files can't be closed.
fn copy_from_files<D: Disk + Drop, T: Alter>(
    alloc: Global,
    store: Connection<FileStore<D>>,
    to: &mut Connection<T>,
) -> (Result<(), TaskFault>, Left<D>)
    ensures keeps { AreHonest result.1 → IsKept store result.1 }
    ensures shut { IsOk result.0 → AreShut result.1 }
    ensures copies { OnOk result.0 (AreHonest result.1 → (w : World)
        × Represents (file_state store).now w × HoldWorld result.1 w
        × IsCopy (state_of T.Store to.new) w) }
{
    match copy_in_store(alloc, store, to) {
        Ok((answer, left)) => close_behind(answer, left),
        Err(refused) => close_behind(Err(unmade(refused.fault)), refused.store),
    }
}

/// Copies the books in the files of a store to those of a new one, and closes the files of both. The first hold what they held.
///
/// # Errors
///
/// As of `copy_in_store`; `Store` too where files can't be closed.
pub fn copy_in_files<D: Disk + Drop, C: Disk + Drop>(
    alloc: Global,
    store: Connection<FileStore<D>>,
    to: Connection<FileStore<C>>,
) -> Copied<(), D, C>
    ensures keeps { AreHonest result.left → IsKept store result.left }
    ensures copies { OnOk result.answer (HoldCopy store result.left result.copy) }
{
    let mut to = to;
    let (copied, left) = copy_from_files(alloc, store, &mut to);
    let (answer, copy) = close_behind(copied, to);
    Copied { answer, left, copy }
}

/// Brings a copy of the books in the files of a store to the schema of this version, in a new one, audits it, and closes the
/// files. They hold what they held.
///
/// # Errors
///
/// As of `raise_in_store`; `Store` too where the files can't be closed.
fn raise_from_files<D: Disk + Drop, T: Ordered>(
    alloc: Global,
    store: Connection<FileStore<D>>,
    to: &mut Connection<T>,
) -> (Result<Migrated, TaskFault>, Left<D>)
    ensures keeps { AreHonest result.1 → IsKept store result.1 }
    ensures shut { IsOk result.0 → AreShut result.1 }
    ensures ours { OnOk result.0 (IsOurs false (state_of T.Store to.new)) }
    ensures raises { IfOk result.0 (λ made. AreHonest result.1
        → IsSound (state_of T.Store to.new)
        → HasRaised made (file_state store).now (state_of T.Store to.new).now) }
{
    let (answer, left) = raise_in_store(alloc, store, to);
    close_behind(answer, left)
}

/// Brings a copy of the books in the files of a store to the schema of this version, in the files of a new one, audits it, and
/// closes the files of both. The first hold what they held.
///
/// # Errors
///
/// As of `raise_in_store`; `Store` too where files can't be closed.
pub fn raise_in_files<D: Disk + Drop, C: Disk + Drop>(
    alloc: Global,
    store: Connection<FileStore<D>>,
    to: Connection<FileStore<C>>,
) -> Copied<Migrated, D, C>
    ensures keeps { AreHonest result.left → IsKept store result.left }
    ensures raises { IfOk result.answer (HoldRaised store result.left result.copy) }
{
    let mut to = to;
    let (raised, left) = raise_from_files(alloc, store, &mut to);
    let (answer, copy) = close_behind(raised, to);
    Copied { answer, left, copy }
}

/// Answers the requests of the input over the books in the files of a store, and closes the files. Where the books are refused,
/// as `run_in_store` does, nothing was read or written, and the files hold what they held.
pub fn run_in_files<D: Disk + Drop, R: Read, W: Outlet>(
    alloc: Global,
    store: Connection<FileStore<D>>,
    reader: &mut Counted<R>,
    writer: &mut Counted<W>,
) -> Ended<u64, D>
    ensures shut { IsOk result.answer → AreShut result.left }
    ensures runs { (Untouched reader.old reader.new writer.old writer.new × IsErr result.answer
        × (AreHonest result.left → IsRefused store result))
        ⊎ (AreHonest result.left → HasCleanDisk (file_state store)
        × (w : World) × (run : Result ℕ TaskFault) × Represents (file_state store).now w
        × (result.answer ≡ closed_answer result.left run) × IfErr run IsRunFault
        × Leads (λ ms now. TaskRuns ⟦<Standing<Tables<FileStore<D>>> as Book>⟧.fails
        (state [] (R.remaining reader.old.device) (W.contents writer.old.device) w) run ms
        (state [] (R.remaining reader.new.device) (W.contents writer.new.device) now))
        (HoldRounds result.left w)) }
{
    match run_in_store(alloc, store, reader, writer) {
        Ok((answer, left)) => close(answer, left),
        Err(refused) => close_refused(refused),
    }
}

/// Does a piece of work over the books in the files of a store, and closes the files. Where the books are refused, nothing was
/// done, and the files hold what they held.
pub fn work_in_files<D: Disk + Drop, C: Chore>(
    rt: &HostRuntime,
    store: Connection<FileStore<D>>,
    work: &Work<'_>,
    chore: &mut C,
) -> Ended<Done, D>
    ensures shut { IsOk result.answer → AreShut result.left }
    ensures works { (IsErr result.answer × (AreHonest result.left → IsRefused store result))
        ⊎ (AreHonest result.left → HasCleanDisk (file_state store)
        × (w : World) × (answer : Result Done TaskFault) × Represents (file_state store).now w
        × (result.answer ≡ closed_answer result.left answer)
        × Works ⟦<Standing<Tables<FileStore<D>>> as Book>⟧.fails (AreShut result.left)
        (HoldWorld result.left) (HoldRounds result.left w) w work.now answer) }
{
    match work_in_store(rt, store, work, chore) {
        Ok((done, left)) => close(done, left),
        Err(refused) => close_refused(refused),
    }
}

/// Brings the books in the files of a store to the schema of this version, audits them, and closes the files.
pub fn migrate_in_files<D: Disk + Drop>(
    alloc: Global,
    store: Connection<FileStore<D>>,
) -> Ended<Migrated, D>
    ensures alone { result.copy ≡ Left.Nothing }
    ensures shut { IsOk result.answer → AreShut result.left }
    ensures migrates { AreHonest result.left → HasCleanDisk (file_state store)
        × (answer : Result Migrated TaskFault)
        × (result.answer ≡ closed_answer result.left answer)
        × (AreShut result.left → IfOk answer (Raises (file_state store).now result.left))
        × (AreShut result.left → Opens (file_state store) → OnErr answer
        (HoldTrees result.left (file_state store).now.trees
        ⊎ Raises (file_state store).now result.left Raised)) }
{
    let mut held = store;
    let answer = migrate_in_store(alloc, &mut held);
    close(answer, held)
}

/// Tells whether the books in the files of a store are sound, or what is wrong in them, and closes the files.
pub fn check_in_files<D: Disk + Drop>(
    rt: &HostRuntime,
    store: Connection<FileStore<D>>,
) -> Ended<Done, D>
    ensures shut { IsOk result.answer → AreShut result.left }
    ensures checks { AreHonest result.left → HasCleanDisk (file_state store)
        × ((IfOk result.answer IsWrong
        × (Opens (file_state store) → HoldTrees result.left (file_state store).now.trees))
        ⊎ (AreShut result.left
        → (w : World) × Represents (file_state store).now w × HoldWorld result.left w)) }
{
    let (answer, left) = check_in_store(rt, store);
    close(answer, left)
}
