//! The files of books.
ghost use Rattle.std.specs.Prelude.{◌≡◌, ◌⊎◌, IfOk, IsOk, Ok, OnErr, OnOk, true, false};
ghost use Rattle.sqlite_wal.specs.Files.{image_at};
ghost use Rattle.mx_files.specs.InFiles.{AreHonest, HasSumsIfNew, HoldCopy, HoldRaised, IsKept, IsNewOf, IsOpenedOver};
ghost use Rattle.mx_files.specs.Makings.{Installs, IsGivenUp, IsPut, KeepsFile};

use crate::closing::{
    Copied, Ended, Left, close_idle, copy_in_files, make_in_files, raise_in_files,
};
use crate::database::{open_at, open_copy};
use crate::folder::{DatabaseFolder, Folder, end_stopped_init};
use crate::init::{begin, end};
use crate::making::Making;
use crate::places::{Replaces, look_for_books};
use crate::watched::Watched;
use mx_pay::Token;
use mx_tables::Migrated;
use mx_tasks::{Cause, TaskFault};
use sqlite::{Connection, FileFrom, FileStore, Start, Unknown};
use sqlite_disk::Disk;

/// A file of books, or of their log, which held what the start says as it was opened.
pub type BookFile<'a, S> = Watched<'a, FileFrom<S>>;

/// The books in a file, with its log in a file beside it, which held what the start says as they were opened.
pub(crate) type Opened<'a, S> = Connection<FileStore<BookFile<'a, S>>>;

/// No files of books are left.
pub(crate) fn no_files<'a, S: Start>(_rt: &'a HostRuntime) -> Left<BookFile<'a, S>>
    ensures { result ≡ Left.Nothing }
{
    Left::Nothing
}

/// The file system of the machine, in which the kit opens databases.
impl DatabaseFolder for &HostRuntime {
    fn try_database(&self, path: &str) -> Result<(), Cause> {
        let _ = open_at(self, path, false, Unknown)?.close();
        Ok(())
    }
}

/// Opens the database in a file that is there; none is made, and an empty one is left as it is. Its log is beside the file
/// that a link leads to.
///
/// # Errors
///
/// `Empty`; `OtherLog` where another file stands where its log belongs; those of `unopened`.
pub(crate) fn open_found<'a, S: Start>(
    rt: &'a HostRuntime,
    path: &str,
    start: S,
) -> Result<Opened<'a, S>, Cause>
    ensures over { IfOk result (IsOpenedOver (image_at S.Start)) }
{
    let _ = end_stopped_init(rt, path);
    look_for_books(&rt, rt.alloc(), path)?;
    open_at(rt, path, false, start)
}

/// Opens the database in a file that is there. Where it isn't opened, a terminal is told why.
///
/// # Errors
///
/// `File` where the file isn't there, isn't a database, can't be opened, another process has it open, or another file stands
/// where its log belongs; `NotThisSchema` where it is empty; `Memory`.
pub(crate) fn open_told<'a, S: Start>(
    rt: &'a HostRuntime,
    path: &str,
    start: S,
) -> Result<Opened<'a, S>, TaskFault>
    ensures over { IfOk result (IsOpenedOver (image_at S.Start)) }
{
    match open_found(rt, path, start) {
        Ok(store) => Ok(store),
        Err(cause) => Err(cause.tell(rt, path)),
    }
}

/// Opens an empty file as a new database. Each of its pages ends in SQLite's page checksum, by which an opening finds most of
/// what changed in the file since it was closed.
fn open_new<'a, S: Start>(rt: &'a HostRuntime, path: &str, start: S) -> Result<Opened<'a, S>, Cause>
    ensures sums { IfOk result (HasSumsIfNew (image_at S.Start)) }
{
    open_at(rt, path, true, start)
}

/// Makes new books in an empty file, and closes it.
fn new_books<'a, S: Start>(
    rt: &'a HostRuntime,
    made: &str,
    start: S,
    operator: Token,
) -> Result<Left<BookFile<'a, S>>, Cause>
    ensures made { IfOk result (IsNewOf operator) }
{
    let store = open_new(rt, made, start)?;
    let made = make_in_files(rt.alloc(), store, operator)?;
    let left = made.into_left()?;
    Ok(left)
}

/// Copies the books in a store to an empty file, and closes both.
fn copy_to_empty<'a, S: Start>(
    rt: &'a HostRuntime,
    made: &str,
    store: Opened<'a, S>,
) -> Ended<(), BookFile<'a, S>>
    ensures keeps { AreHonest result.left → IsKept store.entry result.left }
    ensures copies { OnOk result.answer (HoldCopy store.entry result.left result.copy) }
{
    match open_copy(rt, made) {
        Ok(to) => {
            let Copied { answer, left, copy } = copy_in_files(rt.alloc(), store, to);
            Ended { answer, left, copy }
        }
        Err(cause) => close_idle(cause.tell(rt, made), store),
    }
}

/// Brings a copy of the books in a store, in an empty file, to the schema of this version, and closes both.
fn raise_to_empty<'a, S: Start>(
    rt: &'a HostRuntime,
    made: &str,
    store: Opened<'a, S>,
) -> Ended<Migrated, BookFile<'a, S>>
    ensures keeps { AreHonest result.left → IsKept store.entry result.left }
    ensures raises { IfOk result.answer (HoldRaised store.entry result.left result.copy) }
{
    match open_copy(rt, made) {
        Ok(to) => {
            let Copied { answer, left, copy } = raise_in_files(rt.alloc(), store, to);
            Ended { answer, left, copy }
        }
        Err(cause) => close_idle(cause.tell(rt, made), store),
    }
}

/// Gives a copy that was made its place. A terminal is told why that fails.
fn put_copy<F: Folder, T: Drop, D: Disk>(
    rt: &HostRuntime,
    folder: &mut F,
    path: &str,
    making: &Making,
    ended: Ended<T, D>,
) -> Ended<T, D>
    ensures left { result.left ≡ ended.left }
    ensures copy { result.copy ≡ ended.copy }
    ensures same { IfOk result.answer (λ x. ended.answer ≡ Ok x) }
    ensures put { OnOk result.answer
        (IsPut true (F.paths folder.old) (F.paths folder.new) making.now) }
    ensures err { OnErr result.answer
        (IsGivenUp (F.paths folder.old) (F.paths folder.new) making.now
        ⊎ IsPut false (F.paths folder.old) (F.paths folder.new) making.now) }
{
    let Ended { answer, left, copy } = ended;
    let books = match answer {
        Ok(books) => Ok(books),
        Err(fault) => Err(Cause::Fault(fault)),
    };
    let answer = match end(folder, making, books) {
        Ok(books) => Ok(books),
        Err(cause) => Err(cause.tell(rt, path)),
    };
    Ended { answer, left, copy }
}

/// Copies the books in a store to a file beside the one of this path, where nothing is, and gives it its place.
fn copy_over<'a, F: DatabaseFolder, S: Start>(
    rt: &'a HostRuntime,
    folder: &mut F,
    path: &str,
    store: Opened<'a, S>,
) -> Ended<(), BookFile<'a, S>>
    ensures keeps { AreHonest result.left → IsKept store.entry result.left }
    ensures copies { OnOk result.answer (HoldCopy store.entry result.left result.copy) }
    ensures placed { OnOk result.answer
        (Installs Replaces.Nothing path.now (F.paths folder.old) (F.paths folder.new)) }
    ensures kept { OnErr result.answer
        (KeepsFile path.now (F.paths folder.old) (F.paths folder.new)) }
{
    match begin(folder, rt.alloc(), path, Replaces::Nothing) {
        Ok(making) => {
            let copied = copy_to_empty(rt, making.made.as_str(), store);
            put_copy(rt, folder, path, &making, copied)
        }
        Err(cause) => close_idle(cause.tell(rt, path), store),
    }
}

/// Brings a copy of the books in the file of this path and number to the schema of this version, and gives it the file's place.
fn raise_over<'a, F: DatabaseFolder, S: Start>(
    rt: &'a HostRuntime,
    folder: &mut F,
    path: &str,
    number: u64,
    store: Opened<'a, S>,
) -> Ended<Migrated, BookFile<'a, S>>
    ensures keeps { AreHonest result.left → IsKept store.entry result.left }
    ensures raises { IfOk result.answer (HoldRaised store.entry result.left result.copy) }
    ensures placed { OnOk result.answer
        (Installs (Replaces.File number) path.now (F.paths folder.old) (F.paths folder.new)) }
    ensures kept { OnErr result.answer
        (KeepsFile path.now (F.paths folder.old) (F.paths folder.new)) }
{
    match begin(folder, rt.alloc(), path, Replaces::File(number)) {
        Ok(making) => {
            let raised = raise_to_empty(rt, making.made.as_str(), store);
            put_copy(rt, folder, path, &making, raised)
        }
        Err(cause) => close_idle(cause.tell(rt, path), store),
    }
}

/// Copies the books in a store to a file that isn't there yet, for its owner alone to read and write, and closes both. The file
/// is made in FILE-init, and gets its name once it is whole. The first holds what it held.
///
/// # Errors
///
/// `FileExists` where the file is there; `File` where it can't be made, its folder can't be synced, or another process or file is
/// in the way; those of `copy_in_files`. Then nothing is left of it, unless the sync failed. A terminal is told why.
pub(crate) fn copy_to_file<'a, S: Start>(
    rt: &'a HostRuntime,
    path: &str,
    store: Opened<'a, S>,
) -> Ended<(), BookFile<'a, S>>
    ensures keeps { AreHonest result.left → IsKept store.entry result.left }
    ensures copies { OnOk result.answer (HoldCopy store.entry result.left result.copy) }
{
    let mut folder = rt;
    copy_over(rt, &mut folder, path, store)
}

/// Brings a copy of the books in the file of this path and number, with which its store was opened, to the schema of this version,
/// and puts it in the file's place, for its owner alone to read and write.
///
/// # Errors
///
/// `FileExists` where another file has the path now; `File` as of `copy_to_file`; those of `raise_in_files`. Then the file is as
/// it was, unless the sync of its folder failed. A terminal is told why.
pub(crate) fn raise_file<'a, S: Start>(
    rt: &'a HostRuntime,
    path: &str,
    number: u64,
    store: Opened<'a, S>,
) -> Ended<Migrated, BookFile<'a, S>>
    ensures keeps { AreHonest result.left → IsKept store.entry result.left }
    ensures raises { IfOk result.answer (HoldRaised store.entry result.left result.copy) }
{
    let mut folder = rt;
    raise_over(rt, &mut folder, path, number, store)
}

/// The number of the file to which a path leads, where one is there.
pub(crate) fn number_of<F: Folder>(folder: &F, path: &str) -> Option<u64> {
    match folder.entry_behind(path) {
        Ok(Some(entry)) => Some(entry.number),
        _ => None,
    }
}

/// Makes new books in a file beside that of this path, and puts it in its place.
fn make<'a, F: DatabaseFolder, S: Start>(
    rt: &'a HostRuntime,
    folder: &mut F,
    path: &str,
    start: S,
    operator: Token,
) -> Result<Left<BookFile<'a, S>>, Cause>
    ensures made { IfOk result (IsNewOf operator) }
    ensures placed { OnOk result
        (Installs Replaces.EmptyFile path.now (F.paths folder.old) (F.paths folder.new)) }
    ensures kept { OnErr result (KeepsFile path.now (F.paths folder.old) (F.paths folder.new)) }
{
    let making = begin(folder, rt.alloc(), path, Replaces::EmptyFile)?;
    let books = new_books(rt, making.made.as_str(), start, operator);
    end(folder, &making, books)
}

/// Makes new books with the operator's token alone, in a file that isn't there or is empty, for its owner alone to read and
/// write. They are made in FILE-init, and take the file's place once they are whole: whatever breaks that off, the file is as it
/// was or has whole books.
///
/// # Errors
///
/// `FileExists` where it isn't empty; `File` where it can't be made, its folder can't be synced, or another process or file is in
/// the way; `Memory` or `Store` where the database fails. Then nothing is left, unless the sync failed. A terminal is told why.
pub fn make_in_file<'a, S: Start>(
    rt: &'a HostRuntime,
    path: &str,
    start: S,
    operator: Token,
) -> Result<Left<BookFile<'a, S>>, TaskFault>
    ensures made { IfOk result (IsNewOf operator) }
{
    let _ = end_stopped_init(rt, path);
    let mut folder = rt;
    match make(rt, &mut folder, path, start, operator) {
        Ok(left) => Ok(left),
        Err(cause) => Err(cause.tell(rt, path)),
    }
}
