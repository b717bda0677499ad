//! How the database in the files at a path is opened.
ghost use Rattle.std.specs.Prelude.{◌≡◌, IfOk, IsTrue, false, true};
ghost use Rattle.sqlite_std_file.specs.File.{IsFresh, file_is_usable};
ghost use Rattle.sqlite_wal.specs.Files.{image_at};
ghost use Rattle.sqlite_wal.specs.Reads.{AreClean, IsClean, OnlyReads};
ghost use Rattle.sqlite.specs.Files.{file_state, image_of};
ghost use Rattle.sqlite.specs.State.{HasCleanDisk};
ghost use Rattle.mx_log.specs.Damage.{IsDamaged};
ghost use Rattle.mx_log.specs.Folds.{IsFolded};
ghost use Rattle.mx_files.specs.InFiles.{HasSumsIfNew, IsOpenedOver};
ghost use Rattle.mx_files.specs.Watched.{file_of};

use crate::files::Opened;
use crate::log::look_at_log;
use crate::unopened::unopened;
use crate::watched::Watched;
use mx_log::{Folded, fold};
use mx_tasks::{Cause, TaskFault};
use sqlite::{Connection, Error, ErrorCode, FileFrom, FileStore, Files, Options, Start, Unknown};
use sqlite_disk::Disk;
use sqlite_std_file::OpenError;
use sqlite_wal::{Error as FoldError, probe_page_size};
use std::hash::{BuildHasher, RandomState};
use std::io;
use std::io::ErrorKind;

/// How many bytes a page has, where no file tells.
const BYTES_OF_A_PAGE: usize = 4_096;

/// How many bytes a database begins with that say how it is.
const BYTES_OF_A_HEAD: usize = 100;

/// Where it says there how many of its pages have nothing.
const FREE_AT: usize = 36;

/// The error of a file that can't be read.
const FAILED: Error = Error::SqliteFailure(ErrorCode::SystemIoFailure);

/// The error of a file that can't be opened, or whose log can't.
const CANNOT_OPEN: Error = Error::SqliteFailure(ErrorCode::CannotOpen);

/// The error of a file that isn't opened.
fn error_of(error: OpenError) -> Error {
    let code = match error {
        OpenError::OutOfMemory => ErrorCode::OutOfMemory,
        OpenError::Busy => ErrorCode::DatabaseBusy,
        OpenError::Io(error) if error.kind() == ErrorKind::OutOfMemory => ErrorCode::OutOfMemory,
        OpenError::Io(_) | OpenError::HotJournal => ErrorCode::CannotOpen,
    };
    Error::SqliteFailure(code)
}

/// The log and the database file at a path, which nobody else has open from here on. Those that are missing are made.
fn locked<S: Start>(rt: &HostRuntime, path: &str, start: S) -> Result<Files<FileFrom<S>>, Error>
    ensures usable { IfOk result (λ files. IsTrue (file_is_usable S.Start files.log)
        × IsTrue (file_is_usable S.Start files.db)) }
    ensures fresh { IfOk result (λ files. IsFresh true files.log × IsFresh false files.db) }
{
    match sqlite_std_file::open(rt, path, start) {
        Ok(files) => Ok(files),
        Err(error) => Err(error_of(error)),
    }
}

/// How many pages of a database have nothing, as its first page tells.
fn free_pages<D: Disk>(db: &mut D) -> io::Result<usize>
    requires { IsTrue (D.Disk.is_usable db.old) }
    ensures { OnlyReads D.Disk db.old db.new }
{
    if db.len()? < BYTES_OF_A_HEAD {
        return Ok(0);
    }
    let mut free = [0u8; 4];
    db.read_at(FREE_AT, &mut free)?;
    Ok(u32::from_be_bytes(free) as usize)
}

/// How many pages two files have.
#[derive(Clone, Copy, Debug)]
struct Extent {
    /// Those of the database file.
    pages: usize,
    /// Those that would be in the log, were it nothing but pages.
    logged: usize,
    /// Those of the database file that have nothing.
    free: usize,
}

/// How many pages two files have.
fn extent_of<D: Disk>(files: &mut Files<D>) -> io::Result<Extent>
    requires log { IsTrue (D.Disk.is_usable files.old.log) }
    requires db { IsTrue (D.Disk.is_usable files.old.db) }
    ensures log { OnlyReads D.Disk files.old.log files.new.log }
    ensures db { OnlyReads D.Disk files.old.db files.new.db }
{
    let bytes = match probe_page_size(files)? {
        Some(size) => size.bytes(),
        None => BYTES_OF_A_PAGE,
    };
    Ok(Extent {
        pages: files.db.len()? / bytes,
        logged: files.log.len()? / bytes,
        free: free_pages(&mut files.db)?,
    })
}

impl Extent {
    /// How many slots for pages hold all pages at once.
    fn slots(&self) -> usize {
        self.pages.saturating_add(self.logged).saturating_add(1)
    }

    /// How often an opening reads the database file at least: each page twice, but one that has nothing once, and one of which
    /// the log has a later state never.
    fn reads(&self) -> usize {
        self.pages
            .saturating_sub(self.logged)
            .saturating_mul(2)
            .saturating_sub(self.free)
    }
}

/// How a database is opened that needs so many slots for its pages. All pages are kept in memory, since an opening that tests
/// the rows of an index one by one comes to its pages in no order, and would read them again and again.
fn options(rt: &HostRuntime, slots: usize) -> Result<Options, Error> {
    let seed = RandomState::new(rt)
        .map_err(|_| CANNOT_OPEN)?
        .hash_one(&0u8);
    let usual = Options::new(seed);
    Ok(Options {
        cache_pages: usual.cache_pages.max(slots),
        ..usual
    })
}

/// The log and the database file at a path, which nobody else has open from here on, and of which the log isn't damaged. Those
/// that are missing are made.
fn locked_whole<S: Start>(
    rt: &HostRuntime,
    path: &str,
    start: S,
) -> Result<Files<FileFrom<S>>, Cause>
    ensures log { IfOk result (λ files. IsTrue (⟦<FileFrom<S> as Disk>⟧.is_usable files.log)) }
    ensures db { IfOk result (λ files. IsTrue (⟦<FileFrom<S> as Disk>⟧.is_usable files.db)) }
    ensures bytes { IfOk result
        (λ files. image_of ⟦<FileFrom<S> as Disk>⟧ files ≡ image_at S.Start) }
    ensures sound { IfOk result (λ files. IsClean ⟦<FileFrom<S> as Disk>⟧ files.log
        → ¬ IsDamaged S.Start.log) }
{
    match locked(rt, path, start) {
        Ok(mut files) => {
            look_at_log(rt.alloc(), &mut files.log)?;
            Ok(files)
        }
        Err(error) => Err(unopened(&rt, rt.alloc(), path, error)),
    }
}

/// Both files, of which a terminal is told how far the opening of the database is.
fn watched<'a, D: Disk>(
    rt: &'a HostRuntime,
    files: Files<D>,
    extent: &Extent,
) -> Files<Watched<'a, D>>
    ensures log { file_of result.log ≡ files.log }
    ensures db { file_of result.db ≡ files.db }
{
    Files {
        log: Watched::new(rt, files.log, 0, 0),
        db: Watched::new(rt, files.db, extent.pages, extent.reads()),
    }
}

/// Opens the database in two files, or makes an empty one.
fn open_files<'a, D: Disk + Drop>(
    rt: &'a HostRuntime,
    files: Files<D>,
    new_has_sums: bool,
) -> Result<Connection<FileStore<Watched<'a, D>>>, Error>
    requires log { IsTrue (D.Disk.is_usable files.log) }
    requires db { IsTrue (D.Disk.is_usable files.db) }
    ensures over { IfOk result (IsOpenedOver (image_of D.Disk files)) }
    ensures sums { IsTrue new_has_sums → IfOk result (HasSumsIfNew (image_of D.Disk files)) }
    ensures honest { IfOk result (λ c. HasCleanDisk (file_state c)
        → AreClean D.Disk files.log files.db) }
{
    let mut files = files;
    let extent = extent_of(&mut files).map_err(|_| FAILED)?;
    let options = options(rt, extent.slots())?;
    let files = watched(rt, files, &extent);
    match Connection::open_files_with(rt.alloc(), files, options, new_has_sums) {
        Ok(store) => Ok(store),
        Err((error, _)) => Err(error),
    }
}

/// Opens the database in the files at a path, which makes an empty one where there is none. `new_has_sums` says whether the
/// pages of that end in SQLite's page checksum.
///
/// # Errors
///
/// `DamagedLog` where the log is damaged, `System` where it can't be read; those of `unopened`.
pub(crate) fn open_at<'a, S: Start>(
    rt: &'a HostRuntime,
    path: &str,
    new_has_sums: bool,
    start: S,
) -> Result<Opened<'a, S>, Cause>
    ensures over { IfOk result (IsOpenedOver (image_at S.Start)) }
    ensures sums { IsTrue new_has_sums → IfOk result (HasSumsIfNew (image_at S.Start)) }
    ensures sound { IfOk result (λ c. HasCleanDisk (file_state c) → ¬ IsDamaged S.Start.log) }
{
    let files = locked_whole(rt, path, start)?;
    match open_files(rt, files, new_has_sums) {
        Ok(store) => Ok(store),
        Err(error) => Err(unopened(&rt, rt.alloc(), path, error)),
    }
}

/// Opens new files as an empty database.
fn open_empty<D: Disk + Drop>(
    rt: &HostRuntime,
    files: Files<D>,
) -> Result<Connection<FileStore<D>>, Error>
    requires log { IsTrue (D.Disk.is_usable files.log) }
    requires db { IsTrue (D.Disk.is_usable files.db) }
    ensures sums { IfOk result (HasSumsIfNew (image_of D.Disk files)) }
{
    let options = options(rt, 0)?;
    match Connection::open_files_with(rt.alloc(), files, options, true) {
        Ok(store) => Ok(store),
        Err((error, _)) => Err(error),
    }
}

/// Why the log of a copy isn't brought into it.
fn unfolded(error: FoldError) -> Cause {
    match error {
        FoldError::Io(error) => Cause::System(error),
        FoldError::OutOfMemory => Cause::Fault(TaskFault::Memory),
        _ => Cause::Damaged,
    }
}

/// Brings the log of the database at a path into it, and waits until the disk has that.
///
/// # Errors
///
/// `DamagedLog` where the log is damaged, `Damaged` where the files are no database, `System` where they can't be read or
/// written; those of `unopened`.
pub(crate) fn fold_at<S: Start>(
    rt: &HostRuntime,
    path: &str,
    start: S,
) -> Result<Folded<FileFrom<S>>, Cause>
    ensures { IfOk result (λ folded.
        AreClean ⟦<FileFrom<S> as Disk>⟧ folded.files.log folded.files.db
        → IsFolded ⟦<FileFrom<S> as Disk>⟧ (image_at S.Start) folded) }
{
    let files = locked_whole(rt, path, start)?;
    let seed = RandomState::new(rt)?.hash_one(&0u8);
    match fold(rt.alloc(), files, seed) {
        Ok(folded) => Ok(folded),
        Err(error) => Err(unfolded(error)),
    }
}

/// Opens an empty file as a new database for a copy of books. Its pages end in SQLite's page checksum.
///
/// # Errors
///
/// As of `open_at`.
pub(crate) fn open_copy(
    rt: &HostRuntime,
    path: &str,
) -> Result<Connection<FileStore<FileFrom<Unknown>>>, Cause>
    ensures sums { IfOk result (HasSumsIfNew (image_at ⟦<Unknown as Start>⟧)) }
{
    let files = locked_whole(rt, path, Unknown)?;
    match open_empty(rt, files) {
        Ok(store) => Ok(store),
        Err(error) => Err(unopened(&rt, rt.alloc(), path, error)),
    }
}
