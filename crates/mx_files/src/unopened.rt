//! Why a database isn't opened, as far as a look at its files tells.
ghost use Rattle.std.specs.Prelude.{◌≡◌, OnOk};
ghost use Rattle.mx_files.specs.Folders.{IsPlain, spot_behind};
ghost use Rattle.mx_files.specs.Opened.{cause_of, IsExplained};

use crate::folder::{FileKind, Folder};
use crate::places::{MAGIC, with_ending};
use mx_tasks::{Cause, TaskFault};
use sqlite::{Error, ErrorCode};
use std::alloc::Global;

/// Fails where a database and its log can't be opened for a cause of the database's own.
fn look<F: Folder>(folder: &F, alloc: Global, path: &str) -> Result<(), Cause>
    ensures plain { OnOk result (IsPlain (spot_behind (F.paths folder.now) path.now)) }
{
    if let Some(entry) = folder.entry_behind(path)? {
        if !matches!(entry.kind, FileKind::Regular) {
            return Err(Cause::Irregular);
        }
        if entry.names != 1 {
            return Err(Cause::SecondName);
        }
    }
    folder.try_writing(path)?;
    let journal = with_ending(alloc, path, "-journal")?;
    if let Ok(Some(_)) = folder.entry_at(journal.as_str()) {
        return Err(Cause::Journal);
    }
    Ok(())
}

/// Fails where a file doesn't begin as a database does.
fn look_at_head<F: Folder>(folder: &F, alloc: Global, path: &str) -> Result<(), Cause> {
    let head = folder.head_behind(alloc, path, MAGIC.len() as u64)?;
    if head.as_slice().starts_with(MAGIC) {
        return Ok(());
    }
    Err(Cause::NotADatabase)
}

/// Why the database isn't opened, where this is the error, and its files tell nothing else.
fn cause_of(error: &Error) -> Cause
    ensures { result ≡ cause_of error.now }
{
    match error {
        Error::SqliteFailure(ErrorCode::OutOfMemory) => Cause::Fault(TaskFault::Memory),
        Error::SqliteFailure(ErrorCode::DatabaseBusy) => Cause::Busy,
        Error::SqliteFailure(ErrorCode::DatabaseCorrupt) => Cause::Damaged,
        Error::SqliteFailure(ErrorCode::NotADatabase) => Cause::OtherTables,
        Error::SqliteFailure(ErrorCode::CannotOpen) => Cause::NoLog,
        Error::SqliteFailure(ErrorCode::DiskFull) => Cause::DiskFull,
        _ => Cause::DiskFailed,
    }
}

/// Why the database at a path isn't opened, where this is the error.
pub(crate) fn unopened<F: Folder>(folder: &F, alloc: Global, path: &str, error: Error) -> Cause
    ensures { IsExplained (cause_of error) result }
{
    let cause = cause_of(&error);
    let looked = match &cause {
        Cause::Damaged | Cause::OtherTables => look_at_head(folder, alloc, path),
        Cause::NoLog => look(folder, alloc, path),
        _ => Ok(()),
    };
    match looked {
        Ok(()) => cause,
        Err(other) => other,
    }
}
