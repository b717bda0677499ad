//! What stands where a file of books and its log belong.
ghost use Rattle.std.specs.Prelude.{◌≡◌, ◌==◌, ◌++◌, ◌↔◌, Err, IfErr, IfOk, IsTrue, OnOk, string_bytes};
ghost use Rattle.std.specs.List.{list_all};
ghost use Rattle.mx_files.specs.Folders.{HasNoLog, IsEmptyFile, IsLog, IsOtherFile, IsPlaceFor, MayBe, MayBeOpened, has_log_magic, log_spot, may_begin_log, spot_behind};

use crate::folder::{Entry, FileKind, Folder};
use mx_tasks::{Cause, TaskFault};
use std::alloc::Global;

/// What a database of SQLite begins with.
pub(crate) const MAGIC: &[u8] = b"SQLite format 3\0";

/// The most bytes of a log with no change in it.
const MOST_OF_AN_EMPTY_LOG: u64 = 56;

/// Whether a file is a regular one that has no byte.
pub(crate) fn is_empty(entry: &Entry) -> bool
    ensures { IsTrue result ↔ IsEmptyFile entry.now }
{
    match entry.kind {
        FileKind::Regular => entry.length == 0,
        FileKind::Link | FileKind::Other => false,
    }
}

/// A path with an ending more.
pub(crate) fn with_ending(alloc: Global, path: &str, ending: &str) -> Result<String, Cause>
    ensures longer { IfOk result (λ longer. string_bytes longer ≡ path.now ++ ending.now) }
    ensures fault { IfErr result (λ e. e ≡ Cause.Fault TaskFault.Memory) }
{
    match format!(in alloc; "{path}{ending}") {
        Ok(longer) => Ok(longer),
        Err(_) => Err(Cause::Fault(TaskFault::Memory)),
    }
}

/// Whether these bytes begin with the magic number of a log of SQLite. Its first byte is 0 while the log is emptied.
fn has_log_magic(head: &[u8]) -> bool
    ensures { result ≡ has_log_magic head.now }
{
    match head {
        [first, 0x7f, 0x06, last, ..] => {
            (*first == 0x37 || *first == 0) && (*last == 0x82 || *last == 0x83)
        }
        _ => false,
    }
}

/// Whether these bytes are nothing but zeros.
fn is_zero(head: &[u8]) -> bool
    ensures { result ≡ list_all (λ byte. byte == 0) head.now }
{
    head.iter().all(|byte| *byte == 0)
}

/// Whether a log of SQLite may begin with these bytes.
fn may_begin_log(head: &[u8]) -> bool
    ensures { result ≡ may_begin_log head.now }
{
    has_log_magic(head) || is_zero(head)
}

/// Whether what stands where the log of a database belongs is long enough to have a change in it. The path is one with no link
/// in it.
///
/// # Errors
///
/// `OtherLog` where another file stands there, which an opening would overwrite; `System` where it can't be read.
pub(crate) fn has_log<F: Folder>(folder: &F, alloc: Global, path: &str) -> Result<bool, Cause>
    ensures log { IfOk result (IsLog (log_spot (F.paths folder.now) path.now)) }
    ensures other { result ≡ Err Cause.OtherLog
        → IsOtherFile (log_spot (F.paths folder.now) path.now) }
{
    let log = with_ending(alloc, path, "-wal")?;
    let head = folder.head_behind(alloc, log.as_str(), MOST_OF_AN_EMPTY_LOG + 1)?;
    if !may_begin_log(head.as_slice()) {
        return Err(Cause::OtherLog);
    }
    Ok(head.len() as u64 > MOST_OF_AN_EMPTY_LOG)
}

/// Whether books may be opened at a path. Their log is beside the file that a link leads to.
///
/// # Errors
///
/// `Empty` where the file is empty; `OtherLog` where another file stands where its log belongs; `System` where it isn't there,
/// or that can't be told.
pub fn look_for_books<F: Folder>(folder: &F, alloc: Global, path: &str) -> Result<(), Cause>
    ensures { OnOk result (MayBeOpened (F.paths folder.now) path.now
        (spot_behind (F.paths folder.now) path.now)) }
{
    let behind = folder.path_behind(alloc, path)?;
    match folder.entry_behind(path)? {
        Some(entry) if is_empty(&entry) => return Err(Cause::Empty),
        _ => {}
    }
    has_log(folder, alloc, behind.as_str())?;
    Ok(())
}

/// What may stand where books are put.
#[derive(Clone, Copy, Debug)]
pub enum Replaces {
    /// Nothing.
    Nothing,
    /// Nothing, or an empty file.
    EmptyFile,
    /// The file of this number, whose books they are.
    File(u64),
    /// The file of this number, a copy of the books as they were before.
    Older(u64),
}

impl Replaces {
    /// Whether it may be this file.
    pub fn may_be(&self, entry: &Entry) -> bool
        ensures { IsTrue result ↔ MayBe self.now entry.now }
    {
        match self {
            Replaces::Nothing => false,
            Replaces::EmptyFile => is_empty(entry),
            Replaces::File(number) | Replaces::Older(number) => entry.number == *number,
        }
    }

    /// Whether it has no log. That of a file whose books are put there has nothing in it once it is closed.
    fn has_no_log(&self) -> bool
        ensures { IsTrue result ↔ HasNoLog self.now }
    {
        !matches!(self, Replaces::File(_))
    }
}

/// The path at which new books may be put, in place of the file of this path, with no link in it.
///
/// # Errors
///
/// `NotEmpty` where a file is there that may not be replaced; `FullLog` where a log with changes is where its log belongs, which
/// would go into the new books; `OtherLog` where another file is there; `System` where that can't be told.
pub fn place_for<F: Folder>(
    folder: &F,
    alloc: Global,
    path: &str,
    replaces: Replaces,
) -> Result<String, Cause>
    ensures { IfOk result
        (λ place. IsPlaceFor replaces (F.paths folder.now) path.now (string_bytes place)) }
{
    let place = match folder.entry_behind(path)? {
        Some(entry) if replaces.may_be(&entry) => folder.path_behind(alloc, path)?,
        Some(_) => return Err(Cause::NotEmpty),
        None => with_ending(alloc, path, "")?,
    };
    if replaces.has_no_log() && has_log(folder, alloc, place.as_str())? {
        return Err(Cause::FullLog);
    }
    Ok(place)
}
