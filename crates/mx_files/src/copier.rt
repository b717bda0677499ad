//! Copies of books while they are served: the bytes of the file, with what is in its log.
ghost use Rattle.std.specs.Prelude.{IfOk, IfSome, OnErr, OnOk, false, string_bytes};
ghost use Rattle.std.specs.Io.KnownBytes.{Appends};
ghost use Rattle.mx_files.specs.Copying.{MayTake, PutsCopy, failed_line};
ghost use Rattle.mx_files.specs.Folders.{ChangesAt, ChangesAtBoth, IsMissing, IsLog, log_of, log_spot, spot_behind};
ghost use Rattle.mx_files.specs.Makings.{KeepsFile};

use crate::bytes::{copy_bytes, make_empty};
use crate::database::fold_at;
use crate::folder::{
    DatabaseFolder, Entry, FileKind, Folder, end_stopped_copy, end_stopped_init, folder_of,
};
use crate::init::{begin, end};
use crate::making::Making;
use crate::mark::Mark;
use crate::places::{MAGIC, Replaces, has_log, with_ending};
use crate::plan::PlannedCopies;
use mx_tasks::serve::chore::Chore;
use mx_tasks::voice::Voice;
use mx_tasks::{Cause, TaskFault};
use sqlite::Unknown;
use std::alloc::Global;
use std::fmt::Display;
use std::os::unix::fs::MetadataExt;
use std::time::{Duration, Instant};
use std::{fs, io};

/// Whether two paths lead to one file.
fn lead_to_one(rt: &HostRuntime, path: &str, other: &str) -> io::Result<bool> {
    let one = fs::metadata(rt, path)?;
    let two = fs::metadata(rt, other)?;
    Ok(one.dev() == two.dev() && one.ino() == two.ino())
}

/// What a copy of books takes the place of at a path: nothing, or a database, which is taken for the copy before.
///
/// # Errors
///
/// `OtherFile` where something else is there; `NotEmpty` where a link is there that leads to nothing; `System` where that can't be
/// told.
fn replaced<F: Folder>(folder: &F, alloc: Global, path: &str) -> Result<Replaces, Cause>
    ensures { IfOk result (MayTake (spot_behind (F.paths folder.now) path.now)) }
{
    let Some(entry) = folder.entry_behind(path)? else {
        return match folder.entry_at(path)? {
            None => Ok(Replaces::Nothing),
            Some(_) => Err(Cause::NotEmpty),
        };
    };
    let Entry { kind, number, .. } = entry;
    if !matches!(kind, FileKind::Regular) {
        return Err(Cause::OtherFile);
    }
    let head = folder.head_behind(alloc, path, MAGIC.len() as u64)?;
    if head.as_slice() != MAGIC {
        return Err(Cause::OtherFile);
    }
    Ok(Replaces::Older(number))
}

/// What a copy of the books in a file takes the place of at another path.
///
/// # Errors
///
/// `Itself` where that leads to the file; those of `replaced`.
fn replaced_beside(rt: &HostRuntime, file: &str, to: &str) -> Result<Replaces, Cause> {
    let replaces = replaced(&rt, rt.alloc(), to)?;
    if matches!(replaces, Replaces::Older(_)) && lead_to_one(rt, file, to)? {
        return Err(Cause::Itself);
    }
    Ok(replaces)
}

/// Copies the books in a file and its log to the files that were made for them, and brings the log of the copy into it. Nothing
/// changes the books meanwhile.
fn copy_files(rt: &HostRuntime, file: &str, making: &Making) -> Result<Mark, Cause> {
    let behind = fs::canonicalize(rt, file)?.into_string();
    let log = with_ending(rt.alloc(), behind.as_str(), "-wal")?;
    make_empty(rt, making.log.as_str())?;
    copy_bytes(rt, log.as_str(), making.log.as_str())?;
    copy_bytes(rt, behind.as_str(), making.made.as_str())?;
    let folded = fold_at(rt, making.made.as_str(), Unknown)?;
    Ok(Mark::of(rt, log.as_str(), folded.frames)?)
}

/// Removes the log beside the place of a copy, which has no change in it: whoever has the copy before open goes on with that, and
/// nothing of it comes into the one that takes its place.
///
/// # Errors
///
/// `FullLog` where it has changes; `OtherLog` where another file is there; `System` where that can't be told.
fn clear_log<F: Folder>(folder: &mut F, alloc: Global, place: &str) -> Result<(), Cause>
    ensures empty { OnOk result (IsLog (log_spot (F.paths folder.old) place.now) false) }
    ensures gone { OnOk result (IsMissing ((F.paths folder.new).spot (log_of place.now))) }
    ensures others { ChangesAt (log_of place.now) (F.paths folder.old) (F.paths folder.new) }
{
    if has_log(&*folder, alloc, place)? {
        return Err(Cause::FullLog);
    }
    let log = with_ending(alloc, place, "-wal")?;
    let _ = folder.remove(log.as_str());
    Ok(())
}

/// Makes a copy in the files that were made for it, and makes room for it in its place.
fn make_copy<F: Folder>(
    rt: &HostRuntime,
    folder: &mut F,
    file: &str,
    making: &Making,
) -> Result<Mark, Cause>
    ensures gone { OnOk result
        (IsMissing ((F.paths folder.new).spot (log_of (string_bytes making.now.place)))) }
    ensures others { ChangesAtBoth (string_bytes making.now.log) (log_of (string_bytes making.now.place))
        (F.paths folder.old) (F.paths folder.new) }
{
    let _ = folder.remove(making.log.as_str());
    let mark = copy_files(rt, file, making)?;
    clear_log(folder, rt.alloc(), making.place.as_str())?;
    Ok(mark)
}

/// Copies the books in a file to a file beside the one of another path, and gives it its place.
fn copy_to_place<F: DatabaseFolder>(
    rt: &HostRuntime,
    folder: &mut F,
    file: &str,
    to: &str,
    replaces: Replaces,
) -> Result<Mark, Cause>
    ensures placed { OnOk result
        (PutsCopy replaces to.now (F.paths folder.old) (F.paths folder.new)) }
    ensures kept { OnErr result (KeepsFile to.now (F.paths folder.old) (F.paths folder.new)) }
{
    let making = begin(folder, rt.alloc(), to, replaces)?;
    let made = make_copy(rt, folder, file, &making);
    end(folder, &making, made)
}

/// Copies the books in a file to a path, and says where they ended then. The copy takes the place of the one before once it is
/// whole and the disk has it.
///
/// # Errors
///
/// Those of `replaced_beside`, of `begin`, of `copy_files` and of `end`; `FullLog` where somebody has written the copy before. That
/// is there then, unless the folder couldn't be synced.
fn copy_to(rt: &HostRuntime, file: &str, to: &str) -> Result<Mark, Cause> {
    let _ = end_stopped_init(rt, to);
    let _ = end_stopped_copy(rt, to);
    let replaces = replaced_beside(rt, file, to)?;
    let mut folder = rt;
    copy_to_place(rt, &mut folder, file, to, replaces)
}

/// Copies the books in a file now and then while they are served, where that was asked for.
#[derive(Drop)]
pub struct Copier<'a> {
    rt: &'a HostRuntime,
    file: &'a str,
    /// The copies that were asked for.
    copies: Option<PlannedCopies<'a>>,
    /// When it is looked next whether the books have changed.
    due: Option<Instant>,
    /// Where they ended when they were copied.
    copied: Option<Mark>,
}

impl<'a> Copier<'a> {
    /// A copier that has made no copy.
    ///
    /// # Errors
    ///
    /// Those of `replaced_beside`; `System` where the folder of the copies isn't there. A terminal is told why.
    pub(crate) fn new(
        rt: &'a HostRuntime,
        file: &'a str,
        copies: Option<PlannedCopies<'a>>,
    ) -> Result<Copier<'a>, TaskFault> {
        if let Some(copies) = copies
            && let Err(cause) = look_for_place(rt, file, copies.to)
        {
            return Err(cause.tell(rt, copies.to));
        }
        Ok(Copier {
            rt,
            file,
            copies,
            due: None,
            copied: None,
        })
    }

    /// Whether nothing was committed since the last copy, as far as that can be told.
    fn is_current(&self) -> bool {
        let Some(mark) = self.copied else {
            return false;
        };
        let Ok(log) = log_path(self.rt, self.file) else {
            return false;
        };
        mark.stands(self.rt, log.as_str()).unwrap_or(false)
    }

    /// Copies the books where they have changed. A line says where that fails.
    fn renew(&mut self, to: &str) {
        if self.is_current() {
            return;
        }
        match copy_to(self.rt, self.file, to) {
            Ok(mark) => self.copied = Some(mark),
            Err(cause) => say_failed(&mut self.rt, to, &cause),
        }
    }
}

/// The path of the log of books.
fn log_path(rt: &HostRuntime, file: &str) -> Result<String, Cause> {
    let behind = fs::canonicalize(rt, file)?.into_string();
    with_ending(rt.alloc(), behind.as_str(), "-wal")
}

/// Says why a copy wasn't made.
fn say_failed<V: Voice, D: Display + Drop>(voice: &mut V, to: &str, words: D)
    ensures { IfSome (D.output words) (λ words. Appends (V.said voice.old) (V.said voice.new)
        (failed_line to.now words)) }
{
    voice.say(format_args!("copy: {to}: {words}; the next is tried when it is due\n"));
}

/// Looks whether books that are served may be copied to a path.
fn look_for_place(rt: &HostRuntime, file: &str, to: &str) -> Result<(), Cause> {
    fs::metadata(rt, folder_of(to))?;
    replaced_beside(rt, file, to)?;
    Ok(())
}

impl Chore for Copier<'_> {
    fn between(&mut self, now: Instant) -> Duration {
        let Some(copies) = self.copies else {
            return Duration::MAX;
        };
        if let Some(due) = self.due
            && let Some(rest) = due.checked_duration_since(now)
            && rest > Duration::ZERO
        {
            return rest;
        }
        self.renew(copies.to);
        let every = Duration::from_secs(u64::from(copies.every));
        let end = Instant::now(self.rt).unwrap_or(now);
        self.due = end.checked_add(every);
        every
    }
}
