//! How new books are made in a file beside their place, and put there.
ghost use Rattle.std.specs.Prelude.{◌≡◌, ◌≢◌, Bool, IfOk, IsErr, Ok, OnErr, OnOk, false, true, string_bytes, ◌⊎◌};
ghost use Rattle.mx_tasks.specs.Causes.{cause_fault};
ghost use Rattle.mx_files.specs.Folders.{ChangesAt, ChangesAtBoth, ChangesNothing, HadNumber, HasNumber, IsLog, Makes, MayBeLeftOver, MayBeReplaced, TellsNumber, log_spot, named, removed, vacant};
ghost use Rattle.mx_files.specs.Makings.{Begins, ChangesBeside, ChangesIn, IsGivenUp, IsPut};

use crate::folder::{DatabaseFolder, Entry, FileKind, Folder, Held};
use crate::making::Making;
use crate::places::{Replaces, has_log, place_for, with_ending};
use mx_tasks::{Cause, TaskFault};
use std::alloc::Global;
use std::io;
use std::io::ErrorKind;

/// Holds the file in which an `init` that was broken off has made books.
///
/// # Errors
///
/// `Rival` where another process holds it; `Irregular` where it isn't marked, so that it is another file; `System` where that
/// can't be told.
fn hold_left<F: Folder>(folder: &F, path: &str) -> Result<Held, Cause> {
    match folder.hold(path) {
        Ok(held) if held.is_marked()? => Ok(held),
        Ok(_) => Err(Cause::Irregular),
        Err(error) if error.kind() == ErrorKind::WouldBlock => Err(Cause::Rival),
        Err(error) => Err(Cause::System(error)),
    }
}

/// Removes what an `init` that was broken off has left, where it left something. What hasn't the mark of new books, or is no
/// database, or no log of one, isn't that, and stays; and so does a link.
fn clear<F: DatabaseFolder>(folder: &mut F, alloc: Global, path: &str) -> Result<(), Cause>
    ensures left { OnOk result (MayBeLeftOver ((F.paths folder.old).spot path.now)) }
    ensures log { OnOk result ((has_change : Bool)
        × IsLog (log_spot (F.paths folder.old) path.now) has_change) }
    ensures gone { OnOk result ((F.paths folder.new).spot path.now
        ≡ removed ((F.paths folder.old).spot path.now)) }
    ensures err { IsErr result → ChangesNothing (F.paths folder.old) (F.paths folder.new) }
    ensures others { ChangesAt path.now (F.paths folder.old) (F.paths folder.new) }
{
    has_log(&*folder, alloc, path)?;
    match folder.entry_at(path)? {
        None => return Ok(()),
        Some(
            Entry {
                kind: FileKind::Regular,
                ..
            },
        ) => {}
        Some(_) => return Err(Cause::Irregular),
    }
    let held = hold_left(&*folder, path)?;
    folder.try_database(path)?;
    folder.remove(path)?;
    drop(held);
    Ok(())
}

/// Whether a file wasn't made since another process has made it, or has taken it.
fn is_taken(error: &io::Error) -> bool {
    matches!(
        error.kind(),
        ErrorKind::AlreadyExists | ErrorKind::WouldBlock
    )
}

/// Makes an empty file that only its owner may read and write, where none is, and holds it.
fn make_private<F: Folder>(folder: &mut F, path: &str) -> Result<Held, Cause>
    ensures ok { IfOk result (λ held. Makes ((F.paths folder.old).spot path.now)
        ((F.paths folder.new).spot path.now) held.number 0o600) }
    ensures others { ChangesAt path.now (F.paths folder.old) (F.paths folder.new) }
{
    match folder.make_file(path, 0o600) {
        Ok(held) => Ok(held),
        Err(error) if is_taken(&error) => Err(Cause::Rival),
        Err(error) => Err(Cause::System(error)),
    }
}

/// What is said of a file FILE-init that can't be removed.
fn left_over(cause: &Cause) -> Cause
    ensures { cause_fault result ≡ cause_fault cause.now }
{
    match cause.fault() {
        TaskFault::File => Cause::Leftover,
        fault => Cause::Fault(fault),
    }
}

/// Makes an empty file beside the place of books, for them, where they may be put at this path. What an init that was broken
/// off has left there is removed.
///
/// # Errors
///
/// Those of `place_for`; `Leftover` where what is at FILE-init can't be removed; `Rival` where another process makes it;
/// `System` where it can't be made; `Memory`.
pub fn begin<F: DatabaseFolder>(
    folder: &mut F,
    alloc: Global,
    path: &str,
    replaces: Replaces,
) -> Result<Making, Cause>
    ensures begins { IfOk result
        (λ making. Begins replaces path.now (F.paths folder.old) (F.paths folder.new) making) }
    ensures others { ChangesBeside replaces path.now (F.paths folder.old) (F.paths folder.new) }
{
    let place = place_for(&*folder, alloc, path, replaces)?;
    let made = with_ending(alloc, place.as_str(), "-init")?;
    let log = with_ending(alloc, made.as_str(), "-wal")?;
    if let Err(cause) = clear(folder, alloc, made.as_str()) {
        return Err(left_over(&cause));
    }
    let held = make_private(folder, made.as_str())?;
    Ok(Making {
        place,
        replaces,
        made,
        log,
        number: held.number,
        held,
    })
}

/// Whether the file with that number is still at this path: another `init` may have taken it for one that was broken off.
fn is_there<F: Folder>(folder: &F, path: &str, number: u64) -> bool
    ensures { TellsNumber ((F.paths folder.now).spot path.now) number result }
{
    match folder.entry_at(path) {
        Ok(Some(entry)) => entry.number == number,
        _ => false,
    }
}

/// Gives a file another path, where nothing is or what it may replace.
///
/// # Errors
///
/// `NotEmpty` where something else is there; `System` where that can't be told, or the file can't be moved.
fn give_path<F: Folder>(
    folder: &mut F,
    from: &str,
    to: &str,
    replaces: &Replaces,
) -> Result<(), Cause>
    ensures free { OnOk result (MayBeReplaced replaces.now ((F.paths folder.old).spot to.now)) }
    ensures put { OnOk result ((F.paths folder.new).spot to.now
        ≡ named false ((F.paths folder.old).spot from.now)) }
    ensures gone { OnOk result (from.now ≢ to.now
        → (F.paths folder.new).spot from.now ≡ removed ((F.paths folder.old).spot from.now)) }
    ensures err { IsErr result → ChangesNothing (F.paths folder.old) (F.paths folder.new) }
    ensures others { ChangesAtBoth from.now to.now (F.paths folder.old) (F.paths folder.new) }
{
    let moved = match folder.entry_at(to)? {
        None => folder.rename_new(from, to),
        Some(entry) if replaces.may_be(&entry) => folder.rename(from, to),
        Some(_) => return Err(Cause::NotEmpty),
    };
    match moved {
        Ok(()) => Ok(()),
        Err(error) if error.kind() == ErrorKind::AlreadyExists => Err(Cause::NotEmpty),
        Err(error) => Err(Cause::System(error)),
    }
}

/// Gives the file that was made its place.
fn put<F: Folder>(folder: &mut F, making: &Making) -> Result<(), Cause>
    ensures ours { OnOk result (HasNumber ((F.paths folder.old).spot (string_bytes making.now.made))
        making.now.number) }
    ensures free { OnOk result
        (MayBeReplaced making.now.replaces
        ((F.paths folder.old).spot (string_bytes making.now.place))) }
    ensures put { OnOk result ((F.paths folder.new).spot (string_bytes making.now.place)
        ≡ named false ((F.paths folder.old).spot (string_bytes making.now.made))) }
    ensures gone { OnOk result ((F.paths folder.new).spot (string_bytes making.now.made)
        ≡ removed ((F.paths folder.old).spot (string_bytes making.now.made))) }
    ensures err { IsErr result → ChangesNothing (F.paths folder.old) (F.paths folder.new) }
    ensures others { ChangesAtBoth (string_bytes making.now.made) (string_bytes making.now.place)
        (F.paths folder.old) (F.paths folder.new) }
{
    if !is_there(&*folder, making.made.as_str(), making.number) {
        return Err(Cause::Rival);
    }
    give_path(
        folder,
        making.made.as_str(),
        making.place.as_str(),
        &making.replaces,
    )
}

/// Gives the file its place, where books were made in it.
fn put_made<F: Folder, T: Drop>(
    folder: &mut F,
    making: &Making,
    books: Result<T, Cause>,
) -> Result<T, Cause>
    ensures same { IfOk result (λ put. books ≡ Ok put) }
    ensures ours { OnOk result (HasNumber ((F.paths folder.old).spot (string_bytes making.now.made))
        making.now.number) }
    ensures free { OnOk result
        (MayBeReplaced making.now.replaces
        ((F.paths folder.old).spot (string_bytes making.now.place))) }
    ensures put { OnOk result ((F.paths folder.new).spot (string_bytes making.now.place)
        ≡ named false ((F.paths folder.old).spot (string_bytes making.now.made))) }
    ensures gone { OnOk result ((F.paths folder.new).spot (string_bytes making.now.made)
        ≡ removed ((F.paths folder.old).spot (string_bytes making.now.made))) }
    ensures err { IsErr result → ChangesNothing (F.paths folder.old) (F.paths folder.new) }
    ensures others { ChangesAtBoth (string_bytes making.now.made) (string_bytes making.now.place)
        (F.paths folder.old) (F.paths folder.new) }
{
    let books = books?;
    put(folder, making)?;
    Ok(books)
}

/// Removes the log of books that are in their place, which has nothing in it then, and waits until the disk has their name.
fn settle<F: Folder>(folder: &mut F, making: &Making) -> io::Result<()>
    ensures log { (F.paths folder.new).spot (string_bytes making.now.log)
        ≡ removed ((F.paths folder.old).spot (string_bytes making.now.log)) }
    ensures ok { OnOk result ((F.paths folder.new).spot (string_bytes making.now.place)
        ≡ named true ((F.paths folder.old).spot (string_bytes making.now.place))) }
    ensures err { OnErr result ((F.paths folder.new).spot (string_bytes making.now.place)
        ≡ (F.paths folder.old).spot (string_bytes making.now.place)) }
    ensures others { ChangesAtBoth (string_bytes making.now.log) (string_bytes making.now.place)
        (F.paths folder.old) (F.paths folder.new) }
{
    let _ = folder.remove(making.log.as_str());
    making.held.unmark()?;
    folder.sync_name(making.place.as_str())
}

/// Removes the file in which new books were made, and its log, unless another `init` has taken it.
fn give_up<F: Folder>(folder: &mut F, making: &Making)
    ensures gone { HadNumber ((F.paths folder.old).spot (string_bytes making.now.made))
        making.now.number
        → (F.paths folder.new).spot (string_bytes making.now.made) ≡ vacant }
    ensures log { HadNumber ((F.paths folder.old).spot (string_bytes making.now.made))
        making.now.number
        → (F.paths folder.new).spot (string_bytes making.now.log)
        ≡ removed ((F.paths folder.old).spot (string_bytes making.now.log)) }
    ensures others { ChangesAtBoth (string_bytes making.now.made) (string_bytes making.now.log)
        (F.paths folder.old) (F.paths folder.new) }
{
    let Making {
        made,
        log,
        number,
        ..
    } = making;
    if is_there(&*folder, made.as_str(), *number) {
        let _ = folder.remove(log.as_str());
        let _ = folder.remove(made.as_str());
    }
}

/// Puts new books in their place, where they were made. Where they weren't, or that fails, the file in which they were made is
/// removed.
///
/// # Errors
///
/// That of the making; `Rival` where another `init` has taken the file; `System` where it can't be put in its place, or the disk
/// can't be waited for. In this last case the books are in their place.
pub fn end<F: Folder, T: Drop>(
    folder: &mut F,
    making: &Making,
    books: Result<T, Cause>,
) -> Result<T, Cause>
    ensures same { IfOk result (λ put. books ≡ Ok put) }
    ensures put { OnOk result (IsPut true (F.paths folder.old) (F.paths folder.new) making.now) }
    ensures unmade { OnErr books (IsGivenUp (F.paths folder.old) (F.paths folder.new) making.now) }
    ensures err { OnErr result (IsGivenUp (F.paths folder.old) (F.paths folder.new) making.now
        ⊎ IsPut false (F.paths folder.old) (F.paths folder.new) making.now) }
    ensures others { ChangesIn making.now (F.paths folder.old) (F.paths folder.new) }
{
    match put_made(folder, making, books) {
        Ok(books) => {
            settle(folder, making)?;
            Ok(books)
        }
        Err(cause) => {
            give_up(folder, making);
            Err(cause)
        }
    }
}
