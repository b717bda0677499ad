//! Lives over the books in two files of any disk, a database and its log. Each life opens the files and closes them.
ghost use Rattle.std.specs.Prelude.{◌≡◌, IfSome, map, false, true};
ghost use Rattle.sqlite_wal.specs.Reads.{AreClean};
ghost use Rattle.sqlite.specs.Files.{file_state, image_of};
ghost use Rattle.sqlite.specs.State.{HasCleanDisk};
ghost use Rattle.mx_book.specs.World.{World, opening};
ghost use Rattle.mx_desk.specs.Rounds.{Leads};
ghost use Rattle.mx_office.specs.Reachable.{IsReachable};
ghost use Rattle.mx_files.specs.InFiles.{AreClosed, HasSumsIfNew, HoldBooks, IsOpenedOver};
ghost use Rattle.mx_lives.specs.Lived.{AreLeft, LivedTo, RunsOver};

use crate::answered::Life;
use crate::lives::live_on;
use mx_book::Book;
use mx_desk::Counted;
use mx_files::closing::{close, make_in_files};
use mx_files::stores::run_in_store;
use mx_pay::Token;
use mx_standing::Standing;
use mx_tables::Tables;
use sqlite::{Connection, FileStore, Files, Options};
use sqlite_disk::{Crash, Disk};
use std::alloc::Global;

/// Opens the database in two files. None where they can't be opened. A new one has page checksums.
fn opened<D: Disk + Drop>(
    alloc: Global,
    files: Files<D>,
    options: Options,
) -> Option<Connection<FileStore<D>>>
    ensures over { IfSome result (IsOpenedOver (image_of D.Disk files)) }
    ensures sums { IfSome result (HasSumsIfNew (image_of D.Disk files)) }
    ensures clean { IfSome result
        (λ c. HasCleanDisk (file_state c) → AreClean D.Disk files.log files.db) }
{
    if !files.may_be_used() {
        return None;
    }
    match Connection::open_files_with(alloc, files, options, true) {
        Ok(store) => Some(store),
        Err(_) => None,
    }
}

/// Makes new books in two files, for the operator with this token, and closes the files. None where that fails.
///
/// What is said holds of files that have returned what was written to them, and that nobody else wrote (`AreClean`). Then the
/// bytes of the files are those of books that have nothing but the operator's token: as they are, with the database file
/// alone, and as a stop may leave them. That World is one that commands lead to (`begins`).
pub fn new_files<D: Disk + Drop>(
    alloc: Global,
    files: Files<D>,
    options: Options,
    operator: Token,
) -> Option<Files<D>>
    ensures made { IfSome result
        (λ left. AreClean D.Disk left.log left.db → AreClosed D.Disk left (opening operator)) }
    ensures begins { IsReachable (opening operator) }
{
    // The reader says that the token has its bytes.
    let _bytes = operator.as_bytes();
    let store = opened(alloc, files, options)?;
    let Ok(made) = make_in_files(alloc, store, operator) else {
        return None;
    };
    let Ok(left) = made.into_left() else {
        return None;
    };
    left.into_closed()
}

/// One life: opens the books in two files, answers the requests of an input, and closes the files. None where the files can't be
/// opened or closed, or have no books.
fn closed_life<D: Disk + Drop>(
    alloc: Global,
    files: Files<D>,
    options: Options,
    input: &[u8],
) -> Option<(Files<D>, Life)>
    ensures clean { IfSome result
        (λ r. AreClean D.Disk r.0.log r.0.db → AreClean D.Disk files.log files.db) }
    ensures lives { (w : World) → HoldBooks (image_of D.Disk files) w
        → IfSome result (λ r. AreClean D.Disk r.0.log r.0.db
        → Leads (RunsOver ⟦<Standing<Tables<FileStore<D>>> as Book>⟧.fails w input.now r.1)
        (λ _ now. AreClosed D.Disk r.0 now)) }
{
    let store = opened(alloc, files, options)?;
    let mut reader = Counted::new(input);
    let mut writer = Counted::new(Vec::new(alloc));
    let Ok((ended, left)) = run_in_store(alloc, store, &mut reader, &mut writer) else {
        return None;
    };
    let files = close(Ok(()), left).left.into_closed()?;
    let written = writer.into_inner();
    let life = Life { ended, written };
    Some((files, life))
}

/// Lives over the books in two files of any disk, a database and its log, one for each input, in order. A life opens
/// the files, answers the requests of its input, and closes the files. Gives back the files, with what came of each
/// life; None where they couldn't be opened or closed, or have no books, or there is no memory. No task of the program
/// calls this.
///
/// All lives together are one list of requests (`lives`). No request that was given up is done after all.
pub fn closed_lives<D: Disk + Drop>(
    alloc: Global,
    files: Files<D>,
    options: Options,
    inputs: &[&[u8]],
) -> Option<(Files<D>, Vec<Life>)>
    ensures lives { (w : World) → HoldBooks (image_of D.Disk files) w
        → IfSome result (λ end. AreClean D.Disk end.0.log end.0.db
        → LivedTo ⟦<Standing<Tables<FileStore<D>>> as Book>⟧.fails false
        (AreLeft D.Disk end.0 (map (λ input. input.now) inputs.now))
        (map (λ input. input.now) inputs.now) end.1.items w) }
{
    let mut held = files;
    let mut lives = Vec::new(alloc);
    'inputs: for input in inputs {
        let (left, life) = closed_life(alloc, held, options, input)?;
        held = left;
        lives.push(life).ok()?;
    }
    Some((held, lives))
}

/// As `closed_lives`, with a stop in place of each close (`live_on`): a call of `crash`, by which each of the files
/// forgets what its contract lets a stop make it forget. The files are closed in the end.
///
/// All lives together are one list of requests (`lives`): of the rounds that a life gave up, one at most was done after all,
/// behind which nothing was changed.
pub fn stopped_lives<D: Crash + Drop>(
    alloc: Global,
    files: Files<D>,
    options: Options,
    inputs: &[&[u8]],
) -> Option<(Files<D>, Vec<Life>)>
    ensures lives { (w : World) → HoldBooks (image_of D.Disk files) w
        → IfSome result (λ end. AreClean D.Disk end.0.log end.0.db
        → LivedTo ⟦<Standing<Tables<FileStore<D>>> as Book>⟧.fails true (AreClosed D.Disk end.0)
        (map (λ input. input.now) inputs.now) end.1.items w) }
{
    let store = opened(alloc, files, options)?;
    let (end, lives) = live_on(alloc, store, inputs)?;
    let files = close(Ok(()), end).left.into_closed()?;
    Some((files, lives))
}
