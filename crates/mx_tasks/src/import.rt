//! The import of a roll: its bytes, and its rows into the books.
ghost use Rattle.std.specs.Prelude.{◌≡◌, ◌<◌, ◌≤◌, IfErr, IfOk, IfSome, length, take, vec_len};
ghost use Rattle.mx_book.specs.Views.{IsSure};
ghost use Rattle.mx_office.specs.Reachable.{IsReachable, StandsBalanced};
ghost use Rattle.mx_tasks.specs.Works.{Imports, ImportsFile, IsText};

use crate::cause::Cause;
use crate::fault::TaskFault;
use crate::import::rolls::Rolls;
use crate::import::summary::import_text;
use crate::teller::Teller;
use crate::terminal::Terminal;
use mx_book::Book;
use mx_office::Office;
use mx_report::{Progress, import_roll_telling};
use std::alloc::Global;
use std::io;
use std::io::Read;
use std::rt::Clock;

pub mod rolls;
pub mod summary;

/// The most bytes of a roll.
pub const MOST_OF_A_ROLL: u64 = 1_048_576;

/// The first bytes that a reader gives, so many at the most.
fn first_bytes<R: Read + Drop>(alloc: Global, reader: R, most: u64) -> io::Result<Vec<u8>>
    ensures { IfSome (R.remaining reader)
        (λ has. IfOk result (λ bytes. bytes.items ≡ take most has)) }
{
    let mut bytes = Vec::new(alloc);
    reader.take(most).read_to_end(&mut bytes)?;
    Ok(bytes)
}

/// All bytes of a roll.
///
/// # Errors
///
/// `System` where it can't be read to its end, or there is no memory; `TooLarge` where it has more than 1,048,576 bytes.
pub fn bytes_of<R: Read + Drop>(alloc: Global, roll: R) -> Result<Vec<u8>, Cause>
    ensures whole { IfSome (R.remaining roll) (λ has. IfOk result (λ bytes. bytes.items ≡ has)) }
    ensures most { IfOk result (λ bytes. vec_len bytes ≤ 1048576) }
    ensures too_large { IfSome (R.remaining roll)
        (λ has. IfErr result (λ cause. cause ≡ Cause.TooLarge → 1048576 < length has)) }
{
    let bytes = first_bytes(alloc, roll, MOST_OF_A_ROLL + 1)?;
    if bytes.len() as u64 > MOST_OF_A_ROLL {
        return Err(Cause::TooLarge);
    }
    Ok(bytes)
}

/// All bytes of the roll at a path.
///
/// # Errors
///
/// `System` where none is there or it can't be read; `TooLarge` where it has more than 1,048,576 bytes.
pub fn read_roll<F: Rolls>(alloc: Global, rolls: &F, path: &str) -> Result<Vec<u8>, Cause>
    ensures whole { IfSome (F.roll_at rolls.now path.now)
        (λ has. IfOk result (λ bytes. bytes.items ≡ has)) }
    ensures most { IfOk result (λ bytes. vec_len bytes ≤ 1048576) }
{
    let roll = rolls.open_roll(path)?;
    bytes_of(alloc, roll)
}

/// Imports the bytes of a roll, and gives the lines that sum it up.
///
/// # Errors
///
/// `Roll` where the bytes are no roll, and then the rows before the odd record are imported; `Memory`, or a fault of
/// the book, and then some first rows are imported. `Memory` also where the roll is imported whole and there is none
/// for the lines.
pub fn import_bytes<B: Book, P: Progress>(
    alloc: Global,
    office: &mut Office<B>,
    bytes: &[u8],
    progress: &mut P,
) -> Result<String, TaskFault>
    ensures later { (B.view office.old.book).IsSettled
        → (B.view office.old.book).doubt ≤ (B.view office.new.book).doubt }
    ensures still { (B.view office.old.book).IsSettled → (B.view office.new.book).IsSettled }
    ensures imports { (B.view office.old.book).IsSettled → IsSure (B.view office.new.book)
        → Imports (λ v. (B.view office.new.book).world ≡ v)
        (B.view office.old.book).world bytes.now IsText result }
    ensures reachable { (B.view office.old.book).IsSettled → IsSure (B.view office.new.book)
        → IsReachable (B.view office.old.book).world
        → StandsBalanced (B.view office.new.book).world }
{
    let summary = import_roll_telling(alloc, office, bytes, progress)?;
    let lines = import_text(alloc, &summary)?;
    Ok(lines)
}

/// Tells a terminal why an import has ended at a fault, if it has.
fn tell_end<T: Terminal>(
    terminal: &mut T,
    path: &str,
    answer: &Result<String, TaskFault>,
    done: u64,
) {
    if let Err(fault) = answer {
        Cause::of_import(*fault, done).tell_to(terminal, path);
    }
}

/// Imports the roll at a path, and gives the lines that sum it up. A terminal is told how far it is while it is under
/// way, and at a fault what is wrong with the roll and how many rows are done and kept.
///
/// # Errors
///
/// `File` where no roll is there or it can't be read; `RollTooLarge` where it has more than 1,048,576 bytes; `Memory`:
/// then nothing is imported. And those of `import_bytes`.
pub fn import_file<B: Book, F: Rolls, T: Terminal>(
    rt: &(impl AllocGlobal + Clock),
    rolls: &F,
    terminal: &mut T,
    path: &str,
    office: &mut Office<B>,
) -> Result<String, TaskFault>
    ensures later { (B.view office.old.book).IsSettled
        → (B.view office.old.book).doubt ≤ (B.view office.new.book).doubt }
    ensures still { (B.view office.old.book).IsSettled → (B.view office.new.book).IsSettled }
    ensures imports { (B.view office.old.book).IsSettled → IsSure (B.view office.new.book)
        → ImportsFile (F.roll_at rolls.now path.now) (λ v. (B.view office.new.book).world ≡ v)
        (B.view office.old.book).world IsText result }
{
    let bytes = match read_roll(rt.alloc(), rolls, path) {
        Ok(bytes) => bytes,
        Err(cause) => return Err(cause.tell_to(terminal, path)),
    };
    let mut teller = Teller::new(rt, terminal, "rows");
    let answer = import_bytes(rt.alloc(), office, bytes.as_slice(), &mut teller);
    teller.end();
    let done = teller.count();
    tell_end(terminal, path, &answer, done);
    answer
}
