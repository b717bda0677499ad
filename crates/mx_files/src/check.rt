//! Whether the books in a store are sound, in words.
ghost use Rattle.std.specs.Prelude.{◌≡◌, ◌≤◌, ◌⊎◌, IfOk, IsOk, false};
ghost use Rattle.sqlite.specs.Held.{state};
ghost use Rattle.mx_book.specs.Views.{Keeps};
ghost use Rattle.mx_book.specs.World.{World};
ghost use Rattle.mx_tables.specs.States.{IsOurs, IsSound, StaysIdle, worry};
ghost use Rattle.mx_files.specs.Durable.{Represents};
ghost use Rattle.mx_files.specs.Folders.{has_sums, spot_behind};
ghost use Rattle.mx_files.specs.Opened.{IsWrong, TellsSums, sums_line};

use crate::folder::Folder;
use crate::stores::unmade;
use mx_audit::tables::Checked;
use mx_audit::{Ordered, Refusal, Refused, open};
use mx_book::Book;
use mx_tasks::report::evenness::{uneven_purses, uneven_sums};
use mx_tasks::teller::Teller;
use mx_tasks::{Cause, Done, TaskFault};
use sqlite::Connection;
use std::alloc::{AllocError, Global};

/// The most findings that are printed.
const MOST_FINDINGS: usize = 1_000;

/// Where a database says how many bytes are behind the content of each page.
const BYTES_BEHIND_PAGES_AT: usize = 20;

/// The lines of what was found, and one that says how many findings more there are, if any.
fn findings_text(alloc: Global, checked: &Checked) -> Result<String, AllocError> {
    let mut text = String::new(alloc);
    for finding in checked.findings.as_slice() {
        text.push_str(finding.as_str())?;
        text.push_str("\n")?;
    }
    let more = checked.found.saturating_sub(checked.findings.len() as u64);
    if more > 0 {
        let line = format!(in alloc; "and {more} more\n")?;
        text.push_str(line.as_str())?;
    }
    Ok(text)
}

/// The line of books in which nothing was found.
fn sound_line(alloc: Global, checked: &Checked) -> Result<String, AllocError> {
    let counts = &checked.counts;
    format!(in alloc;
        "sound: {} members, {} holders, {} purses, {} lines\n",
        counts.members, counts.holders, counts.purses, counts.lines
    )
}

/// A text, with the fault `Store` where it tells of one.
fn done(text: String, is_well: bool) -> Done
    ensures { is_well ≡ false → IsWrong result }
{
    Done {
        text: text.into_bytes(),
        fault: (!is_well).then_some(TaskFault::Store),
    }
}

/// What the check of books in which nothing was found says of their sums and statements. A terminal is told how far it is.
fn sums_done<B: Book>(rt: &HostRuntime, book: &mut B, checked: &Checked) -> Result<Done, TaskFault>
    ensures keeps { Keeps (B.view book.old) (B.view book.new) }
{
    let names = checked.purses(rt.alloc())?;
    let sums = uneven_sums(rt.alloc(), book)?;
    let mut terminal = rt.stderr();
    let mut teller = Teller::new(rt, &mut terminal, "purses");
    let purses = uneven_purses(rt.alloc(), book, names.as_slice(), &mut teller)?;
    teller.end();
    let is_well = sums.is_empty() && purses.is_empty();
    let mut text = sound_line(rt.alloc(), checked)?;
    text.push_str(sums.as_str())?;
    text.push_str(purses.as_str())?;
    if is_well {
        text.push_str("even: the sums add up, and each statement leads to its purse's balance\n")?;
    }
    Ok(done(text, is_well))
}

/// What the check of books in which something was found says of that.
fn findings_done(alloc: Global, checked: &Checked) -> Result<Done, TaskFault>
    ensures { IfOk result IsWrong }
{
    let text = findings_text(alloc, checked)?;
    Ok(done(text, false))
}

/// Whether the pages of a database end in SQLite's page checksum, as the bytes with which it begins tell.
fn has_sums(head: &[u8]) -> bool
    ensures { result ≡ has_sums head.now }
{
    head.get(BYTES_BEHIND_PAGES_AT) == Some(&8)
}

/// The line that says so.
fn sums_line(has_sums: bool) -> &'static str
    ensures { result.now ≡ sums_line has_sums }
{
    if has_sums {
        "checksums: each page has one\n"
    } else {
        "checksums: none, and a copy has them\n"
    }
}

/// What a check says of the books in the file of this path, with a line that says whether its pages have checksums.
///
/// # Errors
///
/// `File` where the file can't be read; `Memory`; that of the check.
pub(crate) fn with_sums<F: Folder>(
    folder: &F,
    alloc: Global,
    path: &str,
    checked: Result<Done, TaskFault>,
) -> Result<Done, TaskFault>
    ensures ok { IsOk result → IsOk checked }
    ensures adds { IfOk checked (λ was. IfOk result (λ done. (done.fault ≡ was.fault)
        × TellsSums (spot_behind (F.paths folder.now) path.now) was.text.items done.text.items)) }
{
    let Done { mut text, fault } = checked?;
    let head = match folder.head_behind(alloc, path, BYTES_BEHIND_PAGES_AT as u64 + 1) {
        Ok(head) => head,
        Err(error) => return Err(Cause::from(error).fault()),
    };
    text.extend_from_slice(sums_line(has_sums(head.as_slice())).as_bytes())?;
    Ok(Done { text, fault })
}

/// Tells whether the books in a store are sound, and gives the store back. Where the audit has findings, a line tells each of the
/// first 1,000, and one how many more there are. Else a line tells how many members, holders, purses and lines there are, and
/// lines which member's sums, whether the scheme's, and which purse's statement don't add up. `Store` comes with a text that
/// tells of something wrong.
///
/// The answer is a fault where `open` has one: `NotThisSchema`, `Store` or `Memory`.
pub fn check_in_store<S: Ordered + Drop>(
    rt: &HostRuntime,
    store: Connection<S>,
) -> (Result<Done, TaskFault>, Connection<S>)
    ensures later { worry (state S.Store store) ≤ worry (state S.Store result.1) }
    ensures stays { (IfOk result.0 IsWrong
        × StaysIdle (state S.Store store) (state S.Store result.1))
        ⊎ (IsSound (state S.Store result.1)
        → (w : World) × Represents (state S.Store store).now w
        × IsOurs false (state S.Store result.1) × Represents (state S.Store result.1).now w) }
{
    match open(rt.alloc(), store, MOST_FINDINGS) {
        Ok((mut book, checked)) => {
            let answer = sums_done(rt, &mut book, &checked);
            (answer, book.into_inner().into_store())
        }
        Err(Refused { fault, store }) => match fault {
            Refusal::Unsound(checked) => (findings_done(rt.alloc(), &checked), store),
            other => (Err(unmade(other)), store),
        },
    }
}
