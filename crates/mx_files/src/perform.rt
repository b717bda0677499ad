//! Every task, over an input, an output and the files that the task names.
ghost use Rattle.std.specs.Prelude.{◌≡◌, ℕ, List, [], IfErr, IfOk, IsErr, IsOk, None, OnOk, Result, codes};
ghost use Rattle.std.specs.Io.KnownBytes.{Appends};
ghost use Rattle.sqlite_wal.specs.Files.{image_at};
ghost use Rattle.sqlite_wal.specs.Recovery.{Image};
ghost use Rattle.mx_book.specs.World.{World, opening};
ghost use Rattle.mx_desk.specs.Rounds.{Leads};
ghost use Rattle.mx_desk.specs.Serve.{Marked};
ghost use Rattle.mx_desk.specs.Steps.{state};
ghost use Rattle.mx_tables.specs.declared.migration.Migrated.{Migrated};
ghost use Rattle.mx_tasks.specs.Faults.{Untouched};
ghost use Rattle.mx_tasks.specs.declared.fault.TaskFault.{TaskFault};
ghost use Rattle.mx_files.specs.InFiles.{AreHonest, AreShut, HoldRounds, IsOpenedOver, closed_answer};
ghost use Rattle.mx_files.specs.Opened.{IsWrong};
ghost use Rattle.mx_files.specs.Performed.{Checks, EndsRun, EndsSaying, EndsWork, MakesBooks, MigratesBooks, OverBooks, Performs, PerformsCopy, PerformsInMemory, PerformsMigration, PerformsRun, PerformsWork, ended_of, migrated_text, streams};

use crate::check::with_sums;
use crate::closing::{Ended, Left, check_in_files, migrate_in_files, run_in_files, work_in_files};
use crate::copier::Copier;
use crate::files::{
    BookFile, Opened, copy_to_file, make_in_file, no_files, number_of, open_found, open_told,
    raise_file,
};
use crate::plan::{Act, Errand, Plan, plan_of};
use mx_args::Task;
use mx_audit::has_first_tables;
use mx_book::Book;
use mx_desk::output::{flush_out, write_out};
use mx_desk::{Counted, Outlet};
use mx_memory::PlainBook;
use mx_pay::Token;
use mx_standing::Standing;
use mx_tables::{Migrated, Tables};
use mx_tasks::runs::run_memory;
use mx_tasks::{Done, TaskFault};
use sqlite::{FileStore, Start};
use sqlite_disk::Disk;
use std::alloc::Global;
use std::io::{Read, Write};

/// Writes a text, and passes on what the writer holds. Where that is no fault, no call of the writer failed.
fn say<W: Write>(writer: &mut Counted<W>, text: &[u8]) -> Result<(), TaskFault>
    ensures ok { OnOk result (Appends (W.contents writer.old.device)
        (W.contents writer.new.device) text.now
        × (writer.new.failures ≡ writer.old.failures)) }
    ensures fault { IfErr result (λ e. e ≡ TaskFault.Write) }
{
    write_out(writer, text)?;
    flush_out(writer)?;
    Ok(())
}

/// Passes on what the writer holds behind a run. A fault of the run stays the fault.
fn pass_on<W: Write>(run: Result<u64, TaskFault>, writer: &mut Counted<W>) -> Result<(), TaskFault>
    ensures ends { EndsRun run result
        (W.contents writer.old.device) (W.contents writer.new.device) }
{
    run?;
    say(writer, b"")
}

/// Writes the text of what came of work. A fault that leaves a text comes behind it.
fn say_done<W: Write>(
    answer: Result<Done, TaskFault>,
    writer: &mut Counted<W>,
) -> Result<(), TaskFault>
    ensures ends { EndsWork answer result
        (W.contents writer.old.device) (W.contents writer.new.device) }
{
    let done = answer?;
    say(writer, done.text.as_slice())?;
    match done.fault {
        Some(fault) => Err(fault),
        None => Ok(()),
    }
}

/// Writes what came of a migration.
fn say_migrated<W: Write>(
    answer: Result<Migrated, TaskFault>,
    writer: &mut Counted<W>,
) -> Result<(), TaskFault>
    ensures ends { EndsSaying migrated_text answer result
        (W.contents writer.old.device) (W.contents writer.new.device) }
{
    match answer? {
        Migrated::Done => say(writer, b"migrated\n"),
        Migrated::Already => say(writer, b"already schema 2\n"),
    }
}

/// Answers the requests of the input over the books in a file, and passes on what the writer holds once that is closed.
fn run_in_file<'a, S: Start, R: Read, W: Outlet>(
    rt: &'a HostRuntime,
    path: &str,
    start: S,
    reader: &mut Counted<R>,
    writer: &mut Counted<W>,
) -> Result<Ended<(), BookFile<'a, S>>, TaskFault>
    ensures unopened { IsErr result → Untouched reader.old reader.new writer.old writer.new }
    ensures shut { IfOk result (λ ended. IsOk ended.answer → AreShut ended.left) }
    ensures runs { IfOk result (λ ended. OverBooks (image_at S.Start)
        (streams (R.remaining reader.old.device) (W.contents writer.old.device))
        (streams (R.remaining reader.new.device) (W.contents writer.new.device)) ended
        (λ w. Leads (PerformsRun ⟦<Standing<Tables<FileStore<BookFile<'a, S>>>> as Book>⟧.fails
        (closed_answer ended.left)
        (state [] (R.remaining reader.old.device) (W.contents writer.old.device) w) ended.answer
        (R.remaining reader.new.device) (W.contents writer.new.device))
        (HoldRounds ended.left w))) }
{
    let store = open_told(rt, path, start)?;
    let Ended { answer, left, copy } = run_in_files(rt.alloc(), store, reader, writer);
    Ok(Ended {
        answer: pass_on(answer, writer),
        left,
        copy,
    })
}

/// Does a piece of work over the books in a file, and writes its text once that is closed. Where copies of the books are asked for,
/// they are made while these are served.
fn work_in_file<'a, S: Start, W: Write>(
    rt: &'a HostRuntime,
    path: &str,
    start: S,
    errand: &Errand<'_>,
    writer: &mut Counted<W>,
) -> Result<Ended<(), BookFile<'a, S>>, TaskFault>
    ensures unopened { IsErr result → writer.new ≡ writer.old }
    ensures shut { IfOk result (λ ended. IsOk ended.answer → AreShut ended.left) }
    ensures works { (input : _) → IfOk result (λ ended. OverBooks (image_at S.Start)
        (streams input (W.contents writer.old.device))
        (streams input (W.contents writer.new.device)) ended
        (λ w. PerformsWork
        ⟦<Standing<Tables<FileStore<BookFile<'a, S>>>> as Book>⟧.fails ended.left w
        errand.now.work ended.answer
        (W.contents writer.old.device) (W.contents writer.new.device))) }
{
    let mut copier = Copier::new(rt, path, errand.copies)?;
    let store = open_told(rt, path, start)?;
    let Ended { answer, left, copy } = work_in_files(rt, store, &errand.work, &mut copier);
    Ok(Ended {
        answer: say_done(answer, writer),
        left,
        copy,
    })
}

/// Tells whether the books in a file are sound, or what is wrong in them. Where the file isn't opened, a line says why.
fn check_in_file<'a, S: Start>(
    rt: &'a HostRuntime,
    path: &str,
    start: S,
) -> Result<Ended<Done, BookFile<'a, S>>, TaskFault>
    ensures shut { IfOk result (λ ended. IfOk ended.answer
        (λ done. done.fault ≡ None → AreShut ended.left)) }
    ensures checks { IfOk result (λ ended. AreHonest ended.left
        → Checks (image_at S.Start) ended.left (IfOk ended.answer IsWrong)) }
{
    match open_found(rt, path, start) {
        Ok(store) => {
            let Ended { answer, left, copy } = check_in_files(rt, store);
            Ok(Ended {
                answer: with_sums(&rt, rt.alloc(), path, answer),
                left,
                copy,
            })
        }
        Err(cause) => {
            let line = format!(in rt.alloc(); "{path}: {cause}\n")?;
            let done = Done {
                text: line.into_bytes(),
                fault: Some(cause.fault()),
            };
            Ok(Ended::of(Ok(done)))
        }
    }
}

/// Answers the requests of the input over new books in memory, and passes on what the writer holds.
fn perform_memory<R: Read, W: Outlet>(
    alloc: Global,
    operator: Token,
    reader: &mut Counted<R>,
    writer: &mut Counted<W>,
) -> Result<(), TaskFault>
    ensures performs { (ms : List Marked) × (now : World)
        × PerformsRun ⟦<Standing<PlainBook> as Book>⟧.fails (λ run. run)
        (state [] (R.remaining reader.old.device) (W.contents writer.old.device)
        (opening operator)) result
        (R.remaining reader.new.device) (W.contents writer.new.device) ms now }
{
    pass_on(run_memory(alloc, operator, reader, writer), writer)
}

/// Makes new books in a file, and says so.
fn init_file<'a, S: Start, W: Write>(
    rt: &'a HostRuntime,
    path: &str,
    start: S,
    operator: Token,
    writer: &mut Counted<W>,
) -> Result<Ended<(), BookFile<'a, S>>, TaskFault>
    ensures shut { IfOk result (λ ended. IsOk ended.answer → AreShut ended.left) }
    ensures makes { IfOk result (λ ended. MakesBooks operator ended.left ended.answer
        (W.contents writer.old.device) (W.contents writer.new.device)) }
{
    let left = make_in_file(rt, path, start, operator)?;
    Ok(Ended {
        answer: say(writer, b"created\n"),
        left,
        copy: Left::Nothing,
    })
}

/// Checks the books in a file, and says what was found.
fn check_file<'a, S: Start, W: Write>(
    rt: &'a HostRuntime,
    path: &str,
    start: S,
    writer: &mut Counted<W>,
) -> Result<Ended<(), BookFile<'a, S>>, TaskFault>
    ensures shut { IfOk result (λ ended. IsOk ended.answer → AreShut ended.left) }
    ensures checks { IfOk result (λ ended. AreHonest ended.left
        → Checks (image_at S.Start) ended.left (IsErr ended.answer)) }
{
    let Ended { answer, left, copy } = check_in_file(rt, path, start)?;
    Ok(Ended {
        answer: say_done(answer, writer),
        left,
        copy,
    })
}

/// Writes that a copy was made.
fn say_copied<W: Write>(
    answer: Result<(), TaskFault>,
    writer: &mut Counted<W>,
) -> Result<(), TaskFault>
    ensures { EndsSaying (λ _. codes "copied\n") answer result
        (W.contents writer.old.device) (W.contents writer.new.device) }
{
    answer?;
    say(writer, b"copied\n")
}

/// Copies the books in a file to a new one, and says so.
fn copy_file<'a, S: Start, W: Write>(
    rt: &'a HostRuntime,
    path: &str,
    start: S,
    to: &str,
    writer: &mut Counted<W>,
) -> Result<Ended<(), BookFile<'a, S>>, TaskFault>
    ensures unopened { IsErr result → writer.new ≡ writer.old }
    ensures shut { IfOk result (λ ended. IsOk ended.answer → AreShut ended.left) }
    ensures copies { IfOk result (λ ended. PerformsCopy (image_at S.Start) ended
        (W.contents writer.old.device) (W.contents writer.new.device)) }
{
    let store = open_told(rt, path, start)?;
    let Ended { answer, left, copy } = copy_to_file(rt, to, store);
    Ok(Ended {
        answer: say_copied(answer, writer),
        left,
        copy,
    })
}

/// Brings the books in a file to the schema of this version: a copy of those of version 1, which takes the file's place.
fn migrate_opened<'a, S: Start>(
    rt: &'a HostRuntime,
    path: &str,
    number: Option<u64>,
    store: Opened<'a, S>,
) -> Ended<Migrated, BookFile<'a, S>>
    ensures shut { IsOk result.answer → AreShut result.left }
    ensures migrates { (bytes : Image) → IsOpenedOver bytes store.entry → AreHonest result.left
        → (answer : Result Migrated TaskFault)
        × (result.answer ≡ closed_answer result.left answer)
        × MigratesBooks bytes answer result.left result.copy }
{
    match number {
        Some(number) if has_first_tables(&store) => raise_file(rt, path, number, store),
        _ => migrate_in_files(rt.alloc(), store),
    }
}

/// Brings the books in a file to the schema of this version, audits them, and says what came of it.
fn migrate_file<'a, S: Start, W: Write>(
    rt: &'a HostRuntime,
    path: &str,
    start: S,
    writer: &mut Counted<W>,
) -> Result<Ended<(), BookFile<'a, S>>, TaskFault>
    ensures shut { IfOk result (λ ended. IsOk ended.answer → AreShut ended.left) }
    ensures migrates { IfOk result (λ ended. AreHonest ended.left
        → PerformsMigration (image_at S.Start) ended
        (W.contents writer.old.device) (W.contents writer.new.device)) }
{
    let number = number_of(&rt, path);
    let store = open_told(rt, path, start)?;
    let Ended { answer, left, copy } = migrate_opened(rt, path, number, store);
    Ok(Ended {
        answer: say_migrated(answer, writer),
        left,
        copy,
    })
}

/// A task as it ended: a fault that came before its files were opened leaves none.
fn ended<T, D: Disk>(performed: Result<Ended<T, D>, TaskFault>) -> Ended<T, D>
    ensures { result ≡ ended_of performed }
{
    match performed {
        Ok(ended) => ended,
        Err(fault) => Ended::of(Err(fault)),
    }
}

/// Does a task. A run answers the requests of the reader on the writer. Any other task writes what it prints once it is done; a
/// report also where it doesn't add up, and a check where it finds something wrong, which is `Store`. The files of the books are
/// closed, and given back.
///
/// # Errors
///
/// The first in this order: of the place of copies (`FileExists`, `File`), of the file (`File`, `FileExists`), of its books
/// (`NotThisSchema`), of the roll (`File`, `RollTooLarge`) or the port (`Net`), of the work (`Read`, `Write`, `Turns`, `Roll`,
/// `NoSuchPurse`). `Memory` and `Store` come at any step; `Write` too where what is printed can't be written or flushed.
pub fn perform<'a, S: Start, R: Read, W: Outlet>(
    rt: &'a HostRuntime,
    start: S,
    task: &Task<'_>,
    reader: &mut Counted<R>,
    writer: &mut Counted<W>,
) -> Ended<(), BookFile<'a, S>>
    ensures { Performs (image_at S.Start)
        (streams (R.remaining reader.old.device) (W.contents writer.old.device))
        (streams (R.remaining reader.new.device) (W.contents writer.new.device))
        task.now result }
{
    match &plan_of(task) {
        Plan::InMemory(operator) => Ended {
            answer: perform_memory(rt.alloc(), *operator, reader, writer),
            left: no_files(rt),
            copy: Left::Nothing,
        },
        Plan::InFile(path, act) => match act {
            Act::Run => ended(run_in_file(rt, path, start, reader, writer)),
            Act::Make(operator) => ended(init_file(rt, path, start, *operator, writer)),
            Act::Work(errand) => ended(work_in_file(rt, path, start, errand, writer)),
            Act::Check => ended(check_file(rt, path, start, writer)),
            Act::Copy(to) => ended(copy_file(rt, path, start, to, writer)),
            Act::Migrate => ended(migrate_file(rt, path, start, writer)),
        },
    }
}
