//! The whole program, over its devices: from the words of the command line to the exit status.
ghost use Rattle.std.specs.Prelude.{◌≡◌, IfOk, drop, map, string_bytes};
ghost use Rattle.std.specs.Process.{exit_status};
ghost use Rattle.sqlite_wal.specs.Files.{image_at};
ghost use Rattle.mx_files.specs.Answered.{Answers, AnswersArgs, AnswersLine, EndsLine, EndsTask, EndsUnread, KeepsOther, is_direct, seen, streams_of};
ghost use Rattle.mx_files.specs.Performed.{Performs};

use crate::closing::{Ended, Left};
use crate::files::{BookFile, no_files};
use crate::perform::perform;
use mx_args::{LineFault, Task, read_line};
use mx_desk::Counted;
use mx_tasks::exits::{fail_to, refuse_to, show_to};
use mx_tasks::voice::Voice;
use mx_tasks::{Alarmed, TaskFault};
use sqlite::{FileFrom, Start, Unknown};
use sqlite_disk::Disk;
use std::alloc::{AllocError, Global};
use std::io;
use std::io::{BufWriter, ErrorKind, Read, Write};
use std::process::ExitCode;

/// What is said where a word of the command line is no text.
const NOT_UTF8: &str = "error: a word of the command line is not UTF-8\n";

/// What the program reads from, writes to, and says its faults to.
#[derive(Drop)]
pub struct Devices<'a, R, W: Write + Drop, V> {
    /// The input. Each read is one call.
    pub input: Counted<R>,
    /// The output of a run over a file: each response is written at once, so that whoever reads them knows of each round but
    /// one, should the program be killed. An alarm rings where the store fails.
    pub direct: Counted<Alarmed<'a, W, V>>,
    /// The output of any other task: what is written stands in a buffer until it is passed on.
    pub buffered: Counted<BufWriter<W>>,
    /// Standard error.
    pub voice: V,
}

/// How the program ended, and what it leaves of the files of its books.
#[derive(Drop)]
pub struct Exit<D: Disk> {
    /// The status.
    pub status: ExitCode,
    /// The files.
    pub left: Left<D>,
    /// Those of a copy, where the task made one.
    pub copy: Left<FileFrom<Unknown>>,
}

/// Whether a task writes at once, and not to a buffer.
fn is_direct(task: &Task<'_>) -> bool
    ensures { result ≡ is_direct task.now }
{
    matches!(task, Task::RunFile(_))
}

/// Does a task over the output that is its own.
fn perform_over<'a, S: Start, R: Read, W: Write + Drop, V: Voice>(
    rt: &'a HostRuntime,
    start: S,
    task: &Task<'_>,
    devices: &mut Devices<'_, R, W, V>,
) -> Ended<(), BookFile<'a, S>>
    ensures performs { let before = seen R.remaining W.contents V.said devices.old in
        let after = seen R.remaining W.contents V.said devices.new in
        Performs (image_at S.Start) (streams_of (is_direct task.now) before)
        (streams_of (is_direct task.now) after) task.now result }
    ensures other { KeepsOther (is_direct task.now)
        (seen R.remaining W.contents V.said devices.old)
        (seen R.remaining W.contents V.said devices.new) }
    ensures quiet { devices.new.voice ≡ devices.old.voice }
{
    if is_direct(task) {
        return perform(rt, start, task, &mut devices.input, &mut devices.direct);
    }
    perform(rt, start, task, &mut devices.input, &mut devices.buffered)
}

/// Says the fault of a task, and gives its status.
fn end_task<V: Voice>(voice: &mut V, answer: Result<(), TaskFault>) -> ExitCode
    ensures { EndsTask answer (V.said voice.old) (V.said voice.new) (exit_status result) }
{
    match answer {
        Ok(()) => ExitCode::SUCCESS,
        Err(fault) => fail_to(voice, fault),
    }
}

/// Says why a line names no task, or writes the version, and gives the status.
fn end_line<R: Read, W: Write + Drop, V: Voice>(
    devices: &mut Devices<'_, R, W, V>,
    fault: &LineFault,
) -> ExitCode
    ensures { EndsLine fault.now (seen R.remaining W.contents V.said devices.old)
        (seen R.remaining W.contents V.said devices.new) (exit_status result) }
{
    match fault {
        LineFault::Bad(text) => refuse_to(&mut devices.voice, text.as_str()),
        LineFault::Version(text) => {
            show_to(&mut devices.direct, &mut devices.voice, text.as_str())
        }
        LineFault::Memory => fail_to(&mut devices.voice, TaskFault::Memory),
    }
}

/// Says why the words of the command line aren't there, and gives the status.
fn end_unread<R: Read, W: Write + Drop, V: Voice>(
    devices: &mut Devices<'_, R, W, V>,
    kind: ErrorKind,
) -> ExitCode
    ensures { EndsUnread kind (seen R.remaining W.contents V.said devices.old)
        (seen R.remaining W.contents V.said devices.new) (exit_status result) }
{
    match kind {
        ErrorKind::InvalidData => refuse_to(&mut devices.voice, NOT_UTF8),
        _ => fail_to(&mut devices.voice, TaskFault::Memory),
    }
}

/// Does what a line asks that was read so.
fn answer_line<'a, S: Start, R: Read, W: Write + Drop, V: Voice>(
    rt: &'a HostRuntime,
    start: S,
    read: Result<Task<'_>, LineFault>,
    devices: &mut Devices<'_, R, W, V>,
) -> Exit<BookFile<'a, S>>
    ensures { Answers (image_at S.Start) read.entry
        (seen R.remaining W.contents V.said devices.old)
        (seen R.remaining W.contents V.said devices.new) result }
{
    match read {
        Ok(task) => {
            let Ended { answer, left, copy } = perform_over(rt, start, &task, devices);
            Exit {
                status: end_task(&mut devices.voice, answer),
                left,
                copy,
            }
        }
        Err(fault) => Exit {
            status: end_line(devices, &fault),
            left: no_files(rt),
            copy: Left::Nothing,
        },
    }
}

/// The words of a command line behind the program's name, in their order.
fn words_after_name(alloc: Global, args: &[String]) -> Result<Vec<&str>, AllocError>
    ensures { IfOk result (λ words. map (λ w. w.now) words.items
        ≡ map string_bytes (drop 1 args.now)) }
{
    let mut words = Vec::new(alloc);
    let Some((_, rest)) = args.split_first() else {
        return Ok(words);
    };
    for word in rest {
        words.push(word.as_str())?;
    }
    Ok(words)
}

/// Answers the words of a command line of the program of this version, those behind its name.
fn run_line<'a, S: Start, R: Read, W: Write + Drop, V: Voice>(
    rt: &'a HostRuntime,
    start: S,
    version: &str,
    words: &[&str],
    devices: &mut Devices<'_, R, W, V>,
) -> Exit<BookFile<'a, S>>
    ensures { AnswersLine (image_at S.Start) (map (λ w. w.now) words.entry.now)
        (seen R.remaining W.contents V.said devices.old)
        (seen R.remaining W.contents V.said devices.new) result }
{
    let read = read_line(rt.alloc(), version, words);
    answer_line(rt, start, read, devices)
}

/// Runs the program of this version: does the task that the words of its command line name, the program's name first. The status
/// is 0 where the task is done. Where it isn't, its fault is said, and the status is 1. Where the words name no task, what is wrong
/// is said, and the status is 2; or the version is written. The files of the books are closed, and given back.
pub fn run_program<'a, S: Start, R: Read, W: Write + Drop, V: Voice>(
    rt: &'a HostRuntime,
    start: S,
    version: &str,
    args: io::Result<Vec<String>>,
    devices: &mut Devices<'_, R, W, V>,
) -> Exit<BookFile<'a, S>>
    ensures { AnswersArgs (image_at S.Start) args
        (seen R.remaining W.contents V.said devices.old)
        (seen R.remaining W.contents V.said devices.new) result }
{
    let args = match args {
        Ok(args) => args,
        Err(error) => {
            return Exit {
                status: end_unread(devices, error.kind()),
                left: no_files(rt),
                copy: Left::Nothing,
            };
        }
    };
    match words_after_name(rt.alloc(), args.as_slice()) {
        Ok(words) => run_line(rt, start, version, words.as_slice(), devices),
        Err(_) => Exit {
            status: end_line(devices, &LineFault::Memory),
            left: no_files(rt),
            copy: Left::Nothing,
        },
    }
}
