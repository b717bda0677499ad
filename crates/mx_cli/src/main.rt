//! The scheme office of an electronic purse, as a program: `purse-office run --memory --token HEX` reads
//! requests from standard input and writes their responses to standard output. The other commands keep the books in a
//! file: `init` makes it, `run` and `serve` answer requests over it, `import` adds what a roll lists, `report` tells what the
//! books come to, and `migrate` brings a file of the schema before to this one.
#![tactic(auto)]

use mx_desk::Counted;
use mx_files::program::{Devices, run_program};
use mx_tasks::exits::fail;
use mx_tasks::{Alarm, Alarmed, TaskFault};
use sqlite::Unknown;
use std::io;
use std::io::BufWriter;
use std::process::ExitCode;

/// What `--version` tells: the version, the schema of files, and the first digits of the sum of the sources, which
/// `./purse-office --sources` prints and which leaves out this line. The sources are `unreleased` until there is a release of them.
const VERSION: &str = "1.7.0 (schema 2, sources 6fb781056e9c9881)";

/// The words of the command line, the program's name first.
fn args_of(rt: &HostRuntime) -> io::Result<Vec<String>> {
    let args = std::env::args(rt)?;
    let words = args.collect(rt.alloc())?;
    Ok(words)
}

/// Runs the program over standard input, output and error.
fn main(rt: HostRuntime) -> ExitCode {
    let Ok(buffer) = BufWriter::new(rt.alloc(), io::writer(&rt)) else {
        return fail(&rt, TaskFault::Memory);
    };
    let mut alarm = Alarm::new(&rt);
    let mut devices = Devices {
        input: Counted::new(rt.stdin()),
        direct: Counted::new(Alarmed::new(io::writer(&rt), &mut alarm)),
        buffered: Counted::new(buffer),
        voice: &rt,
    };
    run_program(&rt, Unknown, VERSION, args_of(&rt), &mut devices).status
}
