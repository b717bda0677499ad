//! Command lines with a growth refused: each is answered as usual or with want of memory, and as usual when it is read
//! again.
use mx_args::{AskedCopies, AskedReport, LineFault, Task, read_line};
use mx_pay::Token;
use std::alloc::{AllocError, Global};
use std::test::Fail;

/// Lines with what they are read as, a line each, in which `|` stands for the end of a line.
const LINES: &str = "
run --memory --token 0000000000000000000000000000000f -> run --memory, token ends in f
run book.db -> run book.db
init book.db --token 0000000000000000000000000000000f -> init book.db, token ends in f
serve book.db --port 8080 --count 3 -> serve book.db, port 8080, count 3
serve book.db --port 8080 --count 3 --copy copy.db --every 60 -> serve book.db, port 8080, count 3, copies to copy.db every 60
import book.db roll.csv -> import book.db, roll.csv
report book.db -> report book.db
report book.db --purse p1 -> report book.db, purse p1
report book.db --statements -> report book.db, all statements
check book.db -> check book.db
copy book.db new.db -> copy book.db, new.db
migrate book.db -> migrate book.db
run -> error: run takes FILE, or --memory and --token||Usage: purse-office run [OPTIONS] [FILE]||For more information, try '--help'.|
serve book.db --port 0 --count 3 -> error: the value of --port has to be a number from 1 to 65535, without leading zeros||Usage: purse-office serve [OPTIONS] --port <N> --count <K> <FILE>||For more information, try '--help'.|
serve book.db --port 8080 --count 3 --every 60 -> error: serve takes --copy and --every, or neither||Usage: purse-office serve [OPTIONS] --port <N> --count <K> <FILE>||For more information, try '--help'.|
serve book.db --port 8080 --count 3 --copy copy.db --every 060 -> error: the value of --every has to be a number from 1 to 86400, without leading zeros||Usage: purse-office serve [OPTIONS] --port <N> --count <K> <FILE>||For more information, try '--help'.|
report book.db --purse P1 -> error: the value of --purse has to be 1 to 24 of a to z, 0 to 9 and -, the first a letter||Usage: purse-office report [OPTIONS] <FILE>||For more information, try '--help'.|
report book.db --statements --purse p1 -> error: report takes --purse or --statements, and not both||Usage: purse-office report [OPTIONS] <FILE>||For more information, try '--help'.|
--version -> purse-office 1.0.0|
check -> error: the following required arguments were not provided:|  <FILE>||Usage: purse-office check <FILE>||For more information, try '--help'.|
migrate -> error: the following required arguments were not provided:|  <FILE>||Usage: purse-office migrate <FILE>||For more information, try '--help'.|
";

/// The last digit of a token.
fn end_of(token: &Token) -> char {
    char::from(token.text()[31])
}

/// A report in words.
fn report_words(alloc: Global, file: &str, report: AskedReport) -> Result<String, AllocError> {
    match report {
        AskedReport::Reconciliation => format!(in alloc; "report {file}"),
        AskedReport::Statement(purse) => {
            format!(in alloc; "report {file}, purse {}", purse.as_str())
        }
        AskedReport::Statements => format!(in alloc; "report {file}, all statements"),
    }
}

/// Copies in words.
fn copies_words(alloc: Global, copies: &Option<AskedCopies<'_>>) -> Result<String, AllocError> {
    match copies {
        Some(copies) => {
            format!(in alloc; ", copies to {} every {}", copies.to.as_str(), copies.every)
        }
        None => format!(in alloc; ""),
    }
}

/// A task in words.
fn task_words(alloc: Global, task: &Task<'_>) -> Result<String, AllocError> {
    match task {
        Task::RunMemory(token) => {
            format!(in alloc; "run --memory, token ends in {}", end_of(token))
        }
        Task::RunFile(file) => format!(in alloc; "run {}", file.as_str()),
        Task::Init { file, token } => {
            format!(in alloc; "init {}, token ends in {}", file.as_str(), end_of(token))
        }
        Task::Serve {
            file,
            port,
            count,
            copies,
        } => {
            let more = copies_words(alloc, copies)?;
            format!(in alloc; "serve {}, port {port}, count {count}{more}", file.as_str())
        }
        Task::Import { file, roll } => {
            format!(in alloc; "import {}, {}", file.as_str(), roll.as_str())
        }
        Task::Report { file, report } => report_words(alloc, file.as_str(), *report),
        Task::Check(file) => format!(in alloc; "check {}", file.as_str()),
        Task::Copy { file, to } => format!(in alloc; "copy {}, {}", file.as_str(), to.as_str()),
        Task::Migrate(file) => format!(in alloc; "migrate {}", file.as_str()),
    }
}

/// What a line is read as.
fn read_once(alloc: Global, line: &str) -> Result<String, AllocError> {
    let words: Vec<&str> = line.split(' ').collect(alloc)?;
    match read_line(alloc, "1.0.0", words.as_slice()) {
        Ok(task) => task_words(alloc, &task),
        Err(LineFault::Bad(text) | LineFault::Version(text)) => Ok(text),
        Err(LineFault::Memory) => Err(AllocError),
    }
}

/// The same, read again where there is no memory at first.
fn read_in_the_end(alloc: Global, line: &str) -> Result<String, AllocError> {
    match read_once(alloc, line) {
        Ok(words) => Ok(words),
        Err(_) => read_once(alloc, line),
    }
}

/// Whether a text is this one, in which `|` stands for the end of a line.
fn is_text(text: &str, folded: &str) -> bool {
    let mut pairs = text.bytes().zip(folded.bytes());
    text.len() == folded.len()
        && pairs.all(|(byte, wanted)| byte == wanted || (byte, wanted) == (b'\n', b'|'))
}

#[test]
fn lines_with_a_growth_refused(rt: HostRuntime) -> Result<(), Fail> {
    for line in LINES.lines() {
        if let Some((line, wanted)) = line.split_once(" -> ") {
            let words = read_in_the_end(rt.alloc(), line)?;
            assert!(rt; is_text(words.as_str(), wanted), "{line}: {words}");
        }
    }
    Ok(())
}
