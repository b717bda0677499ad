//! Each task of the program over real files, from the words of its command line to what it prints.
use crate::flushes::Shown;
use crate::scratch::{expect, new_folder, request, response, unfolded};
use mx_args::{Task, read_line};
use mx_desk::Counted;
use mx_files::perform::perform;
use sqlite::Unknown;
use std::alloc::{AllocError, Global};
use std::fs;
use std::test::Fail;

/// The roll that is imported: the member that the run adds, a holder and a purse.
const ROLL: &str =
    "kind,name,of,token\nmember,m,,00000000000000000000000000000002\nholder,ann,m,0000000000000000000000000000000a\npurse,p1,ann,\n";

/// What tasks one after the other print, a line each, `WORDS -> TEXT`, in which `|` stands for the end of a line. FILE, COPY
/// and ROLL are files in the test's folder, of which ROLL is there from the first. The operator's token ends in f.
const TASKS: &str = "
run FILE -> fault: file
report FILE -> fault: file
migrate FILE -> fault: file
check FILE -> fault: file
copy FILE COPY -> fault: file
init FILE --token 0000000000000000000000000000000f -> created|
init FILE --token 0000000000000000000000000000000f -> fault: file exists
report FILE -> row,name,granted,float,uncollected,issued,redeemed,balances,transit,lost|scheme,,0,0,0,0,0,0,0,0|
run FILE -> RESPONSES
report FILE -> row,name,granted,float,uncollected,issued,redeemed,balances,transit,lost|member,m,0,0,0,0,0,0,,|scheme,,0,0,0,0,0,0,0,0|
import FILE NONE -> fault: file
import FILE ROLL -> added 2|same 1|refused 0|
import FILE ROLL -> added 0|same 3|refused 0|
import FILE FILE -> fault: roll
report FILE --purse p1 -> number,kind,amount,balance,note|
report FILE --purse p2 -> fault: no such purse
report FILE --statements -> purse,number,kind,amount,balance,note|
check FILE -> sound: 1 members, 1 holders, 1 purses, 0 lines|even: the sums add up, and each statement leads to its purse's balance|checksums: each page has one|
copy FILE FILE -> fault: file exists
copy FILE COPY -> copied|
copy FILE COPY -> fault: file exists
check COPY -> sound: 1 members, 1 holders, 1 purses, 0 lines|even: the sums add up, and each statement leads to its purse's balance|checksums: each page has one|
report COPY -> row,name,granted,float,uncollected,issued,redeemed,balances,transit,lost|member,m,0,0,0,0,0,0,,|scheme,,0,0,0,0,0,0,0,0|
migrate FILE -> already schema 2|
run --memory --token 0000000000000000000000000000000f -> RESPONSES
run --memory --token 00000000000000000000000000000001 -> STRANGER
";

/// What the run is asked: a member by the operator, and another by whoever has a token that ends in 1.
fn requests(alloc: Global) -> Result<String, AllocError> {
    let mut input = request(
        alloc,
        "f",
        "POST /members",
        "{\"member\":\"m\",\"token\":\"00000000000000000000000000000002\"}",
    )?;
    let other = request(
        alloc,
        "1",
        "POST /members",
        "{\"member\":\"n\",\"token\":\"00000000000000000000000000000003\"}",
    )?;
    input.push_str(other.as_str())?;
    Ok(input)
}

/// The two responses: the first of these is the operator's, or the second.
fn responses(alloc: Global, is_first: bool) -> Result<String, AllocError> {
    let added = response(alloc, "200 OK", "{\"done\":\"added\"}")?;
    let unknown = response(alloc, "403 Forbidden", "{\"error\":\"token not known\"}")?;
    if is_first {
        format!(in alloc; "{}{}", added.as_str(), unknown.as_str())
    } else {
        format!(in alloc; "{}{}", unknown.as_str(), added.as_str())
    }
}

/// A word of a command line, with the path of a file in place of its name.
fn word_of(alloc: Global, folder: &str, word: &str) -> Result<String, AllocError> {
    match word {
        "FILE" => format!(in alloc; "{folder}/book.db"),
        "COPY" => format!(in alloc; "{folder}/copy.db"),
        "COPY-LOG" => format!(in alloc; "{folder}/copy.db-wal"),
        "LOG" => format!(in alloc; "{folder}/book.db-wal"),
        "ROLL" => format!(in alloc; "{folder}/roll.csv"),
        "NONE" => format!(in alloc; "{folder}/none.csv"),
        _ => format!(in alloc; "{word}"),
    }
}

/// The words of a command line.
fn words_of(alloc: Global, folder: &str, line: &str) -> Result<Vec<String>, AllocError> {
    let mut words = Vec::new(alloc);
    for word in line.split(' ') {
        words.push(word_of(alloc, folder, word)?)?;
    }
    Ok(words)
}

/// What a task prints and passes on, or its fault.
fn told(rt: &HostRuntime, task: &Task<'_>) -> Result<String, Fail> {
    let alloc = rt.alloc();
    let input = requests(alloc)?;
    let mut reader = Counted::new(input.as_bytes());
    let mut writer = Counted::new(Shown::new(alloc));
    let ended = perform(rt, Unknown, task, &mut reader, &mut writer);
    if let Err(fault) = ended.answer {
        return Ok(format!(in alloc; "fault: {}", fault.text())?);
    }
    let shown = writer.into_inner();
    let text = std::str::from_utf8(shown.passed())?;
    Ok(format!(in alloc; "{text}")?)
}

/// What a command line prints, or its fault.
fn printed(rt: &HostRuntime, folder: &str, line: &str) -> Result<String, Fail> {
    let owned = words_of(rt.alloc(), folder, line)?;
    let words: Vec<&str> = owned.iter().map(|word| word.as_str()).collect(rt.alloc())?;
    let task = read_line(rt.alloc(), "1.0.0", words.as_slice())?;
    told(rt, &task)
}

/// What is expected of a line.
fn expected(alloc: Global, text: &str) -> Result<String, AllocError> {
    match text {
        "RESPONSES" => responses(alloc, true),
        "STRANGER" => responses(alloc, false),
        _ => unfolded(alloc, text),
    }
}

/// Fails unless each command line prints what is expected, one after the other.
fn expect_told(rt: &HostRuntime, folder: &str) -> Result<(), Fail> {
    let roll = format!(in rt.alloc(); "{folder}/roll.csv")?;
    fs::write(rt, roll.as_str(), ROLL)?;
    for line in TASKS.lines() {
        let Some((words, text)) = line.split_once(" -> ") else {
            continue;
        };
        let told = printed(rt, folder, words)?;
        let wanted = expected(rt.alloc(), text)?;
        expect(rt.alloc(), line, told.as_str(), wanted.as_str())?;
    }
    Ok(())
}

/// Removes the books, their copy, the logs and the roll, and fails where the folder has another file.
fn remove_all(rt: &HostRuntime, folder: &str) -> Result<(), Fail> {
    for word in ["FILE", "LOG", "COPY", "COPY-LOG", "ROLL"] {
        let path = word_of(rt.alloc(), folder, word)?;
        fs::remove_file(rt, path.as_str())?;
    }
    fs::remove_dir(rt, folder)?;
    Ok(())
}

/// What is printed is passed on by a flush, and no other file is made.
#[test]
fn each_task_over_files(rt: HostRuntime) -> Result<(), Fail> {
    let folder = new_folder(&rt, "tasks")?;
    if let Err(fail) = expect_told(&rt, folder.as_str()) {
        let _removed = fs::remove_dir_all(&rt, folder.as_str());
        return Err(fail);
    }
    remove_all(&rt, folder.as_str())
}
