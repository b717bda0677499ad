//! The command line of the program.
ghost use Rattle.std.specs.Prelude.{◌≡◌, ℕ, List, Option, IfOk, IfErr, IfSome, IsNone, OnErr};
ghost use Rattle.std.specs.Prelude.{Ok, codes, map, option_map, string_bytes};
ghost use Rattle.std.specs.Option.{option_and_then};
ghost use Rattle.clap.specs.Words.{first_of, found_of, rows_of, subcommand_rows_of};
ghost use Rattle.mx_pay.specs.Tokens.{token_of};
ghost use Rattle.mx_args.specs.Named.{Absent, AsksCopies, AsksFor, Given, HasValue};
ghost use Rattle.mx_args.specs.Named.{IsFoundBy, IsNumber, Names, NamesNone};
ghost use Rattle.mx_args.specs.Read.{IsReadAs};
ghost use Rattle.mx_args.specs.Misfits.{BadOrMemory, Has, HasMisfit, IsCopyMisfit, IsFaultOf, IsFaultOfError};
ghost use Rattle.mx_args.specs.Misfits.{TellsMisfit, TellsWords, error_text, words_of};

use crate::commands::{command_named, line_command};
use crate::task::{AskedCopies, AskedReport, LineFault, Task, Word};
use clap::ArgMatches;
use clap::error::ErrorKind;
use mx_pay::{Name, Token, read_seq};
use std::alloc::{AllocError, Global};
use std::fmt::Display;

/// The highest port.
const MOST_PORT: u32 = 65_535;

/// How many connections are served at most.
const MOST_COUNT: u32 = 1_000_000;

/// How many seconds lie between two copies at most.
const MOST_SECONDS: u32 = 86_400;

// Why a line in which clap finds no fault names no task.
#[derive(Clone, Copy)]
enum Misfit {
    Token,
    Port,
    Count,
    CopyAndEvery,
    Every,
    Purse,
    PurseAndStatements,
    FileAndMemory,
    NoBooks,
    NoToken,
    TokenForFile,
    Missing,
}

impl Misfit {
    fn text(self) -> &'static str
        ensures { result.now ≡ words_of self }
    {
        match self {
            Misfit::Token => "the value of --token has to be 32 hexadecimal digits",
            Misfit::Port => {
                "the value of --port has to be a number from 1 to 65535, without leading zeros"
            }
            Misfit::Count => {
                "the value of --count has to be a number from 1 to 1000000, without leading zeros"
            }
            Misfit::CopyAndEvery => "serve takes --copy and --every, or neither",
            Misfit::Every => {
                "the value of --every has to be a number from 1 to 86400, without leading zeros"
            }
            Misfit::Purse => {
                "the value of --purse has to be 1 to 24 of a to z, 0 to 9 and -, the first a letter"
            }
            Misfit::PurseAndStatements => "report takes --purse or --statements, and not both",
            Misfit::FileAndMemory => "run takes FILE or --memory, and not both",
            Misfit::NoBooks => "run takes FILE, or --memory and --token",
            Misfit::NoToken => "run --memory takes --token",
            Misfit::TokenForFile => "run FILE takes no --token",
            Misfit::Missing => "the command is not one of this program, or lacks a word",
        }
    }
}

// The first value of `id`.
fn text_of<'a>(matches: &ArgMatches<'a>, id: &str) -> Option<&'a str>
    ensures { option_map (λ s. s.now) result ≡ first_of id.now (rows_of (found_of matches.now)) }
{
    matches.get_str(id)
}

// The first value of `id`, as a word that names a file.
fn word_of<'a>(matches: &ArgMatches<'a>, id: &str) -> Option<Word<'a>>
    ensures { result ≡ first_of id.now (rows_of (found_of matches.now)) }
{
    let text = text_of(matches, id)?;
    Some(Word::new(text))
}

// The same of a word that the command has to have.
fn needed_word<'a>(matches: &ArgMatches<'a>, id: &str) -> Result<Word<'a>, Misfit>
    ensures given { IfOk result (Given (rows_of (found_of matches.now)) id.now) }
    ensures absent { OnErr result (Absent (rows_of (found_of matches.now)) id.now) }
    ensures misfit { IfErr result (λ misfit. misfit ≡ Misfit.Missing) }
{
    word_of(matches, id).ok_or(Misfit::Missing)
}

// The token that the value of `--token` spells.
fn token_of(matches: &ArgMatches<'_>) -> Option<Token>
    ensures { result ≡ option_and_then token_of
        (first_of (codes "token") (rows_of (found_of matches.now))) }
{
    Token::read(text_of(matches, "token")?)
}

// The number from 1 to `most` that is the value of `id`.
fn number_of(matches: &ArgMatches<'_>, id: &str, most: u32) -> Option<u32>
    ensures some { IfSome result
        (λ n. HasValue (rows_of (found_of matches.now)) id.now (IsNumber most n)) }
    ensures none { IsNone result → (n : ℕ)
        → ¬ HasValue (rows_of (found_of matches.now)) id.now (IsNumber most n) }
{
    let number = read_seq(text_of(matches, id)?)?.get();
    if 1 <= number && number <= u64::from(most) {
        Some(number as u32)
    } else {
        None
    }
}

// The report that `--purse` and `--statements` ask for.
fn report_of(matches: &ArgMatches<'_>) -> Result<AskedReport, Misfit>
    ensures named { IfOk result (AsksFor (rows_of (found_of matches.now))) }
    ensures unnamed { OnErr result
        ((report : AskedReport) → ¬ AsksFor (rows_of (found_of matches.now)) report) }
    ensures misfit { IfErr result (λ misfit. Has (rows_of (found_of matches.now)) (codes "FILE")
        → HasMisfit (codes "report") (rows_of (found_of matches.now)) misfit) }
{
    let of_all = text_of(matches, "statements") == Some("true");
    match (of_all, text_of(matches, "purse")) {
        (false, None) => Ok(AskedReport::Reconciliation),
        (false, Some(text)) => match Name::read(text) {
            Some(name) => Ok(AskedReport::Statement(name)),
            None => Err(Misfit::Purse),
        },
        (true, None) => Ok(AskedReport::Statements),
        (true, Some(_)) => Err(Misfit::PurseAndStatements),
    }
}

// Why a `run` that names no task names none.
fn run_misfit(matches: &ArgMatches<'_>) -> Misfit
    ensures { HasMisfit (codes "run") (rows_of (found_of matches.now)) result }
{
    let is_in_memory = text_of(matches, "memory") == Some("true");
    let names_file = text_of(matches, "FILE").is_some();
    let names_token = text_of(matches, "token").is_some();
    match (is_in_memory, names_file, names_token) {
        (true, true, _) => Misfit::FileAndMemory,
        (true, false, true) => Misfit::Token,
        (true, false, false) => Misfit::NoToken,
        (false, true, _) => Misfit::TokenForFile,
        (false, false, _) => Misfit::NoBooks,
    }
}

fn run_task<'a>(matches: &ArgMatches<'a>) -> Result<Task<'a>, Misfit>
    ensures named { IfOk result (Names (codes "run") (rows_of (found_of matches.now))) }
    ensures unnamed { OnErr result (NamesNone (codes "run") (rows_of (found_of matches.now))) }
    ensures misfit { IfErr result (HasMisfit (codes "run") (rows_of (found_of matches.now))) }
{
    match (
        text_of(matches, "memory"),
        word_of(matches, "FILE"),
        text_of(matches, "token"),
    ) {
        (Some("true"), None, Some(digits)) => match Token::read(digits) {
            Some(token) => Ok(Task::RunMemory(token)),
            None => Err(run_misfit(matches)),
        },
        (Some("false"), Some(file), None) => Ok(Task::RunFile(file)),
        _ => Err(run_misfit(matches)),
    }
}

fn init_task<'a>(matches: &ArgMatches<'a>) -> Result<Task<'a>, Misfit>
    ensures named { IfOk result (Names (codes "init") (rows_of (found_of matches.now))) }
    ensures unnamed { OnErr result (NamesNone (codes "init") (rows_of (found_of matches.now))) }
    ensures misfit { IfErr result (HasMisfit (codes "init") (rows_of (found_of matches.now))) }
{
    let file = needed_word(matches, "FILE")?;
    let Some(token) = token_of(matches) else {
        return Err(Misfit::Token);
    };
    Ok(Task::Init { file, token })
}

// The copies that `--copy` and `--every` ask for, if they do.
fn copies_of<'a>(matches: &ArgMatches<'a>) -> Result<Option<AskedCopies<'a>>, Misfit>
    ensures named { IfOk result (AsksCopies (rows_of (found_of matches.now))) }
    ensures unnamed { OnErr result ((copies : Option AskedCopies)
        → ¬ AsksCopies (rows_of (found_of matches.now)) copies) }
    ensures misfit { IfErr result (IsCopyMisfit (rows_of (found_of matches.now))) }
{
    match (word_of(matches, "copy"), text_of(matches, "every")) {
        (None, None) => Ok(None),
        (Some(to), Some(_)) => match number_of(matches, "every", MOST_SECONDS) {
            Some(every) => Ok(Some(AskedCopies { to, every })),
            None => Err(Misfit::Every),
        },
        (Some(_), None) | (None, Some(_)) => Err(Misfit::CopyAndEvery),
    }
}

fn serve_task<'a>(matches: &ArgMatches<'a>) -> Result<Task<'a>, Misfit>
    ensures named { IfOk result (Names (codes "serve") (rows_of (found_of matches.now))) }
    ensures unnamed { OnErr result (NamesNone (codes "serve") (rows_of (found_of matches.now))) }
    ensures misfit { IfErr result (HasMisfit (codes "serve") (rows_of (found_of matches.now))) }
{
    let file = needed_word(matches, "FILE")?;
    let Some(port) = number_of(matches, "port", MOST_PORT) else {
        return Err(Misfit::Port);
    };
    let Some(count) = number_of(matches, "count", MOST_COUNT) else {
        return Err(Misfit::Count);
    };
    let copies = copies_of(matches)?;
    Ok(Task::Serve {
        file,
        port: port as u16,
        count,
        copies,
    })
}

fn import_task<'a>(matches: &ArgMatches<'a>) -> Result<Task<'a>, Misfit>
    ensures named { IfOk result (Names (codes "import") (rows_of (found_of matches.now))) }
    ensures unnamed { OnErr result (NamesNone (codes "import") (rows_of (found_of matches.now))) }
    ensures misfit { IfErr result (HasMisfit (codes "import") (rows_of (found_of matches.now))) }
{
    let file = needed_word(matches, "FILE")?;
    let roll = needed_word(matches, "ROLL")?;
    Ok(Task::Import { file, roll })
}

fn report_task<'a>(matches: &ArgMatches<'a>) -> Result<Task<'a>, Misfit>
    ensures named { IfOk result (Names (codes "report") (rows_of (found_of matches.now))) }
    ensures unnamed { OnErr result (NamesNone (codes "report") (rows_of (found_of matches.now))) }
    ensures misfit { IfErr result (HasMisfit (codes "report") (rows_of (found_of matches.now))) }
{
    let file = needed_word(matches, "FILE")?;
    let report = report_of(matches)?;
    Ok(Task::Report { file, report })
}

fn check_task<'a>(matches: &ArgMatches<'a>) -> Result<Task<'a>, Misfit>
    ensures named { IfOk result (Names (codes "check") (rows_of (found_of matches.now))) }
    ensures unnamed { OnErr result (NamesNone (codes "check") (rows_of (found_of matches.now))) }
    ensures misfit { IfErr result (HasMisfit (codes "check") (rows_of (found_of matches.now))) }
{
    let file = needed_word(matches, "FILE")?;
    Ok(Task::Check(file))
}

fn copy_task<'a>(matches: &ArgMatches<'a>) -> Result<Task<'a>, Misfit>
    ensures named { IfOk result (Names (codes "copy") (rows_of (found_of matches.now))) }
    ensures unnamed { OnErr result (NamesNone (codes "copy") (rows_of (found_of matches.now))) }
    ensures misfit { IfErr result (HasMisfit (codes "copy") (rows_of (found_of matches.now))) }
{
    let file = needed_word(matches, "FILE")?;
    let to = needed_word(matches, "TO")?;
    Ok(Task::Copy { file, to })
}

fn migrate_task<'a>(matches: &ArgMatches<'a>) -> Result<Task<'a>, Misfit>
    ensures named { IfOk result (Names (codes "migrate") (rows_of (found_of matches.now))) }
    ensures unnamed { OnErr result (NamesNone (codes "migrate") (rows_of (found_of matches.now))) }
    ensures misfit { IfErr result (HasMisfit (codes "migrate") (rows_of (found_of matches.now))) }
{
    let file = needed_word(matches, "FILE")?;
    Ok(Task::Migrate(file))
}

fn task_of<'a>(name: &str, matches: &ArgMatches<'a>) -> Result<Task<'a>, Misfit>
    ensures named { IfOk result (Names name.now (rows_of (found_of matches.now))) }
    ensures unnamed { OnErr result (NamesNone name.now (rows_of (found_of matches.now))) }
    ensures misfit { IfErr result (HasMisfit name.now (rows_of (found_of matches.now))) }
{
    match name {
        "run" => run_task(matches),
        "init" => init_task(matches),
        "serve" => serve_task(matches),
        "import" => import_task(matches),
        "report" => report_task(matches),
        "check" => check_task(matches),
        "copy" => copy_task(matches),
        "migrate" => migrate_task(matches),
        _ => Err(Misfit::Missing),
    }
}

// What a line is answered with for an error of this kind that shows this text, if there was memory for that.
fn fault_of_kind(kind: ErrorKind, text: Option<String>) -> LineFault
    ensures { IsFaultOf kind text result }
{
    match (kind, text) {
        (ErrorKind::OutOfMemory, _) | (_, None) => LineFault::Memory,
        (ErrorKind::DisplayVersion, Some(text)) => LineFault::Version(text),
        (_, Some(text)) => LineFault::Bad(text),
    }
}

// What a line is answered with for an error of this kind. No clause of clap says what its errors show; the type of the
// error is left open, so that this answers with what the error shows, and with nothing else.
fn line_fault<E: Display>(alloc: Global, kind: ErrorKind, error: &E) -> LineFault
    ensures memory { kind ≡ ErrorKind.OutOfMemory → result ≡ LineFault.Memory }
    ensures text { IsFaultOfError kind (E.output error.now) result }
{
    fault_of_kind(kind, error.to_string(alloc).ok())
}

// The text of an error with these words and this usage, as clap writes those of its own.
fn error_text(alloc: Global, words: &str, usage: &str) -> Result<String, AllocError>
    ensures { IfOk result (λ text. string_bytes text ≡ error_text words.now usage.now) }
{
    format!(in alloc; "error: {words}\n\n{usage}\n\nFor more information, try '--help'.\n")
}

// What is told of a misfit: its words, with the usage of the command of this name.
fn misfit_text(alloc: Global, name: &str, misfit: Misfit) -> Result<String, AllocError>
    ensures { IfOk result (λ text. TellsWords (words_of misfit) (string_bytes text)) }
{
    let usage = command_named(alloc, name)?.render_usage()?;
    error_text(alloc, misfit.text(), usage.as_str())
}

// What a line is answered with that clap takes and that names no task.
fn misfit_fault(alloc: Global, name: &str, misfit: Misfit) -> LineFault
    ensures { BadOrMemory (TellsWords (words_of misfit)) result }
{
    match misfit_text(alloc, name, misfit) {
        Ok(text) => LineFault::Bad(text),
        Err(_) => LineFault::Memory,
    }
}

// The task that clap's matches name.
fn found_task<'a>(alloc: Global, matches: &ArgMatches<'a>) -> Result<Task<'a>, LineFault>
    ensures named { IfOk result (IsFoundBy (subcommand_rows_of matches.now)) }
    ensures answered { (task : Task) → IsFoundBy (subcommand_rows_of matches.now) task
        → result ≡ Ok task }
    ensures misfit { IfErr result (BadOrMemory (TellsMisfit (subcommand_rows_of matches.now))) }
{
    let Some((name, found)) = matches.subcommand() else {
        return Err(misfit_fault(alloc, "", Misfit::Missing));
    };
    match task_of(name, found) {
        Ok(task) => Ok(task),
        Err(misfit) => Err(misfit_fault(alloc, name, misfit)),
    }
}

/// Reads a command line of the program of this version: the words after its name. Answers the task that they name.
///
/// # Errors
///
/// `Version` where they ask for the version; `Bad` where they name no task otherwise, as where they ask for help. `Memory`
/// where memory ran out.
pub fn read_line<'a>(
    alloc: Global,
    version: &'a str,
    words: &'a [&'a str],
) -> Result<Task<'a>, LineFault>
    ensures { IsReadAs (map (λ w. w.now) words.entry.now) result }
{
    match line_command(alloc, version)?.try_get_matches_from(words) {
        Ok(matches) => found_task(alloc, &matches),
        Err(error) => Err(line_fault(alloc, error.kind(), &error)),
    }
}
