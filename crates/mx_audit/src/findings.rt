//! The findings of an audit, told in plain words: one line each, of what it is and what is wrong with it.

use crate::columns::{first_wrong, shape_of};
use crate::misfits::misfit;
use crate::seen::Seen;
use crate::typed::{Source, read_row};
use mx_book::StoreFault;
use mx_cells::cells::text_at;
use mx_pay::{Name, PayDetails, push_entry};
use sqlite::Row;
use sqlite_value::value::ValueRef;
use std::alloc::{AllocError, Global};
use std::fmt::Write;

/// How many characters of a text that no reader took are shown at most.
const MOST_SHOWN: usize = 60;

/// How many digits the text of a token has.
const DIGITS: usize = 32;

/// What a finding is of.
#[derive(Clone, Copy)]
pub enum Subject {
    /// What has that name, and what that is: a member, a holder or a purse.
    Named(&'static str, Name),
    /// The line of a purse with that number.
    Line(Name, u64),
    /// A result that lies in the tray of a purse.
    Laid(Name, PayDetails),
    /// The books as a whole.
    Books,
}

/// What is wrong with it.
#[derive(Clone, Copy)]
pub enum Wrong {
    /// What these words say.
    Told(&'static str),
    /// The value in a column: the column, and how.
    Value(&'static str, &'static str),
    /// The purse of the line has only so many lines.
    Lines(u64),
    /// The line of that number isn't there, and there is one behind it.
    NoLine(u64),
    /// The line of that number isn't there.
    Missing(u64),
    /// A message would clear these details, which aren't archived.
    Clears(PayDetails),
}

/// The findings that are kept: so many of the first, at most.
#[derive(Drop)]
pub struct Findings {
    alloc: Global,
    most: usize,
    texts: Vec<String>,
}

impl Findings {
    /// None so far, and so many are to be kept at most.
    pub fn new(alloc: Global, most: usize) -> Findings {
        Findings {
            alloc,
            most,
            texts: Vec::new(alloc),
        }
    }

    /// Whether one more is to be kept.
    pub fn has_room(&self) -> bool {
        self.texts.len() < self.most
    }

    /// Tells a finding, where one more is to be kept. Memory where there is none.
    pub fn tell(&mut self, subject: &Subject, wrong: &Wrong) -> Result<(), StoreFault> {
        if !self.has_room() {
            return Ok(());
        }
        let text = text_of(self.alloc, subject, wrong);
        self.keep(text)
    }

    /// Tells what is wrong with a row that wasn't taken in, where one more is to be kept. Memory where there is none.
    pub fn tell_row(&mut self, seen: &Seen, source: Source, row: &Row) -> Result<(), StoreFault> {
        if !self.has_room() {
            return Ok(());
        }
        let wrong = match read_row(source, row) {
            Ok(typed) => misfit(seen, &typed),
            Err(_) => first_wrong(source, row),
        };
        let text = text_of_row(self.alloc, source, row, &wrong);
        self.keep(text)
    }

    /// The texts of those that were kept, in the order in which they were told.
    pub fn into_texts(self) -> Vec<String> {
        self.texts
    }

    fn keep(&mut self, text: Result<String, AllocError>) -> Result<(), StoreFault> {
        Ok(self.texts.push(text?)?)
    }
}

/// The text of a finding.
fn text_of(alloc: Global, subject: &Subject, wrong: &Wrong) -> Result<String, AllocError> {
    let mut text = String::new(alloc);
    push_subject(&mut text, subject)?;
    push_wrong(&mut text, wrong)?;
    Ok(text)
}

/// The text of a finding of a row.
fn text_of_row(
    alloc: Global,
    source: Source,
    row: &Row,
    wrong: &Wrong,
) -> Result<String, AllocError> {
    let mut text = String::new(alloc);
    match source {
        Source::Tokens => push_token(&mut text, row)?,
        _ => push_row(&mut text, source, row)?,
    }
    push_wrong(&mut text, wrong)?;
    Ok(text)
}

/// Writes what a finding is of.
fn push_subject(text: &mut String, subject: &Subject) -> Result<(), AllocError> {
    match subject {
        Subject::Named(word, name) => push_named(text, word, name),
        Subject::Line(purse, number) => {
            push_named(text, "line", purse)?;
            push_numbered(text, " ", *number, "")
        }
        Subject::Laid(purse, details) => {
            push_named(text, "tray", purse)?;
            text.push_str(" ")?;
            push_entry(text, details)
        }
        Subject::Books => text.push_str("meta"),
    }
}

/// Writes what is wrong, behind what it is of.
fn push_wrong(text: &mut String, wrong: &Wrong) -> Result<(), AllocError> {
    text.push_str(": ")?;
    match wrong {
        Wrong::Told(words) => text.push_str(words),
        Wrong::Value(column, words) => {
            text.push_str(column)?;
            text.push_str(" ")?;
            text.push_str(words)
        }
        Wrong::Lines(count) => push_numbered(text, "the purse has ", *count, " lines"),
        Wrong::NoLine(number) => push_numbered(text, "no line ", *number, " before it"),
        Wrong::Missing(number) => push_numbered(text, "line ", *number, " is missing"),
        Wrong::Clears(details) => {
            text.push_str("a message would clear ")?;
            push_entry(text, details)?;
            text.push_str(", which isn't archived")
        }
    }
}

/// Writes a word and a name.
fn push_named(text: &mut String, word: &str, name: &Name) -> Result<(), AllocError> {
    text.push_str(word)?;
    text.push_str(" ")?;
    text.push_str(name.as_str())
}

/// Writes a number between two texts.
fn push_numbered(
    text: &mut String,
    before: &str,
    number: u64,
    behind: &str,
) -> Result<(), AllocError> {
    text.push_str(before)?;
    write!(text, "{number}")?;
    text.push_str(behind)
}

/// Writes of which table a row is, and its key as it stands there.
fn push_row(text: &mut String, source: Source, row: &Row) -> Result<(), AllocError> {
    let shape = shape_of(source);
    text.push_str(shape.word)?;
    for at in shape.key {
        text.push_str(" ")?;
        push_cell(text, row, *at)?;
    }
    Ok(())
}

/// Writes which token a row is of, and not the whole of it: its first two and last two digits, or else whose it is.
fn push_token(text: &mut String, row: &Row) -> Result<(), AllocError> {
    if let Some(digits) = text_at(row, 2) {
        let digits = digits.as_bytes();
        if digits.len() == DIGITS && digits.iter().all(|digit| digit.is_ascii_hexdigit()) {
            text.push_str("token ")?;
            push_shown(text, &digits[..2])?;
            text.push_str("..")?;
            return push_shown(text, &digits[DIGITS - 2..]);
        }
    }
    text.push_str("token of ")?;
    push_cell(text, row, 0)?;
    if text_at(row, 1) == Some("") {
        return Ok(());
    }
    text.push_str(" ")?;
    push_cell(text, row, 1)
}

/// Writes the text or the integer in a column, `''` for an empty text, and `?` for another value.
fn push_cell(text: &mut String, row: &Row, at: usize) -> Result<(), AllocError> {
    match row.get_ref(at) {
        Ok(ValueRef::Int(number)) => write!(text, "{number}"),
        Ok(ValueRef::Text(shown)) if shown.is_empty() => text.push_str("''"),
        Ok(ValueRef::Text(shown)) => push_shown(text, shown),
        _ => text.push_str("?"),
    }
}

/// Writes these bytes, and `?` for each that isn't a printable character of ASCII. They are cut where they are too many.
fn push_shown(text: &mut String, bytes: &[u8]) -> Result<(), AllocError> {
    for byte in bytes.iter().take(MOST_SHOWN) {
        text.push(shown(*byte))?;
    }
    if bytes.len() > MOST_SHOWN {
        text.push_str("..")?;
    }
    Ok(())
}

/// A printable character of ASCII, and `?` for another byte.
fn shown(byte: u8) -> char {
    if byte == b' ' || byte.is_ascii_graphic() {
        char::from(byte)
    } else {
        '?'
    }
}
