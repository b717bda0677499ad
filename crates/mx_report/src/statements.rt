//! The statement of a purse, and those of all purses.
ghost use Rattle.std.specs.Prelude.{◌≡◌, ◌⊎◌, ◌++◌, IfOk, IfErr, None, Some, option_map};
ghost use Rattle.mx_book.specs.declared.contract.StoreFault.TheVariants.{Memory};
ghost use Rattle.mx_book.specs.Views.{Keeps, Gives};
ghost use Rattle.mx_report.specs.Even.{are_even_statements, is_even_purse};
ghost use Rattle.mx_report.specs.Statement.{record_text, line_fields, lines_text, named, own_lines, statement_of, statement_text, statements_text};

use crate::even::leads_to_balance;
use crate::texts::Text;
use mx_book::values::{Line, MOST_LINES};
use mx_book::words::{kind_text, push_note};
use mx_book::{Book, StoreFault};
use mx_pay::Name;
use std::alloc::{AllocError, Global};

/// The lines of a purse, by number, read page by page.
fn read_lines<B: Book>(alloc: Global, book: &mut B, purse: Name) -> Result<Vec<Line>, StoreFault>
    ensures keeps { Keeps (B.view book.old) (B.view book.new) }
    ensures value { Gives (B.view book.old) (B.view book.new) result
        (λ w lines. lines.items ≡ own_lines w purse) }
    ensures fault { IfErr result (λ e. (e ≡ Memory) ⊎ B.fails e) }
{
    let mut lines = Vec::new(alloc);
    'pages: for _ in 0..u64::MAX {
        let page = book.lines(alloc, purse, lines.len() as u64, MOST_LINES)?;
        lines.extend_from_slice(page.as_slice())?;
        if (page.len() as u64) < MOST_LINES {
            return Ok(lines);
        }
    }
    // No memory holds so many pages.
    Err(StoreFault::Memory)
}

/// The lines of a purse, by number; None where there is no such purse. They are read by pages of 50, until a page has
/// fewer. A fault is one of the book's reads, or `Memory`.
pub fn statement<B: Book>(
    alloc: Global,
    book: &mut B,
    purse: Name,
) -> Result<Option<Vec<Line>>, StoreFault>
    ensures keeps { Keeps (B.view book.old) (B.view book.new) }
    ensures value { Gives (B.view book.old) (B.view book.new) result
        (λ w o. option_map (λ lines. lines.items) o ≡ statement_of w purse) }
    ensures fault { IfErr result (λ e. (e ≡ Memory) ⊎ B.fails e) }
{
    if !book.has_purse(alloc, purse)? {
        return Ok(None);
    }
    let lines = read_lines(alloc, book, purse)?;
    Ok(Some(lines))
}

/// A text with the record of a line at its end, behind the name of its purse, where one is named.
fn with_line(
    alloc: Global,
    text: Text,
    purse: Option<Name>,
    line: &Line,
) -> Result<Text, AllocError>
    ensures { IfOk result
        (λ longer. longer ≡ text ++ record_text (named purse (line_fields line.now))) }
{
    let mut numbers = itoa::Buffer::new();
    let mut amounts = itoa::Buffer::new();
    let mut balances = itoa::Buffer::new();
    let mut notes = String::new(alloc);
    push_note(&mut notes, &line.note)?;
    let number = numbers.format(line.number).as_bytes();
    let kind = kind_text(line.kind).as_bytes();
    let amount = amounts.format(line.amount.get()).as_bytes();
    let balance = balances.format(line.balance).as_bytes();
    let note = notes.as_str().as_bytes();
    match purse {
        None => text.with_record(&[number, kind, amount, balance, note]),
        Some(name) => {
            let name = name.as_str().as_bytes();
            text.with_record(&[name, number, kind, amount, balance, note])
        }
    }
}

/// A text with the records of these lines at its end, each behind the name of the purse, where one is named.
fn with_lines(
    alloc: Global,
    mut text: Text,
    purse: Option<&Name>,
    lines: &[Line],
) -> Result<Text, AllocError>
    ensures { IfOk result (λ longer. longer
        ≡ text ++ lines_text (option_map (λ p. p.now) purse.entry) lines.now) }
{
    for line in lines {
        text = with_line(alloc, text, purse.copied(), line)?;
    }
    Ok(text)
}

/// The text of a statement: a header, and a record for each line, with its number, kind, amount, the balance after it and
/// what it refers to. An error is lack of memory.
pub fn statement_text(alloc: Global, lines: &[Line]) -> Result<Vec<u8>, AllocError>
    ensures { IfOk result (λ text. text.items ≡ statement_text lines.now) }
{
    let header: [&[u8]; 5] = [b"number", b"kind", b"amount", b"balance", b"note"];
    let headed = Text::new(alloc).with_record(&header)?;
    with_lines(alloc, headed, None, lines)?.into_bytes()
}

/// A text with the records of a purse's lines at its end, each behind the name of the purse; and whether the lines lead to the
/// balance of the purse.
fn with_statement<B: Book>(
    alloc: Global,
    book: &mut B,
    text: Text,
    purse: Name,
) -> Result<(Text, bool), StoreFault>
    ensures keeps { Keeps (B.view book.old) (B.view book.new) }
    ensures value { Gives (B.view book.old) (B.view book.new) result
        (λ w told. (told.0 ≡ text ++ lines_text (Some purse) (own_lines w purse))
        × (told.1 ≡ is_even_purse w purse)) }
    ensures fault { IfErr result (λ e. (e ≡ Memory) ⊎ B.fails e) }
{
    let lines = read_lines(alloc, book, purse)?;
    let longer = with_lines(alloc, text, Some(&purse), lines.as_slice())?;
    let is_even = leads_to_balance(alloc, book, purse, lines.as_slice())?;
    Ok((longer, is_even))
}

/// The statements of all purses.
#[derive(Drop)]
pub struct StatementsText {
    /// Their text: a header, and purse by purse, in the order of their names, a record for each line, with the name of the
    /// purse, and what a statement of that purse alone has.
    pub text: Vec<u8>,
    /// Whether the lines of each purse are numbered without gaps and lead to its balance.
    pub are_even: bool,
}

/// The statements of all purses. A fault is one of the book's reads, or `Memory`.
pub fn all_statements<B: Book>(alloc: Global, book: &mut B) -> Result<StatementsText, StoreFault>
    ensures keeps { Keeps (B.view book.old) (B.view book.new) }
    ensures value { Gives (B.view book.old) (B.view book.new) result
        (λ w all. (all.text.items ≡ statements_text w)
        × (all.are_even ≡ are_even_statements w)) }
    ensures fault { IfErr result (λ e. (e ≡ Memory) ⊎ B.fails e) }
{
    let purses = book.purses(alloc)?;
    let header: [&[u8]; 6] = [b"purse", b"number", b"kind", b"amount", b"balance", b"note"];
    let mut text = Text::new(alloc).with_record(&header)?;
    let mut are_even = true;
    for purse in &purses {
        let (longer, is_even) = with_statement(alloc, book, text, *purse)?;
        text = longer;
        are_even &= is_even;
    }
    let text = text.into_bytes()?;
    Ok(StatementsText { text, are_even })
}
