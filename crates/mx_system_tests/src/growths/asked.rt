//! Calls of a book that change nothing, and reports, as lines of words: `CALL ARGUMENT ..`.
use super::values::{
    account_words, caller_words, end_words, holder_words, inbox_words, lines_words, log_words,
    member_sums_words, member_words, members_sums_words, message_words, names_words, number_words,
    purse_words, report_words, scheme_words, statements_words, truth_words,
};
use mx_book::{Book, RowBook, StoreFault};
use mx_pay::{Amount, Name, PayDetails, Token, read_details};
use mx_report::{all_statements, reconcile, statement};
use std::alloc::{AllocError, Global};

/// The name of a word. A word of another kind is Store: asked twice it answers Store twice, which no refused growth explains.
fn name_of(word: &str) -> Result<Name, StoreFault> {
    Name::read(word).ok_or(StoreFault::Store)
}

fn details_of(word: &str) -> Result<PayDetails, StoreFault> {
    read_details(word).ok_or(StoreFault::Store)
}

fn token_of(word: &str) -> Result<Token, StoreFault> {
    Token::read(word).ok_or(StoreFault::Store)
}

fn number_of(word: &str) -> Result<u64, StoreFault> {
    match word.parse::<u64>() {
        Ok(number) => Ok(number),
        Err(_) => Err(StoreFault::Store),
    }
}

/// The words of a value, where there is memory for them.
fn in_words(words: Result<String, AllocError>) -> Result<String, StoreFault> {
    words.map_err(|_| StoreFault::Memory)
}

/// The words of a call that there isn't, which no call has.
fn unknown_words(alloc: Global) -> Result<String, AllocError> {
    String::from_str(alloc, "no such call")
}

fn amount_words(alloc: Global, amount: Option<Amount>) -> Result<String, AllocError> {
    number_words(alloc, amount.map(|amount| u128::from(amount.get())))
}

/// A call about the whole scheme.
fn of_scheme(alloc: Global, book: &mut impl Book, call: &str) -> Result<String, StoreFault> {
    in_words(match call {
        "purses" => names_words(alloc, book.purses(alloc)?),
        "members" => names_words(alloc, book.members(alloc)?),
        "totals" => scheme_words(alloc, &book.totals(alloc)?),
        "members_totals" => members_sums_words(alloc, book.members_totals(alloc)?),
        "reconcile" => report_words(alloc, &reconcile(alloc, book)?),
        "statements" => statements_words(alloc, &all_statements(alloc, book)?),
        "is_even" => truth_words(alloc, reconcile(alloc, book)?.is_even()),
        _ => unknown_words(alloc),
    })
}

/// A call about what has a name.
fn of_name(
    alloc: Global,
    book: &mut impl Book,
    call: &str,
    name: Name,
) -> Result<String, StoreFault> {
    in_words(match call {
        "member" => member_words(alloc, book.member(alloc, name)?),
        "holder" => holder_words(alloc, book.holder(alloc, name)?),
        "purse" => account_words(alloc, book.purse(alloc, name)?),
        "has_purse" => truth_words(alloc, book.has_purse(alloc, name)?),
        "finds_place" => truth_words(alloc, book.finds_place(alloc, name)?),
        "purses_of" => names_words(alloc, book.purses_of(alloc, name)?),
        "inbox" => inbox_words(alloc, book.inbox(alloc, name)?),
        "tray" => log_words(alloc, "tray", &book.tray(alloc, name)?),
        "uncollected" => number_words(alloc, Some(book.uncollected(alloc, name)?)),
        "member_totals" => member_sums_words(alloc, book.member_totals(alloc, name)?),
        "statement" => lines_words(alloc, statement(alloc, book, name)?),
        "end_of" => end_words(alloc, statement(alloc, book, name)?),
        _ => unknown_words(alloc),
    })
}

/// A call of one argument.
fn of_one(
    alloc: Global,
    book: &mut impl Book,
    call: &str,
    word: &str,
) -> Result<String, StoreFault> {
    match call {
        "who" => in_words(caller_words(alloc, book.who(alloc, &token_of(word)?)?)),
        "settled" => in_words(truth_words(alloc, book.settled(alloc, &details_of(word)?)?)),
        _ => of_name(alloc, book, call, name_of(word)?),
    }
}

/// A call about two names.
fn of_names(
    alloc: Global,
    book: &mut impl Book,
    call: &str,
    name: Name,
    other: Name,
) -> Result<String, StoreFault> {
    in_words(match call {
        "own_purse" => purse_words(alloc, book.own_purse(alloc, name, other)?),
        "is_own" => truth_words(alloc, book.is_own(alloc, name, other)?),
        "load_of" => amount_words(alloc, book.load_of(alloc, name, other)?),
        "redemption_of" => amount_words(alloc, book.redemption_of(alloc, name, other)?),
        _ => unknown_words(alloc),
    })
}

/// A call about something of a purse.
fn of_purse(
    alloc: Global,
    book: &mut impl Book,
    call: &str,
    purse: Name,
    word: &str,
) -> Result<String, StoreFault> {
    in_words(match call {
        "message" => message_words(alloc, book.message(alloc, purse, number_of(word)?)?),
        "has_message" => truth_words(alloc, book.has_message(alloc, purse, number_of(word)?)?),
        "lines" => lines_words(alloc, Some(book.lines(alloc, purse, number_of(word)?, 50)?)),
        "archived" => truth_words(alloc, book.archived(alloc, purse, &details_of(word)?)?),
        _ => return of_names(alloc, book, call, purse, name_of(word)?),
    })
}

/// The value of a call, in words. A call `lines` asks for 50 of them behind a number.
pub(super) fn asked(alloc: Global, book: &mut impl Book, line: &str) -> Result<String, StoreFault> {
    let mut words = line.split(' ');
    let call = words.next().unwrap_or("");
    match (words.next(), words.next()) {
        (None, _) => of_scheme(alloc, book, call),
        (Some(word), None) => of_one(alloc, book, call, word),
        (Some(first), Some(second)) => of_purse(alloc, book, call, name_of(first)?, second),
    }
}

/// The same of a book whose rows may spell no World: of sums, of a holder's purses, or of a `page`, the first lines of a purse.
pub(crate) fn asked_of_rows(
    alloc: Global,
    book: &mut impl RowBook,
    line: &str,
) -> Result<String, StoreFault> {
    let mut words = line.split(' ');
    let call = words.next().unwrap_or("");
    in_words(match (call, words.next(), words.next()) {
        ("totals", None, _) => scheme_words(alloc, &book.totals(alloc)?),
        ("members_totals", None, _) => members_sums_words(alloc, book.members_totals(alloc)?),
        ("purses_of", Some(holder), None) => {
            names_words(alloc, book.purses_of(alloc, name_of(holder)?)?)
        }
        ("page", Some(purse), Some(most)) => {
            let lines = book.lines(alloc, name_of(purse)?, 0, number_of(most)?)?;
            end_words(alloc, Some(lines))
        }
        _ => unknown_words(alloc),
    })
}
