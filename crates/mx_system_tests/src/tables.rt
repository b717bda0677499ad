//! Books on tables: how they are made and opened, and what they read of rows.
use crate::desk::written;
use crate::empty::{empty_store, made, operator};
use crate::growths::{asked_of_rows, assert_values};
use mx_audit::{Refusal, open};
use mx_book::{RowBook, StoreFault};
use mx_pay::Token;
use mx_standing::Standing;
use mx_tables::{OpenFault, Tables};
use sqlite::{Connection, MemStore};
use std::alloc::{AllocError, Global};
use std::process::Abort;
use std::test::Fail;

/// The book over the tables in a store.
pub(super) fn opened(
    alloc: Global,
    store: Connection<MemStore>,
) -> Result<Standing<Tables<MemStore>>, Fail> {
    let (book, _) = open(alloc, store, 0).ok().ok_or("not opened")?;
    Ok(book)
}

/// The store that `open` refuses, which has no books.
pub(super) fn unopened(
    alloc: Global,
    store: Connection<MemStore>,
) -> Result<Connection<MemStore>, Fail> {
    let refused = open(alloc, store, 0).err().ok_or("opened")?;
    match refused.fault {
        Refusal::NotThisSchema => Ok(refused.store),
        _ => Err("refused for another cause")?,
    }
}

/// The store that `create` refuses, which has books.
pub(super) fn unmade(
    alloc: Global,
    store: Connection<MemStore>,
    operator: Token,
) -> Result<Connection<MemStore>, Fail> {
    let refused = Tables::create(alloc, store, operator).err();
    let refused = refused.ok_or("made twice")?;
    match refused.fault {
        OpenFault::NotThisSchema => Ok(refused.store),
        _ => Err("refused for another cause")?,
    }
}

/// What a call of a book of rows answers, in words, or which fault.
fn answer_of(alloc: Global, book: &mut impl RowBook, call: &str) -> Result<String, AllocError> {
    match asked_of_rows(alloc, book, call) {
        Ok(words) => Ok(words),
        Err(StoreFault::Memory) => String::from_str(alloc, "no memory"),
        Err(StoreFault::Store) => String::from_str(alloc, "store"),
    }
}

/// Asserts that the calls of a script answer so, a line each, `CALL ARGUMENT -> ANSWER`. The first words say of which rows.
fn assert_answers(
    rt: &(impl Abort + AllocGlobal),
    book: &mut impl RowBook,
    rows: &str,
    script: &str,
) -> Result<(), Fail> {
    for line in script.lines() {
        match line.split_once(" -> ") {
            Some((call, value)) => {
                let answer = answer_of(rt.alloc(), book, call)?;
                assert_eq!(rt; answer.as_str(), value, "{call}, {rows}");
            }
            None => assert!(rt; line.is_empty(), "{line}"),
        }
    }
    Ok(())
}

/// What new tables answer.
const NEW: &str = "
who 00000000000000000000000000000001 -> operator
members -> none
member m -> none
member_totals m -> none
";

/// The store, once the book over its tables has answered so.
fn answering_new(
    rt: &(impl Abort + AllocGlobal),
    store: Connection<MemStore>,
) -> Result<Connection<MemStore>, Fail> {
    let mut book = opened(rt.alloc(), store)?;
    assert_eq!(rt; assert_values(rt, &mut book, NEW), Ok(()));
    Ok(book.into_inner().into_store())
}

/// An empty store is refused, and stands then for new tables; these are opened again, and not made again.
#[test]
fn made_and_opened_again(rt: HostRuntime) -> Result<(), Fail> {
    let operator = operator()?;
    let store = unopened(rt.alloc(), empty_store(rt.alloc())?)?;
    let store = answering_new(&rt, made(rt.alloc(), store, operator)?)?;
    let store = unmade(rt.alloc(), store, operator)?;
    answering_new(&rt, store)?;
    Ok(())
}

/// The tables of version 1 of the schema, which had no settled details.
const VERSION_1: &str = "
CREATE TABLE meta (id INTEGER PRIMARY KEY, version INTEGER NOT NULL) STRICT
CREATE TABLE member (name TEXT NOT NULL PRIMARY KEY, granted INTEGER NOT NULL, unspent INTEGER NOT NULL) STRICT
CREATE TABLE token (token TEXT NOT NULL PRIMARY KEY, kind TEXT NOT NULL, name TEXT NOT NULL, UNIQUE (kind, name)) STRICT
CREATE TABLE holder (name TEXT NOT NULL PRIMARY KEY, member TEXT NOT NULL REFERENCES member (name)) STRICT
CREATE TABLE purse (name TEXT NOT NULL PRIMARY KEY, holder TEXT NOT NULL REFERENCES holder (name), balance INTEGER NOT NULL, next_number INTEGER NOT NULL, status TEXT NOT NULL, details TEXT NOT NULL, log TEXT NOT NULL, line_count INTEGER NOT NULL, next_message INTEGER NOT NULL) STRICT
CREATE TABLE inbox (purse TEXT NOT NULL, number INTEGER NOT NULL, kind TEXT NOT NULL, details TEXT NOT NULL, PRIMARY KEY (purse, number)) STRICT
CREATE TABLE line (purse TEXT NOT NULL, number INTEGER NOT NULL, kind TEXT NOT NULL, amount INTEGER NOT NULL, balance INTEGER NOT NULL, note TEXT NOT NULL, PRIMARY KEY (purse, number)) STRICT
CREATE TABLE tray (purse TEXT NOT NULL, details TEXT NOT NULL, PRIMARY KEY (purse, details)) STRICT
CREATE TABLE archive (purse TEXT NOT NULL, details TEXT NOT NULL, PRIMARY KEY (purse, details)) STRICT
CREATE TABLE load (purse TEXT NOT NULL, reference TEXT NOT NULL, amount INTEGER NOT NULL, PRIMARY KEY (purse, reference)) STRICT
CREATE TABLE redemption (purse TEXT NOT NULL, reference TEXT NOT NULL, amount INTEGER NOT NULL, collected INTEGER NOT NULL, PRIMARY KEY (purse, reference)) STRICT
INSERT INTO meta (id, version) VALUES (1, 1)
";

/// Executes the statements of a text, a line each.
fn execute_lines(store: &mut Connection<MemStore>, text: &str) -> Result<(), Fail> {
    for statement in text.lines() {
        if !statement.is_empty() {
            store.execute(statement, &[])?;
        }
    }
    Ok(())
}

/// A store with the tables of version 1 and these rows.
pub(super) fn of_version_1(alloc: Global, rows: &str) -> Result<Connection<MemStore>, Fail> {
    let mut store = empty_store(alloc)?;
    execute_lines(&mut store, VERSION_1)?;
    execute_lines(&mut store, rows)?;
    Ok(store)
}

/// Tables of version 1 are refused, and found as such.
#[test]
fn tables_of_the_version_before(rt: HostRuntime) -> Result<(), Fail> {
    unopened(rt.alloc(), of_version_1(rt.alloc(), "")?)?;
    Ok(())
}

/// New tables in which the statements of two texts were executed. They may spell no World, so they are opened as rows alone.
fn with_rows(alloc: Global, rows: &str, change: &str) -> Result<Tables<MemStore>, Fail> {
    let mut store = made(alloc, empty_store(alloc)?, operator()?)?;
    execute_lines(&mut store, rows)?;
    execute_lines(&mut store, change)?;
    let tables = Tables::open(alloc, store);
    Ok(tables.ok().ok_or("not opened")?)
}

/// Asserts that calls answer so over them.
fn assert_rows(
    rt: &(impl Abort + AllocGlobal),
    rows: &str,
    change: &str,
    script: &str,
) -> Result<(), Fail> {
    let mut book = with_rows(rt.alloc(), rows, change)?;
    assert_answers(rt, &mut book, change, script)
}

/// Adds a line of p1 of that number.
const LINE: &str =
    "INSERT INTO line (purse, number, kind, amount, balance, note) VALUES ('p1', #n#, 'loaded', 1, #n#, 'a1')\n";

/// Adds a 51st line, of a kind that no line has.
const BAD_LINE: &str =
    "INSERT INTO line (purse, number, kind, amount, balance, note) VALUES ('p1', 51, 'found', 1, 51, 'a1')";

/// A page of lines is read up to its end and no further: what stands behind it doesn't matter to it.
#[test]
fn page_before_a_line_of_no_kind(rt: HostRuntime) -> Result<(), Fail> {
    let lines = written(rt.alloc(), &[(1, 51, LINE)])?;
    assert_rows(
        &rt,
        lines.as_str(),
        BAD_LINE,
        "page p1 50 -> 50 lines to 50, balance 50\npage p1 51 -> store",
    )
}

/// A member, a holder and the holder's purse p1, which was loaded with 100.
const LOADED: &str = "
INSERT INTO member (name, granted, unspent) VALUES ('m', 100, 0)
INSERT INTO holder (name, member) VALUES ('ann', 'm')
INSERT INTO purse (name, holder, balance, next_number, status, details, log, line_count, next_message) VALUES ('p1', 'ann', 100, 0, 'eaFrom', '', '', 1, 0)
INSERT INTO load (purse, reference, amount) VALUES ('p1', 'a1', 100)
";

/// Two messages for p1, of which the later number came first.
const CROSSED: &str =
    "INSERT INTO inbox (purse, number, kind, details) VALUES ('p1', 1, 'req', ''), ('p1', 0, 'req', '')";

/// Messages that came in another order than that of their keys keep no holder from its purses.
#[test]
fn purses_beside_messages_in_another_order(rt: HostRuntime) -> Result<(), Fail> {
    assert_rows(&rt, LOADED, CROSSED, "purses_of ann -> p1|")
}

/// Changes of these rows, and what the sums of the scheme and those of its members are then.
const CHANGES: [(&str, &str); 9] = [
    (
        "UPDATE purse SET next_number = 1",
        "totals -> 100,0,0,100,0,100,0,0\nmembers_totals -> m,100,0,0,100,0,100|",
    ),
    (
        "UPDATE purse SET balance = 1000000000000000",
        "totals -> 100,0,0,100,0,1000000000000000,0,0\nmembers_totals -> m,100,0,0,100,0,1000000000000000|",
    ),
    (
        "UPDATE purse SET balance = 1000000000000001",
        "totals -> store\nmembers_totals -> store",
    ),
    (
        "UPDATE load SET amount = 1000000000000",
        "totals -> 100,0,0,1000000000000,0,100,0,0\nmembers_totals -> m,100,0,0,1000000000000,0,100|",
    ),
    (
        "UPDATE load SET amount = 1000000000001",
        "totals -> store\nmembers_totals -> store",
    ),
    (
        "UPDATE member SET granted = 1000000000000001",
        "totals -> store\nmembers_totals -> store",
    ),
    (
        "UPDATE purse SET status = 'xx'",
        "totals -> store\nmembers_totals -> m,100,0,0,100,0,100|",
    ),
    (
        "UPDATE load SET purse = 'zz'",
        "totals -> 100,0,0,100,0,100,0,0\nmembers_totals -> store",
    ),
    (
        "INSERT INTO archive (purse, details) VALUES ('zz', 'p1,q1,60,0,0')",
        "totals -> store\nmembers_totals -> m,100,0,0,100,0,100|",
    ),
];

/// Rows that are no value of the books are added up by no sum that reads them: a balance, a load or grants above their
/// limits, a status that there isn't, a load or an archived result of nobody's purse.
#[test]
fn sums_of_rows_that_are_no_value(rt: HostRuntime) -> Result<(), Fail> {
    for (change, sums) in CHANGES {
        assert_rows(&rt, LOADED, change, sums)?;
    }
    Ok(())
}
