//! Tables that are made, opened and refused.
use super::reads::assert_read;
use crate::desk::{STANDING, answer_in_the_end};
use crate::empty::{empty_store, made, operator};
use crate::tables::{opened, unmade, unopened};
use mx_audit::{Refusal, Refused, open};
use mx_book::Book;
use mx_office::Office;
use mx_pay::Token;
use mx_standing::Standing;
use mx_tables::{OpenFault, OpenRefused, Tables};
use sqlite::{Connection, MemStore};
use std::alloc::Global;
use std::process::Abort;
use std::test::Fail;

/// The store that a call refused for want, which stands for that call to be made again.
fn wanting(refused: Refused<MemStore>) -> Result<Connection<MemStore>, Fail> {
    match refused.fault {
        Refusal::Memory | Refusal::Store => Ok(refused.store),
        Refusal::NotThisSchema | Refusal::Unsound(_) => Err("another fault")?,
    }
}

/// The same of `create`.
fn unmade_for_want(refused: OpenRefused<MemStore>) -> Result<Connection<MemStore>, Fail> {
    match refused.fault {
        OpenFault::Memory | OpenFault::Store => Ok(refused.store),
        OpenFault::NotThisSchema => Err("another fault")?,
    }
}

/// A store in memory in which nothing is.
fn store_in_the_end(alloc: Global) -> Result<Connection<MemStore>, Fail> {
    match Connection::open_in_memory(alloc) {
        Ok(store) => Ok(store),
        Err(_) => empty_store(alloc),
    }
}

/// The store with new tables in it.
fn made_in_the_end(
    alloc: Global,
    store: Connection<MemStore>,
    operator: Token,
) -> Result<Connection<MemStore>, Fail> {
    match Tables::create(alloc, store, operator) {
        Ok(tables) => Ok(tables.into_store()),
        Err(refused) => made(alloc, unmade_for_want(refused)?, operator),
    }
}

/// The book over the tables in a store.
fn opened_in_the_end(
    alloc: Global,
    store: Connection<MemStore>,
) -> Result<Standing<Tables<MemStore>>, Fail> {
    match open(alloc, store, 0) {
        Ok((book, _)) => Ok(book),
        Err(refused) => opened(alloc, wanting(refused)?),
    }
}

/// The store that `open` refuses, which has no books.
fn unopened_in_the_end(
    alloc: Global,
    store: Connection<MemStore>,
) -> Result<Connection<MemStore>, Fail> {
    match open(alloc, store, 0) {
        Ok(_) => Err("opened")?,
        Err(
            Refused {
                fault: Refusal::NotThisSchema,
                store,
            },
        ) => Ok(store),
        Err(refused) => unopened(alloc, refused.store),
    }
}

/// The store that `create` refuses, which has books.
fn unmade_in_the_end(
    alloc: Global,
    store: Connection<MemStore>,
    operator: Token,
) -> Result<Connection<MemStore>, Fail> {
    match Tables::create(alloc, store, operator) {
        Ok(_) => Err("made twice")?,
        Err(
            OpenRefused {
                fault: OpenFault::NotThisSchema,
                store,
            },
        ) => Ok(store),
        Err(refused) => unmade(alloc, refused.store, operator),
    }
}

/// What new tables tell.
const NEW: &str = "
who 00000000000000000000000000000001 -> operator
who 00000000000000000000000000000002 -> none
members -> none
totals -> 0,0,0,0,0,0,0,0
";

/// What they tell with a member, two holders and two purses.
const FILLED: &str = "
who 00000000000000000000000000000001 -> operator
who 0000000000000000000000000000000b -> holder bob
members -> m|
purses_of ann -> p1|
purse q1 -> of bob of m, balance 0, next 0, eaFrom, log [], lines 0, messages 0, next message 0
totals -> 0,0,0,0,0,0,0,0
";

/// The book over new tables that tell so, in a store that can't be opened before.
fn assert_made(
    rt: &(impl Abort + AllocGlobal),
    operator: Token,
) -> Result<Standing<Tables<MemStore>>, Fail> {
    let store = store_in_the_end(rt.alloc())?;
    let store = unopened_in_the_end(rt.alloc(), store)?;
    let store = made_in_the_end(rt.alloc(), store, operator)?;
    let mut book = opened_in_the_end(rt.alloc(), store)?;
    assert_read(rt, &mut book, NEW, true);
    Ok(book)
}

/// A book in which members, holders and purses are added.
fn filled<B: Book + Drop>(rt: &(impl Abort + AllocGlobal), book: B) -> Result<B, Fail> {
    let mut office = Office::new(book);
    answer_in_the_end(rt, &mut office, &[STANDING])?;
    Ok(office.into_book())
}

/// A store that is refused is as it was: tables are made in it, or opened, by the same call.
#[test]
fn openings_with_a_growth_refused(rt: HostRuntime) -> Result<(), Fail> {
    let operator = operator()?;
    let book = filled(&rt, assert_made(&rt, operator)?)?;
    let store = book.into_inner().into_store();
    let store = unmade_in_the_end(rt.alloc(), store, operator)?;
    let mut book = opened_in_the_end(rt.alloc(), store)?;
    assert_read(&rt, &mut book, FILLED, true);
    Ok(())
}
