//! Offices in which nothing is but the operator's token, over each kind of book, and what is tried in them.
use crate::faulty::Faulty;
use mx_audit::open;
use mx_book::{Book, StoreFault};
use mx_memory::new_book;
use mx_office::Office;
use mx_pay::Token;
use mx_standing::Standing;
use mx_tables::Tables;
use sqlite::{Connection, MemStore};
use std::alloc::Global;
use std::process::Abort;
use std::test::Fail;

/// What is tried in an office in which nothing is. It is proved once for a book of any kind, which is quick; what names a
/// kind of book is proved slowly.
pub(super) trait Trial {
    /// Fails where something isn't as it is to be.
    fn try_in(
        &self,
        rt: &(impl Abort + AllocGlobal),
        office: &mut Office<impl Book>,
    ) -> Result<(), Fail>;
}

/// The same over a book that leaves out the calls that it is told to.
pub(super) trait FaultyTrial {
    /// Fails where something isn't as it is to be.
    fn try_in(
        &self,
        rt: &(impl Abort + AllocGlobal),
        office: &mut Office<Faulty<impl Book>>,
    ) -> Result<(), Fail>;
}

/// The operator's token: zeros and a 1.
pub(super) fn operator() -> Result<Token, Fail> {
    Ok(Token::read("00000000000000000000000000000001").ok_or("no token")?)
}

/// Tries something in an office over a book.
pub(super) fn in_office(
    rt: &(impl Abort + AllocGlobal),
    book: impl Book + Drop,
    trial: &impl Trial,
) -> Result<(), Fail> {
    let mut office = Office::new(book);
    trial.try_in(rt, &mut office)
}

/// The same over a book in memory.
pub(super) fn in_memory(rt: &(impl Abort + AllocGlobal), trial: &impl Trial) -> Result<(), Fail> {
    in_office(rt, new_book(rt.alloc(), operator()?), trial)
}

/// A book over new tables in memory, where there is memory for them.
fn new_tables(alloc: Global, operator: Token) -> Option<Standing<Tables<MemStore>>> {
    let store = Connection::open_in_memory(alloc).ok()?;
    let tables = Tables::create(alloc, store, operator).ok()?;
    let (book, _) = open(alloc, tables.into_store(), 0).ok()?;
    Some(book)
}

/// The same over tables in memory, which are made again where there is no memory at first.
pub(super) fn in_tables(rt: &(impl Abort + AllocGlobal), trial: &impl Trial) -> Result<(), Fail> {
    let operator = operator()?;
    let book = match new_tables(rt.alloc(), operator) {
        Some(book) => book,
        None => new_tables(rt.alloc(), operator).ok_or("not made")?,
    };
    in_office(rt, book, trial)
}

/// The same over a book in memory, and over tables.
pub(super) fn in_both(rt: &(impl Abort + AllocGlobal), trial: &impl Trial) -> Result<(), Fail> {
    in_memory(rt, trial)?;
    in_tables(rt, trial)
}

/// Tries something in an office over a book that leaves out calls.
fn in_faulty_office(
    rt: &(impl Abort + AllocGlobal),
    book: impl Book + Drop,
    trial: &impl FaultyTrial,
) -> Result<(), Fail> {
    let mut office = Office::new(Faulty {
        book,
        left: None,
        fault: StoreFault::Store,
        lines_asked: (u64::MAX, 0),
    });
    trial.try_in(rt, &mut office)
}

/// The same over one that passes its calls on to a book in memory, and leaves none out at first.
pub(super) fn in_faulty(
    rt: &(impl Abort + AllocGlobal),
    trial: &impl FaultyTrial,
) -> Result<(), Fail> {
    in_faulty_office(rt, new_book(rt.alloc(), operator()?), trial)
}

/// A store in memory in which nothing is.
pub(super) fn empty_store(alloc: Global) -> Result<Connection<MemStore>, Fail> {
    Ok(Connection::open_in_memory(alloc)?)
}

/// The store with new tables in it.
pub(super) fn made(
    alloc: Global,
    store: Connection<MemStore>,
    operator: Token,
) -> Result<Connection<MemStore>, Fail> {
    let tables = Tables::create(alloc, store, operator);
    Ok(tables.ok().ok_or("not made")?.into_store())
}
