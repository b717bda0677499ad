//! The office over a book in memory: random commands, and worked payments as abstract purses see them.
mod abstract_world;
mod asks;
mod random;
mod rounds;

use mx_book::Book;
use mx_memory::{PlainBook, new_book};
use mx_office::Office;
use mx_pay::Token;
use mx_standing::Standing;
use std::alloc::AllocGlobal;
use std::test::Fail;

/// Lends an office over a book to a test. What owns a book of any kind is proved quickly.
fn with_book<H, B, F>(rt: &H, book: B, test: F) -> Result<(), Fail>
where
    H: AllocGlobal,
    B: Book + Drop,
    F: FnOnce(&H, &mut Office<B>) -> Result<(), Fail>,
    requires { F.IsAlwaysCallable test }
{
    let mut office = Office::new(book);
    test(rt, &mut office)
}

/// Lends a new office to a test.
fn with_office<H, F>(rt: &H, test: F) -> Result<(), Fail>
where
    H: AllocGlobal,
    F: FnOnce(&H, &mut Office<Standing<PlainBook>>) -> Result<(), Fail>,
    requires { F.IsAlwaysCallable test }
{
    let operator = Token::read("00000000000000000000000000000001").ok_or("no token")?;
    with_book(rt, new_book(rt.alloc(), operator), test)
}
