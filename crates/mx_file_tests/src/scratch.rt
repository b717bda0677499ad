//! What the tests stand on: a folder of their own, an office, requests and responses.
use mx_book::Book;
use mx_memory::new_book;
use mx_office::Office;
use mx_pay::Token;
use mx_wire::Routes;
use std::alloc::{AllocError, Global};
use std::test::Fail;
use std::{env, fs, process};

/// A new folder with this name, of the test's own.
pub(super) fn new_folder(rt: &HostRuntime, name: &str) -> Result<String, Fail> {
    let base = env::temp_dir(rt)?;
    let id = process::id(rt.process());
    let folder = format!(in rt.alloc(); "{}/purse-office-{name}-{id}", base.as_str())?;
    fs::create_dir_all(rt, folder.as_str())?;
    Ok(folder)
}

/// What is tried in an office. It is proved once for a book of any kind.
pub(super) trait Trial {
    /// Fails where something isn't as it is to be.
    fn try_in(
        &self,
        rt: &HostRuntime,
        routes: &Routes,
        office: &mut Office<impl Book>,
    ) -> Result<(), Fail>;
}

/// Tries something in an office over a book.
fn in_office(rt: &HostRuntime, book: impl Book + Drop, trial: &impl Trial) -> Result<(), Fail> {
    let routes = Routes::new(rt.alloc())?;
    let mut office = Office::new(book);
    trial.try_in(rt, &routes, &mut office)
}

/// The same over a new book in memory, whose operator's token ends in f.
pub(super) fn in_memory(rt: &HostRuntime, trial: &impl Trial) -> Result<(), Fail> {
    let operator = Token::read("0000000000000000000000000000000f").ok_or("no token")?;
    in_office(rt, new_book(rt.alloc(), operator), trial)
}

/// The text with a line end in place of each `|`.
pub(super) fn unfolded(alloc: Global, text: &str) -> Result<String, AllocError> {
    let mut lines = String::new(alloc);
    for character in text.chars() {
        lines.push(if character == '|' { '\n' } else { character })?;
    }
    Ok(lines)
}

/// The bytes of a request with a token whose 32 digits are zeros but for the last, and this body.
pub(super) fn request(
    alloc: Global,
    digit: &str,
    line: &str,
    body: &str,
) -> Result<String, AllocError> {
    format!(in alloc;
        "{line} HTTP/1.1\r\npurse-token: 0000000000000000000000000000000{digit}\r\ncontent-length: {}\r\n\r\n{body}",
        body.len()
    )
}

/// The bytes of a response with this status and this body.
pub(super) fn response(alloc: Global, status: &str, body: &str) -> Result<String, AllocError> {
    format!(in alloc;
        "HTTP/1.1 {status}\r\ncontent-type: application/json\r\ncontent-length: {}\r\nconnection: close\r\n\r\n{body}",
        body.len()
    )
}

/// Fails where a text isn't the one that is expected.
pub(super) fn expect(alloc: Global, what: &str, told: &str, wanted: &str) -> Result<(), Fail> {
    if told == wanted {
        return Ok(());
    }
    Err(Fail::new(format!(in alloc; "{what}: {told:?}, and not {wanted:?}")?))
}
