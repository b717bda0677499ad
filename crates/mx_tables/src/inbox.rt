//! The messages in the inboxes of purses.
ghost use Rattle.std.specs.Prelude.{◌≡◌, ◌≤◌, ◌^◌, IfErr, IfOk, is_some, length, map, nat_lt};
ghost use Rattle.std.specs.FinMap as fmap;
ghost use Rattle.std.specs.List.{AllByRecursion};
ghost use Rattle.mx_purse.specs.Messages.{IsMessage};
ghost use Rattle.mx_book.specs.Limits.{most_messages};
ghost use Rattle.mx_book.specs.RowReads.{of_name, row_inbox_of};
ghost use Rattle.mx_cells.specs.Cells.{first_three, message_row};
ghost use Rattle.mx_tables.specs.Answers.{Displays};
ghost use Rattle.mx_tables.specs.Cached.{ReadsThrough};
ghost use Rattle.mx_tables.specs.States.{Asks, IsForMemory, Tells, Writes};
ghost use Rattle.mx_book.specs.Reads.{inbox_of, message_of};

use crate::asking::{ask, ask_one, run_one};
use crate::cache::Cache;
use crate::given;
use mx_book::{MOST_MESSAGES, StoreFault};
use mx_cells::cells::message_at;
use mx_cells::codes::message_code;
use mx_cells::shown::message_in;
use mx_pay::{MOST_NUMBER, Name};
use mx_purse::Message;
use mx_purse::words::message_word;
use sqlite::{Alter, Connection, Row, Savepoint};
use std::alloc::Global;

/// The messages that rows show.
fn messages_in(alloc: Global, rows: &[Row]) -> Result<Vec<(u64, Message)>, StoreFault>
    ensures shown { IfOk result (λ ms. map first_three rows.now ≡ map message_row ms.items) }
    ensures valid { IfOk result (λ ms. AllByRecursion (λ m. IsMessage m.1) ms.items) }
    ensures there { AllByRecursion (Displays (λ m. IsMessage m.1) message_row) rows.now
        → IfErr result IsForMemory }
{
    let mut messages = Vec::new(alloc);
    for row in rows {
        let message = message_in(row)?;
        messages.push(message)?;
    }
    Ok(messages)
}

/// The messages in the inbox of a purse with their numbers, by number.
pub fn list_inbox<S: Alter>(
    alloc: Global,
    conn: &mut Connection<S>,
    purse: &Name,
) -> Result<Vec<(u64, Message)>, StoreFault>
    ensures { Tells S.Store conn.old conn.new result (λ w v. v.items ≡ inbox_of w purse.now) }
{
    let rows = ask(
        conn,
        "SELECT number, kind, details FROM inbox WHERE purse = ?1 ORDER BY number",
        &[given::text(purse.as_str())],
    )?;
    messages_in(alloc, &rows)
}

/// How many messages lie in the inbox of a purse.
pub fn count_messages<S: Alter>(conn: &mut Connection<S>, purse: &Name) -> Result<usize, StoreFault>
    ensures { Asks S.Store conn.old conn.new result
        (λ r v. v ≡ length (row_inbox_of r purse.now)) }
{
    let rows = ask(
        conn,
        "SELECT number FROM inbox WHERE purse = ?1",
        &[given::text(purse.as_str())],
    )?;
    Ok(rows.len())
}

/// Whether the inbox of a purse has fewer than 32 messages.
pub fn has_room<S: Alter>(
    conn: &mut Connection<S>,
    cache: &mut Cache,
    purse: &Name,
) -> Result<bool, StoreFault>
    ensures { ReadsThrough S.Store conn.old conn.new cache.old cache.new result
        (λ r w b. b ≡ nat_lt (length (of_name purse.now (fmap.entries r.inbox))) most_messages) }
{
    if cache.has_room(purse) {
        return Ok(true);
    }
    let held = count_messages(conn, purse)?;
    cache.fill_inbox(*purse, held);
    Ok(held < MOST_MESSAGES)
}

/// The message of that number in the inbox of a purse, or None where there is none.
pub fn find_message<S: Alter>(
    conn: &mut Connection<S>,
    cache: &mut Cache,
    purse: &Name,
    number: u64,
) -> Result<Option<Message>, StoreFault>
    ensures { ReadsThrough S.Store conn.old conn.new cache.old cache.new result
        (λ r w v. v ≡ message_of w purse.now number) }
{
    if number > MOST_NUMBER {
        return Ok(None);
    }
    let row = ask_one(
        conn,
        "SELECT kind, details FROM inbox WHERE purse = ?1 AND number = ?2",
        &[given::text(purse.as_str()), given::number(number)],
    )?;
    let Some(row) = row else {
        return Ok(None);
    };
    let message = message_at(&row, 0)?;
    cache.fill_message(*purse, number);
    Ok(Some(message))
}

/// Whether a message of that number lies in the inbox of a purse.
pub fn has_message<S: Alter>(
    conn: &mut Connection<S>,
    cache: &Cache,
    purse: &Name,
    number: u64,
) -> Result<bool, StoreFault>
    ensures { ReadsThrough S.Store conn.old conn.new cache.now cache.now result
        (λ r w b. b ≡ is_some (message_of w purse.now number)) }
{
    if number > MOST_NUMBER {
        return Ok(false);
    }
    if cache.has_message(purse, number) {
        return Ok(true);
    }
    let row = ask_one(
        conn,
        "SELECT number FROM inbox WHERE purse = ?1 AND number = ?2",
        &[given::text(purse.as_str()), given::number(number)],
    )?;
    Ok(row.is_some())
}

/// Puts a message into the inbox of a purse, under a number that isn't there.
pub fn insert_message<S: Alter>(
    tx: &mut Savepoint<'_, S>,
    alloc: Global,
    key: (Name, u64),
    message: &Message,
) -> Result<(), StoreFault>
    requires { key.1 ≤ 10 ^ 15 }
    ensures { Writes S.Store tx.old tx.new result
        (λ r. record r { inbox = fmap.insert r.inbox key message.now }) }
{
    let details = message_code(alloc, message)?;
    run_one(
        tx,
        "INSERT INTO inbox (purse, number, kind, details) VALUES (?1, ?2, ?3, ?4)",
        &[
            given::text(key.0.as_str()),
            given::number(key.1),
            given::text(message_word(message)),
            given::text(&details),
        ],
    )
}

/// Takes a message that is there out of an inbox. Store where its number is above 10^15.
pub fn drop_message<S: Alter>(
    tx: &mut Savepoint<'_, S>,
    purse: &Name,
    number: u64,
) -> Result<(), StoreFault>
    ensures { Writes S.Store tx.old tx.new result
        (λ r. record r { inbox = fmap.remove r.inbox (purse.now, number) }) }
{
    if number > MOST_NUMBER {
        return Err(StoreFault::Store);
    }
    run_one(
        tx,
        "DELETE FROM inbox WHERE purse = ?1 AND number = ?2",
        &[given::text(purse.as_str()), given::number(number)],
    )
}
