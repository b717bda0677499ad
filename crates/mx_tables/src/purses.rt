//! Purses.
ghost use Rattle.std.specs.Prelude.{◌≡◌, ◌<◌, ◌^◌, if◌then◌else◌, None, Some, is_some, option_and_then, option_map};
ghost use Rattle.mx_pay.specs.Names.{is_name};
ghost use Rattle.std.specs.FinMap as fmap;
ghost use Rattle.sqlite.specs.Held.{state};
ghost use Rattle.mx_book.specs.RowEdits.{rewritten};
ghost use Rattle.mx_book.specs.declared.edits.Edit.TheVariants.{NewPurse, SetPurse};
ghost use Rattle.mx_tables.specs.Answers.{ArePurses, Raises};
ghost use Rattle.mx_tables.specs.Cached.{ReadsThrough};
ghost use Rattle.mx_tables.specs.Schema.{office_schema};
ghost use Rattle.mx_tables.specs.States.{Finds, Asks, Steps, Tells, Writes};
ghost use Rattle.mx_book.specs.Reads.{account_of, finds_place, has_purse, own_purse, purse_names_of};

use crate::asking::{About, ask, ask_about, ask_about_inside, run, run_one};
use crate::cache::Cache;
use crate::given;
use crate::holders::find_holder;
use crate::inbox::{count_messages, has_room};
use crate::members::names_in;
use mx_book::{Account, PurseRow, StoreFault};
use mx_cells::cells::{name_in, number_in};
use mx_cells::codes::{log_code, status_code};
use mx_cells::shown::purse_in;
use mx_pay::names::same_name;
use mx_pay::{MOST_NUMBER, Name};
use mx_purse::Purse;
use mx_purse::words::status_word;
use sqlite::{Alter, Connection, Savepoint};
use std::alloc::Global;

/// Adds a purse of a holder: at rest, with nothing in it and nothing logged.
pub fn insert_purse<S: Alter>(
    tx: &mut Savepoint<'_, S>,
    name: &Name,
    holder: &Name,
) -> Result<(), StoreFault>
    ensures { Writes S.Store tx.old tx.new result
        (λ r. rewritten r (NewPurse name.now holder.now)) }
{
    run(
        tx,
        "INSERT INTO purse (name, holder, balance, next_number, status, details, log, line_count, next_message) VALUES (?1, ?2, 0, 0, 'eaFrom', '', '', 0, 0)",
        &[given::text(name.as_str()), given::text(holder.as_str())],
    )
}

/// What is kept of a purse, or None where there is no such purse.
pub fn find_purse<S: Alter>(
    conn: &mut Connection<S>,
    name: &Name,
) -> Result<Option<PurseRow>, StoreFault>
    ensures { Asks S.Store conn.old conn.new result
        (λ r v. ArePurses r → v ≡ fmap.get r.purses name.now) }
{
    match ask_about(conn, About::Purse, name)? {
        Some(row) => Ok(Some(purse_in(name, &row)?)),
        None => Ok(None),
    }
}

/// The names of the purses, in order.
pub fn list_purse_names<S: Alter>(
    alloc: Global,
    conn: &mut Connection<S>,
) -> Result<Vec<Name>, StoreFault>
    ensures { Tells S.Store conn.old conn.new result (λ w v. v.items ≡ purse_names_of w) }
{
    let rows = ask(conn, "SELECT name FROM purse ORDER BY name", &[])?;
    names_in(alloc, &rows)
}

/// A purse with its holder and the holder's member, how many messages it holds and the number of its next one, or
/// None where there is no such purse.
pub fn read_account<S: Alter>(
    conn: &mut Connection<S>,
    name: &Name,
) -> Result<Option<Account>, StoreFault>
    ensures { Tells S.Store conn.old conn.new result (λ w v. v ≡ account_of w name.now) }
{
    let Some(row) = find_purse(conn, name)? else {
        return Ok(None);
    };
    let Some(member) = find_holder(conn, &row.holder)? else {
        return Ok(None);
    };
    Ok(Some(Account {
        holder: row.holder,
        member,
        purse: row.purse,
        held: count_messages(conn, name)?,
        next_message: row.next_message,
    }))
}

/// The holder of a purse, or None where there is no such purse.
pub fn find_owner<S: Alter>(
    conn: &mut Connection<S>,
    name: &Name,
) -> Result<Option<Name>, StoreFault>
    ensures { Asks S.Store conn.old conn.new result
        (λ r v. v ≡ option_map (λ x. x.holder) (fmap.get r.purses name.now)) }
{
    name_in(ask_about(conn, About::Owner, name)?)
}

/// What is kept of a purse that the cache misses, which fills it, or None where there is no such purse.
fn fill_purse<S: Alter>(
    conn: &mut Connection<S>,
    cache: &mut Cache,
    name: &Name,
) -> Result<Option<PurseRow>, StoreFault>
    ensures { ReadsThrough S.Store conn.old conn.new cache.old cache.new result
        (λ r w x. x ≡ fmap.get r.purses name.now) }
{
    let Some(row) = find_purse(conn, name)? else {
        return Ok(None);
    };
    cache.fill_purse(*name, &row);
    Ok(Some(row))
}

/// What is kept of a purse, or None where there is no such purse.
fn read_purse<S: Alter>(
    conn: &mut Connection<S>,
    cache: &mut Cache,
    name: &Name,
) -> Result<Option<PurseRow>, StoreFault>
    ensures { ReadsThrough S.Store conn.old conn.new cache.old cache.new result
        (λ r w x. x ≡ fmap.get r.purses name.now) }
{
    let Some(row) = cache.purse(name) else {
        return fill_purse(conn, cache, name);
    };
    Ok(Some(row))
}

/// The purse of a row, where it is the holder's.
fn own_in(holder: &Name, row: &Option<PurseRow>) -> Option<Purse>
    ensures { result ≡ option_and_then
        (λ x. if is_name holder.now x.holder then Some x.purse else None) row.now }
{
    match row {
        Some(row) if same_name(holder, &row.holder) => Some(row.purse),
        _ => None,
    }
}

/// The purse of that name where it is the holder's, or None where it is another's or there is none.
pub fn own_purse<S: Alter>(
    conn: &mut Connection<S>,
    cache: &mut Cache,
    holder: &Name,
    name: &Name,
) -> Result<Option<Purse>, StoreFault>
    ensures { ReadsThrough S.Store conn.old conn.new cache.old cache.new result
        (λ r w v. v ≡ own_purse w holder.now name.now) }
{
    let row = read_purse(conn, cache, name)?;
    Ok(own_in(holder, &row))
}

/// Whether the purse of that name is there and is the holder's.
pub fn is_own<S: Alter>(
    conn: &mut Connection<S>,
    cache: &mut Cache,
    holder: &Name,
    name: &Name,
) -> Result<bool, StoreFault>
    ensures { ReadsThrough S.Store conn.old conn.new cache.old cache.new result
        (λ r w b. b ≡ is_some (own_purse w holder.now name.now)) }
{
    Ok(own_purse(conn, cache, holder, name)?.is_some())
}

/// Whether there is a purse of that name.
pub fn has_purse<S: Alter>(
    conn: &mut Connection<S>,
    cache: &mut Cache,
    name: &Name,
) -> Result<bool, StoreFault>
    ensures { ReadsThrough S.Store conn.old conn.new cache.old cache.new result
        (λ r w b. b ≡ has_purse w name.now) }
{
    Ok(read_purse(conn, cache, name)?.is_some())
}

/// Whether a message to a purse finds a place.
pub fn finds_place<S: Alter>(
    conn: &mut Connection<S>,
    cache: &mut Cache,
    purse: &Name,
) -> Result<bool, StoreFault>
    ensures { ReadsThrough S.Store conn.old conn.new cache.old cache.new result
        (λ r w b. b ≡ finds_place w purse.now) }
{
    let Some(row) = read_purse(conn, cache, purse)? else {
        return Ok(false);
    };
    let has_room = has_room(conn, cache, purse)?;
    Ok(has_room && row.next_message < MOST_NUMBER)
}

/// Sets the purse of that name, which is there.
pub fn set_purse<S: Alter>(
    tx: &mut Savepoint<'_, S>,
    alloc: Global,
    purse: &Purse,
) -> Result<(), StoreFault>
    ensures { Writes S.Store tx.old tx.new result
        (λ r. rewritten r (SetPurse purse.now)) }
{
    let details = status_code(alloc, &purse.status())?;
    let log = log_code(alloc, &purse.log())?;
    run_one(
        tx,
        "UPDATE purse SET balance = ?2, next_number = ?3, status = ?4, details = ?5, log = ?6, line_count = ?7 WHERE name = ?1",
        &[
            given::text(purse.name().as_str()),
            given::number(purse.balance()),
            given::number(purse.next().get()),
            given::text(status_word(&purse.status())),
            given::text(&details),
            given::text(&log),
            given::number(purse.lines()),
        ],
    )
}

/// The number of a purse's next message. Store where there is no such purse.
pub fn next_number<S: Alter>(tx: &mut Savepoint<'_, S>, name: &Name) -> Result<u64, StoreFault>
    ensures { Finds S.Store tx.old tx.new result
        (λ r n. option_map (λ x. x.next_message) (fmap.get r.purses name.now) ≡ Some n) }
{
    number_in(ask_about_inside(tx, About::Next, name)?)?.ok_or(StoreFault::Store)
}

/// Raises the number of a purse's next message, which is this one, by one. Store where there is no such purse, or it has
/// another number.
pub fn raise_next<S: Alter>(
    tx: &mut Savepoint<'_, S>,
    name: &Name,
    next: u64,
) -> Result<(), StoreFault>
    requires { next < 10 ^ 15 }
    ensures { Steps S.Store tx.old tx.new result
        (λ _. (state S.Store tx.old.conn.now).now.schema ≡ office_schema
        → Raises name.now next (state S.Store tx.old.conn.now) (state S.Store tx.new.conn.now)) }
{
    run_one(
        tx,
        "UPDATE purse SET next_message = ?2 WHERE name = ?1 AND next_message = ?3",
        &[
            given::text(name.as_str()),
            given::number(next + 1),
            given::number(next),
        ],
    )
}
