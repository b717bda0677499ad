//! The edits, each a few statements of a transaction.
ghost use Rattle.std.specs.Prelude.{◌≡◌, IsTrue, fold};
ghost use Rattle.sqlite.specs.Held.{state};
ghost use Rattle.sqlite.specs.State.{IsUnchanged};
ghost use Rattle.mx_book.specs.RowEdits.{rewritten};
ghost use Rattle.mx_memory.specs.Due.{is_fit};
ghost use Rattle.mx_tables.specs.Cached.{AreFit, EditsThrough, WritesThrough};
ghost use Rattle.mx_tables.specs.Schema.{office_schema};
ghost use Rattle.mx_tables.specs.States.{Finds, Steps, Writes};
ghost use Rattle.mx_tables.specs.Rounds.{ChangesIn, ChangesRound};

use crate::asking::fault_of;
use crate::cache::Cache;
use crate::collecting::{collect, collect_all, redeem};
use crate::holders::insert_holder;
use crate::inbox::{drop_message, insert_message};
use crate::lines::insert_line;
use crate::loads::insert_load;
use crate::members::{insert_member, update_member};
use crate::purses::{insert_purse, next_number, raise_next, set_purse};
use crate::redemptions::insert_redemption;
use crate::results::{archive_tray, insert_tray};
use crate::rounds::begin;
use crate::settled::insert_settled;
use crate::tokens::insert_token;
use mx_book::{Caller, Edit, StoreFault};
use mx_pay::{MOST_NUMBER, Name, Token};
use mx_purse::Message;
use sqlite::{Alter, Connection, Savepoint};
use std::alloc::Global;

/// Adds a member and its clerk's token.
fn add_member<S: Alter>(
    tx: &mut Savepoint<'_, S>,
    member: Name,
    clerk: Token,
) -> Result<(), StoreFault>
    ensures { Writes S.Store tx.old tx.new result
        (λ r. rewritten r (Edit.NewMember member clerk)) }
{
    insert_member(tx, &member)?;
    insert_token(tx, &clerk, &Caller::Clerk(member))
}

/// Adds a holder and the holder's token.
fn add_holder<S: Alter>(
    tx: &mut Savepoint<'_, S>,
    holder: Name,
    member: Name,
    token: Token,
) -> Result<(), StoreFault>
    ensures { Writes S.Store tx.old tx.new result
        (λ r. rewritten r (Edit.NewHolder holder member token)) }
{
    insert_holder(tx, &holder, &member)?;
    insert_token(tx, &token, &Caller::Holder(holder))
}

/// The number of a purse's next message: the cached one, else that of the purse's row.
fn number_for<S: Alter>(
    tx: &mut Savepoint<'_, S>,
    cached: Option<u64>,
    purse: &Name,
) -> Result<u64, StoreFault>
    ensures { Finds S.Store tx.old tx.new result (λ _ _. Unit {0}) }
{
    match cached {
        Some(number) => Ok(number),
        None => next_number(tx, purse),
    }
}

/// Puts a message into the inbox of a purse under this number, which is the purse's next one and rises by one. Store where there
/// is no such purse, it has another next number, or that is 10^15.
fn add_message<S: Alter>(
    tx: &mut Savepoint<'_, S>,
    alloc: Global,
    key: (Name, u64),
    message: &Message,
) -> Result<(), StoreFault>
    ensures { Writes S.Store tx.old tx.new result
        (λ r. rewritten r (Edit.AddMessage key.0 message.now)) }
{
    if key.1 >= MOST_NUMBER {
        return Err(StoreFault::Store);
    }
    raise_next(tx, &key.0, key.1)?;
    insert_message(tx, alloc, key, message)
}

/// Makes one edit, by the cached number of the message that it adds, where there is one.
fn edit_one<S: Alter>(
    tx: &mut Savepoint<'_, S>,
    alloc: Global,
    cached: Option<u64>,
    edit: &Edit,
) -> Result<(), StoreFault>
    ensures { Writes S.Store tx.old tx.new result (λ r. rewritten r edit.now) }
{
    match edit {
        Edit::NewMember { member, clerk } => add_member(tx, *member, *clerk),
        Edit::SetMember {
            member,
            granted,
            float,
        } => update_member(tx, member, *granted, *float),
        Edit::NewHolder {
            holder,
            member,
            token,
        } => add_holder(tx, *holder, *member, *token),
        Edit::NewPurse { purse, holder } => insert_purse(tx, purse, holder),
        Edit::SetPurse { purse } => set_purse(tx, alloc, purse),
        Edit::AddMessage { purse, message } => {
            let number = number_for(tx, cached, purse)?;
            add_message(tx, alloc, (*purse, number), message)
        }
        Edit::DropMessage { purse, number } => drop_message(tx, purse, *number),
        Edit::AddLine { purse, line } => insert_line(alloc, tx, purse, line),
        Edit::AddTray { purse, details } => insert_tray(alloc, tx, purse, details),
        Edit::ArchiveTray { purse } => archive_tray(tx, purse),
        Edit::AddLoad {
            purse,
            reference,
            amount,
        } => insert_load(tx, purse, reference, *amount),
        Edit::AddRedemption {
            purse,
            reference,
            amount,
        } => insert_redemption(tx, purse, reference, *amount),
        Edit::Collect { member } => collect_all(tx, member),
        Edit::AddSettled { details } => insert_settled(alloc, tx, details),
    }
}

/// Makes one edit by way of the cache, and follows it there.
fn edit_next<S: Alter>(
    tx: &mut Savepoint<'_, S>,
    cache: &mut Cache,
    edit: &Edit,
) -> Result<(), StoreFault>
    ensures { WritesThrough S.Store tx.old tx.new cache.old cache.new result
        (λ r. IsTrue (is_fit r edit.now)) (λ r. rewritten r edit.now) }
{
    match edit {
        Edit::AddRedemption {
            purse,
            reference,
            amount,
        } => redeem(tx, cache, (*purse, *reference), *amount),
        Edit::Collect { member } => collect(tx, cache, *member),
        _ => {
            let cached = cache.number_for(edit);
            edit_one(tx, cache.alloc(), cached, edit)?;
            cache.follow(edit);
            Ok(())
        }
    }
}

/// Makes these edits in order, by way of the cache, and follows them there.
fn edit_each<S: Alter>(
    tx: &mut Savepoint<'_, S>,
    cache: &mut Cache,
    edits: &[Edit],
) -> Result<(), StoreFault>
    ensures { WritesThrough S.Store tx.old tx.new cache.old cache.new result
        (λ r. AreFit r edits.now) (λ r. fold rewritten r edits.now) }
{
    for edit in edits {
        edit_next(tx, cache, edit)?;
    }
    Ok(())
}

/// Finds the connection open: one that a fault has shut is to commit nothing.
pub fn find_open<S: Alter>(tx: &mut Savepoint<'_, S>) -> Result<(), StoreFault>
    ensures { Steps S.Store tx.old tx.new result
        (λ _. IsUnchanged (state S.Store tx.old.conn.now) (state S.Store tx.new.conn.now)) }
{
    match tx.prepare("COMMIT") {
        Ok(_) => Ok(()),
        Err(error) => Err(fault_of(error)),
    }
}

/// Makes these edits in order in a transaction, all of them or none, in a savepoint, and follows them in the cache. What is
/// cached says nothing where it answers a fault.
fn edit_marked<S: Alter>(
    conn: &mut Connection<S>,
    cache: &mut Cache,
    edits: &[Edit],
) -> Result<(), StoreFault>
    ensures { ChangesIn (state S.Store conn.old) (state S.Store conn.new) result
        ((state S.Store conn.old).now.schema ≡ office_schema → EditsThrough edits.now
        (state S.Store conn.old) (state S.Store conn.new) cache.old cache.new) }
{
    let mut mark = match conn.savepoint() {
        Ok(mark) => mark,
        Err(error) => return Err(fault_of(error)),
    };
    edit_each(&mut mark, cache, edits)?;
    match mark.commit() {
        Ok(()) => Ok(()),
        Err(error) => Err(fault_of(error)),
    }
}

/// Makes these edits in order in a round, all of them or none, and follows them in the cache; it begins the round where none
/// has begun. What is cached says nothing where it answers a fault.
pub fn change_in<S: Alter>(
    conn: &mut Connection<S>,
    begun: &mut bool,
    cache: &mut Cache,
    edits: &[Edit],
) -> Result<(), StoreFault>
    ensures { ChangesRound begun.old (state S.Store conn.old) begun.new (state S.Store conn.new)
        result (EditsThrough edits.now
        (state S.Store conn.old) (state S.Store conn.new) cache.old cache.new) }
{
    begin(conn, begun)?;
    edit_marked(conn, cache, edits)
}
