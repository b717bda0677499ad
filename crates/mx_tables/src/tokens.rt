//! The tokens of the operator, the clerks and the holders.
ghost use Rattle.std.specs.Prelude.{◌≡◌};
ghost use Rattle.std.specs.FinMap as fmap;
ghost use Rattle.sqlite.specs.Held.{state};
ghost use Rattle.mx_book.specs.Spells.{opening_rows};
ghost use Rattle.mx_book.specs.declared.values.Caller.TheVariants.{Operator};
ghost use Rattle.mx_cells.specs.Cells.{kind_text, owner_text};
ghost use Rattle.mx_tables.specs.Holds.{Holds};
ghost use Rattle.mx_tables.specs.Made.{Fresh};
ghost use Rattle.mx_tables.specs.States.{Steps, Writes, Tells};
ghost use Rattle.mx_book.specs.Reads.{who_of};

use crate::asking::{ask_one, run};
use mx_book::{Caller, StoreFault};
use mx_cells::shown::caller_in;
use mx_pay::Token;
use sqlite::{Alter, Connection, Savepoint};
use sqlite_value::value::ValueRef;

/// Whose token it is, or None where it is nobody's.
pub fn find_caller<S: Alter>(
    conn: &mut Connection<S>,
    token: &Token,
) -> Result<Option<Caller>, StoreFault>
    ensures { Tells S.Store conn.old conn.new result (λ w v. v ≡ who_of w token.now) }
{
    let row = ask_one(
        conn,
        "SELECT kind, name FROM token WHERE token = ?1",
        &[ValueRef::Text(&token.text()[..])],
    )?;
    match row {
        Some(row) => Ok(Some(caller_in(&row)?)),
        None => Ok(None),
    }
}

/// The kind of a caller, as it is stored.
fn kind_of(caller: &Caller) -> &'static str
    ensures { result.now ≡ kind_text caller.now }
{
    match caller {
        Caller::Operator => "operator",
        Caller::Clerk(_) => "clerk",
        Caller::Holder(_) => "holder",
    }
}

/// The name of a caller, as it is stored: empty for the operator.
fn owner_of(caller: &Caller) -> &str
    ensures { result.now ≡ owner_text caller.now }
{
    match caller {
        Caller::Operator => "",
        Caller::Clerk(name) | Caller::Holder(name) => name.as_str(),
    }
}

/// Adds a token.
pub fn insert_token<S: Alter>(
    tx: &mut Savepoint<'_, S>,
    token: &Token,
    caller: &Caller,
) -> Result<(), StoreFault>
    ensures writes { Writes S.Store tx.old tx.new result
        (λ r. record r { tokens = fmap.insert r.tokens token.now caller.now }) }
    ensures first { Steps S.Store tx.old tx.new result
        (λ _. Fresh (state S.Store tx.old.conn.now) → caller.now ≡ Operator
        → Holds (state S.Store tx.new.conn.now).now (opening_rows token.now)) }
{
    run(
        tx,
        "INSERT INTO token (token, kind, name) VALUES (?1, ?2, ?3)",
        &[
            ValueRef::Text(&token.text()[..]),
            ValueRef::Text(kind_of(caller).as_bytes()),
            ValueRef::Text(owner_of(caller).as_bytes()),
        ],
    )
}
