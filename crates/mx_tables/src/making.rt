//! The making of the tables.
ghost use Rattle.std.specs.Prelude.{◌≡◌, map};
ghost use Rattle.sqlite.specs.Held.{state};
ghost use Rattle.mx_book.specs.Spells.{opening_rows};
ghost use Rattle.mx_tables.specs.Holds.{Holds};
ghost use Rattle.mx_tables.specs.Made.{AddsTable, Blank, Builds, Fresh, IsCreate, Makes};
ghost use Rattle.mx_tables.specs.Schema.{no_schema, number_of, office_schema, schema_11, schema_of, settled};
ghost use Rattle.mx_tables.specs.States.{Steps};

use crate::asking::run;
use crate::tokens::insert_token;
use mx_book::{Caller, StoreFault};
use mx_pay::Token;
use sqlite::{Alter, Error, Savepoint};

/// Makes one table.
fn make<S: Alter>(tx: &mut Savepoint<'_, S>, sql: &str) -> Result<(), Error>
    ensures { Steps S.Store tx.old tx.new result
        (λ _. (schema : _) (table : _) → IsCreate schema sql.now table
        → (state S.Store tx.old.conn.now).now.schema ≡ schema
        → AddsTable schema table
        (state S.Store tx.old.conn.now) (state S.Store tx.new.conn.now)) }
{
    match tx.execute(sql, &[]) {
        Ok(_) => Ok(()),
        Err(error) => Err(error),
    }
}

/// The statements that make the tables, in the order of the schema.
const TABLES: [&str; 12] = [
    "CREATE TABLE meta (id INTEGER PRIMARY KEY, version INTEGER NOT NULL) STRICT",
    "CREATE TABLE member (name TEXT NOT NULL PRIMARY KEY, granted INTEGER NOT NULL, unspent INTEGER NOT NULL) STRICT",
    "CREATE TABLE token (token TEXT NOT NULL PRIMARY KEY, kind TEXT NOT NULL, name TEXT NOT NULL, UNIQUE (kind, name)) STRICT",
    "CREATE TABLE holder (name TEXT NOT NULL PRIMARY KEY, member TEXT NOT NULL REFERENCES member (name)) STRICT",
    "CREATE TABLE purse (name TEXT NOT NULL PRIMARY KEY, holder TEXT NOT NULL REFERENCES holder (name), balance INTEGER NOT NULL, next_number INTEGER NOT NULL, status TEXT NOT NULL, details TEXT NOT NULL, log TEXT NOT NULL, line_count INTEGER NOT NULL, next_message INTEGER NOT NULL) STRICT",
    "CREATE TABLE inbox (purse TEXT NOT NULL, number INTEGER NOT NULL, kind TEXT NOT NULL, details TEXT NOT NULL, PRIMARY KEY (purse, number)) STRICT",
    "CREATE TABLE line (purse TEXT NOT NULL, number INTEGER NOT NULL, kind TEXT NOT NULL, amount INTEGER NOT NULL, balance INTEGER NOT NULL, note TEXT NOT NULL, PRIMARY KEY (purse, number)) STRICT",
    "CREATE TABLE tray (purse TEXT NOT NULL, details TEXT NOT NULL, PRIMARY KEY (purse, details)) STRICT",
    "CREATE TABLE archive (purse TEXT NOT NULL, details TEXT NOT NULL, PRIMARY KEY (purse, details)) STRICT",
    "CREATE TABLE load (purse TEXT NOT NULL, reference TEXT NOT NULL, amount INTEGER NOT NULL, PRIMARY KEY (purse, reference)) STRICT",
    "CREATE TABLE redemption (purse TEXT NOT NULL, reference TEXT NOT NULL, amount INTEGER NOT NULL, collected INTEGER NOT NULL, PRIMARY KEY (purse, reference)) STRICT",
    "CREATE TABLE settled (details TEXT NOT NULL PRIMARY KEY) STRICT",
];

/// How many of them version 1 had.
const IN_VERSION_1: usize = 11;

/// A version of the schema.
#[derive(Clone, Copy)]
pub enum Version {
    /// All tables but that of the settled details.
    One,
    /// All tables.
    Two,
}

impl Version {
    /// Its number, which stands in `meta`.
    pub fn number(self) -> u64
        ensures { result ≡ number_of self }
    {
        match self {
            Version::One => 1,
            Version::Two => 2,
        }
    }
}

/// Makes one table after another.
fn make_each<S: Alter>(tx: &mut Savepoint<'_, S>, texts: &[&str]) -> Result<(), Error>
    ensures { Steps S.Store tx.old tx.new result
        (λ _. (before after : _) → Makes before (map (λ s. s.now) texts.now) after
        → Blank before (state S.Store tx.old.conn.now)
        → Blank after (state S.Store tx.new.conn.now)) }
{
    for sql in texts {
        make(tx, sql)?;
    }
    Ok(())
}

/// Makes all tables of a version.
pub fn make_tables<S: Alter>(tx: &mut Savepoint<'_, S>, version: Version) -> Result<(), Error>
    ensures { Builds S.Store tx.old tx.new result no_schema (schema_of version) }
{
    match version {
        Version::One => make_each(tx, &TABLES[..IN_VERSION_1]),
        Version::Two => make_each(tx, &TABLES),
    }
}

/// Makes the table that only version 2 has.
pub fn make_settled<S: Alter>(tx: &mut Savepoint<'_, S>) -> Result<(), Error>
    ensures { Steps S.Store tx.old tx.new result
        (λ _. (state S.Store tx.old.conn.now).now.schema ≡ schema_11
        → AddsTable schema_11 settled (state S.Store tx.old.conn.now)
        (state S.Store tx.new.conn.now)) }
{
    make(tx, TABLES[IN_VERSION_1])
}

/// Adds the row of `meta`.
fn insert_meta<S: Alter>(tx: &mut Savepoint<'_, S>) -> Result<(), StoreFault>
    ensures { Steps S.Store tx.old tx.new result
        (λ _. Blank office_schema (state S.Store tx.old.conn.now)
        → Fresh (state S.Store tx.new.conn.now)) }
{
    run(tx, "INSERT INTO meta (id, version) VALUES (1, 2)", &[])
}

/// Adds the row of `meta` and the operator's token.
pub fn fill<S: Alter>(tx: &mut Savepoint<'_, S>, operator: &Token) -> Result<(), StoreFault>
    ensures { Steps S.Store tx.old tx.new result
        (λ _. Blank office_schema (state S.Store tx.old.conn.now)
        → Holds (state S.Store tx.new.conn.now).now (opening_rows operator.now)) }
{
    insert_meta(tx)?;
    insert_token(tx, operator, &Caller::Operator)
}
