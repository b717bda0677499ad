//! Copies of tables: their rows in a new store.
ghost use Rattle.std.specs.Prelude.{◌≡◌, ◌<◌, ◌↔◌, IfErr, IfOk, IsTrue, OnOk, false, length, map};
ghost use Rattle.std.specs.List.{AllByRecursion};
ghost use Rattle.sqlite.specs.Held.{state};
ghost use Rattle.sqlite.specs.State.{HasCleanDisk};
ghost use Rattle.sqlite.specs.Values.{bound, bound_value};
ghost use Rattle.mx_book.specs.World.{World};
ghost use Rattle.mx_tables.specs.Holds.{SpellsOneIn};
ghost use Rattle.mx_tables.specs.declared.making.Version.{Version};
ghost use Rattle.mx_tables.specs.Migration.{IsWhole};
ghost use Rattle.mx_tables.specs.Made.{IsUnknown};
ghost use Rattle.mx_tables.specs.Schema.{no_schema, number_of, schema_of};
ghost use Rattle.mx_tables.specs.States.{Commits, IsAt, IsAwake, IsHonest, IsOurs, IsSound, StaysAt, StaysIdle};
ghost use Rattle.mx_tables.specs.declared.opening.OpenFault.TheVariants.{NotThisSchema};
ghost use Rattle.mx_audit.specs.Copies.{Copies, Fills, FillsTable, FillsTables, HasRaised, IsAmong, IsLent, row_text, rows_text, sources_in};
ghost use Rattle.mx_audit.specs.Scans.{ScansAt};

use crate::opening::{Refusal, as_refusal, migrate};
use crate::ordered::Ordered;
use crate::scan::{Takes, scan};
use crate::tables::SOURCES;
use crate::typed::Source;
use mx_book::StoreFault;
use mx_tables::{
    Migrated, OpenFault, Version, fault_of, find_version, is_blank, make_tables, open_fault, run,
};
use sqlite::{Alter, Connection, Error, Row, Savepoint};
use sqlite_value::value::ValueRef;
use std::alloc::Global;

/// How many tables version 1 has.
const IN_VERSION_1: usize = 11;

/// The query that shows the rows of a table with their numbers, in their order.
fn rows_text(source: Source) -> &'static str
    ensures { result.now ≡ rows_text source }
{
    match source {
        Source::Meta => "SELECT id, version FROM meta ORDER BY rowid",
        Source::Members => "SELECT rowid, name, granted, unspent FROM member ORDER BY rowid",
        Source::Holders => "SELECT rowid, name, member FROM holder ORDER BY rowid",
        Source::Tokens => "SELECT rowid, token, kind, name FROM token ORDER BY rowid",
        Source::Purses => {
            "SELECT rowid, name, holder, balance, next_number, status, details, log, line_count, next_message FROM purse ORDER BY rowid"
        }
        Source::Inbox => "SELECT rowid, purse, number, kind, details FROM inbox ORDER BY rowid",
        Source::Lines => {
            "SELECT rowid, purse, number, kind, amount, balance, note FROM line ORDER BY rowid"
        }
        Source::Tray => "SELECT rowid, purse, details FROM tray ORDER BY rowid",
        Source::Archive => "SELECT rowid, purse, details FROM archive ORDER BY rowid",
        Source::Loads => "SELECT rowid, purse, reference, amount FROM load ORDER BY rowid",
        Source::Redemptions => {
            "SELECT rowid, purse, reference, amount, collected FROM redemption ORDER BY rowid"
        }
        Source::Settled => "SELECT rowid, details FROM settled ORDER BY rowid",
    }
}

/// The statement that adds such a row.
fn row_text(source: Source) -> &'static str
    ensures { result.now ≡ row_text source }
{
    match source {
        Source::Meta => "INSERT INTO meta (id, version) VALUES (?1, ?2)",
        Source::Members => {
            "INSERT INTO member (rowid, name, granted, unspent) VALUES (?1, ?2, ?3, ?4)"
        }
        Source::Holders => "INSERT INTO holder (rowid, name, member) VALUES (?1, ?2, ?3)",
        Source::Tokens => "INSERT INTO token (rowid, token, kind, name) VALUES (?1, ?2, ?3, ?4)",
        Source::Purses => {
            "INSERT INTO purse (rowid, name, holder, balance, next_number, status, details, log, line_count, next_message) VALUES (?1, ?2, ?3, ?4, ?5, ?6, ?7, ?8, ?9, ?10)"
        }
        Source::Inbox => {
            "INSERT INTO inbox (rowid, purse, number, kind, details) VALUES (?1, ?2, ?3, ?4, ?5)"
        }
        Source::Lines => {
            "INSERT INTO line (rowid, purse, number, kind, amount, balance, note) VALUES (?1, ?2, ?3, ?4, ?5, ?6, ?7)"
        }
        Source::Tray => "INSERT INTO tray (rowid, purse, details) VALUES (?1, ?2, ?3)",
        Source::Archive => "INSERT INTO archive (rowid, purse, details) VALUES (?1, ?2, ?3)",
        Source::Loads => {
            "INSERT INTO load (rowid, purse, reference, amount) VALUES (?1, ?2, ?3, ?4)"
        }
        Source::Redemptions => {
            "INSERT INTO redemption (rowid, purse, reference, amount, collected) VALUES (?1, ?2, ?3, ?4, ?5)"
        }
        Source::Settled => "INSERT INTO settled (rowid, details) VALUES (?1, ?2)",
    }
}

/// The values of a row, as parameters. Memory where there is none.
fn values_of<'a>(alloc: Global, row: &'a Row) -> Result<Vec<ValueRef<'a>>, StoreFault>
    ensures { IfOk result (λ values. bound values.items ≡ map bound_value row.now) }
{
    let mut values = Vec::new(alloc);
    for at in 0..row.column_count() {
        match row.get_ref(at) {
            Ok(value) => values.push(value)?,
            Err(error) => return Err(fault_of(error)),
        }
    }
    Ok(values)
}

/// What adds the rows that it takes to a table, in a transaction.
#[derive(Drop)]
struct Filler<'a, 'b, S: Alter> {
    tx: &'a mut Savepoint<'b, S>,
    source: Source,
    alloc: Global,
}

impl<S: Alter> Takes for Filler<'_, '_, S> {
    ghost takes = { λ old row new. (new.source ≡ old.source)
        × Fills S.Store old.source old.tx.now row new.tx.now };

    ghost lends = { λ f. (f.tx.ghost_name, f.tx.now.conn.ghost_name, f.tx.now.at) };

    fn take(&mut self, row: &Row) -> Result<(), StoreFault> {
        let values = values_of(self.alloc, row)?;
        run(self.tx, row_text(self.source), values.as_slice())
    }
}

/// Adds the rows of a table. Memory where there is none, and Store where a statement fails otherwise.
fn fill_table<S: Alter, T: Alter>(
    alloc: Global,
    conn: &mut Connection<S>,
    tx: &mut Savepoint<'_, T>,
    source: Source,
) -> Result<(), StoreFault>
    ensures lent { IsLent T.Store tx.old tx.new }
    ensures fills { (version : _) → IsAmong version source
        → ScansAt (schema_of version) S.Store conn.old conn.new result
        (FillsTable T.Store (state S.Store conn.old).now.trees source tx.old tx.new) }
{
    let mut filler = Filler { tx, source, alloc };
    scan(conn, rows_text(source), &[], &mut filler)
}

/// Adds the rows of these tables, one table after another. A fault is that of the first that fails.
fn fill_tables<S: Alter, T: Alter>(
    alloc: Global,
    conn: &mut Connection<S>,
    tx: &mut Savepoint<'_, T>,
    sources: &[Source],
) -> Result<(), StoreFault>
    requires { 0 < length sources.now }
    ensures lent { IsLent T.Store tx.old tx.new }
    ensures fills { (version : _) → AllByRecursion (IsAmong version) sources.now
        → ScansAt (schema_of version) S.Store conn.old conn.new result
        (FillsTables T.Store (state S.Store conn.old).now.trees sources.now tx.old tx.new) }
{
    for source in sources {
        fill_table(alloc, conn, tx, *source)?;
    }
    Ok(())
}

/// Adds the rows of all tables of a version. A fault is that of the first that fails.
fn fill_all<S: Alter, T: Alter>(
    alloc: Global,
    conn: &mut Connection<S>,
    tx: &mut Savepoint<'_, T>,
    version: Version,
) -> Result<(), StoreFault>
    ensures lent { IsLent T.Store tx.old tx.new }
    ensures fills { ScansAt (schema_of version) S.Store conn.old conn.new result
        (FillsTables T.Store (state S.Store conn.old).now.trees (sources_in version)
        tx.old tx.new) }
{
    match version {
        Version::One => fill_tables(alloc, conn, tx, &SOURCES[..IN_VERSION_1]),
        Version::Two => fill_tables(alloc, conn, tx, &SOURCES),
    }
}

/// Makes the tables of a version in a new store, with the rows of another store of this version, in one transaction.
fn copy_as<S: Ordered, T: Alter>(
    alloc: Global,
    conn: &mut Connection<S>,
    to: &mut Connection<T>,
    version: Version,
) -> Result<(), StoreFault>
    requires { to.old.in_transaction ≡ false }
    ensures stays { IsAt false (schema_of version) (state S.Store conn.old)
        → StaysAt false (schema_of version) (state S.Store conn.old) (state S.Store conn.new) }
    ensures copies { IsAt false (schema_of version) (state S.Store conn.old)
        → IsSound (state S.Store conn.new) → to.old.schema ≡ no_schema
        → OnOk result (Commits (state T.Store to.old) (state T.Store to.new) result
        (Copies version (state S.Store conn.old).now (state T.Store to.new).now)) }
    ensures live { OnOk result (IsAwake (state S.Store conn.new)) }
{
    // The reader says that the tables obey their schema.
    let _schema = conn.schema();
    let mut tx = match to.savepoint() {
        Ok(tx) => tx,
        Err(error) => return Err(fault_of(error)),
    };
    if let Err(error) = make_tables(&mut tx, version) {
        return Err(fault_of(error));
    }
    fill_all(alloc, conn, &mut tx, version)?;
    match tx.commit() {
        Ok(()) => Ok(()),
        Err(error) => Err(fault_of(error)),
    }
}

/// Copies the tables of a store to a new one, all of them or none, and says of which version they are. The first is left as it
/// was. A store that has no version is refused as `find_version` does; as Store are a new one that has tables, one with an open
/// transaction, and one that refuses a statement; and for want of memory.
pub fn copy<S: Ordered, T: Alter>(
    alloc: Global,
    conn: &mut Connection<S>,
    to: &mut Connection<T>,
) -> Result<Version, OpenFault>
    ensures rests { StaysIdle (state S.Store conn.old) (state S.Store conn.new) }
    ensures stays { (v : Version) → IsAt false (schema_of v) (state S.Store conn.old)
        → OnOk result (IsAt false (schema_of v) (state S.Store conn.new)) }
    ensures live { OnOk result (IsAwake (state S.Store conn.new)) }
    ensures ours { IsSound (state S.Store conn.new) → OnOk result ((v : Version)
        → (state S.Store conn.old).now.schema ≡ schema_of v
        → IsAt false (schema_of v) (state T.Store to.new)) }
    ensures copies { IsSound (state S.Store conn.new) → IfOk result (λ version.
        IsWhole version (state S.Store conn.old).now × (HasCleanDisk (state T.Store to.new)
        → Copies version (state S.Store conn.old).now (state T.Store to.new).now)) }
    ensures spells { IsSound (state S.Store conn.new) → HasCleanDisk (state T.Store to.new)
        → OnOk result ((v : Version) (w : World) → SpellsOneIn v (state S.Store conn.old).now w
        → SpellsOneIn v (state T.Store to.new).now w) }
    ensures unknown { IsHonest (state S.Store conn.new) → IfErr result
        (λ fault. fault ≡ NotThisSchema → IsUnknown number_of (state S.Store conn.old).now) }
{
    if !conn.is_autocommit() || !to.is_autocommit() || !is_blank(to.schema()) {
        return Err(OpenFault::Store);
    }
    let version = find_version(alloc, conn)?;
    match copy_as(alloc, conn, to, version) {
        Ok(()) => Ok(version),
        Err(fault) => Err(open_fault(fault)),
    }
}

/// Whether a store has as many tables as those of version 1.
pub fn has_first_tables<S: Alter>(conn: &Connection<S>) -> bool
    ensures { IsTrue result ↔ (length (state S.Store conn.now).now.schema.tables ≡ 11) }
{
    conn.schema().tables.len() == IN_VERSION_1
}

/// Copies the tables of a store to a new one, where they are brought to version 2 as `mx_tables::migrate` does, and audited. The
/// first is left as it was. It is refused as `copy` and the audit refuse it.
pub fn raise<S: Ordered, T: Ordered>(
    alloc: Global,
    conn: &mut Connection<S>,
    to: &mut Connection<T>,
) -> Result<Migrated, Refusal>
    ensures rests { StaysIdle (state S.Store conn.old) (state S.Store conn.new) }
    ensures ours { OnOk result (IsOurs false (state T.Store to.new)) }
    ensures raises { IsSound (state S.Store conn.new) → IsSound (state T.Store to.new) → IfOk result
        (λ made. HasRaised made (state S.Store conn.old).now (state T.Store to.new).now) }
{
    match copy(alloc, conn, to) {
        Ok(_) => migrate(alloc, to),
        Err(fault) => Err(as_refusal(fault)),
    }
}
