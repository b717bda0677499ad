//! New tables, and tables that are there.
ghost use Rattle.std.specs.Prelude.{◌≡◌, ◌≢◌, IfErr, IfOk, IsTrue, OnOk, codes, false, filter, map, pos, None};
ghost use Rattle.std.specs.List.Sorted.{IsPermutation};
ghost use Rattle.sqlite.specs.Held.{state};
ghost use Rattle.sqlite.specs.State.{HasCleanDisk};
ghost use Rattle.sqlite_schema.specs.Names.{table_named};
ghost use Rattle.sqlite_trees.specs.Tree.{has_rowid};
ghost use Rattle.mx_book.specs.Spells.{opening_rows};
ghost use Rattle.mx_tables.specs.Holds.{Holds};
ghost use Rattle.mx_tables.specs.Made.{Blank, HasOnly, HasVersion, IsUnknown, version_shown};
ghost use Rattle.mx_tables.specs.Schema.{no_schema, schema_of};
ghost use Rattle.mx_tables.specs.States.{Commits, IsAt, IsOurs, StaysAt, StaysIdle, Steps, IsHonest, IsSound};
ghost use Rattle.mx_tables.specs.declared.opening.OpenFault.TheVariants.{NotThisSchema};

use crate::asking::ask;
use crate::making::{Version, fill, make_tables};
use crate::same::same_schema;
use mx_book::StoreFault;
use mx_cells::cells::number_at;
use mx_pay::Token;
use sqlite::{Alter, Connection, Error, ErrorCode, Row, Savepoint};
use sqlite_schema::schema::Schema;
use sqlite_trees::memory::MemStore;
use std::alloc::Global;

/// Why tables were not made or not opened.
#[derive(Clone, Copy, Debug, PartialEq, Eq)]
pub enum OpenFault {
    /// There is no memory.
    Memory,
    /// The store refused a statement, or its schema is another one.
    Store,
    /// The tables can't be made beside those that are there, or `meta` hasn't a version that is asked for.
    NotThisSchema,
}

/// Why a store was refused, and the store.
#[derive(Drop)]
pub struct OpenRefused<S: Alter> {
    /// Why.
    pub fault: OpenFault,
    /// The store, as it was.
    pub store: Connection<S>,
}

/// The same cause, of a call that opens.
pub fn open_fault(fault: StoreFault) -> OpenFault
    ensures { result ≢ NotThisSchema }
{
    match fault {
        StoreFault::Memory => OpenFault::Memory,
        StoreFault::Store => OpenFault::Store,
    }
}

/// Why a CREATE failed: a schema that isn't empty may refuse it.
fn refused_create(blank: bool, error: Error) -> OpenFault
    ensures { IsTrue blank → result ≢ NotThisSchema }
{
    match error {
        Error::SqliteFailure(ErrorCode::OutOfMemory) => OpenFault::Memory,
        Error::SqlInputError(_)
        | Error::SqliteFailure(
            ErrorCode::NameTaken
            | ErrorCode::BadName
            | ErrorCode::BadKey
            | ErrorCode::BadText
            | ErrorCode::SchemaTooBig,
        ) if !blank => OpenFault::NotThisSchema,
        _ => OpenFault::Store,
    }
}

/// Whether there is nothing in a schema.
pub fn is_blank(schema: &Schema) -> bool
    ensures blank { IsTrue result → schema.now ≡ no_schema }
    ensures other { result ≡ false → schema.now ≢ no_schema }
{
    schema.tables.is_empty() && schema.indexes.is_empty() && schema.views.is_empty()
}

/// Makes the tables, the row of `meta` and the operator's token. Beside other tables it is a fault.
fn make_all<S: Alter>(
    tx: &mut Savepoint<'_, S>,
    blank: bool,
    operator: &Token,
) -> Result<(), OpenFault>
    ensures steps { Steps S.Store tx.old tx.new result
        (λ _. IsTrue blank × (Blank no_schema (state S.Store tx.old.conn.now)
        → Holds (state S.Store tx.new.conn.now).now (opening_rows operator.now))) }
    ensures taken { IsTrue blank → IfErr result (λ fault. fault ≢ NotThisSchema) }
{
    if let Err(error) = make_tables(tx, Version::Two) {
        return Err(refused_create(blank, error));
    }
    if !blank {
        return Err(OpenFault::Store);
    }
    match fill(tx, operator) {
        Ok(()) => Ok(()),
        Err(fault) => Err(open_fault(fault)),
    }
}

/// Makes the tables, the row of `meta` and the operator's token in one transaction, or nothing.
pub(crate) fn make_office<S: Alter>(
    conn: &mut Connection<S>,
    operator: &Token,
) -> Result<(), OpenFault>
    requires idle { conn.old.in_transaction ≡ false }
    requires steady { IsTrue (state S.Store conn.old).is_open
        → (state S.Store conn.old).now ≡ (state S.Store conn.old).committed }
    ensures commits { Commits (state S.Store conn.old) (state S.Store conn.new) result
        (Holds (state S.Store conn.new).now (opening_rows operator.now)) }
    ensures taken { IfErr result
        (λ fault. fault ≡ NotThisSchema → (state S.Store conn.old).now.schema ≢ no_schema) }
{
    let blank = is_blank(conn.schema());
    let mut tx = match conn.savepoint() {
        Ok(tx) => tx,
        Err(error) => return Err(refused_create(true, error)),
    };
    make_all(&mut tx, blank, operator)?;
    match tx.commit() {
        Ok(()) => Ok(()),
        Err(error) => Err(refused_create(true, error)),
    }
}

/// A connection in memory with the tables of a version and no row.
fn model_of(alloc: Global, version: Version) -> Result<Connection<MemStore>, OpenFault>
    ensures schema { IfOk result (λ c. c.schema ≡ schema_of version) }
    ensures fault { IfErr result (λ fault. fault ≢ NotThisSchema) }
{
    let Ok(mut conn) = Connection::open_in_memory(alloc) else {
        return Err(OpenFault::Memory);
    };
    let mut tx = match conn.savepoint() {
        Ok(tx) => tx,
        Err(error) => return Err(refused_create(true, error)),
    };
    if let Err(error) = make_tables(&mut tx, version) {
        return Err(refused_create(true, error));
    }
    match tx.commit() {
        Ok(()) => Ok(conn),
        Err(error) => Err(refused_create(true, error)),
    }
}

/// Whether a schema is that of a version.
fn is_version(alloc: Global, schema: &Schema, version: Version) -> Result<bool, OpenFault>
    ensures same { IfOk result (λ same. IsTrue same → schema.now ≡ schema_of version) }
    ensures fault { IfErr result (λ fault. fault ≢ NotThisSchema) }
{
    let model = model_of(alloc, version)?;
    match same_schema(alloc, schema, model.schema()) {
        Ok(same) => Ok(same),
        Err(_) => Err(OpenFault::Memory),
    }
}

/// The version whose schema this is. Another schema is Store where it has a table `meta`, and else NotThisSchema.
pub(crate) fn version_of(alloc: Global, schema: &Schema) -> Result<Version, OpenFault>
    ensures same { IfOk result (λ version. schema.now ≡ schema_of version) }
    ensures unknown { IfErr result
        (λ fault. fault ≡ NotThisSchema → table_named schema.now (codes "meta") ≡ None) }
{
    if is_version(alloc, schema, Version::Two)? {
        return Ok(Version::Two);
    }
    if is_version(alloc, schema, Version::One)? {
        return Ok(Version::One);
    }
    match schema.table_named("meta".as_bytes()) {
        Some(_) => Err(OpenFault::Store),
        None => Err(OpenFault::NotThisSchema),
    }
}

/// The version that `meta` has, in the rows of id 1.
fn version_rows<S: Alter>(conn: &mut Connection<S>) -> Result<Vec<Row>, StoreFault>
    ensures stays { (schema : _) → IsAt false schema (state S.Store conn.old)
        → StaysAt false schema (state S.Store conn.old) (state S.Store conn.new) }
    ensures rows { (version : _) → IsSound (state S.Store conn.new)
        → (state S.Store conn.old).now.schema ≡ schema_of version → IfOk result
        (λ rows. IsPermutation
        (map version_shown (filter (has_rowid (pos 1))
        ((state S.Store conn.old).now.trees 0))) rows.items) }
    ensures live { HasCleanDisk (state S.Store conn.new)
        → OnOk result (IsTrue (state S.Store conn.new).is_open) }
{
    ask(conn, "SELECT version FROM meta WHERE id = 1", &[])
}

/// The only version that `meta` has; NotThisSchema exactly where it has none.
pub(crate) fn version_number<S: Alter>(conn: &mut Connection<S>) -> Result<u64, OpenFault>
    ensures stays { (schema : _) → IsAt false schema (state S.Store conn.old)
        → StaysAt false schema (state S.Store conn.old) (state S.Store conn.new) }
    ensures known { (version : _) → IsSound (state S.Store conn.new)
        → (state S.Store conn.old).now.schema ≡ schema_of version
        → IfOk result (λ n. HasOnly n (state S.Store conn.old).now) }
    ensures unknown { (version : _) → IsHonest (state S.Store conn.new)
        → (state S.Store conn.old).now.schema ≡ schema_of version → IfErr result
        (λ fault. fault ≡ NotThisSchema → (n : _) → ¬ HasVersion n (state S.Store conn.old).now) }
    ensures live { HasCleanDisk (state S.Store conn.new)
        → OnOk result (IsTrue (state S.Store conn.new).is_open) }
{
    let rows = match version_rows(conn) {
        Ok(rows) => rows,
        Err(fault) => return Err(open_fault(fault)),
    };
    match rows.as_slice() {
        [] => Err(OpenFault::NotThisSchema),
        [row] => match number_at(row, 0) {
            Ok(number) => Ok(number),
            Err(fault) => Err(open_fault(fault)),
        },
        _ => Err(OpenFault::Store),
    }
}

/// Whether the version that `meta` has is 2; NotThisSchema exactly where it isn't, or isn't there. Tables of version 1
/// where it is 2 are Store.
fn check_version<S: Alter>(conn: &mut Connection<S>, version: Version) -> Result<(), OpenFault>
    ensures stays { (schema : _) → IsAt false schema (state S.Store conn.old)
        → StaysAt false schema (state S.Store conn.old) (state S.Store conn.new) }
    ensures ours { IsAt false (schema_of version) (state S.Store conn.old)
        → OnOk result (IsOurs false (state S.Store conn.new)) }
    ensures known { IsSound (state S.Store conn.new)
        → (state S.Store conn.old).now.schema ≡ schema_of version
        → OnOk result (HasVersion 2 (state S.Store conn.old).now) }
    ensures unknown { IsHonest (state S.Store conn.new)
        → (state S.Store conn.old).now.schema ≡ schema_of version → IfErr result
        (λ fault. fault ≡ NotThisSchema → ¬ HasVersion 2 (state S.Store conn.old).now) }
    ensures live { HasCleanDisk (state S.Store conn.new)
        → OnOk result (IsTrue (state S.Store conn.new).is_open) }
{
    match version_number(conn) {
        Ok(2) if matches!(version, Version::Two) => Ok(()),
        Ok(2) => Err(OpenFault::Store),
        Ok(_) => Err(OpenFault::NotThisSchema),
        Err(fault) => Err(fault),
    }
}

/// Whether a store has the tables of the office, and `meta` the version 2.
pub(crate) fn check_office<S: Alter>(
    alloc: Global,
    conn: &mut Connection<S>,
) -> Result<(), OpenFault>
    requires idle { conn.old.in_transaction ≡ false }
    requires steady { IsTrue (state S.Store conn.old).is_open
        → (state S.Store conn.old).now ≡ (state S.Store conn.old).committed }
    ensures ours { OnOk result (IsOurs false (state S.Store conn.new)) }
    ensures rests { StaysIdle (state S.Store conn.old) (state S.Store conn.new) }
    ensures known { IsSound (state S.Store conn.new)
        → OnOk result (HasVersion 2 (state S.Store conn.old).now) }
    ensures unknown { IsHonest (state S.Store conn.new) → IfErr result
        (λ fault. fault ≡ NotThisSchema → IsUnknown (λ _. 2) (state S.Store conn.old).now) }
    ensures live { HasCleanDisk (state S.Store conn.new)
        → OnOk result (IsTrue (state S.Store conn.new).is_open) }
{
    let version = version_of(alloc, conn.schema())?;
    check_version(conn, version)
}
