//! The rows of a query, handed on one at a time.
ghost use Rattle.std.specs.Prelude.{Bool, ◌≡◌, ℕ, List, OnOk};
ghost use Rattle.sqlite_schema.specs.declared.schema.Schema.{Schema};
ghost use Rattle.sqlite.specs.Given.{Advances, IsPlain, row_if};
ghost use Rattle.sqlite.specs.Held.{state};
ghost use Rattle.sqlite.specs.Listing.{understood};
ghost use Rattle.sqlite.specs.State.{IsUnchanged, Shown};
ghost use Rattle.sqlite.specs.Values.{bound};
ghost use Rattle.sqlite_value.specs.Order as order;
ghost use Rattle.mx_tables.specs.States.{IsAt, IsAwake, IsSilent, StaysAt, IsSound};
ghost use Rattle.mx_audit.specs.Scans.{ScansAt, TakesAll};

use mx_book::StoreFault;
use mx_tables::fault_of;
use sqlite::{Alter, Connection, Row, Rows};
use sqlite_value::value::ValueRef;

/// What takes rows one at a time.
pub trait Takes {
    /// What it becomes by a row that it takes.
    ghost takes: { Self → order.Row → Self → Type 0 };

    /// The savepoint that it holds, where it holds one: the reference to that, its connection and its place.
    ghost lends: { Self → ℕ × ℕ × ℕ } = { λ _. (0, 0, 0) };

    /// Takes one more row. After a fault nothing is said of it, but that it holds the same savepoint.
    fn take(&mut self, row: &Row) -> Result<(), StoreFault>
        ensures takes { OnOk result (takes self.old row.now self.new) }
        ensures lends { lends self.new ≡ lends self.old };
}

/// Moves to the next row of a query, or past the last. Memory where there is none, and Store where it fails otherwise.
fn next<S: Alter>(rows: &mut Rows<'_, S>) -> Result<(), StoreFault>
    ensures same_reference { rows.new.conn.ghost_name ≡ rows.old.conn.ghost_name }
    ensures stays { (begun : Bool) (of : Schema) → IsAt begun of (state S.Store rows.old.conn.now)
        → StaysAt begun of (state S.Store rows.old.conn.now) (state S.Store rows.new.conn.now) }
    ensures shown { IsSound (state S.Store rows.new.conn.now)
        → OnOk result (Advances S.Store rows.old.conn.now rows.new.conn.now
        (row_if rows.new.has_row rows.new.conn.now)) }
    ensures same { IsSound (state S.Store rows.new.conn.now)
        → OnOk result (IsUnchanged (state S.Store rows.old.conn.now)
        (state S.Store rows.new.conn.now)) }
    ensures live { OnOk result (IsAwake (state S.Store rows.new.conn.now)) }
{
    match rows.advance() {
        Ok(()) => Ok(()),
        Err(error) => Err(fault_of(error)),
    }
}

/// Hands all rows of a query with these parameters to a taker, one at a time. Those behind one that it could not take are not asked for.
/// Memory where there is none. Store where the query fails otherwise, or after 2^64 - 1 rows. Else the taker's fault.
pub fn scan<S: Alter, T: Takes>(
    conn: &mut Connection<S>,
    sql: &str,
    params: &[ValueRef<'_>],
    taker: &mut T,
) -> Result<(), StoreFault>
    requires { IsSilent sql.now }
    ensures lends { T.lends taker.new ≡ T.lends taker.old }
    ensures scans { (of : Schema) → IsPlain (understood of sql.now)
        → ScansAt of S.Store conn.old conn.new result ((rows : List order.Row)
        × Shown sql.now (bound params.now) (state S.Store conn.old) (state S.Store conn.new) rows
        × TakesAll T.takes taker.old rows taker.new) }
{
    let mut rows = match conn.query(sql, params) {
        Ok(rows) => rows,
        Err(error) => return Err(fault_of(error)),
    };
    for _ in 0..u64::MAX {
        next(&mut rows)?;
        let Some(row) = rows.get() else {
            return Ok(());
        };
        taker.take(row)?;
    }
    Err(StoreFault::Store)
}
