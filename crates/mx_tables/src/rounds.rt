//! Rounds over a connection: changes in one transaction, which is committed at the end of the round.
ghost use Rattle.std.specs.Prelude.{◌≡◌, false};
ghost use Rattle.sqlite.specs.Held.{state};
ghost use Rattle.mx_tables.specs.Rounds.{Begins, Ends};

use crate::asking::fault_of;
use mx_book::StoreFault;
use sqlite::{Alter, Connection};

/// Begins the transaction of a round that has begun no transaction yet.
fn begin_new<S: Alter>(conn: &mut Connection<S>, begun: &mut bool) -> Result<(), StoreFault>
    requires { begun.old ≡ false }
    ensures { Begins begun.old (state S.Store conn.old) begun.new (state S.Store conn.new) result }
{
    let statement = match conn.prepare("BEGIN") {
        Ok(statement) => statement,
        Err(error) => return Err(fault_of(error)),
    };
    let done = statement.execute(conn, &[]);
    *begun = !conn.is_autocommit();
    match done {
        Ok(_) => Ok(()),
        Err(error) => Err(fault_of(error)),
    }
}

/// Has a round begin where none has. A round whose transaction a fault has ended is to change nothing more.
pub fn begin<S: Alter>(conn: &mut Connection<S>, begun: &mut bool) -> Result<(), StoreFault>
    ensures { Begins begun.old (state S.Store conn.old) begun.new (state S.Store conn.new) result }
{
    if !*begun {
        return begin_new(conn, begun);
    }
    if conn.is_autocommit() {
        return Err(StoreFault::Store);
    }
    Ok(())
}

/// Ends a round: commits what it changed, where it changed something. One that a fault has undone is a fault.
pub fn end<S: Alter>(conn: &mut Connection<S>, begun: bool) -> Result<(), StoreFault>
    ensures { Ends begun (state S.Store conn.old) (state S.Store conn.new) result }
{
    let statement = match conn.prepare("COMMIT") {
        Ok(statement) => statement,
        Err(error) => return Err(fault_of(error)),
    };
    if !begun {
        return Ok(());
    }
    if conn.is_autocommit() {
        return Err(StoreFault::Store);
    }
    match statement.execute(conn, &[]) {
        Ok(_) => Ok(()),
        Err(error) => Err(fault_of(error)),
    }
}
