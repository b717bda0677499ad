//! The settled details: those of payments whose lost value came back.
ghost use Rattle.std.specs.Prelude.{◌≡◌};
ghost use Rattle.mx_book.specs.Conditions.{AreSettled};
ghost use Rattle.mx_book.specs.RowEdits.{rewritten};
ghost use Rattle.mx_book.specs.RowReads.{row_is_settled};
ghost use Rattle.mx_book.specs.declared.edits.Edit.TheVariants.{AddSettled};
ghost use Rattle.mx_tables.specs.States.{Asks, Writes};

use crate::asking::{ask_one, run};
use crate::given;
use mx_book::StoreFault;
use mx_cells::codes::entry_code;
use mx_pay::PayDetails;
use sqlite::{Alter, Connection, Savepoint};
use std::alloc::Global;

/// Adds details to those that are settled.
pub fn insert_settled<S: Alter>(
    alloc: Global,
    tx: &mut Savepoint<'_, S>,
    details: &PayDetails,
) -> Result<(), StoreFault>
    ensures { Writes S.Store tx.old tx.new result (λ r. rewritten r (AddSettled details.now)) }
{
    let text = entry_code(alloc, details)?;
    run(
        tx,
        "INSERT INTO settled (details) VALUES (?1)",
        &[given::text(&text)],
    )
}

/// Whether details are settled.
pub fn find_settled<S: Alter>(
    alloc: Global,
    conn: &mut Connection<S>,
    details: &PayDetails,
) -> Result<bool, StoreFault>
    ensures { Asks S.Store conn.old conn.new result
        (λ r b. AreSettled r.settled → b ≡ row_is_settled r details.now) }
{
    let text = entry_code(alloc, details)?;
    let row = ask_one(
        conn,
        "SELECT 1 FROM settled WHERE details = ?1",
        &[given::text(&text)],
    )?;
    Ok(row.is_some())
}
