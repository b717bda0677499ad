//! The results of read log in the tray and in the archive.
ghost use Rattle.std.specs.Prelude.{◌≡◌, IfOk, is_ok, true};
ghost use Rattle.std.specs.FinMap as fmap;
ghost use Rattle.sqlite.specs.Held.{state};
ghost use Rattle.mx_book.specs.RowEdits.{rewritten};
ghost use Rattle.mx_book.specs.RowReads.{row_is_archived};
ghost use Rattle.mx_book.specs.declared.edits.Edit.TheVariants.{ArchiveTray};
ghost use Rattle.mx_tables.specs.Results.{Archives, AreDetails, Shows, ShowsOnce};
ghost use Rattle.mx_tables.specs.Schema.{office_schema};
ghost use Rattle.mx_tables.specs.States.{Asks, Steps, Tells, Writes};
ghost use Rattle.mx_book.specs.Reads.{tray_of};

use crate::asking::{ask, ask_inside, ask_one, run};
use crate::given;
use mx_book::StoreFault;
use mx_cells::cells::{entry_at, text_at};
use mx_cells::codes::entry_code;
use mx_pay::{Log, Name, PayDetails};
use sqlite::{Alter, Connection, Row, Savepoint};
use std::alloc::Global;

/// Adds a result to the tray of a purse.
pub fn insert_tray<S: Alter>(
    alloc: Global,
    tx: &mut Savepoint<'_, S>,
    purse: &Name,
    details: &PayDetails,
) -> Result<(), StoreFault>
    ensures { Writes S.Store tx.old tx.new result
        (λ r. record r { tray = fmap.insert r.tray (purse.now, details.now) tt }) }
{
    let text = entry_code(alloc, details)?;
    run(
        tx,
        "INSERT INTO tray (purse, details) VALUES (?1, ?2)",
        &[given::text(purse.as_str()), given::text(&text)],
    )
}

/// Whether details are archived for a purse.
pub fn find_archived<S: Alter>(
    alloc: Global,
    conn: &mut Connection<S>,
    purse: &Name,
    details: &PayDetails,
) -> Result<bool, StoreFault>
    ensures { Asks S.Store conn.old conn.new result
        (λ r b. AreDetails r.archive → b ≡ row_is_archived r purse.now details.now) }
{
    let text = entry_code(alloc, details)?;
    let row = ask_one(
        conn,
        "SELECT 1 FROM archive WHERE purse = ?1 AND details = ?2",
        &[given::text(purse.as_str()), given::text(&text)],
    )?;
    Ok(row.is_some())
}

/// The log of what rows show.
fn log_in(rows: &[Row]) -> Result<Log, StoreFault>
    ensures is { IfOk result (λ log. Shows log rows.now) }
    ensures there { (log : _) → ShowsOnce log rows.now → is_ok result ≡ true }
{
    let mut log = Log::new();
    for row in rows {
        let details = entry_at(row, 0)?;
        if !log.add(details) {
            return Err(StoreFault::Store);
        }
    }
    Ok(log)
}

/// The results in the tray of a purse.
pub fn list_tray<S: Alter>(conn: &mut Connection<S>, purse: &Name) -> Result<Log, StoreFault>
    ensures { Tells S.Store conn.old conn.new result (λ w log. log ≡ tray_of w purse.now) }
{
    let rows = ask(
        conn,
        "SELECT details FROM tray WHERE purse = ?1",
        &[given::text(purse.as_str())],
    )?;
    log_in(&rows)
}

/// Adds what these rows show to the archive of a purse.
fn archive_rows<S: Alter>(
    tx: &mut Savepoint<'_, S>,
    purse: &Name,
    rows: &[Row],
) -> Result<(), StoreFault>
    ensures { Steps S.Store tx.old tx.new result
        (λ _. (state S.Store tx.old.conn.now).now.schema ≡ office_schema
        → Archives purse.now rows.now (state S.Store tx.old.conn.now)
        (state S.Store tx.new.conn.now)) }
{
    for row in rows {
        let Some(text) = text_at(row, 0) else {
            return Err(StoreFault::Store);
        };
        run(
            tx,
            "INSERT INTO archive (purse, details) VALUES (?1, ?2)",
            &[given::text(purse.as_str()), given::text(text)],
        )?;
    }
    Ok(())
}

/// Moves what is in the tray of a purse to the archive.
pub fn archive_tray<S: Alter>(tx: &mut Savepoint<'_, S>, purse: &Name) -> Result<(), StoreFault>
    ensures { Writes S.Store tx.old tx.new result (λ r. rewritten r (ArchiveTray purse.now)) }
{
    let rows = ask_inside(
        tx,
        "SELECT details FROM tray WHERE purse = ?1",
        &[given::text(purse.as_str())],
    )?;
    archive_rows(tx, purse, &rows)?;
    run(
        tx,
        "DELETE FROM tray WHERE purse = ?1",
        &[given::text(purse.as_str())],
    )
}
