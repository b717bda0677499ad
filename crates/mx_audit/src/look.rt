//! What has to be looked up once all rows were gone over.
ghost use Rattle.std.specs.Prelude.{◌≡◌, ◌↔◌, true};
ghost use Rattle.std.specs.List.{list_all};
ghost use Rattle.sqlite.specs.Held.{state};
ghost use Rattle.mx_pay.specs.Log.{has_logged};
ghost use Rattle.mx_book.specs.RowEdits.{log_at};
ghost use Rattle.mx_book.specs.RowReads.{row_is_archived};
ghost use Rattle.mx_tables.specs.Answers.{ArePurses};
ghost use Rattle.mx_tables.specs.Results.{AreDetails};
ghost use Rattle.mx_tables.specs.States.{IsAwake, Reads};
ghost use Rattle.mx_audit.specs.Audited.{is_laid_well};

use crate::findings::{Findings, Subject, Wrong};
use mx_book::{PurseRow, StoreFault};
use mx_pay::{Name, PayDetails};
use mx_tables::{find_archived, find_purse};
use sqlite::{Alter, Connection};
use std::alloc::Global;

/// Whether details are in the log of a purse.
#[tactic(auto, using(mx_tables::proofs::CountedSums::nothing_logged))]
fn is_logged(purse: &Option<PurseRow>, details: &PayDetails) -> bool
    ensures { result ≡ has_logged (log_at purse.now) details.now }
{
    match purse {
        Some(row) => row.purse.log().has(details),
        None => false,
    }
}

/// Whether a result that lies in the tray of a purse is an entry of its log, and isn't archived. It tells where it isn't
/// so. Memory where there is none. Store where a query fails otherwise, or the row of the purse shows none.
fn is_laid_well<S: Alter>(
    alloc: Global,
    conn: &mut Connection<S>,
    findings: &mut Findings,
    purse: &Name,
    details: &PayDetails,
) -> Result<bool, StoreFault>
    ensures { Reads S.Store conn.old conn.new result
        (λ r well. ArePurses r → AreDetails r.archive
        → well ≡ is_laid_well r (purse.now, details.now)) }
{
    let row = find_purse(conn, purse)?;
    if !is_logged(&row, details) {
        findings.tell(
            &Subject::Laid(*purse, *details),
            &Wrong::Told("not in the purse's log"),
        )?;
        return Ok(false);
    }
    let archived = find_archived(alloc, conn, purse, details)?;
    if archived {
        findings.tell(
            &Subject::Laid(*purse, *details),
            &Wrong::Told("it is archived"),
        )?;
    }
    Ok(!archived)
}

/// How many of these results that lie in trays are no entry of their purse's log, or are archived for it. Each is told. Memory where
/// there is none. Store where a query fails otherwise, or the row of a purse shows none. The connection was found open.
pub fn look_up_laid<S: Alter>(
    alloc: Global,
    conn: &mut Connection<S>,
    findings: &mut Findings,
    laid: &[(Name, PayDetails)],
) -> Result<u64, StoreFault>
    ensures { IsAwake (state S.Store conn.old) → Reads S.Store conn.old conn.new result
        (λ r found. ArePurses r → AreDetails r.archive
        → (found ≡ 0 ↔ list_all (is_laid_well r) laid.now ≡ true)) }
{
    let mut found: u64 = 0;
    for (purse, details) in laid {
        let well = is_laid_well(alloc, conn, findings, purse, details)?;
        if !well {
            found = found.saturating_add(1);
        }
    }
    Ok(found)
}

/// How many of these results, which clears in inboxes would clear, aren't archived for their purse. Each is told. Memory
/// where there is none. Store where a query fails otherwise. The connection was found open.
pub fn look_up_cleared<S: Alter>(
    alloc: Global,
    conn: &mut Connection<S>,
    findings: &mut Findings,
    cleared: &[(Name, PayDetails)],
) -> Result<u64, StoreFault>
    ensures { IsAwake (state S.Store conn.old) → Reads S.Store conn.old conn.new result
        (λ r found. AreDetails r.archive
        → (found ≡ 0 ↔ list_all (λ e. row_is_archived r e.0 e.1) cleared.now ≡ true)) }
{
    let mut found: u64 = 0;
    for (purse, details) in cleared {
        let archived = find_archived(alloc, conn, purse, details)?;
        if !archived {
            found = found.saturating_add(1);
            findings.tell(&Subject::Named("purse", *purse), &Wrong::Clears(*details))?;
        }
    }
    Ok(found)
}
