//! What is printed of an import.
ghost use Rattle.std.specs.Prelude.{◌≡◌, IfOk, string_bytes};
ghost use Rattle.mx_tasks.specs.Texts.{counts_text, import_text, numbered_line, reason_text, row_line};

use mx_report::{RefusedRow, RollReason, RollReport};
use std::alloc::{AllocError, Global};

/// Why a row is refused.
fn reason_text(reason: &RollReason) -> &'static str
    ensures { result.now ≡ reason_text reason.now }
{
    match reason {
        RollReason::BadRow => "bad row",
        RollReason::Refused(refusal) => refusal.text(),
    }
}

/// The line of a row of that number, which was refused for that reason.
fn numbered_line(alloc: Global, number: u64, reason: &str) -> Result<String, AllocError>
    ensures { IfOk result (λ line. string_bytes line ≡ numbered_line number reason.now) }
{
    format!(in alloc; "row {number}: {reason}\n")
}

/// The line of a row that was refused.
fn row_line(alloc: Global, row: &RefusedRow) -> Result<String, AllocError>
    ensures { IfOk result (λ line. string_bytes line ≡ row_line row.now) }
{
    numbered_line(alloc, row.number, reason_text(&row.reason))
}

/// How many rows were added, stood already, and were refused.
fn counts_text(alloc: Global, added: u64, same: u64, refused: usize) -> Result<String, AllocError>
    ensures { IfOk result (λ text. string_bytes text ≡ counts_text added same refused) }
{
    format!(in alloc; "added {added}\nsame {same}\nrefused {refused}\n")
}

/// The lines that tell of an import: how many rows were added, stood already and were refused, and a line for each that
/// was refused, with its number and why. An error is lack of memory.
pub fn import_text(alloc: Global, summary: &RollReport) -> Result<String, AllocError>
    ensures { IfOk result (λ text. string_bytes text ≡ import_text summary.now) }
{
    let rows = summary.refused.as_slice();
    let mut text = counts_text(alloc, summary.added, summary.same, rows.len())?;
    for row in rows {
        let line = row_line(alloc, row)?;
        text.push_str(line.as_str())?;
    }
    Ok(text)
}
