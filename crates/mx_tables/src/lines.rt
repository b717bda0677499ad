//! The lines of the statements of purses.
ghost use Rattle.std.specs.Prelude.{Bool, ◌≡◌, IfErr, IfOk, IfSome, OnOk, string_bytes};
ghost use Rattle.std.specs.FinMap as fmap;
ghost use Rattle.sqlite.specs.Held.{state};
ghost use Rattle.mx_book.specs.Conditions.{IsNote};
ghost use Rattle.mx_book.specs.Rows.{line_row};
ghost use Rattle.mx_book.specs.Words as words;
ghost use Rattle.mx_tables.specs.Pages.{FailsToGive, GivesLine};
ghost use Rattle.mx_tables.specs.States.{IsAwake, IsOurs, Stays, Writes, Tells, IsSound};
ghost use Rattle.mx_book.specs.Reads.{lines_of};

use crate::asking::{fault_of, find_live, run};
use crate::given::{self, MOST_KEPT};
use mx_book::words::{kind_text, push_note};
use mx_book::{Line, Note, StoreFault};
use mx_cells::cells::note_at;
use mx_cells::codes::MOST_ENTRY_BYTES;
use mx_cells::shown::line_in;
use mx_pay::Name;
use sqlite::{Alter, Connection, Rows, Savepoint};
use std::alloc::Global;

/// The text of what a line refers to.
fn text_of(alloc: Global, note: &Note) -> Result<String, StoreFault>
    ensures { IfOk result (λ text. string_bytes text ≡ words.note_text note.now) }
{
    let mut text = String::with_capacity(alloc, MOST_ENTRY_BYTES)?;
    push_note(&mut text, note)?;
    Ok(text)
}

/// Adds a line of a purse. Store where its number or its balance is above 2^63 - 1.
pub fn insert_line<S: Alter>(
    alloc: Global,
    tx: &mut Savepoint<'_, S>,
    purse: &Name,
    line: &Line,
) -> Result<(), StoreFault>
    ensures { Writes S.Store tx.old tx.new result
        (λ r. record r {
          lines = fmap.insert r.lines (purse.now, line.now.number)
              (line_row line.now);
        }) }
{
    if line.number > MOST_KEPT || line.balance > MOST_KEPT {
        return Err(StoreFault::Store);
    }
    let note = text_of(alloc, &line.note)?;
    run(
        tx,
        "INSERT INTO line (purse, number, kind, amount, balance, note) VALUES (?1, ?2, ?3, ?4, ?5, ?6)",
        &[
            given::text(purse.as_str()),
            given::number(line.number),
            given::text(kind_text(line.kind)),
            given::number(line.amount.get()),
            given::number(line.balance),
            given::text(&note),
        ],
    )
}

/// The next line that a query of lines gives, or None at its end.
fn next_line<S: Alter>(rows: &mut Rows<'_, S>) -> Result<Option<Line>, StoreFault>
    ensures same_reference { rows.new.conn.ghost_name ≡ rows.old.conn.ghost_name }
    ensures stays { (begun : Bool) → IsOurs begun (state S.Store rows.old.conn.now)
        → Stays begun (state S.Store rows.old.conn.now) (state S.Store rows.new.conn.now) }
    ensures shown { IsSound (state S.Store rows.new.conn.now)
        → IfOk result (GivesLine S.Store rows.old.conn.now rows.new.conn.now) }
    ensures live { OnOk result (IsAwake (state S.Store rows.new.conn.now)) }
    ensures fails { IsSound (state S.Store rows.new.conn.now)
        → IfErr result (FailsToGive S.Store rows.old.conn.now rows.new.conn.now) }
    ensures valid { IfOk result (λ line. IfSome line (λ l. IsNote l.note)) }
{
    if let Err(error) = rows.advance() {
        return Err(fault_of(error));
    }
    let Some(row) = rows.get() else {
        return Ok(None);
    };
    Ok(Some(line_in(row, note_at(row, 4)?)?))
}

/// Which lines of a purse are asked for: the first `most` that are numbered above `after`.
#[derive(Clone, Copy)]
pub struct Page {
    /// The number that all of them are above.
    pub after: u64,
    /// How many at most.
    pub most: u64,
}

/// The lines of a purse on a page, by number. The rows after them are not taken.
pub fn list_lines<S: Alter>(
    alloc: Global,
    conn: &mut Connection<S>,
    purse: &Name,
    page: Page,
) -> Result<Vec<Line>, StoreFault>
    ensures { Tells S.Store conn.old conn.new result
        (λ w v. v.items ≡ lines_of w purse.now page.after page.most) }
{
    let mut lines = Vec::new(alloc);
    if page.after > MOST_KEPT {
        find_live(conn)?;
        return Ok(lines);
    }
    let found = conn.query(
        "SELECT number, kind, amount, balance, note FROM line WHERE purse = ?1 AND number > ?2 ORDER BY number",
        &[given::text(purse.as_str()), given::number(page.after)],
    );
    let mut rows = match found {
        Ok(rows) => rows,
        Err(error) => return Err(fault_of(error)),
    };
    'rows: for _ in 0..page.most {
        let Some(line) = next_line(&mut rows)? else {
            return Ok(lines);
        };
        if lines.push(line).is_err() {
            return Err(StoreFault::Memory);
        }
    }
    Ok(lines)
}
