//! What the columns that a query shows are of.
ghost use Rattle.std.specs.Prelude.{◌≡◌, ◌≤◌, IfOk, is_ok, true};
ghost use Rattle.sqlite_value.specs.Order.{column};
ghost use Rattle.sqlite_value.specs.declared.value.Value.TheVariants.{Text};
ghost use Rattle.mx_pay.specs.Limits.{most_amount, most_number};
ghost use Rattle.mx_pay.specs.Names.{is_name_text};
ghost use Rattle.mx_purse.specs.Messages.{IsMessage};
ghost use Rattle.mx_purse.specs.State.{IsPurse};
ghost use Rattle.mx_book.specs.Words.{note_text};
ghost use Rattle.mx_book.specs.declared.values.Caller.{Caller as Who};
ghost use Rattle.mx_cells.specs.Cells.{caller_shown, first_five, first_three, first_two, kind_text, line_shown, member_shown, message_row, owner_text, purse_columns, purse_shown, state_columns, state_shown};
ghost use Rattle.mx_cells.specs.Entries.{IsCaller};

use crate::cells::{
    amount_at, kind_at, log_at, message_at, money_at, name_at, number_at, status_at, text_at,
};
use mx_book::{Caller, Line, MemberRow, Note, PurseRow, StoreFault};
use mx_pay::{Name, Seq};
use mx_purse::{Message, Purse};
use sqlite::Row;

/// Whose a token is: a kind, and the name of a member or a holder, empty of the operator. Store where other values are
/// there.
#[tactic(auto, using(crate::proofs::TextLemmas::utf8_caller, crate::proofs::TextLemmas::utf8_owner))]
pub fn caller_in(row: &Row) -> Result<Caller, StoreFault>
    ensures is { IfOk result
        (λ c. (column row.now 0 ≡ Text (kind_text c)) × (column row.now 1 ≡ Text (owner_text c))) }
    ensures valid { IfOk result IsCaller }
    ensures there { (c : Who) → IsCaller c → column row.now 0 ≡ Text (kind_text c)
        → column row.now 1 ≡ Text (owner_text c) → is_ok result ≡ true }
{
    match text_at(row, 0) {
        Some("operator") => match text_at(row, 1) {
            Some("") => Ok(Caller::Operator),
            _ => Err(StoreFault::Store),
        },
        Some("clerk") => Ok(Caller::Clerk(name_at(row, 1)?)),
        Some("holder") => Ok(Caller::Holder(name_at(row, 1)?)),
        _ => Err(StoreFault::Store),
    }
}

/// The grants and the float of a member, each of at most 10^15. Store where other values are there.
pub fn member_in(row: &Row) -> Result<MemberRow, StoreFault>
    ensures is { IfOk result (λ m. first_two row.now ≡ member_shown m) }
    ensures valid { IfOk result (λ m. (m.granted ≤ most_number) × (m.float ≤ most_number)) }
    ensures there { (m : _) → m.granted ≤ most_number → m.float ≤ most_number
        → first_two row.now ≡ member_shown m → is_ok result ≡ true }
{
    Ok(MemberRow {
        granted: money_at(row, 0)?,
        float: money_at(row, 1)?,
    })
}

/// The purse of that name, in the columns from the second on. Store where other values are there.
pub fn state_in(name: &Name, row: &Row) -> Result<Purse, StoreFault>
    ensures shown { IfOk result (λ p. state_columns row.now ≡ state_shown p) }
    ensures valid { IfOk result IsPurse }
    ensures named { IfOk result (λ p. p.name ≡ name.now) }
    ensures there { (p : _) → IsPurse p → p.name ≡ name.now
        → state_columns row.now ≡ state_shown p → is_ok result ≡ true }
{
    let balance = number_at(row, 1)?;
    let next = Seq::new(number_at(row, 2)?).ok_or(StoreFault::Store)?;
    let status = status_at(row, 3)?;
    let log = log_at(row, 5)?;
    let lines = number_at(row, 6)?;
    Purse::from_parts(*name, balance, next, status, log, lines).ok_or(StoreFault::Store)
}

/// What is kept of the purse of that name. Store where other values are there.
pub fn purse_in(name: &Name, row: &Row) -> Result<PurseRow, StoreFault>
    ensures shown { IfOk result (λ x. purse_columns row.now ≡ purse_shown x) }
    ensures valid { IfOk result (λ x. IsPurse x.purse) }
    ensures named { IfOk result (λ x. x.purse.name ≡ name.now) }
    ensures holder { IfOk result (λ x. is_name_text x.holder ≡ true) }
    ensures there { (x : _) → IsPurse x.purse → x.purse.name ≡ name.now
        → is_name_text x.holder ≡ true → purse_columns row.now ≡ purse_shown x
        → is_ok result ≡ true }
{
    Ok(PurseRow {
        holder: name_at(row, 0)?,
        purse: state_in(name, row)?,
        next_message: number_at(row, 7)?,
    })
}

/// A message with its number. Store where other values are there.
pub fn message_in(row: &Row) -> Result<(u64, Message), StoreFault>
    ensures shown { IfOk result (λ m. first_three row.now ≡ message_row m) }
    ensures valid { IfOk result (λ m. IsMessage m.1) }
    ensures there { (m : _) → IsMessage m.1 → first_three row.now ≡ message_row m
        → is_ok result ≡ true }
{
    Ok((number_at(row, 0)?, message_at(row, 1)?))
}

/// The line that refers to this. Store where other values are there.
pub fn line_in(row: &Row, note: Note) -> Result<Line, StoreFault>
    requires { column row.now 4 ≡ Text (note_text note) }
    ensures shown { IfOk result (λ line. first_five row.now ≡ line_shown line) }
    ensures noted { IfOk result (λ line. line.note ≡ note) }
    ensures there { (l : _) → l.amount ≤ most_amount → first_five row.now ≡ line_shown l
        → is_ok result ≡ true }
{
    Ok(Line {
        number: number_at(row, 0)?,
        kind: kind_at(row, 1)?,
        amount: amount_at(row, 2)?,
        balance: number_at(row, 3)?,
        note,
    })
}
