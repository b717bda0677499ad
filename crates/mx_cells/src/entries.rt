//! A whole row of each table, as a query shows it that asks for the key last. Each is read exactly where its values are
//! within their limits.
ghost use Rattle.std.specs.Prelude.{◌≡◌, IfOk, is_ok, true};
ghost use Rattle.mx_cells.specs.Entries.{HasColumns, IsHolderRow, IsLineRow, IsLoadRow, IsMemberRow, IsMessageRow, IsPurseRow, IsRedemptionRow, IsResultRow, IsTokenRow, holder_kept, line_kept, load_kept, member_kept, message_kept, purse_kept, redemption_kept, result_kept, token_kept};

use crate::cells::{amount_at, entry_at, money_at, name_at, note_at, number_at, token_at};
use crate::shown::{caller_in, line_in, member_in, message_in, purse_in};
use mx_book::{Caller, LineRow, MemberRow, PurseRow, Redemption, StoreFault};
use mx_pay::{Amount, MOST_NUMBER, Name, PayDetails, Token};
use mx_purse::Message;
use sqlite::Row;

/// A token, and whose it is: kind, name, token.
pub fn token_row(row: &Row) -> Result<(Token, Caller), StoreFault>
    ensures is { IfOk result (λ e. HasColumns row.now 0 (token_kept e)) }
    ensures valid { IfOk result IsTokenRow }
    ensures there { (e : _) → IsTokenRow e → HasColumns row.now 0 (token_kept e)
        → is_ok result ≡ true }
{
    let caller = caller_in(row)?;
    Ok((token_at(row, 2)?, caller))
}

/// A member: granted, unspent, name.
pub fn member_row(row: &Row) -> Result<(Name, MemberRow), StoreFault>
    ensures is { IfOk result (λ e. HasColumns row.now 0 (member_kept e)) }
    ensures valid { IfOk result IsMemberRow }
    ensures there { (e : _) → IsMemberRow e → HasColumns row.now 0 (member_kept e)
        → is_ok result ≡ true }
{
    let member = member_in(row)?;
    Ok((name_at(row, 2)?, member))
}

/// A holder, with its member: member, name.
pub fn holder_row(row: &Row) -> Result<(Name, Name), StoreFault>
    ensures is { IfOk result (λ e. HasColumns row.now 0 (holder_kept e)) }
    ensures valid { IfOk result IsHolderRow }
    ensures there { (e : _) → IsHolderRow e → HasColumns row.now 0 (holder_kept e)
        → is_ok result ≡ true }
{
    let member = name_at(row, 0)?;
    Ok((name_at(row, 1)?, member))
}

/// A purse: holder, balance, next_number, status, details, log, line_count, next_message, name.
pub fn purse_row(row: &Row) -> Result<(Name, PurseRow), StoreFault>
    ensures is { IfOk result (λ e. HasColumns row.now 0 (purse_kept e)) }
    ensures valid { IfOk result IsPurseRow }
    ensures there { (e : _) → IsPurseRow e → HasColumns row.now 0 (purse_kept e)
        → is_ok result ≡ true }
{
    let name = name_at(row, 8)?;
    let purse = purse_in(&name, row)?;
    if purse.next_message > MOST_NUMBER {
        return Err(StoreFault::Store);
    }
    Ok((name, purse))
}

/// A message, with its purse and its number: number, kind, details, purse.
pub fn message_row(row: &Row) -> Result<((Name, u64), Message), StoreFault>
    ensures is { IfOk result (λ e. HasColumns row.now 0 (message_kept e)) }
    ensures valid { IfOk result IsMessageRow }
    ensures there { (e : _) → IsMessageRow e → HasColumns row.now 0 (message_kept e)
        → is_ok result ≡ true }
{
    let (number, message) = message_in(row)?;
    Ok(((name_at(row, 3)?, number), message))
}

/// A line, with its purse and its number: number, kind, amount, balance, note, purse.
pub fn line_row(row: &Row) -> Result<((Name, u64), LineRow), StoreFault>
    ensures is { IfOk result (λ e. HasColumns row.now 0 (line_kept e)) }
    ensures valid { IfOk result IsLineRow }
    ensures there { (e : _) → IsLineRow e → HasColumns row.now 0 (line_kept e)
        → is_ok result ≡ true }
{
    let line = line_in(row, note_at(row, 4)?)?;
    if line.balance > MOST_NUMBER {
        return Err(StoreFault::Store);
    }
    Ok((
        (name_at(row, 5)?, line.number),
        LineRow {
            kind: line.kind,
            amount: line.amount,
            balance: line.balance,
            note: line.note,
        },
    ))
}

/// A result in the tray or the archive of a purse: details, purse.
pub fn result_row(row: &Row) -> Result<(Name, PayDetails), StoreFault>
    ensures is { IfOk result (λ e. HasColumns row.now 0 (result_kept e)) }
    ensures valid { IfOk result IsResultRow }
    ensures there { (e : _) → IsResultRow e → HasColumns row.now 0 (result_kept e)
        → is_ok result ≡ true }
{
    let details = entry_at(row, 0)?;
    Ok((name_at(row, 1)?, details))
}

/// A load of a purse, with its reference: amount, reference, purse.
pub fn load_row(row: &Row) -> Result<((Name, Name), Amount), StoreFault>
    ensures is { IfOk result (λ e. HasColumns row.now 0 (load_kept e)) }
    ensures valid { IfOk result IsLoadRow }
    ensures there { (e : _) → IsLoadRow e → HasColumns row.now 0 (load_kept e)
        → is_ok result ≡ true }
{
    let amount = amount_at(row, 0)?;
    let reference = name_at(row, 1)?;
    Ok(((name_at(row, 2)?, reference), amount))
}

/// A redemption of a purse, with its reference: amount, collected, reference, purse. What is collected is 1, and else 0.
pub fn redemption_row(row: &Row) -> Result<((Name, Name), Redemption), StoreFault>
    ensures is { IfOk result (λ e. HasColumns row.now 0 (redemption_kept e)) }
    ensures valid { IfOk result IsRedemptionRow }
    ensures there { (e : _) → IsRedemptionRow e → HasColumns row.now 0 (redemption_kept e)
        → is_ok result ≡ true }
{
    let amount = amount_at(row, 0)?;
    let collected = match number_at(row, 1)? {
        0 => false,
        1 => true,
        _ => return Err(StoreFault::Store),
    };
    let reference = name_at(row, 2)?;
    Ok((
        (name_at(row, 3)?, reference),
        Redemption { amount, collected },
    ))
}
