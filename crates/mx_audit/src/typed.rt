//! The rows of each table, as the audit asks for them and reads them.
ghost use Rattle.std.specs.Prelude.{◌≡◌, IfOk, is_ok, true};
ghost use Rattle.mx_audit.specs.Typed.{IsShown, IsSource, IsTyped, source_text};

use mx_book::{Caller, LineRow, MemberRow, PurseRow, Redemption, StoreFault};
use mx_cells::cells::{entry_at, number_at};
use mx_cells::entries::{
    holder_row, line_row, load_row, member_row, message_row, purse_row, redemption_row, result_row,
    token_row,
};
use mx_pay::{Amount, Name, PayDetails, Token};
use mx_purse::Message;
use sqlite::Row;

/// A table of the office.
#[derive(Clone, Copy)]
pub enum Source {
    /// `meta`.
    Meta,
    /// `member`.
    Members,
    /// `holder`.
    Holders,
    /// `token`.
    Tokens,
    /// `purse`.
    Purses,
    /// `inbox`.
    Inbox,
    /// `line`.
    Lines,
    /// `tray`.
    Tray,
    /// `archive`.
    Archive,
    /// `load`.
    Loads,
    /// `redemption`.
    Redemptions,
    /// `settled`.
    Settled,
}

impl Source {
    /// The query that shows the rows of the table, their key last. Tokens come in the order of their row numbers.
    pub fn text(self) -> &'static str
        ensures { result.now ≡ source_text self }
    {
        match self {
            Source::Meta => "SELECT version, id FROM meta",
            Source::Members => "SELECT granted, unspent, name FROM member",
            Source::Holders => "SELECT member, name FROM holder",
            Source::Tokens => "SELECT kind, name, token FROM token ORDER BY rowid",
            Source::Purses => {
                "SELECT holder, balance, next_number, status, details, log, line_count, next_message, name FROM purse"
            }
            Source::Inbox => "SELECT number, kind, details, purse FROM inbox",
            Source::Lines => "SELECT number, kind, amount, balance, note, purse FROM line",
            Source::Tray => "SELECT details, purse FROM tray",
            Source::Archive => "SELECT details, purse FROM archive",
            Source::Loads => "SELECT amount, reference, purse FROM load",
            Source::Redemptions => "SELECT amount, collected, reference, purse FROM redemption",
            Source::Settled => "SELECT details FROM settled",
        }
    }
}

/// A row of a table with its key, each value within its limits.
#[derive(Clone, Copy)]
pub enum TypedRow {
    /// The version of the tables, which is 2.
    Version,
    /// A member.
    Member(Name, MemberRow),
    /// A holder, and its member.
    Holder(Name, Name),
    /// A token, and whose it is.
    Token(Token, Caller),
    /// A purse.
    Purse(Name, PurseRow),
    /// A message of a purse, and its number.
    Message(Name, u64, Message),
    /// A line of a purse, and its number.
    Line(Name, u64, LineRow),
    /// A result in the tray of a purse.
    Laid(Name, PayDetails),
    /// A result in the archive of a purse.
    Archived(Name, PayDetails),
    /// A load of a purse: its reference and its amount.
    Load(Name, Name, Amount),
    /// A redemption of a purse, and its reference.
    Redemption(Name, Name, Redemption),
    /// The details of a payment that was settled.
    Settled(PayDetails),
}

/// The row of a table that its query shows. Store where a value isn't one, or is above its limit.
pub fn read_row(source: Source, row: &Row) -> Result<TypedRow, StoreFault>
    ensures is { IfOk result (IsShown source row.now) }
    ensures valid { IfOk result IsTyped }
    ensures there { IsSource source row.now → is_ok result ≡ true }
{
    Ok(match source {
        Source::Meta => match (number_at(row, 0)?, number_at(row, 1)?) {
            (2, 1) => TypedRow::Version,
            _ => return Err(StoreFault::Store),
        },
        Source::Members => {
            let (name, member) = member_row(row)?;
            TypedRow::Member(name, member)
        }
        Source::Holders => {
            let (holder, member) = holder_row(row)?;
            TypedRow::Holder(holder, member)
        }
        Source::Tokens => {
            let (token, caller) = token_row(row)?;
            TypedRow::Token(token, caller)
        }
        Source::Purses => {
            let (name, purse) = purse_row(row)?;
            TypedRow::Purse(name, purse)
        }
        Source::Inbox => {
            let ((purse, number), message) = message_row(row)?;
            TypedRow::Message(purse, number, message)
        }
        Source::Lines => {
            let ((purse, number), line) = line_row(row)?;
            TypedRow::Line(purse, number, line)
        }
        Source::Tray => {
            let (purse, details) = result_row(row)?;
            TypedRow::Laid(purse, details)
        }
        Source::Archive => {
            let (purse, details) = result_row(row)?;
            TypedRow::Archived(purse, details)
        }
        Source::Loads => {
            let ((purse, reference), amount) = load_row(row)?;
            TypedRow::Load(purse, reference, amount)
        }
        Source::Redemptions => {
            let ((purse, reference), redemption) = redemption_row(row)?;
            TypedRow::Redemption(purse, reference, redemption)
        }
        Source::Settled => TypedRow::Settled(entry_at(row, 0)?),
    })
}
