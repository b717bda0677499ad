//! The tables of a book in memory. Of what they hold they ask no more than their indexes need.
ghost use Rattle.std.specs.Prelude.{◌≡◌, ◌+◌, ◌≤◌, ◌<◌, IsTrue, ℕ, List, length, Ok, OnOk, IfOk, map, filter, take, nat_lt, count_by, is_some, ◌∷◌, []};
ghost use Rattle.std.specs.FinMap.{get};
ghost use Rattle.std.specs.FinMap as fmap;
ghost use Rattle.mx_purse.specs.declared.message.Message.{Message as Kept};
ghost use Rattle.mx_book.specs.declared.values.Scope.TheVariants.{Member};
ghost use Rattle.mx_book.specs.declared.values.LineRow.{LineRow as KeptLine};
ghost use Rattle.mx_book.specs.RowEdits.{rewritten, all_rewritten, able, all_able, archive_rows, is_archiving, row_laid_of};
ghost use Rattle.mx_book.specs.RowReads.{row_who_of, row_holder_of, row_purses_of, row_account_of, row_own_purse, row_finds_place, row_inbox_of, row_lines_of, row_purse_names_of, row_members_of, row_load_of, row_redemption_of, row_is_archived, row_is_settled, row_uncollected_of, line_of_row, of_name};
ghost use Rattle.mx_sorted.specs.Blocks.{first_of};
ghost use Rattle.mx_sorted.specs.Left.{rows_left};
ghost use Rattle.mx_memory.specs.Due.{is_fit, all_fit};
ghost use Rattle.mx_memory.specs.Shelves.{rows_of, HasRoom, SpendsOne};
ghost use Rattle.mx_book.specs.Spells.{opening_rows};

mod sums;
mod tables;
mod writes;

use crate::purses::Purses;
use crate::redemptions::due_in;
use crate::results::laid;
use mx_book::contract::StoreFault;
use mx_book::edits::Edit;
use mx_book::values::{
    Account, Caller, HolderRow, Line, LineRow, MOST_MESSAGES, MemberRow, Redemption,
};
use mx_pay::names::same_name;
use mx_pay::numbers::MOST_NUMBER;
use mx_pay::token::same_token;
use mx_pay::{Amount, Log, MOST_ENTRIES, Name, PayDetails, Token};
use mx_purse::message::Message;
use mx_purse::purse::Purse;
use mx_sorted::{Rows, Table};
use std::alloc::{AllocError, Global};
pub use tables::Shelves;

impl Shelves {
    /// Empty tables, and the operator's token.
    pub fn new(alloc: Global, operator: Token) -> Shelves
        ensures { rows_of result ≡ opening_rows operator }
    {
        Shelves {
            operator,
            tokens: Table::new(alloc),
            members: Table::new(alloc),
            holders: Table::new(alloc),
            purses: Purses::new(alloc),
            inbox: Table::new(alloc),
            lines: Table::new(alloc),
            tray: Table::new(alloc),
            archive: Table::new(alloc),
            settled: Table::new(alloc),
            loads: Table::new(alloc),
            redemptions: Table::new(alloc),
            due: Table::new(alloc),
        }
    }

    /// Makes one edit, for which there is room.
    pub fn edit(&mut self, edit: &Edit)
        requires able { IsTrue (able (rows_of self.old) edit.now) }
        requires fit { IsTrue (is_fit (rows_of self.old) edit.now) }
        requires room { HasRoom 1 (archive_rows (edit.now ∷ [])) self.old }
        ensures edited { rows_of self.new ≡ rewritten (rows_of self.old) edit.now }
        ensures room { SpendsOne (archive_rows (edit.now ∷ [])) self.old self.new }
    {
        match edit {
            Edit::NewMember { member, clerk } => self.add_member(*member, *clerk),
            Edit::SetMember {
                member,
                granted,
                float,
            } => {
                let row = MemberRow {
                    granted: *granted,
                    float: *float,
                };
                self.members.put(*member, row);
            }
            Edit::NewHolder {
                holder,
                member,
                token,
            } => self.add_holder(*holder, *member, *token),
            Edit::NewPurse { purse, holder } => self.add_purse(*purse, *holder),
            Edit::SetPurse { purse } => self.set_purse(purse),
            Edit::AddMessage { purse, message } => self.add_message(*purse, *message),
            Edit::DropMessage { purse, number } => self.inbox.remove((*purse, *number)),
            Edit::AddLine { purse, line } => self.add_line(*purse, *line),
            Edit::AddLoad {
                purse,
                reference,
                amount,
            } => self.loads.put((*purse, *reference), *amount),
            Edit::AddRedemption {
                purse,
                reference,
                amount,
            } => self.add_redemption(*purse, *reference, *amount),
            Edit::AddTray { purse, details } => self.tray.put((*purse, *details), ()),
            Edit::ArchiveTray { purse } => self.archive_tray(*purse),
            Edit::Collect { member } => self.collect(*member),
            Edit::AddSettled { details } => self.settled.put(*details, ()),
        }
    }

    /// Makes edits in order, for which there is room.
    pub fn edit_all(&mut self, edits: &[Edit])
        requires able { IsTrue (all_able (rows_of self.old) edits.now) }
        requires fit { IsTrue (all_fit (rows_of self.old) edits.now) }
        requires room { HasRoom (length edits.now) (archive_rows edits.now) self.old }
        ensures { rows_of self.new ≡ all_rewritten (rows_of self.old) edits.now }
    {
        for edit in edits {
            self.edit(edit);
        }
    }

    /// Makes room for what these edits add. An AllocError leaves the rows as they are.
    pub fn reserve(&mut self, edits: &[Edit]) -> Result<(), AllocError>
        ensures same { rows_of self.new ≡ rows_of self.old }
        ensures ok { OnOk result (HasRoom (length edits.now) (archive_rows edits.now) self.new) }
    {
        let more = edits.len();
        let archived = MOST_ENTRIES
            .checked_mul(count_archiving(edits))
            .ok_or(AllocError)?;
        self.tokens.reserve(more)?;
        self.members.reserve(more)?;
        self.holders.reserve(more)?;
        self.purses.reserve(more)?;
        self.inbox.reserve(more)?;
        self.lines.reserve(more)?;
        self.tray.reserve(more)?;
        self.archive.reserve(archived)?;
        self.settled.reserve(more)?;
        self.loads.reserve(more)?;
        self.redemptions.reserve(more)?;
        self.due.reserve(more)?;
        Ok(())
    }

    /// Whose token it is, or None where it is nobody's.
    pub fn who(&self, token: &Token) -> Option<Caller>
        ensures { result ≡ row_who_of (rows_of self.now) token.now }
    {
        if same_token(token, &self.operator) {
            Some(Caller::Operator)
        } else {
            self.tokens.get(*token).copied()
        }
    }

    /// The member of a holder and how many purses the holder has, or None where there is no such holder.
    pub fn holder(&self, name: Name) -> Option<HolderRow>
        ensures { result ≡ row_holder_of (rows_of self.now) name }
    {
        let member = *self.holders.get(name)?;
        let purses = self.purses.count_of(name);
        Some(HolderRow { member, purses })
    }

    /// How many messages lie in the inbox of a purse.
    fn held(&self, purse: Name) -> usize
        ensures { result ≡ length (of_name purse (fmap.entries (rows_of self.now).inbox)) }
    {
        count_messages(self.inbox.rows_from((purse, 0)), purse)
    }

    /// What a book gives of a purse, or None where there is no such purse. It is given as a book's call gives it, which
    /// spares a copy of the purse; there is no fault.
    pub fn account(&self, name: Name) -> Result<Option<Account>, StoreFault>
        ensures { result ≡ Ok (row_account_of (rows_of self.now) name) }
    {
        let Some(row) = self.purses.bare(name) else {
            return Ok(None);
        };
        let Some(member) = self.holders.get(row.holder) else {
            return Ok(None);
        };
        Ok(Some(Account {
            holder: row.holder,
            member: *member,
            purse: self.purses.whole(name, row),
            held: self.held(name),
            next_message: row.next_message,
        }))
    }

    /// The purse of that name where it is the holder's, or None where it is another's or there is none. It is given as a
    /// book's call gives it, like an account.
    pub fn own_purse(&self, holder: Name, purse: Name) -> Result<Option<Purse>, StoreFault>
        ensures { result ≡ Ok (row_own_purse (rows_of self.now) holder purse) }
    {
        match self.purses.bare(purse) {
            Some(row) if same_name(&holder, &row.holder) => Ok(Some(self.purses.whole(purse, row))),
            _ => Ok(None),
        }
    }

    /// Whether the purse of that name is there and is the holder's.
    pub fn is_own(&self, holder: Name, purse: Name) -> bool
        ensures { result ≡ is_some (row_own_purse (rows_of self.now) holder purse) }
    {
        match self.purses.bare(purse) {
            None => false,
            Some(row) => same_name(&holder, &row.holder),
        }
    }

    /// Whether a message to a purse finds a place.
    pub fn finds_place(&self, purse: Name) -> bool
        ensures { result ≡ row_finds_place (rows_of self.now) purse }
    {
        match self.purses.bare(purse) {
            None => false,
            Some(row) => self.held(purse) < MOST_MESSAGES && row.next_message < MOST_NUMBER,
        }
    }

    /// The names of a holder's purses, in order.
    pub fn purses_of(&self, alloc: Global, holder: Name) -> Result<Vec<Name>, AllocError>
        ensures { IfOk result (λ r. r.items ≡ row_purses_of (rows_of self.now) holder) }
    {
        self.purses.names_of(alloc, holder)
    }

    /// The messages in the inbox of a purse with their numbers, by number.
    pub fn inbox_of(&self, alloc: Global, purse: Name) -> Result<Vec<(u64, Message)>, AllocError>
        ensures { IfOk result (λ r. r.items ≡ row_inbox_of (rows_of self.now) purse) }
    {
        read_messages(alloc, self.inbox.rows_from((purse, 0)), purse)
    }

    /// The first `most` lines of a purse that are numbered above `after`, by number.
    pub fn lines_of(
        &self,
        alloc: Global,
        purse: Name,
        after: u64,
        most: u64,
    ) -> Result<Vec<Line>, AllocError>
        ensures { IfOk result (λ r. r.items ≡ row_lines_of (rows_of self.now) purse after most) }
    {
        lines_above(
            alloc,
            self.lines.rows_from((purse, after)),
            purse,
            after,
            most,
        )
    }

    /// The names of the purses, in order.
    pub fn purse_names(&self, alloc: Global) -> Result<Vec<Name>, AllocError>
        ensures { IfOk result (λ r. r.items ≡ row_purse_names_of (rows_of self.now)) }
    {
        names_in(alloc, self.purses.rows())
    }

    /// The names of the members, in order.
    pub fn members_of(&self, alloc: Global) -> Result<Vec<Name>, AllocError>
        ensures { IfOk result (λ r. r.items ≡ row_members_of (rows_of self.now)) }
    {
        names_in(alloc, self.members.rows())
    }

    /// The amount of the load of a purse with that reference, or None where there is none.
    pub fn load_of(&self, purse: Name, reference: Name) -> Option<Amount>
        ensures { result ≡ row_load_of (rows_of self.now) purse reference }
    {
        self.loads.get((purse, reference)).copied()
    }

    /// The amount of the redemption of a purse with that reference, or None where there is none.
    pub fn redemption_of(&self, purse: Name, reference: Name) -> Option<Amount>
        ensures { result ≡ row_redemption_of (rows_of self.now) purse reference }
    {
        let redemption = self.redemptions.get((purse, reference))?;
        Some(redemption.amount)
    }

    /// Whether details are archived for a purse.
    pub fn is_archived(&self, purse: Name, details: &PayDetails) -> bool
        ensures { result ≡ row_is_archived (rows_of self.now) purse details.now }
    {
        self.archive.get((purse, *details)).is_some()
    }

    /// Whether details are settled.
    pub fn is_settled(&self, details: &PayDetails) -> bool
        ensures { result ≡ row_is_settled (rows_of self.now) details.now }
    {
        self.settled.get(*details).is_some()
    }

    /// The entries of a purse's log that lie in its tray.
    pub fn tray_of(&self, purse: Name) -> Log
        ensures { result ≡ row_laid_of (rows_of self.now) purse }
    {
        laid(&self.tray, purse, &self.purses.log_of(purse))
    }

    /// What the redemptions of the member's purses come to that aren't collected.
    pub fn uncollected_of(&self, member: Name) -> u128
        ensures { result ≡ row_uncollected_of (rows_of self.now) (Member member) }
    {
        due_in(
            self.due.rows_from((member, None)),
            &self.redemptions,
            member,
        )
    }
}

/// How many of these edits archive a tray.
fn count_archiving(edits: &[Edit]) -> usize
    ensures { result ≡ count_by is_archiving edits.now }
{
    edits.iter().filter(|edit| archives(edit)).count()
}

/// Whether this edit archives a tray.
fn archives(edit: &Edit) -> bool
    ensures { result ≡ is_archiving edit.now }
{
    matches!(edit, Edit::ArchiveTray { .. })
}

/// The names that are the keys of these rows, in order.
fn names_in<V>(alloc: Global, rows: Rows<'_, Name, V>) -> Result<Vec<Name>, AllocError>
    ensures { IfOk result (λ r. r.items ≡ map (λ (e : List ℕ × V). e.0) (rows_left rows.entry)) }
{
    rows.map(|row| row.0).collect(alloc)
}

/// How many of these messages, from the first, are to the purse.
fn count_messages(rows: Rows<'_, (Name, u64), Message>, purse: Name) -> usize
    ensures { result ≡ length (first_of purse (rows_left rows.entry)) }
{
    rows.take_while(|row| same_name(&purse, &row.0.0)).count()
}

/// Those of these messages, from the first, that are to the purse, with their numbers, in order.
fn read_messages(
    alloc: Global,
    rows: Rows<'_, (Name, u64), Message>,
    purse: Name,
) -> Result<Vec<(u64, Message)>, AllocError>
    ensures { IfOk result (λ r. r.items ≡ map (λ (e : (List ℕ × ℕ) × Kept). (e.0.1, e.1))
        (first_of purse (rows_left rows.entry))) }
{
    rows.take_while(|row| same_name(&purse, &row.0.0))
        .map(|row| (row.0.1, row.1))
        .collect(alloc)
}

/// The first `most` lines numbered above `after` of those, from the first, that are of the purse, in order.
fn lines_above(
    alloc: Global,
    rows: Rows<'_, (Name, u64), LineRow>,
    purse: Name,
    after: u64,
    most: u64,
) -> Result<Vec<Line>, AllocError>
    ensures { IfOk result (λ r. r.items ≡ map line_of_row
        (take most (filter (λ (e : (List ℕ × ℕ) × KeptLine). nat_lt after e.0.1)
        (first_of purse (rows_left rows.entry))))) }
{
    rows.take_while(|row| same_name(&purse, &row.0.0))
        .filter(|row| after < row.0.1)
        .take(most as usize)
        .map(|row| Line {
            number: row.0.1,
            kind: row.1.kind,
            amount: row.1.amount,
            balance: row.1.balance,
            note: row.1.note,
        })
        .collect(alloc)
}
