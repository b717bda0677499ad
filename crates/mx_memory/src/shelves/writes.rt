//! The writes of an edit that is more than one row or not its row alone.
ghost use Rattle.std.specs.Prelude.{◌≡◌, IsTrue};
ghost use Rattle.mx_pay.specs.Limits.{most_entries};
ghost use Rattle.mx_book.specs.RowEdits.{rewritten, able};
ghost use Rattle.mx_memory.specs.Due.{is_fit};
ghost use Rattle.mx_memory.specs.Shelves.{rows_of, HasRoom, SpendsOne};

use crate::redemptions::{collect, member_of, owe};
use crate::results::archive;
use crate::shelves::Shelves;
use mx_book::edits::Edit;
use mx_book::values::{Caller, Line, LineRow, MemberRow, Redemption};
use mx_pay::{Amount, Name, Token};
use mx_purse::message::Message;
use mx_purse::purse::Purse;

impl Shelves {
    /// Adds a member with grants 0 and float 0, and the token of its clerk.
    pub(super) fn add_member(&mut self, member: Name, clerk: Token)
        requires { HasRoom 1 0 self.old }
        ensures edited { rows_of self.new ≡ rewritten (rows_of self.old)
            (Edit.NewMember member clerk) }
        ensures room { SpendsOne 0 self.old self.new }
    {
        let row = MemberRow {
            granted: 0,
            float: 0,
        };
        self.members.put(member, row);
        self.tokens.put(clerk, Caller::Clerk(member));
    }

    /// Adds a holder of a member, and the holder's token.
    pub(super) fn add_holder(&mut self, holder: Name, member: Name, token: Token)
        requires fit { IsTrue (is_fit (rows_of self.old) (Edit.NewHolder holder member token)) }
        requires room { HasRoom 1 0 self.old }
        ensures edited { rows_of self.new ≡ rewritten (rows_of self.old)
            (Edit.NewHolder holder member token) }
        ensures room { SpendsOne 0 self.old self.new }
    {
        self.holders.put(holder, member);
        self.tokens.put(token, Caller::Holder(holder));
    }

    /// Adds a purse of a holder.
    pub(super) fn add_purse(&mut self, purse: Name, holder: Name)
        requires fit { IsTrue (is_fit (rows_of self.old) (Edit.NewPurse purse holder)) }
        requires room { HasRoom 1 0 self.old }
        ensures edited { rows_of self.new ≡ rewritten (rows_of self.old)
            (Edit.NewPurse purse holder) }
        ensures room { SpendsOne 0 self.old self.new }
    {
        self.purses.put(purse, holder, &Purse::new(purse));
    }

    /// Sets a purse that is there.
    pub(super) fn set_purse(&mut self, purse: &Purse)
        requires { HasRoom 1 0 self.old }
        ensures edited { rows_of self.new ≡ rewritten (rows_of self.old) (Edit.SetPurse purse.now) }
        ensures room { SpendsOne 0 self.old self.new }
    {
        let name = purse.name();
        if let Some(row) = self.purses.bare(name) {
            let row = *row;
            self.purses.set(name, &row, purse);
        }
    }

    /// Adds a message to the inbox of a purse that is there, under its next number.
    pub(super) fn add_message(&mut self, purse: Name, message: Message)
        requires able { IsTrue (able (rows_of self.old) (Edit.AddMessage purse message)) }
        requires room { HasRoom 1 0 self.old }
        ensures edited { rows_of self.new ≡ rewritten (rows_of self.old)
            (Edit.AddMessage purse message) }
        ensures room { SpendsOne 0 self.old self.new }
    {
        if let Some(row) = self.purses.bare(purse) {
            let row = *row;
            self.purses.set_next(purse, &row, row.next_message + 1);
            self.inbox.put((purse, row.next_message), message);
        }
    }

    /// Adds a line to the statement of a purse.
    pub(super) fn add_line(&mut self, purse: Name, line: Line)
        requires { HasRoom 1 0 self.old }
        ensures edited { rows_of self.new ≡ rewritten (rows_of self.old) (Edit.AddLine purse line) }
        ensures room { SpendsOne 0 self.old self.new }
    {
        let row = LineRow {
            kind: line.kind,
            amount: line.amount,
            balance: line.balance,
            note: line.note,
        };
        self.lines.put((purse, line.number), row);
    }

    /// Adds a redemption of a purse, which isn't collected.
    pub(super) fn add_redemption(&mut self, purse: Name, reference: Name, amount: Amount)
        requires fit { IsTrue (is_fit (rows_of self.old)
            (Edit.AddRedemption purse reference amount)) }
        requires room { HasRoom 1 0 self.old }
        ensures edited { rows_of self.new ≡ rewritten (rows_of self.old)
            (Edit.AddRedemption purse reference amount) }
        ensures room { SpendsOne 0 self.old self.new }
    {
        let row = Redemption {
            amount,
            collected: false,
        };
        let member = member_of(&self.purses, &self.holders, purse);
        owe(&mut self.due, member, (purse, reference));
        self.redemptions.put((purse, reference), row);
    }

    /// Collects the redemptions of the member's purses.
    pub(super) fn collect(&mut self, member: Name)
        requires { HasRoom 1 0 self.old }
        ensures edited { rows_of self.new ≡ rewritten (rows_of self.old) (Edit.Collect member) }
        ensures room { SpendsOne 0 self.old self.new }
    {
        collect(&mut self.due, &mut self.redemptions, member);
    }

    /// Archives what lies in the tray of a purse, which are entries of its log.
    pub(super) fn archive_tray(&mut self, purse: Name)
        requires able { IsTrue (able (rows_of self.old) (Edit.ArchiveTray purse)) }
        requires room { HasRoom 1 most_entries self.old }
        ensures edited { rows_of self.new ≡ rewritten (rows_of self.old) (Edit.ArchiveTray purse) }
        ensures room { SpendsOne most_entries self.old self.new }
    {
        let results = self.tray_of(purse);
        archive(&mut self.tray, &mut self.archive, purse, &results);
    }
}
