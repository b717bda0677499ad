//! A book of rows as a book that represents the World of its rows.
ghost use Rattle.std.specs.Prelude.{◌≡◌, ◌≤◌};
ghost use Rattle.mx_book.specs.World.{World};
ghost use Rattle.mx_standing.specs.Shown.{IsOne, IsKept, AreLeft, shown, lawful_of};

use mx_book::contract::{Book, StoreFault};
use mx_book::edits::Edit;
use mx_book::rows::RowBook;
use mx_book::values::{Account, Caller, HolderRow, Line, MemberRow, MemberTotals, Totals};
use mx_pay::{Amount, Log, Name, PayDetails, Token};
use mx_purse::message::Message;
use mx_purse::purse::Purse;
use std::alloc::Global;

/// A book of rows that always represents a World: where there is no doubt its rows spell one, and so do those that the
/// last settle left, where there is no harm, and those that a stop leaves, while no lie was told.
#[derive(Drop)]
pub struct Standing<B: RowBook> {
    /// The book that keeps the rows.
    book: B,
    ghost one: { IsOne B.RowBook book },
    ghost kept: { IsKept B.RowBook book },
    ghost left: { AreLeft B.RowBook book },
}

impl<B: RowBook> Standing<B> {
    /// A book that represents the World that its rows spell. It rests, and its store works if it told no lie.
    pub fn of(book: B) -> Self
        requires still { B.settled book }
        requires awake { B.harm book ≤ 1 → B.harm book ≡ 0 }
        requires spelled { B.doubt book ≡ 0 → ∥ ((w : World) × B.spells (B.rows book) w) ∥₁ }
        ensures { result.book ≡ book }
    {
        Standing { book }
    }

    /// The book that keeps the rows.
    pub fn into_inner(self) -> B
        ensures { result ≡ self.book }
    {
        self.book
    }
}

impl<B: RowBook> Book for Standing<B> {
    ghost view = { λ b. shown B.RowBook b.book b.one b.kept };

    ghost fails = { B.fails };

    fn who(&mut self, alloc: Global, token: &Token) -> Result<Option<Caller>, StoreFault> {
        self.book.who(alloc, token)
    }

    fn member(&mut self, alloc: Global, name: Name) -> Result<Option<MemberRow>, StoreFault> {
        self.book.member(alloc, name)
    }

    fn holder(&mut self, alloc: Global, name: Name) -> Result<Option<HolderRow>, StoreFault> {
        self.book.holder(alloc, name)
    }

    fn purse(&mut self, alloc: Global, name: Name) -> Result<Option<Account>, StoreFault> {
        self.book.purse(alloc, name)
    }

    fn has_purse(&mut self, alloc: Global, name: Name) -> Result<bool, StoreFault> {
        self.book.has_purse(alloc, name)
    }

    fn own_purse(
        &mut self,
        alloc: Global,
        holder: Name,
        purse: Name,
    ) -> Result<Option<Purse>, StoreFault> {
        self.book.own_purse(alloc, holder, purse)
    }

    fn is_own(&mut self, alloc: Global, holder: Name, purse: Name) -> Result<bool, StoreFault> {
        self.book.is_own(alloc, holder, purse)
    }

    fn finds_place(&mut self, alloc: Global, purse: Name) -> Result<bool, StoreFault> {
        self.book.finds_place(alloc, purse)
    }

    fn purses_of(&mut self, alloc: Global, holder: Name) -> Result<Vec<Name>, StoreFault> {
        self.book.purses_of(alloc, holder)
    }

    fn inbox(&mut self, alloc: Global, purse: Name) -> Result<Vec<(u64, Message)>, StoreFault> {
        self.book.inbox(alloc, purse)
    }

    fn message(
        &mut self,
        alloc: Global,
        purse: Name,
        number: u64,
    ) -> Result<Option<Message>, StoreFault> {
        self.book.message(alloc, purse, number)
    }

    fn has_message(&mut self, alloc: Global, purse: Name, number: u64) -> Result<bool, StoreFault> {
        self.book.has_message(alloc, purse, number)
    }

    fn lines(
        &mut self,
        alloc: Global,
        purse: Name,
        after: u64,
        most: u64,
    ) -> Result<Vec<Line>, StoreFault> {
        self.book.lines(alloc, purse, after, most)
    }

    fn purses(&mut self, alloc: Global) -> Result<Vec<Name>, StoreFault> {
        self.book.purses(alloc)
    }

    fn members(&mut self, alloc: Global) -> Result<Vec<Name>, StoreFault> {
        self.book.members(alloc)
    }

    fn load_of(
        &mut self,
        alloc: Global,
        purse: Name,
        reference: Name,
    ) -> Result<Option<Amount>, StoreFault> {
        self.book.load_of(alloc, purse, reference)
    }

    fn redemption_of(
        &mut self,
        alloc: Global,
        purse: Name,
        reference: Name,
    ) -> Result<Option<Amount>, StoreFault> {
        self.book.redemption_of(alloc, purse, reference)
    }

    fn archived(
        &mut self,
        alloc: Global,
        purse: Name,
        details: &PayDetails,
    ) -> Result<bool, StoreFault> {
        self.book.archived(alloc, purse, details)
    }

    fn settled(&mut self, alloc: Global, details: &PayDetails) -> Result<bool, StoreFault> {
        self.book.settled(alloc, details)
    }

    fn tray(&mut self, alloc: Global, purse: Name) -> Result<Log, StoreFault> {
        self.book.tray(alloc, purse)
    }

    fn uncollected(&mut self, alloc: Global, member: Name) -> Result<u128, StoreFault> {
        self.book.uncollected(alloc, member)
    }

    fn totals(&mut self, alloc: Global) -> Result<Totals, StoreFault> {
        self.book.totals(alloc)
    }

    fn member_totals(
        &mut self,
        alloc: Global,
        member: Name,
    ) -> Result<Option<MemberTotals>, StoreFault> {
        self.book.member_totals(alloc, member)
    }

    fn members_totals(&mut self, alloc: Global) -> Result<Vec<(Name, MemberTotals)>, StoreFault> {
        self.book.members_totals(alloc)
    }

    fn apply(&mut self, edits: &[Edit]) -> Result<(), StoreFault> {
        self.book.apply(edits)
    }

    fn settle(&mut self) -> Result<(), StoreFault> {
        self.book.settle()
    }

    ghost lawful = { λ b. lawful_of B.RowBook.own B.sound B.steady B.rest B.deep b.book b.one b.kept };

    ghost doubted = { λ b. B.doubted b.book };
}
