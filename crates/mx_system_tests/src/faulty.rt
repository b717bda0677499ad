//! A book that leaves one call out.
ghost use Rattle.std.specs.Prelude.{◌≡◌};
ghost use Rattle.std.proofs.Common.{inr};

use mx_book::{
    Account, Book, Caller, Edit, HolderRow, Line, MemberRow, MemberTotals, StoreFault, Totals,
};
use mx_pay::{Amount, Log, Name, PayDetails, Token};
use mx_purse::{Message, Purse};
use std::alloc::Global;

/// Passes calls on to a book, but for one, which it answers as a fault.
#[derive(Drop)]
pub(super) struct Faulty<B> {
    /// The book.
    pub(super) book: B,
    /// How many calls are passed on before the one that isn't. None is left out where there is none.
    pub(super) left: Option<u64>,
    /// What the one that isn't passed on is answered.
    pub(super) fault: StoreFault,
    /// The fewest lines that were asked for at once, and the most.
    pub(super) lines_asked: (u64, u64),
}

impl<B> Faulty<B> {
    /// Passes the call on, or answers its fault.
    fn pass(&mut self) -> Result<(), StoreFault>
        ensures { self.new.book ≡ self.old.book }
    {
        match self.left {
            Some(0) => {
                self.left = None;
                Err(self.fault)
            }
            Some(left) => {
                self.left = Some(left - 1);
                Ok(())
            }
            None => Ok(()),
        }
    }
}

impl<B: Book> Book for Faulty<B> {
    // What is left out has no cause in the store.
    ghost view = { λ b. record (B.view b.book) { limited = Unit {0} } };

    ghost fails = { λ _. Unit {0} };

    fn who(&mut self, alloc: Global, token: &Token) -> Result<Option<Caller>, StoreFault> {
        self.pass()?;
        self.book.who(alloc, token)
    }

    fn member(&mut self, alloc: Global, name: Name) -> Result<Option<MemberRow>, StoreFault> {
        self.pass()?;
        self.book.member(alloc, name)
    }

    fn holder(&mut self, alloc: Global, name: Name) -> Result<Option<HolderRow>, StoreFault> {
        self.pass()?;
        self.book.holder(alloc, name)
    }

    fn purse(&mut self, alloc: Global, name: Name) -> Result<Option<Account>, StoreFault> {
        self.pass()?;
        self.book.purse(alloc, name)
    }

    fn has_purse(&mut self, alloc: Global, name: Name) -> Result<bool, StoreFault> {
        self.pass()?;
        self.book.has_purse(alloc, name)
    }

    fn own_purse(
        &mut self,
        alloc: Global,
        holder: Name,
        purse: Name,
    ) -> Result<Option<Purse>, StoreFault> {
        self.pass()?;
        self.book.own_purse(alloc, holder, purse)
    }

    fn is_own(&mut self, alloc: Global, holder: Name, purse: Name) -> Result<bool, StoreFault> {
        self.pass()?;
        self.book.is_own(alloc, holder, purse)
    }

    fn finds_place(&mut self, alloc: Global, purse: Name) -> Result<bool, StoreFault> {
        self.pass()?;
        self.book.finds_place(alloc, purse)
    }

    fn purses_of(&mut self, alloc: Global, holder: Name) -> Result<Vec<Name>, StoreFault> {
        self.pass()?;
        self.book.purses_of(alloc, holder)
    }

    fn inbox(&mut self, alloc: Global, purse: Name) -> Result<Vec<(u64, Message)>, StoreFault> {
        self.pass()?;
        self.book.inbox(alloc, purse)
    }

    fn message(
        &mut self,
        alloc: Global,
        purse: Name,
        number: u64,
    ) -> Result<Option<Message>, StoreFault> {
        self.pass()?;
        self.book.message(alloc, purse, number)
    }

    fn has_message(&mut self, alloc: Global, purse: Name, number: u64) -> Result<bool, StoreFault> {
        self.pass()?;
        self.book.has_message(alloc, purse, number)
    }

    fn lines(
        &mut self,
        alloc: Global,
        purse: Name,
        after: u64,
        most: u64,
    ) -> Result<Vec<Line>, StoreFault> {
        let (fewest, most_before) = self.lines_asked;
        self.lines_asked = (fewest.min(most), most_before.max(most));
        self.pass()?;
        self.book.lines(alloc, purse, after, most)
    }

    fn purses(&mut self, alloc: Global) -> Result<Vec<Name>, StoreFault> {
        self.pass()?;
        self.book.purses(alloc)
    }

    fn members(&mut self, alloc: Global) -> Result<Vec<Name>, StoreFault> {
        self.pass()?;
        self.book.members(alloc)
    }

    fn archived(
        &mut self,
        alloc: Global,
        purse: Name,
        details: &PayDetails,
    ) -> Result<bool, StoreFault> {
        self.pass()?;
        self.book.archived(alloc, purse, details)
    }

    fn settled(&mut self, alloc: Global, details: &PayDetails) -> Result<bool, StoreFault> {
        self.pass()?;
        self.book.settled(alloc, details)
    }

    fn tray(&mut self, alloc: Global, purse: Name) -> Result<Log, StoreFault> {
        self.pass()?;
        self.book.tray(alloc, purse)
    }

    fn load_of(
        &mut self,
        alloc: Global,
        purse: Name,
        reference: Name,
    ) -> Result<Option<Amount>, StoreFault> {
        self.pass()?;
        self.book.load_of(alloc, purse, reference)
    }

    fn redemption_of(
        &mut self,
        alloc: Global,
        purse: Name,
        reference: Name,
    ) -> Result<Option<Amount>, StoreFault> {
        self.pass()?;
        self.book.redemption_of(alloc, purse, reference)
    }

    fn uncollected(&mut self, alloc: Global, member: Name) -> Result<u128, StoreFault> {
        self.pass()?;
        self.book.uncollected(alloc, member)
    }

    fn totals(&mut self, alloc: Global) -> Result<Totals, StoreFault> {
        self.pass()?;
        self.book.totals(alloc)
    }

    fn member_totals(
        &mut self,
        alloc: Global,
        member: Name,
    ) -> Result<Option<MemberTotals>, StoreFault> {
        self.pass()?;
        self.book.member_totals(alloc, member)
    }

    fn members_totals(&mut self, alloc: Global) -> Result<Vec<(Name, MemberTotals)>, StoreFault> {
        self.pass()?;
        self.book.members_totals(alloc)
    }

    fn apply(&mut self, edits: &[Edit]) -> Result<(), StoreFault> {
        self.pass()?;
        self.book.apply(edits)
    }

    fn settle(&mut self) -> Result<(), StoreFault> {
        self.book.settle()
    }

    ghost lawful = { λ b. record {
      sound = (B.lawful b.book).sound;
      based = (B.lawful b.book).based;
      left = (B.lawful b.book).left;
      steady = (B.lawful b.book).steady;
      rest = (B.lawful b.book).rest;
      deep = (B.lawful b.book).deep;
    } };

    ghost doubted = { λ _. inr (λ _. tt) };
}
