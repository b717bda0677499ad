//! The book in memory.
ghost use Rattle.std.specs.Prelude.{◌≡◌};
ghost use Rattle.std.proofs.Common.{inl, inr, refl, arith};
ghost use Rattle.mx_book.specs.World.{opening};
ghost use Rattle.mx_book.specs.Rows.{Rows as Kept, world_of};
ghost use Rattle.mx_memory.specs.Shelves.{rows_of};
ghost use Rattle.mx_book.specs.Spells.{Spells, one_world};
ghost use Rattle.mx_book.specs.Views.{IsSure};

use crate::shelves::Shelves;
use mx_book::contract::{Book, StoreFault};
use mx_book::edits::Edit;
use mx_book::rows::RowBook;
use mx_book::values::{Account, Caller, HolderRow, Line, MemberRow, MemberTotals, Totals};
use mx_pay::{Amount, Log, Name, PayDetails, Token};
use mx_purse::message::Message;
use mx_purse::purse::Purse;
use mx_standing::Standing;
use std::alloc::Global;

/// A book that keeps its rows in vectors. It always spells a World, and it never answers Store: a read that
/// gives no Vec never fails, and the other calls fail only for want of memory.
#[derive(Drop)]
pub struct PlainBook {
    shelves: Shelves,
    ghost spelled: { ∥ Spells (rows_of shelves) (world_of (rows_of shelves)) ∥₁ },
}

impl PlainBook {
    /// A book that spells the World that has nothing but this token of the operator.
    pub fn new(alloc: Global, operator: Token) -> PlainBook
        ensures { ⟦<PlainBook as RowBook>⟧.spells (⟦<PlainBook as RowBook>⟧.rows result)
            (opening operator) }
    {
        // The reader says that the token has its bytes.
        let _bytes = operator.as_bytes();
        PlainBook {
            shelves: Shelves::new(alloc, operator),
        }
    }
}

impl RowBook for PlainBook {
    ghost Rows = { Kept };

    ghost rows = { λ b. rows_of b.shelves };

    ghost spells = { Spells };

    ghost doubt = { λ _. 0 };

    // Each change is settled at once.
    ghost base = { λ b. rows_of b.shelves };

    ghost harm = { λ _. 0 };

    ghost settled = { λ _. Unit {0} };

    ghost defers = { ⊥ };

    // Nothing outlives it.
    ghost leaves = { λ _ _. ⊥ };

    ghost fails = { λ _. ⊥ };

    ghost faults = { λ _. 0 };

    ghost limited = { λ _. ⊥ };

    fn who(&mut self, _alloc: Global, token: &Token) -> Result<Option<Caller>, StoreFault> {
        Ok(self.shelves.who(token))
    }

    fn member(&mut self, _alloc: Global, name: Name) -> Result<Option<MemberRow>, StoreFault> {
        Ok(self.shelves.members.get(name).copied())
    }

    fn holder(&mut self, _alloc: Global, name: Name) -> Result<Option<HolderRow>, StoreFault> {
        Ok(self.shelves.holder(name))
    }

    fn purse(&mut self, _alloc: Global, name: Name) -> Result<Option<Account>, StoreFault> {
        self.shelves.account(name)
    }

    fn has_purse(&mut self, _alloc: Global, name: Name) -> Result<bool, StoreFault> {
        Ok(self.shelves.purses.bare(name).is_some())
    }

    fn own_purse(
        &mut self,
        _alloc: Global,
        holder: Name,
        purse: Name,
    ) -> Result<Option<Purse>, StoreFault> {
        self.shelves.own_purse(holder, purse)
    }

    fn is_own(&mut self, _alloc: Global, holder: Name, purse: Name) -> Result<bool, StoreFault> {
        Ok(self.shelves.is_own(holder, purse))
    }

    fn finds_place(&mut self, _alloc: Global, purse: Name) -> Result<bool, StoreFault> {
        Ok(self.shelves.finds_place(purse))
    }

    fn purses_of(&mut self, alloc: Global, holder: Name) -> Result<Vec<Name>, StoreFault> {
        Ok(self.shelves.purses_of(alloc, holder)?)
    }

    fn inbox(&mut self, alloc: Global, purse: Name) -> Result<Vec<(u64, Message)>, StoreFault> {
        Ok(self.shelves.inbox_of(alloc, purse)?)
    }

    fn message(
        &mut self,
        _alloc: Global,
        purse: Name,
        number: u64,
    ) -> Result<Option<Message>, StoreFault> {
        match self.shelves.inbox.get((purse, number)) {
            Some(message) => Ok(Some(*message)),
            None => Ok(None),
        }
    }

    fn has_message(
        &mut self,
        _alloc: Global,
        purse: Name,
        number: u64,
    ) -> Result<bool, StoreFault> {
        Ok(self.shelves.inbox.get((purse, number)).is_some())
    }

    fn lines(
        &mut self,
        alloc: Global,
        purse: Name,
        after: u64,
        most: u64,
    ) -> Result<Vec<Line>, StoreFault> {
        Ok(self.shelves.lines_of(alloc, purse, after, most)?)
    }

    fn purses(&mut self, alloc: Global) -> Result<Vec<Name>, StoreFault> {
        Ok(self.shelves.purse_names(alloc)?)
    }

    fn members(&mut self, alloc: Global) -> Result<Vec<Name>, StoreFault> {
        Ok(self.shelves.members_of(alloc)?)
    }

    fn load_of(
        &mut self,
        _alloc: Global,
        purse: Name,
        reference: Name,
    ) -> Result<Option<Amount>, StoreFault> {
        Ok(self.shelves.load_of(purse, reference))
    }

    fn redemption_of(
        &mut self,
        _alloc: Global,
        purse: Name,
        reference: Name,
    ) -> Result<Option<Amount>, StoreFault> {
        Ok(self.shelves.redemption_of(purse, reference))
    }

    fn archived(
        &mut self,
        _alloc: Global,
        purse: Name,
        details: &PayDetails,
    ) -> Result<bool, StoreFault> {
        Ok(self.shelves.is_archived(purse, details))
    }

    fn settled(&mut self, _alloc: Global, details: &PayDetails) -> Result<bool, StoreFault> {
        Ok(self.shelves.is_settled(details))
    }

    fn tray(&mut self, _alloc: Global, purse: Name) -> Result<Log, StoreFault> {
        Ok(self.shelves.tray_of(purse))
    }

    fn uncollected(&mut self, _alloc: Global, member: Name) -> Result<u128, StoreFault> {
        Ok(self.shelves.uncollected_of(member))
    }

    fn totals(&mut self, _alloc: Global) -> Result<Totals, StoreFault> {
        Ok(self.shelves.totals())
    }

    fn member_totals(
        &mut self,
        _alloc: Global,
        member: Name,
    ) -> Result<Option<MemberTotals>, StoreFault> {
        Ok(self.shelves.member_totals(member))
    }

    fn members_totals(&mut self, alloc: Global) -> Result<Vec<(Name, MemberTotals)>, StoreFault> {
        Ok(self.shelves.members_totals(alloc)?)
    }

    fn apply(&mut self, edits: &[Edit]) -> Result<(), StoreFault> {
        self.shelves.reserve(edits)?;
        self.shelves.edit_all(edits);
        Ok(())
    }

    ghost sound = { λ r w h. h.sound };

    ghost single = { one_world };

    fn settle(&mut self) -> Result<(), StoreFault> {
        Ok(())
    }

    ghost steady = { λ b r h left. absurd left };

    ghost rest = { λ b _. (refl, λ _. refl) };

    ghost deep = { λ b. omega arith };

    ghost doubted = { λ _. inl refl };

    ghost waits = { inr (λ b. tt) };
}

/// A book in memory. Its World has nothing but this token of the operator.
pub fn new_book(alloc: Global, operator: Token) -> Standing<PlainBook>
    ensures world { (⟦<Standing<PlainBook> as Book>⟧.view result).world ≡ opening operator }
    ensures sure { IsSure (⟦<Standing<PlainBook> as Book>⟧.view result) }
    ensures still { (⟦<Standing<PlainBook> as Book>⟧.view result).IsSettled }
    ensures faultless { (fault : _) → ¬ ⟦<Standing<PlainBook> as Book>⟧.fails fault }
{
    Standing::of(PlainBook::new(alloc, operator))
}
