//! The trait that every book meets.
ghost use Rattle.std.specs.Prelude.{◌≡◌, ◌⊎◌, is_some, IfErr};
ghost use Rattle.mx_book.specs.Edits.{Fits, all_edited};
ghost use Rattle.mx_book.specs.Reads.{who_of, member_of, holder_of, account_of, has_purse, own_purse, finds_place, purses_of, inbox_of, message_of, lines_of, purse_names_of, members_of, load_of, redemption_of, is_archived, is_settled, tray_of, uncollected_of};
ghost use Rattle.mx_book.specs.Totals.{totals_of, member_totals_of, members_totals_of};
ghost use Rattle.mx_book.specs.declared.contract.StoreFault.{StoreFault};
ghost use Rattle.mx_book.specs.declared.contract.StoreFault.TheVariants.{Memory};
ghost use Rattle.mx_book.specs.Views.{View, IsLawful, Answers, Changes, Settles, IsSure};

use crate::edits::Edit;
use crate::values::{Account, Caller, HolderRow, Line, MemberRow, MemberTotals, Totals};
use mx_pay::{Amount, Log, Name, PayDetails, Token};
use mx_purse::message::Message;
use mx_purse::purse::Purse;
use std::alloc::{AllocError, AllocFailed, Global};

/// Why a call of a book failed.
#[derive(Clone, Copy, Debug, PartialEq, Eq)]
pub enum StoreFault {
    /// There is no memory for the answer or the rows.
    Memory,
    /// The store refused a statement for another cause, or holds a row that isn't a value of the World.
    Store,
}

impl From<AllocError> for StoreFault {
    ghost from_gives = { λ _ fault. fault ≡ Memory };

    fn from(_error: AllocError) -> StoreFault {
        StoreFault::Memory
    }
}

impl<T: Drop> From<AllocFailed<T>> for StoreFault {
    ghost from_gives = { λ _ fault. fault ≡ Memory };

    fn from(_refused: AllocFailed<T>) -> StoreFault {
        StoreFault::Memory
    }
}

/// A book: it keeps the World of the office.
///
/// A contract sees what it shows (`View`): the World, whether it is in doubt, and what a stop leaves. A read leaves the
/// World and gives its value. `apply` makes all edits or none. What is changed between two settles is a round, which is
/// kept or given up as a whole. What is answered in it is so only if its settle answers.
///
/// A fault may undo what waits for a settle. Then the World is doubted until that, which is a fault too.
pub trait Book {
    ghost view: { Self → View };

    /// Why a call that takes no memory may fail.
    ghost fails: { StoreFault → Type 0 };

    /// Whose token it is, or None where it is nobody's.
    fn who(&mut self, alloc: Global, token: &Token) -> Result<Option<Caller>, StoreFault>
        ensures { Answers fails (view self.old) (view self.new) result
            (λ w r. r ≡ who_of w token.now) };

    /// The grants and the float of a member, or None where there is no such member.
    fn member(&mut self, alloc: Global, name: Name) -> Result<Option<MemberRow>, StoreFault>
        ensures { Answers fails (view self.old) (view self.new) result
            (λ w r. r ≡ member_of w name) };

    /// The member of a holder and how many purses the holder has, or None where there is no such holder.
    fn holder(&mut self, alloc: Global, name: Name) -> Result<Option<HolderRow>, StoreFault>
        ensures { Answers fails (view self.old) (view self.new) result
            (λ w r. r ≡ holder_of w name) };

    /// A purse with its holder and the holder's member, how many messages it holds and the number of its next
    /// one, or None where there is no such purse.
    fn purse(&mut self, alloc: Global, name: Name) -> Result<Option<Account>, StoreFault>
        ensures { Answers fails (view self.old) (view self.new) result
            (λ w r. r ≡ account_of w name) };

    /// Whether there is a purse of that name.
    fn has_purse(&mut self, alloc: Global, name: Name) -> Result<bool, StoreFault>
        ensures { Answers fails (view self.old) (view self.new) result
            (λ w b. b ≡ has_purse w name) };

    /// The purse of that name where it is this holder's, or None where it is another's or there is none.
    fn own_purse(
        &mut self,
        alloc: Global,
        holder: Name,
        purse: Name,
    ) -> Result<Option<Purse>, StoreFault>
        ensures { Answers fails (view self.old) (view self.new) result
            (λ w r. r ≡ own_purse w holder purse) };

    /// Whether the purse of that name is there and is this holder's.
    fn is_own(&mut self, alloc: Global, holder: Name, purse: Name) -> Result<bool, StoreFault>
        ensures { Answers fails (view self.old) (view self.new) result
            (λ w b. b ≡ is_some (own_purse w holder purse)) };

    /// Whether a message to a purse finds a place: the purse is there, its inbox has fewer than 32, and the number of
    /// its next message is below 10^15.
    fn finds_place(&mut self, alloc: Global, purse: Name) -> Result<bool, StoreFault>
        ensures { Answers fails (view self.old) (view self.new) result
            (λ w b. b ≡ finds_place w purse) };

    /// The names of a holder's purses, in order; none where there is no such holder.
    fn purses_of(&mut self, alloc: Global, holder: Name) -> Result<Vec<Name>, StoreFault>
        ensures { Answers (λ e. (e ≡ Memory) ⊎ fails e) (view self.old) (view self.new) result
            (λ w r. r.items ≡ purses_of w holder) };

    /// The messages in the inbox of a purse with their numbers, by number; none where there is no such purse.
    fn inbox(&mut self, alloc: Global, purse: Name) -> Result<Vec<(u64, Message)>, StoreFault>
        ensures { Answers (λ e. (e ≡ Memory) ⊎ fails e) (view self.old) (view self.new) result
            (λ w r. r.items ≡ inbox_of w purse) };

    /// The message of that number in the inbox of a purse, or None where there is none.
    fn message(
        &mut self,
        alloc: Global,
        purse: Name,
        number: u64,
    ) -> Result<Option<Message>, StoreFault>
        ensures { Answers fails (view self.old) (view self.new) result
            (λ w r. r ≡ message_of w purse number) };

    /// Whether a message of that number lies in the inbox of a purse.
    fn has_message(&mut self, alloc: Global, purse: Name, number: u64) -> Result<bool, StoreFault>
        ensures { Answers fails (view self.old) (view self.new) result
            (λ w b. b ≡ is_some (message_of w purse number)) };

    /// The first `most` lines of a purse that are numbered above `after`, by number; all of them where there
    /// are fewer, and none where there is no such purse.
    fn lines(
        &mut self,
        alloc: Global,
        purse: Name,
        after: u64,
        most: u64,
    ) -> Result<Vec<Line>, StoreFault>
        ensures { Answers (λ e. (e ≡ Memory) ⊎ fails e) (view self.old) (view self.new) result
            (λ w r. r.items ≡ lines_of w purse after most) };

    /// The names of the purses, in order.
    fn purses(&mut self, alloc: Global) -> Result<Vec<Name>, StoreFault>
        ensures { Answers (λ e. (e ≡ Memory) ⊎ fails e) (view self.old) (view self.new) result
            (λ w r. r.items ≡ purse_names_of w) };

    /// The names of the members, in order.
    fn members(&mut self, alloc: Global) -> Result<Vec<Name>, StoreFault>
        ensures { Answers (λ e. (e ≡ Memory) ⊎ fails e) (view self.old) (view self.new) result
            (λ w r. r.items ≡ members_of w) };

    /// The amount of the load of a purse with that reference, or None where there is none.
    fn load_of(
        &mut self,
        alloc: Global,
        purse: Name,
        reference: Name,
    ) -> Result<Option<Amount>, StoreFault>
        ensures { Answers fails (view self.old) (view self.new) result
            (λ w r. r ≡ load_of w purse reference) };

    /// The amount of the redemption of a purse with that reference, or None where there is none.
    fn redemption_of(
        &mut self,
        alloc: Global,
        purse: Name,
        reference: Name,
    ) -> Result<Option<Amount>, StoreFault>
        ensures { Answers fails (view self.old) (view self.new) result
            (λ w r. r ≡ redemption_of w purse reference) };

    /// Whether details are archived for a purse; false where there is no such purse.
    fn archived(
        &mut self,
        alloc: Global,
        purse: Name,
        details: &PayDetails,
    ) -> Result<bool, StoreFault>
        ensures { Answers fails (view self.old) (view self.new) result
            (λ w b. b ≡ is_archived w purse details.now) };

    /// Whether details are settled.
    fn settled(&mut self, alloc: Global, details: &PayDetails) -> Result<bool, StoreFault>
        ensures { Answers fails (view self.old) (view self.new) result
            (λ w b. b ≡ is_settled w details.now) };

    /// The results of read log of a purse that were sent and aren't archived; none where there is no such purse.
    fn tray(&mut self, alloc: Global, purse: Name) -> Result<Log, StoreFault>
        ensures { Answers fails (view self.old) (view self.new) result
            (λ w log. log ≡ tray_of w purse) };

    /// The sum of the redemptions of the purses of a member's holders that aren't collected; 0 where there is
    /// no such member.
    fn uncollected(&mut self, alloc: Global, member: Name) -> Result<u128, StoreFault>
        ensures { Answers fails (view self.old) (view self.new) result
            (λ w r. r ≡ uncollected_of w member) };

    /// What the books come to for the whole scheme.
    fn totals(&mut self, alloc: Global) -> Result<Totals, StoreFault>
        ensures { Answers fails (view self.old) (view self.new) result
            (λ w r. r ≡ totals_of w) };

    /// What the books come to for a member and the purses of the member's holders, or None where there is no such
    /// member.
    fn member_totals(
        &mut self,
        alloc: Global,
        member: Name,
    ) -> Result<Option<MemberTotals>, StoreFault>
        ensures { Answers fails (view self.old) (view self.new) result
            (λ w r. r ≡ member_totals_of w member) };

    /// Each member, in order, with what the books come to for it.
    fn members_totals(&mut self, alloc: Global) -> Result<Vec<(Name, MemberTotals)>, StoreFault>
        ensures { Answers (λ e. (e ≡ Memory) ⊎ fails e) (view self.old) (view self.new) result
            (λ w r. r.items ≡ members_totals_of w) };

    /// Makes these edits in order, all of them, or none where it answers a fault. They fit the World.
    fn apply(&mut self, edits: &[Edit]) -> Result<(), StoreFault>
        requires { IsSure (view self.old) → Fits (view self.old).world edits.now }
        ensures { Changes (λ e. (e ≡ Memory) ⊎ fails e) (view self.old) (view self.new) result
            (λ w. all_edited w edits.now) };

    /// Settles what was changed since the last settle: all of it, or none where it answers a fault. Only where all of it
    /// stands, and the store works, is there no fault. A stop leaves what it could leave before, or the World with all of
    /// it.
    fn settle(&mut self) -> Result<(), StoreFault>
        ensures settles { Settles (view self.old) (view self.new) result }
        ensures fault { IfErr result fails };

    ghost lawful: { (b : Self) → IsLawful (view b) };

    /// Only a book whose calls may fail for any cause is ever doubted.
    ghost doubted: { (b : Self) → IsSure (view b) ⊎ ((e : StoreFault) → fails e) };
}
