//! One table for each kind of row.
ghost use Rattle.mx_pay.specs.Names.{name_cmp};
ghost use Rattle.mx_memory.specs.Due.{due_cmp, IsTied};
ghost use Rattle.mx_sorted.specs.Slots.{map_of};
ghost use Rattle.mx_book.specs.Under.{pair_cmp};

use crate::purses::Purses;
use mx_book::values::{Caller, LineRow, MemberRow, Redemption};
use mx_pay::{Amount, Name, PayDetails, Token};
use mx_purse::message::Message;
use mx_sorted::Table;

/// The operator's token and one table for each kind of row. A row of a purse has the purse's name as the first
/// part of its key.
#[derive(Drop)]
pub struct Shelves {
    /// The operator's token.
    pub operator: Token,
    /// The tokens of the clerks and the holders.
    pub tokens: Table<Token, Caller>,
    /// The members.
    pub members: Table<Name, MemberRow>,
    /// Each holder's member.
    pub holders: Table<Name, Name>,
    /// The purses.
    pub purses: Purses,
    /// Messages by purse and number.
    pub inbox: Table<(Name, u64), Message>,
    /// Lines by purse and number.
    pub lines: Table<(Name, u64), LineRow>,
    /// The results of read log that were sent and aren't archived.
    pub tray: Table<(Name, PayDetails), ()>,
    /// Those that are archived.
    pub archive: Table<(Name, PayDetails), ()>,
    /// The details of the payments whose lost value was given back.
    pub settled: Table<PayDetails, ()>,
    /// The amounts of loads by purse and reference.
    pub loads: Table<(Name, Name), Amount>,
    /// Redemptions by purse and reference.
    pub redemptions: Table<(Name, Name), Redemption>,
    /// Those that aren't collected, under the member of the purse's holder. None is no redemption, and comes before
    /// all of them.
    pub(super) due: Table<(Name, Option<(Name, Name)>), ()>,
    ghost tied: { IsTied (map_of name_cmp purses) (map_of name_cmp holders) (map_of (pair_cmp name_cmp name_cmp) redemptions) (map_of due_cmp due) },
}
