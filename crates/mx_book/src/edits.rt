//! The changes of a book, and short lists of them.
ghost use Rattle.std.specs.Prelude.{◌≡◌, ◌≤◌, ◌<◌, ◌++◌, ◌∷◌, [], length};

use crate::values::Line;
use arrayvec::ArrayVec;
use mx_pay::{Amount, Name, PayDetails, Token};
use mx_purse::Purse;
use mx_purse::message::Message;
use std::marker::Model;

/// One change of what a book keeps.
#[derive(Clone, Copy)]
pub enum Edit {
    /// A new member with grants 0 and float 0, and the token of its clerk.
    NewMember {
        /// The member.
        member: Name,
        /// The token of its clerk.
        clerk: Token,
    },
    /// What is kept of a member becomes this.
    SetMember {
        /// The member.
        member: Name,
        /// The sum of all grants to the member, from 0 to 10^15.
        granted: u64,
        /// What is left to load purses with, from 0 to 10^15.
        float: u64,
    },
    /// A new holder of a member, and the holder's token.
    NewHolder {
        /// The holder.
        holder: Name,
        /// The member whose clerk adds the holder.
        member: Name,
        /// The holder's token.
        token: Token,
    },
    /// A new purse of a holder, with an empty inbox, next message number 0 and no lines.
    NewPurse {
        /// The purse.
        purse: Name,
        /// Its holder.
        holder: Name,
    },
    /// The purse of that name becomes this one.
    SetPurse {
        /// The purse as it is from now on.
        purse: Purse,
    },
    /// A message comes into an inbox under its next message number, which rises by one.
    AddMessage {
        /// The purse whose inbox it is.
        purse: Name,
        /// The message.
        message: Message,
    },
    /// A message leaves an inbox.
    DropMessage {
        /// The purse whose inbox it is.
        purse: Name,
        /// The number of the message.
        number: u64,
    },
    /// The next line of a purse's statement.
    AddLine {
        /// The purse.
        purse: Name,
        /// The line.
        line: Line,
    },
    /// A load of a purse.
    AddLoad {
        /// The purse.
        purse: Name,
        /// The reference of the load, which no other load of the purse has.
        reference: Name,
        /// How much was loaded.
        amount: Amount,
    },
    /// A redemption of a purse, which isn't collected.
    AddRedemption {
        /// The purse.
        purse: Name,
        /// The reference of the redemption, which no other redemption of the purse has.
        reference: Name,
        /// How much was redeemed.
        amount: Amount,
    },
    /// A result of read log that was sent, which is in neither the tray nor the archive.
    AddTray {
        /// The purse whose log it is.
        purse: Name,
        /// The details that were read.
        details: PayDetails,
    },
    /// What lies in the tray of a purse goes to the archive.
    ArchiveTray {
        /// The purse. What lies in its tray are entries of its log.
        purse: Name,
    },
    /// All redemptions of the purses of a member's holders are collected.
    Collect {
        /// The member.
        member: Name,
    },
    /// The lost value of a payment is given back to the purse that paid it.
    AddSettled {
        /// The details of the payment, which weren't settled before.
        details: PayDetails,
    },
}

/// A name, for the edit that fills a place that no edit takes.
#[tactic(auto, unfolding(mx_pay::specs::Names::is_name_text))]
fn some_name() -> Name {
    match Name::read("none") {
        Some(name) => name,
        None => unreachable!(),
    }
}

/// What fills the places of a list of edits that no edit takes.
impl Default for Edit {
    fn default() -> Self {
        Edit::DropMessage {
            purse: some_name(),
            number: 0,
        }
    }
}

/// Adds an item to a list of at most 4.
fn push_to<T: Copy>(list: &mut ArrayVec<T, 4>, item: &T)
    requires { length list.old.items < 4 }
    ensures { list.new.items ≡ list.old.items ++ item.now ∷ [] }
{
    list.push(*item);
}

/// At most 4 edits, in order. A contract sees the list of them.
#[derive(Drop)]
pub struct Edits {
    list: ArrayVec<Edit, 4>,
}

impl Model for Edits {
    ghost use Rattle.std.specs.Prelude.{List};
    ghost use Rattle.std.specs.Coded.{coded_list};
    ghost use Rattle.mx_book.specs.declared.edits.Edit.{Edit};
    ghost use Rattle.mx_book.specs.contracts.edits.Edit as edit;

    ghost Value = { List Edit };

    ghost coded = { coded_list (edit.the_row).coded };

    ghost view = { λ e. e.list.items };
}

impl Edits {
    /// No edits.
    pub fn new() -> Edits
        ensures { result ≡ [] }
    {
        Edits {
            list: ArrayVec::new(),
        }
    }

    /// Forgets the edits.
    pub fn clear(&mut self)
        ensures { self.new ≡ [] }
    {
        self.list.clear();
    }

    /// Adds an edit after those that are there, which are at most 3.
    pub fn push(&mut self, edit: &Edit)
        requires { length self.old < 4 }
        ensures { self.new ≡ self.old ++ edit.now ∷ [] }
    {
        push_to(&mut self.list, edit);
    }

    /// The edits, in order.
    pub fn as_slice(&self) -> &[Edit]
        ensures value { result.now ≡ self.now }
        ensures few { length self.now ≤ 4 }
    {
        self.list.as_slice()
    }
}
