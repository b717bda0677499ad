//! What the audit has seen of the rows so far.
ghost use Rattle.std.specs.Prelude.{◌≡◌, ◌≤◌, ◌+◌, ◌^◌, Bool, IfErr, IfOk, is_some, map, true};
ghost use Rattle.std.specs.FinMap.{contains_key};
ghost use Rattle.mx_pay.specs.Names.{name_cmp};
ghost use Rattle.mx_sorted.specs.Slots.{map_of};
ghost use Rattle.std.specs.List.{list_all};
ghost use Rattle.mx_sorted.specs.Left.{rows_left};
ghost use Rattle.mx_book.specs.World.{Name as NameOf};
ghost use Rattle.mx_book.specs.declared.values.LineRow.{LineRow};
ghost use Rattle.mx_audit.specs.Seen.{Sees, nothing_seen, changed_at, fits_member, with_member, fits_holder, with_holder, fits_token, with_token, fits_purse, with_purse, fits_message, with_message, fits_line, with_line, has_purse, is_filled, is_whole, is_whole_holder, is_whole_purse};
ghost use Rattle.mx_audit.specs.declared.seen.HolderSeen.{HolderSeen as OfHolder};
ghost use Rattle.mx_audit.specs.declared.seen.PurseSeen.{PurseSeen as OfPurse};

use mx_book::values::{Caller, MOST_MESSAGES, MOST_PURSES, MemberRow, PurseRow};
use mx_pay::numbers::MOST_NUMBER;
use mx_pay::{Name, Token};
use mx_purse::message::Message;
use mx_sorted::{Rows, Table};
use std::alloc::{AllocError, Global};
use std::marker::Model;

/// What was seen of a holder.
#[derive(Clone, Copy)]
pub struct HolderSeen {
    /// Whether a token is the holder's.
    pub has_token: bool,
    /// How many purses are the holder's.
    pub purses: u64,
}

/// What was seen of a purse.
#[derive(Clone, Copy)]
pub struct PurseSeen {
    /// The number that its next message gets.
    pub next_message: u64,
    /// How many lines it has to have.
    pub line_count: u64,
    /// How many messages lie in its inbox.
    pub messages: u64,
    /// How many lines it has.
    pub lines: u64,
}

/// What was seen of the rows of all tables so far. A row is taken in only where it fits what was seen before it.
#[derive(Drop)]
pub struct Seen {
    /// The token of the first row of tokens, which has to be the operator's.
    operator: Option<Token>,
    /// What was granted to the members.
    granted: u64,
    /// Whether each member has a token.
    members: Table<Name, bool>,
    /// The holders.
    holders: Table<Name, HolderSeen>,
    /// The purses.
    purses: Table<Name, PurseSeen>,
}

impl Model for Seen {
    ghost use Rattle.std.specs.Coded.{codes};
    ghost use Rattle.std.specs.FinMap.{code};
    ghost use Rattle.mx_pay.specs.Names.{name_cmp};
    ghost use Rattle.mx_sorted.specs.Slots.{map_of};
    ghost use Rattle.mx_audit.specs.Seen.{Seen as AllSeen};

    ghost Value = { AllSeen };

    ghost coded = { Prim.hlevel (codes, code) };

    ghost view = { λ s. record {
      operator = s.operator;
      granted = s.granted;
      members = map_of name_cmp s.members;
      holders = map_of name_cmp s.holders;
      purses = map_of name_cmp s.purses;
    } };
}

impl Seen {
    /// Nothing is seen yet.
    pub fn new(alloc: Global) -> Seen
        ensures { result ≡ nothing_seen }
    {
        Seen {
            operator: None,
            granted: 0,
            members: Table::new(alloc),
            holders: Table::new(alloc),
            purses: Table::new(alloc),
        }
    }

    /// Takes in a member, and says whether the row fits: whether all that was granted stays within 10^15. One that
    /// doesn't fit changes nothing, and nor does an AllocError.
    pub fn see_member(&mut self, name: Name, member: &MemberRow) -> Result<bool, AllocError>
        ensures ok { Sees result self.old self.new (fits_member self.old (name, member.now))
            (with_member self.old (name, member.now)) }
        ensures err { IfErr result (λ _. self.new ≡ self.old) }
    {
        let granted = match self.granted.checked_add(member.granted) {
            Some(sum) if sum <= MOST_NUMBER => sum,
            _ => return Ok(false),
        };
        self.members.reserve(1)?;
        self.members.put(name, false);
        self.granted = granted;
        Ok(true)
    }

    /// Takes in a holder, and says whether the row fits: whether the holder's member was seen. One that doesn't fit
    /// changes nothing, and nor does an AllocError.
    pub fn see_holder(&mut self, holder: Name, member: Name) -> Result<bool, AllocError>
        ensures ok { Sees result self.old self.new (fits_holder self.old (holder, member))
            (with_holder self.old (holder, member)) }
        ensures err { IfErr result (λ _. self.new ≡ self.old) }
    {
        if self.members.get(member).is_none() {
            return Ok(false);
        }
        let seen = HolderSeen {
            has_token: false,
            purses: 0,
        };
        self.holders.reserve(1)?;
        self.holders.put(holder, seen);
        Ok(true)
    }

    /// Takes in a token, and says whether the row fits: whether the first token is the operator's, and each other
    /// that of a member or a holder that was seen. One that doesn't fit changes nothing, and nor does an AllocError.
    pub fn see_token(&mut self, token: Token, caller: &Caller) -> Result<bool, AllocError>
        ensures ok { Sees result self.old self.new (fits_token self.old (token, caller.now))
            (with_token self.old (token, caller.now)) }
        ensures err { IfErr result (λ _. self.new ≡ self.old) }
    {
        match (&self.operator, caller) {
            (None, Caller::Operator) => {
                self.operator = Some(token);
                Ok(true)
            }
            (Some(_), Caller::Clerk(member)) => mark_member(&mut self.members, *member),
            (Some(_), Caller::Holder(holder)) => mark_holder(&mut self.holders, *holder),
            _ => Ok(false),
        }
    }

    /// Takes in a purse, and says whether the row fits: whether its holder was seen. One that doesn't fit changes
    /// nothing, and nor does an AllocError.
    pub fn see_purse(&mut self, name: Name, purse: &PurseRow) -> Result<bool, AllocError>
        ensures ok { Sees result self.old self.new (fits_purse self.old (name, purse.now))
            (with_purse self.old (name, purse.now)) }
        ensures err { IfErr result (λ _. self.new ≡ self.old) }
    {
        let Some(holder) = self.holders.get(purse.holder) else {
            return Ok(false);
        };
        let holder = HolderSeen {
            purses: one_more(holder.purses)?,
            ..*holder
        };
        let seen = PurseSeen {
            next_message: purse.next_message,
            line_count: purse.purse.lines(),
            messages: 0,
            lines: 0,
        };
        self.holders.reserve(1)?;
        self.purses.reserve(1)?;
        self.holders.put(purse.holder, holder);
        self.purses.put(name, seen);
        Ok(true)
    }

    /// Takes in a message, and says whether the row fits: whether its purse was seen, its number is below that of the
    /// purse's next one, and a clear has something to clear. One that doesn't fit changes nothing, and nor does an
    /// AllocError.
    pub fn see_message(
        &mut self,
        purse: Name,
        number: u64,
        message: &Message,
    ) -> Result<bool, AllocError>
        ensures ok { Sees result self.old self.new
            (fits_message self.old ((purse, number), message.now))
            (with_message self.old ((purse, number), message.now)) }
        ensures err { IfErr result (λ _. self.new ≡ self.old) }
    {
        let seen = match self.purses.get(purse) {
            Some(seen) if number < seen.next_message && is_filled(message) => seen,
            _ => return Ok(false),
        };
        let seen = PurseSeen {
            messages: one_more(seen.messages)?,
            ..*seen
        };
        self.purses.reserve(1)?;
        self.purses.put(purse, seen);
        Ok(true)
    }

    /// Takes in a line, and says whether the row fits: whether its purse was seen, and its number is from 1 to how many
    /// lines that has to have. One that doesn't fit changes nothing, and nor does an AllocError.
    pub fn see_line(&mut self, purse: Name, number: u64) -> Result<bool, AllocError>
        ensures ok { (line : LineRow) → Sees result self.old self.new
            (fits_line self.old ((purse, number), line))
            (with_line self.old ((purse, number), line)) }
        ensures err { IfErr result (λ _. self.new ≡ self.old) }
    {
        let seen = match self.purses.get(purse) {
            Some(seen) if 1 <= number && number <= seen.line_count => seen,
            _ => return Ok(false),
        };
        let seen = PurseSeen {
            lines: one_more(seen.lines)?,
            ..*seen
        };
        self.purses.reserve(1)?;
        self.purses.put(purse, seen);
        Ok(true)
    }

    /// Whether a purse was seen.
    pub fn has_purse(&self, purse: Name) -> bool
        ensures { result ≡ has_purse self.now purse }
    {
        self.purses.get(purse).is_some()
    }

    /// Whether the operator has a token.
    pub fn has_operator(&self) -> bool
        ensures { result ≡ is_some self.now.operator }
    {
        self.operator.is_some()
    }

    /// What was seen of a purse.
    pub fn purse(&self, name: Name) -> Option<&PurseSeen> {
        self.purses.get(name)
    }

    /// Each member that was seen, and whether it has a token.
    pub fn members(&self) -> Rows<'_, Name, bool> {
        self.members.rows()
    }

    /// What was seen of each holder.
    pub fn holders(&self) -> Rows<'_, Name, HolderSeen> {
        self.holders.rows()
    }

    /// What was seen of each purse.
    pub fn purses(&self) -> Rows<'_, Name, PurseSeen> {
        self.purses.rows()
    }

    /// Whether what was seen is whole: whether the operator, each member and each holder has a token, no holder has
    /// more than 64 purses, and each purse has at most 32 messages and as many lines as it has to have.
    pub fn is_whole(&self) -> bool
        ensures { result ≡ is_whole self.now }
    {
        self.has_operator()
            && are_marked(self.members.rows())
            && are_whole_holders(self.holders.rows())
            && are_whole_purses(self.purses.rows())
    }
}

/// Marks that a member has a token, and says whether the member is there. An AllocError changes nothing.
fn mark_member(members: &mut Table<Name, bool>, member: Name) -> Result<bool, AllocError>
    ensures there { IfOk result (λ there.
        there ≡ contains_key (map_of name_cmp members.old) member) }
    ensures ok { IfOk result (λ _. map_of name_cmp members.new
        ≡ changed_at (map_of name_cmp members.old) member (λ _. true)) }
    ensures err { IfErr result (λ _. map_of name_cmp members.new ≡ map_of name_cmp members.old) }
{
    if members.get(member).is_none() {
        return Ok(false);
    }
    members.reserve(1)?;
    members.put(member, true);
    Ok(true)
}

/// Marks that a holder has a token, and says whether the holder is there. An AllocError changes nothing.
fn mark_holder(holders: &mut Table<Name, HolderSeen>, holder: Name) -> Result<bool, AllocError>
    ensures there { IfOk result (λ there.
        there ≡ contains_key (map_of name_cmp holders.old) holder) }
    ensures ok { IfOk result (λ _. map_of name_cmp holders.new
        ≡ changed_at (map_of name_cmp holders.old) holder
        (λ (x : OfHolder). record x { has_token = true })) }
    ensures err { IfErr result (λ _. map_of name_cmp holders.new ≡ map_of name_cmp holders.old) }
{
    let Some(seen) = holders.get(holder) else {
        return Ok(false);
    };
    let seen = HolderSeen {
        has_token: true,
        ..*seen
    };
    holders.reserve(1)?;
    holders.put(holder, seen);
    Ok(true)
}

/// A count and one more. An AllocError says that there are more rows than a count can tell.
fn one_more(count: u64) -> Result<u64, AllocError>
    ensures ok { IfOk result (λ more. more ≡ count + 1) }
    ensures err { IfErr result (λ _. 2 ^ 64 ≤ count + 1) }
{
    count.checked_add(1).ok_or(AllocError)
}

/// Whether a clear has something to clear. Any other message is right.
fn is_filled(message: &Message) -> bool
    ensures { result ≡ is_filled message.now }
{
    match message {
        Message::Clear(set) => set.len() > 0,
        _ => true,
    }
}

/// Whether each of these members has a token.
fn are_marked(mut rows: Rows<'_, Name, bool>) -> bool
    ensures { result
        ≡ list_all (λ b. b) (map (λ (e : NameOf × Bool). e.1) (rows_left rows.entry)) }
{
    rows.all(|row| row.1)
}

/// Whether each of these holders has a token and at most 64 purses.
fn are_whole_holders(mut rows: Rows<'_, Name, HolderSeen>) -> bool
    ensures { result ≡ list_all is_whole_holder
        (map (λ (e : NameOf × OfHolder). e.1) (rows_left rows.entry)) }
{
    rows.all(|row| row.1.has_token && row.1.purses <= MOST_PURSES as u64)
}

/// Whether each of these purses has at most 32 messages and as many lines as it has to have.
fn are_whole_purses(mut rows: Rows<'_, Name, PurseSeen>) -> bool
    ensures { result ≡ list_all is_whole_purse
        (map (λ (e : NameOf × OfPurse). e.1) (rows_left rows.entry)) }
{
    rows.all(|row| row.1.messages <= MOST_MESSAGES as u64 && row.1.lines == row.1.line_count)
}
