//! The values that a book keeps and gives.
use mx_pay::{Amount, Name, PayDetails};
use mx_purse::Purse;

/// How many messages an inbox holds at most.
pub const MOST_MESSAGES: usize = 32;

/// How many purses a holder has at most.
pub const MOST_PURSES: usize = 64;

/// How many lines a page of a statement has at most.
pub const MOST_LINES: u64 = 50;

/// Who asks.
#[derive(Clone, Copy)]
pub enum Caller {
    /// The operator, who runs the scheme.
    Operator,
    /// The clerk of this member.
    Clerk(Name),
    /// The holder of this name.
    Holder(Name),
}

/// What is kept of a member.
#[derive(Clone, Copy)]
pub struct MemberRow {
    /// The sum of all grants to the member, from 0 to 10^15.
    pub granted: u64,
    /// What is left to load purses with, from 0 to 10^15.
    pub float: u64,
}

/// What a book gives of a holder.
#[derive(Clone, Copy)]
pub struct HolderRow {
    /// The member whose clerk added the holder.
    pub member: Name,
    /// How many purses the holder has, from 0 to 64.
    pub purses: usize,
}

/// What a book gives of a purse.
#[derive(Clone, Copy)]
pub struct Account {
    /// The holder of the purse.
    pub holder: Name,
    /// The holder's member.
    pub member: Name,
    /// The purse.
    pub purse: Purse,
    /// How many messages lie in the inbox of the purse, from 0 to 32.
    pub held: usize,
    /// The number that the next message to the purse gets, from 0 to 10^15.
    pub next_message: u64,
}

/// What a line of a statement tells of.
#[derive(Clone, Copy)]
pub enum LineKind {
    /// The purse was loaded.
    Loaded,
    /// The purse was redeemed.
    Redeemed,
    /// The purse paid.
    Sent,
    /// The purse was paid.
    Received,
    /// The purse logged a payment.
    Logged,
    /// The purse got back the lost value of a payment.
    Settled,
}

/// What a line of a statement refers to.
#[derive(Clone, Copy)]
pub enum Note {
    /// The reference of a load or a redemption.
    Reference(Name),
    /// The details of a payment.
    Details(PayDetails),
}

/// One line of the statement of a purse.
#[derive(Clone, Copy)]
pub struct Line {
    /// The number of the line. The lines of a purse are numbered from 1, without gaps.
    pub number: u64,
    /// What the line tells of.
    pub kind: LineKind,
    /// How much it was, from 0 to 10^12.
    pub amount: Amount,
    /// The balance of the purse after it, from 0 to 10^15.
    pub balance: u64,
    /// What the line refers to.
    pub note: Note,
}

/// What is kept of a purse in a row of its own.
#[derive(Clone, Copy)]
pub struct PurseRow {
    /// The holder of the purse.
    pub holder: Name,
    /// The purse.
    pub purse: Purse,
    /// The number that the next message to the purse gets, from 0 to 10^15.
    pub next_message: u64,
}

/// A line but for its number, under which it is kept.
#[derive(Clone, Copy)]
pub struct LineRow {
    /// What the line tells of.
    pub kind: LineKind,
    /// How much it was, from 0 to 10^12.
    pub amount: Amount,
    /// The balance of the purse after it, from 0 to 10^15.
    pub balance: u64,
    /// What the line refers to.
    pub note: Note,
}

/// What is kept of a redemption.
#[derive(Clone, Copy)]
pub struct Redemption {
    /// How much was redeemed, from 0 to 10^12.
    pub amount: Amount,
    /// Whether the member's clerk has collected it.
    pub collected: bool,
}

/// What the books come to for one member. Each sum is exact.
#[derive(Clone, Copy)]
pub struct MemberTotals {
    /// The sum of all grants to the member.
    pub granted: u128,
    /// What is left to load purses with.
    pub float: u128,
    /// What the purses of the member's holders redeemed that isn't collected yet.
    pub uncollected: u128,
    /// What was loaded onto the purses of the member's holders.
    pub issued: u128,
    /// What the purses of the member's holders redeemed.
    pub redeemed: u128,
    /// The balances of the purses of the member's holders.
    pub balances: u128,
}

/// What the books come to for the whole scheme. Each sum is exact.
#[derive(Clone, Copy)]
pub struct Totals {
    /// The sum of all grants.
    pub granted: u128,
    /// What is left to the members to load purses with.
    pub float: u128,
    /// What was redeemed that isn't collected yet.
    pub uncollected: u128,
    /// What was loaded onto purses.
    pub issued: u128,
    /// What purses redeemed.
    pub redeemed: u128,
    /// The balances of all purses.
    pub balances: u128,
    /// What left a purse and may still reach the purse that waits for it.
    pub transit: u128,
    /// What left a purse and will not reach the other any more.
    pub lost: u128,
}

/// Whose purses count in a sum.
#[derive(Clone, Copy)]
pub enum Scope {
    /// Those of the whole scheme.
    Scheme,
    /// Those of the holders of this member.
    Member(Name),
}
