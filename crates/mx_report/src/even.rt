//! Whether reports add up.
ghost use Rattle.std.specs.Prelude.{◌≡◌, ◌+◌, ◌<◌, IfErr, IfSome, IsNone};
ghost use Rattle.std.specs.List.{list_all};
ghost use Rattle.mx_book.specs.Reads.{account_of};
ghost use Rattle.mx_book.specs.Views.{Keeps, Gives};
ghost use Rattle.mx_report.specs.Even.{is_even_account, is_even_member, is_even_report, is_even_scheme, is_even_statement};

use crate::reconciliation::Report;
use mx_book::values::{Line, MemberTotals, Totals};
use mx_book::{Book, StoreFault};
use mx_pay::Name;
use std::alloc::Global;

/// What is left of a sum without three others. None where they are more.
fn without(sum: u128, first: u128, second: u128, third: u128) -> Option<u128>
    ensures some { IfSome result (λ left. left + first + second + third ≡ sum) }
    ensures none { IsNone result → sum < first + second + third }
{
    sum.checked_sub(first)?
        .checked_sub(second)?
        .checked_sub(third)
}

/// Whether what was issued is held, under way, lost or redeemed.
pub fn is_even_scheme(sums: &Totals) -> bool
    ensures { result ≡ is_even_scheme sums.now }
{
    match without(sums.issued, sums.balances, sums.transit, sums.lost) {
        Some(left) => left == sums.redeemed,
        None => false,
    }
}

/// Whether what a member was granted, and what its purses redeemed, is left to it, to be collected or was issued. Sums that
/// are no sums of books, and pass the largest u128 together, aren't.
pub fn is_even_member(sums: &MemberTotals) -> bool
    ensures { result ≡ is_even_member sums.now }
{
    match sums.granted.checked_add(sums.redeemed) {
        Some(sum) => without(sum, sums.float, sums.uncollected, sums.issued) == Some(0),
        None => false,
    }
}

/// Whether the sums of each member add up.
fn are_even_members(members: &[(Name, MemberTotals)]) -> bool
    ensures { result ≡ list_all (λ m. is_even_member m.1) members.now }
{
    members.iter().all(|member| is_even_member(&member.1))
}

impl Report {
    /// Whether the sums of the scheme and of each member add up, as those of all books do that the office made.
    pub fn is_even(&self) -> bool
        ensures { result ≡ is_even_report self.now.members.items self.now.scheme }
    {
        are_even_members(self.members.as_slice()) && is_even_scheme(&self.scheme)
    }
}

/// Whether the lines of a purse are numbered from 1 without gaps, and the last has this balance, which is 0 where there is
/// none: as it is in all books that the office made.
pub fn is_even_statement(lines: &[Line], balance: u64) -> bool
    ensures { result ≡ is_even_statement lines.now balance }
{
    let mut number = 0;
    let mut last = 0;
    for line in lines {
        number += 1;
        if line.number != number {
            return false;
        }
        last = line.balance;
    }
    last == balance
}

/// Whether these lines lead to the balance of a purse, which they don't where there is no such purse.
pub fn leads_to_balance<B: Book>(
    alloc: Global,
    book: &mut B,
    purse: Name,
    lines: &[Line],
) -> Result<bool, StoreFault>
    ensures keeps { Keeps (B.view book.old) (B.view book.new) }
    ensures value { Gives (B.view book.old) (B.view book.new) result
        (λ w is_even. is_even ≡ is_even_account lines.now (account_of w purse)) }
    ensures fault { IfErr result B.fails }
{
    match book.purse(alloc, purse)? {
        Some(account) => Ok(is_even_statement(lines, account.purse.balance())),
        None => Ok(false),
    }
}
