//! What the rows of a book come to.
ghost use Rattle.std.specs.Prelude.{◌≡◌, IfOk};
ghost use Rattle.mx_book.specs.RowTotals.{row_totals_of, row_member_totals_of, row_members_totals_of, row_lost_of, row_sums_of};
ghost use Rattle.mx_memory.specs.Shelves.{rows_of};

use crate::shelves::Shelves;
use crate::totals::{
    balances_in, float_in, granted_in, issued_in, lost_in_logs, lost_in_results, redeemed_in,
    transit_in, uncollected_in,
};
use mx_book::values::{MemberRow, MemberTotals, Scope, Totals};
use mx_pay::Name;
use std::alloc::{AllocError, Global};

impl Shelves {
    /// What the books come to for the whole scheme.
    pub fn totals(&self) -> Totals
        ensures { result ≡ row_totals_of (rows_of self.now) }
    {
        let (purses, holders) = (&self.purses, &self.holders);
        Totals {
            granted: granted_in(self.members.rows()),
            float: float_in(self.members.rows()),
            uncollected: uncollected_in(self.redemptions.rows(), purses, holders, &Scope::Scheme),
            issued: issued_in(self.loads.rows(), purses, holders, &Scope::Scheme),
            redeemed: redeemed_in(self.redemptions.rows(), purses, holders, &Scope::Scheme),
            balances: balances_in(purses.rows(), holders, &Scope::Scheme),
            transit: transit_in(purses.rows(), purses, &self.archive),
            lost: self.lost(),
        }
    }

    /// What left a purse and will not reach the other any more.
    fn lost(&self) -> u128
        ensures { result ≡ row_lost_of (rows_of self.now) }
    {
        let (purses, archive) = (&self.purses, &self.archive);
        let in_logs = lost_in_logs(purses.rows(), purses, archive, &self.settled);
        let in_archive = lost_in_results(archive.rows(), purses, archive, &self.settled);
        in_logs + in_archive
    }

    /// What the books come to for a member, or None where there is no such member.
    pub fn member_totals(&self, member: Name) -> Option<MemberTotals>
        ensures { result ≡ row_member_totals_of (rows_of self.now) member }
    {
        let row = self.members.get(member)?;
        Some(self.sums_of(member, row))
    }

    /// Each member, in order, with what the books come to for it.
    pub fn members_totals(&self, alloc: Global) -> Result<Vec<(Name, MemberTotals)>, AllocError>
        ensures { IfOk result (λ r. r.items ≡ row_members_totals_of (rows_of self.now)) }
    {
        let mut totals = Vec::new(alloc);
        for row in self.members.rows() {
            totals.push((row.0, self.sums_of(row.0, &row.1)))?;
        }
        Ok(totals)
    }

    /// What the books come to for a member with this row.
    fn sums_of(&self, member: Name, row: &MemberRow) -> MemberTotals
        ensures { result ≡ row_sums_of (rows_of self.now) member row.now }
    {
        let (purses, holders) = (&self.purses, &self.holders);
        let scope = Scope::Member(member);
        MemberTotals {
            granted: row.granted as u128,
            float: row.float as u128,
            uncollected: uncollected_in(self.redemptions.rows(), purses, holders, &scope),
            issued: issued_in(self.loads.rows(), purses, holders, &scope),
            redeemed: redeemed_in(self.redemptions.rows(), purses, holders, &scope),
            balances: balances_in(purses.rows(), holders, &scope),
        }
    }
}
