//! The reconciliation of the scheme.
ghost use Rattle.std.specs.Prelude.{◌≡◌, ◌⊎◌, ◌++◌, IfOk, IfErr};
ghost use Rattle.mx_book.specs.declared.contract.StoreFault.TheVariants.{Memory};
ghost use Rattle.mx_book.specs.Views.{Keeps, Gives};
ghost use Rattle.mx_book.specs.Totals.{members_totals_of, totals_of};
ghost use Rattle.mx_report.specs.Statement.{record_text};
ghost use Rattle.mx_report.specs.Reconciliation.{members_text, reconciliation_text, scheme_text, six, sums_fields};

use crate::texts::Text;
use mx_book::values::{MemberTotals, Totals};
use mx_book::{Book, StoreFault};
use mx_pay::Name;
use std::alloc::{AllocError, Global};

/// What the books come to, for each member and for the whole scheme.
#[derive(Drop)]
pub struct Report {
    /// The members in order, each with its sums.
    pub members: Vec<(Name, MemberTotals)>,
    /// The sums of the whole scheme.
    pub scheme: Totals,
}

/// What the books come to. A fault is one of the book's reads, or `Memory`.
pub fn reconcile<B: Book>(alloc: Global, book: &mut B) -> Result<Report, StoreFault>
    ensures keeps { Keeps (B.view book.old) (B.view book.new) }
    ensures value { Gives (B.view book.old) (B.view book.new) result
        (λ w report. (report.members.items ≡ members_totals_of w) × (report.scheme ≡ totals_of w)) }
    ensures fault { IfErr result (λ e. (e ≡ Memory) ⊎ B.fails e) }
{
    let members = book.members_totals(alloc)?;
    let scheme = book.totals(alloc)?;
    Ok(Report { members, scheme })
}

/// The six sums that a member has too.
fn six(sums: &Totals) -> MemberTotals
    ensures { result ≡ six sums.now }
{
    MemberTotals {
        granted: sums.granted,
        float: sums.float,
        uncollected: sums.uncollected,
        issued: sums.issued,
        redeemed: sums.redeemed,
        balances: sums.balances,
    }
}

/// A text with a record of sums at its end.
fn with_sums<'t>(
    text: Text,
    row: &'t str,
    name: &'t str,
    sums: &MemberTotals,
    transit: &'t str,
    lost: &'t str,
) -> Result<Text, AllocError>
    ensures { IfOk result (λ longer. longer ≡ text ++ record_text
        (sums_fields row.now name.now sums.now transit.now lost.now)) }
{
    let mut granted = itoa::Buffer::new();
    let mut float = itoa::Buffer::new();
    let mut uncollected = itoa::Buffer::new();
    let mut issued = itoa::Buffer::new();
    let mut redeemed = itoa::Buffer::new();
    let mut balances = itoa::Buffer::new();
    text.with_record(&[
        row.as_bytes(),
        name.as_bytes(),
        granted.format(sums.granted).as_bytes(),
        float.format(sums.float).as_bytes(),
        uncollected.format(sums.uncollected).as_bytes(),
        issued.format(sums.issued).as_bytes(),
        redeemed.format(sums.redeemed).as_bytes(),
        balances.format(sums.balances).as_bytes(),
        transit.as_bytes(),
        lost.as_bytes(),
    ])
}

/// A text with the records of these members at its end.
fn with_members(mut text: Text, members: &[(Name, MemberTotals)]) -> Result<Text, AllocError>
    ensures { IfOk result (λ longer. longer ≡ text ++ members_text members.now) }
{
    for (name, sums) in members {
        text = with_sums(text, "member", name.as_str(), sums, "", "")?;
    }
    Ok(text)
}

/// A text with the record of the whole scheme at its end.
fn with_scheme(text: Text, sums: &Totals) -> Result<Text, AllocError>
    ensures { IfOk result (λ longer. longer ≡ text ++ scheme_text sums.now) }
{
    let mut transit = itoa::Buffer::new();
    let mut lost = itoa::Buffer::new();
    with_sums(
        text,
        "scheme",
        "",
        &six(sums),
        transit.format(sums.transit),
        lost.format(sums.lost),
    )
}

/// The text of a reconciliation: a header, a record for each member, and one for the whole scheme. Transit and lost stand
/// in the scheme's alone, since a payment may cross members. An error is lack of memory.
pub fn reconcile_text(alloc: Global, report: &Report) -> Result<Vec<u8>, AllocError>
    ensures { IfOk result (λ text. text.items
        ≡ reconciliation_text report.now.members.items report.now.scheme) }
{
    let header: [&[u8]; 10] = [
        b"row",
        b"name",
        b"granted",
        b"float",
        b"uncollected",
        b"issued",
        b"redeemed",
        b"balances",
        b"transit",
        b"lost",
    ];
    let headed = Text::new(alloc).with_record(&header)?;
    let members = with_members(headed, report.members.as_slice())?;
    let whole = with_scheme(members, &report.scheme)?;
    whole.into_bytes()
}
