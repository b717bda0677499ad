//! What doesn't add up in the books, in words.
ghost use Rattle.std.specs.Prelude.{◌≡◌, ◌++◌, IfOk, IfErr, flat_map, string_bytes};
ghost use Rattle.mx_book.specs.Views.{Keeps, Gives};
ghost use Rattle.mx_tasks.specs.Evenness.{purse_line, uneven_member, uneven_purse, uneven_sums};
ghost use Rattle.mx_tasks.specs.Faults.{IsBookFault, IsReportFault};

use crate::fault::TaskFault;
use crate::report::{ReportKind, report_text};
use mx_book::Book;
use mx_book::values::MemberTotals;
use mx_pay::Name;
use mx_report::{Progress, is_even_member, is_even_scheme, reconcile};
use std::alloc::{AllocError, Global};

/// The line of a member, where its sums don't add up.
fn uneven_member(alloc: Global, member: &(Name, MemberTotals)) -> Result<String, AllocError>
    ensures { IfOk result (λ line. string_bytes line ≡ uneven_member member.now) }
{
    if is_even_member(&member.1) {
        return Ok(String::new(alloc));
    }
    format!(in alloc; "member {}: its sums don't add up\n", member.0.as_str())
}

/// The lines of these members.
fn uneven_members(alloc: Global, members: &[(Name, MemberTotals)]) -> Result<String, AllocError>
    ensures { IfOk result (λ text. string_bytes text ≡ flat_map uneven_member members.now) }
{
    let mut text = String::new(alloc);
    for member in members {
        let line = uneven_member(alloc, member)?;
        text.push_str(line.as_str())?;
    }
    Ok(text)
}

/// A line for each member whose sums don't add up, and one for the scheme where its sums don't.
///
/// # Errors
///
/// `Store` where the book's reads may fail so; `Memory`.
pub fn uneven_sums<B: Book>(alloc: Global, book: &mut B) -> Result<String, TaskFault>
    ensures keeps { Keeps (B.view book.old) (B.view book.new) }
    ensures value { Gives (B.view book.old) (B.view book.new) result
        (λ w text. string_bytes text ≡ uneven_sums w) }
    ensures fault { IfErr result (IsBookFault B.fails) }
{
    let sums = reconcile(alloc, book)?;
    let mut text = uneven_members(alloc, sums.members.as_slice())?;
    if !is_even_scheme(&sums.scheme) {
        text.push_str("scheme: the sums don't add up\n")?;
    }
    Ok(text)
}

/// The line of a purse whose statement doesn't lead to its balance.
fn purse_line(alloc: Global, purse: Name) -> Result<String, AllocError>
    ensures { IfOk result (λ line. string_bytes line ≡ purse_line purse) }
{
    let name = purse.as_str();
    format!(in alloc; "purse {name}: its statement doesn't lead to its balance\n")
}

/// That line, where it is so of a purse.
fn uneven_purse<B: Book>(alloc: Global, book: &mut B, purse: Name) -> Result<String, TaskFault>
    ensures keeps { Keeps (B.view book.old) (B.view book.new) }
    ensures value { Gives (B.view book.old) (B.view book.new) result
        (λ w line. string_bytes line ≡ uneven_purse w purse) }
    ensures fault { IfErr result (IsReportFault B.fails) }
{
    if report_text(alloc, book, ReportKind::Statement(purse))?.is_even {
        return Ok(String::new(alloc));
    }
    Ok(purse_line(alloc, purse)?)
}

/// A line for each of these purses whose statement doesn't lead to its balance. Behind each, progress is told how many are done.
///
/// # Errors
///
/// `NoSuchPurse` where one of them isn't there; `Store` where the book's reads may fail so; `Memory`.
pub fn uneven_purses<B: Book, P: Progress>(
    alloc: Global,
    book: &mut B,
    purses: &[Name],
    progress: &mut P,
) -> Result<String, TaskFault>
    ensures keeps { Keeps (B.view book.old) (B.view book.new) }
    ensures value { Gives (B.view book.old) (B.view book.new) result
        (λ w text. string_bytes text ≡ flat_map (uneven_purse w) purses.now) }
    ensures fault { IfErr result (IsReportFault B.fails) }
{
    let mut text = String::new(alloc);
    let mut done = 0u64;
    for purse in purses {
        let line = uneven_purse(alloc, book, *purse)?;
        text.push_str(line.as_str())?;
        done = done.saturating_add(1);
        progress.done(done);
    }
    Ok(text)
}
