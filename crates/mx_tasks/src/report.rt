//! What is printed of the books: their reconciliation, or the statements of purses.
ghost use Rattle.std.specs.Prelude.{◌≡◌, IfErr};
ghost use Rattle.mx_book.specs.Views.{Keeps, Gives, IsSure};
ghost use Rattle.mx_tasks.specs.Faults.{IsBookFault, IsReportFault};
ghost use Rattle.mx_tasks.specs.Texts.{Denies, Reports};
ghost use Rattle.mx_tasks.specs.declared.report.ReportKind.TheVariants.{Reconciliation, Statement, Statements};

use crate::fault::TaskFault;
use mx_book::Book;
use mx_pay::Name;
use mx_report::{
    all_statements, leads_to_balance, reconcile, reconcile_text, statement, statement_text,
};
use std::alloc::Global;

pub mod evenness;

/// Which report is printed.
#[derive(Clone, Copy)]
pub enum ReportKind {
    /// The reconciliation.
    Reconciliation,
    /// The statement of this purse.
    Statement(Name),
    /// The statements of all purses.
    Statements,
}

/// What is printed of the books.
#[derive(Drop)]
pub struct ReportText {
    /// The text.
    pub text: Vec<u8>,
    /// Whether what the text says adds up, as it does for all books that the office made.
    pub is_even: bool,
}

/// The text of the reconciliation.
fn reconciliation<B: Book>(alloc: Global, book: &mut B) -> Result<ReportText, TaskFault>
    ensures keeps { Keeps (B.view book.old) (B.view book.new) }
    ensures value { Gives (B.view book.old) (B.view book.new) result
        (λ w. Reports w Reconciliation) }
    ensures fault { IfErr result (IsBookFault B.fails) }
{
    let sums = reconcile(alloc, book)?;
    let text = reconcile_text(alloc, &sums)?;
    let is_even = sums.is_even();
    Ok(ReportText { text, is_even })
}

/// The text of a purse's statement.
fn purse_statement<B: Book>(
    alloc: Global,
    book: &mut B,
    purse: Name,
) -> Result<ReportText, TaskFault>
    ensures keeps { Keeps (B.view book.old) (B.view book.new) }
    ensures value { Gives (B.view book.old) (B.view book.new) result
        (λ w. Reports w (Statement purse)) }
    ensures fault { IfErr result (IsReportFault B.fails) }
    ensures none { IsSure (B.view book.new)
        → Denies (B.view book.old).world (Statement purse) result }
{
    let Some(lines) = statement(alloc, book, purse)? else {
        return Err(TaskFault::NoSuchPurse);
    };
    let text = statement_text(alloc, lines.as_slice())?;
    let is_even = leads_to_balance(alloc, book, purse, lines.as_slice())?;
    Ok(ReportText { text, is_even })
}

/// The text of the statements of all purses.
fn all_purses<B: Book>(alloc: Global, book: &mut B) -> Result<ReportText, TaskFault>
    ensures keeps { Keeps (B.view book.old) (B.view book.new) }
    ensures value { Gives (B.view book.old) (B.view book.new) result
        (λ w. Reports w Statements) }
    ensures fault { IfErr result (IsBookFault B.fails) }
{
    let statements = all_statements(alloc, book)?;
    Ok(ReportText {
        text: statements.text,
        is_even: statements.are_even,
    })
}

/// The text of a report, and whether it adds up: what was issued is balances, transit, lost and redeemed, and each member's
/// sums agree; or the lines of each purse that it tells of are numbered without gaps and lead to the balance.
///
/// # Errors
///
/// `NoSuchPurse` where there is no such purse; `Store` where the book's reads may fail so; `Memory`.
pub fn report_text<B: Book>(
    alloc: Global,
    book: &mut B,
    kind: ReportKind,
) -> Result<ReportText, TaskFault>
    ensures keeps { Keeps (B.view book.old) (B.view book.new) }
    ensures value { Gives (B.view book.old) (B.view book.new) result
        (λ w. Reports w kind) }
    ensures fault { IfErr result (IsReportFault B.fails) }
    ensures none { IsSure (B.view book.new)
        → Denies (B.view book.old).world kind result }
{
    match kind {
        ReportKind::Reconciliation => reconciliation(alloc, book),
        ReportKind::Statement(purse) => purse_statement(alloc, book, purse),
        ReportKind::Statements => all_purses(alloc, book),
    }
}
