//! The commands that bring value into the office and make up for what left it: grants, loads and collects.
ghost use Rattle.std.specs.Prelude.{◌≡◌, ◌≤◌, ◌⊎◌, [], OnOk, IfErr, IsTrue, is_some};
ghost use Rattle.mx_book.specs.declared.contract.StoreFault.TheVariants.{Memory};
ghost use Rattle.mx_book.specs.Conditions.{all_granted};
ghost use Rattle.mx_book.specs.Reads.{load_of, member_of};
ghost use Rattle.mx_book.specs.Views.{Answers, IsSure};
ghost use Rattle.mx_command.specs.Commands.{IsCommand};
ghost use Rattle.mx_office.specs.Decides.{Decides, granted_to, load_edits, member_purse};
ghost use Rattle.mx_office.specs.Faults.{FailsFor};
ghost use Rattle.mx_office.specs.Step.{collect, grant, load_purse, reconcile};
ghost use Rattle.mx_command.specs.declared.values.Command.{Command};

use crate::decisions::{Outgoing, again, load_refusal, make, make_purse, money_line, refuse, tell};
use crate::values::Decided;
use mx_book::contract::{Book, StoreFault};
use mx_book::edits::Edit;
use mx_book::values::{LineKind, MemberRow};
use mx_command::{Refusal, Reply};
use mx_pay::names::same_name;
use mx_pay::numbers::MOST_NUMBER;
use mx_pay::{Amount, Name};
use mx_purse::Purse;
use std::alloc::Global;

/// The most of a float, and of all grants together.
const MOST: u128 = MOST_NUMBER as u128;

/// How much a member was granted; 0 where there is no such member.
fn granted_of<B: Book>(book: &mut B, alloc: Global, member: Name) -> Result<u64, StoreFault>
    ensures { Answers B.fails (B.view book.old) (B.view book.new) result
        (λ w n. n ≡ granted_to w member) }
{
    match book.member(alloc, member)? {
        Some(row) => Ok(row.granted),
        None => Ok(0),
    }
}

/// The sum of all grants.
fn all_granted<B: Book>(book: &mut B, alloc: Global) -> Result<u128, StoreFault>
    ensures { Answers (λ e. (e ≡ Memory) ⊎ B.fails e) (B.view book.old) (B.view book.new) result
        (λ w n. n ≡ all_granted w) }
{
    let members = book.members(alloc)?;
    let mut sum: u128 = 0;
    for member in members.as_slice() {
        sum = sum.saturating_add(granted_of(book, alloc, *member)? as u128);
    }
    Ok(sum)
}

/// A grant to a member, by which its grants and its float rise.
pub(crate) fn grant<B: Book>(
    book: &mut B,
    alloc: Global,
    member: Name,
    amount: Amount,
    decided: &mut Decided,
) -> Result<(), StoreFault>
    ensures tells { Answers (λ e. (e ≡ Memory) ⊎ B.fails e) (B.view book.old)
        (B.view book.new) result
        (λ w _. Decides w (grant w member amount) decided.new) }
    ensures memory { IsSure (B.view book.new)
        → IfErr result (FailsFor B.fails (is_some (member_of (B.view book.old).world member))) }
{
    let Some(row) = book.member(alloc, member)? else {
        refuse(decided, Refusal::NoSuchMember);
        return Ok(());
    };
    let more = amount.get();
    if all_granted(book, alloc)?.saturating_add(more as u128) > MOST {
        refuse(decided, Refusal::GrantTooLarge);
        return Ok(());
    }
    if row.float as u128 + more as u128 > MOST {
        refuse(decided, Refusal::FloatFull);
        return Ok(());
    }
    let edit = Edit::SetMember {
        member,
        granted: row.granted.saturating_add(more),
        float: row.float + more,
    };
    make(decided, Reply::Granted, &edit);
    Ok(())
}

/// A load, by the edits for the purse as it is now and its line, the load, and what is left of the member's float.
fn make_load(
    decided: &mut Decided,
    purse: &Purse,
    amount: Amount,
    reference: Name,
    member: Name,
    row: MemberRow,
)
    requires { amount ≤ row.float }
    ensures reply { decided.new.reply ≡ Reply.Loaded }
    ensures edits { decided.new.edits ≡ load_edits purse.now amount reference member row }
{
    let name = purse.name();
    let line = money_line(purse, LineKind::Loaded, amount, reference);
    make_purse(
        decided,
        Reply::Loaded,
        purse,
        Some(line),
        &Outgoing::Nothing,
    );
    decided.edits.push(&Edit::AddLoad {
        purse: name,
        reference,
        amount,
    });
    decided.edits.push(&Edit::SetMember {
        member,
        granted: row.granted,
        float: row.float - amount.get(),
    });
}

/// A load of a purse of a holder of the member, from the member's float.
pub(crate) fn load<B: Book>(
    book: &mut B,
    alloc: Global,
    member: Name,
    purse: Name,
    amount: Amount,
    reference: Name,
    decided: &mut Decided,
) -> Result<(), StoreFault>
    ensures { Answers B.fails (B.view book.old) (B.view book.new) result
        (λ w _. (IsCommand (Command.Load purse amount reference)
        → Decides w (load_purse w member purse amount reference) decided.new)
        × (IsTrue (is_some (load_of w purse reference)) → decided.new.edits ≡ [])) }
{
    let Some(mut after) = member_purse(book, alloc, member, purse)? else {
        refuse(decided, Refusal::NoSuchPurse);
        return Ok(());
    };
    let Some(row) = book.member(alloc, member)? else {
        refuse(decided, Refusal::NoSuchPurse);
        return Ok(());
    };
    if let Some(before) = book.load_of(alloc, purse, reference)? {
        again(decided, before, amount, Reply::Loaded);
        return Ok(());
    }
    if row.float < amount.get() {
        refuse(decided, Refusal::FloatTooSmall);
        return Ok(());
    }
    match after.load(amount) {
        Err(refusal) => {
            refuse(decided, load_refusal(refusal));
            Ok(())
        }
        Ok(()) => {
            make_load(decided, &after, amount, reference, member, row);
            Ok(())
        }
    }
}

/// The purse of that name, where it is of a holder of the member.
fn member_purse<B: Book>(
    book: &mut B,
    alloc: Global,
    member: Name,
    purse: Name,
) -> Result<Option<Purse>, StoreFault>
    ensures { Answers B.fails (B.view book.old) (B.view book.new) result
        (λ w o. o ≡ member_purse w member purse) }
{
    match book.purse(alloc, purse)? {
        Some(account) if same_name(&member, &account.member) => Ok(Some(account.purse)),
        _ => Ok(None),
    }
}

/// A collect of what the purses of the member's holders redeemed, by which its float rises.
pub(crate) fn collect<B: Book>(
    book: &mut B,
    alloc: Global,
    member: Name,
    decided: &mut Decided,
) -> Result<(), StoreFault>
    ensures { Answers B.fails (B.view book.old) (B.view book.new) result
        (λ w _. Decides w (collect w member) decided.new) }
{
    let Some(row) = book.member(alloc, member)? else {
        refuse(decided, Refusal::NoSuchMember);
        return Ok(());
    };
    let uncollected = book.uncollected(alloc, member)?;
    let float = uncollected.saturating_add(row.float as u128);
    if float > MOST {
        refuse(decided, Refusal::FloatFull);
        return Ok(());
    }
    make(
        decided,
        Reply::Collected(uncollected),
        &Edit::Collect { member },
    );
    decided.edits.push(&Edit::SetMember {
        member,
        granted: row.granted,
        float: float as u64,
    });
    Ok(())
}

/// What the books come to.
pub(crate) fn reconcile<B: Book>(
    book: &mut B,
    alloc: Global,
    decided: &mut Decided,
) -> Result<(), StoreFault>
    ensures tells { Answers B.fails (B.view book.old) (B.view book.new) result
        (λ w _. Decides w (reconcile w) decided.new) }
    ensures edits { OnOk result (decided.new.edits ≡ []) }
{
    let totals = book.totals(alloc)?;
    tell(decided, Reply::Reconciled(totals));
    Ok(())
}
