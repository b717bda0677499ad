//! The commands of the operator and of clerks.
ghost use Rattle.std.specs.Prelude.{◌≡◌};
ghost use Rattle.mx_book.specs.Views.{Answers};
ghost use Rattle.mx_command.specs.Commands.{IsCommand};
ghost use Rattle.mx_office.specs.Decides.{Decides, purse_count};
ghost use Rattle.mx_office.specs.Step.{new_member, new_holder, new_purse};
ghost use Rattle.mx_command.specs.declared.values.Command.{Command};

use crate::decisions::{make, refuse};
use crate::values::Decided;
use mx_book::contract::{Book, StoreFault};
use mx_book::edits::Edit;
use mx_book::values::MOST_PURSES;
use mx_command::{Refusal, Reply};
use mx_pay::names::same_name;
use mx_pay::{Name, Token};
use std::alloc::Global;

/// A new member with the token of its clerk.
pub(crate) fn new_member<B: Book>(
    book: &mut B,
    alloc: Global,
    member: Name,
    token: Token,
    decided: &mut Decided,
) -> Result<(), StoreFault>
    ensures { Answers B.fails (B.view book.old) (B.view book.new) result
        (λ w _. IsCommand (Command.NewMember member token)
        → Decides w (new_member w member token) decided.new) }
{
    if book.member(alloc, member)?.is_some() {
        refuse(decided, Refusal::NameTaken);
        return Ok(());
    }
    if book.who(alloc, &token)?.is_some() {
        refuse(decided, Refusal::TokenTaken);
        return Ok(());
    }
    let edit = Edit::NewMember {
        member,
        clerk: token,
    };
    make(decided, Reply::Added, &edit);
    Ok(())
}

/// A new holder of a member with the holder's token.
pub(crate) fn new_holder<B: Book>(
    book: &mut B,
    alloc: Global,
    member: Name,
    holder: Name,
    token: Token,
    decided: &mut Decided,
) -> Result<(), StoreFault>
    ensures { Answers B.fails (B.view book.old) (B.view book.new) result
        (λ w _. IsCommand (Command.NewHolder holder token)
        → Decides w (new_holder w member holder token) decided.new) }
{
    if book.member(alloc, member)?.is_none() {
        refuse(decided, Refusal::NoSuchMember);
        return Ok(());
    }
    if book.holder(alloc, holder)?.is_some() {
        refuse(decided, Refusal::NameTaken);
        return Ok(());
    }
    if book.who(alloc, &token)?.is_some() {
        refuse(decided, Refusal::TokenTaken);
        return Ok(());
    }
    let edit = Edit::NewHolder {
        holder,
        member,
        token,
    };
    make(decided, Reply::Added, &edit);
    Ok(())
}

/// How many purses a holder of a member has. None where the member has no such holder.
fn purse_count<B: Book>(
    book: &mut B,
    alloc: Global,
    member: Name,
    holder: Name,
) -> Result<Option<usize>, StoreFault>
    ensures { Answers B.fails (B.view book.old) (B.view book.new) result
        (λ w o. o ≡ purse_count w member holder) }
{
    match book.holder(alloc, holder)? {
        Some(row) if same_name(&member, &row.member) => Ok(Some(row.purses)),
        _ => Ok(None),
    }
}

/// A new purse of a holder of a member.
pub(crate) fn new_purse<B: Book>(
    book: &mut B,
    alloc: Global,
    member: Name,
    purse: Name,
    holder: Name,
    decided: &mut Decided,
) -> Result<(), StoreFault>
    ensures { Answers B.fails (B.view book.old) (B.view book.new) result
        (λ w _. IsCommand (Command.NewPurse purse holder)
        → Decides w (new_purse w member purse holder) decided.new) }
{
    let Some(held) = purse_count(book, alloc, member, holder)? else {
        refuse(decided, Refusal::NoSuchHolder);
        return Ok(());
    };
    if book.has_purse(alloc, purse)? {
        refuse(decided, Refusal::NameTaken);
        return Ok(());
    }
    if held >= MOST_PURSES {
        refuse(decided, Refusal::TooManyPurses);
        return Ok(());
    }
    make(decided, Reply::Added, &Edit::NewPurse { purse, holder });
    Ok(())
}
