//! What callers and commands keep by their types, said for what follows.
ghost use Rattle.std.specs.Prelude.{◌≤◌};
ghost use Rattle.mx_pay.specs.Details.{IsDetails};
ghost use Rattle.mx_pay.specs.Limits.{most_amount, most_number};
ghost use Rattle.mx_pay.specs.Log.{IsLogValue};
ghost use Rattle.mx_pay.specs.Tokens.{IsToken};
ghost use Rattle.mx_command.specs.Commands.{IsCaller, IsCommand, IsNamed};

use mx_book::values::Caller;
use mx_command::Command;
use mx_pay::{Amount, Log, Name, PayDetails, Seq, Token};

/// A name is one.
fn is_name(name: Name)
    ensures { IsNamed name }
{
    let _text = name.as_str();
}

/// Two names are names.
fn are_names(first: Name, second: Name)
    ensures first { IsNamed first }
    ensures second { IsNamed second }
{
    is_name(first);
    is_name(second);
}

/// A name is one, and a token has its bytes.
fn is_new(name: Name, token: Token)
    ensures name { IsNamed name }
    ensures token { IsToken token }
{
    is_name(name);
    let _bytes = token.as_bytes();
}

/// A name is one, and details are those of a log.
fn is_log(name: Name, details: &Log)
    ensures name { IsNamed name }
    ensures details { IsLogValue details.now }
{
    is_name(name);
    let _entries = details.len();
}

/// The details of a payment are within their limits.
fn is_details(details: &PayDetails)
    ensures { IsDetails details.now }
{
    let _value = details.value();
}

/// A name is one, and an amount is within its limit.
fn is_amount(name: Name, amount: Amount)
    ensures name { IsNamed name }
    ensures amount { amount ≤ most_amount }
{
    is_name(name);
    let _value = amount.get();
}

/// A name is one, and a number is within its limit.
fn is_number(name: Name, number: Seq)
    ensures name { IsNamed name }
    ensures number { number ≤ most_number }
{
    is_name(name);
    let _value = number.get();
}

/// A purse and a reference have names, and an amount is within its limit.
fn is_money(purse: Name, amount: Amount, reference: Name)
    ensures names { IsNamed purse × IsNamed reference }
    ensures amount { amount ≤ most_amount }
{
    is_amount(purse, amount);
    is_name(reference);
}

/// Two purses have names, and an amount and a number are within their limits.
fn is_payment(purse: Name, peer: Name, value: Amount, seq: Seq)
    ensures names { IsNamed purse × IsNamed peer }
    ensures value { value ≤ most_amount }
    ensures seq { seq ≤ most_number }
{
    is_amount(purse, value);
    is_number(peer, seq);
}

/// The name of a caller is one.
pub(crate) fn is_caller(caller: &Caller)
    ensures { IsCaller caller.now }
{
    if let Caller::Clerk(name) | Caller::Holder(name) = *caller {
        is_name(name);
    }
}

/// The names of a command are names, its amount and its number are within their limits, its token has its bytes, and
/// its details are those of a log or of a payment.
pub(crate) fn is_command(command: &Command)
    ensures { IsCommand command.now }
{
    match *command {
        Command::Collect | Command::Purses | Command::Reconcile => {}
        Command::Archive { purse }
        | Command::Show { purse }
        | Command::Abort { purse }
        | Command::ReadLog { purse, .. }
        | Command::Inbox { purse } => is_name(purse),
        Command::Clear { purse, ref details } => is_log(purse, details),
        Command::Settle { ref details } => is_details(details),
        Command::NewMember { member, token } => is_new(member, token),
        Command::NewHolder { holder, token } => is_new(holder, token),
        Command::NewPurse { purse, holder } => are_names(purse, holder),
        Command::Grant { member, amount } => is_amount(member, amount),
        Command::Handle { purse, number } => is_number(purse, number),
        Command::Discard { purse, number } => is_number(purse, number),
        Command::Statement { purse, after } => is_number(purse, after),
        Command::Load {
            purse,
            amount,
            reference,
        }
        | Command::Redeem {
            purse,
            amount,
            reference,
        } => is_money(purse, amount, reference),
        Command::StartFrom {
            purse,
            peer,
            value,
            seq,
        }
        | Command::StartTo {
            purse,
            peer,
            value,
            seq,
        } => is_payment(purse, peer, value, seq),
    }
}
