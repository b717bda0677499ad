//! What requests say, in words.
use mx_command::Command;
use mx_pay::{Amount, Log, Name, PayDetails, Seq, Token, code_text, push_entry};
use mx_wire::{Method, Routes, WireFault};
use std::alloc::{AllocError, Global};

/// What a command is called, and the names that come first in it.
fn start_words(alloc: Global, what: &str, names: &[&Name]) -> Result<String, AllocError> {
    let mut text = String::from_str(alloc, what)?;
    for name in names {
        text.push_str(" ")?;
        text.push_str(name.as_str())?;
    }
    Ok(text)
}

fn with_token(alloc: Global, what: &str, name: &Name, token: &Token) -> Result<String, AllocError> {
    let mut text = start_words(alloc, what, &[name])?;
    text.push_str(" ")?;
    for digit in token.text() {
        text.push(char::from(digit))?;
    }
    Ok(text)
}

fn push_number(alloc: Global, text: &mut String, number: u64) -> Result<(), AllocError> {
    let number = format!(in alloc; " {number}")?;
    text.push_str(number.as_str())
}

fn with_number(alloc: Global, what: &str, name: &Name, number: u64) -> Result<String, AllocError> {
    let mut text = start_words(alloc, what, &[name])?;
    push_number(alloc, &mut text, number)?;
    Ok(text)
}

fn with_log(alloc: Global, what: &str, name: &Name, log: &Log) -> Result<String, AllocError> {
    let code = code_text(alloc, log)?;
    format!(in alloc; "{what} {} [{}]", name.as_str(), code.as_str())
}

fn with_details(alloc: Global, what: &str, details: &PayDetails) -> Result<String, AllocError> {
    let mut text = String::from_str(alloc, what)?;
    text.push_str(" ")?;
    push_entry(&mut text, details)?;
    Ok(text)
}

fn with_reference(
    alloc: Global,
    what: &str,
    purse: &Name,
    amount: Amount,
    reference: &Name,
) -> Result<String, AllocError> {
    let mut text = with_number(alloc, what, purse, amount.get())?;
    text.push_str(" ")?;
    text.push_str(reference.as_str())?;
    Ok(text)
}

fn with_peer(
    alloc: Global,
    what: &str,
    names: [&Name; 2],
    value: Amount,
    seq: Seq,
) -> Result<String, AllocError> {
    let mut text = start_words(alloc, what, &names)?;
    push_number(alloc, &mut text, value.get())?;
    push_number(alloc, &mut text, seq.get())?;
    Ok(text)
}

fn command_words(alloc: Global, command: &Command) -> Result<String, AllocError> {
    match command {
        Command::NewMember { member, token } => with_token(alloc, "new-member", member, token),
        Command::Grant { member, amount } => with_number(alloc, "grant", member, amount.get()),
        Command::Archive { purse } => start_words(alloc, "archive", &[purse]),
        Command::Clear { purse, details } => with_log(alloc, "clear", purse, details),
        Command::Settle { details } => with_details(alloc, "settle", details),
        Command::NewHolder { holder, token } => with_token(alloc, "new-holder", holder, token),
        Command::NewPurse { purse, holder } => start_words(alloc, "new-purse", &[purse, holder]),
        Command::Load {
            purse,
            amount,
            reference,
        } => with_reference(alloc, "load", purse, *amount, reference),
        Command::Collect => start_words(alloc, "collect", &[]),
        Command::Purses => start_words(alloc, "purses", &[]),
        Command::Show { purse } => start_words(alloc, "show", &[purse]),
        Command::StartFrom {
            purse,
            peer,
            value,
            seq,
        } => with_peer(alloc, "start-from", [purse, peer], *value, *seq),
        Command::StartTo {
            purse,
            peer,
            value,
            seq,
        } => with_peer(alloc, "start-to", [purse, peer], *value, *seq),
        Command::Handle { purse, number } => with_number(alloc, "handle", purse, number.get()),
        Command::Discard { purse, number } => with_number(alloc, "discard", purse, number.get()),
        Command::Abort { purse } => start_words(alloc, "abort", &[purse]),
        Command::ReadLog { purse, place } => with_number(alloc, "read-log", purse, *place),
        Command::Redeem {
            purse,
            amount,
            reference,
        } => with_reference(alloc, "redeem", purse, *amount, reference),
        Command::Inbox { purse } => start_words(alloc, "inbox", &[purse]),
        Command::Statement { purse, after } => with_number(alloc, "statement", purse, after.get()),
        Command::Reconcile => start_words(alloc, "reconcile", &[]),
    }
}

/// The words of a command, or why there is none.
pub(super) fn read_words(
    alloc: Global,
    read: &Result<Command, WireFault>,
) -> Result<String, AllocError> {
    match read {
        Ok(command) => command_words(alloc, command),
        Err(WireFault::NoRoute) => String::from_str(alloc, "no route"),
        Err(WireFault::BadBody) => String::from_str(alloc, "bad body"),
        Err(WireFault::Memory) => Err(AllocError),
    }
}

/// The words of the command that a request, a method and a path, with this body says.
pub(crate) fn words_of(
    alloc: Global,
    routes: &Routes,
    request: &str,
    body: &[u8],
) -> Result<String, AllocError> {
    let (method, path) = request.split_once(' ').unwrap_or((request, ""));
    let method = Method::of(method.as_bytes());
    let read = routes.read_command(alloc, method, path.as_bytes(), body);
    read_words(alloc, &read)
}
