//! The values that a book gives, in words. A list has `|` behind each of its items, and a text has it in place of each
//! line end. An empty list is told as `none`.
use mx_book::{Account, Caller, HolderRow, Line, MemberRow, MemberTotals, Totals};
use mx_pay::{Log, Name, PayDetails, code_text, push_entry};
use mx_purse::words::{message_word, status_word};
use mx_purse::{Message, Purse, Status};
use mx_report::{Report, StatementsText, reconcile_text, statement_text};
use std::alloc::{AllocError, Global};

/// The word for what isn't there.
fn none(alloc: Global) -> Result<String, AllocError> {
    String::from_str(alloc, "none")
}

pub(super) fn truth_words(alloc: Global, is_so: bool) -> Result<String, AllocError> {
    String::from_str(alloc, if is_so { "yes" } else { "no" })
}

pub(super) fn caller_words(alloc: Global, caller: Option<Caller>) -> Result<String, AllocError> {
    let Some(caller) = caller else {
        return none(alloc);
    };
    match caller {
        Caller::Operator => String::from_str(alloc, "operator"),
        Caller::Clerk(member) => format!(in alloc; "clerk of {}", member.as_str()),
        Caller::Holder(holder) => format!(in alloc; "holder {}", holder.as_str()),
    }
}

pub(super) fn member_words(alloc: Global, member: Option<MemberRow>) -> Result<String, AllocError> {
    match member {
        Some(row) => format!(in alloc; "granted {}, float {}", row.granted, row.float),
        None => none(alloc),
    }
}

pub(super) fn holder_words(alloc: Global, holder: Option<HolderRow>) -> Result<String, AllocError> {
    match holder {
        Some(row) => format!(in alloc; "of {}, purses {}", row.member.as_str(), row.purses),
        None => none(alloc),
    }
}

/// A number, an amount or a sum.
pub(super) fn number_words(alloc: Global, number: Option<u128>) -> Result<String, AllocError> {
    match number {
        Some(number) => format!(in alloc; "{number}"),
        None => none(alloc),
    }
}

fn details_words(alloc: Global, word: &str, details: &PayDetails) -> Result<String, AllocError> {
    let mut words = format!(in alloc; "{word} ")?;
    push_entry(&mut words, details)?;
    Ok(words)
}

pub(super) fn log_words(alloc: Global, word: &str, log: &Log) -> Result<String, AllocError> {
    let code = code_text(alloc, log)?;
    format!(in alloc; "{word} [{}]", code.as_str())
}

fn status_words(alloc: Global, status: &Status) -> Result<String, AllocError> {
    let word = status_word(status);
    match status {
        Status::EaFrom | Status::EaTo => String::from_str(alloc, word),
        Status::Epr(details) | Status::Epv(details) | Status::Epa(details) => {
            details_words(alloc, word, details)
        }
    }
}

fn whole_purse_words(alloc: Global, purse: &Purse) -> Result<String, AllocError> {
    let status = status_words(alloc, &purse.status())?;
    let log = log_words(alloc, "log", &purse.log())?;
    format!(in alloc;
        "balance {}, next {}, {}, {}, lines {}",
        purse.balance(),
        purse.next().get(),
        status.as_str(),
        log.as_str(),
        purse.lines()
    )
}

pub(super) fn purse_words(alloc: Global, purse: Option<Purse>) -> Result<String, AllocError> {
    match purse {
        Some(purse) => whole_purse_words(alloc, &purse),
        None => none(alloc),
    }
}

fn whole_account_words(alloc: Global, account: &Account) -> Result<String, AllocError> {
    let purse = whole_purse_words(alloc, &account.purse)?;
    format!(in alloc;
        "of {} of {}, {}, messages {}, next message {}",
        account.holder.as_str(),
        account.member.as_str(),
        purse.as_str(),
        account.held,
        account.next_message
    )
}

pub(super) fn account_words(alloc: Global, account: Option<Account>) -> Result<String, AllocError> {
    match account {
        Some(account) => whole_account_words(alloc, &account),
        None => none(alloc),
    }
}

fn whole_message_words(alloc: Global, message: &Message) -> Result<String, AllocError> {
    let word = message_word(message);
    match message {
        Message::Req(details) | Message::Val(details) | Message::Ack(details) => {
            details_words(alloc, word, details)
        }
        Message::Clear(log) => log_words(alloc, word, log),
    }
}

pub(super) fn message_words(alloc: Global, message: Option<Message>) -> Result<String, AllocError> {
    match message {
        Some(message) => whole_message_words(alloc, &message),
        None => none(alloc),
    }
}

pub(super) fn inbox_words(
    alloc: Global,
    messages: Vec<(u64, Message)>,
) -> Result<String, AllocError> {
    if messages.is_empty() {
        return none(alloc);
    }
    let mut words = String::new(alloc);
    for (number, message) in &messages {
        let message = whole_message_words(alloc, message)?;
        let item = format!(in alloc; "{number} {}|", message.as_str())?;
        words.push_str(item.as_str())?;
    }
    Ok(words)
}

pub(super) fn names_words(alloc: Global, names: Vec<Name>) -> Result<String, AllocError> {
    if names.is_empty() {
        return none(alloc);
    }
    let mut words = String::new(alloc);
    for name in &names {
        words.push_str(name.as_str())?;
        words.push_str("|")?;
    }
    Ok(words)
}

fn sums_words(alloc: Global, sums: &MemberTotals) -> Result<String, AllocError> {
    format!(in alloc;
        "{},{},{},{},{},{}",
        sums.granted, sums.float, sums.uncollected, sums.issued, sums.redeemed, sums.balances
    )
}

pub(super) fn member_sums_words(
    alloc: Global,
    sums: Option<MemberTotals>,
) -> Result<String, AllocError> {
    match sums {
        Some(sums) => sums_words(alloc, &sums),
        None => none(alloc),
    }
}

pub(super) fn members_sums_words(
    alloc: Global,
    members: Vec<(Name, MemberTotals)>,
) -> Result<String, AllocError> {
    let mut words = String::new(alloc);
    for (name, sums) in &members {
        let sums = sums_words(alloc, sums)?;
        let item = format!(in alloc; "{},{}|", name.as_str(), sums.as_str())?;
        words.push_str(item.as_str())?;
    }
    Ok(words)
}

pub(super) fn scheme_words(alloc: Global, sums: &Totals) -> Result<String, AllocError> {
    format!(in alloc;
        "{},{},{},{},{},{},{},{}",
        sums.granted,
        sums.float,
        sums.uncollected,
        sums.issued,
        sums.redeemed,
        sums.balances,
        sums.transit,
        sums.lost
    )
}

/// A text of ASCII.
fn folded(alloc: Global, text: &[u8]) -> Result<String, AllocError> {
    let mut words = String::new(alloc);
    for byte in text {
        words.push(if *byte == b'\n' {
            '|'
        } else {
            char::from(*byte)
        })?;
    }
    Ok(words)
}

/// The text of a statement.
pub(super) fn lines_words(alloc: Global, lines: Option<Vec<Line>>) -> Result<String, AllocError> {
    match lines {
        Some(lines) => {
            let text = statement_text(alloc, lines.as_slice())?;
            folded(alloc, text.as_slice())
        }
        None => none(alloc),
    }
}

/// How many lines a statement has, and the number and the balance of the last.
pub(super) fn end_words(alloc: Global, lines: Option<Vec<Line>>) -> Result<String, AllocError> {
    let lines = lines.unwrap_or(Vec::new(alloc));
    match lines.last() {
        Some(line) => format!(in alloc;
            "{} lines to {}, balance {}",
            lines.len(),
            line.number,
            line.balance
        ),
        None => none(alloc),
    }
}

/// The text of a reconciliation.
pub(super) fn report_words(alloc: Global, report: &Report) -> Result<String, AllocError> {
    let text = reconcile_text(alloc, report)?;
    folded(alloc, text.as_slice())
}

/// The text of the statements of all purses, and whether they are even.
pub(super) fn statements_words(
    alloc: Global,
    statements: &StatementsText,
) -> Result<String, AllocError> {
    let mut words = folded(alloc, statements.text.as_slice())?;
    words.push_str(if statements.are_even {
        "even"
    } else {
        "not even"
    })?;
    Ok(words)
}
