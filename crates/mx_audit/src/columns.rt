//! What the columns of each table hold, to tell which of them a row that isn't read is wrong in.

use crate::findings::Wrong;
use crate::typed::Source;
use mx_cells::cells::{
    entry_at, kind_at, log_at, message_at, name_at, note_at, number_at, status_at, text_at,
    token_at,
};
use mx_pay::names::same_name;
use mx_pay::{MOST_AMOUNT, MOST_NUMBER, Name, Seq};
use mx_purse::Status;
use sqlite::Row;

/// What a column holds.
#[derive(Clone, Copy)]
enum Holds {
    /// A number up to this one: what is said of another value, and of a number above it.
    UpTo(u64, &'static str, &'static str),
    /// This number: what is said of another value.
    Only(u64, &'static str),
    /// A name.
    Name,
    /// Whose kind of token it is.
    Owner,
    /// Whose token it is, in the column behind its kind.
    OwnerName,
    /// A token.
    Token,
    /// The status of a purse, whose details are in the next column.
    Status,
    /// A log.
    Log,
    /// The kind of a message, whose details are in the next column.
    Message,
    /// The kind of a line.
    LineKind,
    /// What a line refers to.
    Note,
    /// Details.
    Details,
}

/// A column of a query: its place, its name, and what it holds.
#[derive(Clone, Copy)]
struct Column(usize, &'static str, Holds);

/// How the rows of a table are told: what one is called, the columns that are its key, and what each column holds.
#[derive(Clone, Copy)]
pub struct Shape {
    pub word: &'static str,
    pub key: &'static [usize],
    columns: &'static [Column],
}

const MONEY: Holds = Holds::UpTo(MOST_NUMBER, "isn't a number from 0 to 10^15", "above 10^15");

const AMOUNT: Holds = Holds::UpTo(MOST_AMOUNT, "isn't a number from 0 to 10^12", "above 10^12");

const LINES: Holds = Holds::UpTo(
    MOST_NUMBER + 2,
    "isn't a number from 0 to 10^15 + 2",
    "above 10^15 + 2",
);

const NUMBER: Holds = Holds::UpTo(u64::MAX, "isn't a number from 0 on", "is too large");

const FLAG: Holds = Holds::UpTo(1, "isn't 0 or 1", "isn't 0 or 1");

const META: Shape = Shape {
    word: "meta",
    key: &[1],
    columns: &[
        Column(0, "version", Holds::Only(2, "isn't 2")),
        Column(1, "id", Holds::Only(1, "isn't 1")),
    ],
};

const MEMBERS: Shape = Shape {
    word: "member",
    key: &[2],
    columns: &[
        Column(0, "granted", MONEY),
        Column(1, "unspent", MONEY),
        Column(2, "name", Holds::Name),
    ],
};

const HOLDERS: Shape = Shape {
    word: "holder",
    key: &[1],
    columns: &[
        Column(0, "member", Holds::Name),
        Column(1, "name", Holds::Name),
    ],
};

const TOKENS: Shape = Shape {
    word: "token",
    key: &[0, 1],
    columns: &[
        Column(0, "kind", Holds::Owner),
        Column(1, "name", Holds::OwnerName),
        Column(2, "token", Holds::Token),
    ],
};

const PURSES: Shape = Shape {
    word: "purse",
    key: &[8],
    columns: &[
        Column(0, "holder", Holds::Name),
        Column(1, "balance", MONEY),
        Column(2, "next_number", MONEY),
        Column(3, "status", Holds::Status),
        Column(5, "log", Holds::Log),
        Column(6, "line_count", LINES),
        Column(7, "next_message", MONEY),
        Column(8, "name", Holds::Name),
    ],
};

const INBOX: Shape = Shape {
    word: "message",
    key: &[3, 0],
    columns: &[
        Column(0, "number", NUMBER),
        Column(1, "kind", Holds::Message),
        Column(3, "purse", Holds::Name),
    ],
};

const LINE: Shape = Shape {
    word: "line",
    key: &[5, 0],
    columns: &[
        Column(0, "number", NUMBER),
        Column(1, "kind", Holds::LineKind),
        Column(2, "amount", AMOUNT),
        Column(3, "balance", MONEY),
        Column(4, "note", Holds::Note),
        Column(5, "purse", Holds::Name),
    ],
};

const RESULTS: &[Column] = &[
    Column(0, "details", Holds::Details),
    Column(1, "purse", Holds::Name),
];

const TRAY: Shape = Shape {
    word: "tray",
    key: &[1, 0],
    columns: RESULTS,
};

const ARCHIVE: Shape = Shape {
    word: "archive",
    key: &[1, 0],
    columns: RESULTS,
};

const LOADS: Shape = Shape {
    word: "load",
    key: &[2, 1],
    columns: &[
        Column(0, "amount", AMOUNT),
        Column(1, "reference", Holds::Name),
        Column(2, "purse", Holds::Name),
    ],
};

const REDEMPTIONS: Shape = Shape {
    word: "redemption",
    key: &[3, 2],
    columns: &[
        Column(0, "amount", AMOUNT),
        Column(1, "collected", FLAG),
        Column(2, "reference", Holds::Name),
        Column(3, "purse", Holds::Name),
    ],
};

const SETTLED: Shape = Shape {
    word: "settled",
    key: &[0],
    columns: &[Column(0, "details", Holds::Details)],
};

/// How the rows of a table are told.
pub fn shape_of(source: Source) -> Shape {
    match source {
        Source::Meta => META,
        Source::Members => MEMBERS,
        Source::Holders => HOLDERS,
        Source::Tokens => TOKENS,
        Source::Purses => PURSES,
        Source::Inbox => INBOX,
        Source::Lines => LINE,
        Source::Tray => TRAY,
        Source::Archive => ARCHIVE,
        Source::Loads => LOADS,
        Source::Redemptions => REDEMPTIONS,
        Source::Settled => SETTLED,
    }
}

/// What is wrong with a row that isn't read: the first column whose value isn't one, or else how they don't go together.
pub fn first_wrong(source: Source, row: &Row) -> Wrong {
    for column in shape_of(source).columns {
        if let Some(words) = wrong_in(row, column) {
            return Wrong::Value(column.1, words);
        }
    }
    Wrong::Told(apart(source, row))
}

/// What is said of the value in a column, if it isn't one.
fn wrong_in(row: &Row, column: &Column) -> Option<&'static str> {
    let at = column.0;
    match column.2 {
        Holds::UpTo(most, other, above) => match number_at(row, at) {
            Ok(number) => (number > most).then_some(above),
            Err(_) => Some(other),
        },
        Holds::Only(number, words) => (number_at(row, at) != Ok(number)).then_some(words),
        Holds::Name => name_at(row, at).is_err().then_some("isn't a name"),
        Holds::Owner | Holds::OwnerName | Holds::Token => wrong_token(row, &column.2),
        Holds::Status | Holds::Log | Holds::Message => wrong_state(row, at, &column.2),
        Holds::LineKind => kind_at(row, at).is_err().then_some("isn't a kind of line"),
        Holds::Note => note_at(row, at)
            .is_err()
            .then_some("is neither a reference nor details"),
        Holds::Details => entry_at(row, at)
            .is_err()
            .then_some("aren't those of a payment"),
    }
}

/// What is said of a value of a token's row, if it isn't one.
fn wrong_token(row: &Row, holds: &Holds) -> Option<&'static str> {
    match (holds, text_at(row, 0)) {
        (Holds::Owner, Some("operator" | "clerk" | "holder")) => None,
        (Holds::Owner, _) => Some("isn't operator, clerk or holder"),
        (Holds::OwnerName, Some("operator")) => {
            (text_at(row, 1) != Some("")).then_some("isn't empty, as the operator's is")
        }
        (Holds::OwnerName, _) => name_at(row, 1).is_err().then_some("isn't a name"),
        _ => token_at(row, 2)
            .is_err()
            .then_some("isn't 32 lower-case hexadecimal digits"),
    }
}

/// What is said of a status, a log or a message, if it isn't one. A status and a message come with their details.
fn wrong_state(row: &Row, at: usize, holds: &Holds) -> Option<&'static str> {
    match holds {
        Holds::Status => status_at(row, 3)
            .is_err()
            .then_some("isn't a word of a status with its details"),
        Holds::Message => message_at(row, 1)
            .is_err()
            .then_some("isn't a word of a message with its details"),
        _ => log_at(row, at)
            .is_err()
            .then_some("isn't the text of a log"),
    }
}

/// How the values of a row don't go together, where each is one by itself.
fn apart(source: Source, row: &Row) -> &'static str {
    let found = match source {
        Source::Purses => apart_in_purse(row),
        _ => None,
    };
    found.unwrap_or("its values don't go together")
}

/// How the values of a purse don't go together, as far as it can be told.
fn apart_in_purse(row: &Row) -> Option<&'static str> {
    let name = name_at(row, 8).ok()?;
    let next = Seq::new(number_at(row, 2).ok()?)?;
    let status = status_at(row, 3).ok()?;
    let log = log_at(row, 5).ok()?;
    Some(if !log.are_of(&name, next) {
        "its values don't go together: an entry of log is another purse's, or not below next_number"
    } else if is_of_other(&status, &name) {
        "its values don't go together: the details of status are another purse's"
    } else {
        "its values don't go together: status doesn't go with the others"
    })
}

/// Whether the details of a status name another purse on its side.
fn is_of_other(status: &Status, name: &Name) -> bool {
    match status {
        Status::EaFrom | Status::EaTo => false,
        Status::Epr(details) | Status::Epa(details) => !same_name(&details.from(), name),
        Status::Epv(details) => !same_name(&details.to(), name),
    }
}
