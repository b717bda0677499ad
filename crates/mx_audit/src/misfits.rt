//! Why a row that is read doesn't fit what was seen before it.

use crate::findings::Wrong;
use crate::seen::Seen;
use crate::typed::TypedRow;
use mx_book::Caller;
use mx_pay::Name;

/// Why a row doesn't fit what was seen before it.
pub fn misfit(seen: &Seen, row: &TypedRow) -> Wrong {
    match row {
        TypedRow::Member(_, _) => Wrong::Told("with it more than 10^15 is granted"),
        TypedRow::Holder(_, _) => Wrong::Told("its member isn't there"),
        TypedRow::Token(_, caller) => Wrong::Told(misfit_of_token(seen, caller)),
        TypedRow::Purse(_, _) => Wrong::Told("its holder isn't there"),
        TypedRow::Message(purse, number, _) => {
            Wrong::Told(misfit_of_message(seen, *purse, *number))
        }
        TypedRow::Line(purse, number, _) => misfit_of_line(seen, *purse, *number),
        TypedRow::Laid(_, _)
        | TypedRow::Archived(_, _)
        | TypedRow::Load(_, _, _)
        | TypedRow::Redemption(_, _, _) => Wrong::Told("its purse isn't there"),
        TypedRow::Version | TypedRow::Settled(_) => Wrong::Told("it doesn't fit"),
    }
}

fn misfit_of_token(seen: &Seen, caller: &Caller) -> &'static str {
    match (seen.has_operator(), caller) {
        (true, Caller::Operator) => "a second token of the operator",
        (true, Caller::Clerk(_)) => "its member isn't there",
        (true, Caller::Holder(_)) => "its holder isn't there",
        (false, _) => "the first token isn't the operator's",
    }
}

fn misfit_of_message(seen: &Seen, purse: Name, number: u64) -> &'static str {
    match seen.purse(purse) {
        None => "its purse isn't there",
        Some(purse) if number >= purse.next_message => {
            "its number isn't below that of the purse's next message"
        }
        Some(_) => "it clears nothing",
    }
}

fn misfit_of_line(seen: &Seen, purse: Name, number: u64) -> Wrong {
    match seen.purse(purse) {
        None => Wrong::Told("its purse isn't there"),
        Some(_) if number == 0 => Wrong::Told("its number is 0"),
        Some(purse) => Wrong::Lines(purse.line_count),
    }
}
