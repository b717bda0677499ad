//! Code texts: the text of a log, and the log of a text.
ghost use Rattle.std.specs.Prelude.{◌≡◌, ◌^◌, ◌++◌, ◌∷◌, [], Some, option_map, IfSome, IfOk, string_bytes};
ghost use Rattle.mx_pay.specs.Limits.{most_amount, most_number, most_entries};
ghost use Rattle.mx_pay.specs.Codes.{code, entry_text};
ghost use Rattle.mx_pay.specs.Reading.{cut, number_of, limited, apart, made_of, entry_of, put_last, with_text, entries_of, lead};
ghost use Rattle.mx_pay.specs.Details.{Details, IsDetails};
ghost use Rattle.mx_pay.specs.Log.{IsLogValue, Entries, none_logged};

use crate::details::PayDetails;
use crate::log::{Log, MOST_ENTRIES};
use crate::names::Name;
use crate::numbers::{Amount, Seq};
use std::alloc::{AllocError, Global};

/// The code text of `log`: its entries in order, with semicolons between them. An entry is its five fields
/// in order, with commas between them, the numbers in decimal without leading zeros. The text of the empty
/// log is empty. Err only where an allocation fails.
pub fn code_text(alloc: Global, log: &Log) -> Result<String, AllocError>
    ensures text { IfOk result (λ text. string_bytes text ≡ code log.now) }
    ensures valid { IsLogValue log.now }
{
    let mut text = String::new(alloc);
    for place in 0..log.len() {
        if let Some(details) = log.at(place) {
            push_at(&mut text, place, &details)?;
        }
    }
    Ok(text)
}

/// Writes the entry at a place, behind a semicolon where it isn't the first.
fn push_at(text: &mut String, place: usize, details: &PayDetails) -> Result<(), AllocError>
    ensures { IfOk result (λ _. string_bytes text.new ≡
        (string_bytes text.old ++ lead place) ++ entry_text details.now) }
{
    if place != 0 {
        text.push_str(";")?;
    }
    push_entry(text, details)
}

/// Writes the code text of one entry at the end of `text`: the five fields with commas between them, the numbers in
/// decimal without leading zeros. Err only where an allocation fails; then a part of it may stand there.
pub fn push_entry(text: &mut String, details: &PayDetails) -> Result<(), AllocError>
    ensures { IfOk result (λ _. string_bytes text.new
        ≡ string_bytes text.old ++ entry_text details.now) }
{
    let mut buffer = itoa::Buffer::new();
    push_field(text, details.from().as_str())?;
    push_field(text, details.to().as_str())?;
    push_field(text, buffer.format(details.value().get()))?;
    push_field(text, buffer.format(details.from_seq().get()))?;
    text.push_str(buffer.format(details.to_seq().get()))?;
    Ok(())
}

/// Writes a field and a comma at the end.
fn push_field(text: &mut String, field: &str) -> Result<(), AllocError>
    ensures { IfOk result (λ _. string_bytes text.new ≡ string_bytes text.old ++
        (field.now ++ 44 ∷ [])) }
{
    text.push_str(field)?;
    text.push_str(",")?;
    Ok(())
}

/// The log whose code text is `text`. None exactly where `text` is the code text of no log: where an entry
/// doesn't have five fields, a name is no name, a number is none in decimal without leading zeros or is above
/// its limit, the two names of an entry are the same, the entries don't strictly rise, there are more than 16,
/// or something stands beside them.
pub fn read_code(text: &str) -> Option<Log>
    ensures found { IfSome result (λ log. text.now ≡ code log) }
    ensures valid { IfSome result IsLogValue }
    ensures only { (log : Entries) → IsLogValue log → text.now ≡ code log → result ≡ Some log }
{
    if text.is_empty() {
        return Some(Log::new());
    }
    read_entries(text)
}

/// The details whose entry in a code text is `text`. None exactly where it is the entry of no details.
pub fn read_details(text: &str) -> Option<PayDetails>
    ensures found { IfSome result (λ d. text.now ≡ entry_text d) }
    ensures valid { IfSome result IsDetails }
    ensures only { (d : Details) → IsDetails d → text.now ≡ entry_text d → result ≡ Some d }
{
    read_entry(text)
}

fn read_entries(text: &str) -> Option<Log>
    ensures { result ≡ entries_of most_entries text.now none_logged }
{
    let mut log = Log::new();
    let mut rest = text;
    for _turn in 0..MOST_ENTRIES {
        match cut_semicolon(rest) {
            None => return with_text(&log, rest),
            Some((first, more)) => {
                log = with_text(&log, first)?;
                rest = more;
            }
        }
    }
    None
}

/// The log with the entry of a text at its end, where that comes behind all of it and there is room.
#[tactic(auto, unfolding(crate::specs::Reading::with_text))]
fn with_text(log: &Log, text: &str) -> Option<Log>
    ensures { result ≡ with_text log.now text.now }
{
    let details = read_entry(text)?;
    put_last(log, details)
}

fn put_last(log: &Log, details: PayDetails) -> Option<Log>
    ensures { result ≡ put_last log.now details }
{
    if !log.is_below(&details) {
        return None;
    }
    let mut longer = *log;
    if longer.add(details) {
        Some(longer)
    } else {
        None
    }
}

#[tactic(auto, unfolding(crate::specs::Reading::entry_of))]
fn read_entry(text: &str) -> Option<PayDetails>
    ensures { result ≡ entry_of text.now }
{
    let (from, rest) = cut_comma(text)?;
    let (to, rest) = cut_comma(rest)?;
    let (value, rest) = cut_comma(rest)?;
    let (from_seq, to_seq) = cut_comma(rest)?;
    details_of(from, to, value, from_seq, to_seq)
}

#[tactic(auto, unfolding(crate::specs::Reading::made_of))]
fn details_of(from: &str, to: &str, value: &str, from_seq: &str, to_seq: &str) -> Option<PayDetails>
    ensures { result ≡ made_of from.now to.now value.now from_seq.now to_seq.now }
{
    let from = Name::read(from)?;
    let to = Name::read(to)?;
    let value = read_amount(value)?;
    let from_seq = read_seq(from_seq)?;
    let to_seq = read_seq(to_seq)?;
    with_fields(from, to, value, from_seq, to_seq)
}

fn with_fields(
    from: Name,
    to: Name,
    value: Amount,
    from_seq: Seq,
    to_seq: Seq,
) -> Option<PayDetails>
    ensures { result ≡ apart (record {
      from = from;
      to = to;
      value = value;
      from_seq = from_seq;
      to_seq = to_seq;
    }) }
{
    PayDetails::new(from, to, value, from_seq, to_seq)
}

fn read_amount(text: &str) -> Option<Amount>
    ensures { result ≡ limited most_amount text.now }
{
    Amount::new(read_number(text)?)
}

/// The sequence number that is written so, in decimal and without leading zeros. None exactly where the text isn't that
/// of a number from 0 to 10^15.
pub fn read_seq(text: &str) -> Option<Seq>
    ensures { result ≡ limited most_number text.now }
{
    Seq::new(read_number(text)?)
}

/// The number that is written so, and in no other way.
fn read_number(text: &str) -> Option<u64>
    ensures { result ≡ number_of text.now }
{
    let number = match text.parse::<u64>() {
        Ok(number) => number,
        Err(_) => return None,
    };
    let mut buffer = itoa::Buffer::new();
    if buffer.format(number) == text {
        Some(number)
    } else {
        None
    }
}

fn cut_comma(text: &str) -> Option<(&str, &str)>
    ensures { option_map (λ x. (x.0.now, x.1.now)) result ≡ cut 44 text.now }
{
    text.split_once(',')
}

fn cut_semicolon(text: &str) -> Option<(&str, &str)>
    ensures { option_map (λ x. (x.0.now, x.1.now)) result ≡ cut 59 text.now }
{
    text.split_once(';')
}
