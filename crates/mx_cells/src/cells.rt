//! The values of a row that was read.
ghost use Rattle.std.specs.Prelude.{◌≡◌, ◌+◌, ◌<◌, ◌≤◌, IfOk, IfSome, IsUtf8, Ok, is_ok, is_some, true, option_map, pos};
ghost use Rattle.sqlite_value.specs.Order.{column};
ghost use Rattle.sqlite_value.specs.declared.value.Value.TheVariants.{Int, Text};
ghost use Rattle.hex.specs.Hex.{encode_lower};
ghost use Rattle.mx_pay.specs.Codes.{code, entry_text};
ghost use Rattle.mx_pay.specs.Details.{IsDetails};
ghost use Rattle.mx_pay.specs.Limits.{most_amount, most_number};
ghost use Rattle.mx_pay.specs.Names.{is_name_text};
ghost use Rattle.mx_pay.specs.Log.{IsLogValue};
ghost use Rattle.mx_pay.specs.Tokens.{IsToken};
ghost use Rattle.mx_purse.specs.Messages.{IsMessage};
ghost use Rattle.mx_purse.specs.State.{details_of};
ghost use Rattle.mx_purse.specs.Words.{message_details, message_word, status_details, status_word};
ghost use Rattle.mx_book.specs.Conditions.{IsNote};
ghost use Rattle.mx_book.specs.Words.{kind_text, note_text};

use mx_book::words::read_kind;
use mx_book::{LineKind, Note, StoreFault};
use mx_pay::{Amount, Log, MOST_NUMBER, Name, PayDetails, Token, read_code, read_details};
use mx_purse::words::{read_message, read_status};
use mx_purse::{Message, Status};
use sqlite::Row;
use sqlite_value::value::ValueRef;

/// The text in a column, if one is there.
pub fn text_at(row: &Row, at: usize) -> Option<&str>
    ensures is { IfSome result (λ t. column row.now at ≡ Text t.now) }
    ensures there { (t : _) → IsUtf8 t → column row.now at ≡ Text t → is_some result ≡ true }
{
    match row.get_ref(at) {
        Ok(ValueRef::Text(text)) => std::str::from_utf8(text).ok(),
        _ => None,
    }
}

/// The name in a column. Store where another value is there.
#[tactic(auto, using(crate::proofs::TextLemmas::utf8_name))]
pub fn name_at(row: &Row, at: usize) -> Result<Name, StoreFault>
    ensures is { IfOk result (λ name. column row.now at ≡ Text name) }
    ensures there { (name : _) → is_name_text name ≡ true → column row.now at ≡ Text name
        → is_ok result ≡ true }
{
    let Some(text) = text_at(row, at) else {
        return Err(StoreFault::Store);
    };
    Name::read(text).ok_or(StoreFault::Store)
}

/// The name in the first column of a row, where there is a row.
pub fn name_in(row: Option<Row>) -> Result<Option<Name>, StoreFault>
    ensures is { IfOk result
        (λ name. option_map (λ r. column r 0) row ≡ option_map Text name) }
    ensures there { IfSome row
        (λ r. (name : _) × (is_name_text name ≡ true) × (column r 0 ≡ Text name))
        → is_ok result ≡ true }
{
    match row {
        Some(row) => Ok(Some(name_at(&row, 0)?)),
        None => Ok(None),
    }
}

/// The integer in a column. Store where another value is there.
pub fn integer_at(row: &Row, at: usize) -> Result<i64, StoreFault>
    ensures is { IfOk result (λ n. column row.now at ≡ Int n) }
    ensures there { (n : _) → column row.now at ≡ Int n → is_ok result ≡ true }
{
    match row.get_ref(at) {
        Ok(ValueRef::Int(n)) => Ok(n),
        _ => Err(StoreFault::Store),
    }
}

/// The number in a column. Store where another value is there.
pub fn number_at(row: &Row, at: usize) -> Result<u64, StoreFault>
    ensures is { IfOk result (λ n. column row.now at ≡ Int (pos n)) }
    ensures there { (n : _) → column row.now at ≡ Int (pos n) → is_ok result ≡ true }
{
    match u64::try_from(integer_at(row, at)?) {
        Ok(number) => Ok(number),
        Err(_) => Err(StoreFault::Store),
    }
}

/// The number in the first column of a row, where there is a row.
pub fn number_in(row: Option<Row>) -> Result<Option<u64>, StoreFault>
    ensures is { IfOk result
        (λ number. option_map (λ r. column r 0) row ≡ option_map (λ n. Int (pos n)) number) }
    ensures there { IfSome row (λ r. (n : _) × (column r 0 ≡ Int (pos n)))
        → is_ok result ≡ true }
{
    match row {
        Some(row) => Ok(Some(number_at(&row, 0)?)),
        None => Ok(None),
    }
}

/// The money in a column: a balance, grants or a float, of at most 10^15. Store where another value is there.
pub fn money_at(row: &Row, at: usize) -> Result<u64, StoreFault>
    ensures shown { IfOk result (λ n. column row.now at ≡ Int (pos n)) }
    ensures valid { IfOk result (λ n. n ≤ most_number) }
    ensures there { (n : _) → n ≤ most_number → column row.now at ≡ Int (pos n)
        → is_ok result ≡ true }
{
    let money = number_at(row, at)?;
    if money > MOST_NUMBER {
        return Err(StoreFault::Store);
    }
    Ok(money)
}

/// The amount in a column. Store where another value is there.
pub fn amount_at(row: &Row, at: usize) -> Result<Amount, StoreFault>
    ensures is { IfOk result (λ n. column row.now at ≡ Int (pos n)) }
    ensures there { (n : _) → n ≤ most_amount → column row.now at ≡ Int (pos n)
        → is_ok result ≡ true }
{
    Amount::new(number_at(row, at)?).ok_or(StoreFault::Store)
}

/// The amount in the first column of a row, where there is a row.
pub fn amount_in(row: Option<Row>) -> Result<Option<Amount>, StoreFault>
    ensures is { IfOk result
        (λ amount. option_map (λ r. column r 0) row ≡ option_map (λ n. Int (pos n)) amount) }
    ensures there { IfSome row (λ r. (n : _) × (n ≤ most_amount) × (column r 0 ≡ Int (pos n)))
        → is_ok result ≡ true }
{
    match row {
        Some(row) => Ok(Some(amount_at(&row, 0)?)),
        None => Ok(None),
    }
}

/// The log in a column. Store where another value is there.
#[tactic(auto, using(crate::proofs::TextLemmas::utf8_code))]
pub fn log_at(row: &Row, at: usize) -> Result<Log, StoreFault>
    ensures shown { IfOk result (λ log. column row.now at ≡ Text (code log)) }
    ensures valid { IfOk result IsLogValue }
    ensures there { (log : _) → IsLogValue log → column row.now at ≡ Text (code log)
        → result ≡ Ok log }
{
    let Some(text) = text_at(row, at) else {
        return Err(StoreFault::Store);
    };
    read_code(text).ok_or(StoreFault::Store)
}

/// The details in a column, as one entry. Store where another value is there.
#[tactic(auto, using(crate::proofs::TextLemmas::utf8_entry))]
pub fn entry_at(row: &Row, at: usize) -> Result<PayDetails, StoreFault>
    ensures shown { IfOk result (λ d. column row.now at ≡ Text (entry_text d)) }
    ensures valid { IfOk result IsDetails }
    ensures there { (d : _) → IsDetails d → column row.now at ≡ Text (entry_text d)
        → result ≡ Ok d }
{
    let Some(text) = text_at(row, at) else {
        return Err(StoreFault::Store);
    };
    read_details(text).ok_or(StoreFault::Store)
}

/// The status in a column and the next. Store where other values are there.
#[tactic(auto, using(crate::proofs::TextLemmas::utf8_status_word, crate::proofs::TextLemmas::utf8_status_details))]
pub fn status_at(row: &Row, at: usize) -> Result<Status, StoreFault>
    requires { at < 64 }
    ensures shown { IfOk result
        (λ s. (column row.now at ≡ Text (status_word s))
        × (column row.now (at + 1) ≡ Text (status_details s))) }
    ensures valid { IfOk result (λ s. IfSome (details_of s) IsDetails) }
    ensures there { (s : _) → IfSome (details_of s) IsDetails
        → column row.now at ≡ Text (status_word s)
        → column row.now (at + 1) ≡ Text (status_details s) → result ≡ Ok s }
{
    let Some(word) = text_at(row, at) else {
        return Err(StoreFault::Store);
    };
    let Some(details) = text_at(row, at + 1) else {
        return Err(StoreFault::Store);
    };
    read_status(word, details).ok_or(StoreFault::Store)
}

/// The token in a column, in lower case. Store where another value is there.
#[tactic(auto, using(crate::proofs::TextLemmas::utf8_token, crate::proofs::TextLemmas::token_back))]
pub fn token_at(row: &Row, at: usize) -> Result<Token, StoreFault>
    ensures is { IfOk result (λ t. column row.now at ≡ Text (encode_lower t)) }
    ensures valid { IfOk result IsToken }
    ensures there { (t : _) → IsToken t → column row.now at ≡ Text (encode_lower t)
        → result ≡ Ok t }
{
    let Some(text) = text_at(row, at) else {
        return Err(StoreFault::Store);
    };
    let token = Token::read(text).ok_or(StoreFault::Store)?;
    let digits = token.text();
    if digits.as_slice() != text.as_bytes() {
        return Err(StoreFault::Store);
    }
    Ok(token)
}

/// The message whose kind and details stand in a column and the next. Store where other values are there.
#[tactic(auto, using(crate::proofs::TextLemmas::utf8_message_word, crate::proofs::TextLemmas::utf8_message_details))]
pub fn message_at(row: &Row, at: usize) -> Result<Message, StoreFault>
    requires { at < 64 }
    ensures shown { IfOk result
        (λ m. (column row.now at ≡ Text (message_word m))
        × (column row.now (at + 1) ≡ Text (message_details m))) }
    ensures valid { IfOk result IsMessage }
    ensures there { (m : _) → IsMessage m → column row.now at ≡ Text (message_word m)
        → column row.now (at + 1) ≡ Text (message_details m) → result ≡ Ok m }
{
    let Some(word) = text_at(row, at) else {
        return Err(StoreFault::Store);
    };
    let Some(text) = text_at(row, at + 1) else {
        return Err(StoreFault::Store);
    };
    read_message(word, text).ok_or(StoreFault::Store)
}

/// The kind of line in a column. Store where another value is there.
#[tactic(auto, using(crate::proofs::TextLemmas::utf8_kind))]
pub fn kind_at(row: &Row, at: usize) -> Result<LineKind, StoreFault>
    ensures is { IfOk result (λ kind. column row.now at ≡ Text (kind_text kind)) }
    ensures there { (kind : _) → column row.now at ≡ Text (kind_text kind)
        → is_ok result ≡ true }
{
    let Some(text) = text_at(row, at) else {
        return Err(StoreFault::Store);
    };
    read_kind(text).ok_or(StoreFault::Store)
}

/// What the text in a column refers to: a reference or details. Store where another value is there.
#[tactic(auto, using(crate::proofs::TextLemmas::utf8_note))]
pub fn note_at(row: &Row, at: usize) -> Result<Note, StoreFault>
    ensures shown { IfOk result (λ note. column row.now at ≡ Text (note_text note)) }
    ensures valid { IfOk result IsNote }
    ensures there { (note : _) → IsNote note → column row.now at ≡ Text (note_text note)
        → is_ok result ≡ true }
{
    let Some(text) = text_at(row, at) else {
        return Err(StoreFault::Store);
    };
    if let Some(reference) = Name::read(text) {
        return Ok(Note::Reference(reference));
    }
    Ok(Note::Details(entry_at(row, at)?))
}
