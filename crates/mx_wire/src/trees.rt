//! Trees of JSON, as the crate `json` reads them, and what serde_json makes of them: it also refuses a number that is
//! too large for a float, anywhere in the text.
ghost use Rattle.std.specs.Prelude.{◌≡◌, ◌==◌, ◌<◌, IsTrue, true, false, is_some, length, option_and_then, option_map, slice_index};
ghost use Rattle.json.specs.Value.{value_view, items_view, members_view};
ghost use Rattle.serde_json.specs.Data.{no_members};
ghost use Rattle.serde_json.specs.Find.{as_u64};
ghost use Rattle.serde_json.specs.Read.{of_json, of_items, of_members, number_of, number_from, float_of};
ghost use Rattle.mx_wire.specs.Bodies.{text_at, number_at};
ghost use Rattle.mx_wire.specs.Trees.{data_of, IsData};

use fast_float::Numeral;
use json::Value;

/// Whether the nearest float is finite.
fn has_float(is_negative: bool, numeral: &Numeral<'_>) -> bool
    ensures { result ≡ is_some (float_of is_negative numeral.now) }
{
    numeral.to_float::<f64>(is_negative).is_finite()
}

/// Whether a number without a sign is in range.
fn is_unsigned_in_range(numeral: &Numeral<'_>) -> bool
    ensures { result ≡ is_some (number_from false numeral.now) }
{
    match numeral.to_u64() {
        Some(_) => true,
        None => has_float(false, numeral),
    }
}

/// Whether a number with a minus before it is in range.
fn is_negative_in_range(numeral: &Numeral<'_>) -> bool
    ensures { result ≡ is_some (number_from true numeral.now) }
{
    if let Some(number) = numeral.to_i64(true) {
        if number < 0 {
            return true;
        }
    }
    has_float(true, numeral)
}

fn has_minus(bytes: &[u8]) -> bool
    ensures value { result ≡ (slice_index bytes.now 0 == 45) }
    ensures some { IsTrue result → 0 < length bytes.now }
{
    !bytes.is_empty() && bytes[0] == b'-'
}

/// Whether the text of a number is in range.
fn is_in_range(text: &str) -> bool
    ensures { result ≡ is_some (number_of text.now) }
{
    let bytes = text.as_bytes();
    if has_minus(bytes) {
        is_negative_in_range(&Numeral::scan(&bytes[1..]))
    } else {
        is_unsigned_in_range(&Numeral::scan(bytes))
    }
}

/// The u64 that the text of a number is.
fn u64_of(text: &str) -> Option<u64>
    ensures { result ≡ option_and_then as_u64 (number_of text.now) }
{
    let bytes = text.as_bytes();
    if has_minus(bytes) {
        None
    } else {
        Numeral::scan(bytes).to_u64()
    }
}

/// Whether each number in a tree is in range.
#[cycle(reads)]
pub(crate) fn is_data(value: &Value<'_>) -> bool
    ensures { result ≡ is_some (of_json (value_view value.now)) }
{
    match value {
        Value::Number(text) => is_in_range(text),
        Value::Array(items) => are_data(items),
        Value::Object(members) => hold_data(members),
        _ => true,
    }
}

#[cycle(reads)]
fn are_data(items: &Vec<Value<'_>>) -> bool
    ensures { result ≡ is_some (of_items (items_view items.now.items)) }
{
    for item in items {
        if !is_data(item) {
            return false;
        }
    }
    true
}

#[cycle(reads)]
fn hold_data(members: &Vec<(&str, Value<'_>)>) -> bool
    ensures { result ≡ is_some (of_members (members_view members.now.items) no_members) }
{
    for member in members {
        if !is_data(&member.1) {
            return false;
        }
    }
    true
}

/// The text of a key.
pub(crate) fn text_at<'v>(value: &Value<'v>, key: &str) -> Option<&'v str>
    requires { IsData value.now }
    ensures { option_map (λ text. text.now) result ≡ text_at key.now (data_of value.now) }
{
    let found = value.get(key)?;
    found.as_str()
}

/// The number of a key.
pub(crate) fn number_at(value: &Value<'_>, key: &str) -> Option<u64>
    requires { IsData value.now }
    ensures { result ≡ number_at key.now (data_of value.now) }
{
    let text = value.get(key)?.as_number()?;
    u64_of(text)
}
