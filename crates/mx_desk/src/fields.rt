//! The fields of a head.
ghost use Rattle.std.specs.Prelude.{◌≡◌, ℕ, List, [], ◌∷◌, ◌++◌, length, map, All, option_map, codes};
ghost use Rattle.httparse.specs.Spans.{IsHeaderWithin, header_bytes};
ghost use Rattle.mx_desk.specs.Requests.{values_of, announced, framing, only};
ghost use Rattle.mx_desk.specs.Fields.{IsOnly};

use crate::head::Reason;
use httparse::spans::HeaderSpan;

/// The values of the fields of one name.
#[derive(Clone, Copy)]
pub enum Only<'a> {
    Absent,
    One(&'a [u8]),
    Many,
}

/// What it is with one value more.
fn one_more<'a>(found: Only<'a>, value: &'a [u8]) -> Only<'a>
    ensures { (values : List (List ℕ)) → IsOnly found.entry values
        → IsOnly result (values ++ value.now ∷ []) }
{
    match found {
        Only::Absent => Only::One(value),
        _ => Only::Many,
    }
}

/// The values of the fields of that name, whose case doesn't count: none, the one, or that there are more.
pub fn values<'a>(bytes: &'a [u8], fields: &[HeaderSpan], name: &[u8]) -> Only<'a>
    requires { All (IsHeaderWithin (length bytes.now)) fields.now }
    ensures { IsOnly result (values_of name.now (map (header_bytes bytes.now) fields.now)) }
{
    let mut found = Only::Absent;
    for field in fields {
        if field.name.of(bytes).eq_ignore_ascii_case(name) {
            found = one_more(found, field.value.of(bytes));
        }
    }
    found
}

/// The longest body, in bytes.
pub const MAX_BODY: usize = 4096;

/// How many bytes a number announces.
fn number_of(value: &[u8]) -> Result<usize, Reason>
    ensures { result ≡ announced value.now }
{
    if value.is_empty() {
        return Err(Reason::BadLength);
    }
    let mut number: usize = 0;
    for digit in value {
        if !digit.is_ascii_digit() {
            return Err(Reason::BadLength);
        }
        number = (number * 10 + (*digit - b'0') as usize).min(MAX_BODY + 1);
    }
    if number <= MAX_BODY {
        Ok(number)
    } else {
        Err(Reason::TooLarge)
    }
}

/// How many bytes of body follow a head with these fields, from 0 to 4,096. The faults, in this order: a
/// transfer-encoding field; Content-Length fields that aren't one number; a number above 4,096.
pub fn body_len(bytes: &[u8], fields: &[HeaderSpan]) -> Result<usize, Reason>
    requires { All (IsHeaderWithin (length bytes.now)) fields.now }
    ensures { result ≡ framing (map (header_bytes bytes.now) fields.now) }
{
    let Only::Absent = values(bytes, fields, b"transfer-encoding") else {
        return Err(Reason::TransferCoding);
    };
    match values(bytes, fields, b"content-length") {
        Only::Absent => Ok(0),
        Only::One(value) => number_of(value),
        Only::Many => Err(Reason::BadLength),
    }
}

/// The value of the `purse-token` field. None where there is no such field, or more than one.
pub fn token<'a>(bytes: &'a [u8], fields: &[HeaderSpan]) -> Option<&'a [u8]>
    requires { All (IsHeaderWithin (length bytes.now)) fields.now }
    ensures { option_map (λ x. x.now) result ≡ only
        (values_of (codes "purse-token") (map (header_bytes bytes.now) fields.now)) }
{
    match values(bytes, fields, b"purse-token") {
        Only::One(value) => Some(value),
        _ => None,
    }
}
