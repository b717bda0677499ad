//! The first request of some bytes.
ghost use Rattle.std.specs.Prelude.{◌≡◌, ◌≤◌, length};
ghost use Rattle.httparse.specs.Grammar.{RequestHead};
ghost use Rattle.httparse.specs.Spans.{IsRequestAt, IsRequestWithin};
ghost use Rattle.mx_desk.specs.Found.{IsFound};

use crate::fields::{body_len, token};
use crate::head::{Found, Reason, Received, Stop};
use httparse::Status;
use httparse::spans::{HeaderSpan, RequestSpans, parse_request};
use mx_wire::Method;

/// The longest head, in bytes.
pub const MAX_HEAD: usize = 8192;

/// The most fields of a head.
pub const MAX_FIELDS: usize = 64;

/// No head, and so no method.
const BAD_HEAD: Stop = Stop {
    method: Method::Other,
    reason: Reason::BadHead,
};

/// What comes first after a whole head.
fn after_head<'a>(bytes: &'a [u8], fields: &[HeaderSpan], head: &RequestSpans) -> Found<'a>
    requires within { IsRequestWithin bytes.now fields.now head.now }
    requires at { (h : RequestHead) × IsRequestAt bytes.now fields.now head.now h }
    requires short { head.now.len ≤ 8192 }
    requires few { length fields.now ≤ 64 }
    ensures { IsFound bytes.now result }
{
    let fields = &fields[..head.headers];
    let method = Method::of(head.method.of(bytes));
    let len = match body_len(bytes, fields) {
        Ok(len) => len,
        Err(reason) => return Found::Stopped(Stop { method, reason }),
    };
    if bytes.len() - head.len < len {
        let reason = Reason::BodyCut;
        return Found::Open(Some(Stop { method, reason }));
    }
    let end = head.len + len;
    let asked = Received {
        method,
        path: head.path.of(bytes),
        token: token(bytes, fields),
        body: &bytes[head.len..end],
    };
    Found::Whole(asked, end)
}

/// What comes first in these bytes: a whole request or a fault, whatever follows them, or what it is if nothing
/// follows. The fields of the head are read in `fields`.
pub fn first<'a>(bytes: &'a [u8], fields: &mut [HeaderSpan; MAX_FIELDS]) -> Found<'a>
    ensures { IsFound bytes.now result }
{
    if bytes.is_empty() {
        return Found::Open(None);
    }
    match parse_request(bytes, fields) {
        Ok(Status::Complete(head)) => {
            if MAX_HEAD < head.len {
                return Found::Stopped(BAD_HEAD);
            }
            after_head(bytes, fields, &head)
        }
        Ok(Status::Partial) => {
            if MAX_HEAD <= bytes.len() {
                return Found::Stopped(BAD_HEAD);
            }
            Found::Open(Some(BAD_HEAD))
        }
        Err(_) => Found::Stopped(BAD_HEAD),
    }
}
