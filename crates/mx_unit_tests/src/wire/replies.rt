//! The bytes of each response.
use mx_command::{Refusal, Reply};
use mx_pay::{PayDetails, read_details};
use mx_purse::Handled;
use mx_wire::Method;
use mx_wire::replies::{Fixed, fixed_text, render, unavailable_text};
use std::alloc::{AllocError, Global};
use std::test::Fail;

/// The head of a response with that status, and reason, and a body of so many bytes.
fn head_of(alloc: Global, status: &str, size: usize) -> Result<String, AllocError> {
    format!(in alloc;
        "HTTP/1.1 {status}\r\ncontent-type: application/json\r\ncontent-length: {size}\r\nconnection: close\r\n\r\n"
    )
}

/// Whether bytes are the head of a response with that status and body, and others the head and the body.
fn is_response(
    alloc: Global,
    bytes: (&[u8], &[u8]),
    status: &str,
    body: &str,
) -> Result<bool, AllocError> {
    let (head, whole) = bytes;
    let mut text = head_of(alloc, status, body.len())?;
    let is_head = head == text.as_bytes();
    text.push_str(body)?;
    Ok(is_head && whole == text.as_bytes())
}

/// Whether a reply has the response with that status and body.
fn is_rendered(alloc: Global, reply: &Reply, status: &str, body: &str) -> Result<bool, AllocError> {
    let response = render(alloc, reply)?;
    is_response(
        alloc,
        (response.text(Method::Head), response.text(Method::Get)),
        status,
        body,
    )
}

/// The body of each of the replies below.
const BODIES: [&str; 14] = [
    "{\"done\":\"added\"}",
    "{\"done\":\"granted\"}",
    "{\"done\":\"loaded\"}",
    "{\"done\":\"sent\"}",
    "{\"done\":\"settled\"}",
    "{\"done\":\"value-sent\"}",
    "{\"done\":\"received\"}",
    "{\"done\":\"finished\"}",
    "{\"done\":\"cleared\"}",
    "{\"done\":\"ignored\"}",
    "{\"done\":\"discarded\"}",
    "{\"done\":\"aborted\",\"logged\":true}",
    "{\"done\":\"aborted\",\"logged\":false}",
    "{\"done\":\"redeemed\"}",
];

/// The reply with the body at this place, of which three tell of a payment.
fn fixed_reply(place: usize, payment: PayDetails) -> Reply {
    match place {
        0 => Reply::Added,
        1 => Reply::Granted,
        2 => Reply::Loaded,
        3 => Reply::Sent,
        4 => Reply::Settled,
        5 => Reply::Handled(Handled::Req(payment)),
        6 => Reply::Handled(Handled::Val(payment)),
        7 => Reply::Handled(Handled::Ack(payment)),
        8 => Reply::Handled(Handled::Cleared),
        9 => Reply::Handled(Handled::Ignored),
        10 => Reply::Discarded,
        11 => Reply::Aborted { logged: true },
        12 => Reply::Aborted { logged: false },
        _ => Reply::Redeemed,
    }
}

#[test]
fn fixed_replies(rt: HostRuntime) -> Result<(), Fail> {
    let payment = read_details("p1,q1,60,4,7").ok_or("no details")?;
    for (place, body) in BODIES.iter().enumerate() {
        let reply = fixed_reply(place, payment);
        assert!(rt; is_rendered(rt.alloc(), &reply, "200 OK", body)?, "{body}");
    }
    Ok(())
}

/// The status and the words of each of the refusals below, a line each.
const REFUSALS: &str = "403 Forbidden: not for this caller
404 Not Found: no such purse
404 Not Found: no such holder
404 Not Found: no such member
404 Not Found: no such message
409 Conflict: name taken
409 Conflict: token taken
409 Conflict: too many purses
409 Conflict: same purse
409 Conflict: not enough
409 Conflict: log full
409 Conflict: purse worn
409 Conflict: reference reused
409 Conflict: float too small
409 Conflict: float full
409 Conflict: grant too large
409 Conflict: over cap
409 Conflict: not archived
409 Conflict: not lost
409 Conflict: already settled";

/// The refusal of the line at this place.
fn refusal_at(place: usize) -> Refusal {
    match place {
        0 => Refusal::NotForCaller,
        1 => Refusal::NoSuchPurse,
        2 => Refusal::NoSuchHolder,
        3 => Refusal::NoSuchMember,
        4 => Refusal::NoSuchMessage,
        5 => Refusal::NameTaken,
        6 => Refusal::TokenTaken,
        7 => Refusal::TooManyPurses,
        8 => Refusal::SamePurse,
        9 => Refusal::NotEnough,
        10 => Refusal::LogFull,
        11 => Refusal::Worn,
        12 => Refusal::RefReused,
        13 => Refusal::FloatTooSmall,
        14 => Refusal::FloatFull,
        15 => Refusal::GrantTooLarge,
        16 => Refusal::OverCap,
        17 => Refusal::NotArchived,
        18 => Refusal::NotLost,
        _ => Refusal::AlreadySettled,
    }
}

/// Whether a refusal has these words, and the response with that status whose body says them.
fn is_refused(
    alloc: Global,
    refusal: Refusal,
    words: &str,
    status: &str,
) -> Result<bool, AllocError> {
    let body = format!(in alloc; "{{\"error\":\"{words}\"}}")?;
    let is_right = is_rendered(alloc, &Reply::Refused(refusal), status, body.as_str())?;
    Ok(is_right && refusal.text() == words)
}

#[test]
fn refusals_in_words_and_in_responses(rt: HostRuntime) -> Result<(), Fail> {
    assert_eq!(rt; REFUSALS.lines().count(), 20);
    for (place, line) in REFUSALS.lines().enumerate() {
        let (status, words) = line.split_once(": ").unwrap_or((line, ""));
        let is_right = is_refused(rt.alloc(), refusal_at(place), words, status)?;
        assert!(rt; is_right, "{words}");
    }
    Ok(())
}

/// The responses that no reply of the office is, with their statuses and bodies.
const OF_THE_DESK: [(Fixed, &str, &str); 8] = [
    (
        Fixed::BadHead,
        "400 Bad Request",
        "{\"error\":\"bad head\"}",
    ),
    (
        Fixed::TransferCoding,
        "501 Not Implemented",
        "{\"error\":\"transfer coding\"}",
    ),
    (
        Fixed::BadLength,
        "400 Bad Request",
        "{\"error\":\"bad content length\"}",
    ),
    (
        Fixed::TooLarge,
        "413 Content Too Large",
        "{\"error\":\"body too large\"}",
    ),
    (
        Fixed::BodyCut,
        "400 Bad Request",
        "{\"error\":\"body cut\"}",
    ),
    (Fixed::NoRoute, "404 Not Found", "{\"error\":\"no route\"}"),
    (
        Fixed::TokenUnknown,
        "403 Forbidden",
        "{\"error\":\"token not known\"}",
    ),
    (
        Fixed::BadBody,
        "400 Bad Request",
        "{\"error\":\"bad body\"}",
    ),
];

/// The response when there is no memory.
const UNAVAILABLE: &[u8] =
    b"HTTP/1.1 503 Service Unavailable\r\ncontent-length: 0\r\nconnection: close\r\n\r\n";

#[test]
fn responses_of_the_desk(rt: HostRuntime) -> Result<(), Fail> {
    for (fixed, status, body) in &OF_THE_DESK {
        let head = fixed_text(*fixed, Method::Head);
        let bytes = (head, fixed_text(*fixed, Method::Get));
        assert!(rt; is_response(rt.alloc(), bytes, status, body)?, "{body}");
    }
    assert!(rt; unavailable_text() == UNAVAILABLE);
    Ok(())
}
