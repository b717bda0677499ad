//! The responses: a head, and a body that is one JSON object.
ghost use Rattle.std.specs.Prelude.{◌≡◌, ◌++◌, length, map, IfOk, IfErr, IsTrue, codes, string_bytes};
ghost use Rattle.mx_purse.specs.Words.{message_details};
ghost use Rattle.mx_wire.specs.Made.{parts_of};
ghost use Rattle.mx_wire.specs.Replies.{sent, unavailable, fixed_parts, refusal_parts, response, reply_parts, handled_fixed, is_made, shown_text, shown_body, started_body, collected_body, archived_body, entry_or_null, entry_body, purses_body, quoted, inbox_body, message_text, line_text, statement_body, reconciled_body, after_commas};
ghost use Rattle.mx_wire.specs.declared.routes.Method.TheVariants.{Get};
ghost use Rattle.std.specs.Fmt.{decimal};

use crate::routes::Method;
use mx_book::values::{Line, Totals};
use mx_book::words::{kind_text, push_note};
use mx_command::{Lines, Messages, Names, Refusal, Reply};
use mx_pay::{Name, PayDetails, code_text, push_entry};
use mx_purse::words::{message_word, status_word};
use mx_purse::{Handled, Message, Purse};
use std::alloc::{AllocError, Global};
use std::marker::Model;

/// A response that is always the same bytes, and takes no memory.
#[derive(Clone, Copy)]
pub enum Fixed {
    /// 400: what came is no head, or none within the limits.
    BadHead,
    /// 501: the head has a transfer-encoding field.
    TransferCoding,
    /// 400: the content-length fields aren't one number.
    BadLength,
    /// 413: the body is announced with more than 4,096 bytes.
    TooLarge,
    /// 400: the input ended inside the body.
    BodyCut,
    /// 404: no command has this method and path.
    NoRoute,
    /// 403: no token, two of them, or one that is nobody's.
    TokenUnknown,
    /// 400: the body doesn't say what the command needs.
    BadBody,
    /// 403, 404 or 409: the office refuses the command.
    Refused(Refusal),
    /// 200: the member, the holder or the purse is added.
    Added,
    /// 200: the grant is made.
    Granted,
    /// 200: the purse is loaded.
    Loaded,
    /// 200: the message that clears a log is sent.
    Sent,
    /// 200: the lost value came back to the purse that paid it.
    Settled,
    /// 200: the purse took a req, and the value is sent.
    ValueSent,
    /// 200: the purse took a val.
    Received,
    /// 200: the purse took an ack.
    Finished,
    /// 200: the purse took a clear.
    Cleared,
    /// 200: the purse ignored the message.
    Ignored,
    /// 200: the message is thrown away.
    Discarded,
    /// 200: the purse is at rest, and a payment was logged.
    AbortedLogged,
    /// 200: the purse is at rest, and nothing was logged.
    Aborted,
    /// 200: the purse is redeemed.
    Redeemed,
}

/// A whole response, and the size of its body.
macro_rules! answer {
    ($status:literal, $size:literal, $body:literal) => {
        (
            concat!(
                "HTTP/1.1 ",
                $status,
                "\r\ncontent-type: application/json\r\ncontent-length: ",
                $size,
                "\r\nconnection: close\r\n\r\n",
                $body
            ),
            $size,
        )
    };
}

/// The response to a request that the office refuses, and the size of its body.
#[tactic(auto, unfolding(crate::proofs::ReplyLemmas::reply_texts))]
fn refusal_answer(refusal: Refusal) -> (&'static str, usize)
    ensures whole { result.0.now ≡ sent Get (refusal_parts refusal) }
    ensures size { result.1 ≡ length (refusal_parts refusal).body }
{
    match refusal {
        Refusal::NotForCaller => answer!(
            "403 Forbidden",
            31,
            "{\"error\":\"not for this caller\"}"
        ),
        Refusal::NoSuchPurse => answer!("404 Not Found", 25, "{\"error\":\"no such purse\"}"),
        Refusal::NoSuchHolder => answer!("404 Not Found", 26, "{\"error\":\"no such holder\"}"),
        Refusal::NoSuchMember => answer!("404 Not Found", 26, "{\"error\":\"no such member\"}"),
        Refusal::NoSuchMessage => answer!("404 Not Found", 27, "{\"error\":\"no such message\"}"),
        Refusal::NameTaken => answer!("409 Conflict", 22, "{\"error\":\"name taken\"}"),
        Refusal::TokenTaken => answer!("409 Conflict", 23, "{\"error\":\"token taken\"}"),
        Refusal::TooManyPurses => answer!("409 Conflict", 27, "{\"error\":\"too many purses\"}"),
        Refusal::SamePurse => answer!("409 Conflict", 22, "{\"error\":\"same purse\"}"),
        Refusal::NotEnough => answer!("409 Conflict", 22, "{\"error\":\"not enough\"}"),
        Refusal::LogFull => answer!("409 Conflict", 20, "{\"error\":\"log full\"}"),
        Refusal::Worn => answer!("409 Conflict", 22, "{\"error\":\"purse worn\"}"),
        Refusal::RefReused => answer!("409 Conflict", 28, "{\"error\":\"reference reused\"}"),
        Refusal::FloatTooSmall => answer!("409 Conflict", 27, "{\"error\":\"float too small\"}"),
        Refusal::FloatFull => answer!("409 Conflict", 22, "{\"error\":\"float full\"}"),
        Refusal::GrantTooLarge => answer!("409 Conflict", 27, "{\"error\":\"grant too large\"}"),
        Refusal::OverCap => answer!("409 Conflict", 20, "{\"error\":\"over cap\"}"),
        Refusal::NotArchived => answer!("409 Conflict", 24, "{\"error\":\"not archived\"}"),
        Refusal::NotLost => answer!("409 Conflict", 20, "{\"error\":\"not lost\"}"),
        Refusal::AlreadySettled => answer!("409 Conflict", 27, "{\"error\":\"already settled\"}"),
    }
}

/// A response that is always the same, and the size of its body.
#[tactic(auto, unfolding(crate::proofs::ReplyLemmas::reply_texts))]
fn fixed_answer(fixed: Fixed) -> (&'static str, usize)
    ensures whole { result.0.now ≡ sent Get (fixed_parts fixed) }
    ensures size { result.1 ≡ length (fixed_parts fixed).body }
{
    match fixed {
        Fixed::BadHead => answer!("400 Bad Request", 20, "{\"error\":\"bad head\"}"),
        Fixed::TransferCoding => answer!(
            "501 Not Implemented",
            27,
            "{\"error\":\"transfer coding\"}"
        ),
        Fixed::BadLength => answer!("400 Bad Request", 30, "{\"error\":\"bad content length\"}"),
        Fixed::TooLarge => answer!(
            "413 Content Too Large",
            26,
            "{\"error\":\"body too large\"}"
        ),
        Fixed::BodyCut => answer!("400 Bad Request", 20, "{\"error\":\"body cut\"}"),
        Fixed::NoRoute => answer!("404 Not Found", 20, "{\"error\":\"no route\"}"),
        Fixed::TokenUnknown => answer!("403 Forbidden", 27, "{\"error\":\"token not known\"}"),
        Fixed::BadBody => answer!("400 Bad Request", 20, "{\"error\":\"bad body\"}"),
        Fixed::Refused(refusal) => refusal_answer(refusal),
        Fixed::Added => answer!("200 OK", 16, "{\"done\":\"added\"}"),
        Fixed::Granted => answer!("200 OK", 18, "{\"done\":\"granted\"}"),
        Fixed::Loaded => answer!("200 OK", 17, "{\"done\":\"loaded\"}"),
        Fixed::Sent => answer!("200 OK", 15, "{\"done\":\"sent\"}"),
        Fixed::Settled => answer!("200 OK", 18, "{\"done\":\"settled\"}"),
        Fixed::ValueSent => answer!("200 OK", 21, "{\"done\":\"value-sent\"}"),
        Fixed::Received => answer!("200 OK", 19, "{\"done\":\"received\"}"),
        Fixed::Finished => answer!("200 OK", 19, "{\"done\":\"finished\"}"),
        Fixed::Cleared => answer!("200 OK", 18, "{\"done\":\"cleared\"}"),
        Fixed::Ignored => answer!("200 OK", 18, "{\"done\":\"ignored\"}"),
        Fixed::Discarded => answer!("200 OK", 20, "{\"done\":\"discarded\"}"),
        Fixed::AbortedLogged => answer!("200 OK", 32, "{\"done\":\"aborted\",\"logged\":true}"),
        Fixed::Aborted => answer!("200 OK", 33, "{\"done\":\"aborted\",\"logged\":false}"),
        Fixed::Redeemed => answer!("200 OK", 19, "{\"done\":\"redeemed\"}"),
    }
}

/// The bytes of a response that is always the same: its head alone for HEAD.
pub fn fixed_text(fixed: Fixed, method: Method) -> &'static [u8]
    ensures { result.now ≡ sent method (fixed_parts fixed) }
{
    let (whole, size) = fixed_answer(fixed);
    let bytes = whole.as_bytes();
    if method == Method::Head {
        &bytes[..bytes.len() - size]
    } else {
        bytes
    }
}

/// The bytes of the 503 response, which has no body and is the same for HEAD.
#[tactic(auto, unfolding(crate::specs::Replies::unavailable))]
pub fn unavailable_text() -> &'static [u8]
    ensures { result.now ≡ unavailable }
{
    b"HTTP/1.1 503 Service Unavailable\r\ncontent-length: 0\r\nconnection: close\r\n\r\n"
}

/// A response that was made for one reply, with the end of its head known. A contract sees it as the two parts.
#[derive(Drop)]
pub struct Written {
    text: String,
    head_len: usize,
}

impl Model for Written {
    ghost use Rattle.std.specs.Prelude.{◌≤◌, length, take, drop, string_bytes};
    ghost use Rattle.mx_wire.specs.Replies.{Parts};

    ghost Value = { Parts };

    ghost view = { λ r. record { head = take r.head_len (string_bytes r.text); body = drop r.head_len (string_bytes r.text) } };

    ghost invariant = { λ r. r.head_len ≤ length (string_bytes r.text) };
}

impl Written {
    /// The bytes to send: the whole response, or its head alone for HEAD.
    pub fn text(&self, method: Method) -> &[u8]
        ensures { result.now ≡ sent method self.now }
    {
        let bytes = self.text.as_bytes();
        if method == Method::Head {
            &bytes[..self.head_len]
        } else {
            bytes
        }
    }
}

/// The response to a reply.
#[derive(Drop)]
pub enum Response {
    /// One that is always the same.
    Always(Fixed),
    /// One that was made for this reply.
    Made(Written),
}

impl Response {
    /// The bytes to send: the whole response, or its head alone for HEAD.
    pub fn text(&self, method: Method) -> &[u8]
        ensures { result.now ≡ sent method (parts_of self.now) }
    {
        match self {
            Response::Always(fixed) => fixed_text(*fixed, method),
            Response::Made(written) => written.text(method),
        }
    }
}

/// The body that shows a purse of these parts.
#[tactic(auto, unfolding(crate::specs::Replies::shown_text))]
fn shown_text(
    alloc: Global,
    balance: u64,
    next: u64,
    name: &str,
    status: &str,
) -> Result<String, AllocError>
    ensures { IfOk result (λ text. string_bytes text
        ≡ shown_text balance next name.now status.now) }
{
    format!(in alloc;
        "{{\"balance\":{balance},\"next\":{next},\"purse\":\"{name}\",\"status\":\"{status}\"}}"
    )
}

/// The body that shows a purse.
fn shown_body(alloc: Global, purse: &Purse) -> Result<String, AllocError>
    ensures { IfOk result (λ text. string_bytes text ≡ shown_body purse.now) }
{
    let name = purse.name();
    let status = status_word(&purse.status());
    shown_text(
        alloc,
        purse.balance(),
        purse.next().get(),
        name.as_str(),
        status,
    )
}

/// The body of a payment that is started.
#[tactic(auto, unfolding(crate::specs::Replies::started_body))]
fn started_body(alloc: Global, details: &PayDetails) -> Result<String, AllocError>
    ensures { IfOk result (λ text. string_bytes text ≡ started_body details.now) }
{
    let mut text = String::with_capacity(alloc, 128)?;
    text.push_str("{\"details\":\"")?;
    push_entry(&mut text, details)?;
    text.push_str("\",\"done\":\"started\"}")?;
    Ok(text)
}

/// The body of a sum that is collected.
#[tactic(auto, unfolding(crate::specs::Replies::collected_body))]
fn collected_body(alloc: Global, sum: u128) -> Result<String, AllocError>
    ensures { IfOk result (λ text. string_bytes text ≡ collected_body sum) }
{
    format!(in alloc; "{{\"collected\":\"{sum}\"}}")
}

/// The body of so many results that went to the archive.
#[tactic(auto, unfolding(crate::specs::Replies::archived_body))]
fn archived_body(alloc: Global, count: usize) -> Result<String, AllocError>
    ensures { IfOk result (λ text. string_bytes text ≡ archived_body count) }
{
    let mut buffer = itoa::Buffer::new();
    let mut text = String::with_capacity(alloc, 64)?;
    text.push_str("{\"archived\":")?;
    text.push_str(buffer.format(count))?;
    text.push_str("}")?;
    Ok(text)
}

/// Writes an entry in quotes at the end, or null where there is none.
fn push_entry_or_null(text: &mut String, entry: &Option<PayDetails>) -> Result<(), AllocError>
    ensures { IfOk result (λ _. string_bytes text.new
        ≡ string_bytes text.old ++ entry_or_null entry.now) }
{
    match entry {
        Some(details) => {
            text.push_str("\"")?;
            push_entry(text, details)?;
            text.push_str("\"")
        }
        None => text.push_str("null"),
    }
}

/// The body of what was read of a log.
#[tactic(auto, unfolding(crate::specs::Replies::entry_body))]
fn entry_body(alloc: Global, entry: &Option<PayDetails>) -> Result<String, AllocError>
    ensures { IfOk result (λ text. string_bytes text ≡ entry_body entry.now) }
{
    let mut text = String::with_capacity(alloc, 128)?;
    text.push_str("{\"done\":\"read\",\"entry\":")?;
    push_entry_or_null(&mut text, entry)?;
    text.push_str("}")?;
    Ok(text)
}

/// Writes a name in quotes at the end.
fn push_quoted(text: &mut String, name: &Name) -> Result<(), AllocError>
    ensures { IfOk result (λ _. string_bytes text.new ≡ string_bytes text.old ++ quoted name.now) }
{
    text.push_str("\"")?;
    text.push_str(name.as_str())?;
    text.push_str("\"")
}

/// Writes names in quotes at the end, each behind a comma.
fn push_more_names(text: &mut String, names: &[Name]) -> Result<(), AllocError>
    ensures { IfOk result (λ _. string_bytes text.new ≡ string_bytes text.old ++ after_commas
        (map quoted names.now)) }
{
    for name in names {
        text.push_str(",")?;
        push_quoted(text, name)?;
    }
    Ok(())
}

/// The body of a list of names.
#[tactic(auto, unfolding(crate::specs::Replies::purses_body))]
fn purses_body(alloc: Global, names: &Names) -> Result<String, AllocError>
    ensures { IfOk result (λ text. string_bytes text ≡ purses_body names.now) }
{
    let mut text = String::new(alloc);
    text.push_str("{\"purses\":[")?;
    if let [first, more @ ..] = names.as_slice() {
        push_quoted(&mut text, first)?;
        push_more_names(&mut text, more)?;
    }
    text.push_str("]}")?;
    Ok(text)
}

/// Writes the details of a message at the end: those of its payment, or the code text of a clear's set.
fn push_details(alloc: Global, text: &mut String, message: &Message) -> Result<(), AllocError>
    ensures { IfOk result (λ _. string_bytes text.new
        ≡ string_bytes text.old ++ message_details message.now) }
{
    match message {
        Message::Req(details) | Message::Val(details) | Message::Ack(details) => {
            push_entry(text, details)
        }
        Message::Clear(set) => {
            let code = code_text(alloc, set)?;
            text.push_str(code.as_str())
        }
    }
}

/// Writes a message with its number at the end.
fn push_message(
    alloc: Global,
    text: &mut String,
    number: u64,
    message: &Message,
) -> Result<(), AllocError>
    ensures { IfOk result (λ _. string_bytes text.new ≡ string_bytes text.old ++ message_text
        (number, message.now)) }
{
    text.push_str("{\"details\":\"")?;
    push_details(alloc, text, message)?;
    text.push_str("\",\"kind\":\"")?;
    text.push_str(message_word(message))?;
    push_number(text, "\",\"number\":", number)?;
    text.push_str("}")?;
    Ok(())
}

/// Writes messages with their numbers at the end, each behind a comma.
fn push_more_messages(
    alloc: Global,
    text: &mut String,
    messages: &[(u64, Message)],
) -> Result<(), AllocError>
    ensures { IfOk result (λ _. string_bytes text.new ≡ string_bytes text.old ++ after_commas
        (map message_text messages.now)) }
{
    for (number, message) in messages {
        text.push_str(",")?;
        push_message(alloc, text, *number, message)?;
    }
    Ok(())
}

/// The body of a list of messages.
#[tactic(auto, unfolding(crate::specs::Replies::inbox_body))]
fn inbox_body(alloc: Global, messages: &Messages) -> Result<String, AllocError>
    ensures { IfOk result (λ text. string_bytes text ≡ inbox_body messages.now) }
{
    let mut text = String::new(alloc);
    text.push_str("{\"messages\":[")?;
    if let [(number, message), more @ ..] = messages.as_slice() {
        push_message(alloc, &mut text, *number, message)?;
        push_more_messages(alloc, &mut text, more)?;
    }
    text.push_str("]}")?;
    Ok(text)
}

/// Writes a number behind a text at the end.
fn push_number(text: &mut String, before: &str, number: u64) -> Result<(), AllocError>
    ensures { IfOk result (λ _. string_bytes text.new
        ≡ string_bytes text.old ++ before.now ++ decimal number) }
{
    let mut buffer = itoa::Buffer::new();
    text.push_str(before)?;
    text.push_str(buffer.format(number))
}

/// Writes a line at the end.
fn push_line(text: &mut String, line: &Line) -> Result<(), AllocError>
    ensures { IfOk result (λ _. string_bytes text.new
        ≡ string_bytes text.old ++ line_text line.now) }
{
    push_number(text, "{\"amount\":", line.amount.get())?;
    push_number(text, ",\"balance\":", line.balance)?;
    text.push_str(",\"kind\":\"")?;
    text.push_str(kind_text(line.kind))?;
    text.push_str("\",\"note\":\"")?;
    push_note(text, &line.note)?;
    push_number(text, "\",\"number\":", line.number)?;
    text.push_str("}")?;
    Ok(())
}

/// Writes lines at the end, each behind a comma.
fn push_more_lines(text: &mut String, lines: &[Line]) -> Result<(), AllocError>
    ensures { IfOk result (λ _. string_bytes text.new ≡ string_bytes text.old ++ after_commas
        (map line_text lines.now)) }
{
    for line in lines {
        text.push_str(",")?;
        push_line(text, line)?;
    }
    Ok(())
}

/// The body of a list of lines.
#[tactic(auto, unfolding(crate::specs::Replies::statement_body))]
fn statement_body(alloc: Global, lines: &Lines) -> Result<String, AllocError>
    ensures { IfOk result (λ text. string_bytes text ≡ statement_body lines.now) }
{
    let mut text = String::new(alloc);
    text.push_str("{\"lines\":[")?;
    if let [first, more @ ..] = lines.as_slice() {
        push_line(&mut text, first)?;
        push_more_lines(&mut text, more)?;
    }
    text.push_str("]}")?;
    Ok(text)
}

/// Writes a sum behind a text at the end.
fn push_sum(text: &mut String, before: &str, sum: u128) -> Result<(), AllocError>
    ensures { IfOk result (λ _. string_bytes text.new
        ≡ string_bytes text.old ++ before.now ++ decimal sum) }
{
    let mut buffer = itoa::Buffer::new();
    text.push_str(before)?;
    text.push_str(buffer.format(sum))
}

/// The body of the sums of the whole scheme.
fn reconciled_body(alloc: Global, sums: &Totals) -> Result<String, AllocError>
    ensures { IfOk result (λ text. string_bytes text ≡ reconciled_body sums.now) }
{
    let mut text = String::with_capacity(alloc, 512)?;
    push_sum(&mut text, "{\"balances\":\"", sums.balances)?;
    push_sum(&mut text, "\",\"float\":\"", sums.float)?;
    push_sum(&mut text, "\",\"granted\":\"", sums.granted)?;
    push_sum(&mut text, "\",\"issued\":\"", sums.issued)?;
    push_sum(&mut text, "\",\"lost\":\"", sums.lost)?;
    push_sum(&mut text, "\",\"redeemed\":\"", sums.redeemed)?;
    push_sum(&mut text, "\",\"transit\":\"", sums.transit)?;
    push_sum(&mut text, "\",\"uncollected\":\"", sums.uncollected)?;
    text.push_str("\"}")?;
    Ok(text)
}

/// The response 200 with that body.
fn respond(alloc: Global, body: &str) -> Result<Response, AllocError>
    ensures { IfOk result (λ r. parts_of r ≡ response (codes "200 OK") body.now) }
{
    let mut buffer = itoa::Buffer::new();
    let mut text = String::with_capacity(alloc, 256)?;
    text.push_str("HTTP/1.1 200 OK\r\ncontent-type: application/json\r\ncontent-length: ")?;
    text.push_str(buffer.format(body.len()))?;
    text.push_str("\r\nconnection: close\r\n\r\n")?;
    let head_len = text.len();
    text.push_str(body)?;
    Ok(Response::Made(Written { text, head_len }))
}

/// The response of a message that was handled.
fn handled_fixed(handled: &Handled) -> Fixed
    ensures { result ≡ handled_fixed handled.now }
{
    match handled {
        Handled::Req(_) => Fixed::ValueSent,
        Handled::Val(_) => Fixed::Received,
        Handled::Ack(_) => Fixed::Finished,
        Handled::Cleared => Fixed::Cleared,
        Handled::Ignored => Fixed::Ignored,
    }
}

/// The response to a reply. An error is lack of memory, which only a response that is made for its reply takes: a sum
/// that is collected, a count of what is archived, a list of purses, messages or lines, a purse that is shown, a payment
/// that is started, what is read of a log, the sums of the scheme.
pub fn render(alloc: Global, reply: &Reply) -> Result<Response, AllocError>
    ensures parts { IfOk result (λ r. parts_of r ≡ reply_parts reply.now) }
    ensures memory { IfErr result (λ _. IsTrue (is_made reply.now)) }
{
    let fixed = match reply {
        Reply::Collected(sum) => return respond(alloc, collected_body(alloc, *sum)?.as_str()),
        Reply::Archived(count) => return respond(alloc, archived_body(alloc, *count)?.as_str()),
        Reply::Purses(names) => return respond(alloc, purses_body(alloc, names)?.as_str()),
        Reply::Shown(purse) => return respond(alloc, shown_body(alloc, purse)?.as_str()),
        Reply::Started(details) => return respond(alloc, started_body(alloc, details)?.as_str()),
        Reply::Read(entry) => return respond(alloc, entry_body(alloc, entry)?.as_str()),
        Reply::Inbox(messages) => return respond(alloc, inbox_body(alloc, messages)?.as_str()),
        Reply::Statement(lines) => return respond(alloc, statement_body(alloc, lines)?.as_str()),
        Reply::Reconciled(sums) => return respond(alloc, reconciled_body(alloc, sums)?.as_str()),
        Reply::Refused(refusal) => Fixed::Refused(*refusal),
        Reply::Added => Fixed::Added,
        Reply::Granted => Fixed::Granted,
        Reply::Loaded => Fixed::Loaded,
        Reply::Sent => Fixed::Sent,
        Reply::Settled => Fixed::Settled,
        Reply::Handled(handled) => handled_fixed(handled),
        Reply::Discarded => Fixed::Discarded,
        Reply::Aborted { logged: true } => Fixed::AbortedLogged,
        Reply::Aborted { logged: false } => Fixed::Aborted,
        Reply::Redeemed => Fixed::Redeemed,
    };
    Ok(Response::Always(fixed))
}
