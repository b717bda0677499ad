//! Calls of values and of the wire, made alone. With every growth granted each answers its usual value, worked out by
//! hand. Run with one growth refused, as a check does for each growth in turn, a test says that a call that meets the
//! refused one answers want of memory, and its usual value when it is made again.
use crate::wire::routes::assert_classes;
use crate::wire::words::words_of;
use mx_command::{Messages, Names, Reply};
use mx_pay::{Log, Name, PayDetails, code_text, read_code, read_details};
use mx_purse::{Message, Purse};
use mx_wire::{Method, Routes, render};
use std::alloc::{AllocError, Global};
use std::process::Abort;
use std::test::Fail;

/// The code text of a log with four entries.
const LOGGED: &str = "p1,q1,60,0,0;p1,q1,1000000000000,1,1;p1,q2,5,1000000000000000,0;q1,p1,5,1,2";

/// The code text of a log, written again where there is no memory at first.
fn code_in_the_end(alloc: Global, log: &Log) -> Result<String, AllocError> {
    match code_text(alloc, log) {
        Ok(text) => Ok(text),
        Err(_) => code_text(alloc, log),
    }
}

#[test]
fn code_text_with_a_growth_refused(rt: HostRuntime) -> Result<(), Fail> {
    let log = read_code(LOGGED).ok_or("no code text")?;
    let text = code_in_the_end(rt.alloc(), &log)?;
    assert_eq!(rt; text.as_str(), LOGGED);
    Ok(())
}

/// Routes, which are made again where there is no memory at first.
fn routes_in_the_end(alloc: Global) -> Result<Routes, AllocError> {
    match Routes::new(alloc) {
        Ok(routes) => Ok(routes),
        Err(_) => Routes::new(alloc),
    }
}

/// Requests, a line each, with the class of each one's route.
const CLASSES: &str = "
operator: POST /members
operator: POST /members/m/grant
operator: POST /settle
operator: GET /reconcile
clerk: POST /purses
clerk: POST /purses/p1/load
holder: GET /purses
holder: POST /purses/p1/start-to
holder: GET /purses/p1/statement/50
none: GET /members
none: POST /purses/p1
";

#[test]
fn routes_with_a_growth_refused(rt: HostRuntime) -> Result<(), Fail> {
    let routes = routes_in_the_end(rt.alloc())?;
    assert_classes(&rt, &routes, CLASSES);
    Ok(())
}

/// Requests with the commands that they say, a line each, `METHOD PATH: BODY -> WORDS`.
const REQUESTS: &str = r#"
POST /members: {"member":"m","token":"00000000000000000000000000000002"} -> new-member m 00000000000000000000000000000002
POST /members/m/grant: {"amount":1000} -> grant m 1000
POST /clear/p1: {"details":"a,p1,5,0,3;p1,q1,60,4,7"} -> clear p1 [a,p1,5,0,3;p1,q1,60,4,7]
POST /purses/p1/load: {"ref":"a1", "amount":100, "more":[{"a":[1,2]},"\u00e9"]} -> load p1 100 a1
POST /purses/p1/start-from: {"peer":"q1","value":60,"seq":3} -> start-from p1 q1 60 3
GET /purses/p1/statement/50 -> statement p1 50
POST /members: {"member":"m"} -> bad body
POST /members: {"member":"m","token": -> bad body
POST /nowhere: {"member":"m"} -> no route
"#;

/// Asserts that a request says a command, read again where there is no memory at first.
fn assert_said_in_the_end(
    rt: &(impl Abort + AllocGlobal),
    routes: &Routes,
    asked: &str,
    words: &str,
) -> Result<(), AllocError> {
    let (request, body) = asked.split_once(": ").unwrap_or((asked, ""));
    let said = match words_of(rt.alloc(), routes, request, body.as_bytes()) {
        Ok(said) => said,
        Err(_) => words_of(rt.alloc(), routes, request, body.as_bytes())?,
    };
    assert_eq!(rt; said.as_str(), words, "{asked}");
    Ok(())
}

#[test]
fn commands_with_a_growth_refused(rt: HostRuntime) -> Result<(), Fail> {
    let routes = routes_in_the_end(rt.alloc())?;
    for line in REQUESTS.lines() {
        if let Some((asked, words)) = line.split_once(" -> ") {
            assert_said_in_the_end(&rt, &routes, asked, words)?;
        }
    }
    Ok(())
}

/// A list of this one, where there is memory for it.
fn list_of<T: Drop>(alloc: Global, item: T) -> Result<Vec<T>, AllocError> {
    let mut list = Vec::new(alloc);
    list.push(item)?;
    Ok(list)
}

fn purses_reply(alloc: Global, name: Name) -> Option<Reply> {
    let names = list_of(alloc, name).ok()?;
    Some(Reply::Purses(Names::new(names)))
}

fn inbox_reply(alloc: Global, payment: PayDetails) -> Option<Reply> {
    let messages = list_of(alloc, (0, Message::Req(payment))).ok()?;
    Some(Reply::Inbox(Messages::new(messages)))
}

/// The bodies of replies that are made for what they say. Those of statements and of sums are made by the tests of the desk.
const BODIES: [&str; 8] = [
    r#"{"collected":"30"}"#,
    r#"{"archived":1}"#,
    r#"{"details":"p1,q1,60,0,0","done":"started"}"#,
    r#"{"done":"read","entry":"p1,q1,60,0,0"}"#,
    r#"{"done":"read","entry":null}"#,
    r#"{"balance":0,"next":0,"purse":"p1","status":"eaFrom"}"#,
    r#"{"purses":["p1"]}"#,
    r#"{"messages":[{"details":"p1,q1,60,0,0","kind":"req","number":0}]}"#,
];

/// The reply with the body at this place. None where there is no memory for its list.
fn reply_at(alloc: Global, place: usize) -> Option<Reply> {
    let name = Name::read("p1")?;
    let payment = read_details("p1,q1,60,0,0")?;
    match place {
        0 => Some(Reply::Collected(30)),
        1 => Some(Reply::Archived(1)),
        2 => Some(Reply::Started(payment)),
        3 => Some(Reply::Read(Some(payment))),
        4 => Some(Reply::Read(None)),
        5 => Some(Reply::Shown(Purse::new(name))),
        6 => purses_reply(alloc, name),
        _ => inbox_reply(alloc, payment),
    }
}

/// The same, made again where there is no memory at first.
fn reply_in_the_end(alloc: Global, place: usize) -> Option<Reply> {
    match reply_at(alloc, place) {
        Some(reply) => Some(reply),
        None => reply_at(alloc, place),
    }
}

/// Whether a reply has a response with this body, rendered again where there is no memory at first.
fn is_rendered(alloc: Global, reply: &Reply, body: &str) -> Result<bool, AllocError> {
    let response = match render(alloc, reply) {
        Ok(response) => response,
        Err(_) => render(alloc, reply)?,
    };
    let bytes = response.text(Method::Get);
    Ok(bytes.starts_with(b"HTTP/1.1 200 OK\r\n") && bytes.ends_with(body.as_bytes()))
}

#[test]
fn responses_with_a_growth_refused(rt: HostRuntime) -> Result<(), Fail> {
    for (place, body) in BODIES.iter().enumerate() {
        let reply = reply_in_the_end(rt.alloc(), place).ok_or("no reply")?;
        assert!(rt; is_rendered(rt.alloc(), &reply, body)?, "{body}");
    }
    Ok(())
}
