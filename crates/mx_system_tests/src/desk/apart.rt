//! What a holder is told, whatever others do.
use super::scripts::{Exchange, Piece, written};
use super::{FUNDED, STANDING, given_up, played, serve_by, tell};
use crate::empty::{Trial, in_memory, operator};
use mx_book::Book;
use mx_memory::new_book;
use mx_office::Office;
use mx_wire::Routes;
use std::alloc::{AllocError, Global};
use std::process::Abort;
use std::test::Fail;

/// A third holder, cy with the purse c1.
const THIRD: &str = r#"
clerk POST /holders {"holder":"cy","token":"0000000000000000000000000000000c"} -> 200 {"done":"added"}
clerk POST /purses {"purse":"c1","holder":"cy"} -> 200 {"done":"added"}
"#;

/// What ann asks first, and is told.
const BEFORE: &str = r#"
ann GET /purses/p1 -> 200 {"balance":100,"next":0,"purse":"p1","status":"eaFrom"}
ann POST /purses/p1/start-from {"peer":"q1","value":60,"seq":0} -> 200 {"details":"p1,q1,60,0,0","done":"started"}
"#;

/// And then.
const AFTER: &str = r#"
ann GET /purses/p1 -> 200 {"balance":100,"next":1,"purse":"p1","status":"epr"}
"#;

/// Ten turns of the others: in each bob asks c1 for a payment and breaks it off, cy handles the first such request, and bob looks
/// at p1.
const TURNS: [Piece<'static>; 2] = [
    (
        0,
        10,
        "bob POST /purses/q1/start-to {\"peer\":\"c1\",\"value\":5,\"seq\":0} -> 200 {\"details\":\"c1,q1,5,0,#n#\",\"done\":\"started\"}\nbob POST /purses/q1/abort -> 200 {\"done\":\"aborted\",\"logged\":true}\ncy POST /purses/c1/handle {\"number\":0} -> 200 {\"done\":\"ignored\"}\nbob GET /purses/p1 -> 404 {\"error\":\"no such purse\"}\n",
    ),
    (0, 1, AFTER),
];

/// A holder is told the same bytes alone and among forty requests of others.
#[test]
fn forty_requests_of_others(rt: HostRuntime) -> Result<(), Fail> {
    let before = [STANDING, FUNDED, THIRD, BEFORE];
    played(&rt, &before, AFTER)?;
    let among = written(rt.alloc(), &TURNS)?;
    played(&rt, &before, among.as_str())
}

/// The same turns, at each of which the book fails when bob looks at p1: at one the caller is looked for in vain, and at the
/// next the purse.
const TURNS_GIVEN_UP: [Piece<'static>; 2] = [
    (
        0,
        5,
        "!\nbob POST /purses/q1/start-to {\"peer\":\"c1\",\"value\":5,\"seq\":0} -> 200 {\"details\":\"c1,q1,5,0,#2n#\",\"done\":\"started\"}\nbob POST /purses/q1/abort -> 200 {\"done\":\"aborted\",\"logged\":true}\ncy POST /purses/c1/handle {\"number\":0} -> 200 {\"done\":\"ignored\"}\n!0\nbob GET /purses/p1 -> 503\n!\nbob POST /purses/q1/start-to {\"peer\":\"c1\",\"value\":5,\"seq\":0} -> 200 {\"details\":\"c1,q1,5,0,#2n+1#\",\"done\":\"started\"}\nbob POST /purses/q1/abort -> 200 {\"done\":\"aborted\",\"logged\":true}\ncy POST /purses/c1/handle {\"number\":0} -> 200 {\"done\":\"ignored\"}\n!1\nbob GET /purses/p1 -> 503\n",
    ),
    (0, 1, AFTER),
];

#[test]
fn forty_requests_of_others_of_which_ten_are_given_up(rt: HostRuntime) -> Result<(), Fail> {
    let among = written(rt.alloc(), &TURNS_GIVEN_UP)?;
    given_up(&rt, &[STANDING, FUNDED, THIRD, BEFORE], among.as_str())
}

/// What ann asks.
const ANN: &str = r#"ann GET /purses/p1
ann POST /purses/p1/start-from {"peer":"q1","value":60,"seq":0}
ann GET /purses/p1
ann POST /purses/p1/start-to {"peer":"nobody","value":5,"seq":3}
ann POST /purses/p1/read-log {"place":0}
ann POST /purses/p1/redeem {"amount":10,"ref":"r1"}
ann POST /purses/p1/redeem {"amount":11,"ref":"r1"}
ann GET /purses/p1/inbox
ann GET /purses/q1
ann GET /purses
ann POST /nowhere
ann POST /collect
ann POST /purses/p1/handle {"number":"0"}
ann POST /purses/p1/handle {"number":0}
ann GET /purses/p1
"#;

/// What others ask, which puts nothing to ann's purse.
const OTHERS: &str = r#"bob GET /purses/p1
bob POST /purses/q1/start-from {"peer":"p1","value":0,"seq":0}
bob POST /purses/q1/abort
bob POST /purses/q1/start-to {"peer":"nobody","value":5,"seq":0}
bob POST /purses/q1/read-log {"place":0}
operator POST /archive/p1
operator POST /archive/q1
operator POST /clear/q1 {"details":"nobody,q1,5,0,1"}
bob POST /purses/q1/handle {"number":0}
operator POST /members/m/grant {"amount":5}
clerk POST /collect
clerk POST /purses/q1/load {"amount":7,"ref":"a1"}
bob POST /purses/q1/redeem {"amount":7,"ref":"r1"}
nobody GET /purses/p1
bob GET /purses
"#;

/// The number after this one: always the same, and never 0.
fn next_number(number: u64) -> u64 {
    number.wrapping_mul(48_271) % 2_147_483_647
}

/// Takes the next line of a text, and its line end; at the end nothing.
fn take_line<'t>(text: &mut &'t str) -> &'t str {
    let (line, rest) = match text.find('\n') {
        Some(end) => text.split_at(end + 1),
        None => (*text, ""),
    };
    *text = rest;
    line
}

/// Ann's requests among those of others, a line each. Whose turn it is goes by numbers that begin with the seed; 100 turns
/// are enough for all of hers.
fn interleaved(alloc: Global, others: &str, seed: u64) -> Result<String, AllocError> {
    let mut requests = String::new(alloc);
    let (mut own, mut other) = (ANN, others);
    let mut number = seed.saturating_add(1);
    for _ in 0..100 {
        number = next_number(number);
        if number % 2 == 0 {
            requests.push_str(take_line(&mut own))?;
        } else {
            requests.push_str(take_line(&mut other))?;
        }
    }
    Ok(requests)
}

/// What ann is told of requests that are served one by one behind the opening scripts.
fn heard_by_ann(
    rt: &(impl Abort + AllocGlobal),
    routes: &Routes,
    office: &mut Office<impl Book>,
    requests: &str,
) -> Result<Vec<u8>, Fail> {
    tell(rt, office, STANDING)?;
    tell(rt, office, FUNDED)?;
    let mut heard = Vec::new(rt.alloc());
    for request in requests.lines() {
        let mut exchange = Exchange::new(rt.alloc());
        exchange.add(request, "")?;
        let told = serve_by(
            rt.alloc(),
            routes,
            office,
            exchange.input.as_str().as_bytes(),
        )?;
        if request.starts_with("ann ") {
            heard.extend_from_slice(told.bytes.as_slice())?;
        }
    }
    Ok(heard)
}

/// Her requests among those of others, in the order of a seed, and what she is told of them alone.
#[derive(Drop)]
struct Among<'a> {
    routes: &'a Routes,
    seed: u64,
    alone: &'a [u8],
}

/// She is told the same.
impl Trial for Among<'_> {
    fn try_in(
        &self,
        rt: &(impl Abort + AllocGlobal),
        office: &mut Office<impl Book>,
    ) -> Result<(), Fail> {
        let requests = interleaved(rt.alloc(), OTHERS, self.seed)?;
        let among = heard_by_ann(rt, self.routes, office, requests.as_str())?;
        assert_eq!(rt; among.as_slice(), self.alone, "{}", self.seed);
        Ok(())
    }
}

/// What she is told alone.
fn heard_alone(
    rt: &(impl Abort + AllocGlobal),
    routes: &Routes,
    book: impl Book + Drop,
) -> Result<Vec<u8>, Fail> {
    let mut office = Office::new(book);
    heard_by_ann(rt, routes, &mut office, ANN)
}

/// Asserts that she is told so in the orders of two hundred seeds.
fn assert_interleaved<'a>(
    rt: &(impl Abort + AllocGlobal),
    routes: &'a Routes,
    alone: &'a [u8],
) -> Result<(), Fail> {
    for seed in 0..200 {
        in_memory(
            rt,
            &Among {
                routes,
                seed,
                alone,
            },
        )?;
    }
    Ok(())
}

/// In whatever order two hundred seeds bring the requests of others between ann's, she is told the same bytes as alone.
#[test]
fn two_hundred_interleavings(rt: HostRuntime) -> Result<(), Fail> {
    let routes = Routes::new(rt.alloc())?;
    let book = new_book(rt.alloc(), operator()?);
    let alone = heard_alone(&rt, &routes, book)?;
    assert_interleaved(&rt, &routes, alone.as_slice())
}
