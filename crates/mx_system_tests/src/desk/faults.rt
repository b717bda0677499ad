//! Readers and writers that fail, first requests alone, and books that fail at one call.
use super::answered::{Answered, page_of};
use super::broken::Broken;
use super::scripts::Exchange;
use super::{FIRST_PATH, UNAVAILABLE, given_up};
use crate::empty::{FaultyTrial, Trial, in_both, in_faulty, in_memory};
use crate::faulty::Faulty;
use mx_book::{Book, StoreFault};
use mx_desk::desk::{Served, serve_one};
use mx_desk::{Counted, DeskFault};
use mx_office::Office;
use mx_wire::Routes;
use std::alloc::Global;
use std::io::Read;
use std::process::Abort;
use std::test::Fail;

/// A member, a holder and a purse, which is then shown.
const FOUR_REQUESTS: &str =
    "POST /members HTTP/1.1\r\npurse-token: 00000000000000000000000000000001\r\ncontent-length: 57\r\n\r\n{\"member\":\"m\",\"token\":\"00000000000000000000000000000002\"}POST /holders HTTP/1.1\r\npurse-token: 00000000000000000000000000000002\r\ncontent-length: 59\r\n\r\n{\"holder\":\"ann\",\"token\":\"0000000000000000000000000000000a\"}POST /purses HTTP/1.1\r\npurse-token: 00000000000000000000000000000002\r\ncontent-length: 29\r\n\r\n{\"purse\":\"p1\",\"holder\":\"ann\"}GET /purses/p1 HTTP/1.1\r\npurse-token: 0000000000000000000000000000000a\r\n\r\n";

/// Their responses.
const FOUR_RESPONSES: &str =
    "HTTP/1.1 200 OK\r\ncontent-type: application/json\r\ncontent-length: 16\r\nconnection: close\r\n\r\n{\"done\":\"added\"}HTTP/1.1 200 OK\r\ncontent-type: application/json\r\ncontent-length: 16\r\nconnection: close\r\n\r\n{\"done\":\"added\"}HTTP/1.1 200 OK\r\ncontent-type: application/json\r\ncontent-length: 16\r\nconnection: close\r\n\r\n{\"done\":\"added\"}HTTP/1.1 200 OK\r\ncontent-type: application/json\r\ncontent-length: 53\r\nconnection: close\r\n\r\n{\"balance\":0,\"next\":0,\"purse\":\"p1\",\"status\":\"eaFrom\"}";

/// Four requests, byte for byte.
#[test]
fn four_requests_from_bytes_to_bytes(rt: HostRuntime) -> Result<(), Fail> {
    let exchange = Exchange::of_bytes(rt.alloc(), FOUR_REQUESTS, FOUR_RESPONSES, 4)?;
    in_both(&rt, &exchange)
}

/// A writer that takes 10 bytes and then fails ends the run. The first request stands, and no other: the rest is answered as
/// usual when it is sent again.
#[test]
fn write_that_fails_ends_the_run(rt: HostRuntime) -> Result<(), Fail> {
    let rest = FOUR_REQUESTS.strip_prefix(NEW_MEMBER).ok_or("no rest")?;
    let responses = FOUR_RESPONSES
        .strip_prefix(ADDED_BYTES)
        .ok_or("no responses")?;
    let broken = Broken {
        fault: DeskFault::Write,
        input: FOUR_REQUESTS.as_bytes(),
        size: 4096,
        reads: None,
        room: 10,
        takes_none: false,
        output: b"HTTP/1.1 2",
        rest: rest.as_bytes(),
        responses: responses.as_bytes(),
    };
    in_both(&rt, &broken)
}

/// A reader that fails inside the first request, behind 40 bytes: nothing is written, and nothing is there, since all four are
/// answered as usual when they are sent again. So it is of bytes that come one at a time, and of all at once.
#[test]
fn read_that_fails_ends_the_run(rt: HostRuntime) -> Result<(), Fail> {
    let bytes = FOUR_REQUESTS.as_bytes().get(..40).ok_or("no bytes")?;
    for (size, reads) in [(1, 41), (40, 2)] {
        let broken = Broken {
            fault: DeskFault::Read,
            input: bytes,
            size,
            reads: Some(reads),
            room: 4096,
            takes_none: false,
            output: b"",
            rest: FOUR_REQUESTS.as_bytes(),
            responses: FOUR_RESPONSES.as_bytes(),
        };
        in_both(&rt, &broken)?;
    }
    Ok(())
}

/// What `serve_one` makes of what a reader gives, and what it writes.
fn serve_first(
    alloc: Global,
    office: &mut Office<impl Book>,
    reader: impl Read + Drop,
) -> Result<(Served, Vec<u8>), Fail> {
    let routes = Routes::new(alloc)?;
    let mut reader = Counted::new(reader);
    let mut writer = Counted::new(Vec::new(alloc));
    let served = serve_one(alloc, &mut reader, &mut writer, &routes, office)?;
    Ok((served, writer.into_inner()))
}

/// Asserts that it makes this of some bytes, and writes that.
fn assert_served_first(
    rt: &(impl Abort + AllocGlobal),
    office: &mut Office<impl Book>,
    (bytes, end, output): (&str, Served, &str),
) -> Result<(), Fail> {
    let (served, answer) = serve_first(rt.alloc(), office, bytes.as_bytes())?;
    assert_eq!(rt; served, end, "{bytes}");
    assert_eq!(rt; answer.as_slice(), output.as_bytes(), "{bytes}");
    Ok(())
}

/// Bytes, what `serve_one` makes of them, and what it writes.
#[derive(Drop)]
struct FirstAlone<'a>(&'a [(&'a str, Served, &'a str)]);

impl Trial for FirstAlone<'_> {
    fn try_in(
        &self,
        rt: &(impl Abort + AllocGlobal),
        office: &mut Office<impl Book>,
    ) -> Result<(), Fail> {
        for served in self.0 {
            assert_served_first(rt, office, *served)?;
        }
        Ok(())
    }
}

/// One request is answered, whatever follows it: of four the member is there then, and the holder isn't, so that the next one
/// adds it.
#[test]
fn first_request_alone(rt: HostRuntime) -> Result<(), Fail> {
    let rest = FOUR_REQUESTS.strip_prefix(NEW_MEMBER).ok_or("no rest")?;
    let served = [
        ("", Served::Nothing, ""),
        (FOUR_REQUESTS, Served::Answered(1), ADDED_BYTES),
        ("GET /purses", Served::Stopped, BAD_HEAD_BYTES),
        (NEW_MEMBER, Served::Answered(1), TAKEN_BYTES),
        (rest, Served::Answered(1), ADDED_BYTES),
    ];
    in_memory(&rt, &FirstAlone(&served))
}

pub(super) const BAD_HEAD_BYTES: &str =
    "HTTP/1.1 400 Bad Request\r\ncontent-type: application/json\r\ncontent-length: 20\r\nconnection: close\r\n\r\n{\"error\":\"bad head\"}";

const NEW_MEMBER: &str =
    "POST /members HTTP/1.1\r\npurse-token: 00000000000000000000000000000001\r\ncontent-length: 57\r\n\r\n{\"member\":\"m\",\"token\":\"00000000000000000000000000000002\"}";

const ADDED_BYTES: &str =
    "HTTP/1.1 200 OK\r\ncontent-type: application/json\r\ncontent-length: 16\r\nconnection: close\r\n\r\n{\"done\":\"added\"}";

const TAKEN_BYTES: &str =
    "HTTP/1.1 409 Conflict\r\ncontent-type: application/json\r\ncontent-length: 22\r\nconnection: close\r\n\r\n{\"error\":\"name taken\"}";

/// Asserts what is written for a new member, and how often the writer learns that the store failed.
fn assert_learns(
    rt: &(impl Abort + AllocGlobal),
    routes: &Routes,
    office: &mut Office<impl Book>,
    output: &str,
    failures: u32,
) -> Result<(), Fail> {
    let Some(page) = page_of(rt.alloc(), NEW_MEMBER, routes, office) else {
        return Err("no run")?;
    };
    assert_eq!(rt; page.bytes(), output.as_bytes());
    assert_eq!(rt; page.store_failures(), failures);
    Ok(())
}

/// A writer learns of a request that the store fails, and of nothing where there is no memory or it is answered.
#[derive(Drop)]
struct Learns;

impl FaultyTrial for Learns {
    fn try_in(
        &self,
        rt: &(impl Abort + AllocGlobal),
        office: &mut Office<Faulty<impl Book>>,
    ) -> Result<(), Fail> {
        let routes = Routes::new(rt.alloc())?;
        office.book.left = Some(0);
        assert_learns(rt, &routes, office, UNAVAILABLE, 1)?;
        office.book.left = Some(0);
        office.book.fault = StoreFault::Memory;
        assert_learns(rt, &routes, office, UNAVAILABLE, 0)?;
        assert_learns(rt, &routes, office, ADDED_BYTES, 0)
    }
}

#[test]
fn writer_learns_of_a_store_that_fails(rt: HostRuntime) -> Result<(), Fail> {
    in_faulty(&rt, &Learns)
}

#[test]
fn refused_growth_is_unavailable_once(rt: HostRuntime) -> Result<(), Fail> {
    in_memory(&rt, &Answered(&[FIRST_PATH]))
}

/// A member and a holder.
const ADDED: &str = r#"
operator POST /members {"member":"m","token":"00000000000000000000000000000002"} -> 200 {"done":"added"}
clerk POST /holders {"holder":"ann","token":"0000000000000000000000000000000a"} -> 200 {"done":"added"}
"#;

/// Each request takes a call for who asks. A new purse takes 3 more, a show 1. Of a new purse's calls the last is apply.
const FAULTS: &str = r#"@ The first call behind that for who asks.
!1
clerk POST /purses {"purse":"p1","holder":"ann"} -> 503
ann GET /purses/p1 -> 404 {"error":"no such purse"}
@ The edits.
!3
clerk POST /purses {"purse":"p1","holder":"ann"} -> 503
ann GET /purses/p1 -> 404 {"error":"no such purse"}
@ A show.
clerk POST /purses {"purse":"p1","holder":"ann"} -> 200 {"done":"added"}
!1
ann GET /purses/p1 -> 503
ann GET /purses/p1 -> 200 {"balance":0,"next":0,"purse":"p1","status":"eaFrom"}
@ A new member takes four calls, a new holder five, a new purse four and a show two, and no more.
!4
operator POST /members {"member":"n","token":"00000000000000000000000000000003"} -> 200 {"done":"added"}
clerk POST /purses {"purse":"p1","holder":"ann"} -> 503
!5
clerk POST /holders {"holder":"bob","token":"0000000000000000000000000000000b"} -> 200 {"done":"added"}
clerk POST /purses {"purse":"p1","holder":"ann"} -> 503
!4
clerk POST /purses {"purse":"p1","holder":"ann"} -> 200 {"done":"added"}
ann GET /purses/p1 -> 503
!2
ann GET /purses/p1 -> 200 {"balance":0,"next":0,"purse":"p1","status":"eaFrom"}
ann GET /purses/p1 -> 503
"#;

/// A call of the book that fails leaves its request undone, and no other.
#[test]
fn fault_in_one_request(rt: HostRuntime) -> Result<(), Fail> {
    given_up(&rt, &[ADDED], FAULTS)
}

/// A grant to the only member takes 5 calls of the book, a load 5, a redemption 4 and a collect 4. Of each request's calls the
/// last is apply, and it is the one that fails.
const FAULTS_OF_MONEY: &str = r#"@ The grant.
!4
operator POST /members/m/grant {"amount":100} -> 503
clerk POST /purses/p1/load {"amount":100,"ref":"a1"} -> 409 {"error":"float too small"}
@ The load.
operator POST /members/m/grant {"amount":100} -> 200 {"done":"granted"}
!4
clerk POST /purses/p1/load {"amount":100,"ref":"a1"} -> 503
ann POST /purses/p1/redeem {"amount":60,"ref":"r1"} -> 409 {"error":"not enough"}
@ The redemption.
operator POST /members/m/grant {"amount":100} -> 200 {"done":"granted"}
clerk POST /purses/p1/load {"amount":100,"ref":"a1"} -> 200 {"done":"loaded"}
!3
ann POST /purses/p1/redeem {"amount":60,"ref":"r1"} -> 503
clerk POST /collect -> 200 {"collected":"0"}
ann GET /purses/p1 -> 200 {"balance":100,"next":0,"purse":"p1","status":"eaFrom"}
@ The collect.
operator POST /members/m/grant {"amount":100} -> 200 {"done":"granted"}
clerk POST /purses/p1/load {"amount":100,"ref":"a1"} -> 200 {"done":"loaded"}
ann POST /purses/p1/redeem {"amount":60,"ref":"r1"} -> 200 {"done":"redeemed"}
!3
clerk POST /collect -> 503
clerk POST /collect -> 200 {"collected":"60"}
@ Each takes so many calls, and no more.
!5
operator POST /members/m/grant {"amount":100} -> 200 {"done":"granted"}
clerk POST /purses/p1/load {"amount":100,"ref":"a1"} -> 503
!5
clerk POST /purses/p1/load {"amount":100,"ref":"a1"} -> 200 {"done":"loaded"}
ann POST /purses/p1/redeem {"amount":60,"ref":"r1"} -> 503
!4
ann POST /purses/p1/redeem {"amount":60,"ref":"r1"} -> 200 {"done":"redeemed"}
clerk POST /collect -> 503
!4
clerk POST /collect -> 200 {"collected":"60"}
operator GET /reconcile -> 503
"#;

/// A purse.
const PURSE: &str = r#"
clerk POST /purses {"purse":"p1","holder":"ann"} -> 200 {"done":"added"}
"#;

/// The same of requests that move money.
#[test]
fn fault_in_one_request_of_money(rt: HostRuntime) -> Result<(), Fail> {
    given_up(&rt, &[ADDED, PURSE], FAULTS_OF_MONEY)
}

/// A grant of 100, which are loaded.
const LOADED: &str = r#"
operator POST /members/m/grant {"amount":100} -> 200 {"done":"granted"}
clerk POST /purses/p1/load {"amount":100,"ref":"a1"} -> 200 {"done":"loaded"}
"#;

/// A reconciliation takes 2 calls of the book, of which the second fails, and a statement 3, of which the second and the third
/// do.
const FAULTS_OF_WHAT_TELLS: &str = r#"@ The reconciliation.
!1
operator GET /reconcile -> 503
ann GET /purses/p1/statement/1 -> 200 {"lines":[]}
@ The second call of the statement.
operator GET /reconcile -> 200 {"balances":"100","float":"0","granted":"100","issued":"100","lost":"0","redeemed":"0","transit":"0","uncollected":"0"}
!1
ann GET /purses/p1/statement/1 -> 503
ann GET /purses/p1/statement/1 -> 200 {"lines":[]}
@ The third.
operator GET /reconcile -> 200 {"balances":"100","float":"0","granted":"100","issued":"100","lost":"0","redeemed":"0","transit":"0","uncollected":"0"}
!2
ann GET /purses/p1/statement/1 -> 503
ann GET /purses/p1/statement/1 -> 200 {"lines":[]}
@ Each takes so many calls, and no more.
!2
operator GET /reconcile -> 200 {"balances":"100","float":"0","granted":"100","issued":"100","lost":"0","redeemed":"0","transit":"0","uncollected":"0"}
ann GET /purses/p1/statement/1 -> 503
!3
ann GET /purses/p1/statement/1 -> 200 {"lines":[]}
operator GET /reconcile -> 503
"#;

/// The same of requests that only tell something.
#[test]
fn fault_in_one_request_that_tells(rt: HostRuntime) -> Result<(), Fail> {
    given_up(&rt, &[ADDED, PURSE, LOADED], FAULTS_OF_WHAT_TELLS)
}
