//! Heads, lengths and bodies, and what ends a run.
use super::broken::Told;
use super::scripts::{Exchange, Piece, unfolded, written};
use super::{STANDING, played};
use crate::empty::{in_both, in_memory};
use std::process::Abort;
use std::test::Fail;

/// Serves bytes where the standing members, holders and purses are, and asserts that they get one response.
fn tell_bytes(rt: &(impl Abort + AllocGlobal), bytes: &str, response: &str) -> Result<(), Fail> {
    let mut exchange = Exchange::of_runs(rt.alloc(), &[STANDING])?;
    exchange.add_bytes(bytes, response)?;
    in_both(rt, &exchange)
}

/// The member and a holder.
const TWO_REQUESTS: &str = r#"
operator POST /members {"member":"m","token":"00000000000000000000000000000002"} -> 200 {"done":"added"}
clerk POST /holders {"holder":"ann","token":"0000000000000000000000000000000a"} -> 200 {"done":"added"}
"#;

/// What ann is told after it, and a purse for her.
const AFTER_A_CUT_HEAD: &str = r#"
ann GET /purses -> 200 {"purses":[]}
clerk POST /purses {"purse":"p1","holder":"ann"} -> 200 {"done":"added"}
"#;

/// What was answered before the input ends inside a head stands. There are three responses.
#[test]
fn head_cut_short(rt: HostRuntime) -> Result<(), Fail> {
    let mut exchange = Exchange::of_one_run(rt.alloc(), &[TWO_REQUESTS])?;
    exchange.add_bytes("POST /purs", "400 {\"error\":\"bad head\"}")?;
    exchange.end_run()?;
    exchange.add_script(AFTER_A_CUT_HEAD)?;
    in_both(&rt, &exchange)
}

/// A body of 4,096 bytes, which is an array.
const LARGE_ARRAY: [Piece<'static>; 3] = [
    (
        0,
        1,
        "POST /members HTTP/1.1|purse-token: 00000000000000000000000000000001|content-length: 4096||[",
    ),
    (0, 4094, " "),
    (0, 1, "] -> 400 {\"error\":\"bad body\"}"),
];

/// A body has 4,096 bytes at most, and is an object.
#[test]
fn body_that_is_a_large_array(rt: HostRuntime) -> Result<(), Fail> {
    let script = written(rt.alloc(), &LARGE_ARRAY)?;
    framed(&rt, script.as_str())
}

/// Serves what comes to offices of its own each: a line, `BYTES -> RESPONSE`, in which `|` stands for the end of a line.
fn framed(rt: &(impl Abort + AllocGlobal), script: &str) -> Result<(), Fail> {
    for line in script.lines() {
        if let Some((bytes, response)) = line.split_once(" -> ") {
            let bytes = unfolded(rt.alloc(), bytes, "\r\n")?;
            tell_bytes(rt, bytes.as_str(), response)?;
        }
    }
    Ok(())
}

const FRAMES: &str = r#"
# A body that is cut short, and one that is too large.
POST /members HTTP/1.1|content-length: 57||{"member": -> 400 {"error":"body cut"}
POST /members HTTP/1.1|purse-token: 00000000000000000000000000000001|content-length: 4097|| -> 413 {"error":"body too large"}
# A transfer coding is said before anything of the lengths.
POST /members HTTP/1.1|Transfer-Encoding: chunked|content-length: x|| -> 501 {"error":"transfer coding"}
HEAD /members HTTP/1.1|transfer-encoding: chunked|| -> 501 {"error":"transfer coding"}
POST /members HTTP/1.1|content-length: 57|Content-Length: 57|| -> 400 {"error":"bad content length"}
POST /members HTTP/1.1|content-length: +1|| -> 400 {"error":"bad content length"}
POST /members HTTP/1.1|content-length: 1,1|| -> 400 {"error":"bad content length"}
POST /members HTTP/1.1|content-length:|| -> 400 {"error":"bad content length"}
POST /members HTTP/1.1|content-length: 1111111111111111111111111111111111111111|| -> 413 {"error":"body too large"}
# A token that stands twice, or that isn't one, is a token not known.
GET /purses HTTP/1.1|purse-token: 0000000000000000000000000000000a|purse-token: 0000000000000000000000000000000a|| -> 403 {"error":"token not known"}
GET /purses HTTP/1.1|purse-token: 000000000000000000000000000000a|| -> 403 {"error":"token not known"}
GET /purses HTTP/1.1|purse-token: 0000000000000000000000000000000c|| -> 403 {"error":"token not known"}
GET /purses HTTP/1.1|purse-token:|| -> 403 {"error":"token not known"}
# Bytes that begin no head end the run.
GET|| -> 400 {"error":"bad head"}
GET /purses HTTP/2.0|| -> 400 {"error":"bad head"}
GET /purses HTTP/1.1|purse token: 1|| -> 400 {"error":"bad head"}
"#;

/// Spaces and tabs round a value don't count, nor the case of a field's name or of a token, nor zeros before a length. A
/// carriage return begins no head.
const OTHER_FORMS: &str = "
POST /purses HTTP/1.0|PURSE-TOKEN: \t 00000000000000000000000000000002 \t|content-length:  0029 ||{\"purse\":\"p2\",\"holder\":\"ann\"} -> 200 {\"done\":\"added\"}
GET /purses HTTP/1.1|purse-token: 0000000000000000000000000000000A|| -> 200 {\"purses\":[\"p1\"]}
\r -> 400 {\"error\":\"bad head\"}
";

#[test]
fn frames(rt: HostRuntime) -> Result<(), Fail> {
    framed(&rt, FRAMES)?;
    framed(&rt, OTHER_FORMS)
}

/// Requests of ann's purses. The first head has 8,192 bytes, of which 76 aren't the letters a, and the next one a byte more;
/// then come one with 64 fields, of which one is the token, and one with a field more.
const LARGEST_HEADS: [Piece<'static>; 12] = [
    (
        0,
        1,
        "GET /purses HTTP/1.1|purse-token: 0000000000000000000000000000000a|x: ",
    ),
    (0, 8116, "a"),
    (0, 1, "|| -> 200 {\"purses\":[\"p1\"]}\n"),
    (
        0,
        1,
        "GET /purses HTTP/1.1|purse-token: 0000000000000000000000000000000a|x: ",
    ),
    (0, 8117, "a"),
    (0, 1, "|| -> 400 {\"error\":\"bad head\"}\n"),
    (
        0,
        1,
        "GET /purses HTTP/1.1|purse-token: 0000000000000000000000000000000a|",
    ),
    (0, 63, "x: 1|"),
    (0, 1, "| -> 200 {\"purses\":[\"p1\"]}\n"),
    (
        0,
        1,
        "GET /purses HTTP/1.1|purse-token: 0000000000000000000000000000000a|",
    ),
    (0, 64, "x: 1|"),
    (0, 1, "| -> 400 {\"error\":\"bad head\"}\n"),
];

/// A head has 8,192 bytes and 64 fields at most.
#[test]
fn largest_heads(rt: HostRuntime) -> Result<(), Fail> {
    let script = written(rt.alloc(), &LARGEST_HEADS)?;
    framed(&rt, script.as_str())
}

/// Grants whose bodies have a key more, with 126, 127 and 1,000 arrays within each other.
const NESTED: [Piece<'static>; 10] = [
    (0, 1, "operator POST /members/m/grant {\"amount\":5,\"x\":"),
    (0, 126, "["),
    (0, 126, "]"),
    (
        0,
        1,
        "} -> 200 {\"done\":\"granted\"}\noperator POST /members/m/grant {\"amount\":5,\"x\":",
    ),
    (0, 127, "["),
    (0, 127, "]"),
    (
        0,
        1,
        "} -> 400 {\"error\":\"bad body\"}\noperator POST /members/m/grant {\"amount\":5,\"x\":",
    ),
    (0, 1000, "["),
    (0, 1000, "]"),
    (0, 1, "} -> 400 {\"error\":\"bad body\"}\n"),
];

/// Objects and arrays nest 127 deep at most.
#[test]
fn arrays_within_each_other(rt: HostRuntime) -> Result<(), Fail> {
    let script = written(rt.alloc(), &NESTED)?;
    played(&rt, &[STANDING], script.as_str())
}

/// A grant whose body isn't UTF-8.
const NOT_UTF_8: &[u8] =
    b"POST /members/m/grant HTTP/1.1\r\npurse-token: 00000000000000000000000000000001\r\ncontent-length: 14\r\n\r\n{\"amount\":5,\xff\"";

const BAD_BODY_BYTES: &str =
    "HTTP/1.1 400 Bad Request\r\ncontent-type: application/json\r\ncontent-length: 20\r\nconnection: close\r\n\r\n{\"error\":\"bad body\"}";

#[test]
fn body_that_is_not_utf_8(rt: HostRuntime) -> Result<(), Fail> {
    let told = Told {
        input: NOT_UTF_8,
        output: b"",
        end: BAD_BODY_BYTES,
    };
    in_memory(&rt, &told)
}
