//! Requests with their bodies, and the commands that they say.
use super::words::{read_words, words_of};
use mx_pay::Name;
use mx_wire::Scratch;
use mx_wire::bodies::read_body;
use mx_wire::routes::{Route, Routes};
use std::alloc::{AllocError, Global};
use std::process::Abort;
use std::test::Fail;

/// Requests, a line each, with the words of the command that each says, `METHOD PATH: BODY -> WORDS`. A line that begins
/// with `#` says what comes behind it.
const REQUESTS: &str = r#"
# Each command.
POST /members: {"member":"m","token":"00000000000000000000000000000002"} -> new-member m 00000000000000000000000000000002
POST /members/m/grant: {"amount":1000} -> grant m 1000
POST /archive/p1 -> archive p1
POST /clear/p1: {"details":""} -> clear p1 []
POST /clear/p1: {"details":"a,p1,5,0,3;p1,q1,60,4,7"} -> clear p1 [a,p1,5,0,3;p1,q1,60,4,7]
POST /settle: {"details":"p1,q1,60,4,7"} -> settle p1,q1,60,4,7
POST /holders: {"holder":"ann","token":"0000000000000000000000000000000A"} -> new-holder ann 0000000000000000000000000000000a
POST /purses: {"purse":"p1","holder":"ann"} -> new-purse p1 ann
POST /purses/p1/load: {"amount":100,"ref":"a1"} -> load p1 100 a1
POST /collect -> collect
GET /purses -> purses
GET /purses/p1 -> show p1
POST /purses/p1/start-from: {"peer":"q1","value":60,"seq":3} -> start-from p1 q1 60 3
POST /purses/q1/start-to: {"seq":3,"value":60,"peer":"p1"} -> start-to q1 p1 60 3
POST /purses/p1/handle: {"number":7} -> handle p1 7
POST /purses/p1/discard: {"number":7} -> discard p1 7
POST /purses/p1/abort -> abort p1
POST /purses/p1/read-log: {"place":16} -> read-log p1 16
POST /purses/p1/redeem: {"amount":100,"ref":"r1"} -> redeem p1 100 r1
GET /purses/p1/inbox -> inbox p1
GET /purses/p1/statement/50 -> statement p1 50
GET /reconcile -> reconcile
HEAD /purses/p1 -> show p1
# The body of a command that takes none isn't looked at, nor that of a request without a route.
GET /purses/p1: { -> show p1
POST /purses/p1/abort: [] -> abort p1
POST /archive/p1: {"x":1e999 -> archive p1
GET /collect -> no route
GET /archive/p1 -> no route
POST /purses/P1/handle: { -> no route
# Other keys and spaces don't count; of a key that stands twice the last value does.
POST /members/m/grant: {"amount":1,"amount":2} -> grant m 2
POST /members/m/grant: {"amount":"1","amount":2} -> grant m 2
POST /members/m/grant: {"amount":1,"amount":"2"} -> bad body
POST /members/m/grant: {"\u0061mount":5} -> grant m 5
POST /clear/p1: {"x":0,"details":"p1,q1,60,4,7","place":null} -> clear p1 [p1,q1,60,4,7]
POST /clear/p1: {"details":"p1\u002cq1,60,4,\u0037"} -> clear p1 [p1,q1,60,4,7]
POST /clear/p1: {"details":"","details":"p1,q1,60,4,7"} -> clear p1 [p1,q1,60,4,7]
POST /settle: {"x":0,"details":"p1\u002cq1,60,4,7"} -> settle p1,q1,60,4,7
POST /settle: {"details":"","details":"p1,q1,60,4,7"} -> settle p1,q1,60,4,7
POST /purses/p1/read-log: {"details":"","place":3} -> read-log p1 3
POST /purses: {"purse":"\u0070","holder":"ann"} -> new-purse p ann
POST /purses: {"holder":"ann","\u0070urse":"p1","purse":"p2"} -> new-purse p2 ann
POST /purses: {"holder":"ann","purse":"p2","p\u0075rse":"p1"} -> new-purse p1 ann
# Each number has its limit.
POST /members/m/grant: {"amount":0} -> grant m 0
POST /members/m/grant: {"amount":1000000000000} -> grant m 1000000000000
POST /members/m/grant: {"amount":1000000000001} -> bad body
POST /purses/p1/handle: {"number":1000000000000000} -> handle p1 1000000000000000
POST /purses/p1/handle: {"number":1000000000000001} -> bad body
POST /purses/p1/start-from: {"peer":"q1","value":1000000000000,"seq":1000000000000000} -> start-from p1 q1 1000000000000 1000000000000000
POST /purses/p1/start-to: {"peer":"q1","value":1000000000001,"seq":0} -> bad body
POST /purses/p1/start-to: {"peer":"q1","value":0,"seq":1000000000000001} -> bad body
POST /purses/p1/read-log: {"place":0} -> read-log p1 0
POST /purses/p1/read-log: {"place":1000000000000001} -> read-log p1 1000000000000001
POST /purses/p1/read-log: {"place":18446744073709551615} -> read-log p1 18446744073709551615
POST /purses/p1/read-log: {"place":18446744073709551616} -> bad body
# Under a key that doesn't count there may be any JSON.
POST /members/m/grant: {"x":[[1],[{"y":[]},-0.5e-3]],"amount":5} -> grant m 5
POST /members/m/grant: {"amount":5,"x":{"amount":6}} -> grant m 5
POST /members/m/grant: {"amount":5,"x":1e308,"y":-1e308,"z":1e-999} -> grant m 5
POST /members/m/grant: {"amount":5,"x":18446744073709551616,"y":-9223372036854775809} -> grant m 5
# A number is one that reads as a u64.
POST /members/m/grant:  -> bad body
POST /members/m/grant: {"amount":-1} -> bad body
POST /members/m/grant: {"amount":1.0} -> bad body
POST /members/m/grant: {"amount":1e3} -> bad body
POST /members/m/grant: {"amount":"5"} -> bad body
POST /members/m/grant: {"amount":null} -> bad body
POST /members/m/grant: {"amount":true} -> bad body
POST /members/m/grant: {"amount":[5]} -> bad body
POST /members/m/grant: {"amount":05} -> bad body
POST /members/m/grant: {"amount":+5} -> bad body
POST /members/m/grant: {"amount":18446744073709551616} -> bad body
# A place is one too, and any.
POST /purses/p1/read-log:  -> bad body
POST /purses/p1/read-log: {} -> bad body
POST /purses/p1/read-log: {"Place":1} -> bad body
POST /purses/p1/read-log: {"place":-1} -> bad body
POST /purses/p1/read-log: {"place":1.5} -> bad body
POST /purses/p1/read-log: {"place":1.0} -> bad body
POST /purses/p1/read-log: {"place":"1"} -> bad body
POST /purses/p1/read-log: {"place":null} -> bad body
POST /purses/p1/read-log: {"place":18446744073709551616} -> bad body
POST /purses/p1/read-log: {"place":1,"place":-1} -> bad body
# The details of a clear are a code text: entries of five fields that rise, with nothing beside them.
POST /clear/p1:  -> bad body
POST /clear/p1: {} -> bad body
POST /clear/p1: {"details":null} -> bad body
POST /clear/p1: {"details":[]} -> bad body
POST /clear/p1: {"details":0} -> bad body
POST /clear/p1: {"details":" "} -> bad body
POST /clear/p1: {"details":";"} -> bad body
POST /clear/p1: {"details":"p1"} -> bad body
POST /clear/p1: {"details":"p1,q1,60,4"} -> bad body
POST /clear/p1: {"details":"p1,q1,60,4,7,8"} -> bad body
POST /clear/p1: {"details":"p1,q1,60,4,7;"} -> bad body
POST /clear/p1: {"details":"p1,q1,60,4,7 "} -> bad body
POST /clear/p1: {"details":"p1,q1,060,4,7"} -> bad body
POST /clear/p1: {"details":"p1,q1,1000000000001,4,7"} -> bad body
POST /clear/p1: {"details":"p1,p1,60,4,7"} -> bad body
POST /clear/p1: {"details":"P1,q1,60,4,7"} -> bad body
POST /clear/p1: {"details":"p1,q1,60,4,7;p1,q1,60,4,7"} -> bad body
POST /clear/p1: {"details":"p1,q1,60,4,7;a,p1,5,0,3"} -> bad body
POST /clear/p1: {"details":["p1,q1,60,4,7"]} -> bad body
POST /clear/p1: {"Details":"p1,q1,60,4,7"} -> bad body
# The details of a settlement are those of one payment: neither of none nor of two.
POST /settle:  -> bad body
POST /settle: {} -> bad body
POST /settle: {"details":null} -> bad body
POST /settle: {"details":""} -> bad body
POST /settle: {"details":";"} -> bad body
POST /settle: {"details":"p1,q1,60,4"} -> bad body
POST /settle: {"details":"p1,q1,60,4,7;"} -> bad body
POST /settle: {"details":";p1,q1,60,4,7"} -> bad body
POST /settle: {"details":"p1,q1,60,4,7 "} -> bad body
POST /settle: {"details":"p1,q1,60,4,07"} -> bad body
POST /settle: {"details":"p1,p1,60,4,7"} -> bad body
POST /settle: {"details":"p1,q1,1000000000001,4,7"} -> bad body
POST /settle: {"details":"a,p1,5,0,3;p1,q1,60,4,7"} -> bad body
POST /settle: {"details":"p1,q1,60,4,7;p1,q1,60,4,7"} -> bad body
POST /settle: {"details":["p1,q1,60,4,7"]} -> bad body
POST /settle: {"Details":"p1,q1,60,4,7"} -> bad body
# A body is one object of JSON, with the key that is asked for.
POST /members/m/grant:  -> bad body
POST /members/m/grant: 5 -> bad body
POST /members/m/grant: null -> bad body
POST /members/m/grant: "amount" -> bad body
POST /members/m/grant: [] -> bad body
POST /members/m/grant: [{"amount":5}] -> bad body
POST /members/m/grant: {} -> bad body
POST /members/m/grant: {"Amount":5} -> bad body
POST /members/m/grant: {"value":5} -> bad body
POST /members/m/grant: {"amount":5 -> bad body
POST /members/m/grant: {"amount":5}} -> bad body
POST /members/m/grant: {"amount":5}{"amount":5} -> bad body
POST /members/m/grant: {"amount":5,} -> bad body
POST /members/m/grant: {amount:5} -> bad body
POST /members/m/grant: {'amount':5} -> bad body
POST /members/m/grant: {"amount":5,"x":"\ud83d"} -> bad body
# But no number that is too large for a float.
POST /members/m/grant:  -> bad body
POST /members/m/grant: {"amount":5,"x":1e999} -> bad body
POST /members/m/grant: {"x":-1e999,"amount":5} -> bad body
POST /members/m/grant: {"x":[0,1e309],"amount":5} -> bad body
POST /members/m/grant: {"amount":5,"x":[{"y":[1e999]}]} -> bad body
POST /members/m/grant: {"amount":1e999,"amount":5} -> bad body
# Names and tokens are texts of their kinds.
POST /purses:  -> bad body
POST /purses: {"purse":"","holder":"ann"} -> bad body
POST /purses: {"purse":"P1","holder":"ann"} -> bad body
POST /purses: {"purse":"1p","holder":"ann"} -> bad body
POST /purses: {"purse":"p 1","holder":"ann"} -> bad body
POST /purses: {"purse":"a23456789-123456789-12345","holder":"ann"} -> bad body
POST /purses: {"purse":1,"holder":"ann"} -> bad body
POST /purses: {"purse":"p1","holder":null} -> bad body
POST /purses: {"purse":"p1"} -> bad body
POST /purses: {"holder":"ann"} -> bad body
POST /holders:  -> bad body
POST /holders: {"holder":"ann","token":"000000000000000000000000000000a"} -> bad body
POST /holders: {"holder":"ann","token":"0000000000000000000000000000000aa"} -> bad body
POST /holders: {"holder":"ann","token":"0000000000000000000000000000000g"} -> bad body
POST /holders: {"holder":"ann","token":10} -> bad body
POST /holders: {"holder":"ann"} -> bad body
POST /holders: {"token":"0000000000000000000000000000000a"} -> bad body
# A command of several values needs them all.
POST /purses/p1/load:  -> bad body
POST /purses/p1/load: {"amount":1} -> bad body
POST /purses/p1/load: {"ref":"a1"} -> bad body
POST /purses/p1/redeem:  -> bad body
POST /purses/p1/redeem: {"amount":1} -> bad body
POST /purses/p1/redeem: {"ref":"a1"} -> bad body
POST /purses/p1/start-from:  -> bad body
POST /purses/p1/start-from: {"value":1,"seq":0} -> bad body
POST /purses/p1/start-from: {"peer":"q1","seq":0} -> bad body
POST /purses/p1/start-from: {"peer":"q1","value":1} -> bad body
POST /purses/p1/start-to:  -> bad body
POST /purses/p1/start-to: {"value":1,"seq":0} -> bad body
POST /purses/p1/start-to: {"peer":"q1","seq":0} -> bad body
POST /purses/p1/start-to: {"peer":"q1","value":1} -> bad body
POST /purses/p1/handle:  -> bad body
POST /purses/p1/handle: {} -> bad body
POST /purses/p1/handle: {"number":"0"} -> bad body
POST /purses/p1/discard:  -> bad body
POST /purses/p1/discard: {} -> bad body
POST /purses/p1/discard: {"number":"0"} -> bad body
"#;

/// The words of the command that a request, a method and a path, with this body says by new routes.
fn said(alloc: Global, request: &str, body: &[u8]) -> Result<String, AllocError> {
    words_of(alloc, &Routes::new(alloc)?, request, body)
}

/// Asserts that what a line asks says the command in words.
fn assert_said(
    rt: &(impl Abort + AllocGlobal),
    asked: &str,
    words: &str,
) -> Result<(), AllocError> {
    let (request, body) = asked.split_once(": ").unwrap_or((asked, ""));
    let text = said(rt.alloc(), request, body.as_bytes())?;
    assert_eq!(rt; text.as_str(), words, "{asked}");
    Ok(())
}

#[test]
fn each_command_from_its_request(rt: HostRuntime) -> Result<(), Fail> {
    for line in REQUESTS.lines() {
        match line.split_once(" -> ") {
            Some((asked, words)) => assert_said(&rt, asked, words)?,
            None => assert!(rt; line.is_empty() || line.starts_with("# "), "{line}"),
        }
    }
    Ok(())
}

/// Requests whose bodies aren't lines of text, with the words of the command that each says.
const BYTES: [(&str, &[u8], &str); 7] = [
    ("POST /collect", b"\xff", "collect"),
    (
        "POST /members/m/grant",
        b" {\r\n\t\"amount\" : 5 , \"Amount\" : null, \"x\" : [{}, \"\\u00e9\"] } ",
        "grant m 5",
    ),
    // A body is UTF-8, without a byte order mark, and isn't blank.
    ("POST /members/m/grant", b" ", "bad body"),
    (
        "POST /members/m/grant",
        b"{\"amount\":5,\"x\":\"\xff\"}",
        "bad body",
    ),
    (
        "POST /members/m/grant",
        b"{\"amount\":5,\"x\":\"\xed\xa0\x80\"}",
        "bad body",
    ),
    ("POST /members/m/grant", b"\xff{\"amount\":5}", "bad body"),
    (
        "POST /members/m/grant",
        b"\xef\xbb\xbf{\"amount\":5}",
        "bad body",
    ),
];

#[test]
fn bodies_of_bytes(rt: HostRuntime) -> Result<(), Fail> {
    for (request, body, words) in &BYTES {
        let text = said(rt.alloc(), request, body)?;
        assert_eq!(rt; text.as_str(), *words, "{request}");
    }
    Ok(())
}

/// A body with so many arrays within each other under a key that doesn't count.
fn nested(alloc: Global, depth: usize) -> Result<String, AllocError> {
    let mut text = String::from_str(alloc, "{\"amount\":5,\"x\":")?;
    for _ in 0..depth {
        text.push('[')?;
    }
    for _ in 0..depth {
        text.push(']')?;
    }
    text.push('}')?;
    Ok(text)
}

/// How many arrays are within each other, with the words. They nest 127 deep at most, of which the body's own object is one.
const DEPTHS: [(usize, &str); 4] = [
    (126, "grant m 5"),
    (127, "bad body"),
    (128, "bad body"),
    (1000, "bad body"),
];

#[test]
fn arrays_within_arrays(rt: HostRuntime) -> Result<(), Fail> {
    for (depth, words) in &DEPTHS {
        let body = nested(rt.alloc(), *depth)?;
        let text = said(rt.alloc(), "POST /members/m/grant", body.as_bytes())?;
        assert_eq!(rt; text.as_str(), *words, "{depth}");
    }
    Ok(())
}

/// Bodies that come one after another, of a new purse or else of a grant to m, with the words of the command of each.
const KEPT: [(bool, &[u8], &str); 6] = [
    (
        true,
        b"{\"\\u0070urse\":\"\\u0070\\u0031\",\"holder\":\"a\\u006en\"}",
        "new-purse p1 ann",
    ),
    (false, b"{\"amount\":1}", "grant m 1"),
    (
        true,
        b"{\"purse\":\"q\",\"holder\":\"\\u0062ob\"}",
        "new-purse q bob",
    ),
    (false, b"{\"amount\":\"\\u0031\"}", "bad body"),
    (false, b"{\"\\u0061\\u006d", "bad body"),
    (
        false,
        b"{\"\\u0061mount\":2,\"x\":\"\\n\\\"\\u00e9\\ud83d\\ude00\"}",
        "grant m 2",
    ),
];

/// The words of the command that one of these bodies says.
fn kept_words(
    alloc: Global,
    scratch: &mut Scratch,
    is_purse: bool,
    body: &[u8],
) -> Result<String, Fail> {
    let route = if is_purse {
        Route::NewPurse
    } else {
        Route::Grant(Name::read("m").ok_or("no name")?)
    };
    let read = read_body(alloc, &route, body, scratch);
    Ok(read_words(alloc, &read)?)
}

/// One scratch serves body after body, of any lengths and with any escapes.
#[test]
fn a_scratch_that_is_kept(rt: HostRuntime) -> Result<(), Fail> {
    let mut scratch = Scratch::new(rt.alloc());
    for (is_purse, body, words) in &KEPT {
        let text = kept_words(rt.alloc(), &mut scratch, *is_purse, body)?;
        assert_eq!(rt; text.as_str(), *words);
    }
    Ok(())
}
