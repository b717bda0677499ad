//! How much an inbox, a log and a holder have room for.
use super::scripts::{Piece, written};
use super::{FUNDED, STANDING, played};
use std::test::Fail;

/// A 33rd message.
const THIRTY_THIRD: &str = r#"
bob POST /purses/q3/start-to {"peer":"p1","value":1,"seq":0} -> 200 {"details":"p1,q3,1,0,0","done":"started"}
bob POST /purses/q1/start-to {"peer":"p1","value":1,"seq":0} -> 409 {"error":"log full"}
"#;

/// Once a message goes, the next one has the number 32.
const NEXT_NUMBER: &str = r#"
ann POST /purses/p1/handle {"number":32} -> 404 {"error":"no such message"}
ann POST /purses/p1/discard {"number":0} -> 200 {"done":"discarded"}
bob POST /purses/q3/start-to {"peer":"p1","value":1,"seq":0} -> 200 {"details":"p1,q3,1,0,1","done":"started"}
ann POST /purses/p1/handle {"number":33} -> 404 {"error":"no such message"}
ann POST /purses/p1/handle {"number":32} -> 200 {"done":"ignored"}
"#;

/// Two purses more for bob.
const TWO_PURSES: &str = r#"
clerk POST /purses {"purse":"q2","holder":"bob"} -> 200 {"done":"added"}
clerk POST /purses {"purse":"q3","holder":"bob"} -> 200 {"done":"added"}
"#;

/// Thirty-two messages to p1, sixteen of q1 and sixteen of q2, a 33rd, the inbox, from which that isn't, and the number that
/// comes next.
const MESSAGES: [Piece<'static>; 8] = [
    (
        0,
        16,
        "bob POST /purses/q1/start-to {\"peer\":\"p1\",\"value\":1,\"seq\":0} -> 200 {\"details\":\"p1,q1,1,0,#n#\",\"done\":\"started\"}\n",
    ),
    (
        0,
        16,
        "bob POST /purses/q2/start-to {\"peer\":\"p1\",\"value\":1,\"seq\":0} -> 200 {\"details\":\"p1,q2,1,0,#n#\",\"done\":\"started\"}\n",
    ),
    (0, 1, THIRTY_THIRD),
    (
        0,
        1,
        "ann GET /purses/p1/inbox -> 200 {\"messages\":[{\"details\":\"p1,q1,1,0,0\",\"kind\":\"req\",\"number\":0}",
    ),
    (
        1,
        16,
        ",{\"details\":\"p1,q1,1,0,#n#\",\"kind\":\"req\",\"number\":#n#}",
    ),
    (
        0,
        16,
        ",{\"details\":\"p1,q2,1,0,#n#\",\"kind\":\"req\",\"number\":#n+16#}",
    ),
    (0, 1, "]}\n"),
    (0, 1, NEXT_NUMBER),
];

/// An inbox holds 32 messages. A 33rd vanishes and takes no number; its sender is told as ever. A log has 16 entries
/// at most, and a purse starts no payment that could need a 17th.
#[test]
fn thirty_third_message(rt: HostRuntime) -> Result<(), Fail> {
    let script = written(rt.alloc(), &MESSAGES)?;
    played(&rt, &[STANDING, FUNDED, TWO_PURSES], script.as_str())
}

/// A payment up to the value, after which the log has no room for another.
const SIXTEENTH: &str = r#"
ann POST /purses/p1/start-from {"peer":"q1","value":60,"seq":0} -> 200 {"details":"p1,q1,60,15,0","done":"started"}
bob POST /purses/q1/start-to {"peer":"p1","value":60,"seq":15} -> 200 {"details":"p1,q1,60,15,0","done":"started"}
ann POST /purses/p1/handle {"number":0} -> 200 {"done":"value-sent"}
ann POST /purses/p1/start-from {"peer":"q1","value":1,"seq":1} -> 409 {"error":"log full"}
ann GET /purses/p1 -> 200 {"balance":40,"next":16,"purse":"p1","status":"epa"}
ann POST /purses/p1/abort -> 200 {"done":"aborted","logged":true}
ann POST /purses/p1/abort -> 200 {"done":"aborted","logged":false}
ann POST /purses/p1/start-from {"peer":"q1","value":1,"seq":1} -> 409 {"error":"log full"}
"#;

/// Fifteen starts of p1, each of which is aborted, and that payment.
const FULL_LOG: [Piece<'static>; 2] = [
    (
        0,
        15,
        "ann POST /purses/p1/start-to {\"peer\":\"nobody\",\"value\":5,\"seq\":0} -> 200 {\"details\":\"nobody,p1,5,0,#n#\",\"done\":\"started\"}\nann POST /purses/p1/abort -> 200 {\"done\":\"aborted\",\"logged\":true}\n",
    ),
    (0, 1, SIXTEENTH),
];

/// Fifteen starts of p1 that are aborted, then a payment up to the value: a start is refused and aborts nothing.
#[test]
fn full_log(rt: HostRuntime) -> Result<(), Fail> {
    let script = written(rt.alloc(), &FULL_LOG)?;
    played(&rt, &[STANDING, FUNDED], script.as_str())
}

/// Sixty-four purses more for ann, of which the last is one too many: with p1 the purses a2 to a64 are 64.
const MANY_PURSES: [Piece<'static>; 2] = [
    (
        2,
        65,
        "clerk POST /purses {\"purse\":\"a#n#\",\"holder\":\"ann\"} -> 200 {\"done\":\"added\"}\n",
    ),
    (
        65,
        66,
        "clerk POST /purses {\"purse\":\"a#n#\",\"holder\":\"ann\"} -> 409 {\"error\":\"too many purses\"}\n",
    ),
];

/// A holder has 64 purses at most.
#[test]
fn sixty_fifth_purse(rt: HostRuntime) -> Result<(), Fail> {
    let script = written(rt.alloc(), &MANY_PURSES)?;
    played(&rt, &[STANDING], script.as_str())
}
