//! Statements, and what the books come to, after payments of p1, which holds 100, to q1.
use super::answered::Answered;
use super::scripts::{Piece, written};
use super::{FUNDED, STANDING, played};
use crate::empty::in_both;
use std::test::Fail;

/// While 60 have left p1 and may still reach q1 they are in transit; once they will not, they are lost.
const SUMS: &str = r#"@ Statements after a payment.
ann POST /purses/p1/start-from {"peer":"q1","value":60,"seq":0} -> 200 {"details":"p1,q1,60,0,0","done":"started"}
bob POST /purses/q1/start-to {"peer":"p1","value":60,"seq":0} -> 200 {"details":"p1,q1,60,0,0","done":"started"}
ann POST /purses/p1/handle {"number":0} -> 200 {"done":"value-sent"}
bob POST /purses/q1/handle {"number":0} -> 200 {"done":"received"}
ann POST /purses/p1/handle {"number":1} -> 200 {"done":"finished"}
ann GET /purses/p1/statement/0 -> 200 {"lines":[{"amount":100,"balance":100,"kind":"loaded","note":"a1","number":1},{"amount":60,"balance":40,"kind":"sent","note":"p1,q1,60,0,0","number":2}]}
ann GET /purses/p1/statement/1 -> 200 {"lines":[{"amount":60,"balance":40,"kind":"sent","note":"p1,q1,60,0,0","number":2}]}
ann GET /purses/p1/statement/2 -> 200 {"lines":[]}
bob GET /purses/q1/statement/0 -> 200 {"lines":[{"amount":60,"balance":60,"kind":"received","note":"p1,q1,60,0,0","number":1}]}
bob GET /purses/p1/statement/0 -> 404 {"error":"no such purse"}
clerk GET /purses/p1/statement/0 -> 403 {"error":"not for this caller"}
@ The sums of each step of a payment.
operator GET /reconcile -> 200 {"balances":"100","float":"900","granted":"1000","issued":"100","lost":"0","redeemed":"0","transit":"0","uncollected":"0"}
ann POST /purses/p1/start-from {"peer":"q1","value":60,"seq":0} -> 200 {"details":"p1,q1,60,0,0","done":"started"}
bob POST /purses/q1/start-to {"peer":"p1","value":60,"seq":0} -> 200 {"details":"p1,q1,60,0,0","done":"started"}
operator GET /reconcile -> 200 {"balances":"100","float":"900","granted":"1000","issued":"100","lost":"0","redeemed":"0","transit":"0","uncollected":"0"}
ann POST /purses/p1/handle {"number":0} -> 200 {"done":"value-sent"}
operator GET /reconcile -> 200 {"balances":"40","float":"900","granted":"1000","issued":"100","lost":"0","redeemed":"0","transit":"60","uncollected":"0"}
bob POST /purses/q1/handle {"number":0} -> 200 {"done":"received"}
operator GET /reconcile -> 200 {"balances":"100","float":"900","granted":"1000","issued":"100","lost":"0","redeemed":"0","transit":"0","uncollected":"0"}
ann POST /purses/p1/handle {"number":1} -> 200 {"done":"finished"}
operator GET /reconcile -> 200 {"balances":"100","float":"900","granted":"1000","issued":"100","lost":"0","redeemed":"0","transit":"0","uncollected":"0"}
clerk GET /reconcile -> 403 {"error":"not for this caller"}
@ The payee aborts before the value comes: it is lost.
ann POST /purses/p1/start-from {"peer":"q1","value":60,"seq":0} -> 200 {"details":"p1,q1,60,0,0","done":"started"}
bob POST /purses/q1/start-to {"peer":"p1","value":60,"seq":0} -> 200 {"details":"p1,q1,60,0,0","done":"started"}
ann POST /purses/p1/handle {"number":0} -> 200 {"done":"value-sent"}
bob POST /purses/q1/abort -> 200 {"done":"aborted","logged":true}
operator GET /reconcile -> 200 {"balances":"40","float":"900","granted":"1000","issued":"100","lost":"60","redeemed":"0","transit":"0","uncollected":"0"}
@ The payer aborts before the acknowledgement comes: it logs the payment, and nothing is lost.
ann POST /purses/p1/start-from {"peer":"q1","value":60,"seq":0} -> 200 {"details":"p1,q1,60,0,0","done":"started"}
bob POST /purses/q1/start-to {"peer":"p1","value":60,"seq":0} -> 200 {"details":"p1,q1,60,0,0","done":"started"}
ann POST /purses/p1/handle {"number":0} -> 200 {"done":"value-sent"}
bob POST /purses/q1/handle {"number":0} -> 200 {"done":"received"}
ann POST /purses/p1/discard {"number":1} -> 200 {"done":"discarded"}
ann POST /purses/p1/abort -> 200 {"done":"aborted","logged":true}
operator GET /reconcile -> 200 {"balances":"100","float":"900","granted":"1000","issued":"100","lost":"0","redeemed":"0","transit":"0","uncollected":"0"}
@ The payee aborts before the payer pays: the value is lost, and it stays lost when the payer's log is read, archived and
# cleared.
bob POST /purses/q1/start-to {"peer":"p1","value":60,"seq":0} -> 200 {"details":"p1,q1,60,0,0","done":"started"}
bob POST /purses/q1/abort -> 200 {"done":"aborted","logged":true}
ann POST /purses/p1/start-from {"peer":"q1","value":60,"seq":0} -> 200 {"details":"p1,q1,60,0,0","done":"started"}
ann POST /purses/p1/handle {"number":0} -> 200 {"done":"value-sent"}
bob POST /purses/q1/handle {"number":0} -> 200 {"done":"ignored"}
operator GET /reconcile -> 200 {"balances":"40","float":"900","granted":"1000","issued":"100","lost":"60","redeemed":"0","transit":"0","uncollected":"0"}
ann POST /purses/p1/read-log {"place":0} -> 200 {"done":"read","entry":"p1,q1,60,0,0"}
operator POST /archive/p1 -> 200 {"archived":1}
operator GET /reconcile -> 200 {"balances":"40","float":"900","granted":"1000","issued":"100","lost":"60","redeemed":"0","transit":"0","uncollected":"0"}
operator POST /clear/p1 {"details":"p1,q1,60,0,0"} -> 200 {"done":"sent"}
ann POST /purses/p1/handle {"number":1} -> 200 {"done":"cleared"}
operator GET /reconcile -> 200 {"balances":"40","float":"900","granted":"1000","issued":"100","lost":"60","redeemed":"0","transit":"0","uncollected":"0"}
"#;

#[test]
fn statements_and_sums(rt: HostRuntime) -> Result<(), Fail> {
    played(&rt, &[STANDING, FUNDED], SUMS)
}

/// Sixty loads of 1 to p1, and the pages of its statement: the first ends with line 50, at a balance of 149, the second with
/// line 61, at 160, and a third has no line. Then the sums.
const LOADS_AND_PAGES: [Piece<'static>; 7] = [
    (
        1,
        61,
        "clerk POST /purses/p1/load {\"amount\":1,\"ref\":\"b#n#\"} -> 200 {\"done\":\"loaded\"}\n",
    ),
    (
        0,
        1,
        "ann GET /purses/p1/statement/0 -> 200 {\"lines\":[{\"amount\":100,\"balance\":100,\"kind\":\"loaded\",\"note\":\"a1\",\"number\":1}",
    ),
    (
        1,
        50,
        ",{\"amount\":1,\"balance\":#n+100#,\"kind\":\"loaded\",\"note\":\"b#n#\",\"number\":#n+1#}",
    ),
    (
        0,
        1,
        "]}\nann GET /purses/p1/statement/50 -> 200 {\"lines\":[{\"amount\":1,\"balance\":150,\"kind\":\"loaded\",\"note\":\"b50\",\"number\":51}",
    ),
    (
        51,
        61,
        ",{\"amount\":1,\"balance\":#n+100#,\"kind\":\"loaded\",\"note\":\"b#n#\",\"number\":#n+1#}",
    ),
    (0, 1, "]}"),
    (0, 1, AFTER_SIXTY_LOADS),
];

const AFTER_SIXTY_LOADS: &str = r#"
ann GET /purses/p1/statement/61 -> 200 {"lines":[]}
operator GET /reconcile -> 200 {"balances":"160","float":"840","granted":"1000","issued":"160","lost":"0","redeemed":"0","transit":"0","uncollected":"0"}
"#;

#[test]
fn statement_in_two_pages(rt: HostRuntime) -> Result<(), Fail> {
    let script = written(rt.alloc(), &LOADS_AND_PAGES)?;
    played(&rt, &[STANDING, FUNDED], script.as_str())
}

/// Run with one growth refused, it says that a request changes nothing where it is given up, and is answered as usual when
/// it is sent again. Where there is no memory for the script nothing is asserted.
#[test]
fn pages_with_a_growth_refused(rt: HostRuntime) -> Result<(), Fail> {
    match written(rt.alloc(), &LOADS_AND_PAGES) {
        Ok(script) => in_both(&rt, &Answered(&[STANDING, FUNDED, script.as_str()])),
        Err(_) => Ok(()),
    }
}
