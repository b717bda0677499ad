//! A payment of 60 from p1, which holds 100, to q1: it is lost, and the operator settles it.
use super::answered::Answered;
use super::{FUNDED, SETTLEMENT_BETWEEN, STANDING, given_up, played};
use crate::empty::in_both;
use std::test::Fail;

/// Both purses log the payment. The log of p1 is read, archived and cleared.
pub(super) const LOST: &str = r#"
bob POST /purses/q1/start-to {"peer":"p1","value":60,"seq":0} -> 200 {"details":"p1,q1,60,0,0","done":"started"}
bob POST /purses/q1/abort -> 200 {"done":"aborted","logged":true}
ann POST /purses/p1/start-from {"peer":"q1","value":60,"seq":0} -> 200 {"details":"p1,q1,60,0,0","done":"started"}
ann POST /purses/p1/handle {"number":0} -> 200 {"done":"value-sent"}
bob POST /purses/q1/handle {"number":0} -> 200 {"done":"ignored"}
ann POST /purses/p1/read-log {"place":0} -> 200 {"done":"read","entry":"p1,q1,60,0,0"}
operator POST /archive/p1 -> 200 {"archived":1}
operator POST /clear/p1 {"details":"p1,q1,60,0,0"} -> 200 {"done":"sent"}
ann POST /purses/p1/handle {"number":1} -> 200 {"done":"cleared"}
"#;

/// While the entry of q1 isn't archived nothing is settled; then it is read and archived.
pub(super) const ARCHIVED: &str = r#"
operator POST /settle {"details":"p1,q1,60,0,0"} -> 409 {"error":"not lost"}
operator GET /reconcile -> 200 {"balances":"40","float":"900","granted":"1000","issued":"100","lost":"60","redeemed":"0","transit":"0","uncollected":"0"}
bob POST /purses/q1/read-log {"place":0} -> 200 {"done":"read","entry":"p1,q1,60,0,0"}
operator POST /archive/q1 -> 200 {"archived":1}
"#;

/// The value comes back to p1, once.
pub(super) const SETTLED: &str = r#"
operator POST /settle {"details":"p1,q1,60,0,0"} -> 200 {"done":"settled"}
ann GET /purses/p1 -> 200 {"balance":100,"next":1,"purse":"p1","status":"eaFrom"}
bob GET /purses/q1 -> 200 {"balance":0,"next":1,"purse":"q1","status":"eaFrom"}
operator GET /reconcile -> 200 {"balances":"100","float":"900","granted":"1000","issued":"100","lost":"0","redeemed":"0","transit":"0","uncollected":"0"}
"#;

/// Then p1, which holds 100, redeems 30 of them. It is to be paid 5 by q1, but aborts, and its log is read again.
pub(super) const REDEEMED: &str = r#"
ann POST /purses/p1/redeem {"amount":30,"ref":"r1"} -> 200 {"done":"redeemed"}
ann POST /purses/p1/start-to {"peer":"q1","value":5,"seq":1} -> 200 {"details":"q1,p1,5,1,1","done":"started"}
ann POST /purses/p1/abort -> 200 {"done":"aborted","logged":true}
ann POST /purses/p1/read-log {"place":0} -> 200 {"done":"read","entry":"q1,p1,5,1,1"}
"#;

const AGAIN: &str = r#"
operator POST /settle {"details":"p1,q1,60,0,0"} -> 409 {"error":"already settled"}
ann GET /purses/p1 -> 200 {"balance":100,"next":1,"purse":"p1","status":"eaFrom"}
"#;

#[test]
fn lost_value_is_settled(rt: HostRuntime) -> Result<(), Fail> {
    played(&rt, &[STANDING, FUNDED, LOST, ARCHIVED, SETTLED], AGAIN)
}

/// The value comes back to p1 while p1 is to pay 40 to q1. That payment is not broken off.
pub(super) const SETTLED_BETWEEN: &str = r#"
ann POST /purses/p1/start-from {"peer":"q1","value":40,"seq":1} -> 200 {"details":"p1,q1,40,1,1","done":"started"}
operator POST /settle {"details":"p1,q1,60,0,0"} -> 200 {"done":"settled"}
ann GET /purses/p1 -> 200 {"balance":100,"next":2,"purse":"p1","status":"epr"}
"#;

const LINES: &str = r#"@ The lines of p1.
ann GET /purses/p1/statement/0 -> 200 {"lines":[{"amount":100,"balance":100,"kind":"loaded","note":"a1","number":1},{"amount":60,"balance":40,"kind":"sent","note":"p1,q1,60,0,0","number":2},{"amount":60,"balance":40,"kind":"logged","note":"p1,q1,60,0,0","number":3},{"amount":60,"balance":100,"kind":"settled","note":"p1,q1,60,0,0","number":4}]}
bob GET /purses/q1/statement/0 -> 200 {"lines":[{"amount":60,"balance":0,"kind":"logged","note":"p1,q1,60,0,0","number":1}]}
@ The payment of 40 goes on.
bob POST /purses/q1/start-to {"peer":"p1","value":40,"seq":1} -> 200 {"details":"p1,q1,40,1,1","done":"started"}
ann POST /purses/p1/handle {"number":2} -> 200 {"done":"value-sent"}
bob POST /purses/q1/handle {"number":1} -> 200 {"done":"received"}
ann POST /purses/p1/handle {"number":3} -> 200 {"done":"finished"}
ann GET /purses/p1 -> 200 {"balance":60,"next":2,"purse":"p1","status":"eaFrom"}
bob GET /purses/q1 -> 200 {"balance":40,"next":2,"purse":"q1","status":"eaTo"}
"#;

#[test]
fn lost_value_is_settled_between(rt: HostRuntime) -> Result<(), Fail> {
    played(&rt, &SETTLEMENT_BETWEEN, LINES)
}

const REFUSED: &str = r#"@ The details are those of one payment.
operator POST /settle {"details":""} -> 400 {"error":"bad body"}
operator POST /settle {"details":"p1,q1,60,0,0;p1,q1,60,1,1"} -> 400 {"error":"bad body"}
operator POST /settle {} -> 400 {"error":"bad body"}
operator POST /settle -> 400 {"error":"bad body"}
@ Nobody but the operator settles.
clerk POST /settle {"details":"p1,q1,60,0,0"} -> 403 {"error":"not for this caller"}
ann POST /settle {"details":"p1,q1,60,0,0"} -> 403 {"error":"not for this caller"}
nobody POST /settle {"details":"p1,q1,60,0,0"} -> 403 {"error":"token not known"}
ann GET /purses/p1 -> 200 {"balance":40,"next":1,"purse":"p1","status":"eaFrom"}
@ Other details aren't lost.
operator POST /settle {"details":"p1,q1,60,0,1"} -> 409 {"error":"not lost"}
operator POST /settle {"details":"p1,q1,61,0,0"} -> 409 {"error":"not lost"}
operator POST /settle {"details":"q1,p1,60,0,0"} -> 409 {"error":"not lost"}
operator POST /settle {"details":"zz,q1,60,0,0"} -> 409 {"error":"not lost"}
ann GET /purses/p1 -> 200 {"balance":40,"next":1,"purse":"p1","status":"eaFrom"}
"#;

#[test]
fn settlements_that_are_refused(rt: HostRuntime) -> Result<(), Fail> {
    played(&rt, &[STANDING, FUNDED, LOST, ARCHIVED], REFUSED)
}

const ONE_LOG: &str =
    r#"@ A payment that was received isn't lost, though the purse that paid logged it.
ann POST /purses/p1/start-from {"peer":"q1","value":60,"seq":0} -> 200 {"details":"p1,q1,60,0,0","done":"started"}
bob POST /purses/q1/start-to {"peer":"p1","value":60,"seq":0} -> 200 {"details":"p1,q1,60,0,0","done":"started"}
ann POST /purses/p1/handle {"number":0} -> 200 {"done":"value-sent"}
bob POST /purses/q1/handle {"number":0} -> 200 {"done":"received"}
ann POST /purses/p1/read-log {"place":0} -> 200 {"done":"read","entry":"p1,q1,60,0,0"}
bob POST /purses/q1/read-log {"place":0} -> 200 {"done":"read","entry":null}
operator POST /archive/p1 -> 200 {"archived":1}
operator POST /archive/q1 -> 200 {"archived":0}
operator POST /settle {"details":"p1,q1,60,0,0"} -> 409 {"error":"not lost"}
@ A payment that was never made isn't lost, though the purse that was to be paid logged it.
bob POST /purses/q1/start-to {"peer":"p1","value":60,"seq":0} -> 200 {"details":"p1,q1,60,0,0","done":"started"}
bob POST /purses/q1/abort -> 200 {"done":"aborted","logged":true}
bob POST /purses/q1/read-log {"place":0} -> 200 {"done":"read","entry":"p1,q1,60,0,0"}
operator POST /archive/q1 -> 200 {"archived":1}
operator POST /settle {"details":"p1,q1,60,0,0"} -> 409 {"error":"not lost"}
ann GET /purses/p1 -> 200 {"balance":100,"next":0,"purse":"p1","status":"eaFrom"}
"#;

#[test]
fn payments_of_which_one_purse_has_an_entry(rt: HostRuntime) -> Result<(), Fail> {
    played(&rt, &[STANDING, FUNDED], ONE_LOG)
}

/// A settlement takes six calls of the book: who asks, whether the details are settled, whether they are archived for each
/// purse, the purse that paid, and the edits. Where one of them fails it changes nothing.
const GIVEN_UP: &str = r#"
!0
operator POST /settle {"details":"p1,q1,60,0,0"} -> 503
!1
operator POST /settle {"details":"p1,q1,60,0,0"} -> 503
!2
operator POST /settle {"details":"p1,q1,60,0,0"} -> 503
!3
operator POST /settle {"details":"p1,q1,60,0,0"} -> 503
!4
operator POST /settle {"details":"p1,q1,60,0,0"} -> 503
!5
operator POST /settle {"details":"p1,q1,60,0,0"} -> 503
!
operator POST /settle {"details":"p1,q1,60,0,0"} -> 200 {"done":"settled"}
ann GET /purses/p1 -> 200 {"balance":100,"next":1,"purse":"p1","status":"eaFrom"}
bob GET /purses/q1 -> 200 {"balance":0,"next":1,"purse":"q1","status":"eaFrom"}
operator GET /reconcile -> 200 {"balances":"100","float":"900","granted":"1000","issued":"100","lost":"0","redeemed":"0","transit":"0","uncollected":"0"}
"#;

#[test]
fn faults_in_a_settlement(rt: HostRuntime) -> Result<(), Fail> {
    given_up(&rt, &[STANDING, FUNDED, LOST, ARCHIVED], GIVEN_UP)
}

#[test]
fn settlement_with_a_growth_refused(rt: HostRuntime) -> Result<(), Fail> {
    let scripts = [STANDING, FUNDED, LOST, ARCHIVED, SETTLED, AGAIN];
    in_both(&rt, &Answered(&scripts))
}
