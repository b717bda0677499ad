//! What holders see, and who may ask what.
use super::{STANDING, played};
use std::test::Fail;

const PURSES: &str = r#"@ A purse of another holder is answered as one that isn't there.
bob GET /purses/p1 -> 404 {"error":"no such purse"}
bob GET /purses/zz -> 404 {"error":"no such purse"}
@ The response to HEAD is the head of the one to GET.
ann HEAD /purses/p1 -> 200 {"balance":0,"next":0,"purse":"p1","status":"eaFrom"}
ann GET /purses/p1 -> 200 {"balance":0,"next":0,"purse":"p1","status":"eaFrom"}
bob HEAD /purses/p1 -> 404 {"error":"no such purse"}
- HEAD /nowhere -> 404 {"error":"no route"}
@ The route is looked at before the token, the token before the caller's class, and that before the body.
- GET /nowhere -> 404 {"error":"no route"}
- GET /purses -> 403 {"error":"token not known"}
ann POST /members [] -> 403 {"error":"not for this caller"}
operator POST /members [] -> 400 {"error":"bad body"}
ann GET /purses -> 200 {"purses":["p1"]}
@ Names and tokens are taken once.
operator POST /members {"member":"m","token":"0000000000000000000000000000000f"} -> 409 {"error":"name taken"}
clerk POST /holders {"holder":"cy","token":"00000000000000000000000000000001"} -> 409 {"error":"token taken"}
clerk POST /purses {"purse":"p2","holder":"cy"} -> 404 {"error":"no such holder"}
clerk POST /purses {"purse":"p2","holder":"ann"} -> 200 {"done":"added"}
ann GET /purses -> 200 {"purses":["p1","p2"]}
"#;

/// Before them comes a run with no input, which has no output.
#[test]
fn purses(rt: HostRuntime) -> Result<(), Fail> {
    played(&rt, &["", STANDING], PURSES)
}
