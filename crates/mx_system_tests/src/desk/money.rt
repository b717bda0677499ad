//! Grants, loads, redemptions and collects.
use super::scripts::{Piece, written};
use super::{FUNDED, STANDING, played};
use std::test::Fail;

const MONEY: &str =
    r#"@ A load that is sent again loads once; another amount under its reference is refused.
operator POST /members/m/grant {"amount":1000} -> 200 {"done":"granted"}
clerk POST /purses/p1/load {"amount":100,"ref":"a1"} -> 200 {"done":"loaded"}
clerk POST /purses/p1/load {"amount":100,"ref":"a1"} -> 200 {"done":"loaded"}
ann GET /purses/p1 -> 200 {"balance":100,"next":0,"purse":"p1","status":"eaFrom"}
clerk POST /purses/p1/load {"amount":90,"ref":"a1"} -> 409 {"error":"reference reused"}
@ A redemption asks nothing of the float; a collect brings it back, once.
operator POST /members/m/grant {"amount":100} -> 200 {"done":"granted"}
clerk POST /purses/p1/load {"amount":100,"ref":"a1"} -> 200 {"done":"loaded"}
clerk POST /purses/p1/load {"amount":1,"ref":"a2"} -> 409 {"error":"float too small"}
ann POST /purses/p1/redeem {"amount":100,"ref":"r1"} -> 200 {"done":"redeemed"}
ann POST /purses/p1/redeem {"amount":100,"ref":"r1"} -> 200 {"done":"redeemed"}
ann GET /purses/p1 -> 200 {"balance":0,"next":0,"purse":"p1","status":"eaFrom"}
clerk POST /collect -> 200 {"collected":"100"}
clerk POST /collect -> 200 {"collected":"0"}
# The float is 100 again.
clerk POST /purses/p1/load {"amount":101,"ref":"a3"} -> 409 {"error":"float too small"}
clerk POST /purses/p1/load {"amount":100,"ref":"a3"} -> 200 {"done":"loaded"}
"#;

#[test]
fn loads_redemptions_and_collects(rt: HostRuntime) -> Result<(), Fail> {
    played(&rt, &[STANDING], MONEY)
}

/// A thousand grants, of which the last finds no room.
const THOUSAND_GRANTS: [Piece<'static>; 2] = [
    (
        0,
        999,
        "operator POST /members/m/grant {\"amount\":1000000000000} -> 200 {\"done\":\"granted\"}\n",
    ),
    (
        0,
        1,
        "operator POST /members/m/grant {\"amount\":1000000000000} -> 409 {\"error\":\"grant too large\"}\n",
    ),
];

/// All grants together are at most 10^15. The office begins with one of 1000.
#[test]
fn grants_up_to_the_limit(rt: HostRuntime) -> Result<(), Fail> {
    let script = written(rt.alloc(), &THOUSAND_GRANTS)?;
    played(&rt, &[STANDING, FUNDED], script.as_str())
}
