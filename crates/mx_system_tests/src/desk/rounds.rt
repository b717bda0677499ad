//! Many payments in one run.
use super::scripts::{Piece, written};
use super::{FUNDED, STANDING, played};
use std::test::Fail;

/// Payments of nothing from p1 to q1, one after another, and what p1 is then. Before a payment both have the next number n, p1
/// has got 2n messages, and q1 n.
const PAYMENTS: [Piece<'static>; 2] = [
    (
        0,
        250,
        "ann POST /purses/p1/start-from {\"peer\":\"q1\",\"value\":0,\"seq\":#n#} -> 200 {\"details\":\"p1,q1,0,#n#,#n#\",\"done\":\"started\"}\nbob POST /purses/q1/start-to {\"peer\":\"p1\",\"value\":0,\"seq\":#n#} -> 200 {\"details\":\"p1,q1,0,#n#,#n#\",\"done\":\"started\"}\nann POST /purses/p1/handle {\"number\":#2n#} -> 200 {\"done\":\"value-sent\"}\nbob POST /purses/q1/handle {\"number\":#n#} -> 200 {\"done\":\"received\"}\nann POST /purses/p1/handle {\"number\":#2n+1#} -> 200 {\"done\":\"finished\"}\nann POST /purses/p1/discard {\"number\":#2n#} -> 200 {\"done\":\"discarded\"}\nann POST /purses/p1/discard {\"number\":#2n+1#} -> 200 {\"done\":\"discarded\"}\nbob POST /purses/q1/discard {\"number\":#n#} -> 200 {\"done\":\"discarded\"}\n",
    ),
    (
        0,
        1,
        "ann GET /purses/p1 -> 200 {\"balance\":100,\"next\":250,\"purse\":\"p1\",\"status\":\"eaFrom\"}\n",
    ),
];

/// 2,000 requests in one run, none of them given up.
#[test]
fn two_hundred_and_fifty_payments(rt: HostRuntime) -> Result<(), Fail> {
    let script = written(rt.alloc(), &PAYMENTS)?;
    played(&rt, &[STANDING, FUNDED], script.as_str())
}
