//! Payments of p1, which holds 100, to q1.
use super::devices::Pieces;
use super::scripts::Exchange;
use super::{FUNDED, PAYMENT, STANDING, assert_told, played, serve_from};
use crate::empty::{Trial, in_memory};
use mx_book::Book;
use mx_office::Office;
use std::process::Abort;
use std::test::Fail;

const PAYMENTS: &str =
    r#"@ Five steps: each purse starts on its side, then the request, the value and the acknowledgement are handled. A value
# that is handled again is ignored.
ann POST /purses/p1/start-from {"peer":"q1","value":60,"seq":0} -> 200 {"details":"p1,q1,60,0,0","done":"started"}
bob POST /purses/q1/start-to {"peer":"p1","value":60,"seq":0} -> 200 {"details":"p1,q1,60,0,0","done":"started"}
ann POST /purses/p1/handle {"number":0} -> 200 {"done":"value-sent"}
bob POST /purses/q1/handle {"number":0} -> 200 {"done":"received"}
ann POST /purses/p1/handle {"number":1} -> 200 {"done":"finished"}
ann GET /purses/p1 -> 200 {"balance":40,"next":1,"purse":"p1","status":"eaFrom"}
bob GET /purses/q1 -> 200 {"balance":60,"next":1,"purse":"q1","status":"eaTo"}
bob POST /purses/q1/handle {"number":0} -> 200 {"done":"ignored"}
bob GET /purses/q1 -> 200 {"balance":60,"next":1,"purse":"q1","status":"eaTo"}
@ A payment may be of nothing.
ann POST /purses/p1/start-from {"peer":"q1","value":0,"seq":0} -> 200 {"details":"p1,q1,0,0,0","done":"started"}
bob POST /purses/q1/start-to {"peer":"p1","value":0,"seq":0} -> 200 {"details":"p1,q1,0,0,0","done":"started"}
ann POST /purses/p1/handle {"number":0} -> 200 {"done":"value-sent"}
bob POST /purses/q1/handle {"number":0} -> 200 {"done":"received"}
ann POST /purses/p1/handle {"number":1} -> 200 {"done":"finished"}
ann GET /purses/p1 -> 200 {"balance":100,"next":1,"purse":"p1","status":"eaFrom"}
bob GET /purses/q1 -> 200 {"balance":0,"next":1,"purse":"q1","status":"eaTo"}
@ A start beyond the balance is refused and aborts nothing; one that is accepted aborts the start before it.
ann POST /purses/p1/start-from {"peer":"q1","value":60,"seq":0} -> 200 {"details":"p1,q1,60,0,0","done":"started"}
ann POST /purses/p1/start-from {"peer":"q1","value":101,"seq":0} -> 409 {"error":"not enough"}
ann GET /purses/p1 -> 200 {"balance":100,"next":1,"purse":"p1","status":"epr"}
ann POST /purses/p1/start-from {"peer":"q1","value":100,"seq":0} -> 200 {"details":"p1,q1,100,1,0","done":"started"}
@ A start towards a purse that isn't there is answered as one towards a purse that is.
bob POST /purses/q1/start-to {"peer":"nobody","value":5,"seq":0} -> 200 {"details":"nobody,q1,5,0,0","done":"started"}
@ And one towards a purse that is.
bob POST /purses/q1/start-to {"peer":"p1","value":5,"seq":0} -> 200 {"details":"p1,q1,5,0,0","done":"started"}
@ No purse pays itself, and that is said before the balance is looked at.
ann POST /purses/p1/start-from {"peer":"p1","value":101,"seq":0} -> 409 {"error":"same purse"}
@ A receiver that aborts once the value is sent has logged it; the value is in neither purse.
ann POST /purses/p1/start-from {"peer":"q1","value":60,"seq":0} -> 200 {"details":"p1,q1,60,0,0","done":"started"}
bob POST /purses/q1/start-to {"peer":"p1","value":60,"seq":0} -> 200 {"details":"p1,q1,60,0,0","done":"started"}
ann POST /purses/p1/handle {"number":0} -> 200 {"done":"value-sent"}
bob POST /purses/q1/abort -> 200 {"done":"aborted","logged":true}
ann GET /purses/p1 -> 200 {"balance":40,"next":1,"purse":"p1","status":"epa"}
bob GET /purses/q1 -> 200 {"balance":0,"next":1,"purse":"q1","status":"eaFrom"}
@ A payer that never handles the acknowledgement logs a payment that was received.
ann POST /purses/p1/start-from {"peer":"q1","value":60,"seq":0} -> 200 {"details":"p1,q1,60,0,0","done":"started"}
bob POST /purses/q1/start-to {"peer":"p1","value":60,"seq":0} -> 200 {"details":"p1,q1,60,0,0","done":"started"}
ann POST /purses/p1/handle {"number":0} -> 200 {"done":"value-sent"}
bob POST /purses/q1/handle {"number":0} -> 200 {"done":"received"}
ann POST /purses/p1/discard {"number":1} -> 200 {"done":"discarded"}
ann POST /purses/p1/abort -> 200 {"done":"aborted","logged":true}
ann GET /purses/p1 -> 200 {"balance":40,"next":1,"purse":"p1","status":"eaFrom"}
bob GET /purses/q1 -> 200 {"balance":60,"next":1,"purse":"q1","status":"eaTo"}
@ A request stays in its inbox when its sender aborts, and is accepted later; the value that it brings is ignored.
bob POST /purses/q1/start-to {"peer":"p1","value":60,"seq":0} -> 200 {"details":"p1,q1,60,0,0","done":"started"}
bob POST /purses/q1/abort -> 200 {"done":"aborted","logged":true}
ann POST /purses/p1/start-from {"peer":"q1","value":60,"seq":0} -> 200 {"details":"p1,q1,60,0,0","done":"started"}
ann POST /purses/p1/handle {"number":0} -> 200 {"done":"value-sent"}
bob POST /purses/q1/handle {"number":0} -> 200 {"done":"ignored"}
ann GET /purses/p1 -> 200 {"balance":40,"next":1,"purse":"p1","status":"epa"}
bob GET /purses/q1 -> 200 {"balance":0,"next":1,"purse":"q1","status":"eaFrom"}
ann GET /purses/p1/inbox -> 200 {"messages":[{"details":"p1,q1,60,0,0","kind":"req","number":0}]}
ann POST /purses/p1/handle {"number":9} -> 404 {"error":"no such message"}
"#;

#[test]
fn payments(rt: HostRuntime) -> Result<(), Fail> {
    played(&rt, &[STANDING, FUNDED], PAYMENTS)
}

/// Each purse starts on its side; then the request, the value and the acknowledgement are handled.
pub(super) const FIVE_STEPS: &str = r#"
ann POST /purses/p1/start-from {"peer":"q1","value":60,"seq":0} -> 200 {"details":"p1,q1,60,0,0","done":"started"}
bob POST /purses/q1/start-to {"peer":"p1","value":60,"seq":0} -> 200 {"details":"p1,q1,60,0,0","done":"started"}
ann POST /purses/p1/handle {"number":0} -> 200 {"done":"value-sent"}
bob POST /purses/q1/handle {"number":0} -> 200 {"done":"received"}
ann POST /purses/p1/handle {"number":1} -> 200 {"done":"finished"}
ann GET /purses/p1 -> 200 {"balance":40,"next":1,"purse":"p1","status":"eaFrom"}
bob GET /purses/q1 -> 200 {"balance":60,"next":1,"purse":"q1","status":"eaTo"}
"#;

/// An exchange whose bytes are read so many at a time.
#[derive(Drop)]
struct InPieces<'a> {
    exchange: &'a Exchange,
    size: usize,
}

impl Trial for InPieces<'_> {
    fn try_in(
        &self,
        rt: &(impl Abort + AllocGlobal),
        office: &mut Office<impl Book>,
    ) -> Result<(), Fail> {
        let reader = Pieces::new(self.exchange.input.as_str().as_bytes(), self.size);
        let told = serve_from(rt.alloc(), office, reader)?;
        assert_told(rt, &told, self.exchange)
    }
}

/// However the bytes come, the responses are the same.
#[test]
fn payment_read_in_pieces(rt: HostRuntime) -> Result<(), Fail> {
    let exchange = Exchange::of_one_run(rt.alloc(), &PAYMENT)?;
    for size in 1..=40 {
        let pieces = InPieces {
            exchange: &exchange,
            size,
        };
        in_memory(&rt, &pieces)?;
    }
    Ok(())
}
