//! Hostile use: input that is cut anywhere, readers and writers that fail at each of their calls, and growths that are
//! refused.
use super::answered::Answered;
use super::broken::{Broken, Sent, Told};
use super::faults::BAD_HEAD_BYTES;
use super::payments::FIVE_STEPS;
use super::scripts::{Exchange, Place};
use super::{FIRST_PATH, FUNDED, PAYMENT, STANDING};
use crate::empty::{Trial, in_both, in_memory, in_tables};
use mx_book::Book;
use mx_desk::DeskFault;
use mx_office::Office;
use std::process::Abort;
use std::test::Fail;

const BODY_CUT_BYTES: &str =
    "HTTP/1.1 400 Bad Request\r\ncontent-type: application/json\r\ncontent-length: 20\r\nconnection: close\r\n\r\n{\"error\":\"body cut\"}";

/// The response to a request of which the input ends before this byte, or nothing where nothing of it came.
fn stop_of(place: &Place, cut: usize) -> &'static str {
    if cut == place.start {
        ""
    } else if cut < place.body {
        BAD_HEAD_BYTES
    } else {
        BODY_CUT_BYTES
    }
}

/// A run whose input ends before this byte of a request: the requests before it get their responses, and it gets that to its
/// end.
fn told_up_to<'a>(exchange: &'a Exchange, place: &Place, cut: usize) -> Option<Told<'a>> {
    Some(Told {
        input: exchange.input.as_str().as_bytes().get(..cut)?,
        output: exchange.output.as_str().as_bytes().get(..place.told)?,
        end: stop_of(place, cut),
    })
}

/// Asserts that so it is of each byte of a request.
fn assert_cut_anywhere(
    rt: &(impl Abort + AllocGlobal),
    exchange: &Exchange,
    place: &Place,
) -> Result<(), Fail> {
    for cut in place.start..place.end {
        in_memory(rt, &told_up_to(exchange, place, cut).ok_or("no bytes")?)?;
    }
    Ok(())
}

/// Asserts that so it is of each byte of each request.
fn assert_each_cut(rt: &(impl Abort + AllocGlobal), scripts: &[&str]) -> Result<(), Fail> {
    let exchange = Exchange::of_one_run(rt.alloc(), scripts)?;
    for place in &exchange.places {
        assert_cut_anywhere(rt, &exchange, place)?;
    }
    Ok(())
}

/// Whatever an input ends in: its whole requests are answered, and then there is `bad head` or `body cut`, or nothing where
/// it ends between two requests.
#[test]
fn input_cut_anywhere(rt: HostRuntime) -> Result<(), Fail> {
    assert_each_cut(&rt, &[FIRST_PATH])?;
    assert_each_cut(&rt, &PAYMENT)
}

/// A run whose reader fails at this byte of a request: the requests before it are answered, and it and those behind it may be
/// sent again as if nothing had been.
pub(super) fn read_up_to<'a>(sent: &Sent<'a>, place: &Place, cut: usize) -> Option<Broken<'a>> {
    let (input, output) = (
        sent.exchange.input.as_str().as_bytes(),
        sent.exchange.output.as_str().as_bytes(),
    );
    Some(Broken {
        fault: DeskFault::Read,
        input: input.get(..cut)?,
        size: sent.size,
        reads: None,
        room: 4096,
        takes_none: false,
        output: output.get(..place.told)?,
        rest: input.get(place.start..)?,
        responses: output.get(place.told..)?,
    })
}

/// Asserts that so it is at each byte of a request.
fn assert_reads_fail(
    rt: &(impl Abort + AllocGlobal),
    sent: &Sent<'_>,
    place: &Place,
) -> Result<(), Fail> {
    for cut in place.start..place.end {
        in_memory(rt, &read_up_to(sent, place, cut).ok_or("no bytes")?)?;
    }
    Ok(())
}

/// A run whose reader fails at a byte of its only request, which isn't begun.
fn not_begun<'a>(exchange: &'a Exchange, place: &Place, cut: usize) -> Option<Broken<'a>> {
    let request = exchange.input.as_str().as_bytes().get(place.start..cut)?;
    Some(Broken {
        fault: DeskFault::Read,
        input: request,
        size: 1,
        reads: None,
        room: 4096,
        takes_none: false,
        output: b"",
        rest: b"",
        responses: b"",
    })
}

/// Asserts that so it is at each byte of a request.
fn assert_not_begun(
    rt: &(impl Abort + AllocGlobal),
    office: &mut Office<impl Book>,
    exchange: &Exchange,
    place: &Place,
) -> Result<(), Fail> {
    for cut in place.start..place.end {
        let broken = not_begun(exchange, place, cut).ok_or("no bytes")?;
        broken.try_in(rt, office)?;
    }
    Ok(())
}

/// A request alone, with its response.
fn alone<'a>(exchange: &'a Exchange, place: &Place) -> Option<Told<'a>> {
    let (input, output) = (
        exchange.input.as_str().as_bytes(),
        exchange.output.as_str().as_bytes(),
    );
    Some(Told {
        input: input.get(place.start..place.end)?,
        output: output.get(place.told..place.told_end)?,
        end: "",
    })
}

/// Requests, none of which is begun where the reader fails at any of its bytes, and each of which is then answered.
#[derive(Drop)]
struct NoneBegun<'a>(&'a Exchange);

impl Trial for NoneBegun<'_> {
    fn try_in(
        &self,
        rt: &(impl Abort + AllocGlobal),
        office: &mut Office<impl Book>,
    ) -> Result<(), Fail> {
        for place in &self.0.places {
            assert_not_begun(rt, office, self.0, place)?;
            alone(self.0, place).ok_or("no bytes")?.try_in(rt, office)?;
        }
        Ok(())
    }
}

/// A reader that fails at any byte of any request ends the run: what came in whole is answered, and nothing else is done.
#[test]
fn reader_that_fails_at_each_read(rt: HostRuntime) -> Result<(), Fail> {
    let exchange = Exchange::of_one_run(rt.alloc(), &PAYMENT)?;
    let sent = Sent {
        exchange: &exchange,
        size: 97,
    };
    for place in &exchange.places {
        assert_reads_fail(&rt, &sent, place)?;
    }
    in_tables(&rt, &NoneBegun(&exchange))
}

/// A run whose page is full at this byte of a response of a round: the requests up to the last one of the round stand, and
/// those behind it don't, since they are answered as usual when they are sent again.
pub(super) fn written_up_to<'a>(
    sent: &Sent<'a>,
    last: &Place,
    room: usize,
    takes_none: bool,
) -> Option<Broken<'a>> {
    let (input, output) = (
        sent.exchange.input.as_str().as_bytes(),
        sent.exchange.output.as_str().as_bytes(),
    );
    Some(Broken {
        fault: DeskFault::Write,
        input,
        size: sent.size,
        reads: None,
        room,
        takes_none,
        output: output.get(..room)?,
        rest: input.get(last.end..)?,
        responses: output.get(last.told_end..)?,
    })
}

/// The first byte of a response, one inside, and the last.
pub(super) fn bytes_of(place: &Place) -> [usize; 3] {
    [
        place.told,
        place.told.saturating_add(20),
        place.told_end.saturating_sub(1),
    ]
}

/// Asserts that so it is at three bytes of a response, of a page that fails and of one that takes nothing any more.
pub(super) fn assert_writes_fail(
    rt: &(impl Abort + AllocGlobal),
    sent: &Sent<'_>,
    place: &Place,
    last: &Place,
) -> Result<(), Fail> {
    for room in bytes_of(place) {
        let fails = written_up_to(sent, last, room, false);
        in_memory(rt, &fails.ok_or("no bytes")?)?;
        let takes_none = written_up_to(sent, last, room, true);
        in_tables(rt, &takes_none.ok_or("no bytes")?)?;
    }
    Ok(())
}

/// Where bytes come one at a time each request is a round of its own. A writer that fails in any response, or takes nothing
/// any more, ends the run: that request is done, and nothing behind it is.
#[test]
fn writer_that_fails_in_each_response(rt: HostRuntime) -> Result<(), Fail> {
    let exchange = Exchange::of_one_run(rt.alloc(), &PAYMENT)?;
    let sent = Sent {
        exchange: &exchange,
        size: 1,
    };
    for place in &exchange.places {
        assert_writes_fail(&rt, &sent, place, place)?;
    }
    Ok(())
}

/// Statements after a payment, and the sums.
pub(super) const TOLD: &str = r#"
ann GET /purses/p1/statement/0 -> 200 {"lines":[{"amount":100,"balance":100,"kind":"loaded","note":"a1","number":1},{"amount":60,"balance":40,"kind":"sent","note":"p1,q1,60,0,0","number":2}]}
ann GET /purses/p1/inbox -> 200 {"messages":[{"details":"p1,q1,60,0,0","kind":"req","number":0},{"details":"p1,q1,60,0,0","kind":"ack","number":1}]}
operator GET /reconcile -> 200 {"balances":"100","float":"900","granted":"1000","issued":"100","lost":"0","redeemed":"0","transit":"0","uncollected":"0"}
"#;

/// A float that is loaded, redeemed and collected.
const FLOAT: &str = r#"
operator POST /members/m/grant {"amount":100} -> 200 {"done":"granted"}
clerk POST /purses/p1/load {"amount":100,"ref":"a1"} -> 200 {"done":"loaded"}
clerk POST /purses/p1/load {"amount":1,"ref":"a2"} -> 409 {"error":"float too small"}
ann POST /purses/p1/redeem {"amount":100,"ref":"r1"} -> 200 {"done":"redeemed"}
ann POST /purses/p1/redeem {"amount":100,"ref":"r1"} -> 200 {"done":"redeemed"}
clerk POST /collect -> 200 {"collected":"100"}
clerk POST /purses/p1/load {"amount":100,"ref":"a3"} -> 200 {"done":"loaded"}
"#;

/// With every growth granted this says what is said above. Run with one growth refused, it says that a request changes
/// nothing where it is given up, and is answered as usual when it is sent again.
#[test]
fn payment_with_a_growth_refused(rt: HostRuntime) -> Result<(), Fail> {
    in_both(&rt, &Answered(&[STANDING, FUNDED, FIVE_STEPS, TOLD]))
}

/// The same of a float.
#[test]
fn float_with_a_growth_refused(rt: HostRuntime) -> Result<(), Fail> {
    in_both(&rt, &Answered(&[STANDING, FLOAT]))
}
