//! Runs whose reads bring many requests at a time, which are answered in rounds: a writer that fails in a round, and a reader
//! that fails behind one.
use super::broken::{Broken, Sent};
use super::hostile::{TOLD, assert_writes_fail, bytes_of, read_up_to, written_up_to};
use super::payments::FIVE_STEPS;
use super::scripts::{Exchange, Piece, Place, written};
use super::{FUNDED, STANDING, tell_runs};
use crate::empty::{FaultyTrial, Trial, in_faulty, in_memory};
use crate::faulty::Faulty;
use mx_book::Book;
use mx_office::Office;
use std::process::Abort;
use std::test::Fail;

/// A holder more.
const CY: &str = r#"
clerk POST /holders {"holder":"cy","token":"0000000000000000000000000000000c"} -> 200 {"done":"added"}
"#;

/// A member more.
const SECOND: &str = r#"
operator POST /members {"member":"n","token":"00000000000000000000000000000003"} -> 200 {"done":"added"}
"#;

/// Both are there.
const BOTH_THERE: &str = r#"
cy GET /purses/p1 -> 404 {"error":"no such purse"}
operator POST /members {"member":"n","token":"00000000000000000000000000000003"} -> 409 {"error":"name taken"}
"#;

/// A payment with a holder more before it and a member more behind it, and what is there then.
const MIXED: [&str; 7] = [STANDING, FUNDED, CY, FIVE_STEPS, SECOND, TOLD, BOTH_THERE];

/// Whether a request makes a token, as one of a new member or a new holder does.
fn makes_token(exchange: &Exchange, place: &Place) -> bool {
    match exchange.input.as_str().as_bytes().get(place.start..) {
        Some(rest) => rest.starts_with(b"POST /members ") || rest.starts_with(b"POST /holders "),
        None => false,
    }
}

/// By which of the reads a request's last byte comes.
fn read_of(sent: &Sent<'_>, place: &Place) -> Option<usize> {
    place.end.saturating_sub(1).checked_div(sent.size)
}

/// The last request of the round that a request is in. A round goes on to the next request where that is whole by the same
/// read, and not behind a request that makes a token. None here has 64.
fn last_of_round(sent: &Sent<'_>, place: &Place) -> Place {
    let mut last = *place;
    for next in &sent.exchange.places {
        let follows = next.start == last.end && read_of(sent, next) == read_of(sent, &last);
        if follows && !makes_token(sent.exchange, &last) {
            last = *next;
        }
    }
    last
}

/// Asserts that a writer that fails in any response leaves its whole round done, and nothing behind it.
fn assert_rounds_stand(
    rt: &(impl Abort + AllocGlobal),
    exchange: &Exchange,
    size: usize,
) -> Result<(), Fail> {
    let sent = Sent { exchange, size };
    for place in &exchange.places {
        assert_writes_fail(rt, &sent, place, &last_of_round(&sent, place))?;
    }
    Ok(())
}

/// A writer that fails in any response, or takes nothing any more, ends the run. The whole round of that response is done, and
/// nothing behind it is. So it is where all requests come by one read, and where reads end inside of requests.
#[test]
fn writer_that_fails_in_each_round(rt: HostRuntime) -> Result<(), Fail> {
    let exchange = Exchange::of_one_run(rt.alloc(), &MIXED)?;
    assert!(rt; exchange.input.len() < 4096);
    assert_rounds_stand(&rt, &exchange, 4096)?;
    assert_rounds_stand(&rt, &exchange, 500)
}

/// Asserts that so it is of requests by their numbers from 0, each with the last one of its round.
fn assert_numbered_stand(
    rt: &(impl Abort + AllocGlobal),
    sent: &Sent<'_>,
    numbers: &[(usize, usize)],
) -> Result<(), Fail> {
    let places = sent.exchange.places.as_slice();
    for (number, last) in numbers {
        let place = places.get(*number).ok_or("no request")?;
        let last = places.get(*last).ok_or("no last request")?;
        assert_writes_fail(rt, sent, place, last)?;
    }
    Ok(())
}

/// A new member, 84 grants of 1 to it, a second member, and what is there then.
const GRANTS: [Piece<'static>; 3] = [
    (
        0,
        1,
        "operator POST /members {\"member\":\"m\",\"token\":\"00000000000000000000000000000002\"} -> 200 {\"done\":\"added\"}\n",
    ),
    (
        0,
        84,
        "operator POST /members/m/grant {\"amount\":1} -> 200 {\"done\":\"granted\"}\n",
    ),
    (0, 1, AFTER_GRANTS),
];

const AFTER_GRANTS: &str = r#"
operator POST /members {"member":"n","token":"00000000000000000000000000000003"} -> 200 {"done":"added"}
operator GET /reconcile -> 200 {"balances":"0","float":"84","granted":"84","issued":"0","lost":"0","redeemed":"0","transit":"0","uncollected":"0"}
operator POST /members {"member":"n","token":"00000000000000000000000000000003"} -> 409 {"error":"name taken"}
"#;

/// Of 84 grants that come by one read the first 64 are a round, which a writer that fails in it leaves done, and not the 65th.
/// The others are one, with the second member behind them.
#[test]
fn writer_that_fails_in_a_full_round(rt: HostRuntime) -> Result<(), Fail> {
    let script = written(rt.alloc(), &GRANTS)?;
    let exchange = Exchange::of_one_run(rt.alloc(), &[script.as_str()])?;
    assert!(rt; exchange.input.len() < 12288);
    let sent = Sent {
        exchange: &exchange,
        size: 12288,
    };
    let numbers = [(0, 0), (1, 64), (33, 64), (64, 64), (65, 85), (85, 85)];
    assert_numbered_stand(&rt, &sent, &numbers)
}

/// A redemption that is given up at its last call of the book, the 14th of the run, and comes again.
const GIVEN_UP: &str = r#"
operator POST /members/m/grant {"amount":100} -> 200 {"done":"granted"}
clerk POST /purses/p1/load {"amount":100,"ref":"a1"} -> 200 {"done":"loaded"}
ann POST /purses/p1/redeem {"amount":60,"ref":"r1"} -> 503
ann POST /purses/p1/redeem {"amount":60,"ref":"r1"} -> 200 {"done":"redeemed"}
clerk POST /collect -> 200 {"collected":"60"}
clerk POST /holders {"holder":"cy","token":"0000000000000000000000000000000c"} -> 200 {"done":"added"}
operator GET /reconcile -> 200 {"balances":"40","float":"60","granted":"100","issued":"100","lost":"0","redeemed":"60","transit":"0","uncollected":"0"}
cy GET /purses/p1 -> 404 {"error":"no such purse"}
"#;

/// A run that its writer ends, over a book that leaves out the 14th call of it.
#[derive(Drop)]
struct LeftOut<'a>(Broken<'a>);

impl FaultyTrial for LeftOut<'_> {
    fn try_in(
        &self,
        rt: &(impl Abort + AllocGlobal),
        office: &mut Office<Faulty<impl Book>>,
    ) -> Result<(), Fail> {
        tell_runs(rt, office, &[STANDING])?;
        office.book.left = Some(13);
        self.0.try_in(rt, office)
    }
}

/// Asserts that at three bytes of a response such a run leaves its round done, and nothing behind it.
fn assert_left_out_stand(
    rt: &(impl Abort + AllocGlobal),
    sent: &Sent<'_>,
    place: &Place,
    last: &Place,
) -> Result<(), Fail> {
    for room in bytes_of(place) {
        let broken = written_up_to(sent, last, room, false).ok_or("no bytes")?;
        in_faulty(rt, &LeftOut(broken))?;
    }
    Ok(())
}

/// A round ends behind a request that is given up. A writer that fails in it leaves done what it answers, and nothing behind
/// it: the same redemption, sent again, is done then.
#[test]
fn writer_that_fails_in_a_round_given_up_at_its_end(rt: HostRuntime) -> Result<(), Fail> {
    let exchange = Exchange::of_one_run(rt.alloc(), &[GIVEN_UP])?;
    let sent = Sent {
        exchange: &exchange,
        size: 4096,
    };
    let places = exchange.places.as_slice();
    for (number, last) in [(0, 2), (1, 2), (2, 2), (3, 5), (5, 5)] {
        let place = places.get(number).ok_or("no request")?;
        let last = places.get(last).ok_or("no last request")?;
        assert_left_out_stand(&rt, &sent, place, last)?;
    }
    Ok(())
}

/// Asserts that a reader that fails before a request and inside of it leaves the requests before it answered, and nothing else
/// done.
fn assert_read_fails(
    rt: &(impl Abort + AllocGlobal),
    sent: &Sent<'_>,
    place: &Place,
) -> Result<(), Fail> {
    for cut in [place.start, place.end.saturating_sub(1)] {
        in_memory(rt, &read_up_to(sent, place, cut).ok_or("no bytes")?)?;
    }
    Ok(())
}

/// A reader that fails behind requests that came by one read ends the run: these are answered, and nothing else is done.
#[test]
fn reader_that_fails_behind_a_round(rt: HostRuntime) -> Result<(), Fail> {
    let exchange = Exchange::of_one_run(rt.alloc(), &MIXED)?;
    let sent = Sent {
        exchange: &exchange,
        size: 4096,
    };
    for place in &exchange.places {
        assert_read_fails(&rt, &sent, place)?;
    }
    Ok(())
}
