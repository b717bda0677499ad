//! The desk over a book in memory and over tables: requests with the bytes of the responses to them, worked out by hand.
mod answered;
mod apart;
mod broken;
mod devices;
mod faults;
mod framing;
mod hostile;
mod limits;
mod logs;
mod migrated;
mod money;
mod payments;
mod purses;
mod rounds;
mod scripts;
mod settled;
mod sums;
mod together;

pub(super) use self::answered::answer_in_the_end;
use self::payments::FIVE_STEPS;
pub(super) use self::scripts::{unfolded, written};
use self::scripts::{Exchange, RUN_END};
use self::settled::{ARCHIVED, LOST, REDEEMED, SETTLED, SETTLED_BETWEEN};
use crate::empty::{FaultyTrial, Trial, in_both, in_faulty};
use crate::faulty::Faulty;
use mx_book::Book;
use mx_desk::Counted;
use mx_desk::desk::run;
use mx_office::Office;
use mx_wire::Routes;
use std::alloc::{AllocError, Global};
use std::io::Read;
use std::process::Abort;
use std::test::Fail;

/// The member m, and its holders: ann with the purse p1, and bob with q1.
pub(super) const STANDING: &str = r#"
operator POST /members {"member":"m","token":"00000000000000000000000000000002"} -> 200 {"done":"added"}
clerk POST /holders {"holder":"ann","token":"0000000000000000000000000000000a"} -> 200 {"done":"added"}
clerk POST /holders {"holder":"bob","token":"0000000000000000000000000000000b"} -> 200 {"done":"added"}
clerk POST /purses {"purse":"p1","holder":"ann"} -> 200 {"done":"added"}
clerk POST /purses {"purse":"q1","holder":"bob"} -> 200 {"done":"added"}
"#;

/// m is granted 1000, of which p1 is loaded with 100 by the reference a1.
pub(super) const FUNDED: &str = r#"
operator POST /members/m/grant {"amount":1000} -> 200 {"done":"granted"}
clerk POST /purses/p1/load {"amount":100,"ref":"a1"} -> 200 {"done":"loaded"}
"#;

/// A payment of 60 from p1 to q1, from nothing on.
pub(super) const PAYMENT: [&str; 3] = [STANDING, FUNDED, FIVE_STEPS];

/// A lost payment of 60 from p1 to q1, its settlement, a redemption of 30 by p1, and a payment that p1 aborts, from nothing
/// on.
pub(super) const SETTLEMENT: [&str; 6] = [STANDING, FUNDED, LOST, ARCHIVED, SETTLED, REDEEMED];

/// A lost payment of 60 from p1 to q1, and its settlement between the steps of another payment, from nothing on.
pub(super) const SETTLEMENT_BETWEEN: [&str; 5] = [
    STANDING,
    FUNDED,
    LOST,
    ARCHIVED,
    SETTLED_BETWEEN,
];

/// A member, a holder and a purse, which is then shown.
const FIRST_PATH: &str = r#"
operator POST /members {"member":"m","token":"00000000000000000000000000000002"} -> 200 {"done":"added"}
clerk POST /holders {"holder":"ann","token":"0000000000000000000000000000000a"} -> 200 {"done":"added"}
clerk POST /purses {"purse":"p1","holder":"ann"} -> 200 {"done":"added"}
ann GET /purses/p1 -> 200 {"balance":0,"next":0,"purse":"p1","status":"eaFrom"}
"#;

/// The bytes of `503`, the response to a request that is given up.
const UNAVAILABLE: &str =
    "HTTP/1.1 503 Service Unavailable\r\ncontent-length: 0\r\nconnection: close\r\n\r\n";

/// What is written in one or more runs, and how many responses that are.
#[derive(Drop)]
struct Written {
    bytes: Vec<u8>,
    count: u64,
}

/// Serves what a reader gives in one run, and gives what the run adds to a writer.
fn serve_by(
    alloc: Global,
    routes: &Routes,
    office: &mut Office<impl Book>,
    reader: impl Read + Drop,
) -> Result<Written, Fail> {
    let mut reader = Counted::new(reader);
    let mut writer = Counted::new(Vec::new(alloc));
    let count = run(alloc, &mut reader, &mut writer, routes, office)?;
    Ok(Written {
        bytes: writer.into_inner(),
        count,
    })
}

/// The same by routes of its own.
fn serve_from(
    alloc: Global,
    office: &mut Office<impl Book>,
    reader: impl Read + Drop,
) -> Result<Written, Fail> {
    serve_by(alloc, &Routes::new(alloc)?, office, reader)
}

/// Serves the requests of an exchange, each run of it by a call of its own.
fn serve(
    alloc: Global,
    office: &mut Office<impl Book>,
    exchange: &Exchange,
) -> Result<Written, Fail> {
    let mut all = Written {
        bytes: Vec::new(alloc),
        count: 0,
    };
    for input in exchange.input.as_str().split(RUN_END) {
        let told = serve_from(alloc, office, input.as_bytes())?;
        all.bytes.extend_from_slice(told.bytes.as_slice())?;
        all.count = all.count.saturating_add(told.count);
    }
    Ok(all)
}

/// Asserts that the responses of an exchange were written, and nothing else.
fn assert_told(rt: &impl Abort, told: &Written, exchange: &Exchange) -> Result<(), Fail> {
    let text = std::str::from_utf8(told.bytes.as_slice())?;
    assert_eq!(rt; text, exchange.output.as_str());
    assert_eq!(rt; told.count, exchange.count);
    Ok(())
}

/// An office in which nothing is serves an exchange, and writes its responses.
impl Trial for Exchange {
    fn try_in(
        &self,
        rt: &(impl Abort + AllocGlobal),
        office: &mut Office<impl Book>,
    ) -> Result<(), Fail> {
        let told = serve(rt.alloc(), office, self)?;
        assert_told(rt, &told, self)
    }
}

/// Serves the scenarios of a text, each in two offices in which nothing is, over a book in memory and over tables, behind
/// these scripts, and asserts that both write its responses. A scenario begins with a line `@ WHAT IT SHOWS`.
fn played(rt: &(impl Abort + AllocGlobal), before: &[&str], scenarios: &str) -> Result<(), Fail> {
    for scenario in scenarios.split('@') {
        let mut exchange = Exchange::of_runs(rt.alloc(), before)?;
        exchange.add_script(scenario)?;
        in_both(rt, &exchange)?;
    }
    Ok(())
}

/// Serves the requests of a script in one run, and asserts that each gets its response.
fn tell(
    rt: &(impl Abort + AllocGlobal),
    office: &mut Office<impl Book>,
    script: &str,
) -> Result<(), Fail> {
    Exchange::of_one_run(rt.alloc(), &[script])?.try_in(rt, office)
}

/// Serves scripts, each in a run of its own, and asserts that each request gets its response.
pub(super) fn tell_runs(
    rt: &(impl Abort + AllocGlobal),
    office: &mut Office<impl Book>,
    scripts: &[&str],
) -> Result<(), Fail> {
    Exchange::of_runs(rt.alloc(), scripts)?.try_in(rt, office)
}

/// A script whose parts begin with a line `!` or `!N`. The requests of a part are served in one run, and the book leaves out
/// the call that comes behind N others.
#[derive(Drop)]
struct Parts<'a> {
    before: &'a [&'a str],
    script: &'a str,
}

/// Serves one of its parts.
fn tell_part(
    rt: &(impl Abort + AllocGlobal),
    office: &mut Office<Faulty<impl Book>>,
    part: &str,
) -> Result<(), Fail> {
    let (passed, script) = part.split_once('\n').unwrap_or(("", part));
    let left = passed.parse::<u64>().ok();
    assert!(rt;
        left.is_some() || passed.is_empty() || passed.starts_with(' '),
        "{passed}"
    );
    office.book.left = left;
    tell(rt, office, script)
}

impl FaultyTrial for Parts<'_> {
    fn try_in(
        &self,
        rt: &(impl Abort + AllocGlobal),
        office: &mut Office<Faulty<impl Book>>,
    ) -> Result<(), Fail> {
        tell_runs(rt, office, self.before)?;
        for part in self.script.split('!') {
            tell_part(rt, office, part)?;
        }
        Ok(())
    }
}

/// Serves the scenarios of a text, each in parts in an office in which nothing is, over a book that fails, behind these
/// scripts.
fn given_up<'a>(
    rt: &(impl Abort + AllocGlobal),
    before: &'a [&'a str],
    scenarios: &'a str,
) -> Result<(), Fail> {
    for script in scenarios.split('@') {
        in_faulty(rt, &Parts { before, script })?;
    }
    Ok(())
}

/// Routes, which are made again where there is no memory at first.
pub(super) fn routes_in_the_end(alloc: Global) -> Result<Routes, AllocError> {
    match Routes::new(alloc) {
        Ok(routes) => Ok(routes),
        Err(_) => Routes::new(alloc),
    }
}
