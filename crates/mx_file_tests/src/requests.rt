//! Requests over files that stop, one at a time or all of them together: what is left is what a book in memory has after the
//! requests that were answered, or after the whole next round. One at a time, that is one request more.
use crate::disks::{
    EACH, MOST_CALLS, Stopping, as_synced, as_written, have_stopped, never_stopping, stopping_after,
};
use crate::made::new_books;
use crate::offices::{Question, serve_in, shown_in, told_in_memory};
use crate::scripts::{Coming, end_of_round, length_of, serve, shown};
use mx_book::Book;
use mx_office::Office;
use mx_wire::Routes;
use sqlite::Files;
use sqlite_disk::Memory;
use std::process::Abort;
use std::test::Fail;

/// The member m, and its holders: ann with the purse p1, which is loaded with 100, and bob with q1.
pub(super) const FUNDED: &str = r#"
operator POST /members {"member":"m","token":"00000000000000000000000000000002"} -> 200 {"done":"added"}
clerk POST /holders {"holder":"ann","token":"0000000000000000000000000000000a"} -> 200 {"done":"added"}
clerk POST /holders {"holder":"bob","token":"0000000000000000000000000000000b"} -> 200 {"done":"added"}
clerk POST /purses {"purse":"p1","holder":"ann"} -> 200 {"done":"added"}
clerk POST /purses {"purse":"q1","holder":"bob"} -> 200 {"done":"added"}
operator POST /members/m/grant {"amount":1000} -> 200 {"done":"granted"}
clerk POST /purses/p1/load {"amount":100,"ref":"a1"} -> 200 {"done":"loaded"}
"#;

/// p1 pays 60 to q1, which redeems 20 of them, and m collects these.
pub(super) const PAID: &str = r#"
ann POST /purses/p1/start-from {"peer":"q1","value":60,"seq":0} -> 200 {"details":"p1,q1,60,0,0","done":"started"}
bob POST /purses/q1/start-to {"peer":"p1","value":60,"seq":0} -> 200 {"details":"p1,q1,60,0,0","done":"started"}
ann POST /purses/p1/handle {"number":0} -> 200 {"done":"value-sent"}
bob POST /purses/q1/handle {"number":0} -> 200 {"done":"received"}
ann POST /purses/p1/handle {"number":1} -> 200 {"done":"finished"}
ann POST /purses/p1/discard {"number":0} -> 200 {"done":"discarded"}
bob POST /purses/q1/redeem {"amount":20,"ref":"r1"} -> 200 {"done":"redeemed"}
clerk POST /collect -> 200 {"collected":"20"}
"#;

/// A payment of 60 is lost: both purses log it. The entries are read and archived, that of p1 is cleared, and the
/// operator settles the payment.
const SETTLED: &str = r#"
bob POST /purses/q1/start-to {"peer":"p1","value":60,"seq":0} -> 200 {"details":"p1,q1,60,0,0","done":"started"}
bob POST /purses/q1/abort -> 200 {"done":"aborted","logged":true}
ann POST /purses/p1/start-from {"peer":"q1","value":60,"seq":0} -> 200 {"details":"p1,q1,60,0,0","done":"started"}
ann POST /purses/p1/handle {"number":0} -> 200 {"done":"value-sent"}
bob POST /purses/q1/handle {"number":0} -> 200 {"done":"ignored"}
ann POST /purses/p1/read-log {"place":0} -> 200 {"done":"read","entry":"p1,q1,60,0,0"}
operator POST /archive/p1 -> 200 {"archived":1}
operator POST /clear/p1 {"details":"p1,q1,60,0,0"} -> 200 {"done":"sent"}
ann POST /purses/p1/handle {"number":1} -> 200 {"done":"cleared"}
bob POST /purses/q1/read-log {"place":0} -> 200 {"done":"read","entry":"p1,q1,60,0,0"}
operator POST /archive/q1 -> 200 {"archived":1}
operator POST /settle {"details":"p1,q1,60,0,0"} -> 200 {"done":"settled"}
operator POST /settle {"details":"p1,q1,60,0,0"} -> 409 {"error":"already settled"}
"#;

/// What the books are asked for: what they tell, and then what they answer to requests that show the other rows.
pub(super) const LOOKS: &str = r#"
operator GET /reconcile
ann GET /purses
bob GET /purses
ann GET /purses/p1
bob GET /purses/q1
ann GET /purses/p1/inbox
bob GET /purses/q1/inbox
ann GET /purses/p1/statement/0
bob GET /purses/q1/statement/0
operator POST /settle {"details":"p1,q1,60,0,0"}
operator POST /archive/p1
operator POST /archive/q1
operator POST /clear/p1 {"details":"p1,q1,60,0,0"}
operator POST /clear/q1 {"details":"p1,q1,60,0,0"}
clerk POST /purses/p1/load {"amount":100,"ref":"a1"}
bob POST /purses/q1/redeem {"amount":20,"ref":"r1"}
clerk POST /collect
operator GET /reconcile
"#;

/// A script and how its requests come, files with the books before it, and what a book in memory shows after each number of
/// its requests.
#[derive(Drop)]
struct Case {
    script: &'static str,
    coming: Coming,
    files: Files<Memory>,
    shows: Vec<String>,
}

/// A script and the first requests of another, after which what books show is told.
#[derive(Drop)]
struct ShownAfter<'a> {
    routes: &'a Routes,
    before: &'a str,
    script: &'a str,
    count: usize,
}

impl Question for ShownAfter<'_> {
    type Told = String;

    fn ask(
        &self,
        rt: &(impl Abort + AllocGlobal),
        office: &mut Office<impl Book>,
    ) -> Option<String> {
        serve(rt, self.routes, office, self.before, usize::MAX)?;
        serve(rt, self.routes, office, self.script, self.count)?;
        shown(rt.alloc(), self.routes, office, LOOKS)
    }
}

/// What a book in memory shows after a script and each number of requests of another.
fn shows_of(
    rt: &(impl Abort + AllocGlobal),
    routes: &Routes,
    before: &str,
    script: &str,
) -> Option<Vec<String>> {
    let mut shows = Vec::new(rt.alloc());
    for count in 0..=length_of(script) {
        let question = ShownAfter {
            routes,
            before,
            script,
            count,
        };
        shows.push(told_in_memory(rt, &question)?).ok()?;
    }
    Some(shows)
}

/// Files with the books that a script leaves.
fn books_after(
    rt: &(impl Abort + AllocGlobal),
    routes: &Routes,
    before: &str,
) -> Option<Files<Memory>> {
    let alloc = rt.alloc();
    let disks = never_stopping(alloc, &new_books(rt)?).ok()?;
    let ended = serve_in(rt, routes, disks, before, Coming::Together);
    assert_eq!(rt; ended.done.flatten(), Some(length_of(before)));
    as_written(alloc, &ended.files).ok()
}

/// Whether a text is what is shown after so many requests.
fn is_shown(case: &Case, count: usize, text: &str) -> bool {
    match case.shows.get(count) {
        Some(shown) => shown.as_str() == text,
        None => false,
    }
}

/// How many requests are answered when the next round ends, behind a round that ended after so many.
fn next_end(case: &Case, count: usize) -> usize {
    match case.coming {
        Coming::Alone => count.saturating_add(1),
        Coming::Together => end_of_round(case.script, count),
    }
}

/// Whether a round ends after so many requests, or the first begins.
fn is_end(case: &Case, count: usize) -> bool {
    count == 0 || next_end(case, count.saturating_sub(1)) == count
}

/// Asserts that what a stop left shows what is shown after so many requests, or after the whole next round.
fn assert_left(
    rt: &(impl Abort + AllocGlobal),
    routes: &Routes,
    case: &Case,
    left: &Files<Memory>,
    count: usize,
) -> Result<(), Fail> {
    let alloc = rt.alloc();
    let ended = shown_in(rt, routes, never_stopping(alloc, left)?, LOOKS);
    let text = ended.done.flatten().ok_or("not opened")?;
    let found = is_shown(case, count, text.as_str())
        || is_shown(case, next_end(case, count), text.as_str());
    assert!(rt; found, "after {count}: {text}");
    Ok(())
}

/// Serves the script over copies of the files, of which one stops after so many calls, and asserts that whole rounds were
/// answered, and what is left. Gives whether it stopped.
fn assert_stop(
    rt: &(impl Abort + AllocGlobal),
    routes: &Routes,
    case: &Case,
    which: Stopping,
    calls: u64,
) -> Result<bool, Fail> {
    let alloc = rt.alloc();
    let disks = stopping_after(alloc, &case.files, which, calls)?;
    let mut ended = serve_in(rt, routes, disks, case.script, case.coming);
    let count = match ended.done {
        Some(count) => count.ok_or("not served")?,
        None => 0,
    };
    let stopped = have_stopped(&mut ended.files);
    assert!(rt; stopped || count == length_of(case.script));
    assert!(rt; is_end(case, count), "{count} answered");
    let written = as_written(alloc, &ended.files)?;
    assert_left(rt, routes, case, &written, count)?;
    let synced = as_synced(alloc, &mut ended.files)?;
    assert_left(rt, routes, case, &synced, count)?;
    Ok(stopped)
}

/// Asserts it of a stop at each call in turn.
fn assert_each_stop(
    rt: &(impl Abort + AllocGlobal),
    routes: &Routes,
    case: &Case,
    which: Stopping,
) -> Result<(), Fail> {
    for calls in 0..MOST_CALLS {
        if !assert_stop(rt, routes, case, which, calls)? {
            return Ok(());
        }
    }
    Err("there are more calls")?
}

/// Asserts it of a script that follows another.
fn assert_stops(
    rt: &(impl Abort + AllocGlobal),
    before: &str,
    script: &'static str,
    coming: Coming,
) -> Result<(), Fail> {
    let routes = Routes::new(rt.alloc())?;
    let case = Case {
        script,
        coming,
        files: books_after(rt, &routes, before).ok_or("no files")?,
        shows: shows_of(rt, &routes, before, script).ok_or("no memory")?,
    };
    for which in EACH {
        assert_each_stop(rt, &routes, &case, which)?;
    }
    Ok(())
}

#[test]
fn stops_of_a_set_up(rt: HostRuntime) -> Result<(), Fail> {
    assert_stops(&rt, "", FUNDED, Coming::Alone)
}

#[test]
fn stops_of_a_payment(rt: HostRuntime) -> Result<(), Fail> {
    assert_stops(&rt, FUNDED, PAID, Coming::Alone)
}

#[test]
fn stops_of_a_settlement(rt: HostRuntime) -> Result<(), Fail> {
    assert_stops(&rt, FUNDED, SETTLED, Coming::Alone)
}

/// A set-up is four rounds: behind each of the first three a token is made.
#[test]
fn stops_of_a_set_up_in_rounds(rt: HostRuntime) -> Result<(), Fail> {
    assert_stops(&rt, "", FUNDED, Coming::Together)
}

#[test]
fn stops_of_a_payment_in_one_round(rt: HostRuntime) -> Result<(), Fail> {
    assert_stops(&rt, FUNDED, PAID, Coming::Together)
}

#[test]
fn stops_of_a_settlement_in_one_round(rt: HostRuntime) -> Result<(), Fail> {
    assert_stops(&rt, FUNDED, SETTLED, Coming::Together)
}
