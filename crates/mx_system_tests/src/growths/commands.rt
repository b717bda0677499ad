//! The calls of an office: each command of a script by one call, or by two.
use super::is_want;
use crate::desk::{SETTLEMENT, routes_in_the_end};
use crate::empty::{Trial, in_both, in_memory, in_tables};
use mx_book::{Book, Caller, StoreFault};
use mx_command::{Command, Refusal, Reply};
use mx_office::{Office, Outcome};
use mx_pay::Name;
use mx_wire::{Method, Routes, WireFault, render};
use std::alloc::{AllocError, Global};
use std::process::Abort;
use std::test::Fail;

/// How a command is given to an office.
#[derive(Clone, Copy, Debug)]
enum Way {
    /// `decide` alone, which changes nothing.
    Decide,
    /// `decide`, `commit` and `settle`.
    Commit,
    /// `decide`, `apply` of the book where there are edits, and `settle`.
    Apply,
    /// `answer`.
    Answer,
    /// `run`, of this command alone.
    Run,
}

/// Who gives a command, and the command.
type Asked = (Caller, Command);

/// What comes of it.
fn committed(
    alloc: Global,
    office: &mut Office<impl Book>,
    (caller, command): &Asked,
) -> Result<Reply, StoreFault> {
    let decided = office.decide(alloc, *caller, command)?;
    office.commit(&decided)?;
    Ok(decided.reply)
}

fn applied(
    alloc: Global,
    office: &mut Office<impl Book>,
    (caller, command): &Asked,
) -> Result<Reply, StoreFault> {
    let decided = office.decide(alloc, *caller, command)?;
    let edits = decided.edits.as_slice();
    if !edits.is_empty() {
        office.book.apply(edits)?;
    }
    Ok(decided.reply)
}

/// What was done, once it is settled. It is settled also where it wasn't done, so that the next command begins anew.
fn settled(
    office: &mut Office<impl Book>,
    done: Result<Reply, StoreFault>,
) -> Result<Reply, StoreFault> {
    let kept = office.settle();
    let reply = done?;
    kept?;
    Ok(reply)
}

/// What comes of a run of the command alone. A command that is given up for whatever cause counts as want of memory.
fn run_alone(
    alloc: Global,
    office: &mut Office<impl Book>,
    asked: &Asked,
) -> Result<Reply, StoreFault> {
    let Ok(mut outcomes) = office.run(alloc, &[*asked]) else {
        return Err(StoreFault::Memory);
    };
    match outcomes.pop() {
        Some(Outcome::Reply(reply)) => Ok(reply),
        Some(Outcome::Unavailable) => Err(StoreFault::Memory),
        None => Err(StoreFault::Store),
    }
}

/// The reply to a command that is given so.
fn reply_by(
    alloc: Global,
    office: &mut Office<impl Book>,
    way: Way,
    asked: &Asked,
) -> Result<Reply, StoreFault> {
    match way {
        Way::Decide => Ok(office.decide(alloc, asked.0, &asked.1)?.reply),
        Way::Commit => {
            let done = committed(alloc, office, asked);
            settled(office, done)
        }
        Way::Apply => {
            let done = applied(alloc, office, asked);
            settled(office, done)
        }
        Way::Answer => office.answer(alloc, asked.0, &asked.1),
        Way::Run => run_alone(alloc, office, asked),
    }
}

/// The caller of a word. The clerk is m's.
fn caller_of(who: &str) -> Option<Caller> {
    if who == "operator" {
        return Some(Caller::Operator);
    }
    if who == "clerk" {
        return Name::read("m").map(Caller::Clerk);
    }
    Name::read(who).map(Caller::Holder)
}

/// The command of a request, `WHO METHOD PATH BODY`.
fn read_once(alloc: Global, routes: &Routes, request: &str) -> Result<Asked, WireFault> {
    let mut words = request.splitn(4, ' ');
    let who = words.next().unwrap_or("");
    let method = Method::of(words.next().unwrap_or("").as_bytes());
    let path = words.next().unwrap_or("");
    let body = words.next().unwrap_or("");
    let caller = caller_of(who).ok_or(WireFault::NoRoute)?;
    let command = routes.read_command(alloc, method, path.as_bytes(), body.as_bytes())?;
    Ok((caller, command))
}

/// The same, read again where there is no memory at first.
fn read_in_the_end(alloc: Global, routes: &Routes, request: &str) -> Result<Asked, WireFault> {
    match read_once(alloc, routes, request) {
        Err(WireFault::Memory) => read_once(alloc, routes, request),
        read => read,
    }
}

/// Whether a reply is rendered as a response, `STATUS BODY`, with this body.
fn is_rendered(alloc: Global, reply: &Reply, response: &str) -> Result<bool, AllocError> {
    let (_, body) = response.split_once(' ').unwrap_or(("", response));
    let rendered = render(alloc, reply)?;
    Ok(rendered.text(Method::Get).ends_with(body.as_bytes()))
}

/// The same, rendered again where there is no memory at first.
fn is_usual(alloc: Global, reply: &Reply, response: &str) -> Result<bool, AllocError> {
    match is_rendered(alloc, reply, response) {
        Ok(is_usual) => Ok(is_usual),
        Err(_) => is_rendered(alloc, reply, response),
    }
}

/// The reply to a command that is given so, or given again where the first answer is a want.
fn reply_in_the_end(
    rt: &(impl Abort + AllocGlobal),
    office: &mut Office<impl Book>,
    way: Way,
    asked: &Asked,
    is_tables: bool,
) -> Result<Reply, StoreFault> {
    match reply_by(rt.alloc(), office, way, asked) {
        Ok(reply) => Ok(reply),
        Err(fault) => {
            assert!(rt; is_want(fault, is_tables), "{way:?} {fault:?}");
            reply_by(rt.alloc(), office, way, asked)
        }
    }
}

/// Asserts that each of these ways, one after the other, gives a request its response in the end.
fn assert_request(
    rt: &(impl Abort + AllocGlobal),
    office: &mut Office<impl Book>,
    given: &Given<'_>,
    asked: &Asked,
    response: &str,
) -> Result<(), Fail> {
    for way in given.ways {
        let reply = reply_in_the_end(rt, office, *way, asked, given.is_tables)?;
        assert!(rt;
            is_usual(rt.alloc(), &reply, response)?,
            "{way:?} {response}"
        );
    }
    Ok(())
}

/// Asserts so of each request of a script.
fn assert_script(
    rt: &(impl Abort + AllocGlobal),
    routes: &Routes,
    office: &mut Office<impl Book>,
    given: &Given<'_>,
    script: &str,
) -> Result<(), Fail> {
    for line in script.lines() {
        if let Some((request, response)) = line.split_once(" -> ") {
            let asked = read_in_the_end(rt.alloc(), routes, request);
            let asked = asked.ok().ok_or("no command")?;
            assert_request(rt, office, given, &asked, response)?;
        }
    }
    Ok(())
}

/// What commands are left after a settlement and a redemption, and what the books are after all.
const AFTERWARDS: &str = r#"
bob POST /purses/q1/discard {"number":0} -> 200 {"done":"discarded"}
bob POST /purses/q1/discard {"number":0} -> 404 {"error":"no such message"}
clerk POST /collect -> 200 {"collected":"30"}
clerk POST /collect -> 200 {"collected":"0"}
ann GET /purses -> 200 {"purses":["p1"]}
ann GET /purses/p1/inbox -> 200 {"messages":[{"details":"p1,q1,60,0,0","kind":"req","number":0},{"details":"p1,q1,60,0,0","kind":"clear","number":1}]}
bob GET /purses/q1/inbox -> 200 {"messages":[{"details":"q1,p1,5,1,1","kind":"req","number":1}]}
bob GET /purses/q1/statement/0 -> 200 {"lines":[{"amount":60,"balance":0,"kind":"logged","note":"p1,q1,60,0,0","number":1}]}
ann GET /purses/p1/statement/4 -> 200 {"lines":[{"amount":30,"balance":70,"kind":"redeemed","note":"r1","number":5},{"amount":5,"balance":70,"kind":"logged","note":"q1,p1,5,1,1","number":6}]}
operator GET /reconcile -> 200 {"balances":"70","float":"930","granted":"1000","issued":"100","lost":"0","redeemed":"30","transit":"0","uncollected":"0"}
"#;

/// All commands, each of which is given in these ways, one after the other.
#[derive(Drop)]
struct Given<'a> {
    ways: &'a [Way],
    is_tables: bool,
}

impl Trial for Given<'_> {
    fn try_in(
        &self,
        rt: &(impl Abort + AllocGlobal),
        office: &mut Office<impl Book>,
    ) -> Result<(), Fail> {
        let routes = routes_in_the_end(rt.alloc())?;
        for script in SETTLEMENT {
            assert_script(rt, &routes, office, self, script)?;
        }
        assert_script(rt, &routes, office, self, AFTERWARDS)
    }
}

/// Tries them over each kind of book.
fn assert_ways(rt: &(impl Abort + AllocGlobal), ways: &[Way]) -> Result<(), Fail> {
    in_memory(
        rt,
        &Given {
            ways,
            is_tables: false,
        },
    )?;
    in_tables(
        rt,
        &Given {
            ways,
            is_tables: true,
        },
    )
}

#[test]
fn decisions_with_a_growth_refused(rt: HostRuntime) -> Result<(), Fail> {
    assert_ways(&rt, &[Way::Decide, Way::Commit])
}

#[test]
fn edits_with_a_growth_refused(rt: HostRuntime) -> Result<(), Fail> {
    assert_ways(&rt, &[Way::Apply])
}

#[test]
fn answers_with_a_growth_refused(rt: HostRuntime) -> Result<(), Fail> {
    assert_ways(&rt, &[Way::Answer])
}

#[test]
fn runs_with_a_growth_refused(rt: HostRuntime) -> Result<(), Fail> {
    assert_ways(&rt, &[Way::Run])
}

/// The commands that add three members, none of which is needed for another.
fn new_members(alloc: Global, routes: &Routes) -> Result<[Asked; 3], WireFault> {
    let first =
        r#"operator POST /members {"member":"m","token":"00000000000000000000000000000002"}"#;
    let second =
        r#"operator POST /members {"member":"n","token":"00000000000000000000000000000003"}"#;
    let third =
        r#"operator POST /members {"member":"o","token":"00000000000000000000000000000004"}"#;
    Ok([
        read_in_the_end(alloc, routes, first)?,
        read_in_the_end(alloc, routes, second)?,
        read_in_the_end(alloc, routes, third)?,
    ])
}

/// What comes of a run of commands, run again where there was no memory to begin it.
fn run_in_the_end(
    alloc: Global,
    office: &mut Office<impl Book>,
    commands: &[Asked],
) -> Result<Vec<Outcome>, AllocError> {
    match office.run(alloc, commands) {
        Ok(outcomes) => Ok(outcomes),
        Err(_) => office.run(alloc, commands),
    }
}

/// Whether a member was added in one of two runs, and the other one gave its command up or found the member there.
fn is_added_once(first: &Outcome, second: &Outcome) -> bool {
    match (first, second) {
        (Outcome::Reply(Reply::Added), Outcome::Reply(Reply::Refused(Refusal::NameTaken))) => true,
        (Outcome::Reply(Reply::Added), Outcome::Unavailable) => true,
        (Outcome::Unavailable, Outcome::Reply(Reply::Added)) => true,
        _ => false,
    }
}

/// Of two runs that add three members at most one gives up one command, which the other makes, and all others stand.
#[derive(Drop)]
struct TwoRuns<'a> {
    commands: &'a [Asked],
}

impl Trial for TwoRuns<'_> {
    fn try_in(
        &self,
        rt: &(impl Abort + AllocGlobal),
        office: &mut Office<impl Book>,
    ) -> Result<(), Fail> {
        let first = run_in_the_end(rt.alloc(), office, self.commands)?;
        let second = run_in_the_end(rt.alloc(), office, self.commands)?;
        assert_eq!(rt; (first.len(), second.len()), (3, 3));
        for (place, (first, second)) in first.iter().zip(second.iter()).enumerate() {
            assert!(rt; is_added_once(first, second), "{place}");
        }
        Ok(())
    }
}

#[test]
fn a_run_of_three_with_a_growth_refused(rt: HostRuntime) -> Result<(), Fail> {
    let routes = routes_in_the_end(rt.alloc())?;
    let commands = new_members(rt.alloc(), &routes).ok().ok_or("no commands")?;
    in_both(
        &rt,
        &TwoRuns {
            commands: &commands,
        },
    )
}
