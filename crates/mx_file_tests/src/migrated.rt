//! Books of version 1 of the schema, in which p1 paid 60 to q1, are brought to version 2 over files that stop.
use crate::disks::{
    Deed, Disks, EACH, Ended, MOST_CALLS, Stopping, as_synced, as_written, done_in, empty_files,
    have_stopped, never_stopping, once_more, stopping_after,
};
use crate::offices::serve_in;
use crate::scripts::{Coming, length_of};
use mx_audit::Ordered;
use mx_tables::{Migrated, OpenFault, migrate};
use mx_wire::Routes;
use sqlite::{Alter, Connection, Error, Files};
use sqlite_disk::Memory;
use std::process::Abort;
use std::test::Fail;

/// The tables of version 1, its row of `meta`, and the rows that the payment leaves.
const VERSION_1: [&str; 28] = [
    "CREATE TABLE meta (id INTEGER PRIMARY KEY, version INTEGER NOT NULL) STRICT",
    "CREATE TABLE member (name TEXT NOT NULL PRIMARY KEY, granted INTEGER NOT NULL, unspent INTEGER NOT NULL) STRICT",
    "CREATE TABLE token (token TEXT NOT NULL PRIMARY KEY, kind TEXT NOT NULL, name TEXT NOT NULL, UNIQUE (kind, name)) STRICT",
    "CREATE TABLE holder (name TEXT NOT NULL PRIMARY KEY, member TEXT NOT NULL REFERENCES member (name)) STRICT",
    "CREATE TABLE purse (name TEXT NOT NULL PRIMARY KEY, holder TEXT NOT NULL REFERENCES holder (name), balance INTEGER NOT NULL, next_number INTEGER NOT NULL, status TEXT NOT NULL, details TEXT NOT NULL, log TEXT NOT NULL, line_count INTEGER NOT NULL, next_message INTEGER NOT NULL) STRICT",
    "CREATE TABLE inbox (purse TEXT NOT NULL, number INTEGER NOT NULL, kind TEXT NOT NULL, details TEXT NOT NULL, PRIMARY KEY (purse, number)) STRICT",
    "CREATE TABLE line (purse TEXT NOT NULL, number INTEGER NOT NULL, kind TEXT NOT NULL, amount INTEGER NOT NULL, balance INTEGER NOT NULL, note TEXT NOT NULL, PRIMARY KEY (purse, number)) STRICT",
    "CREATE TABLE tray (purse TEXT NOT NULL, details TEXT NOT NULL, PRIMARY KEY (purse, details)) STRICT",
    "CREATE TABLE archive (purse TEXT NOT NULL, details TEXT NOT NULL, PRIMARY KEY (purse, details)) STRICT",
    "CREATE TABLE load (purse TEXT NOT NULL, reference TEXT NOT NULL, amount INTEGER NOT NULL, PRIMARY KEY (purse, reference)) STRICT",
    "CREATE TABLE redemption (purse TEXT NOT NULL, reference TEXT NOT NULL, amount INTEGER NOT NULL, collected INTEGER NOT NULL, PRIMARY KEY (purse, reference)) STRICT",
    "INSERT INTO meta (id, version) VALUES (1, 1)",
    "INSERT INTO member (name, granted, unspent) VALUES ('m', 1000, 900)",
    "INSERT INTO token (token, kind, name) VALUES ('00000000000000000000000000000001', 'operator', '')",
    "INSERT INTO token (token, kind, name) VALUES ('00000000000000000000000000000002', 'clerk', 'm')",
    "INSERT INTO token (token, kind, name) VALUES ('0000000000000000000000000000000a', 'holder', 'ann')",
    "INSERT INTO token (token, kind, name) VALUES ('0000000000000000000000000000000b', 'holder', 'bob')",
    "INSERT INTO holder (name, member) VALUES ('ann', 'm')",
    "INSERT INTO holder (name, member) VALUES ('bob', 'm')",
    "INSERT INTO purse (name, holder, balance, next_number, status, details, log, line_count, next_message) VALUES ('p1', 'ann', 40, 1, 'eaFrom', '', '', 2, 2)",
    "INSERT INTO purse (name, holder, balance, next_number, status, details, log, line_count, next_message) VALUES ('q1', 'bob', 60, 1, 'eaTo', '', '', 1, 1)",
    "INSERT INTO inbox (purse, number, kind, details) VALUES ('p1', 0, 'req', 'p1,q1,60,0,0')",
    "INSERT INTO inbox (purse, number, kind, details) VALUES ('q1', 0, 'val', 'p1,q1,60,0,0')",
    "INSERT INTO inbox (purse, number, kind, details) VALUES ('p1', 1, 'ack', 'p1,q1,60,0,0')",
    "INSERT INTO line (purse, number, kind, amount, balance, note) VALUES ('p1', 1, 'loaded', 100, 100, 'a1')",
    "INSERT INTO line (purse, number, kind, amount, balance, note) VALUES ('p1', 2, 'sent', 60, 40, 'p1,q1,60,0,0')",
    "INSERT INTO line (purse, number, kind, amount, balance, note) VALUES ('q1', 1, 'received', 60, 60, 'p1,q1,60,0,0')",
    "INSERT INTO load (purse, reference, amount) VALUES ('p1', 'a1', 100)",
];

/// What the books say, before and after.
const KEPT: &str = r#"
ann GET /purses/p1 -> 200 {"balance":40,"next":1,"purse":"p1","status":"eaFrom"}
bob GET /purses/q1 -> 200 {"balance":60,"next":1,"purse":"q1","status":"eaTo"}
operator GET /reconcile -> 200 {"balances":"100","float":"900","granted":"1000","issued":"100","lost":"0","redeemed":"0","transit":"0","uncollected":"0"}
ann GET /purses/p1/statement/0 -> 200 {"lines":[{"amount":100,"balance":100,"kind":"loaded","note":"a1","number":1},{"amount":60,"balance":40,"kind":"sent","note":"p1,q1,60,0,0","number":2}]}
bob GET /purses/q1/inbox -> 200 {"messages":[{"details":"p1,q1,60,0,0","kind":"val","number":0}]}
operator POST /settle {"details":"p1,q1,60,0,0"} -> 409 {"error":"not lost"}
ann POST /purses/p1/discard {"number":1} -> 200 {"done":"discarded"}
"#;

/// Runs the statements of version 1.
fn run_version_1(conn: &mut Connection<impl Alter>) -> Result<(), Error> {
    for text in &VERSION_1 {
        conn.execute(text, &[])?;
    }
    Ok(())
}

/// Books of version 1.
#[derive(Drop)]
struct VersionOne;

impl Deed for VersionOne {
    type Done = ();

    fn act<S: Ordered + Drop>(
        &self,
        _rt: &(impl Abort + AllocGlobal),
        mut conn: Connection<S>,
    ) -> (Option<()>, Connection<S>) {
        let made = run_version_1(&mut conn);
        (made.ok(), conn)
    }
}

/// Files of version 1.
fn of_version_1(rt: &(impl Abort + AllocGlobal)) -> Option<Files<Memory>> {
    let alloc = rt.alloc();
    let disks = never_stopping(alloc, &empty_files(alloc)).ok()?;
    let ended = done_in(rt, disks, &VersionOne);
    ended.done?;
    as_written(alloc, &ended.files).ok()
}

/// What brings books to version 2, and gives what it answers.
#[derive(Drop)]
struct Migration;

impl Deed for Migration {
    type Done = Result<Migrated, OpenFault>;

    fn act<S: Ordered + Drop>(
        &self,
        rt: &(impl Abort + AllocGlobal),
        mut conn: Connection<S>,
    ) -> (Option<Self::Done>, Connection<S>) {
        let answer = migrate(rt.alloc(), &mut conn);
        (Some(answer), conn)
    }
}

/// Brings files to version 2.
fn migrate_in(rt: &(impl Abort + AllocGlobal), disks: Disks) -> Ended<Result<Migrated, OpenFault>> {
    done_in(rt, disks, &Migration)
}

/// Asserts that what a stop left is brought to version 2, or has it already, which it has where that was answered; and
/// that the books say then what they said.
fn assert_left(
    rt: &(impl Abort + AllocGlobal),
    routes: &Routes,
    left: &Files<Memory>,
    answered: bool,
) -> Result<(), Fail> {
    let alloc = rt.alloc();
    let ended = migrate_in(rt, never_stopping(alloc, left)?);
    let already = ended.done == Some(Ok(Migrated::Already));
    assert!(rt; already || !answered && ended.done == Some(Ok(Migrated::Done)));
    let told = serve_in(rt, routes, once_more(ended.files), KEPT, Coming::Alone);
    assert_eq!(rt; told.done.flatten(), Some(length_of(KEPT)));
    Ok(())
}

/// Brings copies of files to version 2, of which one stops after so many calls, and asserts what is left. Gives whether
/// it stopped.
fn assert_stop(
    rt: &(impl Abort + AllocGlobal),
    routes: &Routes,
    files: &Files<Memory>,
    which: Stopping,
    calls: u64,
) -> Result<bool, Fail> {
    let alloc = rt.alloc();
    let mut ended = migrate_in(rt, stopping_after(alloc, files, which, calls)?);
    let answered = ended.done == Some(Ok(Migrated::Done));
    let stopped = have_stopped(&mut ended.files);
    assert!(rt; stopped || answered);
    let written = as_written(alloc, &ended.files)?;
    assert_left(rt, routes, &written, answered)?;
    let synced = as_synced(alloc, &mut ended.files)?;
    assert_left(rt, routes, &synced, answered)?;
    Ok(stopped)
}

/// Asserts it of a stop at each call in turn.
fn assert_each_stop(
    rt: &(impl Abort + AllocGlobal),
    routes: &Routes,
    files: &Files<Memory>,
    which: Stopping,
) -> Result<(), Fail> {
    for calls in 0..MOST_CALLS {
        if !assert_stop(rt, routes, files, which, calls)? {
            return Ok(());
        }
    }
    Err("there are more calls")?
}

#[test]
fn stops_of_a_migration(rt: HostRuntime) -> Result<(), Fail> {
    let routes = Routes::new(rt.alloc())?;
    let files = of_version_1(&rt).ok_or("not made")?;
    for which in EACH {
        assert_each_stop(&rt, &routes, &files, which)?;
    }
    Ok(())
}

/// What `migrate` answers over copies of files, and what it leaves. None where there is no memory for the files.
fn outcome_of(
    rt: &(impl Abort + AllocGlobal),
    files: &Files<Memory>,
) -> Option<(Result<Migrated, OpenFault>, Files<Memory>)> {
    let alloc = rt.alloc();
    let mut ended = migrate_in(rt, never_stopping(alloc, files).ok()?);
    let left = as_synced(alloc, &mut ended.files).ok()?;
    Some((ended.done?, left))
}

/// The same, tried again where there is no memory for the files at first.
fn outcome_in_the_end(
    rt: &(impl Abort + AllocGlobal),
    files: &Files<Memory>,
) -> Option<(Result<Migrated, OpenFault>, Files<Memory>)> {
    match outcome_of(rt, files) {
        Some(both) => Some(both),
        None => outcome_of(rt, files),
    }
}

/// The same, tried again where the answer is a fault at first.
fn answer_in_the_end(
    rt: &(impl Abort + AllocGlobal),
    files: &Files<Memory>,
) -> Option<(Result<Migrated, OpenFault>, Files<Memory>)> {
    match outcome_of(rt, files) {
        Some((Ok(migrated), left)) => Some((Ok(migrated), left)),
        _ => outcome_of(rt, files),
    }
}

/// Whether the books in files say what they said.
fn are_kept(
    rt: &(impl Abort + AllocGlobal),
    routes: &Routes,
    files: &Files<Memory>,
) -> Option<bool> {
    let disks = never_stopping(rt.alloc(), files).ok()?;
    let ended = serve_in(rt, routes, disks, KEPT, Coming::Alone);
    Some(ended.done.flatten()? == length_of(KEPT))
}

/// Asserts that files of version 1 are brought to version 2, or are as they were where the answer is a fault.
fn assert_migrated(
    rt: &(impl Abort + AllocGlobal),
    routes: &Routes,
    files: &Files<Memory>,
) -> Result<(), Fail> {
    let (first, left) = outcome_in_the_end(rt, files).ok_or("no memory")?;
    let expected = match first {
        Ok(Migrated::Done) => Migrated::Already,
        Err(OpenFault::Memory | OpenFault::Store) => Migrated::Done,
        _ => return Err("another answer")?,
    };
    let (second, left) = answer_in_the_end(rt, &left).ok_or("no memory")?;
    assert_eq!(rt; second, Ok(expected));
    let kept = are_kept(rt, routes, &left) == Some(true);
    assert!(rt; kept || are_kept(rt, routes, &left) == Some(true));
    Ok(())
}

/// With every growth granted this says that a migration is done once. Run with one growth refused, it says that a
/// migration that answers a fault leaves version 1.
#[test]
fn migration_with_a_growth_refused(rt: HostRuntime) -> Result<(), Fail> {
    let Ok(routes) = Routes::new(rt.alloc()) else {
        return Ok(());
    };
    let files = match of_version_1(&rt) {
        Some(files) => files,
        None => of_version_1(&rt).ok_or("not made")?,
    };
    assert_migrated(&rt, &routes, &files)
}
