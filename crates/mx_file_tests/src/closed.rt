//! Two lives over the books in files, from files with nothing in them, where the files are closed in the end: each request of
//! both got its response, and what the bytes of the files show then, and those of the database file alone, is what a book in
//! memory has after all of them.
use crate::disks::{empty_files, never_stopping};
use crate::lives::{TwoLives, two_lives};
use crate::offices::{operator, shown_in};
use crate::requests::{FUNDED, LOOKS, PAID};
use crate::scripts::{length_of, responses_of, told_in};
use mx_lives::{Life, closed_lives, new_files, stopped_lives};
use mx_wire::Routes;
use sqlite::{Files, Options};
use sqlite_disk::{Crash, Disk, Memory};
use std::alloc::Global;
use std::process::Abort;
use std::test::Fail;

/// The seed of the log's salts.
const SEED: u64 = 7;

/// The files of new books, closed.
fn made<D: Disk + Drop>(alloc: Global, empty: Files<D>) -> Option<Files<D>> {
    new_files(alloc, empty, Options::new(SEED), operator()?)
}

/// Files with nothing in them after both lives, each of which ends with a close.
fn after_closes<D: Disk + Drop>(
    alloc: Global,
    empty: Files<D>,
    case: &TwoLives,
) -> Option<(Files<D>, Vec<Life>)> {
    let [first, second] = &case.inputs;
    let inputs = [first.as_bytes(), second.as_bytes()];
    closed_lives(alloc, made(alloc, empty)?, Options::new(SEED), &inputs)
}

/// The same, where each life ends with a stop.
fn after_stops<D: Crash + Drop>(
    alloc: Global,
    empty: Files<D>,
    case: &TwoLives,
) -> Option<(Files<D>, Vec<Life>)> {
    let [first, second] = &case.inputs;
    let inputs = [first.as_bytes(), second.as_bytes()];
    stopped_lives(alloc, made(alloc, empty)?, Options::new(SEED), &inputs)
}

/// What the books in files show.
fn shown_of(
    rt: &(impl Abort + AllocGlobal),
    routes: &Routes,
    files: &Files<Memory>,
) -> Option<String> {
    let disks = never_stopping(rt.alloc(), files).ok()?;
    shown_in(rt, routes, disks, LOOKS).done.flatten()
}

/// Asserts that a life answered each request of a script as that has it.
pub(super) fn assert_answered(rt: &(impl Abort + AllocGlobal), life: Option<&Life>, script: &str) {
    let Some(life) = life else {
        assert!(rt; false);
        return;
    };
    assert!(rt; life.ended == Ok(length_of(script) as u64));
    let told = told_in(rt.alloc(), life.written.as_slice());
    assert!(rt; told.is_some());
    assert!(rt; told == responses_of(rt.alloc(), script));
}

/// Asserts what both lives answered, what both files show, and what the database file shows with an empty log.
fn assert_shown(
    rt: &(impl Abort + AllocGlobal),
    routes: &Routes,
    case: &TwoLives,
    (left, lives): (Files<Memory>, Vec<Life>),
) {
    assert_answered(rt, lives.as_slice().first(), FUNDED);
    assert_answered(rt, lives.as_slice().get(1), PAID);
    let alloc = rt.alloc();
    let whole = case.looks.as_slice().last();
    assert!(rt; whole.is_some());
    assert!(rt; shown_of(rt, routes, &left).as_ref() == whole);
    let alone = Files {
        log: Memory::new(alloc),
        db: left.db,
    };
    assert!(rt; shown_of(rt, routes, &alone).as_ref() == whole);
}

#[test]
fn lives_that_end_with_a_close(rt: HostRuntime) -> Result<(), Fail> {
    let routes = Routes::new(rt.alloc())?;
    let case = two_lives(&rt, &routes).ok_or("no memory")?;
    let end = after_closes(rt.alloc(), empty_files(rt.alloc()), &case).ok_or("not closed")?;
    assert_shown(&rt, &routes, &case, end);
    Ok(())
}

#[test]
fn lives_that_end_with_a_stop(rt: HostRuntime) -> Result<(), Fail> {
    let routes = Routes::new(rt.alloc())?;
    let case = two_lives(&rt, &routes).ok_or("no memory")?;
    let end = after_stops(rt.alloc(), empty_files(rt.alloc()), &case).ok_or("not closed")?;
    assert_shown(&rt, &routes, &case, end);
    Ok(())
}
