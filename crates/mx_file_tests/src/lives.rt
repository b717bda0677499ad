//! Two lives over the same files: a file stops in the first life, and the second goes on with what a book in memory has after
//! the requests that the first answered, or after the whole next round.
use crate::disks::{
    Disks, EACH, MOST_CALLS, Stopping, as_written, connected, files_of, have_stopped,
    never_stopping, stopping_after,
};
use crate::made::new_books;
use crate::offices::{Question, serve_in, shown_in, told_in_memory};
use crate::requests::{FUNDED, LOOKS, PAID};
use crate::scripts::{Coming, end_of_round, input_of, length_of, serve, shown, told_through};
use mx_book::Book;
use mx_lives::live_on;
use mx_office::Office;
use mx_wire::Routes;
use sqlite::Files;
use sqlite_disk::{Crash, Memory};
use std::alloc::Global;
use std::process::Abort;
use std::test::Fail;

/// The inputs of two lives, the files of new books before them, and what a book in memory shows after each number of requests
/// of the first and all of the second.
#[derive(Drop)]
pub(super) struct TwoLives {
    pub(super) inputs: [String; 2],
    before: Files<Memory>,
    pub(super) looks: Vec<String>,
}

/// The first requests of the first life and all of the second, after which what books show is told.
#[derive(Drop)]
struct LookAfter<'a> {
    routes: &'a Routes,
    count: usize,
    second: &'a str,
}

impl Question for LookAfter<'_> {
    type Told = String;

    fn ask(
        &self,
        rt: &(impl Abort + AllocGlobal),
        office: &mut Office<impl Book>,
    ) -> Option<String> {
        serve(rt, self.routes, office, FUNDED, self.count)?;
        told_through(rt.alloc(), self.routes, office, self.second)?;
        shown(rt.alloc(), self.routes, office, LOOKS)
    }
}

/// What a book in memory shows after each number of requests of the first life, and then the second.
fn looks_after(
    rt: &(impl Abort + AllocGlobal),
    routes: &Routes,
    second: &str,
) -> Option<Vec<String>> {
    let mut looks = Vec::new(rt.alloc());
    for count in 0..=length_of(FUNDED) {
        let question = LookAfter {
            routes,
            count,
            second,
        };
        looks.push(told_in_memory(rt, &question)?).ok()?;
    }
    Some(looks)
}

/// A set-up, and then a payment.
pub(super) fn two_lives(rt: &(impl Abort + AllocGlobal), routes: &Routes) -> Option<TwoLives> {
    let alloc = rt.alloc();
    let second = input_of(alloc, PAID)?;
    let looks = looks_after(rt, routes, second.as_str())?;
    Some(TwoLives {
        inputs: [input_of(alloc, FUNDED)?, second],
        before: new_books(rt)?,
        looks,
    })
}

/// The files that both lives have left. None where they couldn't be opened.
fn lived_in<D: Crash + Drop>(
    alloc: Global,
    files: Files<D>,
    frames: usize,
    case: &TwoLives,
) -> Option<Files<D>> {
    let store = connected(alloc, files, frames).ok()?;
    let [first, second] = &case.inputs;
    let (end, _) = live_on(alloc, store, &[first.as_bytes(), second.as_bytes()])?;
    Some(files_of(end))
}

/// What the books in files show that both lives have left. None where they couldn't be opened.
fn lived_through(
    rt: &(impl Abort + AllocGlobal),
    routes: &Routes,
    case: &TwoLives,
    disks: Disks,
) -> Option<String> {
    let alloc = rt.alloc();
    let files = lived_in(alloc, disks.files, disks.frames, case)?;
    let left = as_written(alloc, &files).ok()?;
    let ended = shown_in(rt, routes, never_stopping(alloc, &left).ok()?, LOOKS);
    ended.done.flatten()
}

/// Lives both lives over copies of the files, of which one stops after so many calls, and asserts what is left: what is shown
/// after the requests that the first answers before that stop, or after the whole next round. These are counted where the first
/// is lived alone. Gives whether it stopped in the first.
fn assert_lived(
    rt: &(impl Abort + AllocGlobal),
    routes: &Routes,
    case: &TwoLives,
    which: Stopping,
    calls: u64,
) -> Result<bool, Fail> {
    let alloc = rt.alloc();
    let disks = stopping_after(alloc, &case.before, which, calls)?;
    let mut first = serve_in(rt, routes, disks, FUNDED, Coming::Together);
    let disks = stopping_after(alloc, &case.before, which, calls)?;
    let left = lived_through(rt, routes, case, disks);
    match first.done {
        Some(count) => {
            let count = count.ok_or("not served")?;
            let text = left.ok_or("not opened")?;
            let found = case.looks.get(count) == Some(&text)
                || case.looks.get(end_of_round(FUNDED, count)) == Some(&text);
            assert!(rt; found, "after {count}: {text}");
        }
        None => assert!(rt; left.is_none()),
    }
    Ok(have_stopped(&mut first.files))
}

/// Asserts it of a stop at each call in turn, up to one that never comes.
fn assert_each_life(
    rt: &(impl Abort + AllocGlobal),
    routes: &Routes,
    case: &TwoLives,
    which: Stopping,
) -> Result<(), Fail> {
    for calls in 0..MOST_CALLS {
        if !assert_lived(rt, routes, case, which, calls)? {
            return Ok(());
        }
    }
    Err("there are more calls")?
}

#[test]
fn stops_between_two_lives(rt: HostRuntime) -> Result<(), Fail> {
    let routes = Routes::new(rt.alloc())?;
    let case = two_lives(&rt, &routes).ok_or("no memory")?;
    for which in EACH {
        assert_each_life(&rt, &routes, &case, which)?;
    }
    Ok(())
}
