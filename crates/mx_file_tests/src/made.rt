//! Tables that are made in new files, which stop.
use crate::disks::{
    Deed, EACH, MOST_CALLS, Stopping, as_synced, as_written, done_in, empty_files, have_stopped,
    never_stopping, once_more, stopping_after,
};
use crate::offices::{operator, serve_in};
use crate::scripts::{Coming, length_of};
use mx_audit::Ordered;
use mx_pay::Token;
use mx_tables::{OpenFault, Tables};
use mx_wire::Routes;
use sqlite::{Alter, Connection, Files};
use sqlite_disk::Memory;
use std::alloc::Global;
use std::process::Abort;
use std::test::Fail;

/// How books came to be in files.
#[derive(Clone, Copy, Debug, PartialEq, Eq)]
enum Found {
    /// They were there.
    There,
    /// They weren't, and were made.
    Made,
}

/// Makes books over a connection.
fn make<S: Alter + Drop>(
    alloc: Global,
    conn: Connection<S>,
    operator: Token,
) -> (Option<Found>, Connection<S>) {
    match Tables::create(alloc, conn, operator) {
        Ok(book) => (Some(Found::Made), book.into_store()),
        Err(refused) => (None, refused.store),
    }
}

/// New books with this token of the operator.
#[derive(Drop)]
struct Created(Token);

impl Deed for Created {
    type Done = Found;

    fn act<S: Ordered + Drop>(
        &self,
        rt: &(impl Abort + AllocGlobal),
        conn: Connection<S>,
    ) -> (Option<Found>, Connection<S>) {
        make(rt.alloc(), conn, self.0)
    }
}

/// The books that are there, or new ones with this token of the operator where there are none.
#[derive(Drop)]
struct OpenedOrCreated(Token);

impl Deed for OpenedOrCreated {
    type Done = Found;

    fn act<S: Ordered + Drop>(
        &self,
        rt: &(impl Abort + AllocGlobal),
        conn: Connection<S>,
    ) -> (Option<Found>, Connection<S>) {
        match Tables::open(rt.alloc(), conn) {
            Ok(book) => (Some(Found::There), book.into_store()),
            Err(refused) => match refused.fault {
                OpenFault::NotThisSchema => make(rt.alloc(), refused.store, self.0),
                _ => (None, refused.store),
            },
        }
    }
}

/// New books in files that never stop.
pub(super) fn new_books(rt: &(impl Abort + AllocGlobal)) -> Option<Files<Memory>> {
    let alloc = rt.alloc();
    let disks = never_stopping(alloc, &empty_files(alloc)).ok()?;
    let ended = done_in(rt, disks, &Created(operator()?));
    ended.done?;
    as_written(alloc, &ended.files).ok()
}

/// New books have nothing but the operator's token, and take a member.
const NEW: &str = r#"
operator GET /reconcile -> 200 {"balances":"0","float":"0","granted":"0","issued":"0","lost":"0","redeemed":"0","transit":"0","uncollected":"0"}
operator POST /members/m/grant {"amount":1000} -> 404 {"error":"no such member"}
operator POST /settle {"details":"p1,q1,60,0,0"} -> 409 {"error":"not lost"}
clerk POST /collect -> 403 {"error":"token not known"}
operator POST /members {"member":"m","token":"00000000000000000000000000000002"} -> 200 {"done":"added"}
clerk POST /collect -> 200 {"collected":"0"}
"#;

/// Asserts that what a stop left has new books, or takes them where they weren't answered to be there.
fn assert_left(
    rt: &(impl Abort + AllocGlobal),
    routes: &Routes,
    left: &Files<Memory>,
    answered: Option<Found>,
) -> Result<(), Fail> {
    let alloc = rt.alloc();
    let operator = operator().ok_or("no token")?;
    let ended = done_in(rt, never_stopping(alloc, left)?, &OpenedOrCreated(operator));
    assert!(rt; ended.done.is_some());
    assert!(rt; answered.is_none() || ended.done == Some(Found::There));
    let told = serve_in(rt, routes, once_more(ended.files), NEW, Coming::Alone);
    assert_eq!(rt; told.done.flatten(), Some(length_of(NEW)));
    Ok(())
}

/// Makes books in new files of which one stops after so many calls, and asserts what is left. Gives whether it stopped.
fn assert_stop(
    rt: &(impl Abort + AllocGlobal),
    routes: &Routes,
    which: Stopping,
    calls: u64,
) -> Result<bool, Fail> {
    let alloc = rt.alloc();
    let disks = stopping_after(alloc, &empty_files(alloc), which, calls)?;
    let operator = operator().ok_or("no token")?;
    let mut ended = done_in(rt, disks, &Created(operator));
    let stopped = have_stopped(&mut ended.files);
    assert!(rt; stopped || ended.done.is_some());
    let written = as_written(alloc, &ended.files)?;
    assert_left(rt, routes, &written, ended.done)?;
    let synced = as_synced(alloc, &mut ended.files)?;
    assert_left(rt, routes, &synced, ended.done)?;
    Ok(stopped)
}

/// Asserts it of a stop at each call in turn.
fn assert_each_stop(
    rt: &(impl Abort + AllocGlobal),
    routes: &Routes,
    which: Stopping,
) -> Result<(), Fail> {
    for calls in 0..MOST_CALLS {
        if !assert_stop(rt, routes, which, calls)? {
            return Ok(());
        }
    }
    Err("there are more calls")?
}

#[test]
fn stops_while_books_are_made(rt: HostRuntime) -> Result<(), Fail> {
    let routes = Routes::new(rt.alloc())?;
    for which in EACH {
        assert_each_stop(&rt, &routes, which)?;
    }
    Ok(())
}
