//! Offices over files, and over a book in memory, and what is asked of them.
use crate::disks::{Deed, Disks, Ended, done_in};
use crate::scripts::{Coming, serve, serve_together, shown};
use mx_audit::{Ordered, open};
use mx_book::Book;
use mx_memory::new_book;
use mx_office::Office;
use mx_pay::Token;
use mx_wire::Routes;
use sqlite::Connection;
use std::process::Abort;

/// The operator's token: zeros and a 1.
pub(super) fn operator() -> Option<Token> {
    Token::read("00000000000000000000000000000001")
}

/// What is asked of an office. It is proved once for a book of any kind.
pub(super) trait Question {
    /// What is told.
    type Told: Drop;

    /// Asks it. None where there is no memory for what is told.
    fn ask(
        &self,
        rt: &(impl Abort + AllocGlobal),
        office: &mut Office<impl Book>,
    ) -> Option<Self::Told>;
}

/// What an office over a book tells.
fn told_by<Q: Question>(
    rt: &(impl Abort + AllocGlobal),
    book: impl Book + Drop,
    question: &Q,
) -> Option<Q::Told> {
    let mut office = Office::new(book);
    question.ask(rt, &mut office)
}

/// What an office over a new book in memory tells.
pub(super) fn told_in_memory<Q: Question>(
    rt: &(impl Abort + AllocGlobal),
    question: &Q,
) -> Option<Q::Told> {
    told_by(rt, new_book(rt.alloc(), operator()?), question)
}

/// What is asked of an office over the books that are there, if these can be opened.
#[derive(Drop)]
struct InOffice<'a, Q>(&'a Q);

impl<Q: Question> Deed for InOffice<'_, Q> {
    type Done = Option<Q::Told>;

    fn act<S: Ordered + Drop>(
        &self,
        rt: &(impl Abort + AllocGlobal),
        conn: Connection<S>,
    ) -> (Option<Self::Done>, Connection<S>) {
        match open(rt.alloc(), conn, 0) {
            Ok((book, _)) => {
                let mut office = Office::new(book);
                let told = self.0.ask(rt, &mut office);
                (Some(told), office.into_book().into_inner().into_store())
            }
            Err(refused) => (None, refused.store),
        }
    }
}

/// A script that is served up to the first request that is given up. Tells how many were answered.
#[derive(Drop)]
struct Script<'a> {
    routes: &'a Routes,
    script: &'a str,
    coming: Coming,
}

impl Question for Script<'_> {
    type Told = usize;

    fn ask(
        &self,
        rt: &(impl Abort + AllocGlobal),
        office: &mut Office<impl Book>,
    ) -> Option<usize> {
        match self.coming {
            Coming::Alone => serve(rt, self.routes, office, self.script, usize::MAX),
            Coming::Together => serve_together(rt, self.routes, office, self.script),
        }
    }
}

/// Requests, of which what an office answers is told, a line each.
#[derive(Drop)]
struct Answers<'a> {
    routes: &'a Routes,
    requests: &'a str,
}

impl Question for Answers<'_> {
    type Told = String;

    fn ask(
        &self,
        rt: &(impl Abort + AllocGlobal),
        office: &mut Office<impl Book>,
    ) -> Option<String> {
        shown(rt.alloc(), self.routes, office, self.requests)
    }
}

/// Serves a script over the books in files, up to the first request that is given up. Gives how many were answered.
pub(super) fn serve_in(
    rt: &(impl Abort + AllocGlobal),
    routes: &Routes,
    disks: Disks,
    script: &str,
    coming: Coming,
) -> Ended<Option<usize>> {
    let script = Script {
        routes,
        script,
        coming,
    };
    done_in(rt, disks, &InOffice(&script))
}

/// What the books in files answer to requests, a line each.
pub(super) fn shown_in(
    rt: &(impl Abort + AllocGlobal),
    routes: &Routes,
    disks: Disks,
    requests: &str,
) -> Ended<Option<String>> {
    done_in(rt, disks, &InOffice(&Answers { routes, requests }))
}
