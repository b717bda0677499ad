//! Requests that are answered in the end: at once, or by 503 and as usual when they are sent again. So it has to be where a
//! growth is refused, and nothing else is.
use super::devices::Page;
use super::scripts::Exchange;
use super::{UNAVAILABLE, routes_in_the_end};
use crate::empty::Trial;
use mx_book::Book;
use mx_desk::Counted;
use mx_desk::desk::run;
use mx_office::Office;
use mx_wire::Routes;
use std::alloc::{AllocError, Global};
use std::process::Abort;
use std::test::Fail;

/// What is written for one request. It takes no memory but the office's.
pub(super) fn page_of(
    alloc: Global,
    request: &str,
    routes: &Routes,
    office: &mut Office<impl Book>,
) -> Option<Page> {
    let mut reader = Counted::new(request.as_bytes());
    let mut writer = Counted::new(Page::new(4096));
    let count = run(alloc, &mut reader, &mut writer, routes, office).ok()?;
    if count != 1 {
        return None;
    }
    Some(writer.into_inner())
}

/// Whether a request gets this response, or 503 and then, sent again, this response.
fn is_answered_in_the_end(
    alloc: Global,
    request: &str,
    routes: &Routes,
    office: &mut Office<impl Book>,
    response: &str,
) -> bool {
    let Some(page) = page_of(alloc, request, routes, office) else {
        return false;
    };
    if page.bytes() != UNAVAILABLE.as_bytes() {
        return page.bytes() == response.as_bytes();
    }
    match page_of(alloc, request, routes, office) {
        Some(page) => page.bytes() == response.as_bytes(),
        None => false,
    }
}

/// The request of a line with its response. It is read again where there is no memory at first.
fn exchange_of(alloc: Global, line: &str) -> Result<Exchange, AllocError> {
    match Exchange::of_one_run(alloc, &[line]) {
        Ok(exchange) => Ok(exchange),
        Err(_) => Exchange::of_one_run(alloc, &[line]),
    }
}

/// Asserts that each request of a script is answered in the end.
fn assert_answered(
    rt: &(impl Abort + AllocGlobal),
    routes: &Routes,
    office: &mut Office<impl Book>,
    script: &str,
) -> Result<(), Fail> {
    for line in script.lines() {
        if !line.is_empty() {
            let exchange = exchange_of(rt.alloc(), line)?;
            let (request, response) = (exchange.input.as_str(), exchange.output.as_str());
            assert!(rt;
                is_answered_in_the_end(rt.alloc(), request, routes, office, response),
                "{line}"
            );
        }
    }
    Ok(())
}

/// Serves each request of scripts in an office, and asserts that it is answered in the end.
pub(crate) fn answer_in_the_end(
    rt: &(impl Abort + AllocGlobal),
    office: &mut Office<impl Book>,
    scripts: &[&str],
) -> Result<(), Fail> {
    let routes = routes_in_the_end(rt.alloc())?;
    for script in scripts {
        assert_answered(rt, &routes, office, script)?;
    }
    Ok(())
}

/// Scripts, each request of which an office in which nothing is answers in the end. With every growth granted this says what
/// the scripts say. Run with one growth refused, it says that a request changes nothing where its response is 503.
#[derive(Drop)]
pub(super) struct Answered<'a>(pub(super) &'a [&'a str]);

impl Trial for Answered<'_> {
    fn try_in(
        &self,
        rt: &(impl Abort + AllocGlobal),
        office: &mut Office<impl Book>,
    ) -> Result<(), Fail> {
        answer_in_the_end(rt, office, self.0)
    }
}
