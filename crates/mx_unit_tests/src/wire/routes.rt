//! Which methods and paths have a route, and whose it is.
use mx_wire::routes::{Class, Method, Routes};
use std::process::Abort;
use std::test::Fail;

/// Which class the route of a request, a method and a path, is of, in a word.
fn class_of(routes: &Routes, request: &str) -> &'static str {
    let (method, path) = request.split_once(' ').unwrap_or((request, ""));
    match routes.class(Method::of(method.as_bytes()), path.as_bytes()) {
        Some(Class::Operator) => "operator",
        Some(Class::Clerk) => "clerk",
        Some(Class::Holder) => "holder",
        None => "none",
    }
}

/// Asserts that the request of each line of a text, `CLASS: METHOD PATH`, has a route of this class, or that none has one.
pub(crate) fn assert_classes(rt: &impl Abort, routes: &Routes, text: &str) {
    for line in text.lines() {
        match line.split_once(": ") {
            Some((class, request)) => assert!(rt; class_of(routes, request) == class, "{line}"),
            None => assert!(rt; line.is_empty(), "{line}"),
        }
    }
}

/// Requests of each class, and then those that have no route for their method, and for their path.
const REQUESTS: &str = "
operator: POST /members
operator: POST /members/m/grant
operator: POST /archive/p1
operator: POST /archive/a23456789-123456789-1234
operator: POST /clear/p1
operator: POST /settle
operator: GET /reconcile
operator: HEAD /reconcile
clerk: POST /holders
clerk: POST /purses
clerk: POST /purses/p1/load
clerk: POST /collect
holder: GET /purses
holder: HEAD /purses
holder: GET /purses/p1
holder: HEAD /purses/p1
holder: GET /purses/a23456789-123456789-1234
holder: GET /purses/inbox
holder: POST /purses/p1/start-from
holder: POST /purses/p1/start-to
holder: POST /purses/p1/handle
holder: POST /purses/p1/discard
holder: POST /purses/p1/abort
holder: POST /purses/p1/read-log
holder: POST /purses/p1/redeem
holder: GET /purses/p1/inbox
holder: HEAD /purses/p1/inbox
holder: GET /purses/p1/statement/0
holder: HEAD /purses/p1/statement/50
holder: GET /purses/p1/statement/1000000000000000
none: GET /members
none: HEAD /members
none: PUT /members
none: post /members
none: POSTS /members
none:  /members
none: GET /members/m/grant
none: GET /archive/p1
none: HEAD /archive/p1
none: GET /clear/p1
none: DELETE /clear/p1
none: GET /settle
none: HEAD /settle
none: PUT /settle
none: GET /holders
none: DELETE /purses
none: get /purses
none: GET /collect
none: POST /purses/p1
none: OPTIONS /purses/p1
none: GET /purses/p1/load
none: GET /purses/p1/start-from
none: GET /purses/p1/start-to
none: HEAD /purses/p1/handle
none: GET /purses/p1/discard
none: GET /purses/p1/abort
none: GET /purses/p1/read-log
none: GET /purses/p1/redeem
none: POST /purses/p1/inbox
none: POST /purses/p1/statement/0
none: POST /reconcile
none: POST
none: POST /
none: POST *
none: POST members
none: POST /member
none: POST /members/
none: POST //members
none: POST /Members
none: POST /members?x=1
none: POST http://office/members
none: POST /members/m
none: POST /members//grant
none: POST /members/m/grants
none: POST /members/m/x/grant
none: POST /members/M/grant
none: POST /archive
none: POST /archive/
none: POST /archive/P1
none: POST /archive/p1/
none: POST /archive/a23456789-123456789-12345
none: POST /clear
none: POST /clear/1p
none: POST /clear/p1/q1
none: POST /purses/p1/clear
none: POST /settle/
none: POST /settle/p1
none: POST /Settle
none: POST /settled
none: POST /purses/p1/settle
none: GET /purses/
none: GET /purses/1p
none: GET /purses/-p
none: GET /purses/p_1
none: GET /purses/p%31
none: GET /purses/p 1
none: GET /purses/a23456789-123456789-12345
none: GET /purses/pé
none: GET /purses/p1/
none: GET /purses/p1/inbox/
none: GET /purses//inbox
none: GET /purses/P1/inbox
none: POST /purses/p1/start
none: POST /purses/p1/start-from/q1
none: POST /purses/1/abort
none: POST /purses/1/read-log
none: POST /purses/p1/read-log/0
none: POST /purses/p1/readlog
none: GET /reconcile/m
none: GET /purses/p1/statement
none: GET /purses/p1/statement/
none: GET /purses/P1/statement/0
none: GET /purses/p1/statement/0/
none: GET /purses/p1/statement/00
none: GET /purses/p1/statement/01
none: GET /purses/p1/statement/-1
none: GET /purses/p1/statement/+1
none: GET /purses/p1/statement/x
none: GET /purses/p1/statement/1000000000000001
none: GET /purses/p1/statement/18446744073709551616
";

#[test]
fn routes_have_their_class(rt: HostRuntime) -> Result<(), Fail> {
    let routes = Routes::new(rt.alloc())?;
    assert_classes(&rt, &routes, REQUESTS);
    Ok(())
}

/// Whether a request has no route.
fn has_none(routes: &Routes, method: &[u8], path: &[u8]) -> bool {
    let method = Method::of(method);
    routes.class(method, path).is_none() && routes.route(method, path).is_none()
}

/// A target has to be UTF-8.
#[test]
fn target_that_is_no_text_has_no_route(rt: HostRuntime) -> Result<(), Fail> {
    let routes = Routes::new(rt.alloc())?;
    assert!(rt; has_none(&routes, b"GET", b"/purses/\xff"));
    assert!(rt; has_none(&routes, b"GET\xff", b"/purses/p1"));
    Ok(())
}
