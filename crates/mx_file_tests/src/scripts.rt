//! Scripts: requests in words, each with its response in words, as a line `WHO METHOD PATH BODY -> STATUS BODY`.
use mx_book::Book;
use mx_desk::Counted;
use mx_desk::desk::run;
use mx_office::Office;
use mx_wire::Routes;
use std::alloc::{AllocError, Global};
use std::process::Abort;

/// The response to a request that is given up.
const UNAVAILABLE: &str = "503";

/// How the requests of a script come.
#[derive(Clone, Copy)]
pub(super) enum Coming {
    /// One at a time, each as an input of its own, so that each is a round.
    Alone,
    /// All of them as one input, which is answered in rounds.
    Together,
}

/// The last digit of the token of who asks.
fn digit_of(who: &str) -> &'static str {
    match who {
        "operator" => "1",
        "clerk" => "2",
        "ann" => "a",
        _ => "b",
    }
}

/// The bytes of a request, `WHO METHOD PATH BODY`.
fn request_of(alloc: Global, request: &str) -> Result<String, AllocError> {
    let mut words = request.splitn(4, ' ');
    let digit = digit_of(words.next().unwrap_or(""));
    let method = words.next().unwrap_or("");
    let path = words.next().unwrap_or("");
    let body = words.next().unwrap_or("");
    format!(in alloc;
        "{method} {path} HTTP/1.1\r\npurse-token: 0000000000000000000000000000000{digit}\r\ncontent-length: {}\r\n\r\n{body}",
        body.len()
    )
}

/// The words of a response, `STATUS BODY`.
fn words_of(alloc: Global, response: &str) -> Option<String> {
    let (head, body) = response.split_once("\r\n\r\n")?;
    let mut words = head.splitn(3, ' ');
    words.next()?;
    let status = words.next()?;
    if body.is_empty() {
        return String::from_str(alloc, status).ok();
    }
    format!(in alloc; "{status} {body}").ok()
}

/// What an office answers to one request. None where there is no memory for it.
fn answered(
    alloc: Global,
    routes: &Routes,
    office: &mut Office<impl Book>,
    request: &str,
) -> Option<String> {
    let bytes = request_of(alloc, request).ok()?;
    let mut reader = Counted::new(bytes.as_bytes());
    let mut writer = Counted::new(Vec::new(alloc));
    run(alloc, &mut reader, &mut writer, routes, office).ok()?;
    let response = writer.into_inner();
    words_of(alloc, std::str::from_utf8(response.as_slice()).ok()?)
}

/// How many requests a script has.
pub(super) fn length_of(script: &str) -> usize {
    let mut count = 0usize;
    for line in script.lines() {
        if line.split_once(" -> ").is_some() {
            count = count.saturating_add(1);
        }
    }
    count
}

/// Serves the first requests of a script, at most so many, up to the first that is given up. Gives how many were
/// answered, and asserts that each of them got its response. None where there is no memory for words.
pub(super) fn serve(
    rt: &(impl Abort + AllocGlobal),
    routes: &Routes,
    office: &mut Office<impl Book>,
    script: &str,
    most: usize,
) -> Option<usize> {
    let mut count = 0usize;
    for line in script.lines() {
        let Some((request, response)) = line.split_once(" -> ") else {
            continue;
        };
        if count >= most {
            break;
        }
        let words = answered(rt.alloc(), routes, office, request)?;
        if words.as_str() == UNAVAILABLE {
            break;
        }
        assert_eq!(rt; words.as_str(), response, "{request}");
        count = count.saturating_add(1);
    }
    Some(count)
}

/// The requests of a script as one input, with responses behind them or without. None where there is no memory for it.
pub(super) fn input_of(alloc: Global, script: &str) -> Option<String> {
    let mut input = String::new(alloc);
    for line in script.lines() {
        if line.is_empty() {
            continue;
        }
        let (request, _) = line.split_once(" -> ").unwrap_or((line, ""));
        let bytes = request_of(alloc, request).ok()?;
        input.push_str(bytes.as_str()).ok()?;
    }
    Some(input)
}

/// The responses of a script in words, a line each. None where there is no memory for them.
pub(super) fn responses_of(alloc: Global, script: &str) -> Option<String> {
    let mut words = String::new(alloc);
    for line in script.lines() {
        if let Some((_, response)) = line.split_once(" -> ") {
            words.push_str(response).ok()?;
            words.push('\n').ok()?;
        }
    }
    Some(words)
}

/// The responses in some bytes in words, a line each. None where these are no responses, or there is no memory for words.
pub(super) fn told_in(alloc: Global, written: &[u8]) -> Option<String> {
    let mut words = String::new(alloc);
    for response in std::str::from_utf8(written)
        .ok()?
        .split("HTTP/1.1 ")
        .skip(1)
    {
        let (head, body) = response.split_once("\r\n\r\n")?;
        let (status, _) = head.split_once(' ')?;
        let line = format!(in alloc; "{status} {body}\n").ok()?;
        words.push_str(line.as_str()).ok()?;
    }
    Some(words)
}

/// What an office answers to an input, a line each. None where there is no memory for it.
pub(super) fn told_through(
    alloc: Global,
    routes: &Routes,
    office: &mut Office<impl Book>,
    input: &str,
) -> Option<String> {
    let mut reader = Counted::new(input.as_bytes());
    let mut writer = Counted::new(Vec::new(alloc));
    run(alloc, &mut reader, &mut writer, routes, office).ok()?;
    let written = writer.into_inner();
    told_in(alloc, written.as_slice())
}

/// What an office answers to requests that come together, a line each. None where there is no memory for it.
pub(super) fn shown(
    alloc: Global,
    routes: &Routes,
    office: &mut Office<impl Book>,
    requests: &str,
) -> Option<String> {
    let input = input_of(alloc, requests)?;
    told_through(alloc, routes, office, input.as_str())
}

/// How many responses to a script come before the first that says 503. Asserts that each of them is the one in the script, and
/// that none behind them says that something was done.
fn count_answered(rt: &impl Abort, script: &str, told: &[&str]) -> usize {
    let mut place = 0usize;
    let mut count = 0usize;
    for line in script.lines() {
        let Some((request, response)) = line.split_once(" -> ") else {
            continue;
        };
        let words = told.get(place).copied().unwrap_or("no response");
        if count < place || words.starts_with(UNAVAILABLE) {
            assert!(rt; !words.starts_with("200"), "{request}: {words}");
        } else {
            assert_eq!(rt; words, response, "{request}");
            count = count.saturating_add(1);
        }
        place = place.saturating_add(1);
    }
    count
}

/// Serves a script as one input. Gives how many requests were answered before the first that was given up, and asserts that
/// each of them got its response, and that none behind them was done. None where there is no memory for words.
pub(super) fn serve_together(
    rt: &(impl Abort + AllocGlobal),
    routes: &Routes,
    office: &mut Office<impl Book>,
    script: &str,
) -> Option<usize> {
    let told = shown(rt.alloc(), routes, office, script)?;
    let lines: Vec<&str> = told.lines().collect(rt.alloc()).ok()?;
    assert_eq!(rt; lines.len(), length_of(script));
    Some(count_answered(rt, script, lines.as_slice()))
}

/// Whether a request makes a token.
fn makes_token(request: &str) -> bool {
    request.split_once(" POST /members ").is_some()
        || request.split_once(" POST /holders ").is_some()
}

/// How many requests of a script are answered when that round ends which begins behind so many of them. A round ends behind a
/// request that makes a token, or with the input, as no script here has 64 requests.
pub(super) fn end_of_round(script: &str, count: usize) -> usize {
    let mut end = 0usize;
    for line in script.lines() {
        let Some((request, _)) = line.split_once(" -> ") else {
            continue;
        };
        end = end.saturating_add(1);
        if end > count && makes_token(request) {
            break;
        }
    }
    end
}
