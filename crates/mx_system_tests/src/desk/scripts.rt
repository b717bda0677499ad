//! Scripts: requests in words, each with its response in words, and the bytes of both, as a line `WHO METHOD PATH BODY ->
//! STATUS BODY`.
use super::UNAVAILABLE;
use std::alloc::{AllocError, Global};

/// Stands in the input behind the requests of a run. No request has it.
pub(super) const RUN_END: char = '\u{1e}';

/// The last digit of the token of each who asks. A request of anyone else has no token.
const DIGITS: [(&str, &str); 5] = [
    ("operator", "1"),
    ("clerk", "2"),
    ("ann", "a"),
    ("bob", "b"),
    ("cy", "c"),
];

/// The reason that stands behind each status.
const REASONS: [(&str, &str); 7] = [
    ("200", "OK"),
    ("400", "Bad Request"),
    ("403", "Forbidden"),
    ("404", "Not Found"),
    ("409", "Conflict"),
    ("413", "Content Too Large"),
    ("501", "Not Implemented"),
];

/// What stands beside a word in a table. Empty for a word that isn't there.
fn beside(table: &[(&'static str, &'static str)], word: &str) -> &'static str {
    for (first, second) in table {
        if *first == word {
            return second;
        }
    }
    ""
}

/// Where a request stands in the input, where its body begins, and where its response stands in the output.
#[derive(Clone, Copy)]
pub(super) struct Place {
    pub(super) start: usize,
    pub(super) body: usize,
    pub(super) end: usize,
    pub(super) told: usize,
    pub(super) told_end: usize,
}

/// Requests in one or more runs, and the responses that they are to have.
#[derive(Drop)]
pub(super) struct Exchange {
    alloc: Global,
    /// The bytes of the requests, with `RUN_END` between runs.
    pub(super) input: String,
    /// The bytes of the responses.
    pub(super) output: String,
    /// How many responses.
    pub(super) count: u64,
    /// The place of each request in words.
    pub(super) places: Vec<Place>,
}

impl Exchange {
    pub(super) fn new(alloc: Global) -> Exchange {
        Exchange {
            alloc,
            input: String::new(alloc),
            output: String::new(alloc),
            count: 0,
            places: Vec::new(alloc),
        }
    }

    /// The requests of scripts, all in one run.
    pub(super) fn of_one_run(alloc: Global, scripts: &[&str]) -> Result<Exchange, AllocError> {
        let mut exchange = Exchange::new(alloc);
        for script in scripts {
            exchange.add_script(script)?;
        }
        Ok(exchange)
    }

    /// The requests of scripts, each in a run of its own; what is added then is in a further run.
    pub(super) fn of_runs(alloc: Global, scripts: &[&str]) -> Result<Exchange, AllocError> {
        let mut exchange = Exchange::new(alloc);
        for script in scripts {
            exchange.add_script(script)?;
            exchange.end_run()?;
        }
        Ok(exchange)
    }

    /// These requests, in one run, and so many responses.
    pub(super) fn of_bytes(
        alloc: Global,
        input: &str,
        output: &str,
        count: u64,
    ) -> Result<Exchange, AllocError> {
        Ok(Exchange {
            alloc,
            input: String::from_str(alloc, input)?,
            output: String::from_str(alloc, output)?,
            count,
            places: Vec::new(alloc),
        })
    }

    /// The requests of a script more: a line each, `REQUEST -> RESPONSE`. Any other line says nothing.
    pub(super) fn add_script(&mut self, script: &str) -> Result<(), AllocError> {
        for line in script.lines() {
            if let Some((request, response)) = line.split_once(" -> ") {
                self.add(request, response)?;
            }
        }
        Ok(())
    }

    /// What is added from here on is in a run of its own.
    pub(super) fn end_run(&mut self) -> Result<(), AllocError> {
        self.input.push(RUN_END)
    }

    /// A request more, `WHO METHOD PATH BODY`, and its response, `STATUS BODY`. A request without a body has no
    /// Content-Length. A response to HEAD is its head alone.
    pub(super) fn add(&mut self, request: &str, response: &str) -> Result<(), AllocError> {
        let (start, told) = (self.input.len(), self.output.len());
        let mut words = request.splitn(4, ' ');
        let who = words.next().unwrap_or("");
        let method = words.next().unwrap_or("");
        let path = words.next().unwrap_or("");
        let body = words.next().unwrap_or("");
        let line = format!(in self.alloc; "{method} {path} HTTP/1.1\r\n")?;
        self.input.push_str(line.as_str())?;
        self.push_token(who)?;
        self.push_body(body)?;
        self.push_response(response, method == "HEAD")?;
        let end = self.input.len();
        self.places.push(Place {
            start,
            body: end.saturating_sub(body.len()),
            end,
            told,
            told_end: self.output.len(),
        })?;
        Ok(())
    }

    /// Bytes that need not be a whole request, and the response to them, `STATUS BODY`.
    pub(super) fn add_bytes(&mut self, bytes: &str, response: &str) -> Result<(), AllocError> {
        self.input.push_str(bytes)?;
        self.push_response(response, bytes.starts_with("HEAD "))
    }

    fn push_token(&mut self, who: &str) -> Result<(), AllocError> {
        let digit = beside(&DIGITS, who);
        if !digit.is_empty() {
            self.input
                .push_str("purse-token: 0000000000000000000000000000000")?;
            self.input.push_str(digit)?;
            self.input.push_str("\r\n")?;
        }
        Ok(())
    }

    /// The end of the head, and the body.
    fn push_body(&mut self, body: &str) -> Result<(), AllocError> {
        if !body.is_empty() {
            let field = format!(in self.alloc; "content-length: {}\r\n", body.len())?;
            self.input.push_str(field.as_str())?;
        }
        self.input.push_str("\r\n")?;
        self.input.push_str(body)
    }

    fn push_response(&mut self, response: &str, head_only: bool) -> Result<(), AllocError> {
        self.count = self.count.saturating_add(1);
        if response == "503" {
            return self.output.push_str(UNAVAILABLE);
        }
        let (status, body) = response.split_once(' ').unwrap_or((response, ""));
        let head = format!(in self.alloc;
            "HTTP/1.1 {status} {}\r\ncontent-type: application/json\r\ncontent-length: {}\r\nconnection: close\r\n\r\n",
            beside(&REASONS, status),
            body.len()
        )?;
        self.output.push_str(head.as_str())?;
        if !head_only {
            self.output.push_str(body)?;
        }
        Ok(())
    }
}

/// A piece of a script, which stands there once for each number from the first up to the second, which is left out. In it
/// `#n#` stands for the number, `#n+1#` for one more, and `#2n#` for twice the number.
pub(crate) type Piece<'a> = (u64, u64, &'a str);

/// What a term comes to: a factor, `n` and a summand, of which the factor and the summand may be missing.
fn value_of(term: &str, number: u64) -> u64 {
    let (factor, summand) = term.split_once('n').unwrap_or((term, ""));
    let factor = factor.parse::<u64>().unwrap_or(1);
    let summand = summand.parse::<u64>().unwrap_or(0);
    factor.saturating_mul(number).saturating_add(summand)
}

/// Adds a piece for one number.
fn push_piece(
    script: &mut String,
    alloc: Global,
    piece: &str,
    number: u64,
) -> Result<(), AllocError> {
    let mut is_term = false;
    for part in piece.split('#') {
        if is_term {
            let value = format!(in alloc; "{}", value_of(part, number))?;
            script.push_str(value.as_str())?;
        } else {
            script.push_str(part)?;
        }
        is_term = !is_term;
    }
    Ok(())
}

/// Adds a piece for each of its numbers.
fn push_pieces(
    script: &mut String,
    alloc: Global,
    (first, end, piece): Piece<'_>,
) -> Result<(), AllocError> {
    for number in first..end {
        push_piece(script, alloc, piece, number)?;
    }
    Ok(())
}

/// The script that these pieces make.
pub(crate) fn written(alloc: Global, pieces: &[Piece<'_>]) -> Result<String, AllocError> {
    let mut script = String::new(alloc);
    for piece in pieces {
        push_pieces(&mut script, alloc, *piece)?;
    }
    Ok(script)
}

/// The text with a line end in place of each `|`.
pub(crate) fn unfolded(alloc: Global, text: &str, line_end: &str) -> Result<String, AllocError> {
    let mut lines = String::new(alloc);
    let mut is_first = true;
    for line in text.split('|') {
        if !is_first {
            lines.push_str(line_end)?;
        }
        lines.push_str(line)?;
        is_first = false;
    }
    Ok(lines)
}
