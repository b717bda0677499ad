//! A writer that shows nothing of its bytes before a flush, and a reader that gives one piece a call.
use crate::scratch::{Trial, expect, in_memory, request, response};
use mx_book::Book;
use mx_desk::desk::run;
use mx_desk::{Counted, Outlet};
use mx_office::Office;
use mx_wire::Routes;
use std::alloc::Global;
use std::io;
use std::io::{Read, Write};
use std::test::Fail;

/// Gives these pieces, one a read.
#[derive(Drop)]
struct Pieces<'a> {
    left: &'a [String],
}

impl Read for Pieces<'_> {
    fn read(&mut self, buf: &mut [u8]) -> io::Result<usize> {
        let Some((piece, left)) = self.left.split_first() else {
            return Ok(0);
        };
        self.left = left;
        let mut bytes = piece.as_bytes();
        bytes.read(buf)
    }
}

/// Holds what is written, and shows it at a flush. Remembers how many bytes it showed after each flush.
#[derive(Drop)]
pub(super) struct Shown {
    held: Vec<u8>,
    shown: Vec<usize>,
}

impl Shown {
    /// Nothing was written yet.
    pub(super) fn new(alloc: Global) -> Self {
        Shown {
            held: Vec::new(alloc),
            shown: Vec::new(alloc),
        }
    }

    /// What the last flush showed.
    pub(super) fn passed(&self) -> &[u8] {
        let count = self.shown.last().copied().unwrap_or(0);
        self.held.get(..count).unwrap_or(&[])
    }
}

impl Write for Shown {
    fn write(&mut self, buf: &[u8]) -> io::Result<usize> {
        self.held.write(buf)
    }

    fn flush(&mut self) -> io::Result<()> {
        self.shown.push(self.held.len())?;
        Ok(())
    }
}

impl Outlet for Shown {
    fn store_failed(&mut self) {}
}

/// Two requests that ask for nothing that is there.
fn two_pieces(alloc: Global) -> Result<Vec<String>, Fail> {
    let mut pieces = Vec::new(alloc);
    pieces.push(request(alloc, "f", "GET /nowhere", "")?)?;
    pieces.push(request(alloc, "f", "GET /nowhere", "")?)?;
    Ok(pieces)
}

/// How many bytes were shown after each flush of a run over these pieces.
fn shown_of(
    alloc: Global,
    routes: &Routes,
    office: &mut Office<impl Book>,
    pieces: &[String],
) -> Result<Vec<usize>, Fail> {
    let mut reader = Counted::new(Pieces { left: pieces });
    let mut writer = Counted::new(Shown::new(alloc));
    run(alloc, &mut reader, &mut writer, routes, office)?;
    Ok(writer.into_inner().shown)
}

/// Fails unless nothing was shown at first, then one response, and then both.
fn expect_shown(alloc: Global, shown: &[usize]) -> Result<(), Fail> {
    let one = response(alloc, "404 Not Found", "{\"error\":\"no route\"}")?.len();
    let told = format!(in alloc; "{shown:?}")?;
    let wanted = format!(in alloc; "[0, {one}, {}]", one.saturating_add(one))?;
    expect(alloc, "shown", told.as_str(), wanted.as_str())
}

/// A response is shown before the next read.
#[derive(Drop)]
struct ShownBeforeReads;

impl Trial for ShownBeforeReads {
    fn try_in(
        &self,
        rt: &HostRuntime,
        routes: &Routes,
        office: &mut Office<impl Book>,
    ) -> Result<(), Fail> {
        let pieces = two_pieces(rt.alloc())?;
        let shown = shown_of(rt.alloc(), routes, office, pieces.as_slice())?;
        expect_shown(rt.alloc(), shown.as_slice())
    }
}

/// What was written is passed on before the next read, and at the end.
#[test]
fn responses_are_passed_on_before_the_next_read(rt: HostRuntime) -> Result<(), Fail> {
    in_memory(&rt, &ShownBeforeReads)
}
