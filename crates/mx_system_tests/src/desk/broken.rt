//! Runs of bytes: what is written, also where a reader or a writer fails.
use super::devices::{Page, Pieces};
use super::scripts::Exchange;
use super::serve_from;
use crate::empty::Trial;
use mx_book::Book;
use mx_desk::desk::run;
use mx_desk::{Counted, DeskFault};
use mx_office::Office;
use mx_wire::Routes;
use std::process::Abort;
use std::test::Fail;

/// A run in which an office in which nothing is writes some bytes and then a text, and nothing else.
#[derive(Drop)]
pub(super) struct Told<'a> {
    pub(super) input: &'a [u8],
    pub(super) output: &'a [u8],
    pub(super) end: &'a str,
}

impl Trial for Told<'_> {
    fn try_in(
        &self,
        rt: &(impl Abort + AllocGlobal),
        office: &mut Office<impl Book>,
    ) -> Result<(), Fail> {
        let told = serve_from(rt.alloc(), office, self.input)?;
        let end = told.bytes.as_slice().strip_prefix(self.output);
        assert_eq!(rt;
            end.ok_or("another output")?,
            self.end.as_bytes(),
            "{}",
            self.input.len()
        );
        Ok(())
    }
}

/// Requests that are sent in one run, and how many of their bytes are read at a time.
#[derive(Clone, Copy)]
pub(super) struct Sent<'a> {
    pub(super) exchange: &'a Exchange,
    pub(super) size: usize,
}

/// A run that its reader or its writer ends by a failure, and a second run.
#[derive(Drop)]
pub(super) struct Broken<'a> {
    /// Whether the reader fails behind the input, or the writer at the end of its room.
    pub(super) fault: DeskFault,
    /// What is read, so many bytes at a time.
    pub(super) input: &'a [u8],
    pub(super) size: usize,
    /// How often the reader is called, where that is said.
    pub(super) reads: Option<u64>,
    /// How many bytes the writer takes, and whether it takes none then, in place of a failure.
    pub(super) room: usize,
    pub(super) takes_none: bool,
    /// What is written before the end.
    pub(super) output: &'a [u8],
    /// What is sent in the second run, and what is written in it.
    pub(super) rest: &'a [u8],
    pub(super) responses: &'a [u8],
}

/// A reader that fails behind its bytes, or doesn't.
fn reader_of(input: &[u8], size: usize, fails: bool) -> Pieces<'_> {
    if fails {
        Pieces::cut(input, size)
    } else {
        Pieces::new(input, size)
    }
}

/// A page that fails where it is full, or takes none any more.
fn page_with(room: usize, takes_none: bool) -> Page {
    if takes_none {
        Page::full_at(room)
    } else {
        Page::new(room)
    }
}

impl Broken<'_> {
    /// Asserts that the first run ends so.
    fn assert_ends(
        &self,
        rt: &(impl Abort + AllocGlobal),
        office: &mut Office<impl Book>,
    ) -> Result<(), Fail> {
        let routes = Routes::new(rt.alloc())?;
        let is_read = self.fault == DeskFault::Read;
        let mut reader = Counted::new(reader_of(self.input, self.size, is_read));
        let mut writer = Counted::new(page_with(self.room, self.takes_none));
        let end = run(rt.alloc(), &mut reader, &mut writer, &routes, office);
        assert_eq!(rt; end, Err(self.fault));
        assert_eq!(rt; self.reads.unwrap_or(reader.calls()), reader.calls());
        assert_eq!(rt; reader.failures(), u64::from(is_read));
        assert_eq!(rt; writer.failures(), u64::from(!is_read));
        assert_eq!(rt; writer.into_inner().bytes(), self.output);
        Ok(())
    }
}

impl Trial for Broken<'_> {
    fn try_in(
        &self,
        rt: &(impl Abort + AllocGlobal),
        office: &mut Office<impl Book>,
    ) -> Result<(), Fail> {
        self.assert_ends(rt, office)?;
        let rest = serve_from(rt.alloc(), office, self.rest)?;
        assert_eq!(rt;
            rest.bytes.as_slice(),
            self.responses,
            "{}",
            self.rest.len()
        );
        Ok(())
    }
}
