//! Readers and writers that give and take little, and that fail.
ghost use Rattle.std.specs.Prelude.{◌≤◌};

use mx_desk::Outlet;
use std::io;
use std::io::{Read, Write};

/// A reader that gives so many bytes at a time, and may fail after the last.
#[derive(Drop)]
pub(super) struct Pieces<'a> {
    rest: &'a [u8],
    size: usize,
    fails: bool,
}

impl<'a> Pieces<'a> {
    /// A reader of these bytes.
    pub(super) fn new(bytes: &'a [u8], size: usize) -> Pieces<'a> {
        Pieces {
            rest: bytes,
            size,
            fails: false,
        }
    }

    /// A reader that fails once it gave these bytes.
    pub(super) fn cut(bytes: &'a [u8], size: usize) -> Pieces<'a> {
        Pieces {
            rest: bytes,
            size,
            fails: true,
        }
    }
}

impl Read for Pieces<'_> {
    fn read(&mut self, buf: &mut [u8]) -> io::Result<usize> {
        if self.rest.is_empty() && self.fails {
            return Err(io::Error::from(io::ErrorKind::BrokenPipe));
        }
        let count = self.size.min(buf.len()).min(self.rest.len());
        let (piece, rest) = self.rest.split_at(count);
        buf[..count].copy_from_slice(piece);
        self.rest = rest;
        Ok(count)
    }
}

/// A writer that takes so many bytes and then fails, or takes none any more. It counts how often it learns that the store
/// failed, and takes no memory.
#[derive(Clone, Copy)]
pub(super) struct Page {
    bytes: [u8; 12288],
    len: usize,
    room: usize,
    takes_none: bool,
    store_failures: u32,
    ghost within: { len ≤ room },
    ghost fits: { room ≤ 12288 },
}

impl Page {
    /// A page of at most 12,288 bytes.
    pub(super) fn new(room: usize) -> Page {
        Page {
            bytes: [0; 12288],
            len: 0,
            room: room.min(12288),
            takes_none: false,
            store_failures: 0,
        }
    }

    /// A page that takes no byte once it is full, and doesn't fail.
    pub(super) fn full_at(room: usize) -> Page {
        let mut page = Page::new(room);
        page.takes_none = true;
        page
    }

    pub(super) fn bytes(&self) -> &[u8] {
        &self.bytes[..self.len]
    }

    pub(super) fn store_failures(&self) -> u32 {
        self.store_failures
    }
}

impl Write for Page {
    fn write(&mut self, buf: &[u8]) -> io::Result<usize> {
        let count = buf.len().min(self.room - self.len);
        if count == 0 && !buf.is_empty() && !self.takes_none {
            return Err(io::Error::from(io::ErrorKind::WriteZero));
        }
        let start = self.len;
        let end = start + count;
        self.bytes[start..end].copy_from_slice(&buf[..count]);
        self.len = end;
        Ok(count)
    }

    fn flush(&mut self) -> io::Result<()> {
        Ok(())
    }
}

impl Outlet for Page {
    fn store_failed(&mut self) {
        self.store_failures = self.store_failures.saturating_add(1);
    }
}
