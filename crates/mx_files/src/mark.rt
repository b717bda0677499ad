//! Whether the books in a file have changed.
use std::fs::File;
use std::io::ErrorKind;
use std::os::unix::fs::FileExt;
use std::{fs, io};

/// How many bytes a log has before its frames.
const HEADER: usize = 32;

/// How many bytes a frame has before its page.
const FRAME_HEADER: u64 = 24;

/// Where the log of books ends: the next commit begins there, and writes a frame with the salt of the header. A log that is
/// emptied gets another salt.
#[derive(Clone, Copy)]
pub(crate) struct Mark {
    /// The header of the log.
    head: [u8; HEADER],
    /// Where the next frame belongs.
    next: u64,
}

/// So many bytes of a file, and zeros where it has none.
fn read_or_zeros<const N: usize>(file: &File, at: u64) -> io::Result<[u8; N]> {
    let mut bytes = [0; N];
    match file.read_exact_at(&mut bytes, at) {
        Ok(()) => Ok(bytes),
        Err(error) if error.kind() == ErrorKind::UnexpectedEof => Ok([0; N]),
        Err(error) => Err(error),
    }
}

impl Mark {
    /// That of a log of which so many frames are taken.
    pub(crate) fn of(rt: &HostRuntime, log: &str, frames: usize) -> io::Result<Mark> {
        let head = read_or_zeros::<HEADER>(&fs::open(rt, log)?, 0)?;
        let size = u32::from_be_bytes([head[8], head[9], head[10], head[11]]);
        let length = FRAME_HEADER.wrapping_add(u64::from(size));
        Ok(Mark {
            head,
            next: (HEADER as u64).wrapping_add(length.wrapping_mul(frames as u64)),
        })
    }

    /// Whether nothing was committed since.
    pub(crate) fn stands(&self, rt: &HostRuntime, log: &str) -> io::Result<bool> {
        let file = fs::open(rt, log)?;
        if read_or_zeros::<HEADER>(&file, 0)? != self.head {
            return Ok(false);
        }
        let salt = read_or_zeros::<8>(&file, self.next.saturating_add(8))?;
        Ok(salt.as_slice() != &self.head[16..24])
    }
}
