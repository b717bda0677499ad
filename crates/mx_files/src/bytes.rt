//! The bytes of a file, copied to another.
ghost use Rattle.std.specs.Prelude.{◌≡◌, ◌<◌, ℕ, List, IfOk, IfSome, OnOk, length, vec_len};
ghost use Rattle.std.specs.Io.KnownBytes.{Appends, Consumes, IsAtEnd};

use std::alloc::Global;
use std::fs::OpenOptions;
use std::io::{ErrorKind, Read, Write};
use std::os::unix::fs::OpenOptionsExt;
use std::{fs, io};

/// How many bytes are copied at once.
const PIECE: usize = 262_144;

/// Copies a piece of what a reader has left to a writer, and says how long it is: 0 at the end.
fn copy_piece<R: Read, W: Write>(
    reader: &mut R,
    writer: &mut W,
    piece: &mut [u8],
) -> io::Result<usize>
    requires { 0 < length piece.old }
    ensures moved { IfOk result (λ count. (bytes : List ℕ)
        × Consumes (R.remaining reader.old) (R.remaining reader.new) bytes
        × Appends (W.contents writer.old) (W.contents writer.new) bytes) }
    ensures end { IfOk result (λ count. count ≡ 0 → IsAtEnd (R.remaining reader.new)) }
    ensures room { length piece.new ≡ length piece.old }
{
    let count = reader.read(piece)?;
    writer.write_all(&piece[..count])?;
    Ok(count)
}

/// Room for so many bytes.
fn room(alloc: Global, bytes: usize) -> io::Result<Vec<u8>>
    requires { 0 < bytes }
    ensures { IfOk result (λ room. 0 < vec_len room) }
{
    Ok(vec![in alloc; 0; bytes]?)
}

/// Copies what a reader has left to a writer.
fn copy_rest<R: Read, W: Write>(alloc: Global, reader: &mut R, writer: &mut W) -> io::Result<()>
    ensures { OnOk result (IfSome (R.remaining reader.old)
        (Appends (W.contents writer.old) (W.contents writer.new))) }
{
    let mut piece = room(alloc, PIECE)?;
    'pieces: for _ in 0..u64::MAX {
        let count = copy_piece(reader, writer, piece.as_mut_slice())?;
        if count == 0 {
            return Ok(());
        }
    }
    Err(io::Error::from(ErrorKind::FileTooLarge))
}

/// Copies the bytes of the file at a path to an empty one, which is there.
pub(crate) fn copy_bytes(rt: &HostRuntime, from: &str, to: &str) -> io::Result<()> {
    let mut source = fs::open(rt, from)?;
    let mut target = OpenOptions::new().write(true).open(rt, to)?;
    copy_rest(rt.alloc(), &mut source, &mut target)
}

/// Makes an empty file that only its owner may read and write, where nothing is, also no link.
pub(crate) fn make_empty(rt: &HostRuntime, path: &str) -> io::Result<()> {
    let mut options = OpenOptions::new();
    options.write(true).create_new(true).mode(0o600);
    options.open(rt, path)?;
    Ok(())
}
