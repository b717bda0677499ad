//! The header and the frames of a log.
ghost use Rattle.std.specs.Prelude.{◌≡◌, ◌+◌, ◌^◌, ◌<◌, ◌≤◌, ◌↔◌, ℕ, length, IsTrue};
ghost use Rattle.sqlite_wal.specs.Format.{be32, count_page, frame_sum, page_number, stored_sum, IsFrame, IsSigned};
ghost use Rattle.sqlite_wal.specs.Recovery.{Passes, frame, sum_before};
ghost use Rattle.mx_log.specs.Damage.{Commits, GoesOn, IsEmptied, IsIn, IsOpen, Stands, due_before};

use sqlite_wal::checksum_of;

/// How many bytes a log has before its frames.
const HEADER_LENGTH: usize = 32;

/// How many bytes a frame has before its page.
const FRAME_HEADER_LENGTH: usize = 24;

/// The page number of a frame that counts what is behind it in its commit.
const COUNT_PAGE: u32 = 0xff00_0000;

/// A checksum of SQLite's log.
type Sum = (u32, u32);

/// Four bytes as a number, the highest first.
pub fn number_at(bytes: &[u8], at: usize) -> u32
    requires { at + 4 ≤ length bytes.now }
    ensures { result ≡ be32 bytes.now at }
{
    bytes[at] as u32 * 0x100_0000
        + bytes[at + 1] as u32 * 0x1_0000
        + bytes[at + 2] as u32 * 0x100
        + bytes[at + 3] as u32
}

/// The checksum that is stored at a place.
fn sum_at(bytes: &[u8], at: usize) -> Sum
    requires { at + 8 ≤ length bytes.now }
    ensures { result ≡ stored_sum bytes.now at }
{
    (number_at(bytes, at), number_at(bytes, at + 4))
}

/// Whether two checksums are one.
fn is_same(sum: Sum, other: Sum) -> bool
    ensures { IsTrue result ↔ sum ≡ other }
{
    sum.0 == other.0 && sum.1 == other.1
}

/// The checksum of a frame, going on from another.
fn sum_of(is_big: bool, before: Sum, frame: &[u8]) -> Sum
    requires { 24 ≤ length frame.now }
    ensures { result ≡ frame_sum is_big before frame.now }
{
    let front = checksum_of(is_big, before, &frame[..8]);
    checksum_of(is_big, front, &frame[FRAME_HEADER_LENGTH..])
}

/// Whether a frame is of a page, and its checksum goes on from another.
fn goes_on(is_big: bool, before: Sum, frame: &[u8]) -> bool
    requires { 24 ≤ length frame.now }
    ensures { IsTrue result ↔ GoesOn is_big before frame.now }
{
    number_at(frame, 0) != 0 && is_same(sum_of(is_big, before, frame), sum_at(frame, 16))
}

/// Whether a frame is one of the log with this header, behind this checksum.
fn is_frame(head: &[u8], before: Sum, frame: &[u8]) -> bool
    requires head { 24 ≤ length head.now }
    requires frame { 24 ≤ length frame.now }
    ensures { IsTrue result ↔ IsFrame head.now before frame.now }
{
    frame[8..16] == head[16..24] && goes_on(head[3] == 0x83, before, frame)
}

/// Whether these are the header of a log.
pub fn is_signed(head: &[u8]) -> bool
    requires { 32 ≤ length head.now }
    ensures { IsTrue result ↔ IsSigned head.now }
{
    if head[0] != 0x37 || head[1] != 0x7f || head[2] != 0x06 {
        return false;
    }
    if head[3] != 0x82 && head[3] != 0x83 {
        return false;
    }
    let sum = checksum_of(head[3] == 0x83, (0, 0), &head[..24]);
    is_same(sum, sum_at(head, 24))
}

/// Whether a log is being emptied.
pub fn is_emptied(log: &[u8]) -> bool
    requires { 4 ≤ length log.now }
    ensures { IsTrue result ↔ IsEmptied log.now }
{
    if log[0] != 0 || log[1] != 0x7f || log[2] != 0x06 {
        return false;
    }
    log[3] == 0x82 || log[3] == 0x83
}

/// How many whole frames a log has, of pages of this size.
pub fn count_frames(log: &[u8], size: usize) -> usize
    requires { size < 2 ^ 32 }
    ensures count { (i : ℕ) → (IsIn size log.now i ↔ i < result) }
    ensures few { result ≤ length log.now }
{
    log.len().saturating_sub(HEADER_LENGTH) / (FRAME_HEADER_LENGTH + size)
}

/// The bytes of a frame.
fn frame_bytes(log: &[u8], size: usize, i: usize) -> &[u8]
    requires { IsIn size log.now i }
    ensures bytes { result.now ≡ frame size log.now i }
    ensures length { length result.now ≡ 24 + size }
{
    let start = HEADER_LENGTH + i * (FRAME_HEADER_LENGTH + size);
    &log[start..start + FRAME_HEADER_LENGTH + size]
}

/// The checksum that is stored before a frame.
fn sum_before(log: &[u8], size: usize, i: usize) -> Sum
    requires { IsIn size log.now i }
    ensures { result ≡ sum_before size log.now i }
{
    if i == 0 {
        sum_at(log, 24)
    } else {
        sum_at(frame_bytes(log, size, i - 1), 16)
    }
}

/// The checksum that is due before a frame by the bytes there.
fn due_before(log: &[u8], size: usize, i: usize) -> Sum
    requires { IsIn size log.now i }
    ensures { result ≡ due_before size log.now i }
{
    if i == 0 {
        return sum_at(log, 24);
    }
    let before = sum_before(log, size, i - 1);
    sum_of(log[3] == 0x83, before, frame_bytes(log, size, i - 1))
}

/// Whether a frame adds up behind the checksum that is stored before it.
pub fn passes(log: &[u8], size: usize, i: usize) -> bool
    requires { IsIn size log.now i }
    ensures { IsTrue result ↔ Passes size log.now i }
{
    is_frame(
        &log[..HEADER_LENGTH],
        sum_before(log, size, i),
        frame_bytes(log, size, i),
    )
}

/// Whether a frame is as it was written.
pub fn stands(log: &[u8], size: usize, i: usize) -> bool
    requires { IsIn size log.now i }
    ensures { IsTrue result ↔ Stands size log.now i }
{
    let head = &log[..HEADER_LENGTH];
    let bytes = frame_bytes(log, size, i);
    is_frame(head, sum_before(log, size, i), bytes)
        || is_frame(head, due_before(log, size, i), bytes)
}

/// Whether a frame is of a page, and goes on from what is before it.
pub fn follows(log: &[u8], size: usize, is_big: bool, i: usize) -> bool
    requires { IsIn size log.now i }
    ensures { IsTrue result ↔ GoesOn is_big (sum_before size log.now i) (frame size log.now i) }
{
    goes_on(is_big, sum_before(log, size, i), frame_bytes(log, size, i))
}

/// Whether a frame is the last of a commit.
pub fn commits(log: &[u8], size: usize, i: usize) -> bool
    requires { IsIn size log.now i }
    ensures { IsTrue result ↔ Commits size log.now i }
{
    number_at(frame_bytes(log, size, i), 4) != 0
}

/// Whether a frame counts what is behind it.
pub fn counts(log: &[u8], size: usize, i: usize) -> bool
    requires { IsIn size log.now i }
    ensures { IsTrue result ↔ page_number (frame size log.now i) ≡ count_page }
{
    number_at(frame_bytes(log, size, i), 0) == COUNT_PAGE
}

/// Whether the gate of a frame is open.
pub fn is_open(log: &[u8], size: usize, i: usize) -> bool
    requires { IsIn size log.now i }
    ensures { IsTrue result ↔ IsOpen size log.now i }
{
    log[HEADER_LENGTH + i * (FRAME_HEADER_LENGTH + size) + 8] == log[16]
}
