//! When a log is damaged.
ghost use Rattle.std.specs.Prelude.{◌≡◌, ◌+◌, ◌^◌, ◌<◌, ◌≤◌, ◌↔◌, ℕ, length, IsTrue};
ghost use Rattle.sqlite_wal.specs.Recovery.{frame, sum_before};
ghost use Rattle.mx_log.specs.Damage.{Begins, GoesOn, HasFrame, HasLaterCommit, IsDamaged, IsIn, IsOpenTo, IsWhole, StopsAt};

use crate::frames::{
    commits, count_frames, counts, follows, is_emptied, is_open, is_signed, number_at, passes,
    stands,
};

/// The least bytes of a log with a frame.
const LEAST_LENGTH: usize = 56;

/// The sizes of pages that SQLite allows.
const PAGE_SIZES: [usize; 8] = [512, 1024, 2048, 4096, 8192, 16384, 32768, 65536];

/// Where a recovery of a log stops.
#[derive(Clone, Copy)]
struct Stop {
    /// The first frame that doesn't add up, or the number of frames.
    broken: usize,
    /// The first frame from there on whose gate is shut, or the number of frames.
    shut: usize,
}

/// The first frame that doesn't add up, or the number of frames.
fn first_broken(log: &[u8], size: usize, count: usize) -> usize
    requires { (i : ℕ) → (IsIn size log.now i ↔ i < count) }
    ensures stops { StopsAt size log.now result }
    ensures few { result ≤ count }
{
    for i in 0..count {
        if !passes(log, size, i) {
            return i;
        }
    }
    count
}

/// The first frame from this one on whose gate is shut, or the number of frames.
fn first_shut(log: &[u8], size: usize, from: usize, count: usize) -> usize
    requires count { (i : ℕ) → (IsIn size log.now i ↔ i < count) }
    requires order { from ≤ count }
    ensures { IsOpenTo size log.now from result }
{
    for i in from..count {
        if !is_open(log, size, i) {
            return i;
        }
    }
    count
}

/// Where a recovery of a log stops.
fn find_stop(log: &[u8], size: usize, count: usize) -> Stop
    requires { (i : ℕ) → (IsIn size log.now i ↔ i < count) }
    ensures stops { StopsAt size log.now result.broken }
    ensures open { IsOpenTo size log.now result.broken result.shut }
    ensures few { result.broken ≤ count }
{
    let broken = first_broken(log, size, count);
    let shut = first_shut(log, size, broken, count);
    Stop { broken, shut }
}

/// Whether the frames from this one on stand up to one that commits, where that is known of those behind it.
fn is_whole_from(log: &[u8], size: usize, i: usize, is_whole: bool) -> bool
    requires within { IsIn size log.now i }
    requires behind { IsTrue is_whole ↔ IsWhole size log.now (i + 1) }
    ensures { IsTrue result ↔ IsWhole size log.now i }
{
    stands(log, size, i) && (is_whole || commits(log, size, i))
}

/// Whether a commit that isn't the one of the broken frame begins behind this frame.
fn begins(log: &[u8], size: usize, stop: Stop, behind: usize) -> bool
    requires within { IsIn size log.now (behind + 1) }
    requires later { stop.broken ≤ behind }
    requires open { IsOpenTo size log.now stop.broken stop.shut }
    ensures { IsTrue result ↔ Begins size log.now stop.broken behind }
{
    counts(log, size, behind + 1) || behind < stop.shut && commits(log, size, behind)
}

/// Whether a whole commit stands behind the frame at which a recovery stops, and isn't the commit of that frame.
fn has_later_commit(log: &[u8], size: usize) -> bool
    requires { size < 2 ^ 32 }
    ensures { IsTrue result ↔ HasLaterCommit size log.now }
{
    let count = count_frames(log, size);
    let stop = find_stop(log, size, count);
    let mut is_whole = false;
    let mut next = count;
    while next > stop.broken + 1 {
        next -= 1;
        is_whole = is_whole_from(log, size, next, is_whole);
        if is_whole && begins(log, size, stop, next - 1) {
            return true;
        }
    }
    false
}

/// Whether a frame of pages of this size goes on from what is before it.
fn has_frame_of(log: &[u8], size: usize, is_big: bool) -> bool
    requires { size < 2 ^ 32 }
    ensures { IsTrue result ↔ ((i : ℕ) × IsIn size log.now i
        × GoesOn is_big (sum_before size log.now i) (frame size log.now i)) }
{
    for i in 0..count_frames(log, size) {
        if follows(log, size, is_big, i) {
            return true;
        }
    }
    false
}

/// Whether a frame of a log is behind the header, for pages of some size.
fn has_frame(log: &[u8]) -> bool
    ensures { IsTrue result ↔ HasFrame log.now }
{
    for size in &PAGE_SIZES {
        if has_frame_of(log, *size, false) || has_frame_of(log, *size, true) {
            return true;
        }
    }
    false
}

/// Whether a log is damaged where no stop of this program leaves it so. Its header isn't that of a log, and a frame of one
/// follows; or behind the frame at which a recovery ends stands a whole commit that isn't the commit of that frame. Damage
/// within the last commit can't be told from a stop.
pub fn is_damaged(log: &[u8]) -> bool
    ensures { IsTrue result ↔ IsDamaged log.now }
{
    if log.len() < LEAST_LENGTH {
        return false;
    }
    if is_signed(&log[..32]) {
        has_later_commit(log, number_at(log, 8) as usize)
    } else {
        !is_emptied(log) && has_frame(log)
    }
}
