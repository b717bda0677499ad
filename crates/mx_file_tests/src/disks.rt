//! A database file and its log, in memory, of which one stops at a call, and what is done with a connection to them.
use mx_audit::Ordered;
use sqlite::{Connection, FileStore, Files, Options};
use sqlite_disk::{Crash, Disk, Fuse, Memory};
use std::alloc::Global;
use std::io;
use std::process::Abort;

/// A file in memory that may stop.
pub(super) type Fused = Fuse<Memory>;

/// The file that stops: each of its calls from then on fails.
#[derive(Clone, Copy, Debug)]
pub(super) enum Stopping {
    /// The log, which grows.
    Log,
    /// The log, which is copied into the database file by each commit after it.
    CopiedLog,
    /// The database file, into which the log is copied so.
    Database,
}

/// Each of them.
pub(super) const EACH: [Stopping; 3] = [Stopping::Log, Stopping::CopiedLog, Stopping::Database];

/// Two files that may stop.
#[derive(Drop)]
pub(super) struct Disks {
    pub(super) files: Files<Fused>,
    /// How many frames the log has when a commit first copies it into the database file.
    pub(super) frames: usize,
}

/// A fuse of so many calls never blows.
const ALL_CALLS: u64 = u64::MAX;

/// So many frames has the log when a program copies it.
const USUAL_FRAMES: usize = 1_000;

/// More calls than any run here makes before its end.
pub(super) const MOST_CALLS: u64 = 10_000;

/// The seed of the log's salts.
const SEED: u64 = 7;

/// A file that has these bytes, all of them synced.
fn file_of(alloc: Global, bytes: &[u8]) -> io::Result<Memory> {
    let mut file = Memory::new(alloc);
    file.write_at(0, bytes)?;
    file.sync()?;
    Ok(file)
}

/// Copies of files, all of them synced, of which one stops after so many calls.
pub(super) fn stopping_after(
    alloc: Global,
    files: &Files<Memory>,
    which: Stopping,
    calls: u64,
) -> io::Result<Disks> {
    let (log_calls, database_calls, frames) = match which {
        Stopping::Log => (calls, ALL_CALLS, USUAL_FRAMES),
        Stopping::CopiedLog => (calls, ALL_CALLS, 1),
        Stopping::Database => (ALL_CALLS, calls, 1),
    };
    let log = Fuse::new(file_of(alloc, files.log.bytes())?, log_calls);
    let db = Fuse::new(file_of(alloc, files.db.bytes())?, database_calls);
    Ok(Disks {
        files: Files { log, db },
        frames,
    })
}

/// Copies of files that don't stop.
pub(super) fn never_stopping(alloc: Global, files: &Files<Memory>) -> io::Result<Disks> {
    stopping_after(alloc, files, Stopping::Log, ALL_CALLS)
}

/// Files that are opened once more.
pub(super) fn once_more(files: Files<Fused>) -> Disks {
    Disks {
        files,
        frames: USUAL_FRAMES,
    }
}

/// Two empty files.
pub(super) fn empty_files(alloc: Global) -> Files<Memory> {
    Files {
        log: Memory::new(alloc),
        db: Memory::new(alloc),
    }
}

/// Whether a file stopped.
fn has_stopped(file: &mut Fused) -> bool {
    !file.may_be_used() || file.len().is_err()
}

/// Whether one of the files stopped.
pub(super) fn have_stopped(files: &mut Files<Fused>) -> bool {
    has_stopped(&mut files.log) || has_stopped(&mut files.db)
}

/// What is left where the program stops and the machine doesn't: all that was written.
pub(super) fn as_written(alloc: Global, files: &Files<Fused>) -> io::Result<Files<Memory>> {
    Ok(Files {
        log: file_of(alloc, files.log.inner().bytes())?,
        db: file_of(alloc, files.db.inner().bytes())?,
    })
}

/// What is left where the machine stops: what was synced.
pub(super) fn as_synced(alloc: Global, files: &mut Files<Fused>) -> io::Result<Files<Memory>> {
    files.log.crash();
    files.db.crash();
    as_written(alloc, files)
}

/// A connection to files, or the files where they can't be opened.
pub(super) fn connected<D: Disk + Drop>(
    alloc: Global,
    files: Files<D>,
    frames: usize,
) -> Result<Connection<FileStore<D>>, Files<D>> {
    if !files.may_be_used() {
        return Err(files);
    }
    let options = Options {
        checkpoint_frames: frames,
        ..Options::new(SEED)
    };
    match Connection::open_files(alloc, files, options) {
        Ok(conn) => Ok(conn),
        Err((_, left)) => Err(left.into_files()),
    }
}

/// The files of a connection, as it leaves them where it stops.
pub(super) fn files_of<D: Disk + Drop>(conn: Connection<FileStore<D>>) -> Files<D> {
    conn.into_store().close()
}

/// What is done with a connection. It is proved once for a store of any kind, which is quick; what names a kind of store is
/// proved slowly.
pub(super) trait Deed {
    /// What it gives.
    type Done: Drop;

    /// Does it, and gives the connection back. None where it isn't done.
    fn act<S: Ordered + Drop>(
        &self,
        rt: &(impl Abort + AllocGlobal),
        conn: Connection<S>,
    ) -> (Option<Self::Done>, Connection<S>);
}

/// What was done with files, if they were opened and it was done, and the files after it.
#[derive(Drop)]
pub(super) struct Ended<T> {
    pub(super) done: Option<T>,
    pub(super) files: Files<Fused>,
}

/// Does it with a connection to files. None where they aren't opened.
fn act_on<D: Disk + Drop, A: Deed>(
    rt: &(impl Abort + AllocGlobal),
    files: Files<D>,
    frames: usize,
    deed: &A,
) -> (Option<A::Done>, Files<D>) {
    match connected(rt.alloc(), files, frames) {
        Ok(conn) => {
            let (done, conn) = deed.act(rt, conn);
            (done, files_of(conn))
        }
        Err(files) => (None, files),
    }
}

/// Does it with a connection to files that may stop.
pub(super) fn done_in<A: Deed>(
    rt: &(impl Abort + AllocGlobal),
    disks: Disks,
    deed: &A,
) -> Ended<A::Done> {
    let (done, files) = act_on(rt, disks.files, disks.frames, deed);
    Ended { done, files }
}
