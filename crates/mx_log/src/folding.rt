//! A log that is brought into its database.
ghost use Rattle.std.specs.Prelude.{IfOk, IsTrue};
ghost use Rattle.sqlite_wal.specs.Files.{seen_image};
ghost use Rattle.sqlite_wal.specs.Reads.{AreClean};
ghost use Rattle.mx_log.specs.Folds.{IsFolded};

use sqlite_disk::{Disk, Files};
use sqlite_wal::{Error, Log, probe_page_size};
use std::alloc::Global;

/// A database and its log, of which nothing is in the log.
#[derive(Drop)]
pub struct Folded<D: Disk> {
    /// The files.
    pub files: Files<D>,
    /// How many frames of the log were taken.
    pub frames: usize,
}

/// Brings what is committed in the log of a database into the database file, as an opening of both would find it, and waits until
/// the disk has that. The seed, which is to be random, is for the header of the log, which is emptied.
///
/// # Errors
///
/// `Corrupt` where the files are no database; `Full` where they are too long; `Io` where they can't be read or written; and
/// `OutOfMemory`.
pub fn fold<D: Disk + Drop>(alloc: Global, files: Files<D>, seed: u64) -> Result<Folded<D>, Error>
    requires log { IsTrue (D.Disk.is_usable files.log) }
    requires db { IsTrue (D.Disk.is_usable files.db) }
    ensures { IfOk result (λ folded. AreClean D.Disk folded.files.log folded.files.db
        → IsFolded D.Disk (seen_image D.Disk files.log files.db) folded) }
{
    let mut files = files;
    let Some(size) = probe_page_size(&mut files)? else {
        return Err(Error::Corrupt);
    };
    let mut log = Log::new(alloc, files, size, seed)?;
    log.recover()?;
    let frames = log.frames();
    log.finish()?;
    Ok(Folded {
        files: log.into_files(),
        frames,
    })
}
