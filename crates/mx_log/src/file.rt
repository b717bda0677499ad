//! The log in a file.
ghost use Rattle.std.specs.Prelude.{◌≡◌, ◌↔◌, IfOk, IsTrue};
ghost use Rattle.sqlite_wal.specs.Reads.{IsClean, OnlyReads};
ghost use Rattle.mx_log.specs.Damage.{IsDamaged};

use crate::damage::is_damaged;
use sqlite_disk::Disk;
use std::alloc::Global;
use std::io;

/// Whether the log in a file is damaged where no stop of this program leaves it so. It takes as many bytes of memory as the
/// file has, and writes nothing.
///
/// # Errors
///
/// Where the file can't be read, or memory is short.
pub fn holds_damage<D: Disk>(alloc: Global, log: &mut D) -> io::Result<bool>
    requires { IsTrue (D.Disk.is_usable log.old) }
    ensures damaged { IfOk result (λ found. IsClean D.Disk log.new
        → (IsTrue found ↔ IsDamaged (D.Disk.seen log.old))) }
    ensures same { OnlyReads D.Disk log.old log.new }
{
    let length = log.len()?;
    let mut bytes = vec![in alloc; 0; length]?;
    log.read_at(0, &mut bytes)?;
    Ok(is_damaged(&bytes))
}
