//! The look at a log before an opening.
ghost use Rattle.std.specs.Prelude.{◌≡◌, Err, OnOk, IsTrue};
ghost use Rattle.sqlite_wal.specs.Reads.{IsClean, OnlyReads};
ghost use Rattle.mx_log.specs.Damage.{IsDamaged};

use mx_log::holds_damage;
use mx_tasks::Cause;
use sqlite_disk::Disk;
use std::alloc::Global;

/// Fails where the log of a database is damaged, since an opening would drop what was answered behind the damage. Nothing is
/// written.
///
/// # Errors
///
/// `DamagedLog` where it is damaged; `System` where it can't be read, or memory is short.
pub(crate) fn look_at_log<D: Disk>(alloc: Global, log: &mut D) -> Result<(), Cause>
    requires { IsTrue (D.Disk.is_usable log.old) }
    ensures sound { OnOk result (IsClean D.Disk log.new → ¬ IsDamaged (D.Disk.seen log.old)) }
    ensures damaged { result ≡ Err Cause.DamagedLog → IsClean D.Disk log.new
        → IsDamaged (D.Disk.seen log.old) }
    ensures same { OnlyReads D.Disk log.old log.new }
{
    if holds_damage(alloc, log)? {
        return Err(Cause::DamagedLog);
    }
    Ok(())
}
