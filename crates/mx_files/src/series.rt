//! The law of series: the program that is run again and again over the same files is as one that runs once.
ghost use Rattle.std.specs.Prelude.{List};
ghost use Rattle.sqlite_wal.specs.Recovery.{Image};
ghost use Rattle.mx_book.specs.World.{World};
ghost use Rattle.mx_desk.specs.Durable.{Lives};
ghost use Rattle.mx_desk.specs.Serve.{Marked};
ghost use Rattle.mx_args.specs.declared.task.Task.{Task};
ghost use Rattle.mx_files.specs.InFiles.{AreHonest, HoldTables};
ghost use Rattle.mx_files.specs.Performed.{Performs, Streams};
ghost use Rattle.mx_files.specs.Series.{IsAnswering, Life, MayHold, Series};
ghost use Rattle.mx_files.specs.declared.closing.Ended.{Ended};

use sqlite_disk::Disk;

/// A task that answers requests (`perform` of `run` or `serve`) over files that held the books of a World, and left honest files,
/// is a life (`life`): what the next opening finds is the books of the World after its requests, or that with one round of them
/// more, which was given up. A series of lives over the same files, each from what the one before left, has the requests of all
/// of them, in order, as one list (`series`), of which holds what the law `lives` says.
///
/// The call does nothing.
pub fn series<D: Disk>()
    ensures life { (bytes next : Image) (before after : Streams) (task : Task)
        (ended : Ended (Unit {0}) D D.Disk) (w : World) → IsAnswering task → HoldTables bytes w
        → Performs bytes before after task ended → AreHonest ended.left
        → MayHold ended.left next → (found : World) × Life w next found }
    ensures series { (w now : World) (ms : List Marked) (bytes : Image)
        → Series w ms bytes now → Lives w ms now × HoldTables bytes now }
{}
