//! Why a file that the command line names isn't used, or not to its end.
ghost use Rattle.std.specs.Prelude.{◌≡◌, IfSome, Some, false, true};
ghost use Rattle.std.specs.Io.KnownBytes.{Appends};
ghost use Rattle.mx_tasks.specs.Causes.{cause_fault};
ghost use Rattle.mx_tasks.specs.Voices.{cause_line};

use crate::fault::TaskFault;
use crate::terminal::Terminal;
use std::alloc::AllocError;
use std::fmt::Display;
use std::io;
use std::io::ErrorKind;
use thiserror::Error;

/// Why a file of books or of a roll isn't used, or not to its end. A terminal is told its words.
#[derive(Debug, Drop, Error)]
pub enum Cause {
    /// An error of the system.
    #[error("{0}")]
    System(io::Error),
    /// Another process has it open.
    #[error("another process has it open")]
    Busy,
    /// It is a folder, a device or the like.
    #[error("it isn't a regular file")]
    Irregular,
    /// It has a second name.
    #[error("it has a second name (a hard link)")]
    SecondName,
    /// New books are to be made in it, and it has a byte.
    #[error("it is there, and isn't empty")]
    NotEmpty,
    /// A copy of the books is to be put there, and they are in it themselves.
    #[error("it is the file of the books itself")]
    Itself,
    /// A copy of the books is to be put there, and it is no database.
    #[error("it is there, and isn't a copy of books")]
    OtherFile,
    /// Books are to be opened in it, and it has no byte.
    #[error("it is empty")]
    Empty,
    /// It doesn't begin as a database of SQLite does.
    #[error("it isn't a database of SQLite")]
    NotADatabase,
    /// Its pages aren't those of a database that was closed.
    #[error("it is damaged, or another program wrote it: a page doesn't match its checksum or the others")]
    Damaged,
    /// It has what this program doesn't read, or rows that break their own rules.
    #[error("it has tables that this program doesn't read, or rows that break the tables' rules")]
    OtherTables,
    /// What is at `FILE-wal` is no log.
    #[error("the file beside it that ends in -wal isn't a log of SQLite")]
    OtherLog,
    /// Its log lost its header, or a commit that others follow.
    #[error("its log, the file beside it that ends in -wal, is damaged")]
    DamagedLog,
    /// New books are to be made, and what is at `FILE-wal` would go into them.
    #[error("the log beside it, which ends in -wal, has changes of other books")]
    FullLog,
    /// The log can't be opened or made.
    #[error("its log, the file beside it that ends in -wal, can't be opened or made")]
    NoLog,
    /// SQLite has left a rollback journal.
    #[error("a rollback journal of SQLite is beside it, which ends in -journal")]
    Journal,
    /// What is at `FILE-init` isn't what an `init` has left, or can't be removed.
    #[error("the file beside it that ends in -init isn't what an init has left, or can't be removed")]
    Leftover,
    /// Another `init` makes the same books.
    #[error("another init makes it at the same time")]
    Rival,
    /// The disk is full.
    #[error("the disk is full")]
    DiskFull,
    /// The disk failed.
    #[error("the disk failed at a read or a write")]
    DiskFailed,
    /// A roll has too many bytes.
    #[error("it has more than 1048576 bytes")]
    TooLarge,
    /// A roll has another header or none, or a first row with another number of fields.
    #[error("its header isn't kind,name,of,token, or row 1 hasn't four fields; 0 rows are done")]
    NoRoll,
    /// A row of a roll has another number of fields.
    #[error("row {row} hasn't four fields; the {done} rows before it are done")]
    BadRow {
        /// The number of the row, counted from 1 after the header.
        row: u64,
        /// How many rows come before it.
        done: u64,
    },
    /// The import of a roll ended at a fault that isn't the roll's.
    #[error("{done} rows are done")]
    Unfinished {
        /// The fault.
        fault: TaskFault,
        /// How many rows are done.
        done: u64,
    },
    /// A fault that says all.
    #[error("{}", .0.text())]
    Fault(#[from] TaskFault),
}

/// Tells a terminal something of the file of a path. A voice that isn't a terminal is told nothing.
fn tell_of<T: Terminal, D: Display + Drop>(terminal: &mut T, path: &str, words: D)
    ensures unseen { T.is_seen terminal.old ≡ Some false → terminal.new ≡ terminal.old }
    ensures seen { T.is_seen terminal.old ≡ Some true → IfSome (D.output words)
        (λ words. Appends (T.said terminal.old) (T.said terminal.new) (cause_line path.now words)) }
{
    if terminal.is_terminal() {
        terminal.say(format_args!("{path}: {words}\n"));
    }
}

impl Cause {
    /// Why the import of a roll ended at a fault, once so many rows were done.
    pub fn of_import(fault: TaskFault, done: u64) -> Cause {
        match (fault, done) {
            (TaskFault::Roll, 0) => Cause::NoRoll,
            (TaskFault::Roll, done) => Cause::BadRow {
                row: done.saturating_add(1),
                done,
            },
            (fault, done) => Cause::Unfinished { fault, done },
        }
    }

    /// The fault with which the task ends.
    pub fn fault(&self) -> TaskFault
        ensures { result ≡ cause_fault self.now }
    {
        match self {
            Cause::System(error) if error.kind() == ErrorKind::OutOfMemory => TaskFault::Memory,
            Cause::NotEmpty | Cause::Itself | Cause::OtherFile | Cause::Rival => {
                TaskFault::FileExists
            }
            Cause::Empty => TaskFault::NotThisSchema,
            Cause::TooLarge => TaskFault::RollTooLarge,
            Cause::NoRoll | Cause::BadRow { .. } => TaskFault::Roll,
            Cause::Unfinished { fault, .. } | Cause::Fault(fault) => *fault,
            _ => TaskFault::File,
        }
    }

    /// Tells a terminal why the file of a path isn't used, and gives the fault. A voice that isn't a terminal is told nothing.
    pub fn tell_to<T: Terminal>(&self, terminal: &mut T, path: &str) -> TaskFault
        ensures fault { result ≡ cause_fault self.now }
        ensures unseen { T.is_seen terminal.old ≡ Some false → terminal.new ≡ terminal.old }
    {
        tell_of(terminal, path, self);
        self.fault()
    }

    /// Tells standard error, where that is a terminal.
    pub fn tell(&self, rt: &HostRuntime, path: &str) -> TaskFault
        ensures { result ≡ cause_fault self.now }
    {
        self.tell_to(&mut rt.stderr(), path)
    }
}

impl From<io::Error> for Cause {
    ghost use Rattle.std.specs.Prelude.{◌≡◌};
    ghost use Rattle.mx_tasks.specs.declared.cause.Cause.TheVariants.{System};

    ghost from_gives = { λ error cause. cause ≡ System error };

    fn from(error: io::Error) -> Cause {
        Cause::System(error)
    }
}

impl From<AllocError> for Cause {
    fn from(_error: AllocError) -> Cause {
        Cause::Fault(TaskFault::Memory)
    }
}
