//! Why the program's task isn't done.
ghost use Rattle.std.specs.Prelude.{◌≡◌};
ghost use Rattle.mx_tasks.specs.Faults.{fault_text};

use mx_book::StoreFault;
use mx_desk::DeskFault;
use mx_report::{RollFault, RollFaultKind};
use std::alloc::AllocError;

/// Why the program's task isn't done. Each has its words on standard error, behind `fault: `.
#[derive(Clone, Copy, Debug, PartialEq, Eq)]
pub enum TaskFault {
    /// Standard input can't be read.
    Read,
    /// Standard output can't be written or flushed.
    Write,
    /// The input wasn't at its end after the most reads.
    Turns,
    /// There is no memory.
    Memory,
    /// The store refused a statement for another cause, or holds a row that isn't a value of the books; or the file
    /// couldn't be closed.
    Store,
    /// The file is a database, or empty, but has no books of this version.
    NotThisSchema,
    /// New books are to be made in a file that is there and isn't empty.
    FileExists,
    /// The file or the roll isn't there, or can't be opened, read or made; or another process has the file open.
    File,
    /// The port can't be listened on, or clients can't be waited for.
    Net,
    /// There is no purse of that name.
    NoSuchPurse,
    /// The roll has another header or none, or a record with another number of fields.
    Roll,
    /// The roll has more than 1,048,576 bytes.
    RollTooLarge,
}

impl TaskFault {
    /// The words of the fault.
    pub fn text(&self) -> &'static str
        ensures { result.now ≡ fault_text self.now }
    {
        match self {
            TaskFault::Read => "read",
            TaskFault::Write => "write",
            TaskFault::Turns => "turns",
            TaskFault::Memory => "memory",
            TaskFault::Store => "store",
            TaskFault::NotThisSchema => "not this schema",
            TaskFault::FileExists => "file exists",
            TaskFault::File => "file",
            TaskFault::Net => "net",
            TaskFault::NoSuchPurse => "no such purse",
            TaskFault::Roll => "roll",
            TaskFault::RollTooLarge => "roll too large",
        }
    }
}

impl From<AllocError> for TaskFault {
    ghost use Rattle.std.specs.Prelude.{◌≡◌};
    ghost use Rattle.mx_tasks.specs.declared.fault.TaskFault.TheVariants.{Memory};

    ghost from_gives = { λ _ fault. fault ≡ Memory };

    fn from(_error: AllocError) -> TaskFault {
        TaskFault::Memory
    }
}

impl From<DeskFault> for TaskFault {
    ghost use Rattle.std.specs.Prelude.{◌≡◌};
    ghost use Rattle.mx_tasks.specs.Faults.{fault_of};

    ghost from_gives = { λ desk fault. fault ≡ fault_of desk };

    fn from(fault: DeskFault) -> TaskFault {
        match fault {
            DeskFault::Read => TaskFault::Read,
            DeskFault::Write => TaskFault::Write,
            DeskFault::Turns => TaskFault::Turns,
        }
    }
}

impl From<StoreFault> for TaskFault {
    ghost use Rattle.std.specs.Prelude.{◌≡◌};
    ghost use Rattle.mx_tasks.specs.Faults.{store_fault_of};

    ghost from_gives = { λ store fault. fault ≡ store_fault_of store };

    fn from(fault: StoreFault) -> TaskFault {
        match fault {
            StoreFault::Memory => TaskFault::Memory,
            StoreFault::Store => TaskFault::Store,
        }
    }
}

impl From<RollFault> for TaskFault {
    ghost use Rattle.std.specs.Prelude.{◌≡◌};
    ghost use Rattle.mx_tasks.specs.Faults.{roll_fault_of};

    ghost from_gives = { λ roll fault. fault ≡ roll_fault_of roll.kind };

    fn from(fault: RollFault) -> TaskFault {
        match fault.kind {
            RollFaultKind::NotRoll => TaskFault::Roll,
            RollFaultKind::Memory => TaskFault::Memory,
            RollFaultKind::Store => TaskFault::Store,
        }
    }
}
