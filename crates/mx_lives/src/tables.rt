//! A run over tables in memory.
ghost use Rattle.std.specs.Prelude.{◌≡◌, Err, List, []};
ghost use Rattle.mx_book.specs.World.{World, opening};
ghost use Rattle.mx_desk.specs.Serve.{Marked};
ghost use Rattle.mx_desk.specs.Steps.{state};
ghost use Rattle.mx_office.specs.Reachable.{IsReachable};
ghost use Rattle.mx_tasks.specs.Faults.{Untouched};
ghost use Rattle.mx_tasks.specs.Runs.{IsUnbegun, TaskRuns};

use mx_audit::opening::as_refusal;
use mx_audit::{Refusal, open};
use mx_book::Book;
use mx_desk::{Counted, Outlet};
use mx_office::Office;
use mx_pay::Token;
use mx_standing::Standing;
use mx_tables::Tables;
use mx_tasks::TaskFault;
use mx_tasks::runs::run_office;
use sqlite::{Connection, MemStore};
use std::alloc::Global;
use std::io::Read;

/// Why a run over tables in memory doesn't begin.
fn unbegun(fault: Refusal) -> TaskFault
    ensures { IsUnbegun (Err result) }
{
    match fault {
        Refusal::Memory => TaskFault::Memory,
        _ => TaskFault::Store,
    }
}

/// Answers the requests of the input over new tables in memory that are given up at the end, for the operator with that
/// token, and says how many responses were written, as `run_memory` does over a book in memory. A request may be given up,
/// answered 503 and changing nothing, wherever a statement is refused. A fault is `Memory` or `Store` where the tables can't be
/// made, or `Memory` where there is none for the routes, and then nothing was read or written; or that of the desk.
///
/// A store in memory returns what was written to it, so nothing is said under a doubt.
pub fn run_memory_tables<R: Read, W: Outlet>(
    alloc: Global,
    operator: Token,
    reader: &mut Counted<R>,
    writer: &mut Counted<W>,
) -> Result<u64, TaskFault>
    ensures unbegun { IsUnbegun result → Untouched reader.old reader.new writer.old writer.new }
    ensures begins { IsReachable (opening operator) }
    ensures runs { (ms : List Marked) × (now : World)
        × TaskRuns ⟦<Standing<Tables<MemStore>> as Book>⟧.fails
        (state [] (R.remaining reader.old.device) (W.contents writer.old.device)
        (opening operator)) result ms
        (state [] (R.remaining reader.new.device) (W.contents writer.new.device) now) }
{
    // The reader says that the token has its bytes.
    let _bytes = operator.as_bytes();
    let store = Connection::open_in_memory(alloc)?;
    let made = match Tables::create(alloc, store, operator) {
        Ok(made) => made.into_store(),
        Err(refused) => return Err(unbegun(as_refusal(refused.fault))),
    };
    match open(alloc, made, 0) {
        Ok((book, _)) => run_office(alloc, &mut Office::new(book), reader, writer),
        Err(refused) => Err(unbegun(refused.fault)),
    }
}
