//! What the program does for a run: requests from a reader, responses to a writer.
ghost use Rattle.std.specs.Prelude.{◌≡◌, ◌≤◌, List, [], Err, IfErr};
ghost use Rattle.mx_book.specs.Views.{RestsAt, IsHonest};
ghost use Rattle.mx_book.specs.World.{World, opening};
ghost use Rattle.mx_desk.specs.Rounds.{Leads, Moves};
ghost use Rattle.mx_desk.specs.Serve.{Marked};
ghost use Rattle.mx_desk.specs.Steps.{state};
ghost use Rattle.mx_office.specs.Reachable.{IsReachable};
ghost use Rattle.mx_tasks.specs.Faults.{Untouched};
ghost use Rattle.mx_tasks.specs.Runs.{IsRunFault, TaskRuns};

use crate::fault::TaskFault;
use mx_book::Book;
use mx_desk::desk::run;
use mx_desk::{Counted, Outlet};
use mx_memory::{PlainBook, new_book};
use mx_office::Office;
use mx_pay::Token;
use mx_standing::Standing;
use mx_wire::Routes;
use std::alloc::Global;
use std::io::Read;

/// Answers the requests of the input over any office, and says how many responses were written. It is a run of the desk
/// (`runs`).
///
/// A fault is `Memory` where there is none for the routes, and then nothing was read, written or changed; or that of
/// the desk: `Read` where a read failed, `Turns` where 1,000,000,000 reads didn't reach the end of the input, `Write`
/// where a response couldn't be written or flushed.
pub fn run_office<R: Read, W: Outlet, B: Book>(
    alloc: Global,
    office: &mut Office<B>,
    reader: &mut Counted<R>,
    writer: &mut Counted<W>,
) -> Result<u64, TaskFault>
    ensures later { (B.view office.old.book).IsSettled
        → (B.view office.old.book).doubt ≤ (B.view office.new.book).doubt }
    ensures still { (B.view office.old.book).IsSettled → (B.view office.new.book).IsSettled }
    ensures unbegun { result ≡ Err TaskFault.Memory → (office.new ≡ office.old)
        × Untouched reader.old reader.new writer.old writer.new }
    ensures fault { IfErr result IsRunFault }
    ensures runs { (w : World) → IsHonest (B.view office.new.book)
        → RestsAt (B.view office.old.book) w
        → Leads (λ ms now. TaskRuns B.fails
        (state [] (R.remaining reader.old.device) (W.contents writer.old.device) w) result ms
        (state [] (R.remaining reader.new.device) (W.contents writer.new.device) now))
        (Moves (B.view office.old.book) (B.view office.new.book) w) }
{
    let routes = Routes::new(alloc)?;
    let count = run(alloc, reader, writer, &routes, office)?;
    Ok(count)
}

/// Answers the requests of the input, as `run_office` does, over an office of this book, which it gives back.
pub fn run_in_book<R: Read, W: Outlet, B: Book>(
    alloc: Global,
    book: B,
    reader: &mut Counted<R>,
    writer: &mut Counted<W>,
) -> (Result<u64, TaskFault>, B)
    ensures later { (B.view book).IsSettled → (B.view book).doubt ≤ (B.view result.1).doubt }
    ensures still { (B.view book).IsSettled → (B.view result.1).IsSettled }
    ensures unbegun { result.0 ≡ Err TaskFault.Memory
        → Untouched reader.old reader.new writer.old writer.new }
    ensures fault { IfErr result.0 IsRunFault }
    ensures runs { (w : World) → IsHonest (B.view result.1) → RestsAt (B.view book) w
        → Leads (λ ms now. TaskRuns B.fails
        (state [] (R.remaining reader.old.device) (W.contents writer.old.device) w) result.0 ms
        (state [] (R.remaining reader.new.device) (W.contents writer.new.device) now))
        (Moves (B.view book) (B.view result.1) w) }
{
    let mut office = Office::new(book);
    let answer = run_office(alloc, &mut office, reader, writer);
    (answer, office.into_book())
}

/// Answers the requests of the input over books in memory that are given up at the end, for the operator with that
/// token, and says how many responses were written. It is a run of the desk (`runs`) from a World to which commands
/// lead (`begins`).
///
/// A fault is `Memory` where there is none for the routes, and then nothing was read or written; or that of the desk:
/// `Read` where a read failed, `Turns` where 1,000,000,000 reads didn't reach the end, `Write` where a write or a flush
/// failed.
pub fn run_memory<R: Read, W: Outlet>(
    alloc: Global,
    operator: Token,
    reader: &mut Counted<R>,
    writer: &mut Counted<W>,
) -> Result<u64, TaskFault>
    ensures unbegun { result ≡ Err TaskFault.Memory
        → Untouched reader.old reader.new writer.old writer.new }
    ensures fault { IfErr result IsRunFault }
    ensures begins { IsReachable (opening operator) }
    ensures runs { (ms : List Marked) × (now : World)
        × TaskRuns ⟦<Standing<PlainBook> as Book>⟧.fails
        (state [] (R.remaining reader.old.device) (W.contents writer.old.device)
        (opening operator)) result ms
        (state [] (R.remaining reader.new.device) (W.contents writer.new.device) now) }
{
    // The reader says that the token has its bytes.
    let _bytes = operator.as_bytes();
    let (count, _) = run_in_book(alloc, new_book(alloc, operator), reader, writer);
    count
}
