//! Books that answer the requests of an input.
ghost use Rattle.std.specs.Prelude.{◌≡◌, ◌≤◌};
ghost use Rattle.mx_book.specs.Views.{RestsAt, IsHonest};
ghost use Rattle.mx_book.specs.World.{World};
ghost use Rattle.mx_desk.specs.Rounds.{Leads, Moves};
ghost use Rattle.mx_lives.specs.Lived.{RunsOver};

use mx_book::Book;
use mx_desk::Counted;
use mx_office::Office;
use mx_tasks::TaskFault;
use mx_tasks::runs::run_office;
use std::alloc::Global;

/// What came of a life.
#[derive(Drop)]
pub struct Life {
    /// How its run ended: with how many responses, or by which fault.
    pub ended: Result<u64, TaskFault>,
    /// The bytes that it wrote.
    pub written: Vec<u8>,
}

/// Lends books to an office that answers the requests of an input, and gives them back, with what came of that.
pub(crate) fn answered<B: Book>(alloc: Global, book: B, input: &[u8]) -> (B, Life)
    ensures later { (B.view book).IsSettled → (B.view book).doubt ≤ (B.view result.0).doubt }
    ensures still { (B.view book).IsSettled → (B.view result.0).IsSettled }
    ensures runs { (w : World) → IsHonest (B.view result.0) → RestsAt (B.view book) w
        → Leads (RunsOver B.fails w input.now result.1) (Moves (B.view book) (B.view result.0) w) }
{
    let mut office = Office::new(book);
    let mut reader = Counted::new(input);
    let mut writer = Counted::new(Vec::new(alloc));
    let ended = run_office(alloc, &mut office, &mut reader, &mut writer);
    let written = writer.into_inner();
    (office.into_book(), Life { ended, written })
}
