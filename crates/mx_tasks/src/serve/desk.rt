//! Where clients are answered.
ghost use Rattle.std.specs.Prelude.{◌≡◌, [], IfOk};
ghost use Rattle.mx_book.specs.World.{World};
ghost use Rattle.mx_desk.specs.Clients.{HoldsEach};
ghost use Rattle.mx_desk.specs.Found.{IsOpen};
ghost use Rattle.mx_desk.specs.Knows.{Knows};
ghost use Rattle.mx_tasks.specs.Attended.{IsAttended, IsUnframedBy, came_by, held_by};
ghost use Rattle.mx_tasks.specs.Seats.{IsFresh};

use crate::serve::connection::Connection;
use crate::serve::seat::{Arrival, Visitor};
use mx_book::Book;
use mx_desk::Workspace;
use mx_desk::callers::Callers;
use mx_desk::clients::{Looked, look, unframed};
use mx_desk::head::Stop;
use mx_desk::held::Held;
use mx_office::Office;
use mx_wire::Routes;
use std::alloc::{AllocError, Global};

/// How many bytes are read at once.
const PIECE: usize = 16_384;

/// How often a client is read at most before the others go on: a request that isn't whole has fewer bytes.
const MOST_READS: u32 = 12_288;

/// What clients are answered with.
#[derive(Drop)]
pub struct Desk {
    pub alloc: Global,
    pub routes: Routes,
    pub workspace: Workspace,
    /// Memory that bytes are read in.
    pub piece: Vec<u8>,
}

/// What became of a client that was answered nothing before.
#[derive(Drop)]
pub enum Attended<S> {
    /// More has to come.
    Waits(Visitor<S>),
    /// Its connection ends without an answer.
    Leaves(Visitor<S>),
    /// This is held for it, and whether the round goes on behind it.
    Asks(Visitor<S>, Held, bool),
}

/// What becomes of a client that sends nothing more: what came of it is that fault, or nothing came.
fn at_end<S: Connection>(visitor: Visitor<S>, fault: Option<Stop>) -> Attended<S>
    ensures fresh { IsFresh S.received S.written visitor
        → IsAttended S.received S.written result }
    ensures unframed { IsOpen visitor.came.items fault → IsUnframedBy result }
{
    match fault {
        Some(stop) => Attended::Asks(visitor, unframed(stop), true),
        None => Attended::Leaves(visitor),
    }
}

impl Desk {
    /// A desk that remembers nothing.
    pub fn new(alloc: Global) -> Result<Desk, AllocError>
        ensures { (w : World) → IfOk result (λ desk. Knows w desk.workspace.callers) }
    {
        Ok(Desk {
            alloc,
            routes: Routes::new(alloc)?,
            workspace: Workspace::new(alloc, Callers::new(alloc), false),
            piece: Vec::from_elem(alloc, 0, PIECE)?,
        })
    }

    /// Reads what has come of a client. Its first request is answered in the round once it is whole, and so is what can't be framed.
    pub fn attend<S: Connection, B: Book>(
        &mut self,
        office: &mut Office<B>,
        visitor: Visitor<S>,
    ) -> Attended<S>
        ensures fresh { IsFresh S.received S.written visitor
            → IsAttended S.received S.written result }
        ensures holds { HoldsEach B.fails (B.view office.old.book) (B.view office.new.book)
            self.old.workspace.callers self.new.workspace.callers (came_by result) (held_by result) }
        ensures unmoved { held_by result ≡ [] → (office.new ≡ office.old)
            × (self.new.workspace.callers ≡ self.old.workspace.callers) }
    {
        let mut visitor = visitor;
        'reads: for _ in 0..MOST_READS {
            let arrival = visitor.read_more(self.piece.as_mut_slice());
            match arrival {
                Arrival::Nothing => return Attended::Waits(visitor),
                Arrival::Failed => return Attended::Leaves(visitor),
                Arrival::Bytes | Arrival::End => {}
            }
            let came = visitor.came.as_slice();
            match look(self.alloc, &mut self.workspace, &self.routes, office, came) {
                Looked::Asks(held, goes_on) => return Attended::Asks(visitor, held, goes_on),
                Looked::Waits(fault) if arrival == Arrival::End => return at_end(visitor, fault),
                Looked::Waits(_) => {}
            }
        }
        Attended::Waits(visitor)
    }
}
