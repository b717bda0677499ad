//! One round: the clients whose requests are whole are answered together.
ghost use Rattle.std.specs.Prelude.{◌≡◌, ◌+◌, ◌≤◌, [], IsErr, false, length};
ghost use Rattle.mx_book.specs.Views.{IsHonest};
ghost use Rattle.mx_book.specs.World.{World};
ghost use Rattle.mx_desk.specs.Knows.{Knows, RestsKnown};
ghost use Rattle.mx_desk.specs.Rounds.{Leads, Moves};
ghost use Rattle.mx_tasks.specs.Connections.{Gathers, ServesRound};
ghost use Rattle.mx_tasks.specs.Halls.{hall};
ghost use Rattle.mx_tasks.specs.Voices.{RingsFor};

use crate::fault::TaskFault;
use crate::serve::alarm::Alarm;
use crate::serve::connection::Connection;
use crate::serve::desk::{Attended, Desk};
use crate::serve::listener::Listener;
use crate::serve::reception::Reception;
use crate::serve::seat::{Asked, Seat};
use crate::voice::Voice;
use mx_book::Book;
use mx_book::contract::StoreFault;
use mx_desk::held::MOST_TOGETHER;
use mx_desk::rounds::settle;
use mx_office::Office;
use std::time::Instant;

/// How many clients are looked at before a round ends.
const MOST_LOOKS: u32 = 1024;

/// What became of a client that was ready.
#[derive(Drop)]
struct Turn {
    /// Whether the round goes on behind it.
    goes_on: bool,
    /// Why its request was given up.
    fault: Option<StoreFault>,
}

/// Attends to the next client that is ready, if there is one, and holds the answer where it asked. A round doesn't go on behind a
/// request that was given up or that makes a token.
fn attend_next<S: Connection + Drop, L: Listener<S>, V, B: Book>(
    desk: &mut Desk,
    reception: &mut Reception<L, S, V>,
    now: Instant,
    office: &mut Office<B>,
    round: &mut Vec<Asked<S>>,
) -> Turn
    ensures gathers { Gathers B.fails S.received S.written
        (B.view office.old.book) (B.view office.new.book)
        desk.old.workspace.callers desk.new.workspace.callers
        (hall L.clients reception.old) (hall L.clients reception.new)
        round.old.items round.new.items }
    ensures one { length round.new.items ≤ length round.old.items + 1 }
    ensures unmoved { length round.new.items ≡ length round.old.items
        → (office.new ≡ office.old)
        × (desk.new.workspace.callers ≡ desk.old.workspace.callers) }
    ensures quiet { reception.new.alarm ≡ reception.old.alarm }
{
    const NOBODY: Turn = Turn {
        goes_on: false,
        fault: None,
    };
    if round.reserve(1).is_err() {
        return NOBODY;
    }
    let Some((place, visitor)) = reception.next_visitor(now, desk.piece.as_mut_slice()) else {
        return NOBODY;
    };
    match desk.attend(office, visitor) {
        Attended::Waits(visitor) => reception.seat(place, visitor),
        Attended::Leaves(visitor) => reception.leave(place, Seat::Asking(visitor)),
        Attended::Asks(visitor, held, goes_on) => {
            let fault = held.response.as_ref().err().copied();
            let asked = Asked {
                visitor,
                held,
                place,
            };
            let Ok(()) = round.push(asked) else {
                unreachable!()
            };
            return Turn { goes_on, fault };
        }
    }
    Turn {
        goes_on: true,
        fault: None,
    }
}

/// Attends to the clients that are ready, in order, and holds the answers of those that asked, 64 at most. Says why the last
/// request was given up, where it was.
fn gather<S: Connection + Drop, L: Listener<S>, V, B: Book>(
    desk: &mut Desk,
    reception: &mut Reception<L, S, V>,
    now: Instant,
    office: &mut Office<B>,
    round: &mut Vec<Asked<S>>,
) -> Option<StoreFault>
    requires { round.old.items ≡ [] }
    ensures gathers { Gathers B.fails S.received S.written
        (B.view office.old.book) (B.view office.new.book)
        desk.old.workspace.callers desk.new.workspace.callers
        (hall L.clients reception.old) (hall L.clients reception.new)
        [] round.new.items }
    ensures few { length round.new.items ≤ 64 }
    ensures unmoved { length round.new.items ≡ 0 → (office.new ≡ office.old)
        × (desk.new.workspace.callers ≡ desk.old.workspace.callers) }
    ensures quiet { reception.new.alarm ≡ reception.old.alarm }
{
    'looks: for _ in 0..MOST_LOOKS {
        if MOST_TOGETHER <= round.len() {
            break;
        }
        let turn = attend_next(desk, reception, now, office, round);
        if !turn.goes_on {
            return turn.fault;
        }
    }
    None
}

/// Where the store failed a request, that is said; and where nothing can be settled any more, that it is shut.
///
/// # Errors
///
/// `Store` where the store is shut.
fn ring<V: Voice, B: Book>(
    desk: &mut Desk,
    alarm: &mut Alarm<V>,
    office: &mut Office<B>,
    has_failed: bool,
) -> Result<(), TaskFault>
    ensures serves { (w : World) → IsHonest (B.view office.new.book)
        → RestsKnown (B.view office.old.book) desk.old.workspace.callers w
        → Leads (λ ms now. (ms ≡ []) × (now ≡ w))
        (λ rs v. Moves (B.view office.old.book) (B.view office.new.book) w rs v
        × Knows v desk.new.workspace.callers) }
    ensures lasts { (B.view office.old.book).harm ≤ (B.view office.new.book).harm }
    ensures still { (B.view office.old.book).IsSettled → (B.view office.new.book).IsSettled }
    ensures rings { RingsFor V.said alarm.old alarm.new (IsErr result) }
    ensures quiet { has_failed ≡ false → (alarm.new ≡ alarm.old) × (office.new ≡ office.old) }
{
    if !has_failed {
        return Ok(());
    }
    if settle(desk.alloc, &mut desk.workspace, office) == Err(StoreFault::Store) {
        alarm.say_shut();
        return Err(TaskFault::Store);
    }
    alarm.ring();
    Ok(())
}

/// Serves the clients that are ready in a round: those whose requests are whole are answered together, one settle keeps what they
/// change, and only then they are told.
///
/// # Errors
///
/// `Store` where the store is shut. The round is told all the same.
pub fn serve_round<S: Connection + Drop, L: Listener<S>, V: Voice, B: Book>(
    desk: &mut Desk,
    reception: &mut Reception<L, S, V>,
    now: Instant,
    office: &mut Office<B>,
) -> Result<(), TaskFault>
    ensures serves { (w : World) → IsHonest (B.view office.new.book)
        → RestsKnown (B.view office.old.book) desk.old.workspace.callers w
        → Leads (ServesRound B.fails S.received S.written w
        (hall L.clients reception.old) (hall L.clients reception.new))
        (λ rs v. Moves (B.view office.old.book) (B.view office.new.book) w rs v
        × Knows v desk.new.workspace.callers) }
    ensures later { (B.view office.old.book).IsSettled
        → (B.view office.old.book).doubt ≤ (B.view office.new.book).doubt }
    ensures still { (B.view office.old.book).IsSettled → (B.view office.new.book).IsSettled }
    ensures count { reception.new.count ≡ reception.old.count }
    ensures rings { RingsFor V.said reception.old.alarm reception.new.alarm (IsErr result) }
{
    let mut round = Vec::new(desk.alloc);
    let fault = gather(desk, reception, now, office, &mut round);
    if round.is_empty() {
        return Ok(());
    }
    let settled = settle(desk.alloc, &mut desk.workspace, office);
    reception.tell(round, settled.is_ok(), now, desk.piece.as_mut_slice());
    let has_failed = fault.or(settled.err()) == Some(StoreFault::Store);
    ring(desk, &mut reception.alarm, office, has_failed)
}
