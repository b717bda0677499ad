//! Lives over the books in a store, each ended by a stop.
ghost use Rattle.std.specs.Prelude.{◌≡◌, ◌≤◌, IfSome, false, map, true};
ghost use Rattle.sqlite.specs.Held.{state};
ghost use Rattle.mx_book.specs.World.{World};
ghost use Rattle.mx_desk.specs.Durable.{Lasts};
ghost use Rattle.mx_desk.specs.Rounds.{Leads};
ghost use Rattle.mx_tables.specs.Rounds.{IsSettled};
ghost use Rattle.mx_tables.specs.States.{IsAwake, IsOurs, Leaves, IsSound, IsHonest};
ghost use Rattle.mx_files.specs.Durable.{Represents};
ghost use Rattle.mx_lives.specs.Lived.{LivedTo, RunsOver};

use crate::answered::{Life, answered};
use mx_audit::{Ordered, open};
use mx_book::Book;
use mx_standing::Standing;
use mx_tables::Tables;
use sqlite::Connection;
use sqlite_trees::store::Reopen;
use std::alloc::Global;

/// Stops at this moment, and opens the books again. They are found as a stop may leave them. None where they can't be opened.
fn stopped<S: Ordered + Reopen + Drop>(
    alloc: Global,
    book: Standing<Tables<S>>,
) -> Option<Standing<Tables<S>>>
    ensures calm { IfSome result (λ again. IsSound (state S.Store again.book.0)
        → IsHonest (state S.Store book.book.0)) }
    ensures left { IsSettled S.Store book.book
        → IfSome result (λ again. IsSound (state S.Store again.book.0)
        → Leaves (state S.Store book.book.0) (state S.Store again.book.0).now) }
    ensures settled { IfSome result (λ again. IsSettled S.Store again.book) }
    ensures awake { IfSome result (λ again. IsAwake (state S.Store again.book.0)) }
{
    let mut store = book.into_inner().into_store().into_store();
    let Ok(()) = store.crash_and_reopen() else {
        return None;
    };
    let Ok(found) = Connection::over(alloc, store) else {
        return None;
    };
    match open(alloc, found, 0) {
        Ok((again, _)) => Some(again),
        Err(_) => None,
    }
}

/// One life: answers the requests of an input over books that are open, stops, and opens them again. None where they can't be
/// opened.
fn live<S: Ordered + Reopen + Drop>(
    alloc: Global,
    book: Standing<Tables<S>>,
    input: &[u8],
) -> Option<(Standing<Tables<S>>, Life)>
    ensures calm { IsSettled S.Store book.book
        → IfSome result (λ r. IsSound (state S.Store r.0.book.0)
        → IsHonest (state S.Store book.book.0)) }
    ensures lives { (w : World) → IsSettled S.Store book.book → IsSound (state S.Store book.book.0)
        → Represents (state S.Store book.book.0).now w
        → IfSome result (λ r. IsSound (state S.Store r.0.book.0)
        → Leads (RunsOver ⟦<Standing<Tables<S>> as Book>⟧.fails w input.now r.1)
        (Lasts (Represents (state S.Store r.0.book.0).now) w)) }
    ensures settled { IfSome result (λ r. IsSettled S.Store r.0.book) }
    ensures awake { IfSome result (λ r. IsAwake (state S.Store r.0.book.0)) }
{
    let (left, life) = answered(alloc, book, input);
    Some((stopped(alloc, left)?, life))
}

/// Lives over the books in a store, one for each input, in order. A life answers the requests of its input, and is
/// ended by a stop (`crash_and_reopen`), behind which the books are opened again. Gives back the store as it was opened
/// last, with what came of each life; None where the books couldn't be opened, or there is no memory.
///
/// All lives together are one list of requests (`lives`): of the rounds that a life gave up, one at most was done after all,
/// behind which nothing was changed.
pub fn live_on<S: Ordered + Reopen + Drop>(
    alloc: Global,
    store: Connection<S>,
    inputs: &[&[u8]],
) -> Option<(Connection<S>, Vec<Life>)>
    ensures calm { IfSome result (λ end. IsSound (state S.Store end.0)
        → IsSound (state S.Store store)) }
    ensures ours { IfSome result (λ end. IsOurs false (state S.Store end.0)) }
    ensures lives { IfSome result (λ end. IsSound (state S.Store end.0)
        → (w : World) × Represents (state S.Store store).now w
        × LivedTo ⟦<Standing<Tables<S>> as Book>⟧.fails true (Represents (state S.Store end.0).now)
        (map (λ input. input.now) inputs.now) end.1.items w) }
{
    let Ok((opened, _)) = open(alloc, store, 0) else {
        return None;
    };
    let mut book = opened;
    let mut lives = Vec::new(alloc);
    'inputs: for input in inputs {
        let (again, life) = live(alloc, book, input)?;
        book = again;
        lives.push(life).ok()?;
    }
    Some((book.into_inner().into_store(), lives))
}
