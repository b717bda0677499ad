//! The law of lives: books whose program was stopped are as books whose program never was.
ghost use Rattle.std.specs.Prelude.{List};
ghost use Rattle.mx_book.specs.World.{World};
ghost use Rattle.mx_desk.specs.Durable.{Lives};
ghost use Rattle.mx_desk.specs.Leaves.{Lawful};
ghost use Rattle.mx_desk.specs.Serve.{Marked};

/// A series of lives over the same books, each ended by its end or by a stop, is as one list of requests (`lives`): those
/// that were answered, in order, and behind those of a life that was stopped at most one round more, which was given up
/// there and is done after all. So what is promised of requests holds of all of them: each holder is kept apart, as the law
/// of isolation has it of any two such lists; from a World that commands lead to they lead to such a World, and nothing that
/// they ask is refused because a purse or a float is full; and what they ask are operations of the abstract purses.
///
/// A life is what `run` and `serve_one` say of the requests that they answered (`Lawful`). What a stop leaves of it, the World
/// in the end or that with one round more, is what their clauses `runs` and `serves` say of the book (`MovesTo`).
///
/// The call does nothing.
pub fn lives()
    ensures lives { (w now : World) (ms : List Marked) → Lives w ms now → Lawful w ms now }
{}
