//! The law of isolation, on bytes, and what it takes to speak of several calls as of one.
ghost use Rattle.std.specs.Prelude.{◌≡◌, ◌++◌, List};
ghost use Rattle.mx_book.specs.World.{World, Name};
ghost use Rattle.mx_office.specs.Isolation.{cut};
ghost use Rattle.mx_desk.specs.Isolation.{seen, told};
ghost use Rattle.mx_desk.specs.Leaves.{Lawful};
ghost use Rattle.mx_desk.specs.Serve.{Marked};

/// The law of isolation: for any two lists of accepted requests that agree on one holder's own requests, the purses and
/// value issued to it and the messages put into its purses' inboxes, in the same order, that holder's replies are the
/// same bytes, and they are what the purse operations give on that view alone, whatever other holders did.
///
/// It rests on nothing but what `run` and `serve_one` promise of the requests that they answered (`Lawful`, in their clauses
/// `runs` and `serves`), over any two books:
///
/// - `alike`: the requests of two calls, over any two inputs, that begin with Worlds which agree on what is the holder's own,
///   and which look the same to the holder, tell the holder the same bytes, and leave the same as the holder's own.
///
/// What a holder sees are the holder's own requests, each with its method, its path and its body, and what commands
/// brought the holder: purses, loads, settlements, and messages. Requests that were given up, and so answered 503,
/// aren't seen; they changed nothing.
///
/// The call does nothing.
pub fn isolation()
    ensures alike { (h : Name) (v now w end : World) (ms ns : List Marked) → Lawful v ms now
        → Lawful w ns end
        → cut v h ≡ cut w h → seen h v ms ≡ seen h w ns
        → (told h v ms ≡ told h w ns) × (cut now h ≡ cut end h) }
{}

/// Calls one after the other are as one call: what is promised of the requests of each is promised of all of them
/// (`composes`), from connection to connection and from one run over a book to the next. So the law of isolation speaks of
/// them, from a World that commands lead to they lead to such a World, and the commands that they ask are operations of the
/// abstract purses.
///
/// The call does nothing.
pub fn composition()
    ensures composes { (w now end : World) (ms ns : List Marked) → Lawful w ms now
        → Lawful now ns end
        → Lawful w (ms ++ ns) end }
{}
