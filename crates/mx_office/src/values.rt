//! Decisions, and what came of commands.
ghost use Rattle.std.specs.Prelude.{◌≡◌, []};

use mx_book::edits::Edits;
use mx_command::{Refusal, Reply};

/// What a command would do: the reply, and the edits of the book that lead to its World.
#[derive(Drop)]
pub struct Decided {
    /// The reply.
    pub reply: Reply,
    /// The edits, in order.
    pub edits: Edits,
}

impl Decided {
    /// A decision to begin with, which refuses and has no edits.
    pub fn new() -> Decided
        ensures reply { result.reply ≡ Reply.Refused Refusal.NotForCaller }
        ensures edits { result.edits ≡ [] }
    {
        Decided {
            reply: Reply::Refused(Refusal::NotForCaller),
            edits: Edits::new(),
        }
    }
}

/// What came of one of several commands.
#[derive(Drop)]
pub enum Outcome {
    /// It was answered so.
    Reply(Reply),
    /// The book could not do it, and nothing changed.
    Unavailable,
}
