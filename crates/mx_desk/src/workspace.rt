//! What requests are worked out in.
ghost use Rattle.std.specs.Prelude.{◌≡◌, []};

use crate::callers::Callers;
use crate::first::MAX_FIELDS;
use crate::held::Round;
use httparse::spans::{EMPTY_HEADER_SPAN, HeaderSpan};
use mx_command::Command;
use mx_office::values::Decided;
use mx_wire::Scratch;
use std::alloc::Global;

/// What a request is worked out in, kept from one request to the next, so that nothing large is made anew for each.
#[derive(Drop)]
pub struct Workspace {
    /// What bodies are read in.
    pub scratch: Scratch,
    /// The last command.
    pub command: Command,
    /// The last decision.
    pub decided: Decided,
    /// Whose the tokens were that came so far.
    pub callers: Callers,
    /// What is held of the last round.
    pub round: Round,
    /// What the fields of a head are read in.
    pub fields: [HeaderSpan; MAX_FIELDS],
}

impl Workspace {
    /// A workspace in which nothing was worked out yet, and this is known of tokens. `alone` says whether a round has one
    /// request alone.
    pub fn new(alloc: Global, callers: Callers, alone: bool) -> Workspace
        ensures edits { result.decided.edits ≡ [] }
        ensures alone { result.round.alone ≡ alone }
        ensures callers { result.callers ≡ callers }
    {
        Workspace {
            scratch: Scratch::new(alloc),
            command: Command::Collect,
            decided: Decided::new(),
            callers,
            round: Round::new(alone),
            fields: [EMPTY_HEADER_SPAN; MAX_FIELDS],
        }
    }
}
