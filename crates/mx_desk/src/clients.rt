//! Clients whose requests are answered in rounds, each over a connection of its own.
ghost use Rattle.std.specs.Prelude.{◌≡◌, [], Bool};
ghost use Rattle.mx_desk.specs.Clients.{Looks, held_by};
ghost use Rattle.mx_desk.specs.Held.{text_of};
ghost use Rattle.mx_desk.specs.Serve.{stop_text};

use crate::desk::stop_fixed;
use crate::first::first;
use crate::head::{Found, Stop};
use crate::held::Held;
use crate::rounds::draft;
use crate::workspace::Workspace;
use mx_book::Book;
use mx_office::Office;
use mx_wire::{Response, Routes};
use std::alloc::Global;

/// What becomes of a client of whom some bytes came.
#[derive(Drop)]
pub enum Looked {
    /// More has to come. If nothing more comes, it is that fault, or nothing where nothing came.
    Waits(Option<Stop>),
    /// This is held for it until the round is settled: of its first request, or since what came can't be framed; and whether the
    /// round goes on behind it.
    Asks(Held, bool),
}

/// What is sent where what came can't be framed.
#[tactic(auto, unfolding(crate::specs::Serve::stop_text))]
pub fn unframed(stop: Stop) -> Held
    ensures { (kept : Bool) → text_of kept result ≡ stop_text stop }
{
    Held {
        response: Ok(Response::Always(stop_fixed(stop.reason))),
        method: stop.method,
        routed: false,
    }
}

/// Looks at what came of a client: its first request, where that is whole, is answered in the round, and so is what can't be framed.
/// The books wait for the settle, and so does what is sent.
pub fn look<B: Book>(
    alloc: Global,
    workspace: &mut Workspace,
    routes: &Routes,
    office: &mut Office<B>,
    came: &[u8],
) -> Looked
    ensures looks { Looks B.fails (B.view office.old.book) (B.view office.new.book)
        workspace.old.callers workspace.new.callers came.now result }
    ensures unmoved { held_by result ≡ [] → (office.new ≡ office.old)
        × (workspace.new.callers ≡ workspace.old.callers) }
{
    match first(came, &mut workspace.fields) {
        Found::Open(fault) => Looked::Waits(fault),
        Found::Stopped(stop) => Looked::Asks(unframed(stop), true),
        Found::Whole(request, _) => {
            let (held, goes_on) = draft(alloc, workspace, routes, office, &request);
            Looked::Asks(held, goes_on)
        }
    }
}
