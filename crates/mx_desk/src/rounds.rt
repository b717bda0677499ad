//! Requests that are answered together: one settle keeps what all of them change, and only then are their responses written.
ghost use Rattle.std.specs.Prelude.{◌≡◌, ◌+◌, ◌<◌, ◌≤◌, ◌++◌, ℕ, List, [], ◌∷◌, false, true, length, take, OnOk, OnErr, IfErr};
ghost use Rattle.std.specs.Io.KnownBytes.{Appends};
ghost use Rattle.mx_book.specs.Views.{Settles};
ghost use Rattle.mx_book.specs.World.{World};
ghost use Rattle.mx_desk.specs.Devices.{capped};
ghost use Rattle.mx_desk.specs.Found.{request_view};
ghost use Rattle.mx_desk.specs.Held.{Holds, HoldsMore, Responds, texts};
ghost use Rattle.mx_desk.specs.Knows.{Knows};
ghost use Rattle.mx_desk.specs.Rounds.{makes_token};
ghost use Rattle.mx_desk.specs.declared.held.Held.{Held};

use crate::answer::answer_request;
use crate::callers::Callers;
use crate::counted::Counted;
use crate::fault::DeskFault;
use crate::first::first;
use crate::head::{Found, Received};
use crate::held::{Held, MOST_TOGETHER};
use crate::input::Input;
use crate::outlet::Outlet;
use crate::output::write_out;
use crate::workspace::Workspace;
use mx_book::Book;
use mx_book::contract::StoreFault;
use mx_command::Command;
use mx_office::Office;
use mx_wire::Routes;
use std::alloc::Global;
use std::io::Write;

/// Whether a command makes a token.
fn makes_token(command: &Command) -> bool
    ensures { result ≡ makes_token command.now }
{
    matches!(
        command,
        Command::NewMember { .. } | Command::NewHolder { .. }
    )
}

/// Answers a request in the round, and gives what is held of it. Says whether the round goes on behind it: not behind a request
/// that was given up or that makes a token.
pub(crate) fn draft<B: Book>(
    alloc: Global,
    workspace: &mut Workspace,
    routes: &Routes,
    office: &mut Office<B>,
    request: &Received<'_>,
) -> (Held, bool)
    ensures holds { Holds B.fails (B.view office.old.book) (B.view office.new.book)
        workspace.old.callers workspace.new.callers
        (result.0 ∷ []) (request_view request.now ∷ []) }
    ensures round { workspace.new.round ≡ workspace.old.round }
    ensures token { result.1 ≡ true → makes_token workspace.new.command ≡ false }
{
    let route = routes.route(request.method, request.path);
    let routed = route.is_some();
    let response = answer_request(alloc, workspace, office, &route, request);
    let goes_on = response.is_ok() && !makes_token(&workspace.command);
    let held = Held {
        response,
        method: request.method,
        routed,
    };
    (held, goes_on)
}

/// Answers a request in the round, and holds what is to be sent. Says whether the round goes on behind it, which it doesn't
/// where it is full.
pub(crate) fn hold<B: Book>(
    alloc: Global,
    workspace: &mut Workspace,
    routes: &Routes,
    office: &mut Office<B>,
    request: &Received<'_>,
) -> bool
    requires { length workspace.old.round.held.items < 64 }
    ensures holds { (h : Held)
        × (workspace.new.round.held.items ≡ workspace.old.round.held.items ++ h ∷ [])
        × Holds B.fails (B.view office.old.book) (B.view office.new.book)
        workspace.old.callers workspace.new.callers (h ∷ []) (request_view request.now ∷ []) }
    ensures alone { workspace.new.round.alone ≡ workspace.old.round.alone }
    ensures room { result ≡ true → (workspace.new.round.alone ≡ false)
        × (length workspace.new.round.held.items < 64) }
    ensures token { result ≡ true → makes_token workspace.new.command ≡ false }
{
    let (held, goes_on) = draft(alloc, workspace, routes, office, request);
    workspace.round.held.push(held);
    goes_on && !workspace.round.alone && workspace.round.held.len() < MOST_TOGETHER
}

/// Answers the whole requests that are pending in the round, while it goes on.
pub(crate) fn hold_more<B: Book>(
    alloc: Global,
    workspace: &mut Workspace,
    input: &mut Input,
    routes: &Routes,
    office: &mut Office<B>,
    goes_on: bool,
)
    requires { goes_on ≡ true → (workspace.old.round.alone ≡ false)
        × (length workspace.old.round.held.items < 64) }
    ensures holds { HoldsMore B.fails (B.view office.old.book) (B.view office.new.book)
        workspace.old.callers workspace.new.callers
        workspace.old.round.held.items workspace.new.round.held.items input.old input.new }
    ensures alone { workspace.new.round.alone ≡ workspace.old.round.alone }
    ensures one { workspace.old.round.alone ≡ true
        → workspace.new.round.held.items ≡ workspace.old.round.held.items }
{
    let mut goes_on = goes_on;
    while goes_on {
        let Found::Whole(request, end) = first(input.pending(), &mut workspace.fields) else {
            return;
        };
        goes_on = hold(alloc, workspace, routes, office, &request);
        input.forget(end);
    }
}

/// Writes what is to be sent to each request. A fault is `Write`, and then the first part of it was written, and not all.
fn write_all<W: Write>(writer: &mut Counted<W>, held: &[Held], kept: bool) -> Result<(), DeskFault>
    ensures ok { OnOk result (Appends (W.contents writer.old.device) (W.contents writer.new.device)
        (texts kept held.now)
        × (writer.new.failures ≡ writer.old.failures)) }
    ensures err { OnErr result ((count : ℕ) × (count < length (texts kept held.now))
        × Appends (W.contents writer.old.device) (W.contents writer.new.device)
        (take count (texts kept held.now))
        × (writer.new.failures ≡ capped (writer.old.failures + 1))) }
    ensures fault { IfErr result (λ e. e ≡ DeskFault.Write) }
{
    for one in held {
        write_out(writer, one.text(kept))?;
    }
    Ok(())
}

/// Why a round, or its last request, was given up. A request's own fault comes first, since it may be why the settle failed.
fn cause(held: &[Held], settled: Result<(), StoreFault>) -> Option<StoreFault> {
    if let Some(
        Held {
            response: Err(fault),
            ..
        },
    ) = held.last()
    {
        return Some(*fault);
    }
    settled.err()
}

/// Settles the round. What is remembered of tokens is forgotten where that is a fault: then each request that needed the books is
/// sent 503.
pub fn settle<B: Book>(
    alloc: Global,
    workspace: &mut Workspace,
    office: &mut Office<B>,
) -> Result<(), StoreFault>
    ensures settles { Settles (B.view office.old.book) (B.view office.new.book) result }
    ensures fault { IfErr result B.fails }
    ensures same { OnOk result (workspace.new.callers ≡ workspace.old.callers) }
    ensures anew { OnErr result ((w : World) → Knows w workspace.new.callers) }
    ensures round { workspace.new.round ≡ workspace.old.round }
{
    let settled = office.settle();
    if settled.is_err() {
        workspace.callers = Callers::new(alloc);
    }
    settled
}

/// Settles the round, and then sends what is held: each response, or 503 to each request that needed the books where the settle
/// failed. The writer learns first where it is the store that failed. A fault is `Write`.
pub fn respond<W: Outlet, B: Book>(
    alloc: Global,
    workspace: &mut Workspace,
    writer: &mut Counted<W>,
    office: &mut Office<B>,
) -> Result<(), DeskFault>
    ensures responds { Responds B.fails (B.view office.old.book) (B.view office.new.book)
        workspace.old.callers workspace.new.callers
        workspace.old.round.held.items (W.contents writer.old.device)
        (W.contents writer.new.device) result }
    ensures fault { IfErr result
        (λ e. (e ≡ DeskFault.Write) × (writer.new.failures ≡ capped (writer.old.failures + 1))) }
    ensures whole { OnOk result (writer.new.failures ≡ writer.old.failures) }
{
    let settled = settle(alloc, workspace, office);
    let held = workspace.round.held.as_slice();
    if cause(held, settled) == Some(StoreFault::Store) {
        writer.store_failed();
    }
    write_all(writer, held, settled.is_ok())
}
