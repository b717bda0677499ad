//! One request: who sent it, what it asks, and the response.
ghost use Rattle.std.specs.Prelude.{◌≡◌, ◌≤◌, Some, None, Ok, IfOk, IfErr, OnErr, option_map};
ghost use Rattle.mx_book.specs.Views.{Bides, Keeps, IsSure};
ghost use Rattle.mx_desk.specs.Answers.{IsAnswer};
ghost use Rattle.mx_desk.specs.Found.{request_view};
ghost use Rattle.mx_desk.specs.Knows.{Has, Knows};
ghost use Rattle.mx_desk.specs.Respond.{is_of_class, caller_of, after_body, after_caller, caller_takes, command_takes, respond, IsGivenUpFor, MayBeGivenUp};
ghost use Rattle.mx_wire.specs.Routes.{route_of};

use crate::callers::Callers;
use crate::head::Received;
use crate::workspace::Workspace;
use mx_book::Book;
use mx_book::contract::StoreFault;
use mx_book::values::Caller;
use mx_command::{Refusal, Reply};
use mx_office::Office;
use mx_pay::Token;
use mx_wire::bodies::read_body_into;
use mx_wire::{Class, Fixed, Response, Route, WireFault, render};
use std::alloc::Global;

fn is_of_class(caller: &Caller, class: Class) -> bool
    ensures { result ≡ is_of_class caller.now class }
{
    match caller {
        Caller::Operator => class == Class::Operator,
        Caller::Clerk(_) => class == Class::Clerk,
        Caller::Holder(_) => class == Class::Holder,
    }
}

/// Who has the token of a token field. None where there is no one such field, or it is nobody's token. A token whose caller
/// is remembered is not asked for; else its caller is remembered.
fn caller_of<B: Book>(
    alloc: Global,
    callers: &mut Callers,
    office: &mut Office<B>,
    field: Option<&[u8]>,
) -> Result<Option<Caller>, StoreFault>
    ensures keeps { Keeps (B.view office.old.book) (B.view office.new.book) }
    ensures value { let w = (B.view office.old.book).world in IsSure (B.view office.new.book)
        → Knows w callers.old
        → IfOk result (λ r. r ≡ caller_of w (option_map (λ x. x.now) field.entry)) }
    ensures known { let w = (B.view office.old.book).world in IsSure (B.view office.new.book)
        → Knows w callers.old → Knows w callers.new }
    ensures fault { IfErr result B.fails }
{
    let Some(text) = field else {
        return Ok(None);
    };
    let Some(token) = Token::read_bytes(text) else {
        return Ok(None);
    };
    if let Some(caller) = callers.find(&token) {
        return Ok(Some(caller));
    }
    let Some(caller) = office.book.who(alloc, &token)? else {
        return Ok(None);
    };
    callers.add(&token, &caller);
    Ok(Some(caller))
}

/// Decides the command in the workspace, makes the response, and only then changes the books. A command that is refused
/// takes no memory beyond a list that is read for it.
fn answer_command<B: Book>(
    alloc: Global,
    workspace: &mut Workspace,
    office: &mut Office<B>,
    caller: Caller,
) -> Result<Response, StoreFault>
    ensures later { (B.view office.old.book).doubt ≤ (B.view office.new.book).doubt }
    ensures bides { Bides (B.view office.old.book) (B.view office.new.book) }
    ensures round { workspace.new.round ≡ workspace.old.round }
    ensures answers { let w = (B.view office.old.book).world in IsSure (B.view office.new.book)
        → Knows w workspace.old.callers
        → IsAnswer (Has (B.view office.new.book) workspace.new.callers) w
        (after_body w caller (Some workspace.old.command))
        (IsGivenUpFor B.fails (command_takes w caller workspace.old.command)) result }
    ensures err { IsSure (B.view office.new.book)
        → OnErr result ((B.view office.new.book).world ≡ (B.view office.old.book).world) }
{
    let decided = &mut workspace.decided;
    office.decide_into(alloc, caller, &workspace.command, decided)?;
    if let Reply::Refused(refusal) = decided.reply {
        return Ok(Response::Always(Fixed::Refused(refusal)));
    }
    let Ok(response) = render(alloc, &decided.reply) else {
        return Err(StoreFault::Memory);
    };
    office.commit(decided)?;
    Ok(response)
}

/// Answers a request that has this route.
#[tactic(auto, unfolding(crate::specs::Respond::after_caller, crate::specs::Respond::after_body))]
fn answer_routed<B: Book>(
    alloc: Global,
    workspace: &mut Workspace,
    office: &mut Office<B>,
    route: &Route,
    request: &Received<'_>,
) -> Result<Response, StoreFault>
    ensures later { (B.view office.old.book).doubt ≤ (B.view office.new.book).doubt }
    ensures bides { Bides (B.view office.old.book) (B.view office.new.book) }
    ensures round { workspace.new.round ≡ workspace.old.round }
    ensures answers { let w = (B.view office.old.book).world in IsSure (B.view office.new.book)
        → Knows w workspace.old.callers
        → IsAnswer (Has (B.view office.new.book) workspace.new.callers) w
        (after_caller w (request_view request.now) route.now
        (caller_of w (request_view request.now).token))
        (IsGivenUpFor B.fails (caller_takes w (request_view request.now) route.now
        (caller_of w (request_view request.now).token))) result }
    ensures err { IsSure (B.view office.new.book)
        → OnErr result ((B.view office.new.book).world ≡ (B.view office.old.book).world) }
{
    let Some(caller) = caller_of(alloc, &mut workspace.callers, office, request.token)? else {
        return Ok(Response::Always(Fixed::TokenUnknown));
    };
    if !is_of_class(&caller, route.class()) {
        return Ok(Response::Always(Fixed::Refused(Refusal::NotForCaller)));
    }
    let Workspace {
        scratch,
        command,
        ..
    } = workspace;
    match read_body_into(alloc, route, request.body, scratch, command) {
        Ok(()) => answer_command(alloc, workspace, office, caller),
        Err(WireFault::Memory) => Err(StoreFault::Memory),
        Err(WireFault::BadBody) => Ok(Response::Always(Fixed::BadBody)),
        Err(WireFault::NoRoute) => unreachable!(),
    }
}

/// Answers a request in a round, by its route: the response, and the change that goes with it, which waits for the
/// settle. After a fault nothing is changed.
///
/// A fault comes only where the request has a route. Unless a call of the book that takes no memory may fail, its token
/// is that of a caller of its class, and memory is taken: where its route reads a body, for a list that is read, for
/// edits, and for a response that is made for its reply.
#[tactic(auto, unfolding(crate::specs::Respond::respond, crate::specs::Respond::after_route))]
pub fn answer_request<B: Book>(
    alloc: Global,
    workspace: &mut Workspace,
    office: &mut Office<B>,
    route: &Option<Route>,
    request: &Received<'_>,
) -> Result<Response, StoreFault>
    ensures later { (B.view office.old.book).doubt ≤ (B.view office.new.book).doubt }
    ensures bides { Bides (B.view office.old.book) (B.view office.new.book) }
    ensures round { workspace.new.round ≡ workspace.old.round }
    ensures answers { let w = (B.view office.old.book).world in IsSure (B.view office.new.book)
        → Knows w workspace.old.callers
        → route.now ≡ route_of (request_view request.now).method (request_view request.now).path
        → IsAnswer (Has (B.view office.new.book) workspace.new.callers) w
        (respond w (request_view request.now))
        (MayBeGivenUp B.fails w (request_view request.now)) result }
    ensures err { IsSure (B.view office.new.book)
        → OnErr result ((B.view office.new.book).world ≡ (B.view office.old.book).world) }
    ensures no_route { route.now ≡ None → result ≡ Ok (Response.Always Fixed.NoRoute) }
{
    match route {
        Some(route) => answer_routed(alloc, workspace, office, route, request),
        None => Ok(Response::Always(Fixed::NoRoute)),
    }
}
