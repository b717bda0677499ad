//! The routes: which command a method and a path ask for.
ghost use Rattle.std.specs.Prelude.{◌≡◌, [], Some, IfOk, codes, option_map, option_and_then, IsAscii};
ghost use Rattle.matchit.specs.Params.{walk, named};
ghost use Rattle.mx_wire.specs.Routes.{rows_after, entries, table_rows, method_of, name_of, after, asked, got, posted, taken, route_of, class_of};
ghost use Rattle.mx_pay.specs.Limits.{most_number};
ghost use Rattle.mx_pay.specs.Reading.{limited};

use matchit::{InsertError, Match, Params, Router};
use mx_pay::{Name, Seq, read_seq};
use std::alloc::{AllocError, Global};
use std::marker::Model;

/// The method of a request.
#[derive(Clone, Copy, PartialEq, Eq)]
pub enum Method {
    /// It reads.
    Get,
    /// It is routed as GET, and its response is the head alone.
    Head,
    /// It writes.
    Post,
    /// Another, which has no route, or none.
    Other,
}

impl Method {
    /// The method of this name.
    pub fn of(name: &[u8]) -> Method
        ensures { result ≡ method_of name.now }
    {
        match name {
            b"GET" => Method::Get,
            b"HEAD" => Method::Head,
            b"POST" => Method::Post,
            _ => Method::Other,
        }
    }
}

/// Whose command it is.
#[derive(Clone, Copy, Debug, PartialEq, Eq)]
pub enum Class {
    /// The operator's.
    Operator,
    /// A clerk's.
    Clerk,
    /// A holder's.
    Holder,
}

/// What a request's method and path ask for.
#[derive(Clone, Copy)]
pub enum Route {
    /// `POST /members`.
    NewMember,
    /// `POST /members/{m}/grant`, of that member.
    Grant(Name),
    /// `POST /archive/{p}`, of that purse.
    Archive(Name),
    /// `POST /clear/{p}`, of that purse.
    Clear(Name),
    /// `POST /settle`.
    Settle,
    /// `POST /holders`.
    NewHolder,
    /// `POST /purses`.
    NewPurse,
    /// `POST /purses/{p}/load`, of that purse.
    Load(Name),
    /// `POST /collect`.
    Collect,
    /// `GET /purses`.
    Purses,
    /// `GET /purses/{p}`, of that purse.
    Show(Name),
    /// `POST /purses/{p}/start-from`, of that purse.
    StartFrom(Name),
    /// `POST /purses/{p}/start-to`, of that purse.
    StartTo(Name),
    /// `POST /purses/{p}/handle`, of that purse.
    Handle(Name),
    /// `POST /purses/{p}/discard`, of that purse.
    Discard(Name),
    /// `POST /purses/{p}/abort`, of that purse.
    Abort(Name),
    /// `POST /purses/{p}/read-log`, of that purse.
    ReadLog(Name),
    /// `POST /purses/{p}/redeem`, of that purse.
    Redeem(Name),
    /// `GET /purses/{p}/inbox`, of that purse.
    Inbox(Name),
    /// `GET /purses/{p}/statement/{after}`, of that purse, above that number.
    Statement(Name, Seq),
    /// `GET /reconcile`.
    Reconcile,
}

/// The patterns of the paths.
#[derive(Clone, Copy, Drop)]
pub enum Pattern {
    Members,
    Grant,
    Archive,
    Clear,
    Settle,
    Holders,
    Purses,
    Purse,
    Load,
    Collect,
    StartFrom,
    StartTo,
    Handle,
    Discard,
    Abort,
    ReadLog,
    Redeem,
    Inbox,
    Statement,
    Reconcile,
}

/// Each pattern with its text.
const TABLE: [(&str, Pattern); 20] = [
    ("/members", Pattern::Members),
    ("/members/{m}/grant", Pattern::Grant),
    ("/archive/{p}", Pattern::Archive),
    ("/clear/{p}", Pattern::Clear),
    ("/settle", Pattern::Settle),
    ("/holders", Pattern::Holders),
    ("/purses", Pattern::Purses),
    ("/purses/{p}", Pattern::Purse),
    ("/purses/{p}/load", Pattern::Load),
    ("/collect", Pattern::Collect),
    ("/purses/{p}/start-from", Pattern::StartFrom),
    ("/purses/{p}/start-to", Pattern::StartTo),
    ("/purses/{p}/handle", Pattern::Handle),
    ("/purses/{p}/discard", Pattern::Discard),
    ("/purses/{p}/abort", Pattern::Abort),
    ("/purses/{p}/read-log", Pattern::ReadLog),
    ("/purses/{p}/redeem", Pattern::Redeem),
    ("/purses/{p}/inbox", Pattern::Inbox),
    ("/purses/{p}/statement/{after}", Pattern::Statement),
    ("/reconcile", Pattern::Reconcile),
];

/// The routes of the office, made once. A contract sees nothing of them: they are always the same.
#[derive(Drop)]
pub struct Routes {
    router: Router<Pattern>,
}

impl Model for Routes {
    ghost use Rattle.std.specs.Prelude.{◌≡◌};
    ghost use Rattle.mx_wire.specs.Routes.{table_rows};

    ghost Value = { Unit {0} };

    ghost view = { λ r. tt };

    ghost invariant = { λ r. r.router ≡ table_rows };
}

/// A router with each pattern of a table.
fn router_of(alloc: Global, table: &[(&str, Pattern)]) -> Result<Router<Pattern>, InsertError>
    ensures { IfOk result (λ router. router ≡ rows_after [] (entries table.now)) }
{
    let mut router = Router::new(alloc);
    for entry in table {
        router.insert(entry.0, entry.1)?;
    }
    Ok(router)
}

/// The router of the table. The texts of the table read as patterns and no two of them conflict, so an error
/// is always lack of memory.
fn table_router(alloc: Global) -> Result<Router<Pattern>, AllocError>
    ensures { IfOk result (λ router. router ≡ table_rows) }
{
    match router_of(alloc, &TABLE) {
        Ok(router) => Ok(router),
        Err(_) => Err(AllocError),
    }
}

/// The name that an ASCII path has at a key of its pattern. None exactly where its part isn't a name.
fn name_in(params: &Params, key: &str) -> Option<Name>
    requires text { IsAscii params.now.text.now }
    requires path { IsAscii params.now.path.now }
    ensures { result ≡ option_and_then name_of (named key.now
        (walk params.now.pattern.now params.now.text.now params.now.path.now params.now.names.now 0
        0)) }
{
    let part = params.get(key)?;
    Name::read(part)
}

/// The number that an ASCII path has at a key of its pattern. None exactly where its part isn't a number from 0 to
/// 10^15, written without leading zeros.
fn number_in(params: &Params, key: &str) -> Option<Seq>
    requires text { IsAscii params.now.text.now }
    requires path { IsAscii params.now.path.now }
    ensures { result ≡ option_and_then (limited most_number) (named key.now
        (walk params.now.pattern.now params.now.text.now params.now.path.now params.now.names.now 0
        0)) }
{
    let part = params.get(key)?;
    read_seq(part)
}

/// The member or the purse that an ASCII path names, by the key of its pattern.
fn taken(pattern: Pattern, params: &Params) -> Option<Name>
    requires text { IsAscii params.now.text.now }
    requires path { IsAscii params.now.path.now }
    ensures { result ≡ taken pattern (walk params.now.pattern.now params.now.text.now
        params.now.path.now params.now.names.now 0 0) }
{
    match pattern {
        Pattern::Grant => name_in(params, "m"),
        _ => name_in(params, "p"),
    }
}

/// The number above which an ASCII path asks for lines. None exactly where the path of a statement has none that is
/// written without leading zeros, and for every other pattern.
fn after(pattern: Pattern, params: &Params) -> Option<Seq>
    requires text { IsAscii params.now.text.now }
    requires path { IsAscii params.now.path.now }
    ensures { result ≡ after pattern (walk params.now.pattern.now params.now.text.now
        params.now.path.now params.now.names.now 0 0) }
{
    match pattern {
        Pattern::Statement => number_in(params, "after"),
        _ => None,
    }
}

/// What GET asks of a pattern, with the name and the number in its path.
fn got(pattern: Pattern, name: Option<Name>, after: Option<Seq>) -> Option<Route>
    ensures { result ≡ got pattern name after }
{
    match pattern {
        Pattern::Purses => Some(Route::Purses),
        Pattern::Reconcile => Some(Route::Reconcile),
        Pattern::Purse => Some(Route::Show(name?)),
        Pattern::Inbox => Some(Route::Inbox(name?)),
        Pattern::Statement => Some(Route::Statement(name?, after?)),
        _ => None,
    }
}

/// What POST asks of a pattern, with the name in its path.
fn posted(pattern: Pattern, name: Option<Name>) -> Option<Route>
    ensures { result ≡ posted pattern name }
{
    match pattern {
        Pattern::Members => Some(Route::NewMember),
        Pattern::Holders => Some(Route::NewHolder),
        Pattern::Purses => Some(Route::NewPurse),
        Pattern::Collect => Some(Route::Collect),
        Pattern::Settle => Some(Route::Settle),
        Pattern::Grant => Some(Route::Grant(name?)),
        Pattern::Archive => Some(Route::Archive(name?)),
        Pattern::Clear => Some(Route::Clear(name?)),
        Pattern::Load => Some(Route::Load(name?)),
        Pattern::StartFrom => Some(Route::StartFrom(name?)),
        Pattern::StartTo => Some(Route::StartTo(name?)),
        Pattern::Handle => Some(Route::Handle(name?)),
        Pattern::Discard => Some(Route::Discard(name?)),
        Pattern::Abort => Some(Route::Abort(name?)),
        Pattern::ReadLog => Some(Route::ReadLog(name?)),
        Pattern::Redeem => Some(Route::Redeem(name?)),
        Pattern::Purse | Pattern::Inbox | Pattern::Statement | Pattern::Reconcile => None,
    }
}

/// What the pattern that an ASCII path has asks for by this method.
fn asked(method: Method, found: &Match<&Pattern>) -> Option<Route>
    requires text { IsAscii found.now.params.text.now }
    requires path { IsAscii found.now.params.path.now }
    ensures { result ≡ asked method found.now.params.path.now (record {
      pattern = found.now.params.pattern.now;
      text = found.now.params.text.now;
      names = found.now.params.names.now;
      value = found.now.value.now;
    }) }
{
    let pattern = *found.value;
    let name = taken(pattern, &found.params);
    match method {
        Method::Get | Method::Head => got(pattern, name, after(pattern, &found.params)),
        Method::Post => posted(pattern, name),
        Method::Other => None,
    }
}

impl Routes {
    /// The routes. An error is lack of memory.
    pub fn new(alloc: Global) -> Result<Routes, AllocError> {
        let router = table_router(alloc)?;
        Ok(Routes { router })
    }

    /// The route of a method and a path. None exactly where there is no route. It takes no memory.
    pub fn route(&self, method: Method, path: &[u8]) -> Option<Route>
        ensures { result ≡ route_of method path.now }
    {
        if !path.is_ascii() {
            return None;
        }
        let text = unsafe { std::str::from_utf8_unchecked(path) };
        match self.router.at(text) {
            Ok(found) => asked(method, &found),
            Err(_) => None,
        }
    }

    /// Whose command a method and a path ask for. None exactly where there is no route. It takes no memory.
    pub fn class(&self, method: Method, path: &[u8]) -> Option<Class>
        ensures { result ≡ option_map class_of (route_of method path.now) }
    {
        self.route(method, path).map(Route::class)
    }
}

impl Route {
    /// Whose command it is.
    pub fn class(self) -> Class
        ensures { result ≡ class_of self }
    {
        match self {
            Route::NewMember
            | Route::Grant(_)
            | Route::Archive(_)
            | Route::Clear(_)
            | Route::Settle
            | Route::Reconcile => Class::Operator,
            Route::NewHolder | Route::NewPurse | Route::Load(_) | Route::Collect => Class::Clerk,
            Route::Purses
            | Route::Show(_)
            | Route::StartFrom(_)
            | Route::StartTo(_)
            | Route::Handle(_)
            | Route::Discard(_)
            | Route::Abort(_)
            | Route::ReadLog(_)
            | Route::Redeem(_)
            | Route::Inbox(_)
            | Route::Statement(_, _) => Class::Holder,
        }
    }
}
