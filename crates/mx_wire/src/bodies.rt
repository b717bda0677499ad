//! The bodies of requests: JSON in, commands out.
ghost use Rattle.std.specs.Prelude.{◌≡◌, ◌≢◌, ◌↔◌, true, Some, None, Err, IsTrue, IfSome, IfOk, OnOk, codes, option_map};
ghost use Rattle.mx_command.specs.declared.values.Command.TheVariants.{Clear};
ghost use Rattle.mx_pay.specs.Codes.{code, entry_text};
ghost use Rattle.mx_pay.specs.Details.{Details, IsDetails};
ghost use Rattle.mx_pay.specs.Log.{Entries, IsLogValue};
ghost use Rattle.mx_pay.specs.Reading.{entry_of};
ghost use Rattle.mx_wire.specs.Routes.{route_of};
ghost use Rattle.mx_wire.specs.Bodies.{name_at, token_at, amount_at, seq_at, log_of_code, log_at, details_at, of_two, of_three, bare, said, value_of, has_body, command_of, request_command};
ghost use Rattle.mx_wire.specs.Trees.{data_of, IsData};

use crate::routes::{Method, Route, Routes};
use crate::trees::{is_data, number_at, text_at};
use json::{Error, Reader, Scratch, Value};
use mx_command::Command;
use mx_pay::{Amount, Log, Name, PayDetails, Seq, Token, read_code, read_details};
use std::alloc::Global;

/// Why a request gives no command.
#[derive(Clone, Copy)]
pub enum WireFault {
    /// The method and the path have no route.
    NoRoute,
    /// The body isn't a JSON object with the keys that the route needs, each with a value of its kind.
    BadBody,
    /// Memory was lacking to read the body.
    Memory,
}

/// How deep arrays and objects may nest in a body, its own object among them: as deep as in serde_json.
const MAX_DEPTH: usize = 127;

/// The JSON value of a body. Its texts are the body's own, or stand in the scratch where they have escapes.
fn value_of<'b>(
    alloc: Global,
    body: &'b [u8],
    scratch: &'b mut Scratch,
) -> Result<Value<'b>, WireFault>
    ensures ok { IfOk result (λ value. value_of body.now ≡ Some (data_of value)) }
    ensures taken { IfOk result IsData }
    ensures bad { result ≡ Err WireFault.BadBody → value_of body.now ≡ None }
    ensures routed { result ≢ Err WireFault.NoRoute }
{
    let Ok(text) = std::str::from_utf8(body) else {
        return Err(WireFault::BadBody);
    };
    let Ok(mut reader) = Reader::new(text, scratch) else {
        return Err(WireFault::Memory);
    };
    let value = match Value::read(alloc, &mut reader, MAX_DEPTH) {
        Ok(value) => value,
        Err(Error::OutOfMemory) => return Err(WireFault::Memory),
        Err(_) => return Err(WireFault::BadBody),
    };
    if reader.next().is_some() || !is_data(&value) {
        return Err(WireFault::BadBody);
    }
    Ok(value)
}

/// The name of a key.
fn name_at(value: &Value<'_>, key: &str) -> Option<Name>
    requires { IsData value.now }
    ensures { result ≡ name_at key.now (data_of value.now) }
{
    let text = text_at(value, key)?;
    Name::read(text)
}

/// The token of a key.
fn token_at(value: &Value<'_>, key: &str) -> Option<Token>
    requires { IsData value.now }
    ensures { result ≡ token_at key.now (data_of value.now) }
{
    let text = text_at(value, key)?;
    Token::read(text)
}

/// The amount of a key.
fn amount_at(value: &Value<'_>, key: &str) -> Option<Amount>
    requires { IsData value.now }
    ensures { result ≡ amount_at key.now (data_of value.now) }
{
    let number = number_at(value, key)?;
    Amount::new(number)
}

/// The sequence number, or the number of a message, of a key.
fn seq_at(value: &Value<'_>, key: &str) -> Option<Seq>
    requires { IsData value.now }
    ensures { result ≡ seq_at key.now (data_of value.now) }
{
    let number = number_at(value, key)?;
    Seq::new(number)
}

/// The log that has a text as its code text.
fn log_of_code(text: &str) -> Option<Log>
    ensures value { result ≡ log_of_code text.now }
    ensures found { IfSome result (λ log. text.now ≡ code log) }
    ensures only { (log : Entries) → IsLogValue log → text.now ≡ code log
        → log_of_code text.now ≡ Some log }
{
    read_code(text)
}

/// The log of a key.
fn log_at(value: &Value<'_>, key: &str) -> Option<Log>
    requires { IsData value.now }
    ensures { result ≡ log_at key.now (data_of value.now) }
{
    let text = text_at(value, key)?;
    log_of_code(text)
}

/// The details that have a text as the code text of their entry.
fn entry_of(text: &str) -> Option<PayDetails>
    ensures value { result ≡ entry_of text.now }
    ensures found { IfSome result (λ d. text.now ≡ entry_text d) }
    ensures only { (d : Details) → IsDetails d → text.now ≡ entry_text d
        → entry_of text.now ≡ Some d }
{
    read_details(text)
}

/// The details of a key.
fn details_at(value: &Value<'_>, key: &str) -> Option<PayDetails>
    requires { IsData value.now }
    ensures { result ≡ details_at key.now (data_of value.now) }
{
    let text = text_at(value, key)?;
    entry_of(text)
}

/// Whether the command of a route is said by a body.
fn has_body(route: &Route) -> bool
    ensures { result ≡ has_body route.now }
{
    !matches!(
        *route,
        Route::Collect
            | Route::Archive(_)
            | Route::Purses
            | Route::Show(_)
            | Route::Abort(_)
            | Route::Inbox(_)
            | Route::Statement(..)
            | Route::Reconcile
    )
}

/// The command of a route that needs no body, written over another; None where the route needs one.
#[inline(never)]
fn bare(route: &Route, command: &mut Command) -> Option<()>
    ensures { option_map (λ _. command.new) result ≡ bare route.now }
{
    match *route {
        Route::Collect => *command = Command::Collect,
        Route::Archive(purse) => *command = Command::Archive { purse },
        Route::Purses => *command = Command::Purses,
        Route::Show(purse) => *command = Command::Show { purse },
        Route::Abort(purse) => *command = Command::Abort { purse },
        Route::Inbox(purse) => *command = Command::Inbox { purse },
        Route::Statement(purse, after) => *command = Command::Statement { purse, after },
        Route::Reconcile => *command = Command::Reconcile,
        _ => return None,
    }
    Some(())
}

/// The command that clears the log of a purse of the details that a JSON value has, written over another; None where it has
/// none. A log is large, so it stands in a function of its own for LLVM.
#[inline(never)]
fn clear(purse: Name, value: &Value<'_>, command: &mut Command) -> Option<()>
    requires { IsData value.now }
    ensures { option_map (λ _. command.new) result ≡ option_map (Clear purse)
        (log_at (codes "details") (data_of value.now)) }
{
    let details = log_at(value, "details")?;
    *command = Command::Clear { purse, details };
    Some(())
}

/// The amount and the reference of a load or a redemption.
fn money_at(value: &Value<'_>) -> Option<(Amount, Name)>
    requires { IsData value.now }
    ensures { (make : _) → option_map (λ m. make m.0 m.1) result
        ≡ of_two (amount_at (codes "amount") (data_of value.now))
        (name_at (codes "ref") (data_of value.now)) make }
{
    let amount = amount_at(value, "amount")?;
    let reference = name_at(value, "ref")?;
    Some((amount, reference))
}

/// The peer of a start, its value, and the peer's sequence number.
fn start_at(value: &Value<'_>) -> Option<(Name, Amount, Seq)>
    requires { IsData value.now }
    ensures { (make : _) → option_map (λ s. make s.0 s.1 s.2) result
        ≡ of_three (name_at (codes "peer") (data_of value.now))
        (amount_at (codes "value") (data_of value.now))
        (seq_at (codes "seq") (data_of value.now)) make }
{
    let peer = name_at(value, "peer")?;
    let amount = amount_at(value, "value")?;
    let seq = seq_at(value, "seq")?;
    Some((peer, amount, seq))
}

/// The payment from a purse that a JSON value says, written over a command. Like `clear`, it stands alone for LLVM.
#[inline(never)]
fn start_from(purse: Name, value: &Value<'_>, command: &mut Command) -> Option<()>
    requires { IsData value.now }
    ensures { option_map (λ _. command.new) result ≡ said (Route.StartFrom purse)
        (data_of value.now) }
{
    let (peer, value, seq) = start_at(value)?;
    *command = Command::StartFrom {
        purse,
        peer,
        value,
        seq,
    };
    Some(())
}

/// The payment to a purse that a JSON value says, written over a command.
#[inline(never)]
fn start_to(purse: Name, value: &Value<'_>, command: &mut Command) -> Option<()>
    requires { IsData value.now }
    ensures { option_map (λ _. command.new) result ≡ said (Route.StartTo purse)
        (data_of value.now) }
{
    let (peer, value, seq) = start_at(value)?;
    *command = Command::StartTo {
        purse,
        peer,
        value,
        seq,
    };
    Some(())
}

/// The handling of a message that a JSON value says, written over a command.
#[inline(never)]
fn handle(purse: Name, value: &Value<'_>, command: &mut Command) -> Option<()>
    requires { IsData value.now }
    ensures { option_map (λ _. command.new) result ≡ said (Route.Handle purse) (data_of value.now) }
{
    let number = seq_at(value, "number")?;
    *command = Command::Handle { purse, number };
    Some(())
}

/// The discard of a message that a JSON value says, written over a command.
#[inline(never)]
fn discard(purse: Name, value: &Value<'_>, command: &mut Command) -> Option<()>
    requires { IsData value.now }
    ensures { option_map (λ _. command.new) result ≡ said (Route.Discard purse)
        (data_of value.now) }
{
    let number = seq_at(value, "number")?;
    *command = Command::Discard { purse, number };
    Some(())
}

/// The reading of a place of a purse's log that a JSON value says, written over a command.
#[inline(never)]
fn read_log(purse: Name, value: &Value<'_>, command: &mut Command) -> Option<()>
    requires { IsData value.now }
    ensures { option_map (λ _. command.new) result ≡ said (Route.ReadLog purse)
        (data_of value.now) }
{
    let place = number_at(value, "place")?;
    *command = Command::ReadLog { purse, place };
    Some(())
}

/// The redemption from a purse that a JSON value says, written over a command.
#[inline(never)]
fn redeem(purse: Name, value: &Value<'_>, command: &mut Command) -> Option<()>
    requires { IsData value.now }
    ensures { option_map (λ _. command.new) result ≡ said (Route.Redeem purse) (data_of value.now) }
{
    let (amount, reference) = money_at(value)?;
    *command = Command::Redeem {
        purse,
        amount,
        reference,
    };
    Some(())
}

/// The new member that a JSON value says, written over a command.
#[inline(never)]
fn new_member(value: &Value<'_>, command: &mut Command) -> Option<()>
    requires { IsData value.now }
    ensures { option_map (λ _. command.new) result ≡ said Route.NewMember (data_of value.now) }
{
    let member = name_at(value, "member")?;
    let token = token_at(value, "token")?;
    *command = Command::NewMember { member, token };
    Some(())
}

/// The grant to a member that a JSON value says, written over a command.
#[inline(never)]
fn grant(member: Name, value: &Value<'_>, command: &mut Command) -> Option<()>
    requires { IsData value.now }
    ensures { option_map (λ _. command.new) result ≡ said (Route.Grant member) (data_of value.now) }
{
    let amount = amount_at(value, "amount")?;
    *command = Command::Grant { member, amount };
    Some(())
}

/// The settlement that a JSON value says, written over a command.
#[inline(never)]
fn settle(value: &Value<'_>, command: &mut Command) -> Option<()>
    requires { IsData value.now }
    ensures { option_map (λ _. command.new) result ≡ said Route.Settle (data_of value.now) }
{
    let details = details_at(value, "details")?;
    *command = Command::Settle { details };
    Some(())
}

/// The new holder that a JSON value says, written over a command.
#[inline(never)]
fn new_holder(value: &Value<'_>, command: &mut Command) -> Option<()>
    requires { IsData value.now }
    ensures { option_map (λ _. command.new) result ≡ said Route.NewHolder (data_of value.now) }
{
    let holder = name_at(value, "holder")?;
    let token = token_at(value, "token")?;
    *command = Command::NewHolder { holder, token };
    Some(())
}

/// The new purse that a JSON value says, written over a command.
#[inline(never)]
fn new_purse(value: &Value<'_>, command: &mut Command) -> Option<()>
    requires { IsData value.now }
    ensures { option_map (λ _. command.new) result ≡ said Route.NewPurse (data_of value.now) }
{
    let purse = name_at(value, "purse")?;
    let holder = name_at(value, "holder")?;
    *command = Command::NewPurse { purse, holder };
    Some(())
}

/// The load of a purse that a JSON value says, written over a command.
#[inline(never)]
fn load(purse: Name, value: &Value<'_>, command: &mut Command) -> Option<()>
    requires { IsData value.now }
    ensures { option_map (λ _. command.new) result ≡ said (Route.Load purse) (data_of value.now) }
{
    let (amount, reference) = money_at(value)?;
    *command = Command::Load {
        purse,
        amount,
        reference,
    };
    Some(())
}

/// The command that a route and a JSON value say, written over another; None where they say none, and where the route
/// needs no body. Each command is made by a function of its own, since all that a function makes are cleared where it begins.
fn said(route: &Route, value: &Value<'_>, command: &mut Command) -> Option<()>
    requires { IsData value.now }
    ensures { option_map (λ _. command.new) result ≡ said route.now (data_of value.now) }
{
    match *route {
        Route::NewMember => new_member(value, command),
        Route::Grant(member) => grant(member, value, command),
        Route::Clear(purse) => clear(purse, value, command),
        Route::Settle => settle(value, command),
        Route::NewHolder => new_holder(value, command),
        Route::NewPurse => new_purse(value, command),
        Route::Load(purse) => load(purse, value, command),
        Route::StartFrom(purse) => start_from(purse, value, command),
        Route::StartTo(purse) => start_to(purse, value, command),
        Route::Handle(purse) => handle(purse, value, command),
        Route::Discard(purse) => discard(purse, value, command),
        Route::ReadLog(purse) => read_log(purse, value, command),
        Route::Redeem(purse) => redeem(purse, value, command),
        _ => None,
    }
}

/// The command of a route and a body, written over another one, which spares a copy of it. BadBody exactly where the body
/// says none; Memory, which tells nothing of the body, only where the route needs a body; never NoRoute. A body that isn't
/// needed isn't looked at. The scratch is only worked in, and may be kept from body to body. After a fault the command is
/// of no use.
pub fn read_body_into(
    alloc: Global,
    route: &Route,
    body: &[u8],
    scratch: &mut Scratch,
    command: &mut Command,
) -> Result<(), WireFault>
    ensures ok { OnOk result (command_of route.now body.now ≡ Some command.new) }
    ensures bad { result ≡ Err WireFault.BadBody → command_of route.now body.now ≡ None }
    ensures routed { result ≢ Err WireFault.NoRoute }
    ensures memory { result ≡ Err WireFault.Memory → IsTrue (has_body route.now) }
{
    if !has_body(route) {
        return match bare(route, command) {
            Some(()) => Ok(()),
            None => Err(WireFault::BadBody),
        };
    }
    let value = value_of(alloc, body, scratch)?;
    match said(route, &value, command) {
        Some(()) => Ok(()),
        None => Err(WireFault::BadBody),
    }
}

/// The command of a route and a body, as `read_body_into` says it.
pub fn read_body(
    alloc: Global,
    route: &Route,
    body: &[u8],
    scratch: &mut Scratch,
) -> Result<Command, WireFault>
    ensures ok { IfOk result (λ command. command_of route.now body.now ≡ Some command) }
    ensures bad { result ≡ Err WireFault.BadBody → command_of route.now body.now ≡ None }
    ensures routed { result ≢ Err WireFault.NoRoute }
    ensures memory { result ≡ Err WireFault.Memory → IsTrue (has_body route.now) }
{
    let mut command = Command::Collect;
    match read_body_into(alloc, route, body, scratch, &mut command) {
        Ok(()) => Ok(command),
        Err(fault) => Err(fault),
    }
}

impl Routes {
    /// The command of a request. NoRoute exactly where its method and path have no route, and then BadBody
    /// where its body says no command; Memory, which tells nothing of the body, only where the route needs one.
    pub fn read_command(
        &self,
        alloc: Global,
        method: Method,
        path: &[u8],
        body: &[u8],
    ) -> Result<Command, WireFault>
        ensures ok { IfOk result (λ command. request_command method path.now body.now
            ≡ Some command) }
        ensures no_route { (result ≡ Err WireFault.NoRoute) ↔
            (route_of method path.now ≡ None) }
        ensures bad { result ≡ Err WireFault.BadBody
            → request_command method path.now body.now ≡ None }
        ensures memory { result ≡ Err WireFault.Memory
            → option_map has_body (route_of method path.now) ≡ Some true }
    {
        match self.route(method, path) {
            Some(route) => read_body(alloc, &route, body, &mut Scratch::new(alloc)),
            None => Err(WireFault::NoRoute),
        }
    }
}
