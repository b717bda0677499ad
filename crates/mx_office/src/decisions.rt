//! What decisions are made of.
ghost use Rattle.std.specs.Prelude.{◌≡◌, ◌<◌, ◌==◌, ◌∷◌, ◌++◌, [], length, map, option_map, if◌then◌else◌};
ghost use Rattle.mx_book.specs.declared.edits.Edit.TheVariants.{AddLine, AddMessage};
ghost use Rattle.mx_purse.specs.Operations.{sent_for};
ghost use Rattle.mx_office.specs.Step.{abort_line, listed, message_line, money_line, payment_line, refusal_of_credit, refusal_of_load, refusal_of_redeem, refusal_of_start};
ghost use Rattle.mx_office.specs.Decides.{purse_edits, put_edits, read_edits, redeem_edits};
ghost use Rattle.mx_office.specs.Outgoing.{carried};

use crate::values::Decided;
use mx_book::edits::{Edit, Edits};
use mx_book::values::{Line, LineKind, Note};
use mx_command::{Refusal, Reply};
use mx_pay::{Amount, Name, PayDetails};
use mx_purse::{CreditRefusal, Handled, LoadRefusal, Message, Purse, RedeemRefusal, StartRefusal};

/// The command is refused, and nothing is to change.
#[inline(always)]
pub(crate) fn refuse(decided: &mut Decided, refusal: Refusal)
    ensures reply { decided.new.reply ≡ Reply.Refused refusal }
    ensures edits { decided.new.edits ≡ [] }
{
    tell(decided, Reply::Refused(refusal));
}

/// The command is answered so, and nothing is to change.
#[inline(always)]
pub(crate) fn tell(decided: &mut Decided, reply: Reply)
    ensures reply { decided.new.reply ≡ reply }
    ensures edits { decided.new.edits ≡ [] }
{
    decided.reply = reply;
    decided.edits.clear();
}

/// The command is answered so, by this edit.
#[inline(always)]
pub(crate) fn make(decided: &mut Decided, reply: Reply, edit: &Edit)
    ensures reply { decided.new.reply ≡ reply }
    ensures edits { decided.new.edits ≡ edit.now ∷ [] }
{
    tell(decided, reply);
    decided.edits.push(edit);
}

/// The refusal of a start, as the office names it.
pub(crate) fn start_refusal(refusal: StartRefusal) -> Refusal
    ensures { result ≡ refusal_of_start refusal }
{
    match refusal {
        StartRefusal::SamePurse => Refusal::SamePurse,
        StartRefusal::NotEnough => Refusal::NotEnough,
        StartRefusal::LogFull => Refusal::LogFull,
        StartRefusal::Worn => Refusal::Worn,
    }
}

/// The line of a payment of these details in a purse that is now so.
pub(crate) fn payment_line(purse: &Purse, kind: LineKind, details: PayDetails) -> Line
    ensures { result ≡ payment_line purse.now kind details }
{
    Line {
        number: purse.lines(),
        kind,
        amount: details.value(),
        balance: purse.balance(),
        note: Note::Details(details),
    }
}

/// The line of an abort that logged these details, where it logged any.
pub(crate) fn abort_line(purse: &Purse, logged: Option<PayDetails>) -> Option<Line>
    ensures { result ≡ abort_line purse.now logged }
{
    match logged {
        None => None,
        Some(details) => Some(payment_line(purse, LineKind::Logged, details)),
    }
}

/// The line of a message that was handled so, and of an abort with it that logged these details, where it logged any.
pub(crate) fn message_line(
    purse: &Purse,
    logged: Option<PayDetails>,
    handled: &Handled,
) -> Option<Line>
    ensures { result ≡ message_line purse.now logged handled.now }
{
    match handled {
        Handled::Req(details) => Some(payment_line(purse, LineKind::Sent, *details)),
        Handled::Val(details) => Some(payment_line(purse, LineKind::Received, *details)),
        Handled::Cleared => abort_line(purse, logged),
        Handled::Ack(_) | Handled::Ignored => None,
    }
}

/// What a purse sends for a payment. It is small, as a message isn't.
#[derive(Clone, Copy)]
pub(crate) enum Outgoing {
    Nothing,
    /// The request for the value, to the purse that pays.
    Req(PayDetails),
    /// The value, to the purse that is paid.
    Val(PayDetails),
    /// The acknowledgement, to the purse that paid.
    Ack(PayDetails),
}

/// What is sent for a message that was handled so.
pub(crate) fn sent_for(handled: &Handled) -> Outgoing
    ensures { carried result ≡ sent_for handled.now }
{
    match handled {
        Handled::Req(details) => Outgoing::Val(*details),
        Handled::Val(details) => Outgoing::Ack(*details),
        Handled::Ack(_) | Handled::Cleared | Handled::Ignored => Outgoing::Nothing,
    }
}

/// The purse to which something is sent.
pub(crate) fn peer_of(sent: &Outgoing) -> Option<Name>
    ensures { result ≡ option_map (λ m. m.0) (carried sent.now) }
{
    match sent {
        Outgoing::Nothing => None,
        Outgoing::Req(details) | Outgoing::Ack(details) => Some(details.from()),
        Outgoing::Val(details) => Some(details.to()),
    }
}

/// The command is answered so, by the edits for a purse as it is now, its new line, and a message that finds a place.
#[inline(always)]
pub(crate) fn make_purse(
    decided: &mut Decided,
    reply: Reply,
    purse: &Purse,
    line: Option<Line>,
    sent: &Outgoing,
)
    ensures reply { decided.new.reply ≡ reply }
    ensures edits { decided.new.edits ≡ purse_edits purse.now line (carried sent.now) }
{
    make(decided, reply, &Edit::SetPurse { purse: *purse });
    add_line(&mut decided.edits, purse.name(), line);
    add_sent(&mut decided.edits, sent);
}

/// The command is answered so, by the edits for a purse as it is now, its new line, and the result that comes into the
/// tray, where one does.
pub(crate) fn make_read(
    decided: &mut Decided,
    reply: Reply,
    purse: &Purse,
    line: Option<Line>,
    new: Option<PayDetails>,
)
    ensures reply { decided.new.reply ≡ reply }
    ensures edits { decided.new.edits ≡ read_edits purse.now line new }
{
    make_purse(decided, reply, purse, line, &Outgoing::Nothing);
    if let Some(details) = new {
        let purse = purse.name();
        decided.edits.push(&Edit::AddTray { purse, details });
    }
}

/// Adds the edit for what is sent, where something is.
fn add_sent(edits: &mut Edits, sent: &Outgoing)
    requires { length edits.old < 4 }
    ensures { edits.new ≡ edits.old ++ put_edits (carried sent.now) }
{
    match sent {
        Outgoing::Nothing => {}
        Outgoing::Req(details) => add_message(edits, details.from(), Message::Req(*details)),
        Outgoing::Val(details) => add_message(edits, details.to(), Message::Val(*details)),
        Outgoing::Ack(details) => add_message(edits, details.from(), Message::Ack(*details)),
    }
}

/// Adds the edit for a message.
fn add_message(edits: &mut Edits, purse: Name, message: Message)
    requires { length edits.old < 4 }
    ensures { edits.new ≡ edits.old ++ AddMessage purse message ∷ [] }
{
    edits.push(&Edit::AddMessage { purse, message });
}

/// Adds the edit for a line, where there is one.
fn add_line(edits: &mut Edits, purse: Name, line: Option<Line>)
    requires { length edits.old < 4 }
    ensures { edits.new ≡ edits.old ++ map (AddLine purse) (listed line) }
{
    if let Some(line) = line {
        edits.push(&Edit::AddLine { purse, line });
    }
}

/// The refusal of a load, as the office names it.
pub(crate) fn load_refusal(refusal: LoadRefusal) -> Refusal
    ensures { result ≡ refusal_of_load refusal }
{
    match refusal {
        LoadRefusal::Worn => Refusal::Worn,
        LoadRefusal::OverCap => Refusal::OverCap,
    }
}

/// The refusal of a redemption, as the office names it.
pub(crate) fn redeem_refusal(refusal: RedeemRefusal) -> Refusal
    ensures { result ≡ refusal_of_redeem refusal }
{
    match refusal {
        RedeemRefusal::NotEnough => Refusal::NotEnough,
        RedeemRefusal::Worn => Refusal::Worn,
    }
}

/// The refusal of a credit, as the office names it.
pub(crate) fn credit_refusal(refusal: CreditRefusal) -> Refusal
    ensures { result ≡ refusal_of_credit refusal }
{
    match refusal {
        CreditRefusal::Worn => Refusal::Worn,
        CreditRefusal::OverCap => Refusal::OverCap,
    }
}

/// The line of a load or a redemption in a purse that is now so.
pub(crate) fn money_line(purse: &Purse, kind: LineKind, amount: Amount, reference: Name) -> Line
    ensures { result ≡ money_line purse.now kind amount reference }
{
    Line {
        number: purse.lines(),
        kind,
        amount,
        balance: purse.balance(),
        note: Note::Reference(reference),
    }
}

/// The answer where the reference was used with the amount `before`: the same reply again, or a refusal.
pub(crate) fn again(decided: &mut Decided, before: Amount, amount: Amount, reply: Reply)
    ensures reply { decided.new.reply ≡
        (if before == amount then reply else Reply.Refused Refusal.RefReused) }
    ensures edits { decided.new.edits ≡ [] }
{
    if before.get() == amount.get() {
        tell(decided, reply);
    } else {
        refuse(decided, Refusal::RefReused);
    }
}

/// A redemption, by the edits for the purse as it is now, its lines, and the redemption.
pub(crate) fn make_redemption(
    decided: &mut Decided,
    purse: &Purse,
    logged: Option<Line>,
    amount: Amount,
    reference: Name,
)
    ensures reply { decided.new.reply ≡ Reply.Redeemed }
    ensures edits { decided.new.edits ≡ redeem_edits purse.now logged amount reference }
{
    let name = purse.name();
    let line = money_line(purse, LineKind::Redeemed, amount, reference);
    make_purse(decided, Reply::Redeemed, purse, logged, &Outgoing::Nothing);
    decided.edits.push(&Edit::AddLine { purse: name, line });
    decided.edits.push(&Edit::AddRedemption {
        purse: name,
        reference,
        amount,
    });
}
