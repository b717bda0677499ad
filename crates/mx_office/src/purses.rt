//! The commands of holders.
ghost use Rattle.std.specs.Prelude.{◌≡◌, ◌⊎◌, [], OnOk, IfErr, IsTrue, is_some, option_map};
ghost use Rattle.mx_book.specs.declared.contract.StoreFault.TheVariants.{Memory};
ghost use Rattle.mx_book.specs.Reads.{own_purse, purses_of, redemption_of};
ghost use Rattle.mx_book.specs.Views.{Answers, IsSure};
ghost use Rattle.mx_command.specs.Commands.{IsCommand};
ghost use Rattle.mx_office.specs.Decides.{Decides, not_kept, placed};
ghost use Rattle.mx_office.specs.Faults.{FailsFor};
ghost use Rattle.mx_office.specs.Outgoing.{carried};
ghost use Rattle.mx_office.specs.Step.{abort, discard, handle, inbox, on_own, read_log, redeem, show, start_from, start_to, statement, tell};
ghost use Rattle.mx_command.specs.declared.values.Command.{Command};

use crate::decisions::{
    Outgoing, abort_line, again, make, make_purse, make_read, make_redemption, message_line,
    peer_of, redeem_refusal, refuse, sent_for, start_refusal, tell,
};
use crate::values::Decided;
use mx_book::contract::{Book, StoreFault};
use mx_book::edits::Edit;
use mx_book::values::MOST_LINES;
use mx_command::{Lines, Messages, Names, Refusal, Reply};
use mx_pay::{Amount, Name, PayDetails, Seq};
use std::alloc::Global;

/// What is sent, where it finds a place. Elsewhere it vanishes.
pub(crate) fn placed<B: Book>(
    book: &mut B,
    alloc: Global,
    sent: Outgoing,
) -> Result<Outgoing, StoreFault>
    ensures { Answers B.fails (B.view book.old) (B.view book.new) result
        (λ w s. carried s ≡ placed w (carried sent)) }
{
    let Some(peer) = peer_of(&sent) else {
        return Ok(Outgoing::Nothing);
    };
    if book.finds_place(alloc, peer)? {
        Ok(sent)
    } else {
        Ok(Outgoing::Nothing)
    }
}

/// The names of the holder's purses.
#[inline(never)]
pub(crate) fn purses<B: Book>(
    book: &mut B,
    alloc: Global,
    holder: Name,
    decided: &mut Decided,
) -> Result<(), StoreFault>
    ensures tells { Answers (λ e. (e ≡ Memory) ⊎ B.fails e) (B.view book.old)
        (B.view book.new) result
        (λ w _. Decides w (tell w (Reply.Purses (purses_of w holder))) decided.new) }
    ensures edits { OnOk result (decided.new.edits ≡ []) }
{
    let names = book.purses_of(alloc, holder)?;
    tell(decided, Reply::Purses(Names::new(names)));
    Ok(())
}

/// The purse.
#[inline(never)]
pub(crate) fn show<B: Book>(
    book: &mut B,
    alloc: Global,
    holder: Name,
    purse: Name,
    decided: &mut Decided,
) -> Result<(), StoreFault>
    ensures tells { Answers B.fails (B.view book.old) (B.view book.new) result
        (λ w _. Decides w (on_own w holder purse show) decided.new) }
    ensures edits { OnOk result (decided.new.edits ≡ []) }
{
    match book.own_purse(alloc, holder, purse)? {
        Some(purse) => {
            tell(decided, Reply::Shown(purse));
            Ok(())
        }
        None => {
            refuse(decided, Refusal::NoSuchPurse);
            Ok(())
        }
    }
}

/// The messages in the inbox of the purse.
#[inline(never)]
pub(crate) fn inbox<B: Book>(
    book: &mut B,
    alloc: Global,
    holder: Name,
    purse: Name,
    decided: &mut Decided,
) -> Result<(), StoreFault>
    ensures tells { Answers (λ e. (e ≡ Memory) ⊎ B.fails e) (B.view book.old)
        (B.view book.new) result
        (λ w _. Decides w (on_own w holder purse inbox) decided.new) }
    ensures edits { OnOk result (decided.new.edits ≡ []) }
    ensures memory { IsSure (B.view book.new)
        → IfErr result (FailsFor B.fails
        (is_some (own_purse (B.view book.old).world holder purse))) }
{
    if !book.is_own(alloc, holder, purse)? {
        refuse(decided, Refusal::NoSuchPurse);
        return Ok(());
    }
    let messages = book.inbox(alloc, purse)?;
    tell(decided, Reply::Inbox(Messages::new(messages)));
    Ok(())
}

/// The first 50 lines of the purse that are numbered above `after`.
#[inline(never)]
pub(crate) fn statement<B: Book>(
    book: &mut B,
    alloc: Global,
    holder: Name,
    purse: Name,
    after: Seq,
    decided: &mut Decided,
) -> Result<(), StoreFault>
    ensures tells { Answers (λ e. (e ≡ Memory) ⊎ B.fails e) (B.view book.old)
        (B.view book.new) result
        (λ w _. Decides w (on_own w holder purse (statement after)) decided.new) }
    ensures edits { OnOk result (decided.new.edits ≡ []) }
    ensures memory { IsSure (B.view book.new)
        → IfErr result (FailsFor B.fails
        (is_some (own_purse (B.view book.old).world holder purse))) }
{
    if !book.is_own(alloc, holder, purse)? {
        refuse(decided, Refusal::NoSuchPurse);
        return Ok(());
    }
    let lines = book.lines(alloc, purse, after.get(), MOST_LINES)?;
    tell(decided, Reply::Statement(Lines::new(lines)));
    Ok(())
}

/// A payment from the purse to a peer.
#[inline(never)]
pub(crate) fn start_from<B: Book>(
    book: &mut B,
    alloc: Global,
    holder: Name,
    purse: Name,
    peer: Name,
    value: Amount,
    seq: Seq,
    decided: &mut Decided,
) -> Result<(), StoreFault>
    ensures { Answers B.fails (B.view book.old) (B.view book.new) result
        (λ w _. Decides w (on_own w holder purse (start_from peer value seq)) decided.new) }
{
    let mut own = book.own_purse(alloc, holder, purse)?;
    let Some(after) = &mut own else {
        refuse(decided, Refusal::NoSuchPurse);
        return Ok(());
    };
    let logged = after.pending();
    match after.start_from(peer, value, seq) {
        Err(refusal) => {
            refuse(decided, start_refusal(refusal));
            Ok(())
        }
        Ok(details) => {
            let line = abort_line(after, logged);
            make_purse(
                decided,
                Reply::Started(details),
                after,
                line,
                &Outgoing::Nothing,
            );
            Ok(())
        }
    }
}

/// A payment to the purse from a peer, which is sent a request for it.
#[inline(never)]
pub(crate) fn start_to<B: Book>(
    book: &mut B,
    alloc: Global,
    holder: Name,
    purse: Name,
    peer: Name,
    value: Amount,
    seq: Seq,
    decided: &mut Decided,
) -> Result<(), StoreFault>
    ensures { Answers B.fails (B.view book.old) (B.view book.new) result
        (λ w _. Decides w (on_own w holder purse (start_to peer value seq)) decided.new) }
{
    let mut own = book.own_purse(alloc, holder, purse)?;
    let Some(after) = &mut own else {
        refuse(decided, Refusal::NoSuchPurse);
        return Ok(());
    };
    let logged = after.pending();
    match after.start_to(peer, value, seq) {
        Err(refusal) => {
            refuse(decided, start_refusal(refusal));
            Ok(())
        }
        Ok(details) => {
            let request = placed(book, alloc, Outgoing::Req(details))?;
            let line = abort_line(after, logged);
            make_purse(decided, Reply::Started(details), after, line, &request);
            Ok(())
        }
    }
}

/// A message in the inbox of the purse is handled, and stays there. What the purse sends for it is put.
#[inline(never)]
pub(crate) fn handle<B: Book>(
    book: &mut B,
    alloc: Global,
    holder: Name,
    purse: Name,
    number: Seq,
    decided: &mut Decided,
) -> Result<(), StoreFault>
    ensures { Answers B.fails (B.view book.old) (B.view book.new) result
        (λ w _. Decides w (on_own w holder purse (handle number)) decided.new) }
{
    let mut own = book.own_purse(alloc, holder, purse)?;
    let Some(after) = &mut own else {
        refuse(decided, Refusal::NoSuchPurse);
        return Ok(());
    };
    let Some(message) = book.message(alloc, purse, number.get())? else {
        refuse(decided, Refusal::NoSuchMessage);
        return Ok(());
    };
    let logged = after.pending();
    let handled = after.handle(&message);
    let answer = placed(book, alloc, sent_for(&handled))?;
    let line = message_line(after, logged, &handled);
    make_purse(decided, Reply::Handled(handled), after, line, &answer);
    Ok(())
}

/// A message in the inbox of the purse is thrown away.
#[inline(never)]
pub(crate) fn discard<B: Book>(
    book: &mut B,
    alloc: Global,
    holder: Name,
    purse: Name,
    number: Seq,
    decided: &mut Decided,
) -> Result<(), StoreFault>
    ensures { Answers B.fails (B.view book.old) (B.view book.new) result
        (λ w _. Decides w (on_own w holder purse (discard number)) decided.new) }
{
    if !book.is_own(alloc, holder, purse)? {
        refuse(decided, Refusal::NoSuchPurse);
        return Ok(());
    }
    let number = number.get();
    if !book.has_message(alloc, purse, number)? {
        refuse(decided, Refusal::NoSuchMessage);
        return Ok(());
    }
    make(
        decided,
        Reply::Discarded,
        &Edit::DropMessage { purse, number },
    );
    Ok(())
}

/// The payment of the purse is aborted.
#[inline(never)]
pub(crate) fn abort<B: Book>(
    book: &mut B,
    alloc: Global,
    holder: Name,
    purse: Name,
    decided: &mut Decided,
) -> Result<(), StoreFault>
    ensures { Answers B.fails (B.view book.old) (B.view book.new) result
        (λ w _. Decides w (on_own w holder purse abort) decided.new) }
{
    let mut own = book.own_purse(alloc, holder, purse)?;
    let Some(after) = &mut own else {
        refuse(decided, Refusal::NoSuchPurse);
        return Ok(());
    };
    let logged = after.abort();
    let reply = Reply::Aborted {
        logged: logged.is_some(),
    };
    let line = abort_line(after, logged);
    make_purse(decided, reply, after, line, &Outgoing::Nothing);
    Ok(())
}

/// An entry of the log of the purse that was read, where it isn't kept as a result yet: where it is in neither the tray
/// nor the archive.
fn not_kept<B: Book>(
    book: &mut B,
    alloc: Global,
    purse: Name,
    entry: Option<&PayDetails>,
) -> Result<Option<PayDetails>, StoreFault>
    ensures { Answers B.fails (B.view book.old) (B.view book.new) result
        (λ w o. o ≡ not_kept w purse (option_map (λ d. d.now) entry.entry)) }
{
    let Some(details) = entry else {
        return Ok(None);
    };
    let laid = book.tray(alloc, purse)?;
    if laid.has(details) {
        return Ok(None);
    }
    if book.archived(alloc, purse, details)? {
        return Ok(None);
    }
    Ok(Some(*details))
}

/// The entry at a place of the log of the purse, which is at rest then. What is read is sent to the archive.
#[inline(never)]
pub(crate) fn read_log<B: Book>(
    book: &mut B,
    alloc: Global,
    holder: Name,
    purse: Name,
    place: u64,
    decided: &mut Decided,
) -> Result<(), StoreFault>
    ensures { Answers B.fails (B.view book.old) (B.view book.new) result
        (λ w _. Decides w (on_own w holder purse (read_log place)) decided.new) }
{
    let mut own = book.own_purse(alloc, holder, purse)?;
    let Some(after) = &mut own else {
        refuse(decided, Refusal::NoSuchPurse);
        return Ok(());
    };
    let logged = after.pending();
    let entry = after.read_log(place);
    let new = not_kept(book, alloc, purse, entry.as_ref())?;
    let line = abort_line(after, logged);
    make_read(decided, Reply::Read(entry), after, line, new);
    Ok(())
}

/// An amount of the purse is redeemed.
#[inline(never)]
pub(crate) fn redeem<B: Book>(
    book: &mut B,
    alloc: Global,
    holder: Name,
    purse: Name,
    amount: Amount,
    reference: Name,
    decided: &mut Decided,
) -> Result<(), StoreFault>
    ensures { Answers B.fails (B.view book.old) (B.view book.new) result
        (λ w _. (IsCommand (Command.Redeem purse amount reference)
        → Decides w (on_own w holder purse (redeem amount reference)) decided.new)
        × (IsTrue (is_some (redemption_of w purse reference)) → decided.new.edits ≡ [])) }
{
    let mut own = book.own_purse(alloc, holder, purse)?;
    let Some(after) = &mut own else {
        refuse(decided, Refusal::NoSuchPurse);
        return Ok(());
    };
    if let Some(before) = book.redemption_of(alloc, purse, reference)? {
        again(decided, before, amount, Reply::Redeemed);
        return Ok(());
    }
    let mut rested = *after;
    let logged = rested.abort();
    match after.redeem(amount) {
        Err(refusal) => {
            refuse(decided, redeem_refusal(refusal));
            Ok(())
        }
        Ok(()) => {
            let line = abort_line(&rested, logged);
            make_redemption(decided, after, line, amount, reference);
            Ok(())
        }
    }
}
