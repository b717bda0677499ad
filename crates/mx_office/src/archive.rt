//! The operator's commands on the results of read log: archives, clears and settlements.
ghost use Rattle.std.specs.Prelude.{◌≡◌, [], false, nat_lt, OnOk, IfErr};
ghost use Rattle.mx_pay.specs.Log.{log_len};
ghost use Rattle.mx_book.specs.Reads.{finds_place, tray_of};
ghost use Rattle.mx_book.specs.Views.{Answers};
ghost use Rattle.mx_command.specs.Commands.{IsCommand};
ghost use Rattle.mx_office.specs.Decides.{Decides, settlement_edits};
ghost use Rattle.mx_office.specs.Step.{archive, clear, is_archived_for_both, may_clear, settle};
ghost use Rattle.mx_command.specs.declared.values.Command.{Command};

use crate::decisions::{Outgoing, credit_refusal, make, make_purse, payment_line, refuse, tell};
use crate::values::Decided;
use mx_book::contract::{Book, StoreFault};
use mx_book::edits::Edit;
use mx_book::values::LineKind;
use mx_command::{Refusal, Reply};
use mx_pay::{Log, Name, PayDetails};
use mx_purse::{Message, Purse};
use std::alloc::Global;

/// What lies in the tray of the purse goes to the archive. Where nothing lies there, nothing is to change.
pub(crate) fn archive<B: Book>(
    book: &mut B,
    alloc: Global,
    purse: Name,
    decided: &mut Decided,
) -> Result<(), StoreFault>
    ensures { Answers B.fails (B.view book.old) (B.view book.new) result
        (λ w _. Decides w (archive w purse) decided.new
        × (nat_lt 0 (log_len (tray_of w purse)) ≡ false → decided.new.edits ≡ [])) }
{
    if !book.has_purse(alloc, purse)? {
        refuse(decided, Refusal::NoSuchPurse);
        return Ok(());
    }
    let results = book.tray(alloc, purse)?.len();
    if results == 0 {
        tell(decided, Reply::Archived(0));
    } else {
        make(
            decided,
            Reply::Archived(results),
            &Edit::ArchiveTray { purse },
        );
    }
    Ok(())
}

/// Whether these details may be cleared from the log of the purse: they are some, and each is archived for it. The book
/// is asked once for each, until one isn't archived.
fn may_clear<B: Book>(
    book: &mut B,
    alloc: Global,
    purse: Name,
    details: &Log,
) -> Result<bool, StoreFault>
    ensures { Answers B.fails (B.view book.old) (B.view book.new) result
        (λ w b. b ≡ may_clear w purse details.now) }
{
    for place in 0..details.len() {
        if let Some(entry) = details.at(place) {
            if !book.archived(alloc, purse, &entry)? {
                return Ok(false);
            }
        }
    }
    Ok(details.len() != 0)
}

/// A message is sent to the purse that clears its log of these details, where they are some and all archived for it.
pub(crate) fn clear<B: Book>(
    book: &mut B,
    alloc: Global,
    purse: Name,
    details: &Log,
    decided: &mut Decided,
) -> Result<(), StoreFault>
    ensures { Answers B.fails (B.view book.old) (B.view book.new) result
        (λ w _. (IsCommand (Command.Clear purse details.now)
        → Decides w (clear w purse details.now) decided.new)
        × (finds_place w purse ≡ false → decided.new.edits ≡ [])) }
{
    if !book.has_purse(alloc, purse)? {
        refuse(decided, Refusal::NoSuchPurse);
        return Ok(());
    }
    if !may_clear(book, alloc, purse, details)? {
        refuse(decided, Refusal::NotArchived);
        return Ok(());
    }
    if !book.finds_place(alloc, purse)? {
        tell(decided, Reply::Sent);
        return Ok(());
    }
    let message = Message::Clear(*details);
    make(decided, Reply::Sent, &Edit::AddMessage { purse, message });
    Ok(())
}

/// Whether these details are archived for both of their purses.
fn is_archived_for_both<B: Book>(
    book: &mut B,
    alloc: Global,
    details: &PayDetails,
) -> Result<bool, StoreFault>
    ensures { Answers B.fails (B.view book.old) (B.view book.new) result
        (λ w b. b ≡ is_archived_for_both w details.now) }
{
    if !book.archived(alloc, details.from(), details)? {
        return Ok(false);
    }
    book.archived(alloc, details.to(), details)
}

/// A settlement, by the edits for the purse that paid as it is now, its line, and the settled details.
fn make_settlement(decided: &mut Decided, purse: &Purse, details: &PayDetails)
    ensures reply { decided.new.reply ≡ Reply.Settled }
    ensures edits { decided.new.edits ≡ settlement_edits purse.now details.now }
{
    let line = payment_line(purse, LineKind::Settled, *details);
    make_purse(
        decided,
        Reply::Settled,
        purse,
        Some(line),
        &Outgoing::Nothing,
    );
    decided.edits.push(&Edit::AddSettled { details: *details });
}

/// The lost value of a payment comes back to the purse that paid it, where the details are archived for both purses, once.
pub(crate) fn settle<B: Book>(
    book: &mut B,
    alloc: Global,
    details: &PayDetails,
    decided: &mut Decided,
) -> Result<(), StoreFault>
    ensures { Answers B.fails (B.view book.old) (B.view book.new) result
        (λ w _. IsCommand (Command.Settle details.now)
        → Decides w (settle w details.now) decided.new) }
{
    if book.settled(alloc, details)? {
        refuse(decided, Refusal::AlreadySettled);
        return Ok(());
    }
    if !is_archived_for_both(book, alloc, details)? {
        refuse(decided, Refusal::NotLost);
        return Ok(());
    }
    let Some(account) = book.purse(alloc, details.from())? else {
        refuse(decided, Refusal::NotLost);
        return Ok(());
    };
    let mut after = account.purse;
    match after.credit(details.value()) {
        Err(refusal) => refuse(decided, credit_refusal(refusal)),
        Ok(()) => make_settlement(decided, &after, details),
    }
    Ok(())
}
