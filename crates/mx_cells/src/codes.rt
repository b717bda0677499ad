//! The texts of messages, statuses and logs, as they are stored.
ghost use Rattle.std.specs.Prelude.{◌≡◌, IfErr, IfOk, string_bytes};
ghost use Rattle.mx_book.specs.declared.contract.StoreFault.TheVariants.{Memory};
ghost use Rattle.mx_pay.specs.Codes.{code, entry_text};
ghost use Rattle.mx_pay.specs.Details.{IsDetails};
ghost use Rattle.mx_purse.specs.Words.{message_details, status_details};

use mx_book::StoreFault;
use mx_pay::{Log, PayDetails, code_text, push_entry};
use mx_purse::{Message, Status};
use std::alloc::Global;

/// The text of a log.
pub fn log_code(alloc: Global, log: &Log) -> Result<String, StoreFault>
    ensures { IfOk result (λ text. string_bytes text ≡ code log.now) }
{
    Ok(code_text(alloc, log)?)
}

/// How many bytes the text of details has at most: two names, an amount and two numbers, with commas between them.
pub const MOST_ENTRY_BYTES: usize = 97;

/// The text of details.
pub fn entry_code(alloc: Global, details: &PayDetails) -> Result<String, StoreFault>
    ensures text { IfOk result (λ text. string_bytes text ≡ entry_text details.now) }
    ensures valid { IsDetails details.now }
    ensures fault { IfErr result (λ e. e ≡ Memory) }
{
    // The reader says the limits of the details.
    let _limits = details.value();
    let mut text = String::with_capacity(alloc, MOST_ENTRY_BYTES)?;
    push_entry(&mut text, details)?;
    Ok(text)
}

/// The text of the details of a message, or of the set to be cleared.
pub fn message_code(alloc: Global, message: &Message) -> Result<String, StoreFault>
    ensures { IfOk result (λ text. string_bytes text ≡ message_details message.now) }
{
    match message {
        Message::Req(details) | Message::Val(details) | Message::Ack(details) => {
            entry_code(alloc, details)
        }
        Message::Clear(log) => log_code(alloc, log),
    }
}

/// The text of the details of the payment under way, empty at rest.
pub fn status_code(alloc: Global, status: &Status) -> Result<String, StoreFault>
    ensures { IfOk result (λ text. string_bytes text ≡ status_details status.now) }
{
    match status {
        Status::EaFrom | Status::EaTo => Ok(String::new(alloc)),
        Status::Epr(details) | Status::Epv(details) | Status::Epa(details) => {
            entry_code(alloc, details)
        }
    }
}
