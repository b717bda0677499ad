//! The words of statuses and of messages with the texts of their details, as they stand in replies and in tables.
ghost use Rattle.std.specs.Prelude.{◌≡◌, IfSome, Some};
ghost use Rattle.mx_pay.specs.Details.{IsDetails};
ghost use Rattle.mx_purse.specs.State.{details_of};
ghost use Rattle.mx_purse.specs.Messages.{IsMessage};
ghost use Rattle.mx_purse.specs.Words.{status_word, status_details, message_word, message_details};

use crate::message::Message;
use crate::status::Status;
use mx_pay::{read_code, read_details};

/// The word for a status: `eaFrom`, `eaTo`, `epr`, `epv` or `epa`.
pub fn status_word(status: &Status) -> &'static str
    ensures { result.now ≡ status_word status.now }
{
    match status {
        Status::EaFrom => "eaFrom",
        Status::EaTo => "eaTo",
        Status::Epr(_) => "epr",
        Status::Epv(_) => "epv",
        Status::Epa(_) => "epa",
    }
}

/// The status of a word and of the text of its details, which is empty at rest. None where no status has both.
pub fn read_status(word: &str, details: &str) -> Option<Status>
    ensures found { IfSome result
        (λ s. (word.now ≡ status_word s) × (details.now ≡ status_details s)) }
    ensures valid { IfSome result (λ s. IfSome (details_of s) IsDetails) }
    ensures only { (s : Status) → IfSome (details_of s) IsDetails
        → word.now ≡ status_word s → details.now ≡ status_details s → result ≡ Some s }
{
    match word {
        "eaFrom" if details.is_empty() => Some(Status::EaFrom),
        "eaTo" if details.is_empty() => Some(Status::EaTo),
        "epr" => Some(Status::Epr(read_details(details)?)),
        "epv" => Some(Status::Epv(read_details(details)?)),
        "epa" => Some(Status::Epa(read_details(details)?)),
        _ => None,
    }
}

/// The word for a message: `req`, `val`, `ack` or `clear`.
pub fn message_word(message: &Message) -> &'static str
    ensures { result.now ≡ message_word message.now }
{
    match message {
        Message::Req(_) => "req",
        Message::Val(_) => "val",
        Message::Ack(_) => "ack",
        Message::Clear(_) => "clear",
    }
}

/// The message of a word and of the text of its details, or None where no message has both.
pub fn read_message(word: &str, details: &str) -> Option<Message>
    ensures found { IfSome result
        (λ m. (word.now ≡ message_word m) × (details.now ≡ message_details m)) }
    ensures valid { IfSome result IsMessage }
    ensures only { (m : Message) → IsMessage m
        → word.now ≡ message_word m → details.now ≡ message_details m → result ≡ Some m }
{
    match word {
        "req" => Some(Message::Req(read_details(details)?)),
        "val" => Some(Message::Val(read_details(details)?)),
        "ack" => Some(Message::Ack(read_details(details)?)),
        "clear" => Some(Message::Clear(read_code(details)?)),
        _ => None,
    }
}
