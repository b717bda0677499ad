//! The messages between purses, and which of them a purse accepts.
use mx_pay::{Log, PayDetails};

/// A message to a purse: one that another purse sends, with the details of the payment that it belongs to, or the
/// operator's leave to clear the log.
#[derive(Clone, Copy)]
pub enum Message {
    /// The purse that is to be paid requests the value of these details.
    Req(PayDetails),
    /// The purse that pays sends the value of these details.
    Val(PayDetails),
    /// The purse that was paid acknowledges the value of these details.
    Ack(PayDetails),
    /// The log may be cleared, where it has just these details.
    Clear(Log),
}

/// Which message a purse accepted, with the details of the payment that it belongs to.
#[derive(Clone, Copy)]
pub enum Handled {
    /// The request for the value of these details: the purse has paid it.
    Req(PayDetails),
    /// The value of these details: the purse has received it.
    Val(PayDetails),
    /// The acknowledgement of these details: their payment is finished.
    Ack(PayDetails),
    /// The leave to clear the log: the purse has aborted, and its log is empty.
    Cleared,
    /// None: the message isn't the one that the purse expects, and nothing changed.
    Ignored,
}
