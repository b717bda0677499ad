//! What comes first in a text.
use mx_wire::Method;

/// Why the input ends a run early.
#[derive(Clone, Copy)]
pub enum Reason {
    /// What comes is no head, or none of at most 8,192 bytes and 64 fields.
    BadHead,
    /// The head has a transfer-encoding field.
    TransferCoding,
    /// The Content-Length fields aren't one number.
    BadLength,
    /// The number is above 4,096.
    TooLarge,
    /// The input ends inside the body.
    BodyCut,
}

/// A fault that ends a run, and the method of its request: to HEAD its response is a head alone.
#[derive(Clone, Copy)]
pub struct Stop {
    pub method: Method,
    pub reason: Reason,
}

/// A whole request: parts of the bytes that it was read from.
#[derive(Clone, Copy)]
pub struct Received<'a> {
    pub method: Method,
    pub path: &'a [u8],
    /// The value of the `purse-token` field, where there is exactly one.
    pub token: Option<&'a [u8]>,
    pub body: &'a [u8],
}

/// What comes first in the bytes so far.
#[derive(Clone, Copy)]
pub enum Found<'a> {
    /// More bytes may change it. If none come it is that fault, or nothing where there are no bytes.
    Open(Option<Stop>),
    /// Whatever follows.
    Stopped(Stop),
    /// A request of so many bytes, whatever follows.
    Whole(Received<'a>, usize),
}
