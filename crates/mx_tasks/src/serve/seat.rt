//! Clients that are connected.
ghost use Rattle.std.specs.Prelude.{◌≡◌, ◌≤◌, ◌*◌, nat_le, IfSome, IfOk, OnOk, None, ℕ, List, [], length, take};
ghost use Rattle.std.specs.Time.{instant_nanos};
ghost use Rattle.mx_desk.specs.Held.{text_of};
ghost use Rattle.mx_tasks.specs.Clients.{IsKnown, IsPrefix};
ghost use Rattle.mx_tasks.specs.Seats.{IsAfter, IsFresh, IsRead, IsSentSo, WaitsOn, answer_of, is_over, stream_of};

use crate::serve::connection::Connection;
use mx_desk::held::Held;
use std::alloc::Global;
use std::io;
use std::io::ErrorKind;
use std::time::{Duration, Instant};

/// How many connections are open at once.
pub const MOST_CLIENTS: usize = 512;

/// How long a client has for its request, how long for taking the answer, and how long it is read behind that, in seconds.
pub const PATIENCE: u64 = 10;

/// How many bytes are read at most behind a request.
pub const MOST_BEHIND: usize = 1_048_576;

/// A client that was answered nothing yet.
#[derive(Drop)]
pub struct Visitor<S> {
    pub stream: S,
    /// What came.
    pub came: Vec<u8>,
    /// When its time for the request is over.
    until: Instant,
}

/// A client whose answer waits until its round is settled.
#[derive(Drop)]
pub struct Asked<S> {
    pub visitor: Visitor<S>,
    /// What is held for it.
    pub held: Held,
    /// Its place.
    pub place: usize,
}

/// A client that is answered.
#[derive(Drop)]
pub struct Answered<S> {
    pub stream: S,
    /// What is held for it.
    pub held: Held,
    /// Whether its round was kept.
    pub kept: bool,
    /// How much of the answer was written.
    pub sent: usize,
    /// How much was read behind the request. None until the answer is written.
    pub behind: Option<usize>,
    /// When its time is over: that for taking the answer, and then that for what comes behind the request.
    until: Instant,
    /// When it was silent for too long.
    silent: Instant,
}

/// A client that is connected.
#[derive(Drop)]
pub enum Seat<S> {
    /// It asks.
    Asking(Visitor<S>),
    /// It takes its answer.
    Taking(Answered<S>),
}

/// What a read brought.
#[derive(Clone, Copy, Debug, PartialEq, Eq)]
pub enum Arrival {
    /// Some bytes.
    Bytes,
    /// None yet.
    Nothing,
    /// None, and none comes any more.
    End,
    /// The connection has failed, or there is no memory for what came.
    Failed,
}

/// Whether a time has come.
fn has_come(time: Instant, now: Instant) -> bool
    ensures { result ≡ nat_le (instant_nanos time) (instant_nanos now) }
{
    now.checked_duration_since(time).is_some()
}

/// So many seconds from now on; or now, where the clock doesn't count so far.
fn seconds_from(now: Instant, seconds: u64) -> Instant
    requires { seconds ≤ 10 }
    ensures { IsAfter now (seconds * 1_000_000_000) result }
{
    now.checked_add(Duration::from_secs(seconds)).unwrap_or(now)
}

impl<S> Visitor<S> {
    /// A client that is taken now, and has ten seconds for its request.
    pub fn new(alloc: Global, stream: S, now: Instant) -> Visitor<S>
        ensures stream { result.stream ≡ stream }
        ensures none { result.came.items ≡ [] }
        ensures until { IsAfter now 10_000_000_000 result.until }
    {
        Visitor {
            stream,
            came: Vec::new(alloc),
            until: seconds_from(now, PATIENCE),
        }
    }

    /// Its connection.
    pub fn into_stream(self) -> S
        ensures { result ≡ self.stream }
    {
        let Visitor {
            stream,
            came: _,
            until: _,
        } = self;
        stream
    }
}

impl<S> Answered<S> {
    /// A client that is told what is held for it, once its round is settled and kept, or not. It has ten seconds to take that.
    pub fn new(asked: Asked<S>, kept: bool, now: Instant) -> Answered<S>
        ensures stream { result.stream ≡ asked.visitor.stream }
        ensures answer { answer_of result ≡ text_of kept asked.held }
        ensures untold { (result.sent ≡ 0) × (result.behind ≡ None) }
        ensures times { IsAfter now 10_000_000_000 result.until × (result.silent ≡ result.until) }
    {
        let Asked {
            visitor,
            held,
            place: _,
        } = asked;
        let until = seconds_from(now, PATIENCE);
        Answered {
            stream: visitor.into_stream(),
            held,
            kept,
            sent: 0,
            behind: None,
            until,
            silent: until,
        }
    }

    /// Its connection.
    pub fn into_stream(self) -> S
        ensures { result ≡ self.stream }
    {
        let Answered {
            stream,
            held: _,
            kept: _,
            sent: _,
            behind: _,
            until: _,
            silent: _,
        } = self;
        stream
    }
}

impl<S> Seat<S> {
    /// Its connection.
    pub fn into_stream(self) -> S
        ensures { result ≡ stream_of self }
    {
        match self {
            Seat::Asking(visitor) => visitor.into_stream(),
            Seat::Taking(answered) => answered.into_stream(),
        }
    }

    /// Whether it is answered, and when its time is over: the lesser of two is of the client whose place another gets first.
    pub fn age(&self) -> (bool, Instant) {
        match self {
            Seat::Asking(visitor) => (false, visitor.until),
            Seat::Taking(answered) => (true, answered.until),
        }
    }

    /// Whether its time is over.
    pub fn is_over(&self, now: Instant) -> bool
        ensures { result ≡ is_over now self.now }
    {
        match self {
            Seat::Asking(visitor) => has_come(visitor.until, now),
            Seat::Taking(answered) => {
                has_come(answered.until, now) || has_come(answered.silent, now)
            }
        }
    }
}

impl<S: Connection> Visitor<S> {
    /// Reads once, in this piece of memory, and keeps what came.
    pub fn read_more(&mut self, piece: &mut [u8]) -> Arrival
        ensures fresh { IsFresh S.received S.written self.old
            → IsRead S.received S.written result self.new }
        ensures until { self.new.until ≡ self.old.until }
    {
        match self.stream.read(piece) {
            Ok(0) => Arrival::End,
            Ok(count) => match self.came.extend_from_slice(&piece[..count]) {
                Ok(()) => Arrival::Bytes,
                Err(_) => Arrival::Failed,
            },
            Err(error) if error.kind() == ErrorKind::WouldBlock => Arrival::Nothing,
            Err(_) => Arrival::Failed,
        }
    }
}

/// Writes what stands behind the first bytes of a text, so many, as far as the connection takes it, and says how many are written
/// then. An error is that of a write, or that it took nothing.
fn write_rest<S: Connection>(stream: &mut S, text: &[u8], sent: &mut usize) -> io::Result<()>
    ensures sent { sent.old ≤ length text.now → sent.new ≤ length text.now }
    ensures bytes { IsKnown (S.written stream.old) (take sent.old text.now)
        → IsKnown (S.written stream.new) (take sent.new text.now) }
    ensures received { S.received stream.new ≡ S.received stream.old }
{
    'writes: while *sent < text.len() {
        match stream.write(&text[*sent..]) {
            Ok(0) => return Err(io::Error::from(ErrorKind::WriteZero)),
            Ok(count) => *sent += count,
            Err(error) if error.kind() == ErrorKind::WouldBlock => return Ok(()),
            Err(error) => return Err(error),
        }
    }
    Ok(())
}

impl<S: Connection> Answered<S> {
    /// Goes on with a client: writes what it takes of its answer, and once that is whole, ends what is written, and from the next
    /// time on reads what came behind the request. Bytes that are left unread when a connection is closed would make the system
    /// drop what of the answer the client hasn't got yet. Says whether the connection stays open.
    pub fn advance(&mut self, now: Instant, piece: &mut [u8]) -> bool
        ensures answer { answer_of self.new ≡ answer_of self.old }
        ensures sent { IsSentSo S.written self.old → IsSentSo S.written self.new }
        ensures received { (came : List ℕ)
            → IfSome (S.received self.old.stream) (IsPrefix came)
            → IfSome (S.received self.new.stream) (IsPrefix came) }
        ensures waits { WaitsOn now self.old self.new }
    {
        let text = self.held.text(self.kept);
        if write_rest(&mut self.stream, text, &mut self.sent).is_err() {
            return false;
        }
        if self.sent < text.len() {
            return true;
        }
        if self.behind.is_none() {
            if self.stream.end_writing().is_err() {
                return false;
            }
            self.behind = Some(0);
            self.until = seconds_from(now, PATIENCE);
            self.silent = seconds_from(now, 1);
            return true;
        }
        self.drain(now, piece)
    }

    /// Reads what came behind the request, up to a bound. Says whether more may come.
    fn drain(&mut self, now: Instant, piece: &mut [u8]) -> bool
        ensures answer { answer_of self.new ≡ answer_of self.old }
        ensures sent { IsSentSo S.written self.old → IsSentSo S.written self.new }
        ensures received { (came : List ℕ)
            → IfSome (S.received self.old.stream) (IsPrefix came)
            → IfSome (S.received self.new.stream) (IsPrefix came) }
        ensures waits { WaitsOn now self.old self.new }
    {
        'reads: for _ in 0..MOST_BEHIND {
            match self.stream.read(piece) {
                Ok(0) => return false,
                Ok(count) => {
                    let behind = self.behind.unwrap_or(0).saturating_add(count);
                    if MOST_BEHIND <= behind {
                        return false;
                    }
                    self.behind = Some(behind);
                    self.silent = seconds_from(now, 1);
                }
                Err(error) => return error.kind() == ErrorKind::WouldBlock,
            }
        }
        false
    }
}
