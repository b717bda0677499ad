//! What is held of requests until their round is settled.
ghost use Rattle.std.specs.Prelude.{◌≡◌, []};
ghost use Rattle.mx_desk.specs.Held.{text_of};

use arrayvec::ArrayVec;
use mx_book::contract::StoreFault;
use mx_wire::{Method, Response, unavailable_text};

/// The most requests of a round.
pub const MOST_TOGETHER: usize = 64;

/// What is held of a request that was answered in a round.
#[derive(Drop)]
pub struct Held {
    /// The response, or why the request was given up.
    pub response: Result<Response, StoreFault>,
    /// The request's method.
    pub method: Method,
    /// Whether the request has a route, so that it needed the books.
    pub routed: bool,
}

impl Default for Held {
    /// What stands where nothing is held.
    fn default() -> Held {
        Held {
            response: Err(StoreFault::Memory),
            method: Method::Other,
            routed: false,
        }
    }
}

impl Held {
    /// What is sent: the response. It is 503 where the request was given up, and where its round was and it needed the books.
    pub fn text(&self, kept: bool) -> &[u8]
        ensures { result.now ≡ text_of kept self.now }
    {
        match &self.response {
            Ok(response) if kept || !self.routed => response.text(self.method),
            _ => unavailable_text(),
        }
    }
}

/// What is held of the requests of a round, in order.
#[derive(Drop)]
pub struct Round {
    /// What is held of each.
    pub held: ArrayVec<Held, MOST_TOGETHER>,
    /// Whether a round has one request alone.
    pub alone: bool,
}

impl Round {
    /// A round without requests.
    pub fn new(alone: bool) -> Round
        ensures held { result.held.items ≡ [] }
        ensures alone { result.alone ≡ alone }
    {
        Round {
            held: ArrayVec::new(),
            alone,
        }
    }
}
