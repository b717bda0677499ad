//! What is done between rounds, beside serving.
use std::time::{Duration, Instant};

/// What is done between rounds, beside serving: it sees no client and no request, and no fault of it is one of serving.
pub trait Chore {
    /// Does it, where it is due. Says how long may be waited at most until this is called again.
    fn between(&mut self, now: Instant) -> Duration;
}

/// Nothing is done.
#[derive(Clone, Copy, Debug)]
pub struct NoChore;

impl Chore for NoChore {
    fn between(&mut self, _now: Instant) -> Duration {
        Duration::MAX
    }
}
