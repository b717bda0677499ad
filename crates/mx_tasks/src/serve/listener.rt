//! Where clients come from.
ghost use Rattle.std.specs.Prelude.{◌≡◌, MatchOption};
ghost use Rattle.mx_tasks.specs.Clients.{Clients, Comes, Tells, unknown};

use crate::serve::connection::Connection;
use std::io;
use std::time::Duration;

/// What is ready.
#[derive(Clone, Copy, Debug, PartialEq, Eq)]
pub enum Ready {
    /// Clients may have come.
    Clients,
    /// The connection of this place may be read or written.
    Place(usize),
}

/// Where clients come from, over connections of this kind.
pub trait Listener<S: Connection> {
    /// How many clients will come, and what was told of those whose connections have ended, where it is known.
    ghost clients: { Self → Clients } = { λ _. unknown };

    /// Waits until something that is watched is ready, at most so long. What was ready before and wasn't asked for is ready at once.
    fn wait(&mut self, longest: Duration) -> io::Result<()>
        ensures { clients self.new ≡ clients self.old };

    /// The next of what was ready then, each once.
    fn next(&mut self) -> Option<Ready>
        ensures { clients self.new ≡ clients self.old };

    /// The next client that has come, whose connection gets this place and isn't watched yet. None where none waits, or it can't be
    /// taken yet.
    fn accept(&mut self, place: usize) -> Option<S>
        ensures { MatchOption result
            (clients self.new ≡ clients self.old)
            (λ stream. Comes (clients self.old) (S.received stream) (S.written stream)
            (clients self.new)) };

    /// From now on says where the connection of a place is ready, and where it is so already. Whether that could be brought about.
    fn watch(&mut self, stream: &mut S, place: usize) -> bool
        ensures clients { clients self.new ≡ clients self.old }
        ensures received { S.received stream.new ≡ S.received stream.old }
        ensures written { S.written stream.new ≡ S.written stream.old };

    /// Takes back a connection that has ended.
    fn ended(&mut self, stream: S)
        ensures { Tells (clients self.old) (S.received stream) (S.written stream)
            (clients self.new) };
}
