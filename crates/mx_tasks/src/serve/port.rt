//! A port of the system.
ghost use Rattle.mx_tasks.specs.Clients.{Tells, unknown};
ghost use Rattle.std.specs.Prelude.{None};

use crate::serve::listener::{Listener, Ready};
use crate::serve::seat::MOST_CLIENTS;
use arrayvec::ArrayVec;
use mio::net::{TcpListener, TcpStream};
use mio::{Events, Interest, Poll, Token};
use std::alloc::Global;
use std::io;
use std::io::ErrorKind;
use std::net::{IpAddr, Ipv4Addr, Net, SocketAddr};
use std::time::Duration;

/// The token of the port. Those of connections are their places, which are smaller.
const PORT: usize = MOST_CLIENTS;

/// A port on which clients come, and what of it and of their connections was found ready and not asked for yet.
#[derive(Drop)]
pub struct Port {
    listener: TcpListener,
    poll: Poll,
    events: Events,
    ready: ArrayVec<usize, 513>,
    next: usize,
    /// Of which places the connection is watched.
    watched: [bool; MOST_CLIENTS],
}

/// Listens on a port of 127.0.0.1, and on no other address of the machine. With 0 the system chooses the port.
///
/// # Errors
///
/// That of the system where the port can't be listened on, or want of memory.
pub fn listen(alloc: Global, net: &impl Net, port: u16) -> io::Result<Port> {
    let poll = Poll::new(net)?;
    let address = SocketAddr::new(IpAddr::V4(Ipv4Addr::LOCALHOST), port);
    let mut listener = TcpListener::bind(net, address)?;
    poll.registry()
        .register(&mut listener, Token(PORT), Interest::READABLE)?;
    let Ok(events) = Events::with_capacity(alloc, MOST_CLIENTS + 1) else {
        return Err(io::Error::from(ErrorKind::OutOfMemory));
    };
    Ok(Port {
        listener,
        poll,
        events,
        ready: ArrayVec::new(),
        next: 0,
        watched: [false; MOST_CLIENTS],
    })
}

impl Port {
    /// The address on which is listened.
    pub fn local_addr(&self) -> io::Result<SocketAddr> {
        self.listener.local_addr()
    }
}

impl Listener<TcpStream> for Port {
    fn wait(&mut self, longest: Duration) -> io::Result<()> {
        if self.next < self.ready.len() {
            return Ok(());
        }
        self.ready.clear();
        self.next = 0;
        self.poll.poll(&mut self.events, Some(longest))?;
        for event in self.events.iter() {
            let _ = self.ready.try_push(event.token().0);
        }
        Ok(())
    }

    fn next(&mut self) -> Option<Ready> {
        let token = *self.ready.as_slice().get(self.next)?;
        self.next += 1;
        if token == PORT {
            Some(Ready::Clients)
        } else {
            Some(Ready::Place(token))
        }
    }

    fn accept(&mut self, place: usize) -> Option<TcpStream> {
        let (stream, _) = self.listener.accept().ok()?;
        if let Some(is_watched) = self.watched.get_mut(place) {
            *is_watched = false;
        }
        Some(stream)
    }

    fn watch(&mut self, stream: &mut TcpStream, place: usize) -> bool {
        let Some(is_watched) = self.watched.get_mut(place) else {
            return false;
        };
        if !*is_watched {
            let both = Interest::READABLE | Interest::WRITABLE;
            let registered = self.poll.registry().register(stream, Token(place), both);
            *is_watched = registered.is_ok();
        }
        *is_watched
    }

    fn ended(&mut self, stream: TcpStream)
        ensures { Tells unknown None None unknown }
    {
        drop(stream);
    }
}
