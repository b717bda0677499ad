//! Clients in memory.
ghost use Rattle.std.specs.Prelude.{◌≡◌, Some, []};

use crate::serve::connection::Connection;
use crate::serve::listener::{Listener, Ready};
use std::alloc::Global;
use std::collections::VecDeque;
use std::io;
use std::io::{ErrorKind, Read};
use std::time::Duration;

/// What a client in memory sends, and how many bytes of it come at once, and are taken at once of what is written to it.
#[derive(Drop)]
pub struct Sender {
    pub bytes: VecDeque<u8>,
    pub longest: usize,
}

/// A connection to a client in memory. Each other read answers `WouldBlock`, and each other write.
#[derive(Drop)]
pub struct Pipe {
    sender: Sender,
    is_read: bool,
    is_written: bool,
    /// What was read.
    pub received: Vec<u8>,
    /// What was written.
    pub written: Vec<u8>,
}

impl Pipe {
    /// A connection of which nothing was read.
    fn new(alloc: Global, sender: Sender) -> Pipe
        ensures received { result.received.items ≡ [] }
        ensures written { result.written.items ≡ [] }
    {
        Pipe {
            sender,
            is_read: false,
            is_written: false,
            received: Vec::new(alloc),
            written: Vec::new(alloc),
        }
    }
}

impl Connection for Pipe {
    ghost received = { λ pipe. Some pipe.received.items };

    ghost written = { λ pipe. Some pipe.written.items };

    fn read(&mut self, buf: &mut [u8]) -> io::Result<usize> {
        self.is_read = !self.is_read;
        if !self.is_read {
            return Err(io::Error::from(ErrorKind::WouldBlock));
        }
        let most = buf.len().min(self.sender.longest);
        let count = self.sender.bytes.read(&mut buf[..most])?;
        match self.received.extend_from_slice(&buf[..count]) {
            Ok(()) => Ok(count),
            Err(_) => Err(io::Error::from(ErrorKind::OutOfMemory)),
        }
    }

    fn write(&mut self, buf: &[u8]) -> io::Result<usize> {
        self.is_written = !self.is_written;
        if !self.is_written {
            return Err(io::Error::from(ErrorKind::WouldBlock));
        }
        let count = buf.len().min(self.sender.longest);
        match self.written.extend_from_slice(&buf[..count]) {
            Ok(()) => Ok(count),
            Err(_) => Err(io::Error::from(ErrorKind::OutOfMemory)),
        }
    }

    fn end_writing(&mut self) -> io::Result<()> {
        Ok(())
    }
}

/// Clients in memory, which come in this order, as soon as there is a place for them.
#[derive(Drop)]
pub struct Visitors {
    alloc: Global,
    /// Those that come next.
    coming: VecDeque<Sender>,
    /// How many have come.
    come: usize,
    /// Which of these is looked at next.
    next: usize,
    /// The connections that have ended. None where there was no memory for them.
    ended: Option<Vec<Pipe>>,
}

impl Visitors {
    /// Clients that send so.
    pub fn new(alloc: Global, coming: VecDeque<Sender>) -> Visitors
        ensures coming { result.coming ≡ coming }
    {
        Visitors {
            alloc,
            coming,
            come: 0,
            next: 0,
            ended: Some(Vec::new(alloc)),
        }
    }

    /// The connections that have ended, in this order. None where there was no memory for them.
    pub fn into_ended(self) -> Option<Vec<Pipe>>
        ensures { result ≡ self.ended }
    {
        self.ended
    }
}

impl Listener<Pipe> for Visitors {
    ghost use Rattle.mx_tasks.specs.Visitors.{visitors};

    ghost clients = { visitors };

    fn wait(&mut self, _longest: Duration) -> io::Result<()> {
        self.next = 0;
        Ok(())
    }

    fn next(&mut self) -> Option<Ready> {
        let next = self.next;
        if self.come < next {
            return None;
        }
        self.next = next.saturating_add(1);
        if next == 0 {
            Some(Ready::Clients)
        } else {
            Some(Ready::Place(next - 1))
        }
    }

    fn accept(&mut self, _place: usize) -> Option<Pipe> {
        let sender = self.coming.pop_front()?;
        self.come = self.come.saturating_add(1);
        Some(Pipe::new(self.alloc, sender))
    }

    fn watch(&mut self, _stream: &mut Pipe, _place: usize) -> bool {
        true
    }

    fn ended(&mut self, stream: Pipe) {
        let is_told = match &mut self.ended {
            Some(all) => all.push(stream).is_ok(),
            None => false,
        };
        if !is_told {
            self.ended = None;
        }
    }
}
