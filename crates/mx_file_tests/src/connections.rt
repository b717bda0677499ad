//! Connections over a loopback socket, and in memory.
use crate::scratch::{Trial, expect, in_memory, request, response};
use mx_book::Book;
use mx_office::Office;
use mx_tasks::Alarm;
use mx_tasks::serve::chore::NoChore;
use mx_tasks::serve::connection::Connection;
use mx_tasks::serve::desk::Desk;
use mx_tasks::serve::listener::Listener;
use mx_tasks::serve::port::listen;
use mx_tasks::serve::reception::Reception;
use mx_tasks::serve::visitors::{Pipe, Sender, Visitors};
use mx_tasks::work::serve_connections;
use mx_wire::Routes;
use std::alloc::Global;
use std::collections::VecDeque;
use std::io::{Read, Write};
use std::net::{Shutdown, SocketAddr, TcpStream};
use std::test::Fail;

/// The body that adds the member m.
const MEMBER: &str = "{\"member\":\"m\",\"token\":\"00000000000000000000000000000002\"}";

/// Another such body.
const AGAIN: &str = "{\"member\":\"m\",\"token\":\"00000000000000000000000000000003\"}";

/// The body of the first response to these.
const ADDED: &str = "{\"done\":\"added\"}";

/// The body of the second.
const NAME_TAKEN: &str = "{\"error\":\"name taken\"}";

/// The body of the response to a token that is nobody's.
const NOBODY: &str = "{\"error\":\"token not known\"}";

/// Serves so many clients, and gives back where they came from.
fn served_by<S: Connection + Drop, L: Listener<S> + Drop, B: Book>(
    rt: &HostRuntime,
    listener: L,
    count: u64,
    office: &mut Office<B>,
) -> Result<L, Fail> {
    let mut desk = Desk::new(rt.alloc())?;
    let mut reception = Reception::new(rt.alloc(), listener, Alarm::new(rt), count)?;
    serve_connections(rt, &mut desk, &mut reception, office, &mut NoChore)?;
    Ok(reception.into_listener())
}

/// A connection on which the operator's request for the member m was sent, which ends then.
fn sent(rt: &HostRuntime, address: SocketAddr) -> Result<TcpStream, Fail> {
    let text = request(rt.alloc(), "f", "POST /members", MEMBER)?;
    let mut stream = TcpStream::connect(rt, address)?;
    stream.write_all(text.as_bytes())?;
    stream.shutdown(Shutdown::Write)?;
    Ok(stream)
}

/// All that comes on a connection.
fn received(alloc: Global, stream: impl Read + Drop) -> Result<String, Fail> {
    let mut bytes = Vec::new(alloc);
    let mut stream = stream;
    stream.read_to_end(&mut bytes)?;
    let text = std::str::from_utf8(bytes.as_slice())?;
    Ok(format!(in alloc; "{text}")?)
}

/// Fails unless this response comes on a connection.
fn expect_received(
    alloc: Global,
    stream: impl Read + Drop,
    status: &str,
    body: &str,
) -> Result<(), Fail> {
    let told = received(alloc, stream)?;
    let wanted = response(alloc, status, body)?;
    expect(alloc, "response", told.as_str(), wanted.as_str())
}

/// Of two connections with the same request each is served, one after the other.
#[derive(Drop)]
struct EachServed;

impl Trial for EachServed {
    fn try_in(
        &self,
        rt: &HostRuntime,
        _routes: &Routes,
        office: &mut Office<impl Book>,
    ) -> Result<(), Fail> {
        let port = listen(rt.alloc(), rt, 0)?;
        let address = port.local_addr()?;
        let first = sent(rt, address)?;
        let second = sent(rt, address)?;
        served_by(rt, port, 2, office)?;
        expect_received(rt.alloc(), &first, "200 OK", ADDED)?;
        expect_received(rt.alloc(), &second, "409 Conflict", NAME_TAKEN)
    }
}

#[test]
fn connections_one_after_another(rt: HostRuntime) -> Result<(), Fail> {
    in_memory(&rt, &EachServed)
}

/// A client in memory that sends a request, so many bytes of it at once.
fn sender(alloc: Global, text: &str, longest: usize) -> Result<Sender, Fail> {
    let mut bytes = VecDeque::new(alloc);
    bytes.write_all(text.as_bytes())?;
    Ok(Sender { bytes, longest })
}

/// Fails unless this came on a connection in memory, and this response was written.
fn expect_told(
    alloc: Global,
    pipe: &Pipe,
    text: &str,
    status: &str,
    body: &str,
) -> Result<(), Fail> {
    let wanted = response(alloc, status, body)?;
    let came = std::str::from_utf8(pipe.received.as_slice())?;
    let told = std::str::from_utf8(pipe.written.as_slice())?;
    expect(alloc, "request", came, text)?;
    expect(alloc, "response", told, wanted.as_str())
}

/// A client that sends and takes seven bytes at a time holds up no other: whose request is whole first is answered first, and
/// each gets its own response.
#[derive(Drop)]
struct SlowServedBehind;

impl Trial for SlowServedBehind {
    fn try_in(
        &self,
        rt: &HostRuntime,
        _routes: &Routes,
        office: &mut Office<impl Book>,
    ) -> Result<(), Fail> {
        let alloc = rt.alloc();
        let slow = request(alloc, "f", "POST /members", AGAIN)?;
        let fast = request(alloc, "f", "POST /members", MEMBER)?;
        let mut coming = VecDeque::new(alloc);
        coming.push_back(sender(alloc, slow.as_str(), 7)?)?;
        coming.push_back(sender(alloc, fast.as_str(), 1000)?)?;
        let visitors = served_by(rt, Visitors::new(alloc, coming), 2, office)?;
        let Some(ended) = visitors.into_ended() else {
            return expect(alloc, "memory", "none", "enough");
        };
        let [first, second] = ended.as_slice() else {
            return expect(alloc, "visitors", "others", "two");
        };
        expect_told(alloc, first, fast.as_str(), "200 OK", ADDED)?;
        expect_told(alloc, second, slow.as_str(), "409 Conflict", NAME_TAKEN)
    }
}

#[test]
fn slow_clients_hold_up_nobody(rt: HostRuntime) -> Result<(), Fail> {
    in_memory(&rt, &SlowServedBehind)
}

/// Of more clients than there are places, each of whom sends its request at once, each is answered.
#[derive(Drop)]
struct CrowdServed;

impl Trial for CrowdServed {
    fn try_in(
        &self,
        rt: &HostRuntime,
        _routes: &Routes,
        office: &mut Office<impl Book>,
    ) -> Result<(), Fail> {
        let alloc = rt.alloc();
        let text = request(alloc, "e", "GET /purses", "")?;
        let mut coming = VecDeque::new(alloc);
        for _ in 0..700 {
            coming.push_back(sender(alloc, text.as_str(), 1000)?)?;
        }
        let visitors = served_by(rt, Visitors::new(alloc, coming), 700, office)?;
        let Some(ended) = visitors.into_ended() else {
            return expect(alloc, "memory", "none", "enough");
        };
        for pipe in &ended {
            expect_told(alloc, pipe, text.as_str(), "403 Forbidden", NOBODY)?;
        }
        let count = format!(in alloc; "{}", ended.len())?;
        expect(alloc, "clients", count.as_str(), "700")
    }
}

#[test]
fn each_of_a_crowd_is_answered(rt: HostRuntime) -> Result<(), Fail> {
    in_memory(&rt, &CrowdServed)
}

/// The port is listened on at 127.0.0.1, and at no other address of the machine.
#[test]
fn no_other_address_is_listened_on(rt: HostRuntime) -> Result<(), Fail> {
    let listener = listen(rt.alloc(), &rt, 0)?;
    let port = listener.local_addr()?.port();
    assert!(rt; TcpStream::connect(&rt, ("127.0.0.1", port)).is_ok());
    assert!(rt; TcpStream::connect(&rt, ("127.0.0.2", port)).is_err());
    Ok(())
}
