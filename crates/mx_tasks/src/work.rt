//! What is done over the books in a file.
ghost use Rattle.std.specs.Prelude.{◌≡◌, ◌≤◌, None, IfOk, IfErr, IsErr, OnOk, string_bytes};
ghost use Rattle.std.specs.Io.KnownBytes.{Appends};
ghost use Rattle.mx_book.specs.Views.{Keeps, RestsAt, IsSure, IsHonest};
ghost use Rattle.mx_book.specs.World.{World};
ghost use Rattle.mx_desk.specs.Knows.{RestsKnown};
ghost use Rattle.mx_desk.specs.Rounds.{Leads, Moves};
ghost use Rattle.mx_tasks.specs.Connections.{ServesClients, ServesRound};
ghost use Rattle.mx_tasks.specs.Faults.{IsReportFault};
ghost use Rattle.mx_tasks.specs.Halls.{Always, Tends, hall};
ghost use Rattle.mx_tasks.specs.Voices.{RingsFor};
ghost use Rattle.mx_tasks.specs.Works.{ImportsFile, IsSaid, Works, WorksReport, WorksServe, listening_text, served_text};

use crate::fault::TaskFault;
use crate::import::import_file;
use crate::report::{ReportKind, report_text};
use crate::serve::alarm::Alarm;
use crate::serve::chore::Chore;
use crate::serve::connection::Connection;
use crate::serve::desk::Desk;
use crate::serve::listener::Listener;
use crate::serve::port::{Port, listen};
use crate::serve::reception::Reception;
use crate::serve::round::serve_round;
use crate::voice::Voice;
use mx_book::Book;
use mx_office::Office;
use std::alloc::{AllocError, Global};
use std::io;
use std::io::Write;
use std::net::{Net, TcpListener, TcpStream};
use std::rt::Clock;
use std::time::Instant;

/// What is done over the books in a file, beside a run, which has the input and the output.
#[derive(Drop)]
pub enum Work<'a> {
    /// Connections are served.
    Serve {
        /// The port, from 1 to 65535.
        port: u16,
        /// How many connections are served.
        count: u32,
    },
    /// A roll is imported, from the file of this name.
    Import(&'a str),
    /// A report is made.
    Report(ReportKind),
}

/// What comes of work: a text, which is printed once the file of the books is closed, and the fault with which the task ends
/// then, if there is one.
#[derive(Drop)]
pub struct Done {
    /// The text.
    pub text: Vec<u8>,
    /// The fault: `Store` where what is reported doesn't add up.
    pub fault: Option<TaskFault>,
}

/// This text, and no fault.
fn said(text: Vec<u8>) -> Done
    ensures { IsSaid text.items result }
{
    Done { text, fault: None }
}

/// The report of this kind.
fn report<B: Book>(alloc: Global, book: &mut B, kind: ReportKind) -> Result<Done, TaskFault>
    ensures keeps { Keeps (B.view book.old) (B.view book.new) }
    ensures fault { IfErr result (IsReportFault B.fails) }
    ensures reports { IsSure (B.view book.new)
        → WorksReport (B.view book.old).world kind result }
{
    let reported = report_text(alloc, book, kind)?;
    Ok(Done {
        text: reported.text,
        fault: (!reported.is_even).then_some(TaskFault::Store),
    })
}

/// The line that says on which port is listened.
fn listening_text(alloc: Global, port: u16) -> Result<String, AllocError>
    ensures { IfOk result (λ line. string_bytes line ≡ listening_text port) }
{
    format!(in alloc; "listening on 127.0.0.1:{port}\n")
}

/// Writes that line.
///
/// # Errors
///
/// `Memory` where there is none for the line; `Write` where it can't be written.
fn say_listening<W: Write>(alloc: Global, writer: &mut W, port: u16) -> Result<(), TaskFault>
    ensures said { OnOk result (Appends (W.contents writer.old) (W.contents writer.new)
        (listening_text port)) }
{
    let line = listening_text(alloc, port)?;
    if writer.write_all(line.as_str().as_bytes()).is_err() {
        return Err(TaskFault::Write);
    }
    Ok(())
}

/// The line that says how many connections were served.
fn served_text(alloc: Global, served: u64) -> Result<String, AllocError>
    ensures { IfOk result (λ line. string_bytes line ≡ served_text served) }
{
    format!(in alloc; "served {served}\n")
}

/// Does the chore where it is due, waits until a client is ready, a client's time is over or the chore is due again, and ends the
/// connections of those whose time is over. Says when that was.
fn wait<S: Connection + Drop, L: Listener<S>, V, C: Chore>(
    rt: &impl Clock,
    reception: &mut Reception<L, S, V>,
    chore: &mut C,
    piece: &mut [u8],
) -> io::Result<Instant>
    ensures tends { Tends S.received S.written Always 0 0
        (hall L.clients reception.old) (hall L.clients reception.new) }
    ensures quiet { reception.new.alarm ≡ reception.old.alarm }
{
    let idle = chore.between(Instant::now(rt)?);
    let longest = reception.patience().min(idle);
    reception.listener.wait(longest)?;
    let now = Instant::now(rt)?;
    reception.look_back(now, piece);
    reception.keep_time(now);
    Ok(now)
}

/// Serves the clients that come, as many as the reception is for, in rounds: of each its first request alone. What is promised of
/// these is one clause (`serves`). A fault of a connection ends that connection alone, and a slow client holds up no other: it has
/// ten seconds for its request, ten for taking the answer, and ten with what it sends behind. Where the store fails a request the
/// alarm says so. Between rounds the chore is done where it is due. The answer is how many were served.
///
/// # Errors
///
/// `Net` where clients can't be waited for; `Store` where the store is shut.
pub fn serve_connections<S: Connection + Drop, L: Listener<S>, V: Voice, B: Book, C: Chore>(
    rt: &impl Clock,
    desk: &mut Desk,
    reception: &mut Reception<L, S, V>,
    office: &mut Office<B>,
    chore: &mut C,
) -> Result<u64, TaskFault>
    ensures all { IfOk result (λ served. served ≡ reception.old.count) }
    ensures done { OnOk result ((reception.new.taken ≡ reception.old.count)
        × (reception.new.ended ≡ reception.old.count)) }
    ensures later { (B.view office.old.book).IsSettled
        → (B.view office.old.book).doubt ≤ (B.view office.new.book).doubt }
    ensures still { (B.view office.old.book).IsSettled → (B.view office.new.book).IsSettled }
    ensures serves { (w : World) → IsHonest (B.view office.new.book)
        → RestsKnown (B.view office.old.book) desk.old.workspace.callers w
        → Leads (ServesRound B.fails S.received S.written w
        (hall L.clients reception.old) (hall L.clients reception.new))
        (Moves (B.view office.old.book) (B.view office.new.book) w) }
    ensures rings { RingsFor V.said reception.old.alarm reception.new.alarm (IsErr result) }
{
    'rounds: for _ in 0..u64::MAX {
        if reception.is_done() {
            return Ok(reception.count());
        }
        let Ok(now) = wait(rt, reception, chore, desk.piece.as_mut_slice()) else {
            return Err(TaskFault::Net);
        };
        serve_round(desk, reception, now, office)?;
    }
    Err(TaskFault::Net)
}

/// Serves so many clients that come at a port.
fn serve_port<B: Book, C: Chore>(
    rt: &(impl AllocGlobal + Clock + Eprint),
    port: Port,
    count: u32,
    office: &mut Office<B>,
    chore: &mut C,
) -> Result<u64, TaskFault>
    ensures all { IfOk result (λ served. served ≡ count) }
    ensures later { (B.view office.old.book).IsSettled
        → (B.view office.old.book).doubt ≤ (B.view office.new.book).doubt }
    ensures still { (B.view office.old.book).IsSettled → (B.view office.new.book).IsSettled }
    ensures serves { (w : World) → IsHonest (B.view office.new.book)
        → RestsAt (B.view office.old.book) w
        → Leads (ServesClients B.fails w count result)
        (Moves (B.view office.old.book) (B.view office.new.book) w) }
{
    let mut reception = Reception::new(rt.alloc(), port, Alarm::new(rt), u64::from(count))?;
    let mut desk = Desk::new(rt.alloc())?;
    serve_connections(rt, &mut desk, &mut reception, office, chore)
}

/// At which port clients are served, and how many.
#[derive(Clone, Copy, Debug)]
pub struct Serving {
    /// The port, from 1 to 65535.
    pub port: u16,
    /// How many connections are served.
    pub count: u32,
}

/// Listens on a port of 127.0.0.1, writes a line that says so, and serves so many clients. Gives the line that says how many were
/// served.
///
/// # Errors
///
/// `Net` where the port can't be listened on or clients can't be waited for, `Write` where the line can't be written, `Store`
/// where the store is shut, and `Memory`.
pub fn serve<W: Write, B: Book, C: Chore>(
    rt: &(impl AllocGlobal + Clock + Eprint + Net<Listener = TcpListener, Stream = TcpStream>),
    writer: &mut W,
    serving: Serving,
    office: &mut Office<B>,
    chore: &mut C,
) -> Result<Done, TaskFault>
    ensures said { OnOk result (Appends (W.contents writer.old) (W.contents writer.new)
        (listening_text serving.port)) }
    ensures later { (B.view office.old.book).IsSettled
        → (B.view office.old.book).doubt ≤ (B.view office.new.book).doubt }
    ensures still { (B.view office.old.book).IsSettled → (B.view office.new.book).IsSettled }
    ensures serves { (w : World) → IsHonest (B.view office.new.book)
        → RestsAt (B.view office.old.book) w
        → Leads (WorksServe B.fails w serving.count result)
        (Moves (B.view office.old.book) (B.view office.new.book) w) }
{
    let Ok(listener) = listen(rt.alloc(), rt, serving.port) else {
        return Err(TaskFault::Net);
    };
    say_listening(rt.alloc(), writer, serving.port)?;
    let served = serve_port(rt, listener, serving.count, office, chore)?;
    Ok(said(served_text(rt.alloc(), served)?.into_bytes()))
}

/// Imports the roll in a file.
fn import<B: Book>(rt: &HostRuntime, roll: &str, office: &mut Office<B>) -> Result<Done, TaskFault>
    ensures later { (B.view office.old.book).IsSettled
        → (B.view office.old.book).doubt ≤ (B.view office.new.book).doubt }
    ensures still { (B.view office.old.book).IsSettled → (B.view office.new.book).IsSettled }
    ensures imports { (B.view office.old.book).IsSettled → IsSure (B.view office.new.book)
        → ImportsFile None (λ v. (B.view office.new.book).world ≡ v)
        (B.view office.old.book).world IsSaid result }
{
    let lines = import_file(rt, rt, &mut rt.stderr(), roll, office)?;
    Ok(said(lines.into_bytes()))
}

/// Does the work, and gives what comes of it; while it serves, the chore is done too. What comes of the work, and of what the books
/// are then, is said of each kind of work (`works`).
///
/// # Errors
///
/// Serving: `Net` where the port can't be listened on or clients can't be waited for, and `Write` where that it listens can't
/// be printed. An import: `File`, `RollTooLarge`, `Roll`. A report: `NoSuchPurse`. `Memory` or `Store` comes with any work.
pub fn do_work<B: Book, C: Chore>(
    rt: &HostRuntime,
    work: &Work<'_>,
    office: &mut Office<B>,
    chore: &mut C,
) -> Result<Done, TaskFault>
    ensures later { (B.view office.old.book).IsSettled
        → (B.view office.old.book).doubt ≤ (B.view office.new.book).doubt }
    ensures still { (B.view office.old.book).IsSettled → (B.view office.new.book).IsSettled }
    ensures works { (B.view office.old.book).IsSettled → IsHonest (B.view office.new.book)
        → Works B.fails (IsSure (B.view office.new.book)) (λ v. (B.view office.new.book).world ≡ v)
        (Moves (B.view office.old.book) (B.view office.new.book) (B.view office.old.book).world)
        (B.view office.old.book).world work.now result }
{
    match work {
        Work::Serve { port, count } => {
            let serving = Serving {
                port: *port,
                count: *count,
            };
            serve(rt, &mut io::writer(rt), serving, office, chore)
        }
        Work::Import(roll) => import(rt, roll, office),
        Work::Report(kind) => report(rt.alloc(), &mut office.book, *kind),
    }
}

/// Does a piece of work over books, and gives them back with what came of it.
pub fn work_in_book<B: Book, C: Chore>(
    rt: &HostRuntime,
    work: &Work<'_>,
    book: B,
    chore: &mut C,
) -> (Result<Done, TaskFault>, B)
    ensures later { (B.view book).IsSettled → (B.view book).doubt ≤ (B.view result.1).doubt }
    ensures still { (B.view book).IsSettled → (B.view result.1).IsSettled }
    ensures works { (B.view book).IsSettled → IsHonest (B.view result.1)
        → Works B.fails (IsSure (B.view result.1)) (λ v. (B.view result.1).world ≡ v)
        (Moves (B.view book) (B.view result.1) (B.view book).world)
        (B.view book).world work.now result.0 }
{
    let mut office = Office::new(book);
    let answer = do_work(rt, work, &mut office, chore);
    (answer, office.into_book())
}
