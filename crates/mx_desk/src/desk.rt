//! Requests one after another.
ghost use Rattle.std.specs.Prelude.{◌≡◌, ◌+◌, ◌*◌, ◌<◌, ◌≤◌, ℕ, [], true, Ok, Err, OnOk, OnErr, IfErr, ◌≢◌, length, take};
ghost use Rattle.std.specs.Io.KnownBytes.{Appends, Keeps};
ghost use Rattle.mx_book.specs.Views.{RestsAt, IsHonest};
ghost use Rattle.mx_book.specs.World.{World};
ghost use Rattle.mx_desk.specs.Devices.{capped};
ghost use Rattle.mx_desk.specs.Knows.{Knows, RestsKnown};
ghost use Rattle.mx_desk.specs.Leaves.{Runs, Serves};
ghost use Rattle.mx_desk.specs.Rounds.{Leads, Moves};
ghost use Rattle.mx_desk.specs.Serve.{stop_text, stop_fixed};
ghost use Rattle.mx_desk.specs.Steps.{state, Turns};

use crate::callers::Callers;
use crate::counted::Counted;
use crate::fault::DeskFault;
use crate::first::first;
use crate::head::{Found, Reason, Stop};
use crate::input::Input;
use crate::outlet::Outlet;
use crate::output::{flush_out, write_out};
use crate::rounds::{hold, hold_more, respond};
use crate::workspace::Workspace;
use mx_book::Book;
use mx_office::Office;
use mx_wire::{Fixed, Routes, fixed_text};
use std::alloc::Global;
use std::io::{Read, Write};

/// What became of the first requests.
#[derive(Clone, Copy, Debug, PartialEq, Eq)]
pub enum Served {
    /// The input ended before its first byte.
    Nothing,
    /// So many requests were answered.
    Answered(u64),
    /// A fault of the input was answered: a bad head, a transfer coding, a bad content length, a body that is too large
    /// or cut.
    Stopped,
}

/// The response to a fault that ends a run.
pub(crate) fn stop_fixed(reason: Reason) -> Fixed
    ensures { result ≡ stop_fixed reason }
{
    match reason {
        Reason::BadHead => Fixed::BadHead,
        Reason::TransferCoding => Fixed::TransferCoding,
        Reason::BadLength => Fixed::BadLength,
        Reason::TooLarge => Fixed::TooLarge,
        Reason::BodyCut => Fixed::BodyCut,
    }
}

#[tactic(auto, unfolding(crate::specs::Serve::stop_text))]
fn text_of_stop(stop: Stop) -> &'static [u8]
    ensures { result.now ≡ stop_text stop }
{
    fixed_text(stop_fixed(stop.reason), stop.method)
}

/// Writes the response to a fault of the input, and passes it on.
fn write_stop<W: Write>(writer: &mut Counted<W>, stop: Stop) -> Result<(), DeskFault>
    ensures ok { OnOk result (Appends (W.contents writer.old.device) (W.contents writer.new.device)
        (stop_text stop)
        × (writer.new.failures ≡ writer.old.failures)) }
    ensures err { OnErr result ((count : ℕ) × (count ≤ length (stop_text stop))
        × Appends (W.contents writer.old.device) (W.contents writer.new.device)
        (take count (stop_text stop))
        × (writer.new.failures ≡ capped (writer.old.failures + 1))) }
    ensures fault { IfErr result (λ e. e ≡ DeskFault.Write) }
{
    write_out(writer, text_of_stop(stop))?;
    flush_out(writer)
}

/// Answers in one round the first request of what is pending and what is still read, with so many reads at most, and the whole
/// ones that are pending behind it. What the writer holds is passed on before each read.
fn serve_next<R: Read, W: Outlet, B: Book>(
    alloc: Global,
    workspace: &mut Workspace,
    input: &mut Input,
    turns: &mut u64,
    reader: &mut Counted<R>,
    writer: &mut Counted<W>,
    routes: &Routes,
    office: &mut Office<B>,
) -> Result<Served, DeskFault>
    ensures later { (B.view office.old.book).IsSettled
        → (B.view office.old.book).doubt ≤ (B.view office.new.book).doubt }
    ensures still { (B.view office.old.book).IsSettled → (B.view office.new.book).IsSettled }
    ensures steps { (w : World) → IsHonest (B.view office.new.book)
        → RestsKnown (B.view office.old.book) workspace.old.callers w
        → Leads (λ ms v. Turns B.fails
        (state input.old (R.remaining reader.old.device) (W.contents writer.old.device) w) result ms
        (state input.new (R.remaining reader.new.device) (W.contents writer.new.device) v)
        × (workspace.old.round.alone ≡ true → length ms ≤ 1))
        (λ rs v. Moves (B.view office.old.book) (B.view office.new.book) w rs v
        × Knows v workspace.new.callers) }
    ensures reads { (reads : ℕ) × (turns.old ≡ turns.new + reads)
        × (0 < reads → reads + length input.old ≤ 12288)
        × (reader.new.calls ≡ capped (reader.old.calls + reads)) }
    ensures turns { result ≡ Err DeskFault.Turns
        → (turns.new ≡ 0) × (turns.old + length input.old < 12288) }
    ensures smaller { (n : ℕ) → result ≡ Ok (Served.Answered n) → (0 < n)
        × (n + (12289 * turns.new + length input.new) ≤ 12289 * turns.old + length input.old) }
    ensures read_failed { result ≡ Err DeskFault.Read
        → reader.new.failures ≡ capped (reader.old.failures + 1) }
    ensures write_failed { result ≡ Err DeskFault.Write
        → writer.new.failures ≡ capped (writer.old.failures + 1) }
    ensures whole { OnOk result
        ((reader.new.failures ≡ reader.old.failures)
        × (writer.new.failures ≡ writer.old.failures)) }
{
    let _calls = reader.calls();
    let mut ended = false;
    'pieces: loop {
        match first(input.pending(), &mut workspace.fields) {
            Found::Whole(request, end) => {
                workspace.round.held.clear();
                let goes_on = hold(alloc, workspace, routes, office, &request);
                input.forget(end);
                hold_more(alloc, workspace, input, routes, office, goes_on);
                let count = workspace.round.held.len();
                respond(alloc, workspace, writer, office)?;
                return Ok(Served::Answered(count as u64));
            }
            Found::Stopped(stop) => {
                write_stop(writer, stop)?;
                return Ok(Served::Stopped);
            }
            Found::Open(fault) if ended => {
                let Some(stop) = fault else {
                    return Ok(Served::Nothing);
                };
                write_stop(writer, stop)?;
                return Ok(Served::Stopped);
            }
            Found::Open(_) => {}
        }
        flush_out(writer)?;
        if *turns == 0 {
            return Err(DeskFault::Turns);
        }
        *turns -= 1;
        ended = input.read_from(reader)? == 0;
    }
}

/// Answers the first request of the input alone, by at most 12,288 reads, and passes the response on. `Nothing` where
/// the input ends before its first byte; `Stopped` where the response is that to a fault of the input. A fault is
/// `Read` where a read failed, and then nothing was answered; or `Write` where a write or a flush failed or a write
/// took nothing, and then the request stands as its response says, which may be cut.
///
/// What is promised of the request is one clause (`serves`).
pub fn serve_one<R: Read, W: Outlet, B: Book>(
    alloc: Global,
    reader: &mut Counted<R>,
    writer: &mut Counted<W>,
    routes: &Routes,
    office: &mut Office<B>,
) -> Result<Served, DeskFault>
    ensures later { (B.view office.old.book).IsSettled
        → (B.view office.old.book).doubt ≤ (B.view office.new.book).doubt }
    ensures still { (B.view office.old.book).IsSettled → (B.view office.new.book).IsSettled }
    ensures serves { (w : World) → IsHonest (B.view office.new.book)
        → RestsAt (B.view office.old.book) w
        → Leads (λ ms now. Serves B.fails
        (state [] (R.remaining reader.old.device) (W.contents writer.old.device) w) result ms
        (state [] (R.remaining reader.new.device) (W.contents writer.new.device) now))
        (Moves (B.view office.old.book) (B.view office.new.book) w) }
    ensures reads { (reads : ℕ) × (reads ≤ 12288)
        × (reader.new.calls ≡ capped (reader.old.calls + reads)) }
    ensures never { result ≢ Err DeskFault.Turns }
    ensures read_failed { result ≡ Err DeskFault.Read
        → reader.new.failures ≡ capped (reader.old.failures + 1) }
    ensures write_failed { result ≡ Err DeskFault.Write
        → writer.new.failures ≡ capped (writer.old.failures + 1) }
{
    let mut workspace = Workspace::new(alloc, Callers::none(alloc), true);
    let mut input = Input::new();
    let mut turns = 12288;
    let served = serve_next(
        alloc,
        &mut workspace,
        &mut input,
        &mut turns,
        reader,
        writer,
        routes,
        office,
    )?;
    if let Served::Answered(_) = served {
        flush_out(writer)?;
    }
    Ok(served)
}

/// The most reads of one run.
pub const MOST_READS: u64 = 1_000_000_000;

/// Answers the requests of the input in rounds, until it ends or a fault of the input ends the run, and says how many
/// responses were written. What is promised is one clause (`runs`).
///
/// A fault is `Read` where a read failed, `Turns` where 1,000,000,000 reads didn't reach the end, and then the whole
/// requests are answered; or `Write` where a write or a flush failed or a write took nothing, and then the last round
/// stands as its responses say, which may be cut.
pub fn run<R: Read, W: Outlet, B: Book>(
    alloc: Global,
    reader: &mut Counted<R>,
    writer: &mut Counted<W>,
    routes: &Routes,
    office: &mut Office<B>,
) -> Result<u64, DeskFault>
    ensures later { (B.view office.old.book).IsSettled
        → (B.view office.old.book).doubt ≤ (B.view office.new.book).doubt }
    ensures still { (B.view office.old.book).IsSettled → (B.view office.new.book).IsSettled }
    ensures runs { (w : World) → IsHonest (B.view office.new.book)
        → RestsAt (B.view office.old.book) w
        → Leads (λ ms now. Runs B.fails
        (state [] (R.remaining reader.old.device) (W.contents writer.old.device) w) result ms
        (state [] (R.remaining reader.new.device) (W.contents writer.new.device) now))
        (Moves (B.view office.old.book) (B.view office.new.book) w) }
    ensures reads { (reads : ℕ) × (reads ≤ 1000000000)
        × (reader.new.calls ≡ capped (reader.old.calls + reads)) }
    ensures turns { result ≡ Err DeskFault.Turns
        → reader.new.calls ≡ capped (reader.old.calls + 1000000000) }
    ensures read_failed { result ≡ Err DeskFault.Read
        → reader.new.failures ≡ capped (reader.old.failures + 1) }
    ensures write_failed { result ≡ Err DeskFault.Write
        → writer.new.failures ≡ capped (writer.old.failures + 1) }
{
    let _calls = reader.calls();
    let mut workspace = Workspace::new(alloc, Callers::new(alloc), false);
    let mut input = Input::new();
    let mut turns = MOST_READS;
    let mut count = 0;
    'requests: loop {
        match serve_next(
            alloc,
            &mut workspace,
            &mut input,
            &mut turns,
            reader,
            writer,
            routes,
            office,
        )? {
            Served::Nothing => return Ok(count),
            Served::Stopped => return Ok(count + 1),
            Served::Answered(answered) => count += answered,
        }
    }
}
