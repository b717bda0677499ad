//! Rolls: members, holders and purses that come as a list, and may come twice.
ghost use Rattle.std.specs.Prelude.{◌≡◌, ◌≢◌, ◌≤◌, ◌<◌, ◌+◌, ◌^◌, ◌-◌, ◌∷◌, ◌⊎◌, [], ℕ, List, Some, None, option_map, IfOk, IfErr, Ok, Err, OnOk, OnErr};
ghost use Rattle.std.specs.Vec.{vec_len, vec_capacity};
ghost use Rattle.csv.specs.Reading.{error_kind};
ghost use Rattle.csv.specs.declared.error.Error.{Error};
ghost use Rattle.csv.specs.Records.{Row, fields_of};
ghost use Rattle.mx_book.specs.declared.contract.StoreFault.TheVariants as fault;
ghost use Rattle.mx_book.specs.Views.{Bides, Keeps, Gives, IsSure};
ghost use Rattle.mx_book.specs.Views.{Settles};
ghost use Rattle.mx_book.specs.World.{World, is_of};
ghost use Rattle.mx_office.specs.Reachable.{IsReachable, StandsBalanced};
ghost use Rattle.mx_report.specs.declared.rolls.RollFaultKind.TheVariants.{NotRoll, Memory, Store};
ghost use Rattle.mx_report.specs.Roll.{Fields, asker, is_clerk, is_holder, is_same, roll_header};
ghost use Rattle.mx_report.specs.Import.{IsRowImported, IsRecordImported, IsBroken, IsImported, HasNoHeader, IsNoRoll, IsRoll, SettlesRows, outcome_of, no_rows, rows_counted, tallied, tally_of};
ghost use Rattle.mx_report.specs.Reading.{HasGiven, book_fault, record_fault};

use crate::progress::{Nobody, Progress};
use crate::roll_rows::{RollRow, is_roll_header, row_of};
use csv::{ByteRecord, ByteRecordsIntoIter, Error, ErrorKind, ReaderBuilder};
use mx_book::values::{Caller, HolderRow};
use mx_book::{Book, StoreFault};
use mx_command::{Refusal, Reply};
use mx_office::Office;
use mx_pay::Name;
use mx_pay::names::same_name;
use std::alloc::Global;

/// How many rows wait for a settle at most.
const MOST_WAITING: u64 = 64;

/// Why a row of a roll is refused.
#[derive(Clone, Copy)]
pub enum RollReason {
    /// The row is of no form that a roll's rows have.
    BadRow,
    /// The office refused its command.
    Refused(Refusal),
}

/// A row that was refused.
#[derive(Clone, Copy)]
pub struct RefusedRow {
    /// The number of the row, counted from 1 after the header.
    pub number: u64,
    /// Why it was refused.
    pub reason: RollReason,
}

/// What came of the rows of a roll.
#[derive(Drop)]
pub struct RollReport {
    /// How many rows were added.
    pub added: u64,
    /// How many rows stood already, and changed nothing.
    pub same: u64,
    /// The rows that were refused, by number.
    pub refused: Vec<RefusedRow>,
}

/// Why the import of a roll ended before the roll did.
#[derive(Clone, Copy)]
pub enum RollFaultKind {
    /// The first record isn't `kind,name,of,token`, or there is none, or a record has another number of fields.
    NotRoll,
    /// There is no memory.
    Memory,
    /// The store refused a statement for another cause, or holds a row that isn't a value of the World.
    Store,
}

/// An import that ended before its roll did.
#[derive(Clone, Copy)]
pub struct RollFault {
    /// Why it ended.
    pub kind: RollFaultKind,
    /// How many first rows of the roll stand, and no other does.
    pub done: u64,
}

/// What came of a row.
#[derive(Clone, Copy)]
pub(crate) enum RowOutcome {
    /// What it says was added.
    Added,
    /// What it says stood already.
    Same,
    /// It was refused.
    Refused(RollReason),
}

impl RollReport {
    /// The report of no rows.
    fn new(alloc: Global) -> RollReport
        ensures { tally_of result ≡ no_rows }
    {
        RollReport {
            added: 0,
            same: 0,
            refused: Vec::new(alloc),
        }
    }

    /// How many rows were counted.
    fn rows(&self) -> u64
        requires few { rows_counted (tally_of self.now) < 2 ^ 64 }
        ensures { result ≡ rows_counted (tally_of self.now) }
    {
        self.added + self.same + self.refused.len() as u64
    }

    /// Counts one row more. There is room for it among the refused ones.
    fn count(&mut self, outcome: RowOutcome)
        requires few { rows_counted (tally_of self.old) < 2 ^ 64 - 1 }
        requires room { vec_len self.old.refused < vec_capacity self.old.refused }
        ensures { tally_of self.new ≡ tallied (tally_of self.old) outcome }
    {
        match outcome {
            RowOutcome::Added => self.added += 1,
            RowOutcome::Same => self.same += 1,
            RowOutcome::Refused(reason) => {
                let number = self.rows() + 1;
                self.refused.push_reserved(RefusedRow { number, reason });
            }
        }
    }
}

/// What a fault of the book is to the import of a roll.
fn book_fault(fault: StoreFault) -> RollFaultKind
    ensures { result ≡ book_fault fault }
{
    match fault {
        StoreFault::Memory => RollFaultKind::Memory,
        StoreFault::Store => RollFaultKind::Store,
    }
}

/// What a record that csv refuses is to the import of a roll.
fn record_fault(error: Error) -> RollFaultKind
    ensures { result ≡ record_fault (error_kind error) }
{
    match error.kind() {
        ErrorKind::UnequalLengths { .. } => RollFaultKind::NotRoll,
        _ => RollFaultKind::Memory,
    }
}

/// Whether a caller is the clerk of that member.
fn is_clerk(member: &Name, caller: &Option<Caller>) -> bool
    ensures { result ≡ is_clerk member.now caller.now }
{
    match caller {
        Some(Caller::Clerk(name)) => same_name(member, name),
        _ => false,
    }
}

/// Whether a caller is that holder.
fn is_holder(holder: &Name, caller: &Option<Caller>) -> bool
    ensures { result ≡ is_holder holder.now caller.now }
{
    match caller {
        Some(Caller::Holder(name)) => same_name(holder, name),
        _ => false,
    }
}

/// Whether a holder is there, and is that member's.
fn is_of(member: &Name, holder: &Option<HolderRow>) -> bool
    ensures { result ≡ is_of member.now (option_map (λ h. h.member) holder.now) }
{
    match holder {
        Some(row) => same_name(member, &row.member),
        None => false,
    }
}

/// Whether what a row says stands already.
#[tactic(auto, unfolding(crate::specs::Roll::is_same))]
fn is_same<B: Book>(book: &mut B, alloc: Global, row: &RollRow) -> Result<bool, StoreFault>
    ensures keeps { Keeps (B.view book.old) (B.view book.new) }
    ensures value { Gives (B.view book.old) (B.view book.new) result
        (λ w b. b ≡ is_same w row.now) }
    ensures fault { IfErr result B.fails }
{
    match row {
        RollRow::Member { member, token } => {
            let who = book.who(alloc, token)?;
            Ok(is_clerk(member, &who))
        }
        RollRow::Holder {
            holder,
            member,
            token,
        } => {
            let kept = book.holder(alloc, *holder)?;
            let who = book.who(alloc, token)?;
            Ok(is_of(member, &kept) && is_holder(holder, &who))
        }
        RollRow::Purse { purse, holder } => book.is_own(alloc, *holder, *purse),
    }
}

/// Who is to ask for what a row says: the operator for a member, the member's clerk for a holder, and the clerk of the
/// holder's member for a purse. None where that holder isn't there.
#[tactic(auto, unfolding(crate::specs::Roll::asker))]
fn asker<B: Book>(book: &mut B, alloc: Global, row: &RollRow) -> Result<Option<Caller>, StoreFault>
    ensures keeps { Keeps (B.view book.old) (B.view book.new) }
    ensures value { Gives (B.view book.old) (B.view book.new) result
        (λ w o. o ≡ asker w row.now) }
    ensures fault { IfErr result B.fails }
{
    match row {
        RollRow::Member { .. } => Ok(Some(Caller::Operator)),
        RollRow::Holder { member, .. } => Ok(Some(Caller::Clerk(*member))),
        RollRow::Purse { holder, .. } => match book.holder(alloc, *holder)? {
            Some(row) => Ok(Some(Caller::Clerk(row.member))),
            None => Ok(None),
        },
    }
}

/// What a reply comes to: the command adds, or it is refused.
fn outcome_of(reply: &Reply) -> RowOutcome
    ensures { result ≡ outcome_of reply.now }
{
    match reply {
        Reply::Refused(refusal) => RowOutcome::Refused(RollReason::Refused(*refusal)),
        _ => RowOutcome::Added,
    }
}

/// Imports a row: nothing where it is same, and else its command, which the office answers as it answers a request. What it
/// changes waits for a settle.
fn import_row<B: Book>(
    office: &mut Office<B>,
    alloc: Global,
    row: &RollRow,
) -> Result<RowOutcome, StoreFault>
    ensures later { (B.view office.old.book).doubt ≤ (B.view office.new.book).doubt }
    ensures bides { Bides (B.view office.old.book) (B.view office.new.book) }
    ensures ok { IsSure (B.view office.new.book)
        → IfOk result (IsRowImported (λ v. (B.view office.new.book).world ≡ v)
        (B.view office.old.book).world (Some row.now)) }
    ensures err { IsSure (B.view office.new.book)
        → OnErr result ((B.view office.new.book).world ≡ (B.view office.old.book).world) }
    ensures fault { IfErr result (λ e. (e ≡ fault.Memory) ⊎ B.fails e) }
{
    if is_same(&mut office.book, alloc, row)? {
        return Ok(RowOutcome::Same);
    }
    let Some(caller) = asker(&mut office.book, alloc, row)? else {
        return Ok(RowOutcome::Refused(RollReason::Refused(Refusal::NoSuchHolder)));
    };
    let reply = office.answer_in_round(alloc, caller, &row.command())?;
    Ok(outcome_of(&reply))
}

/// Imports the row that a record spells, and counts it. Room among the refused rows is made first, so that what was done
/// is always counted.
fn import_record<B: Book>(
    office: &mut Office<B>,
    alloc: Global,
    entry: &ByteRecord,
    report: &mut RollReport,
) -> Result<(), StoreFault>
    requires few { rows_counted (tally_of report.old) < 2 ^ 64 - 1 }
    ensures later { (B.view office.old.book).doubt ≤ (B.view office.new.book).doubt }
    ensures bides { Bides (B.view office.old.book) (B.view office.new.book) }
    ensures ok { IsSure (B.view office.new.book)
        → OnOk result (IsRecordImported (λ v. (B.view office.new.book).world ≡ v)
        (B.view office.old.book).world
        (fields_of entry.now) (tally_of report.old) (tally_of report.new)) }
    ensures counted { OnOk result
        (rows_counted (tally_of report.new) ≡ rows_counted (tally_of report.old) + 1) }
    ensures err { IsSure (B.view office.new.book)
        → OnErr result ((B.view office.new.book).world ≡ (B.view office.old.book).world) }
    ensures uncounted { OnErr result (tally_of report.new ≡ tally_of report.old) }
    ensures fault { IfErr result (λ e. (e ≡ fault.Memory) ⊎ B.fails e) }
{
    report.refused.reserve(1)?;
    let outcome = match row_of(entry) {
        Some(row) => import_row(office, alloc, &row)?,
        None => RowOutcome::Refused(RollReason::BadRow),
    };
    report.count(outcome);
    Ok(())
}

/// Takes the header off a roll.
fn take_header(records: &mut ByteRecordsIntoIter<&[u8]>) -> Result<(), RollFaultKind>
    ensures ok { (text : List ℕ) → HasGiven text [] None records.old
        → OnOk result (HasGiven text (roll_header ∷ []) (Some 4) records.new) }
    ensures err { (text : List ℕ) → HasGiven text [] None records.old
        → IfErr result (λ kind. (kind ≢ Store) × (kind ≡ NotRoll → HasNoHeader text 0)) }
{
    match records.next() {
        Some(Ok(record)) => {
            if is_roll_header(&record) {
                Ok(())
            } else {
                Err(RollFaultKind::NotRoll)
            }
        }
        Some(Err(error)) => Err(record_fault(error)),
        None => Err(RollFaultKind::NotRoll),
    }
}

/// The records of a roll behind its header.
fn records_of(alloc: Global, bytes: &[u8]) -> Result<ByteRecordsIntoIter<&[u8]>, RollFaultKind>
    ensures ok { IfOk result (HasGiven bytes.now (roll_header ∷ []) (Some 4)) }
    ensures err { IfErr result
        (λ kind. (kind ≢ Store) × (kind ≡ NotRoll → HasNoHeader bytes.now 0)) }
{
    let reader = ReaderBuilder::new()
        .has_headers(false)
        .from_reader(alloc, bytes);
    let mut records = reader.into_byte_records();
    take_header(&mut records)?;
    Ok(records)
}

/// Imports what comes next in a roll, and counts it, where it is a record.
fn import_next<B: Book>(
    office: &mut Office<B>,
    alloc: Global,
    next: Result<ByteRecord, Error>,
    report: &mut RollReport,
) -> Result<(), RollFaultKind>
    requires few { rows_counted (tally_of report.old) < 2 ^ 64 - 1 }
    ensures later { (B.view office.old.book).doubt ≤ (B.view office.new.book).doubt }
    ensures bides { Bides (B.view office.old.book) (B.view office.new.book) }
    ensures taken { OnOk result ((r : Row) × (next ≡ Ok r)) }
    ensures ok { IsSure (B.view office.new.book)
        → OnOk result (IfOk next (λ r. IsRecordImported (λ v. (B.view office.new.book).world ≡ v)
        (B.view office.old.book).world
        (fields_of r) (tally_of report.old) (tally_of report.new))) }
    ensures counted { OnOk result
        (rows_counted (tally_of report.new) ≡ rows_counted (tally_of report.old) + 1) }
    ensures err { IsSure (B.view office.new.book)
        → OnErr result ((B.view office.new.book).world ≡ (B.view office.old.book).world) }
    ensures uncounted { OnErr result (tally_of report.new ≡ tally_of report.old) }
    ensures not_roll { IfErr result (λ kind. kind ≡ NotRoll
        → (error : Error) × (next ≡ Err error) × (record_fault (error_kind error) ≡ NotRoll)) }
    ensures store { IfErr result (λ kind. kind ≡ Store → B.fails fault.Store) }
{
    match next {
        Ok(record) => match import_record(office, alloc, &record, report) {
            Ok(()) => Ok(()),
            Err(fault) => Err(book_fault(fault)),
        },
        Err(error) => Err(record_fault(error)),
    }
}

/// Settles what waits, so that all rows so far are kept, and tells and gives how many. Where it fails, as many are kept as
/// before.
fn settle_rows<B: Book, P: Progress>(
    office: &mut Office<B>,
    rows: u64,
    kept: u64,
    progress: &mut P,
) -> Result<u64, RollFault>
    ensures settles { Settles (B.view office.old.book) (B.view office.new.book) result }
    ensures all { IfOk result (λ n. n ≡ rows) }
    ensures before { IfErr result (λ f. f.done ≡ kept) }
    ensures roll { IfErr result (λ f. f.kind ≢ NotRoll) }
    ensures store { IfErr result (λ f. f.kind ≡ Store → B.fails fault.Store) }
{
    match office.settle() {
        Ok(()) => {
            progress.done(rows);
            Ok(rows)
        }
        Err(fault) => Err(RollFault {
            kind: book_fault(fault),
            done: kept,
        }),
    }
}

/// Settles the rows so far where enough of them wait, and gives how many are kept.
fn settle_some<B: Book, P: Progress>(
    office: &mut Office<B>,
    rows: u64,
    kept: u64,
    progress: &mut P,
) -> Result<u64, RollFault>
    requires few { kept ≤ rows }
    ensures ok { IfOk result (λ n.
        ((n ≡ kept) × (office.new.book ≡ office.old.book))
        ⊎ ((n ≡ rows) × Settles (B.view office.old.book) (B.view office.new.book) result)) }
    ensures err { OnErr result (Settles (B.view office.old.book) (B.view office.new.book) result) }
    ensures within { IfOk result (λ n. n ≤ rows) }
    ensures before { IfErr result (λ f. f.done ≡ kept) }
    ensures roll { IfErr result (λ f. f.kind ≢ NotRoll) }
    ensures store { IfErr result (λ f. f.kind ≡ Store → B.fails fault.Store) }
{
    if rows - kept < MOST_WAITING {
        return Ok(kept);
    }
    settle_rows(office, rows, kept, progress)
}

/// The fault of an import that ends behind so many rows: these are settled first. Where that fails, fewer rows stand than come
/// before a record that makes the roll none, and in place of `NotRoll` the fault is that of the settle.
fn end_at<B: Book, P: Progress>(
    office: &mut Office<B>,
    kind: RollFaultKind,
    rows: u64,
    kept: u64,
    progress: &mut P,
) -> RollFault
    ensures settles { SettlesRows (B.view office.old.book)
        (B.view office.new.book) rows kept result.done }
    ensures not_roll { result.kind ≡ NotRoll → (kind ≡ NotRoll) × (result.done ≡ rows) }
    ensures store { result.kind ≡ Store → (kind ≡ Store) ⊎ B.fails fault.Store }
{
    match settle_rows(office, rows, kept, progress) {
        Ok(done) => RollFault { kind, done },
        Err(fault) => match kind {
            RollFaultKind::NotRoll => fault,
            _ => RollFault {
                kind,
                done: fault.done,
            },
        },
    }
}

/// Imports a roll: members, holders and purses in comma-separated values, with the header `kind,name,of,token`. The bytes
/// EF BB BF before it are dropped. A row that stands already changes nothing and is counted as same; each other is one
/// command, by the operator for a member, and by its member's clerk for a holder or a purse. A row that is refused, or is of
/// no row's form, doesn't stop the import.
///
/// It settles every 64 rows, and at the end. After a fault `done` rows stand, and no other.
pub fn import_roll<B: Book>(
    alloc: Global,
    office: &mut Office<B>,
    bytes: &[u8],
) -> Result<RollReport, RollFault>
    ensures still { (B.view office.old.book).IsSettled → (B.view office.new.book).IsSettled }
    ensures later { (B.view office.old.book).IsSettled
        → (B.view office.old.book).doubt ≤ (B.view office.new.book).doubt }
    ensures done { IsSure (B.view office.new.book)
        → IfOk result (λ report. IsImported (λ v. (B.view office.new.book).world ≡ v)
        (B.view office.old.book).world bytes.now
        (tally_of report)) }
    ensures broken { (B.view office.old.book).IsSettled → IsSure (B.view office.new.book)
        → IfErr result (λ f. IsBroken (λ v. (B.view office.new.book).world ≡ v)
        (B.view office.old.book).world bytes.now f.done) }
    ensures roll { IfOk result (λ _. (records : List Fields) × IsRoll bytes.now records) }
    ensures not_roll { IfErr result (λ f. f.kind ≡ NotRoll → IsNoRoll bytes.now f.done) }
    ensures store { IfErr result (λ f. f.kind ≡ Store → B.fails fault.Store) }
    ensures reachable { (B.view office.old.book).IsSettled → IsSure (B.view office.new.book)
        → IsReachable (B.view office.old.book).world
        → StandsBalanced (B.view office.new.book).world }
{
    import_roll_telling(alloc, office, bytes, &mut Nobody)
}

/// The same, where somebody is told after each settle how many rows are kept.
pub fn import_roll_telling<B: Book, P: Progress>(
    alloc: Global,
    office: &mut Office<B>,
    bytes: &[u8],
    progress: &mut P,
) -> Result<RollReport, RollFault>
    ensures still { (B.view office.old.book).IsSettled → (B.view office.new.book).IsSettled }
    ensures later { (B.view office.old.book).IsSettled
        → (B.view office.old.book).doubt ≤ (B.view office.new.book).doubt }
    ensures done { IsSure (B.view office.new.book)
        → IfOk result (λ report. IsImported (λ v. (B.view office.new.book).world ≡ v)
        (B.view office.old.book).world bytes.now
        (tally_of report)) }
    ensures broken { (B.view office.old.book).IsSettled → IsSure (B.view office.new.book)
        → IfErr result (λ f. IsBroken (λ v. (B.view office.new.book).world ≡ v)
        (B.view office.old.book).world bytes.now f.done) }
    ensures roll { IfOk result (λ _. (records : List Fields) × IsRoll bytes.now records) }
    ensures not_roll { IfErr result (λ f. f.kind ≡ NotRoll → IsNoRoll bytes.now f.done) }
    ensures store { IfErr result (λ f. f.kind ≡ Store → B.fails fault.Store) }
    ensures reachable { (B.view office.old.book).IsSettled → IsSure (B.view office.new.book)
        → IsReachable (B.view office.old.book).world
        → StandsBalanced (B.view office.new.book).world }
{
    let records = match records_of(alloc, bytes) {
        Ok(records) => records,
        Err(kind) => return Err(RollFault { kind, done: 0 }),
    };
    let mut report = RollReport::new(alloc);
    let mut kept = 0;
    for record in records {
        if let Err(kind) = import_next(office, alloc, record, &mut report) {
            return Err(end_at(office, kind, report.rows(), kept, progress));
        }
        kept = settle_some(office, report.rows(), kept, progress)?;
    }
    settle_rows(office, report.rows(), kept, progress)?;
    Ok(report)
}
