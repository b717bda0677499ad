//! The abstract purses of worked payments, for each choice of what becomes of the value that is under way.
use super::asks::{Ask, P1, Q0, Q1, answer_to, open};
use super::with_office;
use mx_command::Reply;
use mx_memory::PlainBook;
use mx_office::Office;
use mx_pay::{Name, PayDetails};
use mx_purse::Purse;
use mx_standing::Standing;
use std::alloc::Global;
use std::process::Abort;
use std::test::Fail;

/// The places of the purses of the table.
const PLACES: [usize; 3] = [P1, Q0, Q1];

/// What each purse has in the abstract world, and what it has lost there.
type AbstractWorld = [(u64, u64); 3];

/// A row of the table: the purse at that place is asked this; then the abstract world is the first where the value that is
/// under way will arrive, and the second where it will be lost. Where no value is under way the two are the same.
struct Row(usize, Ask, AbstractWorld, AbstractWorld);

/// p1 is loaded with 100, and pays 60 to q0, which breaks off before the value comes; then p1 pays 25 to q1.
const TABLE: [Row; 9] = [
    Row(
        P1,
        Ask::Load(100, 1),
        [(100, 0), (0, 0), (0, 0)],
        [(100, 0), (0, 0), (0, 0)],
    ),
    Row(
        P1,
        Ask::StartFrom(Q0, 60, 0),
        [(100, 0), (0, 0), (0, 0)],
        [(100, 0), (0, 0), (0, 0)],
    ),
    Row(
        Q0,
        Ask::StartTo(P1, 60, 0),
        [(100, 0), (0, 0), (0, 0)],
        [(100, 0), (0, 0), (0, 0)],
    ),
    Row(
        P1,
        Ask::Handle(0),
        [(40, 0), (60, 0), (0, 0)],
        [(40, 60), (0, 0), (0, 0)],
    ),
    Row(
        Q0,
        Ask::Abort,
        [(40, 60), (0, 0), (0, 0)],
        [(40, 60), (0, 0), (0, 0)],
    ),
    Row(
        P1,
        Ask::StartFrom(Q1, 25, 0),
        [(40, 60), (0, 0), (0, 0)],
        [(40, 60), (0, 0), (0, 0)],
    ),
    Row(
        Q1,
        Ask::StartTo(P1, 25, 1),
        [(40, 60), (0, 0), (0, 0)],
        [(40, 60), (0, 0), (0, 0)],
    ),
    Row(
        P1,
        Ask::Handle(1),
        [(15, 60), (0, 0), (25, 0)],
        [(15, 85), (0, 0), (0, 0)],
    ),
    Row(
        Q1,
        Ask::Handle(0),
        [(15, 60), (0, 0), (25, 0)],
        [(15, 60), (0, 0), (25, 0)],
    ),
];

/// Whether the value of a payment has left its from purse, which then waits for the acknowledgement, or has logged it.
fn has_left(purses: &[Purse], details: &PayDetails) -> bool {
    for from in purses {
        let is_from = from.name() == details.from();
        if is_from && (from.pending() == Some(*details) || from.log().has(details)) {
            return true;
        }
    }
    false
}

/// Payments whose value has left their from purses.
#[derive(Drop)]
struct Payments {
    /// Those that their to purses wait for: they are under way.
    awaited: Vec<PayDetails>,
    /// Those that their to purses have logged: they are lost.
    logged: Vec<PayDetails>,
}

impl Payments {
    /// Adds the payment that a purse waits for, if its value has left.
    fn add_awaited(&mut self, purses: &[Purse], to: &Purse) -> Result<(), Fail> {
        if let Some(details) = to.pending() {
            if details.to() == to.name() && has_left(purses, &details) {
                self.awaited.push(details)?;
            }
        }
        Ok(())
    }

    /// Adds the payments to a purse that it has logged, where their values have left.
    fn add_logged(&mut self, purses: &[Purse], to: &Purse) -> Result<(), Fail> {
        for place in 0..to.log().len() {
            if let Some(details) = to.log().at(place) {
                if details.to() == to.name() && has_left(purses, &details) {
                    self.logged.push(details)?;
                }
            }
        }
        Ok(())
    }
}

/// The payments of these purses.
fn payments_of(alloc: Global, purses: &[Purse]) -> Result<Payments, Fail> {
    let mut payments = Payments {
        awaited: Vec::new(alloc),
        logged: Vec::new(alloc),
    };
    for to in purses {
        payments.add_awaited(purses, to)?;
        payments.add_logged(purses, to)?;
    }
    Ok(payments)
}

/// What payments from a purse come to.
fn sum_from(payments: &[PayDetails], purse: Name) -> u64 {
    let mut sum: u64 = 0;
    for details in payments {
        if details.from() == purse {
            sum = sum.saturating_add(details.value().get());
        }
    }
    sum
}

/// What payments to a purse come to.
fn sum_to(payments: &[PayDetails], purse: Name) -> u64 {
    let mut sum: u64 = 0;
    for details in payments {
        if details.to() == purse {
            sum = sum.saturating_add(details.value().get());
        }
    }
    sum
}

/// What a purse has and has lost in the abstract world: what is under way counts as received by its to purse, or as lost by
/// its from purse.
fn abstract_purse(payments: &Payments, purse: &Purse, is_lost: bool) -> (u64, u64) {
    let name = purse.name();
    let lost = sum_from(payments.logged.as_slice(), name);
    let awaited = payments.awaited.as_slice();
    if is_lost {
        (
            purse.balance(),
            lost.saturating_add(sum_from(awaited, name)),
        )
    } else {
        (purse.balance().saturating_add(sum_to(awaited, name)), lost)
    }
}

/// A purse, as an office shows it.
fn shown(alloc: Global, office: &mut Office<Standing<PlainBook>>, place: usize) -> Option<Purse> {
    let reply = answer_to(alloc, office, place, &Ask::Show)?;
    match &reply {
        Reply::Shown(purse) => Some(*purse),
        _ => None,
    }
}

/// The purses of the table, as an office shows them.
fn purses_of(alloc: Global, office: &mut Office<Standing<PlainBook>>) -> Result<Vec<Purse>, Fail> {
    let mut purses = Vec::new(alloc);
    for place in &PLACES {
        purses.push(shown(alloc, office, *place).ok_or("no purse")?)?;
    }
    Ok(purses)
}

/// Asserts what the abstract purses are, for one choice.
fn assert_abstract(
    rt: &impl Abort,
    payments: &Payments,
    purses: &[Purse],
    is_lost: bool,
    expected: &AbstractWorld,
) {
    for (purse, expected) in purses.iter().zip(expected) {
        assert_eq!(rt; abstract_purse(payments, purse, is_lost), *expected);
    }
}

/// Asks what a row asks.
fn ask_row(alloc: Global, office: &mut Office<Standing<PlainBook>>, row: &Row) -> Result<(), Fail> {
    match answer_to(alloc, office, row.0, &row.1) {
        Some(Reply::Refused(_)) | None => Err("refused")?,
        Some(_) => Ok(()),
    }
}

/// Asks what a row asks, and asserts what the row says.
fn assert_row(
    rt: &(impl Abort + AllocGlobal),
    office: &mut Office<Standing<PlainBook>>,
    row: &Row,
) -> Result<(), Fail> {
    ask_row(rt.alloc(), office, row)?;
    let purses = purses_of(rt.alloc(), office)?;
    let payments = payments_of(rt.alloc(), purses.as_slice())?;
    assert_abstract(rt, &payments, purses.as_slice(), false, &row.2);
    assert_abstract(rt, &payments, purses.as_slice(), true, &row.3);
    Ok(())
}

/// Goes through the table, in an office in which nothing is.
fn assert_table(
    rt: &(impl Abort + AllocGlobal),
    office: &mut Office<Standing<PlainBook>>,
) -> Result<(), Fail> {
    open(rt.alloc(), office)?;
    for row in &TABLE {
        assert_row(rt, office, row)?;
    }
    Ok(())
}

/// A payment whose value is lost, and one that is under way: the abstract purses after each command, for each choice.
#[test]
fn abstract_purses_of_worked_payments(rt: HostRuntime) -> Result<(), Fail> {
    with_office(&rt, |rt, office| assert_table(rt, office))
}
