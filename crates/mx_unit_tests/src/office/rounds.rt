//! Many payments in one run of the office, and a run of no commands.
use super::asks::{Ask, P1, Q1, asked, open};
use super::with_office;
use mx_book::Caller;
use mx_command::{Command, Reply};
use mx_memory::PlainBook;
use mx_office::{Office, Outcome};
use mx_purse::Handled;
use mx_standing::Standing;
use std::alloc::Global;
use std::process::Abort;
use std::test::Fail;

/// What is asked in a payment of nothing from p1 to q1, which both have this next number: p1 has got twice as many messages
/// before it, and q1 as many. Each message is handled, and then discarded.
fn asks_of(number: u64) -> [(usize, Ask); 8] {
    let first = number.saturating_mul(2);
    let second = first.saturating_add(1);
    [
        (P1, Ask::StartFrom(Q1, 0, number)),
        (Q1, Ask::StartTo(P1, 0, number)),
        (P1, Ask::Handle(first)),
        (Q1, Ask::Handle(number)),
        (P1, Ask::Handle(second)),
        (P1, Ask::Discard(first)),
        (P1, Ask::Discard(second)),
        (Q1, Ask::Discard(number)),
    ]
}

/// Adds the commands of such a payment.
fn add_payment(
    alloc: Global,
    commands: &mut Vec<(Caller, Command)>,
    number: u64,
) -> Result<(), Fail> {
    for (purse, ask) in &asks_of(number) {
        commands.push(asked(alloc, *purse, ask).ok_or("no command")?)?;
    }
    Ok(())
}

/// Whether a command of a payment was done: it was answered, not refused, and no message was ignored.
fn is_done(outcome: &Outcome) -> bool {
    match outcome {
        Outcome::Reply(Reply::Started(_) | Reply::Discarded) => true,
        Outcome::Reply(Reply::Handled(handled)) => {
            matches!(handled, Handled::Req(_) | Handled::Val(_) | Handled::Ack(_))
        }
        _ => false,
    }
}

/// How many of these outcomes are of commands that were done.
fn count_done(outcomes: &[Outcome]) -> usize {
    let mut count: usize = 0;
    for outcome in outcomes {
        if is_done(outcome) {
            count = count.saturating_add(1);
        }
    }
    count
}

/// How many outcomes so many payments in one run have, and how many of these are of commands that were done.
fn paid(
    alloc: Global,
    office: &mut Office<Standing<PlainBook>>,
    rounds: u64,
) -> Result<(usize, usize), Fail> {
    let mut commands = Vec::new(alloc);
    for number in 0..rounds {
        add_payment(alloc, &mut commands, number)?;
    }
    let outcomes = office.run(alloc, commands.as_slice())?;
    Ok((outcomes.len(), count_done(outcomes.as_slice())))
}

/// Asserts what comes of a run of no commands and of one of 250 payments, in a new office.
fn assert_runs(
    rt: &(impl Abort + AllocGlobal),
    office: &mut Office<Standing<PlainBook>>,
) -> Result<(), Fail> {
    open(rt.alloc(), office)?;
    assert_eq!(rt; paid(rt.alloc(), office, 0)?, (0, 0));
    assert_eq!(rt; paid(rt.alloc(), office, 250)?, (2000, 2000));
    Ok(())
}

#[test]
fn runs_of_no_command_and_of_two_thousand(rt: HostRuntime) -> Result<(), Fail> {
    with_office(&rt, |rt, office| assert_runs(rt, office))
}
