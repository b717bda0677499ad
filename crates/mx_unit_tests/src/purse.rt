//! A new purse and purses of given parts, each condition of a purse broken once, a payment from purse to purse, and a
//! purse that is worn.
use mx_pay::{Amount, Log, Name, PayDetails, Seq, read_code, read_details, read_seq};
use mx_purse::{Handled, Message, Purse, StartRefusal, Status};
use std::process::Abort;
use std::test::Fail;

/// 10^15, the most of a balance and of a number.
const MOST: u64 = 1_000_000_000_000_000;

/// The code texts of logs of the purse `p1` with 15 and with 16 entries.
const FIFTEEN: &str = "q1,p1,1,0,0;q1,p1,1,1,0;q1,p1,1,2,0;q1,p1,1,3,0;q1,p1,1,4,0;q1,p1,1,5,0;\
q1,p1,1,6,0;q1,p1,1,7,0;q1,p1,1,8,0;q1,p1,1,9,0;q1,p1,1,10,0;q1,p1,1,11,0;\
q1,p1,1,12,0;q1,p1,1,13,0;q1,p1,1,14,0";

const SIXTEEN: &str = "q1,p1,1,0,0;q1,p1,1,1,0;q1,p1,1,2,0;q1,p1,1,3,0;q1,p1,1,4,0;q1,p1,1,5,0;\
q1,p1,1,6,0;q1,p1,1,7,0;q1,p1,1,8,0;q1,p1,1,9,0;q1,p1,1,10,0;q1,p1,1,11,0;\
q1,p1,1,12,0;q1,p1,1,13,0;q1,p1,1,14,0;q1,p1,1,15,0";

/// The status that is called so, with these details.
fn status_of(word: &str, held: &str) -> Option<Status> {
    match word {
        "eaFrom" => Some(Status::EaFrom),
        "eaTo" => Some(Status::EaTo),
        "epr" => Some(Status::Epr(read_details(held)?)),
        "epv" => Some(Status::Epv(read_details(held)?)),
        "epa" => Some(Status::Epa(read_details(held)?)),
        _ => None,
    }
}

/// The log of that code text, or that one of so many entries; an empty one for a dash.
fn log_of(word: &str) -> Option<Log> {
    read_code(match word {
        "-" => "",
        "fifteen" => FIFTEEN,
        "sixteen" => SIXTEEN,
        code => code,
    })
}

/// The purse with these parts, where they meet the conditions: its balance, its next number and its lines, its status with
/// the details that it holds, or a dash, and its log.
fn made(parts: &str) -> Option<Option<Purse>> {
    let mut words = parts.split(' ');
    let balance = words.next()?.parse::<u64>().ok()?;
    let next = read_seq(words.next()?)?;
    let lines = words.next()?.parse::<u64>().ok()?;
    let status = status_of(words.next()?, words.next()?)?;
    let log = log_of(words.next()?)?;
    let name = Name::read("p1")?;
    Some(Purse::from_parts(name, balance, next, status, log, lines))
}

/// The purse with these parts, which has to be one.
fn purse_of(parts: &str) -> Result<Purse, &'static str> {
    match made(parts) {
        Some(Some(purse)) => Ok(purse),
        _ => Err("no purse"),
    }
}

/// Parts by what is tried with them, a line each: first all at their limits, then a limit that is passed, and then details
/// that aren't its own, are of no number before its next one, or are logged.
const TRIED: &str = "
all at its most, at rest: 1000000000000000 1000000000000000 1000000000000002 eaFrom - sixteen -> a purse
all at its most, paid: 1000000000000000 1000000000000000 1000000000000002 eaTo - sixteen -> a purse
all at its most, to pay: 0 1000000000000000 1000000000000000 epr p1,q1,0,999999999999999,0 fifteen -> a purse
all at its most, to be paid: 0 1000000000000000 1000000000000000 epv q1,p1,0,0,999999999999999 fifteen -> a purse
all at its most, has paid: 0 1000000000000000 1000000000000001 epa p1,q1,0,999999999999999,0 fifteen -> a purse
balance: 1000000000000001 2 0 eaFrom - - -> none
lines at rest: 0 2 1000000000000003 eaFrom - - -> none
lines when paid: 0 2 1000000000000003 eaTo - - -> none
lines to pay: 61 2 1000000000000001 epr p1,q1,61,1,0 - -> none
lines to be paid: 0 2 1000000000000001 epv q1,p1,61,0,1 - -> none
lines when it has paid: 0 2 1000000000000002 epa p1,q1,61,1,0 - -> none
balance below what it pays: 60 2 0 epr p1,q1,61,1,0 - -> none
full log to pay: 61 2 0 epr p1,q1,61,1,0 sixteen -> none
full log to be paid: 0 2 0 epv q1,p1,61,0,1 sixteen -> none
full log when it has paid: 0 2 0 epa p1,q1,61,1,0 sixteen -> none
to pay what it is to be paid: 61 2 0 epr q1,p1,61,0,1 - -> none
to be paid what it is to pay: 61 2 0 epv p1,q1,61,1,0 - -> none
has paid what it is to be paid: 61 2 0 epa q1,p1,61,0,1 - -> none
to pay a later number: 61 1 0 epr p1,q1,61,1,0 - -> none
to be paid at a later number: 61 1 0 epv q1,p1,61,0,1 - -> none
has paid a later number: 61 1 0 epa p1,q1,61,1,0 - -> none
to pay what is logged: 61 2 0 epr p1,q1,61,1,0 p1,q1,61,1,0 -> none
to be paid what is logged: 61 2 0 epv q1,p1,61,0,1 q1,p1,61,0,1 -> none
has paid what is logged: 61 2 0 epa p1,q1,61,1,0 p1,q1,61,1,0 -> none
logged a later payment: 61 1 0 eaFrom - p1,q1,61,1,0 -> none
logged a later payment to it: 61 1 0 eaFrom - q1,p1,61,0,1 -> none
logged another's payment: 61 9 0 eaFrom - p2,q1,61,0,0 -> none
";

/// What the parts of a line make.
fn tried(parts: &str) -> &'static str {
    match made(parts) {
        Some(Some(_)) => "a purse",
        Some(None) => "none",
        None => "no parts",
    }
}

#[test]
fn parts_that_are_a_purse_and_that_are_none(rt: HostRuntime) {
    for line in TRIED.lines() {
        match line.split_once(": ") {
            Some((name, row)) => {
                let (parts, expected) = row.split_once(" -> ").unwrap_or((row, ""));
                assert_eq!(rt; tried(parts), expected, "{name}");
            }
            None => assert!(rt; line.is_empty(), "{line}"),
        }
    }
}

/// Where a purse stands, with these details where it is in a payment.
fn standing(purse: &Purse, details: &PayDetails) -> &'static str {
    let (word, held) = match purse.status() {
        Status::EaFrom => ("eaFrom", None),
        Status::EaTo => ("eaTo", None),
        Status::Epr(held) => ("epr", Some(held)),
        Status::Epv(held) => ("epv", Some(held)),
        Status::Epa(held) => ("epa", Some(held)),
    };
    if held.is_none() || held == Some(*details) {
        word
    } else {
        "in another payment"
    }
}

/// The balance, the next number, the entries of the log and the lines.
fn figures(purse: &Purse) -> (u64, u64, usize, u64) {
    let (balance, next) = (purse.balance(), purse.next().get());
    (balance, next, purse.log().len(), purse.lines())
}

/// Whether a purse has the name of the payer, where it stands, and its figures.
fn seen(purse: &Purse, details: &PayDetails) -> (bool, &'static str, (u64, u64, usize, u64)) {
    let is_payer = purse.name() == details.from();
    (is_payer, standing(purse, details), figures(purse))
}

#[test]
fn purses_have_their_parts(rt: HostRuntime) -> Result<(), Fail> {
    let held = read_details("p1,q1,60,1,7").ok_or("no details")?;
    let new = Purse::new(held.from());
    assert_eq!(rt; seen(&new, &held), (true, "eaFrom", (0, 0, 0, 0)));
    let given = purse_of("60 2 3 epr p1,q1,60,1,7 p1,q1,60,0,0;q1,p1,5,9,1")?;
    assert_eq!(rt; seen(&given, &held), (true, "epr", (60, 2, 2, 3)));
    Ok(())
}

/// What comes of a message of these details.
fn taken(purse: &mut Purse, message: Message, details: &PayDetails) -> &'static str {
    let (word, handled) = match purse.handle(&message) {
        Handled::Req(handled) => ("req", Some(handled)),
        Handled::Val(handled) => ("val", Some(handled)),
        Handled::Ack(handled) => ("ack", Some(handled)),
        Handled::Cleared => ("cleared", None),
        Handled::Ignored => ("ignored", None),
    };
    if handled.is_none() || handled == Some(*details) {
        word
    } else {
        "of another payment"
    }
}

/// Takes the step of that number in a payment from p1 to q1, whose next numbers are 0, and answers what came of it.
fn step(number: usize, p1: &mut Purse, q1: &mut Purse, details: PayDetails) -> &'static str {
    let begun = match number {
        0 => p1.start_from(details.to(), details.value(), Seq::zero()),
        1 => q1.start_to(details.from(), details.value(), Seq::zero()),
        2 => return taken(p1, Message::Req(details), &details),
        3 => return taken(q1, Message::Val(details), &details),
        _ => return taken(p1, Message::Ack(details), &details),
    };
    if begun == Ok(details) {
        "started"
    } else {
        "not started"
    }
}

/// What comes of each step of a payment of 60, and where p1 and q1 stand then, with their figures.
const STEPS: [(
    &str,
    &str,
    (u64, u64, usize, u64),
    &str,
    (u64, u64, usize, u64),
); 5] = [
    ("started", "epr", (100, 1, 0, 1), "eaFrom", (0, 0, 0, 0)),
    ("started", "epr", (100, 1, 0, 1), "epv", (0, 1, 0, 0)),
    ("req", "epa", (40, 1, 0, 2), "epv", (0, 1, 0, 0)),
    ("val", "epa", (40, 1, 0, 2), "eaTo", (60, 1, 0, 1)),
    ("ack", "eaFrom", (40, 1, 0, 2), "eaTo", (60, 1, 0, 1)),
];

/// Asserts what comes of each step of a payment of 60, in which p1 has 100 and q1 nothing.
fn assert_steps(rt: &impl Abort, p1: &mut Purse, q1: &mut Purse, sixty: PayDetails) {
    for (number, expected) in STEPS.iter().enumerate() {
        let came = step(number, p1, q1, sixty);
        let (from, to) = (standing(p1, &sixty), standing(q1, &sixty));
        let seen = (came, from, figures(p1), to, figures(q1));
        assert_eq!(rt; seen, *expected, "{number}");
    }
}

#[test]
fn payment_in_five_steps(rt: HostRuntime) -> Result<(), Fail> {
    let sixty = read_details("p1,q1,60,0,0").ok_or("no details")?;
    let mut p1 = purse_of("100 0 1 eaFrom - -")?;
    assert_steps(&rt, &mut p1, &mut Purse::new(sixty.to()), sixty);
    Ok(())
}

/// Whether a purse that is to pay these details starts no other payment, pays them, and logs them when it aborts.
fn is_worn(purse: &mut Purse, nothing: Amount, paid: PayDetails) -> bool {
    let begun = purse.start_from(paid.to(), nothing, Seq::zero());
    let came = taken(purse, Message::Req(paid), &paid);
    begun == Err(StartRefusal::Worn) && came == "req" && purse.abort() == Some(paid)
}

/// A purse whose next number is 10^15 starts no payment. It pays what was started before, and logs it when it aborts.
#[test]
fn worn_purse(rt: HostRuntime) -> Result<(), Fail> {
    let paid = read_details("p1,q1,60,0,0").ok_or("no details")?;
    let nothing = Amount::new(0).ok_or("no amount")?;
    let mut p1 = purse_of("100 1000000000000000 1 epr p1,q1,60,0,0 -")?;
    let is_right = is_worn(&mut p1, nothing, paid);
    assert_eq!(rt; (is_right, figures(&p1)), (true, (40, MOST, 1, 3)));
    Ok(())
}
