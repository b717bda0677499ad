//! What purses are asked, and an office with members, holders and purses.
use mx_book::Caller;
use mx_command::{Command, Reply};
use mx_memory::PlainBook;
use mx_office::Office;
use mx_pay::{Amount, Log, Name, PayDetails, Seq};
use mx_report::import_roll;
use mx_standing::Standing;
use std::alloc::Global;
use std::test::Fail;

/// The purses, each with its holder and the holder's member.
pub(super) const PURSES: [(&str, &str, &str); 5] = [
    ("p0", "ann", "m"),
    ("p1", "ann", "m"),
    ("p2", "bob", "m"),
    ("q0", "cy", "k"),
    ("q1", "dan", "k"),
];

/// The places of three of them.
pub(super) const P1: usize = 1;

pub(super) const Q0: usize = 3;

pub(super) const Q1: usize = 4;

/// The same, with all that they are of.
const ROLL: &str = "kind,name,of,token
member,m,,00000000000000000000000000000002
member,k,,00000000000000000000000000000003
holder,ann,m,0000000000000000000000000000000a
holder,bob,m,0000000000000000000000000000000b
holder,cy,k,0000000000000000000000000000000c
holder,dan,k,0000000000000000000000000000000d
purse,p0,ann,
purse,p1,ann,
purse,p2,bob,
purse,q0,cy,
purse,q1,dan,
";

/// What each member is granted.
pub(super) const GRANT: u64 = 100_000;

/// What is asked of a purse.
#[derive(Clone, Copy)]
pub(super) enum Ask {
    /// To pay the purse at that place so much, whose next number is this.
    StartFrom(usize, u64, u64),
    /// To be paid so.
    StartTo(usize, u64, u64),
    /// To handle the message of that number.
    Handle(u64),
    /// To throw it away.
    Discard(u64),
    /// To abort.
    Abort,
    /// To show itself.
    Show,
    /// To tell the entry at that place of its log.
    ReadLog(u64),
    /// To take so much, under the reference of that number.
    Load(u64, u64),
    /// To give so much back, under the reference of that number.
    Redeem(u64, u64),
    /// That what its member's purses gave back is collected.
    Collect,
    /// That the entries that it told are archived, by the operator.
    Archive,
    /// That its log is cleared of these entries.
    Clear(Log),
    /// That its payment, which is lost, is settled.
    Settle(PayDetails),
}

/// A reference that no other number has.
fn numbered(alloc: Global, number: u64) -> Option<Name> {
    let text = format!(in alloc; "r{number}").ok()?;
    Name::read(text.as_str())
}

/// The name of the purse at that place.
fn purse_at(place: usize) -> Option<Name> {
    Name::read(PURSES[place % 5].0)
}

/// The place of the purse of that name.
pub(super) fn place_of(purse: Name) -> usize {
    match purse.as_str() {
        "p0" => 0,
        "p1" => P1,
        "p2" => 2,
        "q0" => Q0,
        _ => Q1,
    }
}

/// The command that says what is asked of a purse in a payment. None where it is something else.
fn payment_command(purse: Name, ask: &Ask) -> Option<Command> {
    Some(match ask {
        Ask::StartFrom(peer, value, next) => Command::StartFrom {
            purse,
            peer: purse_at(*peer)?,
            value: Amount::new(*value)?,
            seq: Seq::new(*next)?,
        },
        Ask::StartTo(peer, value, next) => Command::StartTo {
            purse,
            peer: purse_at(*peer)?,
            value: Amount::new(*value)?,
            seq: Seq::new(*next)?,
        },
        Ask::Handle(number) => Command::Handle {
            purse,
            number: Seq::new(*number)?,
        },
        Ask::Discard(number) => Command::Discard {
            purse,
            number: Seq::new(*number)?,
        },
        _ => return None,
    })
}

/// The command that says what is asked of a purse.
fn command_of(alloc: Global, purse: Name, ask: &Ask) -> Option<Command> {
    Some(match ask {
        Ask::Load(amount, number) => Command::Load {
            purse,
            amount: Amount::new(*amount)?,
            reference: numbered(alloc, *number)?,
        },
        Ask::Redeem(amount, number) => Command::Redeem {
            purse,
            amount: Amount::new(*amount)?,
            reference: numbered(alloc, *number)?,
        },
        Ask::Abort => Command::Abort { purse },
        Ask::Collect => Command::Collect,
        Ask::Show => Command::Show { purse },
        Ask::ReadLog(place) => Command::ReadLog {
            purse,
            place: *place,
        },
        Ask::Archive => Command::Archive { purse },
        Ask::Clear(details) => Command::Clear {
            purse,
            details: *details,
        },
        Ask::Settle(details) => Command::Settle { details: *details },
        payment => payment_command(purse, payment)?,
    })
}

/// What is asked of the purse at that place, by whom it is for.
pub(super) fn asked(alloc: Global, place: usize, ask: &Ask) -> Option<(Caller, Command)> {
    let (purse, holder, member) = PURSES[place % 5];
    let caller = match ask {
        Ask::Load(..) | Ask::Collect => Caller::Clerk(Name::read(member)?),
        Ask::Archive | Ask::Clear(_) | Ask::Settle(_) => Caller::Operator,
        _ => Caller::Holder(Name::read(holder)?),
    };
    Some((caller, command_of(alloc, Name::read(purse)?, ask)?))
}

/// What an office answers. What calls the office itself takes long to be proved, so the tests call this.
pub(super) fn answer_of(
    alloc: Global,
    office: &mut Office<Standing<PlainBook>>,
    caller: Caller,
    command: &Command,
) -> Option<Reply> {
    office.answer(alloc, caller, command).ok()
}

/// What a purse answers, whose office it is.
pub(super) fn answer_to(
    alloc: Global,
    office: &mut Office<Standing<PlainBook>>,
    place: usize,
    ask: &Ask,
) -> Option<Reply> {
    let (caller, command) = asked(alloc, place, ask)?;
    answer_of(alloc, office, caller, &command)
}

/// Grants a member what each is granted.
fn grant(alloc: Global, office: &mut Office<Standing<PlainBook>>, member: &str) -> Option<Reply> {
    let grant = Command::Grant {
        member: Name::read(member)?,
        amount: Amount::new(GRANT)?,
    };
    answer_of(alloc, office, Caller::Operator, &grant)
}

/// Opens an office in which nothing is, with these purses.
pub(super) fn open(alloc: Global, office: &mut Office<Standing<PlainBook>>) -> Result<(), Fail> {
    match import_roll(alloc, office, ROLL.as_bytes()) {
        Ok(report) if report.added == 11 => {}
        _ => Err("no roll")?,
    }
    for member in ["m", "k"] {
        if !matches!(grant(alloc, office, member), Some(Reply::Granted)) {
            Err("no grant")?
        }
    }
    Ok(())
}
