//! Random commands, and what the books come to by a ledger of the test's own.
use super::asks::{Ask, GRANT, PURSES, answer_of, answer_to, open, place_of};
use super::with_office;
use mx_book::{Caller, Totals};
use mx_command::{Command, Reply};
use mx_memory::PlainBook;
use mx_office::Office;
use mx_pay::{Log, PayDetails};
use mx_purse::Handled;
use mx_standing::Standing;
use std::alloc::Global;
use std::process::Abort;
use std::test::Fail;

/// What the ledger keeps of a purse: what it holds, its next number, the payment whose value it waits for, the number of
/// the next message to it, how many messages it has, and what it redeemed that isn't collected.
#[derive(Clone, Copy)]
struct Side {
    balance: u128,
    next: u64,
    waits: Option<PayDetails>,
    next_message: u64,
    held: u64,
    uncollected: u128,
}

/// The test's own books, kept by the replies alone.
#[derive(Drop)]
struct Ledger {
    sides: [Side; 5],
    issued: u128,
    redeemed: u128,
    collected: u128,
    /// The payments whose value has left a purse and is neither received nor settled.
    sent: Vec<PayDetails>,
    /// How many payments are settled.
    settled: u64,
    /// The entry that the last reply tells of.
    entry: Option<PayDetails>,
}

impl Ledger {
    fn new(alloc: Global) -> Ledger {
        let side = Side {
            balance: 0,
            next: 0,
            waits: None,
            next_message: 0,
            held: 0,
            uncollected: 0,
        };
        Ledger {
            sides: [side; 5],
            issued: 0,
            redeemed: 0,
            collected: 0,
            sent: Vec::new(alloc),
            settled: 0,
            entry: None,
        }
    }

    fn side(&mut self, purse: usize) -> &mut Side {
        &mut self.sides[purse % 5]
    }

    /// A message to that purse, which vanishes where 32 wait.
    fn put(&mut self, purse: usize) {
        let side = self.side(purse);
        if side.held < 32 {
            side.held += 1;
            side.next_message = side.next_message.saturating_add(1);
        }
    }

    /// A message is thrown away.
    fn discard(&mut self, purse: usize) {
        let side = self.side(purse);
        side.held = side.held.saturating_sub(1);
    }

    /// A payment is started, by a purse that is to pay.
    fn start_from(&mut self, purse: usize) {
        let side = self.side(purse);
        side.next = side.next.saturating_add(1);
        side.waits = None;
    }

    /// A payment is started, by a purse that waits for its value.
    fn start_to(&mut self, purse: usize, details: &PayDetails) {
        let side = self.side(purse);
        side.next = side.next.saturating_add(1);
        side.waits = Some(*details);
        self.put(place_of(details.from()));
    }

    /// A value leaves a purse.
    fn send(&mut self, purse: usize, details: &PayDetails) -> Result<(), Fail> {
        let side = self.side(purse);
        side.balance = side.balance.saturating_sub(details.value().get() as u128);
        self.put(place_of(details.to()));
        self.sent.push(*details)?;
        Ok(())
    }

    /// Where a payment stands among those whose value has left.
    fn sent_at(&self, details: &PayDetails) -> Option<usize> {
        for (place, sent) in self.sent.as_slice().iter().enumerate() {
            if *sent == *details {
                return Some(place);
            }
        }
        None
    }

    /// Removes a payment from those whose value has left, and says whether it was one.
    fn remove_sent(&mut self, details: &PayDetails) -> bool {
        match self.sent_at(details) {
            Some(place) if place < self.sent.len() => {
                self.sent.swap_remove(place);
                true
            }
            _ => false,
        }
    }

    /// A value is received.
    fn receive(&mut self, purse: usize, details: &PayDetails) {
        let side = self.side(purse);
        side.balance = side.balance.saturating_add(details.value().get() as u128);
        side.waits = None;
        self.put(place_of(details.from()));
        let _was_sent = self.remove_sent(details);
    }

    /// The value of a payment that neither purse has comes back to the purse that paid it.
    fn settle(&mut self, details: &PayDetails) -> Result<(), Fail> {
        if !self.remove_sent(details) {
            Err("not lost")?
        }
        let side = self.side(place_of(details.from()));
        side.balance = side.balance.saturating_add(details.value().get() as u128);
        self.settled = self.settled.saturating_add(1);
        Ok(())
    }

    /// A purse is loaded.
    fn load(&mut self, purse: usize, amount: u128) {
        let side = self.side(purse);
        side.balance = side.balance.saturating_add(amount);
        self.issued = self.issued.saturating_add(amount);
    }

    /// A purse is redeemed.
    fn redeem(&mut self, purse: usize, amount: u128) {
        let side = self.side(purse);
        side.balance = side.balance.saturating_sub(amount);
        side.uncollected = side.uncollected.saturating_add(amount);
        side.waits = None;
        self.redeemed = self.redeemed.saturating_add(amount);
    }

    /// What the purses of a member redeemed is collected.
    fn collect(&mut self, member: &str) {
        for (place, side) in self.sides.iter_mut().enumerate() {
            if PURSES[place % 5].2 == member {
                self.collected = self.collected.saturating_add(side.uncollected);
                side.uncollected = 0;
            }
        }
    }

    /// An entry is told, or that there is none: what was under way is broken off.
    fn read(&mut self, purse: usize, entry: Option<PayDetails>) {
        self.side(purse).waits = None;
        self.entry = entry;
    }

    /// A payment is started, by a purse that is to pay or by one that waits for the value.
    fn start(&mut self, purse: usize, details: &PayDetails) {
        if place_of(details.from()) == purse {
            self.start_from(purse);
        } else {
            self.start_to(purse, details);
        }
    }

    /// A message is handled.
    fn handle(&mut self, purse: usize, handled: &Handled) -> Result<(), Fail> {
        match handled {
            Handled::Req(details) => self.send(purse, details)?,
            Handled::Val(details) => self.receive(purse, details),
            Handled::Cleared => self.side(purse).waits = None,
            Handled::Ack(_) | Handled::Ignored => {}
        }
        Ok(())
    }

    /// Money is moved as a purse was asked, where the reply is to that.
    fn move_money(&mut self, purse: usize, ask: &Ask, reply: &Reply) -> Result<(), Fail> {
        match (ask, reply) {
            (Ask::Load(amount, _), Reply::Loaded) => self.load(purse, *amount as u128),
            (Ask::Redeem(amount, _), Reply::Redeemed) => self.redeem(purse, *amount as u128),
            (Ask::Settle(details), Reply::Settled) => self.settle(details)?,
            _ => {}
        }
        Ok(())
    }

    /// Notes what a reply to what a purse was asked says.
    fn note(&mut self, purse: usize, ask: &Ask, reply: &Reply) -> Result<(), Fail> {
        self.entry = None;
        match reply {
            Reply::Started(details) => self.start(purse, details),
            Reply::Handled(handled) => self.handle(purse, handled)?,
            Reply::Aborted { .. } => self.side(purse).waits = None,
            Reply::Read(entry) => self.read(purse, *entry),
            Reply::Discarded => self.discard(purse),
            Reply::Loaded | Reply::Redeemed | Reply::Settled => self.move_money(purse, ask, reply)?,
            Reply::Collected(_) => self.collect(PURSES[purse % 5].2),
            Reply::Sent => self.put(purse),
            _ => {}
        }
        Ok(())
    }

    /// What was sent and is neither received nor settled: the values of payments that are waited for, or those of the
    /// others.
    fn sent_where(&self, waited_for: bool) -> u128 {
        let mut sum: u128 = 0;
        for details in self.sent.as_slice() {
            let side = &self.sides[place_of(details.to()) % 5];
            if (side.waits == Some(*details)) == waited_for {
                sum = sum.saturating_add(details.value().get() as u128);
            }
        }
        sum
    }

    /// The sum of the balances, and that of what isn't collected.
    fn held(&self) -> (u128, u128) {
        let mut balances: u128 = 0;
        let mut uncollected: u128 = 0;
        for side in &self.sides {
            balances = balances.saturating_add(side.balance);
            uncollected = uncollected.saturating_add(side.uncollected);
        }
        (balances, uncollected)
    }

    /// What the books are to come to, in the order of `figures`.
    fn figures(&self) -> [u128; 8] {
        let (balances, uncollected) = self.held();
        let granted = 2 * (GRANT as u128);
        let float = granted.saturating_sub(self.issued);
        [
            granted,
            float.saturating_add(self.collected),
            uncollected,
            self.issued,
            self.redeemed,
            balances,
            self.sent_where(true),
            self.sent_where(false),
        ]
    }
}

/// The sums of the scheme, in the order of `Totals`.
fn figures(sums: &Totals) -> [u128; 8] {
    [
        sums.granted,
        sums.float,
        sums.uncollected,
        sums.issued,
        sums.redeemed,
        sums.balances,
        sums.transit,
        sums.lost,
    ]
}

/// The sums that an office tells.
fn sums_of(alloc: Global, office: &mut Office<Standing<PlainBook>>) -> Result<[u128; 8], Fail> {
    match answer_of(alloc, office, Caller::Operator, &Command::Reconcile) {
        Some(Reply::Reconciled(sums)) => Ok(figures(&sums)),
        _ => Err("no sums")?,
    }
}

/// Numbers that are always the same.
#[derive(Drop)]
struct Dice {
    number: u64,
}

impl Dice {
    /// A number below that one, which is above 0.
    fn below(&mut self, most: u64) -> u64 {
        self.number = self
            .number
            .wrapping_mul(6_364_136_223_846_793_005)
            .wrapping_add(1_442_695_040_888_963_407);
        (self.number >> 33) % most.max(1)
    }

    /// The place of a purse.
    fn purse(&mut self) -> usize {
        (self.below(5) % 5) as usize
    }
}

/// An office, and the ledger beside it.
#[derive(Drop)]
struct Trial<'a> {
    office: &'a mut Office<Standing<PlainBook>>,
    ledger: &'a mut Ledger,
    /// How many commands were asked.
    asked: u64,
}

impl Trial<'_> {
    /// Asks a purse, and notes the reply.
    fn answered(&mut self, alloc: Global, purse: usize, ask: &Ask) -> Result<(), Fail> {
        let reply = answer_to(alloc, self.office, purse, ask).ok_or("no answer")?;
        self.ledger.note(purse, ask, &reply)
    }

    /// Asks a purse, and after each twentieth command compares the sums.
    fn ask(&mut self, rt: &(impl Abort + AllocGlobal), purse: usize, ask: Ask) -> Result<(), Fail> {
        self.answered(rt.alloc(), purse, &ask)?;
        self.asked = self.asked.wrapping_add(1);
        if self.asked % 20 == 0 {
            self.compare(rt)?;
        }
        Ok(())
    }

    /// Asserts that the books come to what the ledger says.
    fn compare(&mut self, rt: &(impl Abort + AllocGlobal)) -> Result<(), Fail> {
        let sums = sums_of(rt.alloc(), self.office)?;
        assert!(rt;
            sums == self.ledger.figures(),
            "{sums:?} after {}",
            self.asked
        );
        Ok(())
    }

    /// A payment between two purses is started on both sides.
    fn pay(&mut self, rt: &(impl Abort + AllocGlobal), dice: &mut Dice) -> Result<(), Fail> {
        let (payer, payee) = (dice.purse(), dice.purse());
        let value = dice.below(60);
        let from_next = self.ledger.side(payer).next;
        let to_next = self.ledger.side(payee).next;
        self.ask(rt, payer, Ask::StartFrom(payee, value, to_next))?;
        self.ask(rt, payee, Ask::StartTo(payer, value, from_next))
    }

    /// What a purse is asked about a message: to handle one of the last three, the last mostly, or a late or an earlier
    /// one; or to throw one away.
    fn message(&mut self, purse: usize, is_handled: bool, dice: &mut Dice) -> Ask {
        let next = self.ledger.side(purse).next_message;
        if is_handled {
            let back = [1, 1, 1, 2, 3][dice.below(5) as usize % 5];
            Ask::Handle(next.saturating_sub(back))
        } else {
            Ask::Discard(next.saturating_sub(dice.below(32)))
        }
    }

    /// What a purse is asked about its money, under a reference of its own.
    fn money(&self, dice: &mut Dice) -> Ask {
        let amount = dice.below(90);
        if dice.below(2) == 0 {
            Ask::Load(amount, self.asked)
        } else {
            Ask::Redeem(amount, self.asked)
        }
    }

    /// The first entry of a log is read and archived, and the log cleared of it.
    fn clear(&mut self, rt: &(impl Abort + AllocGlobal), dice: &mut Dice) -> Result<(), Fail> {
        let purse = dice.purse();
        self.ask(rt, purse, Ask::ReadLog(0))?;
        let mut details = Log::new();
        if let Some(entry) = self.ledger.entry {
            details.add(entry);
        }
        self.ask(rt, purse, Ask::Archive)?;
        self.ask(rt, purse, Ask::Clear(details))
    }

    /// The log of a purse is read up to the entry of a payment, and archived. Reading breaks off what is under way.
    fn archive(
        &mut self,
        rt: &(impl Abort + AllocGlobal),
        purse: usize,
        details: &PayDetails,
    ) -> Result<(), Fail> {
        for place in 0..16 {
            self.ask(rt, purse, Ask::ReadLog(place))?;
            if self.ledger.entry.is_none() || self.ledger.entry == Some(*details) {
                break;
            }
        }
        self.ask(rt, purse, Ask::Archive)
    }

    /// A payment whose value left its purse is settled, twice, of which the log of the one purse is archived before, and
    /// mostly that of the other.
    fn settle(&mut self, rt: &(impl Abort + AllocGlobal), dice: &mut Dice) -> Result<(), Fail> {
        let count = self.ledger.sent.len() as u64;
        let details = match self.ledger.sent.get(dice.below(count) as usize) {
            Some(details) => *details,
            None => return Ok(()),
        };
        let (payer, payee) = (place_of(details.from()), place_of(details.to()));
        self.archive(rt, payee, &details)?;
        if dice.below(3) > 0 {
            self.archive(rt, payer, &details)?;
        }
        self.ask(rt, payer, Ask::Settle(details))?;
        self.ask(rt, payer, Ask::Settle(details))
    }

    /// What one purse is asked, where it is one command.
    fn single(&mut self, turn: u64, purse: usize, dice: &mut Dice) -> Ask {
        match turn {
            8..=21 => self.message(purse, true, dice),
            22 | 23 => self.message(purse, false, dice),
            26..=29 => self.money(dice),
            _ if dice.below(2) == 0 => Ask::Abort,
            _ => Ask::Collect,
        }
    }

    fn act(&mut self, rt: &(impl Abort + AllocGlobal), dice: &mut Dice) -> Result<(), Fail> {
        match dice.below(33) {
            0..=7 => self.pay(rt, dice),
            24 | 25 => self.clear(rt, dice),
            32 => self.settle(rt, dice),
            turn => {
                let purse = dice.purse();
                let ask = self.single(turn, purse, dice);
                self.ask(rt, purse, ask)
            }
        }
    }
}

/// Five hundred random commands, by acts of one command or more.
fn act_often(
    rt: &(impl Abort + AllocGlobal),
    trial: &mut Trial<'_>,
    dice: &mut Dice,
) -> Result<(), Fail> {
    for _ in 0..500 {
        if trial.asked < 500 {
            trial.act(rt, dice)?;
        }
    }
    Ok(())
}

/// Asserts that the books come to what the ledger says after each twentieth of the random commands of a seed, in an office
/// in which nothing is.
fn assert_sums(
    rt: &(impl Abort + AllocGlobal),
    office: &mut Office<Standing<PlainBook>>,
    ledger: &mut Ledger,
    seed: u64,
) -> Result<(), Fail> {
    open(rt.alloc(), office)?;
    let mut trial = Trial {
        office,
        ledger,
        asked: 0,
    };
    act_often(rt, &mut trial, &mut Dice { number: seed })?;
    trial.compare(rt)?;
    let is_lost = trial.ledger.sent_where(false) > 0;
    assert!(rt; is_lost && trial.ledger.settled > 0, "{seed}");
    Ok(())
}

/// The same beside a new ledger.
fn assert_seed(
    rt: &(impl Abort + AllocGlobal),
    office: &mut Office<Standing<PlainBook>>,
    seed: u64,
) -> Result<(), Fail> {
    assert_sums(rt, office, &mut Ledger::new(rt.alloc()), seed)
}

/// Payments that are broken off anywhere, messages handled twice and late, logs read, archived and cleared, lost payments
/// settled, loads, redemptions and collects.
#[test]
fn sums_of_two_thousand_random_commands(rt: HostRuntime) -> Result<(), Fail> {
    for seed in 1..=4 {
        with_office(&rt, |rt, office| assert_seed(rt, office, seed))?;
    }
    Ok(())
}
