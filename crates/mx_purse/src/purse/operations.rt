//! The operations of a purse.
ghost use Rattle.std.specs.Prelude.{◌≡◌, ◌≤◌, ◌<◌, false, None, IfOk, IfSome};
ghost use Rattle.mx_pay.specs.Limits.{most_amount, most_entries};
ghost use Rattle.mx_pay.specs.Log.{has_logged, log_len};
ghost use Rattle.mx_pay.specs.Details.{IsDetails};
ghost use Rattle.mx_purse.specs.State.{IsPurse};
ghost use Rattle.mx_purse.specs.Operations.{or_refused, unless_refused, pending, with_pending, aborted, start_worn, start_from_refusal, start_to_refusal, from_details, to_details, started, expects_req, expects_val, expects_ack, expects_clear, handled, after_message, read_entry, load_refusal, loaded, redeem_refusal, redeemed, credit_refusal, credited};

use crate::message::{Handled, Message};
use crate::purse::Purse;
use crate::refusals::{CreditRefusal, LoadRefusal, RedeemRefusal, StartRefusal};
use crate::status::Status;
use mx_pay::{Amount, Log, MOST_NUMBER, Name, PayDetails, Seq};

/// Adds what is pending to a log that has room for it and does not have it.
fn add_pending(log: &mut Log, pending: &Option<PayDetails>)
    requires { IfSome pending.now
        (λ d. (has_logged log.old d ≡ false) × (log_len log.old < most_entries)) }
    ensures { log.new ≡ with_pending log.old pending.now }
{
    if let Some(details) = pending {
        log.add(*details);
    }
}

impl Purse {
    /// What an abort would log now: the details of the payment under way where the purse expects its value or
    /// its acknowledgement. None in every other status.
    pub fn pending(&self) -> Option<PayDetails>
        ensures { result ≡ pending self.now.status }
    {
        match self.status {
            Status::EaFrom | Status::EaTo | Status::Epr(_) => None,
            Status::Epv(details) | Status::Epa(details) => Some(details),
        }
    }

    /// Gives up the payment under way, if there is one, and comes to rest. Where the purse expects the value
    /// or the acknowledgement, the details are added to the log and the purse has one statement line more; the
    /// answer is these details, and None in every other status. The balance and the next number stay.
    pub fn abort(&mut self) -> Option<PayDetails>
        ensures logged { result ≡ pending self.old.status }
        ensures new { self.new ≡ aborted self.old }
        ensures whole { IsPurse self.new }
        ensures details { IfSome result IsDetails }
    {
        let pending = self.pending();
        let lines = self.lines_left();
        add_pending(&mut self.log, &pending);
        self.lines = lines;
        self.status = Status::EaFrom;
        pending
    }

    /// Starts a payment of `value` to the purse `peer`, whose own number for it is `seq`: aborts the payment
    /// under way as `abort` does, takes the next number, which rises by one, and expects the request for the
    /// value. The answer is the details of the payment. Err, and nothing changes, with the first of these that
    /// is so: SamePurse where `peer` is the purse itself, NotEnough where the value is above the balance,
    /// LogFull where the log that an abort leaves has 16 entries, Worn where the next number is 10^15 or there
    /// are 10^15 statement lines or more.
    pub fn start_from(
        &mut self,
        peer: Name,
        value: Amount,
        seq: Seq,
    ) -> Result<PayDetails, StartRefusal>
        ensures answer { result ≡ or_refused (start_from_refusal self.old peer value)
            (from_details self.old peer value seq) }
        ensures new { self.new ≡ unless_refused (start_from_refusal self.old peer value) self.old
            (started self.old (Status.Epr (from_details self.old peer value seq))) }
        ensures whole { IsPurse self.new }
        ensures details { IfOk result IsDetails }
    {
        let Some(details) = PayDetails::new(self.name, peer, value, self.next, seq) else {
            return Err(StartRefusal::SamePurse);
        };
        if self.balance < value.get() {
            return Err(StartRefusal::NotEnough);
        }
        if let Some(refusal) = self.start_worn() {
            return Err(refusal);
        }
        self.begin(Status::Epr(details));
        Ok(details)
    }

    /// Starts a payment of `value` from the purse `peer`, whose own number for it is `seq`: aborts the payment
    /// under way as `abort` does, takes the next number, which rises by one, and expects the value. The answer
    /// is the details of the payment. Err, and nothing changes, with the first of these that is so: SamePurse
    /// where `peer` is the purse itself, LogFull where the log that an abort leaves has 16 entries, Worn where
    /// the next number is 10^15 or there are 10^15 statement lines or more.
    pub fn start_to(
        &mut self,
        peer: Name,
        value: Amount,
        seq: Seq,
    ) -> Result<PayDetails, StartRefusal>
        ensures answer { result ≡ or_refused (start_to_refusal self.old peer)
            (to_details self.old peer value seq) }
        ensures new { self.new ≡ unless_refused (start_to_refusal self.old peer) self.old
            (started self.old (Status.Epv (to_details self.old peer value seq))) }
        ensures whole { IsPurse self.new }
        ensures details { IfOk result IsDetails }
    {
        let Some(details) = PayDetails::new(peer, self.name, value, seq, self.next) else {
            return Err(StartRefusal::SamePurse);
        };
        if let Some(refusal) = self.start_worn() {
            return Err(refusal);
        }
        self.begin(Status::Epv(details));
        Ok(details)
    }

    /// Handles a message, and answers which was accepted. A request is accepted where the purse expects the
    /// request for these details: the balance falls by their value, and the purse expects the acknowledgement.
    /// A value is accepted where the purse expects the value of these details and holds at most 10^15 with it:
    /// the balance rises by it, and the purse comes to rest. An acknowledgement is accepted where the purse
    /// expects that of these details: it comes to rest. A request and a value that are accepted are one
    /// statement line each. A leave to clear is accepted where its set isn't empty and is the log that an abort leaves:
    /// the purse aborts as `abort` does, and its log is empty. Every other message is ignored, and nothing changes.
    pub fn handle(&mut self, message: &Message) -> Handled
        ensures answer { result ≡ handled self.old message.now }
        ensures new { self.new ≡ after_message self.old (handled self.old message.now) }
        ensures whole { IsPurse self.new }
    {
        match message {
            Message::Req(details) => self.take_req(details),
            Message::Val(details) => self.take_val(details),
            Message::Ack(details) => self.take_ack(details),
            Message::Clear(set) => self.take_clear(set),
        }
    }

    /// Reads the log: aborts the payment under way as `abort` does, and answers the details at `place` of the log that is
    /// left, counted from 0, in order. None exactly where it has no more than `place` details.
    pub fn read_log(&mut self, place: u64) -> Option<PayDetails>
        ensures answer { result ≡ read_entry self.old place }
        ensures new { self.new ≡ aborted self.old }
        ensures whole { IsPurse self.new }
        ensures details { IfSome result IsDetails }
    {
        let _logged = self.abort();
        self.log.at(place as usize)
    }

    /// Adds `amount` to the balance: one statement line more. It doesn't abort, and the payment under way goes
    /// on. Err, and nothing changes, with the first of these that is so: Worn where there are 10^15 statement
    /// lines or more, OverCap where the balance would be above 10^15.
    pub fn load(&mut self, amount: Amount) -> Result<(), LoadRefusal>
        ensures answer { result ≡ or_refused (load_refusal self.old amount) tt }
        ensures new { self.new ≡ unless_refused (load_refusal self.old amount) self.old
            (loaded self.old amount) }
        ensures whole { IsPurse self.new }
        ensures amount { IfOk result (λ _. amount ≤ most_amount) }
    {
        if self.lines >= MOST_NUMBER {
            return Err(LoadRefusal::Worn);
        }
        let balance = self.balance + amount.get();
        if balance > MOST_NUMBER {
            return Err(LoadRefusal::OverCap);
        }
        self.balance = balance;
        self.lines += 1;
        Ok(())
    }

    /// Adds `amount`, which was lost, to the balance, as a load does: one statement line more, and no abort. Err, and
    /// nothing changes, with the first of these that is so: Worn where there are 10^15 statement lines or more, OverCap
    /// where the balance would be above 10^15.
    pub fn credit(&mut self, amount: Amount) -> Result<(), CreditRefusal>
        ensures answer { result ≡ or_refused (credit_refusal self.old amount) tt }
        ensures new { self.new ≡ unless_refused (credit_refusal self.old amount) self.old
            (credited self.old amount) }
        ensures whole { IsPurse self.new }
        ensures amount { IfOk result (λ _. amount ≤ most_amount) }
    {
        match self.load(amount) {
            Ok(()) => Ok(()),
            Err(LoadRefusal::Worn) => Err(CreditRefusal::Worn),
            Err(LoadRefusal::OverCap) => Err(CreditRefusal::OverCap),
        }
    }

    /// Takes `amount` from the balance: aborts the payment under way as `abort` does, and then the balance
    /// falls, which is one statement line more. Err, and nothing changes, with the first of these that is so:
    /// NotEnough where the amount is above the balance, Worn where there are 10^15 statement lines or more.
    pub fn redeem(&mut self, amount: Amount) -> Result<(), RedeemRefusal>
        ensures answer { result ≡ or_refused (redeem_refusal self.old amount) tt }
        ensures new { self.new ≡ unless_refused (redeem_refusal self.old amount) self.old
            (redeemed self.old amount) }
        ensures whole { IsPurse self.new }
        ensures amount { IfOk result (λ _. amount ≤ most_amount) }
    {
        if self.balance < amount.get() {
            return Err(RedeemRefusal::NotEnough);
        }
        if self.lines >= MOST_NUMBER {
            return Err(RedeemRefusal::Worn);
        }
        self.abort();
        self.balance -= amount.get();
        self.lines += 1;
        Ok(())
    }

    /// The log that an abort leaves.
    fn log_left(&self) -> Log
        ensures { result ≡ (aborted self.now).log }
    {
        let mut log = self.log;
        if let Some(details) = self.pending() {
            log.add(details);
        }
        log
    }

    /// The count of statement lines that an abort leaves.
    fn lines_left(&self) -> u64
        ensures { result ≡ (aborted self.now).lines }
    {
        match self.pending() {
            None => self.lines,
            Some(_) => self.lines + 1,
        }
    }

    /// The first of the guards that both starts have behind their own that fails.
    fn start_worn(&self) -> Option<StartRefusal>
        ensures { result ≡ start_worn self.now }
    {
        if self.log_left().is_full() {
            return Some(StartRefusal::LogFull);
        }
        if self.next.get() >= MOST_NUMBER || self.lines >= MOST_NUMBER {
            return Some(StartRefusal::Worn);
        }
        None
    }

    /// Aborts, takes the next number, and goes into a status.
    fn begin(&mut self, status: Status)
        requires guard { start_worn self.old ≡ None }
        requires whole { IsPurse (started self.old status) }
        ensures new { self.new ≡ started self.old status }
        ensures whole { IsPurse self.new }
    {
        self.abort();
        self.next = self.next.next();
        self.status = status;
    }

    /// Pays the value of the details that are requested, where the request for them is expected.
    fn take_req(&mut self, details: &PayDetails) -> Handled
        ensures answer { result ≡ handled self.old (Message.Req details.now) }
        ensures new { self.new ≡ after_message self.old
            (handled self.old (Message.Req details.now)) }
        ensures whole { IsPurse self.new }
    {
        if !expects_req(&self.status, details) {
            return Handled::Ignored;
        }
        self.balance -= details.value().get();
        self.lines += 1;
        self.status = Status::Epa(*details);
        Handled::Req(*details)
    }

    /// Receives the value of the details, where it is expected and the balance stays within its limit.
    fn take_val(&mut self, details: &PayDetails) -> Handled
        ensures answer { result ≡ handled self.old (Message.Val details.now) }
        ensures new { self.new ≡ after_message self.old
            (handled self.old (Message.Val details.now)) }
        ensures whole { IsPurse self.new }
    {
        if !expects_val(&self.status, details) {
            return Handled::Ignored;
        }
        let balance = self.balance + details.value().get();
        if balance > MOST_NUMBER {
            return Handled::Ignored;
        }
        self.balance = balance;
        self.lines += 1;
        self.status = Status::EaTo;
        Handled::Val(*details)
    }

    /// Finishes the payment of the details, where the acknowledgement of them is expected.
    fn take_ack(&mut self, details: &PayDetails) -> Handled
        ensures answer { result ≡ handled self.old (Message.Ack details.now) }
        ensures new { self.new ≡ after_message self.old
            (handled self.old (Message.Ack details.now)) }
        ensures whole { IsPurse self.new }
    {
        if !expects_ack(&self.status, details) {
            return Handled::Ignored;
        }
        self.status = Status::EaFrom;
        Handled::Ack(*details)
    }

    /// Whether a set of details isn't empty, and is the log that an abort leaves.
    fn expects_clear(&self, set: &Log) -> bool
        ensures { result ≡ expects_clear self.now set.now }
    {
        0 < set.len() && set.is_same(&self.log_left())
    }

    /// Aborts and clears the log, where the set is the log that the abort leaves.
    fn take_clear(&mut self, set: &Log) -> Handled
        ensures answer { result ≡ handled self.old (Message.Clear set.now) }
        ensures new { self.new ≡ after_message self.old (handled self.old (Message.Clear set.now)) }
        ensures whole { IsPurse self.new }
    {
        if !self.expects_clear(set) {
            return Handled::Ignored;
        }
        let lines = self.lines_left();
        self.log = Log::new();
        self.lines = lines;
        self.status = Status::EaFrom;
        Handled::Cleared
    }
}

/// Whether a purse in a status expects the request for these details.
fn expects_req(status: &Status, details: &PayDetails) -> bool
    ensures { result ≡ expects_req status.now details.now }
{
    match status {
        Status::Epr(held) => held.cmp(details).is_eq(),
        _ => false,
    }
}

/// Whether a purse in a status expects the value of these details.
fn expects_val(status: &Status, details: &PayDetails) -> bool
    ensures { result ≡ expects_val status.now details.now }
{
    match status {
        Status::Epv(held) => held.cmp(details).is_eq(),
        _ => false,
    }
}

/// Whether a purse in a status expects the acknowledgement of these details.
fn expects_ack(status: &Status, details: &PayDetails) -> bool
    ensures { result ≡ expects_ack status.now details.now }
{
    match status {
        Status::Epa(held) => held.cmp(details).is_eq(),
        _ => false,
    }
}
