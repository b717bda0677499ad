//! The office over any book.
ghost use Rattle.std.specs.Borrow.{sem};
ghost use Rattle.std.specs.List.{AllByRecursion};
ghost use Rattle.std.specs.Prelude.{◌≡◌, ◌≤◌, ◌⊎◌, [], false, length, IfOk, IfErr, IsTrue, OnOk, OnErr};
ghost use Rattle.mx_book.specs.Keeps.{HasCause};
ghost use Rattle.mx_book.specs.Edits.{Fits, all_edited};
ghost use Rattle.mx_book.specs.World.{Name as HolderName};
ghost use Rattle.mx_book.specs.Views.{Attempts, Changes, Gives, Keeps, MovesTo, Settles, IsSure, IsHonest};
ghost use Rattle.mx_book.specs.declared.contract.StoreFault.TheVariants.{Memory};
ghost use Rattle.mx_command.specs.declared.values.Refusal.{Refusal};
ghost use Rattle.mx_command.specs.declared.values.Reply.TheVariants.{Refused};
ghost use Rattle.mx_office.specs.Abstract.{Refines};
ghost use Rattle.mx_office.specs.Calls.{TellsOf};
ghost use Rattle.mx_command.specs.Commands.{IsAsked};
ghost use Rattle.mx_office.specs.Conservation.{IsNeverFullOutcome};
ghost use Rattle.mx_office.specs.Decides.{Decides};
ghost use Rattle.mx_office.specs.Faults.{FailsFor, MayFail, MayNotDecide, is_read, lists, makes_edits};
ghost use Rattle.mx_office.specs.Isolation.{cut, for_holder, local, told_to, view, view_of};
ghost use Rattle.mx_office.specs.Lends.{LendsBook};
ghost use Rattle.mx_office.specs.Reachable.{IsReachable, StandsBalanced};
ghost use Rattle.mx_office.specs.Run.{IsUndone, Runs, answered, replies};
ghost use Rattle.mx_office.specs.Step.{base, step};

use crate::archive::{archive, clear, settle};
use crate::decisions::refuse;
use crate::limits::{is_caller, is_command};
use crate::members::{new_holder, new_member, new_purse};
use crate::money::{collect, grant, load, reconcile};
use crate::purses::{
    abort, discard, handle, inbox, purses, read_log, redeem, show, start_from, start_to, statement,
};
use crate::values::{Decided, Outcome};
use mx_book::contract::{Book, StoreFault};
use mx_book::values::Caller;
use mx_command::{Command, Refusal, Reply};
use mx_pay::Name;
use std::alloc::{AllocError, Global};

/// The office of a scheme: it answers the commands of the operator, of clerks and of holders, and keeps what
/// they do in a book.
#[derive(Drop)]
pub struct Office<B> {
    /// What the office keeps.
    pub book: B,
}

impl<B: Book> Office<B> {
    /// An office over this book.
    pub fn new(book: B) -> Self
        ensures { result.book ≡ book }
    {
        Office { book }
    }

    /// The book of the office, lent for reading and for reports.
    pub fn book(&mut self) -> &mut B
        ensures* lends { sem 𝓛 (LendsBook B.row self.entry result) }
        ensures value { result.now ≡ self.old.book }
    {
        &mut self.book
    }

    /// The book of the office, which ends.
    pub fn into_book(self) -> B
        ensures { result ≡ self.book }
    {
        self.book
    }

    /// What a command of a caller would do: its reply, and the edits that lead to its World. Nothing changes. A fault
    /// is one of the book's reads, or `Memory` where the command reads a list: a grant, purses, inbox and statement.
    /// Without doubt (`memory`) a grant reads one only where its member is there, and an inbox and a statement only where
    /// the purse is the holder's. Then `Store` comes only where the store failed in this call (`cause`), and a command
    /// that is idle has no edits (`edits`).
    pub fn decide(
        &mut self,
        alloc: Global,
        caller: Caller,
        command: &Command,
    ) -> Result<Decided, StoreFault>
        ensures keeps { Keeps (B.view self.old.book) (B.view self.new.book) }
        ensures decides { Gives (B.view self.old.book) (B.view self.new.book) result
            (λ w d. Decides w (base w caller command.now) d) }
        ensures reads { IfOk result (λ d. IsTrue (is_read command.now) → d.edits ≡ []) }
        ensures edits { Gives (B.view self.old.book) (B.view self.new.book) result
            (λ w d. makes_edits w command.now ≡ false → d.edits ≡ []) }
        ensures fault { IfErr result (MayNotDecide B.fails command.now) }
        ensures memory { IsSure (B.view self.new.book)
            → IfErr result (FailsFor B.fails
            (lists (B.view self.old.book).world caller command.now)) }
        ensures cause { IsSure (B.view self.new.book)
            → IfErr result (HasCause (B.view self.old.book).limited
            (B.view self.old.book).faults (B.view self.new.book).faults) }
        ensures asked { IsAsked (caller, command.now) }
    {
        let mut decided = Decided::new();
        self.decide_into(alloc, caller, command, &mut decided)?;
        Ok(decided)
    }

    /// What a command of a caller would do, as `decide` says it, written over an earlier decision. A decision takes
    /// some 8 KB, and who decides one command after another spares to make one each time. After a fault the decision is of
    /// no use.
    pub fn decide_into(
        &mut self,
        alloc: Global,
        caller: Caller,
        command: &Command,
        decided: &mut Decided,
    ) -> Result<(), StoreFault>
        ensures keeps { Keeps (B.view self.old.book) (B.view self.new.book) }
        ensures decides { Gives (B.view self.old.book) (B.view self.new.book) result
            (λ w _. Decides w (base w caller command.now) decided.new) }
        ensures reads { OnOk result (IsTrue (is_read command.now) → decided.new.edits ≡ []) }
        ensures edits { Gives (B.view self.old.book) (B.view self.new.book) result
            (λ w _. makes_edits w command.now ≡ false → decided.new.edits ≡ []) }
        ensures fault { IfErr result (MayNotDecide B.fails command.now) }
        ensures memory { IsSure (B.view self.new.book)
            → IfErr result (FailsFor B.fails
            (lists (B.view self.old.book).world caller command.now)) }
        ensures cause { IsSure (B.view self.new.book)
            → IfErr result (HasCause (B.view self.old.book).limited
            (B.view self.old.book).faults (B.view self.new.book).faults) }
        ensures asked { IsAsked (caller, command.now) }
    {
        is_caller(&caller);
        is_command(command);
        let book = &mut self.book;
        match caller {
            Caller::Operator => decide_operator(book, alloc, command, decided),
            Caller::Clerk(member) => decide_clerk(book, alloc, member, command, decided),
            Caller::Holder(holder) => decide_holder(book, alloc, holder, command, decided),
        }
    }

    /// Makes the edits of a decision, all of them, or none where it answers a fault. They have to fit the
    /// World, as they do when nothing has changed the book since `decide` gave them. A fault is `Memory` or one of the
    /// book's. Where there are no edits the book isn't asked, and there is no fault. What is made waits for `settle`.
    pub fn commit(&mut self, decided: &Decided) -> Result<(), StoreFault>
        requires { IsSure (B.view self.old.book)
            → Fits (B.view self.old.book).world decided.now.edits }
        ensures changes { Changes (λ e. (e ≡ Memory) ⊎ B.fails e) (B.view self.old.book)
            (B.view self.new.book) result
            (λ w. all_edited w decided.now.edits) }
        ensures nothing { decided.now.edits ≡ [] → IfErr result (λ _. ⊥) }
    {
        let edits = decided.edits.as_slice();
        if edits.is_empty() {
            return Ok(());
        }
        self.book.apply(edits)
    }

    /// Answers a command of a caller in a round: decides, and makes the edits, which wait for `settle`. The answer is
    /// so only where that answers. After a fault and after a refusal nothing is changed, but a fault may undo what
    /// waits, and then `settle` is a fault too. A fault is one of the book's calls, or `Memory` where the command takes
    /// some: it reads a list, or makes edits and isn't refused.
    ///
    /// It keeps holders apart (`accounts`, `told`). What a view is stands at `isolation`.
    pub fn answer_in_round(
        &mut self,
        alloc: Global,
        caller: Caller,
        command: &Command,
    ) -> Result<Reply, StoreFault>
        ensures changes { Changes (λ e. (e ≡ Memory) ⊎ B.fails e) (B.view self.old.book)
            (B.view self.new.book) result
            (λ w. (step w caller command.now).world) }
        ensures reply { Gives (B.view self.old.book) (B.view self.new.book) result
            (λ w r. r ≡ (step w caller command.now).reply) }
        ensures accounts { IsSure (B.view self.new.book) → OnOk result ((h : HolderName)
            → cut (B.view self.new.book).world h
            ≡ (local (cut (B.view self.old.book).world h)
            (view_of (B.view self.old.book).world h caller command.now)).end) }
        ensures told { Gives (B.view self.old.book) (B.view self.new.book) result
            (λ w r. (h : HolderName)
            → for_holder h caller r ≡ (local (cut w h) (view_of w h caller command.now)).replies) }
        ensures refused { IsSure (B.view self.new.book) → IfOk result (λ r. (refusal : Refusal)
            → r ≡ Refused refusal → (B.view self.new.book).world ≡ (B.view self.old.book).world) }
        ensures memory { IsSure (B.view self.new.book)
            → IfErr result (MayFail B.fails (B.view self.old.book).world caller command.now) }
        ensures asked { IsAsked (caller, command.now) }
    {
        let decided = self.decide(alloc, caller, command)?;
        if let Reply::Refused(refusal) = decided.reply {
            return Ok(Reply::Refused(refusal));
        }
        self.commit(&decided)?;
        Ok(decided.reply)
    }

    /// Settles what was changed in the round: all of it stands, or none where it answers a fault. Where it answers Ok,
    /// all that was answered in the round is so, and the store works. A fault is one of the book's settle, or came in
    /// the round and has undone it.
    pub fn settle(&mut self) -> Result<(), StoreFault>
        ensures settles { Settles (B.view self.old.book) (B.view self.new.book) result }
        ensures fault { IfErr result B.fails }
    {
        self.book.settle()
    }

    /// Answers a command of a caller in a round of its own, as `answer_in_round` says, and settles it. A fault is one
    /// of either.
    ///
    /// A stop leaves the World after a command that was answered. After one that wasn't it leaves the World before the
    /// command or that after it (`attempts`).
    pub fn answer(
        &mut self,
        alloc: Global,
        caller: Caller,
        command: &Command,
    ) -> Result<Reply, StoreFault>
        ensures settled { (B.view self.new.book).IsSettled }
        ensures later { (B.view self.old.book).IsSettled
            → (B.view self.old.book).doubt ≤ (B.view self.new.book).doubt }
        ensures attempts { (B.view self.old.book).IsSettled
            → Attempts (B.view self.old.book) (B.view self.new.book) result
            (λ w. (step w caller command.now).world) }
        ensures ok { IsSure (B.view self.new.book)
            → OnOk result ((B.view self.new.book).world ≡
            (step (B.view self.old.book).world caller command.now).world) }
        ensures reply { IsHonest (B.view self.new.book)
            → IfOk result (λ r. r ≡ (step (B.view self.old.book).world caller command.now).reply) }
        ensures accounts { IsSure (B.view self.new.book) → OnOk result ((h : HolderName)
            → cut (B.view self.new.book).world h
            ≡ (local (cut (B.view self.old.book).world h)
            (view_of (B.view self.old.book).world h caller command.now)).end) }
        ensures told { Gives (B.view self.old.book) (B.view self.new.book) result
            (λ w r. (h : HolderName)
            → for_holder h caller r ≡ (local (cut w h) (view_of w h caller command.now)).replies) }
        ensures refused { IsSure (B.view self.new.book) → IfOk result (λ r. (refusal : Refusal)
            → r ≡ Refused refusal → (B.view self.new.book).world ≡ (B.view self.old.book).world) }
        ensures err { (B.view self.old.book).IsSettled → IsSure (B.view self.new.book)
            → OnErr result ((B.view self.new.book).world ≡ (B.view self.old.book).world) }
        ensures fault { IfErr result (λ e. (e ≡ Memory) ⊎ B.fails e) }
        ensures memory { IsSure (B.view self.new.book)
            → IfErr result (MayFail B.fails (B.view self.old.book).world caller command.now) }
        ensures asked { IsAsked (caller, command.now) }
    {
        let answered = self.answer_in_round(alloc, caller, command);
        let settled = self.settle();
        let reply = answered?;
        settled?;
        Ok(reply)
    }

    /// Answers commands in order, each in a round of its own: one outcome a command, its reply, or `Unavailable` where
    /// `answer` gives a fault. An AllocError means that nothing was done.
    ///
    /// From a World that commands lead to it ends in such a World (`reachable`), and nothing is refused because a purse
    /// or a float is full (`never_full`). It keeps holders apart (`told`, `accounts`), and its commands are operations
    /// of the abstract purses (`refines`). `run` says what a stop leaves, also where a fault shut the store.
    pub fn run(
        &mut self,
        alloc: Global,
        commands: &[(Caller, Command)],
    ) -> Result<Vec<Outcome>, AllocError>
        ensures later { (B.view self.old.book).IsSettled
            → (B.view self.old.book).doubt ≤ (B.view self.new.book).doubt }
        ensures still { (B.view self.old.book).IsSettled → (B.view self.new.book).IsSettled }
        ensures run { (B.view self.old.book).IsSettled → IsHonest (B.view self.new.book)
            → IfOk result (λ outcomes.
            Runs B.fails (B.view self.old.book)
            (B.view self.new.book) commands.now outcomes.items) }
        ensures reachable { (B.view self.old.book).IsSettled → IsSure (B.view self.new.book)
            → IsReachable (B.view self.old.book).world
            → IfOk result (λ _. StandsBalanced (B.view self.new.book).world) }
        ensures never_full { (B.view self.old.book).IsSettled → IsSure (B.view self.new.book)
            → IsReachable (B.view self.old.book).world
            → IfOk result (λ outcomes. AllByRecursion IsNeverFullOutcome outcomes.items) }
        ensures accounts { (B.view self.old.book).IsSettled → IsSure (B.view self.new.book)
            → IfOk result (λ outcomes. (h : HolderName) → cut (B.view self.new.book).world h
            ≡ (local (cut (B.view self.old.book).world h)
            (view h (B.view self.old.book).world (answered commands.now outcomes.items))).end) }
        ensures told { (B.view self.old.book).IsSettled → IsSure (B.view self.new.book)
            → IfOk result (λ outcomes. (h : HolderName)
            → told_to h (replies commands.now outcomes.items)
            ≡ (local (cut (B.view self.old.book).world h)
            (view h (B.view self.old.book).world (answered commands.now outcomes.items))).replies) }
        ensures refines { (B.view self.old.book).IsSettled → IsSure (B.view self.new.book)
            → IsReachable (B.view self.old.book).world
            → IfOk result (λ outcomes.
            Refines (B.view self.old.book).world (answered commands.now outcomes.items)
            (B.view self.new.book).world) }
        ensures undone { (B.view self.old.book).IsSettled → IsSure (B.view self.new.book)
            → IfOk result (λ outcomes.
            AllByRecursion IsUndone outcomes.items
            → (B.view self.new.book).world ≡ (B.view self.old.book).world) }
        ensures each { IfOk result (λ outcomes. length outcomes.items ≡ length commands.now) }
        ensures err { OnErr result (self.new ≡ self.old) }
    {
        let mut outcomes = Vec::with_capacity(alloc, commands.len())?;
        for (caller, command) in commands {
            let outcome = match self.answer(alloc, *caller, command) {
                Ok(reply) => Outcome::Reply(reply),
                Err(_) => Outcome::Unavailable,
            };
            outcomes.push_reserved(outcome);
        }
        Ok(outcomes)
    }
}

/// What a command of the operator would do.
fn decide_operator<B: Book>(
    book: &mut B,
    alloc: Global,
    command: &Command,
    decided: &mut Decided,
) -> Result<(), StoreFault>
    ensures { TellsOf B.fails (B.view book.old) (B.view book.new) result
        Caller.Operator command.now decided.new }
{
    match *command {
        Command::NewMember { member, token } => new_member(book, alloc, member, token, decided),
        Command::Grant { member, amount } => grant(book, alloc, member, amount, decided),
        Command::Archive { purse } => archive(book, alloc, purse, decided),
        Command::Clear { purse, ref details } => clear(book, alloc, purse, details, decided),
        Command::Reconcile => reconcile(book, alloc, decided),
        Command::Settle { ref details } => settle(book, alloc, details, decided),
        _ => {
            refuse(decided, Refusal::NotForCaller);
            Ok(())
        }
    }
}

/// What a command of the clerk of a member would do.
fn decide_clerk<B: Book>(
    book: &mut B,
    alloc: Global,
    member: Name,
    command: &Command,
    decided: &mut Decided,
) -> Result<(), StoreFault>
    ensures { TellsOf B.fails (B.view book.old) (B.view book.new) result
        (Caller.Clerk member) command.now decided.new }
{
    match *command {
        Command::NewHolder { holder, token } => new_holder(
            book, alloc, member, holder, token, decided,
        ),
        Command::NewPurse { purse, holder } => new_purse(
            book, alloc, member, purse, holder, decided,
        ),
        Command::Load {
            purse,
            amount,
            reference,
        } => load(book, alloc, member, purse, amount, reference, decided),
        Command::Collect => collect(book, alloc, member, decided),
        _ => {
            refuse(decided, Refusal::NotForCaller);
            Ok(())
        }
    }
}

/// What a command of a holder would do.
fn decide_holder<B: Book>(
    book: &mut B,
    alloc: Global,
    holder: Name,
    command: &Command,
    decided: &mut Decided,
) -> Result<(), StoreFault>
    ensures { TellsOf B.fails (B.view book.old) (B.view book.new) result
        (Caller.Holder holder) command.now decided.new }
{
    match *command {
        Command::Purses => purses(book, alloc, holder, decided),
        Command::Show { purse } => show(book, alloc, holder, purse, decided),
        Command::StartFrom {
            purse,
            peer,
            value,
            seq,
        } => start_from(book, alloc, holder, purse, peer, value, seq, decided),
        Command::StartTo {
            purse,
            peer,
            value,
            seq,
        } => start_to(book, alloc, holder, purse, peer, value, seq, decided),
        Command::Handle { purse, number } => handle(book, alloc, holder, purse, number, decided),
        Command::Discard { purse, number } => discard(book, alloc, holder, purse, number, decided),
        Command::Abort { purse } => abort(book, alloc, holder, purse, decided),
        Command::ReadLog { purse, place } => read_log(book, alloc, holder, purse, place, decided),
        Command::Redeem {
            purse,
            amount,
            reference,
        } => redeem(book, alloc, holder, purse, amount, reference, decided),
        Command::Inbox { purse } => inbox(book, alloc, holder, purse, decided),
        Command::Statement { purse, after } => {
            statement(book, alloc, holder, purse, after, decided)
        }
        _ => {
            refuse(decided, Refusal::NotForCaller);
            Ok(())
        }
    }
}
