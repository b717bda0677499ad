//! Commands, replies and refusals.
ghost use Rattle.std.specs.Prelude.{◌≡◌};
ghost use Rattle.mx_command.specs.Texts.{refusal_text};

use mx_book::values::{Line, Totals};
use mx_pay::{Amount, Log, Name, PayDetails, Seq, Token};
use mx_purse::{Handled, Message, Purse};
use std::marker::Model;

/// What is asked of the office. Who asks stands beside it.
#[derive(Clone, Copy)]
pub enum Command {
    /// The operator adds a member.
    NewMember {
        /// The member.
        member: Name,
        /// The token of its clerk.
        token: Token,
    },
    /// The operator grants a member an amount, by which its grants and its float rise.
    Grant {
        /// The member.
        member: Name,
        /// How much.
        amount: Amount,
    },
    /// The operator archives what lies in the tray of a purse: the results of read log that were sent.
    Archive {
        /// The purse.
        purse: Name,
    },
    /// The operator sends a purse a message that clears its exception log of these details, which have to be
    /// archived for it.
    Clear {
        /// The purse.
        purse: Name,
        /// The details, which are to be its log in full.
        details: Log,
    },
    /// A clerk adds a holder of its member.
    NewHolder {
        /// The holder.
        holder: Name,
        /// The holder's token.
        token: Token,
    },
    /// A clerk issues a purse to a holder of its member.
    NewPurse {
        /// The purse.
        purse: Name,
        /// The holder.
        holder: Name,
    },
    /// A clerk loads a purse of a holder of its member from the member's float. The same reference and amount
    /// again changes nothing.
    Load {
        /// The purse.
        purse: Name,
        /// How much.
        amount: Amount,
        /// The reference of the load.
        reference: Name,
    },
    /// A clerk collects what the purses of its member's holders redeemed.
    Collect,
    /// A holder asks which purses are the holder's own.
    Purses,
    /// A holder asks to see a purse.
    Show {
        /// The purse.
        purse: Name,
    },
    /// A holder starts a payment from a purse.
    StartFrom {
        /// The purse that is to pay.
        purse: Name,
        /// The purse that is to be paid.
        peer: Name,
        /// How much.
        value: Amount,
        /// The sequence number that the peer has for this payment.
        seq: Seq,
    },
    /// A holder starts a payment to a purse.
    StartTo {
        /// The purse that is to be paid.
        purse: Name,
        /// The purse that is to pay.
        peer: Name,
        /// How much.
        value: Amount,
        /// The sequence number that the peer has for this payment.
        seq: Seq,
    },
    /// A holder lets a purse handle a message that lies in its inbox. The message stays there.
    Handle {
        /// The purse.
        purse: Name,
        /// The number of the message.
        number: Seq,
    },
    /// A holder throws a message away that lies in the inbox of a purse.
    Discard {
        /// The purse.
        purse: Name,
        /// The number of the message.
        number: Seq,
    },
    /// A holder aborts the payment of a purse.
    Abort {
        /// The purse.
        purse: Name,
    },
    /// A holder reads the entry at a place of the exception log of a purse, whose payment is aborted first. What is
    /// read is sent to the archive.
    ReadLog {
        /// The purse.
        purse: Name,
        /// The place, counted from 0.
        place: u64,
    },
    /// A holder redeems an amount of a purse. The same reference and amount again changes nothing.
    Redeem {
        /// The purse.
        purse: Name,
        /// How much.
        amount: Amount,
        /// The reference of the redemption.
        reference: Name,
    },
    /// A holder asks which messages lie in the inbox of a purse.
    Inbox {
        /// The purse.
        purse: Name,
    },
    /// A holder asks for the lines of a purse's statement, at most 50 of them.
    Statement {
        /// The purse.
        purse: Name,
        /// The number above which the lines are numbered.
        after: Seq,
    },
    /// The operator asks what the books come to.
    Reconcile,
    /// The operator gives the lost value of a payment back to the purse that paid it. The details have to be archived
    /// for both purses.
    Settle {
        /// The details of the payment.
        details: PayDetails,
    },
}

/// Why a command is refused. Each command has its refusals in an order, and the first that applies is given.
#[derive(Clone, Copy)]
pub enum Refusal {
    /// The command is of another class than the caller's.
    NotForCaller,
    /// There is no such purse, or it is another holder's; to a clerk, also another member's.
    NoSuchPurse,
    /// There is no such holder, or it is another member's.
    NoSuchHolder,
    /// There is no such member.
    NoSuchMember,
    /// No message of that number lies in the inbox of the purse.
    NoSuchMessage,
    /// Something of the same kind, a member, a holder or a purse, has that name already.
    NameTaken,
    /// The operator, a clerk or a holder has that token already.
    TokenTaken,
    /// The holder has 64 purses already.
    TooManyPurses,
    /// A purse was to pay itself.
    SamePurse,
    /// The purse holds less than the value.
    NotEnough,
    /// The exception log of the purse has, or would have after an abort, 16 entries.
    LogFull,
    /// The next number or the line count of the purse is at its limit.
    Worn,
    /// The purse has a load or a redemption with that reference and another amount.
    RefReused,
    /// The float of the member is less than the amount.
    FloatTooSmall,
    /// The float of the member would be above 10^15.
    FloatFull,
    /// All grants would be above 10^15.
    GrantTooLarge,
    /// The balance of the purse would be above 10^15.
    OverCap,
    /// The details to clear are none, or one of them isn't archived for the purse.
    NotArchived,
    /// The details to settle aren't archived for both of their purses.
    NotLost,
    /// The details are settled already.
    AlreadySettled,
}

impl Refusal {
    /// The words of the refusal, as they stand in a response.
    pub fn text(&self) -> &'static str
        ensures { result.now ≡ refusal_text self.now }
    {
        match self {
            Refusal::NotForCaller => "not for this caller",
            Refusal::NoSuchPurse => "no such purse",
            Refusal::NoSuchHolder => "no such holder",
            Refusal::NoSuchMember => "no such member",
            Refusal::NoSuchMessage => "no such message",
            Refusal::NameTaken => "name taken",
            Refusal::TokenTaken => "token taken",
            Refusal::TooManyPurses => "too many purses",
            Refusal::SamePurse => "same purse",
            Refusal::NotEnough => "not enough",
            Refusal::LogFull => "log full",
            Refusal::Worn => "purse worn",
            Refusal::RefReused => "reference reused",
            Refusal::FloatTooSmall => "float too small",
            Refusal::FloatFull => "float full",
            Refusal::GrantTooLarge => "grant too large",
            Refusal::OverCap => "over cap",
            Refusal::NotArchived => "not archived",
            Refusal::NotLost => "not lost",
            Refusal::AlreadySettled => "already settled",
        }
    }
}

/// Names in order. A contract sees the list of them.
#[derive(Drop)]
pub struct Names {
    list: Vec<Name>,
}

impl Model for Names {
    ghost use Rattle.std.specs.Prelude.{List, ℕ};
    ghost use Rattle.std.specs.Coded.{coded_list, coded_ℕ};

    ghost Value = { List (List ℕ) };

    ghost coded = { coded_list (coded_list coded_ℕ) };

    ghost view = { λ n. n.list.items };
}

impl Names {
    /// These names.
    pub fn new(list: Vec<Name>) -> Names
        ensures { result ≡ list.items }
    {
        Names { list }
    }

    /// The names, in order.
    pub fn as_slice(&self) -> &[Name]
        ensures { result.now ≡ self.now }
    {
        self.list.as_slice()
    }
}

/// Messages with their numbers, by number. A contract sees the list of them.
#[derive(Drop)]
pub struct Messages {
    list: Vec<(u64, Message)>,
}

impl Model for Messages {
    ghost use Rattle.std.specs.Prelude.{List, ℕ};
    ghost use Rattle.std.specs.Coded.{coded_list, coded_ℕ, coded×};
    ghost use Rattle.mx_purse.specs.declared.message.Message.{Message};
    ghost use Rattle.mx_purse.specs.contracts.message.Message as message;

    ghost Value = { List (ℕ × Message) };

    ghost coded = { coded_list (coded× coded_ℕ (message.the_row).coded) };

    ghost view = { λ m. m.list.items };
}

impl Messages {
    /// These messages.
    pub fn new(list: Vec<(u64, Message)>) -> Messages
        ensures { result ≡ list.items }
    {
        Messages { list }
    }

    /// The messages with their numbers, by number.
    pub fn as_slice(&self) -> &[(u64, Message)]
        ensures { result.now ≡ self.now }
    {
        self.list.as_slice()
    }
}

/// Lines of a statement, by number. A contract sees the list of them.
#[derive(Drop)]
pub struct Lines {
    list: Vec<Line>,
}

impl Model for Lines {
    ghost use Rattle.std.specs.Prelude.{List};
    ghost use Rattle.std.specs.Coded.{coded_list};
    ghost use Rattle.mx_book.specs.declared.values.Line.{Line};
    ghost use Rattle.mx_book.specs.contracts.values.Line as line;

    ghost Value = { List Line };

    ghost coded = { coded_list (line.the_row).coded };

    ghost view = { λ l. l.list.items };
}

impl Lines {
    /// These lines.
    pub fn new(list: Vec<Line>) -> Lines
        ensures { result ≡ list.items }
    {
        Lines { list }
    }

    /// The lines, by number.
    pub fn as_slice(&self) -> &[Line]
        ensures { result.now ≡ self.now }
    {
        self.list.as_slice()
    }
}

/// The answer to a command.
#[derive(Drop)]
pub enum Reply {
    /// The command is refused, and nothing changed.
    Refused(Refusal),
    /// The member, the holder or the purse is added.
    Added,
    /// The grant is made.
    Granted,
    /// The purse is loaded, now or by an earlier load with that reference and amount.
    Loaded,
    /// So much is collected.
    Collected(u128),
    /// So many results went from the tray to the archive.
    Archived(usize),
    /// The message that clears a log is sent, and waits in the inbox or vanished.
    Sent,
    /// These are the holder's purses.
    Purses(Names),
    /// This is the purse.
    Shown(Purse),
    /// A payment of these details is started.
    Started(PayDetails),
    /// The purse handled the message so.
    Handled(Handled),
    /// The message is thrown away.
    Discarded,
    /// The purse is at rest, and a payment was logged or none was.
    Aborted {
        /// Whether a payment was logged.
        logged: bool,
    },
    /// This entry was read, or none where the log has none at that place.
    Read(Option<PayDetails>),
    /// The purse is redeemed, now or by an earlier redemption with that reference and amount.
    Redeemed,
    /// These messages lie in the inbox.
    Inbox(Messages),
    /// These are the lines of the statement.
    Statement(Lines),
    /// The books come to this.
    Reconciled(Totals),
    /// The lost value came back to the purse that paid it.
    Settled,
}
