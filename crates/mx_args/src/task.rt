//! What the program is asked to do.
ghost use Rattle.std.specs.Prelude.{◌≡◌};

use mx_pay::{Name, Token};
use std::alloc::AllocError;
use std::marker::Model;

/// A word of the command line that names a file. A contract sees it as its bytes.
#[derive(Drop)]
pub struct Word<'a> {
    text: &'a str,
}

impl<'a> Model for Word<'a> {
    ghost use Rattle.std.specs.Prelude.{List, ℕ};

    ghost Value = { List ℕ };

    ghost view = { λ word. word.text.now };
}

impl<'a> Word<'a> {
    /// The word with this text.
    pub fn new(text: &'a str) -> Word<'a>
        ensures { result ≡ text.now }
    {
        Word { text }
    }

    /// The text of the word.
    pub fn as_str(&self) -> &'a str
        ensures { result.now ≡ self.now }
    {
        self.text
    }
}

/// Which report is asked for.
#[derive(Clone, Copy)]
pub enum AskedReport {
    /// The reconciliation.
    Reconciliation,
    /// `--purse P`: the statement of this purse.
    Statement(Name),
    /// `--statements`: the statements of all purses.
    Statements,
}

/// Where the books are copied to while they are served, and how often.
#[derive(Drop)]
pub struct AskedCopies<'a> {
    /// The file of the copy.
    pub to: Word<'a>,
    /// How many seconds lie between two copies at least, from 1 to 86,400.
    pub every: u32,
}

/// What the program is asked to do. It borrows the words of the command line.
#[derive(Drop)]
pub enum Task<'a> {
    /// `run --memory --token HEX`: requests from standard input, responses to standard output, over books
    /// in memory. The token is the operator's.
    RunMemory(Token),
    /// `run FILE`: the same over the books in a file.
    RunFile(Word<'a>),
    /// `init FILE --token HEX`: a file for books, with nothing in them but the operator's token.
    Init {
        /// The file.
        file: Word<'a>,
        /// The token of the operator.
        token: Token,
    },
    /// `serve FILE --port N --count K`: connections over the books in a file; and with `--copy PATH --every SECONDS` copies of these.
    Serve {
        /// The file.
        file: Word<'a>,
        /// The port, from 1 to 65535.
        port: u16,
        /// How many connections are served, from 1 to 1,000,000.
        count: u32,
        /// The copies of the books, if there are to be any.
        copies: Option<AskedCopies<'a>>,
    },
    /// `import FILE ROLL`: the members, holders and purses of a roll, into the books in a file.
    Import {
        /// The file of the books.
        file: Word<'a>,
        /// The file of the roll.
        roll: Word<'a>,
    },
    /// `report FILE`: a report of the books in a file, with `--purse P`, `--statements` or neither.
    Report {
        /// The file.
        file: Word<'a>,
        /// Which report.
        report: AskedReport,
    },
    /// `check FILE`: whether the books in a file are sound, and what is wrong in them if not.
    Check(Word<'a>),
    /// `copy FILE TO`: the books in a file, in a new one.
    Copy {
        /// The file of the books.
        file: Word<'a>,
        /// The new file.
        to: Word<'a>,
    },
    /// `migrate FILE`: the books in a file, which are of the schema before, are brought to the schema of this version.
    Migrate(Word<'a>),
}

/// Why a command line gives no task.
#[derive(Debug, Drop)]
pub enum LineFault {
    /// The line names no task. The text says why, or is the help that was asked for; it is printed on
    /// standard error.
    Bad(String),
    /// The line asks for the version, which the text tells; it is printed on standard output.
    Version(String),
    /// Memory ran out.
    Memory,
}

impl From<AllocError> for LineFault {
    ghost use Rattle.std.specs.Prelude.{◌≡◌};
    ghost use Rattle.mx_args.specs.declared.task.LineFault.TheVariants.{Memory};

    ghost from_gives = { λ _ fault. fault ≡ Memory };

    fn from(_error: AllocError) -> LineFault {
        LineFault::Memory
    }
}
