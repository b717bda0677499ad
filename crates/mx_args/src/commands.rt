//! The commands of the program, as clap reads them.
ghost use Rattle.std.specs.Prelude.{◌≡◌, IfOk, false};
ghost use Rattle.clap.specs.Words.{app_of, rule_of};
ghost use Rattle.clap.specs.declared.Command.TheViews.{out-Command};
ghost use Rattle.mx_args.specs.Line.{line_app, program_app};
ghost use Rattle.mx_args.specs.Forms.{app_with_forms, form_app, rule_from};

use clap::{Arg, ArgAction, Command};
use std::alloc::{AllocError, Global};

// How an argument is written.
#[derive(Clone, Copy)]
enum Kind {
    // A word that stands by itself.
    Word,
    // `--id VALUE`, with this name of the value in help.
    Value(&'static str),
    // `--id`.
    Flag,
}

// An argument of a command.
#[derive(Clone, Copy)]
struct Argument {
    id: &'static str,
    kind: Kind,
    required: bool,
    help: &'static str,
}

// A command of the program: its name, that in usage texts, what help says of it, and its arguments.
#[derive(Clone, Copy)]
struct Form {
    name: &'static str,
    full_name: &'static str,
    about: &'static str,
    arguments: &'static [Argument],
}

// What FILE is.
const BOOKS: &str = "The file of the books, a database of SQLite";

// What the value of `--token` is.
const DIGITS: &str = "The operator's token: 32 hexadecimal digits";

const FILE: Argument = Argument {
    id: "FILE",
    kind: Kind::Word,
    required: true,
    help: BOOKS,
};

const TOKEN: Argument = Argument {
    id: "token",
    kind: Kind::Value("HEX"),
    required: true,
    help: DIGITS,
};

// The commands in the order of help.
static FORMS: [Form; 8] = [
    Form {
        name: "run",
        full_name: "purse-office run",
        about: "Answers the requests of standard input on standard output",
        arguments: &[
            Argument {
                id: "FILE",
                kind: Kind::Word,
                required: false,
                help: BOOKS,
            },
            Argument {
                id: "memory",
                kind: Kind::Flag,
                required: false,
                help: "Keeps the books in memory, until the input ends; takes --token",
            },
            Argument {
                id: "token",
                kind: Kind::Value("HEX"),
                required: false,
                help: DIGITS,
            },
        ],
    },
    Form {
        name: "init",
        full_name: "purse-office init",
        about: "Makes new books in a file",
        arguments: &[FILE, TOKEN],
    },
    Form {
        name: "serve",
        full_name: "purse-office serve",
        about: "Answers requests on a port of 127.0.0.1, a connection each",
        arguments: &[
            FILE,
            Argument {
                id: "port",
                kind: Kind::Value("N"),
                required: true,
                help: "The port, from 1 to 65535",
            },
            Argument {
                id: "count",
                kind: Kind::Value("K"),
                required: true,
                help: "How many connections are served, from 1 to 1000000",
            },
            Argument {
                id: "copy",
                kind: Kind::Value("PATH"),
                required: false,
                help: "The file to which the books are copied meanwhile; takes --every",
            },
            Argument {
                id: "every",
                kind: Kind::Value("SECONDS"),
                required: false,
                help: "How often they are, where they have changed, from 1 to 86400",
            },
        ],
    },
    Form {
        name: "import",
        full_name: "purse-office import",
        about: "Adds the members, holders and purses of a roll to the books",
        arguments: &[
            FILE,
            Argument {
                id: "ROLL",
                kind: Kind::Word,
                required: true,
                help: "The file of the roll: comma-separated values",
            },
        ],
    },
    Form {
        name: "report",
        full_name: "purse-office report",
        about: "Prints the reconciliation of the books, or the statements of purses",
        arguments: &[
            FILE,
            Argument {
                id: "purse",
                kind: Kind::Value("P"),
                required: false,
                help: "The purse whose statement is printed",
            },
            Argument {
                id: "statements",
                kind: Kind::Flag,
                required: false,
                help: "Prints the statements of all purses; not with --purse",
            },
        ],
    },
    Form {
        name: "check",
        full_name: "purse-office check",
        about: "Tells whether a file of books is sound, and what is wrong in it",
        arguments: &[FILE],
    },
    Form {
        name: "copy",
        full_name: "purse-office copy",
        about: "Copies the books to a new file",
        arguments: &[
            FILE,
            Argument {
                id: "TO",
                kind: Kind::Word,
                required: true,
                help: "The new file, which isn't there yet",
            },
        ],
    },
    Form {
        name: "migrate",
        full_name: "purse-office migrate",
        about: "Brings a file of schema 1 to schema 2",
        arguments: &[FILE],
    },
];

// The argument, as clap takes it.
fn arg_of<'a>(alloc: Global, argument: &Argument) -> Arg<'a>
    ensures rule { rule_of result ≡ rule_from argument.now }
    ensures local { result.global ≡ false }
{
    let arg = Arg::new(alloc, argument.id)
        .required(argument.required)
        .help(argument.help);
    match argument.kind {
        Kind::Word => arg,
        Kind::Value(name) => arg.long(argument.id).value_name(name),
        Kind::Flag => arg.long(argument.id).action(ArgAction::SetTrue),
    }
}

// The command of this form.
fn command_of<'a>(alloc: Global, form: &Form) -> Result<Command<'a>, AllocError>
    ensures app { IfOk result (λ c. app_of c ≡ form_app form.now) }
    ensures local { IfOk result (λ c. (out-Command c).has_globals ≡ false) }
{
    let mut command = Command::new(alloc, form.name).about(form.about);
    for argument in form.arguments {
        command = command.arg(arg_of(alloc, argument))?;
    }
    Ok(command)
}

// The program of this version, which is called by its words alone. Its name stands before each command in usage.
fn program_command<'a>(alloc: Global, version: &'a str) -> Result<Command<'a>, AllocError>
    ensures { IfOk result (λ c. app_of c ≡ program_app) }
{
    Command::new(alloc, "purse-office")
        .about("The scheme office of an electronic purse")
        .version(version)
        .no_binary_name(true)
        .subcommand_required(true)
        .bin_name("purse-office")
}

// The program with the commands of these forms.
fn program_of<'a>(
    alloc: Global,
    version: &'a str,
    forms: &[Form],
) -> Result<Command<'a>, AllocError>
    ensures { IfOk result (λ c. app_of c ≡ app_with_forms program_app forms.now) }
{
    let mut program = program_command(alloc, version)?;
    for form in forms {
        program = program.subcommand(command_of(alloc, form)?)?;
    }
    Ok(program)
}

/// The program of this version with its commands.
pub(crate) fn line_command<'a>(alloc: Global, version: &'a str) -> Result<Command<'a>, AllocError>
    ensures { IfOk result (λ c. app_of c ≡ line_app) }
{
    program_of(alloc, version, &FORMS)
}

// The form of the command of this name.
fn form_named(name: &str) -> Option<&'static Form> {
    for form in &FORMS {
        if form.name == name {
            return Some(form);
        }
    }
    None
}

/// The command of this name, by itself, for its usage; the program's name alone where it has no such command.
pub(crate) fn command_named<'a>(alloc: Global, name: &str) -> Result<Command<'a>, AllocError> {
    match form_named(name) {
        Some(form) => command_of(alloc, form)?.bin_name(form.full_name),
        None => Command::new(alloc, "purse-office").bin_name("purse-office"),
    }
}
