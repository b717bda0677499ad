//! What a task is to do, and in which file.
ghost use Rattle.std.specs.Prelude.{◌≡◌};
ghost use Rattle.mx_files.specs.Plans.{asked_copies, asked_report, planned_task};

use mx_args::{AskedCopies, AskedReport, Task};
use mx_pay::Token;
use mx_tasks::{ReportKind, Work};

/// Where books are copied to while they are served, and how often.
#[derive(Clone, Copy, Debug)]
pub struct PlannedCopies<'a> {
    /// The path of the copy.
    pub to: &'a str,
    /// How many seconds lie between two copies at least, from 1 to 86,400.
    pub every: u32,
}

/// Work over books, and whether these are copied while they are served.
#[derive(Drop)]
pub struct Errand<'a> {
    /// The work.
    pub work: Work<'a>,
    /// The copies.
    pub copies: Option<PlannedCopies<'a>>,
}

/// What is done with the books in a file.
#[derive(Drop)]
pub enum Act<'a> {
    /// Requests are answered over them.
    Run,
    /// They are made, for the operator with this token.
    Make(Token),
    /// This work is done over them.
    Work(Errand<'a>),
    /// It is told whether they are sound.
    Check,
    /// They are copied to the new file at this path.
    Copy(&'a str),
    /// They are brought to the schema of this version.
    Migrate,
}

/// What a task is to do.
#[derive(Drop)]
pub enum Plan<'a> {
    /// Requests are answered over new books in memory, for the operator with this token.
    InMemory(Token),
    /// This is done with the books in the file at this path.
    InFile(&'a str, Act<'a>),
}

/// The kind of a report that is asked for.
fn kind_of(report: AskedReport) -> ReportKind
    ensures { asked_report result ≡ report }
{
    match report {
        AskedReport::Reconciliation => ReportKind::Reconciliation,
        AskedReport::Statement(purse) => ReportKind::Statement(purse),
        AskedReport::Statements => ReportKind::Statements,
    }
}

/// The copies that are asked for.
fn copies_of<'a>(copies: &Option<AskedCopies<'a>>) -> Option<PlannedCopies<'a>>
    ensures { asked_copies result ≡ copies.now }
{
    match copies {
        Some(copies) => Some(PlannedCopies {
            to: copies.to.as_str(),
            every: copies.every,
        }),
        None => None,
    }
}

/// The plan of a task.
pub fn plan_of<'a>(task: &Task<'a>) -> Plan<'a>
    ensures { planned_task result ≡ task.now }
{
    match task {
        Task::RunMemory(operator) => Plan::InMemory(*operator),
        Task::RunFile(file) => Plan::InFile(file.as_str(), Act::Run),
        Task::Init { file, token } => Plan::InFile(file.as_str(), Act::Make(*token)),
        Task::Serve {
            file,
            port,
            count,
            copies,
        } => {
            let work = Work::Serve {
                port: *port,
                count: *count,
            };
            let copies = copies_of(copies);
            Plan::InFile(file.as_str(), Act::Work(Errand { work, copies }))
        }
        Task::Import { file, roll } => {
            let work = Work::Import(roll.as_str());
            Plan::InFile(file.as_str(), Act::Work(Errand { work, copies: None }))
        }
        Task::Report { file, report } => {
            let work = Work::Report(kind_of(*report));
            Plan::InFile(file.as_str(), Act::Work(Errand { work, copies: None }))
        }
        Task::Check(file) => Plan::InFile(file.as_str(), Act::Check),
        Task::Copy { file, to } => Plan::InFile(file.as_str(), Act::Copy(to.as_str())),
        Task::Migrate(file) => Plan::InFile(file.as_str(), Act::Migrate),
    }
}
