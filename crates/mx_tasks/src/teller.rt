//! What is told of how far a task is, while it is under way.
ghost use Rattle.std.specs.Prelude.{◌≡◌, ◌⊎◌, None, Some, false, true, codes};
ghost use Rattle.std.specs.Io.KnownBytes.{Appends};
ghost use Rattle.mx_tasks.specs.Voices.{progress_text};

use crate::terminal::Terminal;
use mx_report::Progress;
use std::rt::Clock;
use std::time::{Duration, Instant};

/// Tells a terminal how many rows, or what else, are done: once the task has taken a second, and then once a second. A voice
/// that isn't a terminal is told nothing.
#[derive(Drop)]
pub struct Teller<'a, R, T> {
    rt: &'a R,
    terminal: &'a mut T,
    /// What is counted.
    what: &'static str,
    /// When the next line is due. None where nothing is told.
    due: Option<Instant>,
    /// Whether something was told.
    has_told: bool,
    /// How many are done.
    done: u64,
}

/// A second from now, or None where no clock tells.
pub fn in_a_second(rt: &impl Clock) -> Option<Instant> {
    let now = Instant::now(rt).ok()?;
    now.checked_add(Duration::from_secs(1))
}

/// Whether that time has come.
pub fn has_come(rt: &impl Clock, due: Option<Instant>) -> bool
    ensures { due ≡ None → result ≡ false }
{
    match (due, Instant::now(rt)) {
        (Some(time), Ok(now)) => now >= time,
        _ => false,
    }
}

impl<'a, R: Clock, T: Terminal> Teller<'a, R, T> {
    /// Nothing is told yet. What is counted stands behind the number.
    pub fn new(rt: &'a R, terminal: &'a mut T, what: &'static str) -> Teller<'a, R, T>
        ensures unseen { T.is_seen terminal.old ≡ Some false → result.due ≡ None }
        ensures terminal { result.terminal.ghost_name ≡ terminal.entry.ghost_name }
        ensures silent { result.terminal.now ≡ terminal.old }
        ensures untold { result.has_told ≡ false }
    {
        let due = if terminal.is_terminal() {
            in_a_second(rt)
        } else {
            None
        };
        Teller {
            rt,
            terminal,
            what,
            due,
            has_told: false,
            done: 0,
        }
    }

    /// How many are done.
    pub fn count(&self) -> u64
        ensures { result ≡ self.now.done }
    {
        self.done
    }

    /// Ends the line of what was told, if something was.
    pub fn end(&mut self)
        ensures untold { self.old.has_told ≡ false
            → self.new.terminal.now ≡ self.old.terminal.now }
        ensures told { self.old.has_told ≡ true
            → Appends (T.said self.old.terminal.now) (T.said self.new.terminal.now) (codes "\n") }
        ensures terminal { self.new.terminal.ghost_name ≡ self.old.terminal.ghost_name }
    {
        if self.has_told {
            self.terminal.say("\n");
        }
    }
}

impl<R: Clock, T: Terminal> Progress for Teller<'_, R, T> {
    fn done(&mut self, count: u64)
        ensures counted { self.new.done ≡ count }
        ensures unseen { self.old.due ≡ None → (self.new.due ≡ None)
            × (self.new.has_told ≡ self.old.has_told)
            × (self.new.terminal.now ≡ self.old.terminal.now) }
        ensures told { (self.new.terminal.now ≡ self.old.terminal.now)
            ⊎ Appends (T.said self.old.terminal.now) (T.said self.new.terminal.now)
            (progress_text count self.old.what.now) }
        ensures terminal { self.new.terminal.ghost_name ≡ self.old.terminal.ghost_name }
    {
        self.done = count;
        if has_come(self.rt, self.due) {
            let what = self.what;
            self.terminal.say(format_args!("\r{count} {what}"));
            self.has_told = true;
            self.due = in_a_second(self.rt);
        }
    }
}
