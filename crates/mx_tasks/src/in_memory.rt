//! A terminal and rolls in memory.
ghost use Rattle.std.specs.Prelude.{◌≡◌, IfOk, IfSome, None, Some, [], option_map};
ghost use Rattle.std.specs.BTreeMap.{get_by_text};
ghost use Rattle.mx_tasks.specs.Voices.{HearsOne, heard};

use crate::import::rolls::Rolls;
use crate::terminal::Terminal;
use crate::voice::Voice;
use std::alloc::Global;
use std::collections::BTreeMap;
use std::fmt::Display;
use std::io;
use std::io::ErrorKind;

/// A voice in memory, which is a terminal or isn't. It keeps each text that is said.
#[derive(Drop)]
pub struct TerminalInMemory {
    alloc: Global,
    is_terminal: bool,
    /// What was said, text by text. None from a text on that found no memory.
    pub texts: Option<Vec<String>>,
}

impl TerminalInMemory {
    /// One to which nothing was said.
    pub fn new(alloc: Global, is_terminal: bool) -> TerminalInMemory
        ensures seen { result.is_terminal ≡ is_terminal }
        ensures silent { heard result.texts ≡ Some [] }
    {
        TerminalInMemory {
            alloc,
            is_terminal,
            texts: Some(Vec::new(alloc)),
        }
    }
}

impl Voice for TerminalInMemory {
    fn say<D: Display + Drop>(&mut self, text: D)
        ensures kept { HearsOne (heard self.old.texts) (D.output text) (heard self.new.texts) }
        ensures lost { self.old.texts ≡ None → self.new.texts ≡ None }
        ensures seen { self.new.is_terminal ≡ self.old.is_terminal }
    {
        let is_kept = match (&mut self.texts, format!(in self.alloc; "{text}")) {
            (Some(texts), Ok(text)) => texts.push(text).is_ok(),
            _ => false,
        };
        if !is_kept {
            self.texts = None;
        }
    }
}

impl Terminal for TerminalInMemory {
    ghost is_seen = { λ terminal. Some terminal.is_terminal };

    fn is_terminal(&self) -> bool
        ensures { result ≡ self.now.is_terminal }
    {
        self.is_terminal
    }
}

/// Rolls in memory, by their paths.
#[derive(Drop)]
pub struct RollsInMemory<'a> {
    /// Their bytes.
    pub rolls: BTreeMap<String, &'a [u8]>,
}

impl<'a> Rolls for RollsInMemory<'a> {
    type Roll = &'a [u8];

    ghost roll_at = { λ all path. option_map (λ bytes. bytes.now) (get_by_text all.rolls path) };

    fn open_roll(&self, path: &str) -> io::Result<&'a [u8]> {
        match self.rolls.get(path) {
            Some(bytes) => Ok(*bytes),
            None => Err(io::Error::from(ErrorKind::NotFound)),
        }
    }
}
