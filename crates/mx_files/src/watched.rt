//! A file of which a terminal is told how far its opening is.
ghost use Rattle.std.specs.Prelude.{◌≡◌};
ghost use Rattle.std.specs.Io.KnownBytes.{Appends};
ghost use Rattle.mx_files.specs.Watched.{opening_line};

use mx_tasks::teller::{has_come, in_a_second};
use mx_tasks::voice::Voice;
use sqlite_disk::{Disk, Tally};
use std::io;
use std::io::IsTerminal;
use std::time::Instant;

/// Says how many pages of a database are read.
fn say_read<V: Voice>(voice: &mut V, read: usize, pages: usize)
    ensures { Appends (V.said voice.old) (V.said voice.new) (opening_line read pages) }
{
    voice.say(format_args!("opening: {read} of {pages} pages\n"));
}

/// How far the opening of a database is. It reads each page twice, but one that has nothing once, and one of which the log
/// has a later state never.
#[derive(Drop)]
struct Opening<'a> {
    rt: &'a HostRuntime,
    /// How many pages the database has.
    pages: usize,
    /// How many of its reads are still to come.
    reads_left: usize,
    /// When the next line is due, or None where nothing is told.
    due: Option<Instant>,
}

impl Opening<'_> {
    /// Tells a terminal how many pages are read, once a second has passed, and then once a second.
    fn tell(&mut self) {
        if has_come(self.rt, self.due) {
            let read = self.pages.saturating_sub(self.reads_left / 2);
            let mut voice = self.rt;
            say_read(&mut voice, read, self.pages);
            self.due = in_a_second(self.rt);
        }
    }

    /// A page is read.
    fn count(&mut self) {
        if self.reads_left > 0 {
            self.reads_left -= 1;
            self.tell();
        }
    }
}

/// A file, and how far an opening of the database in it is.
#[derive(Drop)]
pub struct Watched<'a, D: Disk> {
    file: D,
    opening: Opening<'a>,
}

impl<'a, D: Disk> Watched<'a, D> {
    ghost use Rattle.mx_files.specs.Watched.{file_of};

    /// Of a file whose database has so many pages, and whose opening reads it so often.
    pub fn new(rt: &'a HostRuntime, file: D, pages: usize, reads: usize) -> Watched<'a, D>
        ensures { file_of result ≡ file }
    {
        let is_told = reads > 0 && rt.stderr().is_terminal();
        Watched {
            file,
            opening: Opening {
                rt,
                pages,
                reads_left: reads,
                due: if is_told { in_a_second(rt) } else { None },
            },
        }
    }
}

impl<D: Disk> Disk for Watched<'_, D> {
    ghost seen = { λ f. D.Disk.seen f.file };

    ghost may_leave = { λ f. D.Disk.may_leave f.file };

    ghost is_usable = { λ f. D.Disk.is_usable f.file };

    ghost faults = { λ f. D.Disk.faults f.file };

    ghost tally_of = { λ f. D.Disk.tally_of f.file };

    ghost is_clean = { λ f. D.Disk.is_clean f.file };

    ghost key_of = { λ f. D.Disk.key_of f.file };

    ghost is_fair = { λ f. D.Disk.is_fair f.file };

    ghost is_frozen = { λ f. D.Disk.is_frozen f.file };

    ghost is_rotten = { λ f. D.Disk.is_rotten f.file };

    ghost is_mixing = { λ f. D.Disk.is_mixing f.file };

    ghost seen_may_stay = { λ f. D.Disk.seen_may_stay f.file };

    ghost fair_if_clean = { λ f. D.Disk.fair_if_clean f.file };

    fn mixes(&self) -> bool {
        self.file.mixes()
    }

    fn key(&self) -> u64 {
        self.file.key()
    }

    fn tally(&self) -> Tally {
        self.file.tally()
    }

    fn may_be_used(&self) -> bool {
        self.file.may_be_used()
    }

    fn len(&mut self) -> io::Result<usize> {
        self.file.len()
    }

    fn read_at(&mut self, at: usize, buf: &mut [u8]) -> io::Result<()> {
        self.opening.count();
        self.file.read_at(at, buf)
    }

    fn read_checked(&mut self, key: u64, want: u64, at: usize, buf: &mut [u8]) -> io::Result<()> {
        self.opening.count();
        self.file.read_checked(key, want, at, buf)
    }

    fn write_at(&mut self, at: usize, bytes: &[u8]) -> io::Result<()> {
        self.file.write_at(at, bytes)
    }

    fn set_len(&mut self, len: usize) -> io::Result<()> {
        self.file.set_len(len)
    }

    fn sync(&mut self) -> io::Result<()> {
        self.file.sync()
    }
}
