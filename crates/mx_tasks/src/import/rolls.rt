//! Where rolls are.
ghost use Rattle.std.specs.Prelude.{◌≡◌, ℕ, List, Option, None, Some, IfOk, IfSome};

use std::fs::File;
use std::io::Read;
use std::{fs, io};

/// Where rolls are: the files of the system, or bytes in memory.
pub trait Rolls {
    /// What reads a roll.
    type Roll: Read + Drop;

    /// The bytes of the roll at a path, where they are known.
    ghost roll_at: { Self → List ℕ → Option (List ℕ) } = { λ _ _. None };

    /// Opens the roll at a path.
    fn open_roll(&self, path: &str) -> io::Result<Self::Roll>
        ensures { IfSome (roll_at self.now path.now)
            (λ has. IfOk result (λ roll. Self.Roll.remaining roll ≡ Some has)) };
}

/// Files of the system.
impl Rolls for HostRuntime {
    type Roll = File;

    fn open_roll(&self, path: &str) -> io::Result<File> {
        fs::open(self, path)
    }
}
