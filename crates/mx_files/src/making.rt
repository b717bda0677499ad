//! New books that are made.
ghost use Rattle.std.specs.Prelude.{◌≡◌, string_bytes};
ghost use Rattle.mx_files.specs.Folders.{init_of, log_of};

use crate::folder::Held;
use crate::places::Replaces;

/// New books that are made.
#[derive(Drop)]
pub struct Making {
    /// The path at which they are to be.
    pub place: String,
    /// What may be there.
    pub replaces: Replaces,
    /// The path at which they are made.
    pub made: String,
    /// The path of their log.
    pub log: String,
    /// The number of the file in which they are made.
    pub number: u64,
    /// That file, which this process holds.
    pub held: Held,
    ghost made_beside: { string_bytes made ≡ init_of (string_bytes place) },
    ghost log_beside: { string_bytes log ≡ log_of (string_bytes made) },
}
