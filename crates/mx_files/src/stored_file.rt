//! A file in memory.
use crate::folder::FileKind;

/// A file in memory, whose bytes don't change.
#[derive(Clone, Copy, Debug)]
pub struct StoredFile {
    /// Its kind.
    pub kind: FileKind,
    /// Its bytes.
    pub bytes: &'static [u8],
    /// Its number.
    pub number: u64,
    /// Its mode.
    pub mode: u32,
    /// Whether its name was synced.
    pub is_synced: bool,
}
