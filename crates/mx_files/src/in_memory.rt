//! A file system in memory.
ghost use Rattle.mx_files.specs.InMemory.{inode_of, paths_of};
ghost use Rattle.mx_files.specs.Folders.{entry_of, vacant};
ghost use Rattle.std.specs.Prelude.{◌≡◌, ℕ, List};

use crate::folder::{DatabaseFolder, Entry, FileKind, Folder, Held};
use crate::places::MAGIC;
use crate::stored_file::StoredFile;
use mx_tasks::Cause;
use std::alloc::Global;
use std::collections::BTreeMap;
use std::io;
use std::io::ErrorKind;

/// A file system in memory without links, in which nothing is opened: books that are made have no bytes.
#[derive(Drop)]
pub struct FolderInMemory {
    /// The files by their paths.
    pub files: BTreeMap<String, StoredFile>,
    alloc: Global,
    made: u64,
}

impl FolderInMemory {
    /// One without files.
    pub fn new(alloc: Global) -> FolderInMemory
        ensures { (path : List ℕ) → (paths_of result.files).spot path ≡ vacant }
    {
        FolderInMemory {
            files: BTreeMap::new(alloc),
            alloc,
            made: 0,
        }
    }
}

/// What a look at a file tells.
fn entry_of(file: &StoredFile) -> Entry
    ensures { result ≡ entry_of (inode_of file.now) }
{
    Entry {
        kind: file.kind,
        length: file.bytes.len() as u64,
        number: file.number,
        names: 1,
    }
}

impl Folder for FolderInMemory {
    ghost paths = { λ folder. paths_of folder.files };

    fn entry_at(&self, path: &str) -> io::Result<Option<Entry>> {
        match self.files.get(path) {
            Some(file) => Ok(Some(entry_of(file))),
            None => Ok(None),
        }
    }

    fn entry_behind(&self, path: &str) -> io::Result<Option<Entry>> {
        self.entry_at(path)
    }

    fn path_behind(&self, alloc: Global, path: &str) -> io::Result<String> {
        match self.files.get(path) {
            Some(_) => Ok(String::from_str(alloc, path)?),
            None => Err(io::Error::from(ErrorKind::NotFound)),
        }
    }

    fn head_behind(&self, alloc: Global, path: &str, most: u64) -> io::Result<Vec<u8>> {
        match self.files.get(path) {
            Some(file) => {
                let count = file.bytes.len().min(most as usize);
                Ok(Vec::from_slice(alloc, &file.bytes[..count])?)
            }
            None => Ok(Vec::new(alloc)),
        }
    }

    fn try_writing(&self, path: &str) -> io::Result<()> {
        match self.files.get(path) {
            Some(_) => Ok(()),
            None => Err(io::Error::from(ErrorKind::NotFound)),
        }
    }

    fn hold(&self, path: &str) -> io::Result<Held> {
        match self.files.get(path) {
            Some(file) => Ok(Held::alone(file.number)),
            None => Err(io::Error::from(ErrorKind::NotFound)),
        }
    }

    #[tactic(auto, using(std::proofs::lemmas::Map::Text::text_keys))]
    fn make_file(&mut self, path: &str, mode: u32) -> io::Result<Held> {
        if self.files.contains_key(path) {
            return Err(io::Error::from(ErrorKind::AlreadyExists));
        }
        let number = self.made;
        let file = StoredFile {
            kind: FileKind::Regular,
            bytes: &[],
            number,
            mode,
            is_synced: false,
        };
        self.files
            .insert(String::from_str(self.alloc, path)?, file)?;
        self.made = number.wrapping_add(1);
        Ok(Held::alone(number))
    }

    #[tactic(auto, using(std::proofs::lemmas::Map::Text::text_keys))]
    fn rename(&mut self, from: &str, to: &str) -> io::Result<()> {
        let Some(file) = self.files.get(from).copied() else {
            return Err(io::Error::from(ErrorKind::NotFound));
        };
        let renamed = StoredFile {
            is_synced: false,
            ..file
        };
        self.files
            .insert(String::from_str(self.alloc, to)?, renamed)?;
        if from != to {
            self.files.remove(from);
        }
        Ok(())
    }

    #[tactic(auto, using(std::proofs::lemmas::Map::Text::text_keys))]
    fn rename_new(&mut self, from: &str, to: &str) -> io::Result<()> {
        if self.files.contains_key(to) {
            return Err(io::Error::from(ErrorKind::AlreadyExists));
        }
        self.rename(from, to)
    }

    #[tactic(auto, using(std::proofs::lemmas::Map::Text::text_keys))]
    fn remove(&mut self, path: &str) -> io::Result<()> {
        match self.files.remove(path) {
            Some(_) => Ok(()),
            None => Err(io::Error::from(ErrorKind::NotFound)),
        }
    }

    #[tactic(auto, using(std::proofs::lemmas::Map::Text::text_keys))]
    fn sync_name(&mut self, path: &str) -> io::Result<()> {
        match self.files.get_mut(path) {
            Some(file) => {
                file.is_synced = true;
                Ok(())
            }
            None => Err(io::Error::from(ErrorKind::NotFound)),
        }
    }
}

impl DatabaseFolder for FolderInMemory {
    fn try_database(&self, path: &str) -> Result<(), Cause> {
        match self.files.get(path) {
            Some(file) if !file.bytes.is_empty() && !file.bytes.starts_with(MAGIC) => {
                Err(Cause::NotADatabase)
            }
            _ => Ok(()),
        }
    }
}
