//! The calls of the file system by which the files of books are looked at, made and put in their place.
ghost use Rattle.std.specs.Prelude.{◌≡◌, ◌≢◌, ℕ, List, IfOk, IsErr, IsOk, OnOk, false, true, string_bytes};
ghost use Rattle.mx_files.specs.Folders.{ChangesAt, ChangesAtBoth, ChangesNothing, HoldsDatabase, IsHead, IsMissing, IsTaken, LeadsTo, Makes, Paths, Tells, named, removed, spot_behind, unseen_paths};

use mx_tasks::Cause;
use std::alloc::Global;
use std::fs::{File, Metadata, OpenFile, OpenOptions, Permissions, TryLockError};
use std::io::{ErrorKind, Read};
use std::os::unix::fs::{MetadataExt, OpenOptionsExt, PermissionsExt};
use std::{fs, io};

/// What kind of file stands at a path.
#[derive(Clone, Copy, Debug)]
pub enum FileKind {
    /// A regular file.
    Regular,
    /// A symbolic link.
    Link,
    /// A folder, a device or the like.
    Other,
}

/// A file that stands at a path.
#[derive(Clone, Copy, Debug)]
pub struct Entry {
    /// Its kind.
    pub kind: FileKind,
    /// How many bytes it has.
    pub length: u64,
    /// Its number in the file system.
    pub number: u64,
    /// How many names it has.
    pub names: u64,
}

/// The mark of a file in which new books are made: the sticky bit, which means nothing of a file, and which no other file has.
const MARK: u32 = 0o1000;

/// A file that this process holds: no other gets its lock.
#[derive(Drop)]
pub struct Held {
    /// Its number in the file system.
    pub number: u64,
    file: Option<File>,
}

impl Held {
    /// A file of a file system that has no other process.
    pub fn alone(number: u64) -> Held
        ensures { result.number ≡ number }
    {
        Held { number, file: None }
    }

    /// Whether new books were to be made in the file: it has their mark.
    pub fn is_marked(&self) -> io::Result<bool> {
        match &self.file {
            Some(file) => Ok(file.metadata()?.mode() & MARK != 0),
            None => Ok(true),
        }
    }

    /// Takes the mark from the file. Its owner alone may read and write it.
    pub fn unmark(&self) -> io::Result<()> {
        match &self.file {
            Some(file) => file.set_permissions(Permissions::from_mode(0o600)),
            None => Ok(()),
        }
    }
}

/// The file system, as far as books need it.
pub trait Folder {
    /// What stands at each path, where that is known.
    ghost paths: { Self → Paths } = { λ _. unseen_paths };

    /// The file at a path, or `None` where nothing is there. A link is a file of its own.
    fn entry_at(&self, path: &str) -> io::Result<Option<Entry>>
        ensures { Tells ((paths self.now).spot path.now) result };

    /// The file to which a path leads, or `None` where nothing is there.
    fn entry_behind(&self, path: &str) -> io::Result<Option<Entry>>
        ensures { Tells (spot_behind (paths self.now) path.now) result };

    /// The path, with no link in it, to which a path leads.
    fn path_behind(&self, alloc: Global, path: &str) -> io::Result<String>
        ensures { IfOk result (λ to. LeadsTo (spot_behind (paths self.now) path.now)
            ((paths self.now).target path.now) (string_bytes to)) };

    /// The first bytes of the file to which a path leads, and none where nothing is there.
    fn head_behind(&self, alloc: Global, path: &str, most: u64) -> io::Result<Vec<u8>>
        ensures { IfOk result
            (λ head. IsHead (spot_behind (paths self.now) path.now) most head.items) };

    /// Opens the file to which a path leads, to read and write it.
    fn try_writing(&self, path: &str) -> io::Result<()>;

    /// Holds the file at a path. It fails with `WouldBlock` where another process holds it, or has put another file there.
    fn hold(&self, path: &str) -> io::Result<Held>;

    /// Makes an empty file of this mode where nothing is, also no link, with the mark of new books, and holds it. It fails as
    /// `hold` does where another process has taken it at once.
    fn make_file(&mut self, path: &str, mode: u32) -> io::Result<Held>
        ensures ok { IfOk result (λ held. Makes ((paths self.old).spot path.now)
            ((paths self.new).spot path.now) held.number mode) }
        ensures err { IsErr result → ChangesNothing (paths self.old) (paths self.new) }
        ensures others { ChangesAt path.now (paths self.old) (paths self.new) };

    /// Gives the file at a path another, in place of what is there.
    fn rename(&mut self, from: &str, to: &str) -> io::Result<()>
        ensures ok { OnOk result (IsTaken ((paths self.old).spot from.now)
            × ((paths self.new).spot to.now ≡ named false ((paths self.old).spot from.now))) }
        ensures gone { OnOk result (from.now ≢ to.now
            → (paths self.new).spot from.now ≡ removed ((paths self.old).spot from.now)) }
        ensures err { IsErr result → ChangesNothing (paths self.old) (paths self.new) }
        ensures others { ChangesAtBoth from.now to.now (paths self.old) (paths self.new) };

    /// Gives the file at a path another, where nothing is, also no link.
    fn rename_new(&mut self, from: &str, to: &str) -> io::Result<()>
        ensures ok { OnOk result (IsTaken ((paths self.old).spot from.now)
            × ((paths self.new).spot to.now ≡ named false ((paths self.old).spot from.now))) }
        ensures free { OnOk result (IsMissing ((paths self.old).spot to.now)) }
        ensures gone { OnOk result ((paths self.new).spot from.now
            ≡ removed ((paths self.old).spot from.now)) }
        ensures err { IsErr result → ChangesNothing (paths self.old) (paths self.new) }
        ensures others { ChangesAtBoth from.now to.now (paths self.old) (paths self.new) };

    /// Removes the file at a path.
    fn remove(&mut self, path: &str) -> io::Result<()>
        ensures gone { (paths self.new).spot path.now ≡ removed ((paths self.old).spot path.now) }
        ensures err { IsErr result → ChangesNothing (paths self.old) (paths self.new) }
        ensures others { ChangesAt path.now (paths self.old) (paths self.new) };

    /// Waits until the disk has the name of the file at a path.
    fn sync_name(&mut self, path: &str) -> io::Result<()>
        ensures ok { OnOk result ((paths self.new).spot path.now
            ≡ named true ((paths self.old).spot path.now)) }
        ensures err { IsErr result → ChangesNothing (paths self.old) (paths self.new) }
        ensures others { ChangesAt path.now (paths self.old) (paths self.new) };
}

/// A file system in which databases can be opened.
pub trait DatabaseFolder: Folder {
    /// Opens the file at a path as a database, and closes it.
    fn try_database(&self, path: &str) -> Result<(), Cause>
        ensures { OnOk result (HoldsDatabase ((Self.paths self.now).spot path.now)) };
}

/// What the system tells of a file.
fn told(found: io::Result<Metadata>) -> io::Result<Option<Entry>> {
    match found {
        Ok(found) => Ok(Some(Entry {
            kind: kind_of(&found),
            length: found.len(),
            number: found.ino(),
            names: found.nlink(),
        })),
        Err(error) if error.kind() == ErrorKind::NotFound => Ok(None),
        Err(error) => Err(error),
    }
}

/// The kind of a file.
fn kind_of(found: &Metadata) -> FileKind {
    if found.is_file() {
        FileKind::Regular
    } else if found.is_symlink() {
        FileKind::Link
    } else {
        FileKind::Other
    }
}

/// The first bytes of a file that was opened, and none where it isn't there.
fn head_of<R: Read + Drop>(opened: io::Result<R>, alloc: Global, most: u64) -> io::Result<Vec<u8>> {
    let mut head = Vec::new(alloc);
    match opened {
        Ok(file) => {
            file.take(most).read_to_end(&mut head)?;
            Ok(head)
        }
        Err(error) if error.kind() == ErrorKind::NotFound => Ok(head),
        Err(error) => Err(error),
    }
}

/// The folder that has the file at a path.
pub(crate) fn folder_of(path: &str) -> &str {
    match path.rsplit_once('/') {
        Some(("", _)) => "/",
        Some((folder, _)) => folder,
        None => ".",
    }
}

/// A file that was opened at a path, once this process has its lock and it is still there.
fn locked(rt: &HostRuntime, path: &str, file: File) -> io::Result<Held> {
    match file.try_lock() {
        Ok(()) => {}
        Err(TryLockError::WouldBlock) => return Err(io::Error::from(ErrorKind::WouldBlock)),
        Err(TryLockError::Error(error)) => return Err(error),
    }
    let number = file.metadata()?.ino();
    match told(fs::symlink_metadata(rt, path))? {
        Some(entry) if entry.number == number => Ok(Held {
            number,
            file: Some(file),
        }),
        _ => Err(io::Error::from(ErrorKind::WouldBlock)),
    }
}

/// Ends what an `init` that was stopped once the file had its path has left of it: the other path, FILE-init, and the mark.
pub(crate) fn end_stopped_init(rt: &HostRuntime, path: &str) -> io::Result<()> {
    if fs::metadata(rt, path)?.mode() & MARK == 0 {
        return Ok(());
    }
    let place = fs::canonicalize(rt, path)?.into_string();
    let made = format!(in rt.alloc(); "{}-init", place.as_str())?;
    let held = rt.hold(place.as_str())?;
    match fs::symlink_metadata(rt, made.as_str()) {
        Ok(found) if found.ino() == held.number => fs::remove_file(rt, made.as_str())?,
        _ => {}
    }
    held.unmark()
}

/// Removes what a copy to a path that was stopped has left: a file FILE-init that is marked, and its log. What hasn't the mark of
/// new books stays.
pub(crate) fn end_stopped_copy(rt: &HostRuntime, path: &str) -> Result<(), Cause> {
    let place = match fs::canonicalize(rt, path) {
        Ok(place) => place.into_string(),
        Err(_) => format!(in rt.alloc(); "{path}")?,
    };
    let made = format!(in rt.alloc(); "{}-init", place.as_str())?;
    let log = format!(in rt.alloc(); "{}-wal", made.as_str())?;
    if !fs::symlink_metadata(rt, made.as_str())?.is_file() {
        return Ok(());
    }
    let held = rt.hold(made.as_str())?;
    if held.is_marked()? {
        let _ = fs::remove_file(rt, log.as_str());
        fs::remove_file(rt, made.as_str())?;
    }
    Ok(())
}

/// The file system of the machine.
impl Folder for &HostRuntime {
    fn entry_at(&self, path: &str) -> io::Result<Option<Entry>> {
        told(fs::symlink_metadata(*self, path))
    }

    fn entry_behind(&self, path: &str) -> io::Result<Option<Entry>> {
        told(fs::metadata(*self, path))
    }

    fn path_behind(&self, _alloc: Global, path: &str) -> io::Result<String> {
        Ok(fs::canonicalize(*self, path)?.into_string())
    }

    fn head_behind(&self, alloc: Global, path: &str, most: u64) -> io::Result<Vec<u8>> {
        head_of(fs::open(*self, path), alloc, most)
    }

    fn try_writing(&self, path: &str) -> io::Result<()> {
        let mut options = OpenOptions::new();
        options.read(true).write(true).open(*self, path)?;
        Ok(())
    }

    fn hold(&self, path: &str) -> io::Result<Held> {
        let mut options = OpenOptions::new();
        let file = options.read(true).write(true).open(*self, path)?;
        locked(*self, path, file)
    }

    fn make_file(&mut self, path: &str, mode: u32) -> io::Result<Held> {
        let mut options = OpenOptions::new();
        options.write(true).create_new(true).mode(mode | MARK);
        let file = options.open(*self, path)?;
        locked(*self, path, file)
    }

    fn rename(&mut self, from: &str, to: &str) -> io::Result<()> {
        fs::rename(*self, from, to)
    }

    fn rename_new(&mut self, from: &str, to: &str) -> io::Result<()> {
        fs::hard_link(*self, from, to)?;
        let _ = fs::remove_file(*self, from);
        Ok(())
    }

    fn remove(&mut self, path: &str) -> io::Result<()> {
        fs::remove_file(*self, path)
    }

    fn sync_name(&mut self, path: &str) -> io::Result<()> {
        fs::open(*self, folder_of(path))?.sync_all()
    }
}
