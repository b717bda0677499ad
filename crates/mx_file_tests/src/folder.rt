//! How the file of new books is made and put in its place, over a file system in memory.
use mx_files::folder::FileKind;
use mx_files::in_memory::FolderInMemory;
use mx_files::init::{begin, end};
use mx_files::places::Replaces;
use mx_files::stored_file::StoredFile;
use mx_tasks::Cause;
use std::alloc::Global;
use std::test::Fail;

/// A file system that has these regular files, by their paths, each for all to read.
fn folder_of(
    alloc: Global,
    files: &[(&'static str, &'static [u8])],
) -> Result<FolderInMemory, Fail> {
    let mut folder = FolderInMemory::new(alloc);
    for (path, bytes) in files {
        let file = StoredFile {
            kind: FileKind::Regular,
            bytes: *bytes,
            number: 1_000,
            mode: 0o644,
            is_synced: true,
        };
        folder.files.insert(String::from_str(alloc, *path)?, file)?;
    }
    Ok(folder)
}

/// An empty `a.db` with an empty log, and what an `init` that was broken off has left.
const BEFORE: [(&str, &[u8]); 5] = [
    ("a.db", b""),
    ("a.db-wal", b"\0\0\0\0"),
    ("a.db-init", b"SQLite format 3\0 and more"),
    ("a.db-init-wal", b""),
    ("b.db", b"other"),
];

#[test]
fn new_books_take_their_place(rt: HostRuntime) -> Result<(), Fail> {
    let mut folder = folder_of(rt.alloc(), &BEFORE)?;
    let making = begin(&mut folder, rt.alloc(), "a.db", Replaces::EmptyFile)?;
    assert_eq!(&rt; making.place.as_str(), "a.db");
    assert_eq!(&rt; end(&mut folder, &making, Ok(7u8))?, 7);
    assert_eq!(&rt; folder.files.len(), 3);
    let Some(file) = folder.files.get("a.db") else {
        return Err(Fail::new("a.db isn't there"));
    };
    assert_eq!(&rt; (file.mode, file.is_synced), (0o600, true));
    Ok(())
}

#[test]
fn books_that_were_not_made_leave_the_file(rt: HostRuntime) -> Result<(), Fail> {
    let mut folder = folder_of(rt.alloc(), &BEFORE)?;
    let making = begin(&mut folder, rt.alloc(), "a.db", Replaces::EmptyFile)?;
    let unmade: Result<u8, Cause> = Err(Cause::DiskFull);
    assert!(&rt; end(&mut folder, &making, unmade).is_err());
    assert_eq!(&rt; folder.files.len(), 3);
    let Some(file) = folder.files.get("a.db") else {
        return Err(Fail::new("a.db isn't there"));
    };
    assert_eq!(&rt; (file.mode, file.number), (0o644, 1_000));
    Ok(())
}

/// What else may stand there, and what is said of it.
const REFUSED: [(&str, &[u8], &str); 5] = [
    ("a.db", b"x", "it is there, and isn't empty"),
    (
        "a.db-wal",
        &[0; 57],
        "the log beside it, which ends in -wal, has changes of other books",
    ),
    (
        "a.db-wal",
        b"text\n",
        "the file beside it that ends in -wal isn't a log of SQLite",
    ),
    (
        "a.db-init",
        b"text\n",
        "the file beside it that ends in -init isn't what an init has left, or can't be removed",
    ),
    (
        "a.db-init-wal",
        b"text\n",
        "the file beside it that ends in -init isn't what an init has left, or can't be removed",
    ),
];

#[test]
fn what_stands_there_is_left_alone(rt: HostRuntime) -> Result<(), Fail> {
    for (path, bytes, words) in REFUSED {
        let mut folder = folder_of(rt.alloc(), &[(path, bytes)])?;
        let Err(cause) = begin(&mut folder, rt.alloc(), "a.db", Replaces::EmptyFile) else {
            return Err(Fail::new("it isn't refused"));
        };
        assert_eq!(&rt; format!(in rt.alloc(); "{cause}")?.as_str(), words);
        assert_eq!(&rt; folder.files.len(), 1);
        assert!(&rt; folder.files.contains_key(path));
    }
    Ok(())
}
