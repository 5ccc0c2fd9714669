// Keeps a file: a new one is written beside it and takes its name, so that a run that ends early leaves the old bytes or the new.
use crate::identity::{FileId, id_of};
use std::alloc::Global;
use std::fs::{Metadata, OpenFile, OpenOptions};
use std::io::{ErrorKind, Write};
use std::os::unix::fs::{MetadataExt, OpenOptionsExt};
use std::rt::Files;
use std::{fs, io};

// How many new files that killed runs left beside one are passed over.
const LEFT_BEHIND: u32 = 10_000;

/// What became of bytes that were to be kept, where the system refused nothing.
pub(crate) enum Kept {
    Written,
    /// Nothing was written: the name is of the file that the standard output goes to.
    Output,
    /// Nothing was written: the file was fetched.
    WasRead,
}

/// Keeps bytes under a name, unless the file of that name was fetched, or is the one that the standard output goes to.
pub(crate) fn keep_file<R: Files>(
    alloc: Global,
    rt: &R,
    fetched: &[FileId],
    name: &str,
    bytes: &[u8],
) -> io::Result<Kept> {
    // asked before any file is opened: a file that is opened while the standard output is closed may get its number
    let output = standard_output(rt);
    match OpenOptions::new().write(true).open(rt, name) {
        Ok(file) => keep_over(alloc, rt, fetched, output, name, file, bytes),
        Err(e) if e.kind() == ErrorKind::NotFound => {
            keep_new(alloc, rt, name, bytes)?;
            Ok(Kept::Written)
        }
        // such a file may be open and yet not be opened by its name: a pipe that another user made
        Err(_) if leads_to(rt, name, output) => Ok(Kept::Output),
        Err(e) => Err(e),
    }
}

// The file that the standard output goes to, unless that is closed.
fn standard_output<R: Files>(rt: &R) -> Option<FileId> {
    let found = fs::metadata(rt, "/dev/stdout").ok()?;
    Some(id_of(&found))
}

// The name leads to this file.
fn leads_to<R: Files>(rt: &R, name: &str, file: Option<FileId>) -> bool {
    match fs::metadata(rt, name) {
        Ok(found) => file == Some(id_of(&found)),
        Err(_) => false,
    }
}

// Keeps bytes over a file that is there. One that isn't a regular file, or has several names, is written itself.
fn keep_over<R: Files>(
    alloc: Global,
    rt: &R,
    fetched: &[FileId],
    output: Option<FileId>,
    name: &str,
    file: R::File,
    bytes: &[u8],
) -> io::Result<Kept> {
    let old = file.metadata()?;
    let id = id_of(&old);
    if old.is_file() && fetched.contains(&id) {
        return Ok(Kept::WasRead);
    }
    if output == Some(id) {
        return Ok(Kept::Output);
    }
    if old.is_file() && old.nlink() == 1 && replace_linked(alloc, rt, name, &old, bytes)? {
        return Ok(Kept::Written);
    }
    write_over(file, &old, bytes)?;
    Ok(Kept::Written)
}

// Keeps bytes under a name that no file has. A link to no file stays one, and its file is made.
fn keep_new<R: Files>(alloc: Global, rt: &R, name: &str, bytes: &[u8]) -> io::Result<()> {
    if fs::symlink_metadata(rt, name).is_err() && replace(alloc, rt, name, None, bytes)? {
        return Ok(());
    }
    fs::write(rt, name, bytes)
}

// Writes bytes into a file that is open, over what it held.
fn write_over<F: Write + OpenFile + Drop>(
    mut file: F,
    old: &Metadata,
    bytes: &[u8],
) -> io::Result<()> {
    if old.is_file() {
        file.set_len(0)?;
    }
    file.write_all(bytes)
}

// Replaces the file that a name stands for, through links, unless its folder refuses it, or it isn't found there or its path finds
// no memory.
fn replace_linked<R: Files>(
    alloc: Global,
    rt: &R,
    name: &str,
    old: &Metadata,
    bytes: &[u8],
) -> io::Result<bool> {
    if !matches!(fs::symlink_metadata(rt, name), Ok(found) if found.is_symlink()) {
        return replace(alloc, rt, name, Some(old), bytes);
    }
    let Ok(path) = rt.canonicalize(alloc, name) else {
        return Ok(false);
    };
    let Some(path) = path.as_path().to_str() else {
        return Ok(false);
    };
    match fs::symlink_metadata(rt, path) {
        Ok(found) if id_of(&found) == id_of(old) => replace(alloc, rt, path, Some(old), bytes),
        _ => Ok(false),
    }
}

// Writes a new file and gives it this name, unless the folder refuses it. After a fault the new file is gone.
fn replace<R: Files>(
    alloc: Global,
    rt: &R,
    path: &str,
    old: Option<&Metadata>,
    bytes: &[u8],
) -> io::Result<bool> {
    let mode = if old.is_some() { 0o600 } else { 0o666 };
    let Some((new, file)) = new_beside(alloc, rt, path, mode)? else {
        return Ok(false);
    };
    let done = fill(rt, file, new.as_str(), path, old, bytes);
    if !matches!(done, Ok(true)) {
        let _gone = fs::remove_file(rt, new.as_str());
    }
    done
}

// A new file of this mode beside one, and its name, unless the folder refuses it or the name finds no memory. After too many that are
// left behind it is an error: the file itself is no place to try.
fn new_beside<R: Files>(
    alloc: Global,
    rt: &R,
    path: &str,
    mode: u32,
) -> io::Result<Option<(String, R::File)>> {
    for number in 0..LEFT_BEHIND {
        let Ok(name) = format!(in alloc; "{path}.new{number}") else {
            return Ok(None);
        };
        let mut how = OpenOptions::new();
        how.write(true).create_new(true).mode(mode);
        match how.open(rt, name.as_str()) {
            Ok(file) => return Ok(Some((name, file))),
            Err(e) if e.kind() == ErrorKind::AlreadyExists => {}
            Err(e) if is_refusal(e.kind()) => return Ok(None),
            Err(e) => return Err(e),
        }
    }
    Err(io::Error::from(ErrorKind::AlreadyExists))
}

// Writes a new file whole before it takes the name of the old one, unless it can't be of the old one's owner, or can't take its name.
fn fill<R: Files>(
    rt: &R,
    mut file: R::File,
    new: &str,
    path: &str,
    old: Option<&Metadata>,
    bytes: &[u8],
) -> io::Result<bool> {
    if let Some(old) = old {
        if !takes_over(&file, old)? {
            return Ok(false);
        }
    }
    file.write_all(bytes)?;
    sync(&file)?;
    drop(file);
    match fs::rename(rt, new, path) {
        Ok(()) => Ok(true),
        Err(e) if is_refusal(e.kind()) => Ok(false),
        Err(e) => Err(e),
    }
}

// Syncs a file, where its system knows how to.
fn sync<F: OpenFile>(file: &F) -> io::Result<()> {
    match file.sync_all() {
        Err(e) if matches!(e.kind(), ErrorKind::InvalidInput | ErrorKind::Unsupported) => Ok(()),
        done => done,
    }
}

// Gives a new file the mode of the old one, unless they are of different owners or groups, or the system refuses it.
fn takes_over<F: OpenFile>(file: &F, old: &Metadata) -> io::Result<bool> {
    let new = file.metadata()?;
    if new.uid() != old.uid() || new.gid() != old.gid() {
        return Ok(false);
    }
    Ok(file.set_permissions(old.permissions()).is_ok())
}

// The folder doesn't take a new file, or not in the old one's place; where it isn't there, or the name is too long, a plain write tells
// that.
fn is_refusal(kind: ErrorKind) -> bool {
    matches!(
        kind,
        ErrorKind::PermissionDenied
            | ErrorKind::ReadOnlyFilesystem
            | ErrorKind::NotFound
            | ErrorKind::InvalidFilename
            | ErrorKind::CrossesDevices
            | ErrorKind::ResourceBusy
            | ErrorKind::Unsupported
    )
}
