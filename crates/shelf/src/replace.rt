//! Files that are written whole or not at all.

use crate::streams::write_rest;
use std::alloc::{AllocError, Global};
use std::fs::{Files, OpenFile, OpenOptions, Permissions};
use std::io::{ErrorKind, Write};
use std::{fs, io};

// How many names beside a file are tried.
const NAMES: u32 = 100;

// How a file was not written.
#[derive(Clone, Copy, PartialEq, Eq)]
pub enum Unplaced {
    Failed,
    NoMemory,
}

impl From<AllocError> for Unplaced {
    fn from(_: AllocError) -> Self {
        Unplaced::NoMemory
    }
}

impl From<io::Error> for Unplaced {
    fn from(_: io::Error) -> Self {
        Unplaced::Failed
    }
}

// A file that was not there before, open, and where it lies.
#[derive(Drop)]
struct Fresh<F> {
    path: String,
    file: F,
}

// A name beside the path: `.new` behind it, and from the second on a number.
fn beside(alloc: Global, path: &str, count: u32) -> Result<String, AllocError> {
    if count == 0 {
        return format!(in alloc; "{}.new", path);
    }
    format!(in alloc; "{}.new{}", path, count)
}

// An empty file under the first name beside the path under which nothing lies.
fn create_beside<R: Files>(
    alloc: Global,
    files: &R,
    path: &str,
) -> Result<Fresh<R::File>, Unplaced> {
    for count in 0..NAMES {
        let path = beside(alloc, path, count)?;
        let made = OpenOptions::new()
            .write(true)
            .create_new(true)
            .open(files, path.as_str());
        match made {
            Ok(file) => return Ok(Fresh { path, file }),
            Err(error) if error.kind() == ErrorKind::AlreadyExists => {}
            Err(_) => return Err(Unplaced::Failed),
        }
    }
    Err(Unplaced::Failed)
}

// Gives an empty file these bytes. They lie on the disk where this answers `Ok`.
fn fill<F: Write + OpenFile + Drop>(
    mut file: F,
    permissions: Option<Permissions>,
    bytes: &[u8],
) -> io::Result<()> {
    if let Some(permissions) = permissions {
        file.set_permissions(permissions)?;
    }
    write_rest(&mut file, bytes)?;
    file.sync_all()
}

// Writes the bytes beside the path and puts them in the place of the plain file or the link that lies there, if one
// does. Where that fails, all files are as before.
fn replace<R: Files>(
    alloc: Global,
    files: &R,
    path: &str,
    permissions: Option<Permissions>,
    bytes: &[u8],
) -> Result<(), Unplaced> {
    let fresh = create_beside(alloc, files, path)?;
    let placed = match fill(fresh.file, permissions, bytes) {
        Ok(()) => fs::rename(files, fresh.path.as_str(), path),
        Err(error) => Err(error),
    };
    match placed {
        Ok(()) => Ok(()),
        Err(_) => {
            let _ = fs::remove_file(files, fresh.path.as_str());
            Err(Unplaced::Failed)
        }
    }
}

// Makes a plain file of these bytes under the path. A link gives way, and what it led to is as before. A plain file that
// may not be written stays, and so does what is neither.
pub fn place<R: Files>(alloc: Global, files: &R, path: &str, bytes: &[u8]) -> Result<(), Unplaced> {
    match fs::symlink_metadata(files, path) {
        Ok(found) if found.is_file() => {
            let _writable = OpenOptions::new().write(true).open(files, path)?;
            replace(alloc, files, path, Some(found.permissions()), bytes)
        }
        Ok(found) if found.is_symlink() => replace(alloc, files, path, None, bytes),
        Err(error) if error.kind() == ErrorKind::NotFound => {
            replace(alloc, files, path, None, bytes)
        }
        _ => Err(Unplaced::Failed),
    }
}
