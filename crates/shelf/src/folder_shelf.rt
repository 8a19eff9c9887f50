//! The files of a folder.
ghost use Rattle.std.specs.Prelude.{◌≡◌, ◌≤◌, [], None, IfOk, vec_len};
ghost use Rattle.shelf.specs.Tallies.{no_faults};

use crate::fault::ShelfFault;
use crate::log::Log;
use crate::replace::{Unplaced, place};
use crate::streams::{Unread, read_rest};
use crate::tally::Tally;
use crate::traits::Shelf;
use std::alloc::{AllocError, Global};
use std::fs::Files;
use std::io::ErrorKind;
use std::{fs, io};

/// Reads and writes the files of one folder. It tells nothing of what they hold. A file's new bytes take its place when they
/// lie whole beside it, under its name and `.new`, or that and a number where a file is there: a stop in the middle leaves
/// the old bytes or the new ones. No write follows a link, and none changes what is no plain file and no link to anything.
/// No read waits: what is no plain file, nor a link to one, fails.
#[derive(Drop)]
pub struct FolderShelf<'a, R> {
    files: &'a R,
    folder: String,
    tally: Tally,
    log: Log,
}

impl<'a, R: Files> FolderShelf<'a, R> {
    ghost use Rattle.shelf.specs.FolderShelf.{tally_of, log_of};

    /// Nothing has gone wrong. An empty folder is the one that the program runs in.
    pub fn new(files: &'a R, folder: String) -> Self
        ensures tally { tally_of result ≡ no_faults }
        ensures log { log_of result ≡ [] }
    {
        FolderShelf {
            files,
            folder,
            tally: Tally::new(),
            log: Log::new(),
        }
    }

    // Where the named file lies.
    fn path(&self, alloc: Global, name: &str) -> Result<String, AllocError> {
        if self.folder.is_empty() {
            return String::from_str(alloc, name);
        }
        format!(in alloc; "{}/{}", self.folder, name)
    }

    // The bytes of the named file, if they are at most `limit`.
    fn bytes_of(&self, alloc: Global, name: &str, limit: u64) -> Result<Vec<u8>, Unread>
        ensures limit { IfOk result (λ bytes. vec_len bytes ≤ limit) }
    {
        let path = self.path(alloc, name)?;
        let mut file = open_plain(self.files, path.as_str())?;
        read_rest(alloc, &mut file, limit)
    }

    // Makes the named file one of these bytes.
    fn put(&self, alloc: Global, name: &str, bytes: &[u8]) -> Result<(), Unplaced> {
        let path = self.path(alloc, name)?;
        place(alloc, self.files, path.as_str(), bytes)
    }
}

// Why a file was not opened.
fn unopened(error: &io::Error) -> Unread {
    match error.kind() {
        ErrorKind::NotFound => Unread::Missing,
        _ => Unread::Failed,
    }
}

// Opens a plain file, or a link to one, for reading. To open a FIFO would wait for a writer.
fn open_plain<R: Files>(files: &R, path: &str) -> Result<R::File, Unread> {
    match fs::metadata(files, path) {
        Ok(found) if found.is_file() => {}
        Ok(_) => return Err(Unread::Failed),
        Err(error) => return Err(unopened(&error)),
    }
    match fs::open(files, path) {
        Ok(file) => Ok(file),
        Err(error) => Err(unopened(&error)),
    }
}

impl<R: Files> Shelf for FolderShelf<'_, R> {
    ghost use Rattle.shelf.specs.FolderShelf.{tally_of, log_of};

    ghost holds = { λ _. None };

    ghost tally = { tally_of };

    ghost log = { log_of };

    fn read(&mut self, alloc: Global, name: &str, limit: u64) -> Result<Vec<u8>, ShelfFault> {
        match self.bytes_of(alloc, name, limit) {
            Ok(bytes) => {
                self.log.note(name.as_bytes(), &bytes);
                Ok(bytes)
            }
            Err(Unread::NoMemory) => {
                self.tally.wanted(name);
                Err(ShelfFault::NoMemory)
            }
            Err(Unread::Missing) => {
                self.tally.missed(name);
                Err(ShelfFault::Missing)
            }
            Err(Unread::TooLong) => {
                self.tally.found_long(name);
                Err(ShelfFault::TooLong)
            }
            Err(Unread::Failed) => {
                self.tally.read_failed(name);
                Err(ShelfFault::ReadFailed)
            }
        }
    }

    fn write(&mut self, alloc: Global, name: &str, bytes: &[u8]) -> Result<(), ShelfFault> {
        match self.put(alloc, name, bytes) {
            Ok(()) => Ok(()),
            Err(Unplaced::NoMemory) => {
                self.tally.wanted(name);
                Err(ShelfFault::NoMemory)
            }
            Err(Unplaced::Failed) => {
                self.tally.write_failed(name);
                Err(ShelfFault::WriteFailed)
            }
        }
    }
}
