//! Writing files, one after the other.
ghost use Rattle.std.specs.Prelude.{◌≡◌, ◌≤◌, IfErr, OnOk, length};
ghost use Rattle.month_files.specs.FileNames.{name_of};
ghost use Rattle.shelf.specs.Files.{SameButAt, with_file};
ghost use Rattle.month_files.specs.Writes.{written, Leaves, IsStop, WritesCause, FileCause};

use crate::file::File;
use duty_calendar::List;
use shelf::{Shelf, ShelfFault};
use std::alloc::Global;

/// A file and the bytes that it is to hold.
#[derive(Drop, Debug)]
pub struct Draft {
    pub file: File,
    pub bytes: List<u8>,
}

/// Why a write did not end well.
#[derive(Clone, Copy, Debug, PartialEq, Eq)]
pub enum WriteStop {
    /// The write failed.
    Fault,
    /// No memory was left.
    NoMemory,
}

/// The first write that did not end well.
#[derive(Clone, Copy, Debug, PartialEq, Eq)]
pub struct Unwritten {
    /// How many files were written before.
    pub before: usize,
    pub file: File,
    pub why: WriteStop,
}

/// Gives a file its bytes.
fn write_draft<S: Shelf>(alloc: Global, shelf: &mut S, draft: &Draft) -> Result<(), WriteStop>
    ensures cause { FileCause (name_of draft.now.file) (S.tally shelf.old) (S.tally shelf.new)
        result }
    ensures whole { OnOk result (S.holds shelf.new
        ≡ with_file (S.holds shelf.old) (name_of draft.now.file) draft.now.bytes) }
    ensures others { SameButAt (name_of draft.now.file) (S.holds shelf.old) (S.holds shelf.new) }
    ensures unlogged { S.log shelf.new ≡ S.log shelf.old }
{
    match shelf.write(alloc, draft.file.name(), draft.bytes.as_slice()) {
        Ok(()) => Ok(()),
        Err(ShelfFault::WriteFailed) => Err(WriteStop::Fault),
        Err(ShelfFault::NoMemory) => Err(WriteStop::NoMemory),
        Err(ShelfFault::ReadFailed) => unreachable!(),
        Err(ShelfFault::Missing) => unreachable!(),
        Err(ShelfFault::TooLong) => unreachable!(),
    }
}

/// Gives files their bytes in order, up to the first whose write does not end well.
pub fn write_all<S: Shelf>(alloc: Global, shelf: &mut S, drafts: &[Draft]) -> Result<(), Unwritten>
    ensures cause { WritesCause (S.tally shelf.old) (S.tally shelf.new) result }
    ensures left { Leaves (S.holds shelf.old) (S.holds shelf.new) (written drafts.now result) }
    ensures stop { IfErr result (IsStop drafts.now) }
    ensures unlogged { S.log shelf.new ≡ S.log shelf.old }
{
    for (before, draft) in drafts.iter().enumerate() {
        if let Err(why) = write_draft(alloc, shelf, draft) {
            return Err(Unwritten {
                before,
                file: draft.file,
                why,
            });
        }
    }
    Ok(())
}
