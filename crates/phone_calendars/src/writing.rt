//! Writing calendars.

use crate::sheet::{Pilot, Sheet, sheet_of};
use crate::sources::{file_of, read_text};
use duty_calendar::{List, Member, Memory};
use roster_model::{Line, Problem};
use shelf::{Shelf, ShelfFault};
use std::alloc::Global;

/// What became of a pilot's calendar: whether its file is another one now, and how many of its events are cancelled.
#[derive(Clone, Copy, Debug, PartialEq, Eq)]
pub struct Written {
    pub is_new: bool,
    pub cancelled: u32,
}

/// Want of memory, as a fault of a shelf.
fn no_memory(_want: Memory) -> ShelfFault {
    ShelfFault::NoMemory
}

/// The text of the calendar that stands in a folder; empty where there is none.
fn standing_text<S: Shelf>(
    alloc: Global,
    folder: &mut S,
    file: &str,
) -> Result<List<u8>, ShelfFault> {
    match read_text(alloc, folder, file)? {
        Some(text) => Ok(text),
        None => Ok(List::new(alloc)),
    }
}

/// Writes the file of a calendar, where it is another one than stands there.
fn write_sheet<S: Shelf>(
    alloc: Global,
    folder: &mut S,
    file: &str,
    standing: &[u8],
    sheet: &Sheet,
) -> Result<Written, ShelfFault> {
    let is_new = sheet.bytes.as_slice() != standing;
    if is_new && !file.is_empty() && file.len() <= 32 {
        folder.write(alloc, file, sheet.bytes.as_slice())?;
    }
    Ok(Written {
        is_new,
        cancelled: sheet.cancelled,
    })
}

/// Writes the calendar of a member with a line into a folder, under the member's name. The calendar that stands there and the
/// one of before give its events their numbers; what fell away since the one of before is cancelled.
pub fn write_calendar<S: Shelf>(
    alloc: Global,
    folder: &mut S,
    problem: &Problem,
    member: &Member,
    line: &Line,
    shown: &[u8],
    earlier: &[u8],
) -> Result<Written, ShelfFault> {
    let Ok(file) = file_of(alloc, member.name.bytes()) else {
        return Err(ShelfFault::NoMemory);
    };
    let standing = standing_text(alloc, folder, file.as_str())?;
    let pilot = Pilot {
        shown,
        standing: standing.as_slice(),
        earlier,
    };
    let sheet = sheet_of(alloc, problem, member, line, &pilot).map_err(no_memory)?;
    write_sheet(alloc, folder, file.as_str(), standing.as_slice(), &sheet)
}
