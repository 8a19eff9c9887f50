//! Calendars in folders: those that stand there, and those that are made of a roster.
ghost use Rattle.std.specs.Prelude.{◌≡◌};

use crate::sheet::{Pilot, sheet_of};
use duty_calendar::{List, Member, Memory};
use roster_model::{Line, Problem, Roster};
use shelf::{Shelf, ShelfFault};
use std::alloc::{AllocError, Global};
use std::str::from_utf8;

/// The most bytes of a calendar that is read.
const LONGEST: u64 = 67_108_864;

/// The file of a pilot's calendar.
pub fn file_of(alloc: Global, name: &[u8]) -> Result<String, AllocError> {
    let mut file = String::new(alloc);
    if let Ok(name) = from_utf8(name) {
        file.push_str(name)?;
    }
    file.push_str(".ics")?;
    Ok(file)
}

/// The bytes of a file, where it is there.
pub fn read_text<S: Shelf>(
    alloc: Global,
    shelf: &mut S,
    file: &str,
) -> Result<Option<List<u8>>, ShelfFault>
    ensures kept { S.holds shelf.new ≡ S.holds shelf.old }
{
    if file.is_empty() || file.len() > 32 {
        return Ok(None);
    }
    match shelf.read(alloc, file, LONGEST) {
        Ok(bytes) => Ok(Some(List::from_vec(bytes))),
        Err(ShelfFault::Missing) => Ok(None),
        Err(fault) => Err(fault),
    }
}

/// The calendar of a member with a line, as it is where there was none before.
fn first_text(
    alloc: Global,
    problem: &Problem,
    member: &Member,
    line: &Line,
) -> Result<List<u8>, Memory> {
    let pilot = Pilot {
        shown: member.name.bytes(),
        standing: b"",
        earlier: b"",
    };
    Ok(sheet_of(alloc, problem, member, line, &pilot)?.bytes)
}

/// The calendar that the roster of an earlier month gives the member of a name, as it is where there was none before; empty
/// where there is no such member.
pub fn roster_text(
    alloc: Global,
    problem: &Problem,
    roster: &Roster,
    name: &[u8],
) -> Result<List<u8>, Memory> {
    for (place, member) in problem.base.members.as_slice().iter().enumerate() {
        if member.name.bytes() == name {
            if let Some(line) = roster.as_slice().get(place) {
                return first_text(alloc, problem, member, line);
            }
        }
    }
    Ok(List::new(alloc))
}

/// The calendar of the member of a name in a folder of calendars or else in another, where one of them has it.
pub fn folder_text<S: Shelf>(
    alloc: Global,
    calendars: &mut S,
    folder: &mut S,
    name: &[u8],
) -> Result<Option<List<u8>>, ShelfFault>
    ensures kept { S.holds calendars.new ≡ S.holds calendars.old }
    ensures folder_kept { S.holds folder.new ≡ S.holds folder.old }
{
    let Ok(file) = file_of(alloc, name) else {
        return Err(ShelfFault::NoMemory);
    };
    match read_text(alloc, calendars, file.as_str()) {
        Ok(None) => read_text(alloc, folder, file.as_str()),
        Ok(Some(text)) => Ok(Some(text)),
        Err(fault) => Err(fault),
    }
}
