//! Reading `names.csv`.

use crate::fault::{NamesFault, NamesFlaw};
use crate::names::StaffNames;
use csv::{ByteRecord, StringRecord};
use duty_calendar::{Memory, Name};
use field_text::{Records, as_text};
use std::alloc::Global;

/// The most bytes of a text.
const LONGEST: usize = 67_108_864;

/// The most bytes of a name that is shown.
const WIDEST: usize = 60;

/// Want of memory, as a fault of a row.
fn no_memory(_want: Memory) -> NamesFlaw {
    NamesFlaw::NoMemory
}

/// A field of a row of two.
fn field(row: &StringRecord, place: usize) -> Result<&str, NamesFlaw> {
    match row.get(place) {
        Some(text) if row.len() == 2 => Ok(text.trim()),
        _ => Err(NamesFlaw::Shape),
    }
}

/// The text of a row.
fn text_of(row: ByteRecord) -> Result<StringRecord, NamesFlaw> {
    match as_text(row) {
        Ok(text) => Ok(text),
        Err(_) => Err(NamesFlaw::Shape),
    }
}

/// Whether a row is the first one that is due.
fn check_header(row: ByteRecord) -> Result<(), NamesFlaw> {
    let row = text_of(row)?;
    if field(&row, 0)? == "staff" && field(&row, 1)? == "member" {
        return Ok(());
    }
    Err(NamesFlaw::Header)
}

/// Adds the name of a row.
fn take_row(alloc: Global, names: &mut StaffNames, row: ByteRecord) -> Result<(), NamesFlaw> {
    let row = text_of(row)?;
    let shown = field(&row, 0)?;
    let Some(member) = Name::new(field(&row, 1)?.as_bytes()) else {
        return Err(NamesFlaw::Member);
    };
    if shown.is_empty() || shown.len() > WIDEST {
        return Err(NamesFlaw::Shown);
    }
    if names.shown(member.bytes()).is_some() {
        return Err(NamesFlaw::Twice);
    }
    match String::from_str(alloc, shown) {
        Ok(shown) => names.add(member, shown).map_err(no_memory),
        Err(_) => Err(NamesFlaw::NoMemory),
    }
}

/// A flaw of a row.
fn at_row(row: u32, flaw: NamesFlaw) -> NamesFault {
    if flaw == NamesFlaw::NoMemory {
        return NamesFault { row: 0, flaw };
    }
    NamesFault { row, flaw }
}

/// The next row.
fn next_row(alloc: Global, records: &mut Records<'_>) -> Result<Option<ByteRecord>, NamesFault> {
    match records.read(alloc) {
        Ok(row) => Ok(row),
        Err(_) => Err(at_row(0, NamesFlaw::NoMemory)),
    }
}

/// Takes a row by number, from 1.
fn take(
    alloc: Global,
    names: &mut StaffNames,
    number: u32,
    row: ByteRecord,
) -> Result<(), NamesFault> {
    let taken = if number == 1 {
        check_header(row)
    } else {
        take_row(alloc, names, row)
    };
    match taken {
        Ok(()) => Ok(()),
        Err(flaw) => Err(at_row(number, flaw)),
    }
}

/// The names of a text: a header `staff,member`, and a row for each name: how it is shown, in any letters, and behind it the
/// member. A longer text than the files of a month may be has none.
pub fn read_names(alloc: Global, text: &[u8]) -> Result<StaffNames, NamesFault> {
    let mut names = StaffNames::new(alloc);
    if text.len() > LONGEST {
        return Err(at_row(1, NamesFlaw::Shape));
    }
    let mut records = Records::new(alloc, text);
    for number in 1..u32::MAX {
        match next_row(alloc, &mut records)? {
            Some(row) => take(alloc, &mut names, number, row)?,
            None => return Ok(names),
        }
    }
    Ok(names)
}
