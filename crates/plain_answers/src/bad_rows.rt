//! Faults of the files of rows, in words.

use crate::bad::put_field;
use duty_calendar::Memory;
use field_text::{FieldFault, FileCode, FileFault, FileName};
use file_places::{Place, Prose, cell_place, row_place, shape_place};
use std::alloc::Global;

/// The header of a file.
fn header_of(file: FileName) -> &'static [u8] {
    match file {
        FileName::Pairings => b"pairing,need,credit",
        FileName::Duties => b"pairing,no,report,parked,release,layover",
        FileName::Legs => b"pairing,no,from,to,out,in",
        FileName::Crew => b"member,low,high",
        FileName::History | FileName::Fixed => b"member,kind,report,parked,release,legs,credit",
    }
}

/// What the first field of the rows of a file names.
fn first_named(file: FileName) -> &'static [u8] {
    match file {
        FileName::Pairings | FileName::Duties | FileName::Legs => b"pairing",
        FileName::Crew | FileName::History | FileName::Fixed => b"pilot",
    }
}

/// Appends that a name of nothing stands in a row.
fn put_unknown(prose: &mut Prose, file: FileName, word: &[u8]) -> Result<(), Memory> {
    match file {
        FileName::Legs => {
            prose.say(b"duties.csv has no duty of this pairing and number: ")?;
            prose.text(word)
        }
        _ => {
            prose.say(b"there is no ")?;
            prose.say(first_named(file))?;
            prose.say(b" ")?;
            prose.text(word)
        }
    }
}

/// What the rows of a file must keep.
fn order_of(file: FileName) -> &'static [u8] {
    match file {
        FileName::Pairings => b"the rows are out of order",
        FileName::Duties => {
            b"the duty is out of order: no counts 1, 2, 3 in each pairing; report comes before parked or with it, parked before release or with it, and report before release; and no duty reports before the one above it is released"
        }
        FileName::Legs => {
            b"the leg is out of order: out comes before in; both lie from the duty's report to its parked; and no leg goes out before the one above it is in"
        }
        FileName::Crew => b"low is above high",
        FileName::History | FileName::Fixed => {
            b"the times are out of order: report, parked, release follow one another; legs lie between report and parked; leave and ground have no legs, and are parked when they are released; and no row reports before the pilot's row above it (history comes before fixed) is released"
        }
    }
}

/// What lies outside the month.
fn outside_of(file: FileName) -> &'static [u8] {
    match file {
        FileName::History => b"a row of history reports before the month, and this one does not",
        FileName::Fixed => b"a fixed row reports in the month, and this one does not",
        _ => b"a pairing's first duty reports in the month, and this one does not",
    }
}

/// What may not be more.
fn limit_of(limit: u32) -> &'static [u8] {
    match limit {
        1 => b"there are more than 200 pilots",
        2 => b"there are more than 600 pairings",
        3 => b"the pairing has more than 12 duties",
        4 => b"there are more than 8 legs",
        5 => b"a pairing needs 1 to 9 pilots",
        6 => b"the credit is above 200:00",
        7 => b"the pilot has more than 500 rows of history",
        8 => b"the pilot has more than 60 fixed rows",
        _ => b"there is too much of it",
    }
}

/// What has no parts.
fn empty_of(file: FileName) -> &'static [u8] {
    match file {
        FileName::Pairings => b"the pairing has no duty in duties.csv",
        FileName::Duties => b"the duty has no leg in legs.csv",
        _ => b"there is no pilot",
    }
}

/// Appends the fault of a header.
fn put_header(prose: &mut Prose, file: FileName) -> Result<(), Memory> {
    prose.say(b"the first row must be the header of the file, letter by letter: ")?;
    prose.say(header_of(file))
}

/// Appends the fault of a number of fields.
fn put_width(prose: &mut Prose, file: FileName) -> Result<(), Memory> {
    prose.say(b"the row has another number of fields than the header: ")?;
    prose.say(header_of(file))
}

/// Appends that a name stood before.
fn put_duplicate(prose: &mut Prose, file: FileName, word: &[u8]) -> Result<(), Memory> {
    prose.say(b"there is another ")?;
    prose.say(first_named(file))?;
    prose.say(b" ")?;
    prose.text(word)?;
    prose.say(b" in a row above")
}

/// Appends what is wrong with a row of a file, in which this word is marked.
pub fn put_row_flaw(prose: &mut Prose, fault: FileFault, word: &[u8]) -> Result<(), Memory> {
    let file = fault.file;
    match fault.code {
        FileCode::NoMemory => prose.say(b"memory ran out"),
        FileCode::Header => put_header(prose, file),
        FileCode::Utf8 => prose.say(
            b"a field is not UTF-8: the file was saved in another character set",
        ),
        FileCode::Width => put_width(prose, file),
        FileCode::Field(column, why) => put_field(prose, file, column, why),
        FileCode::Duplicate => put_duplicate(prose, file, word),
        FileCode::Unknown => put_unknown(prose, file, word),
        FileCode::Order => prose.say(order_of(file)),
        FileCode::OutsideMonth => prose.say(outside_of(file)),
        FileCode::InnerRest => prose.say(
            b"fewer than 10 hours lie between this report and the release of the duty above it",
        ),
        FileCode::Limit(limit) => prose.say(limit_of(limit)),
        FileCode::Empty => prose.say(empty_of(file)),
    }
}

/// The first and the last field that are marked.
#[derive(Clone, Copy)]
struct Fields {
    first: u64,
    last: u64,
}

/// Fields from one to another.
fn marked_fields(first: u64, last: u64) -> Option<Fields> {
    Some(Fields { first, last })
}

/// The fields that may be out of order.
fn order_fields(file: FileName) -> Option<Fields> {
    match file {
        FileName::Pairings => None,
        FileName::Duties => marked_fields(2, 5),
        FileName::Legs => marked_fields(5, 6),
        FileName::Crew => marked_fields(2, 3),
        FileName::History | FileName::Fixed => marked_fields(3, 6),
    }
}

/// The fields that pass a limit.
fn limit_fields(file: FileName, limit: u32) -> Option<Fields> {
    match limit {
        5 => marked_fields(2, 2),
        6 => match file {
            FileName::History | FileName::Fixed => marked_fields(7, 7),
            _ => marked_fields(3, 3),
        },
        _ => None,
    }
}

/// The fields that a fault is about, where it is not the whole row.
fn fields_of(file: FileName, code: FileCode) -> Option<Fields> {
    match code {
        FileCode::Duplicate => marked_fields(1, 1),
        FileCode::Unknown => match file {
            FileName::Legs => marked_fields(1, 2),
            _ => marked_fields(1, 1),
        },
        FileCode::Field(column, _) => marked_fields(u64::from(column), u64::from(column)),
        FileCode::Order => order_fields(file),
        FileCode::OutsideMonth | FileCode::InnerRest => marked_fields(3, 3),
        FileCode::Limit(limit) => limit_fields(file, limit),
        FileCode::Empty => match file {
            FileName::Duties => marked_fields(1, 2),
            FileName::Pairings => marked_fields(1, 1),
            _ => None,
        },
        FileCode::NoMemory | FileCode::Header | FileCode::Utf8 | FileCode::Width => None,
    }
}

/// Where in the text of its file a fault stands, where the text has its row: the field that it is about, or the row.
pub fn row_mark<'a>(
    alloc: Global,
    text: &'a [u8],
    fault: FileFault,
) -> Result<Option<Place<'a>>, Memory> {
    let row = u64::from(fault.row);
    if let FileCode::Field(column, FieldFault::Shape(byte)) = fault.code {
        return shape_place(alloc, text, row, u64::from(column), u64::from(byte));
    }
    match fields_of(fault.file, fault.code) {
        Some(fields) => cell_place(alloc, text, row, fields.first, fields.last),
        None => row_place(alloc, text, row),
    }
}
