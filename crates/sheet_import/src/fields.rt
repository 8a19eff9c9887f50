//! The rows of a sheet as a file has them.

use crate::moments::with_moments;
use crate::rows::cell;
use csv::ByteRecord;
use duty_calendar::{List, Memory};
use field_text::put_bytes;
use file_places::Prose;
use std::alloc::Global;

/// Appends that a field of a row became another one.
fn say_change(
    prose: &mut Prose,
    number: u64,
    word: &[u8],
    given: &[u8],
    made: &[u8],
) -> Result<(), Memory> {
    prose.say(b"row ")?;
    prose.number(number)?;
    prose.say(b", ")?;
    prose.text(word)?;
    prose.say(b": ")?;
    prose.text(given)?;
    prose.say(b" is now ")?;
    prose.text(made)?;
    prose.say(b"\n")
}

/// Appends the field at a place of a row, and says where it is another one.
fn put_field(
    alloc: Global,
    out: &mut List<u8>,
    prose: &mut Prose,
    head: &ByteRecord,
    number: u64,
    row: &ByteRecord,
    place: usize,
) -> Result<(), Memory> {
    let given = cell(row, place);
    let made = with_moments(alloc, given)?;
    if made.as_slice() != given {
        say_change(prose, number, cell(head, place), given, made.as_slice())?;
    }
    put_bytes(out, made.as_slice())
}

/// Appends a row by number, and says each field that is another one.
fn put_row(
    alloc: Global,
    out: &mut List<u8>,
    prose: &mut Prose,
    head: &ByteRecord,
    number: u64,
    row: &ByteRecord,
) -> Result<(), Memory> {
    for place in 0..row.len() {
        if place > 0 {
            put_bytes(out, b",")?;
        }
        put_field(alloc, out, prose, head, number, row, place)?;
    }
    put_bytes(out, b"\n")
}

/// Appends the rows behind a head, and says each field that is another one.
pub fn put_rows(
    alloc: Global,
    out: &mut List<u8>,
    prose: &mut Prose,
    head: &ByteRecord,
    rows: &[ByteRecord],
) -> Result<(), Memory> {
    let mut number: u64 = 1;
    for row in rows {
        number = number.saturating_add(1);
        put_row(alloc, out, prose, head, number, row)?;
    }
    Ok(())
}

/// The words of a head in small letters, with commas between them.
pub fn head_text(alloc: Global, head: &ByteRecord) -> Result<List<u8>, Memory> {
    let mut text = List::new(alloc);
    for place in 0..head.len() {
        if place > 0 {
            put_bytes(&mut text, b",")?;
        }
        put_bytes(
            &mut text,
            cell(head, place).to_ascii_lowercase(alloc)?.as_slice(),
        )?;
    }
    Ok(text)
}
