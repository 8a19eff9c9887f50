//! The rows of a sheet.

use csv::{ByteRecord, ReaderBuilder};
use duty_calendar::Memory;
use std::alloc::Global;

/// The first line of a text.
fn first_line(text: &[u8]) -> &[u8] {
    let end = text.iter().position(|byte| *byte == b'\n');
    text.get(..end.unwrap_or(text.len())).unwrap_or(text)
}

/// What stands between the fields of a text: commas, but semicolons or tabs where its first line has
/// these and no commas.
pub fn separator_of(text: &[u8]) -> u8 {
    let line = first_line(text);
    if line.contains(&b',') {
        return b',';
    }
    if line.contains(&b';') {
        return b';';
    }
    if line.contains(&b'\t') {
        return b'\t';
    }
    b','
}

/// The rows of a text, the head among them.
pub fn rows_of(alloc: Global, text: &[u8], separator: u8) -> Result<Vec<ByteRecord>, Memory> {
    let mut rows = Vec::new(alloc);
    let mut reader = ReaderBuilder::new()
        .has_headers(false)
        .flexible(true)
        .delimiter(separator)
        .from_reader(alloc, text);
    for _ in 0..text.len() {
        let mut row = ByteRecord::new(alloc);
        match reader.read_byte_record(&mut row) {
            Ok(true) => rows.push(row)?,
            Ok(false) => return Ok(rows),
            Err(_) => return Err(Memory::NoMemory),
        }
    }
    Ok(rows)
}

/// A field of a row without the blanks around it; nothing where the row has none there.
pub fn cell(row: &ByteRecord, place: usize) -> &[u8] {
    match row.get(place) {
        Some(field) => field.trim_ascii(),
        None => b"",
    }
}

/// Whether a field has blanks around it.
fn is_padded(field: &[u8]) -> bool {
    field.trim_ascii().len() != field.len()
}

/// Whether a field of a row has blanks around it.
fn has_padding(row: &ByteRecord) -> bool {
    row.iter().any(is_padded)
}

/// Whether a field of the rows has blanks around it.
pub fn have_padding(rows: &[ByteRecord]) -> bool {
    rows.iter().any(has_padding)
}

/// Whether a row has a capital letter.
pub fn has_capitals(row: &ByteRecord) -> bool {
    row.as_slice().iter().any(|byte| byte.is_ascii_uppercase())
}

/// Whether a byte can stand in a field of a file only between quotes.
fn is_quoted(byte: u8) -> bool {
    matches!(byte, b',' | b'"' | b'\n' | b'\r')
}

/// Whether a field of a row can stand in a file only between quotes.
fn has_quoted(row: &ByteRecord) -> bool {
    row.as_slice().iter().any(|byte| is_quoted(*byte))
}

/// The place of the first row of which a field can stand in a file only between quotes.
pub fn quoted_place(rows: &[ByteRecord]) -> Option<usize> {
    rows.iter().position(has_quoted)
}
