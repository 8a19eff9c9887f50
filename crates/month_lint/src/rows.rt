//! The rows of a file, by number from 1, the header among them.

use duty_calendar::{Memory, Name};
use file_places::{Row, cell_bytes, cells_of, rows_of};
use itoa::Buffer;
use std::alloc::Global;

/// A field of a row, by column from 0, without its quotes; empty where the row has not so many.
fn field_of(alloc: Global, text: &[u8], row: Row, column: usize) -> Result<&[u8], Memory> {
    let bytes = text.get(row.start..row.stop).unwrap_or(&[]);
    let cells = cells_of(alloc, bytes)?;
    match cells.get(column) {
        Some(cell) => Ok(cell_bytes(bytes, *cell)),
        None => Ok(b""),
    }
}

/// The row of a number.
fn row_of(alloc: Global, text: &[u8], number: u32) -> Result<Option<Row>, Memory> {
    let rows = rows_of(alloc, text)?;
    Ok(rows.get(number.saturating_sub(1) as usize).copied())
}

/// The first field of the row of a number; empty where there is no such row.
pub fn name_in(alloc: Global, text: &[u8], number: u32) -> Result<&[u8], Memory> {
    match row_of(alloc, text, number)? {
        Some(row) => field_of(alloc, text, row, 0),
        None => Ok(b""),
    }
}

/// The line of the row of a number, from 1; 0 where there is no such row.
pub fn row_line(alloc: Global, text: &[u8], number: u32) -> Result<u64, Memory> {
    match row_of(alloc, text, number)? {
        Some(row) => Ok(row.line),
        None => Ok(0),
    }
}

/// Takes the row of a number out: an empty line is no row, and the lines keep their numbers.
pub fn blank_row(alloc: Global, text: &mut Vec<u8>, number: u32) -> Result<(), Memory> {
    if let Some(row) = row_of(alloc, text, number)? {
        for at in row.start..row.stop {
            if let Some(byte) = text.get_mut(at) {
                if *byte != b'\n' {
                    *byte = b'\r';
                }
            }
        }
    }
    Ok(())
}

/// Whether a row has this name first, and this second field where one is asked for.
fn fits(alloc: Global, text: &[u8], row: Row, name: &[u8], second: &[u8]) -> Result<bool, Memory> {
    if field_of(alloc, text, row, 0)? != name {
        return Ok(false);
    }
    if second.is_empty() {
        return Ok(true);
    }
    Ok(field_of(alloc, text, row, 1)? == second)
}

/// The line of a row with this name first, and this second field where it is not empty: of such rows the one with so many
/// before it. It is 0 where there is none.
fn find_line(
    alloc: Global,
    text: &[u8],
    name: &[u8],
    second: &[u8],
    before: u32,
) -> Result<u64, Memory> {
    let mut left = before;
    for row in rows_of(alloc, text)? {
        if fits(alloc, text, row, name, second)? {
            if left == 0 {
                return Ok(row.line);
            }
            left = left.saturating_sub(1);
        }
    }
    Ok(0)
}

/// The line of a row of a name, by number from 0 among the rows of that name.
pub fn named_line(alloc: Global, text: &[u8], name: &Name, number: u32) -> Result<u64, Memory> {
    find_line(alloc, text, name.bytes(), b"", number)
}

/// The line of a leg of a duty of a pairing, by numbers from 0.
pub fn leg_line(
    alloc: Global,
    text: &[u8],
    pairing: &Name,
    duty: u32,
    leg: u32,
) -> Result<u64, Memory> {
    let mut buffer = Buffer::new();
    let number = buffer.format(duty.saturating_add(1)).as_bytes();
    find_line(alloc, text, pairing.bytes(), number, leg)
}
