//! A place in a file: its line, and what is marked in it.
ghost use Rattle.std.specs.Prelude.{◌≡◌, ◌≤◌, ◌++◌, length};

use crate::lines::{line_at, line_count, line_end, line_start};
use crate::rows::{Cell, Row, cell_bytes, cells_of, rows_of};
use duty_calendar::Memory;
use std::alloc::Global;

/// How many bytes are shown before what is marked, and behind it.
const SHOWN: usize = 90;

/// A part of a line, with what stands before and behind it.
#[derive(Clone, Copy)]
pub struct Parts<'a> {
    pub before: &'a [u8],
    pub word: &'a [u8],
    pub after: &'a [u8],
}

/// A place in a file: its line, from 1, its column in that line, from 1, and the part of the line that is marked. Of a long
/// line what is near to it is kept.
#[derive(Clone, Copy)]
pub struct Place<'a> {
    pub line: u64,
    pub column: u64,
    pub before: &'a [u8],
    pub word: &'a [u8],
    pub after: &'a [u8],
}

/// A text in three parts: up to a place, from there to another, and the rest.
fn parts_of(text: &[u8], from: usize, to: usize) -> Parts<'_>
    ensures whole { result.before.now ++ (result.word.now ++ result.after.now) ≡ text.now }
    ensures begins { from ≤ length text.now → length result.before.now ≡ from }
{
    let (before, rest) = text.split_at(from.min(text.len()));
    let (word, after) = rest.split_at(to.saturating_sub(from).min(rest.len()));
    Parts {
        before,
        word,
        after,
    }
}

/// The last bytes of a text.
fn tail(text: &[u8]) -> &[u8] {
    text.get(text.len().saturating_sub(SHOWN)..).unwrap_or(text)
}

/// The first bytes of a text, without the carriage return of a line's end.
fn head(text: &[u8]) -> &[u8] {
    let text = text.strip_suffix(b"\r").unwrap_or(text);
    text.get(..SHOWN).unwrap_or(text)
}

/// A place in a line of a text.
fn place_of(line: u64, text: &[u8], from: usize, to: usize) -> Place<'_> {
    let parts = parts_of(text, from, to);
    Place {
        line,
        column: parts.before.len() as u64 + 1,
        before: tail(parts.before),
        word: head(parts.word),
        after: head(parts.after),
    }
}

/// Where the word that begins at a place of a line ends: at a blank, a tab or a carriage return.
fn word_end(text: &[u8], from: usize) -> usize {
    let rest = text.get(from..).unwrap_or(&[]);
    let end = rest
        .iter()
        .position(|byte| matches!(*byte, b' ' | b'\t' | b'\r' | b'#'));
    from.saturating_add(end.unwrap_or(rest.len()))
}

/// The word at a column of a line, both from 1. Column 0 is the whole line.
pub fn line_place(text: &[u8], line: u64, column: u64) -> Place<'_> {
    let shown = line_at(text, line);
    if column == 0 {
        return place_of(line, shown, 0, shown.len());
    }
    let from = (column - 1) as usize;
    place_of(line, shown, from, word_end(shown, from))
}

/// The bytes from a place of a text to another, where they stand in one line; else up to that line's end.
fn span_place(text: &[u8], start: usize, stop: usize) -> Place<'_> {
    let line = line_count(text, start).saturating_add(1);
    let begin = line_start(text, line);
    let shown = text.get(begin..line_end(text, begin)).unwrap_or(&[]);
    place_of(
        line,
        shown,
        start.saturating_sub(begin),
        stop.saturating_sub(begin),
    )
}

/// The row of a number, from 1.
fn find_row(alloc: Global, text: &[u8], number: u64) -> Result<Option<Row>, Memory> {
    let rows = rows_of(alloc, text)?;
    Ok(rows.get(number.saturating_sub(1) as usize).copied())
}

/// What stands in a row of a text.
fn bytes_of(text: &[u8], row: Row) -> &[u8] {
    text.get(row.start..row.stop).unwrap_or(&[])
}

/// The row of this number, from 1, in a file of comma-separated fields.
pub fn row_place(alloc: Global, text: &[u8], number: u64) -> Result<Option<Place<'_>>, Memory> {
    match find_row(alloc, text, number)? {
        Some(row) => Ok(Some(span_place(text, row.start, row.stop))),
        None => Ok(None),
    }
}

/// The field of this column, from 1, in a row.
fn find_cell(alloc: Global, text: &[u8], row: Row, column: u64) -> Result<Option<Cell>, Memory> {
    let cells = cells_of(alloc, bytes_of(text, row))?;
    Ok(cells.get(column.saturating_sub(1) as usize).copied())
}

/// The fields from one column to another in the row of this number, all from 1; the row where it has not these fields.
pub fn cell_place(
    alloc: Global,
    text: &[u8],
    number: u64,
    first: u64,
    last: u64,
) -> Result<Option<Place<'_>>, Memory> {
    let Some(row) = find_row(alloc, text, number)? else {
        return Ok(None);
    };
    let cells = cells_of(alloc, bytes_of(text, row))?;
    let begin = cells.get(first.saturating_sub(1) as usize);
    let end = cells.get(last.saturating_sub(1) as usize);
    let start = begin.map(|cell| cell.start).unwrap_or(0);
    let stop = end
        .map(|cell| cell.stop)
        .unwrap_or(row.stop.saturating_sub(row.start));
    Ok(Some(span_place(
        text,
        row.start.saturating_add(start),
        row.start.saturating_add(stop),
    )))
}

/// How many bytes stand before the first byte of a field's text: its quote, where it has one.
fn quote_length(row: &[u8], cell: Cell) -> usize {
    let whole = cell.stop.saturating_sub(cell.start);
    whole.saturating_sub(cell_bytes(row, cell).len()).min(1)
}

/// A byte of the field of this column in the row of this number, all from 1. The mark reaches to the end of the field.
pub fn shape_place(
    alloc: Global,
    text: &[u8],
    number: u64,
    column: u64,
    byte: u64,
) -> Result<Option<Place<'_>>, Memory> {
    let Some(row) = find_row(alloc, text, number)? else {
        return Ok(None);
    };
    let Some(cell) = find_cell(alloc, text, row, column)? else {
        return Ok(Some(span_place(text, row.start, row.stop)));
    };
    let start = row.start.saturating_add(cell.start);
    let quote = quote_length(bytes_of(text, row), cell);
    let within = quote.saturating_add(byte.saturating_sub(1) as usize);
    let stop = row.start.saturating_add(cell.stop);
    Ok(Some(span_place(text, start.saturating_add(within).min(stop), stop)))
}
