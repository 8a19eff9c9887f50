//! The rows of a file of comma-separated fields, as the readers count them, with their places.

use duty_calendar::Memory;
use std::alloc::Global;

/// A record: its line, from 1, and its bytes, from the first to behind the last, without its end.
#[derive(Clone, Copy)]
pub struct Row {
    pub line: u64,
    pub start: usize,
    pub stop: usize,
}

/// A field of a row: its bytes in the row, from the first to behind the last, with its quotes.
#[derive(Clone, Copy)]
pub struct Cell {
    pub start: usize,
    pub stop: usize,
}

/// Where a scan stands: between two records, at the beginning of a field, in one without quotes, in one with quotes, or
/// behind a quote in one.
#[derive(Clone, Copy, PartialEq, Eq)]
enum State {
    Outside,
    Ahead,
    Plain,
    Quoted,
    Quote,
}

/// Where a scan stands behind a byte that is not between quotes.
fn step_plain(state: State, byte: u8) -> State {
    match byte {
        b',' => State::Ahead,
        b'\r' | b'\n' => State::Outside,
        b'"' => match state {
            State::Outside | State::Ahead => State::Quoted,
            State::Quote => State::Quoted,
            State::Plain | State::Quoted => State::Plain,
        },
        _ => State::Plain,
    }
}

/// Where a scan stands behind a byte.
fn step(state: State, byte: u8) -> State {
    if state != State::Quoted {
        return step_plain(state, byte);
    }
    if byte == b'"' {
        State::Quote
    } else {
        State::Quoted
    }
}

/// A scan of a text, and the rows so far.
#[derive(Drop)]
struct Scan {
    state: State,
    line: u64,
    open: Row,
    rows: Vec<Row>,
}

impl Scan {
    /// Adds the open row, which ends here.
    fn close(&mut self, stop: usize) -> Result<(), Memory> {
        self.rows.push(Row { stop, ..self.open })?;
        Ok(())
    }

    /// Takes the byte of a place.
    fn take(&mut self, at: usize, byte: u8) -> Result<(), Memory> {
        let next = step(self.state, byte);
        if self.state == State::Outside {
            self.open = Row {
                line: self.line,
                start: at,
                stop: at,
            };
        } else if next == State::Outside {
            self.close(at)?;
        }
        if byte == b'\n' {
            self.line = self.line.saturating_add(1);
        }
        self.state = next;
        Ok(())
    }
}

/// How many bytes a byte order mark at the head of a text has.
fn mark_length(text: &[u8]) -> usize {
    if text.starts_with(&[0xEF, 0xBB, 0xBF]) {
        3
    } else {
        0
    }
}

/// The rows of a text, the header among them.
pub fn rows_of(alloc: Global, text: &[u8]) -> Result<Vec<Row>, Memory> {
    let mut scan = Scan {
        state: State::Outside,
        line: 1,
        open: Row {
            line: 1,
            start: 0,
            stop: 0,
        },
        rows: Vec::new(alloc),
    };
    let front = mark_length(text);
    for (at, byte) in text.iter().enumerate() {
        if at >= front {
            scan.take(at, *byte)?;
        }
    }
    if scan.state != State::Outside {
        scan.close(text.len())?;
    }
    Ok(scan.rows)
}

/// The fields of a row.
pub fn cells_of(alloc: Global, row: &[u8]) -> Result<Vec<Cell>, Memory> {
    let mut cells = Vec::new(alloc);
    let mut state = State::Ahead;
    let mut start: usize = 0;
    for (at, byte) in row.iter().enumerate() {
        state = step(state, *byte);
        if state == State::Ahead {
            cells.push(Cell { start, stop: at })?;
            start = at.saturating_add(1);
        }
    }
    cells.push(Cell {
        start,
        stop: row.len(),
    })?;
    Ok(cells)
}

/// What stands in a field, without its quotes. (A quote within quotes stands twice.)
pub fn cell_bytes<'a>(row: &'a [u8], cell: Cell) -> &'a [u8] {
    let bytes = row.get(cell.start..cell.stop).unwrap_or(&[]);
    match bytes.strip_prefix(b"\"") {
        Some(rest) => rest.strip_suffix(b"\"").unwrap_or(rest),
        None => bytes,
    }
}
