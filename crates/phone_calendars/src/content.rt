//! Content lines by RFC 5545: texts with their marks, and lines that are folded between letters.

use duty_calendar::{Horizon, List, Memory};
use field_text::{put_bytes, put_moment};
use std::alloc::Global;

/// How many bytes a line has.
const WIDTH: usize = 75;

/// Appends a byte of a text as it stands in a value.
fn put_marked(out: &mut List<u8>, byte: u8) -> Result<(), Memory> {
    match byte {
        b'\\' | b';' | b',' => put_bytes(out, &[b'\\', byte]),
        b'\n' => put_bytes(out, b"\\n"),
        _ => put_bytes(out, &[byte]),
    }
}

/// Appends a text as it stands in a value.
pub fn put_value(out: &mut List<u8>, text: &[u8]) -> Result<(), Memory> {
    for byte in text {
        put_marked(out, *byte)?;
    }
    Ok(())
}

/// How many bytes the letter has that begins with this one: all of its letter go on one line.
fn letter_length(byte: u8) -> usize {
    match byte {
        240..=255 => 4,
        224..=239 => 3,
        192..=223 => 2,
        _ => 1,
    }
}

/// Appends a line and its end. Before a letter that would pass 75 bytes the line is folded.
pub fn put_line(out: &mut List<u8>, line: &[u8]) -> Result<(), Memory> {
    let mut filled: usize = 0;
    for byte in line {
        let begins = *byte < 128 || *byte >= 192;
        if begins && filled.saturating_add(letter_length(*byte)) > WIDTH {
            put_bytes(out, b"\r\n ")?;
            filled = 1;
        }
        put_bytes(out, &[*byte])?;
        filled = filled.saturating_add(1);
    }
    put_bytes(out, b"\r\n")
}

/// Appends a minute of the horizon as a moment in UTC.
pub fn put_stamp(
    alloc: Global,
    out: &mut List<u8>,
    horizon: &Horizon,
    minute: u32,
) -> Result<(), Memory> {
    let mut moment = List::new(alloc);
    put_moment(&mut moment, minute.min(horizon.end()), horizon)?;
    for byte in moment.as_slice() {
        match *byte {
            b'-' | b':' => {}
            b'Z' => put_bytes(out, b"00Z")?,
            _ => put_bytes(out, &[*byte])?,
        }
    }
    Ok(())
}
