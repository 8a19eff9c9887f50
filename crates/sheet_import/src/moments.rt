//! Moments as spreadsheets write them.

use duty_calendar::{List, Memory};
use field_text::put_bytes;
use std::alloc::Global;

/// Whether a byte is what a form has in its place: a digit for `d`, and else the same byte.
fn fits(byte: u8, sign: u8) -> bool {
    match sign {
        b'd' => byte.is_ascii_digit(),
        sign => byte == sign,
    }
}

/// Whether a text begins with this form.
fn begins(text: &[u8], form: &[u8]) -> bool {
    text.len() >= form.len()
        && text
            .iter()
            .zip(form.iter())
            .all(|(byte, sign)| fits(*byte, *sign))
}

/// The bytes of a text from one place to another.
fn part(text: &[u8], from: usize, to: usize) -> &[u8] {
    text.get(from..to).unwrap_or(b"")
}

/// Appends a moment of these digits.
fn put_moment(
    out: &mut List<u8>,
    year: &[u8],
    month: &[u8],
    day: &[u8],
    clock: &[u8],
) -> Result<(), Memory> {
    put_bytes(out, year)?;
    put_bytes(out, b"-")?;
    put_bytes(out, month)?;
    put_bytes(out, b"-")?;
    put_bytes(out, day)?;
    put_bytes(out, b"T")?;
    put_bytes(out, clock)?;
    put_bytes(out, b"Z")
}

/// Appends the moment at the head of a text as the files have it, where a spreadsheet wrote one, and else the first byte. What is
/// left of the text is the answer.
fn take<'a>(out: &mut List<u8>, text: &'a [u8]) -> Result<&'a [u8], Memory> {
    let clock = part(text, 11, 16);
    if begins(text, b"dd.dd.dddd dd:dd") {
        put_moment(
            out,
            part(text, 6, 10),
            part(text, 3, 5),
            part(text, 0, 2),
            clock,
        )?;
        return Ok(text.get(16..).unwrap_or(b""));
    }
    if begins(text, b"dddd-dd-dd dd:dd") {
        put_moment(
            out,
            part(text, 0, 4),
            part(text, 5, 7),
            part(text, 8, 10),
            clock,
        )?;
        return Ok(text.get(16..).unwrap_or(b""));
    }
    put_bytes(out, part(text, 0, 1))?;
    Ok(text.get(1..).unwrap_or(b""))
}

/// A field with its moments as the files have them: `02.06.2026 10:00` and `2026-06-02 10:00` are taken as UTC.
pub fn with_moments(alloc: Global, field: &[u8]) -> Result<List<u8>, Memory> {
    let mut out = List::new(alloc);
    let mut rest = field;
    for _ in 0..field.len() {
        rest = take(&mut out, rest)?;
    }
    Ok(out)
}
