//! Events of earlier calendars.

use crate::content::put_line;
use crate::event::Owner;
use duty_calendar::{List, Memory};
use field_text::{put_bytes, put_number};
use std::alloc::Global;

/// An event of an earlier calendar: its lines, its name, its number, whether it was cancelled, and whether it is one of those
/// that are cancelled now where they fell away.
#[derive(Clone, Copy)]
pub struct Earlier<'a> {
    pub lines: &'a [u8],
    pub uid: &'a [u8],
    pub sequence: u32,
    pub is_cancelled: bool,
    pub may_fall: bool,
}

/// The number that digits spell.
fn number_of(digits: &[u8]) -> u32 {
    let mut value: u32 = 0;
    for digit in digits {
        if digit.is_ascii_digit() {
            value = value
                .saturating_mul(10)
                .saturating_add(u32::from(*digit - b'0'));
        }
    }
    value
}

/// The event of these lines.
fn earlier_of(lines: &[u8], may_fall: bool) -> Earlier<'_> {
    let mut event = Earlier {
        lines,
        uid: b"",
        sequence: 0,
        is_cancelled: false,
        may_fall,
    };
    for line in lines.split_inclusive(|byte| *byte == b'\n') {
        let line = line.trim_ascii_end();
        if let Some(uid) = line.strip_prefix(b"UID:") {
            event.uid = uid;
        }
        if let Some(digits) = line.strip_prefix(b"SEQUENCE:") {
            event.sequence = number_of(digits);
        }
        if line == b"STATUS:CANCELLED".as_slice() {
            event.is_cancelled = true;
        }
    }
    event
}

/// Adds an event, where it is one of the owner's month.
fn add_owned<'a>(
    alloc: Global,
    events: &mut Vec<Earlier<'a>>,
    owner: Owner<'_>,
    event: Earlier<'a>,
) -> Result<(), Memory> {
    if owner.owns(alloc, event.uid)? {
        events.push(event)?;
    }
    Ok(())
}

/// Adds the events of an earlier calendar that are of the owner's month.
pub fn add_earlier<'a>(
    alloc: Global,
    events: &mut Vec<Earlier<'a>>,
    owner: Owner<'_>,
    text: &'a [u8],
    may_fall: bool,
) -> Result<(), Memory> {
    let mut start: usize = 0;
    let mut at: usize = 0;
    for line in text.split_inclusive(|byte| *byte == b'\n') {
        let word = line.trim_ascii_end();
        if word == b"BEGIN:VEVENT".as_slice() {
            start = at;
        }
        at = at.saturating_add(line.len());
        if word == b"END:VEVENT".as_slice() {
            let lines = text.get(start..at).unwrap_or(&[]);
            add_owned(alloc, events, owner, earlier_of(lines, may_fall))?;
        }
    }
    Ok(())
}

/// The greatest number of these events; 0 where there is none.
pub fn greatest(events: &[Earlier<'_>]) -> u32 {
    let mut most: u32 = 0;
    for event in events {
        most = most.max(event.sequence);
    }
    most
}

/// The last event of a name among these, of those with the greatest number.
pub fn latest<'a>(events: &[Earlier<'a>], uid: &[u8]) -> Option<Earlier<'a>> {
    let mut found: Option<Earlier<'a>> = None;
    for event in events {
        if event.uid == uid {
            let before = match found {
                Some(known) => known.sequence,
                None => 0,
            };
            if event.sequence >= before {
                found = Some(*event);
            }
        }
    }
    found
}

/// Whether a line says what is said anew of a cancelled event.
fn is_anew(line: &[u8]) -> bool {
    line.starts_with(b"SEQUENCE:")
        || line.starts_with(b"STATUS:")
        || line == b"END:VEVENT".as_slice()
}

/// Appends an event that is cancelled under this number.
pub fn put_cancelled(
    alloc: Global,
    out: &mut List<u8>,
    event: Earlier<'_>,
    sequence: u32,
) -> Result<(), Memory> {
    for line in event.lines.split_inclusive(|byte| *byte == b'\n') {
        let line = line.trim_ascii_end();
        if !is_anew(line) {
            put_bytes(out, line)?;
            put_bytes(out, b"\r\n")?;
        }
    }
    let mut number = List::new(alloc);
    put_bytes(&mut number, b"SEQUENCE:")?;
    put_number(&mut number, sequence)?;
    put_line(out, number.as_slice())?;
    put_line(out, b"STATUS:CANCELLED")?;
    put_line(out, b"END:VEVENT")
}
