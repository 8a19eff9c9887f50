//! The content lines of an event.

use crate::content::{put_line, put_stamp, put_value};
use crate::event::{PhoneEvent, When};
use duty_calendar::{Horizon, List, Memory, Station};
use field_text::{put_bytes, put_number};
use std::alloc::Global;

/// A date as a number of eight digits: year, month and day.
pub fn date_number(horizon: &Horizon, day: u32) -> u32 {
    let date = horizon.date_of(day.min(372 + horizon.days()));
    let year = u32::try_from(date.year()).unwrap_or(0);
    let month = u32::try_from(date.month()).unwrap_or(0);
    let of_month = u32::try_from(date.day()).unwrap_or(0);
    year.saturating_mul(10_000)
        .saturating_add(month.saturating_mul(100))
        .saturating_add(of_month)
}

/// Appends a property that is a text.
pub fn put_text(alloc: Global, out: &mut List<u8>, head: &[u8], text: &[u8]) -> Result<(), Memory> {
    let mut line = List::new(alloc);
    put_bytes(&mut line, head)?;
    put_value(&mut line, text)?;
    put_line(out, line.as_slice())
}

/// Appends a property that is a number.
pub fn put_count(alloc: Global, out: &mut List<u8>, head: &[u8], value: u32) -> Result<(), Memory> {
    let mut line = List::new(alloc);
    put_bytes(&mut line, head)?;
    put_number(&mut line, value)?;
    put_line(out, line.as_slice())
}

/// Appends a property that is a moment in UTC.
fn put_minute(
    alloc: Global,
    out: &mut List<u8>,
    head: &[u8],
    horizon: &Horizon,
    minute: u32,
) -> Result<(), Memory> {
    let mut line = List::new(alloc);
    put_bytes(&mut line, head)?;
    put_stamp(alloc, &mut line, horizon, minute)?;
    put_line(out, line.as_slice())
}

/// Appends when an event is.
fn put_when(
    alloc: Global,
    out: &mut List<u8>,
    horizon: &Horizon,
    when: When,
) -> Result<(), Memory> {
    match when {
        When::Minutes(start, stop) => {
            put_minute(alloc, out, b"DTSTART:", horizon, start)?;
            put_minute(alloc, out, b"DTEND:", horizon, stop)
        }
        When::Days(first, stop) => {
            let start = date_number(horizon, first);
            put_count(alloc, out, b"DTSTART;VALUE=DATE:", start)?;
            put_count(alloc, out, b"DTEND;VALUE=DATE:", date_number(horizon, stop))
        }
    }
}

/// Appends where an event begins.
fn put_place(alloc: Global, out: &mut List<u8>, place: Option<Station>) -> Result<(), Memory> {
    match place {
        Some(station) => put_text(alloc, out, b"LOCATION:", &station.bytes()),
        None => Ok(()),
    }
}

/// Whether an event takes the pilot's time, as calendars ask it.
fn busy_line(when: When) -> &'static [u8] {
    match when {
        When::Minutes(_, _) => b"TRANSP:OPAQUE",
        When::Days(_, _) => b"TRANSP:TRANSPARENT",
    }
}

/// Appends an event of this number. It was made at the first minute of the month.
pub fn put_event(
    alloc: Global,
    out: &mut List<u8>,
    horizon: &Horizon,
    event: &PhoneEvent,
    sequence: u32,
) -> Result<(), Memory> {
    put_line(out, b"BEGIN:VEVENT")?;
    put_text(alloc, out, b"UID:", event.uid.as_slice())?;
    put_minute(alloc, out, b"DTSTAMP:", horizon, 525_600)?;
    put_count(alloc, out, b"SEQUENCE:", sequence)?;
    put_when(alloc, out, horizon, event.when)?;
    put_text(alloc, out, b"SUMMARY:", event.title.as_slice())?;
    put_place(alloc, out, event.place)?;
    if !event.text.is_empty() {
        put_text(alloc, out, b"DESCRIPTION:", event.text.as_slice())?;
    }
    put_line(out, busy_line(event.when))?;
    put_line(out, b"STATUS:CONFIRMED")?;
    put_line(out, b"END:VEVENT")
}
