//! The lines before the events of a calendar.

use crate::content::put_line;
use crate::printing::put_text;
use duty_calendar::{List, Memory};
use std::alloc::Global;

/// Appends the lines before the events, with the name that programs show.
pub fn put_head(alloc: Global, out: &mut List<u8>, shown: &[u8]) -> Result<(), Memory> {
    put_line(out, b"BEGIN:VCALENDAR")?;
    put_line(out, b"VERSION:2.0")?;
    put_line(out, b"PRODID:-//pbs//phone calendars//EN")?;
    put_line(out, b"CALSCALE:GREGORIAN")?;
    put_text(alloc, out, b"X-WR-CALNAME:", shown)
}
