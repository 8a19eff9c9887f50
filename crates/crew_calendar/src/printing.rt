//! Printing calendars.
ghost use Rattle.std.specs.Prelude.{◌≡◌, ◌++◌, OnOk, IfOk, Ok, true, All, map};
ghost use Rattle.std.specs.List.{flat_map, list_all};
ghost use Rattle.crew_calendar.specs.Folding.{folded, ended, text_of, rows_of, is_short, unfolded};
ghost use Rattle.crew_calendar.specs.Texts.{escaped};
ghost use Rattle.crew_calendar.specs.Moments.{moment_text, IsMoment};
ghost use Rattle.crew_calendar.specs.Seen.{entry_seen, seen, IsEntry, IsCalendar};
ghost use Rattle.crew_calendar.specs.Content.{Says};
ghost use Rattle.crew_calendar.specs.Printing.{first_line, version_line, product_line, open_line, uid_head, stamp_head, start_head, stop_head, summary_head, text_head, close_line, last_line, head_lines, opening_lines, time_lines, closing_lines, entry_lines, lines_of, book_text};

use crate::folding::put_line;
use crate::moments::put_moment;
use crate::texts::put_escaped;
use crate::types::{Calendar, CalendarEntry, Moment};
use crate::words::{
    close_line, first_line, last_line, open_line, product_line, stamp_head, start_head, stop_head,
    summary_head, text_head, uid_head, version_line,
};
use duty_calendar::{List, Memory};
use field_text::put_bytes;
use std::alloc::Global;

/// Appends a property whose value is a text.
fn put_text(alloc: Global, out: &mut List<u8>, head: &[u8], text: &[u8]) -> Result<(), Memory>
    ensures ok { OnOk result (out.new ≡ out.old ++ ended (folded (head.now ++ escaped text.now))) }
{
    let mut line = List::new(alloc);
    put_bytes(&mut line, head)?;
    put_escaped(&mut line, text)?;
    put_line(out, line.as_slice())
}

/// Appends a property whose value is a moment.
fn put_time(alloc: Global, out: &mut List<u8>, head: &[u8], moment: &Moment) -> Result<(), Memory>
    requires form { IsMoment moment.now }
    ensures ok { OnOk result (out.new
        ≡ out.old ++ ended (folded (head.now ++ moment_text moment.now))) }
{
    let mut line = List::new(alloc);
    put_bytes(&mut line, head)?;
    put_moment(&mut line, moment)?;
    put_line(out, line.as_slice())
}

/// Appends the first lines of an entry.
fn put_opening(
    alloc: Global,
    out: &mut List<u8>,
    stamp: &Moment,
    entry: &CalendarEntry,
) -> Result<(), Memory>
    requires stamp { IsMoment stamp.now }
    ensures ok { OnOk result (out.new
        ≡ out.old ++ text_of (opening_lines (moment_text stamp.now) (entry_seen entry.now))) }
{
    put_line(out, open_line())?;
    put_text(alloc, out, uid_head(), entry.uid.as_slice())?;
    put_time(alloc, out, stamp_head(), stamp)
}

/// Appends the start and the stop of an entry.
fn put_times(alloc: Global, out: &mut List<u8>, entry: &CalendarEntry) -> Result<(), Memory>
    requires form { IsEntry entry.now }
    ensures ok { OnOk result (out.new ≡ out.old ++ text_of (time_lines (entry_seen entry.now))) }
{
    put_time(alloc, out, start_head(), &entry.start)?;
    put_time(alloc, out, stop_head(), &entry.stop)
}

/// Appends the last lines of an entry.
fn put_closing(alloc: Global, out: &mut List<u8>, entry: &CalendarEntry) -> Result<(), Memory>
    ensures ok { OnOk result (out.new
        ≡ out.old ++ text_of (closing_lines (entry_seen entry.now))) }
{
    put_text(alloc, out, summary_head(), entry.summary.as_slice())?;
    put_text(alloc, out, text_head(), entry.text.as_slice())?;
    put_line(out, close_line())
}

/// Appends an entry of a calendar that was made at a moment.
fn put_entry(
    alloc: Global,
    out: &mut List<u8>,
    stamp: &Moment,
    entry: &CalendarEntry,
) -> Result<(), Memory>
    requires stamp { IsMoment stamp.now }
    requires form { IsEntry entry.now }
    ensures ok { OnOk result (out.new
        ≡ out.old ++ text_of (entry_lines (moment_text stamp.now) (entry_seen entry.now))) }
{
    put_opening(alloc, out, stamp, entry)?;
    put_times(alloc, out, entry)?;
    put_closing(alloc, out, entry)
}

/// Appends the entries.
fn put_entries(
    alloc: Global,
    out: &mut List<u8>,
    stamp: &Moment,
    entries: &[CalendarEntry],
) -> Result<(), Memory>
    requires stamp { IsMoment stamp.now }
    requires form { All IsEntry entries.now }
    ensures ok { OnOk result (out.new ≡ out.old ++ flat_map
        (λ e. text_of (entry_lines (moment_text stamp.now) (entry_seen e))) entries.now) }
{
    for entry in entries {
        put_entry(alloc, out, stamp, entry)?;
    }
    Ok(())
}

/// Appends the lines before the entries.
fn put_head(out: &mut List<u8>) -> Result<(), Memory>
    ensures ok { OnOk result (out.new ≡ out.old ++ text_of head_lines) }
{
    put_line(out, first_line())?;
    put_line(out, version_line())?;
    put_line(out, product_line())
}

/// The text of a calendar: its content lines, folded after 75 bytes and then after each 74, so that
/// no line of it has more than 75 bytes.
pub fn print_calendar(alloc: Global, calendar: &Calendar) -> Result<List<u8>, Memory>
    requires form { IsCalendar calendar.now }
    ensures whole { IfOk result (λ text. text ≡ book_text (seen calendar.now)) }
    ensures said { IfOk result (λ text. Says (unfolded text) calendar.now) }
    ensures short { IfOk result (λ text. list_all is_short (rows_of text) ≡ true) }
{
    let mut out = List::new(alloc);
    put_head(&mut out)?;
    put_entries(
        alloc,
        &mut out,
        &calendar.stamp,
        calendar.entries.as_slice(),
    )?;
    put_line(&mut out, last_line())?;
    Ok(out)
}
