//! Reading calendars.
ghost use Rattle.std.specs.Prelude.{◌≡◌, ◌≢◌, ◌≤◌, length, Err, IfOk, MatchResult};
ghost use Rattle.field_text.specs.Sizes.{longest};
ghost use Rattle.crew_calendar.specs.Content.{Says};
ghost use Rattle.crew_calendar.specs.Folding.{content_of, rows_of, unfolded};
ghost use Rattle.crew_calendar.specs.Printing.{book_text};
ghost use Rattle.crew_calendar.specs.Seen.{seen, IsTimed, IsCalendar};
ghost use Rattle.crew_calendar.specs.declared.types.Calendar.{Calendar as Made};
ghost use Rattle.crew_calendar.specs.Views.{row_seen, sheet_seen};
ghost use Rattle.crew_calendar.specs.Reading.{Gives, GivesWhole, blank, sheet_row, book_of, rows_from, calendar_in, at, fault_at, no_memory, Answers};

use crate::content::{Row, is_whole, next_row, unfold};
use crate::fault::{CalendarCode, CalendarFault};
use crate::sheet::{Due, Sheet};
use crate::types::Calendar;
use duty_calendar::List;
use std::alloc::Global;

/// A fault of a line. Want of memory has none.
fn fault_at(line: u32, code: CalendarCode) -> CalendarFault
    ensures value { result ≡ fault_at line code }
{
    match code {
        CalendarCode::NoMemory => CalendarFault { line: 0, code },
        _ => CalendarFault { line, code },
    }
}

/// Nothing was read yet.
fn blank(alloc: Global) -> Sheet
    ensures value { sheet_seen result ≡ blank }
{
    Sheet {
        due: Due::First,
        stamp: None,
        uid: List::new(alloc),
        start: None,
        stop: None,
        summary: List::new(alloc),
        entries: List::new(alloc),
    }
}

/// Takes a line.
#[tactic(auto, unfolding(crate::specs::Reading::sheet_row))]
fn take_row(alloc: Global, sheet: &mut Sheet, row: &Row) -> Result<(), CalendarCode>
    ensures value { Gives (λ _. sheet_seen sheet.new) result
        (sheet_row (sheet_seen sheet.old) (row_seen row.now)) }
{
    if !is_whole(row) {
        return Err(CalendarCode::Break);
    }
    sheet.take(alloc, row.bytes)
}

/// The calendar of a sheet after its last line.
#[tactic(auto, unfolding(crate::specs::Reading::book_of))]
fn calendar_of(sheet: Sheet) -> Result<Calendar, CalendarCode>
    ensures value { Gives seen result (book_of (sheet_seen sheet)) }
    ensures timed { IfOk result IsTimed }
{
    if sheet.due != Due::Nothing {
        return Err(CalendarCode::Name);
    }
    let Some(stamp) = sheet.stamp else {
        return Err(CalendarCode::Name);
    };
    Ok(Calendar {
        stamp,
        entries: sheet.entries,
    })
}

/// Takes the lines of an unfolded text, and gives the number of the line behind them.
fn take_rows(alloc: Global, text: &[u8], sheet: &mut Sheet) -> Result<u32, CalendarFault>
    requires short { length text.now ≤ longest }
    ensures value { MatchResult result
        (λ line. rows_from 1 (sheet_seen sheet.old) (rows_of text.now)
        ≡ at line (book_of (sheet_seen sheet.new)))
        (λ fault. fault ≢ no_memory
        → rows_from 1 (sheet_seen sheet.old) (rows_of text.now) ≡ Err fault) }
{
    let mut rest = text;
    let mut line = 1;
    while !rest.is_empty() {
        let (row, after) = next_row(rest);
        if let Err(code) = take_row(alloc, sheet, &row) {
            return Err(fault_at(line, code));
        }
        rest = after;
        line += 1;
    }
    Ok(line)
}

/// The calendar of an unfolded text.
fn content(alloc: Global, text: &[u8]) -> Result<Calendar, CalendarFault>
    requires short { length text.now ≤ longest }
    ensures value { GivesWhole seen result (rows_from 1 blank (content_of text.now)) }
    ensures timed { IfOk result IsTimed }
{
    if text.is_empty() {
        return Err(fault_at(1, CalendarCode::Break));
    }
    let mut sheet = blank(alloc);
    let line = match take_rows(alloc, text, &mut sheet) {
        Ok(line) => line,
        Err(fault) => return Err(fault),
    };
    match calendar_of(sheet) {
        Ok(calendar) => Ok(calendar),
        Err(code) => Err(fault_at(line, code)),
    }
}

/// The calendar of a text, line by line once it is unfolded.
fn read_lines(alloc: Global, text: &[u8]) -> Result<Calendar, CalendarFault>
    requires short { length text.now ≤ longest }
    ensures read { GivesWhole seen result (calendar_in text.now) }
    ensures timed { IfOk result IsTimed }
{
    let plain = match unfold(alloc, text) {
        Ok(plain) => plain,
        Err(_) => return Err(fault_at(1, CalendarCode::NoMemory)),
    };
    content(alloc, plain.as_slice())
}

/// The calendar that a text says once it is unfolded, or the first unfolded content line with a
/// fault.
pub fn read_calendar(alloc: Global, text: &[u8]) -> Result<Calendar, CalendarFault>
    requires short { length text.now ≤ longest }
    ensures said { IfOk result (Says (unfolded text.now)) }
    ensures only { (c : Made) → Says (unfolded text.now) c → Answers result c }
    ensures again { (c : Made) → IsCalendar c → text.now ≡ book_text (seen c)
        → Answers result c }
    ensures read { GivesWhole seen result (calendar_in text.now) }
{
    read_lines(alloc, text)
}
