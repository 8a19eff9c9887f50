//! How a run of `calendar` ends, and what it prints.
ghost use Rattle.std.specs.Prelude.{◌≡◌, ◌++◌, codes, IfOk};
ghost use Rattle.answer_texts.specs.CalendarTexts.{calendar_line, calendar_status, calendar_text, lost_text, undated_text};

use crate::lines::{numbered, titled};
use crate::month_ends::{bad_input_text, input_status, unread_status, unread_text};
use crate::status::Status;
use crate::write_ends::write_status;
use desk_commands::{CalendarStop, MemberCalendar, Undated};
use duty_calendar::{List, Memory};
use field_text::put_bytes;
use month_files::WriteStop;
use std::alloc::Global;

/// How a run of `calendar` ends.
pub fn calendar_status(end: &Result<MemberCalendar, CalendarStop>) -> Status
    ensures value { result ≡ calendar_status end.now }
{
    match end {
        Ok(_) => Status::Done,
        Err(CalendarStop::Unread(why)) => unread_status(*why),
        Err(CalendarStop::BadInput(why)) => input_status(why),
        Err(CalendarStop::No(_)) => Status::No,
        Err(CalendarStop::Unwritten(_, why)) => write_status(*why),
        Err(CalendarStop::NoMemory) => Status::NoMemory,
    }
}

/// The line of a calendar that was written.
fn calendar_line(alloc: Global, name: &[u8], entries: u32) -> Result<List<u8>, Memory>
    ensures value { IfOk result (λ t. t ≡ calendar_line name.now entries) }
{
    let mut words = List::new(alloc);
    put_bytes(&mut words, b"calendar ")?;
    put_bytes(&mut words, name)?;
    numbered(alloc, words.as_slice(), &[u64::from(entries)])
}

/// The line of a no.
fn undated_line(alloc: Global, name: &[u8], why: Undated) -> Result<List<u8>, Memory>
    ensures value { IfOk result (λ t. t ≡ undated_text name.now why) }
{
    match why {
        Undated::Roster(fault) => numbered(
            alloc,
            b"no roster",
            &[u64::from(fault.row), u64::from(fault.code.code())],
        ),
        Undated::Member => titled(alloc, b"no member ", name),
        Undated::NoEvents => titled(alloc, b"no events ", name),
    }
}

/// The line of a calendar whose file was not written.
fn lost_line(alloc: Global, file: &[u8], why: WriteStop) -> Result<List<u8>, Memory>
    ensures value { IfOk result (λ t. t ≡ lost_text file.now why) }
{
    match why {
        WriteStop::Fault => titled(alloc, b"write fault ", file),
        WriteStop::NoMemory => Ok(List::new(alloc)),
    }
}

/// The text of a run of `calendar` with this name.
pub fn calendar_text(
    alloc: Global,
    name: &[u8],
    end: &Result<MemberCalendar, CalendarStop>,
) -> Result<List<u8>, Memory>
    ensures value { IfOk result (λ t. t ≡ calendar_text name.now end.now) }
{
    match end {
        Ok(calendar) => calendar_line(alloc, name, calendar.entries),
        Err(CalendarStop::Unread(why)) => unread_text(alloc, *why),
        Err(CalendarStop::BadInput(why)) => bad_input_text(alloc, why),
        Err(CalendarStop::No(why)) => undated_line(alloc, name, *why),
        Err(CalendarStop::Unwritten(calendar, why)) => {
            lost_line(alloc, calendar.file.as_slice(), *why)
        }
        Err(CalendarStop::NoMemory) => Ok(List::new(alloc)),
    }
}
