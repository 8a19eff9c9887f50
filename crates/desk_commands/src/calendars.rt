//! The command `calendar`.
ghost use Rattle.std.specs.Prelude.{◌≡◌, ◌≤◌, ◌<◌, IfOk, IsTrue, List as Sequence, ℕ, length};
ghost use Rattle.std.specs.Option.{ForSome};
ghost use Rattle.std.specs.Str.{IsAscii};
ghost use Rattle.crew_calendar.specs.Table.{table};
ghost use Rattle.desk_commands.specs.Calendars.{IsCalendarFile, IsCalendarRun, IsCalendarHanded, IsDated, calendar_order, ics, ics_of};
ghost use Rattle.desk_commands.specs.CalendarEnds.{CalendarCause, calendar_written};
ghost use Rattle.duty_calendar.specs.Forms.{is_name};
ghost use Rattle.month_files.specs.Handing.{FromReads};
ghost use Rattle.month_files.specs.Writes.{Leaves};
ghost use Rattle.roster_text.specs.RosterText.{IsRoster, member_name};
ghost use Rattle.shelf.specs.Files.{Files};
ghost use Rattle.shelf.specs.Logs.{Entries};
ghost use Rattle.shelf.specs.Names.{IsName};

use crate::calendar_stop::{CalendarStop, Undated};
use crew_calendar::{CalendarEntry, calendar_of, print_calendar};
use duty_calendar::{List, Memory};
use field_text::put_bytes;
use month_files::{WriteStop, read_month, read_seen};
use roster_model::{Problem, Roster};
use roster_text::{member_named, read_roster};
use shelf::{Shelf, ShelfFault};
use std::alloc::Global;
use std::str::from_utf8;

/// The calendar of a member as a file.
#[derive(Drop, Debug)]
pub struct MemberCalendar {
    /// The name of the file: the member's, and `.ics`.
    pub file: List<u8>,
    pub bytes: List<u8>,
    /// How many entries the calendar has.
    pub entries: u32,
}

/// The name of a member.
fn name_of(problem: &Problem, member: u32) -> &[u8]
    requires in_range { member < length problem.now.base.members }
    ensures name { result.now ≡ member_name problem.now member }
    ensures form { IsTrue (is_name result.now) }
{
    problem.base.members.as_slice()[member as usize]
        .name
        .bytes()
}

/// What stands behind a member's name in the name of a file.
#[tactic(auto, unfolding(crate::specs::Calendars::ics))]
fn ics() -> &'static [u8]
    ensures value { result.now ≡ ics }
{
    b".ics"
}

/// The name of a member's file.
fn ics_of(alloc: Global, name: &[u8]) -> Result<List<u8>, Memory>
    ensures value { IfOk result (λ file. file ≡ ics_of name.now) }
{
    let mut file = List::new(alloc);
    put_bytes(&mut file, name)?;
    put_bytes(&mut file, ics())?;
    Ok(file)
}

/// How many entries there are.
fn count_of(entries: &List<CalendarEntry>) -> u32
    requires few { length entries.now ≤ 660 }
    ensures value { result ≡ length entries.now }
{
    entries.len() as u32
}

/// The calendar of a member as a file, where it has an entry.
fn dated(
    alloc: Global,
    problem: &Problem,
    roster: &Roster,
    member: u32,
) -> Result<Option<MemberCalendar>, Memory>
    requires roster { IsRoster problem.now roster.now }
    requires member { member < length problem.now.base.members }
    ensures dated { IfOk result (IsDated (member_name problem.now member)
        (table problem.now roster.now member)) }
    ensures ascii { IfOk result (λ found. ForSome found (λ m. IsAscii m.file)) }
    ensures named { IfOk result (λ found. ForSome found (λ m. IsName m.file)) }
{
    let calendar = calendar_of(alloc, problem, roster, member)?;
    let entries = count_of(&calendar.entries);
    if entries == 0 {
        return Ok(None);
    }
    let bytes = print_calendar(alloc, &calendar)?;
    let file = ics_of(alloc, name_of(problem, member))?;
    Ok(Some(MemberCalendar {
        file,
        bytes,
        entries,
    }))
}

/// A file's name as text.
#[tactic(auto, using(crate::proofs::CalendarNames::ascii_text))]
fn text_of(file: &[u8]) -> &str
    requires ascii { IsAscii file.now }
    ensures same { result.now ≡ file.now }
{
    match from_utf8(file) {
        Ok(text) => text,
        Err(_) => unreachable!(),
    }
}

/// Writes the file of a calendar.
fn write_calendar<S: Shelf>(
    alloc: Global,
    shelf: &mut S,
    calendar: MemberCalendar,
) -> Result<MemberCalendar, CalendarStop>
    requires ascii { IsAscii calendar.file }
    requires name { IsName calendar.file }
    ensures cause { CalendarCause (S.tally shelf.old) (S.tally shelf.new) result }
    ensures told { (files : Files) (name : Sequence ℕ) → IsCalendarFile files name calendar
        → IsCalendarRun files name result }
    ensures left { Leaves (S.holds shelf.old) (S.holds shelf.new) (calendar_written result) }
    ensures handed { (old : Entries) (name : Sequence ℕ)
        → FromReads calendar_order old (S.log shelf.old)
        (λ files. IsCalendarFile files name calendar)
        → IsCalendarHanded old (S.log shelf.new) name result }
{
    match shelf.write(
        alloc,
        text_of(calendar.file.as_slice()),
        calendar.bytes.as_slice(),
    ) {
        Ok(()) => Ok(calendar),
        Err(ShelfFault::WriteFailed) => Err(CalendarStop::Unwritten(calendar, WriteStop::Fault)),
        Err(ShelfFault::NoMemory) => Err(CalendarStop::Unwritten(calendar, WriteStop::NoMemory)),
        Err(ShelfFault::ReadFailed) => unreachable!(),
        Err(ShelfFault::Missing) => unreachable!(),
        Err(ShelfFault::TooLong) => unreachable!(),
    }
}

/// Writes the calendar of the member with this name, as the roster in the folder has it.
pub fn calendar<S: Shelf>(
    alloc: Global,
    shelf: &mut S,
    name: &[u8],
) -> Result<MemberCalendar, CalendarStop>
    ensures cause { CalendarCause (S.tally shelf.old) (S.tally shelf.new) result }
    ensures told { ForSome (S.holds shelf.old) (λ files. IsCalendarRun files name.now result) }
    ensures left { Leaves (S.holds shelf.old) (S.holds shelf.new) (calendar_written result) }
    ensures handed { IsCalendarHanded (S.log shelf.old) (S.log shelf.new) name.now result }
{
    let (texts, text) = read_seen(alloc, shelf)?;
    let problem = read_month(alloc, &texts)?;
    let roster = read_roster(alloc, &text, &problem)?;
    let Some(member) = member_named(&problem, name) else {
        return Err(CalendarStop::No(Undated::Member));
    };
    let found = dated(alloc, &problem, &roster, member as u32)?;
    let Some(file) = found else {
        return Err(CalendarStop::No(Undated::NoEvents));
    };
    write_calendar(alloc, shelf, file)
}
