//! The calendar of the smallest month, other spellings of calendars, and what a calendar's text may not be.
ghost use Rattle.std.specs.Prelude.{◌≡◌, ◌<◌, length, All};

use crate::fixtures::smallest;
use crate::rosters::roster_of;
use crate::texts::joined;
use crew_calendar::{calendar_laws, calendar_of, print_calendar, read_calendar};
use june_months::{bytes_of, sides};
use roster_model::{Problem, Roster};
use std::alloc::Global;
use std::process::Abort;

/// The first three lines.
const HEAD: &[u8] = b"BEGIN:VCALENDAR\r\nVERSION:2.0\r\nPRODID:-//pbs//crew calendar//EN\r\n";

/// The first four lines.
const OPENED: &[u8] =
    b"BEGIN:VCALENDAR\r\nVERSION:2.0\r\nPRODID:-//pbs//crew calendar//EN\r\nBEGIN:VEVENT\r\n";

/// The first five lines.
const NAMED: &[u8] =
    b"BEGIN:VCALENDAR\r\nVERSION:2.0\r\nPRODID:-//pbs//crew calendar//EN\r\nBEGIN:VEVENT\r\nUID:p.P1.M1.202606@pbs\r\n";

/// The lines up to the end of the first entry.
const ENTRY: &[u8] =
    b"BEGIN:VCALENDAR\r\nVERSION:2.0\r\nPRODID:-//pbs//crew calendar//EN\r\nBEGIN:VEVENT\r\nUID:p.P1.M1.202606@pbs\r\nDTSTAMP:20260601T000000Z\r\nDTSTART:20260610T080000Z\r\nDTEND:20260610T143000Z\r\nSUMMARY:P1\r\nDESCRIPTION:1: DUB-LHR 09:00-13:00\r\nEND:VEVENT\r\n";

/// The calendar of the member who flies the one pairing.
const FLYING: &[u8] =
    b"BEGIN:VCALENDAR\r\nVERSION:2.0\r\nPRODID:-//pbs//crew calendar//EN\r\nBEGIN:VEVENT\r\nUID:p.P1.M1.202606@pbs\r\nDTSTAMP:20260601T000000Z\r\nDTSTART:20260610T000000Z\r\nDTEND:20260610T063000Z\r\nSUMMARY:P1\r\nDESCRIPTION:1: DUB-LHR 01:00-05:00\r\nEND:VEVENT\r\nEND:VCALENDAR\r\n";

/// A calendar of three duties, whose description has 82 bytes, and a name with each byte that is marked.
const FOLDED: &[u8] =
    b"BEGIN:VCALENDAR\r\nVERSION:2.0\r\nPRODID:-//pbs//crew calendar//EN\r\nBEGIN:VEVENT\r\nUID:p.P1.M1.202606@pbs\r\nDTSTAMP:20260601T000000Z\r\nDTSTART:20260610T080000Z\r\nDTEND:20260612T153000Z\r\nSUMMARY:P\\,1\\;\\\\\r\nDESCRIPTION:1: DUB-LHR 09:00-13:00\\n2: LHR-ORD 09:00-17:00\\n3: ORD-DUB 11:0\r\n 0-15:00\r\nEND:VEVENT\r\nEND:VCALENDAR\r\n";

/// The same with its line feeds as capitals, and folded by tabs, in a name and at a line's end.
const SPELT: &[u8] =
    b"BEGIN:VCALENDAR\r\nVERSION:2.0\r\nPRODID:-//pbs//crew calendar//EN\r\n\t\r\nBEGIN:VEVENT\r\nU\r\n ID:p.P1.M1.202606@pbs\r\nDTSTAMP:20260601T000000Z\r\nDTSTART:20260610T080000Z\r\nDTEND:20260612T153000Z\r\nSUMMARY:P\\\r\n\t,1\\;\\\\\r\nDESCRIPTION:1: DUB-LHR 09:00-13:00\\N2: LHR-ORD 09:00-17:00\\N3: ORD-DUB 11:00-15:00\r\nEND:VEVENT\r\nEND:VCALENDAR\r\n";

/// Says that a member's calendar is printed as this text, which is read as the calendar.
fn assert_calendar(rt: &impl Abort, alloc: Global, problem: &Problem, roster: &Roster, text: &[u8])
    requires members { length problem.now.base.members ≡ 1 }
    requires lines { length roster.now ≡ length problem.now.base.members }
    requires in_range { All (All (λ p. p < length problem.now.base.pairings)) roster.now }
{
    let calendar = calendar_of(alloc, problem, roster, 0).expect(rt, "memory");
    assert!(rt; calendar.entries.len() == 1);
    let printed = print_calendar(alloc, &calendar).expect(rt, "memory");
    assert!(rt; printed.as_slice() == text);
    assert!(rt; text.len() <= 1000);
    let read = read_calendar(alloc, text).expect(rt, "a calendar");
    assert!(rt; read == calendar);
}

#[test]
fn prints_and_reads_the_smallest_month(rt: HostRuntime) {
    let alloc = rt.alloc();
    let problem = smallest(&rt, alloc);
    assert!(rt; problem.base.members.len() == 1);
    let text = b"member,pairings,credit,score\nM1,P1,5:00,10\n";
    let roster = roster_of(&rt, alloc, &problem, text);
    assert_calendar(&rt, alloc, &problem, &roster, FLYING);
    calendar_laws();
}

/// Says that two texts are read as one calendar, which is printed as the first of them.
fn assert_alike(rt: &impl Abort, alloc: Global, text: &[u8], other: &[u8]) {
    assert!(rt; text.len() <= 1000 && other.len() <= 1000);
    let calendar = read_calendar(alloc, text).expect(rt, "a calendar");
    let same = read_calendar(alloc, other).expect(rt, "a calendar");
    assert!(rt; same == calendar);
    let printed = print_calendar(alloc, &calendar).expect(rt, "memory");
    assert!(rt; printed.as_slice() == text);
}

#[test]
fn folds_behind_75_bytes(rt: HostRuntime) {
    assert_alike(&rt, rt.alloc(), FOLDED, SPELT);
}

/// Texts that are no calendar's, with their faults.
const BARE: &str = r" => line 1: a broken line
BEGIN:VCALENDAR => line 1: a broken line
BEGIN:VCALENDAR\n => line 1: a broken line
BEGIN:VCALENDAR\r => line 1: a broken line
BEGIN:VCALENDAR\nVERSION:2.0\r\n => line 1: a broken line
begin:VCALENDAR\r\n => line 1: another line is due
BEGIN:VCALENDAR\r\nVERSION:1.0\r\n => line 2: another line is due";

/// What may not follow the first three lines.
const BEHIND_HEAD: &str = r" => line 4: another line is due
END:VCALENDAR\r\n => line 4: another line is due
BEGIN:VEVENT\r\nSUMMARY:P1\r\n => line 5: another line is due";

/// What may not follow the first four lines.
const BEHIND_OPENED: &str = r"UID:a,b\r\n => line 5: not a value of the property
UID:a;b\r\n => line 5: not a value of the property
UID:a\5Cnb\r\n => line 5: not a value of the property
UID:a\5C\r\n => line 5: not a value of the property
UID:\7F\r\n => line 5: not a value of the property
UID:a\nb\r\n => line 5: a broken line";

/// What may not follow the first five lines.
const BEHIND_NAMED: &str = r"DTSTAMP:20260631T000000Z\r\n => line 6: not a value of the property
DTSTAMP:20260601T240000Z\r\n => line 6: not a value of the property
DTSTAMP:20260601T000001Z\r\n => line 6: not a value of the property
DTSTAMP:20260601T000000\r\n => line 6: not a value of the property";

/// What may not follow the first entry.
const BEHIND_ENTRY: &str = r" => line 12: another line is due
BEGIN:VEVENT\r\nUID:b\r\nDTSTAMP:20260602T000000Z\r\n => line 14: not a value of the property";

/// What may not follow a calendar.
const BEHIND_FLYING: &str = r"\r\n => line 13: a line behind the calendar
BEGIN:VEVENT\r\n => line 13: a line behind the calendar
\n => line 13: a broken line";

/// Says what is the first fault of a calendar's text.
fn assert_fault(rt: &impl Abort, alloc: Global, text: &[u8], due: &str) {
    assert!(rt; text.len() <= 1000);
    let fault = read_calendar(alloc, text)
        .err()
        .expect(rt, "it has a fault");
    let found = format!(in alloc; "{fault}").expect(rt, "memory");
    assert!(rt; found.as_str() == due, "{found}");
}

/// Says what is the fault of each row behind a text.
fn assert_faults(rt: &impl Abort, alloc: Global, front: &[u8], rows: &str) {
    for row in rows.lines() {
        let (text, due) = sides(row).expect(rt, "a row has two sides");
        assert_fault(
            rt,
            alloc,
            &joined(alloc, front, &bytes_of(alloc, text)),
            due,
        );
    }
}

#[test]
fn says_the_first_fault_of_a_calendar(rt: HostRuntime) {
    let alloc = rt.alloc();
    assert_faults(&rt, alloc, b"", BARE);
    assert_faults(&rt, alloc, HEAD, BEHIND_HEAD);
    assert_faults(&rt, alloc, OPENED, BEHIND_OPENED);
    assert_faults(&rt, alloc, NAMED, BEHIND_NAMED);
    assert_faults(&rt, alloc, ENTRY, BEHIND_ENTRY);
    assert_faults(&rt, alloc, FLYING, BEHIND_FLYING);
}
