//! The three files of members, and what is wrong with them.

use crate::texts::{digit, joined, numbered};
use crew_files::read_members;
use duty_calendar::{Horizon, List, Member};
use field_text::{FileCode, FileFault, FileName};
use june_months::{bytes_of, sides};
use std::alloc::Global;
use std::process::Abort;

const CREW: &[u8] = b"member,low,high\nM1,0:00,90:00\nM2,1:00,2:00\n";

const NO_CREW: &[u8] = b"member,low,high\n";

const NONE: &[u8] = b"member,kind,report,parked,release,legs,credit\n";

pub(crate) const BYTES: usize = 1_000_000;

fn no_memory() -> FileFault {
    FileFault {
        file: FileName::Crew,
        row: 0,
        code: FileCode::NoMemory,
    }
}

/// June 2026 has 30 days; minute 0 is the begin of 1 June 2025. No text here is longer than a
/// million bytes.
pub(crate) fn read(
    alloc: Global,
    crew: &[u8],
    history: &[u8],
    fixed: &[u8],
) -> Result<List<Member>, FileFault> {
    if crew.len() > BYTES {
        return Err(no_memory());
    }
    if history.len() > BYTES {
        return Err(no_memory());
    }
    if fixed.len() > BYTES {
        return Err(no_memory());
    }
    match Horizon::new(2026, 6, 0) {
        Ok(horizon) => read_members(alloc, crew, history, fixed, &horizon),
        Err(_) => Err(no_memory()),
    }
}

/// What is said of three files.
fn told(rt: &impl Abort, alloc: Global, crew: &[u8], history: &[u8], fixed: &[u8]) -> String {
    match read(alloc, crew, history, fixed) {
        Ok(list) => format!(in alloc; "{} members", list.len()),
        Err(fault) => format!(in alloc; "{:?} {fault}", fault.file),
    }
    .expect(rt, "memory")
}

/// Says what is said of three files.
fn assert_told(
    rt: &impl Abort,
    alloc: Global,
    (crew, history, fixed): (&[u8], &[u8], &[u8]),
    due: &str,
) {
    let found = told(rt, alloc, crew, history, fixed);
    assert!(rt; found.as_str() == due, "{found}");
}

/// Texts of crew.csv, and what is said of them.
const CREW_FAULTS: &str = r#" => Crew row 1: not the header of the file
member,low\n => Crew row 1: not the header of the file
member,low,high,x\n => Crew row 1: not the header of the file
\C3,low,high\n => Crew row 1: not the header of the file
member,low,high\n => Crew row 1: without parts
member,low,high\nM1,0:00\n => Crew row 2: another number of fields than the header has
member,low,high\nM1,0:00,1:00,\n => Crew row 2: another number of fields than the header has
member,low,high\n\C3,0:00,90:00\n => Crew row 2: a field that is not UTF-8
member,low,high\nM1,\FF\n => Crew row 2: a field that is not UTF-8
member,low,high\nM 1,0:00,90:00\n => Crew row 2: field 1: no field of this form from byte 2 on
member,low,high\n,0:60,x\n => Crew row 2: field 1: an empty field
member,low,high\nM1,0:60,x\n => Crew row 2: field 2: out of range
member,low,high\nM1,00:00,1:00\n => Crew row 2: field 2: no field of this form from byte 2 on
member,low,high\nM1,0:00,1000:00\n => Crew row 2: field 3: no field of this form from byte 4 on
member,low,high\nM1,0:00,\n => Crew row 2: field 3: an empty field
member,low,high\nM1,0:00,1:00\nM1,2:00,1:00\n => Crew row 3: a name that stood before
member,low,high\nM1,2:00,1:59\n => Crew row 2: out of order
member,low,high\nM1,300:00,200:01\n => Crew row 2: out of order
member,low,high\nM1,0:00,200:01\n => Crew row 2: limit 6 is passed
member,low,high\nM1,200:01,200:01\n => Crew row 2: limit 6 is passed
member,low,high\nM1,2:00,1:59\nM2\n => Crew row 2: out of order
member,low,high\n\nM1,0:00,1:00\n\r\nM2\n => Crew row 3: another number of fields than the header has
member,low,high\n"M1",0:00,1:00\rM1,0:00,1:00 => Crew row 3: a name that stood before
member,low,high\n"M\n1",0:00,1:00\n => Crew row 2: field 1: no field of this form from byte 2 on"#;

#[test]
fn crew_faults(rt: HostRuntime) {
    for row in CREW_FAULTS.lines() {
        let (crew, due) = sides(row).expect(&rt, "a row has two sides");
        let crew = bytes_of(rt.alloc(), crew);
        assert_told(&rt, rt.alloc(), (&crew, NONE, NONE), due);
    }
}

/// Rows of history.csv, and what is said of them.
const HISTORY_FAULTS: &str =
    r"M3,leave,2026-05-01T08:00Z,2026-05-01T09:00Z,2026-05-01T09:00Z,,0:00\n => History row 2: a name or number of nothing
M1,leave,2026-05-01T08:00Z,2026-05-01T09:00Z,2026-05-01T09:00Z,,0:00,\n => History row 2: another number of fields than the header has
M1,leave,2026-05-01T08:00Z,2026-05-01T09:00Z,\C0,,0:00\n => History row 2: a field that is not UTF-8
,leave,x,x,x,x,x\n => History row 2: field 1: an empty field
M1,,x,x,x,x,x\n => History row 2: field 2: an empty field
M1,Leave,x,x,x,x,x\n => History row 2: field 2: no field of this form from byte 1 on
M1,leave,x,x,x,x,x\n => History row 2: field 3: no field of this form from byte 1 on
M1,leave,2026-05-01T08:00,x,x,x,x\n => History row 2: field 3: no field of this form from byte 17 on
M1,leave,2026-05-01T24:00Z,x,x,x,x\n => History row 2: field 3: out of range
M1,leave,2026-02-29T08:60Z,x,x,x,x\n => History row 2: field 3: out of range
M1,leave,2026-02-29T08:00Z,x,x,x,x\n => History row 2: field 3: no day of the calendar
M1,leave,2025-05-31T23:59Z,x,x,x,x\n => History row 2: field 3: outside the horizon
M1,leave,2025-06-01T00:00Z,x,x,x,x\n => History row 2: field 4: no field of this form from byte 1 on
M1,leave,2026-05-01T08:00Z,2026-05-01T09:00Z,2026-07-08T00:01Z,,0:00\n => History row 2: field 5: outside the horizon
M1,flight,2026-05-01T08:00Z,2026-05-01T14:00Z,2026-05-01T14:30Z,,x\n => History row 2: field 6: an empty field
M1,flight,2026-05-01T08:00Z,2026-05-01T14:00Z,2026-05-01T14:30Z,2026-05-01T09:00Z,x\n => History row 2: field 6: no field of this form from byte 18 on
M1,flight,2026-05-01T08:00Z,2026-05-01T14:00Z,2026-05-01T14:30Z,2026-05-01T09:00Z/2026-05-01T10:00Z ,x\n => History row 2: field 6: no field of this form from byte 37 on
M1,flight,2026-05-01T08:00Z,2026-05-01T14:00Z,2026-05-01T14:30Z,2026-05-01T09:00Z/2026-05-01T30:00Z  2026-05-01T11:00Z/2026-05-01T12:00Z,x\n => History row 2: field 6: no field of this form from byte 37 on
M1,flight,2026-05-01T08:00Z,2026-05-01T14:00Z,2026-05-01T14:30Z,2026-02-30T09:00Z/2024-05-01T10:00Z 2026-05-01T11:00Z/2026-05-01T12:60Z,x\n => History row 2: field 6: out of range
M1,flight,2026-05-01T08:00Z,2026-05-01T14:00Z,2026-05-01T14:30Z,2024-05-01T09:00Z/2026-05-01T10:00Z 2026-13-01T11:00Z/2026-05-01T12:00Z,x\n => History row 2: field 6: no day of the calendar
M1,ground,2026-05-01T08:00Z,2026-05-01T14:30Z,2026-05-01T14:30Z,2026-05-01T09:00Z/2027-05-01T10:00Z,x\n => History row 2: field 6: outside the horizon
M1,ground,2026-05-01T08:00Z,2026-05-01T14:00Z,2026-05-01T14:30Z,,x\n => History row 2: field 7: no field of this form from byte 1 on
M1,ground,2026-05-01T08:00Z,2026-05-01T14:00Z,2026-05-01T14:30Z,,0:00\n => History row 2: out of order
M1,ground,2026-05-01T08:00Z,2026-05-01T14:30Z,2026-05-01T14:30Z,2026-05-01T09:00Z/2026-05-01T10:00Z,0:00\n => History row 2: out of order
M1,leave,2026-06-01T08:00Z,2026-06-01T08:00Z,2026-06-01T08:00Z,,0:00\n => History row 2: out of order
M1,flight,2026-05-01T08:00Z,2026-05-01T07:00Z,2026-05-01T14:30Z,2026-05-01T09:00Z/2026-05-01T10:00Z,0:00\n => History row 2: out of order
M1,flight,2026-05-01T08:00Z,2026-05-01T14:00Z,2026-05-01T14:30Z,2026-05-01T07:59Z/2026-05-01T10:00Z,0:00\n => History row 2: out of order
M1,flight,2026-05-01T08:00Z,2026-05-01T14:00Z,2026-05-01T14:30Z,2026-05-01T09:00Z/2026-05-01T09:00Z,0:00\n => History row 2: out of order
M1,flight,2026-05-01T08:00Z,2026-05-01T14:00Z,2026-05-01T14:30Z,2026-05-01T09:00Z/2026-05-01T14:01Z,0:00\n => History row 2: out of order
M1,flight,2026-05-01T08:00Z,2026-05-01T14:00Z,2026-05-01T14:30Z,2026-05-01T11:00Z/2026-05-01T12:00Z 2026-05-01T09:00Z/2026-05-01T10:00Z,0:00\n => History row 2: out of order
M1,leave,2026-06-01T00:00Z,2026-06-01T08:00Z,2026-06-01T08:00Z,,0:00\n => History row 2: a report outside the month
M1,leave,2026-05-01T08:00Z,2026-05-01T09:00Z,2026-05-01T09:00Z,,200:01\n => History row 2: limit 6 is passed
M1,flight,2026-05-01T08:00Z,2026-05-01T14:00Z,2026-05-01T14:30Z,2026-05-01T08:00Z/2026-05-01T08:01Z 2026-05-01T08:01Z/2026-05-01T08:02Z 2026-05-01T08:02Z/2026-05-01T08:03Z 2026-05-01T08:03Z/2026-05-01T08:04Z 2026-05-01T08:04Z/2026-05-01T08:05Z 2026-05-01T08:05Z/2026-05-01T08:06Z 2026-05-01T08:06Z/2026-05-01T08:07Z 2026-05-01T08:07Z/2026-05-01T08:08Z 2026-05-01T08:08Z/2026-05-01T08:09Z,200:01\n => History row 2: limit 4 is passed";

#[test]
fn history_faults(rt: HostRuntime) {
    for row in HISTORY_FAULTS.lines() {
        let (events, due) = sides(row).expect(&rt, "a row has two sides");
        let history = joined(rt.alloc(), NONE, &bytes_of(rt.alloc(), events));
        assert_told(&rt, rt.alloc(), (CREW, &history, b""), due);
    }
}

/// Rows of fixed.csv, and what is said of them.
const LATER_FAULTS: &str =
    r"M1,leave,2026-06-01T08:59Z,2026-06-02T09:00Z,2026-06-02T09:00Z,,0:00\n => Fixed row 2: out of order
M2,leave,2026-06-01T08:59Z,2026-06-02T09:00Z,2026-06-02T09:00Z,,0:00\nM1,leave,2026-06-01T09:00Z,2026-06-02T09:00Z,2026-06-02T09:00Z,,0:00\nM1,leave,2026-06-02T08:59Z,2026-06-03T09:00Z,2026-06-03T09:00Z,,0:00\n => Fixed row 4: out of order
M2,leave,2026-05-31T23:59Z,2026-06-02T09:00Z,2026-06-02T09:00Z,,0:00\n => Fixed row 2: a report outside the month
M2,leave,2026-07-01T00:00Z,2026-07-02T09:00Z,2026-07-02T09:00Z,,0:00\n => Fixed row 2: a report outside the month
M2,leave,2026-06-30T23:59Z,2026-07-08T00:00Z,2026-07-08T00:00Z,,0:00\nM3,leave,2026-06-30T23:59Z,2026-07-08T00:00Z,2026-07-08T00:00Z,,0:00\n => Fixed row 3: a name or number of nothing
M2,leave,2026-06-01T08:59Z,2026-06-02T09:00Z,2026-06-02T09:00Z,,300:00\n => Fixed row 2: limit 6 is passed
\nM2,\C3\n => Fixed row 2: a field that is not UTF-8
M2\r\n => Fixed row 2: another number of fields than the header has";

const LEAVE: &[u8] = b"M1,leave,2026-05-01T08:00Z,2026-06-01T09:00Z,2026-06-01T09:00Z,,0:00\n";

const PAST: &[u8] =
    b"member,kind,report,parked,release,legs,credit\nM1,leave,2026-05-01T08:00Z,2026-06-01T09:00Z,2026-06-01T09:00Z,,0:00\n";

#[test]
fn faults_of_later_rows(rt: HostRuntime) {
    for row in LATER_FAULTS.lines() {
        let (events, due) = sides(row).expect(&rt, "a row has two sides");
        let fixed = joined(rt.alloc(), NONE, &bytes_of(rt.alloc(), events));
        assert_told(&rt, rt.alloc(), (CREW, PAST, &fixed), due);
    }
}

#[test]
fn first_file_at_fault(rt: HostRuntime) {
    let alloc = rt.alloc();
    let due = "Fixed row 1: not the header of the file";
    assert_told(&rt, alloc, (CREW, NONE, b"member,kind\n"), due);
    assert_told(&rt, alloc, (NO_CREW, NONE, b"x\n"), due);
    let due = "History row 1: not the header of the file";
    assert_told(&rt, alloc, (CREW, b"", b""), due);
    let due = "History row 2: a name or number of nothing";
    assert_told(&rt, alloc, (NO_CREW, PAST, b""), due);
    let twice = joined(alloc, PAST, LEAVE);
    assert_told(
        &rt,
        alloc,
        (CREW, &twice, b""),
        "History row 3: out of order",
    );
}

/// A crew of so many members, M000 and on.
fn many_members(alloc: Global, count: u32) -> Vec<u8> {
    numbered(alloc, NO_CREW, b'M', b",0:00,1:00\n", count)
}

/// The two digits of a number below 100.
fn two_digits(number: u32) -> [u8; 2] {
    [digit(number / 10), digit(number)]
}

/// A ground event of one minute, so many hours from the month's begin.
fn push_event(text: &mut Vec<u8>, month: &[u8], hours: u32) {
    let day = two_digits(hours / 24 + 1);
    let hour = two_digits(hours % 24);
    let _ = text.extend_from_slice(b"M1,ground");
    for minute in [b'0', b'1', b'1'] {
        let _ = text.push(b',');
        let _ = text.extend_from_slice(month);
        let _ = text.extend_from_slice(&day);
        let _ = text.push(b'T');
        let _ = text.extend_from_slice(&hour);
        let _ = text.extend_from_slice(b":0");
        let _ = text.push(minute);
        let _ = text.push(b'Z');
    }
    let _ = text.extend_from_slice(b",,0:00\n");
}

/// So many ground events of one minute each, one an hour from the month's begin on.
fn many_events(alloc: Global, month: &[u8], count: u32) -> Vec<u8> {
    let mut text = Vec::new(alloc);
    let _ = text.extend_from_slice(NONE);
    for hours in 0..count {
        push_event(&mut text, month, hours);
    }
    text
}

#[test]
fn limits_of_members_and_events(rt: HostRuntime) {
    let alloc = rt.alloc();
    let most = many_members(alloc, 200);
    assert_told(&rt, alloc, (&most, NONE, NONE), "200 members");
    let more = many_members(alloc, 201);
    let due = "Crew row 202: limit 1 is passed";
    assert_told(&rt, alloc, (&more, NONE, NONE), due);
    let past = many_events(alloc, b"2026-05-", 500);
    let coming = many_events(alloc, b"2026-06-", 60);
    assert_told(&rt, alloc, (CREW, &past, &coming), "2 members");
    let past = many_events(alloc, b"2026-05-", 501);
    let due = "History row 502: limit 7 is passed";
    assert_told(&rt, alloc, (CREW, &past, NONE), due);
    let coming = many_events(alloc, b"2026-06-", 61);
    let due = "Fixed row 62: limit 8 is passed";
    assert_told(&rt, alloc, (CREW, NONE, &coming), due);
}
