//! Sheets, what becomes of them and what is said.

use duty_calendar::Horizon;
use file_places::Prose;
use sheet_import::{Before, import_sheet, read_back};
use std::alloc::Global;
use std::process::Abort;
use std::test::Fail;

// A sheet of this name becomes this text, or nothing where it is empty, and this is said.
fn becomes(
    rt: &impl Abort,
    alloc: Global,
    sheet: &[u8],
    bytes: &[u8],
    text: &[u8],
    said: &[u8],
) -> Result<(), Fail> {
    let mut prose = Prose::new(alloc);
    match import_sheet(alloc, &mut prose, sheet, bytes)? {
        Some(made) => assert!(rt; made.bytes.as_slice() == text),
        None => assert!(rt; text.is_empty()),
    }
    assert!(rt; prose.as_slice() == said);
    Ok(())
}

#[test]
fn a_file_stays_as_it_is(rt: HostRuntime) -> Result<(), Fail> {
    let text = b"member,low,high\nM1,40:00,90:00\n";
    becomes(&rt, rt.alloc(), b"crew.csv", text, text, b"")
}

#[test]
fn what_spreadsheets_write_is_said(rt: HostRuntime) -> Result<(), Fail> {
    becomes(
        &rt,
        rt.alloc(),
        b"Fixed June.csv",
        b"\xEF\xBB\xBFMember; Kind;Report;Parked;Release;Legs;Credit\r\n\"M1\";leave;02.06.2026 10:00;2026-06-03 08:00;2026-06-03T08:00Z;;0:00\r\n",
        b"member,kind,report,parked,release,legs,credit\nM1,leave,2026-06-02T10:00Z,2026-06-03T08:00Z,2026-06-03T08:00Z,,0:00\n",
        b"the byte order mark is left out\ncommas stand between fields now, and no semicolons\na line feed alone ends each line now\nquotes around fields are left out\nblanks around fields are left out\nthe head is in small letters now\nrow 2, Report: 02.06.2026 10:00 is now 2026-06-02T10:00Z\nrow 2, Parked: 2026-06-03 08:00 is now 2026-06-03T08:00Z\n",
    )
}

#[test]
fn legs_are_moments_with_a_slash(rt: HostRuntime) -> Result<(), Fail> {
    becomes(
        &rt,
        rt.alloc(),
        b"HISTORY",
        b"member,kind,report,parked,release,legs,credit\nM1,flight,a,b,c,30.05.2026 10:00/30.05.2026 12:00 x,1:00\n",
        b"member,kind,report,parked,release,legs,credit\nM1,flight,a,b,c,2026-05-30T10:00Z/2026-05-30T12:00Z x,1:00\n",
        b"row 2, legs: 30.05.2026 10:00/30.05.2026 12:00 x is now 2026-05-30T10:00Z/2026-05-30T12:00Z x\n",
    )
}

#[test]
fn letters_of_two_bytes(rt: HostRuntime) -> Result<(), Fail> {
    let said = b"letters of UTF-16 are now of UTF-8\n";
    let sheet = b"\xFF\xFEm\0e\0m\0b\0e\0r\0,\0l\0o\0w\0,\0h\0i\0g\0h\0\n\0";
    becomes(&rt, rt.alloc(), b"", sheet, b"member,low,high\n", said)?;
    let sheet = b"\xFE\xFF\0m\0e\0m\0b\0e\0r\0,\0l\0o\0w\0,\0h\0i\0g\0h\0\n";
    becomes(&rt, rt.alloc(), b"", sheet, b"member,low,high\n", said)?;
    let tabs =
        b"letters of UTF-16 are now of UTF-8\ncommas stand between fields now, and no tabs\n";
    let sheet = b"\xFF\xFEm\0e\0m\0b\0e\0r\0\t\0l\0o\0w\0\t\0h\0i\0g\0h\0\n\0";
    becomes(&rt, rt.alloc(), b"", sheet, b"member,low,high\n", tabs)?;
    let said =
        b"letters of UTF-16 are now of UTF-8\nthe sheet has a letter that no file of a month has\n";
    becomes(&rt, rt.alloc(), b"", b"\xFF\xFEm\0\x20\x20", b"", said)?;
    becomes(&rt, rt.alloc(), b"", b"\xFF\xFEm", b"", said)
}

#[test]
fn heads_of_no_file_or_of_two(rt: HostRuntime) -> Result<(), Fail> {
    let said = b"no file of a month has the head member,low\n";
    becomes(&rt, rt.alloc(), b"", b"member,low\n", b"", said)?;
    let said =
        b"history.csv and fixed.csv have this head: let the sheet's name begin with history or fixed\n";
    let head = b"member,kind,report,parked,release,legs,credit\n";
    becomes(&rt, rt.alloc(), b"june.csv", head, b"", said)?;
    becomes(&rt, rt.alloc(), b"", b"", b"", b"the sheet is empty\n")
}

#[test]
fn fields_that_want_quotes(rt: HostRuntime) -> Result<(), Fail> {
    let said =
        b"row 2: a field has a comma, a quote or a line end within, which no file of a month has\n";
    let comma = b"member,low,high\n\"M1,40:00\",90:00\n";
    becomes(&rt, rt.alloc(), b"", comma, b"", said)?;
    let semicolons = b"member;low;high\nM1,40:00;90:00\n";
    becomes(&rt, rt.alloc(), b"", semicolons, b"", said)?;
    let line_end = b"member,low,high\nM1,40:00,\"90:00\nM2\"\n";
    becomes(&rt, rt.alloc(), b"", line_end, b"", said)
}

// What becomes of a sheet of fixed rows of June 2026 has a fault in this row, or in none where it is 0.
fn is_read(rt: &impl Abort, alloc: Global, bytes: &[u8], row: u32) -> Result<(), Fail> {
    let horizon = Horizon::new(2026, 6, 60).expect(rt, "month");
    let before = Before {
        first: b"member,low,high\nM1,0:00,90:00\n",
        second: b"member,kind,report,parked,release,legs,credit\n",
    };
    let mut prose = Prose::new(alloc);
    let found = import_sheet(alloc, &mut prose, b"fixed", bytes)?;
    let made = found.expect(rt, "file");
    match read_back(alloc, &horizon, before, &made) {
        Ok(()) => assert!(rt; row == 0),
        Err(fault) => assert!(rt; fault.row == row),
    }
    Ok(())
}

#[test]
fn readers_take_it_or_name_the_row(rt: HostRuntime) -> Result<(), Fail> {
    let alloc = rt.alloc();
    let good =
        b"member;kind;report;parked;release;legs;credit\nM1;leave;02.06.2026 10:00;03.06.2026 10:00;03.06.2026 10:00;;0:00\n";
    is_read(&rt, alloc, good, 0)?;
    let slashes =
        b"member;kind;report;parked;release;legs;credit\nM1;leave;02/06/2026 10:00;03/06/2026 10:00;03/06/2026 10:00;;0:00\n";
    is_read(&rt, alloc, slashes, 2)
}
