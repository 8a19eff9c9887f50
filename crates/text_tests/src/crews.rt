//! The three files of members, read and written.

use crate::members::{BYTES, read};
use crew_files::{MemberTexts, put_members, read_members};
use duty_calendar::{Event, Horizon, Kind, Member};
use std::alloc::Global;
use std::process::Abort;

/// Says which flight the first member's history has.
fn assert_flight(rt: &impl Abort, flight: &Event) {
    assert!(rt; flight.kind == Kind::Flight && flight.report == 481_440);
    assert!(rt; flight.parked == 481_800 && flight.release == 481_830 && flight.credit == 300);
    assert!(rt; flight.flights.len() == 2);
    let last = &flight.flights.as_slice()[1];
    assert!(rt; last.out_at == 481_560 && last.in_at == 481_800);
}

/// Says who the first member is.
fn assert_first(rt: &impl Abort, first: &Member) {
    assert!(rt; first.name.bytes() == b"M1".as_slice());
    assert!(rt; first.low == 0 && first.high == 5400);
    assert!(rt; first.history.len() == 1 && first.fixed.len() == 2);
    assert_flight(rt, &first.history.as_slice()[0]);
    let leave = &first.fixed.as_slice()[1];
    assert!(rt; leave.kind == Kind::Leave && leave.report == 526_470 && leave.release == 526_471);
}

#[test]
fn reads(rt: HostRuntime) {
    let alloc = rt.alloc();
    let crew = b"\xEF\xBB\xBFmember,low,high\r\n\"M1\",0:00,90:00\r\n\nM-2_x,1:05,200:00";
    let history =
        b"member,kind,report,parked,release,legs,credit\nM1,flight,2026-05-01T08:00Z,2026-05-01T14:00Z,2026-05-01T14:30Z,2026-05-01T09:00Z/2026-05-01T10:00Z 2026-05-01T10:00Z/2026-05-01T14:00Z,5:00\n";
    let fixed =
        b"member,kind,report,parked,release,legs,credit\nM1,ground,2026-06-01T00:00Z,2026-06-01T14:30Z,2026-06-01T14:30Z,,0:00\nM1,leave,2026-06-01T14:30Z,2026-06-01T14:31Z,2026-06-01T14:31Z,,1:00\n";
    let list = read(alloc, crew, history, fixed).expect(&rt, "members");
    assert!(rt; list.len() == 2);
    assert_first(&rt, &list.as_slice()[0]);
    let second = &list.as_slice()[1];
    assert!(rt; second.name.bytes() == b"M-2_x".as_slice());
    assert!(rt; second.low == 65 && second.high == 12_000);
}

/// The files of what is read of three files.
fn again(rt: &impl Abort, alloc: Global, crew: &[u8], history: &[u8], fixed: &[u8]) -> MemberTexts {
    assert!(rt; crew.len() <= BYTES);
    assert!(rt; history.len() <= BYTES);
    assert!(rt; fixed.len() <= BYTES);
    let horizon = Horizon::new(2026, 6, 0).expect(rt, "June 2026");
    let list = read_members(alloc, crew, history, fixed, &horizon).expect(rt, "members");
    put_members(alloc, list.as_slice(), &horizon).expect(rt, "memory")
}

#[test]
fn writes_what_reads_back(rt: HostRuntime) {
    let alloc = rt.alloc();
    let crew = b"member,low,high\nM1,0:00,90:00\nM-2_x,1:05,200:00\n";
    let history =
        b"member,kind,report,parked,release,legs,credit\nM1,flight,2025-06-01T00:00Z,2026-05-01T14:00Z,2026-05-01T14:30Z,2026-05-01T09:00Z/2026-05-01T10:00Z 2026-05-01T10:00Z/2026-05-01T14:00Z,5:00\nM1,leave,2026-05-31T23:59Z,2026-06-01T14:30Z,2026-06-01T14:30Z,,0:00\nM-2_x,ground,2026-05-31T23:59Z,2026-06-01T14:30Z,2026-06-01T14:30Z,,0:01\n";
    let fixed =
        b"member,kind,report,parked,release,legs,credit\nM-2_x,leave,2026-06-30T14:30Z,2026-07-08T00:00Z,2026-07-08T00:00Z,,10:09\n";
    let texts = again(&rt, alloc, crew, history, fixed);
    assert!(rt; texts.crew.as_slice() == crew.as_slice());
    assert!(rt; texts.history.as_slice() == history.as_slice());
    assert!(rt; texts.fixed.as_slice() == fixed.as_slice());
    let list = read(alloc, crew, history, fixed);
    let same = read(
        alloc,
        texts.crew.as_slice(),
        texts.history.as_slice(),
        texts.fixed.as_slice(),
    );
    assert!(rt; list == same);
}
