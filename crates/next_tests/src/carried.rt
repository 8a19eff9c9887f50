//! What the files of July say after June.

use crate::folders::{NO_EVENTS, empty, june};
use crate::runs::{place, text_of};
use next_folder::roll_over;
use shelf::MemoryShelf;
use std::alloc::Global;
use std::process::Abort;

/// A trip over the end of June, and one in it.
const TRIPS: &str = "T1 2026-06-10T08:00Z 2026-06-10T09:00Z 2026-06-10T14:00Z
T2 2026-06-30T22:00Z 2026-06-30T23:00Z 2026-07-01T04:00Z";

/// Flights of last year, on the day before July's day 0 and on it.
const OLD: &str = "member,kind,report,parked,release,legs,credit
B,flight,2025-06-30T08:00Z,2025-06-30T14:00Z,2025-06-30T14:30Z,2025-06-30T08:30Z/2025-06-30T13:30Z,0:00
B,flight,2025-07-01T08:00Z,2025-07-01T14:00Z,2025-07-01T14:30Z,2025-07-01T08:30Z/2025-07-01T13:30Z,0:00
";

/// Leave of B that goes on into July, and a flight that was fixed in June.
const FIXED: &str = "member,kind,report,parked,release,legs,credit
B,flight,2026-06-15T08:00Z,2026-06-15T14:00Z,2026-06-15T14:30Z,2026-06-15T08:30Z/2026-06-15T13:30Z,5:00
B,leave,2026-06-20T00:00Z,2026-07-05T00:00Z,2026-07-05T00:00Z,,10:00
";

const HISTORY: &str = "member,kind,report,parked,release,legs,credit
A,flight,2026-06-10T08:00Z,2026-06-10T14:00Z,2026-06-10T14:00Z,2026-06-10T09:00Z/2026-06-10T14:00Z,0:00
A,flight,2026-06-30T22:00Z,2026-07-01T04:00Z,2026-07-01T04:00Z,2026-06-30T23:00Z/2026-07-01T04:00Z,0:00
B,flight,2025-07-01T08:00Z,2025-07-01T14:00Z,2025-07-01T14:30Z,2025-07-01T08:30Z/2025-07-01T13:30Z,0:00
B,flight,2026-06-15T08:00Z,2026-06-15T14:00Z,2026-06-15T14:30Z,2026-06-15T08:30Z/2026-06-15T13:30Z,5:00
";

const JULY_FIXED: &str = "member,kind,report,parked,release,legs,credit
B,leave,2026-07-01T00:00Z,2026-07-05T00:00Z,2026-07-05T00:00Z,,10:00
";

/// Says what a file holds.
fn assert_holds(rt: &impl Abort, alloc: Global, shelf: &MemoryShelf, name: &str, text: &str) {
    let found = text_of(rt, alloc, shelf, name);
    assert!(rt; found.as_str() == text, "{name}: {found}");
}

#[test]
fn the_files_of_july_are_written(rt: HostRuntime) {
    let alloc = rt.alloc();
    let mut june = june(&rt, alloc, OLD, TRIPS);
    place(&rt, alloc, &mut june, "fixed.csv", FIXED);
    let roster = "member,pairings,credit,score\nA,T1 T2,10:00,200\nB,,15:00,0\n";
    place(&rt, alloc, &mut june, "roster.csv", roster);
    let mut july = empty(alloc);
    let rolled = roll_over(alloc, &mut june, &mut july, false);
    assert!(rt; rolled.is_ok());
    let rules = "base = \"DUB\"\nseat = \"FO\"\nyear = 2026\nmonth = 7\noffset = 0\ndays_off = 0\n";
    assert_holds(&rt, alloc, &july, "rules.toml", rules);
    let crew = "member,low,high\nA,0:00,190:00\nB,0:00,190:00\n";
    assert_holds(&rt, alloc, &july, "crew.csv", crew);
    assert_holds(&rt, alloc, &july, "history.csv", HISTORY);
    assert_holds(&rt, alloc, &july, "fixed.csv", JULY_FIXED);
    assert!(rt; july.file("bids.txt").is_none());
}

#[test]
fn a_crew_that_is_there_stays(rt: HostRuntime) {
    let alloc = rt.alloc();
    let mut june = june(&rt, alloc, NO_EVENTS, TRIPS);
    let mut july = empty(alloc);
    let crew = "member,low,high\nC,0:00,80:00\nA,0:00,90:00\n";
    place(&rt, alloc, &mut july, "crew.csv", crew);
    let rolled = roll_over(alloc, &mut june, &mut july, false)
        .ok()
        .expect(&rt, "a history");
    let newcomers = rolled.newcomers.as_slice();
    assert!(rt; newcomers.len() == 1 && newcomers[0].bytes() == b"C".as_slice());
    let leavers = rolled.leavers.as_slice();
    assert!(rt; leavers.len() == 1 && leavers[0].bytes() == b"B".as_slice());
    assert_holds(&rt, alloc, &july, "crew.csv", crew);
    let text = text_of(&rt, alloc, &july, "history.csv");
    assert!(rt; text.lines().count() == 3, "{text}");
}
