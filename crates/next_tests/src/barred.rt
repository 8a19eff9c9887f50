//! What is refused.

use crate::folders::{NO_EVENTS, empty, june};
use crate::runs::place;
use duty_calendar::List;
use line_legality::{Illegal, RosterFault};
use month_files::File;
use next_folder::{Barrier, HistoryStop, RolledOver, roll_over};
use shelf::MemoryShelf;
use std::alloc::Global;
use std::process::Abort;

/// Two trips that A can fly, one in the other's time, and one more.
const TRIPS: &str = "T1 2026-06-10T08:00Z 2026-06-10T09:00Z 2026-06-10T14:00Z
T2 2026-06-20T08:00Z 2026-06-20T09:00Z 2026-06-20T14:00Z";

/// What stands against it.
fn barrier(rt: &impl Abort, end: Result<RolledOver, HistoryStop>) -> Barrier {
    match end {
        Err(HistoryStop::Barred(why)) => why,
        _ => panic!(rt; "nothing stands against it"),
    }
}

/// What stands against June with this roster.
fn barred(rt: &impl Abort, alloc: Global, roster: &str, july: &mut MemoryShelf) -> Barrier {
    let mut june = june(rt, alloc, NO_EVENTS, TRIPS);
    place(rt, alloc, &mut june, "roster.csv", roster);
    barrier(rt, roll_over(alloc, &mut june, july, false))
}

const ROSTER: &str = "member,pairings,credit,score\nA,T1 T2,10:00,200\nB,,0:00,0\n";

#[test]
fn rosters_that_are_not_complete_are_refused(rt: HostRuntime) {
    let alloc = rt.alloc();
    let mut july = empty(alloc);
    let uncovered = "member,pairings,credit,score\nA,T1,5:00,100\nB,,0:00,0\n";
    let why = barred(&rt, alloc, uncovered, &mut july);
    assert!(rt; matches!(why, Barrier::Incomplete(RosterFault::Cover(1, 0))));
    let misspelt = "member,pairings,credit,score\nA,T1 T2,10:00,100\nB,,0:00,0\n";
    let why = barred(&rt, alloc, misspelt, &mut july);
    assert!(rt; matches!(why, Barrier::Roster(_)));
    assert!(rt; july.file("history.csv").is_none());
}

#[test]
fn illegal_lines_are_refused(rt: HostRuntime) {
    let alloc = rt.alloc();
    let mut june = june(&rt, alloc, NO_EVENTS, TRIPS);
    let crew = "member,low,high\nA,0:00,5:00\nB,0:00,5:00\n";
    place(&rt, alloc, &mut june, "crew.csv", crew);
    let mut july = empty(alloc);
    let why = barrier(&rt, roll_over(alloc, &mut june, &mut july, false));
    assert!(rt;
        matches!(
            why,
            Barrier::Incomplete(RosterFault::Line(0, Illegal::Credit(600)))
        )
    );
    assert!(rt; july.file("history.csv").is_none());
}

#[test]
fn history_that_is_there_is_written_over_by_force_alone(rt: HostRuntime) {
    let alloc = rt.alloc();
    let mut july = empty(alloc);
    place(&rt, alloc, &mut july, "history.csv", "mine\n");
    let why = barred(&rt, alloc, ROSTER, &mut july);
    assert!(rt; matches!(why, Barrier::IsThere));
    assert!(rt; july.file("history.csv") == Some(b"mine\n".as_slice()));
    let mut june = june(&rt, alloc, NO_EVENTS, TRIPS);
    let rolled = roll_over(alloc, &mut june, &mut july, true);
    assert!(rt; rolled.is_ok());
    assert!(rt; july.file("history.csv") != Some(b"mine\n".as_slice()));
}

#[test]
fn files_of_another_month_are_refused(rt: HostRuntime) {
    let alloc = rt.alloc();
    let mut july = empty(alloc);
    let rules = "base = \"DUB\"\nseat = \"FO\"\nyear = 2026\nmonth = 8\noffset = 0\ndays_off = 0\n";
    place(&rt, alloc, &mut july, "rules.toml", rules);
    let why = barred(&rt, alloc, ROSTER, &mut july);
    assert!(rt; matches!(why, Barrier::OtherMonth));
    place(&rt, alloc, &mut july, "rules.toml", "base: DUB\n");
    let why = barred(&rt, alloc, ROSTER, &mut july);
    assert!(rt; matches!(why, Barrier::NextRules(_)));
}

#[test]
fn files_that_do_not_fit_together_are_refused(rt: HostRuntime) {
    let alloc = rt.alloc();
    let mut july = empty(alloc);
    let fixed = "member,kind,report,parked,release,legs,credit
A,ground,2026-07-01T08:00Z,2026-07-01T07:00Z,2026-07-01T07:00Z,,0:00
";
    place(&rt, alloc, &mut july, "fixed.csv", fixed);
    let why = barred(&rt, alloc, ROSTER, &mut july);
    assert!(rt; matches!(why, Barrier::NextMembers(_)));
    assert!(rt; july.file("history.csv").is_none());
}

#[test]
fn a_file_that_is_not_written_is_named(rt: HostRuntime) {
    let alloc = rt.alloc();
    let mut june = june(&rt, alloc, NO_EVENTS, TRIPS);
    let mut failing = List::new(alloc);
    assert!(rt; failing.push(5).is_ok());
    let mut july = MemoryShelf::new(alloc, failing);
    match roll_over(alloc, &mut june, &mut july, false) {
        Err(HistoryStop::Unwritten(_, stop)) => assert!(rt;
            stop.before == 0 && stop.file == File::Rules
        ),
        _ => panic!(rt; "a write that failed"),
    }
}
