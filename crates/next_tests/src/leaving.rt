//! What reaches over the end of June changes July's award: A flies June's trips, and both bid for the one trip of July, which
//! is A's by seniority and B's by the rules.

use crate::folders::{NO_EVENTS, empty, june, put_trips};
use crate::runs::{place, printed, text_of};
use crate::years::nearly_thousand_hours;
use next_folder::roll_over;
use shelf::MemoryShelf;
use std::alloc::Global;
use std::process::Abort;

/// Three nights in a row, and the fourth.
const NIGHTS: &str = "T1 2026-06-28T22:00Z 2026-06-28T23:00Z 2026-06-29T04:00Z
T2 2026-06-29T22:00Z 2026-06-29T23:00Z 2026-06-30T04:00Z
T3 2026-06-30T22:00Z 2026-06-30T23:00Z 2026-07-01T04:00Z";

const FOURTH_NIGHT: &str = "P1 2026-07-01T22:00Z 2026-07-01T23:00Z 2026-07-02T04:00Z";

/// Six days in a row, and a seventh, before which no 30 hours are free.
const DAYS: &str = "T1 2026-06-25T08:00Z 2026-06-25T09:00Z 2026-06-25T16:00Z
T2 2026-06-26T08:00Z 2026-06-26T09:00Z 2026-06-26T16:00Z
T3 2026-06-27T08:00Z 2026-06-27T09:00Z 2026-06-27T16:00Z
T4 2026-06-28T08:00Z 2026-06-28T09:00Z 2026-06-28T16:00Z
T5 2026-06-29T08:00Z 2026-06-29T09:00Z 2026-06-29T16:00Z
T6 2026-06-30T08:00Z 2026-06-30T09:00Z 2026-06-30T16:00Z";

const SEVENTH_DAY: &str = "P1 2026-07-01T08:00Z 2026-07-01T09:00Z 2026-07-01T16:00Z";

/// Fifty hours of duty in a week, and eleven more within 168 hours.
const LONG_DAYS: &str = "T1 2026-06-25T06:00Z 2026-06-25T07:00Z 2026-06-25T16:00Z
T2 2026-06-26T06:00Z 2026-06-26T07:00Z 2026-06-26T16:00Z
T3 2026-06-27T06:00Z 2026-06-27T07:00Z 2026-06-27T16:00Z
T4 2026-06-28T06:00Z 2026-06-28T07:00Z 2026-06-28T16:00Z
T5 2026-06-30T06:00Z 2026-06-30T07:00Z 2026-06-30T16:00Z";

const LONG_NIGHT: &str = "P1 2026-07-01T19:00Z 2026-07-01T20:00Z 2026-07-02T06:00Z";

/// Ten hours of a year that has 985 already, and six more.
const FEW_HOURS: &str = "T1 2026-06-10T08:00Z 2026-06-10T09:00Z 2026-06-10T14:00Z
T2 2026-06-30T08:00Z 2026-06-30T09:00Z 2026-06-30T14:00Z";

const LAST_HOURS: &str = "P1 2026-07-03T08:00Z 2026-07-03T09:00Z 2026-07-03T15:00Z";

/// The rosters of July.
const IS_OF_A: &str = "member,pairings,credit,score\nA,P1,5:00,5\nB,,0:00,0\n";

const IS_OF_B: &str = "member,pairings,credit,score\nA,,0:00,0\nB,P1,5:00,5\n";

/// July after a June with this history and these trips, with a trip that both bid for.
fn july(rt: &impl Abort, alloc: Global, history: &str, trips: &str, trip: &str) -> MemoryShelf {
    let mut june = june(rt, alloc, history, trips);
    let mut july = empty(alloc);
    let rolled = roll_over(alloc, &mut june, &mut july, false);
    assert!(rt; rolled.is_ok());
    put_trips(rt, alloc, &mut july, trip);
    let bids = "member A\n5 fly P1\nmember B\n5 fly P1\n";
    place(rt, alloc, &mut july, "bids.txt", bids);
    july
}

/// Awards July, and says that its roster is this one and stands.
fn assert_awards(rt: &impl Abort, alloc: Global, july: &mut MemoryShelf, roster: &str) {
    let said = printed(rt, alloc, july, "award");
    assert!(rt; said.starts_with("award\n"), "{said}");
    let found = text_of(rt, alloc, july, "roster.csv");
    assert!(rt; found.as_str() == roster, "{found}");
    let judged = printed(rt, alloc, july, "check");
    assert!(rt; judged.starts_with("yes\n"), "{judged}");
}

/// Drops the row of the last event from a history.
fn cut(rt: &impl Abort, alloc: Global, july: &mut MemoryShelf) {
    let text = text_of(rt, alloc, july, "history.csv");
    let rows = text.strip_suffix('\n').expect(rt, "a last line");
    let (before, _last) = rows.rsplit_once('\n').expect(rt, "a row");
    let less = format!(in alloc; "{before}\n").expect(rt, "memory");
    place(rt, alloc, july, "history.csv", &less);
}

/// Says that July's trip is B's by the history that was written, and A's where the last duty of June is left out: the judge
/// accepts that too, since it is a matter of the files.
fn assert_changes(rt: &impl Abort, alloc: Global, history: &str, trips: &str, trip: &str) {
    let mut july = july(rt, alloc, history, trips, trip);
    assert_awards(rt, alloc, &mut july, IS_OF_B);
    cut(rt, alloc, &mut july);
    assert_awards(rt, alloc, &mut july, IS_OF_A);
}

#[test]
fn a_row_of_nights_goes_on_over_the_end_of_the_month(rt: HostRuntime) {
    assert_changes(&rt, rt.alloc(), NO_EVENTS, NIGHTS, FOURTH_NIGHT);
}

#[test]
fn thirty_free_hours_are_looked_for_in_the_month_before(rt: HostRuntime) {
    assert_changes(&rt, rt.alloc(), NO_EVENTS, DAYS, SEVENTH_DAY);
}

#[test]
fn a_window_of_168_hours_reaches_into_the_month_before(rt: HostRuntime) {
    assert_changes(&rt, rt.alloc(), NO_EVENTS, LONG_DAYS, LONG_NIGHT);
}

#[test]
fn a_thousand_hours_are_counted_over_the_year(rt: HostRuntime) {
    let alloc = rt.alloc();
    let history = nearly_thousand_hours(&rt, alloc);
    assert_changes(&rt, alloc, &history, FEW_HOURS, LAST_HOURS);
}

#[test]
fn without_any_history_the_trip_would_be_of_the_senior_pilot(rt: HostRuntime) {
    let alloc = rt.alloc();
    let mut july = july(&rt, alloc, NO_EVENTS, NIGHTS, FOURTH_NIGHT);
    place(&rt, alloc, &mut july, "history.csv", NO_EVENTS);
    assert_awards(&rt, alloc, &mut july, IS_OF_A);
}
