//! The views of two members: one flies on a day that was wanted off, the other is on leave then.
ghost use Rattle.std.specs.Prelude.{◌≡◌, ◌<◌, length, All};

use crate::fixtures::{File, month_with};
use crate::rosters::roster_of;
use roster_model::{Problem, Roster};
use roster_text::print_month;
use std::alloc::Global;
use std::process::Abort;

/// The senior member wants the tenth of June off, and the junior one is on leave then.
const LEAVE: [File; 3] = [
    (
        "crew.csv",
        "member,low,high\nM1,0:00,90:00\nM2,0:00,90:00\n",
    ),
    (
        "fixed.csv",
        "member,kind,report,parked,release,legs,credit\nM2,leave,2026-06-10T00:00Z,2026-06-11T00:00Z,2026-06-11T00:00Z,,0:00\n",
    ),
    ("bids.txt", "member M1\n10 off 2026-06-10\n"),
];

/// The view of the member who flies.
const FLYING: &[u8] =
    b"member M1 credit 5:00 of 0:00 to 90:00 score 0 daysoff 29\n2026-06-01 MON -\n2026-06-02 TUE -\n2026-06-03 WED -\n2026-06-04 THU -\n2026-06-05 FRI -\n2026-06-06 SAT -\n2026-06-07 SUN -\n2026-06-08 MON -\n2026-06-09 TUE -\n2026-06-10 WED P1\n2026-06-11 THU -\n2026-06-12 FRI -\n2026-06-13 SAT -\n2026-06-14 SUN -\n2026-06-15 MON -\n2026-06-16 TUE -\n2026-06-17 WED -\n2026-06-18 THU -\n2026-06-19 FRI -\n2026-06-20 SAT -\n2026-06-21 SUN -\n2026-06-22 MON -\n2026-06-23 TUE -\n2026-06-24 WED -\n2026-06-25 THU -\n2026-06-26 FRI -\n2026-06-27 SAT -\n2026-06-28 SUN -\n2026-06-29 MON -\n2026-06-30 TUE -\nbid 1 denied 10 off 2026-06-10\n";

/// The view of the member on leave.
const ON_LEAVE: &[u8] =
    b"member M2 credit 0:00 of 0:00 to 90:00 score 0 daysoff 30\n2026-06-01 MON -\n2026-06-02 TUE -\n2026-06-03 WED -\n2026-06-04 THU -\n2026-06-05 FRI -\n2026-06-06 SAT -\n2026-06-07 SUN -\n2026-06-08 MON -\n2026-06-09 TUE -\n2026-06-10 WED leave\n2026-06-11 THU -\n2026-06-12 FRI -\n2026-06-13 SAT -\n2026-06-14 SUN -\n2026-06-15 MON -\n2026-06-16 TUE -\n2026-06-17 WED -\n2026-06-18 THU -\n2026-06-19 FRI -\n2026-06-20 SAT -\n2026-06-21 SUN -\n2026-06-22 MON -\n2026-06-23 TUE -\n2026-06-24 WED -\n2026-06-25 THU -\n2026-06-26 FRI -\n2026-06-27 SAT -\n2026-06-28 SUN -\n2026-06-29 MON -\n2026-06-30 TUE -\n";

/// Says what a member's view is.
fn assert_view(
    rt: &impl Abort,
    alloc: Global,
    problem: &Problem,
    roster: &Roster,
    member: u32,
    view: &[u8],
)
    requires lines { length roster.now ≡ length problem.now.base.members }
    requires in_range { All (All (λ p. p < length problem.now.base.pairings)) roster.now }
    requires member { member < length problem.now.base.members }
{
    let text = print_month(alloc, problem, roster, member).expect(rt, "memory");
    assert!(rt; text.as_slice() == view);
}

#[test]
fn prints_the_views_of_two_members(rt: HostRuntime) {
    let alloc = rt.alloc();
    let problem = month_with(&rt, alloc, &LEAVE);
    assert!(rt; problem.base.members.len() == 2);
    let text = b"member,pairings,credit,score\nM1,P1,5:00,0\nM2,,0:00,0\n";
    let roster = roster_of(&rt, alloc, &problem, text);
    assert_view(&rt, alloc, &problem, &roster, 0, FLYING);
    assert_view(&rt, alloc, &problem, &roster, 1, ON_LEAVE);
}
