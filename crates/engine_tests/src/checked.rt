//! Months that are checked.

use crate::play::play;
use crate::runs::{checked, put, run_over, shelf_of};
use crate::years::thousand_hours;
use duty_calendar::List;
use pbs_engine::Status;

/// The smallest month, other spellings of it, and events that leave just the rest that is due.
const ACCEPTED: &str = r#"smallest
check => Done yes\nvector 10

smallest
rules.toml <- # June\nmonth = 6\nbase = "DUB"\ndays_off = 0\nseat = "FO"\noffset = 0\nyear = 2026\n
check => Done yes\nvector 10

smallest
pairings.csv <- pairing,need,credit\n"P1",1,5:00\n
check => Done yes\nvector 10

smallest
bids.txt <- # June\r\n\nmember\tM1 # the only one\r\n10   fly P1
check => Done yes\nvector 10

smallest
fixed.csv <- member,kind,report,parked,release,legs,credit\nM1,ground,2026-06-09T18:00Z,2026-06-09T22:00Z,2026-06-09T22:00Z,,0:00\n
check => Done yes\nvector 10

smallest
fixed.csv <- member,kind,report,parked,release,legs,credit\nM1,ground,2026-06-02T08:00Z,2026-06-03T08:00Z,2026-06-03T08:00Z,,0:00\nM1,ground,2026-06-04T14:00Z,2026-06-09T22:00Z,2026-06-09T22:00Z,,0:00\n
check => Done yes\nvector 10"#;

/// Lines at a limit and beyond it, covers, and four nights in a row and what breaks a row.
const LINES: &str = r"smallest second-duty
check => Done yes\nvector 10

smallest seniority
check => Done yes\nvector 10 0

smallest rows-turned
check => No no roster 2 3

smallest junior-flies
check => No no 4 1 2 5

smallest both-fly
check => No no 2 1 2

smallest sixty-hours
check => Done yes\nvector 0

smallest sixty-hours-and-a-minute
check => No no 1 1 5 536477

smallest hundred-hours
check => Done yes\nvector 10

smallest hundred-hours-and-a-minute
check => No no 1 1 4 498881

smallest first-window
check => No no 1 1 4 485281

smallest interleaved
check => No no 1 1 1 541920

smallest night
fixed.csv <- member,kind,report,parked,release,legs,credit\nM1,flight,2026-06-09T03:00Z,2026-06-09T09:00Z,2026-06-09T09:30Z,2026-06-09T04:00Z/2026-06-09T08:00Z,0:00\nM1,flight,2026-06-10T03:00Z,2026-06-10T09:00Z,2026-06-10T09:30Z,2026-06-10T04:00Z/2026-06-10T08:00Z,0:00\nM1,flight,2026-06-11T03:00Z,2026-06-11T09:00Z,2026-06-11T09:30Z,2026-06-11T04:00Z/2026-06-11T08:00Z,0:00\n
check => No no 1 1 10 541740

smallest day
fixed.csv <- member,kind,report,parked,release,legs,credit\nM1,flight,2026-06-09T03:00Z,2026-06-09T09:00Z,2026-06-09T09:30Z,2026-06-09T04:00Z/2026-06-09T08:00Z,0:00\nM1,flight,2026-06-10T03:00Z,2026-06-10T09:00Z,2026-06-10T09:30Z,2026-06-10T04:00Z/2026-06-10T08:00Z,0:00\nM1,flight,2026-06-11T03:00Z,2026-06-11T09:00Z,2026-06-11T09:30Z,2026-06-11T04:00Z/2026-06-11T08:00Z,0:00\n
check => Done yes\nvector 10

smallest night
fixed.csv <- member,kind,report,parked,release,legs,credit\nM1,flight,2026-06-08T03:00Z,2026-06-08T09:00Z,2026-06-08T09:30Z,2026-06-08T04:00Z/2026-06-08T08:00Z,0:00\nM1,flight,2026-06-09T03:00Z,2026-06-09T09:00Z,2026-06-09T09:30Z,2026-06-09T04:00Z/2026-06-09T08:00Z,0:00\nM1,flight,2026-06-10T03:00Z,2026-06-10T09:00Z,2026-06-10T23:00Z,2026-06-10T04:00Z/2026-06-10T08:00Z,0:00\n
check => Done yes\nvector 10

smallest night
fixed.csv <- member,kind,report,parked,release,legs,credit\nM1,flight,2026-06-08T03:00Z,2026-06-08T09:00Z,2026-06-08T09:30Z,2026-06-08T04:00Z/2026-06-08T08:00Z,0:00\nM1,flight,2026-06-09T03:00Z,2026-06-09T09:00Z,2026-06-09T09:30Z,2026-06-09T04:00Z/2026-06-09T08:00Z,0:00\nM1,flight,2026-06-10T03:00Z,2026-06-10T09:00Z,2026-06-10T23:01Z,2026-06-10T04:00Z/2026-06-10T08:00Z,0:00\n
check => No no 1 1 10 541740

smallest first-night
history.csv <- member,kind,report,parked,release,legs,credit\nM1,flight,2026-05-29T03:00Z,2026-05-29T09:00Z,2026-05-29T09:30Z,2026-05-29T04:00Z/2026-05-29T08:00Z,0:00\nM1,flight,2026-05-30T03:00Z,2026-05-30T09:00Z,2026-05-30T09:30Z,2026-05-30T04:00Z/2026-05-30T08:00Z,0:00\nM1,flight,2026-05-31T03:00Z,2026-05-31T09:00Z,2026-05-31T09:30Z,2026-05-31T04:00Z/2026-05-31T08:00Z,0:00\n
check => No no 1 1 10 525780

smallest first-day
history.csv <- member,kind,report,parked,release,legs,credit\nM1,flight,2026-05-29T03:00Z,2026-05-29T09:00Z,2026-05-29T09:30Z,2026-05-29T04:00Z/2026-05-29T08:00Z,0:00\nM1,flight,2026-05-30T03:00Z,2026-05-30T09:00Z,2026-05-30T09:30Z,2026-05-30T04:00Z/2026-05-30T08:00Z,0:00\nM1,flight,2026-05-31T03:00Z,2026-05-31T09:00Z,2026-05-31T09:30Z,2026-05-31T04:00Z/2026-05-31T08:00Z,0:00\n
check => Done yes\nvector 10";

/// Wishes that lines grant and deny, each with the score that it has then and with the other one; and words that are no
/// command.
const WISHES: &str = r"wishes
bids.txt <- member M1\n10 prefer 2 days 2 and not layover DEN\n
roster.csv <- member,pairings,credit,score\nM1,P1 P3,20:00,10\nM2,P2 P4,20:00,0\n
check => No no 5 1

wishes
bids.txt <- member M1\n10 prefer 2 days 2 and not layover DEN\n
roster.csv <- member,pairings,credit,score\nM1,P1 P3,20:00,0\nM2,P2 P4,20:00,0\n
check => No no roster 2 5

wishes
bids.txt <- member M1\n10 prefer 2 days 2 and not layover DEN\n
roster.csv <- member,pairings,credit,score\nM1,P1 P2,20:00,0\nM2,P3 P4,20:00,0\n
check => No no 5 1

wishes
bids.txt <- member M1\n10 prefer 2 days 2 and not layover DEN\n
roster.csv <- member,pairings,credit,score\nM1,P1 P2,20:00,10\nM2,P3 P4,20:00,0\n
check => No no roster 2 5

wishes
bids.txt <- member M1\n10 credit above 20:00\n
roster.csv <- member,pairings,credit,score\nM1,P1 P2,20:00,0\nM2,P3 P4,20:00,0\n
check => No no 5 1

wishes
bids.txt <- member M1\n10 credit above 20:00\n
roster.csv <- member,pairings,credit,score\nM1,P1 P2,20:00,10\nM2,P3 P4,20:00,0\n
check => No no roster 2 5

wishes
bids.txt <- member M1\n10 credit below 20:01\n
roster.csv <- member,pairings,credit,score\nM1,P1 P2,20:00,10\nM2,P3 P4,20:00,0\n
check => No no 5 1

wishes
bids.txt <- member M1\n10 credit below 20:01\n
roster.csv <- member,pairings,credit,score\nM1,P1 P2,20:00,0\nM2,P3 P4,20:00,0\n
check => No no roster 2 5

wishes
bids.txt <- member M1\n10 daysoff 26\n
roster.csv <- member,pairings,credit,score\nM1,P1 P2,20:00,10\nM2,P3 P4,20:00,0\n
check => No no 5 1

wishes
bids.txt <- member M1\n10 daysoff 26\n
roster.csv <- member,pairings,credit,score\nM1,P1 P2,20:00,0\nM2,P3 P4,20:00,0\n
check => No no roster 2 5

wishes
bids.txt <- member M1\n10 daysoff 27\n
roster.csv <- member,pairings,credit,score\nM1,P1 P2,20:00,0\nM2,P3 P4,20:00,0\n
check => No no 5 1

wishes
bids.txt <- member M1\n10 daysoff 27\n
roster.csv <- member,pairings,credit,score\nM1,P1 P2,20:00,10\nM2,P3 P4,20:00,0\n
check => No no roster 2 5

wishes
bids.txt <- member M1\n10 avoid report before 08:00\n
roster.csv <- member,pairings,credit,score\nM1,P1,10:00,10\nM2,P2 P3 P4,30:00,0\n
check => No no 5 1

wishes
bids.txt <- member M1\n10 avoid report before 08:00\n
roster.csv <- member,pairings,credit,score\nM1,P1,10:00,0\nM2,P2 P3 P4,30:00,0\n
check => No no roster 2 5

smallest
 => Usage @usage

smallest
help => Usage @usage

smallest
make 7 0 24 => Usage @usage";

#[test]
fn months_are_checked(rt: HostRuntime) {
    play(&rt, rt.alloc(), ACCEPTED);
    play(&rt, rt.alloc(), LINES);
    play(&rt, rt.alloc(), WISHES);
}

#[test]
fn a_year_is_365_days(rt: HostRuntime) {
    let alloc = rt.alloc();
    let history = thousand_hours(&rt, alloc);
    let mut shelf = shelf_of(&rt, alloc, "smallest");
    put(&rt, alloc, &mut shelf, "history.csv", history.as_bytes());
    assert!(rt; checked(&rt, alloc, &mut shelf).as_str() == "yes\nvector 10\n");
    let mut shelf = shelf_of(&rt, alloc, "smallest ninth");
    put(&rt, alloc, &mut shelf, "history.csv", history.as_bytes());
    assert!(rt; checked(&rt, alloc, &mut shelf).as_str() == "no 1 1 7 373\n");
}

#[test]
fn a_long_file_is_named(rt: HostRuntime) {
    let alloc = rt.alloc();
    let bids = vec![in alloc; b'#'; 67_108_865].expect(&rt, "memory");
    let mut shelf = shelf_of(&rt, alloc, "smallest");
    put(&rt, alloc, &mut shelf, "bids.txt", &bids);
    let outcome = run_over(&rt, alloc, "check", &mut shelf, List::new(alloc));
    assert!(rt; outcome.status == Status::TooLong);
    assert!(rt; outcome.text.as_str() == "too long bids.txt\n");
}
