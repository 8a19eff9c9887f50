//! Files in which `check` names a fault.

use crate::play::play;

/// Files of each kind with a fault of each code, the first of two faults, bytes that are no text, and files that are missing.
const BAD_FILES: &str = r#"smallest
rules.toml <- base: DUB\n
check => BadInput bad rules.toml 1

smallest
rules.toml <- base = "DUB"\nseat = "FO"\nyear = 2026\noffset = 0\ndays_off = 0\n
check => BadInput bad rules.toml 2 month

smallest
rules.toml <- base = "DUB"\nseat = "FO"\nyear = 2026\nmonth = 6\noffset = 0\ndays_off = 0\ndays = 30\n
check => BadInput bad rules.toml 3 days

smallest
rules.toml <- base = "DUB"\nseat = "FO"\nyear = 2026\nmonth = 13\noffset = 0\ndays_off = 0\n
check => BadInput bad rules.toml 4 month

smallest
pairings.csv <- pairing,need\nP1,1,5:00\n
check => BadInput bad pairings.csv 1 1

smallest
pairings.csv <- pairing,need,credit\nP1,1\n
check => BadInput bad pairings.csv 2 3

smallest
pairings.csv <- pairing,need,credit\nP1,,5:00\n
check => BadInput bad pairings.csv 2 4 2 1

smallest
pairings.csv <- pairing,need,credit\nP1,1,5-00\n
check => BadInput bad pairings.csv 2 4 3 2 2

smallest
pairings.csv <- pairing,need,credit\nP1,1,5:60\n
check => BadInput bad pairings.csv 2 4 3 3

smallest
duties.csv <- pairing,no,report,parked,release,layover\nP1,1,2026-06-31T08:00Z,2026-06-10T14:00Z,2026-06-10T14:30Z,\n
check => BadInput bad duties.csv 2 4 3 4

smallest
duties.csv <- pairing,no,report,parked,release,layover\nP1,1,2026-06-10T08:00Z,2026-06-10T14:00Z,2028-06-10T14:30Z,\n
check => BadInput bad duties.csv 2 4 5 5

smallest
pairings.csv <- pairing,need,credit\nP1,1,5:00\nP1,1,5:00\n
check => BadInput bad pairings.csv 3 5

smallest
legs.csv <- pairing,no,from,to,out,in\nP1,2,DUB,LHR,2026-06-10T09:00Z,2026-06-10T13:00Z\n
check => BadInput bad legs.csv 2 6

smallest
history.csv <- member,kind,report,parked,release,legs,credit\nM9,ground,2026-05-09T18:00Z,2026-05-09T22:00Z,2026-05-09T22:00Z,,0:00\n
check => BadInput bad history.csv 2 6

smallest
crew.csv <- member,low,high\nM1,90:00,0:00\n
check => BadInput bad crew.csv 2 7

smallest
history.csv <- member,kind,report,parked,release,legs,credit\nM1,ground,2026-06-09T18:00Z,2026-06-09T22:00Z,2026-06-09T22:00Z,,0:00\n
check => BadInput bad history.csv 2 8

smallest
fixed.csv <- member,kind,report,parked,release,legs,credit\nM1,ground,2026-05-09T18:00Z,2026-05-09T22:00Z,2026-05-09T22:00Z,,0:00\n
check => BadInput bad fixed.csv 2 8

smallest
duties.csv <- pairing,no,report,parked,release,layover\nP1,1,2026-06-10T08:00Z,2026-06-10T14:00Z,2026-06-10T22:00Z,\nP1,2,2026-06-11T07:59Z,2026-06-11T14:00Z,2026-06-11T14:30Z,\n
check => BadInput bad duties.csv 3 9

smallest
pairings.csv <- pairing,need,credit\nP1,10,5:00\n
check => BadInput bad pairings.csv 2 10 5

smallest
crew.csv <- member,low,high\n
check => BadInput bad crew.csv 1 11

smallest
legs.csv <- pairing,no,from,to,out,in\n
check => BadInput bad duties.csv 2 11

smallest no-duty
check => BadInput bad pairings.csv 2 11

smallest two-faults
check => BadInput bad crew.csv 2 4 2 3

smallest unfit-certificate
check => BadInput bad fixed.csv 1 1

smallest
bids.txt <- member M1\n10 fly P\C3
check => BadInput bad bids.txt 2 9 1

smallest
crew.csv <- member,low,high\nM\C3,0:00,90:00\n
check => BadInput bad crew.csv 2 2

smallest without=rules.toml
check => Missing missing rules.toml

smallest without=pairings.csv
check => Missing missing pairings.csv

smallest without=duties.csv
check => Missing missing duties.csv

smallest without=legs.csv
check => Missing missing legs.csv

smallest without=crew.csv
check => Missing missing crew.csv

smallest without=history.csv
check => Missing missing history.csv

smallest without=fixed.csv
check => Missing missing fixed.csv

smallest without=bids.txt
check => Missing missing bids.txt

smallest without=certificate.txt
check => Missing missing certificate.txt

smallest without=roster.csv
check => Missing missing roster.csv

smallest without=reasons.txt
check => Missing missing reasons.txt"#;

#[test]
fn the_first_fault_is_named(rt: HostRuntime) {
    play(&rt, rt.alloc(), BAD_FILES);
}
