//! Certificates, rosters and lines that `check` says no to.

use crate::play::play;

/// Certificates that prove nothing and texts that are none, and rosters that are not complete.
const REFUSED: &str = r"smallest
certificate.txt <- pbs-certificate 1\naward 1 0\nproof 3\nsplit 1 1\ncount 1\nfixed 1\nend\n
check => No no 4 1 2 3

smallest
certificate.txt <- pbs-certificate 1\naward 1 0\nproof 1\nsplit 1 2\nend\n
check => No no 4 1 1 1

smallest
certificate.txt <- pbs-certificate 1\naward 1 0\nproof 2\nsplit 1 1\nfixed 1\nend\n
check => No no 5 1

smallest
certificate.txt <- pbs-certificate 1\naward 1 0\nproof 4\nsplit 1 1\nfixed 1\ncount 1\ncount 1\nend\n
check => No no 5 1

smallest
certificate.txt <- pbs-certificate 1\naward 1 0\nproof 0\nend\n
check => No no 5 1

smallest
certificate.txt <- pbs-certificate 1\naward 0 0\nend\n
check => No no 3 0

smallest
certificate.txt <- pbs-certificate 1\naward 2 0\nproof 3\nsplit 1 1\nfixed 1\ncount 1\nproof 3\nsplit 1 1\nfixed 1\ncount 1\nend\n
check => No no 3 2

smallest
certificate.txt <- 
check => No no certificate 1 4

smallest
certificate.txt <- pbs-certificate 1\naward 1 0\nproof 3\nsplit 1 1\nfixed 1\ncount 1\nend
check => No no certificate 7 4

smallest
certificate.txt <- pbs-certificate 1\naward 1 0\nproof 3\nsplit 1 1\nfixed 1\ncount 1\n
check => No no certificate 7 4

smallest
certificate.txt <- pbs-certificate 1\naward 1 0\nproof 3\nsplit 1 1\nfixed 1\ncount 1\nend\nend\n
check => No no certificate 8 5

smallest
certificate.txt <- pbs-certificate 1\naward 1 0\nproof 1\nsplit 01 1\nend\n
check => No no certificate 4 3

smallest
certificate.txt <- pbs-certificate 1\naward 1 0\nproof 1\nsplit 0 1\nend\n
check => No no certificate 4 3

smallest
certificate.txt <- pbs-certificate 1\naward 1 0\nproof 1\nsplit 1  1\nend\n
check => No no certificate 4 3

smallest
certificate.txt <- pbs-certificate 1\naward 1 0\nproof 1\nsplit 1 10000\nend\n
check => No no certificate 4 6

smallest
certificate.txt <- pbs-certificate 1\r\naward 1 0\r\nproof 3\r\nsplit 1 1\r\nfixed 1\r\ncount 1\r\nend\r\n
check => No no certificate 1 1

smallest
certificate.txt <- pbs-certificate 2\naward 1 0\nproof 3\nsplit 1 1\nfixed 1\ncount 1\nend\n
check => No no certificate 3 3

smallest
certificate.txt <- pbs-certificate 1\naward 1 0\nproof 2\nsplit 1 1\nfixed 1\ncount 1\nend\n
check => No no certificate 6 2

smallest
certificate.txt <- pbs-certificate 1\naward 1 0\nproof 4294967296\nsplit 1 1\nfixed 1\ncount 1\nend\n
check => No no certificate 3 6

smallest
certificate.txt <- pbs-certificate 1\naward 201 0\nproof 3\nsplit 1 1\nfixed 1\ncount 1\nend\n
check => No no certificate 2 6

smallest
roster.csv <- member,pairings,credit,score\nM1,P1,5:01,10\n
check => No no roster 2 5

smallest
roster.csv <- member,pairings,credit,score\nM1,P1,5:00,11\n
check => No no roster 2 5

smallest
roster.csv <- member,pairings,credit,score\nM1,P2,5:00,10\n
check => No no roster 2 4

smallest
roster.csv <- member,pairings,credit,score\nM1,P1 ,5:00,10\n
check => No no roster 2 4

smallest
roster.csv <- member,pairings,credit,score\nM1,P1 P1,10:00,10\n
check => No no roster 2 4

smallest
roster.csv <- member,pairings,credit,score\nM2,P1,5:00,10\n
check => No no roster 2 3

smallest
roster.csv <- member,pairings,credit,score\nM1,P1,5:00,10
check => No no roster 2 2

smallest
roster.csv <- member,pairings,credit,score\n
check => No no roster 2 6

smallest
roster.csv <- member,pairings,credit,score\nM1,P1,5:00,10\nM1,P1,5:00,10\n
check => No no roster 3 6

smallest
roster.csv <- M1,P1,5:00,10\n
check => No no roster 1 1

smallest
roster.csv <- member,pairings,credit,score\nM1,,0:00,0\n
check => No no 2 1 0";

/// Lines with too little rest, no free block of 30 hours, overlapping spans, too little credit and too few days off.
const ILLEGAL: &str = r#"smallest
fixed.csv <- member,kind,report,parked,release,legs,credit\nM1,ground,2026-06-09T18:00Z,2026-06-09T22:01Z,2026-06-09T22:01Z,,0:00\n
check => No no 1 1 2 539040

smallest
fixed.csv <- member,kind,report,parked,release,legs,credit\nM1,ground,2026-06-02T08:00Z,2026-06-03T07:59Z,2026-06-03T07:59Z,,0:00\nM1,ground,2026-06-04T13:59Z,2026-06-09T22:00Z,2026-06-09T22:00Z,,0:00\n
check => No no 1 1 3 539040

smallest
fixed.csv <- member,kind,report,parked,release,legs,credit\nM1,ground,2026-06-10T14:29Z,2026-06-10T20:00Z,2026-06-10T20:00Z,,0:00\n
check => No no 1 1 1 539429

smallest
crew.csv <- member,low,high\nM1,5:01,90:00\n
check => No no 1 1 8 300

smallest
rules.toml <- base = "DUB"\nseat = "FO"\nyear = 2026\nmonth = 6\noffset = 0\ndays_off = 30\n
check => No no 1 1 9 29"#;

#[test]
fn a_month_is_refused(rt: HostRuntime) {
    play(&rt, rt.alloc(), REFUSED);
    play(&rt, rt.alloc(), ILLEGAL);
}
