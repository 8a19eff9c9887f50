//! What is asked of an award that stands, and what comes of it.

use crate::play::play;
use answer_texts::migrate_text;
use desk_commands::{MigrateStop, Unmigrated};

/// Certificates written anew, and checked in versions 2 and 3.
const MIGRATED: &str = r"smallest seniority
certificate.txt <- @shown-3
check => Done yes\nvector 10 0
certificate.txt == @shown-3

smallest seniority
certificate.txt <- @shown-3
migrate => Done migrated 3
certificate.txt == @shown-3

smallest seniority
certificate.txt <- @whole-in-2
check => No no certificate 4 2
certificate.txt == @whole-in-2

smallest seniority
certificate.txt <- @whole-in-2
migrate => No no certificate 4 2
certificate.txt == @whole-in-2

smallest seniority
certificate.txt <- @plain-in-3
check => No no certificate 12 2
certificate.txt == @plain-in-3

smallest seniority
migrate => Done migrated 1
certificate.txt == @shown-2

smallest seniority
certificate.txt <- @shown-2
migrate => Done migrated 2
certificate.txt == @shown-2

smallest seniority
certificate.txt <- @shown-2
check => Done yes\nvector 10 0
certificate.txt == @shown-2

smallest seniority
certificate.txt <- @no-weight
check => No no 4 2 1 9 0 0
certificate.txt == @no-weight

smallest seniority
certificate.txt <- @no-lens
check => No no certificate 9 3
certificate.txt == @no-lens

smallest seniority
certificate.txt <- @no-lens
migrate => No no certificate 9 3
certificate.txt == @no-lens

smallest seniority
certificate.txt <- pbs-certificate 4\naward 2 0\nproof 0\nproof 0\nend\n
migrate => No no certificate 1 1
certificate.txt == pbs-certificate 4\naward 2 0\nproof 0\nproof 0\nend\n

smallest seniority
certificate.txt <- pbs-certificate 4\naward 2 0\nproof 0\nproof 0\nend\n
check => No no certificate 1 1
certificate.txt == pbs-certificate 4\naward 2 0\nproof 0\nproof 0\nend\n

smallest seniority
rules.toml <- 
bids.txt <- member M3\n
migrate => Done migrated 1
certificate.txt == @shown-2

smallest seniority
migrate certificate.txt => Usage @usage
certificate.txt == @shown";

/// Trades that are taken, each on the roster that those before it left; and trades that are not, and nothing is written.
const TRADED: &str = r"smallest tie
roster.csv <- @awarded
trades.txt <- swap M1 P2 M2 P1\nswap M1 P2 M2 P1\n
trade => Done trade 1 ok\ntrade 2 2 1 2\nvector 10 0
roster.csv == member,pairings,credit,score\nM1,P1,5:00,10\nM2,P2,5:00,0\n

smallest tie
roster.csv <- @awarded
trades.txt <- move M1 P2 M2\nswap M1 P2 M1 P2\n
trade => Done trade 1 4 1 8 0\ntrade 2 1\nvector 10 10
roster.csv == @awarded

smallest tie
roster.csv <- @awarded
trades.txt <- 
trade => Done vector 10 10
roster.csv == @awarded

smallest tie
roster.csv <- @awarded
trades.txt <- swap M1 P2 M2 P1
trade => No no trades 1 1
roster.csv == @awarded

smallest tie
roster.csv <- @awarded
trades.txt <- swap M1 P2 M2 P1\nmove M1 P1\n
trade => No no trades 2 1
roster.csv == @awarded

smallest tie
roster.csv <- @awarded
trades.txt <- move M9 P2 M2\n
trade => No no trades 1 2
roster.csv == @awarded

smallest tie
roster.csv <- @awarded
trades.txt <- move M1 P9 M2\n
trade => No no trades 1 3
roster.csv == @awarded

smallest tie
roster.csv <- member,pairings,credit,score\nM1,,0:00,0\nM2,P1,5:00,10\n
trades.txt <- 
trade => No no 1 1 8 0
roster.csv == member,pairings,credit,score\nM1,,0:00,0\nM2,P1,5:00,10\n

smallest tie
roster.csv <- member,pairings,credit,score\nM1,P1,5:00,10\nM2,P1,5:00,10\n
trades.txt <- 
trade => No no 2 1 2
roster.csv == member,pairings,credit,score\nM1,P1,5:00,10\nM2,P1,5:00,10\n

smallest tie
roster.csv <- member,pairings,credit,score\nM2,P1,5:00,10\nM1,P2,5:00,10\n
trades.txt <- 
trade => No no roster 2 3
roster.csv == member,pairings,credit,score\nM2,P1,5:00,10\nM1,P2,5:00,10\n

smallest tie
roster.csv <- @awarded
trades.txt <- swap M1 P2 M2 P1\n
crew.csv <- member,low,high\n
trade => BadInput bad crew.csv 1 11
roster.csv == @awarded

smallest tie
roster.csv <- @awarded
trade => Missing missing trades.txt
roster.csv == @awarded

smallest tie
roster.csv <- @awarded
trades.txt <- swap M1 P2 M2 P1\n
trade trades.txt => Usage @usage
roster.csv == @awarded";

/// Calendars, and members without one.
const DATED: &str = r"smallest
calendar M1 => Done calendar M1 1
M1.ics == BEGIN:VCALENDAR\r\nVERSION:2.0\r\nPRODID:-//pbs//crew calendar//EN\r\nBEGIN:VEVENT\r\nUID:p.P1.M1.202606@pbs\r\nDTSTAMP:20260601T000000Z\r\nDTSTART:20260610T080000Z\r\nDTEND:20260610T143000Z\r\nSUMMARY:P1\r\nDESCRIPTION:1: DUB-LHR 09:00-13:00\r\nEND:VEVENT\r\nEND:VCALENDAR\r\n

smallest three-days
calendar M1 => Done calendar M1 1
M1.ics == BEGIN:VCALENDAR\r\nVERSION:2.0\r\nPRODID:-//pbs//crew calendar//EN\r\nBEGIN:VEVENT\r\nUID:p.P1.M1.202606@pbs\r\nDTSTAMP:20260601T000000Z\r\nDTSTART:20260610T080000Z\r\nDTEND:20260612T163000Z\r\nSUMMARY:P1\r\nDESCRIPTION:1: DUB-LHR 09:00-13:00\5Cn2: LHR-ORD 11:00-15:00\5Cn3: ORD-DUB 11:0\r\n 0-15:00\r\nEND:VEVENT\r\nEND:VCALENDAR\r\n

smallest idle-month
calendar M1 => No no events M1
M1.ics gone

smallest
calendar M9 => No no member M9
M9.ics gone

smallest
roster.csv <- 
calendar M1 => No no roster 1 1
M1.ics gone

smallest
crew.csv <- member,low,high\n
calendar M1 => BadInput bad crew.csv 1 11
M1.ics gone

smallest
calendar => Usage @usage
M1.ics gone";

/// Reads, writes and puts that fail.
const DEVICES: &str = r"smallest tie shelf=1 sink=9
roster.csv <- @awarded
trades.txt <- swap M1 P2 M2 P1\n
migrate => ReadFault read fault certificate.txt

smallest tie shelf=2 sink=9
roster.csv <- @awarded
trades.txt <- swap M1 P2 M2 P1\n
migrate => WriteFault write fault certificate.txt

smallest tie shelf=10 sink=9
roster.csv <- @awarded
trades.txt <- swap M1 P2 M2 P1\n
trade => ReadFault read fault trades.txt

smallest tie shelf=11 sink=9
roster.csv <- @awarded
trades.txt <- swap M1 P2 M2 P1\n
trade => WriteFault write fault roster.csv

smallest tie shelf=9 sink=9
roster.csv <- @awarded
trades.txt <- swap M1 P2 M2 P1\n
calendar M1 => ReadFault read fault roster.csv

smallest tie shelf=10 sink=9
roster.csv <- @awarded
trades.txt <- swap M1 P2 M2 P1\n
calendar M1 => WriteFault write fault M1.ics

smallest tie shelf=99 sink=1
roster.csv <- @awarded
trades.txt <- swap M1 P2 M2 P1\n
trade => WriteFault 

smallest tie shelf=99 sink=1
roster.csv <- @awarded
trades.txt <- swap M1 P2 M2 P1\n
calendar M1 => WriteFault ";

#[test]
fn certificates_are_written_anew(rt: HostRuntime) {
    play(&rt, rt.alloc(), MIGRATED);
}

#[test]
fn trades_are_taken_and_calendars_written(rt: HostRuntime) {
    play(&rt, rt.alloc(), TRADED);
    play(&rt, rt.alloc(), DATED);
    play(&rt, rt.alloc(), DEVICES);
}

/// A text of version 2 that no reader would take.
#[test]
fn a_certificate_may_be_too_long(rt: HostRuntime) {
    let end = Err(MigrateStop::No(Unmigrated::TooLong));
    let text = migrate_text(rt.alloc(), &end).expect(&rt, "memory");
    assert!(rt; text.as_slice() == b"no certificate 0 6\n".as_slice());
}
