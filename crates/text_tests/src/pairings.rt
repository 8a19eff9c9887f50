//! The three files of pairings, read and written.
ghost use Rattle.duty_calendar.specs.Checks.{ArePairings};

use crate::texts::numbered;
use duty_calendar::{Horizon, List, Memory, Pairing};
use field_text::{FileCode, FileFault, FileName};
use june_months::{bytes_of, sides};
use pairing_files::{PairingTexts, put_pairings, read_pairings};
use std::alloc::Global;
use std::process::Abort;

const PAIRINGS: &[u8] = b"pairing,need,credit\nP1,1,5:00\nP2,9,200:00\n";

const DUTIES: &[u8] =
    b"pairing,no,report,parked,release,layover\nP1,1,2026-06-10T08:00Z,2026-06-10T12:00Z,2026-06-10T12:30Z,ORD\nP2,1,2026-06-12T08:00Z,2026-06-12T12:00Z,2026-06-12T12:30Z,\nP1,2,2026-06-11T08:00Z,2026-06-11T12:00Z,2026-06-11T12:30Z,\n";

const LEGS: &[u8] =
    b"pairing,no,from,to,out,in\nP1,1,DUB,ORD,2026-06-10T09:00Z,2026-06-10T11:00Z\nP1,2,ORD,DUB,2026-06-11T09:00Z,2026-06-11T11:00Z\nP2,1,DUB,ORD,2026-06-12T09:00Z,2026-06-12T11:00Z\n";

const NO_PAIRINGS: &[u8] = b"pairing,need,credit\n";

const NO_DUTIES: &[u8] = b"pairing,no,report,parked,release,layover\n";

const NO_LEGS: &[u8] = b"pairing,no,from,to,out,in\n";

const NO_MONTH: FileFault = FileFault {
    file: FileName::Fixed,
    row: 0,
    code: FileCode::Empty,
};

/// How many pairings the files of June 2026 have.
fn count(alloc: Global, pairings: &[u8], duties: &[u8], legs: &[u8]) -> Result<usize, FileFault> {
    let Ok(horizon) = Horizon::new(2026, 6, 0) else {
        return Err(NO_MONTH);
    };
    if pairings.len() > 100_000 || duties.len() > 100_000 || legs.len() > 100_000 {
        return Err(NO_MONTH);
    }
    match read_pairings(alloc, pairings, duties, legs, &horizon) {
        Ok(list) => Ok(list.len()),
        Err(fault) => Err(fault),
    }
}

/// Says what is said of three files.
fn assert_told(
    rt: &impl Abort,
    alloc: Global,
    (pairings, duties, legs): (&[u8], &[u8], &[u8]),
    due: &str,
) {
    let found = match count(alloc, pairings, duties, legs) {
        Ok(count) => format!(in alloc; "{count} pairings"),
        Err(fault) => format!(in alloc; "{:?} {fault}", fault.file),
    }
    .expect(rt, "memory");
    assert!(rt; found.as_str() == due, "{found}");
}

/// Texts of pairings.csv, and what is said of them.
const PAIRING_FAULTS: &str = r#" => Pairings row 1: not the header of the file
pairing,need\n => Pairings row 1: not the header of the file
pairing,need,credit,\n => Pairings row 1: not the header of the file
\FFairing,need,credit\n => Pairings row 1: not the header of the file
pairing,need,credit\nP1,\C3,5:00\n => Pairings row 2: a field that is not UTF-8
pairing,need,credit\nP1,1,5:00\nP2\n => Pairings row 3: another number of fields than the header has
pairing,need,credit\nP1,1,5:60\n => Pairings row 2: field 3: out of range
pairing,need,credit\n,x,5:60\n => Pairings row 2: field 1: an empty field
pairing,need,credit\nP1,01,5:60\n => Pairings row 2: field 2: no field of this form from byte 2 on
pairing,need,credit\nP1,10,5:00\n => Pairings row 2: limit 5 is passed
pairing,need,credit\nP1,0,5:00\n => Pairings row 2: limit 5 is passed
pairing,need,credit\nP1,1,200:01\n => Pairings row 2: limit 6 is passed
pairing,need,credit\nP1,10,200:01\n => Pairings row 2: limit 5 is passed
pairing,need,credit\nP1,1,5:00\nP1,10,5:00\n => Pairings row 3: a name that stood before
pairing,need,credit\n\nP1,1,5:00\r\n\n"P\n2",1,5:00\n => Pairings row 3: field 1: no field of this form from byte 2 on
pairing,need,credit\nP1,10,5:00\nP1\n => Pairings row 2: limit 5 is passed
pairing,need,credit\nP1,1,5:00\nP2,9,200:00\nP3,1,0:00\n => Pairings row 4: without parts"#;

#[test]
fn faults_of_pairings(rt: HostRuntime) {
    for row in PAIRING_FAULTS.lines() {
        let (text, due) = sides(row).expect(&rt, "a row has two sides");
        let text = bytes_of(rt.alloc(), text);
        assert_told(&rt, rt.alloc(), (&text, DUTIES, LEGS), due);
    }
}

/// Texts of duties.csv, and what is said of them.
const DUTY_FAULTS: &str = r" => Duties row 1: not the header of the file
pairing,no,report,parked,release\n => Duties row 1: not the header of the file
pairing,no,report,parked,release,layover\nP1,1,\C3,x,y,\n => Duties row 2: a field that is not UTF-8
pairing,no,report,parked,release,layover\nP1,1,2026-06-10T08:00Z,2026-06-10T12:00Z,2026-06-10T12:30Z\n => Duties row 2: another number of fields than the header has
pairing,no,report,parked,release,layover\nP1,1,2026-06-31T08:00Z,2026-06-10T12:00Z,2026-06-10T12:30Z,ord\n => Duties row 2: field 3: no day of the calendar
pairing,no,report,parked,release,layover\nP1,1,2026-06-10T08:00Z,2026-06-10T12:00Z,2026-06-10T12:30Z,ord\n => Duties row 2: field 6: no field of this form from byte 1 on
pairing,no,report,parked,release,layover\nP1,1,2026-06-10T08:00Z,2027-06-10T12:00Z,2026-06-10T12:30Z,\n => Duties row 2: field 4: outside the horizon
pairing,no,report,parked,release,layover\nP1,1,2026-06-10T08:00Z,2026-06-10T12:00Z,2026-06-10T24:30Z,\n => Duties row 2: field 5: out of range
pairing,no,report,parked,release,layover\nP3,1,2026-06-10T08:00Z,2026-06-10T12:00Z,2026-06-10T12:30Z,\n => Duties row 2: a name or number of nothing
pairing,no,report,parked,release,layover\nP3,7,2026-06-10T13:00Z,2026-06-10T12:00Z,2026-06-10T12:30Z,\n => Duties row 2: a name or number of nothing
pairing,no,report,parked,release,layover\nP1,2,2026-06-10T08:00Z,2026-06-10T12:00Z,2026-06-10T12:30Z,\n => Duties row 2: out of order
pairing,no,report,parked,release,layover\nP1,1,2026-06-10T13:00Z,2026-06-10T12:00Z,2026-06-10T12:30Z,\n => Duties row 2: out of order
pairing,no,report,parked,release,layover\nP1,1,2026-06-10T08:00Z,2026-06-10T12:31Z,2026-06-10T12:30Z,\n => Duties row 2: out of order
pairing,no,report,parked,release,layover\nP1,1,2026-06-10T12:30Z,2026-06-10T12:30Z,2026-06-10T12:30Z,\n => Duties row 2: out of order
pairing,no,report,parked,release,layover\nP1,1,2026-05-31T23:59Z,2026-06-10T12:00Z,2026-06-10T12:30Z,\n => Duties row 2: a report outside the month
pairing,no,report,parked,release,layover\nP1,1,2026-07-01T00:00Z,2026-07-01T12:00Z,2026-07-01T12:30Z,\n => Duties row 2: a report outside the month
pairing,no,report,parked,release,layover\nP1,2,2026-07-01T00:00Z,2026-07-01T12:00Z,2026-07-01T12:30Z,\n => Duties row 2: out of order
pairing,no,report,parked,release,layover\nP1,1,2026-06-10T08:00Z,2026-06-10T12:00Z,2026-06-10T22:00Z,\nP1,2,2026-06-11T07:59Z,2026-06-11T12:00Z,2026-06-11T12:30Z,\n => Duties row 3: too little rest before the report
pairing,no,report,parked,release,layover\nP1,1,2026-06-10T08:00Z,2026-06-10T12:00Z,2026-06-10T12:30Z,\nP1,2,2026-06-10T12:29Z,2026-06-10T13:00Z,2026-06-10T13:00Z,\n => Duties row 3: out of order
pairing,no,report,parked,release,layover\nP1,1,2026-06-01T08:00Z,2026-06-01T12:00Z,2026-06-01T12:30Z,\nP1,2,2026-06-02T08:00Z,2026-06-02T12:00Z,2026-06-02T12:30Z,\nP1,3,2026-06-03T08:00Z,2026-06-03T12:00Z,2026-06-03T12:30Z,\nP1,4,2026-06-04T08:00Z,2026-06-04T12:00Z,2026-06-04T12:30Z,\nP1,5,2026-06-05T08:00Z,2026-06-05T12:00Z,2026-06-05T12:30Z,\nP1,6,2026-06-06T08:00Z,2026-06-06T12:00Z,2026-06-06T12:30Z,\nP1,7,2026-06-07T08:00Z,2026-06-07T12:00Z,2026-06-07T12:30Z,\nP1,8,2026-06-08T08:00Z,2026-06-08T12:00Z,2026-06-08T12:30Z,\nP1,9,2026-06-09T08:00Z,2026-06-09T12:00Z,2026-06-09T12:30Z,\nP1,10,2026-06-10T08:00Z,2026-06-10T12:00Z,2026-06-10T12:30Z,\nP1,11,2026-06-11T08:00Z,2026-06-11T12:00Z,2026-06-11T12:30Z,\nP1,12,2026-06-12T08:00Z,2026-06-12T12:00Z,2026-06-12T12:30Z,\nP1,13,2026-06-13T08:00Z,2026-06-13T12:00Z,2026-06-13T12:30Z,\n => Duties row 14: limit 3 is passed
pairing,no,report,parked,release,layover\nP1,1,2026-06-10T08:00Z,2026-06-10T12:00Z,2026-06-10T12:30Z,\nP2,1,2026-06-12T08:00Z,2026-06-12T12:00Z,2026-06-12T12:30Z,\nP1,2,2026-06-11T08:00Z,2026-06-11T12:00Z,2026-06-11T12:30Z,\nP1,3,2026-06-13T08:00Z,2026-06-13T12:00Z,2026-06-13T12:30Z,\n => Duties row 5: without parts";

#[test]
fn faults_of_duties(rt: HostRuntime) {
    for row in DUTY_FAULTS.lines() {
        let (text, due) = sides(row).expect(&rt, "a row has two sides");
        let text = bytes_of(rt.alloc(), text);
        assert_told(&rt, rt.alloc(), (PAIRINGS, &text, LEGS), due);
    }
}

/// So many pairings, P000 and on.
fn many_pairings(alloc: Global, count: u32) -> Vec<u8> {
    numbered(alloc, NO_PAIRINGS, b'P', b",1,5:00\n", count)
}

#[test]
fn limit_of_pairings(rt: HostRuntime) {
    let alloc = rt.alloc();
    let most = many_pairings(alloc, 600);
    let due = "Pairings row 2: without parts";
    assert_told(&rt, alloc, (&most, NO_DUTIES, NO_LEGS), due);
    let more = many_pairings(alloc, 601);
    let due = "Pairings row 602: limit 2 is passed";
    assert_told(&rt, alloc, (&more, NO_DUTIES, NO_LEGS), due);
}

/// Texts of legs.csv, and what is said of them.
const LEG_FAULTS: &str = r" => Legs row 1: not the header of the file
pairing,no,from,to,out,off\n => Legs row 1: not the header of the file
pairing,no,from,to,out,in\nP1,1,DUB,ORD,\C3,\n => Legs row 2: a field that is not UTF-8
pairing,no,from,to,out,in\nP1,1,DUB\n => Legs row 2: another number of fields than the header has
pairing,no,from,to,out,in\nP1,1,dub,ORD,2026-06-10T09:00Z,2026-06-10T11:00Z\n => Legs row 2: field 3: no field of this form from byte 1 on
pairing,no,from,to,out,in\nP1,1,DUB,,2026-06-10T09:00Z,2026-06-10T11:00Z\n => Legs row 2: field 4: an empty field
pairing,no,from,to,out,in\nP1,1,DUB,ORD,2025-05-31T23:59Z,2026-06-10T11:00Z\n => Legs row 2: field 5: outside the horizon
pairing,no,from,to,out,in\nP3,1,DUB,ORD,2026-06-10T09:00Z,2026-06-10T11:00Z\n => Legs row 2: a name or number of nothing
pairing,no,from,to,out,in\nP1,3,DUB,ORD,2026-06-10T09:00Z,2026-06-10T11:00Z\n => Legs row 2: a name or number of nothing
pairing,no,from,to,out,in\nP1,0,DUB,ORD,2026-06-10T09:00Z,2026-06-10T11:00Z\n => Legs row 2: a name or number of nothing
pairing,no,from,to,out,in\nP1,1,DUB,ORD,2026-06-10T07:59Z,2026-06-10T11:00Z\n => Legs row 2: out of order
pairing,no,from,to,out,in\nP1,1,DUB,ORD,2026-06-10T09:00Z,2026-06-10T12:01Z\n => Legs row 2: out of order
pairing,no,from,to,out,in\nP1,1,DUB,ORD,2026-06-10T11:00Z,2026-06-10T11:00Z\n => Legs row 2: out of order
pairing,no,from,to,out,in\nP1,1,DUB,ORD,2026-06-10T09:00Z,2026-06-10T11:00Z\nP1,1,DUB,ORD,2026-06-10T10:59Z,2026-06-10T11:30Z\n => Legs row 3: out of order
pairing,no,from,to,out,in\nP2,1,DUB,ORD,2026-06-12T08:00Z,2026-06-12T08:05Z\nP2,1,DUB,ORD,2026-06-12T08:05Z,2026-06-12T08:10Z\nP2,1,DUB,ORD,2026-06-12T08:10Z,2026-06-12T08:15Z\nP2,1,DUB,ORD,2026-06-12T08:15Z,2026-06-12T08:20Z\nP2,1,DUB,ORD,2026-06-12T08:20Z,2026-06-12T08:25Z\nP2,1,DUB,ORD,2026-06-12T08:25Z,2026-06-12T08:30Z\nP2,1,DUB,ORD,2026-06-12T08:30Z,2026-06-12T08:35Z\nP2,1,DUB,ORD,2026-06-12T08:35Z,2026-06-12T08:40Z\nP2,1,DUB,ORD,2026-06-12T08:40Z,2026-06-12T08:45Z\n => Legs row 10: limit 4 is passed
pairing,no,from,to,out,in\nP1,1,DUB,ORD,2026-06-10T09:00Z,2026-06-10T11:00Z\nP3,1,DUB,ORD,2026-06-10T09:00Z,2026-06-10T11:00Z\nP1\n => Legs row 3: a name or number of nothing";

#[test]
fn faults_of_legs(rt: HostRuntime) {
    for row in LEG_FAULTS.lines() {
        let (text, due) = sides(row).expect(&rt, "a row has two sides");
        let text = bytes_of(rt.alloc(), text);
        assert_told(&rt, rt.alloc(), (PAIRINGS, DUTIES, &text), due);
    }
}

const ONE: &[u8] = b"pairing,need,credit\nP1,1,5:00\n";

const RESTED: &[u8] =
    b"pairing,no,report,parked,release,layover\nP1,1,2026-06-10T08:00Z,2026-06-10T12:00Z,2026-06-10T22:00Z,\nP1,2,2026-06-11T08:00Z,2026-06-11T12:00Z,2026-06-11T12:30Z,\n";

const FLOWN: &[u8] =
    b"pairing,no,from,to,out,in\nP1,2,DUB,ORD,2026-06-11T09:00Z,2026-06-11T11:00Z\nP1,1,DUB,ORD,2026-06-10T09:00Z,2026-06-10T11:00Z\n";

const MARKED: &[u8] = b"\xEF\xBB\xBF\"pairing\",need,credit\r\n\n\"P1\",1,5:00\rP2,9,200:00";

const NO_HEADER: &[u8] = b"x\n";

#[test]
fn files_together(rt: HostRuntime) {
    let alloc = rt.alloc();
    assert_told(&rt, alloc, (PAIRINGS, DUTIES, LEGS), "2 pairings");
    assert_told(&rt, alloc, (MARKED, DUTIES, LEGS), "2 pairings");
    assert_told(&rt, alloc, (ONE, RESTED, FLOWN), "1 pairings");
    let none = (NO_PAIRINGS, NO_DUTIES, NO_LEGS);
    assert_told(&rt, alloc, none, "0 pairings");
}

#[test]
fn first_file_at_fault(rt: HostRuntime) {
    let alloc = rt.alloc();
    let due = "Duties row 1: not the header of the file";
    assert_told(&rt, alloc, (PAIRINGS, NO_HEADER, NO_HEADER), due);
    let due = "Legs row 1: not the header of the file";
    assert_told(&rt, alloc, (PAIRINGS, NO_DUTIES, NO_HEADER), due);
    let due = "Pairings row 2: without parts";
    assert_told(&rt, alloc, (ONE, NO_DUTIES, NO_LEGS), due);
    let due = "Legs row 2: a name or number of nothing";
    assert_told(&rt, alloc, (ONE, NO_DUTIES, LEGS), due);
    let due = "Duties row 2: without parts";
    assert_told(&rt, alloc, (PAIRINGS, DUTIES, NO_LEGS), due);
    let due = "Duties row 3: without parts";
    assert_told(&rt, alloc, (PAIRINGS, DUTIES, FLOWN), due);
}

/// Pairings that were read can be written.
#[tactic(auto, using(pairing_files::proofs::Ends::valid_ends))]
fn written(alloc: Global, list: &List<Pairing>, horizon: &Horizon) -> Result<PairingTexts, Memory>
    requires valid { ArePairings horizon.now list.now }
{
    put_pairings(alloc, list.as_slice(), horizon)
}

/// The texts of what is read from them.
fn again(alloc: Global, pairings: &[u8], duties: &[u8], legs: &[u8]) -> Option<PairingTexts> {
    let Ok(horizon) = Horizon::new(2026, 6, -90) else {
        return None;
    };
    if pairings.len() > 100_000 || duties.len() > 100_000 || legs.len() > 100_000 {
        return None;
    }
    match read_pairings(alloc, pairings, duties, legs, &horizon) {
        Ok(list) => written(alloc, &list, &horizon).ok(),
        Err(_) => None,
    }
}

#[test]
fn written_in_order(rt: HostRuntime) {
    let alloc = rt.alloc();
    let sorted: &[u8] =
        b"pairing,no,report,parked,release,layover\nP1,1,2026-06-10T08:00Z,2026-06-10T12:00Z,2026-06-10T12:30Z,ORD\nP1,2,2026-06-11T08:00Z,2026-06-11T12:00Z,2026-06-11T12:30Z,\nP2,1,2026-06-12T08:00Z,2026-06-12T12:00Z,2026-06-12T12:30Z,\n";
    let texts = again(alloc, PAIRINGS, DUTIES, LEGS).expect(&rt, "texts");
    assert!(rt; texts.pairings.as_slice() == PAIRINGS);
    assert!(rt; texts.duties.as_slice() == sorted);
    assert!(rt; texts.legs.as_slice() == LEGS);
    let same = again(
        alloc,
        texts.pairings.as_slice(),
        texts.duties.as_slice(),
        texts.legs.as_slice(),
    )
    .expect(&rt, "texts");
    assert!(rt; same.duties.as_slice() == sorted);
}
