//! June 2026 in Dublin: its months, as their files say them.

use duty_calendar::List;
use month_files::{read_month, read_texts};
use roster_model::Problem;
use shelf::MemoryShelf;
use std::alloc::Global;
use std::process::Abort;

/// The name of a file, and what it holds.
pub(crate) type File = (&'static str, &'static str);

/// The header of events.
const NO_EVENTS: &str = "member,kind,report,parked,release,legs,credit\n";

/// One member, who bids for the one pairing.
const SMALLEST: [File; 8] = [
    (
        "rules.toml",
        "base = \"DUB\"\nseat = \"FO\"\nyear = 2026\nmonth = 6\noffset = 0\ndays_off = 0\n",
    ),
    ("pairings.csv", "pairing,need,credit\nP1,1,5:00\n"),
    (
        "duties.csv",
        "pairing,no,report,parked,release,layover\nP1,1,2026-06-10T00:00Z,2026-06-10T06:00Z,2026-06-10T06:30Z,\n",
    ),
    (
        "legs.csv",
        "pairing,no,from,to,out,in\nP1,1,DUB,LHR,2026-06-10T01:00Z,2026-06-10T05:00Z\n",
    ),
    ("crew.csv", "member,low,high\nM1,0:00,90:00\n"),
    ("history.csv", NO_EVENTS),
    ("fixed.csv", NO_EVENTS),
    ("bids.txt", "member M1\n10 fly P1\n"),
];

/// Puts files into a shelf, each in place of one of its name.
fn place_all(rt: &impl Abort, alloc: Global, shelf: &mut MemoryShelf, files: &[File]) {
    for (name, text) in files {
        assert!(rt; !name.is_empty() && name.len() <= 32);
        shelf
            .place(alloc, name, text.as_bytes())
            .expect(rt, "memory");
    }
}

/// The smallest month with these files in place of its own.
pub(crate) fn month_with(rt: &impl Abort, alloc: Global, changed: &[File]) -> Problem {
    let mut shelf = MemoryShelf::new(alloc, List::new(alloc));
    place_all(rt, alloc, &mut shelf, &SMALLEST);
    place_all(rt, alloc, &mut shelf, changed);
    let texts = read_texts(alloc, &mut shelf)
        .ok()
        .expect(rt, "the files are there");
    read_month(alloc, &texts)
        .ok()
        .expect(rt, "the files have no fault")
}

/// The smallest month: one member, one pairing, one bid.
pub(crate) fn smallest(rt: &impl Abort, alloc: Global) -> Problem {
    month_with(rt, alloc, &[])
}
