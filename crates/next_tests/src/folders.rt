//! Months of two pilots, A before B.

use crate::runs::{place, printed};
use duty_calendar::List;
use shelf::MemoryShelf;
use std::alloc::Global;
use std::process::Abort;

/// The header of events.
pub(crate) const NO_EVENTS: &str = "member,kind,report,parked,release,legs,credit\n";

/// The rules of June 2026 in Dublin.
const RULES: &str =
    "base = \"DUB\"\nseat = \"FO\"\nyear = 2026\nmonth = 6\noffset = 0\ndays_off = 0\n";

/// Two pilots.
const CREW: &str = "member,low,high\nA,0:00,190:00\nB,0:00,190:00\n";

/// Appends a text to another.
fn put(rt: &impl Abort, text: &mut String, more: &str) {
    text.push_str(more).expect(rt, "memory");
}

/// The fields of a trip: its name, and when it reports, leaves and comes back.
fn fields<'a>(rt: &impl Abort, trip: &'a str) -> [&'a str; 4] {
    let (name, rest) = trip.split_once(' ').expect(rt, "a name");
    let (report, rest) = rest.split_once(' ').expect(rt, "a report");
    let (out, back) = rest.split_once(' ').expect(rt, "two times");
    [name, report, out, back]
}

/// Puts the three files of trips, one in each line, each of one duty with one flight.
pub(crate) fn put_trips(rt: &impl Abort, alloc: Global, shelf: &mut MemoryShelf, trips: &str) {
    let mut pairings = String::from_str(alloc, "pairing,need,credit\n").expect(rt, "memory");
    let head = "pairing,no,report,parked,release,layover\n";
    let mut duties = String::from_str(alloc, head).expect(rt, "memory");
    let mut legs = String::from_str(alloc, "pairing,no,from,to,out,in\n").expect(rt, "memory");
    for trip in trips.lines() {
        let [name, report, out, back] = fields(rt, trip);
        let row = format!(in alloc; "{name},1,5:00\n").expect(rt, "memory");
        put(rt, &mut pairings, &row);
        let row = format!(in alloc; "{name},1,{report},{back},{back},\n").expect(rt, "memory");
        put(rt, &mut duties, &row);
        let row = format!(in alloc; "{name},1,DUB,DUB,{out},{back}\n").expect(rt, "memory");
        put(rt, &mut legs, &row);
    }
    place(rt, alloc, shelf, "pairings.csv", &pairings);
    place(rt, alloc, shelf, "duties.csv", &duties);
    place(rt, alloc, shelf, "legs.csv", &legs);
}

/// June with these trips, all of which A bids for, after this history; awarded.
pub(crate) fn june(rt: &impl Abort, alloc: Global, history: &str, trips: &str) -> MemoryShelf {
    let mut shelf = MemoryShelf::new(alloc, List::new(alloc));
    place(rt, alloc, &mut shelf, "rules.toml", RULES);
    place(rt, alloc, &mut shelf, "crew.csv", CREW);
    place(rt, alloc, &mut shelf, "history.csv", history);
    place(rt, alloc, &mut shelf, "fixed.csv", NO_EVENTS);
    put_trips(rt, alloc, &mut shelf, trips);
    let mut bids = String::from_str(alloc, "member A\n").expect(rt, "memory");
    for trip in trips.lines() {
        let [name, _, _, _] = fields(rt, trip);
        let row = format!(in alloc; "100 fly {name}\n").expect(rt, "memory");
        put(rt, &mut bids, &row);
    }
    place(rt, alloc, &mut shelf, "bids.txt", &bids);
    printed(rt, alloc, &mut shelf, "award");
    shelf
}

/// A folder of no files.
pub(crate) fn empty(alloc: Global) -> MemoryShelf {
    MemoryShelf::new(alloc, List::new(alloc))
}
