//! June 2026 in Dublin: two members, and what they fly.
ghost use Rattle.roster_model.specs.Rosters.{IsComplete};

use duty_calendar::List;
use line_legality::complete;
use month_files::{read_month, read_texts};
use roster_model::{Problem, Roster};
use roster_text::read_roster;
use shelf::MemoryShelf;
use std::alloc::Global;
use std::process::Abort;

/// Names of files and what they hold.
pub(crate) type Month = [(&'static str, &'static str); 8];

/// The rules of both months.
const RULES: &str =
    "base = \"DUB\"\nseat = \"FO\"\nyear = 2026\nmonth = 6\noffset = 0\ndays_off = 0\n";

/// No events.
const NO_EVENTS: &str = "member,kind,report,parked,release,legs,credit\n";

/// Two members who fly a pairing each. The senior one wants any, the junior one the first.
pub(crate) const TIE: Month = [
    ("rules.toml", RULES),
    (
        "pairings.csv",
        "pairing,need,credit\nP1,1,5:00\nP2,1,5:00\n",
    ),
    (
        "duties.csv",
        "pairing,no,report,parked,release,layover\nP1,1,2026-06-10T08:00Z,2026-06-10T14:00Z,2026-06-10T14:30Z,\nP2,1,2026-06-20T08:00Z,2026-06-20T14:00Z,2026-06-20T14:30Z,\n",
    ),
    (
        "legs.csv",
        "pairing,no,from,to,out,in\nP1,1,DUB,LHR,2026-06-10T09:00Z,2026-06-10T13:00Z\nP2,1,DUB,LHR,2026-06-20T09:00Z,2026-06-20T13:00Z\n",
    ),
    ("crew.csv", "member,low,high\nM1,5:00,5:00\nM2,5:00,5:00\n"),
    ("history.csv", NO_EVENTS),
    ("fixed.csv", NO_EVENTS),
    (
        "bids.txt",
        "member M1\n10 prefer 1 days 1\nmember M2\n10 fly P1\n",
    ),
];

/// The award of that month.
pub(crate) const TIE_ROSTER: &str = "member,pairings,credit,score\nM1,P2,5:00,10\nM2,P1,5:00,10\n";

/// Two members who fly one pairing together and one each. The junior one is to fly two.
pub(crate) const TOGETHER: Month = [
    ("rules.toml", RULES),
    (
        "pairings.csv",
        "pairing,need,credit\nP1,1,5:00\nP2,1,5:00\nP3,2,5:00\n",
    ),
    (
        "duties.csv",
        "pairing,no,report,parked,release,layover\nP1,1,2026-06-10T08:00Z,2026-06-10T14:00Z,2026-06-10T14:30Z,\nP2,1,2026-06-20T08:00Z,2026-06-20T14:00Z,2026-06-20T14:30Z,\nP3,1,2026-06-15T08:00Z,2026-06-15T14:00Z,2026-06-15T14:30Z,\n",
    ),
    (
        "legs.csv",
        "pairing,no,from,to,out,in\nP1,1,DUB,LHR,2026-06-10T09:00Z,2026-06-10T13:00Z\nP2,1,DUB,LHR,2026-06-20T09:00Z,2026-06-20T13:00Z\nP3,1,DUB,LHR,2026-06-15T09:00Z,2026-06-15T13:00Z\n",
    ),
    (
        "crew.csv",
        "member,low,high\nM1,0:00,15:00\nM2,10:00,10:00\n",
    ),
    ("history.csv", NO_EVENTS),
    ("fixed.csv", NO_EVENTS),
    ("bids.txt", ""),
];

/// A roster of that month.
pub(crate) const TOGETHER_ROSTER: &str =
    "member,pairings,credit,score\nM1,P2 P3,10:00,0\nM2,P1 P3,10:00,0\n";

/// Puts a file into a shelf, in place of one of its name.
pub(crate) fn place(
    rt: &impl Abort,
    alloc: Global,
    shelf: &mut MemoryShelf,
    name: &str,
    bytes: &[u8],
) {
    assert!(rt; !name.is_empty() && name.len() <= 32);
    shelf.place(alloc, name, bytes).expect(rt, "memory");
}

/// A shelf with the files of a month.
pub(crate) fn shelf_of(rt: &impl Abort, alloc: Global, month: &Month) -> MemoryShelf {
    let mut shelf = MemoryShelf::new(alloc, List::new(alloc));
    for (name, text) in month {
        place(rt, alloc, &mut shelf, name, text.as_bytes());
    }
    shelf
}

/// The problem of a month.
pub(crate) fn problem_of(rt: &impl Abort, alloc: Global, month: &Month) -> Problem {
    let mut shelf = shelf_of(rt, alloc, month);
    let texts = read_texts(alloc, &mut shelf)
        .ok()
        .expect(rt, "the files are there");
    read_month(alloc, &texts)
        .ok()
        .expect(rt, "the files have no fault")
}

/// The complete roster of a text.
pub(crate) fn roster_of(rt: &impl Abort, alloc: Global, problem: &Problem, text: &str) -> Roster
    ensures complete { IsComplete problem.now result }
{
    let roster = read_roster(alloc, text.as_bytes(), problem).expect(rt, "a roster");
    complete(alloc, problem, &roster).expect(rt, "a complete roster");
    roster
}
