//! Months of two members.

/// The name of a file, and what it holds.
pub(crate) type File = (&'static str, &'static str);

/// The header of events.
const NO_EVENTS: &str = "member,kind,report,parked,release,legs,credit\n";

/// June 2026 in Dublin: two members who both bid for the one pairing, and the other bids of a month in which the senior
/// one would rather have days off.
pub(crate) const MONTH: [File; 9] = [
    (
        "rules.toml",
        "base = \"DUB\"\nseat = \"FO\"\nyear = 2026\nmonth = 6\noffset = 0\ndays_off = 0\n",
    ),
    ("pairings.csv", "pairing,need,credit\nP1,1,5:00\n"),
    (
        "duties.csv",
        "pairing,no,report,parked,release,layover\nP1,1,2026-06-10T08:00Z,2026-06-10T14:00Z,2026-06-10T14:30Z,\n",
    ),
    (
        "legs.csv",
        "pairing,no,from,to,out,in\nP1,1,DUB,LHR,2026-06-10T09:00Z,2026-06-10T13:00Z\n",
    ),
    (
        "crew.csv",
        "member,low,high\nM1,0:00,90:00\nM2,0:00,90:00\n",
    ),
    ("history.csv", NO_EVENTS),
    ("fixed.csv", NO_EVENTS),
    ("bids.txt", "member M1\n10 fly P1\nmember M2\n10 fly P1\n"),
    (
        "bids2.txt",
        "member M1\n10 daysoff 30\nmember M2\n10 fly P1\n",
    ),
];

/// The roster of these other bids.
pub(crate) const GIVEN: &str = "member,pairings,credit,score\nM1,,0:00,10\nM2,P1,5:00,10\n";

/// The duties of two pairings of one day each, and their flights.
const TWO_DUTIES: File = (
    "duties.csv",
    "pairing,no,report,parked,release,layover\nP1,1,2026-06-10T08:00Z,2026-06-10T14:00Z,2026-06-10T14:30Z,\nP2,1,2026-06-20T08:00Z,2026-06-20T14:00Z,2026-06-20T14:30Z,\n",
);

const TWO_LEGS: File = (
    "legs.csv",
    "pairing,no,from,to,out,in\nP1,1,DUB,LHR,2026-06-10T09:00Z,2026-06-10T13:00Z\nP2,1,DUB,LHR,2026-06-20T09:00Z,2026-06-20T13:00Z\n",
);

/// Two pairings, of which each member is to fly one, and nobody bids.
pub(crate) const SHARED: [File; 5] = [
    (
        "pairings.csv",
        "pairing,need,credit\nP1,1,5:00\nP2,1,5:00\n",
    ),
    TWO_DUTIES,
    TWO_LEGS,
    ("crew.csv", "member,low,high\nM1,5:00,5:00\nM2,5:00,5:00\n"),
    ("bids.txt", ""),
];

/// A pairing that needs three members, and a second one, which neither wants and each could fly.
pub(crate) const UNWANTED: [File; 4] = [
    (
        "pairings.csv",
        "pairing,need,credit\nP1,3,5:00\nP2,1,5:00\n",
    ),
    TWO_DUTIES,
    TWO_LEGS,
    (
        "bids.txt",
        "member M1\n10 avoid pairing P2\nmember M2\n10 avoid pairing P2\n",
    ),
];
