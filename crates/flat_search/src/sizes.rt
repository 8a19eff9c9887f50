//! How large a month is, how much is spent on one search for a line, and what lenses look at. All numbers of large months were
//! measured on made ones of 30 to 60 members.

use roster_model::Problem;

/// From how many pairings and members together on a month is large. Measured on months of 6 to 20 members, of at most 120
/// pairings and members: what serves large ones took a twentieth less to a fifth more time there.
const LARGE: usize = 150;

/// How many pairings and members a month has together.
pub fn rows(problem: &Problem) -> usize {
    let (members, pairings) = (problem.base.members.len(), problem.base.pairings.len());
    pairings.saturating_add(members)
}

/// Whether the month is so large that lines for guesses at rosters are looked for by flat searches.
pub fn is_large(problem: &Problem) -> bool {
    rows(problem) > LARGE
}

/// A stage of a flat search: how many bids its table tells apart, and how many labels it goes on from.
#[derive(Clone, Copy)]
pub(crate) struct Stage {
    pub bids: usize,
    pub steps: u64,
}

/// The stages of a flat search. A table of 2^n states is worth its time where it saves as many steps: a step takes some 0.2 us, a
/// state of a place 1 to 2 ns. From the second stage on there is a table of free hours too, which takes 50 us and halves the steps.
pub(crate) const STAGES: [Stage; 3] = [
    Stage {
        bids: 7,
        steps: 1_000,
    },
    Stage {
        bids: 11,
        steps: 8_000,
    },
    Stage {
        bids: 14,
        steps: 11_000,
    },
];

/// How many states of places a table of bids may have: 1 ms.
pub(crate) const MOST_STATES: usize = 1_000_000;

/// How many labels at its place a label is compared with.
pub(crate) const COMPARED: usize = 8;

/// How many lines one search tests.
pub(crate) const MOST_TESTS: u32 = 40;

/// With how many windows of a lens a search begins at most, and how many a flat search counts: labels that count more are dear.
pub(crate) const WINDOWS: usize = 4;

/// How many windows a lens may look at.
pub(crate) const MOST_WINDOWS: usize = 16;

/// How many bids that only a whole line decides a lens may track.
pub(crate) const MOST_WHOLE: u32 = 6;

/// How many steps a search may take where its answer is to close a node, and how many in guesses at rosters.
pub(crate) const DEEP: u64 = 1_000_000;

pub(crate) const SHALLOW: u64 = 20_000;
/// What counts as no miss of a mix, of 65,536 that are a line: where it is to close a node, and in guesses at rosters.
pub(crate) const LITTLE: i64 = 256;

pub(crate) const LITTLE_ROUGHLY: i64 = 2_048;

/// How often what a floor leaves open is narrowed: what is barred or flown may decide more.
pub(crate) const NARROWED: u32 = 4;
