//! Bounds of choices of kept lines, each with its unit and what it was measured by. No other file of this crate has one.

/// How many lines of a member a choice looks at: the newest, and in a large month the heaviest by the mix's prices. Of 2,000 a
/// member a choice took 0.3 to 2 s.
pub(crate) const NEWEST: usize = 2_000;

pub(crate) const HEAVIEST: usize = 100;
/// How often a choice takes a line.
pub(crate) const TURNS: u32 = 1_000_000;
/// How many steps a test of a line counts in a choice.
pub(crate) const TEST_STEPS: usize = 100;

/// How often chance is asked for free members.
pub(crate) const DRAWS: u32 = 200;
/// How many rosters are known.
pub(crate) const KNOWN: usize = 256;
