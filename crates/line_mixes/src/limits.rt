//! Bounds of what is kept, of mixes and of programs, each with its unit and what it was measured by. Where no measurement is
//! named, the bound is one that months of 6 to 60 members seldom come to. No other file of this crate has one.

/// How many lines of a member are mixed, the newest ones.
pub(crate) const MOST_COLUMNS: usize = 2_000;
/// How many legal lines are remembered that others may fly too, and how many of these are tested for a member in one go.
pub(crate) const MOST_RECENT: usize = 400;

pub(crate) const MOST_OFFERED: usize = 6;
/// How many weights that closed roots are remembered, and for a member how many under which it has no line above a bound.
pub(crate) const MOST_LEAVES: usize = 8;

pub(crate) const MOST_BARREN: usize = 8;

/// How often the members are gone through for one mix; of so many times the first looks at all columns; and after how many the
/// prices of the mix are looked at.
pub(crate) const SWEEPS: u32 = 200;

pub(crate) const FULL: u32 = 8;

pub(crate) const FIRST_LOOK: u32 = 8;

/// In a program: a gain, or a change by which an amount comes to nothing, below this counts as none.
pub(crate) const NO_GAIN: f64 = 0.000_000_1;
/// A change of a row below this changes nothing.
pub(crate) const NO_CHANGE: f64 = 0.000_000_000_01;
/// By how much an amount may be off.
pub(crate) const OFF: f64 = 0.000_000_001;
/// A share below this counts as none.
pub(crate) const NO_SHARE: f64 = 0.000_001;
/// Needs are off by multiples of this, so that few programs have several answers.
pub(crate) const JITTER: f64 = 0.000_000_02;
/// What a line costs that is not to be had any more, where a miss costs 1.
pub(crate) const COST_OF_GONE: f64 = 3.0;
/// After so many changes a program is begun anew, since errors add up.
pub(crate) const OLD: u32 = 20_000;

/// In the master: an amount below this counts as none; and by how much a row may be off, of one line.
pub(crate) const CHOSEN: f64 = 0.000_000_1;

pub(crate) const AWAY: f64 = 0.001;
/// The greatest price that a shortage shows, in whole numbers: of 131,072 a sixth of the nodes of one tree were not closed, since what
/// lines were short of was rounded away.
pub(crate) const FINEST: i64 = 16_777_216;
/// What a line takes of a row that is no more than this is nothing, and likely an error; and how little a line may take of each row that
/// is left where it can have none of these.
pub(crate) const FIRM: f64 = 0.001;

pub(crate) const SINGULAR: f64 = 0.000_001;
/// After how many changes rows are worked out anew, in 10 ms at 30 members.
pub(crate) const STALE: u32 = 300;
/// Costs so near to one another count as the same, so that the line comes in that takes most of a row: without that one tree of three
/// ended by numbers that were off.
pub(crate) const CLOSE_TO: f64 = 0.000_1;
/// By how much a line becomes dearer, at most, than what it is worth where it comes back; and above which cost all cost what they did
/// at first: with costs that were never put back no line came in any more after some twenty closed nodes.
pub(crate) const DEARER: f64 = 0.1;

pub(crate) const DEAREST: f64 = 100.0;
/// An amount above this is off.
pub(crate) const WILD: f64 = 1_000_000.0;
/// How many lines a master calls near in one go; and with how many that are near it goes on with those alone that have rows.
pub(crate) const CALLED: usize = 300;

pub(crate) const CROWDED: usize = 3_000;
