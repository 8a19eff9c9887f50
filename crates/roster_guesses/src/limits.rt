//! Bounds of single guesses, each with its unit and what it was measured by; effort.rt has what is spent on a goal. No other file
//! of this crate or of node_guesses has one; those of mixes and of choices of kept lines stand in the crates of these.

/// How many steps a brief search for a line may take, a close one in a large month, and how often a lens is made to look at more.
/// Where a close search ends at its limit, an illegal line may be answered, and a node stands open by a mix of such lines. With 1,000,000
/// steps, as in other months, that was so at the root of the 28th of 30 places for 26 levels, and no tree ended there; with 20,000,000 the
/// next place took four times as long.
pub(crate) const BRIEF: u64 = 5_000;

pub(crate) const CLOSE: u64 = 3_000_000;

pub(crate) const RUNGS: u32 = 24;

/// How many free members a repair begins with, and by how many they may become more, before it begins with few again.
pub(crate) const FEWEST_FREE: usize = 4;

pub(crate) const MORE_FREE: usize = 13;

/// How many columns a member has in a relaxation of a large month: going through all of 1,200 a member once takes 0.5 ms.
pub(crate) const COLUMNS: usize = 200;

/// How many members may be searched for prices that closed another root.
pub(crate) const SEARCHED: usize = 3;
/// For how many searches a member is held to be dear.
pub(crate) const DEAR: u32 = 4;

/// How many mixes are tested in a large month before a program is worked on: of 143 roots at 40 members all but 5 were decided by
/// these.
pub(crate) const FIRST_MIXES: u32 = 8;

/// After how many mixes of which a search ran out of steps a rough relaxation of a large month is given up: such searches took
/// four fifths of the time of repairs at 40 members.
pub(crate) const LOST: u32 = 3;

/// Up to how many rows a program is worth its time even where searches are short.
pub(crate) const FEW_ROWS: usize = 64;
/// Up to how many rows programs are worked on at once where some search is dear.
pub const MOST_ROWS: usize = 300;
/// How many rows a program may have: its inverse is no more than 3 MB, as the second cache.
pub(crate) const ALL_ROWS: usize = 600;
/// How often something may come into a program in one go.
pub const CHANGES: u32 = 20_000;
/// How much may be missed by a program that counts as solved, of one line; and by kept lines alone that count as mixed.
pub(crate) const MISSED: f64 = 0.003;

pub const MIXED: f64 = 0.01;

/// How many roots are tested for the levels of a place, and for the places of a bid.
pub const LEVELS: u32 = 40;

pub const PLACES: u32 = 12;
/// How often a roster that was found is repaired again.
pub const AGAIN: u32 = 8;
/// How many nodes a planned tree may have, and how many of these are split.
pub const PLANNED: usize = 25;

pub const SPLITS: usize = 12;
/// How many nodes of a tree are walked ahead of the search in a large month: at 30 members an open one takes 0.05 to 0.5 s, and one that
/// is closed 0.5 to 1 s.
pub const PLUNGED: usize = 3_000;
/// How often a line may come into a master at a node before it is worked out anew, and before it is given up: a node takes 10 to 300
/// changes, of 0.2 ms at 30 members.
pub const BALANCED: u32 = 3_000;
/// How many prices are tested at a node of such a tree for which the kept lines are short: 1 to 20 were needed where
/// they closed it; where none finds another line, it is left sooner.
pub const PROVED: u32 = 100;
/// How many prices that closed nodes are tried at others: these closed a quarter of the nodes of one tree.
pub const LESSONS: usize = 16;
/// Where a node is split, a share of 65,536 that is no more than this counts as none, and one that lacks no more counts as whole.
pub const NO_PART: i64 = 655;
/// How many pairs are looked at by programs where a node is split (strong branching), and how often something may come into each
/// of these programs. Of what is missed there, of one line: more counts as so much, since either closes the side; what is no
/// more than so little ends the program, and is what even a side that misses nothing counts.
pub const PROBES: usize = 12;

pub const PROBE_CHANGES: u32 = 400;

pub const PROBE_MOST: f64 = 0.05;

pub const PROBE_END: f64 = 0.0005;

/// What a pairing is worth in exchanges at first; by how much more after each turn of all members in which it is missed or flown too
/// often, and at most; up to how much chance adds; and how many searches look for a better line of a member.
pub(crate) const WORTH: i64 = 1_024;

pub(crate) const DEARER: i64 = 256;

pub(crate) const DEAREST: i64 = 65_536;

pub(crate) const LUCK: usize = 64;

pub(crate) const BETTER: u32 = 4;
