//! How much care is taken with a guess.

use crate::ladder::{look_at_lines, look_at_pairings};
use crate::sizes::{DEEP, LITTLE, LITTLE_ROUGHLY, SHALLOW};
use roster_model::{Goal, Lens, Problem};

/// How much care is taken: in the guess at a node, in guesses at rosters, or in a guess at a node by lenses that look at
/// pairings one by one.
#[derive(Clone, Copy, PartialEq, Eq)]
pub enum Care {
    Fine,
    Rough,
    Plain,
}

impl Care {
    /// How many steps a search may take.
    pub fn steps(self) -> u64 {
        match self {
            Care::Fine | Care::Plain => DEEP,
            Care::Rough => SHALLOW,
        }
    }

    /// What counts as no miss.
    pub fn little(self) -> i64 {
        match self {
            Care::Fine | Care::Plain => LITTLE,
            Care::Rough => LITTLE_ROUGHLY,
        }
    }

    /// Lets the lens track what lenses of this care do.
    pub fn adjust(self, problem: &Problem, member: usize, goal: &Goal, lens: &mut Lens) {
        match self {
            Care::Fine | Care::Rough => look_at_lines(problem, member, goal, lens),
            Care::Plain => look_at_pairings(problem, member, goal, lens),
        }
    }
}
