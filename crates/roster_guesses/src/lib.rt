//! Guesses that are made of lines of members above bounds: prices that close a node, and rosters. Nothing is promised of them.
#![tactic(auto)]

mod closing;
mod dear;
mod diving;
mod effort;
mod exchanging;
mod finder;
mod flat_pricing;
mod gathering;
mod leaves;
mod lenses;
mod limits;
mod mastering;
mod pooling;
mod pricing;
mod relaxing;
mod repairing;
mod tested;
mod testing;

pub use closing::closed_with;
pub use effort::{Effort, Kind};
pub use finder::{Finder, Solved, Task};
pub use lenses::{plainer, plainer_without_line};
pub use limits::{
    AGAIN, BALANCED, CHANGES, LESSONS, LEVELS, MIXED, MOST_ROWS, NO_PART, PLACES, PLANNED, PLUNGED,
    PROBE_CHANGES, PROBE_END, PROBE_MOST, PROBES, PROVED, SPLITS,
};
pub use mastering::{is_worth_while, program_of};
pub use pricing::{Priced, price};
pub use relaxing::{Relaxed, relax};
