//! The heaviest chain of a graph that passes over an item or takes it: by climbs above a bound, whose tables say what may still be
//! gained, and by labels where climbs do not suffice.
#![tactic(auto)]

mod search;
mod stages;
mod telling;

pub use search::best_chain;
pub use stages::{LOWEST, MOST_STEPS, climb_by_stages, heaviest_chain};
