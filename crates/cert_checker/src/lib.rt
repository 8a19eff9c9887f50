//! The judge of awards: whether a roster is complete, each place's proof closes its goal, and each
//! denied bid has its reason, which is shown; with nothing of the search that found them.
#![tactic(auto)]

mod award;
mod bests;
mod bounded;
mod count;
mod fixed;
mod goals;
mod guesses;
mod legals;
mod noline;
mod noted;
mod reasons;
mod recall;
mod refusal;
mod shown;
mod split;
mod walk;
mod weights;
mod witness;

pub use award::{judge, judge_none, judge_noting};
pub use noted::Noted;
pub use refusal::{ItemFault, No};
