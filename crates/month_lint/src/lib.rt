//! What is wrong with the files of a month, and what is legal but looks wrong.
#![tactic(auto)]

mod bid_oddities;
mod bid_pairs;
mod bids;
mod drawer;
mod duty_oddities;
mod faults;
mod findings;
mod lines;
mod linting;
mod lone;
mod mending;
mod pilot_oddities;
mod rows;
mod trip_oddities;
mod verdict;

pub use linting::lint;
pub use verdict::Verdict;
