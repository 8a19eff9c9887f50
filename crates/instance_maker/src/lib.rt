//! Made-up months, each drawn from a number, for trials of the award.
#![tactic(auto)]

mod bids;
mod draws;
mod laws;
mod lists;
mod month;
mod names;
mod pairings;

pub use laws::made_months_are_as_asked;
pub use month::make;
