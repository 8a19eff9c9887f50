//! What a planner asks of an award: who got how much of the bids, what was denied and why, how credit is spread, which trips
//! nobody wanted, and which are open. As a page and as a file of records.
#![tactic(auto)]

mod figures;
mod open;
mod page;
mod records;
mod reporting;
mod wanted;

pub use reporting::{Report, planner_report};
