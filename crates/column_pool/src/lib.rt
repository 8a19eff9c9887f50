//! Lines kept for each member, found by content, and the heaviest of them.
#![tactic(auto)]

mod heaviest;
mod kept;
mod lines;
mod pool;

pub use pool::Pool;
