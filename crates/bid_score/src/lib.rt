//! Which bids a line grants, and what they weigh.
#![tactic(auto)]

mod credits;
mod fixed;
mod free;
mod grants;
mod scores;

pub use credits::credit;
pub use free::days_off;
pub use grants::{granted, score};
pub use scores::scores_of;
