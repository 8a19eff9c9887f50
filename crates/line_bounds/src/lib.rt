//! Bounds on what a member's lines weigh that pass a lens: searches for lines above them, by callers that count no steps; and lines
//! that pass since they serve.
#![tactic(auto)]

mod over;
mod serving;

pub use over::{has_line, line_over};
pub use serving::{is_serving, meets_goal, serves};
