//! What is otherwise of each pilot in two rosters of a month.
#![tactic(auto)]

mod comparing;
mod difference;
mod side;
mod wording;

pub use comparing::differences;
pub use difference::{Change, Difference, Standing};
