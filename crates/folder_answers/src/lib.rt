//! What `pbs` prints of the month in a folder, as sentences over its files.
#![tactic(auto)]

mod explaining;
mod folder;
mod inputs;

pub use explaining::{Told, explain, tell_answer};
pub use folder::file_of;
pub use inputs::{bid_place, input_answer, rule_answer, unread_answer};
