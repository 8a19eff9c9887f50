//! Names of the staff as they are shown, beside those that the files of a month have.
#![tactic(auto)]

mod fault;
mod names;
mod reading;

pub use fault::{NamesFault, NamesFlaw};
pub use names::StaffNames;
pub use reading::read_names;
