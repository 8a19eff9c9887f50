//! The commands over a folder that find open time, and judge it: their answers as values, with no text of them.
#![tactic(auto)]

mod open_check_stop;
mod open_checking;
mod open_drafts;
mod open_rows;
mod open_stop;
mod opening;

pub use open_check_stop::{OpenCheckStop, Unopened};
pub use open_checking::{LodgedTexts, check_open};
pub use open_stop::{OpenFinding, OpenMiss, OpenRow, OpenStop, Opening};
pub use opening::open_lines;
