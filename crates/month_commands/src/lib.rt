//! What each command does over the files of a folder: its answer as a value, with no text of it.
#![tactic(auto)]

mod award_stop;
mod awarding;
mod check_stop;
mod checking;
mod make_stop;
mod making;
mod show_stop;
mod showing;
mod trying;
mod verdict;

pub use award_stop::{AwardStop, Finding, Found, Miss};
pub use awarding::award;
pub use check_stop::{CheckStop, Refusal};
pub use checking::check;
pub use make_stop::MakeStop;
pub use making::make;
pub use show_stop::{ShowStop, Unshown};
pub use showing::show;
pub use trying::{Tried, trial};
pub use verdict::Verdict;
