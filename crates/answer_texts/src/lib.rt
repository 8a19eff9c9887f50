//! How each answer of a command ends a run, and the text that it prints.
#![tactic(auto)]

mod award_ends;
mod calendar_ends;
mod check_ends;
mod lines;
mod make_ends;
mod migrate_ends;
mod month_ends;
mod open_check_ends;
mod open_ends;
mod show_ends;
mod status;
mod trade_ends;
mod trial_ends;
mod whatif_ends;
mod write_ends;

pub use award_ends::{award_status, award_text};
pub use calendar_ends::{calendar_status, calendar_text};
pub use check_ends::{check_status, check_text};
pub use lines::line_text;
pub use make_ends::{make_status, make_text};
pub use migrate_ends::{migrate_status, migrate_text};
pub use open_check_ends::{open_check_status, open_check_text};
pub use open_ends::{open_status, open_text};
pub use show_ends::{show_status, show_text};
pub use status::Status;
pub use trade_ends::{trade_status, trade_text};
pub use trial_ends::{trial_status, trial_text};
pub use whatif_ends::{whatif_status, whatif_text};
