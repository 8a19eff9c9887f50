//! What the desk's command `history` does over two folders: a month and its roster become the past of the next month.
#![tactic(auto)]

mod barrier;
mod crew;
mod drafts;
mod names;
mod planning;
mod reading;
mod rolled;
mod rolling;
mod rules;
mod stop;
mod taking;

pub use barrier::Barrier;
pub use planning::plan;
pub use reading::{MonthTexts, NextTexts, read_month_texts, read_next_texts};
pub use rolled::RolledOver;
pub use rolling::roll_over;
pub use stop::HistoryStop;
