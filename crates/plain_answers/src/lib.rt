//! What `pbs` prints, as sentences: each with the text that it points to and a mark below.
#![tactic(auto)]

mod bad;
mod bad_bids;
mod bad_rows;
mod bad_rules;
mod bids_words;
mod done_words;
mod held;
mod judge_words;
mod names;
mod refusals;
mod rule_words;
mod stints;
mod telling;
mod text_words;
mod windows;

pub use bad_bids::put_bid_flaw;
pub use bad_rows::{put_row_flaw, row_mark};
pub use bad_rules::{put_rule_flaw, rule_mark};
pub use held::Held;
pub use names::{put_minute, put_pilot, put_trip};
pub use refusals::put_trouble;
pub use rule_words::put_rule;
pub use telling::tell;
