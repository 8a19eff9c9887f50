//! The language in which members write their bids.
#![tactic(auto)]

mod days;
mod entry;
mod fault;
mod filter;
mod keywords;
mod lines;
mod printing;
mod reading;
mod sheet;
mod text;
mod values;
mod wish;
mod words;
mod writing;

pub use fault::{BidCode, BidFault, Word};
pub use printing::weekday_word;
pub use reading::read_bids;
pub use text::{print_bids, put_bid};
pub use writing::put_date;
