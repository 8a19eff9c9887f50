//! The award of a month, with the reasons of denied bids and the certificate that shows both.
#![tactic(auto)]

mod month;
mod outcome;

pub use month::award_month;
pub use outcome::{AwardedMonth, MonthAward, UnfillableMonth};
