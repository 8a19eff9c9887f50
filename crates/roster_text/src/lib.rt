//! The texts of rosters and of reasons, read and printed, and the view of a member's month.
#![tactic(auto)]

mod fault;
mod laws;
mod month;
mod month_entries;
mod names;
mod printing;
mod reading;
mod reason_fault;
mod reason_printing;
mod reason_reading;
mod reason_words;

pub use fault::{RosterTextCode, RosterTextFault};
pub use laws::{reasons_texts_are_told_apart, roster_texts_are_told_apart};
pub use month::print_month;
pub use printing::print_roster;
pub use reading::read_roster;
pub use reason_fault::{ReasonTextCode, ReasonTextFault};
pub use reason_printing::print_reasons;
pub use reason_reading::{member_named, read_reasons};
