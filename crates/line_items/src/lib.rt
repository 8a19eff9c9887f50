//! What lines are made of, pairings and fixed flights, and what each of them counts for a member.
#![tactic(auto)]

mod clear;
mod credits;
mod days;
mod free;
mod hits;
mod items;
mod marks;
mod masks;
mod member;
mod nights;
mod windows;

pub use clear::{may_fly, must_fly};
pub use credits::{ceil_to, credit_end, first_credit, floor_to};
pub use days::{busy_cap, fixed_busy_days, fixed_days, touched_days};
pub use free::{fill_all, fill_duties, free_step, item_least, last_block};
pub use hits::is_trackable;
pub use items::{fill_flights, is_base_open};
pub use marks::NightMarks;
pub use masks::{Mark, bids_end, bids_of, is_set, is_tracked, mask_step, start_bits};
pub use nights::{first_nights, marks_of};
pub use windows::{base_usage, item_usage, window_caps};
