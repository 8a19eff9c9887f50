//! What a month leaves the next one: its members with their history and fixed events, and the texts of these.
#![tactic(auto)]

mod carrying;
mod crew;
mod fault;
mod gathering;
mod member;
mod months;
mod order;
mod parts;

pub use crew::{heirs, member_texts};
pub use fault::HeirFault;
pub use gathering::place_named;
pub use months::{following, follows, lag};
