//! What can be bid for, as a page: every trip of the month, a calendar, what each pilot already has, and a sheet that writes
//! bids in their grammar.
#![tactic(auto)]

mod crew;
mod days;
mod printing;
mod sheet;
mod trips;

pub use printing::packet;
