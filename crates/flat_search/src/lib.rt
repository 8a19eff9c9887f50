//! Flat searches for lines: labels go depth first over the pairings of a month by report, without a graph (heuristic pricing by
//! labelling). And what all guesses speak in: sets of pairings, decisions by member, ladders of lenses, and what is known of a
//! line. Nothing is promised of them.
#![tactic(auto)]

mod blocks;
mod board;
mod care;
mod course;
mod demands;
mod flat_search;
mod free_hours;
mod hours;
mod labels;
mod ladder;
mod pairings;
mod places;
mod prepared;
mod profiles;
mod scopes;
mod sheets;
mod sizes;
mod tables;
mod trail;

pub use board::{Board, Row};
pub use care::Care;
pub use flat_search::{FlatLine, Found, Pricing, flat_over};
pub use ladder::{
    first_lens, first_lenses, is_decided_by_lines, is_first, lately, make_finer, refine,
};
pub use pairings::PairingSet;
pub use prepared::Courses;
pub use profiles::{
    Profile, are_known, bid_asked, broken, floor_of, is_granted, is_member, known_of, look_at,
    number,
};
pub use sizes::{is_large, rows};
