//! The pairings of a month, read from three files and written to them.
#![tactic(auto)]

mod fault;
mod files;
mod lines;
mod parts;
mod printer;
mod reader;
mod row;
mod steps;
mod tables;

pub use printer::{PairingTexts, put_pairings};
pub use reader::read_pairings;
