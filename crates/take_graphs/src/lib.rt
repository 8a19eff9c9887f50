//! Graphs that pass over an item or take it, whose chains are the lines of a member that pass a lens and keep terms.
#![tactic(auto)]

mod choices;
mod start;
mod take_desk;
mod take_lines;
mod takes;

pub use take_desk::TakeDesk;
pub use take_lines::{TakeEnds, TakeGraph, TakeLabel, take_graph};
