//! Graphs that count: the graph of a member's lines that keep terms, whose labels tell beside what they held how many
//! pairings of each kind are still wanted.
#![tactic(auto)]

mod amounts;
mod counting;
mod slots;

pub use counting::{CountLabel, count_graph, uncounted};
