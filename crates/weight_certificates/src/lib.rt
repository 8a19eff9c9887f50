//! Nodes that weights close, that a whole roster solves, or that rounds of lines show to be open.
#![tactic(auto)]

mod best;
mod bounds;
mod closer;
mod closing;
mod columns;
mod crews;
mod fixed;
mod lists;
mod pairs;
mod rosters;
mod rounds;
mod rows;
mod shares;
mod trials;

pub use closer::Rounds;
