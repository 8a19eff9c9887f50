//! Guesses at what closes or solves the nodes of a search, and what makes them. Nothing is promised of either.
#![tactic(auto)]

mod guess;
mod guide;

pub use guess::{Bounded, FloorGuess, Guess, Mixed, Part};
pub use guide::Guide;
