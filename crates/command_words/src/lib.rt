//! The words of the command line, read with `clap`.
#![tactic(auto)]

mod command;
mod grammar;
mod number;
mod spelling;

pub use command::{Command, Sizes};
pub use number::read_long;
