//! Reading and writing the rules of a month, a TOML table.
#![tactic(auto)]

mod fault;
mod fields;
mod keys;
mod reading;
mod writing;

pub use fault::{Key, RuleFault};
pub use reading::read_rules;
pub use writing::put_rules;
