//! Worked rows of priced lines and of pools.
#![tactic(auto)]

#[cfg(test)]
mod lines;
#[cfg(test)]
mod pools;
#[cfg(test)]
mod whole_lines;
