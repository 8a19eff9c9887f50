//! Worked rows of sheets that become files of a month.
#![tactic(auto)]

#[cfg(test)]
mod sheets;
