//! Worked rows of labels, of graphs and of the searches for their chains.
#![tactic(auto)]

#[cfg(test)]
mod climbs;
#[cfg(test)]
mod free_hours;
#[cfg(test)]
mod labels;
#[cfg(test)]
mod resources;
