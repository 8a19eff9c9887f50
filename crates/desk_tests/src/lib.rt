//! Worked rows of the commands over an award that stands, and of what they are made of.
#![tactic(auto)]

#[cfg(test)]
mod escaped;
#[cfg(test)]
mod folders;
#[cfg(test)]
mod judged;
#[cfg(test)]
mod june;
#[cfg(test)]
mod listed;
#[cfg(test)]
mod migrated;
#[cfg(test)]
mod shelves;
#[cfg(test)]
mod traded;
