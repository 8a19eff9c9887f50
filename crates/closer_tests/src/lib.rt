//! Worked rows of closers and of whole awards.
#![tactic(auto)]

#[cfg(test)]
mod again;
#[cfg(test)]
mod awards;
#[cfg(test)]
mod closers;
#[cfg(test)]
mod openings;
