//! Worked rows of whole runs by the guide of the program, which are to need few nodes.
#![tactic(auto)]

#[cfg(test)]
mod asked;
#[cfg(test)]
mod made;
#[cfg(test)]
mod months;
#[cfg(test)]
mod runs;
