//! Worked rows of months that follow one another: what June leaves changes what July awards.
#![tactic(auto)]

#[cfg(test)]
mod barred;
#[cfg(test)]
mod carried;
#[cfg(test)]
mod folders;
#[cfg(test)]
mod leaving;
#[cfg(test)]
mod runs;
#[cfg(test)]
mod years;
