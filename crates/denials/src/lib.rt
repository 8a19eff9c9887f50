//! Why bids are denied: for each bid that an award does not grant, the least place by which every complete roster that
//! grants it falls below the award, or an equally scored roster that grants it.
#![tactic(auto)]

mod bids;
mod explained;
mod known;
mod members;
mod next;
mod places;

pub use explained::Explained;
pub use members::explain;
