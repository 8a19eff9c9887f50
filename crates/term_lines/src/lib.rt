//! The best line of a member that keeps terms, by the chains of one graph. What is asked is a `TermQuestion`: `best` answers it by
//! labels, `heaviest` by climbs above bounds; `over` climbs above one bound, for the first line there or for a heaviest.
#![tactic(auto)]

mod above;
mod climbs;
mod counting;
mod found;
mod labels;
mod lines;
mod priced;
mod question;
mod slacks;

pub use above::{Over, Sought, Wanted};
pub use priced::PricedLine;
pub use question::TermQuestion;
