//! Rosters of kept lines: the heaviest lines of a mix, and choices of lines that cover each pairing as often as it is needed
//! (exact covers); rosters that are known, and which members of one may be freed. Nothing is promised of them.
#![tactic(auto)]

mod chance;
mod chosen;
mod covering;
mod crewing;
mod freeing;
mod known;
mod limits;
mod ranking;
mod remainder;
mod wholes;

pub use chance::Chance;
pub use covering::cover;
pub use freeing::{Begun, Free};
pub use known::{AllKnown, Known};
pub use ranking::{Ranked, Ranking, leave_best};
pub use wholes::whole_of;
