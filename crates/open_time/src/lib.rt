//! Open time: the fewest vacant lines with which the crew can fly the month, and the award at that number.
#![tactic(auto)]

mod bargains;
mod batching;
mod exchanging;
mod fault;
mod judging;
mod lines;
mod moves;
mod names;
mod opened;
mod opening;
mod placing;
mod refusal;
mod settling;
mod tries;
mod vacant;

pub use fault::OpenFault;
pub use judging::judge_open;
pub use lines::eligible;
pub use opened::Opened;
pub use opening::fewest;
pub use refusal::OpenNo;
pub use settling::settled;
pub use vacant::with_vacant;
