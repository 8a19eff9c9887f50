//! The lines that `pbs` prints, read back: what each of them says, as a value.
#![tactic(auto)]

mod answer;
mod done;
mod faults;
mod heads;
mod judged;
mod reading;
mod words;

pub use answer::{Answer, Denied, Open, Refused, TextFault, TextFile, Trouble};
pub use done::{Done, View};
pub use faults::{BidFlaw, BidPlace, RuleFlaw};
pub use judged::{ItemFlaw, Judged, LensFlaw};
pub use reading::answer_of;
pub use words::{Words, words_of};
