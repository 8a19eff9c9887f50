//! The command over a folder that awards its month once more, with other bids of one member: its answer as a value, with no text
//! of it.
#![tactic(auto)]

mod again;
mod asking;
mod asking_stop;
mod question;
mod texts;

pub use asking::whatif;
pub use asking_stop::{Unasked, WhatIf, WhatIfStop};
pub use question::Question;
