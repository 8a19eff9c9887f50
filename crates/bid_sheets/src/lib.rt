//! What each pilot sent, as a file of the pilot's name, made to the text of bids of the month. Each file is read by the reader
//! of bids, and what is written is the text of the printer of bids.
#![tactic(auto)]

mod collecting;
mod framing;
mod lines;
mod reading;
mod receipts;
mod standing;
mod words;

pub use collecting::{Collected, collect};
