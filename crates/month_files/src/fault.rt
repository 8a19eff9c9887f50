//! Why eight texts name no month.

use bid_language::BidFault;
use field_text::FileFault;
use rules_file::RuleFault;

/// The first fault of the eight inputs.
#[derive(Drop, Debug)]
pub enum InputFault {
    /// In the rules.
    Rules(RuleFault),
    /// In the files of pairings, duties and legs.
    Pairings(FileFault),
    /// In the files of crew, history and fixed events.
    Members(FileFault),
    /// In the bids.
    Bids(BidFault),
}

/// Why no problem was made of the eight inputs.
#[derive(Drop, Debug)]
pub enum BadInput {
    /// They have this first fault.
    Fault(InputFault),
    /// No memory was left.
    NoMemory,
}
