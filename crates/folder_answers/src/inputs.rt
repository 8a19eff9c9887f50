//! Faults of the inputs, as what a printed line says.

use bid_language::{BidCode, BidFault};
use month_files::{InputFault, Unread};
use printed_lines::{Answer, BidFlaw, BidPlace, RuleFlaw, Trouble};
use rules_file::RuleFault;

/// What is wrong at a place of bids.
fn flaw_of(code: BidCode) -> Option<BidFlaw> {
    match code {
        BidCode::NoMemory => None,
        BidCode::Token => Some(BidFlaw::Token),
        BidCode::Expected(_) => Some(BidFlaw::Expected),
        BidCode::Number => Some(BidFlaw::Number),
        BidCode::Date => Some(BidFlaw::Date),
        BidCode::UnknownMember => Some(BidFlaw::UnknownMember),
        BidCode::UnknownPairing => Some(BidFlaw::UnknownPairing),
        BidCode::Weight => Some(BidFlaw::Weight),
        BidCode::TooMany => Some(BidFlaw::TooMany),
        BidCode::MemberTwice => Some(BidFlaw::MemberTwice),
    }
}

/// The place of a fault of bids, where it is no want of memory.
pub fn bid_place(fault: &BidFault) -> Option<BidPlace> {
    Some(BidPlace {
        line: u64::from(fault.line),
        column: u64::from(fault.column),
        flaw: flaw_of(fault.code)?,
    })
}

/// What a fault of the rules says, where it is no want of memory.
pub fn rule_answer(fault: &RuleFault) -> Option<Answer<'_>> {
    match fault {
        RuleFault::NoMemory => None,
        RuleFault::NotToml => Some(Answer::Rules(RuleFlaw::NotToml, b"")),
        RuleFault::MissingKey(key) => Some(Answer::Rules(
            RuleFlaw::MissingKey,
            key.text.as_slice(),
        )),
        RuleFault::UnknownKey(key) => Some(Answer::Rules(
            RuleFlaw::UnknownKey,
            key.text.as_slice(),
        )),
        RuleFault::Range(key) => Some(Answer::Rules(RuleFlaw::Range, key.text.as_slice())),
    }
}

/// What a fault of the inputs says, where it is no want of memory.
pub fn input_answer(fault: &InputFault) -> Option<Answer<'_>> {
    match fault {
        InputFault::Rules(fault) => rule_answer(fault),
        InputFault::Pairings(fault) | InputFault::Members(fault) => Some(Answer::Row(*fault)),
        InputFault::Bids(fault) => Some(Answer::Bids(bid_place(fault)?)),
    }
}

/// What a file that was not read says, where it is no want of memory.
pub fn unread_answer<'a>(why: Unread) -> Option<Answer<'a>> {
    match why {
        Unread::Missing(file) => Some(Answer::File(Trouble::Missing, file.name().as_bytes())),
        Unread::ReadFault(file) => Some(Answer::File(Trouble::ReadFault, file.name().as_bytes())),
        Unread::TooLong(file) => Some(Answer::File(Trouble::TooLong, file.name().as_bytes())),
        Unread::NoMemory => None,
    }
}
