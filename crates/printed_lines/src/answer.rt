//! What a line says.

use crate::done::Done;
use crate::faults::{BidPlace, RuleFlaw};
use crate::judged::Judged;
use field_text::FileFault;
use line_legality::Illegal;

/// What became of a file.
#[derive(Clone, Copy)]
pub enum Trouble {
    Missing,
    ReadFault,
    TooLong,
    WriteFault,
}

/// A file of text that says an award or trades.
#[derive(Clone, Copy)]
pub enum TextFile {
    Certificate,
    Roster,
    Reasons,
    Trades,
}

/// A line of such a file from which on it does not read, and the code of its fault, which is one of that file's.
#[derive(Clone, Copy)]
pub struct TextFault {
    pub file: TextFile,
    pub line: u64,
    pub code: u64,
}

/// Why a trade was not made. Members and pairings count from 1.
#[derive(Clone, Copy)]
pub enum Refused {
    SameMember,
    NotHeld(u32, u32),
    Held(u32, u32),
    Line(u32, Illegal),
}

/// Why vacant lines are not added, or an award with them is not accepted.
#[derive(Clone, Copy)]
pub enum Open {
    Members(u32),
    NameTaken(u32),
    NoneProof,
    Fewer(Judged),
    Award(Judged),
}

/// What is not there for a command.
#[derive(Clone, Copy)]
pub enum Denied<'a> {
    Award,
    Events(&'a [u8]),
    Bids(&'a [u8]),
    Member(&'a [u8]),
}

/// What a line says.
#[derive(Clone, Copy)]
pub enum Answer<'a> {
    Done(Done<'a>),
    /// What became of the file of this name.
    File(Trouble, &'a [u8]),
    Row(FileFault),
    /// What is wrong with the rules, and the key that it is about.
    Rules(RuleFlaw, &'a [u8]),
    Bids(BidPlace),
    OtherBids(BidPlace),
    Text(TextFault),
    Judged(Judged),
    Denied(Denied<'a>),
    Open(Open),
    /// The number of a trade.
    Trade(u64, Refused),
    Usage,
    PageUsage,
}
