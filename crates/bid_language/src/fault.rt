//! What is wrong with a text of bids.
ghost use Rattle.std.specs.Prelude.{◌≡◌};
ghost use Rattle.bid_language.specs.Codes.{bid_code};

use thiserror::Error;

/// What may stand at a place of a line. Of several the first in this order is named.
#[derive(Clone, Copy, Debug, PartialEq, Eq)]
pub enum Word {
    /// `member` at the begin of a line.
    MemberLine,
    /// The name of a member or a pairing.
    Name,
    /// The first word of a wish.
    Kind,
    /// The first word of an atom of a filter.
    Filter,
    /// `before` or `after`.
    Side,
    /// A station.
    Station,
    /// A day of the week.
    Weekday,
    /// `below` or `above`.
    Credit,
    /// A number, minutes, a clock or a day.
    Value,
    /// `to` between two days.
    To,
    /// Nothing more.
    EndOfLine,
}

/// What is wrong at a place of a text of bids.
#[derive(Clone, Copy, Debug, PartialEq, Eq, Error)]
pub enum BidCode {
    /// No memory was left; line and column are 0. Code 0.
    #[error("out of memory")]
    NoMemory,
    /// A byte that is no blank and may stand in no token. Code 1.
    #[error("a byte that may not stand in a line")]
    Token,
    /// A token in the place of another, or none where one is due. Code 2.
    #[error("another word is expected")]
    Expected(Word),
    /// A weight, number, minutes or clock that does not read, or a number out of its range. Code 3.
    #[error("no number of this kind")]
    Number,
    /// No day of the month, or one before the first day of its stretch. Code 4.
    #[error("no such day of the month")]
    Date,
    /// A name of no member. Code 5.
    #[error("a name of no member")]
    UnknownMember,
    /// A name of no pairing. Code 6.
    #[error("a name of no pairing")]
    UnknownPairing,
    /// A weight outside 1 to 1,000. Code 7.
    #[error("a weight outside 1 to 1000")]
    Weight,
    /// The 65th bid of a member, or the ninth atom of a filter. Code 8.
    #[error("too many bids or atoms")]
    TooMany,
    /// A member whose lines began before. Code 9.
    #[error("a member whose bids began before")]
    MemberTwice,
}

impl BidCode {
    /// The number by which the fault is printed.
    pub fn code(&self) -> u32
        ensures value { result ≡ bid_code self.now }
    {
        match self {
            BidCode::NoMemory => 0,
            BidCode::Token => 1,
            BidCode::Expected(_) => 2,
            BidCode::Number => 3,
            BidCode::Date => 4,
            BidCode::UnknownMember => 5,
            BidCode::UnknownPairing => 6,
            BidCode::Weight => 7,
            BidCode::TooMany => 8,
            BidCode::MemberTwice => 9,
        }
    }
}

/// The first fault of a text of bids. Lines and columns count from 1, columns in bytes.
#[derive(Clone, Copy, Debug, PartialEq, Eq, Error)]
#[error("line {line}, column {column}: {code}")]
pub struct BidFault {
    pub line: u32,
    pub column: u32,
    pub code: BidCode,
}

/// The first fault of a line.
#[derive(Clone, Copy, Debug, PartialEq, Eq)]
pub struct LineFault {
    pub column: u32,
    pub code: BidCode,
}

/// Why a line is not read.
#[derive(Clone, Copy, Debug)]
pub enum Stop {
    NoMemory,
    Fault(LineFault),
}
