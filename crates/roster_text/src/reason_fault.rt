//! Why a text is no text of reasons.
ghost use Rattle.std.specs.Prelude.{◌≡◌};
ghost use Rattle.roster_text.specs.Codes.{reason_code};
ghost use Rattle.roster_text.specs.ReasonReading.{fault_at};
ghost use Rattle.roster_text.specs.declared.reason_fault.ReasonTextCode.TheVariants.{NoMemory};

use duty_calendar::Memory;
use thiserror::Error;

/// What is wrong with a line. They are tested in this order.
#[derive(Clone, Copy, Debug, PartialEq, Eq, Error)]
pub enum ReasonTextCode {
    /// No memory was left; the line is 0. Code 0.
    #[error("out of memory")]
    NoMemory,
    /// Not `MEMBER K CAUSE: BID` and a line feed, whatever names, numbers and bid. Code 1.
    #[error("not a member, a number, a cause and a bid")]
    Shape,
    /// No member has the name. Code 2.
    #[error("unknown member")]
    Member,
    /// The member has no bid of this number. Code 3.
    #[error("no bid of this number")]
    Bid,
    /// There is no such place, or another member stands at it. Code 4.
    #[error("no such place, or another member's")]
    Place,
    /// The member's bid of this number is written otherwise. Code 5.
    #[error("not the text of this bid")]
    Text,
}

impl ReasonTextCode {
    /// The number by which the fault is printed.
    pub fn code(&self) -> u32
        ensures value { result ≡ reason_code self.now }
    {
        match self {
            ReasonTextCode::NoMemory => 0,
            ReasonTextCode::Shape => 1,
            ReasonTextCode::Member => 2,
            ReasonTextCode::Bid => 3,
            ReasonTextCode::Place => 4,
            ReasonTextCode::Text => 5,
        }
    }
}

impl From<Memory> for ReasonTextCode {
    ghost from_gives = { λ _ e. e ≡ NoMemory };

    fn from(_error: Memory) -> ReasonTextCode {
        ReasonTextCode::NoMemory
    }
}

/// The first line, from 1, at which a text differs from all texts of reasons, and why.
#[derive(Clone, Copy, Debug, PartialEq, Eq, Error)]
#[error("line {line}: {code}")]
pub struct ReasonTextFault {
    pub line: u32,
    pub code: ReasonTextCode,
}

/// A fault of a line. Want of memory has none.
pub fn fault_at(line: u32, code: ReasonTextCode) -> ReasonTextFault
    ensures value { result ≡ fault_at line code }
{
    match code {
        ReasonTextCode::NoMemory => ReasonTextFault { line: 0, code },
        _ => ReasonTextFault { line, code },
    }
}
