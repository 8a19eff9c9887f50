//! Why a text is no roster.
ghost use Rattle.std.specs.Prelude.{◌≡◌};
ghost use Rattle.roster_text.specs.Codes.{roster_code};
ghost use Rattle.roster_text.specs.RowReading.{fault_at};
ghost use Rattle.roster_text.specs.declared.fault.RosterTextCode.TheVariants.{NoMemory};

use duty_calendar::Memory;
use thiserror::Error;

/// What is wrong with a row. Of a row the form is tested first, then the fields in their order.
#[derive(Clone, Copy, Debug, PartialEq, Eq, Error)]
pub enum RosterTextCode {
    /// No memory was left; the row is 0. Code 0.
    #[error("out of memory")]
    NoMemory,
    /// The first row is another one, or has no line feed. Code 1.
    #[error("another header is expected")]
    Header,
    /// Not four fields and a line feed. Code 2.
    #[error("not four fields and a line feed")]
    Shape,
    /// The first field is not the name of the member whose row it is. Code 3.
    #[error("another member is expected")]
    Member,
    /// The second field does not name pairings of the month in their order. Code 4.
    #[error("no line of pairings")]
    Pairing,
    /// The credit or the score is not that of the line, or is misspelt. Code 5.
    #[error("not the credit and the score of the line")]
    Sums,
    /// A member has no row, or bytes follow the last member's row. Code 6.
    #[error("another number of rows than of members")]
    Rows,
}

impl RosterTextCode {
    /// The number by which the fault is printed.
    pub fn code(&self) -> u32
        ensures value { result ≡ roster_code self.now }
    {
        match self {
            RosterTextCode::NoMemory => 0,
            RosterTextCode::Header => 1,
            RosterTextCode::Shape => 2,
            RosterTextCode::Member => 3,
            RosterTextCode::Pairing => 4,
            RosterTextCode::Sums => 5,
            RosterTextCode::Rows => 6,
        }
    }
}

impl From<Memory> for RosterTextCode {
    ghost from_gives = { λ _ e. e ≡ NoMemory };

    fn from(_error: Memory) -> RosterTextCode {
        RosterTextCode::NoMemory
    }
}

/// The first row, from 1, at which a text differs from all rosters' texts, and why. The header is
/// row 1.
#[derive(Clone, Copy, Debug, PartialEq, Eq, Error)]
#[error("row {row}: {code}")]
pub struct RosterTextFault {
    pub row: u32,
    pub code: RosterTextCode,
}

/// A fault of a row. Want of memory has none.
pub fn fault_at(row: u32, code: RosterTextCode) -> RosterTextFault
    ensures value { result ≡ fault_at row code }
{
    match code {
        RosterTextCode::NoMemory => RosterTextFault { row: 0, code },
        _ => RosterTextFault { row, code },
    }
}
