//! Why `show` shows nothing.
ghost use Rattle.std.specs.Prelude.{◌≡◌};
ghost use Rattle.month_commands.specs.ShowEnds.{unread_roster};
ghost use Rattle.month_commands.specs.declared.show_stop.ShowStop.TheVariants.{Unread as NotRead, BadInput as Bad, No as Answer, NoMemory as NoRoom};

use duty_calendar::Memory;
use month_files::{BadInput, Unread};
use roster_text::{RosterTextCode, RosterTextFault};

/// Why `show` says no.
#[derive(Clone, Copy, Debug, PartialEq, Eq)]
pub enum Unshown {
    /// The roster is no roster's text of this month, from this row on.
    Roster(RosterTextFault),
    /// No member has the name.
    Member,
}

/// Why `show` shows nothing.
#[derive(Drop, Debug)]
pub enum ShowStop {
    /// A file was not read.
    Unread(Unread),
    /// The inputs name no problem.
    BadInput(BadInput),
    /// The answer is no.
    No(Unshown),
    /// No memory was left.
    NoMemory,
}

impl From<Unread> for ShowStop {
    ghost from_gives = { λ why e. e ≡ NotRead why };

    fn from(why: Unread) -> ShowStop {
        ShowStop::Unread(why)
    }
}

impl From<BadInput> for ShowStop {
    ghost from_gives = { λ why e. e ≡ Bad why };

    fn from(why: BadInput) -> ShowStop {
        ShowStop::BadInput(why)
    }
}

impl From<Unshown> for ShowStop {
    ghost from_gives = { λ why e. e ≡ Answer why };

    fn from(why: Unshown) -> ShowStop {
        ShowStop::No(why)
    }
}

impl From<Memory> for ShowStop {
    ghost from_gives = { λ _ e. e ≡ NoRoom };

    fn from(_want: Memory) -> ShowStop {
        ShowStop::NoMemory
    }
}

impl From<RosterTextFault> for ShowStop {
    ghost from_gives = { λ fault e. e ≡ unread_roster fault.code fault };

    fn from(fault: RosterTextFault) -> ShowStop {
        match fault.code {
            RosterTextCode::NoMemory => ShowStop::NoMemory,
            RosterTextCode::Header
            | RosterTextCode::Shape
            | RosterTextCode::Member
            | RosterTextCode::Pairing
            | RosterTextCode::Sums
            | RosterTextCode::Rows => ShowStop::No(Unshown::Roster(fault)),
        }
    }
}
