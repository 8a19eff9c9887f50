//! Why `calendar` writes no calendar.
ghost use Rattle.std.specs.Prelude.{◌≡◌};
ghost use Rattle.desk_commands.specs.CalendarEnds.{unread_roster};
ghost use Rattle.desk_commands.specs.declared.calendar_stop.CalendarStop.TheVariants.{Unread as NotRead, BadInput as Bad, NoMemory as NoRoom};

use crate::calendars::MemberCalendar;
use duty_calendar::Memory;
use month_files::{BadInput, Unread, WriteStop};
use roster_text::{RosterTextCode, RosterTextFault};

/// Why `calendar` says no.
#[derive(Clone, Copy, Debug, PartialEq, Eq)]
pub enum Undated {
    /// The roster is no roster's text of this month, from this row on.
    Roster(RosterTextFault),
    /// No member has the name.
    Member,
    /// The member has no pairing and no fixed event.
    NoEvents,
}

/// Why `calendar` writes no calendar.
#[derive(Drop, Debug)]
pub enum CalendarStop {
    /// A file was not read.
    Unread(Unread),
    /// The inputs name no problem.
    BadInput(BadInput),
    /// The answer is no.
    No(Undated),
    /// This is the calendar, and its file was not written.
    Unwritten(MemberCalendar, WriteStop),
    /// No memory was left.
    NoMemory,
}

impl From<Unread> for CalendarStop {
    ghost from_gives = { λ why e. e ≡ NotRead why };

    fn from(why: Unread) -> CalendarStop {
        CalendarStop::Unread(why)
    }
}

impl From<BadInput> for CalendarStop {
    ghost from_gives = { λ why e. e ≡ Bad why };

    fn from(why: BadInput) -> CalendarStop {
        CalendarStop::BadInput(why)
    }
}

impl From<Memory> for CalendarStop {
    ghost from_gives = { λ _ e. e ≡ NoRoom };

    fn from(_want: Memory) -> CalendarStop {
        CalendarStop::NoMemory
    }
}

impl From<RosterTextFault> for CalendarStop {
    ghost from_gives = { λ fault e. e ≡ unread_roster fault.code fault };

    fn from(fault: RosterTextFault) -> CalendarStop {
        match fault.code {
            RosterTextCode::NoMemory => CalendarStop::NoMemory,
            RosterTextCode::Header
            | RosterTextCode::Shape
            | RosterTextCode::Member
            | RosterTextCode::Pairing
            | RosterTextCode::Sums
            | RosterTextCode::Rows => CalendarStop::No(Undated::Roster(fault)),
        }
    }
}
