//! Why no page is written.
ghost use Rattle.std.specs.Prelude.{◌≡◌};
ghost use Rattle.month_page.specs.PageEnds.{roster_stop, reasons_stop};
ghost use Rattle.month_page.specs.declared.page_stop.PageStop.TheVariants.{Unread as NotRead, BadInput as Bad, NoMemory as NoRoom};

use duty_calendar::Memory;
use month_files::{BadInput, Unread, WriteStop};
use roster_text::{ReasonTextCode, ReasonTextFault, RosterTextCode, RosterTextFault};

/// Why no page is written.
#[derive(Drop, Debug)]
pub enum PageStop {
    /// A file was not read.
    Unread(Unread),
    /// The inputs name no problem.
    BadInput(BadInput),
    /// The roster is no roster's text of this month, from this row on.
    Roster(RosterTextFault),
    /// The reasons are no text of reasons of this month, from this line on.
    Reasons(ReasonTextFault),
    /// The page was not written.
    Unwritten(WriteStop),
    /// No memory was left.
    NoMemory,
}

impl From<Unread> for PageStop {
    ghost from_gives = { λ why e. e ≡ NotRead why };

    fn from(why: Unread) -> PageStop {
        PageStop::Unread(why)
    }
}

impl From<BadInput> for PageStop {
    ghost from_gives = { λ why e. e ≡ Bad why };

    fn from(why: BadInput) -> PageStop {
        PageStop::BadInput(why)
    }
}

impl From<Memory> for PageStop {
    ghost from_gives = { λ _ e. e ≡ NoRoom };

    fn from(_want: Memory) -> PageStop {
        PageStop::NoMemory
    }
}

impl From<RosterTextFault> for PageStop {
    ghost from_gives = { λ fault e. e ≡ roster_stop fault.code fault };

    fn from(fault: RosterTextFault) -> PageStop {
        match fault.code {
            RosterTextCode::NoMemory => PageStop::NoMemory,
            RosterTextCode::Header
            | RosterTextCode::Shape
            | RosterTextCode::Member
            | RosterTextCode::Pairing
            | RosterTextCode::Sums
            | RosterTextCode::Rows => PageStop::Roster(fault),
        }
    }
}

impl From<ReasonTextFault> for PageStop {
    ghost from_gives = { λ fault e. e ≡ reasons_stop fault.code fault };

    fn from(fault: ReasonTextFault) -> PageStop {
        match fault.code {
            ReasonTextCode::NoMemory => PageStop::NoMemory,
            ReasonTextCode::Shape
            | ReasonTextCode::Member
            | ReasonTextCode::Bid
            | ReasonTextCode::Place
            | ReasonTextCode::Text => PageStop::Reasons(fault),
        }
    }
}
