//! Why `opencheck` does not say yes.
ghost use Rattle.std.specs.Prelude.{◌≡◌};
ghost use Rattle.open_commands.specs.OpenCheckingEnds.{cert_end, reasons_end, roster_end, judged_end};
ghost use Rattle.open_commands.specs.declared.open_check_stop.OpenCheckStop.TheVariants.{Unread as NotRead, BadInput as Bad, NoMemory as NoRoom};

use cert_text::{CertCode, CertFault};
use duty_calendar::Memory;
use month_files::{BadInput, Unread};
use open_time::{OpenFault, OpenNo};
use roster_text::{ReasonTextCode, ReasonTextFault, RosterTextCode, RosterTextFault};

/// Why `opencheck` says no.
#[derive(Drop, Debug)]
pub enum Unopened {
    /// The vacant lines cannot be added.
    Open(OpenFault),
    /// One of the certificates is no certificate text, from this line on.
    Certificate(CertFault),
    /// One of the certificates has not the form that is due.
    Form,
    /// The reasons are no text of reasons of the month with vacant lines, from this line on.
    Reasons(ReasonTextFault),
    /// The roster is no roster's text of that month, from this row on.
    Roster(RosterTextFault),
    /// The judge's first failing test.
    Judged(OpenNo),
}

/// Why `opencheck` does not say yes.
#[derive(Drop, Debug)]
pub enum OpenCheckStop {
    /// A file was not read.
    Unread(Unread),
    /// The inputs name no problem.
    BadInput(BadInput),
    /// The answer is no.
    No(Unopened),
    /// No memory was left.
    NoMemory,
}

impl From<Memory> for OpenCheckStop {
    ghost from_gives = { λ _ e. e ≡ NoRoom };

    fn from(_want: Memory) -> OpenCheckStop {
        OpenCheckStop::NoMemory
    }
}

impl From<Unread> for OpenCheckStop {
    ghost from_gives = { λ why e. e ≡ NotRead why };

    fn from(why: Unread) -> OpenCheckStop {
        OpenCheckStop::Unread(why)
    }
}

impl From<BadInput> for OpenCheckStop {
    ghost from_gives = { λ why e. e ≡ Bad why };

    fn from(why: BadInput) -> OpenCheckStop {
        OpenCheckStop::BadInput(why)
    }
}

impl From<CertFault> for OpenCheckStop {
    ghost from_gives = { λ fault e. e ≡ cert_end fault.code fault };

    fn from(fault: CertFault) -> OpenCheckStop {
        match fault.code {
            CertCode::NoMemory => OpenCheckStop::NoMemory,
            CertCode::Version
            | CertCode::Word
            | CertCode::Number
            | CertCode::Short
            | CertCode::Trailing
            | CertCode::Limit => OpenCheckStop::No(Unopened::Certificate(fault)),
        }
    }
}

impl From<RosterTextFault> for OpenCheckStop {
    ghost from_gives = { λ fault e. e ≡ roster_end fault.code fault };

    fn from(fault: RosterTextFault) -> OpenCheckStop {
        match fault.code {
            RosterTextCode::NoMemory => OpenCheckStop::NoMemory,
            RosterTextCode::Header
            | RosterTextCode::Shape
            | RosterTextCode::Member
            | RosterTextCode::Pairing
            | RosterTextCode::Sums
            | RosterTextCode::Rows => OpenCheckStop::No(Unopened::Roster(fault)),
        }
    }
}

impl From<ReasonTextFault> for OpenCheckStop {
    ghost from_gives = { λ fault e. e ≡ reasons_end fault.code fault };

    fn from(fault: ReasonTextFault) -> OpenCheckStop {
        match fault.code {
            ReasonTextCode::NoMemory => OpenCheckStop::NoMemory,
            ReasonTextCode::Shape
            | ReasonTextCode::Member
            | ReasonTextCode::Bid
            | ReasonTextCode::Place
            | ReasonTextCode::Text => OpenCheckStop::No(Unopened::Reasons(fault)),
        }
    }
}

impl From<OpenNo> for OpenCheckStop {
    ghost from_gives = { λ why e. e ≡ judged_end why };

    fn from(why: OpenNo) -> OpenCheckStop {
        match why {
            OpenNo::NoMemory => OpenCheckStop::NoMemory,
            OpenNo::Open(_) | OpenNo::NoneProof | OpenNo::Fewer(_) | OpenNo::Award(_) => {
                OpenCheckStop::No(Unopened::Judged(why))
            }
        }
    }
}
