//! Why `check` does not say yes.
ghost use Rattle.std.specs.Prelude.{◌≡◌};
ghost use Rattle.month_commands.specs.CheckEnds.{cert_stop, roster_stop, reasons_stop, judge_stop};
ghost use Rattle.month_commands.specs.declared.check_stop.CheckStop.TheVariants.{Unread as NotRead, BadInput as Bad, NoMemory};

use cert_checker::No;
use cert_text::{CertCode, CertFault};
use month_files::{BadInput, Unread};
use roster_text::{ReasonTextCode, ReasonTextFault, RosterTextCode, RosterTextFault};

/// Why `check` says no.
#[derive(Drop, Debug)]
pub enum Refusal {
    /// The certificate is no certificate text, from this line on.
    Certificate(CertFault),
    /// The roster is no roster's text of this month, from this row on.
    Roster(RosterTextFault),
    /// The reasons are no text of reasons of this month, from this line on.
    Reasons(ReasonTextFault),
    /// The judge's first failing test.
    Judged(No),
}

/// Why `check` does not say yes.
#[derive(Drop, Debug)]
pub enum CheckStop {
    /// A file was not read.
    Unread(Unread),
    /// The inputs name no problem.
    BadInput(BadInput),
    /// The answer is no.
    No(Refusal),
    /// No memory was left.
    NoMemory,
}

impl From<Unread> for CheckStop {
    ghost from_gives = { λ why e. e ≡ NotRead why };

    fn from(why: Unread) -> CheckStop {
        CheckStop::Unread(why)
    }
}

impl From<BadInput> for CheckStop {
    ghost from_gives = { λ why e. e ≡ Bad why };

    fn from(why: BadInput) -> CheckStop {
        CheckStop::BadInput(why)
    }
}

impl From<CertFault> for CheckStop {
    ghost from_gives = { λ fault e. e ≡ cert_stop fault.code fault };

    fn from(fault: CertFault) -> CheckStop {
        match fault.code {
            CertCode::NoMemory => CheckStop::NoMemory,
            CertCode::Version
            | CertCode::Word
            | CertCode::Number
            | CertCode::Short
            | CertCode::Trailing
            | CertCode::Limit => CheckStop::No(Refusal::Certificate(fault)),
        }
    }
}

impl From<RosterTextFault> for CheckStop {
    ghost from_gives = { λ fault e. e ≡ roster_stop fault.code fault };

    fn from(fault: RosterTextFault) -> CheckStop {
        match fault.code {
            RosterTextCode::NoMemory => CheckStop::NoMemory,
            RosterTextCode::Header
            | RosterTextCode::Shape
            | RosterTextCode::Member
            | RosterTextCode::Pairing
            | RosterTextCode::Sums
            | RosterTextCode::Rows => CheckStop::No(Refusal::Roster(fault)),
        }
    }
}

impl From<ReasonTextFault> for CheckStop {
    ghost from_gives = { λ fault e. e ≡ reasons_stop fault.code fault };

    fn from(fault: ReasonTextFault) -> CheckStop {
        match fault.code {
            ReasonTextCode::NoMemory => CheckStop::NoMemory,
            ReasonTextCode::Shape
            | ReasonTextCode::Member
            | ReasonTextCode::Bid
            | ReasonTextCode::Place
            | ReasonTextCode::Text => CheckStop::No(Refusal::Reasons(fault)),
        }
    }
}

impl From<No> for CheckStop {
    ghost from_gives = { λ why e. e ≡ judge_stop why };

    fn from(why: No) -> CheckStop {
        match why {
            No::NoMemory => CheckStop::NoMemory,
            No::Member(_, _)
            | No::Cover(_, _)
            | No::Amount(_)
            | No::Item(_, _, _)
            | No::Left(_)
            | No::Reason(_, _)
            | No::Shown(_, _) => CheckStop::No(Refusal::Judged(why)),
        }
    }
}
