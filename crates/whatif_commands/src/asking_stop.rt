//! What `whatif` finds, and why it ends without.
ghost use Rattle.std.specs.Prelude.{◌≡◌};
ghost use Rattle.whatif_commands.specs.AskingEnds.{bids_stop, cert_stop, roster_stop, reasons_stop, judge_stop};
ghost use Rattle.whatif_commands.specs.declared.asking_stop.WhatIfStop.TheVariants.{Unread as NotRead, BadInput as Bad, NoMemory as NoRoom};

use bid_language::{BidCode, BidFault};
use branch_log::Ledger;
use cert_checker::No;
use cert_text::{CertCode, CertFault};
use duty_calendar::{List, Memory};
use month_files::{BadInput, Draft, Unread, Unwritten};
use roster_text::{ReasonTextCode, ReasonTextFault, RosterTextCode, RosterTextFault};

/// The award with the other bids, and the file that says its roster.
#[derive(Drop, Debug)]
pub struct WhatIf {
    /// The scores of its roster, in order of seniority.
    pub scores: List<u32>,
    /// The open nodes that were counted.
    pub ledger: Ledger,
    pub drafts: List<Draft>,
}

/// Why `whatif` says no.
#[derive(Drop, Debug)]
pub enum Unasked {
    /// No member has the name.
    Member,
    /// The certificate is no certificate's text, from this line on.
    Certificate(CertFault),
    /// The certificate is that of no roster.
    NoAward,
    /// The roster is no roster's text of this month, from this row on.
    Roster(RosterTextFault),
    /// The reasons are no text of reasons of this month, from this line on.
    Reasons(ReasonTextFault),
    /// The judge's first failing test.
    Judged(No),
    /// A member with this name is the first who bids otherwise and is not the one who is asked about.
    Bids(List<u8>),
}

/// Why `whatif` did not write the award with the other bids.
#[derive(Drop, Debug)]
pub enum WhatIfStop {
    /// A file was not read.
    Unread(Unread),
    /// The inputs name no problem.
    BadInput(BadInput),
    /// The other bids are no bids of this month.
    BadBids(BidFault),
    /// The answer is no.
    No(Unasked),
    /// These nodes were counted, and were not enough.
    Budget(Ledger),
    /// This was found, and the file was not written.
    Unwritten(WhatIf, Unwritten),
    /// No memory was left.
    NoMemory,
}

impl From<Unread> for WhatIfStop {
    ghost from_gives = { λ why e. e ≡ NotRead why };

    fn from(why: Unread) -> WhatIfStop {
        WhatIfStop::Unread(why)
    }
}

impl From<BadInput> for WhatIfStop {
    ghost from_gives = { λ why e. e ≡ Bad why };

    fn from(why: BadInput) -> WhatIfStop {
        WhatIfStop::BadInput(why)
    }
}

impl From<Memory> for WhatIfStop {
    ghost from_gives = { λ _ e. e ≡ NoRoom };

    fn from(_want: Memory) -> WhatIfStop {
        WhatIfStop::NoMemory
    }
}

impl From<BidFault> for WhatIfStop {
    ghost from_gives = { λ fault e. e ≡ bids_stop fault.code fault };

    fn from(fault: BidFault) -> WhatIfStop {
        match fault.code {
            BidCode::NoMemory => WhatIfStop::NoMemory,
            BidCode::Token
            | BidCode::Expected(_)
            | BidCode::Number
            | BidCode::Date
            | BidCode::UnknownMember
            | BidCode::UnknownPairing
            | BidCode::Weight
            | BidCode::TooMany
            | BidCode::MemberTwice => WhatIfStop::BadBids(fault),
        }
    }
}

impl From<CertFault> for WhatIfStop {
    ghost from_gives = { λ fault e. e ≡ cert_stop fault.code fault };

    fn from(fault: CertFault) -> WhatIfStop {
        match fault.code {
            CertCode::NoMemory => WhatIfStop::NoMemory,
            CertCode::Version
            | CertCode::Word
            | CertCode::Number
            | CertCode::Short
            | CertCode::Trailing
            | CertCode::Limit => WhatIfStop::No(Unasked::Certificate(fault)),
        }
    }
}

impl From<RosterTextFault> for WhatIfStop {
    ghost from_gives = { λ fault e. e ≡ roster_stop fault.code fault };

    fn from(fault: RosterTextFault) -> WhatIfStop {
        match fault.code {
            RosterTextCode::NoMemory => WhatIfStop::NoMemory,
            RosterTextCode::Header
            | RosterTextCode::Shape
            | RosterTextCode::Member
            | RosterTextCode::Pairing
            | RosterTextCode::Sums
            | RosterTextCode::Rows => WhatIfStop::No(Unasked::Roster(fault)),
        }
    }
}

impl From<ReasonTextFault> for WhatIfStop {
    ghost from_gives = { λ fault e. e ≡ reasons_stop fault.code fault };

    fn from(fault: ReasonTextFault) -> WhatIfStop {
        match fault.code {
            ReasonTextCode::NoMemory => WhatIfStop::NoMemory,
            ReasonTextCode::Shape
            | ReasonTextCode::Member
            | ReasonTextCode::Bid
            | ReasonTextCode::Place
            | ReasonTextCode::Text => WhatIfStop::No(Unasked::Reasons(fault)),
        }
    }
}

impl From<No> for WhatIfStop {
    ghost from_gives = { λ why e. e ≡ judge_stop why };

    fn from(why: No) -> WhatIfStop {
        match why {
            No::NoMemory => WhatIfStop::NoMemory,
            No::Member(_, _)
            | No::Cover(_, _)
            | No::Amount(_)
            | No::Item(_, _, _)
            | No::Left(_)
            | No::Reason(_, _)
            | No::Shown(_, _) => WhatIfStop::No(Unasked::Judged(why)),
        }
    }
}
