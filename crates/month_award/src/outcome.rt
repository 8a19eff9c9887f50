//! What the award of a month comes to.

use branch_log::Ledger;
use roster_model::{Certificate, Reasons, Roster};

/// A month that is awarded.
#[derive(Drop, Debug)]
pub struct AwardedMonth {
    /// What shows that the scores are the greatest, and that the reasons are true.
    pub certificate: Certificate,
    pub roster: Roster,
    /// Why bids are denied.
    pub reasons: Reasons,
    /// The open nodes that the searches counted.
    pub ledger: Ledger,
}

/// A month that no roster fills.
#[derive(Drop, Debug)]
pub struct UnfillableMonth {
    /// What shows that there is no complete roster.
    pub certificate: Certificate,
    /// The open nodes that the searches counted.
    pub ledger: Ledger,
}

/// What the award of a month comes to.
#[derive(Drop, Debug)]
pub enum MonthAward {
    Award(AwardedMonth),
    NoRoster(UnfillableMonth),
    /// This ledger of the searches is full.
    Budget(Ledger),
}
