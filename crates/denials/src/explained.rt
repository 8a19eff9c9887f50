//! What explains denials.

use duty_calendar::List;
use roster_model::{Reasons, Shown};

/// The answer on the denied bids of an award.
#[derive(Drop, PartialEq, Eq, Debug)]
pub enum Explained {
    /// A reason for each denied bid, and what shows it.
    All(Reasons, List<Shown>),
    /// The ledger is full.
    Spent,
}
