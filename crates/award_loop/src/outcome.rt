//! What an award answers.

use duty_calendar::List;
use roster_model::{Proof, Roster};

/// The answer of an award.
#[derive(Drop, PartialEq, Eq, Debug)]
pub enum Outcome {
    /// A complete roster whose scores are the greatest, and proofs of that, one for each place.
    Award(Roster, List<Proof>),
    /// A proof that there is no complete roster.
    NoRoster(Proof),
    /// The ledger is full.
    Spent,
}
