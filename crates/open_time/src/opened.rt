//! What the search for the fewest vacant lines comes to.

use branch_log::Ledger;
use roster_model::{Awarded, Proof, Reasons, Roster};

/// The answer on the fewest vacant lines. The ledger is that of the last number tried.
#[derive(Drop, Debug)]
pub enum Opened {
    /// So many are needed; a proof that one less is not enough, where the number is above 0; and the award with them.
    Award(u32, Option<Proof>, Roster, Awarded, Reasons, Ledger),
    /// A proof that the most that were asked for are not enough.
    NoRoster(Proof, Ledger),
    /// The ledger of this number is full.
    Spent(u32, Ledger),
}
