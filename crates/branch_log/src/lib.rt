//! What closes the nodes of a search, and the ledger of the nodes that stay open.
#![tactic(auto)]

mod closer;
mod fresh;
mod ledger;

pub use closer::{Closer, Proposal, Verdict};
pub use fresh::FreshCloser;
pub use ledger::Ledger;
