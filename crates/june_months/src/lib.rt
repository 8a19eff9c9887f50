//! June 2026 in Dublin, for worked rows: pairings, members, bids and months of them; and how rows of tables are read.
#![tactic(auto)]

mod months;
mod rows;

pub use months::{
    contest, first_line, first_pairing, month, no_pairing, one, pair, pairings, pairings_of,
    rivals, shared, shift, single, smallest, tenth, two_floors, with, with_pairing,
};
pub use rows::{block_of, bytes_of, sides};
