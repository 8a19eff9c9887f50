//! Feasible chains of a graph that gain more than a bound, each more than the one before, and bounds on what chains may
//! still gain.
//!
//! The search goes down the graph by the arcs that leave each place. A label is let go where what it gained and may
//! still gain is not above the bound, or where a label from which all ways were tried dispenses with it. The bound rises
//! to the gain of each chain that is found, and the labels that wait go on. What chains may still gain is read from
//! tables over coarse views of a resource, each with finitely many states, from the bits that no later arc clears, and
//! from a table over the last free block alone, seen from the time of each place.
#![tactic(auto)]

mod bits;
mod blind;
mod chosen;
mod clocks;
mod coarse;
mod dues;
mod free;
mod held;
mod hours;
mod lasting;
mod least;
mod marks;
mod order;
mod parts;
mod paused;
mod rooms;
mod search;
mod shifts;
mod table;
mod turns;
mod ways;
mod weighed;

pub use bits::BitsMove;
pub use blind::Blind;
pub use chosen::{Bits, Chosen};
pub use coarse::{Coarse, follows};
pub use dues::Due;
pub use free::{FreeRest, asks_for_blocks, free_rest};
pub use held::Held;
pub use lasting::{Lasting, lasting_rest};
pub use least::{LeastRest, least_rest};
pub use order::{Below, Order, below_order};
pub use parts::{First, Second};
pub use paused::Paused;
pub use rooms::Room;
pub use search::{Climb, Ended, climb_above};
pub use shifts::Shift;
pub use table::{CoarseRest, coarse_rest};
pub use ways::Ways;
