//! Lines that are kept for the members of a problem (the columns of a restricted master), and mixes of them that come near to the
//! needs: by a linear program, or by shares that are evened out. Nothing is promised of them.
#![tactic(auto)]

mod barren;
mod borrowing;
mod calling;
mod columns;
mod dual;
mod evening;
mod kept;
mod leaf;
mod limits;
mod listed;
mod master;
mod mix;
mod notes;
mod program;
mod rebuilding;
mod recent;
mod shares;
mod shortage;
mod simplex;
mod steps;

pub use borrowing::Borrowed;
pub use columns::Columns;
pub use dual::Balance;
pub use evening::{Ended, improve};
pub use kept::Kept;
pub use leaf::{Bounded, Leaf};
pub use master::Master;
pub use mix::Mix;
pub use program::Program;
pub use shares::{Share, WHOLE};
pub use shortage::Shortage;
