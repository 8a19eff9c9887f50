//! Reading and writing the members of a month: `crew.csv`, `history.csv` and `fixed.csv`.
#![tactic(auto)]

mod crew;
mod crew_rows;
mod event_rows;
mod flights;
mod laws;
mod part;
mod reading;
mod writing;

pub use laws::flights_laws;
pub use reading::read_members;
pub use writing::{MemberTexts, put_members};
