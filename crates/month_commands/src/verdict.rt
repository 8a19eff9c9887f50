//! What an accepted certificate shows.

use duty_calendar::List;

/// What an accepted certificate shows.
#[derive(Drop, Debug)]
pub enum Verdict {
    /// The roster is the award, and these are its scores in order of seniority.
    Award(List<u32>),
    /// There is no complete roster.
    NoRoster,
}
