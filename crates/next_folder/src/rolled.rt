//! What a month leaves the next one.

use duty_calendar::{List, Member, Name, Rules};
use month_files::Draft;

/// What a month leaves the next one, and the files that say it.
#[derive(Drop, Debug)]
pub struct RolledOver {
    /// The rules of the next month.
    pub rules: Rules,
    /// Its members, with history and what is carried into it.
    pub members: List<Member>,
    /// Its members as its files then say them: with the fixed events that are there already, where there are some.
    pub taken: List<Member>,
    /// The files to write.
    pub drafts: List<Draft>,
    /// Names of the next month's crew that this month does not have.
    pub newcomers: List<Name>,
    /// Names of this month's crew that the next one does not have.
    pub leavers: List<Name>,
}
