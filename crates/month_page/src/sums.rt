//! The sums of the files that a page is made of.

use crate::paging::Seen;
use duty_calendar::Memory;
use month_files::{File, Texts};
use page_parts::{FileSum, sum_of};
use std::alloc::Global;

/// Adds the sums of what is planned, but for the bids.
pub fn push_plan(sums: &mut Vec<FileSum>, texts: &Texts) -> Result<(), Memory> {
    sums.push(sum_of(File::Rules.name(), &texts.rules))?;
    sums.push(sum_of(File::Pairings.name(), &texts.pairings))?;
    sums.push(sum_of(File::Duties.name(), &texts.duties))?;
    sums.push(sum_of(File::Legs.name(), &texts.legs))?;
    sums.push(sum_of(File::Crew.name(), &texts.crew))?;
    sums.push(sum_of(File::History.name(), &texts.history))?;
    sums.push(sum_of(File::Fixed.name(), &texts.fixed))?;
    Ok(())
}

/// The sums of the inputs, the roster and the reasons.
pub fn sums_of(alloc: Global, seen: &Seen) -> Result<Vec<FileSum>, Memory> {
    let mut sums = Vec::new(alloc);
    push_plan(&mut sums, &seen.texts)?;
    sums.push(sum_of(File::Bids.name(), &seen.texts.bids))?;
    sums.push(sum_of(File::Roster.name(), &seen.roster))?;
    sums.push(sum_of(File::Reasons.name(), &seen.reasons))?;
    Ok(sums)
}
