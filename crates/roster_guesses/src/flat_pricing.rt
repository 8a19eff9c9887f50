//! Lines for guesses at rosters, by flat searches (heuristic pricing).

use crate::limits::RUNGS;
use crate::pricing::Priced;
use duty_calendar::Memory;
use flat_search::{Found, Pricing, is_decided_by_lines, lately, refine};
use line_mixes::Kept;
use roster_model::Problem;
use std::alloc::Global;

/// Whether lines of the member are looked for by flat searches: the month is large, and no bid about whole lines matters for
/// the goal.
pub(crate) fn is_flat(problem: &Problem, kept: &Kept, asked: Pricing) -> bool {
    kept.is_flat(asked.member) && !is_decided_by_lines(problem, asked.member, asked.goal)
}

/// A line of the member above the bound that may serve the goal and obeys the row; or that flat searches find none. The lens of
/// the member's searches is made to look at the windows in which lines that were found break a rule.
pub(crate) fn price_flat(
    alloc: Global,
    problem: &Problem,
    kept: &mut Kept,
    asked: Pricing,
) -> Result<Priced, Memory> {
    let member = asked.member;
    let mut lens = kept.lens(alloc, problem, member)?;
    for _ in 0..RUNGS {
        let found = match kept.flat_over(alloc, problem, &asked, &lens)? {
            Found::Line(found) => found,
            Found::Nothing => return Ok(Priced::Nothing(lens)),
            Found::Limit => return Ok(Priced::Unknown),
        };
        let (weight, broken) = (found.weight, found.profile.broken);
        let Some(place) = kept.keep_known(problem, member, found.line, found.profile)? else {
            return Ok(Priced::Unknown);
        };
        let Some(why) = broken else {
            return Ok(Priced::Line(place, weight));
        };
        if !refine(&mut lens, why) {
            return Ok(Priced::Unknown);
        }
        kept.look_through(member, lately(alloc, &lens)?);
    }
    Ok(Priced::Unknown)
}
