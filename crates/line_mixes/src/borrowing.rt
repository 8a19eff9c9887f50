//! Lines of other members: one that was found for another may serve a member, and costs no search.

use crate::kept::Kept;
use crate::limits::MOST_OFFERED;
use crate::recent::KeptLine;
use crate::shares::weigh;
use duty_calendar::Memory;
use flat_search::Care;
use roster_model::{Goal, Problem};
use std::alloc::Global;

/// A line of another member, and what it weighs.
#[derive(Clone, Copy)]
struct Offer {
    weight: i64,
    line: KeptLine,
}

/// A line that a member keeps, by its number, and what it weighs.
#[derive(Clone, Copy)]
pub struct Borrowed {
    pub place: usize,
    pub weight: i64,
}

impl Kept {
    /// Lines of others that were kept lately and weigh more than a bound, the heaviest first.
    fn offered(
        &self,
        alloc: Global,
        member: usize,
        weights: &[i64],
        over: i64,
    ) -> Result<Vec<Offer>, Memory> {
        let mut offered = Vec::new(alloc);
        for line in self.recent() {
            let weight = weigh(self.pairings(line.member, line.place), weights);
            if line.member != member && weight > over {
                offered.push(Offer {
                    weight,
                    line: *line,
                })?;
            }
        }
        offered.sort_by_key(|one: &Offer| one.weight.wrapping_neg())?;
        Ok(offered)
    }

    /// A line of another member above a bound that this one may fly too and that may serve the goal. The member keeps it from then
    /// on.
    pub fn borrow(
        &mut self,
        alloc: Global,
        problem: &Problem,
        member: usize,
        goal: &Goal,
        weights: &[i64],
        over: i64,
    ) -> Result<Option<Borrowed>, Memory> {
        let offered = self.offered(alloc, member, weights, over)?;
        for offer in offered.iter().take(MOST_OFFERED) {
            let other = offer.line;
            let Some(line) = self.line(alloc, other.member, other.place)? else {
                continue;
            };
            let profile = self.look_at(alloc, problem, member, &line)?;
            if !profile.may_serve(goal, member, Care::Fine) {
                continue;
            }
            if let Some(place) = self.keep_known(problem, member, line, profile)? {
                let weight = offer.weight;
                return Ok(Some(Borrowed { place, weight }));
            }
        }
        Ok(None)
    }
}
