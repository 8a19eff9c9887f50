//! What a member's floor leaves open beyond its row: a pairing that spoils more than may be lost is barred, and one without which too
//! much would be lost is flown.

use crate::board::Row;
use crate::demands::{Demand, Wanted, wanted_of};
use crate::pairings::PairingSet;
use crate::places::{Place, open_flights, places_of};
use crate::sheets::Sheet;
use crate::sizes::NARROWED;
use duty_calendar::Memory;
use roster_model::{Goal, Lens, Problem};
use std::alloc::Global;

/// The places that are open, the bids that they decide, and how much of these a line may lose.
#[derive(Drop)]
pub(crate) struct Scope {
    pub places: Vec<Place>,
    pub wanted: Vec<Wanted>,
    pub allowed: u32,
}

/// What the bids weigh that a pairing spoils.
fn spoiled(wanted: &[Wanted], pairing: usize) -> u32 {
    let mut sum: u32 = 0;
    for one in wanted {
        if one.spoils && one.pairings.contains(pairing) {
            sum = sum.saturating_add(one.weight);
        }
    }
    sum
}

impl Scope {
    /// What the row leaves open; none where the member has no line.
    fn of(
        alloc: Global,
        problem: &Problem,
        sheet: &Sheet,
        member: usize,
        goal: &Goal,
        row: &Row,
        lens: &Lens,
    ) -> Result<Option<Scope>, Memory> {
        let Some(mut demand) = Demand::of(alloc, sheet, member, goal)? else {
            return Ok(None);
        };
        let Some(open) = open_flights(alloc, sheet, row)? else {
            return Ok(None);
        };
        let places = places_of(alloc, problem, &open, row, lens)?;
        let Some(wanted) = wanted_of(alloc, sheet, &places, row, &mut demand)? else {
            return Ok(None);
        };
        Ok(Some(Scope {
            places,
            wanted,
            allowed: demand.allowed,
        }))
    }

    /// The row, with what the bids decide that may not be lost.
    fn row(&self, row: &Row) -> Row {
        let mut next = *row;
        for place in &self.places {
            let pairing = place.flight.pairing as usize;
            if spoiled(&self.wanted, pairing) > self.allowed && !row.flown.contains(pairing) {
                next.barred.insert(pairing);
            }
        }
        for one in &self.wanted {
            let is_alone = one.pairings.distance(&PairingSet::new()) == 1;
            if one.weight > self.allowed && !one.spoils && is_alone {
                next.flown = next.flown.joined(&one.pairings);
            }
        }
        next
    }

    /// What the row and the member's floor leave open; none where it has no line.
    pub(crate) fn narrowed(
        alloc: Global,
        problem: &Problem,
        sheet: &Sheet,
        member: usize,
        goal: &Goal,
        row: &Row,
        lens: &Lens,
    ) -> Result<Option<Scope>, Memory> {
        let mut row = *row;
        let mut scope = Scope::of(alloc, problem, sheet, member, goal, &row, lens)?;
        for _ in 0..NARROWED {
            let Some(last) = &scope else {
                return Ok(None);
            };
            let next = last.row(&row);
            if next == row {
                return Ok(scope);
            }
            row = next;
            scope = Scope::of(alloc, problem, sheet, member, goal, &row, lens)?;
        }
        Ok(scope)
    }
}
