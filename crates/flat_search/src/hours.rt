//! What may still be gained by credit, in hours: by those that are left, and by those that are due.

use crate::places::Place;
use crate::tables::{Change, LOWEST, Table};
use duty_calendar::{Member, Memory};
use std::alloc::Global;

/// How many minutes the tables take for one.
const HOUR: u32 = 60;

/// What may be gained by hours that are left, and by hours that are due; and the greatest credit.
#[derive(Drop)]
pub(crate) struct Hours {
    left: Table,
    due: Table,
    high: u32,
}

/// So many minutes in hours, where a part counts as one.
fn hours_up(minutes: u32) -> usize {
    (minutes.saturating_add(HOUR - 1) / HOUR) as usize
}

/// So many minutes in whole hours.
fn hours_down(minutes: u32) -> usize {
    (minutes / HOUR) as usize
}

impl Hours {
    /// Room for so many places of a member who has this credit before.
    pub(crate) fn new(
        alloc: Global,
        owner: &Member,
        credit: u32,
        places: usize,
    ) -> Result<Hours, Memory> {
        let left = hours_down(owner.high.saturating_sub(credit));
        let due = hours_up(owner.low.saturating_sub(credit));
        let all = vec![in alloc; 0i64; left.saturating_add(1)]?;
        let mut met = vec![in alloc; LOWEST; due.saturating_add(1)]?;
        if let Some(none) = met.first_mut() {
            *none = 0;
        }
        Ok(Hours {
            left: Table::new(alloc, &all, places)?,
            due: Table::new(alloc, &met, places)?,
            high: owner.high,
        })
    }

    /// Fills in what may be gained from each place on; the last one is the end.
    pub(crate) fn fill(&mut self, places: &[Place]) {
        let count = places.len().saturating_sub(1);
        for back in 1..places.len() {
            if let Some(place) = places.get(count.saturating_sub(back)) {
                let taking = place.taking(count);
                let credit = place.flight.credit;
                self.left
                    .fill(back, taking, Change::Left(hours_down(credit)));
                self.due.fill(back, taking, Change::Due(hours_up(credit)));
            }
        }
    }

    /// What may be gained at most so many places before the end, where a line has this credit and is to come to a least one.
    pub(crate) fn most(&self, back: usize, credit: u32, low: u32) -> i64 {
        let left = hours_down(self.high.saturating_sub(credit));
        let due = hours_up(low.saturating_sub(credit));
        self.left.at(back, left).min(self.due.at(back, due))
    }
}
