//! Which lines a master looks at: those that are near, and where these do not suffice others that are called (sifting). Few of the lines
//! serve at any one node, and each change goes through all that are near.

use crate::limits::{CALLED, CROWDED, DEARER, FIRM};
use crate::master::{Choice, Master, Open, chance, sum_at};
use duty_calendar::Memory;
use std::alloc::Global;

impl Choice {
    /// By how much the line costs more than it is worth. One that is worth more costs a little more than that from now on.
    pub(crate) fn rest(&mut self, flown: &[u32], own: usize, worth: &[f64]) -> f64 {
        let rest = self.cost - sum_at(worth, flown, own);
        if rest >= 0.0 {
            return rest;
        }
        let more = chance(self.member, self.place) * DEARER - rest;
        self.cost += more;
        rest + more
    }
}

impl Open {
    /// The line of a number, of which nothing is known yet.
    pub(crate) fn new(pairings: usize, number: usize, choice: &Choice) -> Open {
        Open {
            number,
            own: pairings.saturating_add(choice.member as usize),
            from: choice.from as usize,
            to: choice.to as usize,
            rest: 0.0,
            part: 0.0,
        }
    }
}

impl Master {
    /// Whether so many lines are near that those that have no row are to go.
    pub(crate) fn is_crowded(&self) -> bool {
        let mut near: usize = 0;
        for choice in &self.choices {
            if choice.is_near {
                near = near.saturating_add(1);
            }
        }
        near > CROWDED
    }

    /// Calls the line near, if it is neither near nor barred, and takes something of the row.
    fn call_one(
        &mut self,
        number: usize,
        row: usize,
        sign: f64,
        worth: &[f64],
    ) -> Result<(), Memory> {
        let (Some(choice), Some(cells)) = (self.choices.get_mut(number), self.inverse.get(row))
        else {
            return Ok(());
        };
        if choice.is_near || choice.is_barred {
            return Ok(());
        }
        let mut open = Open::new(self.pairings, number, choice);
        let flown = self.flown.get(open.from..open.to).unwrap_or(&[]);
        open.part = sum_at(cells, flown, open.own);
        if sign * open.part > FIRM {
            choice.is_near = true;
            open.rest = choice.rest(flown, open.own, worth);
            self.open.push(open)?;
        }
        Ok(())
    }

    /// Calls some lines near that take something of the row, from where the last call ended. Tells whether there are any.
    pub(crate) fn call(&mut self, alloc: Global, row: usize, sign: f64) -> Result<bool, Memory> {
        let worth = self.worth(alloc)?;
        let before = self.open.len();
        for _ in 0..self.choices.len() {
            if self.open.len() >= before.saturating_add(CALLED) {
                break;
            }
            let next = self.called.wrapping_add(1);
            self.called = if next < self.choices.len() { next } else { 0 };
            self.call_one(self.called, row, sign, &worth)?;
        }
        Ok(self.open.len() > before)
    }
}
