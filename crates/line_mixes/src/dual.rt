//! How the master is brought to its end (by the dual simplex method, with steepest edges): what has a row and may not, or less than
//! nothing of it, goes, and the line comes in that costs least for it. Lines that are barred take few changes so.

use crate::limits::{AWAY, CLOSE_TO, FIRM, STALE, WILD};
use crate::master::{Master, Open, sum_at};
use crate::shortage::Shortage;
use crate::simplex::at;
use duty_calendar::Memory;
use std::alloc::Global;
use std::mem::replace;

/// What the master comes to: its lines meet the needs; they can't; or it is not known.
#[derive(Drop)]
pub enum Balance {
    Even,
    Short(Shortage),
    Lost,
}

/// How much of a cost is left.
fn left(open: &Open) -> f64 {
    open.rest.max(0.0)
}

impl Master {
    /// Whether what has the row is to have nothing of it.
    fn is_fixed(&self, basic: Option<usize>) -> bool {
        match basic.and_then(|number| self.choices.get(number)) {
            Some(choice) => choice.is_barred,
            None => true,
        }
    }

    /// The row that is farthest from what it may have, for the length of its row of the inverse (the steepest edge).
    fn leaving(&self) -> Option<usize> {
        let mut best = None;
        let mut most = 0.0;
        let rows = self.basis.iter().zip(self.amounts.iter());
        for (row, ((basic, amount), squares)) in rows.zip(self.squares.iter()).enumerate() {
            let off = if self.is_fixed(*basic) {
                amount.abs()
            } else {
                -*amount
            };
            let far = off * off / *squares;
            if off > AWAY && far > most {
                best = Some(row);
                most = far;
            }
        }
        best
    }

    /// What one of each line takes from the row.
    fn weigh(&mut self, row: usize) {
        let Some(cells) = self.inverse.get(row) else {
            return;
        };
        for open in self.open.iter_mut() {
            let flown = self.flown.get(open.from..open.to).unwrap_or(&[]);
            open.part = sum_at(cells, flown, open.own);
        }
    }

    /// What the line may cost at most for one of the row that comes in.
    fn least_cost(&self, sign: f64) -> f64 {
        let mut least = f64::MAX;
        for open in &self.open {
            let takes = sign * open.part;
            if takes > FIRM {
                least = least.min((left(open) + CLOSE_TO) / takes);
            }
        }
        least
    }

    /// The line that comes in: of those that cost least, the one that takes most.
    fn entering(&self, sign: f64) -> Option<Open> {
        let least = self.least_cost(sign);
        let mut best = None;
        let mut most = FIRM;
        for open in &self.open {
            let takes = sign * open.part;
            if takes > most && left(open) <= least * takes {
                best = Some(*open);
                most = takes;
            }
        }
        best
    }

    /// What the row shows: that the lines can't meet the needs, or where numbers are off nothing.
    fn shown_by(&self, alloc: Global, row: usize, sign: f64) -> Result<Balance, Memory> {
        let has_none = self.open.iter().all(|open| sign * open.part <= FIRM);
        let Some(cells) = self.inverse.get(row) else {
            return Ok(Balance::Lost);
        };
        if !has_none {
            return Ok(Balance::Lost);
        }
        let shortage = Shortage::of_row(alloc, cells, sign, self.pairings, &self.needs)?;
        Ok(match shortage {
            Some(shortage) => Balance::Short(shortage),
            None => Balance::Lost,
        })
    }

    /// What the lines cost less from now on, by so many times what they take from the row.
    fn cheapen(&mut self, by: f64) {
        for open in self.open.iter_mut() {
            open.rest -= by * open.part;
        }
    }

    /// Lets the line have the row, in place of what has it.
    fn exchange(&mut self, row: usize, number: usize) {
        let Some(basic) = self.basis.get_mut(row) else {
            return;
        };
        let old = replace(basic, Some(number));
        if let Some(gone) = old.and_then(|gone| self.choices.get_mut(gone)) {
            gone.is_basic = false;
        }
        if let Some(come) = self.choices.get_mut(number) {
            come.is_basic = true;
        }
    }

    /// Lets the line come in at the row. Tells whether the numbers stay within bounds.
    fn let_in(&mut self, alloc: Global, row: usize, coming: Open) -> Result<bool, Memory> {
        let change = self.change(alloc, coming.number)?;
        let by = at(&change, row);
        if by.abs() < FIRM {
            return Ok(false);
        }
        let amount = self.turn(alloc, row, &change);
        self.cheapen(left(&coming) / by);
        self.exchange(row, coming.number);
        self.changes = self.changes.wrapping_add(1);
        Ok(amount.abs() < WILD)
    }

    /// Lets lines come in, so many at most, until all rows have what they may.
    fn work(&mut self, alloc: Global, most: u32) -> Result<Balance, Memory> {
        for _ in 0..most {
            if self.changes >= STALE {
                self.rebuild(alloc)?;
            }
            let Some(row) = self.leaving() else {
                return Ok(Balance::Even);
            };
            let amount = at(&self.amounts, row);
            let sign = if amount > 0.0 { 1.0 } else { -1.0 };
            self.weigh(row);
            let Some(coming) = self.entering(sign) else {
                if self.call(alloc, row, sign)? {
                    continue;
                }
                return self.shown_by(alloc, row, sign);
            };
            if !self.let_in(alloc, row, coming)? {
                return Ok(Balance::Lost);
            }
        }
        Ok(Balance::Lost)
    }

    /// Brings the master to its end, with so many changes at most; where that is not done, once more with rows that are worked out
    /// anew, and then from the beginning.
    pub fn balance(&mut self, alloc: Global, most: u32) -> Result<Balance, Memory> {
        let first = self.work(alloc, most)?;
        let Balance::Lost = first else {
            return Ok(first);
        };
        self.rebuild(alloc)?;
        let second = self.work(alloc, most)?;
        let Balance::Lost = second else {
            return Ok(second);
        };
        self.begin(alloc)?;
        self.work(alloc, most)
    }
}
