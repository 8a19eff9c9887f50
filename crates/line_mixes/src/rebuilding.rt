//! The rows of a master: how they change where a line comes in, and how they are worked out anew, since errors add up.

use crate::limits::SINGULAR;
use crate::master::Master;
use crate::program::subtract;
use crate::simplex::{at, line_change, sweep};
use duty_calendar::Memory;
use std::alloc::Global;
use std::mem::replace;

/// A row of a matrix that has 1 in the diagonal.
fn unit_row(alloc: Global, rows: usize, row: usize) -> Result<Vec<f64>, Memory> {
    let mut unit = vec![in alloc; 0.0; rows]?;
    if let Some(cell) = unit.get_mut(row) {
        *cell = 1.0;
    }
    Ok(unit)
}

/// The sum of the squares of a row, by fours, which do not wait for one another.
fn square(row: &[f64]) -> f64 {
    let (fours, rest) = row.as_chunks::<4>();
    let mut sum = 0.0;
    for cell in rest {
        sum += *cell * *cell;
    }
    for [one, two, three, four] in fours {
        sum += (*one * *one + *two * *two) + (*three * *three + *four * *four);
    }
    sum
}

impl Master {
    /// No line has a row.
    pub(crate) fn clear(&mut self, alloc: Global) -> Result<(), Memory> {
        let rows = self.needs.len();
        self.basis = vec![in alloc; None; rows]?;
        self.amounts = Vec::from_slice(alloc, &self.needs)?;
        self.squares = vec![in alloc; 1.0; rows]?;
        self.inverse = Vec::new(alloc);
        self.changes = 0;
        for row in 0..rows {
            let unit = unit_row(alloc, rows, row)?;
            self.inverse.push(unit)?;
        }
        Ok(())
    }

    /// What each row is worth by what the lines cost that have rows.
    pub(crate) fn worth(&self, alloc: Global) -> Result<Vec<f64>, Memory> {
        let mut worth = vec![in alloc; 0.0; self.needs.len()]?;
        for (basic, row) in self.basis.iter().zip(self.inverse.iter()) {
            if let Some(choice) = basic.and_then(|number| self.choices.get(number)) {
                subtract(&mut worth, row, -choice.cost);
            }
        }
        Ok(worth)
    }

    /// Works out anew by how much the lines that are near cost more than they are worth.
    pub(crate) fn refresh(&mut self, alloc: Global) -> Result<(), Memory> {
        let worth = self.worth(alloc)?;
        for open in self.open.iter_mut() {
            let Some(choice) = self.choices.get_mut(open.number) else {
                continue;
            };
            let flown = self.flown.get(open.from..open.to).unwrap_or(&[]);
            open.rest = if choice.is_basic {
                0.0
            } else {
                choice.rest(flown, open.own, &worth)
            };
        }
        Ok(())
    }

    /// By how much less each row has for one of a line.
    pub(crate) fn change(&self, alloc: Global, number: usize) -> Result<Vec<f64>, Memory> {
        match self.choices.get(number) {
            Some(choice) => {
                let own = self.own(choice);
                line_change(alloc, &self.inverse, self.pairings_of(choice), own)
            }
            None => Ok(vec![in alloc; 0.0; self.needs.len()]?),
        }
    }

    /// Sums up the squares of the rows that change.
    fn sum_squares(&mut self, change: &[f64]) {
        let rows = self.inverse.iter().zip(self.squares.iter_mut());
        for ((row, sum), by) in rows.zip(change) {
            if *by != 0.0 {
                *sum = square(row);
            }
        }
    }

    /// Changes the rows so that the line of this change has the row; tells how much of it.
    pub(crate) fn turn(&mut self, alloc: Global, row: usize, change: &[f64]) -> f64 {
        let by = at(change, row);
        let Some(own) = self.inverse.get_mut(row) else {
            return 0.0;
        };
        let mut cells = replace(own, Vec::new(alloc));
        for cell in cells.iter_mut() {
            *cell = *cell / by;
        }
        let amount = at(&self.amounts, row) / by;
        sweep(&mut self.inverse, &mut self.amounts, change, &cells, amount);
        if let Some(own) = self.inverse.get_mut(row) {
            *own = cells;
        }
        if let Some(have) = self.amounts.get_mut(row) {
            *have = amount;
        }
        self.sum_squares(change);
        amount
    }

    /// The row without a line of which the change takes most, if it takes anything.
    fn free_row(&self, change: &[f64]) -> Option<usize> {
        let mut best = None;
        let mut most = SINGULAR;
        for (row, (basic, by)) in self.basis.iter().zip(change).enumerate() {
            if basic.is_none() && by.abs() > most {
                best = Some(row);
                most = by.abs();
            }
        }
        best
    }

    /// Lets a line have a row that none has, if there is one for it.
    fn put_in(&mut self, alloc: Global, number: usize) -> Result<(), Memory> {
        let change = self.change(alloc, number)?;
        let free = self.free_row(&change);
        if let Some(row) = free {
            self.turn(alloc, row, &change);
            if let Some(basic) = self.basis.get_mut(row) {
                *basic = Some(number);
            }
        }
        if let Some(choice) = self.choices.get_mut(number) {
            choice.is_basic = free.is_some();
        }
        Ok(())
    }

    /// Works out the rows anew for the lines that have some.
    pub(crate) fn rebuild(&mut self, alloc: Global) -> Result<(), Memory> {
        let basis = replace(&mut self.basis, Vec::new(alloc));
        self.clear(alloc)?;
        for number in basis.iter().flatten() {
            self.put_in(alloc, *number)?;
        }
        self.refresh(alloc)
    }
}
