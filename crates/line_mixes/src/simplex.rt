//! How programs are solved (by the simplex method): what makes their misses less comes in, one after the other.

use crate::columns::Columns;
use crate::kept::Kept;
use crate::limits::{NO_CHANGE, NO_GAIN, OFF};
use crate::program::{Basic, Program, subtract};
use duty_calendar::Memory;
use std::alloc::Global;
use std::mem::replace;

/// What comes in, and by how much less is missed for one of it.
#[derive(Clone, Copy)]
struct Coming {
    basic: Basic,
    gain: f64,
}

/// The number of a row, or 0 where there is none.
pub(crate) fn at(row: &[f64], column: usize) -> f64 {
    match row.get(column) {
        Some(cell) => *cell,
        None => 0.0,
    }
}

/// What the pairings of a line are worth together, and this.
pub(crate) fn add_up(row: &[f64], pairings: &[u32], begun: f64) -> f64 {
    let mut sum = begun;
    for pairing in pairings {
        if let Some(cell) = row.get(*pairing as usize) {
            sum += *cell;
        }
    }
    sum
}

/// The line of the member that gains most, if it gains anything.
fn best_of(
    kept: &Kept,
    columns: &Columns,
    member: usize,
    worth: &[f64],
    own: f64,
) -> Option<usize> {
    let lines = kept.lines(member)?;
    let mut best = None;
    let mut most = NO_GAIN;
    for place in columns.places(member) {
        let gain = add_up(worth, lines.line(*place), own);
        if gain > most {
            best = Some(*place);
            most = gain;
        }
    }
    best
}

/// By how much less each row has for one of a line of these pairings, whose member has this column.
pub(crate) fn line_change(
    alloc: Global,
    rows: &[Vec<f64>],
    pairings: &[u32],
    own: usize,
) -> Result<Vec<f64>, Memory> {
    let mut change = Vec::with_capacity(alloc, rows.len())?;
    for row in rows {
        change.push(add_up(row, pairings, at(row, own)))?;
    }
    Ok(change)
}

/// So many times what the rows have at a column.
fn cell_change(
    alloc: Global,
    rows: &[Vec<f64>],
    column: usize,
    times: f64,
) -> Result<Vec<f64>, Memory> {
    let mut change = Vec::with_capacity(alloc, rows.len())?;
    for row in rows {
        change.push(at(row, column) * times)?;
    }
    Ok(change)
}

/// Which amount comes to nothing first.
fn first_out(amounts: &[f64], change: &[f64]) -> f64 {
    let mut least = f64::MAX;
    for (amount, by) in amounts.iter().zip(change) {
        if *by > NO_GAIN {
            let most = (amount.max(0.0) + OFF) / *by;
            if most < least {
                least = most;
            }
        }
    }
    least
}

/// Takes from all rows of the inverse as many times this one as they change, and from the amounts as many times this amount.
pub(crate) fn sweep(
    inverse: &mut [Vec<f64>],
    amounts: &mut [f64],
    change: &[f64],
    row: &[f64],
    amount: f64,
) {
    for ((own, have), by) in inverse.iter_mut().zip(amounts.iter_mut()).zip(change) {
        if by.abs() >= NO_CHANGE {
            *have -= *by * amount;
            subtract(own, row, *by);
        }
    }
}

impl Program {
    /// The lack or excess that gains most.
    fn coming_slack(&self) -> Option<Coming> {
        let mut best = None;
        let mut most = NO_GAIN;
        for (pairing, worth) in self.worth().iter().enumerate() {
            let gain = worth.abs() - 1.0;
            if gain > most {
                most = gain;
                let basic = if *worth > 0.0 {
                    Basic::Lack(pairing)
                } else {
                    Basic::Excess(pairing)
                };
                best = Some(Coming { basic, gain });
            }
        }
        best
    }

    /// The best of the lines that may come in next, if it gains more than this.
    fn coming_line(&self, kept: &Kept, slack: Option<Coming>) -> Option<Coming> {
        let mut best = slack;
        let mut most = match slack {
            Some(coming) => coming.gain,
            None => NO_GAIN,
        };
        for (member, place) in self.next.iter() {
            let own = at(&self.worth, self.pairings.saturating_add(*member));
            let gain = add_up(&self.worth, kept.pairings(*member, *place), own);
            if gain > most {
                most = gain;
                let basic = Basic::Line(*member, *place);
                best = Some(Coming { basic, gain });
            }
        }
        best
    }

    /// Looks through all columns for lines that may come in next: the best one of each member.
    fn look_through(
        &mut self,
        kept: &Kept,
        columns: &Columns,
        members: usize,
    ) -> Result<(), Memory> {
        self.next.truncate(0);
        for member in 0..members {
            let own = at(&self.worth, self.pairings.saturating_add(member));
            if let Some(place) = best_of(kept, columns, member, &self.worth, own) {
                self.next.push((member, place))?;
            }
        }
        Ok(())
    }

    /// What comes in next.
    fn coming(&mut self, kept: &Kept, columns: &Columns) -> Result<Option<Coming>, Memory> {
        let slack = self.coming_slack();
        let best = self.coming_line(kept, slack);
        if best.is_some() {
            return Ok(best);
        }
        let members = self.basis.len().saturating_sub(self.pairings);
        self.look_through(kept, columns, members)?;
        Ok(self.coming_line(kept, None))
    }

    /// By how much less each row has for one of what comes in.
    fn change(&self, alloc: Global, kept: &Kept, basic: Basic) -> Result<Vec<f64>, Memory> {
        match basic {
            Basic::Line(member, place) => {
                let own = self.pairings.saturating_add(member);
                line_change(alloc, &self.inverse, kept.pairings(member, place), own)
            }
            Basic::Lack(pairing) => cell_change(alloc, &self.inverse, pairing, 1.0),
            Basic::Excess(pairing) => cell_change(alloc, &self.inverse, pairing, -1.0),
            Basic::Gone => cell_change(alloc, &self.inverse, 0, 0.0),
        }
    }

    /// The row that comes to nothing first; of several the one of the greatest change.
    fn leaving(&self, change: &[f64]) -> Option<usize> {
        let least = first_out(&self.amounts, change);
        let mut best = None;
        let mut most = NO_GAIN;
        for (row, (amount, by)) in self.amounts.iter().zip(change).enumerate() {
            if *by > most && amount.max(0.0) <= least * *by {
                best = Some(row);
                most = *by;
            }
        }
        best
    }

    /// Lets something in, in place of what has a row.
    fn let_in(&mut self, alloc: Global, coming: Coming, change: &[f64], out: usize) {
        let by = at(change, out);
        let Some(own) = self.inverse.get_mut(out) else {
            return;
        };
        let mut row = replace(own, Vec::new(alloc));
        for cell in row.iter_mut() {
            *cell = *cell / by;
        }
        let amount = at(&self.amounts, out).max(0.0) / by;
        sweep(&mut self.inverse, &mut self.amounts, change, &row, amount);
        subtract(&mut self.worth, &row, coming.gain);
        if let Some(own) = self.inverse.get_mut(out) {
            *own = row;
        }
        if let Some(have) = self.amounts.get_mut(out) {
            *have = amount;
        }
        if let Some(basic) = self.basis.get_mut(out) {
            *basic = coming.basic;
        }
        self.changes = self.changes.wrapping_add(1);
    }

    /// Lets in what makes the misses less until they are little or there is no such thing, so often at most.
    pub fn solve(
        &mut self,
        alloc: Global,
        kept: &Kept,
        columns: &Columns,
        most: u32,
        little: f64,
    ) -> Result<(), Memory> {
        for _ in 0..most {
            if self.misses() <= little {
                return Ok(());
            }
            let Some(coming) = self.coming(kept, columns)? else {
                return Ok(());
            };
            let change = self.change(alloc, kept, coming.basic)?;
            let Some(out) = self.leaving(&change) else {
                return Ok(());
            };
            self.let_in(alloc, coming, &change, out);
        }
        Ok(())
    }
}
