//! What may still be gained from each place of a flat search on, by states: of credit that is left, of credit that is due, or of
//! bids that are lost or not granted yet.

use duty_calendar::Memory;
use std::alloc::Global;

/// What can't be gained.
pub(crate) const LOWEST: i64 = -1_152_921_504_606_846_976;

/// What may be gained by states, a row for each place: that of the end first.
#[derive(Drop)]
pub(crate) struct Table {
    width: usize,
    cells: Vec<i64>,
}

/// What taking the pairing of a place does: what it gains, how many places before the end it leads to, and whether it can't
/// be passed.
#[derive(Clone, Copy)]
pub(crate) struct Taking {
    pub gain: i64,
    pub back: usize,
    pub is_flown: bool,
}

/// Which state taking leads to: so many hours less that are left, or that are due; or these bids lost, and these granted.
#[derive(Clone, Copy)]
pub(crate) enum Change {
    Left(usize),
    Due(usize),
    Bids { spoils: usize, grants: usize },
}

/// The row of a number.
fn row(cells: &[i64], width: usize, number: usize) -> &[i64] {
    let from = number.saturating_mul(width);
    cells.get(from..from.saturating_add(width)).unwrap_or(&[])
}

/// The cells as those of another row, where the pairing may be passed; else nothing is to be gained.
fn pass(cells: &mut [i64], passed: &[i64], is_flown: bool) {
    for (cell, value) in cells.iter_mut().zip(passed) {
        *cell = if is_flown { LOWEST } else { *value };
    }
}

/// Raises each cell to what is gained before that of another row.
fn raise(cells: &mut [i64], taken: &[i64], gain: i64) {
    for (cell, value) in cells.iter_mut().zip(taken) {
        *cell = (*cell).max(value.wrapping_add(gain));
    }
}

/// Raises each cell to what is gained before that of the state with so much less due.
fn raise_due(cells: &mut [i64], taken: &[i64], gain: i64, hours: usize) {
    let hours = hours.min(cells.len());
    let (below, above) = cells.split_at_mut(hours);
    raise(above, taken, gain);
    let none = taken.first().copied().unwrap_or(LOWEST).wrapping_add(gain);
    for cell in below {
        *cell = (*cell).max(none);
    }
}

/// Raises each cell to what is gained before that of the state with these bids lost, and these granted.
fn raise_bids(cells: &mut [i64], taken: &[i64], gain: i64, spoils: usize, grants: usize) {
    for (state, cell) in cells.iter_mut().enumerate() {
        let after = (state | spoils) & !grants;
        let value = taken.get(after).copied().unwrap_or(LOWEST);
        *cell = (*cell).max(value.wrapping_add(gain));
    }
}

/// Raises each cell to what is gained by taking.
fn raise_by(cells: &mut [i64], taken: &[i64], gain: i64, change: Change) {
    match change {
        Change::Left(hours) => {
            let hours = hours.min(cells.len());
            let (_, above) = cells.split_at_mut(hours);
            raise(above, taken, gain);
        }
        Change::Due(hours) => raise_due(cells, taken, gain, hours),
        Change::Bids { spoils, grants } => {
            if spoils | grants == 0 {
                raise(cells, taken, gain);
            } else {
                raise_bids(cells, taken, gain, spoils, grants);
            }
        }
    }
}

impl Table {
    /// The row of the end, where these may be gained by states, and room for so many places.
    pub(crate) fn new(alloc: Global, end: &[i64], places: usize) -> Result<Table, Memory> {
        let width = end.len();
        let mut cells = vec![in alloc; LOWEST; width.saturating_mul(places.saturating_add(1))]?;
        for (cell, value) in cells.iter_mut().zip(end) {
            *cell = *value;
        }
        Ok(Table { width, cells })
    }

    /// What may be gained so many places before the end, in a state.
    pub(crate) fn at(&self, back: usize, state: usize) -> i64 {
        let index = back.wrapping_mul(self.width).wrapping_add(state);
        self.cells.get(index).copied().unwrap_or(LOWEST)
    }

    /// Fills the row of the place so many before the end, where those behind it are filled.
    pub(crate) fn fill(&mut self, back: usize, taking: Taking, change: Change) {
        let width = self.width;
        let from = back.saturating_mul(width).min(self.cells.len());
        let (done, rest) = self.cells.split_at_mut(from);
        let most = width.min(rest.len());
        let (cells, _) = rest.split_at_mut(most);
        let passed = row(done, width, back.saturating_sub(1));
        pass(cells, passed, taking.is_flown);
        raise_by(cells, row(done, width, taking.back), taking.gain, change);
    }
}
