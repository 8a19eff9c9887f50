//! Programs (the restricted master, as a linear program): shares of lines that miss the needs by least, and what pairings are
//! worth there (their dual prices). Their numbers are near ones.

use crate::columns::Columns;
use crate::kept::Kept;
use crate::limits::{COST_OF_GONE, JITTER, NO_SHARE, OLD};
use crate::mix::Mix;
use crate::shares::{Share, WHOLE};
use duty_calendar::Memory;
use flat_search::number;
use roster_model::Problem;
use std::alloc::Global;
use std::num::{nearest_i64_to_f64, saturating_f64_to_i64};

/// What has a row of a program: the share of a member's line, by the line's number; how much a pairing lacks, or has too
/// much; or the share of a line that is not to be had any more.
#[derive(Clone, Copy, PartialEq, Eq)]
pub(crate) enum Basic {
    Line(usize, usize),
    Lack(usize),
    Excess(usize),
    Gone,
}

/// A program with a row for each pairing, and behind these one for each member: what has the row and how much of it, the
/// rows of the inverse, and what each row is worth. The lines that may come in next, and how often something came in.
#[derive(Drop)]
pub struct Program {
    pub(crate) pairings: usize,
    pub(crate) basis: Vec<Basic>,
    pub(crate) amounts: Vec<f64>,
    pub(crate) inverse: Vec<Vec<f64>>,
    pub(crate) worth: Vec<f64>,
    pub(crate) next: Vec<(usize, usize)>,
    pub(crate) changes: u32,
}

/// What one of it costs.
fn cost(basic: Basic) -> f64 {
    match basic {
        Basic::Line(_, _) => 0.0,
        Basic::Lack(_) | Basic::Excess(_) => 1.0,
        Basic::Gone => COST_OF_GONE,
    }
}

/// Takes so many times the second row from the first.
pub(crate) fn subtract(row: &mut [f64], other: &[f64], times: f64) {
    for (cell, by) in row.iter_mut().zip(other) {
        *cell -= times * *by;
    }
}

/// The whole number as a near one.
fn near(value: u32) -> f64 {
    nearest_i64_to_f64(i64::from(value))
}

/// The need of the pairing of a number, a little off.
fn rough_need(need: u32, pairing: usize) -> f64 {
    let mixed = number(pairing).wrapping_add(1).wrapping_mul(2_654_435_769) >> 22;
    near(need) + near(mixed.wrapping_add(1)) * JITTER
}

/// With which line the member begins: the one of greatest share, if it is among the columns, else the last of these.
fn first_place(columns: &Columns, warm: Option<&Mix>, member: usize) -> usize {
    let places = columns.places(member);
    if let Some(warm) = warm {
        if let Some(share) = warm.greatest(member) {
            if places.contains(&share.place) {
                return share.place;
            }
        }
    }
    places.last().copied().unwrap_or(0)
}

/// How many of the members' first lines have the pairing.
fn crew(kept: &Kept, firsts: &[usize], pairing: usize) -> u32 {
    let mut count: u32 = 0;
    for (member, place) in firsts.iter().enumerate() {
        if kept.pairings(member, *place).contains(&number(pairing)) {
            count = count.saturating_add(1);
        }
    }
    count
}

/// The row of the inverse for a pairing: its own column, and against it those of the members whose first lines have it.
fn pairing_row(
    alloc: Global,
    kept: &Kept,
    firsts: &[usize],
    pairings: usize,
    pairing: usize,
    sign: f64,
) -> Result<Vec<f64>, Memory> {
    let mut row = vec![in alloc; 0.0; pairings]?;
    if let Some(cell) = row.get_mut(pairing) {
        *cell = sign;
    }
    for (member, place) in firsts.iter().enumerate() {
        let has = kept.pairings(member, *place).contains(&number(pairing));
        row.push(if has { -sign } else { 0.0 })?;
    }
    Ok(row)
}

/// The row of the inverse for a member: its own column.
fn member_row(
    alloc: Global,
    pairings: usize,
    members: usize,
    member: usize,
) -> Result<Vec<f64>, Memory> {
    let mut row = vec![in alloc; 0.0; pairings.saturating_add(members)]?;
    if let Some(cell) = row.get_mut(pairings.saturating_add(member)) {
        *cell = 1.0;
    }
    Ok(row)
}

impl Program {
    /// No rows.
    fn empty(alloc: Global, pairings: usize) -> Program {
        Program {
            pairings,
            basis: Vec::new(alloc),
            amounts: Vec::new(alloc),
            inverse: Vec::new(alloc),
            worth: Vec::new(alloc),
            next: Vec::new(alloc),
            changes: 0,
        }
    }

    /// Adds a row.
    fn add(&mut self, basic: Basic, amount: f64, row: Vec<f64>) -> Result<(), Memory> {
        self.basis.push(basic)?;
        self.amounts.push(amount)?;
        self.inverse.push(row)?;
        Ok(())
    }

    /// The rows of the pairings, where the members have these lines.
    fn add_pairings(
        &mut self,
        alloc: Global,
        problem: &Problem,
        kept: &Kept,
        firsts: &[usize],
    ) -> Result<(), Memory> {
        let pairings = self.pairings;
        for (pairing, needed) in problem.base.pairings.as_slice().iter().enumerate() {
            let lack = rough_need(needed.need, pairing) - near(crew(kept, firsts, pairing));
            let (basic, sign) = if lack < 0.0 {
                (Basic::Excess(pairing), -1.0)
            } else {
                (Basic::Lack(pairing), 1.0)
            };
            let row = pairing_row(alloc, kept, firsts, pairings, pairing, sign)?;
            self.add(basic, lack * sign, row)?;
        }
        Ok(())
    }

    /// The rows of the members, who have these lines.
    fn add_members(&mut self, alloc: Global, firsts: &[usize]) -> Result<(), Memory> {
        let pairings = self.pairings;
        for (member, place) in firsts.iter().enumerate() {
            let row = member_row(alloc, pairings, firsts.len(), member)?;
            self.add(Basic::Line(member, *place), 1.0, row)?;
        }
        Ok(())
    }

    /// Sets what the rows are worth by what has them.
    fn set_worth(&mut self, alloc: Global) -> Result<(), Memory> {
        self.worth = vec![in alloc; 0.0; self.basis.len()]?;
        for (basic, row) in self.basis.iter().zip(self.inverse.iter()) {
            let cost = cost(*basic);
            if cost > 0.0 {
                subtract(&mut self.worth, row, -cost);
            }
        }
        Ok(())
    }

    /// The program in which each member has one line.
    pub fn begun(
        alloc: Global,
        problem: &Problem,
        kept: &Kept,
        columns: &Columns,
        warm: Option<&Mix>,
    ) -> Result<Program, Memory> {
        let mut firsts = Vec::new(alloc);
        for member in 0..problem.base.members.len() {
            firsts.push(first_place(columns, warm, member))?;
        }
        let mut program = Program::empty(alloc, problem.base.pairings.len());
        program.add_pairings(alloc, problem, kept, &firsts)?;
        program.add_members(alloc, &firsts)?;
        program.set_worth(alloc)?;
        Ok(program)
    }

    /// The program once more.
    pub fn copy(&self, alloc: Global) -> Result<Program, Memory> {
        let mut inverse = Vec::new(alloc);
        for row in &self.inverse {
            inverse.push(Vec::from_slice(alloc, row)?)?;
        }
        Ok(Program {
            pairings: self.pairings,
            basis: Vec::from_slice(alloc, &self.basis)?,
            amounts: Vec::from_slice(alloc, &self.amounts)?,
            inverse,
            worth: Vec::from_slice(alloc, &self.worth)?,
            next: Vec::new(alloc),
            changes: self.changes,
        })
    }

    /// Whether the program may go on with other columns: it is young, and has no line that is not to be had.
    pub fn may_go_on(&self) -> bool {
        self.changes < OLD && !self.basis.contains(&Basic::Gone)
    }

    /// Goes on with these columns. What has a row keeps it, but lines that are not among the columns cost much from now on.
    pub fn go_on(&mut self, alloc: Global, columns: &Columns) -> Result<(), Memory> {
        for basic in self.basis.iter_mut() {
            if let Basic::Line(member, place) = *basic {
                if !columns.places(member).contains(&place) {
                    *basic = Basic::Gone;
                }
            }
        }
        self.next.truncate(0);
        self.set_worth(alloc)
    }

    /// How much is missed, and what lines cost that are not to be had.
    pub fn misses(&self) -> f64 {
        let mut sum = 0.0;
        for (basic, amount) in self.basis.iter().zip(self.amounts.iter()) {
            sum += cost(*basic) * *amount;
        }
        sum
    }

    /// What each pairing is worth.
    pub fn worth(&self) -> &[f64] {
        self.worth.get(..self.pairings).unwrap_or(&[])
    }

    /// The shares of a member's lines.
    pub(crate) fn shares(&self, alloc: Global, member: usize) -> Result<Vec<Share>, Memory> {
        let mut shares = Vec::new(alloc);
        for (basic, amount) in self.basis.iter().zip(self.amounts.iter()) {
            if let Basic::Line(owner, place) = *basic {
                let part = saturating_f64_to_i64((*amount * near(65_536)).round());
                if owner == member && *amount > NO_SHARE && part > 0 && part <= WHOLE {
                    shares.push(Share { place, part })?;
                }
            }
        }
        Ok(shares)
    }
}
