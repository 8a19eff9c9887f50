//! One or two pairings of a line.

use duty_calendar::Memory;
use roster_model::Problem;
use std::alloc::Global;

/// One or two pairings, and their credit.
#[derive(Clone, Copy, Debug, PartialEq, Eq)]
pub(crate) struct Batch {
    pub first: u32,
    pub second: Option<u32>,
    pub credit: u32,
}

impl Batch {
    /// Whether the pairing is one of them.
    pub fn has(&self, pairing: u32) -> bool {
        self.first == pairing || self.second == Some(pairing)
    }
}

/// The credit of a pairing.
fn credit_at(problem: &Problem, number: u32) -> u32 {
    match problem.base.pairings.as_slice().get(number as usize) {
        Some(pairing) => pairing.credit,
        None => 0,
    }
}

/// Appends a batch.
fn push(list: &mut Vec<Batch>, batch: Batch) -> Result<(), Memory> {
    match list.push(batch) {
        Ok(()) => Ok(()),
        Err(_) => Err(Memory::NoMemory),
    }
}

/// Appends this pairing with each of those behind it.
fn add_with(
    problem: &Problem,
    first: u32,
    behind: &[u32],
    list: &mut Vec<Batch>,
) -> Result<(), Memory> {
    let credit = credit_at(problem, first);
    for second in behind {
        let batch = Batch {
            first,
            second: Some(*second),
            credit: credit.saturating_add(credit_at(problem, *second)),
        };
        push(list, batch)?;
    }
    Ok(())
}

/// Each pairing of the line, and each two.
pub(crate) fn batches(
    alloc: Global,
    problem: &Problem,
    line: &[u32],
) -> Result<Vec<Batch>, Memory> {
    let mut list = Vec::new(alloc);
    for (place, number) in line.iter().enumerate() {
        let one = Batch {
            first: *number,
            second: None,
            credit: credit_at(problem, *number),
        };
        push(&mut list, one)?;
        add_with(problem, *number, &line[place + 1..], &mut list)?;
    }
    Ok(list)
}
