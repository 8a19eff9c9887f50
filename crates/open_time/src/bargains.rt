//! Exchanges between a vacant line and a member that are worth a try.

use crate::batching::{Batch, batches};
use duty_calendar::{Interval, Memory};
use roster_model::{Line, Problem, pairing_span};
use std::alloc::Global;

/// The least rest between two pairings, in minutes.
const REST: u32 = 600;

/// What a vacant line gives to a member, and what it takes for it, of less credit.
#[derive(Clone, Copy, Debug, PartialEq, Eq)]
pub(crate) struct Exchange {
    pub giver: u32,
    pub taker: u32,
    pub given: Batch,
    pub taken: Batch,
}

impl Exchange {
    /// By how much the credit of the vacant line falls.
    fn gain(&self) -> u32 {
        self.given.credit.saturating_sub(self.taken.credit)
    }
}

/// The minutes that a pairing takes.
fn span_of(problem: &Problem, number: u32) -> Option<Interval> {
    let pairings = problem.base.pairings.as_slice();
    match pairings.get(number as usize) {
        Some(pairing) => Some(pairing_span(pairing)),
        None => None,
    }
}

/// Whether one line cannot have both pairings, since they overlap or lie too near.
fn are_near(problem: &Problem, first: u32, second: u32) -> bool {
    match (span_of(problem, first), span_of(problem, second)) {
        (Some(a), Some(b)) => {
            a.start < b.stop.saturating_add(REST) && b.start < a.stop.saturating_add(REST)
        }
        _ => true,
    }
}

/// Whether the pairing is too near to one of the line that is not taken.
fn is_near(problem: &Problem, line: &[u32], taken: &Batch, pairing: u32) -> bool {
    line.iter().any(|number| !taken.has(*number) && are_near(problem, *number, pairing))
}

/// Whether what is given may fit into the line, as far as is seen at once.
fn may_fit(problem: &Problem, line: &[u32], exchange: &Exchange) -> bool {
    let given = &exchange.given;
    let is_first_near = is_near(problem, line, &exchange.taken, given.first);
    let is_second_near = match given.second {
        Some(second) => is_near(problem, line, &exchange.taken, second),
        None => false,
    };
    !is_first_near && !is_second_near
}

/// Whether the exchange is of one for one, one for two or two for one, and gains credit.
fn is_gaining(exchange: &Exchange) -> bool {
    let is_small = exchange.given.second.is_none() || exchange.taken.second.is_none();
    is_small && exchange.gain() > 0
}

/// Appends an exchange.
fn push(list: &mut Vec<Exchange>, exchange: Exchange) -> Result<(), Memory> {
    match list.push(exchange) {
        Ok(()) => Ok(()),
        Err(_) => Err(Memory::NoMemory),
    }
}

/// Appends the exchanges that give what this one gives, for any of these batches.
fn add_exchanges(
    problem: &Problem,
    line: &[u32],
    first: Exchange,
    back: &[Batch],
    list: &mut Vec<Exchange>,
) -> Result<(), Memory> {
    for taken in back {
        let exchange = Exchange {
            giver: first.giver,
            taker: first.taker,
            given: first.given,
            taken: *taken,
        };
        if is_gaining(&exchange) && may_fit(problem, line, &exchange) {
            push(list, exchange)?;
        }
    }
    Ok(())
}

/// Appends the exchanges of two lines.
fn add_between(
    alloc: Global,
    problem: &Problem,
    roster: &[Line],
    giver: u32,
    taker: u32,
    list: &mut Vec<Exchange>,
) -> Result<(), Memory> {
    let Some(from) = roster.get(giver as usize) else {
        return Ok(());
    };
    let Some(to) = roster.get(taker as usize) else {
        return Ok(());
    };
    let back = batches(alloc, problem, to.pairings())?;
    for given in batches(alloc, problem, from.pairings())?.as_slice() {
        let first = Exchange {
            giver,
            taker,
            given: *given,
            taken: *given,
        };
        add_exchanges(problem, to.pairings(), first, back.as_slice(), list)?;
    }
    Ok(())
}

/// Appends the exchanges of a vacant line.
fn add_of(
    alloc: Global,
    problem: &Problem,
    crew: u32,
    roster: &[Line],
    giver: u32,
    list: &mut Vec<Exchange>,
) -> Result<(), Memory> {
    for taker in 0..crew {
        add_between(alloc, problem, roster, giver, taker, list)?;
    }
    Ok(())
}

/// Exchanges between lines from `crew` on and those before that may be made, those that gain the most credit first.
pub(crate) fn exchanges(
    alloc: Global,
    problem: &Problem,
    crew: u32,
    roster: &[Line],
) -> Result<Vec<Exchange>, Memory> {
    let mut list = Vec::new(alloc);
    for giver in crew..problem.base.members.len() as u32 {
        add_of(alloc, problem, crew, roster, giver, &mut list)?;
    }
    list.sort_unstable_by_key(|exchange| u32::MAX - exchange.gain());
    Ok(list)
}
