//! Trips that nobody wanted: no bid is for the trip, and no bid prefers its kind.
ghost use Rattle.std.specs.Prelude.{◌<◌, length};

use duty_calendar::Memory;
use roster_model::{Bid, Problem, Wish, holds};
use std::alloc::Global;

/// Whether a wish is for a pairing, or prefers its kind.
fn is_for(problem: &Problem, wish: &Wish, pairing: u32) -> bool
    requires known { pairing < length problem.now.base.pairings }
{
    match wish {
        Wish::Fly(wanted) => *wanted == pairing,
        Wish::Prefer(_, filter) => holds(problem, filter, pairing),
        Wish::Avoid(_)
        | Wish::Off(_, _)
        | Wish::CreditBelow(_)
        | Wish::CreditAbove(_)
        | Wish::DaysOff(_) => false,
    }
}

/// Whether one of these bids is for a pairing.
fn some_is_for(problem: &Problem, bids: &[Bid], pairing: u32) -> bool
    requires known { pairing < length problem.now.base.pairings }
{
    for bid in bids {
        if is_for(problem, &bid.wish, pairing) {
            return true;
        }
    }
    false
}

/// Whether a bid of anybody is for a pairing.
fn is_wanted(problem: &Problem, pairing: u32) -> bool
    requires known { pairing < length problem.now.base.pairings }
{
    for bids in problem.bids.as_slice() {
        if some_is_for(problem, bids.as_slice(), pairing) {
            return true;
        }
    }
    false
}

/// The pairings that nobody wanted.
pub fn unwanted(alloc: Global, problem: &Problem) -> Result<Vec<u32>, Memory> {
    let mut found = Vec::new(alloc);
    for pairing in 0..problem.base.pairings.len() as u32 {
        if !is_wanted(problem, pairing) {
            found.push(pairing)?;
        }
    }
    Ok(found)
}
