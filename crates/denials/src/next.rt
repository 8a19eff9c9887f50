//! The order in which the places of a bid are asked for.
ghost use Rattle.std.specs.Prelude.{◌≡◌, ◌↔◌, ◌<◌, ◌≤◌, IfOk, length};
ghost use Rattle.roster_model.specs.declared.problem.Problem.{Problem};
ghost use Rattle.roster_model.specs.Goals.{IsBidOf};

use branch_log::Closer;
use duty_calendar::Memory;
use roster_model::{BidRef, Problem};
use std::alloc::Global;

/// The place nearest to this one, of those from `low` to before `high`.
fn between(place: u32, low: u32, high: u32) -> u32
    requires some { low < high }
    ensures least { low ≤ result }
    ensures most { result < high }
{
    place.max(low).min(high - 1)
}

/// The place to ask for next, of those from `low` to before `high`: the closer's guess.
pub(crate) fn next_place<C: Closer>(
    alloc: Global,
    problem: &Problem,
    closer: &mut C,
    scores: &[u32],
    bid: BidRef,
    low: u32,
    high: u32,
) -> Result<u32, Memory>
    requires fits { C.fits closer.old problem.now }
    requires scores { length scores.now ≡ length problem.now.base.members }
    requires bid { IsBidOf problem.now bid }
    requires some { low < high }
    ensures least { IfOk result (λ place. low ≤ place) }
    ensures most { IfOk result (λ place. place < high) }
    ensures rounds { C.rounds closer.new ≡ C.rounds closer.old }
    ensures fits { (other : Problem) → C.fits closer.new other ↔ C.fits closer.old other }
{
    let guess = closer.next_place(alloc, problem, scores, bid, low, high)?;
    Ok(between(guess, low, high))
}
