//! Rosters on whose vacant lines nothing lies that a member could take.
ghost use Rattle.std.specs.Prelude.{◌≡◌, ◌≤◌, length, IfOk};
ghost use Rattle.std.specs.Option.{ForSome};
ghost use Rattle.roster_model.specs.Rosters.{IsComplete, scores_of};
ghost use Rattle.open_time.specs.Moves.{vacant_credit, IsKept, IsSettled, IsSettling};

use crate::bargains::exchanges;
use crate::exchanging::try_exchange;
use crate::placing::placed;
use duty_calendar::Memory;
use roster_model::{Problem, Roster};
use std::alloc::Global;

/// How many exchanges are made at most.
const ROUNDS: u32 = 100;

/// The roster after the first exchange that can be made and lets the credit of the lines from `crew` on fall.
fn exchanged(
    alloc: Global,
    problem: &Problem,
    crew: u32,
    roster: &Roster,
) -> Result<Option<Roster>, Memory>
    requires complete { IsComplete problem.now roster.now }
    requires crew { crew ≤ length problem.now.base.members }
    ensures kept { IfOk result (λ found. ForSome found (IsKept problem.now crew roster.now)) }
{
    for exchange in exchanges(alloc, problem, crew, roster.as_slice())?.as_slice() {
        let found = try_exchange(alloc, problem, crew, roster, exchange)?;
        if found.is_some() {
            return Ok(found);
        }
    }
    Ok(None)
}

/// The roster after the first such exchange, and then after moves until none is left.
fn exchanged_next(
    alloc: Global,
    problem: &Problem,
    crew: u32,
    roster: &Roster,
) -> Result<Option<Roster>, Memory>
    requires complete { IsComplete problem.now roster.now }
    requires crew { crew ≤ length problem.now.base.members }
    ensures next { IfOk result (λ found. ForSome found (IsSettling problem.now crew roster.now)) }
{
    match exchanged(alloc, problem, crew, roster)? {
        Some(made) => {
            let next = placed(alloc, problem, crew, made)?;
            Ok(Some(next))
        }
        None => Ok(None),
    }
}

/// The roster after moves until none is left, and after exchanges and moves in turn, as long as they find a way.
fn improved(alloc: Global, problem: &Problem, crew: u32, roster: Roster) -> Result<Roster, Memory>
    requires complete { IsComplete problem.now roster }
    requires crew { crew ≤ length problem.now.base.members }
    ensures settling { IfOk result (IsSettling problem.now crew roster) }
{
    let mut current = placed(alloc, problem, crew, roster)?;
    for _round in 0..ROUNDS {
        match exchanged_next(alloc, problem, crew, &current)? {
            Some(next) => current = next,
            None => return Ok(current),
        }
    }
    Ok(current)
}

/// A roster with the scores of this one, in which no pairing can go from a line from `crew` on to one before. The lines from
/// `crew` on have less credit where a few exchanges find a way: one pairing for one or two of a member's, or two for one.
pub fn settled(
    alloc: Global,
    problem: &Problem,
    crew: u32,
    roster: Roster,
) -> Result<Roster, Memory>
    requires complete { IsComplete problem.now roster }
    requires crew { crew ≤ length problem.now.base.members }
    ensures complete { IfOk result (IsComplete problem.now) }
    ensures same { IfOk result (λ made. scores_of problem.now made ≡ scores_of problem.now roster) }
    ensures settled { IfOk result (IsSettled problem.now crew) }
    ensures credit { IfOk result (λ made.
        vacant_credit problem.now crew made ≤ vacant_credit problem.now crew roster) }
{
    let made = improved(alloc, problem, crew, roster)?;
    Ok(made)
}
