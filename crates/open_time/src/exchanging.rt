//! Exchanges between a vacant line and a member's, tried.
ghost use Rattle.std.specs.Prelude.{◌≡◌, ◌<◌, ◌≤◌, nat_lt, All, length, IfOk};
ghost use Rattle.std.specs.List.{list_all};
ghost use Rattle.std.specs.Option.{ForSome};
ghost use Rattle.roster_model.specs.Rosters.{IsComplete, line_at};
ghost use Rattle.roster_model.specs.Timelines.{credit_of};
ghost use Rattle.open_time.specs.Moves.{vacant_credit, IsKept};

use crate::bargains::Exchange;
use crate::batching::Batch;
use crate::lines::{add, line_at};
use crate::moves::{is_as_good, known_line, takes, with_lines};
use bid_score::credit;
use duty_calendar::{List, Memory};
use roster_model::{Line, Problem, Roster};
use std::alloc::Global;

/// The credit of a member's line.
fn credit_at(problem: &Problem, roster: &Roster, member: u32) -> u64
    requires complete { IsComplete problem.now roster.now }
    requires member { member < length problem.now.base.members }
    ensures value { result ≡ credit_of problem.now member (line_at roster.now member) }
    ensures few { result < 4294967296 }
{
    let line = known_line(problem, roster, member);
    u64::from(credit(problem, member, line))
}

/// The credit of the lines from `crew` on.
#[tactic(auto, unfolding(crate::specs::Moves::vacant_credit))]
fn vacant_credit(problem: &Problem, crew: u32, roster: &Roster) -> u64
    requires complete { IsComplete problem.now roster.now }
    requires crew { crew ≤ length problem.now.base.members }
    ensures value { result ≡ vacant_credit problem.now crew roster.now }
{
    let mut total = 0;
    for member in crew..problem.base.members.len() as u32 {
        total += credit_at(problem, roster, member);
    }
    total
}

/// Whether the lines from `crew` on have less credit in the other roster.
fn has_less(problem: &Problem, crew: u32, roster: &Roster, other: &Roster) -> bool
    requires complete { IsComplete problem.now roster.now }
    requires other_complete { IsComplete problem.now other.now }
    requires crew { crew ≤ length problem.now.base.members }
    ensures value { result ≡ nat_lt (vacant_credit problem.now crew other.now)
        (vacant_credit problem.now crew roster.now) }
{
    let before = vacant_credit(problem, crew, roster);
    let after = vacant_credit(problem, crew, other);
    after < before
}

/// Appends one or two pairings.
fn add_batch(list: &mut List<u32>, batch: &Batch) -> Result<(), Memory> {
    add(list, batch.first)?;
    if let Some(second) = batch.second {
        add(list, second)?;
    }
    Ok(())
}

/// The pairings of the line but those of one batch, then those of the other.
fn gathered(alloc: Global, line: &[u32], gone: &Batch, more: &Batch) -> Result<List<u32>, Memory> {
    let mut list = List::new(alloc);
    for number in line {
        if !gone.has(*number) {
            add(&mut list, *number)?;
        }
    }
    add_batch(&mut list, more)?;
    Ok(list)
}

/// The line with one batch in the place of another, where its pairings are all distinct.
fn changed(alloc: Global, line: &Line, gone: &Batch, more: &Batch) -> Result<Option<Line>, Memory> {
    let mut numbers = Vec::from_slice(
        alloc,
        gathered(alloc, line.pairings(), gone, more)?.as_slice(),
    )?;
    numbers.sort_unstable();
    Ok(Line::new(List::from_vec(numbers)))
}

/// Whether the line has pairings of the month alone.
fn is_known(problem: &Problem, line: &Line) -> bool
    ensures value { result ≡ list_all (λ p. nat_lt p (length problem.now.base.pairings)) line.now }
{
    let count = problem.base.pairings.len();
    line.pairings()
        .iter()
        .all(|number| (*number as usize) < count)
}

/// The line with one batch in the place of another, where these are distinct pairings of the month.
fn known_change(
    alloc: Global,
    problem: &Problem,
    line: &Line,
    gone: &Batch,
    more: &Batch,
) -> Result<Option<Line>, Memory>
    ensures known { IfOk result (λ found.
        ForSome found (All (λ p. p < length problem.now.base.pairings))) }
{
    let Some(made) = changed(alloc, line, gone, more)? else {
        return Ok(None);
    };
    let known = is_known(problem, &made);
    if !known {
        return Ok(None);
    }
    Ok(Some(made))
}

/// The roster with these lines of both, where it is complete with each score as it was, and the lines from `crew` on have
/// less credit than before. The taker's new line is tested first.
fn try_lines(
    alloc: Global,
    problem: &Problem,
    crew: u32,
    roster: &Roster,
    exchange: &Exchange,
    given: Line,
    taken: Line,
) -> Result<Option<Roster>, Memory>
    requires complete { IsComplete problem.now roster.now }
    requires crew { crew ≤ length problem.now.base.members }
    requires giver { exchange.now.giver < length problem.now.base.members }
    requires taker { exchange.now.taker < length problem.now.base.members }
    requires given { All (λ p. p < length problem.now.base.pairings) given }
    requires taken { All (λ p. p < length problem.now.base.pairings) taken }
    ensures kept { IfOk result (λ found. ForSome found (IsKept problem.now crew roster.now)) }
{
    let old = known_line(problem, roster, exchange.taker);
    let may = takes(alloc, problem, exchange.taker, old, &taken)?;
    if !may {
        return Ok(None);
    }
    let giver = exchange.giver;
    let made = with_lines(alloc, problem, roster, giver, given, exchange.taker, taken)?;
    let good = is_as_good(alloc, problem, roster, &made)?;
    if !good {
        return Ok(None);
    }
    let less = has_less(problem, crew, roster, &made);
    if !less {
        return Ok(None);
    }
    Ok(Some(made))
}

/// The roster after the exchange, where it can be made and lets the credit of the lines from `crew` on fall.
pub(crate) fn try_exchange(
    alloc: Global,
    problem: &Problem,
    crew: u32,
    roster: &Roster,
    exchange: &Exchange,
) -> Result<Option<Roster>, Memory>
    requires complete { IsComplete problem.now roster.now }
    requires crew { crew ≤ length problem.now.base.members }
    ensures kept { IfOk result (λ found. ForSome found (IsKept problem.now crew roster.now)) }
{
    let lines = roster.len() as u32;
    if exchange.giver >= lines {
        return Ok(None);
    }
    if exchange.taker >= lines {
        return Ok(None);
    }
    let from = line_at(roster, exchange.giver);
    let Some(given) = known_change(alloc, problem, from, &exchange.given, &exchange.taken)? else {
        return Ok(None);
    };
    let to = line_at(roster, exchange.taker);
    let Some(taken) = known_change(alloc, problem, to, &exchange.taken, &exchange.given)? else {
        return Ok(None);
    };
    try_lines(alloc, problem, crew, roster, exchange, given, taken)
}
