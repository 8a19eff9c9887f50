//! Moves of a pairing from one line of a roster to another.
ghost use Rattle.std.specs.Prelude.{◌≡◌, ◌↔◌, ◌<◌, true, All, length, slice_set, IfOk};
ghost use Rattle.roster_model.specs.Ascending.{is_ascending};
ghost use Rattle.roster_model.specs.Rosters.{IsComplete, line_at, scores_of};
ghost use Rattle.roster_model.specs.Scores.{is_flown};
ghost use Rattle.open_time.specs.Eligible.{with_pairing};
ghost use Rattle.open_time.specs.Moves.{without_pairing, Takes, IsAsGood, IsMove};

use crate::lines::{add, line_at, with_pairing};
use bid_score::{score, scores_of};
use duty_calendar::{Copied, List, Memory};
use line_legality::{Illegal, RosterFault, complete, legal};
use roster_model::{Line, Problem, Roster};
use std::alloc::Global;

/// The pairings but one.
#[tactic(auto, unfolding(crate::specs::Moves::without_pairing))]
fn others(alloc: Global, numbers: &[u32], pairing: u32) -> Result<List<u32>, Memory>
    ensures value { IfOk result (λ made. made ≡ without_pairing numbers.now pairing) }
{
    let mut made = List::new(alloc);
    for number in numbers {
        if *number != pairing {
            add(&mut made, *number)?;
        }
    }
    Ok(made)
}

/// The line of pairings in order.
fn in_order(list: List<u32>) -> Line
    requires ascending { is_ascending list ≡ true }
    ensures value { result ≡ list }
{
    match Line::new(list) {
        Some(line) => line,
        None => unreachable!(),
    }
}

/// The line of a member in a complete roster.
pub(crate) fn known_line<'a>(problem: &Problem, roster: &'a Roster, member: u32) -> &'a Line
    requires complete { IsComplete problem.now roster.now }
    requires member { member < length problem.now.base.members }
    ensures line { result.now ≡ line_at roster.now member }
    ensures known { All (λ p. p < length problem.now.base.pairings) result.now }
{
    let _ = problem;
    line_at(roster, member)
}

/// The line with a pairing of the month.
fn line_with(alloc: Global, problem: &Problem, line: &Line, pairing: u32) -> Result<Line, Memory>
    requires known { All (λ p. p < length problem.now.base.pairings) line.now }
    requires pairing { pairing < length problem.now.base.pairings }
    ensures value { IfOk result (λ made. made ≡ with_pairing line.now pairing) }
    ensures known { IfOk result (All (λ p. p < length problem.now.base.pairings)) }
{
    let _ = problem;
    let made = with_pairing(alloc, line, pairing)?;
    Ok(made)
}

/// The line without a pairing.
fn line_without(alloc: Global, problem: &Problem, line: &Line, pairing: u32) -> Result<Line, Memory>
    requires known { All (λ p. p < length problem.now.base.pairings) line.now }
    ensures value { IfOk result (λ made. made ≡ without_pairing line.now pairing) }
    ensures known { IfOk result (All (λ p. p < length problem.now.base.pairings)) }
{
    let _ = problem;
    let left = others(alloc, line.pairings(), pairing)?;
    Ok(in_order(left))
}

/// Puts a line in the place of a member's.
fn put_line(roster: &mut Roster, member: u32, line: Line)
    requires in_range { member < length roster.old }
    ensures value { roster.new ≡ slice_set roster.old member line }
{
    let place = roster.at_mut(member as usize);
    *place = line;
}

/// Puts lines in the places of two members'.
fn put_lines(roster: &mut Roster, giver: u32, given: Line, taker: u32, taken: Line)
    requires giver { giver < length roster.old }
    requires taker { taker < length roster.old }
    ensures value { roster.new ≡ slice_set (slice_set roster.old giver given) taker taken }
{
    put_line(roster, giver, given);
    put_line(roster, taker, taken);
}

/// The complete roster with other lines of two members.
pub(crate) fn with_lines(
    alloc: Global,
    problem: &Problem,
    roster: &Roster,
    giver: u32,
    given: Line,
    taker: u32,
    taken: Line,
) -> Result<Roster, Memory>
    requires complete { IsComplete problem.now roster.now }
    requires giver { giver < length problem.now.base.members }
    requires taker { taker < length problem.now.base.members }
    requires given { All (λ p. p < length problem.now.base.pairings) given }
    requires taken { All (λ p. p < length problem.now.base.pairings) taken }
    ensures value { IfOk result (λ made.
        made ≡ slice_set (slice_set roster.now giver given) taker taken) }
    ensures lines { IfOk result (λ made. length made ≡ length problem.now.base.members) }
    ensures known { IfOk result (All (All (λ p. p < length problem.now.base.pairings))) }
{
    let _ = problem;
    let mut made = roster.copy(alloc)?;
    put_lines(&mut made, giver, given, taker, taken);
    Ok(made)
}

/// Whether the member's new line has the score of the old one, and is legal.
pub(crate) fn takes(
    alloc: Global,
    problem: &Problem,
    member: u32,
    line: &Line,
    more: &Line,
) -> Result<bool, Memory>
    requires member { member < length problem.now.base.members }
    requires known { All (λ p. p < length problem.now.base.pairings) line.now }
    requires more_known { All (λ p. p < length problem.now.base.pairings) more.now }
    ensures value { IfOk result (λ found. (found ≡ true)
        ↔ Takes problem.now member line.now more.now) }
{
    if score(problem, member, more) != score(problem, member, line) {
        return Ok(false);
    }
    match legal(alloc, problem, member, more) {
        Ok(()) => Ok(true),
        Err(Illegal::NoMemory) => Err(Memory::NoMemory),
        Err(_) => Ok(false),
    }
}

/// The scores of a complete roster.
fn known_scores(alloc: Global, problem: &Problem, roster: &Roster) -> Result<List<u32>, Memory>
    requires complete { IsComplete problem.now roster.now }
    ensures value { IfOk result (λ scores. scores ≡ scores_of problem.now roster.now) }
{
    scores_of(alloc, problem, roster)
}

/// Whether the other roster is complete too, with each score as in this one.
pub(crate) fn is_as_good(
    alloc: Global,
    problem: &Problem,
    roster: &Roster,
    other: &Roster,
) -> Result<bool, Memory>
    requires complete { IsComplete problem.now roster.now }
    requires lines { length other.now ≡ length problem.now.base.members }
    requires known { All (All (λ p. p < length problem.now.base.pairings)) other.now }
    ensures value { IfOk result (λ found. (found ≡ true)
        ↔ IsAsGood problem.now roster.now other.now) }
{
    let due = known_scores(alloc, problem, roster)?;
    let made = scores_of(alloc, problem, other)?;
    if made != due {
        return Ok(false);
    }
    match complete(alloc, problem, other) {
        Ok(()) => Ok(true),
        Err(RosterFault::NoMemory) => Err(Memory::NoMemory),
        Err(_) => Ok(false),
    }
}

/// The roster after the move, where the move can be made. The taker's new line is tested first.
pub(crate) fn try_move(
    alloc: Global,
    problem: &Problem,
    roster: &Roster,
    giver: u32,
    taker: u32,
    pairing: u32,
) -> Result<Option<Roster>, Memory>
    requires complete { IsComplete problem.now roster.now }
    requires giver { giver < length problem.now.base.members }
    requires taker { taker < giver }
    requires pairing { pairing < length problem.now.base.pairings }
    requires has { is_flown (line_at roster.now giver) pairing ≡ true }
    ensures found { IfOk result (IsMove problem.now roster.now giver taker pairing) }
{
    let to = known_line(problem, roster, taker);
    let more = line_with(alloc, problem, to, pairing)?;
    let may = takes(alloc, problem, taker, to, &more)?;
    if !may {
        return Ok(None);
    }
    let from = known_line(problem, roster, giver);
    let less = line_without(alloc, problem, from, pairing)?;
    let made = with_lines(alloc, problem, roster, giver, less, taker, more)?;
    let good = is_as_good(alloc, problem, roster, &made)?;
    if !good {
        return Ok(None);
    }
    Ok(Some(made))
}
