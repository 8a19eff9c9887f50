//! Lines that pass any lens of their member at a node: legal ones that meet the goal and obey the node.
ghost use Rattle.std.specs.Prelude.{◌≡◌, ◌<◌, ◌↔◌, All, IfOk, IsTrue, length};
ghost use Rattle.roster_model.specs.Goals.{IsGoal, MeetsGoal, Obeys};
ghost use Rattle.roster_model.specs.Scores.{is_flown};
ghost use Rattle.line_bounds.specs.Serving.{IsBidMet, IsFloorMet, IsServing, Keeps, Serves};

use bid_score::{granted, score};
use duty_calendar::Memory;
use line_generator::are_known;
use line_legality::{Illegal, legal};
use roster_model::{Decision, Goal, Line, Node, Problem};
use std::alloc::Global;

/// Whether the line reaches the member's floor.
fn is_floor_met(problem: &Problem, goal: &Goal, member: u32, line: &Line) -> bool
    requires member { member < length problem.now.base.members }
    requires pairings { All (λ p. p < length problem.now.base.pairings) line.now }
    ensures met { IsTrue result ↔ IsFloorMet problem.now goal.now member line.now }
{
    match goal.floors.as_slice().get(member as usize) {
        Some(floor) => *floor <= score(problem, member, line),
        None => true,
    }
}

/// Whether the line grants the goal's bid, where that is the member's.
fn is_bid_met(problem: &Problem, goal: &Goal, member: u32, line: &Line) -> bool
    requires goal { IsGoal problem.now goal.now }
    requires member { member < length problem.now.base.members }
    requires pairings { All (λ p. p < length problem.now.base.pairings) line.now }
    ensures met { IsTrue result ↔ IsBidMet problem.now goal.now member line.now }
{
    match goal.grant {
        Some(bid) => bid.member != member || granted(problem, member, bid.bid, line),
        None => true,
    }
}

/// Whether the line meets the goal.
pub fn meets_goal(problem: &Problem, goal: &Goal, member: u32, line: &Line) -> bool
    requires goal { IsGoal problem.now goal.now }
    requires member { member < length problem.now.base.members }
    requires pairings { All (λ p. p < length problem.now.base.pairings) line.now }
    ensures met { IsTrue result ↔ MeetsGoal problem.now goal.now member line.now }
{
    is_floor_met(problem, goal, member, line) && is_bid_met(problem, goal, member, line)
}

/// Whether the line is legal and meets the goal.
pub fn serves(
    alloc: Global,
    problem: &Problem,
    goal: &Goal,
    member: u32,
    line: &Line,
) -> Result<bool, Memory>
    requires goal { IsGoal problem.now goal.now }
    requires member { member < length problem.now.base.members }
    requires pairings { All (λ p. p < length problem.now.base.pairings) line.now }
    ensures serves { IfOk result (λ yes. IsTrue yes → Serves problem.now goal.now member line.now) }
    ensures fails { IfOk result (λ yes. Serves problem.now goal.now member line.now → IsTrue yes) }
{
    if !meets_goal(problem, goal, member, line) {
        return Ok(false);
    }
    match legal(alloc, problem, member, line) {
        Ok(()) => Ok(true),
        Err(Illegal::NoMemory) => Err(Memory::NoMemory),
        Err(_) => Ok(false),
    }
}

/// Whether the line has the pairing.
fn is_flown(line: &[u32], pairing: u32) -> bool
    ensures flown { result ≡ is_flown line.now pairing }
{
    line.iter().any(|flown| *flown == pairing)
}

/// Whether the line is as the decision wants it, if that is about the member.
fn keeps(line: &[u32], member: u32, decision: &Decision) -> bool
    ensures keeps { IsTrue result → Keeps member line.now decision.now }
{
    decision.member != member || is_flown(line, decision.pairing) == decision.flies
}

/// Whether the line is as each of the decisions wants it that is about the member.
fn keeps_all(line: &[u32], member: u32, decisions: &[Decision]) -> bool
    ensures keeps { IsTrue result → All (Keeps member line.now) decisions.now }
{
    for decision in decisions {
        if !keeps(line, member, decision) {
            return false;
        }
    }
    true
}

/// Whether the member's line obeys the node.
fn obeys(node: &Node, member: u32, line: &[u32]) -> bool
    ensures obeys { IsTrue result → Obeys node.now member line.now }
{
    keeps_all(line, member, node.decisions())
}

/// Whether the line is legal, meets the goal and obeys the node.
pub fn is_serving(
    alloc: Global,
    problem: &Problem,
    goal: &Goal,
    node: &Node,
    member: u32,
    line: &Line,
) -> Result<bool, Memory>
    requires goal { IsGoal problem.now goal.now }
    requires member { member < length problem.now.base.members }
    ensures serving { IfOk result (λ yes. IsTrue yes
        → IsServing problem.now goal.now node.now member line.now) }
{
    let pairings = line.pairings();
    if !are_known(problem, pairings) || !obeys(node, member, pairings) {
        return Ok(false);
    }
    serves(alloc, problem, goal, member, line)
}
