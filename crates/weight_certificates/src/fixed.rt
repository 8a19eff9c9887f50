//! Members whose lines are decided and do not serve.
ghost use Rattle.std.specs.Prelude.{◌≡◌, ◌<◌, ◌↔◌, false, length, IsTrue, IfOk, MatchOption};
ghost use Rattle.roster_model.specs.Closing.{decided_line, IsDecidedLine, IsMisfit};
ghost use Rattle.roster_model.specs.Goals.{IsGoal};
ghost use Rattle.weight_certificates.specs.Leaves.{AreFitting, IsFitting};

use crate::crews::is_decided_as;
use duty_calendar::{List, Memory};
use line_bounds::serves;
use roster_model::{Goal, Line, Node, Problem};
use std::alloc::Global;

/// Whether every pairing is decided for the member.
fn is_decided_line(problem: &Problem, node: &Node, member: u32) -> bool
    ensures decided { IsTrue result ↔ IsDecidedLine problem.now node.now member }
{
    for pairing in 0..problem.base.pairings.len() as u32 {
        if !node.is_decided(member, pairing) {
            return false;
        }
    }
    true
}

/// The pairings that the member is decided to fly.
fn decided_line(alloc: Global, problem: &Problem, node: &Node, member: u32) -> Result<Line, Memory>
    ensures line { IfOk result (λ line. line ≡ decided_line problem.now node.now member) }
{
    let mut flown = List::new(alloc);
    for pairing in 0..problem.base.pairings.len() as u32 {
        if is_decided_as(node, member, pairing, true) {
            if flown.push(pairing).is_err() {
                return Err(Memory::NoMemory);
            }
        }
    }
    match Line::new(flown) {
        Some(line) => Ok(line),
        None => unreachable!(),
    }
}

/// Whether the member's line is decided, and is illegal or misses the goal.
fn is_misfit(
    alloc: Global,
    problem: &Problem,
    goal: &Goal,
    node: &Node,
    member: u32,
) -> Result<bool, Memory>
    requires goal { IsGoal problem.now goal.now }
    requires member { member < length problem.now.base.members }
    ensures misfit { IfOk result (λ yes. IsTrue yes
        → IsMisfit problem.now goal.now node.now member) }
    ensures fits { IfOk result (λ yes. yes ≡ false
        → IsFitting problem.now goal.now node.now member) }
{
    if !is_decided_line(problem, node, member) {
        return Ok(false);
    }
    let line = decided_line(alloc, problem, node, member)?;
    let serves = serves(alloc, problem, goal, member, &line)?;
    Ok(!serves)
}

/// The first member whose line is decided and does not serve.
pub(crate) fn misfit(
    alloc: Global,
    problem: &Problem,
    goal: &Goal,
    node: &Node,
) -> Result<Option<u32>, Memory>
    requires goal { IsGoal problem.now goal.now }
    ensures first { IfOk result (λ found. MatchOption found
        (AreFitting problem.now goal.now node.now) (IsMisfit problem.now goal.now node.now)) }
{
    for member in 0..problem.base.members.len() as u32 {
        if is_misfit(alloc, problem, goal, node, member)? {
            return Ok(Some(member));
        }
    }
    Ok(None)
}
