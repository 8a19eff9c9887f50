//! Rounds that are whole rosters.
ghost use Rattle.std.specs.Prelude.{IfOk, IsTrue};
ghost use Rattle.roster_model.specs.Goals.{IsGoal, RosterMeets};
ghost use Rattle.roster_model.specs.Rounds.{IsRound};
ghost use Rattle.branch_log.specs.Honest.{IsWhole};

use closer_guide::Part;
use duty_calendar::{Copied, Memory};
use line_bounds::meets_goal;
use line_legality::{RosterFault, complete};
use roster_model::{Goal, Node, Problem, Roster};
use std::alloc::Global;

/// The lines of a roster, each as the one part of its member.
pub(crate) fn parts_of(alloc: Global, roster: &Roster) -> Result<Vec<Vec<Part>>, Memory> {
    let mut parts = Vec::new(alloc);
    for line in roster.as_slice() {
        let mut own = Vec::new(alloc);
        own.push(Part {
            line: line.copy(alloc)?,
            share: 1,
        })?;
        parts.push(own)?;
    }
    Ok(parts)
}

/// Whether each line of the round meets the goal.
fn all_meet(problem: &Problem, goal: &Goal, node: &Node, round: &Roster) -> bool
    requires goal { IsGoal problem.now goal.now }
    requires round { IsRound problem.now goal.now node.now round.now }
    ensures meet { IsTrue result → RosterMeets problem.now goal.now round.now }
{
    let _ = node;
    for (member, line) in round.as_slice().iter().enumerate() {
        if !meets_goal(problem, goal, member as u32, line) {
            return false;
        }
    }
    true
}

/// Whether the round is a complete roster that meets the goal. Its lines obey the node.
pub(crate) fn is_whole(
    alloc: Global,
    problem: &Problem,
    goal: &Goal,
    node: &Node,
    round: &Roster,
) -> Result<bool, Memory>
    requires goal { IsGoal problem.now goal.now }
    requires round { IsRound problem.now goal.now node.now round.now }
    ensures whole { IfOk result (λ yes. IsTrue yes
        → IsWhole problem.now goal.now node.now round.now) }
{
    if !all_meet(problem, goal, node, round) {
        return Ok(false);
    }
    match complete(alloc, problem, round) {
        Ok(()) => Ok(true),
        Err(RosterFault::NoMemory) => Err(Memory::NoMemory),
        Err(_fault) => Ok(false),
    }
}
