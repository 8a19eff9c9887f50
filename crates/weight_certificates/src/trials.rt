//! Members without a line.
ghost use Rattle.std.specs.Prelude.{◌<◌, IfOk, IsTrue, length};
ghost use Rattle.roster_model.specs.Closing.{IsLineless};
ghost use Rattle.roster_model.specs.Goals.{IsGoal, IsNode};

use duty_calendar::Memory;
use line_bounds::line_over;
use line_generator::{Over, is_out_of_reach};
use line_lens::check_lens;
use roster_model::{Goal, Lens, Node, Problem};
use std::alloc::Global;

/// Whether no line of the member passes the lens.
pub(crate) fn is_lineless(
    alloc: Global,
    problem: &Problem,
    goal: &Goal,
    node: &Node,
    member: u32,
    lens: &Lens,
) -> Result<bool, Memory>
    requires goal { IsGoal problem.now goal.now }
    requires node { IsNode problem.now node.now }
    ensures lineless { IfOk result (λ yes. IsTrue yes
        → IsLineless problem.now goal.now node.now member lens.now) }
{
    if member as usize >= problem.base.members.len() || lens.windows.len() > 16 {
        return Ok(false);
    }
    if let Err(_why) = check_lens(problem, member, lens) {
        return Ok(false);
    }
    if is_out_of_reach(problem, member, goal) {
        return Ok(true);
    }
    let weights = vec![in alloc; 0i64; problem.base.pairings.len()]?;
    match line_over(alloc, problem, member, goal, node, lens, &weights, -1)? {
        Over::Nothing => Ok(true),
        Over::Line(_) | Over::Limit => Ok(false),
    }
}
