//! Prices that may close a node by themselves: those that were found by kept lines alone.
ghost use Rattle.std.specs.Prelude.{◌≡◌};
ghost use Rattle.roster_model.specs.Goals.{IsGoal};

use crate::gathering::{Gathered, gather};
use crate::relaxing::Relaxed;
use crate::testing::{Outcome, test};
use duty_calendar::Memory;
use flat_search::{Board, Care};
use line_mixes::Kept;
use roster_model::{Goal, Problem};
use std::alloc::Global;

/// What closes the node, if these weights do, or a member has no line there. Lines that are found are kept.
pub fn closed_with(
    alloc: Global,
    problem: &Problem,
    kept: &mut Kept,
    goal: &Goal,
    board: &Board,
    weights: Vec<i64>,
) -> Result<Option<Relaxed>, Memory>
    requires goal { IsGoal problem.now goal.now }
{
    let care = Care::Fine;
    let mut columns = match gather(alloc, problem, kept, goal, board, care)? {
        Gathered::Columns(columns) => columns,
        Gathered::NoLine(member, lens) => return Ok(Some(Relaxed::NoLine(member, lens))),
        Gathered::Unknown => return Ok(None),
    };
    let outcome = test(
        alloc,
        problem,
        kept,
        goal,
        board,
        &mut columns,
        weights,
        care,
    )?;
    Ok(match outcome {
        Outcome::Closes(leaf) => Some(Relaxed::Bounded(leaf)),
        Outcome::Open | Outcome::Lost => None,
    })
}
