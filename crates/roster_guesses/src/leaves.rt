//! Weights (dual prices) that closed other roots, tested once more.
ghost use Rattle.std.specs.Prelude.{◌≡◌};
ghost use Rattle.roster_model.specs.Goals.{IsGoal};

use crate::limits::SEARCHED;
use crate::testing::{Tried, test_member};
use duty_calendar::Memory;
use flat_search::{Board, Care, number};
use line_mixes::{Bounded, Columns, Kept, Leaf};
use roster_model::{Goal, Problem};
use std::alloc::Global;

/// Which members are to be searched so that the weights close the root: all but those of whom it is known what no line is
/// above, which the leaf is told.
fn unknown(
    alloc: Global,
    problem: &Problem,
    kept: &Kept,
    goal: &Goal,
    weights: &[i64],
    leaf: &mut Leaf,
) -> Result<Vec<usize>, Memory> {
    let mut members = Vec::new(alloc);
    for member in 0..problem.base.members.len() {
        match kept.barren(alloc, member, goal, weights)? {
            Some((over, lens)) => leaf.allow(member, lens, over),
            None => members.push(member)?,
        }
    }
    Ok(members)
}

/// Searches these members, until one has a line that is too heavy.
fn search(
    alloc: Global,
    problem: &Problem,
    kept: &mut Kept,
    goal: &Goal,
    columns: &mut Columns,
    tried: Tried,
    members: &[usize],
    leaf: &mut Leaf,
) -> Result<(), Memory>
    requires goal { IsGoal problem.now goal.now }
{
    for member in members {
        if !leaf.is_closing {
            return Ok(());
        }
        test_member(alloc, problem, kept, goal, columns, tried, *member, leaf)?;
    }
    Ok(())
}

/// Whether the weights close the root, where few members are to be searched for that.
fn test_again(
    alloc: Global,
    problem: &Problem,
    kept: &mut Kept,
    goal: &Goal,
    board: &Board,
    columns: &mut Columns,
    weights: Vec<i64>,
) -> Result<Option<Bounded>, Memory>
    requires goal { IsGoal problem.now goal.now }
{
    let Some(begun) = Leaf::begun(alloc, problem, kept, columns, &weights)? else {
        return Ok(None);
    };
    let mut leaf = begun;
    let members = unknown(alloc, problem, kept, goal, &weights, &mut leaf)?;
    if leaf.is_reached() || members.len() > SEARCHED {
        return Ok(None);
    }
    leaf.share(number(members.len()));
    let tried = Tried {
        board,
        weights: &weights,
        care: Care::Fine,
    };
    search(
        alloc, problem, kept, goal, columns, tried, &members, &mut leaf,
    )?;
    Ok(leaf.closed(weights))
}

/// Whether any weights that closed other roots close this one too, the newest first.
pub(crate) fn test_leaves(
    alloc: Global,
    problem: &Problem,
    kept: &mut Kept,
    goal: &Goal,
    board: &Board,
    columns: &mut Columns,
) -> Result<Option<Bounded>, Memory>
    requires goal { IsGoal problem.now goal.now }
{
    for at in (0..kept.leaves().len()).rev() {
        let Some(leaf) = kept.leaves().get(at) else {
            return Ok(None);
        };
        let weights = Vec::from_slice(alloc, leaf)?;
        let leaf = test_again(alloc, problem, kept, goal, board, columns, weights)?;
        if leaf.is_some() {
            return Ok(leaf);
        }
    }
    Ok(None)
}
