//! A relaxation of a node (column generation): weights that may close it, or a mix of lines that comes near to the needs.
ghost use Rattle.std.specs.Prelude.{◌≡◌};
ghost use Rattle.roster_model.specs.Goals.{IsGoal};

use crate::effort::Effort;
use crate::gathering::{Gathered, gather, thinned};
use crate::leaves::test_leaves;
use crate::limits::{FIRST_MIXES, LOST};
use crate::mastering::{is_wanted, mastered};
use crate::testing::{Outcome, test};
use duty_calendar::Memory;
use flat_search::{Board, Care, is_large};
use line_mixes::{Bounded, Columns, Ended, Kept, Mix, improve};
use roster_model::{Goal, Lens, Problem};
use std::alloc::Global;

/// What a relaxation comes to.
#[derive(Drop)]
pub enum Relaxed {
    /// These weights close the node.
    Bounded(Bounded),
    /// The member has no line by the lens.
    NoLine(u32, Lens),
    /// The crews can't be had.
    Miscrewed,
    /// The mix as it is.
    Open(Mix),
    /// A search for a first line ran out of steps.
    Unknown,
}

impl Relaxed {
    /// Whether it is known what closes the node.
    pub fn is_closing(&self) -> bool {
        match self {
            Relaxed::Bounded(_) | Relaxed::NoLine(_, _) => true,
            Relaxed::Miscrewed | Relaxed::Open(_) | Relaxed::Unknown => false,
        }
    }
}

/// Weights of better and better mixes are tested until they close the node or a mix is as good as even.
fn mixed(
    alloc: Global,
    problem: &Problem,
    kept: &mut Kept,
    goal: &Goal,
    board: &Board,
    columns: &mut Columns,
    mix: Mix,
    effort: Effort,
) -> Result<Relaxed, Memory>
    requires goal { IsGoal problem.now goal.now }
{
    let mut mix = mix;
    let mut lost: u32 = 0;
    let care = effort.care;
    for _ in 0..effort.mixes {
        let ended = improve(alloc, problem, kept, columns, &mut mix, care)?;
        if ended == Ended::Even {
            return Ok(Relaxed::Open(mix));
        }
        let before = columns.count();
        let weights = mix.weights(alloc)?;
        match test(alloc, problem, kept, goal, board, columns, weights, care)? {
            Outcome::Closes(leaf) => return Ok(Relaxed::Bounded(leaf)),
            Outcome::Open => {}
            Outcome::Lost => lost = lost.saturating_add(1),
        }
        if lost >= LOST && care == Care::Rough && is_large(problem) {
            return Ok(Relaxed::Unknown);
        }
        if ended == Ended::Stuck && columns.count() == before {
            return Ok(Relaxed::Open(mix));
        }
    }
    Ok(Relaxed::Open(mix))
}

/// The relaxation, which begins with the weights and the mix of another. Weights that close a root are remembered.
pub fn relax(
    alloc: Global,
    problem: &Problem,
    kept: &mut Kept,
    goal: &Goal,
    board: &Board,
    warm: Option<&Mix>,
    effort: Effort,
) -> Result<Relaxed, Memory>
    requires goal { IsGoal problem.now goal.now }
{
    let relaxed = relaxation(alloc, problem, kept, goal, board, warm, effort)?;
    if let Relaxed::Bounded(leaf) = &relaxed {
        if effort.care == Care::Fine && board.is_empty() {
            kept.keep_leaf(alloc, &leaf.weights)?;
        }
    }
    Ok(relaxed)
}

/// Mixes are tested, and in a large month a program is worked on where these decide nothing; in another at once, where one is
/// wanted.
fn decided(
    alloc: Global,
    problem: &Problem,
    kept: &mut Kept,
    goal: &Goal,
    board: &Board,
    columns: &mut Columns,
    warm: Option<&Mix>,
    effort: Effort,
) -> Result<Relaxed, Memory>
    requires goal { IsGoal problem.now goal.now }
{
    let is_wanted = effort.care != Care::Rough && is_wanted(problem, kept);
    if is_wanted && !is_large(problem) {
        return mastered(alloc, problem, kept, goal, board, columns, warm, effort);
    }
    let first = Effort {
        mixes: if is_wanted { FIRST_MIXES } else { effort.mixes },
        ..effort
    };
    let begun = Mix::begun(alloc, problem, kept, columns, warm)?;
    let relaxed = mixed(alloc, problem, kept, goal, board, columns, begun, first)?;
    let mix = match relaxed {
        Relaxed::Open(mix) => mix,
        other => return Ok(other),
    };
    if !is_wanted || mix.is_even(effort.care.little()) {
        return Ok(Relaxed::Open(mix));
    }
    mastered(
        alloc,
        problem,
        kept,
        goal,
        board,
        columns,
        Some(&mix),
        effort,
    )
}

/// The weights that closed other roots, and those of the mix with which the relaxation begins, are tested.
fn known_leaf(
    alloc: Global,
    problem: &Problem,
    kept: &mut Kept,
    goal: &Goal,
    board: &Board,
    columns: &mut Columns,
    warm: Option<&Mix>,
    care: Care,
) -> Result<Option<Bounded>, Memory>
    requires goal { IsGoal problem.now goal.now }
{
    if care == Care::Fine && board.is_empty() {
        let leaf = test_leaves(alloc, problem, kept, goal, board, columns)?;
        if leaf.is_some() {
            return Ok(leaf);
        }
    }
    let Some(warm) = warm else {
        return Ok(None);
    };
    let weights = warm.weights(alloc)?;
    let outcome = test(alloc, problem, kept, goal, board, columns, weights, care)?;
    Ok(match outcome {
        Outcome::Closes(leaf) => Some(leaf),
        Outcome::Open | Outcome::Lost => None,
    })
}

/// The relaxation, of which no weights are remembered.
fn relaxation(
    alloc: Global,
    problem: &Problem,
    kept: &mut Kept,
    goal: &Goal,
    board: &Board,
    warm: Option<&Mix>,
    effort: Effort,
) -> Result<Relaxed, Memory>
    requires goal { IsGoal problem.now goal.now }
{
    if board.has_miscrewed(problem) {
        return Ok(Relaxed::Miscrewed);
    }
    let care = effort.care;
    let all = match gather(alloc, problem, kept, goal, board, care)? {
        Gathered::Columns(columns) => columns,
        Gathered::NoLine(member, lens) => return Ok(Relaxed::NoLine(member, lens)),
        Gathered::Unknown => return Ok(Relaxed::Unknown),
    };
    let mut columns = thinned(alloc, problem, kept, goal, all, warm, care)?;
    let leaf = known_leaf(alloc, problem, kept, goal, board, &mut columns, warm, care)?;
    if let Some(leaf) = leaf {
        return Ok(Relaxed::Bounded(leaf));
    }
    decided(
        alloc,
        problem,
        kept,
        goal,
        board,
        &mut columns,
        warm,
        effort,
    )
}
