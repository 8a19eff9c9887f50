//! The relaxation of a node by linear programs over its columns (restricted masters): the dual prices of their solutions, and
//! those half way to these (smoothing), are tested.
ghost use Rattle.std.specs.Prelude.{◌≡◌};
ghost use Rattle.roster_model.specs.Goals.{IsGoal};

use crate::dear::test_all;
use crate::effort::Effort;
use crate::limits::{ALL_ROWS, CHANGES, FEW_ROWS, MISSED, MOST_ROWS};
use crate::relaxing::Relaxed;
use duty_calendar::Memory;
use flat_search::{Board, Care, rows};
use line_mixes::{Bounded, Columns, Kept, Mix, Program, WHOLE};
use roster_model::{Goal, Problem};
use std::alloc::Global;
use std::num::{nearest_i64_to_f64, saturating_f64_to_i64};

/// What is worked on: the program, what pairings are worth by the weights that were tested last, and these.
#[derive(Drop)]
struct Work {
    program: Program,
    worth: Vec<f64>,
    weights: Vec<i64>,
}

/// What a test of weights comes to: they close the node, new lines were found, or none were.
#[derive(Drop)]
enum Tested {
    Closed(Bounded),
    Grown,
    Stuck,
}

/// Whether programs are worth their time from the first relaxation on: some searches are dear, and the rows are few.
pub fn is_worth_while(problem: &Problem, kept: &Kept) -> bool {
    rows(problem) <= FEW_ROWS || kept.has_dear() && rows(problem) <= MOST_ROWS
}

/// Whether programs are to be worked on where mixes don't decide.
pub(crate) fn is_wanted(problem: &Problem, kept: &Kept) -> bool {
    rows(problem) <= FEW_ROWS || kept.has_dear() && rows(problem) <= ALL_ROWS
}

/// What may be missed by a program that is not solved to its end: in one of many rows nothing, since a roster is more easily
/// found from where it ends.
fn end_of(problem: &Problem) -> f64 {
    if rows(problem) <= FEW_ROWS {
        MISSED
    } else {
        0.0
    }
}

/// Half way from the first to the second; the second where there is no first.
fn halfway(alloc: Global, first: &[f64], second: &[f64]) -> Result<Vec<f64>, Memory> {
    if first.is_empty() {
        return Ok(Vec::from_slice(alloc, second)?);
    }
    let mut between = Vec::new(alloc);
    for (one, other) in first.iter().zip(second) {
        between.push((*one + *other) / 2.0)?;
    }
    Ok(between)
}

/// The worth of pairings in whole numbers.
fn rounded(alloc: Global, worth: &[f64]) -> Result<Vec<i64>, Memory> {
    let mut weights = Vec::new(alloc);
    for one in worth {
        let weight = saturating_f64_to_i64((*one * nearest_i64_to_f64(WHOLE)).round());
        weights.push(weight.clamp(-4 * WHOLE, 4 * WHOLE))?;
    }
    Ok(weights)
}

/// Tests what pairings are worth by the work, in whole numbers, and remembers these.
fn test_worth(
    alloc: Global,
    problem: &Problem,
    kept: &mut Kept,
    goal: &Goal,
    board: &Board,
    columns: &mut Columns,
    care: Care,
    work: &mut Work,
) -> Result<Tested, Memory>
    requires goal { IsGoal problem.now goal.now }
{
    let before = columns.count();
    let weights = rounded(alloc, &work.worth)?;
    work.weights = Vec::from_slice(alloc, &weights)?;
    let leaf = test_all(alloc, problem, kept, goal, board, columns, weights, care)?;
    Ok(match leaf {
        Some(leaf) => Tested::Closed(leaf),
        None if columns.count() > before => Tested::Grown,
        None => Tested::Stuck,
    })
}

/// Tests weights half way from those that were tested last to those of the program, and where nothing is found these.
fn test_halfway(
    alloc: Global,
    problem: &Problem,
    kept: &mut Kept,
    goal: &Goal,
    board: &Board,
    columns: &mut Columns,
    care: Care,
    work: &mut Work,
) -> Result<Tested, Memory>
    requires goal { IsGoal problem.now goal.now }
{
    let is_first = work.worth.is_empty();
    work.worth = halfway(alloc, &work.worth, work.program.worth())?;
    let tested = test_worth(alloc, problem, kept, goal, board, columns, care, work)?;
    match tested {
        Tested::Stuck if !is_first => {
            work.worth = Vec::from_slice(alloc, work.program.worth())?;
            test_worth(alloc, problem, kept, goal, board, columns, care, work)
        }
        _ => Ok(tested),
    }
}

/// Weights of better and better programs are tested until they close the node or hardly anything is missed.
fn worked(
    alloc: Global,
    problem: &Problem,
    kept: &mut Kept,
    goal: &Goal,
    board: &Board,
    columns: &mut Columns,
    effort: Effort,
    work: &mut Work,
) -> Result<Option<Bounded>, Memory>
    requires goal { IsGoal problem.now goal.now }
{
    let end = end_of(problem);
    let care = effort.care;
    for _ in 0..effort.mixes {
        work.program.solve(alloc, kept, columns, CHANGES, end)?;
        if work.program.misses() <= MISSED {
            return Ok(None);
        }
        match test_halfway(alloc, problem, kept, goal, board, columns, care, work)? {
            Tested::Closed(leaf) => return Ok(Some(leaf)),
            Tested::Grown => {}
            Tested::Stuck => return Ok(None),
        }
    }
    Ok(None)
}

/// The program of these columns: the last one goes on, if it may.
pub fn program_of(
    alloc: Global,
    problem: &Problem,
    kept: &mut Kept,
    columns: &Columns,
    warm: Option<&Mix>,
) -> Result<Program, Memory> {
    if let Some(last) = kept.take_program() {
        let mut program = last;
        if program.may_go_on() {
            program.go_on(alloc, columns)?;
            return Ok(program);
        }
    }
    Program::begun(alloc, problem, kept, columns, warm)
}

/// The weights that were tested before, with which the next relaxation begins where none are tested in this one.
fn tested_before(alloc: Global, problem: &Problem, warm: Option<&Mix>) -> Result<Vec<i64>, Memory> {
    match warm {
        Some(warm) => warm.weights(alloc),
        None => Ok(vec![in alloc; 0i64; problem.base.pairings.len()]?),
    }
}

/// The relaxation by programs over these columns.
pub(crate) fn mastered(
    alloc: Global,
    problem: &Problem,
    kept: &mut Kept,
    goal: &Goal,
    board: &Board,
    columns: &mut Columns,
    warm: Option<&Mix>,
    effort: Effort,
) -> Result<Relaxed, Memory>
    requires goal { IsGoal problem.now goal.now }
{
    let mut work = Work {
        program: program_of(alloc, problem, kept, columns, warm)?,
        worth: Vec::new(alloc),
        weights: tested_before(alloc, problem, warm)?,
    };
    let leaf = worked(
        alloc, problem, kept, goal, board, columns, effort, &mut work,
    )?;
    let (program, weights) = (work.program, work.weights);
    let relaxed = match leaf {
        Some(leaf) => Relaxed::Bounded(leaf),
        None => {
            let mix = Mix::of_program(alloc, problem, kept, columns, &program, weights)?;
            Relaxed::Open(mix)
        }
    };
    kept.keep_program(program);
    Ok(relaxed)
}
