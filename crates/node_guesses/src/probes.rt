//! What is missed at both sides of a pair, by programs over the lines that are kept (strong branching).

use duty_calendar::Memory;
use flat_search::{Board, Care};
use line_mixes::{Columns, Kept, Mix, Program};
use roster_guesses::{PROBE_CHANGES, PROBE_END, PROBE_MOST};
use roster_model::{Goal, Problem};
use std::alloc::Global;

/// The kept lines of all members that may serve the goal and obey the board; none where a member has none.
pub(crate) fn gathered(
    alloc: Global,
    problem: &Problem,
    kept: &Kept,
    goal: &Goal,
    board: &Board,
) -> Result<Option<Columns>, Memory> {
    let mut columns = Columns::new(alloc);
    for member in 0..problem.base.members.len() {
        let row = board.row(member);
        if !columns.append(alloc, kept, goal, member, &row, Care::Fine)? {
            return Ok(None);
        }
    }
    Ok(Some(columns))
}

/// The board in which the member flies the pairing too, or does not.
fn side(
    alloc: Global,
    board: &Board,
    member: usize,
    pairing: usize,
    flies: bool,
) -> Result<Board, Memory> {
    let mut side = board.copy(alloc)?;
    let mut row = side.row(member);
    if flies {
        row.flown.insert(pairing);
    } else {
        row.barred.insert(pairing);
    }
    side.set(member, row);
    Ok(side)
}

/// How much the kept lines that obey the board miss: one line where a member has none.
fn missed(
    alloc: Global,
    problem: &Problem,
    kept: &Kept,
    goal: &Goal,
    board: &Board,
    mix: &Mix,
    last: &Program,
) -> Result<f64, Memory> {
    let Some(columns) = gathered(alloc, problem, kept, goal, board)? else {
        return Ok(1.0);
    };
    let mut program = if last.may_go_on() {
        last.copy(alloc)?
    } else {
        Program::begun(alloc, problem, kept, &columns, Some(mix))?
    };
    program.go_on(alloc, &columns)?;
    program.solve(alloc, kept, &columns, PROBE_CHANGES, PROBE_END)?;
    Ok(program.misses())
}

/// How good it is to branch on the pair: more where both sides miss more.
pub(crate) fn gain(
    alloc: Global,
    problem: &Problem,
    kept: &Kept,
    goal: &Goal,
    board: &Board,
    mix: &Mix,
    last: &Program,
    pair: (usize, usize),
) -> Result<f64, Memory> {
    let (member, pairing) = pair;
    let with = side(alloc, board, member, pairing, true)?;
    let without = side(alloc, board, member, pairing, false)?;
    let one = missed(alloc, problem, kept, goal, &with, mix, last)?;
    let other = missed(alloc, problem, kept, goal, &without, mix, last)?;
    Ok((one.min(PROBE_MOST) + PROBE_END) * (other.min(PROBE_MOST) + PROBE_END))
}
