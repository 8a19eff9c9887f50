//! How a mix is brought nearer to the needs, sweep by sweep (a solution of the restricted master, member by member, without a
//! program).

use crate::columns::Columns;
use crate::kept::Kept;
use crate::limits::{FIRST_LOOK, FULL, SWEEPS};
use crate::mix::Mix;
use crate::shares::needed;
use crate::steps::Step;
use duty_calendar::Memory;
use flat_search::Care;
use roster_model::Problem;
use std::alloc::Global;

/// How the improving of a mix ended: its misses are small, the columns weigh less than the needs, no step is left, or
/// there were steps enough.
#[derive(Clone, Copy, PartialEq, Eq)]
pub enum Ended {
    Even,
    Outweighed,
    Stuck,
    Tired,
}

/// One step for each member, all taken together.
fn sweep(
    problem: &Problem,
    kept: &Kept,
    columns: &Columns,
    mix: &mut Mix,
    all: bool,
) -> Result<Step, Memory> {
    let mut sum = Step {
        below: 0,
        is_moved: false,
    };
    for member in 0..problem.base.members.len() {
        let step = mix.step(kept, columns, member, all)?;
        sum.below = sum.below.wrapping_add(step.below);
        if step.is_moved {
            sum.is_moved = true;
        }
    }
    Ok(sum)
}

/// Whether the columns weigh less than the needs under the weights of the mix.
fn is_outweighed(
    alloc: Global,
    problem: &Problem,
    kept: &Kept,
    columns: &Columns,
    mix: &Mix,
) -> Result<bool, Memory> {
    let weights = mix.weights(alloc)?;
    Ok(columns.total(kept, problem, &weights) < needed(problem, &weights))
}

/// Brings the mix nearer to the needs. Every eighth sweep looks at all columns, the others at those with a share.
pub fn improve(
    alloc: Global,
    problem: &Problem,
    kept: &Kept,
    columns: &Columns,
    mix: &mut Mix,
    care: Care,
) -> Result<Ended, Memory> {
    for turn in 0..SWEEPS {
        let all = turn % FULL == 0;
        let step = sweep(problem, kept, columns, mix, all)?;
        if mix.is_even(care.little()) {
            return Ok(Ended::Even);
        }
        let may_close = all
            && turn >= FIRST_LOOK
            && step.below > needed(problem, mix.misses())
            && is_outweighed(alloc, problem, kept, columns, mix)?;
        if may_close {
            return Ok(Ended::Outweighed);
        }
        if all && !step.is_moved {
            return Ok(Ended::Stuck);
        }
    }
    Ok(Ended::Tired)
}
