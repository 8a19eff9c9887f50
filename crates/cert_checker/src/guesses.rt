//! Guesses at what a heaviest line weighs: by the lines that were found before. Nothing is promised of them; a search shows whether
//! they hold.
ghost use Rattle.std.specs.Prelude.{◌<◌, length};
ghost use Rattle.roster_model.specs.Goals.{IsGoal};

use crate::fixed::{is_bid_met, is_floor_met};
use crate::noted::Noted;
use crate::witness::is_in_range;
use duty_calendar::Memory;
use roster_model::{Decision, Goal, Line, Node, Problem};
use std::alloc::Global;

/// So many of the lines that were noted last are looked at.
const MOST_LOOKED_AT: usize = 2048;

/// What the line weighs.
fn weight_of(line: &Line, weights: &[i64]) -> i64 {
    line.pairings()
        .iter()
        .map(|pairing| weights.get(*pairing as usize).copied().unwrap_or(0))
        .fold(0, |sum: i64, weight| sum.saturating_add(weight))
}

/// Whether the line is as the decision wants it, if that is about the member.
fn keeps(line: &Line, member: u32, decision: &Decision) -> bool {
    decision.member != member || line.pairings().contains(&decision.pairing) == decision.flies
}

/// Whether the line is as the decisions on the member want it, and meets the goal.
fn may_pass(problem: &Problem, member: u32, goal: &Goal, node: &Node, line: &Line) -> bool
    requires member { member < length problem.now.base.members }
    requires goal { IsGoal problem.now goal.now }
{
    node.decisions()
        .iter()
        .all(|decision| keeps(line, member, decision))
        && is_in_range(problem, line)
        && is_floor_met(problem, goal, member, line)
        && is_bid_met(problem, goal, member, line)
}

/// A little less than what the heaviest of the member's lines weighs that were noted of late and may pass, if there is one.
pub(crate) fn guessed_bound(
    problem: &Problem,
    noted: &[Noted],
    member: u32,
    goal: &Goal,
    node: &Node,
    weights: &[i64],
) -> Option<i64>
    requires member { member < length problem.now.base.members }
    requires goal { IsGoal problem.now goal.now }
{
    let mut best = None;
    for it in noted.iter().rev().take(MOST_LOOKED_AT) {
        if it.member != member {
            continue;
        }
        let bound = weight_of(&it.line, weights).saturating_sub(1);
        if best < Some(bound) && may_pass(problem, member, goal, node, &it.line) {
            best = Some(bound);
        }
    }
    best
}

/// What the heaviest of each member's lines weighs that were noted of late and may pass, if there is one of each.
pub(crate) fn guessed_mosts(
    alloc: Global,
    problem: &Problem,
    noted: &[Noted],
    goal: &Goal,
    node: &Node,
    weights: &[i64],
) -> Result<Option<Vec<i64>>, Memory>
    requires goal { IsGoal problem.now goal.now }
{
    let mut mosts = Vec::new(alloc);
    for member in 0..problem.base.members.len() as u32 {
        let Some(bound) = guessed_bound(problem, noted, member, goal, node, weights) else {
            return Ok(None);
        };
        mosts.push(bound.saturating_add(1))?;
    }
    Ok(Some(mosts))
}

/// How much more than this all together may weigh and be less than the needs.
pub(crate) fn spare_of(mosts: &[i64], needs: i64) -> i64 {
    mosts
        .iter()
        .fold(needs.saturating_sub(1), |spare: i64, most| {
            spare.saturating_sub(*most)
        })
}
