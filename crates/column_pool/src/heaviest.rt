//! The heaviest of some lines.
ghost use Rattle.std.specs.Prelude.{◌≡◌, ◌↔◌, ◌<◌, ◌≤◌, All, IfOk, IsTrue, length};
ghost use Rattle.roster_model.specs.Goals.{IsGoal, IsNode};
ghost use Rattle.roster_model.specs.Lenses.{IsLens, IsStandardLens};
ghost use Rattle.roster_model.specs.Rounds.{IsStandardLine};
ghost use Rattle.roster_model.specs.Weights.{AreSmallWeights, weight_of};
ghost use Rattle.column_pool.specs.Heaviest.{IsAbove, IsHeaviest};

use crate::lines::Lines;
use duty_calendar::Memory;
use line_lens::lens_line;
use roster_model::{Goal, Lens, Line, Node, Problem};
use std::alloc::Global;

/// What the pairings of a line weigh together.
fn weigh(line: &Line, weights: &[i64]) -> i64
    requires in_range { All (λ p. p < length weights.now) line.now }
    requires few { length weights.now ≤ 600 }
    requires small { AreSmallWeights weights.now }
    ensures value { result ≡ weight_of weights.now line.now }
{
    let mut sum = 0;
    for p in line.pairings() {
        sum += weights[*p as usize];
    }
    sum
}

/// Whether the line is one by the member's standard lens, which is this one.
fn is_standard(
    alloc: Global,
    problem: &Problem,
    member: u32,
    goal: &Goal,
    node: &Node,
    lens: &Lens,
    line: &Line,
) -> Result<bool, Memory>
    requires member { member < length problem.now.base.members }
    requires goal { IsGoal problem.now goal.now }
    requires node { IsNode problem.now node.now }
    requires shape { IsLens problem.now member lens.now }
    requires standard { IsStandardLens problem.now member lens.now }
    requires in_range { All (λ p. p < length problem.now.base.pairings) line.now }
    ensures standard { IfOk result (λ yes. IsTrue yes
        ↔ IsStandardLine problem.now goal.now node.now member line.now) }
{
    lens_line(alloc, problem, member, goal, node, lens, line)
}

/// Whether the line is heavier than the heaviest so far, and one by the member's standard lens, which is this one.
fn is_heavier(
    alloc: Global,
    problem: &Problem,
    member: u32,
    goal: &Goal,
    node: &Node,
    lens: &Lens,
    line: &Line,
    weight: i64,
    heaviest: Option<u32>,
    most: i64,
) -> Result<bool, Memory>
    requires member { member < length problem.now.base.members }
    requires goal { IsGoal problem.now goal.now }
    requires node { IsNode problem.now node.now }
    requires shape { IsLens problem.now member lens.now }
    requires standard { IsStandardLens problem.now member lens.now }
    requires in_range { All (λ p. p < length problem.now.base.pairings) line.now }
    ensures heavier { IfOk result (λ yes. IsTrue yes → IsAbove heaviest most weight
        × IsStandardLine problem.now goal.now node.now member line.now) }
    ensures other { IfOk result (λ yes. IsAbove heaviest most weight
        → IsStandardLine problem.now goal.now node.now member line.now → IsTrue yes) }
{
    if heaviest.is_some() && weight <= most {
        return Ok(false);
    }
    is_standard(alloc, problem, member, goal, node, lens, line)
}

/// The place of the first line of greatest weight among those by the member's standard lens, which is this one.
pub(crate) fn heaviest(
    alloc: Global,
    problem: &Problem,
    member: u32,
    goal: &Goal,
    node: &Node,
    lens: &Lens,
    lines: &Lines,
    weights: &[i64],
) -> Result<Option<u32>, Memory>
    requires member { member < length problem.now.base.members }
    requires goal { IsGoal problem.now goal.now }
    requires node { IsNode problem.now node.now }
    requires shape { IsLens problem.now member lens.now }
    requires standard { IsStandardLens problem.now member lens.now }
    requires in_range { All (All (λ p. p < length problem.now.base.pairings)) lines.now }
    requires few_lines { length lines.now ≤ 10000 }
    requires per_pairing { length weights.now ≡ length problem.now.base.pairings }
    requires small { AreSmallWeights weights.now }
    ensures heaviest { IfOk result (IsHeaviest problem.now goal.now node.now member weights.now
        lines.now (length lines.now)) }
{
    let mut heaviest = None;
    let mut most = 0;
    for place in 0..lines.len() as u32 {
        let line = lines.line(place as usize);
        let weight = weigh(line, weights);
        if is_heavier(
            alloc, problem, member, goal, node, lens, line, weight, heaviest, most,
        )? {
            heaviest = Some(place);
            most = weight;
        }
    }
    Ok(heaviest)
}
