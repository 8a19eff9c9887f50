//! Items whose weights show that no lines give the crews that are needed.
ghost use Rattle.std.specs.Prelude.{◌≡◌, ◌≤◌, ◌↔◌, pos, ◌*ℤ◌, length, All, IfErr, IfOk, IsTrue, OnOk};
ghost use Rattle.roster_model.specs.Lenses.{IsBestWeight, IsLens, IsOutweighed};
ghost use Rattle.roster_model.specs.Weights.{AreSmallWeights, IsSmallWeight, needed_weight};
ghost use Rattle.cert_checker.specs.Given.{AreFewParts, AreQuestions, HasFewWindows, IsAsked, IsQuestion};
ghost use Rattle.cert_checker.specs.Faults.{AreWide, FindsMisshapen, IsStepFault, WeightsFails};
ghost use Rattle.cert_checker.specs.Bests.{IsLinelessFault, IsNothingFault, IsWithin, LinesWeigh};
ghost use Rattle.cert_checker.specs.Recalls.{IsRight};

use crate::bounded::is_bounded;
use crate::recall::{Recall, recalled_weight};
use crate::refusal::{ItemFault, StepFault};
use duty_calendar::Memory;
use line_lens::{LensFault, check_lens};
use roster_model::{Goal, Lens, Node, Problem};
use std::alloc::Global;

/// Whether there is one weight for each pairing and one lens for each member.
fn are_wide(problem: &Problem, weights: &[i32], lenses: &[Lens]) -> bool
    ensures wide { IsTrue result ↔ AreWide problem.now weights.now lenses.now }
{
    weights.len() == problem.base.pairings.len() && lenses.len() == problem.base.members.len()
}

/// The first member whose lens has not its shape, and the lens's first fault.
fn first_misshapen(problem: &Problem, lenses: &[Lens]) -> Option<(u32, LensFault)>
    requires per_member { length lenses.now ≡ length problem.now.base.members }
    requires listed { All HasFewWindows lenses.now }
    ensures first { FindsMisshapen problem.now lenses.now result }
{
    for (member, lens) in lenses.iter().enumerate() {
        if let Err(why) = check_lens(problem, member as u32, lens) {
            return Some((member as u32, why));
        }
    }
    None
}

/// The same weights, of 64 bits each.
fn widened(alloc: Global, weights: &[i32]) -> Result<Vec<i64>, Memory>
    ensures same { IfOk result (λ wide. wide.items ≡ weights.now) }
{
    let mut wide = Vec::new(alloc);
    for weight in weights {
        wide.push(i64::from(*weight))?;
    }
    Ok(wide)
}

/// What so many members weigh together.
fn times(need: u32, weight: i64) -> i64
    requires few { need ≤ 9 }
    requires small { IsSmallWeight weight }
    ensures value { result ≡ pos need *ℤ weight }
    ensures within { IsWithin 19327352823 result }
{
    i64::from(need) * weight
}

/// What the crews that are needed weigh together.
fn needed_weight(problem: &Problem, weights: &[i64]) -> i64
    requires per_pairing { length weights.now ≡ length problem.now.base.pairings }
    requires small { AreSmallWeights weights.now }
    ensures value { result ≡ needed_weight problem.now weights.now }
{
    let mut sum = 0;
    for (pairing, wanted) in problem.base.pairings.as_slice().iter().enumerate() {
        sum += times(wanted.need, weights[pairing]);
    }
    sum
}

/// The greatest weight of the member's lines that pass the lens.
fn line_weight(
    alloc: Global,
    problem: &Problem,
    recall: &mut Recall,
    goal: &Goal,
    node: &Node,
    weights: &[i64],
    member: u32,
    lens: &Lens,
) -> Result<i64, StepFault>
    requires asked { IsQuestion problem.now member goal.now node.now lens.now weights.now }
    requires shape { IsLens problem.now member lens.now }
    requires right { IsRight problem.now recall.old }
    ensures best { IfOk result
        (IsBestWeight problem.now member goal.now node.now lens.now weights.now) }
    ensures within { IfOk result (IsWithin 1288490188200) }
    ensures fault { IfErr result (IsStepFault
        (IsNothingFault problem.now goal.now node.now member lens.now)) }
    ensures right { IsRight problem.now recall.new }
{
    match recalled_weight(alloc, problem, recall, member, goal, node, lens, weights)? {
        Some(weight) => Ok(weight),
        None => Err(StepFault::Of(ItemFault::Nothing(member))),
    }
}

/// What the best lines weigh together, one for each member's lens, or the first member of whom no
/// line passes.
fn best_weights(
    alloc: Global,
    problem: &Problem,
    recall: &mut Recall,
    goal: &Goal,
    node: &Node,
    weights: &[i64],
    lenses: &[Lens],
) -> Result<i64, StepFault>
    requires asked { AreQuestions problem.now goal.now node.now weights.now lenses.now }
    requires right { IsRight problem.now recall.old }
    ensures together { IfOk result
        (LinesWeigh problem.now goal.now node.now weights.now lenses.now) }
    ensures fault { IfErr result (IsStepFault
        (IsLinelessFault problem.now goal.now node.now lenses.now)) }
    ensures right { IsRight problem.now recall.new }
{
    let mut sum = 0;
    for (member, lens) in lenses.iter().enumerate() {
        sum += line_weight(
            alloc,
            problem,
            recall,
            goal,
            node,
            weights,
            member as u32,
            lens,
        )?;
    }
    Ok(sum)
}

/// Whether the best lines, one for each member's lens, weigh less together than the crews that are
/// needed.
pub(crate) fn outweighed(
    alloc: Global,
    problem: &Problem,
    recall: &mut Recall,
    goal: &Goal,
    node: &Node,
    weights: &[i32],
    lenses: &[Lens],
) -> Result<(), StepFault>
    requires asked { IsAsked problem.now goal.now node.now }
    requires small { AreSmallWeights weights.now }
    requires few { AreFewParts weights.now lenses.now }
    requires right { IsRight problem.now recall.old }
    ensures accepted { OnOk result
        (IsOutweighed problem.now goal.now node.now weights.now lenses.now) }
    ensures fault { IfErr result (IsStepFault
        (WeightsFails problem.now goal.now node.now weights.now lenses.now)) }
    ensures right { IsRight problem.now recall.new }
{
    if !are_wide(problem, weights, lenses) {
        let width = ItemFault::Width(weights.len() as u32, lenses.len() as u32);
        return Err(StepFault::Of(width));
    }
    if let Some((member, why)) = first_misshapen(problem, lenses) {
        return Err(StepFault::Of(ItemFault::Lens(member, why)));
    }
    let wide = widened(alloc, weights)?;
    let needs = needed_weight(problem, &wide);
    if is_bounded(alloc, problem, recall, goal, node, &wide, lenses, needs)? {
        return Ok(());
    }
    let lines = best_weights(alloc, problem, recall, goal, node, &wide, lenses)?;
    if lines < needs {
        return Ok(());
    }
    Err(StepFault::Of(ItemFault::Sum(lines, needs)))
}
