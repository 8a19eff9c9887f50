//! Lines above bounds, for callers that count no steps; and whether a member has a line at all.
ghost use Rattle.std.specs.Prelude.{◌≡◌, ◌<◌, ◌^◌, IfOk, IsTrue, Ok, OnOk, length};
ghost use Rattle.std.specs.Int.Signed.{◌<ℤ◌};
ghost use Rattle.roster_model.specs.Goals.{IsGoal, IsNode};
ghost use Rattle.roster_model.specs.Lenses.{HasSomeLine, IsLens, IsLensLine, IsMostWeight};
ghost use Rattle.roster_model.specs.Weights.{AreSmallWeights, weight_of};
ghost use Rattle.term_lines.specs.Overs.{IfLine};
ghost use Rattle.term_lines.specs.declared.above.Over.TheVariants.{Nothing};
ghost use Rattle.line_bounds.specs.Bounds.{IsShapedMost};

use crate::serving::is_serving;
use duty_calendar::Memory;
use label_lattice::Steps;
use line_generator::{BestFault, Over, best_in_turns};
use roster_model::{Goal, Lens, Line, Node, Problem};
use std::alloc::Global;
use std::marker::Brand;
use std::sync::ledger::{Blank, Ledger};

/// Less than any line weighs.
const LEAST: i64 = -1_288_490_188_201;

/// How many steps a search for a line may take.
const MOST_STEPS: u64 = 50_000_000;

/// A line that passes the lens and weighs more than the bound, or that there is none; or too many steps were taken, which are
/// counted from a blank on.
fn over_from<L: Ledger>(
    alloc: Global,
    problem: &Problem,
    member: u32,
    goal: &Goal,
    node: &Node,
    lens: &Lens,
    weights: &[i64],
    bound: i64,
    blank: Blank,
) -> Result<Over, BestFault>
    requires member { member < length problem.now.base.members }
    requires goal { IsGoal problem.now goal.now }
    requires node { IsNode problem.now node.now }
    requires listed { length lens.now.windows < 2 ^ 32 }
    requires per_pairing { length weights.now ≡ length problem.now.base.pairings }
    requires small { AreSmallWeights weights.now }
    requires name { blank.name ≡ L.name }
    requires parts { blank.parts ≡ L.parts }
    requires share { 0 < blank.parts }
    ensures shape { OnOk result (IsLens problem.now member lens.now) }
    ensures line { IfOk result (λ answer. IfLine answer
        (λ b. IsLensLine problem.now member goal.now node.now lens.now b.line)) }
    ensures weight { IfOk result (λ answer. IfLine answer
        (λ b. weight_of weights.now b.line ≡ b.weight)) }
    ensures above { IfOk result (λ answer. IfLine answer (λ b. bound <ℤ b.weight)) }
    ensures none { result ≡ Ok Nothing → IsMostWeight problem.now member goal.now node.now lens.now
        weights.now bound }
{
    let mut steps: Steps<L> = Steps::new(blank);
    best_in_turns(
        alloc, problem, member, goal, node, lens, weights, bound, MOST_STEPS, &mut steps,
    )
}

/// A line that passes the lens and weighs more than the bound, or that there is none; or that this is not known.
pub fn line_over(
    alloc: Global,
    problem: &Problem,
    member: u32,
    goal: &Goal,
    node: &Node,
    lens: &Lens,
    weights: &[i64],
    bound: i64,
) -> Result<Over, Memory>
    requires member { member < length problem.now.base.members }
    requires goal { IsGoal problem.now goal.now }
    requires node { IsNode problem.now node.now }
    requires per_pairing { length weights.now ≡ length problem.now.base.pairings }
    requires small { AreSmallWeights weights.now }
    ensures line { IfOk result (λ answer. IfLine answer
        (λ b. IsLensLine problem.now member goal.now node.now lens.now b.line)) }
    ensures weight { IfOk result (λ answer. IfLine answer
        (λ b. weight_of weights.now b.line ≡ b.weight)) }
    ensures above { IfOk result (λ answer. IfLine answer (λ b. bound <ℤ b.weight)) }
    ensures none { result ≡ Ok Nothing → IsShapedMost problem.now member goal.now node.now lens.now
        weights.now bound }
{
    if lens.windows.len() > 16 {
        return Ok(Over::Limit);
    }
    let blank = Blank::new(1);
    match over_from::<Brand>(
        alloc, problem, member, goal, node, lens, weights, bound, blank,
    ) {
        Ok(answer) => Ok(answer),
        Err(BestFault::NoMemory) => Err(Memory::NoMemory),
        Err(BestFault::Lens(_why)) => Ok(Over::Limit),
    }
}

/// Whether a line of the member is known to pass the lens: the one that is given, since it serves, or one that is found.
pub fn has_line(
    alloc: Global,
    problem: &Problem,
    member: u32,
    goal: &Goal,
    node: &Node,
    lens: &Lens,
    weights: &[i64],
    line: Option<&Line>,
) -> Result<bool, Memory>
    requires member { member < length problem.now.base.members }
    requires goal { IsGoal problem.now goal.now }
    requires node { IsNode problem.now node.now }
    requires per_pairing { length weights.now ≡ length problem.now.base.pairings }
    requires small { AreSmallWeights weights.now }
    ensures line { IfOk result (λ yes. IsTrue yes → IsLens problem.now member lens.now
        → HasSomeLine problem.now member goal.now node.now lens.now) }
{
    if let Some(line) = line {
        if is_serving(alloc, problem, goal, node, member, line)? {
            return Ok(true);
        }
    }
    match line_over(alloc, problem, member, goal, node, lens, weights, LEAST)? {
        Over::Line(_) => Ok(true),
        Over::Nothing | Over::Limit => Ok(false),
    }
}
