//! Heaviest lines of members, by a caller that counts no steps.
ghost use Rattle.std.specs.Prelude.{◌≡◌, ◌<◌, ◌^◌, IfNone, IfOk, IfSome, IsErrOf, MatchOption, OnOk, length};
ghost use Rattle.roster_model.specs.Goals.{IsGoal, IsNode};
ghost use Rattle.roster_model.specs.Lenses.{HasNoLine, IsLens, IsLensLine, IsMostWeight};
ghost use Rattle.roster_model.specs.Weights.{AreSmallWeights, weight_of};
ghost use Rattle.line_lens.specs.LensFaults.{IsLensFault};
ghost use Rattle.line_lens.specs.declared.lens_fault.LensFault.{LensFault as Why};
ghost use Rattle.weight_certificates.specs.Pricing.{IsHeaviestLine};

use duty_calendar::Memory;
use label_lattice::Steps;
use line_generator::{BestFault, PricedLine, heaviest};
use roster_model::{Goal, Lens, Line, Node, Problem};
use std::alloc::Global;
use std::marker::Brand;
use std::sync::ledger::{Blank, Ledger};

/// The best line, whose steps are counted from a blank on.
fn best_from<L: Ledger>(
    alloc: Global,
    problem: &Problem,
    member: u32,
    goal: &Goal,
    node: &Node,
    lens: &Lens,
    weights: &[i64],
    blank: Blank,
) -> Result<Option<PricedLine>, BestFault>
    requires member { member < length problem.now.base.members }
    requires goal { IsGoal problem.now goal.now }
    requires node { IsNode problem.now node.now }
    requires shape { IsLens problem.now member lens.now }
    requires per_pairing { length weights.now ≡ length problem.now.base.pairings }
    requires small { AreSmallWeights weights.now }
    requires name { blank.name ≡ L.name }
    requires parts { blank.parts ≡ L.parts }
    requires share { 0 < blank.parts }
    ensures fault { (why : Why) → IsErrOf result (BestFault.Lens why)
        → IsLensFault problem.now member lens.now why }
    ensures line { IfOk result (λ answer. IfSome answer
        (λ b. IsLensLine problem.now member goal.now node.now lens.now b.line)) }
    ensures weight { IfOk result (λ answer. IfSome answer
        (λ b. weight_of weights.now b.line ≡ b.weight)) }
    ensures most { IfOk result (λ answer. IfSome answer
        (λ b. IsMostWeight problem.now member goal.now node.now lens.now weights.now b.weight)) }
    ensures none { IfOk result (λ answer. IfNone answer
        (HasNoLine problem.now member goal.now node.now lens.now)) }
{
    let mut steps: Steps<L> = Steps::new(blank);
    heaviest(
        alloc, problem, member, goal, node, lens, weights, &mut steps,
    )
}

/// The best line.
fn best_line(
    alloc: Global,
    problem: &Problem,
    member: u32,
    goal: &Goal,
    node: &Node,
    lens: &Lens,
    weights: &[i64],
) -> Result<Option<PricedLine>, BestFault>
    requires member { member < length problem.now.base.members }
    requires goal { IsGoal problem.now goal.now }
    requires node { IsNode problem.now node.now }
    requires shape { IsLens problem.now member lens.now }
    requires per_pairing { length weights.now ≡ length problem.now.base.pairings }
    requires small { AreSmallWeights weights.now }
    ensures fault { (why : Why) → IsErrOf result (BestFault.Lens why)
        → IsLensFault problem.now member lens.now why }
    ensures line { IfOk result (λ answer. IfSome answer
        (λ b. IsLensLine problem.now member goal.now node.now lens.now b.line)) }
    ensures weight { IfOk result (λ answer. IfSome answer
        (λ b. weight_of weights.now b.line ≡ b.weight)) }
    ensures most { IfOk result (λ answer. IfSome answer
        (λ b. IsMostWeight problem.now member goal.now node.now lens.now weights.now b.weight)) }
    ensures none { IfOk result (λ answer. IfNone answer
        (HasNoLine problem.now member goal.now node.now lens.now)) }
{
    best_from::<Brand>(
        alloc,
        problem,
        member,
        goal,
        node,
        lens,
        weights,
        Blank::new(1),
    )
}

/// A heaviest line of the member among those that pass the lens.
pub(crate) fn heaviest_line(
    alloc: Global,
    problem: &Problem,
    member: u32,
    goal: &Goal,
    node: &Node,
    lens: &Lens,
    weights: &[i64],
) -> Result<Option<Line>, Memory>
    requires member { member < length problem.now.base.members }
    requires goal { IsGoal problem.now goal.now }
    requires node { IsNode problem.now node.now }
    requires shape { IsLens problem.now member lens.now }
    requires per_pairing { length weights.now ≡ length problem.now.base.pairings }
    requires small { AreSmallWeights weights.now }
    ensures heaviest { IfOk result (λ answer. MatchOption answer
        (HasNoLine problem.now member goal.now node.now lens.now)
        (IsHeaviestLine problem.now member goal.now node.now lens.now weights.now)) }
{
    match best_line(alloc, problem, member, goal, node, lens, weights) {
        Ok(Some(priced)) => Ok(Some(priced.line)),
        Ok(None) => Ok(None),
        Err(BestFault::NoMemory) => Err(Memory::NoMemory),
        Err(BestFault::Lens(_why)) => unreachable!(),
    }
}
