//! Items on a member of whom no line passes a lens.
ghost use Rattle.std.specs.Prelude.{◌≡◌, length, IfErr, IfOk, OnOk};
ghost use Rattle.roster_model.specs.Closing.{IsLineless};
ghost use Rattle.roster_model.specs.Weights.{AreSmallWeights};
ghost use Rattle.cert_checker.specs.Given.{HasFewWindows, IsAsked};
ghost use Rattle.cert_checker.specs.Faults.{IsStepFault, NoLineFails};

use crate::bests::best_weight;
use crate::refusal::{ItemFault, StepFault};
use duty_calendar::Memory;
use roster_model::{Goal, Lens, Node, Problem};
use std::alloc::Global;

/// So many weights of 0.
fn no_weights(alloc: Global, count: usize) -> Result<Vec<i64>, Memory>
    ensures count { IfOk result (λ weights. length weights.items ≡ count) }
    ensures small { IfOk result (λ weights. AreSmallWeights weights.items) }
{
    let mut weights = Vec::new(alloc);
    for _pairing in 0..count {
        weights.push(0)?;
    }
    Ok(weights)
}

/// Whether the lens has its shape and no line of the member passes it.
pub(crate) fn noline(
    alloc: Global,
    problem: &Problem,
    goal: &Goal,
    node: &Node,
    member: u32,
    lens: &Lens,
) -> Result<(), StepFault>
    requires asked { IsAsked problem.now goal.now node.now }
    requires listed { HasFewWindows lens.now }
    ensures accepted { OnOk result (IsLineless problem.now goal.now node.now member lens.now) }
    ensures fault { IfErr result (IsStepFault
        (NoLineFails problem.now goal.now node.now member lens.now)) }
{
    if member as usize >= problem.base.members.len() {
        return Err(StepFault::Of(ItemFault::Index));
    }
    let weights = no_weights(alloc, problem.base.pairings.len())?;
    match best_weight(alloc, problem, member, goal, node, lens, &weights)? {
        Some(_weight) => Err(StepFault::Of(ItemFault::Line(member))),
        None => Ok(()),
    }
}
