//! The best line that passes a lens, by labels.
ghost use Rattle.std.specs.Prelude.{◌≡◌, ◌+◌, ◌*◌, ◌/◌, ◌^◌, ◌<◌, ◌≤◌, IfNone, IfOk, IfSome, IsErrOf, OnOk, length};
ghost use Rattle.roster_model.specs.Goals.{IsGoal, IsNode};
ghost use Rattle.roster_model.specs.Legality.{high_of};
ghost use Rattle.roster_model.specs.Lenses.{HasNoLine, IsLens, IsLensLine, IsMostWeight, IsStandardLens};
ghost use Rattle.roster_model.specs.Weights.{AreSmallWeights, weight_of};
ghost use Rattle.line_lens.specs.LensFaults.{IsLensFault};
ghost use Rattle.line_lens.specs.LineGraphs.{IsHourLens};
ghost use Rattle.line_lens.specs.declared.lens_fault.LensFault.{LensFault as Why};

use crate::best_fault::BestFault;
use crate::greatest::By;
use crate::question::Question;
use label_lattice::Steps;
use line_lens::check_lens;
use roster_model::{Goal, Lens, Node, Problem};
use std::alloc::Global;
use std::sync::ledger::Ledger;
use term_lines::{PricedLine, TermQuestion};

/// A line that passes the lens and meets goal and node, of the greatest weight, or nothing where no line passes. The
/// pairings' weights are in the order of the pairings. Each extension of a label is one step.
pub fn best<L: Ledger>(
    alloc: Global,
    problem: &Problem,
    member: u32,
    goal: &Goal,
    node: &Node,
    lens: &Lens,
    weights: &[i64],
    steps: &mut Steps<L>,
) -> Result<Option<PricedLine>, BestFault>
    requires member_in_range { member < length problem.now.base.members }
    requires goal { IsGoal problem.now goal.now }
    requires node { IsNode problem.now node.now }
    requires listed { length lens.now.windows < 2 ^ 32 }
    requires per_pairing { length weights.now ≡ length problem.now.base.pairings }
    requires small { AreSmallWeights weights.now }
    ensures shape { OnOk result (IsLens problem.now member lens.now) }
    ensures fault { (why : Why) → IsErrOf result (BestFault.Lens why)
        → IsLensFault problem.now member lens.now why }
    ensures line { IfOk result (λ answer. IfSome answer
        (λ b. IsLensLine problem.now member goal.now node.now lens.now b.line)) }
    ensures weight { IfOk result (λ answer. IfSome answer
        (λ b. weight_of weights.now b.line ≡ b.weight)) }
    ensures most { IfOk result (λ answer. IfSome answer
        (λ b. IsMostWeight problem.now member goal.now node.now lens.now weights.now b.weight)) }
    ensures none { IfOk result (λ answer. IfNone answer
        (HasNoLine problem.now member goal.now node.now lens.now)) }
    ensures steps { IsStandardLens problem.now member lens.now
        → steps.new ≤ steps.old + 256 * (length problem.now.base.pairings + 1) ^ 3
        * (high_of problem.now member / 60 + 1) }
    ensures fewer { IsHourLens lens.now → steps.new
        ≤ steps.old + 6 * (256 * (length problem.now.base.pairings + 1)
        * (high_of problem.now member / 60 + 1) * (2 * length problem.now.base.pairings + 1)) }
{
    if let Err(why) = check_lens(problem, member, lens) {
        return Err(BestFault::Lens(why));
    }
    let asked = Question {
        problem,
        member,
        goal,
        node,
        lens,
        weights,
    };
    if lens.whole {
        return Ok(asked.greatest_of_classes(alloc, By::Labels, steps)?);
    }
    let terms = asked.plain_terms();
    let plain = TermQuestion {
        problem,
        member,
        terms: &terms,
        node,
        lens,
        weights,
    };
    Ok(plain.best(alloc, steps)?)
}
