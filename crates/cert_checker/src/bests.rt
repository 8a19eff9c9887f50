//! Best lines, by a caller that counts no steps.
ghost use Rattle.std.specs.Prelude.{◌≡◌, ◌<◌, IfErr, IfNone, IfOk, IfSome, IsErrOf, OnOk};
ghost use Rattle.roster_model.specs.Lenses.{HasNoLine, IsBestWeight, IsLens, IsLensLine, IsMostWeight};
ghost use Rattle.roster_model.specs.Weights.{weight_of};
ghost use Rattle.line_lens.specs.LensFaults.{IsLensFault};
ghost use Rattle.line_lens.specs.declared.lens_fault.LensFault.{LensFault as Why};
ghost use Rattle.term_lines.specs.Overs.{IfLine};
ghost use Rattle.cert_checker.specs.Given.{IsQuestion};
ghost use Rattle.cert_checker.specs.Faults.{IsStepFault};
ghost use Rattle.cert_checker.specs.Bests.{IsShapeFault, IsWithin};

use crate::refusal::{ItemFault, StepFault};
use label_lattice::Steps;
use line_generator::{BestFault, Over, PricedLine, heaviest, heaviest_in_turns, heaviest_over};
use roster_model::{Goal, Lens, Node, Problem};
use std::alloc::Global;
use std::marker::Brand;
use std::sync::ledger::{Blank, Ledger};

/// Less than any line weighs.
const LEAST: i64 = -1_288_490_188_201;

/// How many steps a first search may take where there is a guess, one without a guess, and one above a guess.
const SHORT: u64 = 5_000;

const BRIEF: u64 = 100_000;

const LONG: u64 = 50_000_000;

/// A search for a line that weighs more than this, in so many steps; at once or in turns.
#[derive(Clone, Copy)]
struct Trial {
    over: i64,
    limit: u64,
    in_turns: bool,
}

/// A line of the member that passes the lens, of the greatest weight, if it is found in a trial; the
/// steps are counted from the blank on.
fn line_above<L: Ledger>(
    alloc: Global,
    problem: &Problem,
    member: u32,
    goal: &Goal,
    node: &Node,
    lens: &Lens,
    weights: &[i64],
    trial: Trial,
    blank: Blank,
) -> Result<Over, BestFault>
    requires asked { IsQuestion problem.now member goal.now node.now lens.now weights.now }
    requires name { blank.name ≡ L.name }
    requires parts { blank.parts ≡ L.parts }
    requires share { 0 < blank.parts }
    ensures shape { OnOk result (IsLens problem.now member lens.now) }
    ensures line { IfOk result (λ answer. IfLine answer (λ b.
        IsLensLine problem.now member goal.now node.now lens.now b.line)) }
    ensures weight { IfOk result (λ answer. IfLine answer (λ b.
        weight_of weights.now b.line ≡ b.weight)) }
    ensures most { IfOk result (λ answer. IfLine answer (λ b.
        IsMostWeight problem.now member goal.now node.now lens.now weights.now b.weight)) }
{
    let Trial {
        over,
        limit,
        in_turns,
    } = trial;
    let mut steps: Steps<L> = Steps::new(blank);
    if in_turns {
        return heaviest_in_turns(
            alloc, problem, member, goal, node, lens, weights, over, limit, &mut steps,
        );
    }
    heaviest_over(
        alloc, problem, member, goal, node, lens, weights, over, limit, &mut steps,
    )
}

/// The same of a caller that counts no steps.
fn tried(
    alloc: Global,
    problem: &Problem,
    member: u32,
    goal: &Goal,
    node: &Node,
    lens: &Lens,
    weights: &[i64],
    trial: Trial,
) -> Option<PricedLine>
    requires asked { IsQuestion problem.now member goal.now node.now lens.now weights.now }
    ensures shape { IfSome result (λ b. IsLens problem.now member lens.now) }
    ensures line { IfSome result (λ b.
        IsLensLine problem.now member goal.now node.now lens.now b.line) }
    ensures weight { IfSome result (λ b. weight_of weights.now b.line ≡ b.weight) }
    ensures most { IfSome result (λ b.
        IsMostWeight problem.now member goal.now node.now lens.now weights.now b.weight) }
    ensures within { IfSome result (λ b. IsWithin 1288490188200 b.weight) }
{
    let blank = Blank::new(1);
    match line_above::<Brand>(
        alloc, problem, member, goal, node, lens, weights, trial, blank,
    ) {
        Ok(Over::Line(priced)) => Some(priced),
        Ok(Over::Nothing) | Ok(Over::Limit) | Err(_) => None,
    }
}

/// A line of the member that passes the lens, of the greatest weight, if a short search finds it.
pub(crate) fn soon_heaviest(
    alloc: Global,
    problem: &Problem,
    member: u32,
    goal: &Goal,
    node: &Node,
    lens: &Lens,
    weights: &[i64],
) -> Option<PricedLine>
    requires asked { IsQuestion problem.now member goal.now node.now lens.now weights.now }
    ensures best { IfSome result (λ b.
        IsBestWeight problem.now member goal.now node.now lens.now weights.now b.weight) }
{
    let short = Trial {
        over: LEAST,
        limit: SHORT,
        in_turns: false,
    };
    tried(alloc, problem, member, goal, node, lens, weights, short)
}

/// A line of the member that passes the lens, of the greatest weight, or nothing where no line
/// passes. Its steps are counted from the blank on.
fn best_line<L: Ledger>(
    alloc: Global,
    problem: &Problem,
    member: u32,
    goal: &Goal,
    node: &Node,
    lens: &Lens,
    weights: &[i64],
    blank: Blank,
) -> Result<Option<PricedLine>, BestFault>
    requires asked { IsQuestion problem.now member goal.now node.now lens.now weights.now }
    requires name { blank.name ≡ L.name }
    requires parts { blank.parts ≡ L.parts }
    requires share { 0 < blank.parts }
    ensures shape { OnOk result (IsLens problem.now member lens.now) }
    ensures fault { (why : Why) → IsErrOf result (BestFault.Lens why)
        → IsLensFault problem.now member lens.now why }
    ensures line { IfOk result (λ answer. IfSome answer (λ b.
        IsLensLine problem.now member goal.now node.now lens.now b.line)) }
    ensures weight { IfOk result (λ answer. IfSome answer (λ b.
        weight_of weights.now b.line ≡ b.weight)) }
    ensures most { IfOk result (λ answer. IfSome answer (λ b.
        IsMostWeight problem.now member goal.now node.now lens.now weights.now b.weight)) }
    ensures none { IfOk result (λ answer. IfNone answer
        (HasNoLine problem.now member goal.now node.now lens.now)) }
{
    let mut steps: Steps<L> = Steps::new(blank);
    heaviest(
        alloc, problem, member, goal, node, lens, weights, &mut steps,
    )
}

/// A line of the member that passes the lens, of the greatest weight, or nothing where no line
/// passes. Where a first search does not suffice and it weighs more than what is guessed, that is soon
/// found.
pub(crate) fn heaviest_line(
    alloc: Global,
    problem: &Problem,
    member: u32,
    goal: &Goal,
    node: &Node,
    lens: &Lens,
    weights: &[i64],
    guess: Option<i64>,
) -> Result<Option<PricedLine>, StepFault>
    requires asked { IsQuestion problem.now member goal.now node.now lens.now weights.now }
    ensures shape { OnOk result (IsLens problem.now member lens.now) }
    ensures fault { IfErr result (IsStepFault (IsShapeFault problem.now member lens.now)) }
    ensures best { IfOk result (λ answer. IfSome answer (λ b.
        IsBestWeight problem.now member goal.now node.now lens.now weights.now b.weight)) }
    ensures within { IfOk result (λ answer. IfSome answer (λ b. IsWithin 1288490188200 b.weight)) }
    ensures none { IfOk result (λ answer. IfNone answer
        (HasNoLine problem.now member goal.now node.now lens.now)) }
{
    let first = Trial {
        over: LEAST,
        limit: if guess.is_some() { SHORT } else { BRIEF },
        in_turns: false,
    };
    if let Some(priced) = tried(alloc, problem, member, goal, node, lens, weights, first) {
        return Ok(Some(priced));
    }
    if let Some(over) = guess {
        let above = Trial {
            over,
            limit: LONG,
            in_turns: true,
        };
        if let Some(priced) = tried(alloc, problem, member, goal, node, lens, weights, above) {
            return Ok(Some(priced));
        }
    }
    let blank = Blank::new(1);
    match best_line::<Brand>(alloc, problem, member, goal, node, lens, weights, blank) {
        Ok(Some(priced)) => Ok(Some(priced)),
        Ok(None) => Ok(None),
        Err(BestFault::Lens(why)) => Err(StepFault::Of(ItemFault::Lens(member, why))),
        Err(BestFault::NoMemory) => Err(StepFault::NoMemory),
    }
}

/// The greatest weight of the member's lines that pass the lens, or nothing where no line passes.
pub(crate) fn best_weight(
    alloc: Global,
    problem: &Problem,
    member: u32,
    goal: &Goal,
    node: &Node,
    lens: &Lens,
    weights: &[i64],
) -> Result<Option<i64>, StepFault>
    requires asked { IsQuestion problem.now member goal.now node.now lens.now weights.now }
    ensures shape { OnOk result (IsLens problem.now member lens.now) }
    ensures fault { IfErr result (IsStepFault (IsShapeFault problem.now member lens.now)) }
    ensures best { IfOk result (λ answer. IfSome answer
        (IsBestWeight problem.now member goal.now node.now lens.now weights.now)) }
    ensures within { IfOk result (λ answer. IfSome answer (IsWithin 1288490188200)) }
    ensures none { IfOk result (λ answer. IfNone answer
        (HasNoLine problem.now member goal.now node.now lens.now)) }
{
    match heaviest_line(alloc, problem, member, goal, node, lens, weights, None) {
        Ok(Some(priced)) => Ok(Some(priced.weight)),
        Ok(None) => Ok(None),
        Err(fault) => Err(fault),
    }
}
