//! Items on a member whose line is decided and does not serve.
ghost use Rattle.std.specs.Prelude.{◌≡◌, ◌<◌, ◌↔◌, length, All, IsTrue, OnOk, IfOk, IfErr};
ghost use Rattle.roster_model.specs.Closing.{IsMisfit};
ghost use Rattle.roster_model.specs.Goals.{IsGoal, IsNode};
ghost use Rattle.cert_checker.specs.Given.{IsAsked};
ghost use Rattle.cert_checker.specs.Choices.{AreChoices, FindsLine};
ghost use Rattle.cert_checker.specs.Faults.{FixedFails, IsBidMet, IsFloorMet, IsStepFault, Serves};

use crate::refusal::{ItemFault, StepFault};
use bid_score::{granted, score};
use duty_calendar::{List, Memory};
use line_legality::{Illegal, legal};
use roster_model::{Decision, Goal, Line, Node, Problem};
use std::alloc::Global;

/// What the decisions say of the member and of each pairing: whether the member flies it, where
/// that is decided.
fn choices_of(
    alloc: Global,
    decisions: &[Decision],
    member: u32,
    pairings: usize,
) -> Result<Vec<Option<bool>>, Memory>
    requires pairings { All (λ d. d.pairing < pairings) decisions.now }
    ensures choices { IfOk result (λ made. AreChoices decisions.now member pairings made.items) }
{
    let mut choices = vec![in alloc; None; pairings]?;
    for decision in decisions {
        if decision.member == member {
            choices[decision.pairing as usize] = Some(decision.flies);
        }
    }
    Ok(choices)
}

/// The pairings that the member is decided to fly, or the first pairing that is not decided.
fn decided_line(
    alloc: Global,
    problem: &Problem,
    node: &Node,
    member: u32,
) -> Result<Result<Line, u32>, Memory>
    requires node { IsNode problem.now node.now }
    ensures found { IfOk result (FindsLine problem.now node.now member) }
{
    let choices = choices_of(alloc, node.decisions(), member, problem.base.pairings.len())?;
    let mut flown = List::new(alloc);
    for (pairing, choice) in choices.iter().enumerate() {
        let Some(flies) = *choice else {
            return Ok(Err(pairing as u32));
        };
        if flies {
            if flown.push(pairing as u32).is_err() {
                return Err(Memory::NoMemory);
            }
        }
    }
    match Line::new(flown) {
        Some(line) => Ok(Ok(line)),
        None => unreachable!(),
    }
}

/// Whether the line reaches the member's floor.
pub(crate) fn is_floor_met(problem: &Problem, goal: &Goal, member: u32, line: &Line) -> bool
    requires member { member < length problem.now.base.members }
    requires pairings { All (λ p. p < length problem.now.base.pairings) line.now }
    ensures met { IsTrue result ↔ IsFloorMet problem.now goal.now member line.now }
{
    match goal.floors.as_slice().get(member as usize) {
        Some(floor) => *floor <= score(problem, member, line),
        None => true,
    }
}

/// Whether the line grants the goal's bid, where that is the member's.
pub(crate) fn is_bid_met(problem: &Problem, goal: &Goal, member: u32, line: &Line) -> bool
    requires goal { IsGoal problem.now goal.now }
    requires member { member < length problem.now.base.members }
    requires pairings { All (λ p. p < length problem.now.base.pairings) line.now }
    ensures met { IsTrue result ↔ IsBidMet problem.now goal.now member line.now }
{
    match goal.grant {
        Some(bid) => bid.member != member || granted(problem, member, bid.bid, line),
        None => true,
    }
}

/// Whether the line is legal and meets the goal.
fn serves(
    alloc: Global,
    problem: &Problem,
    goal: &Goal,
    member: u32,
    line: &Line,
) -> Result<bool, Memory>
    requires goal { IsGoal problem.now goal.now }
    requires member { member < length problem.now.base.members }
    requires pairings { All (λ p. p < length problem.now.base.pairings) line.now }
    ensures serves { IfOk result (λ b. IsTrue b → Serves problem.now goal.now member line.now) }
    ensures fails { IfOk result (λ b. Serves problem.now goal.now member line.now → IsTrue b) }
{
    if !is_floor_met(problem, goal, member, line) || !is_bid_met(problem, goal, member, line) {
        return Ok(false);
    }
    match legal(alloc, problem, member, line) {
        Ok(()) => Ok(true),
        Err(Illegal::NoMemory) => Err(Memory::NoMemory),
        Err(_) => Ok(false),
    }
}

/// Whether the member's line is decided, and is illegal or misses the goal.
pub(crate) fn fixed(
    alloc: Global,
    problem: &Problem,
    goal: &Goal,
    node: &Node,
    member: u32,
) -> Result<(), StepFault>
    requires asked { IsAsked problem.now goal.now node.now }
    ensures accepted { OnOk result (IsMisfit problem.now goal.now node.now member) }
    ensures fault { IfErr result (IsStepFault (FixedFails problem.now goal.now node.now member)) }
{
    if member as usize >= problem.base.members.len() {
        return Err(StepFault::Of(ItemFault::Index));
    }
    let line = match decided_line(alloc, problem, node, member)? {
        Ok(line) => line,
        Err(pairing) => return Err(StepFault::Of(ItemFault::Undecided(pairing))),
    };
    if serves(alloc, problem, goal, member, &line)? {
        return Err(StepFault::Of(ItemFault::Fits));
    }
    Ok(())
}
