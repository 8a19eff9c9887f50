//! Lines above a bound of a member whose decisions are a row (exact pricing); what such a search asks for is tested here.
ghost use Rattle.std.specs.Prelude.{◌≡◌, ◌<◌, ◌^◌, IfOk, length};
ghost use Rattle.roster_model.specs.Goals.{IsGoal, IsNode};
ghost use Rattle.roster_model.specs.Weights.{AreSmallWeights};

use duty_calendar::Memory;
use flat_search::{Pricing, Row, is_member, number};
use label_lattice::Steps;
use line_generator::{BestFault, Over, are_small, best_in_turns};
use roster_model::{Decision, Lens, Node, NodeFault, Problem};
use std::alloc::Global;
use std::marker::Brand;
use std::sync::ledger::{Blank, Ledger};

/// Decides a pairing of the row, if it is one.
fn decide(
    problem: &Problem,
    node: &mut Node,
    member: u32,
    row: &Row,
    pairing: u32,
) -> Result<(), Memory>
    requires member { member < length problem.now.base.members }
    requires pairing { pairing < length problem.now.base.pairings }
    requires node { IsNode problem.now node.old }
    ensures node { IsNode problem.now node.new }
{
    let _ = problem;
    let flies = row.flown.contains(pairing as usize);
    if !flies && !row.barred.contains(pairing as usize) {
        return Ok(());
    }
    let decision = Decision {
        member,
        pairing,
        flies,
    };
    match node.decide(decision) {
        Err(NodeFault::NoMemory) => Err(Memory::NoMemory),
        Ok(()) | Err(NodeFault::AlreadyDecided) => Ok(()),
    }
}

/// The node of the member's decisions alone.
fn row_node(alloc: Global, problem: &Problem, member: u32, row: &Row) -> Result<Node, Memory>
    requires member { member < length problem.now.base.members }
    ensures node { IfOk result (IsNode problem.now) }
{
    let mut node = Node::new(alloc);
    for pairing in 0..problem.base.pairings.len() as u32 {
        decide(problem, &mut node, member, row, pairing)?;
    }
    Ok(node)
}

/// A line of the member above the bound that passes the lens, meets the goal and obeys the node; the steps are counted from a blank
/// on.
fn over_from<L: Ledger>(
    alloc: Global,
    problem: &Problem,
    asked: Pricing,
    member: u32,
    node: &Node,
    lens: &Lens,
    limit: u64,
    blank: Blank,
) -> Result<Over, BestFault>
    requires goal { IsGoal problem.now asked.goal.now }
    requires member { member < length problem.now.base.members }
    requires node { IsNode problem.now node.now }
    requires listed { length lens.now.windows < 2 ^ 32 }
    requires per_pairing { length asked.weights.now ≡ length problem.now.base.pairings }
    requires small { AreSmallWeights asked.weights.now }
    requires name { blank.name ≡ L.name }
    requires parts { blank.parts ≡ L.parts }
    requires share { 0 < blank.parts }
{
    let Pricing {
        goal,
        weights,
        over,
        ..
    } = asked;
    let mut steps: Steps<L> = Steps::new(blank);
    best_in_turns(
        alloc, problem, member, goal, node, lens, weights, over, limit, &mut steps,
    )
}

/// A line of the member above the bound that passes the lens, meets the goal and obeys the row.
pub(crate) fn row_over(
    alloc: Global,
    problem: &Problem,
    asked: Pricing,
    lens: &Lens,
    limit: u64,
) -> Result<Over, Memory>
    requires goal { IsGoal problem.now asked.goal.now }
{
    let member = number(asked.member);
    let weights = asked.weights;
    let is_told = is_member(problem, member)
        && weights.len() == problem.base.pairings.len()
        && lens.windows.len() <= 16
        && are_small(weights);
    if !is_told {
        return Ok(Over::Limit);
    }
    let node = row_node(alloc, problem, member, asked.row)?;
    let blank = Blank::new(1);
    match over_from::<Brand>(alloc, problem, asked, member, &node, lens, limit, blank) {
        Ok(answer) => Ok(answer),
        Err(BestFault::NoMemory) => Err(Memory::NoMemory),
        Err(BestFault::Lens(_why)) => Ok(Over::Limit),
    }
}
