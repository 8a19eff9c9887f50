//! The walk over the items of a closing proof.
ghost use Rattle.std.specs.Prelude.{◌≡◌, ◌^◌, ◌<◌, [], true, length, All, OnOk, IfOk, IfErr};
ghost use Rattle.roster_model.specs.Closing.{Closes};
ghost use Rattle.roster_model.specs.Goals.{IsGoal, IsNode};
ghost use Rattle.cert_checker.specs.Given.{HasFewParts, HasSmallWeights, IsAsked, IsCountableProof};
ghost use Rattle.cert_checker.specs.Faults.{Fails, IsStepFault};
ghost use Rattle.cert_checker.specs.Stops.{GoesOver, Stops};
ghost use Rattle.cert_checker.specs.Recalls.{IsRight};

use crate::count::count;
use crate::fixed::fixed;
use crate::noline::noline;
use crate::recall::Recall;
use crate::refusal::{No, StepFault};
use crate::split::split;
use crate::weights::outweighed;
use roster_model::{Goal, Item, Node, Problem};
use std::alloc::Global;

/// Goes over one item at an open node, and says whether a node is open behind it.
fn step(
    alloc: Global,
    problem: &Problem,
    recall: &mut Recall,
    goal: &Goal,
    node: &mut Node,
    item: &Item,
) -> Result<bool, StepFault>
    requires asked { IsAsked problem.now goal.now node.old }
    requires small { HasSmallWeights item.now }
    requires countable { HasFewParts item.now }
    requires right { IsRight problem.now recall.old }
    ensures goes { IfOk result (GoesOver problem.now goal.now node.old item.now node.new) }
    ensures node { IfOk result (λ is_open. is_open ≡ true → IsNode problem.now node.new) }
    ensures fault { IfErr result (IsStepFault (Fails problem.now goal.now node.old item.now)) }
    ensures right { IsRight problem.now recall.new }
{
    match item {
        Item::Split(member, pairing) => {
            split(problem, node, *member, *pairing)?;
            Ok(true)
        }
        Item::Count(pairing) => {
            count(problem, node, *pairing)?;
            Ok(node.turn())
        }
        Item::Fixed(member) => {
            fixed(alloc, problem, goal, node, *member)?;
            Ok(node.turn())
        }
        Item::NoLine(member, lens) => {
            noline(alloc, problem, goal, node, *member, lens)?;
            Ok(node.turn())
        }
        Item::Weights(weights, lenses) => {
            outweighed(
                alloc,
                problem,
                recall,
                goal,
                node,
                weights.as_slice(),
                lenses.as_slice(),
            )?;
            Ok(node.turn())
        }
    }
}

/// The first thing that is wrong with the items of a search, where they do not close the goal.
pub(crate) fn first_fault(
    alloc: Global,
    problem: &Problem,
    recall: &mut Recall,
    goal: &Goal,
    search: u32,
    items: &[Item],
) -> Result<(), No>
    requires goal { IsGoal problem.now goal.now }
    requires small { All HasSmallWeights items.now }
    requires countable { IsCountableProof items.now }
    requires right { IsRight problem.now recall.old }
    ensures closed { OnOk result (Closes problem.now goal.now [] items.now) }
    ensures fault { IfErr result (Stops problem.now goal.now search items.now) }
    ensures right { IsRight problem.now recall.new }
{
    let mut node = Node::new(alloc);
    let mut is_open = true;
    for (at, item) in items.iter().enumerate() {
        if !is_open {
            return Err(No::Left(search));
        }
        match step(alloc, problem, recall, goal, &mut node, item) {
            Ok(still_open) => is_open = still_open,
            Err(StepFault::Of(fault)) => return Err(No::Item(search, at as u32, fault)),
            Err(StepFault::NoMemory) => return Err(No::NoMemory),
        }
    }
    if is_open {
        return Err(No::Left(search));
    }
    Ok(())
}
