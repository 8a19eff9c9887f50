//! Items that split a node.
ghost use Rattle.std.specs.Prelude.{◌≡◌, true, OnOk, IfErr};
ghost use Rattle.roster_model.specs.Decided.{decided};
ghost use Rattle.roster_model.specs.Closing.{IsOpenPair};
ghost use Rattle.cert_checker.specs.Faults.{SplitFails, IsStepFault};

use crate::refusal::{ItemFault, StepFault};
use roster_model::{Decision, Node, NodeFault, Problem};

/// Goes on to the part in which the member flies the pairing, where the pair is not decided.
pub(crate) fn split(
    problem: &Problem,
    node: &mut Node,
    member: u32,
    pairing: u32,
) -> Result<(), StepFault>
    ensures is_open { OnOk result (IsOpenPair problem.now node.old member pairing) }
    ensures flown { OnOk result (node.new ≡ decided node.old member pairing true) }
    ensures fault { IfErr result (IsStepFault (SplitFails problem.now node.old member pairing)) }
{
    if member as usize >= problem.base.members.len()
        || pairing as usize >= problem.base.pairings.len()
    {
        return Err(StepFault::Of(ItemFault::Index));
    }
    match node.decide(Decision {
        member,
        pairing,
        flies: true,
    }) {
        Ok(()) => Ok(()),
        Err(NodeFault::AlreadyDecided) => Err(StepFault::Of(ItemFault::Decided)),
        Err(NodeFault::NoMemory) => Err(StepFault::NoMemory),
    }
}
