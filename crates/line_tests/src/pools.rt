//! A line that is kept once, and weighed where it may be flown.
ghost use Rattle.std.specs.Prelude.{◌≡◌, ◌<◌, IfOk, length};
ghost use Rattle.roster_model.specs.Goals.{IsNode};

use column_pool::Pool;
use duty_calendar::Memory;
use june_months::{first_line, smallest};
use roster_model::{Decision, Goal, Node, NodeFault, Problem};
use std::alloc::Global;

/// The decision that the first member does not fly the first pairing, and what a second one on the
/// pair answers.
#[tactic(auto, using(crate::proofs::Nodes::one_decision))]
fn grounded(alloc: Global, problem: &Problem) -> Result<(Node, bool), Memory>
    requires one_member { length problem.now.base.members ≡ 1 }
    requires one_pairing { length problem.now.base.pairings ≡ 1 }
    ensures node { IfOk result (λ answer. IsNode problem.now answer.0) }
{
    let mut node = Node::new(alloc);
    let decision = Decision {
        member: 0,
        pairing: 0,
        flies: false,
    };
    if node.decide(decision).is_err() {
        return Err(Memory::NoMemory);
    }
    let again = node.decide(decision);
    Ok((node, matches!(again, Err(NodeFault::AlreadyDecided))))
}

/// Offers the line of the first pairing to the first member, and says whether the pool took it.
fn offer_first(alloc: Global, pool: &mut Pool) -> Result<bool, Memory>
    requires some_member { 0 < length pool.old.lines }
    requires some_pairing { 0 < pool.old.pairings }
    ensures members { length pool.new.lines ≡ length pool.old.lines }
    ensures pairings { pool.new.pairings ≡ pool.old.pairings }
{
    let line = first_line(alloc)?;
    Ok(pool.offer(0, line).is_ok())
}

/// The heaviest kept line of the first member where its pairing weighs 5.
fn heaviest(
    alloc: Global,
    problem: &Problem,
    pool: &Pool,
    node: &Node,
) -> Result<Option<u32>, Memory>
    requires members { length problem.now.base.members ≡ length pool.now.lines }
    requires pairings { length problem.now.base.pairings ≡ pool.now.pairings }
    requires one_member { length problem.now.base.members ≡ 1 }
    requires one_pairing { length problem.now.base.pairings ≡ 1 }
    requires node { IsNode problem.now node.now }
{
    let goal = Goal::new(alloc);
    pool.heaviest(alloc, problem, 0, &goal, node, &[5])
}

#[test]
fn a_line_is_kept_once(rt: HostRuntime) -> Result<(), Memory> {
    let alloc = rt.alloc();
    let problem = smallest(alloc)?;
    let mut pool = Pool::new(alloc, &problem)?;
    assert!(rt; offer_first(alloc, &mut pool)?);
    assert!(rt; offer_first(alloc, &mut pool)?);
    let kept = first_line(alloc)?;
    assert!(rt; pool.get(0, 0) == Some(&kept));
    assert!(rt; pool.get(0, 1).is_none());
    let open = Node::new(alloc);
    assert!(rt; heaviest(alloc, &problem, &pool, &open)? == Some(0));
    let (node, is_refused) = grounded(alloc, &problem)?;
    assert!(rt; is_refused);
    assert!(rt; heaviest(alloc, &problem, &pool, &node)?.is_none());
    Ok(())
}
