//! Pairs to branch on.
ghost use Rattle.std.specs.Prelude.{◌≡◌, ◌<◌, ◌↔◌, IsTrue, MatchOption, length};
ghost use Rattle.roster_model.specs.Closing.{IsDecidedLine, IsOpenPair};
ghost use Rattle.weight_certificates.specs.Leaves.{IsAllDecided, IsOpenFor};

use roster_model::{Node, Problem};

/// Whether the pair is one of the problem, and undecided.
fn is_open_pair(problem: &Problem, node: &Node, member: u32, pairing: u32) -> bool
    ensures pair { IsTrue result ↔ IsOpenPair problem.now node.now member pairing }
{
    (member as usize) < problem.base.members.len()
        && (pairing as usize) < problem.base.pairings.len()
        && !node.is_decided(member, pairing)
}

/// The first pairing that is not decided for the member.
fn first_open_pairing(problem: &Problem, node: &Node, member: u32) -> Option<u32>
    ensures first { MatchOption result (IsDecidedLine problem.now node.now member)
        (IsOpenFor problem.now node.now member) }
{
    for pairing in 0..problem.base.pairings.len() as u32 {
        if !node.is_decided(member, pairing) {
            return Some(pairing);
        }
    }
    None
}

/// The first pair that is not decided.
fn first_open_pair(problem: &Problem, node: &Node) -> Option<(u32, u32)>
    ensures pair { MatchOption result (IsAllDecided problem.now node.now)
        (λ pair. IsOpenPair problem.now node.now pair.0 pair.1) }
{
    for member in 0..problem.base.members.len() as u32 {
        if let Some(pairing) = first_open_pairing(problem, node, member) {
            return Some((member, pairing));
        }
    }
    None
}

/// A pair to branch on: the preferred one where it is undecided, else the first that is.
pub(crate) fn branch_pair(
    problem: &Problem,
    node: &Node,
    preferred: Option<(u32, u32)>,
) -> Option<(u32, u32)>
    ensures pair { MatchOption result (IsAllDecided problem.now node.now)
        (λ pair. IsOpenPair problem.now node.now pair.0 pair.1) }
{
    if let Some((member, pairing)) = preferred {
        if is_open_pair(problem, node, member, pairing) {
            return Some((member, pairing));
        }
    }
    first_open_pair(problem, node)
}
