//! Pairings that cannot have their crews.
ghost use Rattle.std.specs.Prelude.{◌≡◌, ◌≤◌, ◌<◌, ◌↔◌, IsTrue, MatchOption, length};
ghost use Rattle.roster_model.specs.Decided.{is_decided_as};
ghost use Rattle.roster_model.specs.Rosters.{need_of};
ghost use Rattle.roster_model.specs.Closing.{decided_crew, possible_crew, IsMiscrewed};
ghost use Rattle.weight_certificates.specs.Leaves.{HaveCrews};

use roster_model::{Decision, Node, Problem};

/// How many members the pairing needs.
pub(crate) fn need_of(problem: &Problem, pairing: u32) -> u32
    requires pairing { pairing < length problem.now.base.pairings }
    ensures need { result ≡ need_of problem.now pairing }
{
    problem.base.pairings.as_slice()[pairing as usize].need
}

/// Whether one of the decisions is that the member flies the pairing, or that the member does not.
fn has(decisions: &[Decision], member: u32, pairing: u32, flies: bool) -> bool
    ensures value { result ≡ is_decided_as decisions.now member pairing flies }
{
    decisions.iter().any(|d| d.member == member && d.pairing == pairing && d.flies == flies)
}

/// Whether the node has the decision that the member flies the pairing, or that the member does not.
#[tactic(auto, using(line_bounds::proofs::Turned::is_decided_as_reverse))]
pub(crate) fn is_decided_as(node: &Node, member: u32, pairing: u32, flies: bool) -> bool
    ensures value { result ≡ is_decided_as node.now member pairing flies }
{
    has(node.decisions(), member, pairing, flies)
}

/// How many members are decided to fly the pairing.
#[tactic(auto, using(duty_calendar::proofs::Counting::counting))]
fn decided_crew(problem: &Problem, node: &Node, pairing: u32) -> u32
    ensures value { result ≡ decided_crew problem.now node.now pairing }
{
    let mut count = 0;
    for member in 0..problem.base.members.len() as u32 {
        if is_decided_as(node, member, pairing, true) {
            count += 1;
        }
    }
    count
}

/// How many members are not decided against it.
#[tactic(auto, using(duty_calendar::proofs::Counting::counting))]
fn possible_crew(problem: &Problem, node: &Node, pairing: u32) -> u32
    ensures value { result ≡ possible_crew problem.now node.now pairing }
{
    let mut count = 0;
    for member in 0..problem.base.members.len() as u32 {
        if !is_decided_as(node, member, pairing, false) {
            count += 1;
        }
    }
    count
}

/// Whether more members than needed are decided to fly the pairing, or fewer than needed are left for it.
fn is_miscrewed(problem: &Problem, node: &Node, pairing: u32) -> bool
    requires pairing { pairing < length problem.now.base.pairings }
    ensures miscrewed { IsTrue result ↔ IsMiscrewed problem.now node.now pairing }
{
    let need = need_of(problem, pairing);
    need < decided_crew(problem, node, pairing) || possible_crew(problem, node, pairing) < need
}

/// The first pairing that cannot have its crew.
pub(crate) fn miscrewed(problem: &Problem, node: &Node) -> Option<u32>
    ensures first { MatchOption result (HaveCrews problem.now node.now)
        (IsMiscrewed problem.now node.now) }
{
    for pairing in 0..problem.base.pairings.len() as u32 {
        if is_miscrewed(problem, node, pairing) {
            return Some(pairing);
        }
    }
    None
}
