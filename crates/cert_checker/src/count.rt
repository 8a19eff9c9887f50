//! Items on a pairing that cannot have its crew.
ghost use Rattle.std.specs.Prelude.{◌≡◌, ◌==◌, ◌&&◌, count_by, OnOk, IfErr};
ghost use Rattle.roster_model.specs.Decided.{is_same};
ghost use Rattle.roster_model.specs.Goals.{IsNode};
ghost use Rattle.roster_model.specs.Closing.{decided_crew, possible_crew, IsMiscrewed};
ghost use Rattle.cert_checker.specs.Faults.{CountFails};

use crate::refusal::ItemFault;
use roster_model::{Decision, Node, Problem};

/// How many members are decided to fly a pairing, and how many are not decided against it.
#[derive(Clone, Copy)]
struct Crew {
    decided: usize,
    possible: usize,
}

/// How many of the decisions are that a member flies the pairing, or that one does not.
fn count_on(decisions: &[Decision], pairing: u32, flies: bool) -> usize
    ensures { result ≡ count_by (λ d. d.pairing == pairing && is_same d.flies flies) decisions.now }
{
    decisions
        .iter()
        .filter(|d| d.pairing == pairing && d.flies == flies)
        .count()
}

/// The crew of a pairing. No pair is decided twice, so the decisions on the pairing are of as many
/// members.
fn crew_of(problem: &Problem, node: &Node, pairing: u32) -> Crew
    requires node { IsNode problem.now node.now }
    ensures decided { result.decided ≡ decided_crew problem.now node.now pairing }
    ensures possible { result.possible ≡ possible_crew problem.now node.now pairing }
{
    let decisions = node.decisions();
    Crew {
        decided: count_on(decisions, pairing, true),
        possible: problem.base.members.len() - count_on(decisions, pairing, false),
    }
}

/// Whether more members than needed are decided to fly the pairing, or fewer than needed are left
/// for it.
pub(crate) fn count(problem: &Problem, node: &Node, pairing: u32) -> Result<(), ItemFault>
    requires node { IsNode problem.now node.now }
    ensures accepted { OnOk result (IsMiscrewed problem.now node.now pairing) }
    ensures fault { IfErr result (CountFails problem.now node.now pairing) }
{
    match problem.base.pairings.as_slice().get(pairing as usize) {
        None => Err(ItemFault::Index),
        Some(wanted) => {
            let need = wanted.need as usize;
            let crew = crew_of(problem, node, pairing);
            if need < crew.decided || crew.possible < need {
                Ok(())
            } else {
                Err(ItemFault::Covered)
            }
        }
    }
}
