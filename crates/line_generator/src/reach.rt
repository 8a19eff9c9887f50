//! Members whose bids weigh less together than a goal asks of them.
ghost use Rattle.std.specs.Prelude.{◌≡◌, ◌<◌, ◌≤◌, ◌^◌, ◌↔◌, ℕ, List, IsTrue, Some, length, slice_get, sum_by, true};
ghost use Rattle.std.specs.Option.{ForSome};
ghost use Rattle.roster_model.specs.Lawful.{bids_weight};
ghost use Rattle.roster_model.specs.Lenses.{HasNoLine};
ghost use Rattle.roster_model.specs.declared.node.Decision.{Decision};
ghost use Rattle.roster_model.specs.declared.proof.Lens.{Lens as LensOf};

use roster_model::{Bid, Goal, Problem};

/// What the bids weigh together.
fn total(bids: &[Bid]) -> u32
    requires fits { sum_by (λ b. b.weight) bids.now < 2 ^ 32 }
    ensures total { result ≡ sum_by (λ b. b.weight) bids.now }
{
    bids.iter().map(|bid| bid.weight).sum()
}

/// What the bids of the member weigh together.
pub(crate) fn bids_weight(problem: &Problem, member: u32) -> u32
    requires member { member < length problem.now.base.members }
    ensures weight { result ≡ bids_weight problem.now member }
{
    let lists = problem.bids.as_slice();
    total(lists[member as usize].as_slice())
}

/// The goal asks no more of the member's score.
fn is_within(goal: &Goal, member: u32, most: u32) -> bool
    ensures within { (result ≡ true) ↔ ForSome (slice_get goal.now.floors member) (λ f. f ≤ most) }
{
    match goal.floors.as_slice().get(member as usize) {
        Some(floor) => *floor <= most,
        None => true,
    }
}

/// The goal asks more of the member's score than the member's bids weigh together, so that no line comes to it.
pub fn is_out_of_reach(problem: &Problem, member: u32, goal: &Goal) -> bool
    requires member { member < length problem.now.base.members }
    ensures none { IsTrue result → (node : List Decision) (lens : LensOf)
        → HasNoLine problem.now member goal.now node lens }
    ensures yes { (floor : ℕ) → slice_get goal.now.floors member ≡ Some floor
        → bids_weight problem.now member < floor → IsTrue result }
{
    let most = bids_weight(problem, member);
    !is_within(goal, member, most)
}
