//! What closes nodes.
ghost use Rattle.std.specs.Prelude.{◌≡◌, ◌↔◌, ◌<◌, ℕ, [], IfOk, length};
ghost use Rattle.std.specs.Option.{ForSome};
ghost use Rattle.roster_model.specs.Awards.{floor_goal};
ghost use Rattle.roster_model.specs.declared.problem.Problem.{Problem};
ghost use Rattle.roster_model.specs.Goals.{IsBidOf, IsGoal, IsNode};
ghost use Rattle.branch_log.specs.Honest.{IsHonest};

use duty_calendar::Memory;
use roster_model::{BidRef, Goal, Item, Node, Problem, Roster};
use std::alloc::Global;

/// What a closer says of a node.
#[derive(Drop, PartialEq, Eq, Debug)]
pub enum Verdict {
    /// This leaf is accepted there.
    Closed(Item),
    /// This roster is complete, meets the goal and obeys the node.
    Whole(Roster),
    /// The node is open, and this member and pairing are a pair to branch on.
    Branch(u32, u32),
}

/// A floor to be tried next, and what there is to say of the empty node of its goal, where that is known.
#[derive(Drop, PartialEq, Eq, Debug)]
pub struct Proposal {
    pub floor: u32,
    pub verdict: Option<Verdict>,
}

/// Closes nodes, or shows that they are open.
pub trait Closer {
    /// How many rounds show that a node is open.
    ghost rounds: { Self → ℕ };

    /// Which problems the closer was made for.
    ghost fits: { Self → Problem → Type 0 };

    /// What there is to say of the node at the goal.
    fn close(
        &mut self,
        alloc: Global,
        problem: &Problem,
        goal: &Goal,
        node: &Node,
    ) -> Result<Verdict, Memory>
        requires fits { fits self.old problem.now }
        requires goal { IsGoal problem.now goal.now }
        requires node { IsNode problem.now node.now }
        ensures rounds { rounds self.new ≡ rounds self.old }
        ensures fits { (other : Problem) → fits self.new other ↔ fits self.old other }
        ensures honest { IfOk result (IsHonest problem.now (rounds self.old) goal.now node.now) };

    /// Which floor is to be tried next at the place behind these scores, above a score that is reached and below a floor
    /// that is not: a guess, which who asks brings into that range. The one in the middle, if nothing better is known. A
    /// verdict on it is as honest as one of `close`.
    fn propose(
        &mut self,
        alloc: Global,
        problem: &Problem,
        before: &[u32],
        score: u32,
        refuted: u32,
    ) -> Result<Proposal, Memory>
        requires fits { fits self.old problem.now }
        requires place { length before.now < length problem.now.base.members }
        ensures rounds { rounds self.new ≡ rounds self.old }
        ensures fits { (other : Problem) → fits self.new other ↔ fits self.old other }
        ensures honest { IfOk result (λ p. ForSome p.verdict
            (IsHonest problem.now (rounds self.old) (floor_goal before.now p.floor) [])) }
    {
        let _ = alloc;
        let _ = problem;
        let _ = before;
        Ok(Proposal {
            floor: score.saturating_add(refuted.saturating_sub(score) / 2),
            verdict: None,
        })
    }

    /// Which place is to be asked next for a bid, at `low` or above it and below `high`: a guess, which who asks brings
    /// into that range. The one in the middle, if nothing better is known.
    fn next_place(
        &mut self,
        alloc: Global,
        problem: &Problem,
        scores: &[u32],
        bid: BidRef,
        low: u32,
        high: u32,
    ) -> Result<u32, Memory>
        requires fits { fits self.old problem.now }
        requires scores { length scores.now ≡ length problem.now.base.members }
        requires bid { IsBidOf problem.now bid }
        ensures rounds { rounds self.new ≡ rounds self.old }
        ensures fits { (other : Problem) → fits self.new other ↔ fits self.old other }
    {
        let _ = alloc;
        let _ = problem;
        let _ = scores;
        let _ = bid;
        Ok(low.saturating_add(high.saturating_sub(low) / 2))
    }
}
