//! The closer by rounds.
ghost use Rattle.weight_certificates.specs.Setup.{IsMadeFor};

use crate::closing::{close_node, test_floor};
use branch_log::{Closer, FreshCloser, Proposal, Verdict};
use closer_guide::Guide;
use duty_calendar::Memory;
use roster_model::{Awarded, BidRef, Goal, Line, Node, Problem, Roster};
use std::alloc::Global;
use std::marker::Model;

/// Closes nodes of a problem by what its guide guesses, where that passes its test, and else by rounds of heaviest
/// lines. Contracts see the number of rounds, and those of the members and pairings of the problems that it fits.
#[derive(Drop)]
pub struct Rounds<G> {
    rounds: u32,
    members: usize,
    pairings: usize,
    guide: G,
}

impl<G> Model for Rounds<G> {
    ghost use Rattle.std.specs.Prelude.{◌≤◌};
    ghost use Rattle.weight_certificates.specs.Setup.{Setup};

    ghost Value = { Setup };

    ghost view = { λ r. record { rounds = r.rounds; members = r.members; pairings = r.pairings } };

    ghost invariant = { λ r. (1 ≤ r.rounds) × (r.rounds ≤ 2000) };
}

impl<G: Guide> Closer for Rounds<G> {
    ghost rounds = { λ r. r.rounds };

    ghost fits = { IsMadeFor };

    fn close(
        &mut self,
        alloc: Global,
        problem: &Problem,
        goal: &Goal,
        node: &Node,
    ) -> Result<Verdict, Memory> {
        close_node(
            alloc,
            problem,
            goal,
            node,
            self.rounds,
            &mut self.guide,
            None,
        )
    }

    fn propose(
        &mut self,
        alloc: Global,
        problem: &Problem,
        before: &[u32],
        score: u32,
        refuted: u32,
    ) -> Result<Proposal, Memory> {
        let guide = &mut self.guide;
        let proposed = guide.propose(alloc, problem, before, score, refuted)?;
        test_floor(alloc, problem, before, proposed, self.rounds, guide)
    }

    fn next_place(
        &mut self,
        alloc: Global,
        problem: &Problem,
        scores: &[u32],
        bid: BidRef,
        low: u32,
        high: u32,
    ) -> Result<u32, Memory> {
        self.guide
            .next_place(alloc, problem, scores, bid, low, high)
    }
}

impl<G: Guide> FreshCloser for Rounds<G> {
    fn new(alloc: Global, problem: &Problem, count: u32) -> Result<Rounds<G>, Memory> {
        Ok(Rounds {
            rounds: count,
            members: problem.base.members.len(),
            pairings: problem.base.pairings.len(),
            guide: G::new(alloc, problem)?,
        })
    }

    fn learn(
        &mut self,
        alloc: Global,
        problem: &Problem,
        roster: &Roster,
        awarded: &Awarded,
    ) -> Result<(), Memory> {
        self.guide.learn(alloc, problem, roster, awarded)
    }

    fn offer(
        &mut self,
        alloc: Global,
        problem: &Problem,
        member: u32,
        line: &Line,
    ) -> Result<(), Memory> {
        self.guide.offer(alloc, problem, member, line)
    }
}
