//! What a closer asks of the guide by mixes.

use crate::guess::with_lines;
use crate::guide::MixGuide;
use closer_guide::{FloorGuess, Guess, Guide};
use duty_calendar::Memory;
use roster_model::{Awarded, BidRef, Goal, Line, Node, Problem, Roster};
use std::alloc::Global;

impl Guide for MixGuide {
    fn new(alloc: Global, problem: &Problem) -> Result<MixGuide, Memory> {
        MixGuide::begun(alloc, problem)
    }

    fn guess(
        &mut self,
        alloc: Global,
        problem: &Problem,
        goal: &Goal,
        node: &Node,
    ) -> Result<Guess, Memory> {
        let guess = self.guess_at(alloc, problem, goal, node)?;
        with_lines(alloc, problem, &self.finder.kept, goal, node, guess)
    }

    fn note(&mut self, alloc: Global, problem: &Problem, roster: &Roster) -> Result<(), Memory> {
        self.keep_roster(alloc, problem, roster)
    }

    fn learn(
        &mut self,
        alloc: Global,
        problem: &Problem,
        roster: &Roster,
        awarded: &Awarded,
    ) -> Result<(), Memory> {
        self.learn_award(alloc, problem, roster, awarded)
    }

    fn offer(
        &mut self,
        alloc: Global,
        problem: &Problem,
        member: u32,
        line: &Line,
    ) -> Result<(), Memory> {
        self.keep_line(alloc, problem, member, line)
    }

    fn propose(
        &mut self,
        alloc: Global,
        problem: &Problem,
        before: &[u32],
        score: u32,
        refuted: u32,
    ) -> Result<FloorGuess, Memory> {
        self.proposal(alloc, problem, before, score, refuted)
    }

    fn next_place(
        &mut self,
        alloc: Global,
        problem: &Problem,
        scores: &[u32],
        bid: BidRef,
        low: u32,
        high: u32,
    ) -> Result<u32, Memory> {
        self.place(alloc, problem, scores, bid, low, high)
    }
}
