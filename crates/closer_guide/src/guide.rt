//! What makes guesses for a closer.
ghost use Rattle.std.specs.Prelude.{◌<◌, ◌≤◌, length};
ghost use Rattle.roster_model.specs.Goals.{IsBidOf, IsGoal};

use crate::guess::{FloorGuess, Guess};
use duty_calendar::Memory;
use roster_model::{Awarded, BidRef, Goal, Line, Node, Problem, Roster};
use std::alloc::Global;

/// Guesses at what closes or solves the nodes of a search, and at the floor or place to ask for next; it lives from one
/// node to the next. Nothing is promised of what it answers, and who asks tests it.
pub trait Guide: Drop {
    /// A guide for the problem.
    fn new(alloc: Global, problem: &Problem) -> Result<Self, Memory>;

    /// A guess at what there is to say of the node at the goal.
    fn guess(
        &mut self,
        alloc: Global,
        problem: &Problem,
        goal: &Goal,
        node: &Node,
    ) -> Result<Guess, Memory>
        requires goal { IsGoal problem.now goal.now };

    /// Remembers a roster that was found.
    fn note(&mut self, alloc: Global, problem: &Problem, roster: &Roster) -> Result<(), Memory>;

    /// Learns from the award of a problem that differs by little.
    fn learn(
        &mut self,
        alloc: Global,
        problem: &Problem,
        roster: &Roster,
        awarded: &Awarded,
    ) -> Result<(), Memory>;

    /// Keeps a line of the member that was found elsewhere.
    fn offer(
        &mut self,
        alloc: Global,
        problem: &Problem,
        member: u32,
        line: &Line,
    ) -> Result<(), Memory>;

    /// The floor to try next at the place behind these scores, above a score that is reached and below a floor that is not;
    /// and what was found of it on the way, so that nothing is looked for twice.
    fn propose(
        &mut self,
        alloc: Global,
        problem: &Problem,
        before: &[u32],
        score: u32,
        refuted: u32,
    ) -> Result<FloorGuess, Memory>
        requires place { length before.now < length problem.now.base.members };

    /// The place to be asked next for a bid, at `low` or above it and below `high`.
    fn next_place(
        &mut self,
        alloc: Global,
        problem: &Problem,
        scores: &[u32],
        bid: BidRef,
        low: u32,
        high: u32,
    ) -> Result<u32, Memory>
        requires scores { length scores.now ≤ length problem.now.base.members }
        requires bid { IsBidOf problem.now bid };
}
