//! A guide that guesses nothing, for tests of what stands above one.
#![tactic(auto)]

use closer_guide::{FloorGuess, Guess, Guide};
use duty_calendar::Memory;
use roster_model::{Awarded, BidRef, Goal, Line, Node, Problem, Roster};
use std::alloc::Global;

/// Knows nothing of any node, and names the middle of each range.
#[derive(Drop)]
pub struct PlainGuide;

/// The number halfway between two.
fn middle(low: u32, high: u32) -> u32 {
    low.saturating_add(high.saturating_sub(low) / 2)
}

impl Guide for PlainGuide {
    fn new(_alloc: Global, _problem: &Problem) -> Result<PlainGuide, Memory> {
        Ok(PlainGuide)
    }

    fn guess(
        &mut self,
        _alloc: Global,
        _problem: &Problem,
        _goal: &Goal,
        _node: &Node,
    ) -> Result<Guess, Memory> {
        Ok(Guess::Nothing)
    }

    fn note(&mut self, _alloc: Global, _problem: &Problem, _roster: &Roster) -> Result<(), Memory> {
        Ok(())
    }

    fn learn(
        &mut self,
        _alloc: Global,
        _problem: &Problem,
        _roster: &Roster,
        _awarded: &Awarded,
    ) -> Result<(), Memory> {
        Ok(())
    }

    fn offer(
        &mut self,
        _alloc: Global,
        _problem: &Problem,
        _member: u32,
        _line: &Line,
    ) -> Result<(), Memory> {
        Ok(())
    }

    fn propose(
        &mut self,
        _alloc: Global,
        _problem: &Problem,
        _before: &[u32],
        score: u32,
        refuted: u32,
    ) -> Result<FloorGuess, Memory> {
        Ok(FloorGuess {
            floor: middle(score, refuted),
            guess: None,
        })
    }

    fn next_place(
        &mut self,
        _alloc: Global,
        _problem: &Problem,
        _scores: &[u32],
        _bid: BidRef,
        low: u32,
        high: u32,
    ) -> Result<u32, Memory> {
        Ok(middle(low, high))
    }
}
