//! Which floor of a place is to be tried next, and what is known of its root.
ghost use Rattle.std.specs.Prelude.{◌<◌, length};

use crate::climb::Climb;
use crate::floors::goal_of;
use crate::guess::with_lines;
use crate::guide::MixGuide;
use crate::levels::levels;
use crate::ranges::level_of;
use closer_guide::FloorGuess;
use duty_calendar::{Copied, Memory};
use roster_guesses::{Relaxed, is_worth_while};
use roster_model::{Node, Problem};
use std::alloc::Global;

impl MixGuide {
    /// Whether the best roster that is known behind these scores is at the top level.
    fn is_at_top(&self, before: &[u32], score: u32, levels: &[u32]) -> bool {
        let best = self.better(before, score).unwrap_or(score);
        level_of(levels, best).saturating_add(1) >= levels.len()
    }

    /// Whether the top level may be looked at roughly: the last place reached its own, searches are short, and no award was
    /// learned, with whose weights a root is closed at once.
    fn may_be_lucky(&self, problem: &Problem) -> bool {
        self.is_lucky && self.learned.is_empty() && !is_worth_while(problem, &self.finder.kept)
    }

    /// Looks for rosters behind these scores for the first time: roughly at the top level, where the last place reached its
    /// own and searches are short; else, or where that fails, by roots and repairs.
    fn look_first(
        &mut self,
        alloc: Global,
        problem: &Problem,
        before: &[u32],
        score: u32,
        levels: &[u32],
    ) -> Result<(), Memory>
        requires place { length before.now < length problem.now.base.members }
    {
        if self.may_be_lucky(problem) && levels.len() > 1 {
            self.try_top(alloc, problem, before, levels)?;
        }
        if !self.is_at_top(before, score, levels) {
            let range = self.test_roots(alloc, problem, before, score, levels)?;
            self.repair_top(alloc, problem, before, levels, range)?;
        }
        self.is_lucky = self.is_at_top(before, score, levels);
        Ok(())
    }

    /// Looks for rosters behind these scores that are better at the next member, where the search found one since.
    fn look_on(
        &mut self,
        alloc: Global,
        problem: &Problem,
        before: &[u32],
        score: u32,
        refuted: u32,
    ) -> Result<(), Memory>
        requires place { length before.now < length problem.now.base.members }
    {
        if !self.climb.is_tested {
            let levels = levels(alloc, problem, before.len(), score, refuted)?;
            self.climb.is_tested = true;
            self.begin_place(alloc, problem, before.len())?;
            self.look_first(alloc, problem, before, score, &levels)?;
        } else if score > self.climb.score {
            let levels = levels(alloc, problem, before.len(), score, refuted)?;
            self.repair_on(alloc, problem, before, &levels)?;
        }
        Ok(())
    }

    /// The floor to try next at the place behind these scores, above a score that is reached and below a floor that is
    /// refuted: the score of a better roster that is known; else a floor whose root is closed; else the next one.
    fn next_floor(
        &mut self,
        alloc: Global,
        problem: &Problem,
        before: &[u32],
        score: u32,
        refuted: u32,
    ) -> Result<u32, Memory>
        requires place { length before.now < length problem.now.base.members }
    {
        if !self.climb.is_at(before) {
            self.climb = Climb::begun(alloc, before, score)?;
        }
        if let Some(better) = self.better(before, score) {
            return Ok(better);
        }
        self.look_on(alloc, problem, before, score, refuted)?;
        self.climb.score = score;
        if let Some(better) = self.better(before, score) {
            self.climb.score = better;
            return Ok(better);
        }
        match self.climb.closed_floor() {
            Some(floor) if floor < refuted && floor > score => Ok(floor),
            _ => Ok(score.saturating_add(1)),
        }
    }

    /// What the tests of roots have told of this floor's: that it is closed, or that the last mix leaves it open.
    fn tested(&mut self, alloc: Global, floor: u32) -> Result<Option<Relaxed>, Memory> {
        let closed = self.climb.take_closed(floor);
        if closed.is_some() {
            return Ok(closed);
        }
        match &self.warm {
            Some(mix) if self.climb.open == Some(floor) => {
                Ok(Some(Relaxed::Open(mix.copy(alloc)?)))
            }
            _ => Ok(None),
        }
    }

    /// The floor to try next, and a guess at its root, by what the tests of roots have told of it.
    pub(crate) fn proposal(
        &mut self,
        alloc: Global,
        problem: &Problem,
        before: &[u32],
        score: u32,
        refuted: u32,
    ) -> Result<FloorGuess, Memory>
        requires place { length before.now < length problem.now.base.members }
    {
        let floor = self.next_floor(alloc, problem, before, score, refuted)?;
        let goal = goal_of(alloc, problem, before, floor)?;
        let root = self.tested(alloc, floor)?;
        let guess = self.guess_root(alloc, problem, &goal, root)?;
        let (kept, node) = (&self.finder.kept, Node::new(alloc));
        let guess = with_lines(alloc, problem, kept, &goal, &node, guess)?;
        Ok(FloorGuess {
            floor,
            guess: Some(guess),
        })
    }
}
