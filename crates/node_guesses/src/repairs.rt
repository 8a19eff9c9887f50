//! Repairs that reach levels of a place, each of which is made by `Finder::solve` with the effort of a root that is wanted.
ghost use Rattle.std.specs.Prelude.{◌≡◌, ◌<◌, length};

use crate::floors::goal_of;
use crate::guide::MixGuide;
use crate::ranges::{LevelRange, floor_of, level_of};
use duty_calendar::Memory;
use roster_guesses::{AGAIN, Effort, Kind, LEVELS, Solved};
use roster_model::Problem;
use std::alloc::Global;

impl MixGuide {
    /// Looks with much effort for a roster that meets a floor, and tells whether one was found.
    fn repair_at(
        &mut self,
        alloc: Global,
        problem: &Problem,
        before: &[u32],
        floor: u32,
        may_dive: bool,
    ) -> Result<bool, Memory>
        requires place { length before.now < length problem.now.base.members }
    {
        let goal = goal_of(alloc, problem, before, floor)?;
        let effort = Effort::wanted(self.finder.kind(problem), may_dive);
        match self.rooted(alloc, problem, &goal, effort)? {
            Solved::Roster(roster, _mix) => {
                self.finder.known.add(alloc, problem, &roster)?;
                Ok(true)
            }
            Solved::Closed(_) | Solved::Open(_) => Ok(false),
        }
    }

    /// Long repairs by halves: where one finds no roster at a level, the next one is made halfway down to the best that is known,
    /// else halfway up from it. The first may be at the greatest level below the high one.
    fn repair_by_halves(
        &mut self,
        alloc: Global,
        problem: &Problem,
        before: &[u32],
        levels: &[u32],
        high: usize,
        is_first: bool,
    ) -> Result<(), Memory>
        requires place { length before.now < length problem.now.base.members }
    {
        let mut high = high;
        let mut is_first = is_first;
        for _ in 0..LEVELS {
            let low = level_of(levels, self.better(before, 0).unwrap_or(0));
            if high <= low.saturating_add(1) {
                return Ok(());
            }
            let level = if is_first {
                high.saturating_sub(1)
            } else {
                low.saturating_add(high) / 2
            };
            let floor = floor_of(levels, level);
            if !self.repair_at(alloc, problem, before, floor, is_first)? {
                high = level;
            }
            is_first = false;
        }
        Ok(())
    }

    /// Twice a long repair at the greatest level that is left; in a large month by halves.
    pub(crate) fn repair_top(
        &mut self,
        alloc: Global,
        problem: &Problem,
        before: &[u32],
        levels: &[u32],
        range: LevelRange,
    ) -> Result<(), Memory>
        requires place { length before.now < length problem.now.base.members }
    {
        if self.finder.kind(problem) == Kind::Large {
            return self.repair_by_halves(alloc, problem, before, levels, range.high, true);
        }
        let mut low = range.low;
        for turn in 0..2 {
            if range.high <= low.saturating_add(1) {
                return Ok(());
            }
            let floor = floor_of(levels, range.high.saturating_sub(1));
            self.repair_at(alloc, problem, before, floor, turn == 0)?;
            let best = self.better(before, 0).unwrap_or(0);
            low = level_of(levels, best);
        }
        Ok(())
    }

    /// Long repairs of the best roster at the greatest level that is left and halfway to it, as long as they find one; in a large
    /// month by halves.
    pub(crate) fn repair_on(
        &mut self,
        alloc: Global,
        problem: &Problem,
        before: &[u32],
        levels: &[u32],
    ) -> Result<(), Memory>
        requires place { length before.now < length problem.now.base.members }
    {
        let high = levels.len();
        if self.finder.kind(problem) == Kind::Large {
            return self.repair_by_halves(alloc, problem, before, levels, high, false);
        }
        for _ in 0..AGAIN {
            let low = level_of(levels, self.better(before, 0).unwrap_or(0));
            let half = low.saturating_add(high).saturating_add(1) / 2;
            if high < low.saturating_add(2) {
                return Ok(());
            }
            let top = floor_of(levels, high.saturating_sub(1));
            if self.repair_at(alloc, problem, before, top, false)? {
                continue;
            }
            let is_found = half >= low.saturating_add(2)
                && self.repair_at(
                    alloc,
                    problem,
                    before,
                    floor_of(levels, half.saturating_sub(1)),
                    false,
                )?;
            if !is_found {
                return Ok(());
            }
        }
        Ok(())
    }
}
