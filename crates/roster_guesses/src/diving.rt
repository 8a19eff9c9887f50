//! Dives (a diving heuristic): lines of great share are fixed, one after the other, until the rest is a roster.
ghost use Rattle.std.specs.Prelude.{◌≡◌};
ghost use Rattle.roster_model.specs.Goals.{IsGoal};

use crate::effort::Effort;
use crate::finder::{Finder, Task};
use crate::relaxing::Relaxed;
use duty_calendar::Memory;
use flat_search::{Board, Row, number};
use line_mixes::{Kept, Mix, Share, WHOLE};
use roster_choices::{Chance, whole_of};
use roster_model::{Goal, Problem, Roster};
use std::alloc::Global;

/// A line of a member, by its number.
#[derive(Clone, Copy, PartialEq, Eq)]
struct Pick {
    member: usize,
    place: usize,
}

/// How far a dive has come: the decisions, the last mix, the members whose lines are fixed, and the lines that failed.
#[derive(Drop)]
struct Descent {
    board: Board,
    mix: Mix,
    is_fixed: Vec<bool>,
    failed: Vec<Pick>,
}

impl Descent {
    /// Whether the member's line is not fixed, and this one may be.
    fn may_fix(&self, kept: &Kept, goal: &Goal, pick: Pick) -> bool {
        if self.is_fixed.get(pick.member) == Some(&true) || self.failed.contains(&pick) {
            return false;
        }
        match kept.profile(pick.member, pick.place) {
            Some(profile) => profile.serves(goal, pick.member),
            None => false,
        }
    }

    /// The member's line of greatest share, a little by chance.
    fn pick_of(
        &self,
        kept: &Kept,
        goal: &Goal,
        member: usize,
        chance: &mut Chance,
    ) -> Option<(Pick, i64)> {
        let mut best: Option<(Pick, i64)> = None;
        let mut most = i64::MIN;
        for share in self.mix.shares(member) {
            let pick = Pick {
                member,
                place: share.place,
            };
            if !self.may_fix(kept, goal, pick) {
                continue;
            }
            let luck = i64::from(number(chance.below(16_384)));
            let rank = share.part.wrapping_mul(16).wrapping_add(luck);
            if best.is_none() || rank > most {
                best = Some((pick, rank));
                most = rank;
            }
        }
        best
    }

    /// The line of greatest share among all members.
    fn pick(
        &self,
        problem: &Problem,
        kept: &Kept,
        goal: &Goal,
        chance: &mut Chance,
    ) -> Option<Pick> {
        let mut best: Option<Pick> = None;
        let mut most = i64::MIN;
        for member in 0..problem.base.members.len() {
            if let Some((pick, rank)) = self.pick_of(kept, goal, member, chance) {
                if best.is_none() || rank > most {
                    best = Some(pick);
                    most = rank;
                }
            }
        }
        best
    }

    /// The lines of other members that have nearly the whole share, with this one first.
    fn company(
        &self,
        alloc: Global,
        problem: &Problem,
        kept: &Kept,
        goal: &Goal,
        first: Pick,
    ) -> Result<Vec<Pick>, Memory> {
        let mut picks = Vec::new(alloc);
        picks.push(first)?;
        for member in 0..problem.base.members.len() {
            let Some(share) = self.mix.greatest(member) else {
                continue;
            };
            let pick = Pick {
                member,
                place: share.place,
            };
            if member != first.member && is_nearly_whole(share) && self.may_fix(kept, goal, pick) {
                picks.push(pick)?;
            }
        }
        Ok(picks)
    }

    /// The board in which these lines are fixed.
    fn fixed(
        &self,
        alloc: Global,
        problem: &Problem,
        kept: &Kept,
        picks: &[Pick],
    ) -> Result<Board, Memory> {
        let pairings = problem.base.pairings.len();
        let mut board = self.board.copy(alloc)?;
        for pick in picks {
            let row = Row::fixed(kept.pairings(pick.member, pick.place), pairings);
            board.set(pick.member, row);
        }
        Ok(board)
    }

    /// Fixes these lines, unless that closes the node.
    fn fix(
        &mut self,
        alloc: Global,
        problem: &Problem,
        finder: &mut Finder,
        goal: &Goal,
        picks: &[Pick],
    ) -> Result<bool, Memory>
        requires goal { IsGoal problem.now goal.now }
    {
        let board = self.fixed(alloc, problem, &finder.kept, picks)?;
        let task = Task {
            goal,
            board: &board,
            effort: Effort::fixed(finder.kind(problem)),
        };
        let relaxed = finder.relaxed(alloc, problem, task, Some(&self.mix))?;
        let Relaxed::Open(mix) = relaxed else {
            return Ok(false);
        };
        self.mix = mix;
        self.board = board;
        for pick in picks {
            if let Some(is_fixed) = self.is_fixed.get_mut(pick.member) {
                *is_fixed = true;
            }
        }
        Ok(true)
    }

    /// Fixes the line with its company, or where that fails the line alone.
    fn go(
        &mut self,
        alloc: Global,
        problem: &Problem,
        finder: &mut Finder,
        goal: &Goal,
        pick: Pick,
    ) -> Result<bool, Memory>
        requires goal { IsGoal problem.now goal.now }
    {
        let picks = self.company(alloc, problem, &finder.kept, goal, pick)?;
        if self.fix(alloc, problem, finder, goal, &picks)? {
            return Ok(true);
        }
        if picks.len() == 1 {
            return Ok(false);
        }
        self.fix(alloc, problem, finder, goal, &[pick])
    }
}

/// Whether the share is nine tenths of the whole or more.
fn is_nearly_whole(share: Share) -> bool {
    share.part.wrapping_mul(10) >= WHOLE.wrapping_mul(9)
}

impl Finder {
    /// A roster that meets the goal and obeys the board, from a mix on; none after as many failures as the effort allows.
    pub(crate) fn dive(
        &mut self,
        alloc: Global,
        problem: &Problem,
        task: Task,
        mix: &Mix,
    ) -> Result<Option<Roster>, Memory>
        requires goal { IsGoal problem.now task.goal.now }
    {
        let (goal, failures) = (task.goal, task.effort.failures);
        let members = problem.base.members.len();
        let mut descent = Descent {
            board: task.board.copy(alloc)?,
            mix: mix.copy(alloc)?,
            is_fixed: vec![in alloc; false; members]?,
            failed: Vec::new(alloc),
        };
        for _ in 0..members.saturating_add(failures).saturating_add(1) {
            if let Some(roster) = whole_of(alloc, problem, &self.kept, goal, &descent.mix)? {
                return Ok(Some(roster));
            }
            let Some(pick) = descent.pick(problem, &self.kept, goal, &mut self.chance) else {
                return Ok(None);
            };
            if !descent.go(alloc, problem, self, goal, pick)? {
                if descent.failed.len() >= failures {
                    return Ok(None);
                }
                descent.failed.push(pick)?;
            }
        }
        Ok(None)
    }
}
