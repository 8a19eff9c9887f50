//! Repair of a roster (a large neighbourhood search): all members but a few keep their lines, and the few share out their
//! pairings anew.
ghost use Rattle.std.specs.Prelude.{◌≡◌};
ghost use Rattle.roster_model.specs.Goals.{IsGoal};

use crate::effort::{Effort, Kind};
use crate::finder::{Finder, Task};
use crate::limits::{FEWEST_FREE, MORE_FREE};
use crate::relaxing::Relaxed;
use duty_calendar::{Copied, Memory};
use line_mixes::{Kept, Mix};
use roster_choices::{Begun, Free};
use roster_model::{Goal, Line, Problem, Roster};
use std::alloc::Global;

/// What is found for a choice of free members: a roster; that there is none; or nothing.
#[derive(Drop)]
enum Attempt {
    Roster(Roster),
    Closed,
    Open,
}

/// The member at whom the goal wants more than a known roster has: that of its bid, else the last with a floor.
fn focus_of(goal: &Goal) -> Option<usize> {
    match goal.grant {
        Some(bid) => Some(bid.member as usize),
        None => goal.floors.len().checked_sub(1),
    }
}

/// The floors of the goal that a roster is to reach which is repaired.
pub(crate) fn reached(goal: &Goal) -> &[u32] {
    let floors = goal.floors.as_slice();
    if goal.grant.is_some() {
        return floors;
    }
    floors.get(..floors.len().saturating_sub(1)).unwrap_or(&[])
}

/// Keeps the lines of a roster.
fn keep_all(
    alloc: Global,
    problem: &Problem,
    kept: &mut Kept,
    base: &[Line],
) -> Result<(), Memory> {
    for (member, line) in base.iter().enumerate() {
        let _place = kept.keep(alloc, problem, member, line.copy(alloc)?)?;
    }
    Ok(())
}

/// How many members are free the next time, after so many turns, in so many of which there were too few.
fn size_of(kind: Kind, turn: usize, closed: usize, members: usize) -> usize {
    let more = turn.wrapping_div(3).saturating_add(closed);
    let more = if kind == Kind::Large {
        more % MORE_FREE
    } else {
        more
    };
    more.saturating_add(FEWEST_FREE).min(members)
}

impl Finder {
    /// A roster that meets the goal and in which others than some free members keep their lines.
    fn freed(
        &mut self,
        alloc: Global,
        problem: &Problem,
        goal: &Goal,
        begun: &Begun,
        size: usize,
    ) -> Result<Attempt, Memory>
        requires goal { IsGoal problem.now goal.now }
    {
        let free = Free::chosen(alloc, &self.kept, begun, size, &mut self.chance)?;
        let board = free.board(alloc, problem, begun.base)?;
        let task = Task {
            goal,
            board: &board,
            effort: Effort::freed(self.kind(problem)),
        };
        let Relaxed::Open(mix) = self.relaxed(alloc, problem, task, None)? else {
            return Ok(Attempt::Closed);
        };
        Ok(match self.inner_roster(alloc, problem, task, &mix)? {
            Some(roster) => Attempt::Roster(roster),
            None => Attempt::Open,
        })
    }

    /// Whether a roster is known that may be repaired.
    pub(crate) fn may_repair(&self, task: Task) -> bool {
        task.effort.repairs > 0
            && focus_of(task.goal).is_some()
            && self.known.best(reached(task.goal)).is_some()
    }

    /// A roster that meets the goal and differs in the lines of a few members from the best that is known, the focus among them;
    /// choices of members are tried until the effort is spent. In a tight or large month each choice that leaves no roster makes
    /// the next ones greater.
    pub(crate) fn repaired(
        &mut self,
        alloc: Global,
        problem: &Problem,
        task: Task,
        mix: &Mix,
    ) -> Result<Option<Roster>, Memory>
        requires goal { IsGoal problem.now task.goal.now }
    {
        let goal = task.goal;
        if task.effort.repairs == 0 {
            return Ok(None);
        }
        let (Some(focus), Some(known)) = (focus_of(goal), self.known.best(reached(goal))) else {
            return Ok(None);
        };
        let roster = known.roster.copy(alloc)?;
        let base = roster.as_slice();
        keep_all(alloc, problem, &mut self.kept, base)?;
        let begun = Begun { base, focus, mix };
        self.repaired_from(alloc, problem, goal, &begun, task.effort)
    }

    /// A roster by repairs of this one.
    fn repaired_from(
        &mut self,
        alloc: Global,
        problem: &Problem,
        goal: &Goal,
        begun: &Begun,
        effort: Effort,
    ) -> Result<Option<Roster>, Memory>
        requires goal { IsGoal problem.now goal.now }
    {
        let kind = self.kind(problem);
        let before = self.relaxations;
        let mut closed: usize = 0;
        for turn in 0..effort.repairs {
            if self.relaxations.wrapping_sub(before) >= effort.relaxations {
                return Ok(None);
            }
            let size = size_of(kind, turn, closed, begun.base.len());
            match self.freed(alloc, problem, goal, begun, size)? {
                Attempt::Roster(roster) => return Ok(Some(roster)),
                Attempt::Closed if kind != Kind::Plain => {
                    closed = closed.saturating_add(1);
                }
                Attempt::Closed | Attempt::Open => {}
            }
        }
        Ok(None)
    }
}
