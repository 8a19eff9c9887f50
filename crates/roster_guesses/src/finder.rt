//! What happens at a node, and so at a root, which is the node without decisions: `Finder::solve`.
//!
//! First its relaxation (relaxing.rt, by column generation): prices of pairings (dual prices) are tested, by pricing a line of
//! each member, until they close the node (a Lagrangean bound), or kept lines can be mixed for its needs (a solution of the
//! restricted master in fractions). Such a mix leaves the node open, and rosters are looked for, from what costs least on: the
//! heaviest lines of the mix; kept lines that cover all pairings (an exact cover); exchanges of single lines (a local search); a
//! known roster of which some members are freed (a large neighbourhood); dives, which fix lines of the mix one after the other; and kept lines once more, with more
//! steps. What is spent on each of these is said by an `Effort` (effort.rt): where one is 0, it is left out.
ghost use Rattle.std.specs.Prelude.{◌≡◌};
ghost use Rattle.roster_model.specs.Goals.{IsGoal};

use crate::effort::{Effort, Kind};
use crate::relaxing::{Relaxed, relax};
use duty_calendar::Memory;
use flat_search::{Board, is_large};
use line_mixes::{Kept, Mix};
use roster_choices::{AllKnown, Chance, cover, whole_of};
use roster_model::{Goal, Problem, Roster};
use std::alloc::Global;

/// What rosters are found with: the lines and rosters that are kept; whether the month is tight; chance; and how many
/// relaxations were made for rosters.
#[derive(Drop)]
pub struct Finder {
    pub kept: Kept,
    pub known: AllKnown,
    pub is_tight: bool,
    pub(crate) chance: Chance,
    pub(crate) relaxations: u32,
}

/// A goal at a node, by what is decided of each member, and what is spent on it.
#[derive(Clone, Copy)]
pub struct Task<'a> {
    pub goal: &'a Goal,
    pub board: &'a Board,
    pub effort: Effort,
}

/// What a goal comes to at a node: what closes it, or that nothing is known; a roster, and the mix that it was found by; or the
/// mix that leaves it open.
#[derive(Drop)]
pub enum Solved {
    Closed(Relaxed),
    Roster(Roster, Mix),
    Open(Mix),
}

impl Finder {
    /// Nothing is kept.
    pub fn new(alloc: Global, problem: &Problem) -> Result<Finder, Memory> {
        Ok(Finder {
            kept: Kept::new(alloc, problem)?,
            known: AllKnown::new(alloc),
            is_tight: false,
            chance: Chance::new(),
            relaxations: 0,
        })
    }

    /// What kind of month it is.
    pub fn kind(&self, problem: &Problem) -> Kind {
        if is_large(problem) {
            Kind::Large
        } else if self.is_tight {
            Kind::Tight
        } else {
            Kind::Plain
        }
    }

    /// The relaxation of the node, which begins with a mix of another.
    pub(crate) fn relaxed(
        &mut self,
        alloc: Global,
        problem: &Problem,
        task: Task,
        warm: Option<&Mix>,
    ) -> Result<Relaxed, Memory>
        requires goal { IsGoal problem.now task.goal.now }
    {
        self.relaxations = self.relaxations.saturating_add(1);
        let (goal, board, effort) = (task.goal, task.board, task.effort);
        relax(alloc, problem, &mut self.kept, goal, board, warm, effort)
    }

    /// Solves the goal at the node, beginning with a mix of another.
    pub fn solve(
        &mut self,
        alloc: Global,
        problem: &Problem,
        task: Task,
        warm: Option<&Mix>,
    ) -> Result<Solved, Memory>
        requires goal { IsGoal problem.now task.goal.now }
    {
        if let Some(first) = self.first(alloc, problem, task, warm)? {
            return Ok(first);
        }
        let relaxed = self.relaxed(alloc, problem, task, warm)?;
        self.solve_on(alloc, problem, task, relaxed)
    }

    /// A first roster of a large month, looked for roughly: a close look at a root takes minutes there before lines are kept.
    fn first(
        &mut self,
        alloc: Global,
        problem: &Problem,
        task: Task,
        warm: Option<&Mix>,
    ) -> Result<Option<Solved>, Memory>
        requires goal { IsGoal problem.now task.goal.now }
    {
        if self.kind(problem) != Kind::Large || !self.known.is_empty() || !task.board.is_empty() {
            return Ok(None);
        }
        let effort = Effort::unknown();
        let task = Task { effort, ..task };
        let Relaxed::Open(mix) = self.relaxed(alloc, problem, task, warm)? else {
            return Ok(None);
        };
        match self.roster(alloc, problem, task, &mix)? {
            Some(roster) => Ok(Some(Solved::Roster(roster, mix))),
            None => Ok(None),
        }
    }

    /// Solves the goal at the node, whose relaxation is known.
    pub fn solve_on(
        &mut self,
        alloc: Global,
        problem: &Problem,
        task: Task,
        relaxed: Relaxed,
    ) -> Result<Solved, Memory>
        requires goal { IsGoal problem.now task.goal.now }
    {
        let mix = match relaxed {
            Relaxed::Open(mix) => mix,
            closed => return Ok(Solved::Closed(closed)),
        };
        match self.roster(alloc, problem, task, &mix)? {
            Some(roster) => Ok(Solved::Roster(roster, mix)),
            None => Ok(Solved::Open(mix)),
        }
    }

    /// A roster from the mix: its heaviest lines, or kept ones; a repair; dives; or kept lines again.
    fn roster(
        &mut self,
        alloc: Global,
        problem: &Problem,
        task: Task,
        mix: &Mix,
    ) -> Result<Option<Roster>, Memory>
        requires goal { IsGoal problem.now task.goal.now }
    {
        if let Some(roster) = self.chosen(alloc, problem, task, mix)? {
            return Ok(Some(roster));
        }
        let first = task.effort.exchanges;
        if let Some(roster) = self.exchanged(alloc, problem, task, mix, first)? {
            return Ok(Some(roster));
        }
        if let Some(roster) = self.repaired(alloc, problem, task, mix)? {
            return Ok(Some(roster));
        }
        let last = task.effort.last_exchanges;
        if let Some(roster) = self.exchanged(alloc, problem, task, mix, last)? {
            return Ok(Some(roster));
        }
        if let Some(roster) = self.dived(alloc, problem, task, mix)? {
            return Ok(Some(roster));
        }
        let (goal, board, steps) = (task.goal, task.board, task.effort.last_steps);
        cover(alloc, problem, &mut self.kept, goal, board, mix, steps)
    }

    /// The heaviest lines of the mix, or a first choice of kept ones.
    fn chosen(
        &mut self,
        alloc: Global,
        problem: &Problem,
        task: Task,
        mix: &Mix,
    ) -> Result<Option<Roster>, Memory> {
        if let Some(roster) = whole_of(alloc, problem, &self.kept, task.goal, mix)? {
            return Ok(Some(roster));
        }
        let (goal, board, steps) = (task.goal, task.board, task.effort.first_steps);
        cover(alloc, problem, &mut self.kept, goal, board, mix, steps)
    }

    /// A roster by dives; in a large month only where none is known to be repaired: one dive took 20 s at the last of 40 places.
    fn dived(
        &mut self,
        alloc: Global,
        problem: &Problem,
        task: Task,
        mix: &Mix,
    ) -> Result<Option<Roster>, Memory>
        requires goal { IsGoal problem.now task.goal.now }
    {
        if self.kind(problem) == Kind::Large && self.may_repair(task) {
            return Ok(None);
        }
        for _ in 0..task.effort.dives {
            if let Some(roster) = self.dive(alloc, problem, task, mix)? {
                return Ok(Some(roster));
            }
        }
        Ok(None)
    }

    /// A roster at a node of a repair, from the mix: as `roster`, but without repairs.
    pub(crate) fn inner_roster(
        &mut self,
        alloc: Global,
        problem: &Problem,
        task: Task,
        mix: &Mix,
    ) -> Result<Option<Roster>, Memory>
        requires goal { IsGoal problem.now task.goal.now }
    {
        if let Some(roster) = self.chosen(alloc, problem, task, mix)? {
            return Ok(Some(roster));
        }
        self.dived(alloc, problem, task, mix)
    }
}
