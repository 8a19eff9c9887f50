//! Which decisions close a node, and what shows that: crews, decided lines, or prices under which kept lines are short of the needs, and
//! all others too.
ghost use Rattle.std.specs.Prelude.{◌≡◌};
ghost use Rattle.roster_model.specs.Goals.{IsGoal};

use crate::guide::MixGuide;
use crate::paths::{Conflict, board_of};
use closer_guide::Guess;
use duty_calendar::Memory;
use flat_search::Board;
use line_mixes::{Kept, Shortage};
use roster_guesses::{LESSONS, closed_with};
use roster_model::{Decision, Goal, Problem};
use std::alloc::Global;

/// What conflicts teach: weights that closed nodes, the newest last; and how often decisions of each member were reasons.
#[derive(Drop)]
pub(crate) struct Lore {
    lessons: Vec<Vec<i64>>,
    pub blame: Vec<u32>,
}

impl Lore {
    /// Nothing.
    pub(crate) fn new(alloc: Global, problem: &Problem) -> Result<Lore, Memory> {
        Ok(Lore {
            lessons: Vec::new(alloc),
            blame: vec![in alloc; 0u32; problem.base.members.len()]?,
        })
    }

    /// Remembers weights that closed a node, and forgets the oldest where there are too many.
    fn teach(&mut self, lesson: Vec<i64>) -> Result<(), Memory> {
        if self.lessons.len() >= LESSONS {
            self.lessons.remove(0);
        }
        self.lessons.push(lesson)?;
        Ok(())
    }

    /// Blames the members of these decisions.
    pub(crate) fn accuse(&mut self, decisions: &[Decision], reasons: &[usize]) {
        for number in reasons {
            let Some(decision) = decisions.get(*number) else {
                continue;
            };
            if let Some(blame) = self.blame.get_mut(decision.member as usize) {
                *blame = blame.saturating_add(1);
            }
        }
    }

    /// Nobody is to blame any more.
    pub(crate) fn forgive(&mut self) {
        for blame in self.blame.iter_mut() {
            *blame = 0;
        }
    }
}

/// How many lines are kept.
pub(crate) fn count_kept(problem: &Problem, kept: &Kept) -> usize {
    let mut count: usize = 0;
    for member in 0..problem.base.members.len() {
        count = count.saturating_add(kept.len(member));
    }
    count
}

/// The numbers of the decisions that are about the pairing, and say this of it.
fn about(
    alloc: Global,
    decisions: &[Decision],
    pairing: usize,
    flies: bool,
) -> Result<Vec<usize>, Memory> {
    let mut reasons = Vec::new(alloc);
    for (number, decision) in decisions.iter().enumerate() {
        if decision.pairing as usize == pairing && decision.flies == flies {
            reasons.push(number)?;
        }
    }
    Ok(reasons)
}

/// How many members may fly the pairing.
fn possible(problem: &Problem, board: &Board, pairing: usize) -> u32 {
    let mut count: u32 = 0;
    for member in 0..problem.base.members.len() {
        if !board.row(member).barred.contains(pairing) {
            count = count.saturating_add(1);
        }
    }
    count
}

/// The decisions by which some pairing can't have its crew, if there is one.
fn crew_reasons(
    alloc: Global,
    problem: &Problem,
    decisions: &[Decision],
    board: &Board,
) -> Result<Option<Vec<usize>>, Memory> {
    for (pairing, wanted) in problem.base.pairings.as_slice().iter().enumerate() {
        if board.crew(pairing) > wanted.need {
            return Ok(Some(about(alloc, decisions, pairing, true)?));
        }
        if possible(problem, board, pairing) < wanted.need {
            return Ok(Some(about(alloc, decisions, pairing, false)?));
        }
    }
    Ok(None)
}

/// The decisions that close the node by themselves: those about a crew that can't be had, or all about members of whom each pairing is
/// decided.
pub(crate) fn decided_reasons(
    alloc: Global,
    problem: &Problem,
    decisions: &[Decision],
    board: &Board,
) -> Result<Vec<usize>, Memory> {
    if let Some(reasons) = crew_reasons(alloc, problem, decisions, board)? {
        return Ok(reasons);
    }
    let pairings = problem.base.pairings.len();
    let mut reasons = Vec::new(alloc);
    for (number, decision) in decisions.iter().enumerate() {
        if board.row(decision.member as usize).is_whole(pairings) {
            reasons.push(number)?;
        }
    }
    Ok(reasons)
}

impl MixGuide {
    /// The conflict by the shortage of kept lines, if its weights close the node of the reasons. Lines that are found on the way are kept.
    pub(crate) fn proved(
        &mut self,
        alloc: Global,
        problem: &Problem,
        goal: &Goal,
        decisions: &[Decision],
        shortage: &Shortage,
        weights: Vec<i64>,
    ) -> Result<Option<Conflict>, Memory>
        requires goal { IsGoal problem.now goal.now }
    {
        let kept = &mut self.finder.kept;
        let reasons = shortage.reasons(alloc, kept, goal, decisions)?;
        let board = board_of(alloc, problem, decisions, &reasons)?;
        let Some(relaxed) = closed_with(alloc, problem, kept, goal, &board, weights)? else {
            return Ok(None);
        };
        match self.leaf_of(alloc, problem, goal, &board, relaxed)? {
            Guess::Nothing => Ok(None),
            guess => Ok(Some(Conflict::new(alloc, reasons, Some(guess))?)),
        }
    }

    /// The conflict by weights that closed other nodes, the newest first, if some do.
    pub(crate) fn known_conflict(
        &mut self,
        alloc: Global,
        problem: &Problem,
        goal: &Goal,
        decisions: &[Decision],
        board: &Board,
    ) -> Result<Option<Conflict>, Memory>
        requires goal { IsGoal problem.now goal.now }
    {
        for at in (0..self.lore.lessons.len()).rev() {
            let Some(lesson) = self.lore.lessons.get(at) else {
                return Ok(None);
            };
            let weights = Vec::from_slice(alloc, lesson)?;
            let kept = &self.finder.kept;
            let short = Shortage::of_weights(alloc, problem, kept, goal, board, &weights)?;
            let Some(shortage) = short else {
                continue;
            };
            let found = self.proved(alloc, problem, goal, decisions, &shortage, weights)?;
            if found.is_some() {
                return Ok(found);
            }
        }
        Ok(None)
    }

    /// The conflict by the shortage that a master shows, if its weights close the node of the reasons; they are remembered then.
    pub(crate) fn shown_conflict(
        &mut self,
        alloc: Global,
        problem: &Problem,
        goal: &Goal,
        decisions: &[Decision],
        shortage: &Shortage,
    ) -> Result<Option<Conflict>, Memory>
        requires goal { IsGoal problem.now goal.now }
    {
        let weights = shortage.weights(alloc)?;
        let lesson = Vec::from_slice(alloc, &weights)?;
        let found = self.proved(alloc, problem, goal, decisions, shortage, weights)?;
        if found.is_some() {
            self.lore.teach(lesson)?;
        }
        Ok(found)
    }
}
