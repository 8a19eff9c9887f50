//! Rosters of kept lines (exact covers): lines are chosen one after the other, those of the pairing or member that has the
//! fewest first, and of the last two members one flies what is left.

use crate::chosen::{Choice, choices, roster_of};
use crate::crewing::{Crewing, scarce};
use crate::limits::TURNS;
use duty_calendar::Memory;
use flat_search::Board;
use line_mixes::{Kept, Mix};
use roster_model::{Goal, Problem, Roster};
use std::alloc::Global;

/// The lines that go with what is chosen so far; those of them that are tried here, the next one last; and which one is
/// chosen here now.
#[derive(Drop)]
struct Layer {
    left: Vec<usize>,
    tries: Vec<usize>,
    chosen: Option<usize>,
}

/// How far the choosing has come, and how many more steps it may take.
#[derive(Drop)]
pub(crate) struct Choosing {
    pub choices: Vec<Choice>,
    layers: Vec<Layer>,
    pub crewing: Crewing,
    pub steps: usize,
}

impl Choosing {
    /// Takes back what is chosen last, which is not tried again behind the same lines.
    fn take_back(&mut self) {
        let Some(layer) = self.layers.last_mut() else {
            return;
        };
        let Some(chosen) = layer.chosen.take() else {
            return;
        };
        let at = layer.left.iter().position(|other| *other == chosen);
        if let Some(at) = at {
            if at < layer.left.len() {
                layer.left.remove(at);
            }
        }
        if let Some(choice) = self.choices.get(chosen) {
            self.crewing.take_back(choice);
        }
    }

    /// Chooses the next line to be tried, and answers its number.
    fn choose(&mut self) -> Option<usize> {
        let layer = self.layers.last_mut()?;
        let next = layer.tries.pop()?;
        layer.chosen = Some(next);
        if let Some(choice) = self.choices.get(next) {
            self.crewing.choose(choice);
        }
        Some(next)
    }

    /// The lines that go with all that is chosen.
    fn fitting(&mut self, alloc: Global) -> Result<Vec<usize>, Memory> {
        let mut fitting = Vec::new(alloc);
        let Some(layer) = self.layers.last() else {
            return Ok(fitting);
        };
        self.steps = self.steps.saturating_sub(layer.left.len());
        for number in &layer.left {
            if let Some(choice) = self.choices.get(*number) {
                if self.crewing.fits(choice) {
                    fitting.push(*number)?;
                }
            }
        }
        Ok(fitting)
    }

    /// Goes on with these lines: where two members are left, tells whether a roster is found.
    fn open(
        &mut self,
        alloc: Global,
        problem: &Problem,
        kept: &mut Kept,
        goal: &Goal,
        board: &Board,
        left: Vec<usize>,
    ) -> Result<bool, Memory> {
        let mut tries = Vec::new(alloc);
        if self.crewing.count_left() == 2 {
            if self.flies_rest(alloc, problem, kept, goal, board, &left)? {
                return Ok(true);
            }
        } else {
            tries = scarce(alloc, problem, kept, &self.choices, &left, &self.crewing)?;
        }
        self.layers.push(Layer {
            left,
            tries,
            chosen: None,
        })?;
        Ok(false)
    }

    /// One turn: the next line is chosen, or the layer is left. Tells whether a roster is found.
    fn turn(
        &mut self,
        alloc: Global,
        problem: &Problem,
        kept: &mut Kept,
        goal: &Goal,
        board: &Board,
    ) -> Result<bool, Memory> {
        self.take_back();
        if self.choose().is_none() {
            let _layer = self.layers.pop();
            return Ok(false);
        }
        let left = self.fitting(alloc)?;
        self.open(alloc, problem, kept, goal, board, left)
    }
}

/// The numbers below a bound.
fn numbers(alloc: Global, count: usize) -> Result<Vec<usize>, Memory> {
    let mut numbers = Vec::new(alloc);
    for number in 0..count {
        numbers.push(number)?;
    }
    Ok(numbers)
}

/// A roster that meets the goal and obeys the board, of lines that are kept but for one: those of greatest share in the mix
/// are tried first. None where so many steps do not suffice.
pub fn cover(
    alloc: Global,
    problem: &Problem,
    kept: &mut Kept,
    goal: &Goal,
    board: &Board,
    mix: &Mix,
    steps: usize,
) -> Result<Option<Roster>, Memory> {
    if steps == 0 || problem.base.members.len() < 2 {
        return Ok(None);
    }
    let choices = choices(alloc, problem, kept, goal, board, mix)?;
    let all = numbers(alloc, choices.len())?;
    let mut choosing = Choosing {
        choices,
        layers: Vec::new(alloc),
        crewing: Crewing::new(alloc, problem)?,
        steps,
    };
    let mut is_found = choosing.open(alloc, problem, kept, goal, board, all)?;
    for _ in 0..TURNS {
        if is_found {
            return roster_of(alloc, kept, choosing.crewing.places());
        }
        if choosing.steps == 0 || choosing.layers.is_empty() {
            return Ok(None);
        }
        is_found = choosing.turn(alloc, problem, kept, goal, board)?;
    }
    Ok(None)
}
