//! The way down to a node of a tree, of which only the decisions are kept that are reasons (dynamic backtracking, by conflicts).

use crate::plans::Planned;
use closer_guide::Guess;
use duty_calendar::Memory;
use flat_search::Board;
use roster_model::{Decision, Node, Problem};
use std::alloc::Global;

/// The decisions of a path that close its node, by their numbers, and what shows that, the first thing first.
#[derive(Drop)]
pub(crate) struct Conflict {
    pub reasons: Vec<usize>,
    pub plan: Vec<Planned>,
}

/// A decision, the guess at the node that it splits, whether another decision came before it since that was made, and where it is the
/// second side of that node the conflict that closes the first.
#[derive(Drop)]
pub(crate) struct Step {
    pub decision: Decision,
    pub guess: Guess,
    pub is_moved: bool,
    pub first: Option<Conflict>,
}

/// Decisions, the first one first.
#[derive(Drop)]
pub(crate) struct Path {
    steps: Vec<Step>,
}

/// Appends what is planned, so many decisions deeper.
fn append(all: &mut Vec<Planned>, plan: Vec<Planned>, deeper: usize) -> Result<(), Memory> {
    for planned in plan {
        let Planned { depth, guess } = planned;
        all.push(Planned {
            depth: depth.saturating_add(deeper),
            guess,
        })?;
    }
    Ok(())
}

/// Adds the numbers that are not among these, in order.
fn unite(numbers: &mut Vec<usize>, others: &[usize]) -> Result<(), Memory> {
    for number in others {
        if !numbers.contains(number) {
            numbers.push(*number)?;
        }
    }
    numbers.sort_unstable();
    Ok(())
}

/// Moves the numbers from one on up by one.
fn make_room(numbers: &mut [usize], from: usize) {
    for number in numbers.iter_mut() {
        if *number >= from {
            *number = number.saturating_add(1);
        }
    }
}

/// What closes the split node, by what closes its sides.
pub(crate) fn joined(
    alloc: Global,
    guess: Guess,
    first: Conflict,
    second: Conflict,
) -> Result<Conflict, Memory> {
    let mut plan = Vec::new(alloc);
    plan.push(Planned { depth: 0, guess })?;
    append(&mut plan, first.plan, 1)?;
    append(&mut plan, second.plan, 1)?;
    let mut reasons = first.reasons;
    unite(&mut reasons, &second.reasons)?;
    Ok(Conflict { reasons, plan })
}

/// All numbers below this.
pub(crate) fn all_below(alloc: Global, count: usize) -> Result<Vec<usize>, Memory> {
    let mut all = Vec::new(alloc);
    for number in 0..count {
        all.push(number)?;
    }
    Ok(all)
}

/// The board of those of the decisions that are wanted.
pub(crate) fn board_of(
    alloc: Global,
    problem: &Problem,
    decisions: &[Decision],
    wanted: &[usize],
) -> Result<Board, Memory> {
    let mut node = Node::new(alloc);
    for number in wanted {
        if let Some(decision) = decisions.get(*number) {
            if node.decide(*decision).is_err() {
                break;
            }
        }
    }
    Board::of(alloc, problem, &node)
}

impl Conflict {
    /// The guess closes the node for these reasons.
    pub(crate) fn new(
        alloc: Global,
        reasons: Vec<usize>,
        guess: Option<Guess>,
    ) -> Result<Conflict, Memory> {
        let mut plan = Vec::new(alloc);
        if let Some(guess) = guess {
            plan.push(Planned { depth: 0, guess })?;
        }
        Ok(Conflict { reasons, plan })
    }
}

impl Path {
    /// No decisions.
    pub(crate) fn new(alloc: Global) -> Path {
        Path {
            steps: Vec::new(alloc),
        }
    }

    /// The decisions, the first one first.
    pub(crate) fn decisions(&self, alloc: Global) -> Result<Vec<Decision>, Memory> {
        let mut decisions = Vec::new(alloc);
        for step in &self.steps {
            decisions.push(step.decision)?;
        }
        Ok(decisions)
    }

    /// Goes down to the first side of the node, which is split by the decision.
    pub(crate) fn go_down(&mut self, guess: Guess, decision: Decision) -> Result<(), Memory> {
        self.steps.push(Step {
            decision,
            guess,
            is_moved: false,
            first: None,
        })?;
        Ok(())
    }

    /// Takes the steps from a number on, the first one first.
    fn take_from(&mut self, alloc: Global, number: usize) -> Result<Vec<Step>, Memory> {
        let mut taken = Vec::new(alloc);
        for _ in number..self.steps.len() {
            if let Some(step) = self.steps.pop() {
                taken.push(step)?;
            }
        }
        taken.reverse();
        Ok(taken)
    }

    /// Goes on to the other side of a split right behind the reasons that close the first one; other decisions come behind it.
    pub(crate) fn go_over(
        &mut self,
        alloc: Global,
        guess: Guess,
        decision: Decision,
        first: Conflict,
    ) -> Result<(), Memory> {
        let from = match first.reasons.last() {
            Some(last) => last.saturating_add(1),
            None => 0,
        };
        let behind = self.take_from(alloc, from)?;
        self.steps.push(Step {
            decision: Decision {
                flies: false,
                ..decision
            },
            guess,
            is_moved: false,
            first: Some(first),
        })?;
        for next in behind {
            let mut step = next;
            step.is_moved = true;
            if let Some(first) = step.first.as_mut() {
                make_room(&mut first.reasons, from);
            }
            self.steps.push(step)?;
        }
        Ok(())
    }

    /// How many decisions there are.
    pub(crate) fn len(&self) -> usize {
        self.steps.len()
    }

    /// Goes back to the node before the last of the reasons, which is one no more then.
    pub(crate) fn go_back(&mut self, reasons: &mut Vec<usize>) -> Option<Step> {
        let last = reasons.pop()?;
        self.steps.truncate(last.saturating_add(1));
        self.steps.pop()
    }

    /// The plan of the tree as far as it was walked, down to a guess that may not serve any more.
    pub(crate) fn planned(self, alloc: Global) -> Result<Vec<Planned>, Memory> {
        let mut plan = Vec::new(alloc);
        for (depth, step) in self.steps.into_iter().enumerate() {
            let Step {
                guess,
                is_moved,
                first,
                ..
            } = step;
            if is_moved {
                break;
            }
            plan.push(Planned { depth, guess })?;
            if let Some(first) = first {
                append(&mut plan, first.plan, depth.saturating_add(1))?;
            }
        }
        Ok(plan)
    }
}
