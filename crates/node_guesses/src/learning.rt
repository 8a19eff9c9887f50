//! What a guide learns from the award of a problem that differs by little.

use crate::guide::MixGuide;
use crate::probes::gathered;
use duty_calendar::{Copied, Memory};
use flat_search::{Board, Care, rows};
use line_mixes::{Columns, Kept, Mix, Program};
use roster_guesses::{CHANGES, MIXED, MOST_ROWS, program_of};
use roster_model::{Awarded, Goal, Item, Line, Problem, Proof, Roster};
use std::alloc::Global;

/// The weights of the first leaf of the proof that has some; none where no leaf has any.
fn weights_of(alloc: Global, proof: &Proof) -> Result<Vec<i64>, Memory> {
    for item in proof.as_slice() {
        if let Item::Weights(weights, _lenses) = item {
            return widened(alloc, weights.as_slice());
        }
    }
    Ok(Vec::new(alloc))
}

/// The weights in 64 bits each.
fn widened(alloc: Global, weights: &[i32]) -> Result<Vec<i64>, Memory> {
    let mut wide = Vec::new(alloc);
    for weight in weights {
        wide.push(i64::from(*weight))?;
    }
    Ok(wide)
}

/// Kept lines of all members.
fn columns_of(alloc: Global, problem: &Problem, kept: &Kept) -> Result<Columns, Memory> {
    let goal = Goal::new(alloc);
    let board = Board::empty(alloc, problem.base.members.len())?;
    let mut columns = Columns::new(alloc);
    for member in 0..problem.base.members.len() {
        columns.append(alloc, kept, &goal, member, &board.row(member), Care::Fine)?;
    }
    Ok(columns)
}

/// One kept line of each member, with these weights as those that were tested last.
fn mix_with(
    alloc: Global,
    problem: &Problem,
    kept: &Kept,
    weights: Vec<i64>,
) -> Result<Mix, Memory> {
    let columns = columns_of(alloc, problem, kept)?;
    let first = Mix::begun(alloc, problem, kept, &columns, None)?;
    let program = Program::begun(alloc, problem, kept, &columns, Some(&first))?;
    Ok(Mix::of_program(alloc, problem, kept, &columns, &program, weights)?)
}

/// Whether kept lines alone can be mixed for the goal so that hardly anything is missed. The program is kept, since the next
/// one begins where it ends.
pub(crate) fn is_mixed(
    alloc: Global,
    problem: &Problem,
    kept: &mut Kept,
    goal: &Goal,
    warm: Option<&Mix>,
) -> Result<bool, Memory> {
    let board = Board::empty(alloc, problem.base.members.len())?;
    let Some(columns) = gathered(alloc, problem, kept, goal, &board)? else {
        return Ok(false);
    };
    let mut program = program_of(alloc, problem, kept, &columns, warm)?;
    program.solve(alloc, kept, &columns, CHANGES, MIXED)?;
    let is_solved = program.misses() <= MIXED;
    kept.keep_program(program);
    Ok(is_solved)
}

impl MixGuide {
    /// Whether it is worth a look what kept lines can be mixed for: they were learned, and a program of them is not large.
    pub(crate) fn may_mix(&self, problem: &Problem) -> bool {
        !self.learned.is_empty() && rows(problem) <= MOST_ROWS
    }

    /// Keeps the lines of a roster that was judged to be complete.
    fn keep_lines(
        &mut self,
        alloc: Global,
        problem: &Problem,
        roster: &Roster,
    ) -> Result<(), Memory> {
        for (member, line) in roster.as_slice().iter().enumerate() {
            self.finder
                .kept
                .keep_legal(problem, member, line.copy(alloc)?)?;
        }
        Ok(())
    }

    /// Keeps the lines of the rosters that show why bids are denied.
    fn keep_shown(
        &mut self,
        alloc: Global,
        problem: &Problem,
        awarded: &Awarded,
    ) -> Result<(), Memory> {
        for shown in awarded.shown.as_slice() {
            if let Some(roster) = &shown.roster {
                self.keep_lines(alloc, problem, roster)?;
            }
        }
        Ok(())
    }

    /// Remembers for each place the weights by which its proof closes.
    fn keep_weights(&mut self, alloc: Global, proofs: &[Proof]) -> Result<(), Memory> {
        self.learned.truncate(0);
        for proof in proofs {
            self.learned.push(weights_of(alloc, proof)?)?;
        }
        Ok(())
    }

    /// Learns from the award of a problem that differs by little: the roster is known, lines of rosters are kept, and the
    /// roots of each place begin with the weights of its proof. Programs are used from the first relaxation on, since with
    /// so many lines they soon come to an end.
    pub(crate) fn learn_award(
        &mut self,
        alloc: Global,
        problem: &Problem,
        roster: &Roster,
        awarded: &Awarded,
    ) -> Result<(), Memory> {
        self.keep_shown(alloc, problem, awarded)?;
        self.keep_lines(alloc, problem, roster)?;
        self.keep_weights(alloc, awarded.proofs.as_slice())?;
        self.finder.kept.hold_dear(0, 0);
        self.finder.known.add(alloc, problem, roster)
    }

    /// Keeps a line of the member that was found elsewhere.
    pub(crate) fn keep_line(
        &mut self,
        alloc: Global,
        problem: &Problem,
        member: u32,
        line: &Line,
    ) -> Result<(), Memory> {
        self.finder
            .kept
            .keep(alloc, problem, member as usize, line.copy(alloc)?)?;
        Ok(())
    }

    /// Lets the roots of a place begin with the weights that were learned of it, if there are any.
    pub(crate) fn begin_place(
        &mut self,
        alloc: Global,
        problem: &Problem,
        place: usize,
    ) -> Result<(), Memory> {
        let Some(learned) = self.learned.get(place) else {
            return Ok(());
        };
        if learned.is_empty() {
            return Ok(());
        }
        let weights = Vec::from_slice(alloc, learned)?;
        let mix = mix_with(alloc, problem, &self.finder.kept, weights)?;
        self.keep_warm(mix, None);
        Ok(())
    }
}
