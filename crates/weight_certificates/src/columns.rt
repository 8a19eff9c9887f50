//! Lines of the members that pass their standard lenses at a node, from which rounds are made without pricing.
ghost use Rattle.std.specs.Prelude.{◌≡◌, ◌<◌, ◌++◌, ◌∷◌, [], All, IfOk, IfSome, OnOk, List as Sequence, length, slice_set};
ghost use Rattle.roster_model.specs.declared.goal.Goal.{Goal as Aim};
ghost use Rattle.roster_model.specs.declared.node.Decision.{Decision};
ghost use Rattle.roster_model.specs.declared.problem.Problem.{Problem as Month};
ghost use Rattle.roster_model.specs.Goals.{IsGoal, IsNode};
ghost use Rattle.roster_model.specs.Lenses.{IsLens, IsStandardLens};
ghost use Rattle.roster_model.specs.Rounds.{IsRound, IsStandardLine};
ghost use Rattle.weight_certificates.specs.Columns.{AreColumns, lines_of};
ghost use Rattle.weight_certificates.specs.Pricing.{AreStandard};

use crate::lists::append;
use closer_guide::Part;
use duty_calendar::{Copied, List, Memory};
use line_generator::are_known;
use line_lens::lens_line;
use roster_model::{Goal, Lens, Line, Node, Problem, Roster};
use std::alloc::Global;
use std::marker::Model;

/// Lines of each member.
#[derive(Drop)]
pub(crate) struct Columns {
    lists: List<List<Line>>,
}

impl Model for Columns {
    ghost use Rattle.std.specs.Prelude.{ℕ, List as Sequence};

    ghost Value = { Sequence (Sequence (Sequence ℕ)) };

    ghost view = { λ c. c.lists };
}

/// The member's lines that pass the lens, which is the standard one.
fn passing(
    alloc: Global,
    problem: &Problem,
    goal: &Goal,
    node: &Node,
    lens: &Lens,
    parts: &[Part],
    member: u32,
) -> Result<List<Line>, Memory>
    requires goal { IsGoal problem.now goal.now }
    requires node { IsNode problem.now node.now }
    requires member { member < length problem.now.base.members }
    requires shape { IsLens problem.now member lens.now }
    requires standard { IsStandardLens problem.now member lens.now }
    ensures standard { IfOk result (All (IsStandardLine problem.now goal.now node.now member)) }
{
    let mut lines = List::new(alloc);
    for part in parts {
        if !are_known(problem, part.line.pairings()) {
            continue;
        }
        if !lens_line(alloc, problem, member, goal, node, lens, &part.line)? {
            continue;
        }
        append(&mut lines, part.line.copy(alloc)?)?;
    }
    Ok(lines)
}

/// The parts of a member.
fn parts_of(parts: &[Vec<Part>], member: usize) -> &[Part] {
    match parts.get(member) {
        Some(parts) => parts,
        None => &[],
    }
}

/// The place of the heaviest of the lines. Sums that are too large stop at the ends of their range.
fn heaviest_place(lines: &[Line], weights: &[i64]) -> Option<usize>
    ensures within { IfSome result (λ place. place < length lines.now) }
{
    let mut heaviest = None;
    let mut most = i64::MIN;
    for (place, line) in lines.iter().enumerate() {
        let weight = weigh(line, weights);
        if heaviest.is_none() || weight > most {
            heaviest = Some(place);
            most = weight;
        }
    }
    heaviest
}

/// What the pairings of a line weigh together, where that is not too much.
pub(crate) fn weigh(line: &Line, weights: &[i64]) -> i64 {
    let mut sum: i64 = 0;
    for pairing in line.pairings() {
        if let Some(weight) = weights.get(*pairing as usize) {
            sum = sum.saturating_add(*weight);
        }
    }
    sum
}

impl Columns {
    /// The lines of all members that pass their lenses, which are the standard ones.
    pub(crate) fn gather(
        alloc: Global,
        problem: &Problem,
        goal: &Goal,
        node: &Node,
        lenses: &[Lens],
        parts: &[Vec<Part>],
    ) -> Result<Columns, Memory>
        requires goal { IsGoal problem.now goal.now }
        requires node { IsNode problem.now node.now }
        requires lenses { AreStandard problem.now lenses.now }
        ensures columns { IfOk result (AreColumns problem.now goal.now node.now) }
    {
        let mut lists = List::new(alloc);
        for (member, lens) in lenses.iter().enumerate() {
            let own = parts_of(parts, member);
            let lines = passing(alloc, problem, goal, node, lens, own, member as u32)?;
            append(&mut lists, lines)?;
        }
        Ok(Columns { lists })
    }

    /// The lines of a member.
    pub(crate) fn lines(&self, member: usize) -> &[Line]
        requires member { member < length self.now }
        ensures lines { result.now ≡ lines_of self.now member }
    {
        self.lists.as_slice()[member].as_slice()
    }

    /// A round of the heaviest lines, where each member has a line.
    pub(crate) fn round(&self, alloc: Global, weights: &[i64]) -> Result<Option<Roster>, Memory>
        ensures round { (problem : Month) (goal : Aim) (node : Sequence Decision)
            → AreColumns problem goal node self.now
            → IfOk result (λ answer. IfSome answer (IsRound problem goal node)) }
    {
        let mut round = List::new(alloc);
        for member in 0..self.lists.len() {
            let lines = self.lines(member);
            let Some(place) = heaviest_place(lines, weights) else {
                return Ok(None);
            };
            append(&mut round, lines[place].copy(alloc)?)?;
        }
        Ok(Some(round))
    }

    /// Adds a line of a member.
    fn add_line(&mut self, member: usize, line: Line) -> Result<(), Memory>
        requires member { member < length self.old }
        ensures added { OnOk result (self.new ≡ slice_set self.old member
            (lines_of self.old member ++ line ∷ [])) }
    {
        append(self.lists.at_mut(member), line)
    }

    /// Adds the lines of a round.
    pub(crate) fn add(&mut self, alloc: Global, round: &[Line]) -> Result<(), Memory>
        requires per_member { length round.now ≡ length self.old }
        ensures columns { (problem : Month) (goal : Aim) (node : Sequence Decision)
            → AreColumns problem goal node self.old → IsRound problem goal node round.now
            → OnOk result (AreColumns problem goal node self.new) }
    {
        for (member, line) in round.iter().enumerate() {
            self.add_line(member, line.copy(alloc)?)?;
        }
        Ok(())
    }
}
