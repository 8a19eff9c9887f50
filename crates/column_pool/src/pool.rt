//! The pool.
ghost use Rattle.std.specs.Prelude.{◌≡◌, ◌<◌, All, IsTrue, length, slice_get, option_copied, IfErr, IfOk, IfSome, OnErr, OnOk};
ghost use Rattle.roster_model.specs.Goals.{IsGoal, IsNode};
ghost use Rattle.roster_model.specs.Weights.{AreSmallWeights};
ghost use Rattle.column_pool.specs.Kept.{lines_of, no_lines, offered_to};
ghost use Rattle.column_pool.specs.Heaviest.{IsHeaviest};

use crate::heaviest::heaviest;
use crate::lines::Lines;
use duty_calendar::Memory;
use line_lens::standard_lens;
use roster_model::{Goal, Line, Node, Problem};
use std::alloc::Global;
use std::marker::Model;

/// Lines of the members of a problem, at most 10,000 of each.
#[derive(Drop)]
pub struct Pool {
    pairings: u32,
    lines: Vec<Lines>,
}

impl Model for Pool {
    ghost use Rattle.column_pool.specs.Kept.{Kept, AreKept};

    ghost Value = { Kept };

    ghost view = { λ p. record { pairings = p.pairings; lines = p.lines.items } };

    ghost invariant = { λ p. AreKept (record { pairings = p.pairings; lines = p.lines.items }) };
}

/// No lines for so many members.
fn no_lines(alloc: Global, members: usize) -> Result<Vec<Lines>, Memory>
    ensures empty { IfOk result (λ lists. lists.items ≡ no_lines members) }
{
    let mut lists = Vec::new(alloc);
    for _member in 0..members {
        lists.push(Lines::new(alloc))?;
    }
    Ok(lists)
}

impl Pool {
    /// A pool without lines, for a problem of so many members and pairings.
    pub fn new(alloc: Global, problem: &Problem) -> Result<Pool, Memory>
        ensures pairings { IfOk result (λ pool. pool.pairings ≡ length problem.now.base.pairings) }
        ensures empty { IfOk result (λ pool. pool.lines ≡ no_lines
            (length problem.now.base.members)) }
    {
        Ok(Pool {
            pairings: problem.base.pairings.len() as u32,
            lines: no_lines(alloc, problem.base.members.len())?,
        })
    }

    /// Keeps the line as the member's last, unless it is kept already or the member has 10,000. Hands it back for
    /// want of memory. Members and pairings are numbers from 0.
    pub fn offer(&mut self, member: u32, line: Line) -> Result<(), Line>
        requires member { member < length self.old.lines }
        requires in_range { All (λ p. p < self.old.pairings) line }
        ensures ok { OnOk result (self.new ≡ offered_to self.old member line) }
        ensures err { OnErr result (self.new ≡ self.old) }
        ensures back { IfErr result (λ given. given ≡ line) }
    {
        self.lines[member as usize].offer(line)
    }

    /// How many members there are.
    pub fn len(&self) -> usize
        ensures count { result ≡ length self.now.lines }
    {
        self.lines.len()
    }

    /// Whether the problem has as many members and pairings as the one that the pool was made for.
    pub fn fits(&self, problem: &Problem) -> bool
        ensures members { IsTrue result → length problem.now.base.members ≡ length self.now.lines }
        ensures pairings { IsTrue result → length problem.now.base.pairings ≡ self.now.pairings }
        ensures other { length problem.now.base.members ≡ length self.now.lines
            → length problem.now.base.pairings ≡ self.now.pairings → IsTrue result }
    {
        problem.base.members.len() == self.lines.len()
            && problem.base.pairings.len() == self.pairings as usize
    }

    /// A kept line by its number among the member's, from 0.
    pub fn get(&self, member: u32, index: u32) -> Option<&Line>
        requires member { member < length self.now.lines }
        ensures value { option_copied result ≡ slice_get (lines_of self.now member) index }
        ensures in_range { IfSome result (λ line. All (λ p. p < self.now.pairings) line.now) }
    {
        self.lines[member as usize].get(index as usize)
    }

    /// The number of the first line of greatest weight among the member's kept lines that pass the member's standard
    /// lens and meet goal and node; nothing where none does. The weights are in the order of the pairings.
    pub fn heaviest(
        &self,
        alloc: Global,
        problem: &Problem,
        member: u32,
        goal: &Goal,
        node: &Node,
        weights: &[i64],
    ) -> Result<Option<u32>, Memory>
        requires members { length problem.now.base.members ≡ length self.now.lines }
        requires pairings { length problem.now.base.pairings ≡ self.now.pairings }
        requires member { member < length problem.now.base.members }
        requires goal { IsGoal problem.now goal.now }
        requires node { IsNode problem.now node.now }
        requires per_pairing { length weights.now ≡ length problem.now.base.pairings }
        requires small { AreSmallWeights weights.now }
        ensures heaviest { IfOk result (IsHeaviest problem.now goal.now node.now member weights.now
            (lines_of self.now member) (length (lines_of self.now member))) }
    {
        let lens = standard_lens(alloc, problem, member);
        let lines = &self.lines[member as usize];
        heaviest(alloc, problem, member, goal, node, &lens, lines, weights)
    }
}
