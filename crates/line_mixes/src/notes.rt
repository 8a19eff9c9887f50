//! What is noted beside the kept lines from root to root: members whose searches are dear, whose turn it is, the last program,
//! bounds that no line is above, and weights that closed roots.

use crate::kept::Kept;
use crate::limits::MOST_LEAVES;
use crate::program::Program;
use duty_calendar::Memory;
use roster_model::{Goal, Lens};
use std::alloc::Global;

impl Kept {
    /// Whether the member's searches are held to be dear.
    pub fn is_dear(&self, member: usize) -> bool {
        match self.dear.get(member) {
            Some(searches) => *searches > 0,
            None => false,
        }
    }

    /// Whether any member's searches were held to be dear before.
    pub fn has_dear(&self) -> bool {
        self.has_dear
    }

    /// Holds the member's searches to be dear for so many of them.
    pub fn hold_dear(&mut self, member: usize, searches: u32) {
        self.has_dear = true;
        if let Some(dear) = self.dear.get_mut(member) {
            *dear = searches;
        }
    }

    /// Counts a search that was held to be dear.
    pub fn count_dear(&mut self, member: usize) {
        if let Some(dear) = self.dear.get_mut(member) {
            *dear = dear.saturating_sub(1);
        }
    }

    /// The last program.
    pub fn program(&self) -> Option<&Program> {
        self.program.as_ref()
    }

    /// The weights that closed roots, the newest last.
    pub fn leaves(&self) -> &[Vec<i64>] {
        &self.leaves
    }

    /// Remembers weights that closed a root.
    pub fn keep_leaf(&mut self, alloc: Global, weights: &[i64]) -> Result<(), Memory> {
        if self.leaves.iter().any(|leaf| leaf.as_slice() == weights) {
            return Ok(());
        }
        if self.leaves.len() >= MOST_LEAVES {
            self.leaves.remove(0);
        }
        self.leaves.push(Vec::from_slice(alloc, weights)?)?;
        Ok(())
    }

    /// What no line of the member is above under these weights at a root of the goal, and by which lens, if that is known.
    pub fn barren(
        &self,
        alloc: Global,
        member: usize,
        goal: &Goal,
        weights: &[i64],
    ) -> Result<Option<(i64, Lens)>, Memory> {
        self.barren.find(alloc, member, goal, weights)
    }

    /// Remembers that at a root of the goal the member has no line above this, by the lens.
    pub fn keep_barren(
        &mut self,
        alloc: Global,
        member: usize,
        goal: &Goal,
        weights: &[i64],
        over: i64,
        lens: &Lens,
    ) -> Result<(), Memory> {
        self.barren.add(alloc, member, goal, weights, over, lens)
    }

    /// Hands out the last program.
    pub fn take_program(&mut self) -> Option<Program> {
        self.program.take()
    }

    /// Keeps a program.
    pub fn keep_program(&mut self, program: Program) {
        self.program = Some(program);
    }

    /// Whose turn it is to be priced first, of so many members: each time the next one's.
    pub fn next_turn(&mut self, members: usize) -> usize {
        self.turn = self.turn.wrapping_add(1).checked_rem(members).unwrap_or(0);
        self.turn
    }
}
