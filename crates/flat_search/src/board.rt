//! What is decided of each member, as sets of pairings.

use crate::pairings::PairingSet;
use duty_calendar::Memory;
use roster_model::{Node, Problem};
use std::alloc::Global;

/// What a member is decided to fly, and not to fly.
#[derive(Clone, Copy, PartialEq, Eq)]
pub struct Row {
    pub flown: PairingSet,
    pub barred: PairingSet,
}

/// A row for each member.
#[derive(Drop)]
pub struct Board {
    rows: Vec<Row>,
}

impl Row {
    /// Nothing is decided.
    pub fn new() -> Row {
        Row {
            flown: PairingSet::new(),
            barred: PairingSet::new(),
        }
    }

    /// Whether the pairing is decided.
    pub fn is_decided(&self, pairing: usize) -> bool {
        self.flown.contains(pairing) || self.barred.contains(pairing)
    }

    /// Whether nothing is decided.
    pub fn is_empty(&self) -> bool {
        self.flown == PairingSet::new() && self.barred == PairingSet::new()
    }

    /// Whether all of so many pairings are decided.
    pub fn is_whole(&self, pairings: usize) -> bool {
        PairingSet::below(pairings).is_within(&self.flown.joined(&self.barred))
    }

    /// The row in which the member may fly these pairings, of so many, and no others.
    pub fn among(allowed: &PairingSet, pairings: usize) -> Row {
        let mut barred = PairingSet::new();
        for pairing in 0..pairings {
            if !allowed.contains(pairing) {
                barred.insert(pairing);
            }
        }
        Row {
            flown: PairingSet::new(),
            barred,
        }
    }

    /// The row in which the member flies just these pairings, of so many.
    pub fn fixed(line: &[u32], pairings: usize) -> Row {
        let flown = PairingSet::of(line);
        Row {
            flown,
            ..Row::among(&flown, pairings)
        }
    }
}

impl Board {
    /// Nothing is decided for so many members.
    pub fn empty(alloc: Global, members: usize) -> Result<Board, Memory> {
        let mut rows = Vec::new(alloc);
        for _member in 0..members {
            rows.push(Row::new())?;
        }
        Ok(Board { rows })
    }

    /// What the node decides.
    pub fn of(alloc: Global, problem: &Problem, node: &Node) -> Result<Board, Memory> {
        let mut board = Board::empty(alloc, problem.base.members.len())?;
        for decision in node.decisions() {
            if let Some(row) = board.rows.get_mut(decision.member as usize) {
                if decision.flies {
                    row.flown.insert(decision.pairing as usize);
                } else {
                    row.barred.insert(decision.pairing as usize);
                }
            }
        }
        Ok(board)
    }

    /// The board once more.
    pub fn copy(&self, alloc: Global) -> Result<Board, Memory> {
        Ok(Board {
            rows: Vec::from_slice(alloc, &self.rows)?,
        })
    }

    /// Whether nothing is decided.
    pub fn is_empty(&self) -> bool {
        self.rows.iter().all(|row| row.is_empty())
    }

    /// The row of a member.
    pub fn row(&self, member: usize) -> Row {
        match self.rows.get(member) {
            Some(row) => *row,
            None => Row::new(),
        }
    }

    /// Replaces the row of a member.
    pub fn set(&mut self, member: usize, row: Row) {
        if let Some(own) = self.rows.get_mut(member) {
            *own = row;
        }
    }

    /// How many members are decided to fly the pairing.
    pub fn crew(&self, pairing: usize) -> u32 {
        let mut crew: u32 = 0;
        for row in &self.rows {
            if row.flown.contains(pairing) {
                crew = crew.saturating_add(1);
            }
        }
        crew
    }

    /// Whether more members than needed are decided to fly the pairing, or fewer are left for it.
    fn is_miscrewed(&self, pairing: usize, need: u32) -> bool {
        let mut flown: u32 = 0;
        let mut possible: u32 = 0;
        for row in &self.rows {
            if row.flown.contains(pairing) {
                flown = flown.saturating_add(1);
            }
            if !row.barred.contains(pairing) {
                possible = possible.saturating_add(1);
            }
        }
        flown > need || possible < need
    }

    /// Whether some pairing can't have its crew.
    pub fn has_miscrewed(&self, problem: &Problem) -> bool {
        for (pairing, needed) in problem.base.pairings.as_slice().iter().enumerate() {
            if self.is_miscrewed(pairing, needed.need) {
                return true;
            }
        }
        false
    }
}
