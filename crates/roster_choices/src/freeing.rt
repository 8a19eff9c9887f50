//! Which members a repair frees (the neighbourhood): the focus, who holds the pairings that a mix gives it, and who holds those
//! that a mix gives these.

use crate::chance::Chance;
use crate::limits::DRAWS;
use duty_calendar::Memory;
use flat_search::{Board, PairingSet, Row, number};
use line_mixes::{Kept, Mix};
use roster_model::{Line, Problem};
use std::alloc::Global;

/// What a repair begins with: the lines of a roster, at whose focus more is wanted, and a mix that has more there.
#[derive(Clone, Copy)]
pub struct Begun<'a> {
    pub base: &'a [Line],
    pub focus: usize,
    pub mix: &'a Mix,
}

/// The members that are free.
#[derive(Drop)]
pub struct Free {
    members: Vec<usize>,
}

/// The members whose line has the pairing.
fn holders(alloc: Global, base: &[Line], pairing: u32) -> Result<Vec<usize>, Memory> {
    let mut members = Vec::new(alloc);
    for (member, line) in base.iter().enumerate() {
        if line.pairings().contains(&pairing) {
            members.push(member)?;
        }
    }
    Ok(members)
}

/// One of the members that fly the pairing, by chance.
fn holder(
    alloc: Global,
    base: &[Line],
    pairing: u32,
    chance: &mut Chance,
) -> Result<Option<usize>, Memory> {
    let members = holders(alloc, base, pairing)?;
    let at = chance.below(members.len());
    Ok(members.get(at).copied())
}

/// A line that the mix gives the member, drawn by share.
fn drawn_line(mix: &Mix, member: usize, chance: &mut Chance) -> Option<usize> {
    let mut left = i64::from(number(chance.below(65_536)));
    for share in mix.shares(member) {
        left = left.wrapping_sub(share.part);
        if left < 0 {
            return Some(share.place);
        }
    }
    None
}

/// A pairing that the mix gives the member, by chance.
fn drawn_pairing(kept: &Kept, mix: &Mix, member: usize, chance: &mut Chance) -> Option<u32> {
    let shares = mix.shares(member);
    let share = shares.get(chance.below(shares.len()))?;
    let pairings = kept.pairings(member, share.place);
    pairings.get(chance.below(pairings.len())).copied()
}

impl Free {
    /// Frees the member, if it is not.
    fn add(&mut self, member: usize) -> Result<(), Memory> {
        if !self.members.contains(&member) {
            self.members.push(member)?;
        }
        Ok(())
    }

    /// One member more: anyone, or who flies a pairing that the mix gives a free member.
    fn draw(
        &self,
        alloc: Global,
        kept: &Kept,
        begun: &Begun,
        chance: &mut Chance,
    ) -> Result<Option<usize>, Memory> {
        if chance.below(4) == 0 {
            return Ok(Some(chance.below(begun.base.len())));
        }
        let Some(member) = self.members.get(chance.below(self.members.len())) else {
            return Ok(None);
        };
        match drawn_pairing(kept, begun.mix, *member, chance) {
            Some(pairing) => holder(alloc, begun.base, pairing, chance),
            None => Ok(None),
        }
    }

    /// Frees who flies the pairings of a line that the mix gives the focus, while there are fewer than so many.
    fn add_rivals(
        &mut self,
        alloc: Global,
        kept: &Kept,
        begun: &Begun,
        size: usize,
        chance: &mut Chance,
    ) -> Result<(), Memory> {
        let Some(place) = drawn_line(begun.mix, begun.focus, chance) else {
            return Ok(());
        };
        for pairing in kept.pairings(begun.focus, place).iter().rev() {
            if self.members.len() < size {
                if let Some(member) = holder(alloc, begun.base, *pairing, chance)? {
                    self.add(member)?;
                }
            }
        }
        Ok(())
    }

    /// The focus, who flies what the mix gives it, and others by chance: so many members.
    pub fn chosen(
        alloc: Global,
        kept: &Kept,
        begun: &Begun,
        size: usize,
        chance: &mut Chance,
    ) -> Result<Free, Memory> {
        let mut free = Free {
            members: Vec::new(alloc),
        };
        free.add(begun.focus)?;
        free.add_rivals(alloc, kept, begun, size, chance)?;
        for _ in 0..DRAWS {
            if free.members.len() >= size {
                return Ok(free);
            }
            if let Some(member) = free.draw(alloc, kept, begun, chance)? {
                free.add(member)?;
            }
        }
        Ok(free)
    }

    /// The pairings that the free members fly.
    fn pairings(&self, base: &[Line]) -> PairingSet {
        let mut set = PairingSet::new();
        for member in &self.members {
            if let Some(line) = base.get(*member) {
                set = set.joined(&PairingSet::of(line.pairings()));
            }
        }
        set
    }

    /// The board in which the others keep their lines, and the free may fly what they fly together.
    pub fn board(&self, alloc: Global, problem: &Problem, base: &[Line]) -> Result<Board, Memory> {
        let pairings = problem.base.pairings.len();
        let open = self.pairings(base);
        let mut board = Board::empty(alloc, problem.base.members.len())?;
        for (member, line) in base.iter().enumerate() {
            if self.members.contains(&member) {
                board.set(member, Row::among(&open, pairings));
            } else {
                board.set(member, Row::fixed(line.pairings(), pairings));
            }
        }
        Ok(board)
    }
}
