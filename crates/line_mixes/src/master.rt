//! The restricted master over all kept lines, for trees in which lines are seldom searched for: shares of lines that meet the needs,
//! where some lines may not be taken. What was worked out for one node or goal serves the next: lines are barred and let in again, and join.

use crate::kept::Kept;
use crate::limits::{CHOSEN, DEAREST};
use crate::shares::{Share, WHOLE};
use crate::simplex::{add_up, at};
use duty_calendar::Memory;
use flat_search::{Board, number};
use roster_model::{Goal, Problem};
use std::alloc::Global;
use std::num::{nearest_i64_to_f64, saturating_f64_to_i64};

/// A kept line that may have a share: its member and number, where its pairings stand, what it costs (by chance), and whether it is
/// barred, is near, and has a row.
#[derive(Clone, Copy)]
pub(crate) struct Choice {
    pub member: u32,
    pub place: u32,
    pub from: u32,
    pub to: u32,
    pub cost: f64,
    pub is_barred: bool,
    pub is_near: bool,
    pub is_basic: bool,
}

/// A line that is near and not barred: its number, the column of its member, where its pairings stand, by how much it costs more than it is
/// worth (its reduced cost), and what one of it takes from the row that was looked at last. All go through these, one behind the other.
#[derive(Clone, Copy)]
pub(crate) struct Open {
    pub number: usize,
    pub own: usize,
    pub from: usize,
    pub to: usize,
    pub rest: f64,
    pub part: f64,
}

/// A row for each pairing, and behind these one for each member: what is needed there, which line has the row, if one has, how much
/// of it, the row of the inverse, and the sum of its squares. The lines, and those of them that are near and not barred: others are called
/// near where these do not suffice (sifting), from where the last call ended. And how often a line came in since the rows were worked out.
#[derive(Drop)]
pub struct Master {
    pub(crate) pairings: usize,
    pub(crate) needs: Vec<f64>,
    pub(crate) basis: Vec<Option<usize>>,
    pub(crate) amounts: Vec<f64>,
    pub(crate) inverse: Vec<Vec<f64>>,
    pub(crate) squares: Vec<f64>,
    pub(crate) choices: Vec<Choice>,
    pub(crate) flown: Vec<u32>,
    pub(crate) open: Vec<Open>,
    pub(crate) called: usize,
    pub(crate) changes: u32,
    joined: Vec<usize>,
}

/// What a line costs at first, from 0 to 1, as if by chance.
pub(crate) fn chance(member: u32, place: u32) -> f64 {
    let mixed = place
        .wrapping_add(1)
        .wrapping_mul(2_654_435_769)
        .wrapping_add(member.wrapping_mul(1_640_531_527));
    let mixed = (mixed ^ mixed >> 15).wrapping_mul(2_246_822_519);
    nearest_i64_to_f64(i64::from(mixed >> 16)) / 65_536.0
}

/// What the row holds at these pairings and at the member's column together.
pub(crate) fn sum_at(row: &[f64], pairings: &[u32], own: usize) -> f64 {
    add_up(row, pairings, at(row, own))
}

impl Master {
    /// No lines: nothing is met.
    pub fn new(alloc: Global, problem: &Problem) -> Result<Master, Memory> {
        let mut master = Master {
            pairings: problem.base.pairings.len(),
            needs: Vec::new(alloc),
            basis: Vec::new(alloc),
            amounts: Vec::new(alloc),
            inverse: Vec::new(alloc),
            squares: Vec::new(alloc),
            choices: Vec::new(alloc),
            flown: Vec::new(alloc),
            open: Vec::new(alloc),
            called: 0,
            changes: 0,
            joined: vec![in alloc; 0usize; problem.base.members.len()]?,
        };
        for pairing in problem.base.pairings.as_slice() {
            master
                .needs
                .push(nearest_i64_to_f64(i64::from(pairing.need)))?;
        }
        for _member in problem.base.members.as_slice() {
            master.needs.push(1.0)?;
        }
        master.begin(alloc)?;
        Ok(master)
    }

    /// Begins anew: no line has a row, and each costs what it did at first.
    pub(crate) fn begin(&mut self, alloc: Global) -> Result<(), Memory> {
        self.clear(alloc)?;
        for choice in self.choices.iter_mut() {
            choice.cost = chance(choice.member, choice.place);
            choice.is_basic = false;
        }
        self.refresh(alloc)
    }

    /// The pairings of a line.
    pub(crate) fn pairings_of(&self, choice: &Choice) -> &[u32] {
        let (from, to) = (choice.from as usize, choice.to as usize);
        self.flown.get(from..to).unwrap_or(&[])
    }

    /// The column of the line's member.
    pub(crate) fn own(&self, choice: &Choice) -> usize {
        self.pairings.saturating_add(choice.member as usize)
    }

    /// Lets a kept line join, which is barred.
    fn add(&mut self, kept: &Kept, member: usize, place: usize) -> Result<(), Memory> {
        let from = number(self.flown.len());
        for pairing in kept.pairings(member, place) {
            self.flown.push(*pairing)?;
        }
        let (member, place) = (number(member), number(place));
        self.choices.push(Choice {
            member,
            place,
            from,
            to: number(self.flown.len()),
            cost: chance(member, place),
            is_barred: true,
            is_near: true,
            is_basic: false,
        })?;
        Ok(())
    }

    /// Lets the member's kept lines join that are new.
    fn join_lines(&mut self, kept: &Kept, member: usize) -> Result<(), Memory> {
        let known = self.joined.get(member).copied().unwrap_or(0);
        for place in known..kept.len(member) {
            self.add(kept, member, place)?;
        }
        if let Some(joined) = self.joined.get_mut(member) {
            *joined = kept.len(member);
        }
        Ok(())
    }

    /// Lets all kept lines join that are new. They are barred until lines are barred anew.
    pub fn join(&mut self, kept: &Kept) -> Result<(), Memory> {
        for member in 0..self.joined.len() {
            self.join_lines(kept, member)?;
        }
        Ok(())
    }

    /// Bars the lines that don't serve the goal, or don't obey the board, and lets in the others.
    pub fn bar(
        &mut self,
        alloc: Global,
        kept: &Kept,
        goal: &Goal,
        board: &Board,
    ) -> Result<(), Memory> {
        let is_dear = self.choices.iter().any(|choice| choice.cost > DEAREST);
        let is_crowded = self.is_crowded();
        self.open.truncate(0);
        for (number, choice) in self.choices.iter_mut().enumerate() {
            let (member, place) = (choice.member as usize, choice.place as usize);
            choice.is_barred = !kept.may_fly(member, place, goal, &board.row(member));
            choice.is_near = choice.is_basic || choice.is_near && !is_crowded;
            if is_dear {
                choice.cost = chance(choice.member, choice.place);
            }
            if choice.is_near && !choice.is_barred {
                self.open.push(Open::new(self.pairings, number, choice))?;
            }
        }
        self.refresh(alloc)
    }

    /// The shares of a member's lines.
    pub(crate) fn shares(&self, alloc: Global, member: usize) -> Result<Vec<Share>, Memory> {
        let mut shares = Vec::new(alloc);
        for (basic, amount) in self.basis.iter().zip(self.amounts.iter()) {
            let Some(choice) = basic.and_then(|number| self.choices.get(number)) else {
                continue;
            };
            let part = saturating_f64_to_i64((*amount * nearest_i64_to_f64(WHOLE)).round());
            if choice.member as usize == member && *amount > CHOSEN && part > 0 && part <= WHOLE {
                shares.push(Share {
                    place: choice.place as usize,
                    part,
                })?;
            }
        }
        Ok(shares)
    }
}
