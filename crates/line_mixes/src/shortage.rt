//! Why kept lines can't meet the needs: prices under which they weigh less than these (a Farkas ray), and which decisions are the
//! reasons for that (a conflict).

use crate::kept::Kept;
use crate::limits::{AWAY, FINEST};
use crate::shares::{needed, weigh};
use crate::simplex::add_up;
use duty_calendar::Memory;
use flat_search::{Board, PairingSet, number};
use roster_model::{Decision, Goal, Problem};
use std::alloc::Global;
use std::num::{nearest_i64_to_f64, saturating_f64_to_i64};

/// What pairings weigh, what the lines of each member weigh at most that may be taken, and how much more each of them may weigh so
/// that all are still short of the needs.
#[derive(Drop)]
pub struct Shortage {
    weights: Vec<f64>,
    most: Vec<f64>,
    spare: f64,
}

/// What the heaviest of the member's kept lines weighs that serves the goal and obeys the board, if there is one.
fn heaviest(
    kept: &Kept,
    goal: &Goal,
    board: &Board,
    member: usize,
    weights: &[i64],
) -> Option<i64> {
    let row = board.row(member);
    let mut most = None;
    for place in 0..kept.len(member) {
        let weight = Some(weigh(kept.pairings(member, place), weights));
        if weight > most && kept.may_fly(member, place, goal, &row) {
            most = weight;
        }
    }
    most
}

/// The one of so many bits that stands in most of these that have none of the chosen ones; 0 where all have one.
fn most_frequent(all: &[u64], chosen: u64, bits: u32) -> u64 {
    let mut best = 0;
    let mut most = 0;
    for at in 0..bits.min(64) {
        let bit = 1u64.wrapping_shl(at);
        let count = all
            .iter()
            .filter(|one| **one & chosen == 0 && **one & bit != 0)
            .count();
        if count > most {
            best = bit;
            most = count;
        }
    }
    best
}

/// Bits, few of them, of which each of these has one (a hitting set, greedily).
fn few_of(all: &[u64], bits: u32) -> u64 {
    let mut chosen = 0;
    for _ in 0..bits {
        match most_frequent(all, chosen, bits) {
            0 => return chosen,
            bit => chosen = chosen | bit,
        }
    }
    chosen
}

/// The numbers of the member's decisions.
fn own_of(alloc: Global, decisions: &[Decision], member: usize) -> Result<Vec<usize>, Memory> {
    let mut own = Vec::new(alloc);
    for (number, decision) in decisions.iter().enumerate() {
        if decision.member as usize == member {
            own.push(number)?;
        }
    }
    Ok(own)
}

/// Which decisions, of these numbers, bar a line of these pairings, as bits; all, where there are too many.
fn barring(decisions: &[Decision], own: &[usize], flown: &PairingSet) -> u64 {
    if own.len() > 64 {
        return u64::MAX;
    }
    let mut bits = 0;
    for (at, number) in (0..64_u32).zip(own) {
        if let Some(decision) = decisions.get(*number) {
            if flown.contains(decision.pairing as usize) != decision.flies {
                bits = bits | 1u64.wrapping_shl(at);
            }
        }
    }
    bits
}

/// Adds the numbers that are chosen; all of them, where there are too many.
fn push_chosen(reasons: &mut Vec<usize>, own: &[usize], chosen: u64) -> Result<(), Memory> {
    let is_all = own.len() > 64;
    for (at, number) in own.iter().enumerate() {
        let bit = 1u64.wrapping_shl((at % 64) as u32);
        if is_all || chosen & bit != 0 {
            reasons.push(*number)?;
        }
    }
    Ok(())
}

impl Shortage {
    /// What a row of a master shows, where no line takes from it what is needed there; none where next to nothing is needed.
    pub(crate) fn of_row(
        alloc: Global,
        cells: &[f64],
        sign: f64,
        pairings: usize,
        needs: &[f64],
    ) -> Result<Option<Shortage>, Memory> {
        let mut shortage = Shortage {
            weights: Vec::new(alloc),
            most: Vec::new(alloc),
            spare: 0.0,
        };
        let mut short = 0.0;
        for (column, (cell, need)) in cells.iter().zip(needs).enumerate() {
            short += sign * *cell * *need;
            if column < pairings {
                shortage.weights.push(sign * *cell)?;
            } else {
                shortage.most.push(-sign * *cell)?;
            }
        }
        shortage.spare = short / nearest_i64_to_f64(i64::from(number(needs.len())));
        Ok(if short > AWAY / 2.0 {
            Some(shortage)
        } else {
            None
        })
    }

    /// What the weights show, where kept lines that serve the goal and obey the board weigh less than the needs.
    pub fn of_weights(
        alloc: Global,
        problem: &Problem,
        kept: &Kept,
        goal: &Goal,
        board: &Board,
        weights: &[i64],
    ) -> Result<Option<Shortage>, Memory> {
        let mut short = needed(problem, weights);
        let mut shortage = Shortage {
            weights: Vec::new(alloc),
            most: Vec::new(alloc),
            spare: 0.0,
        };
        for member in 0..problem.base.members.len() {
            let Some(most) = heaviest(kept, goal, board, member, weights) else {
                return Ok(None);
            };
            short = short.wrapping_sub(most);
            shortage.most.push(nearest_i64_to_f64(most))?;
        }
        for weight in weights {
            shortage.weights.push(nearest_i64_to_f64(*weight))?;
        }
        let members = nearest_i64_to_f64(i64::from(number(problem.base.members.len())));
        shortage.spare = nearest_i64_to_f64(short) / (members + 1.0);
        Ok(if short > 0 { Some(shortage) } else { None })
    }

    /// The weights in whole numbers.
    pub fn weights(&self, alloc: Global) -> Result<Vec<i64>, Memory> {
        let mut most: f64 = 0.0;
        for weight in &self.weights {
            most = most.max(weight.abs());
        }
        let mut weights = Vec::new(alloc);
        for weight in &self.weights {
            let scaled = *weight / most * nearest_i64_to_f64(FINEST);
            weights.push(saturating_f64_to_i64(scaled.round()))?;
        }
        Ok(weights)
    }

    /// Of each of the member's kept lines that would be too heavy, which of its decisions, of these numbers, bar it.
    fn barred_by(
        &self,
        alloc: Global,
        kept: &Kept,
        goal: &Goal,
        decisions: &[Decision],
        member: usize,
        own: &[usize],
    ) -> Result<Vec<u64>, Memory> {
        let most = self.most.get(member).copied().unwrap_or(0.0) + self.spare;
        let mut all = Vec::new(alloc);
        for place in 0..kept.len(member) {
            let Some(profile) = kept.profile(member, place) else {
                continue;
            };
            let weight = add_up(&self.weights, kept.pairings(member, place), 0.0);
            if weight <= most || !profile.serves(goal, member) {
                continue;
            }
            all.push(barring(decisions, own, &profile.pairings))?;
        }
        Ok(all)
    }

    /// The numbers of decisions, few of them, without the others of which lines are short all the same.
    pub fn reasons(
        &self,
        alloc: Global,
        kept: &Kept,
        goal: &Goal,
        decisions: &[Decision],
    ) -> Result<Vec<usize>, Memory> {
        let mut reasons = Vec::new(alloc);
        for member in 0..self.most.len() {
            let own = own_of(alloc, decisions, member)?;
            let all = self.barred_by(alloc, kept, goal, decisions, member, &own)?;
            let chosen = few_of(&all, number(own.len()));
            push_chosen(&mut reasons, &own, chosen)?;
        }
        reasons.sort_unstable();
        Ok(reasons)
    }
}
