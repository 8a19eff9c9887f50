//! The line of all that is left to be flown.

use crate::chosen::{Choice, obeys};
use crate::covering::Choosing;
use crate::crewing::Crewing;
use crate::limits::TEST_STEPS;
use duty_calendar::{List, Memory};
use flat_search::{Board, PairingSet, are_known, is_member, number};
use line_legality::{Illegal, legal};
use line_mixes::Kept;
use roster_model::{Goal, Line, Problem};
use std::alloc::Global;

/// The credit of a member's fixed events.
fn fixed_credit(problem: &Problem, member: usize) -> u64 {
    let mut credit: u64 = 0;
    if let Some(member) = problem.base.members.as_slice().get(member) {
        for event in member.fixed.as_slice() {
            credit = credit.saturating_add(u64::from(event.credit));
        }
    }
    credit
}

/// Whether the member may have so much credit by pairings.
fn may_have(problem: &Problem, member: usize, credit: u64) -> bool {
    let Some(owner) = problem.base.members.as_slice().get(member) else {
        return false;
    };
    let all = credit.saturating_add(fixed_credit(problem, member));
    all >= u64::from(owner.low) && all <= u64::from(owner.high)
}

/// The pairings that are left once the line is chosen too; none where one of them needs more than one member.
fn rest_behind(
    alloc: Global,
    crewing: &Crewing,
    choice: &Choice,
) -> Result<Option<List<u32>>, Memory> {
    let mut pairings = List::new(alloc);
    for (pairing, rest) in crewing.rest().iter().enumerate() {
        let own = u32::from(choice.pairings.contains(pairing));
        let rest = rest.saturating_sub(own);
        if rest > 1 {
            return Ok(None);
        }
        if rest == 1 && pairings.push(number(pairing)).is_err() {
            return Err(Memory::NoMemory);
        }
    }
    Ok(Some(pairings))
}

/// Whether the member may fly the line.
fn is_legal(alloc: Global, problem: &Problem, member: usize, line: &Line) -> Result<bool, Memory> {
    let owner = number(member);
    if !is_member(problem, owner) || !are_known(problem, line.pairings()) {
        return Ok(false);
    }
    match legal(alloc, problem, owner, line) {
        Ok(()) => Ok(true),
        Err(Illegal::NoMemory) => Err(Memory::NoMemory),
        Err(_why) => Ok(false),
    }
}

/// The number of the line of these pairings, where it is legal, serves and obeys the board.
fn serving(
    alloc: Global,
    problem: &Problem,
    kept: &mut Kept,
    goal: &Goal,
    board: &Board,
    member: usize,
    pairings: List<u32>,
) -> Result<Option<usize>, Memory> {
    let set = PairingSet::of(pairings.as_slice());
    let Some(line) = Line::new(pairings) else {
        return Ok(None);
    };
    if !obeys(&board.row(member), &set) || !is_legal(alloc, problem, member, &line)? {
        return Ok(None);
    }
    let Some(place) = kept.keep(alloc, problem, member, line)? else {
        return Ok(None);
    };
    match kept.profile(member, place) {
        Some(profile) if profile.serves(goal, member) => Ok(Some(place)),
        _ => Ok(None),
    }
}

impl Choosing {
    /// Where two members are left, one of them flies one of these lines and the other all that is left then, if that serves:
    /// tells whether it does, and has the lines chosen.
    pub(crate) fn flies_rest(
        &mut self,
        alloc: Global,
        problem: &Problem,
        kept: &mut Kept,
        goal: &Goal,
        board: &Board,
        left: &[usize],
    ) -> Result<bool, Memory> {
        let all = self.crewing.credit();
        for at in left.iter().rev() {
            let Some(choice) = self.choices.get(*at).copied() else {
                continue;
            };
            let Some(other) = self.crewing.other(choice.member) else {
                continue;
            };
            if !may_have(problem, other, all.saturating_sub(choice.credit)) {
                continue;
            }
            let Some(pairings) = rest_behind(alloc, &self.crewing, &choice)? else {
                continue;
            };
            self.steps = self.steps.saturating_sub(TEST_STEPS);
            let found = serving(alloc, problem, kept, goal, board, other, pairings)?;
            if found.is_some() {
                self.crewing.set_place(choice.member, Some(choice.place));
                self.crewing.set_place(other, found);
                return Ok(true);
            }
        }
        Ok(false)
    }
}
