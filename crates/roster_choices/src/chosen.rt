//! Kept lines that may be chosen, and rosters of chosen ones.

use crate::limits::{HEAVIEST, NEWEST};
use crate::ranking::{Ranked, Ranking, leave_best};
use crate::wholes::append;
use duty_calendar::{List, Memory};
use flat_search::{Board, PairingSet, Row, is_large};
use line_mixes::{Kept, Mix};
use roster_model::{Goal, Problem, Roster};
use std::alloc::Global;

/// A kept line by its member and number, with its share in a mix, what it weighs there, its pairings and their credit.
#[derive(Clone, Copy)]
pub(crate) struct Choice {
    share: i64,
    weight: i64,
    pub member: usize,
    pub place: usize,
    pub pairings: PairingSet,
    pub credit: u64,
}

/// The credit of some pairings.
fn credit_of(problem: &Problem, pairings: &[u32]) -> u64 {
    let mut credit: u64 = 0;
    for number in pairings {
        if let Some(pairing) = problem.base.pairings.as_slice().get(*number as usize) {
            credit = credit.saturating_add(u64::from(pairing.credit));
        }
    }
    credit
}

/// Whether the pairings are what the row allows.
pub(crate) fn obeys(row: &Row, pairings: &PairingSet) -> bool {
    row.flown.is_within(pairings) && !row.barred.meets(pairings)
}

/// The newest lines of the member that serve and obey the board; in a large month the best of these alone.
fn lines_of(
    alloc: Global,
    problem: &Problem,
    kept: &Kept,
    goal: &Goal,
    board: &Board,
    ranking: Ranking,
    member: usize,
) -> Result<Vec<Ranked>, Memory> {
    let row = board.row(member);
    let mut lines = Vec::new(alloc);
    for place in (0..kept.len(member)).rev() {
        let Some(profile) = kept.profile(member, place) else {
            continue;
        };
        if lines.len() < NEWEST && obeys(&row, &profile.pairings) && profile.serves(goal, member) {
            lines.push(ranking.rank(kept, member, place))?;
        }
    }
    if is_large(problem) {
        leave_best(&mut lines, HEAVIEST);
    }
    Ok(lines)
}

/// Adds these lines of the member.
fn add_lines(
    problem: &Problem,
    kept: &Kept,
    member: usize,
    lines: &[Ranked],
    choices: &mut Vec<Choice>,
) -> Result<(), Memory> {
    for line in lines {
        let Some(profile) = kept.profile(member, line.place) else {
            continue;
        };
        choices.push(Choice {
            share: line.share,
            weight: line.weight,
            member,
            place: line.place,
            pairings: profile.pairings,
            credit: credit_of(problem, kept.pairings(member, line.place)),
        })?;
    }
    Ok(())
}

/// The lines that may be chosen, those of small share first, and of these the early ones, or in a large month the light ones.
pub(crate) fn choices(
    alloc: Global,
    problem: &Problem,
    kept: &Kept,
    goal: &Goal,
    board: &Board,
    mix: &Mix,
) -> Result<Vec<Choice>, Memory> {
    let mut choices = Vec::new(alloc);
    let weights = mix.weights(alloc)?;
    let ranking = Ranking {
        mix,
        weights: &weights,
    };
    for member in 0..problem.base.members.len() {
        let lines = lines_of(alloc, problem, kept, goal, board, ranking, member)?;
        add_lines(problem, kept, member, &lines, &mut choices)?;
    }
    if is_large(problem) {
        choices.sort_unstable_by_key(|choice| (choice.share, choice.weight, choice.place));
    } else {
        choices.sort_unstable_by_key(|choice| (choice.share, choice.place));
    }
    Ok(choices)
}

/// The roster of these lines, one of each member.
pub(crate) fn roster_of(
    alloc: Global,
    kept: &Kept,
    places: &[Option<usize>],
) -> Result<Option<Roster>, Memory> {
    let mut roster = List::new(alloc);
    for (member, place) in places.iter().enumerate() {
        let Some(place) = place else {
            return Ok(None);
        };
        let Some(line) = kept.line(alloc, member, *place)? else {
            return Ok(None);
        };
        append(&mut roster, line)?;
    }
    Ok(Some(roster))
}
