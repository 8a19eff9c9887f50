//! Rosters of the heaviest lines of a mix.

use duty_calendar::{List, Memory};
use line_mixes::{Kept, Mix};
use roster_model::{Goal, Line, Problem, Roster};
use std::alloc::Global;

/// Counts the pairings of a line.
fn count(counts: &mut [u32], pairings: &[u32]) {
    for pairing in pairings {
        if let Some(count) = counts.get_mut(*pairing as usize) {
            *count = count.saturating_add(1);
        }
    }
}

/// Whether each pairing has the crew that it needs.
fn are_met(problem: &Problem, counts: &[u32]) -> bool {
    problem
        .base
        .pairings
        .as_slice()
        .iter()
        .zip(counts)
        .all(|(pairing, count)| pairing.need == *count)
}

/// Whether the lines of greatest share serve and have the crews that are needed.
fn is_whole(
    alloc: Global,
    problem: &Problem,
    kept: &Kept,
    goal: &Goal,
    mix: &Mix,
) -> Result<bool, Memory> {
    let mut counts = vec![in alloc; 0u32; problem.base.pairings.len()]?;
    for member in 0..problem.base.members.len() {
        let Some(share) = mix.greatest(member) else {
            return Ok(false);
        };
        let Some(profile) = kept.profile(member, share.place) else {
            return Ok(false);
        };
        if !profile.serves(goal, member) {
            return Ok(false);
        }
        count(&mut counts, kept.pairings(member, share.place));
    }
    Ok(are_met(problem, &counts))
}

/// Appends a line.
pub(crate) fn append(roster: &mut List<Line>, line: Line) -> Result<(), Memory> {
    match roster.push(line) {
        Ok(()) => Ok(()),
        Err(_line) => Err(Memory::NoMemory),
    }
}

/// The lines of greatest share, where they are a roster that meets the goal.
pub fn whole_of(
    alloc: Global,
    problem: &Problem,
    kept: &Kept,
    goal: &Goal,
    mix: &Mix,
) -> Result<Option<Roster>, Memory> {
    if !is_whole(alloc, problem, kept, goal, mix)? {
        return Ok(None);
    }
    let mut roster = List::new(alloc);
    for member in 0..problem.base.members.len() {
        let Some(share) = mix.greatest(member) else {
            return Ok(None);
        };
        let Some(line) = kept.line(alloc, member, share.place)? else {
            return Ok(None);
        };
        append(&mut roster, line)?;
    }
    Ok(Some(roster))
}
