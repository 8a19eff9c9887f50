//! Rosters that were found, with their scores.

use crate::limits::KNOWN;
use bid_score::score;
use duty_calendar::{Copied, Memory};
use flat_search::{are_known, is_granted, is_member, number};
use roster_model::{BidRef, Goal, Line, Problem, Roster};
use std::alloc::Global;

/// A roster, and the scores of its members.
#[derive(Drop)]
pub struct Known {
    pub roster: Roster,
    scores: Vec<u32>,
}

/// Rosters, the newest last.
#[derive(Drop)]
pub struct AllKnown {
    rosters: Vec<Known>,
}

/// The member's score for the line.
fn score_of(problem: &Problem, member: u32, line: &Line) -> u32 {
    if is_member(problem, member) && are_known(problem, line.pairings()) {
        score(problem, member, line)
    } else {
        0
    }
}

/// The scores of all members.
fn scores_of(alloc: Global, problem: &Problem, roster: &[Line]) -> Result<Vec<u32>, Memory> {
    let mut scores = Vec::new(alloc);
    for (member, line) in roster.iter().enumerate() {
        scores.push(score_of(problem, number(member), line))?;
    }
    Ok(scores)
}

impl Known {
    /// Whether the scores reach these floors.
    fn reaches(&self, floors: &[u32]) -> bool {
        self.scores
            .iter()
            .zip(floors)
            .all(|(score, floor)| *floor <= *score)
    }

    /// Whether the roster grants the bid, if there is one.
    fn grants(&self, problem: &Problem, grant: Option<BidRef>) -> bool {
        let Some(bid) = grant else {
            return true;
        };
        match self.roster.as_slice().get(bid.member as usize) {
            Some(line) => is_granted(problem, bid.member, bid.bid, line),
            None => false,
        }
    }

    /// The score of a member.
    pub fn score(&self, member: usize) -> u32 {
        match self.scores.get(member) {
            Some(score) => *score,
            None => 0,
        }
    }
}

impl AllKnown {
    /// No roster.
    pub fn new(alloc: Global) -> AllKnown {
        AllKnown {
            rosters: Vec::new(alloc),
        }
    }

    /// Whether no roster is known.
    pub fn is_empty(&self) -> bool {
        self.rosters.is_empty()
    }

    /// Adds a roster, if it is not known.
    pub fn add(&mut self, alloc: Global, problem: &Problem, roster: &Roster) -> Result<(), Memory> {
        if self.rosters.iter().any(|known| known.roster == *roster) {
            return Ok(());
        }
        if self.rosters.len() >= KNOWN {
            self.rosters.remove(0);
        }
        self.rosters.push(Known {
            scores: scores_of(alloc, problem, roster.as_slice())?,
            roster: roster.copy(alloc)?,
        })?;
        Ok(())
    }

    /// The newest roster that meets the goal.
    pub fn meeting(
        &self,
        alloc: Global,
        problem: &Problem,
        goal: &Goal,
    ) -> Result<Option<Roster>, Memory> {
        for known in self.rosters.iter().rev() {
            if known.reaches(goal.floors.as_slice()) && known.grants(problem, goal.grant) {
                return Ok(Some(known.roster.copy(alloc)?));
            }
        }
        Ok(None)
    }

    /// Whether a roster grants the bid and reaches so many of the scores.
    pub fn reaches(&self, problem: &Problem, scores: &[u32], places: usize, bid: BidRef) -> bool {
        let floors = scores.get(..places.min(scores.len())).unwrap_or(&[]);
        self.rosters.iter().any(|known| known.reaches(floors) && known.grants(problem, Some(bid)))
    }

    /// Of the rosters that reach the first floors, the newest with the greatest score at the next member.
    pub fn best(&self, before: &[u32]) -> Option<&Known> {
        let mut best: Option<&Known> = None;
        let mut most = 0;
        for known in &self.rosters {
            let score = known.score(before.len());
            if known.reaches(before) && (best.is_none() || score >= most) {
                best = Some(known);
                most = score;
            }
        }
        best
    }
}
