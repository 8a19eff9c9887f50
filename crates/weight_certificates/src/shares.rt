//! How often the lines of rounds had each pairing.

use duty_calendar::Memory;
use roster_model::{Line, Node, Problem};
use std::alloc::Global;

/// For each member and each pairing, in how many rounds the member's line had the pairing.
#[derive(Drop)]
pub(crate) struct Shares {
    counts: Vec<Vec<u32>>,
}

/// Counts a line among those of its member.
fn count_line(counts: &mut [u32], line: &Line) {
    for pairing in line.pairings() {
        if let Some(count) = counts.get_mut(*pairing as usize) {
            *count = count.saturating_add(1);
        }
    }
}

/// How the pair of greatest share is found: a share of all rounds leaves nothing to decide and comes last.
fn rank(count: u32, rounds: u32) -> u32 {
    if count < rounds {
        count.saturating_add(1)
    } else {
        0
    }
}

impl Shares {
    /// No round yet.
    pub(crate) fn new(alloc: Global, problem: &Problem) -> Result<Shares, Memory> {
        let mut counts = Vec::new(alloc);
        for _member in 0..problem.base.members.len() {
            counts.push(vec![in alloc; 0u32; problem.base.pairings.len()]?)?;
        }
        Ok(Shares { counts })
    }

    /// Counts a round.
    pub(crate) fn add(&mut self, round: &[Line]) {
        for (member, line) in round.iter().enumerate() {
            if let Some(counts) = self.counts.get_mut(member) {
                count_line(counts, line);
            }
        }
    }

    /// In how many rounds the member's line had the pairing.
    fn count(&self, member: u32, pairing: u32) -> u32 {
        match self.counts.get(member as usize) {
            Some(counts) => match counts.get(pairing as usize) {
                Some(count) => *count,
                None => 0,
            },
            None => 0,
        }
    }

    /// The member's undecided pairing of greatest share below all of so many rounds, with its rank.
    fn greatest_of(
        &self,
        problem: &Problem,
        node: &Node,
        rounds: u32,
        member: u32,
    ) -> Option<(u32, u32)> {
        let mut best: Option<(u32, u32)> = None;
        for pairing in 0..problem.base.pairings.len() as u32 {
            let rank = rank(self.count(member, pairing), rounds);
            let most = match best {
                Some((_pairing, most)) => most,
                None => 0,
            };
            if rank > most && !node.is_decided(member, pairing) {
                best = Some((pairing, rank));
            }
        }
        best
    }

    /// The undecided pair of greatest share below all of so many rounds.
    pub(crate) fn greatest(
        &self,
        problem: &Problem,
        node: &Node,
        rounds: u32,
    ) -> Option<(u32, u32)> {
        let mut best: Option<(u32, u32)> = None;
        let mut most = 0;
        for member in 0..problem.base.members.len() as u32 {
            if let Some((pairing, rank)) = self.greatest_of(problem, node, rounds, member) {
                if rank > most {
                    best = Some((member, pairing));
                    most = rank;
                }
            }
        }
        best
    }
}
