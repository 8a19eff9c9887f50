//! How good kept lines are by a mix: their shares, and what they weigh at its prices (their reduced costs).

use line_mixes::{Kept, Mix};

/// A mix, and its prices of pairings.
#[derive(Clone, Copy)]
pub struct Ranking<'a> {
    pub mix: &'a Mix,
    pub weights: &'a [i64],
}

/// The number of a line, its share, and what it weighs.
#[derive(Clone, Copy)]
pub struct Ranked {
    pub place: usize,
    pub share: i64,
    pub weight: i64,
}

/// The share of a line in the mix.
fn share_of(mix: &Mix, member: usize, place: usize) -> i64 {
    for share in mix.shares(member) {
        if share.place == place {
            return share.part;
        }
    }
    0
}

/// What some pairings weigh together.
fn weigh(pairings: &[u32], weights: &[i64]) -> i64 {
    let mut sum: i64 = 0;
    for pairing in pairings {
        if let Some(weight) = weights.get(*pairing as usize) {
            sum = sum.wrapping_add(*weight);
        }
    }
    sum
}

impl Ranking<'_> {
    /// How good a line of the member is.
    pub fn rank(&self, kept: &Kept, member: usize, place: usize) -> Ranked {
        Ranked {
            place,
            share: share_of(self.mix, member, place),
            weight: weigh(kept.pairings(member, place), self.weights),
        }
    }
}

/// Leaves the best of these lines, so many: those of great share first, then the heavy ones.
pub fn leave_best(lines: &mut Vec<Ranked>, most: usize) {
    if lines.len() > most {
        lines.sort_unstable_by_key(|line| {
            (
                line.share.wrapping_neg(),
                line.weight.wrapping_neg(),
                line.place,
            )
        });
        lines.truncate(most);
    }
}
