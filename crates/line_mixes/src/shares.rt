//! Shares of kept lines, and what pairings weigh.

use duty_calendar::Memory;
use roster_model::Problem;

/// What the shares of a member's lines are together.
pub const WHOLE: i64 = 65_536;

/// A line by its number, and its share.
#[derive(Clone, Copy)]
pub struct Share {
    pub place: usize,
    pub part: i64,
}

/// What the weights of some pairings are together.
pub(crate) fn weigh(pairings: &[u32], weights: &[i64]) -> i64 {
    let mut sum: i64 = 0;
    for pairing in pairings {
        if let Some(weight) = weights.get(*pairing as usize) {
            sum = sum.wrapping_add(*weight);
        }
    }
    sum
}

/// What the needs weigh together.
pub fn needed(problem: &Problem, weights: &[i64]) -> i64 {
    let mut sum: i64 = 0;
    for (pairing, weight) in problem.base.pairings.as_slice().iter().zip(weights) {
        sum = sum.wrapping_add(weight.wrapping_mul(i64::from(pairing.need)));
    }
    sum
}

/// Adds so much at each of the pairings.
pub(crate) fn shift(misses: &mut [i64], pairings: &[u32], by: i64) {
    for pairing in pairings {
        if let Some(miss) = misses.get_mut(*pairing as usize) {
            *miss = miss.wrapping_add(by);
        }
    }
}

/// Gives a line more share.
pub(crate) fn give(shares: &mut Vec<Share>, place: usize, part: i64) -> Result<(), Memory> {
    for share in shares.iter_mut() {
        if share.place == place {
            share.part = share.part.wrapping_add(part);
            return Ok(());
        }
    }
    shares.push(Share { place, part })?;
    Ok(())
}

/// Takes share from the line of a place among the shares, which leaves them where it has none left.
pub(crate) fn take(shares: &mut Vec<Share>, at: usize, part: i64) {
    let mut is_gone = false;
    if let Some(share) = shares.get_mut(at) {
        share.part = share.part.wrapping_sub(part);
        is_gone = share.part <= 0;
    }
    if is_gone && at < shares.len() {
        shares.swap_remove(at);
    }
}

/// The greatest of the shares.
pub(crate) fn greatest(shares: &[Share]) -> Option<Share> {
    let mut best: Option<Share> = None;
    let mut most = 0;
    for share in shares {
        if best.is_none() || share.part > most {
            best = Some(*share);
            most = share.part;
        }
    }
    best
}

/// Gives a line the whole share.
pub(crate) fn push_whole(shares: &mut Vec<Share>, place: Option<&usize>) -> Result<(), Memory> {
    if let Some(place) = place {
        shares.push(Share {
            place: *place,
            part: WHOLE,
        })?;
    }
    Ok(())
}

/// Scales the shares so that they are a whole again; the first takes what rounding leaves.
pub(crate) fn scale(shares: &mut [Share]) {
    let mut total: i64 = 0;
    for share in shares.iter() {
        total = total.wrapping_add(share.part);
    }
    let mut rest = WHOLE;
    for share in shares.iter_mut() {
        let part = share
            .part
            .wrapping_mul(WHOLE)
            .checked_div(total)
            .unwrap_or(0);
        share.part = part;
        rest = rest.wrapping_sub(part);
    }
    if let Some(first) = shares.first_mut() {
        first.part = first.part.wrapping_add(rest);
    }
}
