//! Steps of a mix: share of a member moves from the line that is most above the needs to one that is least.

use crate::columns::Columns;
use crate::kept::Kept;
use crate::listed::Listed;
use crate::mix::Mix;
use crate::shares::{Share, give, shift, take, weigh};
use duty_calendar::Memory;

/// A line by its place, and by how much it is above the needs.
#[derive(Clone, Copy)]
struct Level {
    at: usize,
    above: i64,
}

/// Of these lines, the one that is least above the needs.
fn scarcest(lines: &Listed, places: &[usize], misses: &[i64]) -> Level {
    let mut least = Level {
        at: usize::MAX,
        above: i64::MAX,
    };
    for place in places {
        let above = weigh(lines.line(*place), misses);
        if above < least.above {
            least = Level { at: *place, above };
        }
    }
    least
}

/// Two lines of a member: a share of one, by its place among the shares, and by how much it is above the needs; the other by its
/// number, and by how much that one is.
#[derive(Clone, Copy)]
struct Gap {
    at: usize,
    giver: Share,
    above: i64,
    to: usize,
    below: i64,
}

/// Of the shares, by their places among these, the one whose line is most above the needs, and the one whose line is least.
fn gap_among(lines: &Listed, shares: &[Share], misses: &[i64]) -> Option<Gap> {
    let first = shares.first()?;
    let mut gap = Gap {
        at: 0,
        giver: *first,
        above: i64::MIN,
        to: first.place,
        below: i64::MAX,
    };
    for (at, share) in shares.iter().enumerate() {
        let above = weigh(lines.line(share.place), misses);
        if above < gap.below {
            gap.to = share.place;
            gap.below = above;
        }
        if above > gap.above {
            gap.at = at;
            gap.giver = *share;
            gap.above = above;
        }
    }
    Some(gap)
}

/// How much share goes from a line to another that is less above the needs by `gap`: none where the misses would not
/// be more even.
fn step_size(gap: i64, distance: i64, share: i64) -> i64 {
    if gap <= 0 || gap.wrapping_add(gap) <= distance {
        return 0;
    }
    match gap.checked_div(distance) {
        Some(size) => size.max(1).min(share),
        None => 0,
    }
}

/// How much share goes over the gap: none where the misses would not be more even.
fn size_over(kept: &Kept, member: usize, gap: &Gap) -> i64 {
    if gap.giver.place == gap.to || gap.above <= gap.below {
        return 0;
    }
    let (Some(from), Some(into)) = (
        kept.profile(member, gap.giver.place),
        kept.profile(member, gap.to),
    ) else {
        return 0;
    };
    let distance = from.pairings.distance(&into.pairings);
    step_size(gap.above.wrapping_sub(gap.below), distance, gap.giver.part)
}

/// What a step comes to: by how much the line that is least above the needs is above them, where all columns are looked at; and
/// whether share was moved.
#[derive(Clone, Copy)]
pub(crate) struct Step {
    pub below: i64,
    pub is_moved: bool,
}

impl Step {
    /// No share is moved.
    fn none(below: i64) -> Step {
        Step {
            below,
            is_moved: false,
        }
    }
}

impl Mix {
    /// Moves share of a member from the line that is most above the needs to the one that is least, among the columns
    /// or among the lines with a share.
    pub(crate) fn step(
        &mut self,
        kept: &Kept,
        columns: &Columns,
        member: usize,
        all: bool,
    ) -> Result<Step, Memory> {
        let (Some(shares), Some(lines)) = (self.shares.get_mut(member), kept.lines(member)) else {
            return Ok(Step::none(0));
        };
        if !all && shares.len() < 2 {
            return Ok(Step::none(0));
        }
        let Some(mut gap) = gap_among(lines, shares, &self.misses) else {
            return Ok(Step::none(0));
        };
        if all {
            let scarcest = scarcest(lines, columns.places(member), &self.misses);
            gap.to = scarcest.at;
            gap.below = scarcest.above;
        }
        let size = size_over(kept, member, &gap);
        if size == 0 {
            return Ok(Step::none(gap.below));
        }
        let given = lines.line(gap.giver.place);
        shift(&mut self.misses, given, size.wrapping_neg());
        shift(&mut self.misses, lines.line(gap.to), size);
        take(shares, gap.at, size);
        give(shares, gap.to, size)?;
        Ok(Step {
            below: gap.below,
            is_moved: true,
        })
    }
}
