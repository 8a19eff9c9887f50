//! Members that are known to have no line above a bound: under these prices (dual prices) none has a negative reduced cost.

use crate::limits::MOST_BARREN;
use duty_calendar::{Copied, Memory};
use flat_search::{bid_asked, floor_of};
use roster_model::{Goal, Lens};
use std::alloc::Global;

/// What is known of a member under some weights: no line is above this, by a lens, where a goal asks at least so much.
#[derive(Drop)]
struct Barren {
    weights: Vec<i64>,
    floor: u32,
    asked: u64,
    over: i64,
    lens: Lens,
}

/// What is known of each member, the newest last.
#[derive(Drop)]
pub(crate) struct AllBarren {
    members: Vec<Vec<Barren>>,
}

impl Barren {
    /// Whether it holds under these weights where the goal asks its part of the member.
    fn holds(&self, member: usize, goal: &Goal, weights: &[i64]) -> bool {
        self.floor <= floor_of(goal, member)
            && self.asked & !bid_asked(goal, member) == 0
            && self.weights.as_slice() == weights
    }
}

impl AllBarren {
    /// Nothing of so many members.
    pub(crate) fn new(alloc: Global, members: usize) -> Result<AllBarren, Memory> {
        let mut all = Vec::new(alloc);
        for _member in 0..members {
            all.push(Vec::new(alloc))?;
        }
        Ok(AllBarren { members: all })
    }

    /// What no line of the member is above, and by which lens, if that is known.
    pub(crate) fn find(
        &self,
        alloc: Global,
        member: usize,
        goal: &Goal,
        weights: &[i64],
    ) -> Result<Option<(i64, Lens)>, Memory> {
        let Some(own) = self.members.get(member) else {
            return Ok(None);
        };
        for known in own.iter().rev() {
            if known.holds(member, goal, weights) {
                return Ok(Some((known.over, known.lens.copy(alloc)?)));
            }
        }
        Ok(None)
    }

    /// Remembers that no line of the member is above this, by the lens.
    pub(crate) fn add(
        &mut self,
        alloc: Global,
        member: usize,
        goal: &Goal,
        weights: &[i64],
        over: i64,
        lens: &Lens,
    ) -> Result<(), Memory> {
        let Some(own) = self.members.get_mut(member) else {
            return Ok(());
        };
        if own.len() >= MOST_BARREN {
            own.remove(0);
        }
        own.push(Barren {
            weights: Vec::from_slice(alloc, weights)?,
            floor: floor_of(goal, member),
            asked: bid_asked(goal, member),
            over,
            lens: lens.copy(alloc)?,
        })?;
        Ok(())
    }
}
