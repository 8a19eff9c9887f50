//! What a flat search goes through: the places that a row leaves open, the bids that they decide, and the limits of the member's
//! line; and the tables of a stage.

use crate::blocks::Blocks;
use crate::board::Row;
use crate::demands::Wanted;
use crate::free_hours::Rested;
use crate::hours::Hours;
use crate::places::{Place, look_ahead};
use crate::profiles::{is_member, number};
use crate::scopes::Scope;
use crate::sheets::Sheet;
use crate::sizes::WINDOWS;
use crate::tables::{Change, LOWEST, Table};
use duty_calendar::Memory;
use line_items::{base_usage, window_caps};
use roster_model::{Goal, Lens, Problem};
use std::alloc::Global;

/// How many wanted bids are told apart at most.
const MOST_BIDS: usize = 64;

/// The course of a member: the places, the last of which is the end; what wanted bids weigh, by their bits; which of them are
/// spoiled by pairings; how much a line may lose of what they weigh; the least and the greatest credit; the days that are busy
/// anyway, and how many more may be; the limits of the windows; and
/// what may still be gained by hours and by free hours, where that was asked for.
#[derive(Drop)]
pub(crate) struct Course {
    pub places: Vec<Place>,
    pub weights: Vec<u32>,
    pub spoiled: u64,
    pub allowed: u32,
    pub low: u32,
    pub high: u32,
    pub busy: u32,
    pub most_days: u32,
    pub caps: [u32; WINDOWS],
    pub start: Start,
    pub hours: Hours,
    pub blocks: Blocks,
    pub has_blocks: bool,
}

/// What a line begins with: wanted bids that are not granted, as bits, credit, free hours, and minutes in windows.
#[derive(Clone, Copy)]
pub(crate) struct Start {
    pub bids: u64,
    pub credit: u32,
    pub rested: Rested,
    pub usage: [u32; WINDOWS],
}

/// What may be gained by bids, and which of them the table tells apart.
#[derive(Drop)]
pub(crate) struct Bids {
    pub table: Table,
    pub told: u64,
}

/// What some bids weigh together.
pub(crate) fn weigh_bids(weights: &[u32], bids: u64) -> u32 {
    let mut left = bids;
    let mut sum: u32 = 0;
    for _ in 0..64u32 {
        if left == 0 {
            return sum;
        }
        let bit = left.trailing_zeros() as usize;
        sum = sum.saturating_add(weights.get(bit).copied().unwrap_or(0));
        left &= left.wrapping_sub(1);
    }
    sum
}

/// Adds the states in which a bid of this weight is lost too.
fn add_lost(lost: &mut Vec<u32>, weight: u32) -> Result<(), Memory> {
    for state in 0..lost.len() {
        let without = lost.get(state).copied().unwrap_or(0);
        lost.push(without.saturating_add(weight))?;
    }
    Ok(())
}

/// What is lost in each state of bids of these weights.
fn all_lost(alloc: Global, weights: &[u32]) -> Result<Vec<u32>, Memory> {
    let mut lost: Vec<u32> = Vec::new(alloc);
    lost.push(0)?;
    for weight in weights {
        add_lost(&mut lost, *weight)?;
    }
    Ok(lost)
}

/// What each state lets be gained at the end: nothing can be where too much is lost.
fn ends_of(alloc: Global, lost: &[u32], allowed: u32) -> Result<Vec<i64>, Memory> {
    let mut ends = Vec::new(alloc);
    for sum in lost {
        ends.push(if *sum > allowed { LOWEST } else { 0 })?;
    }
    Ok(ends)
}

impl Course {
    /// The course of a member whose decisions are a row, for a goal, with the windows of a lens; none where it has no line.
    pub(crate) fn new(
        alloc: Global,
        problem: &Problem,
        sheet: &Sheet,
        member: usize,
        goal: &Goal,
        row: &Row,
        lens: &Lens,
    ) -> Result<Option<Course>, Memory> {
        let Some(scope) = Scope::narrowed(alloc, problem, sheet, member, goal, row, lens)? else {
            return Ok(None);
        };
        let (places, wanted) = (scope.places, scope.wanted);
        let Some(owner) = problem.base.members.as_slice().get(member) else {
            return Ok(None);
        };
        let days = problem.base.rules.horizon.days();
        let may_be_busy = days.saturating_sub(problem.base.rules.days_off);
        let mut course = Course {
            hours: Hours::new(alloc, owner, sheet.credit, places.len().saturating_sub(1))?,
            blocks: Blocks::new(alloc, sheet, &places)?,
            has_blocks: false,
            places,
            weights: Vec::new(alloc),
            spoiled: 0,
            allowed: scope.allowed,
            low: owner.low,
            high: owner.high,
            busy: sheet.days,
            most_days: may_be_busy.saturating_sub(sheet.days.count_ones()),
            caps: [u32::MAX; WINDOWS],
            start: Start {
                bids: 0,
                credit: sheet.credit,
                rested: sheet.rested,
                usage: [0; WINDOWS],
            },
        };
        course.look_at_windows(problem, member, lens);
        course.add_bids(&wanted)?;
        look_ahead(&mut course.places, sheet.days);
        Ok(Some(course))
    }

    /// Has the limits of the lens's windows, and what the member has flown in them.
    fn look_at_windows(&mut self, problem: &Problem, member: usize, lens: &Lens) {
        let owner = number(member);
        if lens.windows.len() == 0 || !is_member(problem, owner) {
            return;
        }
        self.start.usage = base_usage::<WINDOWS>(problem, owner, lens);
        let limits = window_caps::<WINDOWS>(lens.windows.as_slice());
        let own = self.caps.iter_mut().zip(limits.iter());
        for (cap, limit) in own.take(lens.windows.len()) {
            *cap = *limit;
        }
    }

    /// Marks the places that decide a wanted bid.
    fn mark(&mut self, one: &Wanted, bit: u64) {
        for place in self.places.iter_mut() {
            let is_deciding = one.pairings.contains(place.flight.pairing as usize);
            if is_deciding && one.spoils {
                place.spoils |= bit;
            } else if is_deciding {
                place.grants |= bit;
            }
        }
    }

    /// Has the wanted bids, by bits in their order.
    fn add_bids(&mut self, wanted: &[Wanted]) -> Result<(), Memory> {
        for (bid, one) in wanted.iter().enumerate() {
            if bid >= MOST_BIDS {
                return Ok(());
            }
            let bit = 1u64 << bid;
            self.weights.push(one.weight)?;
            if one.spoils {
                self.spoiled |= bit;
            } else {
                self.start.bids |= bit;
            }
            self.mark(one, bit);
        }
        Ok(())
    }

    /// Has what each place gains, and the tables of hours; that of free hours is to be asked for.
    pub(crate) fn gain(&mut self, weights: &[i64]) {
        for place in self.places.iter_mut() {
            let pairing = place.flight.pairing as usize;
            place.gain = weights.get(pairing).copied().unwrap_or(0);
        }
        self.hours.fill(&self.places);
        self.has_blocks = false;
    }

    /// Has the table of free hours.
    pub(crate) fn look_at_free_hours(&mut self) {
        if !self.has_blocks {
            self.blocks.fill(&self.places);
            self.has_blocks = true;
        }
    }

    /// How many places there are before the end.
    pub(crate) fn len(&self) -> usize {
        self.places.len().saturating_sub(1)
    }

    /// The table that tells so many bids apart, the heaviest.
    pub(crate) fn bids(&self, alloc: Global, bids: usize) -> Result<Bids, Memory> {
        let bids = bids.min(self.weights.len());
        let lost = all_lost(alloc, self.weights.get(0..bids).unwrap_or(&[]))?;
        let ends = ends_of(alloc, &lost, self.allowed)?;
        let told = (1u64 << (bids % 64)).wrapping_sub(1);
        let mut table = Table::new(alloc, &ends, self.len())?;
        for back in 1..self.places.len() {
            if let Some(place) = self.places.get(self.len().saturating_sub(back)) {
                let change = Change::Bids {
                    spoils: (place.spoils & told) as usize,
                    grants: (place.grants & told) as usize,
                };
                table.fill(back, place.taking(self.len()), change);
            }
        }
        Ok(Bids { table, told })
    }
}
