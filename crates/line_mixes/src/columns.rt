//! Which kept lines a relaxation may mix (the columns of the restricted master).

use crate::kept::Kept;
use crate::limits::MOST_COLUMNS;
use crate::shares::{Share, weigh};
use duty_calendar::Memory;
use flat_search::{Care, Row};
use roster_model::{Goal, Problem};
use std::alloc::Global;

/// Numbers of kept lines of each member.
#[derive(Drop)]
pub struct Columns {
    places: Vec<Vec<usize>>,
}

/// The newest lines of the member that may serve and obey the row.
fn places_of(
    alloc: Global,
    kept: &Kept,
    goal: &Goal,
    member: usize,
    row: &Row,
    care: Care,
) -> Result<Vec<usize>, Memory> {
    let mut places = Vec::new(alloc);
    for place in (0..kept.len(member)).rev() {
        let Some(profile) = kept.profile(member, place) else {
            continue;
        };
        if places.len() < MOST_COLUMNS
            && row.flown.is_within(&profile.pairings)
            && !row.barred.meets(&profile.pairings)
            && profile.may_serve(goal, member, care)
        {
            places.push(place)?;
        }
    }
    Ok(places)
}

impl Columns {
    /// No member yet.
    pub fn new(alloc: Global) -> Columns {
        Columns {
            places: Vec::new(alloc),
        }
    }

    /// Appends the next member's lines, and tells whether there are any.
    pub fn append(
        &mut self,
        alloc: Global,
        kept: &Kept,
        goal: &Goal,
        member: usize,
        row: &Row,
        care: Care,
    ) -> Result<bool, Memory> {
        let places = places_of(alloc, kept, goal, member, row, care)?;
        let is_some = !places.is_empty();
        self.places.push(places)?;
        Ok(is_some)
    }

    /// The lines of a member.
    pub fn places(&self, member: usize) -> &[usize] {
        match self.places.get(member) {
            Some(places) => places,
            None => &[],
        }
    }

    /// Adds a line of a member.
    pub fn add(&mut self, member: usize, place: usize) -> Result<(), Memory> {
        if let Some(places) = self.places.get_mut(member) {
            places.push(place)?;
        }
        Ok(())
    }

    /// How many lines there are.
    pub fn count(&self) -> usize {
        let mut count: usize = 0;
        for places in &self.places {
            count = count.saturating_add(places.len());
        }
        count
    }

    /// The shares whose lines are among the member's.
    pub fn shared(
        &self,
        alloc: Global,
        member: usize,
        shares: &[Share],
    ) -> Result<Vec<Share>, Memory> {
        let mut own = Vec::new(alloc);
        let places = self.places(member);
        for share in shares {
            if places.contains(&share.place) {
                own.push(*share)?;
            }
        }
        Ok(own)
    }

    /// The weight of the heaviest of the member's lines.
    pub fn most(&self, kept: &Kept, member: usize, weights: &[i64]) -> i64 {
        let mut most = i64::MIN;
        let Some(lines) = kept.lines(member) else {
            return most;
        };
        for place in self.places(member) {
            most = most.max(weigh(lines.line(*place), weights));
        }
        most
    }

    /// The weights of the heaviest lines of all members together.
    pub fn total(&self, kept: &Kept, problem: &Problem, weights: &[i64]) -> i64 {
        let mut total: i64 = 0;
        for member in 0..problem.base.members.len() {
            total = total.wrapping_add(self.most(kept, member, weights));
        }
        total
    }
}
