//! Rosters by exchanges (a local search with breakout): one member after the other takes the line that brings all nearest to the
//! needs, and a pairing that is still missed, or flown too often, becomes dearer.
ghost use Rattle.std.specs.Prelude.{◌≡◌};
ghost use Rattle.roster_model.specs.Goals.{IsGoal};

use crate::finder::{Finder, Task};
use crate::limits::{BETTER, DEARER, DEAREST, LUCK, WORTH};
use crate::pricing::{Priced, price};
use crate::repairing::reached;
use duty_calendar::{Copied, List, Memory};
use flat_search::{Care, Pricing, Row, number};
use line_mixes::{Kept, Mix};
use roster_choices::Chance;
use roster_model::{Problem, Roster};
use std::alloc::Global;

/// The line of each member by its number, how many members fly each pairing, and what each pairing is worth.
#[derive(Drop)]
struct Exchange {
    places: Vec<usize>,
    flown: Vec<u32>,
    worth: Vec<i64>,
}

/// Whether the member may have the line: it meets the goal, and obeys the row.
fn may_have(kept: &Kept, task: Task, row: &Row, member: usize, place: usize) -> bool {
    match kept.profile(member, place) {
        Some(profile) => {
            profile.serves(task.goal, member)
                && row.flown.is_within(&profile.pairings)
                && !row.barred.meets(&profile.pairings)
        }
        None => false,
    }
}

/// A kept line that the member may have: of greatest share in the mix, or the newest.
fn first_place(kept: &Kept, task: Task, mix: &Mix, member: usize) -> Option<usize> {
    let row = task.board.row(member);
    if let Some(share) = mix.greatest(member) {
        if may_have(kept, task, &row, member, share.place) {
            return Some(share.place);
        }
    }
    for place in (0..kept.len(member)).rev() {
        if may_have(kept, task, &row, member, place) {
            return Some(place);
        }
    }
    None
}

/// What the pairings weigh together.
pub(crate) fn weigh(pairings: &[u32], weights: &[i64]) -> i64 {
    let mut sum: i64 = 0;
    for pairing in pairings {
        sum = sum.wrapping_add(weights.get(*pairing as usize).copied().unwrap_or(0));
    }
    sum
}

impl Exchange {
    /// Begins with lines of greatest share in a mix; none where a member has no line that it may have.
    fn begun(
        alloc: Global,
        problem: &Problem,
        kept: &Kept,
        task: Task,
        mix: &Mix,
    ) -> Result<Option<Exchange>, Memory> {
        let pairings = problem.base.pairings.len();
        let mut exchange = Exchange {
            places: Vec::new(alloc),
            flown: vec![in alloc; 0u32; pairings]?,
            worth: vec![in alloc; WORTH; pairings]?,
        };
        for member in 0..problem.base.members.len() {
            let Some(place) = first_place(kept, task, mix, member) else {
                return Ok(None);
            };
            exchange.places.push(place)?;
            exchange.put(kept.pairings(member, place));
        }
        Ok(Some(exchange))
    }

    /// Counts a line.
    fn put(&mut self, pairings: &[u32]) {
        for pairing in pairings {
            if let Some(flown) = self.flown.get_mut(*pairing as usize) {
                *flown = flown.saturating_add(1);
            }
        }
    }

    /// Counts a line no more.
    fn take(&mut self, pairings: &[u32]) {
        for pairing in pairings {
            if let Some(flown) = self.flown.get_mut(*pairing as usize) {
                *flown = flown.saturating_sub(1);
            }
        }
    }

    /// Gives the member another line.
    fn give(&mut self, kept: &Kept, member: usize, place: usize) {
        if let Some(own) = self.places.get(member).copied() {
            self.take(kept.pairings(member, own));
            self.put(kept.pairings(member, place));
        }
        if let Some(own) = self.places.get_mut(member) {
            *own = place;
        }
    }

    /// Whether each pairing is flown by as many as it needs.
    fn is_even(&self, problem: &Problem) -> bool {
        self.flown
            .iter()
            .zip(problem.base.pairings.as_slice())
            .all(|(flown, pairing)| *flown == pairing.need)
    }

    /// What one flight more of each pairing brings, where this line is counted no more: its worth where one is missed, else as much
    /// less; and a little by chance.
    fn gains(
        &self,
        alloc: Global,
        problem: &Problem,
        own: &[u32],
        chance: &mut Chance,
    ) -> Result<Vec<i64>, Memory> {
        let mut gains = Vec::new(alloc);
        for (at, pairing) in problem.base.pairings.as_slice().iter().enumerate() {
            let worth = self.worth.get(at).copied().unwrap_or(0);
            let flown = self.flown.get(at).copied().unwrap_or(0);
            let others = if own.contains(&number(at)) {
                flown.saturating_sub(1)
            } else {
                flown
            };
            let luck = i64::from(number(chance.below(LUCK)));
            if others < pairing.need {
                gains.push(worth.wrapping_add(luck))?;
            } else {
                gains.push(luck.wrapping_sub(worth))?;
            }
        }
        Ok(gains)
    }

    /// Makes dearer what is missed, or flown too often.
    fn make_dearer(&mut self, problem: &Problem) {
        let flown = self.flown.iter().zip(problem.base.pairings.as_slice());
        for (worth, (flown, pairing)) in self.worth.iter_mut().zip(flown) {
            if *flown != pairing.need {
                *worth = worth.saturating_add(DEARER).min(DEAREST);
            }
        }
    }

    /// The roster of the lines.
    fn roster(&self, alloc: Global, kept: &Kept) -> Result<Option<Roster>, Memory> {
        let mut roster = List::new(alloc);
        for (member, place) in self.places.iter().enumerate() {
            let Some(line) = kept.line(alloc, member, *place)? else {
                return Ok(None);
            };
            if roster.push(line).is_err() {
                return Err(Memory::NoMemory);
            }
        }
        Ok(Some(roster))
    }
}

impl Finder {
    /// A line that weighs more than this one and that its member may have, the best that few searches find; or this one.
    fn better_line(
        &mut self,
        alloc: Global,
        problem: &Problem,
        task: Task,
        weights: &[i64],
        member: usize,
        place: usize,
    ) -> Result<usize, Memory>
        requires goal { IsGoal problem.now task.goal.now }
    {
        let row = task.board.row(member);
        let mut best = place;
        let mut over = weigh(self.kept.pairings(member, place), weights);
        for _ in 0..BETTER {
            let asked = Pricing {
                member,
                goal: task.goal,
                row: &row,
                weights,
                over,
            };
            match price(alloc, problem, &mut self.kept, asked, Care::Rough)? {
                Priced::Line(found, weight)
                    if weight > over && may_have(&self.kept, task, &row, member, found) => {
                    best = found;
                    over = weight;
                }
                _ => return Ok(best),
            }
        }
        Ok(best)
    }

    /// At the empty node, members have their lines of the best roster that is known, where they may.
    fn begin_known(
        &mut self,
        alloc: Global,
        problem: &Problem,
        task: Task,
        exchange: &mut Exchange,
    ) -> Result<(), Memory> {
        if !task.board.is_empty() {
            return Ok(());
        }
        let Some(known) = self.known.best(reached(task.goal)) else {
            return Ok(());
        };
        for (member, line) in known.roster.as_slice().iter().enumerate() {
            let place = self.kept.keep(alloc, problem, member, line.copy(alloc)?)?;
            if let Some(place) = place {
                if may_have(&self.kept, task, &Row::new(), member, place) {
                    exchange.give(&self.kept, member, place);
                }
            }
        }
        Ok(())
    }

    /// A roster that meets the goal and obeys the board, by so many exchanges at most, which begin with the best roster that is
    /// known, and a mix.
    pub(crate) fn exchanged(
        &mut self,
        alloc: Global,
        problem: &Problem,
        task: Task,
        mix: &Mix,
        exchanges: usize,
    ) -> Result<Option<Roster>, Memory>
        requires goal { IsGoal problem.now task.goal.now }
    {
        if exchanges == 0 {
            return Ok(None);
        }
        let begun = Exchange::begun(alloc, problem, &self.kept, task, mix)?;
        let Some(mut exchange) = begun else {
            return Ok(None);
        };
        self.begin_known(alloc, problem, task, &mut exchange)?;
        for turn in 0..exchanges {
            let member = turn.checked_rem(exchange.places.len()).unwrap_or(0);
            if member == 0 {
                exchange.make_dearer(problem);
            }
            let place = exchange.places.get(member).copied().unwrap_or(0);
            let own = self.kept.pairings(member, place);
            let weights = exchange.gains(alloc, problem, own, &mut self.chance)?;
            let best = self.better_line(alloc, problem, task, &weights, member, place)?;
            exchange.give(&self.kept, member, best);
            if exchange.is_even(problem) {
                return exchange.roster(alloc, &self.kept);
            }
        }
        Ok(None)
    }
}
