//! What chosen lines leave: how many more fly each pairing, and who has no line yet.

use crate::chosen::Choice;
use duty_calendar::Memory;
use flat_search::PairingSet;
use line_mixes::Kept;
use roster_model::Problem;
use std::alloc::Global;

/// How many more members each pairing needs, and those that need none; the number of each member's line, if it has one; and
/// what each pairing counts.
#[derive(Drop)]
pub(crate) struct Crewing {
    rest: Vec<u32>,
    full: PairingSet,
    places: Vec<Option<usize>>,
    credits: Vec<u64>,
}

/// How many lines have each pairing, how many each member has, and the greatest credit of those.
#[derive(Drop)]
struct Counts {
    pairings: Vec<u32>,
    members: Vec<u32>,
    credits: Vec<u64>,
}

/// What has the fewest lines.
#[derive(Clone, Copy)]
enum Scarcest {
    Pairing(usize),
    Member(usize),
}

impl Crewing {
    /// No line is chosen.
    pub(crate) fn new(alloc: Global, problem: &Problem) -> Result<Crewing, Memory> {
        let mut rest = Vec::new(alloc);
        let mut credits = Vec::new(alloc);
        for pairing in problem.base.pairings.as_slice() {
            rest.push(pairing.need)?;
            credits.push(u64::from(pairing.credit))?;
        }
        let mut crewing = Crewing {
            rest,
            full: PairingSet::new(),
            places: vec![in alloc; None; problem.base.members.len()]?,
            credits,
        };
        crewing.fill();
        Ok(crewing)
    }

    /// Sees which pairings need no more.
    fn fill(&mut self) {
        let mut full = PairingSet::new();
        for (pairing, rest) in self.rest.iter().enumerate() {
            if *rest == 0 {
                full.insert(pairing);
            }
        }
        self.full = full;
    }

    /// The line is the member's.
    pub(crate) fn choose(&mut self, choice: &Choice) {
        self.set_place(choice.member, Some(choice.place));
        for (pairing, rest) in self.rest.iter_mut().enumerate() {
            if choice.pairings.contains(pairing) {
                *rest = rest.saturating_sub(1);
            }
        }
        self.fill();
    }

    /// The line is the member's no more.
    pub(crate) fn take_back(&mut self, choice: &Choice) {
        self.set_place(choice.member, None);
        for (pairing, rest) in self.rest.iter_mut().enumerate() {
            if choice.pairings.contains(pairing) {
                *rest = rest.saturating_add(1);
            }
        }
        self.fill();
    }

    /// Sets the number of a member's line.
    pub(crate) fn set_place(&mut self, member: usize, place: Option<usize>) {
        if let Some(own) = self.places.get_mut(member) {
            *own = place;
        }
    }

    /// The numbers of the members' lines.
    pub(crate) fn places(&self) -> &[Option<usize>] {
        &self.places
    }

    /// Whether the member has no line.
    pub(crate) fn is_left(&self, member: usize) -> bool {
        match self.places.get(member) {
            Some(place) => place.is_none(),
            None => false,
        }
    }

    /// How many members have no line.
    pub(crate) fn count_left(&self) -> usize {
        self.places.iter().filter(|place| place.is_none()).count()
    }

    /// A member without a line that is not this one.
    pub(crate) fn other(&self, member: usize) -> Option<usize> {
        for (other, place) in self.places.iter().enumerate() {
            if other != member && place.is_none() {
                return Some(other);
            }
        }
        None
    }

    /// Whether the member has no line, and none of the pairings has its crew.
    pub(crate) fn fits(&self, choice: &Choice) -> bool {
        self.is_left(choice.member) && !self.full.meets(&choice.pairings)
    }

    /// How many more members each pairing needs.
    pub(crate) fn rest(&self) -> &[u32] {
        &self.rest
    }

    /// The credit of what is left to be flown.
    pub(crate) fn credit(&self) -> u64 {
        let mut sum: u64 = 0;
        for (rest, credit) in self.rest.iter().zip(&self.credits) {
            sum = sum.saturating_add(u64::from(*rest).saturating_mul(*credit));
        }
        sum
    }
}

impl Counts {
    /// Counts a line.
    fn add(&mut self, choice: &Choice, pairings: &[u32]) {
        for pairing in pairings {
            if let Some(count) = self.pairings.get_mut(*pairing as usize) {
                *count = count.saturating_add(1);
            }
        }
        if let Some(count) = self.members.get_mut(choice.member) {
            *count = count.saturating_add(1);
        }
        if let Some(credit) = self.credits.get_mut(choice.member) {
            *credit = choice.credit.max(*credit);
        }
    }

    /// The counts of these lines.
    fn of(
        alloc: Global,
        problem: &Problem,
        kept: &Kept,
        choices: &[Choice],
        left: &[usize],
    ) -> Result<Counts, Memory> {
        let mut counts = Counts {
            pairings: vec![in alloc; 0u32; problem.base.pairings.len()]?,
            members: vec![in alloc; 0u32; problem.base.members.len()]?,
            credits: vec![in alloc; 0u64; problem.base.members.len()]?,
        };
        for number in left {
            if let Some(choice) = choices.get(*number) {
                counts.add(choice, kept.pairings(choice.member, choice.place));
            }
        }
        Ok(counts)
    }

    /// Whether the lines of greatest credit come to what is left to be flown.
    fn reach(&self, crewing: &Crewing) -> bool {
        let mut sum: u64 = 0;
        for credit in &self.credits {
            sum = sum.saturating_add(*credit);
        }
        sum >= crewing.credit()
    }

    /// The pairing with the fewest lines, and how many it has; none where one has fewer than members are needed.
    fn pairing(&self, crewing: &Crewing) -> Option<(Scarcest, u32)> {
        let mut best: Option<(Scarcest, u32)> = None;
        let mut least = u32::MAX;
        for (pairing, (count, rest)) in self.pairings.iter().zip(crewing.rest()).enumerate() {
            if *count < *rest {
                return None;
            }
            if *rest > 0 && *count < least {
                best = Some((Scarcest::Pairing(pairing), *count));
                least = *count;
            }
        }
        best
    }

    /// The pairing or member with the fewest lines; none where there are too few.
    fn scarcest(&self, crewing: &Crewing) -> Option<Scarcest> {
        let (mut best, mut least) = self.pairing(crewing)?;
        for (member, count) in self.members.iter().enumerate() {
            if !crewing.is_left(member) {
                continue;
            }
            if *count == 0 {
                return None;
            }
            if *count < least {
                best = Scarcest::Member(member);
                least = *count;
            }
        }
        Some(best)
    }
}

impl Scarcest {
    /// Whether the line is one of these.
    fn has(self, choice: &Choice) -> bool {
        match self {
            Scarcest::Pairing(pairing) => choice.pairings.contains(pairing),
            Scarcest::Member(member) => choice.member == member,
        }
    }
}

/// Of these lines, those of the pairing or member that has the fewest; none where what is left can't be flown with them.
pub(crate) fn scarce(
    alloc: Global,
    problem: &Problem,
    kept: &Kept,
    choices: &[Choice],
    left: &[usize],
    crewing: &Crewing,
) -> Result<Vec<usize>, Memory> {
    let mut scarce = Vec::new(alloc);
    let counts = Counts::of(alloc, problem, kept, choices, left)?;
    let Some(scarcest) = counts.scarcest(crewing) else {
        return Ok(scarce);
    };
    if !counts.reach(crewing) {
        return Ok(scarce);
    }
    for number in left {
        if let Some(choice) = choices.get(*number) {
            if scarcest.has(choice) {
                scarce.push(*number)?;
            }
        }
    }
    Ok(scarce)
}
