//! Lines that are kept for each member (a column pool), with what is known of each.

use crate::barren::AllBarren;
use crate::listed::Listed;
use crate::program::Program;
use crate::recent::{KeptLine, Recent};
use column_pool::Pool;
use duty_calendar::{Copied, List, Memory};
use flat_search::{
    Courses, Found, PairingSet, Pricing, Profile, Row, are_known, broken, first_lens, first_lenses,
    flat_over, is_member, known_of, look_at, number,
};
use line_legality::Illegal;
use roster_model::{Goal, Lens, Line, Problem};
use std::alloc::Global;

/// The kept lines, which are found by member and number; for each member a lens that sees the rules which its lines
/// broke, and for how many searches more it is held to be dear; whether one ever was; whose turn it was to be priced first;
/// the last program; which members are known to have no line above a bound; the weights that closed roots, the newest last; the
/// legal lines that were kept lately; and the courses of flat searches.
#[derive(Drop)]
pub struct Kept {
    pool: Pool,
    listed: Vec<Listed>,
    profiles: Vec<Vec<Profile>>,
    lenses: List<Lens>,
    pub(crate) dear: Vec<u32>,
    pub(crate) has_dear: bool,
    pub(crate) turn: usize,
    pub(crate) program: Option<Program>,
    pub(crate) barren: AllBarren,
    pub(crate) leaves: Vec<Vec<i64>>,
    recent: Recent,
    courses: Courses,
}

/// Offers a line to the pool, where it is a member's of the problem that the pool was made for.
fn offer(pool: &mut Pool, problem: &Problem, member: u32, line: Line) -> Result<(), Memory> {
    if !pool.fits(problem) || !is_member(problem, member) || !are_known(problem, line.pairings()) {
        return Ok(());
    }
    match pool.offer(member, line) {
        Ok(()) => Ok(()),
        Err(_line) => Err(Memory::NoMemory),
    }
}

/// What is known of a member's lines.
fn known_in(profiles: &[Vec<Profile>], member: usize) -> &[Profile] {
    match profiles.get(member) {
        Some(known) => known,
        None => &[],
    }
}

impl Kept {
    /// No lines, and the first lenses.
    pub fn new(alloc: Global, problem: &Problem) -> Result<Kept, Memory> {
        let mut profiles = Vec::new(alloc);
        let mut listed = Vec::new(alloc);
        for _member in 0..problem.base.members.len() {
            profiles.push(Vec::new(alloc))?;
            listed.push(Listed::new(alloc))?;
        }
        Ok(Kept {
            pool: Pool::new(alloc, problem)?,
            listed,
            profiles,
            lenses: first_lenses(alloc, problem)?,
            dear: vec![in alloc; 0u32; problem.base.members.len()]?,
            has_dear: false,
            turn: 0,
            program: None,
            barren: AllBarren::new(alloc, problem.base.members.len())?,
            leaves: Vec::new(alloc),
            recent: Recent::new(alloc),
            courses: Courses::new(alloc, problem)?,
        })
    }

    /// Whether the member's lines may be looked for by flat searches.
    pub fn is_flat(&self, member: usize) -> bool {
        self.courses.has_sheet(member)
    }

    /// What a flat search for a line of a member finds.
    pub fn flat_over(
        &mut self,
        alloc: Global,
        problem: &Problem,
        asked: &Pricing,
        lens: &Lens,
    ) -> Result<Found, Memory> {
        let known = known_in(&self.profiles, asked.member);
        flat_over(alloc, problem, &mut self.courses, known, asked, lens)
    }

    /// The legal lines of all members that were kept lately.
    pub(crate) fn recent(&self) -> &[KeptLine] {
        self.recent.lines()
    }

    /// What is known of a line, kept or not.
    pub(crate) fn look_at(
        &self,
        alloc: Global,
        problem: &Problem,
        member: usize,
        line: &Line,
    ) -> Result<Profile, Memory> {
        let known = known_in(&self.profiles, member);
        look_at(alloc, problem, member, known, line)
    }

    /// Keeps a line of which this is known, if it is not kept, and says its number; none where there is no room for it.
    pub fn keep_known(
        &mut self,
        problem: &Problem,
        member: usize,
        line: Line,
        profile: Profile,
    ) -> Result<Option<usize>, Memory> {
        if let Some(place) = self.place_of(member, &profile.pairings) {
            return Ok(Some(place));
        }
        self.keep_as(problem, member, line, profile)
    }

    /// The lens with which the member's searches begin, once more.
    pub fn lens(&self, alloc: Global, problem: &Problem, member: usize) -> Result<Lens, Memory> {
        match self.lenses.as_slice().get(member) {
            Some(lens) => lens.copy(alloc),
            None => Ok(first_lens(alloc, problem, member)),
        }
    }

    /// Lets the member's searches begin with this lens.
    pub fn look_through(&mut self, member: usize, lens: Lens) {
        if member < self.lenses.len() {
            *self.lenses.at_mut(member) = lens;
        }
    }

    /// How many lines of a member are kept.
    pub fn len(&self, member: usize) -> usize {
        known_in(&self.profiles, member).len()
    }

    /// What is known of a line.
    pub fn profile(&self, member: usize, place: usize) -> Option<&Profile> {
        self.profiles.get(member)?.get(place)
    }

    /// Whether the line is legal, meets the goal and obeys the row.
    pub fn may_fly(&self, member: usize, place: usize, goal: &Goal, row: &Row) -> bool {
        match self.profile(member, place) {
            Some(profile) => {
                profile.serves(goal, member)
                    && row.flown.is_within(&profile.pairings)
                    && !row.barred.meets(&profile.pairings)
            }
            None => false,
        }
    }

    /// The rule that a line breaks, if any.
    pub fn broken(&self, member: usize, place: usize) -> Option<Illegal> {
        self.profile(member, place)?.broken
    }

    /// The kept line of a number.
    fn find(&self, member: usize, place: usize) -> Option<&Line> {
        let owner = number(member);
        if (owner as usize) < self.pool.len() {
            self.pool.get(owner, number(place))
        } else {
            None
        }
    }

    /// The pairings of a member's lines.
    pub(crate) fn lines(&self, member: usize) -> Option<&Listed> {
        self.listed.get(member)
    }

    /// The pairings of a line.
    pub fn pairings(&self, member: usize, place: usize) -> &[u32] {
        match self.listed.get(member) {
            Some(flat) => flat.line(place),
            None => &[],
        }
    }

    /// The line once more.
    pub fn line(&self, alloc: Global, member: usize, place: usize) -> Result<Option<Line>, Memory> {
        match self.find(member, place) {
            Some(line) => Ok(Some(line.copy(alloc)?)),
            None => Ok(None),
        }
    }

    /// The number of a line of these pairings, if it is kept.
    fn place_of(&self, member: usize, pairings: &PairingSet) -> Option<usize> {
        let profiles = self.profiles.get(member)?;
        profiles.iter().position(|kept| kept.pairings == *pairings)
    }

    /// Keeps a line, and says its number; none where there is no room for it.
    pub fn keep(
        &mut self,
        alloc: Global,
        problem: &Problem,
        member: usize,
        line: Line,
    ) -> Result<Option<usize>, Memory> {
        let owner = number(member);
        let pairings = PairingSet::of(line.pairings());
        if let Some(place) = self.place_of(member, &pairings) {
            return Ok(Some(place));
        }
        let mut profile = known_of(problem, owner, &line, pairings);
        profile.broken = broken(alloc, problem, owner, &line)?;
        self.keep_as(problem, member, line, profile)
    }

    /// Keeps a line that was found to be legal before, and says its number; none where there is no room for it.
    pub fn keep_legal(
        &mut self,
        problem: &Problem,
        member: usize,
        line: Line,
    ) -> Result<Option<usize>, Memory> {
        let pairings = PairingSet::of(line.pairings());
        if let Some(place) = self.place_of(member, &pairings) {
            return Ok(Some(place));
        }
        let profile = known_of(problem, number(member), &line, pairings);
        self.keep_as(problem, member, line, profile)
    }

    /// Keeps a line of which this is known, and says its number; none where there is no room for it.
    fn keep_as(
        &mut self,
        problem: &Problem,
        member: usize,
        line: Line,
        profile: Profile,
    ) -> Result<Option<usize>, Memory> {
        let owner = number(member);
        let place = self.len(member);
        offer(&mut self.pool, problem, owner, line)?;
        let (Some(profiles), Some(flat)) = (
            self.profiles.get_mut(member),
            self.listed.get_mut(member),
        ) else {
            return Ok(None);
        };
        if (owner as usize) >= self.pool.len() {
            return Ok(None);
        }
        let Some(kept) = self.pool.get(owner, number(place)) else {
            return Ok(None);
        };
        flat.add(kept.pairings())?;
        profiles.push(profile)?;
        if profile.broken.is_none() {
            self.recent.add(KeptLine { member, place })?;
        }
        Ok(Some(place))
    }
}
