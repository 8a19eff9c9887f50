//! What is known of a line of a member: its pairings, the bids that it grants, and the rule that it breaks.
ghost use Rattle.std.specs.Prelude.{◌≡◌, ◌<◌, All, IsTrue, length};
ghost use Rattle.roster_model.specs.Scores.{bids_of};

use crate::care::Care;
use crate::ladder::{is_of_line, is_trackable};
use crate::pairings::PairingSet;
use bid_score::granted;
use duty_calendar::Memory;
use line_legality::{Illegal, legal};
use roster_model::{Bid, Goal, Line, Problem};
use std::alloc::Global;

/// Some bids, and what they weigh.
#[derive(Clone, Copy)]
pub struct Granted {
    bids: u64,
    score: u32,
}

/// What is known of a kept line: its pairings, the bids that it grants, and the rule that it breaks, if any. To a lens that
/// looks at whole lines, and to one that looks at pairings one by one, it may grant more: each bid that can't be tracked.
#[derive(Clone, Copy)]
pub struct Profile {
    pub pairings: PairingSet,
    pub grants: Granted,
    pub by_lines: Granted,
    pub by_pairings: Granted,
    pub broken: Option<Illegal>,
}

/// The number in 32 bits, or the greatest where it does not fit.
pub fn number(value: usize) -> u32 {
    if value < 4_294_967_296 {
        value as u32
    } else {
        u32::MAX
    }
}

/// Whether the member is one of the problem.
pub fn is_member(problem: &Problem, member: u32) -> bool
    ensures member { IsTrue result → member < length problem.now.base.members }
{
    (member as usize) < problem.base.members.len()
}

/// Whether all pairings of a line are of the problem.
pub fn are_known(problem: &Problem, line: &[u32]) -> bool
    ensures known { IsTrue result → All (λ p. p < length problem.now.base.pairings) line.now }
{
    let count = problem.base.pairings.len();
    line.iter().all(|pairing| (*pairing as usize) < count)
}

/// The rule that the line breaks, if any.
pub fn broken(
    alloc: Global,
    problem: &Problem,
    member: u32,
    line: &Line,
) -> Result<Option<Illegal>, Memory> {
    if !is_member(problem, member) || !are_known(problem, line.pairings()) {
        return Ok(Some(Illegal::Overlap(0)));
    }
    match legal(alloc, problem, member, line) {
        Ok(()) => Ok(None),
        Err(Illegal::NoMemory) => Err(Memory::NoMemory),
        Err(why) => Ok(Some(why)),
    }
}

/// What is known of the line but for the rule that it breaks.
pub fn known_of(problem: &Problem, member: u32, line: &Line, pairings: PairingSet) -> Profile {
    let mut profile = Profile {
        pairings,
        grants: Granted::nothing(),
        by_lines: Granted::nothing(),
        by_pairings: Granted::nothing(),
        broken: None,
    };
    let (Some(owner), Some(bids)) = (
        problem.base.members.as_slice().get(member as usize),
        problem.bids.as_slice().get(member as usize),
    ) else {
        return profile;
    };
    for (place, bid) in bids.as_slice().iter().enumerate() {
        let is_sure = is_granted(problem, member, number(place), line);
        let is_seen = is_trackable(&bid.wish);
        if is_sure {
            profile.grants.add(place, bid);
        }
        if is_sure || !is_seen && !is_of_line(problem, owner, &bid.wish) {
            profile.by_lines.add(place, bid);
        }
        if is_sure || !is_seen {
            profile.by_pairings.add(place, bid);
        }
    }
    profile
}

/// What is known of a line of the member, of some of whose lines this is known.
pub fn look_at(
    alloc: Global,
    problem: &Problem,
    member: usize,
    known: &[Profile],
    line: &Line,
) -> Result<Profile, Memory> {
    let pairings = PairingSet::of(line.pairings());
    if let Some(own) = known.iter().find(|own| own.pairings == pairings) {
        return Ok(*own);
    }
    let owner = number(member);
    let mut profile = known_of(problem, owner, line, pairings);
    profile.broken = broken(alloc, problem, owner, line)?;
    Ok(profile)
}

/// The bit of a bid.
pub(crate) fn bit_of(bid: usize) -> u64 {
    if bid < 64 { 1u64 << bid } else { 0 }
}

/// Whether the bid is one of the member's.
fn is_bid(problem: &Problem, member: u32, bid: u32) -> bool
    requires member { member < length problem.now.base.members }
    ensures bid { IsTrue result → bid < length (bids_of problem.now member) }
{
    let lists = problem.bids.as_slice();
    (bid as usize) < lists[member as usize].len()
}

/// Whether the line grants the bid.
pub fn is_granted(problem: &Problem, member: u32, bid: u32, line: &Line) -> bool {
    if !is_member(problem, member) || !are_known(problem, line.pairings()) {
        return false;
    }
    is_bid(problem, member, bid) && granted(problem, member, bid, line)
}

impl Granted {
    /// No bids.
    fn nothing() -> Granted {
        Granted { bids: 0, score: 0 }
    }

    /// Adds a bid by its place.
    fn add(&mut self, place: usize, bid: &Bid) {
        self.bids |= bit_of(place);
        self.score = self.score.saturating_add(bid.weight);
    }

    /// Whether these bids meet the member's part of the goal.
    fn meets(&self, goal: &Goal, member: usize) -> bool {
        self.score >= floor_of(goal, member) && bid_asked(goal, member) & !self.bids == 0
    }
}

impl Profile {
    /// Whether a relaxation of the goal may use the line: it is legal, and meets the goal if the bids that its lenses don't
    /// track count as granted.
    pub fn may_serve(&self, goal: &Goal, member: usize, care: Care) -> bool {
        let may_grant = match care {
            Care::Fine | Care::Rough => &self.by_lines,
            Care::Plain => &self.by_pairings,
        };
        self.broken.is_none() && may_grant.meets(goal, member)
    }

    /// Whether the line is legal, and meets the goal.
    pub fn serves(&self, goal: &Goal, member: usize) -> bool {
        self.broken.is_none() && self.grants.meets(goal, member)
    }
}

/// The member's floor, or 0.
pub fn floor_of(goal: &Goal, member: usize) -> u32 {
    match goal.floors.as_slice().get(member) {
        Some(floor) => *floor,
        None => 0,
    }
}

/// The bit of the goal's bid, where that is the member's.
pub fn bid_asked(goal: &Goal, member: usize) -> u64 {
    match goal.grant {
        Some(bid) => {
            if bid.member as usize == member {
                bit_of(bid.bid as usize)
            } else {
                0
            }
        }
        None => 0,
    }
}
