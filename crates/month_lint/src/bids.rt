//! Bids of members.
ghost use Rattle.std.specs.Prelude.{◌≡◌, ◌<◌, length};
ghost use Rattle.roster_model.specs.Scores.{bids_of};

use crate::lines::bid_line;
use month_files::Texts;
use roster_model::{Bid, Problem};

/// A bid of a member, by number, each from 0.
#[derive(Clone, Copy)]
pub struct At {
    pub member: u32,
    pub bid: u32,
}

/// How many bids a member has.
pub fn bid_count(problem: &Problem, member: u32) -> u32
    requires member { member < length problem.now.base.members }
    ensures value { result ≡ length (bids_of problem.now member) }
{
    problem.bids.as_slice()[member as usize].len() as u32
}

/// A bid of a member.
pub fn bid_at(problem: &Problem, member: u32, bid: u32) -> &Bid
    requires member { member < length problem.now.base.members }
    requires bid { bid < length (bids_of problem.now member) }
{
    &problem.bids.as_slice()[member as usize].as_slice()[bid as usize]
}

/// The line of a bid; 0 where there is none.
pub fn line_of(texts: &Texts, problem: &Problem, at: At) -> u64 {
    match problem.base.members.as_slice().get(at.member as usize) {
        Some(known) => bid_line(&texts.bids, known.name.bytes(), at.bid),
        None => 0,
    }
}
