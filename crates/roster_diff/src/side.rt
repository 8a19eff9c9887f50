//! What a roster says of a pilot.
ghost use Rattle.std.specs.Prelude.{◌≡◌, ◌<◌, All, length};
ghost use Rattle.roster_model.specs.Scores.{bids_of};

use bid_language::put_bid;
use bid_score::{credit, days_off, granted, score};
use duty_calendar::{List, Memory};
use roster_model::{BidRef, Line, Problem, Roster};
use std::alloc::{AllocError, Global};
use std::str::from_utf8;

/// A bid as it is printed, and whether the pilot's line grants it.
#[derive(Drop)]
pub struct HeldBid {
    pub text: String,
    pub granted: bool,
}

/// A pilot with a line. Trips stand in its order.
#[derive(Drop)]
pub struct Side {
    pub trips: Vec<String>,
    pub credit: u32,
    pub score: u32,
    pub days_off: u32,
    pub bids: Vec<HeldBid>,
}

/// Text of these bytes; none where they are no text.
pub fn text_of(alloc: Global, bytes: &[u8]) -> Result<String, AllocError> {
    match from_utf8(bytes) {
        Ok(text) => String::from_str(alloc, text),
        Err(_) => Ok(String::new(alloc)),
    }
}

/// The name of a trip.
fn trip_name(alloc: Global, problem: &Problem, trip: u32) -> Result<String, AllocError> {
    match problem.base.pairings.as_slice().get(trip as usize) {
        Some(known) => text_of(alloc, known.name.bytes()),
        None => Ok(String::new(alloc)),
    }
}

/// The names of the trips of a line.
fn trips_of(alloc: Global, problem: &Problem, line: &Line) -> Result<Vec<String>, Memory> {
    let mut trips = Vec::new(alloc);
    for trip in line.pairings() {
        trips.push(trip_name(alloc, problem, *trip)?)?;
    }
    Ok(trips)
}

/// A bid of a member with a line.
fn held_bid(alloc: Global, problem: &Problem, bid: BidRef, line: &Line) -> Result<HeldBid, Memory>
    requires member { bid.member < length problem.now.base.members }
    requires bid { bid.bid < length (bids_of problem.now bid.member) }
    requires in_range { All (λ p. p < length problem.now.base.pairings) line.now }
{
    let mut text = List::new(alloc);
    put_bid(&mut text, problem, bid)?;
    Ok(HeldBid {
        text: text_of(alloc, text.as_slice())?,
        granted: granted(problem, bid.member, bid.bid, line),
    })
}

/// How many bids a member has.
fn bid_count(problem: &Problem, member: u32) -> u32
    requires member { member < length problem.now.base.members }
    ensures value { result ≡ length (bids_of problem.now member) }
{
    problem.bids.as_slice()[member as usize].len() as u32
}

/// The bids of a member with a line.
fn held_bids(
    alloc: Global,
    problem: &Problem,
    member: u32,
    line: &Line,
) -> Result<Vec<HeldBid>, Memory>
    requires member { member < length problem.now.base.members }
    requires in_range { All (λ p. p < length problem.now.base.pairings) line.now }
{
    let mut bids = Vec::new(alloc);
    for bid in 0..bid_count(problem, member) {
        let bid = BidRef { member, bid };
        bids.push(held_bid(alloc, problem, bid, line)?)?;
    }
    Ok(bids)
}

/// A member with a line.
fn side_with(alloc: Global, problem: &Problem, member: u32, line: &Line) -> Result<Side, Memory>
    requires member { member < length problem.now.base.members }
    requires in_range { All (λ p. p < length problem.now.base.pairings) line.now }
{
    Ok(Side {
        trips: trips_of(alloc, problem, line)?,
        credit: credit(problem, member, line),
        score: score(problem, member, line),
        days_off: days_off(problem, member, line),
        bids: held_bids(alloc, problem, member, line)?,
    })
}

/// A member with the line that a roster has.
pub fn side_of(
    alloc: Global,
    problem: &Problem,
    roster: &Roster,
    member: u32,
) -> Result<Side, Memory>
    requires member { member < length problem.now.base.members }
    requires lines { length roster.now ≡ length problem.now.base.members }
    requires in_range { All (All (λ p. p < length problem.now.base.pairings)) roster.now }
{
    let line = &roster.as_slice()[member as usize];
    side_with(alloc, problem, member, line)
}

/// A pilot who does not stand in a month.
pub fn no_side(alloc: Global) -> Side {
    Side {
        trips: Vec::new(alloc),
        credit: 0,
        score: 0,
        days_off: 0,
        bids: Vec::new(alloc),
    }
}
