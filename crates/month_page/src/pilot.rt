//! What the page says of a pilot.
ghost use Rattle.std.specs.Prelude.{◌≡◌, ◌<◌, All, length};
ghost use Rattle.roster_model.specs.Scores.{bids_of};

use crate::entry::{Entry, entries_of};
use crate::naming::shown_name;
use bid_language::put_bid;
use bid_score::{credit, days_off, granted, score};
use duty_calendar::{Interval, List, Member, Memory};
use roster_model::{BidRef, Cause, Denial, Line, Problem, Roster, Wish, pairing_span};
use staff_names::StaffNames;
use std::alloc::Global;

/// A bid, and whether the pilot's line grants it. Of a denied one there may be a cause; of one for a trip or for days there
/// are the minutes that it is about, and `is_off` says that it is for days off. Numbers count from 1.
#[derive(Drop)]
pub struct SeenBid {
    pub number: u32,
    pub weight: u32,
    pub text: List<u8>,
    pub granted: bool,
    pub cause: Option<Cause>,
    pub span: Option<Interval>,
    pub is_off: bool,
}

/// A pilot with a line, by the name in the files and the one that is shown. Places count from 1, times and credit are in minutes.
#[derive(Drop)]
pub struct Pilot<'a> {
    pub place: u32,
    pub name: &'a [u8],
    pub shown: &'a [u8],
    pub low: u32,
    pub high: u32,
    pub credit: u32,
    pub score: u32,
    pub days_off: u32,
    pub line: &'a [u32],
    pub entries: Vec<Entry<'a>>,
    pub bids: Vec<SeenBid>,
}

/// The cause of a bid's denial, where the reasons name it.
fn cause_of(reasons: &[Denial], bid: BidRef) -> Option<Cause> {
    for denial in reasons {
        if denial.bid == bid {
            return Some(denial.cause);
        }
    }
    None
}

/// The minutes of a pairing, where there is one of this number.
fn span_of(problem: &Problem, pairing: u32) -> Option<Interval> {
    match problem.base.pairings.as_slice().get(pairing as usize) {
        Some(pairing) => Some(pairing_span(pairing)),
        None => None,
    }
}

/// The minutes that a wish for days or for a trip is about.
fn wanted(problem: &Problem, wish: &Wish) -> Option<Interval> {
    match wish {
        Wish::Off(first, last) => Some(Interval {
            start: first.saturating_mul(1440),
            stop: last.saturating_add(1).saturating_mul(1440),
        }),
        Wish::Fly(pairing) => span_of(problem, *pairing),
        Wish::Avoid(_)
        | Wish::Prefer(_, _)
        | Wish::CreditBelow(_)
        | Wish::CreditAbove(_)
        | Wish::DaysOff(_) => None,
    }
}

/// A bid of a member with a line.
fn seen_bid(
    alloc: Global,
    problem: &Problem,
    reasons: &[Denial],
    at: BidRef,
    line: &Line,
) -> Result<SeenBid, Memory>
    requires member { at.member < length problem.now.base.members }
    requires bid { at.bid < length (bids_of problem.now at.member) }
    requires in_range { All (λ p. p < length problem.now.base.pairings) line.now }
{
    let mut text = List::new(alloc);
    put_bid(&mut text, problem, at)?;
    let bid = &problem.bids.as_slice()[at.member as usize].as_slice()[at.bid as usize];
    Ok(SeenBid {
        number: at.bid.saturating_add(1),
        weight: bid.weight,
        text,
        granted: granted(problem, at.member, at.bid, line),
        cause: cause_of(reasons, at),
        span: wanted(problem, &bid.wish),
        is_off: matches!(bid.wish, Wish::Off(_, _)),
    })
}

/// How many bids a member has.
fn bid_count(problem: &Problem, member: u32) -> u32
    requires member { member < length problem.now.base.members }
    ensures value { result ≡ length (bids_of problem.now member) }
{
    problem.bids.as_slice()[member as usize].len() as u32
}

/// The bids of a member with a line.
fn seen_bids(
    alloc: Global,
    problem: &Problem,
    reasons: &[Denial],
    member: u32,
    line: &Line,
) -> Result<Vec<SeenBid>, Memory>
    requires member { member < length problem.now.base.members }
    requires in_range { All (λ p. p < length problem.now.base.pairings) line.now }
{
    let mut bids = Vec::new(alloc);
    for bid in 0..bid_count(problem, member) {
        let bid = BidRef { member, bid };
        bids.push(seen_bid(alloc, problem, reasons, bid, line)?)?;
    }
    Ok(bids)
}

/// A member.
pub fn member_at(problem: &Problem, member: u32) -> &Member
    requires member { member < length problem.now.base.members }
{
    &problem.base.members.as_slice()[member as usize]
}

/// A member with a line.
pub fn pilot_of<'a>(
    alloc: Global,
    problem: &'a Problem,
    reasons: &[Denial],
    names: &'a StaffNames,
    member: u32,
    line: &'a Line,
) -> Result<Pilot<'a>, Memory>
    requires member { member < length problem.now.base.members }
    requires in_range { All (λ p. p < length problem.now.base.pairings) line.now }
{
    let known = member_at(problem, member);
    Ok(Pilot {
        place: member.saturating_add(1),
        name: known.name.bytes(),
        shown: shown_name(names, known.name.bytes()),
        low: known.low,
        high: known.high,
        credit: credit(problem, member, line),
        score: score(problem, member, line),
        days_off: days_off(problem, member, line),
        line: line.pairings(),
        entries: entries_of(alloc, problem, member, line.pairings())?,
        bids: seen_bids(alloc, problem, reasons, member, line)?,
    })
}

/// All members with their lines.
pub fn pilots_of<'a>(
    alloc: Global,
    problem: &'a Problem,
    roster: &'a Roster,
    reasons: &[Denial],
    names: &'a StaffNames,
) -> Result<Vec<Pilot<'a>>, Memory>
    requires lines { length roster.now ≡ length problem.now.base.members }
    requires in_range { All (All (λ p. p < length problem.now.base.pairings)) roster.now }
{
    let mut pilots = Vec::new(alloc);
    for member in 0..problem.base.members.len() as u32 {
        let line = &roster.as_slice()[member as usize];
        pilots.push(pilot_of(alloc, problem, reasons, names, member, line)?)?;
    }
    Ok(pilots)
}

impl<'a> Pilot<'a> {
    /// How many of the bids are granted, or how many are not.
    pub fn count(&self, granted: bool) -> u32 {
        let mut count: u32 = 0;
        for bid in &self.bids {
            if bid.granted == granted {
                count = count.saturating_add(1);
            }
        }
        count
    }

    /// The weight of all bids.
    pub fn weight(&self) -> u32 {
        let mut sum: u32 = 0;
        for bid in &self.bids {
            sum = sum.saturating_add(bid.weight);
        }
        sum
    }

    /// Whether the line has a pairing.
    pub fn flies(&self, pairing: u32) -> bool {
        self.line.iter().any(|number| *number == pairing)
    }
}
