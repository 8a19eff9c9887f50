//! Rosters that were found already, and may serve another bid.
ghost use Rattle.std.specs.Prelude.{◌≡◌, ◌++◌, ◌∷◌, [], ◌+◌, ◌<◌, ◌≤◌, None, length, IfOk, OnOk};
ghost use Rattle.roster_model.specs.Goals.{IsBidOf};
ghost use Rattle.roster_model.specs.Rosters.{IsComplete};
ghost use Rattle.roster_model.specs.Denials.{ReachesBefore, is_granted_by};
ghost use Rattle.denials.specs.Known.{AreFound, IsFound, IsKnown, IsReached, MissesAt};
ghost use Rattle.denials.specs.Settled.{IsBracketed};

use bid_score::{granted, score};
use duty_calendar::{Copied, List, Memory};
use roster_model::{BidRef, Problem, Roster};
use std::alloc::Global;

/// A complete roster, and the first place at which it misses the award's score.
#[derive(Drop, Debug)]
pub(crate) struct Known {
    pub place: u32,
    pub roster: Roster,
}

/// The first place of a bid that is not known to be reached, and a roster that reaches those before it.
#[derive(Drop, Debug)]
pub(crate) struct Reached {
    pub place: u32,
    pub roster: Option<Roster>,
}

/// Whether the roster grants the bid.
pub(crate) fn is_granted(problem: &Problem, roster: &Roster, bid: BidRef) -> bool
    requires bid { IsBidOf problem.now bid }
    requires complete { IsComplete problem.now roster.now }
    ensures granted { result ≡ is_granted_by problem.now roster.now bid }
{
    let lines = roster.as_slice();
    granted(problem, bid.member, bid.bid, &lines[bid.member as usize])
}

/// The first place at which the roster misses the score, and the one behind the last where it misses none.
pub(crate) fn first_missed(problem: &Problem, scores: &[u32], roster: &Roster) -> u32
    requires members { length scores.now ≡ length problem.now.base.members }
    requires complete { IsComplete problem.now roster.now }
    ensures within { result ≤ length problem.now.base.members + 1 }
    ensures reaches { ReachesBefore problem.now scores.now result roster.now }
    ensures missed { MissesAt problem.now scores.now result roster.now }
{
    for (member, line) in roster.as_slice().iter().enumerate() {
        if score(problem, member as u32, line) < scores[member] {
            return member as u32 + 1;
        }
    }
    problem.base.members.len() as u32 + 1
}

/// Keeps a copy of the roster.
pub(crate) fn keep(
    alloc: Global,
    known: &mut List<Known>,
    place: u32,
    roster: &Roster,
) -> Result<(), Memory>
    ensures kept { OnOk result (known.new ≡ known.old
        ++ (record { place = place; roster = roster.now }) ∷ []) }
{
    let one = Known {
        place,
        roster: roster.copy(alloc)?,
    };
    match known.push(one) {
        Ok(()) => Ok(()),
        Err(_) => Err(Memory::NoMemory),
    }
}

/// The first place that the roster misses where it grants the bid, else 0.
fn place_for(problem: &Problem, scores: &[u32], bid: BidRef, known: &Known) -> u32
    requires bid { IsBidOf problem.now bid }
    requires found { IsFound problem.now scores.now known.now }
    ensures within { result ≤ length problem.now.base.members + 1 }
    ensures reached { 0 < result → IsReached problem.now scores.now bid result known.now.roster }
{
    let _ = scores;
    if is_granted(problem, &known.roster, bid) {
        known.place
    } else {
        0
    }
}

/// The number of the roster that grants the bid and reaches farthest, and the first place that it misses; that is 0
/// where none grants the bid.
fn best_known(problem: &Problem, scores: &[u32], bid: BidRef, known: &[Known]) -> (usize, u32)
    requires bid { IsBidOf problem.now bid }
    requires found { AreFound problem.now scores.now known.now }
    ensures within { result.1 ≤ length problem.now.base.members + 1 }
    ensures best { 0 < result.1 → IsKnown problem.now scores.now bid known.now result.0 result.1 }
{
    let mut best = 0;
    let mut place = 0;
    for (at, one) in known.iter().enumerate() {
        let reached = place_for(problem, scores, bid, one);
        if place < reached {
            best = at;
            place = reached;
        }
    }
    (best, place)
}

/// How far one of the known rosters reaches that grants the bid, with a copy of it.
pub(crate) fn known_for(
    alloc: Global,
    problem: &Problem,
    scores: &[u32],
    bid: BidRef,
    known: &[Known],
) -> Result<Reached, Memory>
    requires bid { IsBidOf problem.now bid }
    requires found { AreFound problem.now scores.now known.now }
    ensures known { IfOk result (λ r. IsBracketed problem.now scores.now bid r.place
        (length problem.now.base.members + 1) r.roster None) }
    ensures within { IfOk result (λ r. r.place ≤ length problem.now.base.members + 1) }
{
    let (at, place) = best_known(problem, scores, bid, known);
    if place == 0 {
        return Ok(Reached {
            place: 0,
            roster: None,
        });
    }
    Ok(Reached {
        place,
        roster: Some(known[at].roster.copy(alloc)?),
    })
}
