//! The reasons of single bids and members.
ghost use Rattle.std.specs.Prelude.{◌≡◌, ◌↔◌, ◌+◌, ◌<◌, ◌≤◌, [], ◌∷◌, ◌++◌, length, IfOk, MatchBool, OnOk};
ghost use Rattle.roster_model.specs.declared.problem.Problem.{Problem};
ghost use Rattle.roster_model.specs.Goals.{IsBidOf};
ghost use Rattle.roster_model.specs.Scores.{bids_of};
ghost use Rattle.roster_model.specs.Rosters.{IsComplete, scores_of};
ghost use Rattle.roster_model.specs.Awards.{IsGreatest};
ghost use Rattle.branch_log.specs.Book.{IsOrderly};
ghost use Rattle.completion_search.specs.Added.{AddsSearches, TakesSearches};
ghost use Rattle.completion_search.specs.Found.{HasRoom, IsFull};
ghost use Rattle.denials.specs.Asked.{IsAskedFor};
ghost use Rattle.denials.specs.Explained.{bid_searches};
ghost use Rattle.denials.specs.Known.{AreFound};
ghost use Rattle.denials.specs.Made.{AreExplained, GoesOn, bid_behind, cause_at, first_bid};

use crate::known::{Known, is_granted, known_for};
use crate::places::{Settled, settle};
use branch_log::{Closer, Ledger};
use duty_calendar::{List, Memory};
use roster_model::{BidRef, Cause, Denial, Problem, Reasons, Roster, Shown};
use std::alloc::Global;

/// The reasons so far, what shows them, and the rosters that were found.
#[derive(Drop, Debug)]
pub(crate) struct Made {
    pub reasons: Reasons,
    pub shown: List<Shown>,
    pub known: List<Known>,
}

/// The cause that a place shows: a tie where it is above the last.
fn cause_at(members: u32, place: u32) -> Cause
    ensures cause { result ≡ cause_at members place }
{
    if members < place {
        Cause::Tie
    } else {
        Cause::Place(place)
    }
}

/// Adds a reason for the bid, and what shows it.
fn add(made: &mut Made, members: u32, bid: BidRef, settled: Settled) -> Result<(), Memory>
    ensures known { made.new.known ≡ made.old.known }
    ensures reasons { OnOk result (made.new.reasons
        ≡ made.old.reasons ++ (record { bid = bid; cause = cause_at members settled.place }) ∷ []) }
    ensures shown { OnOk result (made.new.shown
        ≡ made.old.shown ++ (record { proof = settled.proof; roster = settled.roster }) ∷ []) }
{
    let denial = Denial {
        bid,
        cause: cause_at(members, settled.place),
    };
    if made.reasons.push(denial).is_err() {
        return Err(Memory::NoMemory);
    }
    let part = Shown {
        proof: settled.proof,
        roster: settled.roster,
    };
    if made.shown.push(part).is_err() {
        return Err(Memory::NoMemory);
    }
    Ok(())
}

/// Explains the bid, where the roster does not grant it, and says whether there was room for that.
fn explain_bid<C: Closer>(
    alloc: Global,
    problem: &Problem,
    closer: &mut C,
    roster: &Roster,
    scores: &[u32],
    bid: BidRef,
    made: &mut Made,
    ledger: &mut Ledger,
) -> Result<bool, Memory>
    requires fits { C.fits closer.old problem.now }
    requires rounds { C.rounds closer.old ≡ ledger.old.rounds }
    requires orderly { IsOrderly problem.now ledger.old }
    requires searches { length ledger.old.goals + (length problem.now.base.members + 1)
        ≤ 4000000000 }
    requires room { HasRoom ledger.old }
    requires complete { IsComplete problem.now roster.now }
    requires greatest { IsGreatest problem.now roster.now }
    requires scores { scores.now ≡ scores_of problem.now roster.now }
    requires bid { IsBidOf problem.now bid }
    requires so_far { AreExplained problem.now roster.now made.old.reasons made.old.shown bid }
    requires known { AreFound problem.now scores.now made.old.known }
    ensures goes_on { IfOk result (λ goes. MatchBool goes
        (GoesOn problem.now roster.now (bid_behind bid) ledger.old ledger.new made.old made.new)
        (IsFull ledger.new)) }
    ensures adds { AddsSearches problem.now (IsAskedFor problem.now scores.now (λ b. b ≡ bid))
        ledger.old ledger.new }
    ensures takes { TakesSearches problem.now
        (length problem.now.base.members + 1) ledger.old ledger.new }
    ensures rounds { C.rounds closer.new ≡ C.rounds closer.old }
    ensures fits { (other : Problem) → C.fits closer.new other ↔ C.fits closer.old other }
{
    if is_granted(problem, roster, bid) {
        return Ok(true);
    }
    let start = known_for(alloc, problem, scores, bid, made.known.as_slice())?;
    match settle(
        alloc,
        problem,
        closer,
        scores,
        bid,
        start,
        &mut made.known,
        ledger,
    )? {
        None => Ok(false),
        Some(settled) => {
            add(made, problem.base.members.len() as u32, bid, settled)?;
            Ok(true)
        }
    }
}

/// Explains the bids of the member that the roster does not grant, and says whether there was room for that.
pub(crate) fn explain_member<C: Closer>(
    alloc: Global,
    problem: &Problem,
    closer: &mut C,
    roster: &Roster,
    scores: &[u32],
    member: u32,
    made: &mut Made,
    ledger: &mut Ledger,
) -> Result<bool, Memory>
    requires fits { C.fits closer.old problem.now }
    requires rounds { C.rounds closer.old ≡ ledger.old.rounds }
    requires orderly { IsOrderly problem.now ledger.old }
    requires searches { length ledger.old.goals ≤ 3000000000 }
    requires room { HasRoom ledger.old }
    requires complete { IsComplete problem.now roster.now }
    requires greatest { IsGreatest problem.now roster.now }
    requires scores { scores.now ≡ scores_of problem.now roster.now }
    requires member { member < length problem.now.base.members }
    requires so_far { AreExplained problem.now roster.now made.old.reasons made.old.shown
        (first_bid member) }
    requires known { AreFound problem.now scores.now made.old.known }
    ensures goes_on { IfOk result (λ goes. MatchBool goes
        (GoesOn problem.now roster.now (first_bid (member + 1)) ledger.old ledger.new made.old
        made.new) (IsFull ledger.new)) }
    ensures adds { AddsSearches problem.now (IsAskedFor problem.now scores.now
        (λ b. b.member ≡ member)) ledger.old ledger.new }
    ensures takes { TakesSearches problem.now
        (bid_searches problem.now (length (bids_of problem.now member))) ledger.old ledger.new }
    ensures rounds { C.rounds closer.new ≡ C.rounds closer.old }
    ensures fits { (other : Problem) → C.fits closer.new other ↔ C.fits closer.old other }
{
    let lists = problem.bids.as_slice();
    let bids = lists[member as usize].as_slice();
    for number in 0..bids.len() as u32 {
        let bid = BidRef {
            member,
            bid: number,
        };
        if !explain_bid(alloc, problem, closer, roster, scores, bid, made, ledger)? {
            return Ok(false);
        }
    }
    Ok(true)
}
