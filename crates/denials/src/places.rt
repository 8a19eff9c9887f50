//! The place of one bid.
ghost use Rattle.std.specs.Prelude.{◌≡◌, ◌↔◌, ◌+◌, ◌<◌, ◌≤◌, ◌⊎◌, None, length, IfOk, OnOk};
ghost use Rattle.roster_model.specs.declared.problem.Problem.{Problem};
ghost use Rattle.roster_model.specs.Goals.{IsBidOf};
ghost use Rattle.roster_model.specs.Denials.{granting};
ghost use Rattle.branch_log.specs.Book.{IsOrderly};
ghost use Rattle.completion_search.specs.Added.{AddsSearches, TakesSearches};
ghost use Rattle.completion_search.specs.Found.{AddsFewEntries, AddsSearch, HasFewSplits, HasRoom, IsFinding};
ghost use Rattle.denials.specs.Asked.{IsAskedFor};
ghost use Rattle.denials.specs.Known.{AreFound};
ghost use Rattle.denials.specs.Settled.{IsBracketed, IsSettling};

use crate::known::{Known, Reached, first_missed, keep};
use crate::next::next_place;
use branch_log::{Closer, Ledger};
use completion_search::{Finding, search};
use duty_calendar::{List, Memory};
use roster_model::{BidRef, Goal, Problem, Proof, Roster};
use std::alloc::Global;

/// The first place that no complete roster with the bid reaches; a proof of it, unless it is above the last; and a
/// roster that reaches those before, unless it is 0.
#[derive(Drop, Debug)]
pub(crate) struct Settled {
    pub place: u32,
    pub roster: Option<Roster>,
    pub proof: Option<Proof>,
}

/// Searches for a complete roster that grants the bid and reaches the scores at the places up to this one.
fn ask<C: Closer>(
    alloc: Global,
    problem: &Problem,
    closer: &mut C,
    scores: &[u32],
    bid: BidRef,
    place: u32,
    ledger: &mut Ledger,
) -> Result<Finding, Memory>
    requires fits { C.fits closer.old problem.now }
    requires rounds { C.rounds closer.old ≡ ledger.old.rounds }
    requires orderly { IsOrderly problem.now ledger.old }
    requires searches { length ledger.old.goals ≤ 4000000000 }
    requires members { length scores.now ≡ length problem.now.base.members }
    requires bid { IsBidOf problem.now bid }
    requires place { place ≤ length problem.now.base.members }
    ensures found { IfOk result (IsFinding problem.now (granting scores.now place bid) ledger.new) }
    ensures adds { AddsSearch problem.now (granting scores.now place bid) ledger.old ledger.new }
    ensures few { AddsFewEntries problem.now ledger.old ledger.new }
    ensures short { IfOk result (HasFewSplits ledger.old ledger.new) }
    ensures rounds { C.rounds closer.new ≡ C.rounds closer.old }
    ensures fits { (other : Problem) → C.fits closer.new other ↔ C.fits closer.old other }
{
    let goal = Goal::granting(alloc, scores, place as usize, bid)?;
    search(alloc, problem, closer, &goal, None, ledger)
}

/// The first place that is open after a roster was found for one: behind that place, or behind all that the roster
/// reaches, and at most where a proof stands.
fn place_behind(place: u32, missed: u32, high: u32) -> u32
    requires some { place < high }
    ensures behind { place < result }
    ensures within { result ≤ high }
    ensures reached { (result ≡ place + 1) ⊎ (result ≤ missed) }
{
    let farthest = missed.min(high);
    if place < farthest {
        farthest
    } else {
        place + 1
    }
}

/// Finds the place of the bid, of which a roster may be known that reaches some. Each search tells of one place whether
/// it can be reached, and no place is asked for twice.
pub(crate) fn settle<C: Closer>(
    alloc: Global,
    problem: &Problem,
    closer: &mut C,
    scores: &[u32],
    bid: BidRef,
    start: Reached,
    known: &mut List<Known>,
    ledger: &mut Ledger,
) -> Result<Option<Settled>, Memory>
    requires fits { C.fits closer.old problem.now }
    requires rounds { C.rounds closer.old ≡ ledger.old.rounds }
    requires orderly { IsOrderly problem.now ledger.old }
    requires searches { length ledger.old.goals + (length problem.now.base.members + 1)
        ≤ 4000000000 }
    requires room { HasRoom ledger.old }
    requires members { length scores.now ≡ length problem.now.base.members }
    requires bid { IsBidOf problem.now bid }
    requires within { start.place ≤ length problem.now.base.members + 1 }
    requires start { IsBracketed problem.now scores.now bid start.place
        (length problem.now.base.members + 1) start.roster None }
    requires known { AreFound problem.now scores.now known.old }
    ensures settled { IfOk result (IsSettling problem.now scores.now bid ledger.old ledger.new) }
    ensures known { OnOk result (AreFound problem.now scores.now known.new) }
    ensures adds { AddsSearches problem.now (IsAskedFor problem.now scores.now (λ b. b ≡ bid))
        ledger.old ledger.new }
    ensures takes { TakesSearches problem.now
        (length problem.now.base.members + 1) ledger.old ledger.new }
    ensures rounds { C.rounds closer.new ≡ C.rounds closer.old }
    ensures fits { (other : Problem) → C.fits closer.new other ↔ C.fits closer.old other }
{
    let members = problem.base.members.len() as u32;
    let mut low: u32 = start.place;
    let mut high: u32 = members + 1;
    let mut reached: Option<Roster> = start.roster;
    let mut closing: Option<Proof> = None;
    while low < high {
        let place = next_place(alloc, problem, closer, scores, bid, low, high)?;
        match ask(alloc, problem, closer, scores, bid, place, ledger)? {
            Finding::Found(roster) => {
                let missed = first_missed(problem, scores, &roster);
                keep(alloc, known, missed, &roster)?;
                low = place_behind(place, missed, high);
                reached = Some(roster);
            }
            Finding::Refuted(proof) => {
                high = place;
                closing = Some(proof);
            }
            Finding::Spent => return Ok(None),
        }
    }
    Ok(Some(Settled {
        place: low,
        roster: reached,
        proof: closing,
    }))
}
