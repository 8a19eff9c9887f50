//! Single steps of an award.
ghost use Rattle.std.specs.Prelude.{◌≡◌, ◌↔◌, ◌+◌, ◌^◌, ◌<◌, ◌≤◌, Some, [], ◌∷◌, ◌++◌, length, take, sum_by, OnOk, IfOk};
ghost use Rattle.std.specs.Option.{ForSome};
ghost use Rattle.roster_model.specs.declared.problem.Problem.{Problem};
ghost use Rattle.roster_model.specs.Awards.{no_goal, floor_goal};
ghost use Rattle.roster_model.specs.Lawful.{bids_weight};
ghost use Rattle.roster_model.specs.Rosters.{IsComplete, scores_of, line_at};
ghost use Rattle.roster_model.specs.Scores.{score_of};
ghost use Rattle.branch_log.specs.Book.{IsOrderly};
ghost use Rattle.branch_log.specs.Honest.{IsHonest};
ghost use Rattle.branch_log.specs.declared.closer.Verdict.{Verdict as Said};
ghost use Rattle.completion_search.specs.Found.{IsFinding, AddsSearch, AddsFewEntries, HasFewSplits};

use bid_score::score;
use branch_log::{Closer, Ledger, Proposal, Verdict};
use completion_search::{Finding, search};
use duty_calendar::{List, Memory};
use roster_model::{Bid, Goal, Problem, Proof, Roster};
use std::alloc::Global;

/// Searches for a complete roster.
pub(crate) fn ask_nothing<C: Closer>(
    alloc: Global,
    problem: &Problem,
    closer: &mut C,
    ledger: &mut Ledger,
) -> Result<Finding, Memory>
    requires fits { C.fits closer.old problem.now }
    requires rounds { C.rounds closer.old ≡ ledger.old.rounds }
    requires orderly { IsOrderly problem.now ledger.old }
    requires searches { length ledger.old.goals ≤ 4000000000 }
    ensures found { IfOk result (IsFinding problem.now no_goal ledger.new) }
    ensures adds { AddsSearch problem.now no_goal ledger.old ledger.new }
    ensures few { AddsFewEntries problem.now ledger.old ledger.new }
    ensures short { IfOk result (HasFewSplits ledger.old ledger.new) }
    ensures rounds { C.rounds closer.new ≡ C.rounds closer.old }
    ensures fits { (other : Problem) → C.fits closer.new other ↔ C.fits closer.old other }
{
    let goal = Goal::new(alloc);
    search(alloc, problem, closer, &goal, None, ledger)
}

/// Searches for a complete roster that reaches the scores before a place, and the floor at it. A verdict on the empty node
/// may be known.
pub(crate) fn ask<C: Closer>(
    alloc: Global,
    problem: &Problem,
    closer: &mut C,
    ledger: &mut Ledger,
    before: &[u32],
    floor: u32,
    first: Option<Verdict>,
) -> Result<Finding, Memory>
    requires fits { C.fits closer.old problem.now }
    requires rounds { C.rounds closer.old ≡ ledger.old.rounds }
    requires orderly { IsOrderly problem.now ledger.old }
    requires searches { length ledger.old.goals ≤ 4000000000 }
    requires place { length before.now < length problem.now.base.members }
    requires first { ForSome first (IsHonest problem.now ledger.old.rounds
        (floor_goal before.now floor) []) }
    ensures found { IfOk result (IsFinding problem.now (floor_goal before.now floor) ledger.new) }
    ensures adds { AddsSearch problem.now (floor_goal before.now floor) ledger.old ledger.new }
    ensures few { AddsFewEntries problem.now ledger.old ledger.new }
    ensures short { IfOk result (HasFewSplits ledger.old ledger.new) }
    ensures rounds { C.rounds closer.new ≡ C.rounds closer.old }
    ensures fits { (other : Problem) → C.fits closer.new other ↔ C.fits closer.old other }
{
    let goal = Goal::reaching(alloc, before, floor)?;
    search(alloc, problem, closer, &goal, first, ledger)
}

/// The floor nearest to this one between a score that is reached and a floor that is not.
fn between(floor: u32, score: u32, refuted: u32) -> u32
    requires apart { score + 1 < refuted }
    ensures above { score < result }
    ensures below { result < refuted }
{
    floor.max(score + 1).min(refuted - 1)
}

/// The proposal, with its floor brought between a score that is reached and a floor that is not. A verdict on another floor
/// is dropped.
fn within(proposal: Proposal, score: u32, refuted: u32) -> Proposal
    requires apart { score + 1 < refuted }
    ensures above { score < result.floor }
    ensures below { result.floor < refuted }
    ensures same { (said : Said) → result.verdict ≡ Some said
        → (proposal.verdict ≡ Some said) × (result.floor ≡ proposal.floor) }
{
    let floor = between(proposal.floor, score, refuted);
    if floor == proposal.floor {
        return proposal;
    }
    Proposal {
        floor,
        verdict: None,
    }
}

/// The floor to be tried next, between a score that is reached and a floor that is not, with a verdict where one is known.
pub(crate) fn propose<C: Closer>(
    alloc: Global,
    problem: &Problem,
    closer: &mut C,
    before: &[u32],
    score: u32,
    refuted: u32,
) -> Result<Proposal, Memory>
    requires fits { C.fits closer.old problem.now }
    requires place { length before.now < length problem.now.base.members }
    requires apart { score + 1 < refuted }
    ensures above { IfOk result (λ p. score < p.floor) }
    ensures below { IfOk result (λ p. p.floor < refuted) }
    ensures honest { IfOk result (λ p. ForSome p.verdict (IsHonest problem.now
        (C.rounds closer.old) (floor_goal before.now p.floor) [])) }
    ensures rounds { C.rounds closer.new ≡ C.rounds closer.old }
    ensures fits { (other : Problem) → C.fits closer.new other ↔ C.fits closer.old other }
{
    let proposal = closer.propose(alloc, problem, before, score, refuted)?;
    Ok(within(proposal, score, refuted))
}

fn total(bids: &[Bid]) -> u32
    requires fits { sum_by (λ b. b.weight) bids.now < 2 ^ 32 }
    ensures { result ≡ sum_by (λ b. b.weight) bids.now }
{
    bids.iter().map(|bid| bid.weight).sum()
}

/// What the bids of the member weigh together.
pub(crate) fn bids_weight(problem: &Problem, member: u32) -> u32
    requires member { member < length problem.now.base.members }
    ensures value { result ≡ bids_weight problem.now member }
{
    let lists = problem.bids.as_slice();
    total(lists[member as usize].as_slice())
}

/// The score of the member in the roster.
pub(crate) fn score_in(problem: &Problem, roster: &Roster, member: u32) -> u32
    requires complete { IsComplete problem.now roster.now }
    requires member { member < length problem.now.base.members }
    ensures value { result ≡ score_of problem.now member (line_at roster.now member) }
{
    let lines = roster.as_slice();
    score(problem, member, &lines[member as usize])
}

/// The scores of the members before a place.
pub(crate) fn scores_before(
    alloc: Global,
    problem: &Problem,
    roster: &Roster,
    place: u32,
) -> Result<List<u32>, Memory>
    requires complete { IsComplete problem.now roster.now }
    requires place { place ≤ length problem.now.base.members }
    ensures value { IfOk result (λ scores. scores ≡ take place (scores_of problem.now roster.now)) }
{
    let mut scores = List::new(alloc);
    for member in 0..place {
        add_score(&mut scores, score_in(problem, roster, member))?;
    }
    Ok(scores)
}

/// Appends a score.
pub(crate) fn add_score(scores: &mut List<u32>, score: u32) -> Result<(), Memory>
    ensures ok { OnOk result (scores.new ≡ scores.old ++ score ∷ []) }
{
    match scores.push(score) {
        Ok(()) => Ok(()),
        Err(_) => Err(Memory::NoMemory),
    }
}

/// Appends a proof.
pub(crate) fn add_proof(proofs: &mut List<Proof>, proof: Proof) -> Result<(), Memory>
    ensures ok { OnOk result (proofs.new ≡ proofs.old ++ proof ∷ []) }
{
    match proofs.push(proof) {
        Ok(()) => Ok(()),
        Err(_) => Err(Memory::NoMemory),
    }
}
