//! Awards.
ghost use Rattle.std.specs.Prelude.{◌≡◌, ◌↔◌, ◌<◌, ◌≤◌, [], None, length, take, All, IfOk};
ghost use Rattle.roster_model.specs.declared.problem.Problem.{Problem};
ghost use Rattle.roster_model.specs.Lawful.{AreGreatest};
ghost use Rattle.roster_model.specs.Rosters.{IsComplete, scores_of};
ghost use Rattle.branch_log.specs.Book.{IsOrderly, IsLawfulBook};
ghost use Rattle.completion_search.specs.Added.{AddsSearches, TakesSearches};
ghost use Rattle.award_loop.specs.Outcomes.{IsOutcome, IsOutcomeFrom, HasGreatestScores, HasFewSplits, IsNotSpent, IsAwardGoal, IsLaterGoal, FitsAward, place_searches};
ghost use Rattle.award_loop.specs.Raised.{TakesPlaces};

use crate::ask::{add_proof, add_score, ask_nothing, scores_before};
use crate::outcome::Outcome;
use crate::raise::{Raised, raise};
use branch_log::{Closer, Ledger};
use completion_search::Finding;
use duty_calendar::{Copied, List, Memory};
use roster_model::{Problem, Proof, Roster};
use std::alloc::Global;

/// Looks for a complete roster whose scores are the greatest, with a proof for each place, or for a proof that there
/// is no complete roster.
pub fn award<C: Closer>(
    alloc: Global,
    problem: &Problem,
    closer: &mut C,
    ledger: &mut Ledger,
) -> Result<Outcome, Memory>
    requires fits { C.fits closer.old problem.now }
    requires rounds { C.rounds closer.old ≡ ledger.old.rounds }
    requires orderly { IsOrderly problem.now ledger.old }
    requires searches { length ledger.old.goals ≤ 2000000000 }
    ensures outcome { IfOk result (IsOutcome problem.now ledger.new) }
    ensures seniority { IfOk result (HasGreatestScores problem.now) }
    ensures adds { AddsSearches problem.now (IsAwardGoal problem.now) ledger.old ledger.new }
    ensures lawful { ledger.old.goals ≡ [] → IsLawfulBook problem.now ledger.new }
    ensures no_bid { ledger.old.goals ≡ [] → All (λ goal. goal.grant ≡ None) ledger.new.goals }
    ensures takes { TakesSearches problem.now (place_searches problem.now) ledger.old ledger.new }
    ensures enough { FitsAward problem.now ledger.old → IfOk result IsNotSpent }
    ensures short { IfOk result (HasFewSplits ledger.old ledger.new) }
    ensures rounds { C.rounds closer.new ≡ C.rounds closer.old }
    ensures fits { (other : Problem) → C.fits closer.new other ↔ C.fits closer.old other }
{
    let roster = match ask_nothing(alloc, problem, closer, ledger)? {
        Finding::Found(roster) => roster,
        Finding::Refuted(proof) => return Ok(Outcome::NoRoster(proof)),
        Finding::Spent => return Ok(Outcome::Spent),
    };
    climb(alloc, problem, closer, ledger, roster, 0)
}

/// The award from a place on, where a complete roster has the greatest scores before it.
pub fn award_from<C: Closer>(
    alloc: Global,
    problem: &Problem,
    closer: &mut C,
    ledger: &mut Ledger,
    kept: &Roster,
    place: u32,
) -> Result<Outcome, Memory>
    requires fits { C.fits closer.old problem.now }
    requires rounds { C.rounds closer.old ≡ ledger.old.rounds }
    requires orderly { IsOrderly problem.now ledger.old }
    requires searches { length ledger.old.goals ≤ 2000000000 }
    requires complete { IsComplete problem.now kept.now }
    requires place { place < length problem.now.base.members }
    requires greatest { AreGreatest problem.now (take place (scores_of problem.now kept.now)) }
    ensures outcome { IfOk result (IsOutcomeFrom problem.now kept.now place ledger.new) }
    ensures seniority { IfOk result (HasGreatestScores problem.now) }
    ensures adds { AddsSearches problem.now (IsLaterGoal problem.now place) ledger.old ledger.new }
    ensures lawful { ledger.old.goals ≡ [] → IsLawfulBook problem.now ledger.new }
    ensures no_bid { ledger.old.goals ≡ [] → All (λ goal. goal.grant ≡ None) ledger.new.goals }
    ensures short { IfOk result (HasFewSplits ledger.old ledger.new) }
    ensures rounds { C.rounds closer.new ≡ C.rounds closer.old }
    ensures fits { (other : Problem) → C.fits closer.new other ↔ C.fits closer.old other }
{
    let roster = kept.copy(alloc)?;
    climb(alloc, problem, closer, ledger, roster, place)
}

/// Raises the scores of the places from the first on, one after another.
fn climb<C: Closer>(
    alloc: Global,
    problem: &Problem,
    closer: &mut C,
    ledger: &mut Ledger,
    roster: Roster,
    first: u32,
) -> Result<Outcome, Memory>
    requires fits { C.fits closer.old problem.now }
    requires rounds { C.rounds closer.old ≡ ledger.old.rounds }
    requires orderly { IsOrderly problem.now ledger.old }
    requires searches { length ledger.old.goals ≤ 2000000001 }
    requires complete { IsComplete problem.now roster }
    requires place { first < length problem.now.base.members }
    requires greatest { AreGreatest problem.now (take first (scores_of problem.now roster)) }
    ensures outcome { IfOk result (IsOutcomeFrom problem.now roster first ledger.new) }
    ensures adds { AddsSearches problem.now (IsLaterGoal problem.now first) ledger.old ledger.new }
    ensures takes { TakesPlaces problem.now first
        (length problem.now.base.members) ledger.old ledger.new }
    ensures short { IfOk result (HasFewSplits ledger.old ledger.new) }
    ensures rounds { C.rounds closer.new ≡ C.rounds closer.old }
    ensures fits { (other : Problem) → C.fits closer.new other ↔ C.fits closer.old other }
{
    let mut scores = scores_before(alloc, problem, &roster, first)?;
    let mut best = roster;
    let mut proofs: List<Proof> = List::new(alloc);
    let members = problem.base.members.len() as u32;
    for _place in first..members {
        match raise(alloc, problem, closer, ledger, &mut best, scores.as_slice())? {
            Raised::Top(score, proof) => {
                add_score(&mut scores, score)?;
                add_proof(&mut proofs, proof)?;
            }
            Raised::Spent => return Ok(Outcome::Spent),
        }
    }
    Ok(Outcome::Award(best, proofs))
}
