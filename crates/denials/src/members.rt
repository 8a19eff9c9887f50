//! The reasons of all denied bids.
ghost use Rattle.std.specs.Prelude.{◌≡◌, ◌↔◌, ◌<◌, ◌≤◌, None, length, All, IfOk};
ghost use Rattle.roster_model.specs.declared.problem.Problem.{Problem};
ghost use Rattle.roster_model.specs.Rosters.{IsComplete, scores_of};
ghost use Rattle.roster_model.specs.Awards.{IsGreatest};
ghost use Rattle.roster_model.specs.Lawful.{IsBidGoal, bid_count};
ghost use Rattle.branch_log.specs.Book.{IsLawfulBook, IsOrderly};
ghost use Rattle.completion_search.specs.Added.{AddsSearches, TakesSearches};
ghost use Rattle.completion_search.specs.Found.{HasRoom};
ghost use Rattle.denials.specs.Asked.{IsAskedFor};
ghost use Rattle.denials.specs.Explained.{FitsDenials, HasFewSplits, IsExplanation, IsNotSpent, bid_searches};

use crate::bids::{Made, explain_member};
use crate::explained::Explained;
use bid_score::scores_of;
use branch_log::{Closer, Ledger};
use duty_calendar::{List, Memory};
use roster_model::{Problem, Roster};
use std::alloc::Global;

/// Explains each bid that the roster, whose scores are the greatest, does not grant: a reason, in the order of members
/// and bids, and what shows it.
pub fn explain<C: Closer>(
    alloc: Global,
    problem: &Problem,
    closer: &mut C,
    roster: &Roster,
    ledger: &mut Ledger,
) -> Result<Explained, Memory>
    requires fits { C.fits closer.old problem.now }
    requires rounds { C.rounds closer.old ≡ ledger.old.rounds }
    requires orderly { IsOrderly problem.now ledger.old }
    requires searches { length ledger.old.goals ≤ 2000000000 }
    requires complete { IsComplete problem.now roster.now }
    requires greatest { IsGreatest problem.now roster.now }
    ensures outcome { IfOk result (IsExplanation problem.now roster.now ledger.new) }
    ensures adds { AddsSearches problem.now (IsBidGoal problem.now) ledger.old ledger.new }
    ensures lawful { IsLawfulBook problem.now ledger.old
        → All (λ goal. goal.grant ≡ None) ledger.old.goals → IsLawfulBook problem.now ledger.new }
    ensures takes { TakesSearches problem.now
        (bid_searches problem.now (bid_count problem.now)) ledger.old ledger.new }
    ensures enough { FitsDenials problem.now ledger.old → IfOk result IsNotSpent }
    ensures short { IfOk result (HasFewSplits ledger.old ledger.new) }
    ensures rounds { C.rounds closer.new ≡ C.rounds closer.old }
    ensures fits { (other : Problem) → C.fits closer.new other ↔ C.fits closer.old other }
{
    if ledger.len() == ledger.cap() {
        return Ok(Explained::Spent);
    }
    let scores = scores_of(alloc, problem, roster)?;
    explain_all(alloc, problem, closer, roster, scores.as_slice(), ledger)
}

/// Explains the bids of all members, one member after another.
fn explain_all<C: Closer>(
    alloc: Global,
    problem: &Problem,
    closer: &mut C,
    roster: &Roster,
    scores: &[u32],
    ledger: &mut Ledger,
) -> Result<Explained, Memory>
    requires fits { C.fits closer.old problem.now }
    requires rounds { C.rounds closer.old ≡ ledger.old.rounds }
    requires orderly { IsOrderly problem.now ledger.old }
    requires searches { length ledger.old.goals ≤ 2000000000 }
    requires room { HasRoom ledger.old }
    requires complete { IsComplete problem.now roster.now }
    requires greatest { IsGreatest problem.now roster.now }
    requires scores { scores.now ≡ scores_of problem.now roster.now }
    ensures outcome { IfOk result (IsExplanation problem.now roster.now ledger.new) }
    ensures adds { AddsSearches problem.now (IsAskedFor problem.now scores.now
        (λ b. b.member < length problem.now.base.members)) ledger.old ledger.new }
    ensures takes { TakesSearches problem.now
        (bid_searches problem.now (bid_count problem.now)) ledger.old ledger.new }
    ensures short { IfOk result (HasFewSplits ledger.old ledger.new) }
    ensures rounds { C.rounds closer.new ≡ C.rounds closer.old }
    ensures fits { (other : Problem) → C.fits closer.new other ↔ C.fits closer.old other }
{
    let mut made = Made {
        reasons: List::new(alloc),
        shown: List::new(alloc),
        known: List::new(alloc),
    };
    for member in 0..problem.base.members.len() as u32 {
        if !explain_member(
            alloc, problem, closer, roster, scores, member, &mut made, ledger,
        )? {
            return Ok(Explained::Spent);
        }
    }
    Ok(Explained::All(made.reasons, made.shown))
}
