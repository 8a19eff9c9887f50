//! The greatest score of one place.
ghost use Rattle.std.specs.Prelude.{◌≡◌, ◌↔◌, ◌+◌, ◌<◌, ◌≤◌, length, IfOk};
ghost use Rattle.roster_model.specs.declared.problem.Problem.{Problem};
ghost use Rattle.roster_model.specs.Lawful.{AreGreatest, bids_weight};
ghost use Rattle.branch_log.specs.Book.{IsOrderly};
ghost use Rattle.completion_search.specs.Added.{AddsSearches, TakesSearches};
ghost use Rattle.award_loop.specs.Raised.{HasScores, IsRaised, IsGoalBehind};

use crate::ask::{ask, bids_weight, propose, score_in};
use branch_log::{Closer, Ledger};
use completion_search::Finding;
use duty_calendar::{List, Memory};
use roster_model::{Problem, Proof, Roster};
use std::alloc::Global;

/// What is found of a place.
#[derive(Drop, Debug)]
pub(crate) enum Raised {
    /// The greatest score, and a proof that there is no greater one.
    Top(u32, Proof),
    /// The ledger is full.
    Spent,
}

/// Replaces the roster by one with the same scores before a place and the greatest score at it.
pub(crate) fn raise<C: Closer>(
    alloc: Global,
    problem: &Problem,
    closer: &mut C,
    ledger: &mut Ledger,
    best: &mut Roster,
    before: &[u32],
) -> Result<Raised, Memory>
    requires fits { C.fits closer.old problem.now }
    requires rounds { C.rounds closer.old ≡ ledger.old.rounds }
    requires orderly { IsOrderly problem.now ledger.old }
    requires searches { length ledger.old.goals ≤ 3000000000 }
    requires place { length before.now < length problem.now.base.members }
    requires greatest { AreGreatest problem.now before.now }
    requires has { HasScores problem.now before.now best.old }
    ensures raised { IfOk result (IsRaised problem.now before.now ledger.old ledger.new best.new) }
    ensures adds { AddsSearches problem.now (IsGoalBehind problem.now before.now) ledger.old
        ledger.new }
    ensures takes { TakesSearches problem.now
        (bids_weight problem.now (length before.now) + 1) ledger.old ledger.new }
    ensures rounds { C.rounds closer.new ≡ C.rounds closer.old }
    ensures fits { (other : Problem) → C.fits closer.new other ↔ C.fits closer.old other }
{
    let place = before.len() as u32;
    let mut score = score_in(problem, best, place);
    let mut refuted = bids_weight(problem, place) + 2;
    let mut proof: Proof = List::new(alloc);
    while score + 1 < refuted {
        let proposal = propose(alloc, problem, closer, before, score, refuted)?;
        let floor = proposal.floor;
        match ask(
            alloc,
            problem,
            closer,
            ledger,
            before,
            floor,
            proposal.verdict,
        )? {
            Finding::Found(better) => {
                score = score_in(problem, &better, place);
                *best = better;
            }
            Finding::Refuted(items) => {
                refuted = floor;
                proof = items;
            }
            Finding::Spent => return Ok(Raised::Spent),
        }
    }
    Ok(Raised::Top(score, proof))
}
