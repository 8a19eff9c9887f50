//! The command `trial`.
ghost use Rattle.std.specs.Prelude.{◌≡◌, ◌≤◌, [], true, IfOk, OnOk};
ghost use Rattle.cert_text.specs.Limits.{is_certificate};
ghost use Rattle.month_award.specs.declared.outcome.MonthAward.TheVariants.{Award as MonthIsAwarded};
ghost use Rattle.month_award.specs.Months.{IsAwardedMonth, IsUnfillableMonth, GivesGreatestScores};
ghost use Rattle.roster_model.specs.Awards.{no_goal};
ghost use Rattle.roster_model.specs.Closing.{Closes};
ghost use Rattle.roster_model.specs.Denials.{IsAwarded};
ghost use Rattle.roster_model.specs.declared.award.Certificate.TheVariants.{Award as AwardForm, NoRoster as NoneForm};
ghost use Rattle.month_commands.specs.Trial.{Tries, IsTried, IsTrial};

use crate::award_stop::{Found, Miss};
use bid_score::scores_of;
use branch_log::{FreshCloser, Ledger};
use cert_checker::{No, judge, judge_none};
use duty_calendar::Memory;
use month_award::{AwardedMonth, MonthAward, UnfillableMonth, award_month};
use roster_model::{Awarded, Certificate, Problem, Proof, Reasons, Roster};
use std::alloc::Global;

/// What was found of a month.
#[derive(Drop, Debug)]
pub struct Tried {
    pub found: Found,
    /// The open nodes that were counted.
    pub ledger: Ledger,
}

/// Judges an award, which is accepted.
fn judge_award(
    alloc: Global,
    problem: &Problem,
    roster: &Roster,
    reasons: &Reasons,
    awarded: &Awarded,
) -> Result<(), Memory>
    requires accepted { IsAwarded problem.now roster.now reasons.now awarded.now }
    requires limits { is_certificate (AwardForm awarded.now) ≡ true }
{
    match judge(alloc, problem, roster, reasons, awarded) {
        Ok(()) => Ok(()),
        Err(No::NoMemory) => Err(Memory::NoMemory),
        Err(_) => unreachable!(),
    }
}

/// Judges a proof that there is no complete roster, which is accepted.
fn judge_proof(alloc: Global, problem: &Problem, proof: &Proof) -> Result<(), Memory>
    requires closes { Closes problem.now no_goal [] proof.now }
    requires limits { is_certificate (NoneForm proof.now) ≡ true }
{
    match judge_none(alloc, problem, proof) {
        Ok(()) => Ok(()),
        Err(No::NoMemory) => Err(Memory::NoMemory),
        Err(_) => unreachable!(),
    }
}

/// What is said of a month that is awarded. Its award is judged.
fn awarded(
    alloc: Global,
    problem: &Problem,
    nodes: u32,
    month: &AwardedMonth,
) -> Result<Found, Memory>
    requires month { IsAwardedMonth problem.now nodes month.now }
    requires seniors { GivesGreatestScores problem.now (MonthIsAwarded month.now) }
    ensures tried { IfOk result (λ f. Tries problem.now nodes f month.now.ledger) }
{
    let _ = nodes;
    let Certificate::Award(awarded) = &month.certificate else {
        unreachable!();
    };
    judge_award(alloc, problem, &month.roster, &month.reasons, awarded)?;
    let scores = scores_of(alloc, problem, &month.roster)?;
    Ok(Found::Award(scores, month.reasons.len() as u32))
}

/// What is said of a month that no roster fills. The proof of that is judged.
fn unfillable(
    alloc: Global,
    problem: &Problem,
    nodes: u32,
    month: &UnfillableMonth,
) -> Result<Found, Memory>
    requires month { IsUnfillableMonth problem.now nodes month.now }
    ensures tried { IfOk result (λ f. Tries problem.now nodes f month.now.ledger) }
{
    let _ = nodes;
    let Certificate::NoRoster(proof) = &month.certificate else {
        unreachable!();
    };
    judge_proof(alloc, problem, proof)?;
    Ok(Found::NoRoster)
}

/// What comes of the award of a month with so many nodes at most.
fn try_month<C: FreshCloser>(alloc: Global, problem: &Problem, nodes: u32) -> Result<Tried, Miss>
    requires some { 1 ≤ nodes }
    requires few { nodes ≤ 20000 }
    ensures tried { IsTried problem.now nodes result }
{
    match award_month::<C>(alloc, problem, nodes)? {
        MonthAward::Award(month) => {
            let found = awarded(alloc, problem, nodes, &month)?;
            Ok(Tried {
                found,
                ledger: month.ledger,
            })
        }
        MonthAward::NoRoster(month) => {
            let found = unfillable(alloc, problem, nodes, &month)?;
            Ok(Tried {
                found,
                ledger: month.ledger,
            })
        }
        MonthAward::Budget(ledger) => Err(Miss::Budget(ledger)),
    }
}

/// Awards the month that is made of a number, for so many members and pairings, with so many nodes at most, and judges
/// the award.
pub fn trial<C: FreshCloser>(
    alloc: Global,
    number: u64,
    members: u32,
    pairings: u32,
    nodes: u32,
) -> Result<Tried, Miss>
    requires some { 1 ≤ members }
    requires few { members ≤ 200 }
    requires short { pairings ≤ 600 }
    requires some_nodes { 1 ≤ nodes }
    requires few_nodes { nodes ≤ 20000 }
    ensures trial { IsTrial number members pairings nodes result }
{
    let problem = instance_maker::make(alloc, number, members, pairings)?;
    try_month::<C>(alloc, &problem, nodes)
}
