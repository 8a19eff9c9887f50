//! The award of a month.
ghost use Rattle.std.specs.Prelude.{◌≡◌, ◌*◌, ◌^◌, ◌<◌, ◌≤◌, IfOk};
ghost use Rattle.roster_model.specs.Ledgers.{pairs_of};
ghost use Rattle.roster_model.specs.Lawful.{most_searches};
ghost use Rattle.denials.specs.Explained.{FitsDenials};
ghost use Rattle.month_award.specs.Months.{IsMonthAward, GivesGreatestScores, IsNotBudget};
ghost use Rattle.month_award.specs.Runs.{HasAwarded};

use crate::outcome::{AwardedMonth, MonthAward, UnfillableMonth};
use award_loop::{Outcome, award};
use branch_log::{Closer, FreshCloser, Ledger};
use denials::{Explained, explain};
use duty_calendar::{List, Memory};
use roster_model::{Awarded, Certificate, Problem, Proof, Roster};
use std::alloc::Global;

/// How many rounds of lines show that a node is open.
const ROUNDS: u32 = 400;

/// Awards the month and explains the bids that it does not grant, with a ledger that has room for so many nodes, from 1
/// to 20,000. A node is open where 400 rounds of lines show it.
pub fn award_month<C: FreshCloser>(
    alloc: Global,
    problem: &Problem,
    nodes: u32,
) -> Result<MonthAward, Memory>
    requires some_nodes { 1 ≤ nodes }
    requires few_nodes { nodes ≤ 20000 }
    ensures outcome { IfOk result (IsMonthAward problem.now nodes) }
    ensures seniority { IfOk result (GivesGreatestScores problem.now) }
    ensures enough { most_searches problem.now * 2 ^ pairs_of problem.now < nodes
        → IfOk result IsNotBudget }
{
    let mut closer = C::new(alloc, problem, ROUNDS)?;
    let mut ledger = Ledger::new(alloc, nodes, ROUNDS)?;
    match award(alloc, problem, &mut closer, &mut ledger)? {
        Outcome::Award(roster, proofs) => {
            with_reasons(alloc, problem, &mut closer, ledger, roster, proofs)
        }
        Outcome::NoRoster(proof) => {
            let month = UnfillableMonth {
                certificate: Certificate::NoRoster(proof),
                ledger,
            };
            Ok(MonthAward::NoRoster(month))
        }
        Outcome::Spent => Ok(MonthAward::Budget(ledger)),
    }
}

/// The award with the reasons of the bids that the roster does not grant.
fn with_reasons<C: Closer>(
    alloc: Global,
    problem: &Problem,
    closer: &mut C,
    mut ledger: Ledger,
    roster: Roster,
    proofs: List<Proof>,
) -> Result<MonthAward, Memory>
    requires fits { C.fits closer.old problem.now }
    requires rounds { C.rounds closer.old ≡ ledger.rounds }
    requires awarded { HasAwarded problem.now ledger roster proofs }
    ensures outcome { IfOk result (IsMonthAward problem.now ledger.cap) }
    ensures seniority { IfOk result (GivesGreatestScores problem.now) }
    ensures enough { FitsDenials problem.now ledger → IfOk result IsNotBudget }
{
    match explain(alloc, problem, closer, &roster, &mut ledger)? {
        Explained::All(reasons, shown) => {
            let month = AwardedMonth {
                certificate: Certificate::Award(Awarded { proofs, shown }),
                roster,
                reasons,
                ledger,
            };
            Ok(MonthAward::Award(month))
        }
        Explained::Spent => Ok(MonthAward::Budget(ledger)),
    }
}
