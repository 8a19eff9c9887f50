//! What one number of vacant lines comes to.
ghost use Rattle.std.specs.Prelude.{◌≡◌, ◌≤◌, [], length, IfOk};
ghost use Rattle.branch_log.specs.Book.{IsLawfulBook};
ghost use Rattle.open_time.specs.Moves.{IsSettled};
ghost use Rattle.open_time.specs.Tries.{HasAwarded, IsAttempt, IsTried};

use crate::settling::settled;
use award_loop::{Outcome, award};
use branch_log::{Closer, Ledger};
use denials::{Explained, explain};
use duty_calendar::{List, Memory};
use roster_model::{Awarded, Problem, Proof, Reasons, Roster};
use std::alloc::Global;

/// How many rounds of lines show that a node is open.
const ROUNDS: u32 = 400;

/// What one number comes to.
#[derive(Drop, Debug)]
pub(crate) enum Tried {
    /// The award, with the reasons of the bids that it does not grant.
    Award(Roster, Awarded, Reasons),
    /// A proof that there is no complete roster.
    NoRoster(Proof),
    /// The ledger is full.
    Spent,
}

/// What one number comes to, and its ledger.
#[derive(Drop, Debug)]
pub(crate) struct Attempt {
    pub tried: Tried,
    pub ledger: Ledger,
}

/// The award of a month by a closer of its own, over an empty ledger with room for so many nodes. The lines from `crew` on
/// are vacant.
pub(crate) fn try_over<C: Closer + Drop>(
    alloc: Global,
    problem: &Problem,
    crew: u32,
    mut closer: C,
    nodes: u32,
) -> Result<Attempt, Memory>
    requires fits { C.fits closer problem.now }
    requires rounds { C.rounds closer ≡ 400 }
    requires crew { crew ≤ length problem.now.base.members }
    ensures attempt { IfOk result (IsAttempt problem.now crew nodes) }
{
    let mut ledger = Ledger::new(alloc, nodes, ROUNDS)?;
    let tried = try_month(alloc, problem, crew, &mut closer, &mut ledger)?;
    Ok(Attempt { tried, ledger })
}

/// The award of a month with the reasons of the bids that it does not grant, over an empty ledger. Its roster is settled
/// before reasons are looked for, so that they fit it.
fn try_month<C: Closer>(
    alloc: Global,
    problem: &Problem,
    crew: u32,
    closer: &mut C,
    ledger: &mut Ledger,
) -> Result<Tried, Memory>
    requires fits { C.fits closer.old problem.now }
    requires rounds { C.rounds closer.old ≡ ledger.old.rounds }
    requires unused { ledger.old.goals ≡ [] }
    requires empty { ledger.old.entries ≡ [] }
    requires crew { crew ≤ length problem.now.base.members }
    ensures tried { IfOk result (IsTried problem.now crew ledger.new) }
    ensures lawful { IsLawfulBook problem.now ledger.new }
    ensures cap { ledger.new.cap ≡ ledger.old.cap }
    ensures rounds { ledger.new.rounds ≡ ledger.old.rounds }
{
    match award(alloc, problem, closer, ledger)? {
        Outcome::Award(roster, proofs) => {
            let kept = settled(alloc, problem, crew, roster)?;
            with_reasons(alloc, problem, crew, closer, ledger, kept, proofs)
        }
        Outcome::NoRoster(proof) => Ok(Tried::NoRoster(proof)),
        Outcome::Spent => Ok(Tried::Spent),
    }
}

/// The award with the reasons of the bids that the roster does not grant.
fn with_reasons<C: Closer>(
    alloc: Global,
    problem: &Problem,
    crew: u32,
    closer: &mut C,
    ledger: &mut Ledger,
    roster: Roster,
    proofs: List<Proof>,
) -> Result<Tried, Memory>
    requires fits { C.fits closer.old problem.now }
    requires rounds { C.rounds closer.old ≡ ledger.old.rounds }
    requires awarded { HasAwarded problem.now ledger.old roster proofs }
    requires settled { IsSettled problem.now crew roster }
    ensures tried { IfOk result (IsTried problem.now crew ledger.new) }
    ensures lawful { IsLawfulBook problem.now ledger.new }
    ensures cap { ledger.new.cap ≡ ledger.old.cap }
    ensures rounds { ledger.new.rounds ≡ ledger.old.rounds }
{
    let _ = crew;
    match explain(alloc, problem, closer, &roster, ledger)? {
        Explained::All(reasons, shown) => {
            Ok(Tried::Award(roster, Awarded { proofs, shown }, reasons))
        }
        Explained::Spent => Ok(Tried::Spent),
    }
}
