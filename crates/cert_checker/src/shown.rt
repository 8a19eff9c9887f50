//! What is shown for the reasons.
ghost use Rattle.std.specs.Prelude.{◌≡◌, ◌↔◌, ◌+◌, ◌<◌, ◌≤◌, ◌^◌, length, All, IfErr, IsTrue, OnOk};
ghost use Rattle.roster_model.specs.Goals.{IsBidOf};
ghost use Rattle.roster_model.specs.Denials.{HasItsParts, IsShown, has_proof, has_roster, place_of};
ghost use Rattle.cert_checker.specs.Given.{HasCountableProof, HasSmallProof, IsReasonAsked, NameBids};
ghost use Rattle.cert_checker.specs.Unshown.{AreAllShown, IsFirstUnshown, IsProofShown, IsRosterShown, IsUnshown, ProofFails, RosterFails};
ghost use Rattle.cert_checker.specs.Recalls.{IsRight};
ghost use Rattle.cert_checker.specs.Legals.{AreLegalLines};

use crate::legals::Legals;
use crate::reasons::place_of;
use crate::recall::Recall;
use crate::refusal::No;
use crate::walk::first_fault;
use crate::witness::is_witness;
use roster_model::{BidRef, Cause, Denial, Goal, Problem, Shown};
use std::alloc::Global;

/// Whether a proof is shown for the cause.
fn has_proof(cause: Cause) -> bool
    ensures proof { result ≡ has_proof cause }
{
    match cause {
        Cause::Tie => false,
        Cause::Place(_) => true,
    }
}

/// Whether a roster is shown for the cause.
fn has_roster(cause: Cause) -> bool
    ensures roster { result ≡ has_roster cause }
{
    match cause {
        Cause::Tie => true,
        Cause::Place(place) => place != 0,
    }
}

/// Whether exactly the parts are shown that the cause has.
fn has_its_parts(cause: Cause, shown: &Shown) -> bool
    ensures parts { IsTrue result ↔ HasItsParts cause shown.now }
{
    shown.proof.is_some() == has_proof(cause) && shown.roster.is_some() == has_roster(cause)
}

/// What is wrong with the proof of a reason, where one is shown.
fn judge_proof(
    alloc: Global,
    problem: &Problem,
    recall: &mut Recall,
    scores: &[u32],
    search: u32,
    denial: Denial,
    shown: &Shown,
) -> Result<(), No>
    requires asked { IsReasonAsked problem.now scores.now denial shown.now }
    requires right { IsRight problem.now recall.old }
    ensures closed { OnOk result (IsProofShown problem.now scores.now denial shown.now) }
    ensures fault { IfErr result (ProofFails problem.now scores.now search denial shown.now) }
    ensures right { IsRight problem.now recall.new }
{
    match &shown.proof {
        None => Ok(()),
        Some(proof) => {
            let places = place_of(denial.cause) as usize;
            let goal = Goal::granting(alloc, scores, places, denial.bid)?;
            first_fault(alloc, problem, recall, &goal, search, proof.as_slice())
        }
    }
}

/// What is wrong with the roster of a reason, where one is shown.
fn judge_roster(
    alloc: Global,
    problem: &Problem,
    legals: &mut Legals,
    scores: &[u32],
    denial: Denial,
    shown: &Shown,
) -> Result<(), No>
    requires members { length scores.now ≡ length problem.now.base.members }
    requires bid { IsBidOf problem.now denial.bid }
    requires legal { AreLegalLines problem.now legals.old }
    ensures witness { OnOk result (IsRosterShown problem.now scores.now denial shown.now) }
    ensures fault { IfErr result (RosterFails problem.now scores.now denial shown.now) }
    ensures legal { AreLegalLines problem.now legals.new }
{
    match &shown.roster {
        None => Ok(()),
        Some(roster) => {
            if is_witness(alloc, problem, legals, scores, denial, roster)? {
                Ok(())
            } else {
                Err(No::Shown(denial.bid.member, denial.bid.bid))
            }
        }
    }
}

/// What is wrong with a reason: its parts, its proof, or its roster.
fn judge_reason(
    alloc: Global,
    problem: &Problem,
    recall: &mut Recall,
    legals: &mut Legals,
    scores: &[u32],
    search: u32,
    denial: Denial,
    shown: &Shown,
) -> Result<(), No>
    requires asked { IsReasonAsked problem.now scores.now denial shown.now }
    requires right { IsRight problem.now recall.old }
    requires legal { AreLegalLines problem.now legals.old }
    ensures shown { OnOk result (IsShown problem.now scores.now denial shown.now) }
    ensures fault { IfErr result (IsUnshown problem.now scores.now search denial shown.now) }
    ensures right { IsRight problem.now recall.new }
    ensures legal { AreLegalLines problem.now legals.new }
{
    if !has_its_parts(denial.cause, shown) {
        return Err(No::Shown(denial.bid.member, denial.bid.bid));
    }
    judge_proof(alloc, problem, recall, scores, search, denial, shown)?;
    judge_roster(alloc, problem, legals, scores, denial, shown)
}

/// The first reason that is not shown, and what is wrong with it.
pub(crate) fn first_unshown(
    alloc: Global,
    problem: &Problem,
    recall: &mut Recall,
    scores: &[u32],
    reasons: &[Denial],
    shown: &[Shown],
) -> Result<(), No>
    requires members { length scores.now ≡ length problem.now.base.members }
    requires amount { length shown.now ≡ length reasons.now }
    requires few { length problem.now.base.members + length reasons.now < 2 ^ 32 }
    requires bids { NameBids problem.now reasons.now }
    requires places { All (λ d. place_of d.cause ≤ length problem.now.base.members) reasons.now }
    requires small { All HasSmallProof shown.now }
    requires countable { All HasCountableProof shown.now }
    requires right { IsRight problem.now recall.old }
    ensures shown { OnOk result (AreAllShown problem.now scores.now reasons.now shown.now) }
    ensures fault { IfErr result (IsFirstUnshown problem.now scores.now reasons.now shown.now) }
    ensures right { IsRight problem.now recall.new }
{
    let mut legals = Legals::new(alloc);
    for (at, part) in shown.iter().enumerate() {
        let search = (scores.len() + at) as u32;
        judge_reason(
            alloc,
            problem,
            recall,
            &mut legals,
            scores,
            search,
            reasons[at],
            part,
        )?;
    }
    Ok(())
}
