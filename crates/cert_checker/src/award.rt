//! The judge of an award.
ghost use Rattle.std.specs.Prelude.{◌≡◌, ◌+◌, ◌^◌, ◌<◌, [], length, All, OnOk, IfOk, IfErr};
ghost use Rattle.roster_model.specs.Closing.{Closes};
ghost use Rattle.roster_model.specs.Rosters.{IsComplete, scores_of};
ghost use Rattle.roster_model.specs.Awards.{above_at, no_goal, HasNoRoster, IsBest, IsGreatest};
ghost use Rattle.roster_model.specs.Denials.{DenialsFit, IsAwarded};
ghost use Rattle.cert_checker.specs.Given.{AreCountableParts, AreInRange, HasSmallProof, HasSmallWeights, HaveSmallWeights, IsCountable, IsCountableProof, NameBids};
ghost use Rattle.cert_checker.specs.Stops.{Stops};
ghost use Rattle.cert_checker.specs.Awards.{AreAllClosed, AreAnswered, DenialsFail, Excludes, IsClosingSound, IsFirstNo, IsFirstOfPlaces, IsIncomplete, PlacesFail};
ghost use Rattle.cert_checker.specs.Recalls.{IsRight};

use crate::goals::goal_above;
use crate::noted::Noted;
use crate::reasons::first_mislisted;
use crate::recall::Recall;
use crate::refusal::No;
use crate::shown::first_unshown;
use crate::walk::first_fault;
use bid_score::scores_of;
use duty_calendar::List;
use line_legality::{RosterFault, complete};
use roster_model::{Awarded, Goal, Item, Problem, Proof, Reasons, Roster, Shown};
use std::alloc::Global;

/// Whether the award is accepted, else the first test that fails: the lines in order, the crews of
/// the pairings in order, the number of place proofs, the place proofs in order; then the number
/// of parts that are shown, the reasons as a list, and each reason in order: its parts, its proof,
/// its roster. Search k is that of place k, and with n members search n + i is that of reason i.
pub fn judge(
    alloc: Global,
    problem: &Problem,
    roster: &Roster,
    reasons: &Reasons,
    awarded: &Awarded,
) -> Result<(), No>
    requires lines { length roster.now ≡ length problem.now.base.members }
    requires pairings { AreInRange problem.now roster.now }
    requires bids { NameBids problem.now reasons.now }
    requires small { HaveSmallWeights awarded.now.proofs }
    requires countable { IsCountable awarded.now.proofs }
    requires small_shown { All HasSmallProof awarded.now.shown }
    requires countable_shown { AreCountableParts awarded.now.shown }
    ensures accepted { OnOk result (IsAwarded problem.now roster.now reasons.now awarded.now) }
    ensures first { IfErr result (IsFirstNo problem.now roster.now reasons.now awarded.now) }
    ensures refused { Excludes result (IsAwarded problem.now roster.now reasons.now awarded.now) }
    ensures greatest { OnOk result (IsGreatest problem.now roster.now) }
    ensures answered { OnOk result (AreAnswered problem.now roster.now reasons.now awarded.now) }
    ensures sound { IsClosingSound problem.now }
{
    let mut noted = List::new(alloc);
    judge_noting(alloc, problem, roster, reasons, awarded, &mut noted)
}

/// As `judge`. Where the places have their proofs, the heaviest lines that were found on the way are
/// handed out, for whoever looks for an award of a month that differs by little.
pub fn judge_noting(
    alloc: Global,
    problem: &Problem,
    roster: &Roster,
    reasons: &Reasons,
    awarded: &Awarded,
    noted: &mut List<Noted>,
) -> Result<(), No>
    requires lines { length roster.now ≡ length problem.now.base.members }
    requires pairings { AreInRange problem.now roster.now }
    requires bids { NameBids problem.now reasons.now }
    requires small { HaveSmallWeights awarded.now.proofs }
    requires countable { IsCountable awarded.now.proofs }
    requires small_shown { All HasSmallProof awarded.now.shown }
    requires countable_shown { AreCountableParts awarded.now.shown }
    ensures accepted { OnOk result (IsAwarded problem.now roster.now reasons.now awarded.now) }
    ensures first { IfErr result (IsFirstNo problem.now roster.now reasons.now awarded.now) }
    ensures refused { Excludes result (IsAwarded problem.now roster.now reasons.now awarded.now) }
    ensures greatest { OnOk result (IsGreatest problem.now roster.now) }
    ensures answered { OnOk result (AreAnswered problem.now roster.now reasons.now awarded.now) }
    ensures sound { IsClosingSound problem.now }
{
    let mut recall = Recall::new(alloc);
    let scores = judge_places(alloc, problem, &mut recall, roster, &awarded.proofs)?;
    let judged = judge_denials(
        alloc,
        problem,
        &mut recall,
        roster,
        scores.as_slice(),
        reasons,
        &awarded.shown,
    );
    *noted = recall.noted;
    judged
}

/// The lines, crews and place proofs of an award alone, with no word on its denied bids: the scores
/// of the roster where it is complete and each place has its proof, else the first test that fails,
/// in the order of `judge`.
fn judge_places(
    alloc: Global,
    problem: &Problem,
    recall: &mut Recall,
    roster: &Roster,
    place_proofs: &List<Proof>,
) -> Result<List<u32>, No>
    requires lines { length roster.now ≡ length problem.now.base.members }
    requires pairings { AreInRange problem.now roster.now }
    requires small { HaveSmallWeights place_proofs.now }
    requires countable { IsCountable place_proofs.now }
    requires right { IsRight problem.now recall.old }
    ensures value { IfOk result (λ scores. scores ≡ scores_of problem.now roster.now) }
    ensures accepted { OnOk result (IsBest problem.now roster.now place_proofs.now) }
    ensures first { IfErr result (PlacesFail problem.now roster.now place_proofs.now) }
    ensures refused { Excludes result (IsBest problem.now roster.now place_proofs.now) }
    ensures right { IsRight problem.now recall.new }
    ensures greatest { OnOk result (IsGreatest problem.now roster.now) }
    ensures sound { IsClosingSound problem.now }
{
    whole(alloc, problem, roster)?;
    let proofs = place_proofs.as_slice();
    let found = proofs.len();
    if found != problem.base.members.len() {
        return Err(No::Amount(found as u32));
    }
    let scores = scores_of(alloc, problem, roster)?;
    places(alloc, problem, recall, scores.as_slice(), proofs)?;
    Ok(scores)
}

/// Whether the denials fit, else the first test of them that fails.
fn judge_denials(
    alloc: Global,
    problem: &Problem,
    recall: &mut Recall,
    roster: &Roster,
    scores: &[u32],
    reasons: &Reasons,
    shown: &List<Shown>,
) -> Result<(), No>
    requires lines { length roster.now ≡ length problem.now.base.members }
    requires pairings { AreInRange problem.now roster.now }
    requires scores { scores.now ≡ scores_of problem.now roster.now }
    requires bids { NameBids problem.now reasons.now }
    requires small { All HasSmallProof shown.now }
    requires countable { AreCountableParts shown.now }
    requires right { IsRight problem.now recall.old }
    ensures fit { OnOk result (DenialsFit problem.now roster.now reasons.now shown.now) }
    ensures fault { IfErr result (DenialsFail problem.now roster.now reasons.now shown.now) }
    ensures refused { Excludes result (DenialsFit problem.now roster.now reasons.now shown.now) }
{
    let listed = reasons.as_slice();
    let parts = shown.as_slice();
    let found = parts.len();
    if found != listed.len() {
        return Err(No::Amount(found as u32));
    }
    if let Some(bid) = first_mislisted(problem, roster, listed) {
        return Err(No::Reason(bid.member, bid.bid));
    }
    first_unshown(alloc, problem, recall, scores, listed, parts)
}

/// Whether the proof shows that there is no complete roster, else what is wrong with it. Its search
/// is number 0.
pub fn judge_none(alloc: Global, problem: &Problem, proof: &Proof) -> Result<(), No>
    requires small { All HasSmallWeights proof.now }
    requires countable { IsCountableProof proof.now }
    ensures accepted { OnOk result (Closes problem.now no_goal [] proof.now) }
    ensures first { IfErr result (Stops problem.now no_goal 0 proof.now) }
    ensures refused { Excludes result (Closes problem.now no_goal [] proof.now) }
    ensures none { OnOk result (HasNoRoster problem.now) }
    ensures sound { IsClosingSound problem.now }
{
    let goal = Goal {
        floors: List::new(alloc),
        grant: None,
    };
    let mut recall = Recall::new(alloc);
    first_fault(alloc, problem, &mut recall, &goal, 0, proof.as_slice())
}

/// The first line that is illegal, else the first pairing without its crew.
fn whole(alloc: Global, problem: &Problem, roster: &Roster) -> Result<(), No>
    requires lines { length roster.now ≡ length problem.now.base.members }
    requires pairings { AreInRange problem.now roster.now }
    ensures complete { OnOk result (IsComplete problem.now roster.now) }
    ensures fault { IfErr result (IsIncomplete problem.now roster.now) }
    ensures incomplete { Excludes result (IsComplete problem.now roster.now) }
{
    match complete(alloc, problem, roster) {
        Ok(()) => Ok(()),
        Err(RosterFault::NoMemory) => Err(No::NoMemory),
        Err(RosterFault::Line(member, why)) => Err(No::Member(member, why)),
        Err(RosterFault::Cover(pairing, count)) => Err(No::Cover(pairing, count)),
    }
}

/// The first place whose proof does not close the goal above the scores, and what is wrong there.
fn places(
    alloc: Global,
    problem: &Problem,
    recall: &mut Recall,
    scores: &[u32],
    proofs: &[Proof],
) -> Result<(), No>
    requires members { length scores.now ≡ length problem.now.base.members }
    requires amount { length proofs.now ≡ length scores.now }
    requires room { All (λ s. s + 1 < 2 ^ 32) scores.now }
    requires small_weights { HaveSmallWeights proofs.now }
    requires countable { IsCountable proofs.now }
    requires right { IsRight problem.now recall.old }
    ensures closed { OnOk result (AreAllClosed problem.now scores.now proofs.now) }
    ensures fault { IfErr result (IsFirstOfPlaces problem.now scores.now proofs.now) }
    ensures right { IsRight problem.now recall.new }
{
    for (place, proof) in proofs.iter().enumerate() {
        judge_place(alloc, problem, recall, scores, place, proof.as_slice())?;
    }
    Ok(())
}

/// What is wrong with the proof of a place, where it does not close the place's goal.
fn judge_place(
    alloc: Global,
    problem: &Problem,
    recall: &mut Recall,
    scores: &[u32],
    place: usize,
    items: &[Item],
) -> Result<(), No>
    requires members { length scores.now ≡ length problem.now.base.members }
    requires place { place < length scores.now }
    requires room { All (λ s. s + 1 < 2 ^ 32) scores.now }
    requires small { place < 2 ^ 32 }
    requires small_weights { All HasSmallWeights items.now }
    requires countable { IsCountableProof items.now }
    requires right { IsRight problem.now recall.old }
    ensures closed { OnOk result (Closes problem.now (above_at scores.now place) [] items.now) }
    ensures fault { IfErr result (Stops problem.now (above_at scores.now place) place items.now) }
    ensures right { IsRight problem.now recall.new }
{
    let goal = goal_above(alloc, scores, place)?;
    first_fault(alloc, problem, recall, &goal, place as u32, items)
}
