//! The judge of an award with vacant lines.
ghost use Rattle.std.specs.Prelude.{◌≡◌, ◌↔◌, ◌+◌, ◌<◌, ◌≤◌, All, OnOk, IfOk, IfErr, length};
ghost use Rattle.std.specs.Option.{ForSome, option_copied};
ghost use Rattle.roster_model.specs.declared.problem.Problem.{Problem};
ghost use Rattle.roster_model.specs.Denials.{IsAwarded};
ghost use Rattle.cert_checker.specs.Given.{AreCountableParts, AreInRange, HasSmallProof, HasSmallWeights, HaveSmallWeights, IsCountable, IsCountableProof, NameBids};
ghost use Rattle.open_time.specs.declared.refusal.OpenNo.TheVariants.{NoneProof};
ghost use Rattle.open_time.specs.Vacant.{HasRoomFor, IsUnfilledUnder, IsWithVacant, NeedsVacant};
ghost use Rattle.open_time.specs.Refuted.{IsOpenAward, IsRefutedWith, IsRefutedBelow};
ghost use Rattle.open_time.specs.Judged.{IsFirstOpenNo, ExcludesOpen, OpeningFails, FewerFails, BelowFails, AwardFails, IsRefutedBy, GivenFails};

use crate::fault::OpenFault;
use crate::refusal::OpenNo;
use crate::vacant::{add_vacant, with_vacant};
use cert_checker::{No, judge, judge_none};
use roster_model::{Awarded, Problem, Proof, Reasons, Roster};
use std::alloc::Global;

/// Whether the award of the month with so many vacant lines is accepted, and the proof that one less is not enough, else
/// the first test that fails: whether they can be added, whether a proof is there exactly for a count above 0, the
/// proof, the award.
pub fn judge_open(
    alloc: Global,
    problem: &Problem,
    count: u32,
    none: Option<&Proof>,
    roster: &Roster,
    reasons: &Reasons,
    awarded: &Awarded,
) -> Result<(), OpenNo>
    requires few { count ≤ 4294967095 }
    requires small_none { ForSome (option_copied none) (All HasSmallWeights) }
    requires countable_none { ForSome (option_copied none) IsCountableProof }
    requires lines { length roster.now ≡ length problem.now.base.members + count }
    requires pairings { AreInRange problem.now roster.now }
    requires bids { NameBids problem.now reasons.now }
    requires small { HaveSmallWeights awarded.now.proofs }
    requires countable { IsCountable awarded.now.proofs }
    requires small_shown { All HasSmallProof awarded.now.shown }
    requires countable_shown { AreCountableParts awarded.now.shown }
    ensures accepted { OnOk result (IsOpenAward problem.now count (option_copied none.entry)
        roster.now reasons.now awarded.now) }
    ensures needs { OnOk result (NeedsVacant problem.now count) }
    ensures fewest { OnOk result (IsUnfilledUnder problem.now count) }
    ensures first { IfErr result (IsFirstOpenNo problem.now count (option_copied none.entry)
        roster.now reasons.now awarded.now) }
    ensures refused { ExcludesOpen result (IsOpenAward problem.now count (option_copied none.entry)
        roster.now reasons.now awarded.now) }
{
    let made = match open(alloc, problem, count) {
        Ok(made) => made,
        Err(why) => return Err(why),
    };
    match judge_below(alloc, problem, count, none) {
        Ok(()) => {}
        Err(why) => return Err(why),
    }
    judge_award(alloc, &made, roster, reasons, awarded)
}

/// The month with so many vacant lines, or why they cannot be added.
fn open(alloc: Global, problem: &Problem, count: u32) -> Result<Problem, OpenNo>
    requires few { count ≤ 4294967095 }
    ensures made { IfOk result (IsWithVacant problem.now count) }
    ensures room { OnOk result (HasRoomFor problem.now count) }
    ensures fault { IfErr result (OpeningFails problem.now count) }
{
    match with_vacant(alloc, problem, count) {
        Ok(made) => Ok(made),
        Err(OpenFault::NoMemory) => Err(OpenNo::NoMemory),
        Err(OpenFault::Members(total)) => Err(OpenNo::Open(OpenFault::Members(total))),
        Err(OpenFault::NameTaken(member)) => Err(OpenNo::Open(OpenFault::NameTaken(member))),
    }
}

/// Whether the proof is there exactly for a count above 0, and closes the empty goal of the month with one vacant line
/// less.
fn judge_below(
    alloc: Global,
    problem: &Problem,
    count: u32,
    none: Option<&Proof>,
) -> Result<(), OpenNo>
    requires room { HasRoomFor problem.now count }
    requires small { ForSome (option_copied none) (All HasSmallWeights) }
    requires countable { ForSome (option_copied none) IsCountableProof }
    ensures accepted { OnOk result (IsRefutedBelow problem.now count (option_copied none.entry)) }
    ensures fault { IfErr result (BelowFails problem.now count (option_copied none.entry)) }
{
    match none {
        None => judge_missing(count),
        Some(proof) => judge_given(alloc, problem, count, proof),
    }
}

/// Whether no proof is due.
fn judge_missing(count: u32) -> Result<(), OpenNo>
    ensures none_due { OnOk result (count ≡ 0) }
    ensures due { IfErr result (λ why. (why ≡ NoneProof) × (0 < count)) }
{
    if count > 0 {
        return Err(OpenNo::NoneProof);
    }
    Ok(())
}

/// Whether a proof is due, and closes the empty goal of the month with one vacant line less.
fn judge_given(alloc: Global, problem: &Problem, count: u32, proof: &Proof) -> Result<(), OpenNo>
    requires room { HasRoomFor problem.now count }
    requires small { All HasSmallWeights proof.now }
    requires countable { IsCountableProof proof.now }
    ensures accepted { OnOk result (IsRefutedBy problem.now count proof.now) }
    ensures fault { IfErr result (GivenFails problem.now count proof.now) }
{
    if count == 0 {
        return Err(OpenNo::NoneProof);
    }
    judge_fewer(alloc, problem, count - 1, proof)
}

/// Whether the proof closes the empty goal of the month with so many vacant lines.
fn judge_fewer(alloc: Global, problem: &Problem, less: u32, proof: &Proof) -> Result<(), OpenNo>
    requires room { HasRoomFor problem.now less }
    requires small { All HasSmallWeights proof.now }
    requires countable { IsCountableProof proof.now }
    ensures accepted { OnOk result (IsRefutedWith problem.now less proof.now) }
    ensures fault { IfErr result (FewerFails problem.now less proof.now) }
{
    let made = match add_vacant(alloc, problem, less) {
        Ok(made) => made,
        Err(_) => return Err(OpenNo::NoMemory),
    };
    match judge_none(alloc, &made, proof) {
        Ok(()) => Ok(()),
        Err(No::NoMemory) => Err(OpenNo::NoMemory),
        Err(why) => Err(OpenNo::Fewer(why)),
    }
}

/// Whether the award is accepted.
fn judge_award(
    alloc: Global,
    made: &Problem,
    roster: &Roster,
    reasons: &Reasons,
    awarded: &Awarded,
) -> Result<(), OpenNo>
    requires lines { length roster.now ≡ length made.now.base.members }
    requires pairings { AreInRange made.now roster.now }
    requires bids { NameBids made.now reasons.now }
    requires small { HaveSmallWeights awarded.now.proofs }
    requires countable { IsCountable awarded.now.proofs }
    requires small_shown { All HasSmallProof awarded.now.shown }
    requires countable_shown { AreCountableParts awarded.now.shown }
    ensures accepted { OnOk result (IsAwarded made.now roster.now reasons.now awarded.now) }
    ensures fault { IfErr result (AwardFails made.now roster.now reasons.now awarded.now) }
{
    match judge(alloc, made, roster, reasons, awarded) {
        Ok(()) => Ok(()),
        Err(No::NoMemory) => Err(OpenNo::NoMemory),
        Err(why) => Err(OpenNo::Award(why)),
    }
}
