//! Rosters that are shown for reasons.
ghost use Rattle.std.specs.Prelude.{◌≡◌, ◌↔◌, ◌<◌, length, All, IfOk, IsTrue};
ghost use Rattle.roster_model.specs.Scores.{is_flown};
ghost use Rattle.roster_model.specs.Rosters.{IsComplete, crew_of, line_at, need_of, scores_of};
ghost use Rattle.roster_model.specs.Goals.{IsBidOf};
ghost use Rattle.roster_model.specs.Denials.{HasScoresFor, ReachesBefore, is_granted_by};
ghost use Rattle.line_legality.specs.Shortfalls.{AreCoveredBefore, AreLegalBefore};
ghost use Rattle.cert_checker.specs.Given.{AreInRange};
ghost use Rattle.cert_checker.specs.Legals.{AreLegalLines};
ghost use Rattle.cert_checker.specs.Reasons.{Decides};
ghost use Rattle.cert_checker.specs.Unshown.{IsWitnessOf};

use crate::legals::{Legals, is_legal};
use bid_score::{granted, score};
use duty_calendar::Memory;
use roster_model::{BidRef, Cause, Denial, Line, Problem, Roster};
use std::alloc::Global;

/// Whether the line names pairings of the problem.
pub(crate) fn is_in_range(problem: &Problem, line: &Line) -> bool
    ensures known { IsTrue result ↔ All (λ p. p < length problem.now.base.pairings) line.now }
{
    line.pairings()
        .iter()
        .all(|p| (*p as usize) < problem.base.pairings.len())
}

/// Whether each line of the roster does.
fn are_in_range(problem: &Problem, roster: &Roster) -> bool
    ensures known { IsTrue result ↔ AreInRange problem.now roster.now }
{
    roster
        .as_slice()
        .iter()
        .all(|line| is_in_range(problem, line))
}

/// Whether each line of the roster is legal for its member.
fn are_legal(
    alloc: Global,
    problem: &Problem,
    legals: &mut Legals,
    roster: &Roster,
) -> Result<bool, Memory>
    requires lines { length roster.now ≡ length problem.now.base.members }
    requires pairings { AreInRange problem.now roster.now }
    requires right { AreLegalLines problem.now legals.old }
    ensures legal { IfOk result (Decides (AreLegalBefore problem.now roster.now
        (length problem.now.base.members))) }
    ensures right { AreLegalLines problem.now legals.new }
{
    for (member, line) in roster.as_slice().iter().enumerate() {
        if !is_legal(alloc, problem, legals, member as u32, line)? {
            return Ok(false);
        }
    }
    Ok(true)
}

/// Whether the line has the pairing.
fn is_flown(line: &Line, pairing: u32) -> bool
    ensures flown { result ≡ is_flown line.now pairing }
{
    line.pairings().iter().any(|number| *number == pairing)
}

/// How many members have the pairing in their line.
#[tactic(auto, using(duty_calendar::proofs::Counting::counting))]
fn crew_of(problem: &Problem, roster: &Roster, pairing: u32) -> u32
    requires lines { length roster.now ≡ length problem.now.base.members }
    ensures crew { result ≡ crew_of problem.now roster.now pairing }
{
    let lines = roster.as_slice();
    let mut crew = 0;
    for member in 0..lines.len() as u32 {
        if is_flown(&lines[member as usize], pairing) {
            crew += 1;
        }
    }
    crew
}

/// How many members the pairing needs.
fn need_of(problem: &Problem, pairing: u32) -> u32
    requires pairing { pairing < length problem.now.base.pairings }
    ensures need { result ≡ need_of problem.now pairing }
{
    problem.base.pairings.as_slice()[pairing as usize].need
}

/// Whether each pairing has the crew that it needs.
fn are_crewed(problem: &Problem, roster: &Roster) -> bool
    requires lines { length roster.now ≡ length problem.now.base.members }
    ensures crewed { Decides (AreCoveredBefore problem.now roster.now
        (length problem.now.base.pairings)) result }
{
    for pairing in 0..problem.base.pairings.len() as u32 {
        if crew_of(problem, roster, pairing) != need_of(problem, pairing) {
            return false;
        }
    }
    true
}

/// Whether the roster is complete.
fn is_complete(
    alloc: Global,
    problem: &Problem,
    legals: &mut Legals,
    roster: &Roster,
) -> Result<bool, Memory>
    requires right { AreLegalLines problem.now legals.old }
    ensures complete { IfOk result (Decides (IsComplete problem.now roster.now)) }
    ensures right { AreLegalLines problem.now legals.new }
{
    if roster.len() != problem.base.members.len() {
        return Ok(false);
    }
    if !are_in_range(problem, roster) {
        return Ok(false);
    }
    if !are_legal(alloc, problem, legals, roster)? {
        return Ok(false);
    }
    Ok(are_crewed(problem, roster))
}

/// Whether the bid is granted.
fn is_granted(problem: &Problem, roster: &Roster, bid: BidRef) -> bool
    requires bid { IsBidOf problem.now bid }
    requires lines { length roster.now ≡ length problem.now.base.members }
    requires pairings { AreInRange problem.now roster.now }
    ensures granted { result ≡ is_granted_by problem.now roster.now bid }
{
    granted(
        problem,
        bid.member,
        bid.bid,
        &roster.as_slice()[bid.member as usize],
    )
}

/// Whether the roster has these scores.
fn has_scores(problem: &Problem, scores: &[u32], roster: &Roster) -> bool
    requires members { length scores.now ≡ length problem.now.base.members }
    requires lines { length roster.now ≡ length problem.now.base.members }
    requires pairings { AreInRange problem.now roster.now }
    ensures same { Decides (scores_of problem.now roster.now ≡ scores.now) result }
{
    for (member, line) in roster.as_slice().iter().enumerate() {
        if score(problem, member as u32, line) != scores[member] {
            return false;
        }
    }
    true
}

/// Whether the roster has these scores, or higher ones, at the places before this one.
fn reaches_before(problem: &Problem, scores: &[u32], place: u32, roster: &Roster) -> bool
    requires members { length scores.now ≡ length problem.now.base.members }
    requires lines { length roster.now ≡ length problem.now.base.members }
    requires pairings { AreInRange problem.now roster.now }
    ensures reaches { Decides (ReachesBefore problem.now scores.now place roster.now) result }
{
    for (member, line) in roster.as_slice().iter().enumerate() {
        if member + 1 < place as usize {
            if score(problem, member as u32, line) < scores[member] {
                return false;
            }
        }
    }
    true
}

/// Whether the roster has the scores that the cause asks for.
fn has_scores_for(problem: &Problem, scores: &[u32], cause: Cause, roster: &Roster) -> bool
    requires members { length scores.now ≡ length problem.now.base.members }
    requires lines { length roster.now ≡ length problem.now.base.members }
    requires pairings { AreInRange problem.now roster.now }
    ensures scored { Decides (HasScoresFor problem.now scores.now cause roster.now) result }
{
    match cause {
        Cause::Tie => has_scores(problem, scores, roster),
        Cause::Place(place) => reaches_before(problem, scores, place, roster),
    }
}

/// Whether the roster is as it is to be shown for the reason: complete, with the bid granted, and
/// with the scores that the cause asks for.
pub(crate) fn is_witness(
    alloc: Global,
    problem: &Problem,
    legals: &mut Legals,
    scores: &[u32],
    denial: Denial,
    roster: &Roster,
) -> Result<bool, Memory>
    requires members { length scores.now ≡ length problem.now.base.members }
    requires bid { IsBidOf problem.now denial.bid }
    requires right { AreLegalLines problem.now legals.old }
    ensures serves { IfOk result (Decides (IsWitnessOf problem.now scores.now denial roster.now)) }
    ensures right { AreLegalLines problem.now legals.new }
{
    if !is_complete(alloc, problem, legals, roster)? {
        return Ok(false);
    }
    if !is_granted(problem, roster, denial.bid) {
        return Ok(false);
    }
    Ok(has_scores_for(problem, scores, denial.cause, roster))
}
