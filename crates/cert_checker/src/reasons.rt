//! The reasons of an award as a list.
ghost use Rattle.std.specs.Prelude.{◌≡◌, ◌↔◌, ◌<◌, length, All, IsTrue};
ghost use Rattle.roster_model.specs.Denials.{IsBefore, IsListed, place_of};
ghost use Rattle.cert_checker.specs.Given.{AreInRange};
ghost use Rattle.cert_checker.specs.Reasons.{Decides, FindsFirstOf, FindsMislisted, IsMislisted, IsMisplaced, IsPassed, IsPlacedPast};

use bid_score::granted;
use roster_model::{BidRef, Cause, Denial, Line, Problem, Roster};

/// Whether both are one bid.
fn is_same(first: BidRef, second: BidRef) -> bool
    ensures same { IsTrue result ↔ (first ≡ second) }
{
    first.member == second.member && first.bid == second.bid
}

/// Whether the first bid comes before the second.
fn is_before(first: BidRef, second: BidRef) -> bool
    ensures before { IsTrue result ↔ IsBefore first second }
{
    first.member < second.member || (first.member == second.member && first.bid < second.bid)
}

/// The place that a cause names, and 0 for a tie.
pub(crate) fn place_of(cause: Cause) -> u32
    ensures place { result ≡ place_of cause }
{
    match cause {
        Cause::Tie => 0,
        Cause::Place(place) => place,
    }
}

/// Whether the bid has a reason.
fn is_listed(reasons: &[Denial], bid: BidRef) -> bool
    ensures listed { Decides (IsListed reasons.now bid) result }
{
    for reason in reasons {
        if is_same(reason.bid, bid) {
            return true;
        }
    }
    false
}

/// Whether the bid is listed with a place above the last.
fn is_placed_past(members: u32, reasons: &[Denial], bid: BidRef) -> bool
    ensures past { Decides (IsPlacedPast members reasons.now bid) result }
{
    for reason in reasons {
        if is_same(reason.bid, bid) {
            if members < place_of(reason.cause) {
                return true;
            }
        }
    }
    false
}

/// Whether one of the reasons is the bid's or a later bid's.
fn is_passed(reasons: &[Denial], bid: BidRef) -> bool
    ensures passed { Decides (IsPassed reasons.now bid) result }
{
    for reason in reasons {
        if is_same(reason.bid, bid) {
            return true;
        }
        if is_before(bid, reason.bid) {
            return true;
        }
    }
    false
}

/// Whether the reason is the bid's, and one of those before it is the bid's or a later bid's.
fn is_behind(reason: BidRef, before: &[Denial], bid: BidRef) -> bool
    ensures behind { Decides ((reason ≡ bid) × IsPassed before.now bid) result }
{
    if !is_same(reason, bid) {
        return false;
    }
    is_passed(before, bid)
}

/// Whether the bid is listed behind itself or behind a later bid.
fn is_misplaced(reasons: &[Denial], bid: BidRef) -> bool
    ensures misplaced { Decides (IsMisplaced reasons.now bid) result }
{
    for (at, reason) in reasons.iter().enumerate() {
        if is_behind(reason.bid, &reasons[..at], bid) {
            return true;
        }
    }
    false
}

/// Whether something is wrong with the reasons at the bid, which is granted or not.
fn is_mislisted(members: u32, is_granted: bool, reasons: &[Denial], bid: BidRef) -> bool
    ensures wrong { Decides (IsMislisted members is_granted reasons.now bid) result }
{
    if is_misplaced(reasons, bid) {
        return true;
    }
    if is_placed_past(members, reasons, bid) {
        return true;
    }
    is_listed(reasons, bid) == is_granted
}

/// The number of the member's first bid at which something is wrong.
fn first_of_member(problem: &Problem, member: u32, line: &Line, reasons: &[Denial]) -> Option<u32>
    requires member { member < length problem.now.base.members }
    requires known { All (λ p. p < length problem.now.base.pairings) line.now }
    ensures first { FindsFirstOf problem.now member line.now reasons.now result }
{
    let lists = problem.bids.as_slice();
    let bids = lists[member as usize].as_slice();
    let members = problem.base.members.len() as u32;
    for number in 0..bids.len() as u32 {
        let bid = BidRef {
            member,
            bid: number,
        };
        if is_mislisted(
            members,
            granted(problem, member, number, line),
            reasons,
            bid,
        ) {
            return Some(number);
        }
    }
    None
}

/// The first bid at which something is wrong with the reasons.
pub(crate) fn first_mislisted(
    problem: &Problem,
    roster: &Roster,
    reasons: &[Denial],
) -> Option<BidRef>
    requires lines { length roster.now ≡ length problem.now.base.members }
    requires pairings { AreInRange problem.now roster.now }
    ensures first { FindsMislisted problem.now roster.now reasons.now result }
{
    for (member, line) in roster.as_slice().iter().enumerate() {
        let member = member as u32;
        if let Some(bid) = first_of_member(problem, member, line, reasons) {
            return Some(BidRef { member, bid });
        }
    }
    None
}
