//! The terms of a class.
ghost use Rattle.std.specs.Prelude.{◌≡◌, ◌≢◌, ◌<◌, ◌&&◌, ◌==◌, ◌↔◌, ℕ, List, IfNone, IfSome, false, length, true, if◌then◌else◌};
ghost use Rattle.std.specs.Int.{bit_at};
ghost use Rattle.std.specs.Option.{ForSome};
ghost use Rattle.roster_model.specs.Lenses.{IsLens, IsLensLine, has_trackable, has_whole, is_tracked, is_whole_tracked};
ghost use Rattle.roster_model.specs.declared.node.Decision.{Decision};
ghost use Rattle.lens_classes.specs.TermLines.{AreTermsOf, IsTermLine};
ghost use Rattle.lens_classes.specs.Classes.{IsClass, IsTerms, asked_bid, asks, floor_of, has_counting, is_counting, is_in};

use crate::sums::{
    asks, bids_of, class_beyond, class_days, class_lost, class_low, high_of, is_in, is_trackable,
    is_whole, low_of, rules_days,
};
use crate::terms::Terms;
use roster_model::{Goal, Lens, Problem, Wish};

/// Whether the lens tracks a bid of this number.
fn is_tracked(lens: &Lens, bid: u32) -> bool
    ensures tracked { result ≡ is_tracked lens.now bid }
{
    let tracked = lens.tracked;
    if bid < 64 {
        return is_in(tracked, bid);
    }
    false
}

/// Whether the set has a bid of this number.
fn has_bid(bids: u64, bid: u32) -> bool
    ensures within { result ≡ is_in bids bid }
{
    if bid < 64 {
        return is_in(bids, bid);
    }
    false
}

/// Whether the member has a bid of this number that one pairing can decide.
fn has_trackable(problem: &Problem, member: u32, bid: u32) -> bool
    requires member { member < length problem.now.base.members }
    ensures trackable { result ≡ has_trackable problem.now member bid }
{
    bids_of(problem, member)
        .get(bid as usize)
        .is_some_and(|bid| is_trackable(&bid.wish))
}

/// Whether the member has a bid of this number that only a whole line decides.
fn has_whole(problem: &Problem, member: u32, bid: u32) -> bool
    requires member { member < length problem.now.base.members }
    ensures whole { result ≡ has_whole problem.now member bid }
{
    bids_of(problem, member)
        .get(bid as usize)
        .is_some_and(|bid| is_whole(&bid.wish))
}

/// Whether the wish asks for several pairings of a kind.
fn is_counting(wish: &Wish) -> bool
    ensures counting { result ≡ is_counting wish.now }
{
    match wish {
        Wish::Prefer(least, _) => *least != 1,
        Wish::Fly(_) | Wish::Avoid(_) | Wish::Off(_, _) => false,
        Wish::CreditBelow(_) | Wish::CreditAbove(_) | Wish::DaysOff(_) => false,
    }
}

/// The set with this bid, or as it is.
fn with_bid(bids: u64, bid: usize, on: bool) -> u64
    requires within { bid < 64 }
    ensures here { bit_at result bid ≡ (if on then 1 else bit_at bids bid) }
    ensures others { (b : ℕ) → b ≢ bid → bit_at result b ≡ bit_at bids b }
{
    if on {
        return bids | (1 << bid);
    }
    bids
}

/// Whether the class grants the bid, of this number, and counts its pairings.
fn is_counted(lens: &Lens, granted: u64, number: usize, wish: &Wish) -> bool
    requires within { number < 64 }
    ensures counted { result ≡ (asks lens.now (is_in granted) number && is_counting wish.now) }
{
    asks(lens, granted, number as u32) && is_counting(wish)
}

/// The bids whose pairings the class counts.
fn counted_bids(problem: &Problem, member: u32, lens: &Lens, granted: u64) -> u64
    requires member { member < length problem.now.base.members }
    ensures counted { (bid : ℕ) → (bit_at result bid == 1)
        ≡ (asks lens.now (is_in granted) bid && has_counting problem.now member bid) }
{
    let bids = bids_of(problem, member);
    let mut counted = 0;
    for number in 0..bids.len() {
        counted = with_bid(
            counted,
            number,
            is_counted(lens, granted, number, &bids[number].wish),
        );
    }
    counted
}

/// The goal's bid, where it is the member's, tracked, and one that a pairing can decide.
fn asked_bid(problem: &Problem, member: u32, goal: &Goal, lens: &Lens) -> Option<u32>
    requires member { member < length problem.now.base.members }
    ensures asked { result ≡ asked_bid problem.now member goal.now lens.now }
{
    match goal.grant {
        Some(wanted) => {
            if wanted.member == member
                && is_tracked(lens, wanted.bid)
                && has_trackable(problem, member, wanted.bid)
            {
                Some(wanted.bid)
            } else {
                None
            }
        }
        None => None,
    }
}

/// Whether the set has the goal's bid, where that is the member's, tracked, and one that only a whole line decides.
fn grants_goal(problem: &Problem, member: u32, goal: &Goal, lens: &Lens, granted: u64) -> bool
    requires member { member < length problem.now.base.members }
    ensures grants { (result ≡ true) ↔ ForSome goal.now.grant (λ b. b.member ≡ member
        → is_whole_tracked problem.now member lens.now b.bid ≡ true → is_in granted b.bid ≡ true) }
{
    match goal.grant {
        Some(wanted) => {
            wanted.member != member
                || !is_tracked(lens, wanted.bid)
                || !has_whole(problem, member, wanted.bid)
                || has_bid(granted, wanted.bid)
        }
        None => true,
    }
}

/// The member's floor, or 0.
fn floor_of(goal: &Goal, member: u32) -> u32
    ensures floor { result ≡ floor_of goal.now member }
{
    goal.floors
        .as_slice()
        .get(member as usize)
        .map_or(0, |floor| *floor)
}

/// The terms of the class that grants these bids, where there is such a class.
pub fn class_terms(
    problem: &Problem,
    member: u32,
    goal: &Goal,
    lens: &Lens,
    granted: u64,
) -> Option<Terms>
    requires member { member < length problem.now.base.members }
    ensures class { IfSome result (λ terms. IsClass problem.now member goal.now lens.now
        (is_in granted)) }
    ensures terms { IfSome result (λ terms. IsTerms problem.now member goal.now lens.now
        (is_in granted) terms) }
    ensures fits { IfSome result (λ terms. AreTermsOf problem.now member terms) }
    ensures none { IfNone result (IsClass problem.now member goal.now lens.now
        (is_in granted) → ⊥) }
{
    let low = class_low(problem, member, lens, granted);
    let beyond = class_beyond(problem, member, lens, granted);
    if low >= beyond || !grants_goal(problem, member, goal, lens, granted) {
        return None;
    }
    let floor = u64::from(floor_of(goal, member));
    let lost = class_lost(problem, member, lens, granted);
    Some(Terms {
        low: low as u32,
        high: (beyond - 1) as u32,
        days_off: class_days(problem, member, lens, granted),
        floor: floor + lost,
        asked: asked_bid(problem, member, goal, lens),
        counted: counted_bids(problem, member, lens, granted),
    })
}

/// The terms of a lens that looks at pairings one by one: its lines are those that keep them.
pub fn plain_terms(problem: &Problem, member: u32, goal: &Goal, lens: &Lens) -> Terms
    requires member { member < length problem.now.base.members }
    requires lens { IsLens problem.now member lens.now }
    requires plain { lens.now.whole ≡ false }
    ensures fits { AreTermsOf problem.now member result }
    ensures none { result.counted ≡ 0 }
    ensures same { (node : List Decision) (line : List ℕ)
        → IsLensLine problem.now member goal.now node lens.now line
        ↔ IsTermLine problem.now member node lens.now result line }
{
    Terms {
        low: low_of(problem, member),
        high: high_of(problem, member),
        days_off: rules_days(problem, lens),
        floor: u64::from(floor_of(goal, member)),
        asked: asked_bid(problem, member, goal, lens),
        counted: 0,
    }
}
