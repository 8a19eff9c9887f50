//! The least credit of a class, the credit that is too much for it, its days off, and what it loses.
ghost use Rattle.std.specs.Prelude.{◌≡◌, ◌+◌, ◌*◌, ◌<◌, ◌≤◌, ◌&&◌, not, length, min, if◌then◌else◌};
ghost use Rattle.roster_model.specs.Legality.{high_of, low_of};
ghost use Rattle.roster_model.specs.Lenses.{is_tracked, is_trackable, is_whole};
ghost use Rattle.roster_model.specs.Scores.{bids_of};
ghost use Rattle.lens_classes.specs.Classes.{asks, beyond_for, class_beyond, class_days, class_lost, class_low, days_for, is_in, least_for};

use roster_model::{Bid, Lens, Problem, Wish};

/// The member's bids.
#[tactic(auto, using(crate::proofs::ClassLines::few_bids))]
pub(crate) fn bids_of(problem: &Problem, member: u32) -> &[Bid]
    requires member { member < length problem.now.base.members }
    ensures bids { result.now ≡ bids_of problem.now member }
    ensures few { length result.now ≤ 64 }
{
    let lists = problem.bids.as_slice();
    lists[member as usize].as_slice()
}

/// Whether the set has the bid.
#[tactic(auto, using(std::proofs::lemmas::Nat::Bits::shr_and_one))]
pub(crate) fn is_in(bids: u64, bid: u32) -> bool
    requires in_bits { bid < 64 }
    ensures within { result ≡ is_in bids bid }
{
    (bids >> bid) & 1 == 1
}

/// Whether the lens tracks the bid.
fn is_tracked(lens: &Lens, bid: u32) -> bool
    requires in_bits { bid < 64 }
    ensures tracked { result ≡ is_tracked lens.now bid }
{
    let tracked = lens.tracked;
    is_in(tracked, bid)
}

/// Whether the class grants the tracked bid of this number.
pub(crate) fn asks(lens: &Lens, granted: u64, bid: u32) -> bool
    requires in_bits { bid < 64 }
    ensures asks { result ≡ asks lens.now (is_in granted) bid }
{
    is_tracked(lens, bid) && is_in(granted, bid)
}

/// Whether one pairing can decide the wish.
pub(crate) fn is_trackable(wish: &Wish) -> bool
    ensures trackable { result ≡ is_trackable wish.now }
{
    match wish {
        Wish::Fly(_) | Wish::Avoid(_) | Wish::Off(_, _) => true,
        Wish::Prefer(least, _) => *least == 1,
        Wish::CreditBelow(_) | Wish::CreditAbove(_) | Wish::DaysOff(_) => false,
    }
}

/// Whether only a whole line decides the wish.
pub(crate) fn is_whole(wish: &Wish) -> bool
    ensures whole { result ≡ is_whole wish.now }
{
    !is_trackable(wish)
}

/// The least credit with which the wish is granted.
fn least_for(wish: &Wish) -> u64
    ensures least { result ≡ least_for wish.now }
{
    match wish {
        Wish::CreditAbove(credit) => u64::from(*credit) + 1,
        Wish::Fly(_) | Wish::Avoid(_) | Wish::Prefer(_, _) | Wish::Off(_, _) => 0,
        Wish::CreditBelow(_) | Wish::DaysOff(_) => 0,
    }
}

/// The credit from which on the wish is not granted, or the given one.
fn beyond_for(beyond: u64, wish: &Wish) -> u64
    ensures beyond { result ≡ beyond_for beyond wish.now }
{
    match wish {
        Wish::CreditBelow(credit) => u64::from(*credit),
        Wish::Fly(_) | Wish::Avoid(_) | Wish::Prefer(_, _) | Wish::Off(_, _) => beyond,
        Wish::CreditAbove(_) | Wish::DaysOff(_) => beyond,
    }
}

/// How many days off the wish wants.
fn days_for(wish: &Wish) -> u32
    ensures days { result ≡ days_for wish.now }
{
    match wish {
        Wish::DaysOff(days) => *days,
        Wish::Fly(_) | Wish::Avoid(_) | Wish::Prefer(_, _) | Wish::Off(_, _) => 0,
        Wish::CreditBelow(_) | Wish::CreditAbove(_) => 0,
    }
}

/// The least credit for the bid, where the class grants it.
fn low_part(lens: &Lens, granted: u64, bid: u32, wish: &Wish) -> u64
    requires in_bits { bid < 64 }
    ensures part { result ≡ (if asks lens.now (is_in granted) bid then least_for wish.now else 0) }
{
    if asks(lens, granted, bid) {
        least_for(wish)
    } else {
        0
    }
}

/// The lesser of the credit that is too much so far and that for the bid, where the class grants it.
fn lesser_beyond(lens: &Lens, granted: u64, bid: u32, wish: &Wish, base: u64, least: u64) -> u64
    requires in_bits { bid < 64 }
    ensures part { result ≡ (if asks lens.now (is_in granted) bid then
        min least (beyond_for base wish.now) else least) }
{
    if asks(lens, granted, bid) {
        least.min(beyond_for(base, wish))
    } else {
        least
    }
}

/// The days off for the bid, where the class grants it.
fn days_part(lens: &Lens, granted: u64, bid: u32, wish: &Wish) -> u32
    requires in_bits { bid < 64 }
    ensures part { result ≡ (if asks lens.now (is_in granted) bid then days_for wish.now else 0) }
{
    if asks(lens, granted, bid) {
        days_for(wish)
    } else {
        0
    }
}

/// The weight of the bid, where it is tracked, only a whole line decides it, and the class does not grant it.
fn lost_part(lens: &Lens, granted: u64, number: u32, bid: &Bid) -> u32
    requires in_bits { number < 64 }
    ensures part { result ≡ (if is_tracked lens.now number && (is_whole bid.now.wish
        && not (is_in granted number)) then bid.now.weight else 0) }
{
    if is_tracked(lens, number) && is_whole(&bid.wish) && !is_in(granted, number) {
        bid.weight
    } else {
        0
    }
}

/// The member's least and greatest credit.
pub(crate) fn low_of(problem: &Problem, member: u32) -> u32
    requires member { member < length problem.now.base.members }
    ensures low { result ≡ low_of problem.now member }
{
    problem.base.members.as_slice()[member as usize].low
}

pub(crate) fn high_of(problem: &Problem, member: u32) -> u32
    requires member { member < length problem.now.base.members }
    ensures high { result ≡ high_of problem.now member }
{
    problem.base.members.as_slice()[member as usize].high
}

/// The rules' days off, where the lens looks at days.
pub(crate) fn rules_days(problem: &Problem, lens: &Lens) -> u32
    ensures days { result ≡ (if lens.now.days then problem.now.base.rules.days_off else 0) }
{
    if lens.days {
        problem.base.rules.days_off
    } else {
        0
    }
}

/// The least credit of the class that grants these bids.
pub(crate) fn class_low(problem: &Problem, member: u32, lens: &Lens, granted: u64) -> u64
    requires member { member < length problem.now.base.members }
    ensures low { result ≡ class_low problem.now member lens.now (is_in granted) }
{
    let bids = bids_of(problem, member);
    let mut most = u64::from(low_of(problem, member));
    for number in 0..bids.len() {
        let part = low_part(lens, granted, number as u32, &bids[number].wish);
        most = most.max(part);
    }
    most
}

/// The credit that is too much for the class that grants these bids.
pub(crate) fn class_beyond(problem: &Problem, member: u32, lens: &Lens, granted: u64) -> u64
    requires member { member < length problem.now.base.members }
    ensures beyond { result ≡ class_beyond problem.now member lens.now (is_in granted) }
    ensures small { result ≤ 12001 }
{
    let bids = bids_of(problem, member);
    let base = u64::from(high_of(problem, member)) + 1;
    let mut least = base;
    for number in 0..bids.len() {
        least = lesser_beyond(
            lens,
            granted,
            number as u32,
            &bids[number].wish,
            base,
            least,
        );
    }
    least
}

/// The days off of the class that grants these bids.
pub(crate) fn class_days(problem: &Problem, member: u32, lens: &Lens, granted: u64) -> u32
    requires member { member < length problem.now.base.members }
    ensures days { result ≡ class_days problem.now member lens.now (is_in granted) }
{
    let bids = bids_of(problem, member);
    let mut most = rules_days(problem, lens);
    for number in 0..bids.len() {
        let part = days_part(lens, granted, number as u32, &bids[number].wish);
        most = most.max(part);
    }
    most
}

/// What the bids weigh together that the class loses.
pub(crate) fn class_lost(problem: &Problem, member: u32, lens: &Lens, granted: u64) -> u64
    requires member { member < length problem.now.base.members }
    ensures lost { result ≡ class_lost problem.now member lens.now (is_in granted) }
    ensures small { result ≤ 64 * 4294967296 }
{
    let bids = bids_of(problem, member);
    let mut lost = 0;
    for number in 0..bids.len() {
        lost += u64::from(lost_part(lens, granted, number as u32, &bids[number]));
    }
    lost
}
