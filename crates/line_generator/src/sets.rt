//! Sets of bids as bits.
ghost use Rattle.std.specs.Prelude.{◌≡◌, ◌≢◌, ◌+◌, ◌<◌, cond, ◌≤◌, ◌&&◌, ◌||◌, ◌^◌, ℕ, length};
ghost use Rattle.duty_calendar.specs.Minutes.{count_between};
ghost use Rattle.roster_model.specs.Lenses.{has_trackable, has_whole, is_tracked, is_whole, is_whole_tracked};
ghost use Rattle.lens_classes.specs.Classes.{is_in};
ghost use Rattle.line_generator.specs.ClassLines.{spread};

use line_items::{bids_of, is_set, is_trackable};
use roster_model::{Lens, Problem, Wish};

/// The set, with the bid where it is wanted.
fn with_bid(bids: u64, bid: u32, wanted: bool) -> u64
    requires in_bits { bid < 64 }
    ensures here { is_in result bid ≡ (wanted || is_in bids bid) }
    ensures others { (other : ℕ) → other ≢ bid → is_in result other ≡ is_in bids other }
{
    if wanted {
        return bids | (1 << bid);
    }
    bids
}

/// Whether the member has a bid of this number that one pairing can decide.
fn has_trackable(problem: &Problem, member: u32, bid: u32) -> bool
    requires member { member < length problem.now.base.members }
    ensures trackable { result ≡ has_trackable problem.now member bid }
{
    bids_of(problem, member)
        .get(bid as usize)
        .is_some_and(|bid| is_trackable(&bid.wish))
}

/// Whether only a whole line decides the wish.
fn is_whole(wish: &Wish) -> bool
    ensures whole { result ≡ is_whole wish.now }
{
    !is_trackable(wish)
}

/// Whether the member has a bid of this number that only a whole line decides.
fn has_whole(problem: &Problem, member: u32, bid: u32) -> bool
    requires member { member < length problem.now.base.members }
    ensures whole { result ≡ has_whole problem.now member bid }
{
    bids_of(problem, member)
        .get(bid as usize)
        .is_some_and(|bid| is_whole(&bid.wish))
}

/// The tracked bids that one pairing can decide.
pub(crate) fn trackable_bids(problem: &Problem, member: u32, lens: &Lens) -> u64
    requires member { member < length problem.now.base.members }
    ensures bids { (bid : ℕ) → is_in result bid
        ≡ (is_tracked lens.now bid && has_trackable problem.now member bid) }
{
    let tracked = lens.tracked;
    let mut bids = 0;
    for bid in 0..64u32 {
        let wanted = is_set(tracked, bid) && has_trackable(problem, member, bid);
        bids = with_bid(bids, bid, wanted);
    }
    bids
}

/// The tracked bids that only a whole line decides.
pub(crate) fn whole_bids(problem: &Problem, member: u32, lens: &Lens) -> u64
    requires member { member < length problem.now.base.members }
    ensures bids { (bid : ℕ) → is_in result bid ≡ is_whole_tracked problem.now member lens.now bid }
{
    let tracked = lens.tracked;
    let mut bids = 0;
    for bid in 0..64u32 {
        let wanted = is_set(tracked, bid) && has_whole(problem, member, bid);
        bids = with_bid(bids, bid, wanted);
    }
    bids
}

/// How many bids the set has.
#[tactic(auto, using(duty_calendar::proofs::Counting::counting))]
fn size_of(bids: u64) -> u32
    ensures size { result ≡ count_between (is_in bids) 0 64 }
{
    let mut size = 0;
    for bid in 0..64u32 {
        if is_set(bids, bid) {
            size += 1;
        }
    }
    size
}

/// How many sets of the bids there are.
pub(crate) fn sets_of(bids: u64) -> u64
    requires few { count_between (is_in bids) 0 64 ≤ 8 }
    ensures sets { result ≡ 2 ^ count_between (is_in bids) 0 64 }
    ensures small { result ≤ 256 }
{
    1 << size_of(bids)
}

/// Whether the bid is in the set with this number, where so many bids come before it.
fn is_chosen(bids: u64, bid: u32, number: u64, place: u32) -> bool
    requires in_bits { bid < 64 }
    requires within { place ≤ bid }
    ensures chosen { result ≡ (is_in bids bid && is_in number place) }
{
    is_set(bids, bid) && is_set(number, place)
}

/// How many bids there are up to this one, where so many come before it.
fn place_after(bids: u64, bid: u32, place: u32) -> u32
    requires in_bits { bid < 64 }
    requires within { place ≤ bid }
    ensures after { result ≡ place + cond (is_in bids bid) 1 0 }
{
    if is_set(bids, bid) {
        return place + 1;
    }
    place
}

/// Of the bids the set with this number: each bit of the number tells of one of them, in order.
pub(crate) fn spread(bids: u64, number: u64) -> u64
    ensures spread { (bid : ℕ) → is_in result bid ≡ spread (is_in bids) number bid }
{
    let mut granted = 0;
    let mut place = 0;
    for bid in 0..64u32 {
        let wanted = is_chosen(bids, bid, number, place);
        granted = with_bid(granted, bid, wanted);
        place = place_after(bids, bid, place);
    }
    granted
}
