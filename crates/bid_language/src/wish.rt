//! Reading wishes and bids.
ghost use Rattle.std.specs.Prelude.{◌≡◌, ◌<◌, ◌^◌, length};
ghost use Rattle.bid_language.specs.Words.{Reads};
ghost use Rattle.bid_language.specs.Spots.{spot_seen};
ghost use Rattle.bid_language.specs.Values.{bound};
ghost use Rattle.bid_language.specs.Grammar.{credit_wish, wish_of, wish, weight, room, bid};

use crate::days::{day, last_day};
use crate::fault::{BidCode, LineFault, Stop, Word};
use crate::filter::filter;
use crate::keywords::{Bound, Kind, bound_of, kind_of};
use crate::values::{minutes, number, pairing, text_of};
use crate::words::{Spot, Words};
use duty_calendar::Base;
use field_text::read_number;
use roster_model::{Atom, Bid, Filter, Test, Wish};
use std::alloc::Global;

/// A side of a credit.
#[tactic(auto, unfolding(crate::specs::Values::bound))]
fn bound(words: &mut Words) -> Result<Bound, Stop>
    ensures reads { Reads result bound words.old words.new }
{
    let spot = words.next(Word::Credit)?;
    match bound_of(spot.text) {
        Some(bound) => Ok(bound),
        None => Err(spot.wrong(BidCode::Expected(Word::Credit))),
    }
}

/// A wish for a credit on this side of so many minutes.
fn credit_wish(bound: Bound, minutes: u32) -> Wish
    ensures value { result ≡ credit_wish bound minutes }
{
    match bound {
        Bound::Below => Wish::CreditBelow(minutes),
        Bound::Above => Wish::CreditAbove(minutes),
    }
}

/// What follows the first word of a wish.
#[tactic(auto, unfolding(crate::specs::Grammar::wish_of))]
fn wish_of(alloc: Global, base: &Base, kind: Kind, words: &mut Words) -> Result<Wish, Stop>
    requires few { length base.now.pairings < 2 ^ 32 }
    ensures reads { Reads result (wish_of base.now kind) words.old words.new }
{
    let pairings = base.pairings.as_slice();
    match kind {
        Kind::Fly => Ok(Wish::Fly(pairing(pairings, words)?)),
        Kind::Avoid => Ok(Wish::Avoid(filter(alloc, pairings, words)?)),
        Kind::Prefer => {
            let least = number(words, 1, 600)?;
            Ok(Wish::Prefer(least, filter(alloc, pairings, words)?))
        }
        Kind::Off => {
            let first = day(&base.rules.horizon, words)?;
            Ok(Wish::Off(first, last_day(&base.rules.horizon, first, words)?))
        }
        Kind::Credit => {
            let bound = bound(words)?;
            Ok(credit_wish(bound, minutes(words)?))
        }
        Kind::DaysOff => Ok(Wish::DaysOff(number(words, 0, 31)?)),
    }
}

/// A wish, from its first word on.
#[tactic(auto, unfolding(crate::specs::Grammar::wish))]
fn wish(alloc: Global, base: &Base, words: &mut Words) -> Result<Wish, Stop>
    requires few { length base.now.pairings < 2 ^ 32 }
    ensures reads { Reads result (wish base.now) words.old words.new }
{
    let spot = words.next(Word::Kind)?;
    match kind_of(spot.text) {
        Some(kind) => wish_of(alloc, base, kind, words),
        None => Err(spot.wrong(BidCode::Expected(Word::Kind))),
    }
}

/// The weight that a token says.
#[tactic(auto, unfolding(crate::specs::Grammar::weight))]
fn weight(spot: &Spot, words: &mut Words) -> Result<u32, Stop>
    ensures reads { Reads result (weight
        (spot_seen spot.now)) words.old words.new }
{
    match read_number(text_of(spot)) {
        Ok(weight) => {
            if 1 <= weight && weight <= 1000 {
                Ok(weight)
            } else {
                Err(spot.wrong(BidCode::Weight))
            }
        }
        Err(_) => Err(spot.wrong(BidCode::Number)),
    }
}

/// A member may have no more bids.
fn room(count: usize, words: &mut Words) -> Result<(), Stop>
    ensures reads { Reads result (room count) words.old words.new }
{
    if count < 64 {
        Ok(())
    } else {
        Err(Stop::Fault(LineFault {
            column: 1,
            code: BidCode::TooMany,
        }))
    }
}

/// The bid whose weight is this token, of a member who has so many already.
#[tactic(auto, unfolding(crate::specs::Grammar::bid))]
pub fn bid(
    alloc: Global,
    base: &Base,
    count: usize,
    spot: &Spot,
    words: &mut Words,
) -> Result<Bid, Stop>
    requires few { length base.now.pairings < 2 ^ 32 }
    ensures reads { Reads result (bid base.now count
        (spot_seen spot.now)) words.old words.new }
{
    let weight = weight(spot, words)?;
    room(count, words)?;
    let wish = wish(alloc, base, words)?;
    words.finish()?;
    Ok(Bid { weight, wish })
}
