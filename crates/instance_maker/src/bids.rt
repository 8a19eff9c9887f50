//! Drawn bids.
ghost use Rattle.std.specs.Prelude.{◌≡◌, ◌≤◌, ◌<◌, IfOk};
ghost use Rattle.instance_maker.specs.Draws.{IsDrawn, in_order};
ghost use Rattle.instance_maker.specs.Months.{only, drawn_wish, drawn_bid, drawn_bids};

use crate::draws::Draws;
use crate::lists::{add, one};
use crate::names::station;
use duty_calendar::{List, Memory};
use roster_model::{Atom, Bid, Filter, Test, Wish};
use std::alloc::Global;

/// A filter of one test.
fn only(alloc: Global, test: Test) -> Result<Filter, Memory>
    ensures value { IfOk result (λ filter. filter ≡ only test) }
{
    one(
        alloc,
        Atom {
            negated: false,
            test,
        },
    )
}

/// Draws a wish of a kind: to fly, to be off, to avoid layovers, to prefer a length.
#[tactic(auto, unfolding(crate::specs::Months::drawn_wish))]
fn draw_wish(alloc: Global, draws: &mut Draws, pairings: u32, kind: u32) -> Result<Wish, Memory>
    requires flown { kind ≡ 0 → 1 ≤ pairings }
    ensures drawn { IsDrawn (drawn_wish pairings kind) draws.old.state draws.new.state result }
{
    match kind {
        0 => Ok(Wish::Fly(draws.below(pairings))),
        1 => {
            let day = 365 + draws.below(30);
            Ok(Wish::Off(day, day))
        }
        2 => {
            let away = station(draws.below(4));
            Ok(Wish::Avoid(only(alloc, Test::Layover(away))?))
        }
        _ => {
            let days = 1 + draws.below(3);
            Ok(Wish::Prefer(1, only(alloc, Test::Days(days))?))
        }
    }
}

/// Draws a bid.
#[tactic(auto, unfolding(crate::specs::Months::drawn_bid))]
fn draw_bid(alloc: Global, draws: &mut Draws, pairings: u32) -> Result<Bid, Memory>
    ensures drawn { IsDrawn (drawn_bid pairings) draws.old.state draws.new.state result }
{
    let weight = 1 + draws.below(20);
    let kind = draws.below(4);
    let kept = if kind == 0 && pairings == 0 { 1 } else { kind };
    let wish = draw_wish(alloc, draws, pairings, kept)?;
    Ok(Bid { weight, wish })
}

/// Draws the three bids of a member.
fn draw_three(alloc: Global, draws: &mut Draws, pairings: u32) -> Result<List<Bid>, Memory>
    ensures drawn { IsDrawn (in_order (λ _. drawn_bid pairings) 3)
        draws.old.state draws.new.state result }
{
    let mut list = List::new(alloc);
    for _number in 0..3_u32 {
        let made = draw_bid(alloc, draws, pairings)?;
        add(&mut list, made)?;
    }
    Ok(list)
}

/// Draws the bids of so many members.
pub fn draw_bids(
    alloc: Global,
    draws: &mut Draws,
    members: u32,
    pairings: u32,
) -> Result<List<List<Bid>>, Memory>
    ensures drawn { IsDrawn (drawn_bids members pairings) draws.old.state draws.new.state result }
{
    let mut lists = List::new(alloc);
    for _member in 0..members {
        let made = draw_three(alloc, draws, pairings)?;
        add(&mut lists, made)?;
    }
    Ok(lists)
}
