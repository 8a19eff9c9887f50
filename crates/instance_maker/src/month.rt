//! The made month.
ghost use Rattle.std.specs.Prelude.{◌≡◌, ◌≤◌, ◌<◌, IfOk, map, pos};
ghost use Rattle.std.specs.List.{range_with_len};
ghost use Rattle.instance_maker.specs.Months.{member, AreMadeRules, IsMade};

use crate::bids::draw_bids;
use crate::draws::Draws;
use crate::lists::add;
use crate::names::{home, numbered};
use crate::pairings::draw_pairings;
use duty_calendar::{Base, Horizon, List, Member, Memory, Name, Rules};
use roster_model::Problem;
use std::alloc::Global;

/// June 2026 in UTC.
fn june() -> Horizon
    ensures year { result.year ≡ pos 2026 }
    ensures month { result.month ≡ 6 }
    ensures offset { result.offset ≡ pos 0 }
{
    match Horizon::new(2026, 6, 0) {
        Ok(horizon) => horizon,
        Err(_) => unreachable!(),
    }
}

/// The rules of the month.
fn rules() -> Rules
    ensures value { AreMadeRules result }
{
    let seat = match Name::new(b"FO") {
        Some(seat) => seat,
        None => unreachable!(),
    };
    Rules {
        base: home(),
        seat,
        horizon: june(),
        days_off: 10,
    }
}

/// The member of this number.
fn member(alloc: Global, number: u32) -> Result<Member, Memory>
    requires few { number < 200 }
    ensures value { IfOk result (λ made. made ≡ member number) }
{
    Ok(Member {
        name: numbered(alloc, b'M', number + 1)?,
        low: 0,
        high: 5400,
        history: List::new(alloc),
        fixed: List::new(alloc),
    })
}

/// So many members.
fn crew(alloc: Global, count: u32) -> Result<List<Member>, Memory>
    requires few { count ≤ 200 }
    ensures value { IfOk result (λ list. list ≡ map member (range_with_len 0 count)) }
{
    let mut list = List::new(alloc);
    for number in 0..count {
        let made = member(alloc, number)?;
        add(&mut list, made)?;
    }
    Ok(list)
}

/// A made-up month of so many members and pairings that follows from a number: the same one at each
/// call.
pub fn make(alloc: Global, number: u64, members: u32, pairings: u32) -> Result<Problem, Memory>
    requires some { 1 ≤ members }
    requires crew { members ≤ 200 }
    requires trips { pairings ≤ 600 }
    ensures made { IfOk result (λ problem. IsMade number members pairings problem) }
{
    let mut draws = Draws { state: number };
    let trips = draw_pairings(alloc, &mut draws, members, pairings)?;
    let bids = draw_bids(alloc, &mut draws, members, pairings)?;
    let base = Base {
        rules: rules(),
        pairings: trips,
        members: crew(alloc, members)?,
    };
    Ok(Problem { base, bids })
}
