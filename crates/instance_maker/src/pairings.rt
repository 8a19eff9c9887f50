//! Drawn pairings.
ghost use Rattle.std.specs.Prelude.{◌≡◌, ◌+◌, ◌≤◌, ◌<◌, IfOk};
ghost use Rattle.instance_maker.specs.Draws.{IsDrawn, in_order};
ghost use Rattle.instance_maker.specs.Months.{place, there_and_back, legs, duty, drawn_duty, drawn_trip, drawn_pairing};

use crate::draws::Draws;
use crate::lists::{add, one};
use crate::names::{home, numbered, station};
use duty_calendar::{Duty, Flown, Leg, List, Memory, Pairing, Station};
use std::alloc::Global;

/// What the duties of a pairing share: their number, the station that it goes to, and the day of
/// the first one.
#[derive(Clone, Copy)]
pub struct Trip {
    pub duties: u32,
    pub away: Station,
    pub first: u32,
}

/// Where the pairing is before its duty of this number, and after its last.
fn place(trip: &Trip, duty: u32) -> Station
    ensures value { result ≡ place trip.now duty }
{
    if duty == 0 || duty == trip.duties {
        home()
    } else {
        trip.away
    }
}

/// A flight to the station and one back.
fn there_and_back(
    alloc: Global,
    away: Station,
    report: u32,
    parked: u32,
) -> Result<List<Leg>, Memory>
    requires times { report + 300 ≤ parked }
    requires within { parked ≤ 2_000_000 }
    ensures value { IfOk result (λ list. list ≡ there_and_back away report parked) }
{
    let there = Leg {
        from: home(),
        to: away,
        flown: Flown {
            out_at: report + 60,
            in_at: report + 120,
        },
    };
    let back = Leg {
        from: away,
        to: home(),
        flown: Flown {
            out_at: report + 180,
            in_at: parked - 30,
        },
    };
    let mut list = one(alloc, there)?;
    add(&mut list, back)?;
    Ok(list)
}

/// The legs of a duty.
fn legs(
    alloc: Global,
    trip: &Trip,
    duty: u32,
    report: u32,
    parked: u32,
) -> Result<List<Leg>, Memory>
    requires times { report + 300 ≤ parked }
    requires within { parked ≤ 2_000_000 }
    requires number { duty < trip.now.duties }
    ensures value { IfOk result (λ list. list ≡ legs trip.now duty report parked) }
{
    if trip.duties == 1 {
        return there_and_back(alloc, trip.away, report, parked);
    }
    let flight = Leg {
        from: place(trip, duty),
        to: place(trip, duty + 1),
        flown: Flown {
            out_at: report + 60,
            in_at: parked - 30,
        },
    };
    one(alloc, flight)
}

/// A duty of a pairing that reports then and lasts so long.
fn duty(alloc: Global, trip: &Trip, number: u32, report: u32, long: u32) -> Result<Duty, Memory>
    requires long { 300 ≤ long }
    requires within { report + long ≤ 2_000_000 }
    requires number { number < trip.now.duties }
    ensures value { IfOk result (λ made. made ≡ duty trip.now number report long) }
{
    let last = trip.duties;
    let parked = report + long;
    let layover = if number + 1 == last {
        None
    } else {
        Some(trip.away)
    };
    Ok(Duty {
        report,
        parked,
        release: parked + 30,
        layover,
        legs: legs(alloc, trip, number, report, parked)?,
    })
}

/// Draws a duty of a pairing.
#[tactic(auto, unfolding(crate::specs::Months::drawn_duty))]
fn draw_duty(alloc: Global, draws: &mut Draws, trip: &Trip, number: u32) -> Result<Duty, Memory>
    requires day { trip.now.first + number ≤ 1000 }
    requires number { number < trip.now.duties }
    ensures drawn { IsDrawn (drawn_duty trip.now number) draws.old.state draws.new.state result }
{
    let half_hours = draws.below(5);
    let hours = draws.below(3);
    let report = 1440 * (trip.first + number) + 420 + 30 * half_hours;
    duty(alloc, trip, number, report, 300 + 60 * hours)
}

/// Draws the duties of a pairing.
fn draw_duties(alloc: Global, draws: &mut Draws, trip: &Trip) -> Result<List<Duty>, Memory>
    requires days { trip.now.first + trip.now.duties ≤ 1000 }
    ensures drawn { IsDrawn (in_order (drawn_duty trip.now) trip.now.duties)
        draws.old.state draws.new.state result }
{
    let mut list = List::new(alloc);
    for number in 0..trip.duties {
        let made = draw_duty(alloc, draws, trip, number)?;
        add(&mut list, made)?;
    }
    Ok(list)
}

/// Draws the duties, the station and the first day of the pairing of this number.
#[tactic(auto, unfolding(crate::specs::Months::drawn_trip))]
fn draw_trip(draws: &mut Draws, members: u32, number: u32) -> Trip
    requires some { 1 ≤ members }
    ensures drawn { drawn_trip members number draws.old.state ≡ (result, draws.new.state) }
    ensures short { result.duties ≤ 3 }
    ensures soon { result.first ≤ 391 }
{
    let duties = 1 + draws.below(3);
    let late = draws.below(2);
    let away = station(draws.below(4));
    Trip {
        duties,
        away,
        first: 365 + 5 * (number / members % 6) + late,
    }
}

/// Draws the pairing of this number.
#[tactic(auto, unfolding(crate::specs::Months::drawn_pairing))]
fn draw_pairing(
    alloc: Global,
    draws: &mut Draws,
    members: u32,
    number: u32,
) -> Result<Pairing, Memory>
    requires some { 1 ≤ members }
    requires few { number < 600 }
    ensures drawn { IsDrawn (drawn_pairing members number)
        draws.old.state draws.new.state result }
{
    let trip = draw_trip(draws, members, number);
    let duties = draw_duties(alloc, draws, &trip)?;
    let part = draws.below(30);
    Ok(Pairing {
        name: numbered(alloc, b'P', number + 1)?,
        need: 1,
        credit: 270 * trip.duties + part,
        duties,
    })
}

/// Draws so many pairings.
pub fn draw_pairings(
    alloc: Global,
    draws: &mut Draws,
    members: u32,
    count: u32,
) -> Result<List<Pairing>, Memory>
    requires some { 1 ≤ members }
    requires few { count ≤ 600 }
    ensures drawn { IsDrawn (in_order (drawn_pairing members) count)
        draws.old.state draws.new.state result }
{
    let mut list = List::new(alloc);
    for number in 0..count {
        let made = draw_pairing(alloc, draws, members, number)?;
        add(&mut list, made)?;
    }
    Ok(list)
}
