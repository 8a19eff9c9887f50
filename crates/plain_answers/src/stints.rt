//! What a pilot does, in order of time.

use duty_calendar::{Duty, Event, Flown, Kind, Leg, Memory};
use field_text::kind_word;
use roster_model::Problem;
use std::alloc::Global;

/// The flights of a duty: of an event, or of a pairing.
#[derive(Clone, Copy)]
enum Flights<'a> {
    Flown(&'a [Flown]),
    Legs(&'a [Leg]),
}

/// A duty of a pairing, or an event under the word of its kind. Times are in minutes; a duty's number counts from 1, and an
/// event's is 0.
#[derive(Clone, Copy)]
pub struct Stint<'a> {
    pub kind: Kind,
    pub name: &'a [u8],
    pub number: u32,
    pub report: u32,
    pub parked: u32,
    pub release: u32,
    flights: Flights<'a>,
}

/// How many minutes of a stretch lie between two others.
fn shared(start: u32, stop: u32, from: u32, to: u32) -> u32 {
    stop.min(to).saturating_sub(start.max(from))
}

/// The flying minutes of flights that lie between two minutes.
fn flown_in(flights: &[Flown], from: u32, to: u32) -> u32 {
    let mut total: u32 = 0;
    for flown in flights {
        total = total.saturating_add(shared(flown.out_at, flown.in_at, from, to));
    }
    total
}

/// The flying minutes of legs that lie between two minutes.
fn legs_in(legs: &[Leg], from: u32, to: u32) -> u32 {
    let mut total: u32 = 0;
    for leg in legs {
        total = total.saturating_add(shared(leg.flown.out_at, leg.flown.in_at, from, to));
    }
    total
}

impl<'a> Stint<'a> {
    /// The flying minutes between two minutes.
    pub fn flying(&self, from: u32, to: u32) -> u32 {
        match self.flights {
            Flights::Flown(flights) => flown_in(flights, from, to),
            Flights::Legs(legs) => legs_in(legs, from, to),
        }
    }

    /// The minutes of flight duty, from report to parked, between two minutes.
    pub fn on_duty(&self, from: u32, to: u32) -> u32 {
        if self.kind == Kind::Flight {
            shared(self.report, self.parked, from, to)
        } else {
            0
        }
    }

    /// Whether it is duty, and any of it lies between two minutes.
    pub fn is_in(&self, from: u32, to: u32) -> bool {
        self.kind != Kind::Leave && shared(self.report, self.release, from, to) > 0
    }
}

/// Appends events.
fn push_events<'a>(stints: &mut Vec<Stint<'a>>, events: &'a [Event]) -> Result<(), Memory> {
    for event in events {
        stints.push(Stint {
            kind: event.kind,
            name: kind_word(event.kind),
            number: 0,
            report: event.report,
            parked: event.parked,
            release: event.release,
            flights: Flights::Flown(event.flights.as_slice()),
        })?;
    }
    Ok(())
}

/// Appends the duties of a pairing.
fn push_duties<'a>(
    stints: &mut Vec<Stint<'a>>,
    name: &'a [u8],
    duties: &'a [Duty],
) -> Result<(), Memory> {
    let mut number: u32 = 0;
    for duty in duties {
        number = number.saturating_add(1);
        stints.push(Stint {
            kind: Kind::Flight,
            name,
            number,
            report: duty.report,
            parked: duty.parked,
            release: duty.release,
            flights: Flights::Legs(duty.legs.as_slice()),
        })?;
    }
    Ok(())
}

/// Appends the duties of the pairings of a line.
fn push_line<'a>(
    stints: &mut Vec<Stint<'a>>,
    problem: &'a Problem,
    line: &[u32],
) -> Result<(), Memory> {
    for number in line {
        if let Some(pairing) = problem.base.pairings.as_slice().get(*number as usize) {
            push_duties(stints, pairing.name.bytes(), pairing.duties.as_slice())?;
        }
    }
    Ok(())
}

/// What a pilot, by place from 0, does with a line, with history and what is fixed, in order of time.
pub fn stints_of<'a>(
    alloc: Global,
    problem: &'a Problem,
    member: usize,
    line: &[u32],
) -> Result<Vec<Stint<'a>>, Memory> {
    let mut stints = Vec::new(alloc);
    if let Some(known) = problem.base.members.as_slice().get(member) {
        push_events(&mut stints, known.history.as_slice())?;
        push_events(&mut stints, known.fixed.as_slice())?;
    }
    push_line(&mut stints, problem, line)?;
    stints.sort_by_key(|stint| stint.report)?;
    Ok(stints)
}
