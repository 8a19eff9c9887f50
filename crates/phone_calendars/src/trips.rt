//! Events of trips.

use crate::event::{Letter, Owner, PhoneEvent, When};
use crate::telling::put_time;
use duty_calendar::{Duty, Horizon, Leg, Memory, Pairing, Station};
use file_places::{Prose, put_date};
use roster_model::pairing_span;
use std::alloc::Global;

/// Appends a leg to a route that ends at a station.
fn put_leg(prose: &mut Prose, last: Option<Station>, leg: &Leg) -> Result<(), Memory> {
    if last != Some(leg.from) {
        prose.say(if last.is_some() { b", " } else { b" " })?;
        prose.text(&leg.from.bytes())?;
    }
    prose.say(b"-")?;
    prose.text(&leg.to.bytes())
}

/// Appends the legs of a duty to a route, and gives where it ends.
fn put_legs(
    prose: &mut Prose,
    last: Option<Station>,
    legs: &[Leg],
) -> Result<Option<Station>, Memory> {
    let mut end = last;
    for leg in legs {
        put_leg(prose, end, leg)?;
        end = Some(leg.to);
    }
    Ok(end)
}

/// The name of a trip and its route.
fn title_of(alloc: Global, trip: &Pairing) -> Result<Prose, Memory> {
    let mut title = Prose::new(alloc);
    title.text(trip.name.bytes())?;
    let mut end = None;
    for duty in trip.duties.as_slice() {
        end = put_legs(&mut title, end, duty.legs.as_slice())?;
    }
    Ok(title)
}

/// Appends a flight.
fn put_flight(prose: &mut Prose, horizon: &Horizon, leg: &Leg, day: u32) -> Result<(), Memory> {
    prose.text(&leg.from.bytes())?;
    prose.say(b"-")?;
    prose.text(&leg.to.bytes())?;
    prose.say(b" out ")?;
    put_time(prose, horizon, leg.flown.out_at, day)?;
    prose.say(b"; in ")?;
    put_time(prose, horizon, leg.flown.in_at, day)?;
    prose.say(b"\n")
}

/// Appends the flights of a duty.
fn put_flights(prose: &mut Prose, horizon: &Horizon, duty: &Duty, day: u32) -> Result<(), Memory> {
    for leg in duty.legs.as_slice() {
        put_flight(prose, horizon, leg, day)?;
    }
    Ok(())
}

/// Appends where the night behind a duty is.
fn put_layover(prose: &mut Prose, duty: &Duty) -> Result<(), Memory> {
    match duty.layover {
        Some(station) => {
            prose.say(b"layover ")?;
            prose.text(&station.bytes())?;
            prose.say(b"\n")
        }
        None => Ok(()),
    }
}

/// Appends a duty by number, from 1.
fn put_duty(prose: &mut Prose, horizon: &Horizon, number: u64, duty: &Duty) -> Result<(), Memory> {
    let day = duty.report / 1440;
    prose.say(b"Duty ")?;
    prose.number(number)?;
    prose.say(b", ")?;
    put_date(prose, horizon, day)?;
    prose.say(b"\nreport ")?;
    put_time(prose, horizon, duty.report, day)?;
    prose.say(b"\n")?;
    put_flights(prose, horizon, duty, day)?;
    prose.say(b"release ")?;
    put_time(prose, horizon, duty.release, day)?;
    prose.say(b"\n")?;
    put_layover(prose, duty)
}

/// The duties of a trip and its credit.
fn text_of(alloc: Global, horizon: &Horizon, trip: &Pairing) -> Result<Prose, Memory> {
    let mut text = Prose::new(alloc);
    let mut number: u64 = 1;
    for duty in trip.duties.as_slice() {
        put_duty(&mut text, horizon, number, duty)?;
        number = number.saturating_add(1);
    }
    text.say(b"credit ")?;
    text.hours(trip.credit)?;
    Ok(text)
}

/// Where a trip begins.
fn place_of(trip: &Pairing) -> Option<Station> {
    let first = trip.duties.as_slice().first()?;
    let leg = first.legs.as_slice().first()?;
    Some(leg.from)
}

/// The event of a trip: from its first report to its last release.
pub fn trip_event(alloc: Global, owner: Owner<'_>, trip: &Pairing) -> Result<PhoneEvent, Memory> {
    let span = pairing_span(trip);
    Ok(PhoneEvent {
        uid: owner.uid(alloc, Letter::Trip, trip.name.bytes())?,
        when: When::Minutes(span.start, span.stop),
        title: title_of(alloc, trip)?,
        text: text_of(alloc, owner.horizon, trip)?,
        place: place_of(trip),
    })
}
