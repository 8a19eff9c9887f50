//! The places of a flat search: the pairings that a member may fly by what is decided, by report, and what may come from each
//! of them on.

use crate::board::Row;
use crate::pairings::PairingSet;
use crate::profiles::number;
use crate::sheets::{Flight, Sheet};
use crate::sizes::WINDOWS;
use crate::tables::Taking;
use duty_calendar::{Interval, Memory};
use line_items::item_usage;
use roster_model::{Lens, Problem};
use std::alloc::Global;

/// How long a member rests from a pairing to the next at least, in minutes.
const REST: u32 = 600;

/// The most that may come from a place on: wanted bids that may be granted, as bits, credit, days, and minutes in windows.
#[derive(Clone, Copy)]
pub(crate) struct Ahead {
    pub grants: u64,
    pub credit: u32,
    pub days: u32,
    pub usage: [u32; WINDOWS],
}

/// A place: its pairing, the place that is next where that is taken, what it gains, whether it is decided to be flown, the
/// wanted bids that it grants and spoils, as bits, its minutes in windows, and what may come from the place on. The last place is
/// the end, which has no pairing.
#[derive(Clone, Copy)]
pub(crate) struct Place {
    pub flight: Flight,
    pub next: usize,
    pub gain: i64,
    pub is_flown: bool,
    pub grants: u64,
    pub spoils: u64,
    pub usage: [u32; WINDOWS],
    pub ahead: Ahead,
}

impl Place {
    /// The end.
    fn end() -> Place {
        Place {
            flight: Flight::none(),
            next: 0,
            gain: 0,
            is_flown: false,
            grants: 0,
            spoils: 0,
            usage: [0; WINDOWS],
            ahead: Ahead {
                grants: 0,
                credit: 0,
                days: 0,
                usage: [0; WINDOWS],
            },
        }
    }

    /// What taking does, of so many places.
    pub(crate) fn taking(&self, places: usize) -> Taking {
        Taking {
            gain: self.gain,
            back: places.saturating_sub(self.next),
            is_flown: self.is_flown,
        }
    }
}

/// Whether a member may rest between the two, whichever is first.
fn are_apart(one: Interval, other: Interval) -> bool {
    one.stop.saturating_add(REST) <= other.start || other.stop.saturating_add(REST) <= one.start
}

/// The pairings that are decided to be flown; none where the member can't fly them all.
fn flown_flights(alloc: Global, sheet: &Sheet, row: &Row) -> Result<Option<Vec<Flight>>, Memory> {
    let mut flown: Vec<Flight> = Vec::new(alloc);
    for flight in &sheet.flights {
        if row.flown.contains(flight.pairing as usize) {
            let is_apart = match flown.last() {
                Some(last) => are_apart(last.span, flight.span),
                None => true,
            };
            if !is_apart {
                return Ok(None);
            }
            flown.push(*flight)?;
        }
    }
    let count = row.flown.distance(&PairingSet::new());
    Ok(if i64::from(number(flown.len())) == count {
        Some(flown)
    } else {
        None
    })
}

/// The pairings that the row leaves open, with those that it decides to be flown; none where the member can't fly these.
pub(crate) fn open_flights(
    alloc: Global,
    sheet: &Sheet,
    row: &Row,
) -> Result<Option<Vec<Flight>>, Memory> {
    let Some(flown) = flown_flights(alloc, sheet, row)? else {
        return Ok(None);
    };
    let mut open: Vec<Flight> = Vec::new(alloc);
    for flight in &sheet.flights {
        let pairing = flight.pairing as usize;
        let is_flown = row.flown.contains(pairing);
        let is_open = is_flown
            || !row.barred.contains(pairing)
                && flown.iter().all(|other| are_apart(other.span, flight.span));
        if is_open {
            open.push(*flight)?;
        }
    }
    Ok(Some(open))
}

/// The first place behind this one whose pairing may follow on a release.
fn follower(open: &[Flight], place: usize, release: u32) -> usize {
    let ready = release.saturating_add(REST);
    let mut next = place.saturating_add(1);
    for flight in open.get(next..).unwrap_or(&[]) {
        if flight.span.start >= ready {
            return next;
        }
        next = next.saturating_add(1);
    }
    next
}

/// The places of these pairings, with their minutes in the windows of the lens.
pub(crate) fn places_of(
    alloc: Global,
    problem: &Problem,
    open: &[Flight],
    row: &Row,
    lens: &Lens,
) -> Result<Vec<Place>, Memory> {
    let mut places = Vec::new(alloc);
    for (place, flight) in open.iter().enumerate() {
        let usage = if lens.windows.len() == 0 {
            [0; WINDOWS]
        } else {
            item_usage::<WINDOWS>(problem, lens, flight.pairing)
        };
        places.push(Place {
            flight: *flight,
            next: follower(open, place, flight.span.stop),
            is_flown: row.flown.contains(flight.pairing as usize),
            usage,
            ..Place::end()
        })?;
    }
    places.push(Place::end())?;
    Ok(places)
}

impl Ahead {
    /// What may come where the place is passed, or where it is taken.
    fn joined(&self, then: &Ahead, own: &Place, days: u32) -> Ahead {
        let mut usage = self.usage;
        for (most, (after, own)) in usage
            .iter_mut()
            .zip(then.usage.iter().zip(own.usage.iter()))
        {
            *most = (*most).max(after.saturating_add(*own));
        }
        Ahead {
            grants: self.grants | own.grants,
            credit: self
                .credit
                .max(then.credit.saturating_add(own.flight.credit)),
            days: self.days.max(then.days.saturating_add(days)),
            usage,
        }
    }
}

/// Says for each place what may come from it on, days that are busy anyway aside.
pub(crate) fn look_ahead(places: &mut [Place], busy: u32) {
    for place in (0..places.len().saturating_sub(1)).rev() {
        let Some(own) = places.get(place).copied() else {
            continue;
        };
        let (Some(passed), Some(taken)) = (
            places.get(place.saturating_add(1)).copied(),
            places.get(own.next).copied(),
        ) else {
            continue;
        };
        let days = (own.flight.days & !busy).count_ones();
        let ahead = passed.ahead.joined(&taken.ahead, &own, days);
        if let Some(place) = places.get_mut(place) {
            place.ahead = ahead;
        }
    }
}
