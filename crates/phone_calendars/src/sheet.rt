//! The calendar of a pilot.

use crate::content::put_line;
use crate::days_off::{day_event, is_free};
use crate::earlier::{Earlier, add_earlier, greatest, latest, put_cancelled};
use crate::event::{Owner, PhoneEvent};
use crate::fixed_events::fixed_event;
use crate::head::put_head;
use crate::printing::put_event;
use crate::trips::trip_event;
use duty_calendar::{Event, Interval, List, Member, Memory, Pairing};
use roster_model::{Line, Problem, pairing_span};
use std::alloc::Global;

/// The text of a calendar, and how many of its events are cancelled.
#[derive(Drop)]
pub struct Sheet {
    pub bytes: List<u8>,
    pub cancelled: u32,
}

/// What is known of a pilot besides the month and the line: the name that is shown, the text of the calendar that stands
/// there, and that of an earlier one from which what fell away is cancelled. Either text may be empty.
#[derive(Clone, Copy)]
pub struct Pilot<'a> {
    pub shown: &'a [u8],
    pub standing: &'a [u8],
    pub earlier: &'a [u8],
}

/// The events of a calendar, and the stretches that are not off.
#[derive(Drop)]
struct Events {
    list: Vec<PhoneEvent>,
    spans: Vec<Interval>,
}

/// Adds the trips of a line.
fn add_trips(
    alloc: Global,
    events: &mut Events,
    owner: Owner<'_>,
    pairings: &[Pairing],
    line: &Line,
) -> Result<(), Memory> {
    for number in line.pairings() {
        if let Some(trip) = pairings.get(*number as usize) {
            events.spans.push(pairing_span(trip))?;
            events.list.push(trip_event(alloc, owner, trip)?)?;
        }
    }
    Ok(())
}

/// Adds what is fixed.
fn add_fixed(
    alloc: Global,
    events: &mut Events,
    owner: Owner<'_>,
    fixed: &[Event],
) -> Result<(), Memory> {
    for (place, event) in fixed.iter().enumerate() {
        let before = fixed.get(..place).unwrap_or(&[]);
        events.spans.push(Interval {
            start: event.report,
            stop: event.release,
        })?;
        events.list.push(fixed_event(alloc, owner, before, event)?)?;
    }
    Ok(())
}

/// Adds the days off of the month.
fn add_days(alloc: Global, events: &mut Events, owner: Owner<'_>) -> Result<(), Memory> {
    for day in 365..365 + owner.horizon.days() {
        if is_free(day, events.spans.as_slice()) {
            events.list.push(day_event(alloc, owner, day)?)?;
        }
    }
    Ok(())
}

/// The events of a member with a line.
fn events_of(
    alloc: Global,
    problem: &Problem,
    owner: Owner<'_>,
    fixed: &[Event],
    line: &Line,
) -> Result<Vec<PhoneEvent>, Memory> {
    let mut events = Events {
        list: Vec::new(alloc),
        spans: Vec::new(alloc),
    };
    add_trips(
        alloc,
        &mut events,
        owner,
        problem.base.pairings.as_slice(),
        line,
    )?;
    add_fixed(alloc, &mut events, owner, fixed)?;
    add_days(alloc, &mut events, owner)?;
    Ok(events.list)
}

/// Whether an event stands in an earlier calendar as it would be printed now.
fn is_same(
    alloc: Global,
    owner: Owner<'_>,
    event: &PhoneEvent,
    known: Earlier<'_>,
) -> Result<bool, Memory> {
    let mut lines = List::new(alloc);
    put_event(alloc, &mut lines, owner.horizon, event, known.sequence)?;
    Ok(lines.as_slice() == known.lines)
}

/// The number of an event: that of an earlier calendar where it is the same there, else the next one.
fn sequence_of(
    alloc: Global,
    owner: Owner<'_>,
    event: &PhoneEvent,
    earlier: &[Earlier<'_>],
) -> Result<u32, Memory> {
    if let Some(known) = latest(earlier, event.uid.as_slice()) {
        if is_same(alloc, owner, event, known)? {
            return Ok(known.sequence);
        }
    }
    Ok(greatest(earlier).saturating_add(1))
}

/// Appends the events.
fn put_events(
    alloc: Global,
    out: &mut List<u8>,
    owner: Owner<'_>,
    events: &[PhoneEvent],
    earlier: &[Earlier<'_>],
) -> Result<(), Memory> {
    for event in events {
        let sequence = sequence_of(alloc, owner, event, earlier)?;
        put_event(alloc, out, owner.horizon, event, sequence)?;
    }
    Ok(())
}

/// Whether there is an event of this name.
fn has_event(events: &[PhoneEvent], uid: &[u8]) -> bool {
    events.iter().any(|event| event.uid.as_slice() == uid)
}

/// Whether one of these events has the name and is cancelled where it fell away.
fn may_fall(earlier: &[Earlier<'_>], uid: &[u8]) -> bool {
    earlier
        .iter()
        .any(|event| event.may_fall && event.uid == uid)
}

/// The earlier event at a place that is to be cancelled, or was: the latest of its name, at the first place of the name.
fn fallen_at<'a>(
    events: &[PhoneEvent],
    earlier: &[Earlier<'a>],
    place: usize,
) -> Option<Earlier<'a>> {
    let uid = earlier.get(place)?.uid;
    let before = earlier.get(..place).unwrap_or(&[]);
    if has_event(events, uid) || latest(before, uid).is_some() {
        return None;
    }
    let known = latest(earlier, uid)?;
    if known.is_cancelled || may_fall(earlier, uid) {
        return Some(known);
    }
    None
}

/// The number under which an earlier event is cancelled.
fn fallen_number(earlier: &[Earlier<'_>], event: Earlier<'_>) -> u32 {
    if event.is_cancelled {
        return event.sequence;
    }
    greatest(earlier).saturating_add(1)
}

/// Appends the earlier events that fell away, and says how many they are.
fn put_fallen(
    alloc: Global,
    out: &mut List<u8>,
    events: &[PhoneEvent],
    earlier: &[Earlier<'_>],
) -> Result<u32, Memory> {
    let mut count: u32 = 0;
    for place in 0..earlier.len() {
        if let Some(event) = fallen_at(events, earlier, place) {
            put_cancelled(alloc, out, event, fallen_number(earlier, event))?;
            count = count.saturating_add(1);
        }
    }
    Ok(count)
}

/// Appends the events of a calendar, and behind them those that fell away. It says how many these are.
fn put_all(
    alloc: Global,
    out: &mut List<u8>,
    owner: Owner<'_>,
    events: &[PhoneEvent],
    pilot: &Pilot<'_>,
) -> Result<u32, Memory> {
    let mut earlier = Vec::new(alloc);
    add_earlier(alloc, &mut earlier, owner, pilot.standing, false)?;
    add_earlier(alloc, &mut earlier, owner, pilot.earlier, true)?;
    put_events(alloc, out, owner, events, &earlier)?;
    put_fallen(alloc, out, events, &earlier)
}

/// The calendar of a member with a line: the trips from the first report to the last release, what is fixed, and each day off.
/// Events of the same names in the texts of before keep their numbers where they are the same, else theirs is one more than all
/// of before. What fell away since the earlier calendar is cancelled, and stays so in the calendars behind.
pub fn sheet_of(
    alloc: Global,
    problem: &Problem,
    member: &Member,
    line: &Line,
    pilot: &Pilot<'_>,
) -> Result<Sheet, Memory> {
    let owner = Owner {
        name: member.name.bytes(),
        horizon: &problem.base.rules.horizon,
    };
    let events = events_of(alloc, problem, owner, member.fixed.as_slice(), line)?;
    let mut bytes = List::new(alloc);
    put_head(alloc, &mut bytes, pilot.shown)?;
    let cancelled = put_all(alloc, &mut bytes, owner, events.as_slice(), pilot)?;
    put_line(&mut bytes, b"END:VCALENDAR")?;
    Ok(Sheet { bytes, cancelled })
}
