//! Events of what is fixed for a pilot.

use crate::event::{Letter, Owner, PhoneEvent, When};
use crate::printing::date_number;
use crate::telling::put_time;
use duty_calendar::{Event, Kind, List, Memory};
use field_text::{kind_word, put_bytes, put_number};
use file_places::{Prose, put_date};
use std::alloc::Global;

/// What stands in the title.
fn title_word(kind: Kind) -> &'static [u8] {
    match kind {
        Kind::Flight => b"Flight duty",
        Kind::Ground => b"Ground duty",
        Kind::Leave => b"Leave",
    }
}

/// Whether two events are of one kind and begin on one day.
fn are_alike(one: &Event, other: &Event) -> bool {
    one.kind == other.kind && one.report / 1440 == other.report / 1440
}

/// How many of these events are of an event's kind and begin on its day.
fn count_alike(events: &[Event], event: &Event) -> u32 {
    let mut count: u32 = 0;
    for other in events {
        if are_alike(event, other) {
            count = count.saturating_add(1);
        }
    }
    count
}

/// What tells an event from others: its kind, its day, and behind the first of these a number.
fn own_name(
    alloc: Global,
    owner: Owner<'_>,
    before: &[Event],
    event: &Event,
) -> Result<List<u8>, Memory> {
    let mut own = List::new(alloc);
    put_bytes(&mut own, kind_word(event.kind))?;
    put_bytes(&mut own, b".")?;
    put_number(&mut own, date_number(owner.horizon, event.report / 1440))?;
    let count = count_alike(before, event);
    if count > 0 {
        put_bytes(&mut own, b".")?;
        put_number(&mut own, count.saturating_add(1))?;
    }
    Ok(own)
}

/// The whole days of leave, and the minutes of duty.
fn when_of(event: &Event) -> When {
    match event.kind {
        Kind::Leave => When::Days(
            event.report / 1440,
            event.release.saturating_add(1439) / 1440,
        ),
        Kind::Flight | Kind::Ground => When::Minutes(event.report, event.release),
    }
}

/// When the duty begins and ends, and its credit.
fn text_of(alloc: Global, owner: Owner<'_>, event: &Event) -> Result<Prose, Memory> {
    let day = event.report / 1440;
    let mut text = Prose::new(alloc);
    text.say(b"from ")?;
    put_date(&mut text, owner.horizon, day)?;
    text.say(b", ")?;
    put_time(&mut text, owner.horizon, event.report, day)?;
    text.say(b"\nto ")?;
    put_time(&mut text, owner.horizon, event.release, day)?;
    text.say(b"\ncredit ")?;
    text.hours(event.credit)?;
    Ok(text)
}

/// The event of what is fixed, behind others.
pub fn fixed_event(
    alloc: Global,
    owner: Owner<'_>,
    before: &[Event],
    event: &Event,
) -> Result<PhoneEvent, Memory> {
    let own = own_name(alloc, owner, before, event)?;
    let mut title = Prose::new(alloc);
    title.say(title_word(event.kind))?;
    Ok(PhoneEvent {
        uid: owner.uid(alloc, Letter::Fixed, own.as_slice())?,
        when: when_of(event),
        title,
        text: text_of(alloc, owner, event)?,
        place: None,
    })
}
