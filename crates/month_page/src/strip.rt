//! A pilot's month as a strip: bars for what stands in it, labels below them, and what was wanted below these. No two of these
//! share a lane, and no label reaches into the room of the next.

use crate::entry::Entry;
use crate::pilot::{Pilot, SeenBid};
use duty_calendar::{Horizon, Interval, Memory};
use page_parts::{FIRST_DAY, Html, MONTH_START, is_weekend, put_span, put_weekday};

/// A minute of the horizon as one of the month, which has so many.
fn in_month(minute: u32, minutes: u32) -> u32 {
    minute.saturating_sub(MONTH_START).min(minutes)
}

/// The minutes of a month.
fn minutes_of(horizon: &Horizon) -> u32 {
    1440 * horizon.days()
}

/// Appends where something begins, and how wide it is, in minutes of the month.
fn put_place(html: &mut Html, start: u32, stop: u32) -> Result<(), Memory> {
    html.markup(b"\" style=\"--a:")?;
    html.number(start)?;
    html.markup(b";--w:")?;
    html.number(stop.saturating_sub(start))?;
    html.markup(b"\"")
}

/// Appends what an entry is, with its times and its credit.
pub fn put_told(html: &mut Html, horizon: &Horizon, entry: &Entry) -> Result<(), Memory> {
    html.markup(b" ")?;
    put_span(html, horizon, entry.span)?;
    html.markup(b", credit ")?;
    html.hours(entry.credit)
}

/// Appends the bar of an entry. One that goes on after the month has the class `o` too.
fn put_bar(html: &mut Html, horizon: &Horizon, entry: &Entry) -> Result<(), Memory> {
    let minutes = minutes_of(horizon);
    html.markup(b"<b class=\"")?;
    html.markup(entry.mark.class())?;
    if entry.span.stop.saturating_sub(MONTH_START) > minutes {
        html.markup(b" o")?;
    }
    let start = in_month(entry.span.start, minutes);
    put_place(html, start, in_month(entry.span.stop, minutes))?;
    html.markup(b" title=\"")?;
    html.text(entry.name)?;
    put_told(html, horizon, entry)?;
    html.markup(b"\"></b>\n")
}

/// Where the room of an entry's label begins: with the entry, or before it, where the month ends within a day and the
/// label of the entry before it has a day of its own.
fn label_start(before: Option<&Entry>, entry: &Entry, minutes: u32) -> u32 {
    let start = in_month(entry.span.start, minutes);
    let taken = match before {
        Some(before) => in_month(before.span.start, minutes).saturating_add(1440),
        None => 0,
    };
    start.min(minutes.saturating_sub(1440).max(taken))
}

/// Where the room of the label behind an entry begins, or the month ends.
fn label_stop(entry: &Entry, after: Option<&Entry>, minutes: u32) -> u32 {
    match after {
        Some(after) => label_start(Some(entry), after, minutes),
        None => minutes,
    }
}

/// Where the room of the second label behind an entry begins, or the month ends: there the room of a label ends where labels
/// stand in two lanes.
fn lane_stop(after: Option<&Entry>, next: Option<&Entry>, minutes: u32) -> u32 {
    match after {
        Some(after) => label_stop(after, next, minutes),
        None => minutes,
    }
}

/// Appends the label of an entry: the name of a trip, or the word of a fixed event. It has room up to a minute in one lane, and up
/// to another one in two.
fn put_label(
    html: &mut Html,
    entry: &Entry,
    start: u32,
    stop: u32,
    far: u32,
) -> Result<(), Memory> {
    html.markup(b"<span class=\"n\" style=\"--a:")?;
    html.number(start)?;
    html.markup(b";--w:")?;
    html.number(stop.saturating_sub(start))?;
    html.markup(b";--v:")?;
    html.number(far.saturating_sub(start))?;
    html.markup(b"\"><i>")?;
    html.text(entry.name)?;
    html.markup(b"</i></span>\n")
}

/// Appends the bars and the labels of entries in order of time.
fn put_entries(html: &mut Html, horizon: &Horizon, entries: &[Entry]) -> Result<(), Memory> {
    let minutes = minutes_of(horizon);
    let mut before = None;
    for (at, entry) in entries.iter().enumerate() {
        let start = label_start(before, entry, minutes);
        let after = entries.get(at.saturating_add(1));
        let stop = label_stop(entry, after, minutes);
        let far = lane_stop(after, entries.get(at.saturating_add(2)), minutes);
        put_bar(html, horizon, entry)?;
        put_label(html, entry, start, stop, far)?;
        before = Some(entry);
    }
    Ok(())
}

/// Whether an entry has a minute of the day.
fn touches(entry: &Entry, day: u32) -> bool {
    u64::from(entry.span.start) < 1440 * (u64::from(day) + 1)
        && 1440 * u64::from(day) < u64::from(entry.span.stop)
}

/// Whether no entry has a minute of the day.
fn is_empty(entries: &[Entry], day: u32) -> bool {
    for entry in entries {
        if touches(entry, day) {
            return false;
        }
    }
    true
}

/// Appends a mark over days off, from a day of the month on, both counted from 0.
fn put_free(html: &mut Html, first: u32, behind: u32) -> Result<(), Memory> {
    if behind <= first {
        return Ok(());
    }
    html.markup(b"<u style=\"--a:")?;
    html.number(first.saturating_mul(1440))?;
    html.markup(b";--k:")?;
    html.number(behind - first)?;
    html.markup(b"\" title=\"days off: ")?;
    html.number(behind - first)?;
    html.markup(b"\"></u>\n")
}

/// Appends a mark over each row of days on which nothing stands.
fn put_days_off(html: &mut Html, horizon: &Horizon, entries: &[Entry]) -> Result<(), Memory> {
    let mut first = 0;
    for day in 0..horizon.days() {
        if !is_empty(entries, FIRST_DAY + day) {
            put_free(html, first, day)?;
            first = day + 1;
        }
    }
    put_free(html, first, horizon.days())
}

/// Appends the mark of a bid for these minutes.
fn put_wanted(
    html: &mut Html,
    horizon: &Horizon,
    bid: &SeenBid,
    span: Interval,
) -> Result<(), Memory> {
    let minutes = minutes_of(horizon);
    if bid.granted {
        html.markup(b"<s class=\"y")?;
    } else {
        html.markup(b"<s class=\"x")?;
    }
    let start = in_month(span.start, minutes);
    put_place(html, start, in_month(span.stop, minutes))?;
    if bid.granted {
        html.markup(b" title=\"granted: ")?;
    } else {
        html.markup(b" title=\"denied: ")?;
    }
    html.text(bid.text.as_slice())?;
    html.markup(b"\"></s>\n")
}

/// Appends the marks of the bids for days and for trips.
fn put_all_wanted(html: &mut Html, horizon: &Horizon, bids: &[SeenBid]) -> Result<(), Memory> {
    for bid in bids {
        if let Some(span) = bid.span {
            put_wanted(html, horizon, bid, span)?;
        }
    }
    Ok(())
}

/// Appends the strip of a pilot.
pub fn put_strip(html: &mut Html, horizon: &Horizon, pilot: &Pilot) -> Result<(), Memory> {
    html.markup(b"<div class=\"strip\">\n")?;
    put_days_off(html, horizon, &pilot.entries)?;
    put_entries(html, horizon, &pilot.entries)?;
    put_all_wanted(html, horizon, &pilot.bids)?;
    html.markup(b"</div>")
}

/// Appends the head of a day.
fn put_day_head(html: &mut Html, horizon: &Horizon, day: u32) -> Result<(), Memory> {
    if is_weekend(horizon, FIRST_DAY.saturating_add(day)) {
        html.markup(b"<span class=\"d w\" style=\"--a:")?;
    } else {
        html.markup(b"<span class=\"d\" style=\"--a:")?;
    }
    html.number(day.saturating_mul(1440))?;
    html.markup(b"\">")?;
    html.number(day.saturating_add(1))?;
    html.markup(b"<small>")?;
    put_weekday(html, horizon, FIRST_DAY.saturating_add(day))?;
    html.markup(b"</small></span>\n")
}

/// Appends the heads of the days.
pub fn put_day_heads(html: &mut Html, horizon: &Horizon) -> Result<(), Memory> {
    html.markup(b"<div class=\"strip days\">\n")?;
    for day in 0..horizon.days() {
        put_day_head(html, horizon, day)?;
    }
    html.markup(b"</div>")
}
