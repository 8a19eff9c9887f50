//! The trips of the month: who flies them, and which are open.

use crate::counting::counted;
use crate::pilot::Pilot;
use crate::route::put_route;
use duty_calendar::{Base, Horizon, Interval, Memory, Pairing};
use page_parts::{Html, put_moment};
use roster_model::pairing_span;

/// Whether a line is a vacant one, which `pbs` names so.
fn is_vacant(name: &[u8]) -> bool {
    name.starts_with(b"vacant-")
}

/// How many pilots fly a pairing. A vacant line is none.
pub fn count_of(pilots: &[Pilot], number: u32) -> u32 {
    let mut count: u32 = 0;
    for pilot in pilots {
        if pilot.flies(number) && !is_vacant(pilot.name) {
            count = count.saturating_add(1);
        }
    }
    count
}

/// How many pilots are wanting for a pairing.
pub fn lack_of(pilots: &[Pilot], number: u32, pairing: &Pairing) -> u32 {
    pairing.need.saturating_sub(count_of(pilots, number))
}

/// On how many days a trip has a minute.
pub fn days_of(span: Interval) -> u32 {
    let last = span.stop.saturating_sub(1) / 1440;
    last.saturating_sub(span.start / 1440).saturating_add(1)
}

/// Appends a link to the row of a pilot.
fn put_link(html: &mut Html, pilot: &Pilot) -> Result<(), Memory> {
    html.markup(b" <a href=\"#p")?;
    html.number(pilot.place)?;
    html.markup(b"\">")?;
    html.text(pilot.shown)?;
    html.markup(b"</a>")
}

/// Appends who flies a pairing.
fn put_holders(html: &mut Html, pilots: &[Pilot], number: u32) -> Result<(), Memory> {
    for pilot in pilots {
        if pilot.flies(number) {
            put_link(html, pilot)?;
        }
    }
    Ok(())
}

/// Appends a cell that is sorted by minutes, and shows their date and clock.
fn put_when(html: &mut Html, horizon: &Horizon, minute: u32) -> Result<(), Memory> {
    html.markup(b"<td data-v=\"")?;
    html.number(minute)?;
    html.markup(b"\">")?;
    put_moment(html, horizon, minute)?;
    html.markup(b"</td>")
}

/// Appends the cells of a pairing: name, route, report, release, days, credit.
pub fn put_cells(html: &mut Html, horizon: &Horizon, pairing: &Pairing) -> Result<(), Memory> {
    let span = pairing_span(pairing);
    html.markup(b"<th scope=\"row\">")?;
    html.text(pairing.name.bytes())?;
    html.markup(b"</th><td>")?;
    put_route(html, pairing.duties.as_slice())?;
    html.markup(b"</td>")?;
    put_when(html, horizon, span.start)?;
    put_when(html, horizon, span.stop)?;
    html.markup(b"<td class=\"r\">")?;
    html.number(days_of(span))?;
    html.markup(b"</td><td class=\"r\" data-v=\"")?;
    html.number(pairing.credit)?;
    html.markup(b"\">")?;
    html.hours(pairing.credit)?;
    html.markup(b"</td>")
}

/// Appends the head of a table of trips, up to the columns that differ.
pub fn put_trips_head(html: &mut Html) -> Result<(), Memory> {
    html.markup(
        b"<div class=\"wide\"><table class=\"list sort\">\n<thead><tr><th scope=\"col\" class=\"k\">Trip</th>",
    )?;
    html.markup(
        b"<th scope=\"col\" class=\"k\">Route</th><th scope=\"col\" class=\"k\">Report</th>",
    )?;
    html.markup(
        b"<th scope=\"col\" class=\"k\">Release</th><th scope=\"col\" class=\"k r\">Days</th>",
    )?;
    html.markup(b"<th scope=\"col\" class=\"k r\">Credit</th>")
}

/// Appends the row of a pairing.
fn put_trip(
    html: &mut Html,
    horizon: &Horizon,
    pilots: &[Pilot],
    number: u32,
    pairing: &Pairing,
) -> Result<(), Memory> {
    html.markup(b"<tr>")?;
    put_cells(html, horizon, pairing)?;
    html.markup(b"<td class=\"r\">")?;
    html.number(count_of(pilots, number))?;
    html.markup(b" of ")?;
    html.number(pairing.need)?;
    html.markup(b"</td><td>")?;
    put_holders(html, pilots, number)?;
    html.markup(b"</td></tr>\n")
}

/// Appends the index of trips.
pub fn put_trips(html: &mut Html, base: &Base, pilots: &[Pilot]) -> Result<(), Memory> {
    html.markup(b"<h2 id=\"trips\">Trips</h2>\n")?;
    put_trips_head(html)?;
    html.markup(
        b"<th scope=\"col\" class=\"k r\">Pilots</th><th scope=\"col\" class=\"k\">Flown by</th></tr></thead>\n<tbody>\n",
    )?;
    for (number, pairing) in base.pairings.as_slice().iter().enumerate() {
        put_trip(html, &base.rules.horizon, pilots, counted(number), pairing)?;
    }
    html.markup(b"</tbody></table></div>\n")
}

/// Whether no pilot is wanting for any pairing.
fn are_flown(base: &Base, pilots: &[Pilot]) -> bool {
    for (number, pairing) in base.pairings.as_slice().iter().enumerate() {
        if lack_of(pilots, counted(number), pairing) > 0 {
            return false;
        }
    }
    true
}

/// Appends the row of an open trip, and how many pilots are wanting for it.
fn put_open_trip(
    html: &mut Html,
    horizon: &Horizon,
    pairing: &Pairing,
    lack: u32,
) -> Result<(), Memory> {
    html.markup(b"<tr>")?;
    put_cells(html, horizon, pairing)?;
    html.markup(b"<td class=\"r\">")?;
    html.number(lack)?;
    html.markup(b"</td></tr>\n")
}

/// Appends the rows of open trips.
fn put_open_trips(html: &mut Html, base: &Base, pilots: &[Pilot]) -> Result<(), Memory> {
    for (number, pairing) in base.pairings.as_slice().iter().enumerate() {
        let lack = lack_of(pilots, counted(number), pairing);
        if lack > 0 {
            put_open_trip(html, &base.rules.horizon, pairing, lack)?;
        }
    }
    Ok(())
}

/// Appends the open trips.
pub fn put_open(html: &mut Html, base: &Base, pilots: &[Pilot]) -> Result<(), Memory> {
    html.markup(b"<h2 id=\"open\">Open trips</h2>\n")?;
    if are_flown(base, pilots) {
        return html.markup(b"<p>None: each trip has the pilots that it needs.</p>\n");
    }
    put_trips_head(html)?;
    html.markup(b"<th scope=\"col\" class=\"k r\">Pilots wanting</th></tr></thead>\n<tbody>\n")?;
    put_open_trips(html, base, pilots)?;
    html.markup(b"</tbody></table></div>\n")
}
