//! The report as a page.

use crate::figures::{DayFigure, Figures};
use crate::open::OpenTrip;
use duty_calendar::{Base, Horizon, List, Memory, Pairing};
use month_page::{
    Pilot, SCRIPT, put_cells, put_charts, put_clock, put_document, put_styles, put_title,
    put_trips_head,
};
use page_parts::{FileSum, Html, put_date, put_foot};
use std::alloc::Global;

/// Appends a cell of a number.
fn put_number(html: &mut Html, value: u32) -> Result<(), Memory> {
    html.markup(b"<td class=\"r\">")?;
    html.number(value)?;
    html.markup(b"</td>")
}

/// Appends a cell of minutes, which is sorted by them.
fn put_credit(html: &mut Html, minutes: u32) -> Result<(), Memory> {
    html.markup(b"<td class=\"r\" data-v=\"")?;
    html.number(minutes)?;
    html.markup(b"\">")?;
    html.hours(minutes)?;
    html.markup(b"</td>")
}

/// A share in hundredths; 100 of nothing.
fn share(part: u32, whole: u32) -> u32 {
    let hundredths = (u64::from(part) * 100).checked_div(u64::from(whole));
    hundredths.unwrap_or(100).min(100) as u32
}

/// Appends the row of a pilot.
fn put_pilot(html: &mut Html, pilot: &Pilot) -> Result<(), Memory> {
    html.markup(b"<tr>")?;
    put_number(html, pilot.place)?;
    html.markup(b"<th scope=\"row\">")?;
    html.text(pilot.shown)?;
    html.markup(b"</th>")?;
    put_number(html, pilot.count(true))?;
    put_number(html, pilot.count(false))?;
    put_number(html, pilot.score)?;
    put_number(html, pilot.weight())?;
    put_number(html, share(pilot.score, pilot.weight()))?;
    put_credit(html, pilot.low)?;
    put_credit(html, pilot.credit)?;
    put_credit(html, pilot.high)?;
    put_number(html, pilot.days_off)?;
    html.markup(b"</tr>\n")
}

/// Appends the table of pilots.
fn put_pilots(html: &mut Html, pilots: &[Pilot]) -> Result<(), Memory> {
    html.markup(
        b"<h2>Satisfaction by seniority, and credit</h2>\n<div class=\"wide\"><table class=\"list sort\">\n<thead><tr><th scope=\"col\" class=\"k r\">Place</th><th scope=\"col\" class=\"k\">Pilot</th><th scope=\"col\" class=\"k r\">Granted</th><th scope=\"col\" class=\"k r\">Denied</th>",
    )?;
    html.markup(
        b"<th scope=\"col\" class=\"k r\">Granted weight</th><th scope=\"col\" class=\"k r\">Bid weight</th><th scope=\"col\" class=\"k r\">Percent</th><th scope=\"col\" class=\"k r\">Least</th><th scope=\"col\" class=\"k r\">Credit</th><th scope=\"col\" class=\"k r\">Greatest</th><th scope=\"col\" class=\"k r\">Days off</th></tr></thead>\n<tbody>\n",
    )?;
    for pilot in pilots {
        put_pilot(html, pilot)?;
    }
    html.markup(b"</tbody></table></div>\n")
}

/// Appends the row of a day.
fn put_day(html: &mut Html, horizon: &Horizon, figure: DayFigure) -> Result<(), Memory> {
    html.markup(b"<tr><th scope=\"row\" data-v=\"")?;
    html.number(figure.day)?;
    html.markup(b"\">")?;
    put_date(html, horizon, figure.day)?;
    html.markup(b"</th>")?;
    put_number(html, figure.wanted)?;
    put_number(html, figure.granted)?;
    put_number(html, figure.wanted.saturating_sub(figure.granted))?;
    html.markup(b"</tr>\n")
}

/// Appends the table of days.
fn put_days(html: &mut Html, horizon: &Horizon, days: &[DayFigure]) -> Result<(), Memory> {
    html.markup(
        b"<h2>Days off that were wanted</h2>\n<div class=\"wide\"><table class=\"list sort\">\n<thead><tr><th scope=\"col\" class=\"k\">Day</th><th scope=\"col\" class=\"k r\">Bids with it</th><th scope=\"col\" class=\"k r\">Granted</th><th scope=\"col\" class=\"k r\">Denied</th></tr></thead>\n<tbody>\n",
    )?;
    for figure in days {
        put_day(html, horizon, *figure)?;
    }
    html.markup(b"</tbody></table></div>\n")
}

/// Appends the row of a trip that nobody wanted.
fn put_trip(html: &mut Html, horizon: &Horizon, pairing: &Pairing) -> Result<(), Memory> {
    html.markup(b"<tr>")?;
    put_cells(html, horizon, pairing)?;
    html.markup(b"</tr>\n")
}

/// Appends the rows of trips that nobody wanted.
fn put_trips(html: &mut Html, base: &Base, trips: &[u32]) -> Result<(), Memory> {
    for number in trips {
        if let Some(pairing) = base.pairings.as_slice().get(*number as usize) {
            put_trip(html, &base.rules.horizon, pairing)?;
        }
    }
    Ok(())
}

/// Appends the trips that nobody wanted.
fn put_unwanted(html: &mut Html, base: &Base, trips: &[u32]) -> Result<(), Memory> {
    html.markup(
        b"<h2>Trips that nobody wanted</h2>\n<p>No bid is to fly it, and none prefers its kind: ",
    )?;
    html.count(trips.len())?;
    html.markup(b" of ")?;
    html.count(base.pairings.len())?;
    html.markup(b"</p>\n")?;
    if trips.is_empty() {
        return Ok(());
    }
    put_trips_head(html)?;
    html.markup(b"</tr></thead>\n<tbody>\n")?;
    put_trips(html, base, trips)?;
    html.markup(b"</tbody></table></div>\n")
}

/// Appends the names of members.
fn put_able(html: &mut Html, pilots: &[Pilot], able: &[u32]) -> Result<(), Memory> {
    for member in able {
        if let Some(pilot) = pilots.get(*member as usize) {
            html.text(pilot.shown)?;
            html.markup(b" ")?;
        }
    }
    Ok(())
}

/// Appends the row of an open trip.
fn put_open_trip(
    html: &mut Html,
    base: &Base,
    pilots: &[Pilot],
    open: &OpenTrip,
) -> Result<(), Memory> {
    let Some(pairing) = base.pairings.as_slice().get(open.pairing as usize) else {
        return Ok(());
    };
    html.markup(b"<tr>")?;
    put_cells(html, &base.rules.horizon, pairing)?;
    put_number(html, open.lack)?;
    html.markup(b"<td>")?;
    put_able(html, pilots, &open.able)?;
    html.markup(b"</td></tr>\n")
}

/// Appends the open trips.
fn put_open(
    html: &mut Html,
    base: &Base,
    pilots: &[Pilot],
    trips: &[OpenTrip],
) -> Result<(), Memory> {
    html.markup(b"<h2>Open trips</h2>\n")?;
    if trips.is_empty() {
        return html.markup(b"<p>None: each trip has the pilots that it needs.</p>\n");
    }
    put_trips_head(html)?;
    html.markup(
        b"<th scope=\"col\" class=\"k r\">Pilots wanting</th><th scope=\"col\">Could fly it</th></tr></thead>\n<tbody>\n",
    )?;
    for open in trips {
        put_open_trip(html, base, pilots, open)?;
    }
    html.markup(b"</tbody></table></div>\n")
}

/// Appends the head and the heading.
fn put_heading(html: &mut Html, base: &Base) -> Result<(), Memory> {
    put_document(html, &base.rules)?;
    html.markup(b", report")?;
    put_styles(html, &base.rules.horizon, b"")?;
    html.markup(b"<header>\n<h1>Report: ")?;
    put_title(html, &base.rules)?;
    html.markup(b"</h1>\n<p>")?;
    put_clock(html, &base.rules.horizon)?;
    html.markup(b"</p>\n<p class=\"tool\" id=\"search\"></p>\n</header>\n")
}

/// The report as a page.
pub fn print_report(
    alloc: Global,
    base: &Base,
    figures: &Figures<'_>,
    sums: &[FileSum],
    built: &[u8],
) -> Result<List<u8>, Memory> {
    let mut html = Html::new(alloc);
    put_heading(&mut html, base)?;
    put_charts(alloc, &mut html, &figures.pilots)?;
    put_pilots(&mut html, &figures.pilots)?;
    put_days(&mut html, &base.rules.horizon, &figures.days)?;
    put_unwanted(&mut html, base, &figures.unwanted)?;
    put_open(&mut html, base, &figures.pilots, &figures.open)?;
    html.markup(SCRIPT)?;
    put_foot(alloc, &mut html, sums, built)?;
    Ok(html.into_bytes())
}
