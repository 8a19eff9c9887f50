//! The calendar of the packet: a day of the month after the other, with the trips that report on it.

use duty_calendar::{Base, Memory, Pairing};
use month_page::counted;
use page_parts::{FIRST_DAY, Html, is_weekend, put_date};
use roster_model::pairing_span;

/// Whether a trip reports on a day.
fn reports_on(pairing: &Pairing, day: u32) -> bool {
    pairing_span(pairing).start / 1440 == day
}

/// Appends a link to a trip.
fn put_link(html: &mut Html, number: u32, pairing: &Pairing) -> Result<(), Memory> {
    html.markup(b"<a href=\"#t")?;
    html.number(number)?;
    html.markup(b"\">")?;
    html.text(pairing.name.bytes())?;
    html.markup(b"</a> ")
}

/// Appends the trips that report on a day.
fn put_links(html: &mut Html, pairings: &[Pairing], day: u32) -> Result<(), Memory> {
    for (number, pairing) in pairings.iter().enumerate() {
        if reports_on(pairing, day) {
            put_link(html, counted(number), pairing)?;
        }
    }
    Ok(())
}

/// Appends a day.
fn put_day(html: &mut Html, base: &Base, day: u32) -> Result<(), Memory> {
    if is_weekend(&base.rules.horizon, day) {
        html.markup(b"<li class=\"w\"><b>")?;
    } else {
        html.markup(b"<li><b>")?;
    }
    put_date(html, &base.rules.horizon, day)?;
    html.markup(b"</b><br>")?;
    put_links(html, base.pairings.as_slice(), day)?;
    html.markup(b"</li>\n")
}

/// Appends the calendar.
pub fn put_calendar(html: &mut Html, base: &Base) -> Result<(), Memory> {
    html.markup(
        b"<h2 id=\"days\">Trips by the day of their report</h2>\n<ul class=\"calendar\">\n",
    )?;
    for day in 0..base.rules.horizon.days() {
        put_day(html, base, FIRST_DAY + day)?;
    }
    html.markup(b"</ul>\n")
}
