//! The roster of the page: a row for each pilot.

use crate::pilot::Pilot;
use crate::strip::put_strip;
use duty_calendar::{Horizon, Memory};
use page_parts::Html;

/// Appends the credit in its window: as text, and as a mark between the ends.
pub fn put_window(html: &mut Html, pilot: &Pilot) -> Result<(), Memory> {
    html.hours(pilot.credit)?;
    html.markup(b" <small>")?;
    html.hours(pilot.low)?;
    html.markup(b"&ndash;")?;
    html.hours(pilot.high)?;
    html.markup(b"</small><span class=\"m\" style=\"--a:")?;
    html.number(pilot.credit.saturating_sub(pilot.low))?;
    html.markup(b";--s:")?;
    html.number(pilot.high.saturating_sub(pilot.low).max(1))?;
    html.markup(b"\"></span>")
}

/// Appends the score, the bids that are granted and denied, and the days off.
fn put_sums(html: &mut Html, pilot: &Pilot) -> Result<(), Memory> {
    html.markup(b"<td class=\"s r\">")?;
    html.number(pilot.score)?;
    html.markup(b"</td>\n<td class=\"v r\">")?;
    html.number(pilot.count(true))?;
    html.markup(b" / ")?;
    html.number(pilot.count(false))?;
    html.markup(b"</td>\n<td class=\"f r\">")?;
    html.number(pilot.days_off)?;
    html.markup(b"</td>\n")
}

/// Appends the head of a pilot's row.
fn put_row_head(html: &mut Html, pilot: &Pilot) -> Result<(), Memory> {
    html.markup(b"<tr id=\"p")?;
    html.number(pilot.place)?;
    html.markup(b"\">\n<th scope=\"row\" class=\"n\" title=\"")?;
    html.text(pilot.name)?;
    html.markup(b"\"><small>")?;
    html.number(pilot.place)?;
    html.markup(b"</small> <a href=\"#b")?;
    html.number(pilot.place)?;
    html.markup(b"\">")?;
    html.text(pilot.shown)?;
    html.markup(b"</a></th>\n")
}

/// Appends the row of a pilot.
fn put_row(html: &mut Html, horizon: &Horizon, pilot: &Pilot) -> Result<(), Memory> {
    put_row_head(html, pilot)?;
    html.markup(b"<td class=\"c r\" data-v=\"")?;
    html.number(pilot.credit)?;
    html.markup(b"\">")?;
    put_window(html, pilot)?;
    html.markup(b"</td>\n")?;
    put_sums(html, pilot)?;
    html.markup(b"<td class=\"l\">")?;
    put_strip(html, horizon, pilot)?;
    html.markup(b"</td></tr>\n")
}

/// Appends the rows of pilots.
pub fn put_rows(html: &mut Html, horizon: &Horizon, pilots: &[Pilot]) -> Result<(), Memory> {
    for pilot in pilots {
        put_row(html, horizon, pilot)?;
    }
    Ok(())
}
