//! What the page says of a pilot below the roster.

use crate::bids::put_bids;
use crate::entry::Entry;
use crate::naming::Crew;
use crate::pilot::Pilot;
use crate::route::put_route;
use crate::strip::put_told;
use duty_calendar::{Horizon, Memory};
use page_parts::Html;

/// Appends an entry.
fn put_entry(html: &mut Html, horizon: &Horizon, entry: &Entry) -> Result<(), Memory> {
    html.markup(b"<li><b>")?;
    html.text(entry.name)?;
    html.markup(b"</b>")?;
    put_told(html, horizon, entry)?;
    if !entry.duties.is_empty() {
        html.markup(b"<small>")?;
        put_route(html, entry.duties)?;
        html.markup(b"</small>")?;
    }
    html.markup(b"</li>\n")
}

/// Appends the trips and the fixed events of a pilot.
pub fn put_entries(html: &mut Html, horizon: &Horizon, entries: &[Entry]) -> Result<(), Memory> {
    if entries.is_empty() {
        return html.markup(b"<p>No trips.</p>\n");
    }
    html.markup(b"<ul class=\"plain\">\n")?;
    for entry in entries {
        put_entry(html, horizon, entry)?;
    }
    html.markup(b"</ul>\n")
}

/// Appends the credit, the score and the days off.
pub fn put_sums(html: &mut Html, pilot: &Pilot) -> Result<(), Memory> {
    html.markup(b"<p>Credit ")?;
    html.hours(pilot.credit)?;
    html.markup(b" of ")?;
    html.hours(pilot.low)?;
    html.markup(b" to ")?;
    html.hours(pilot.high)?;
    html.markup(b", score ")?;
    html.number(pilot.score)?;
    html.markup(b" of ")?;
    html.number(pilot.weight())?;
    html.markup(b", ")?;
    html.number(pilot.days_off)?;
    html.markup(b" days off</p>\n")
}

/// Appends the name that the files have, where another one is shown.
pub fn put_own_name(html: &mut Html, pilot: &Pilot) -> Result<(), Memory> {
    if pilot.shown == pilot.name {
        return Ok(());
    }
    html.markup(b" <small>")?;
    html.text(pilot.name)?;
    html.markup(b"</small>")
}

/// Appends the head of a card. One with many bids has the class `big`.
fn put_card_head(html: &mut Html, pilot: &Pilot) -> Result<(), Memory> {
    if pilot.bids.len() > 24 {
        html.markup(b"<section class=\"big\" id=\"b")?;
    } else {
        html.markup(b"<section id=\"b")?;
    }
    html.number(pilot.place)?;
    html.markup(b"\">\n<h3>")?;
    html.number(pilot.place)?;
    html.markup(b" <a href=\"#p")?;
    html.number(pilot.place)?;
    html.markup(b"\">")?;
    html.text(pilot.shown)?;
    html.markup(b"</a>")?;
    put_own_name(html, pilot)?;
    html.markup(b"</h3>\n")
}

/// Appends the card of a pilot: sums, trips and fixed events, bids.
fn put_card(
    html: &mut Html,
    horizon: &Horizon,
    crew: &Crew<'_>,
    pilot: &Pilot,
) -> Result<(), Memory> {
    put_card_head(html, pilot)?;
    put_sums(html, pilot)?;
    put_entries(html, horizon, &pilot.entries)?;
    put_bids(html, crew, pilot)?;
    html.markup(b"</section>\n")
}

/// Appends the cards of pilots.
pub fn put_cards(
    html: &mut Html,
    horizon: &Horizon,
    crew: &Crew<'_>,
    pilots: &[Pilot],
) -> Result<(), Memory> {
    html.markup(b"<h2 id=\"cards\">Lines and bids</h2>\n<main>\n")?;
    for pilot in pilots {
        put_card(html, horizon, crew, pilot)?;
    }
    html.markup(b"</main>\n")
}
