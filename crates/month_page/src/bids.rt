//! The bids of a pilot, and why some are denied: each reason once, with the bids that it is about.

use crate::naming::Crew;
use crate::pilot::{Pilot, SeenBid};
use duty_calendar::Memory;
use page_parts::Html;
use roster_model::Cause;

/// Appends the name of the pilot at a place above 0.
fn put_name(html: &mut Html, crew: &Crew<'_>, place: u32) -> Result<(), Memory> {
    html.text(crew.shown(place.saturating_sub(1)))
}

/// Appends the sentence on a place of seniority.
fn put_place(html: &mut Html, crew: &Crew<'_>, place: u32) -> Result<(), Memory> {
    if place == 1 {
        html.markup(b"Each legal roster that grants it gives less to ")?;
        put_name(html, crew, place)?;
        return html.markup(b", the most senior.");
    }
    html.markup(b"Whatever legal roster grants it, somebody at the first ")?;
    html.number(place)?;
    html.markup(
        b" places gets less, before anybody there gets more. The first place at which it must cost ",
    )?;
    html.markup(b"something is that of ")?;
    put_name(html, crew, place)?;
    html.markup(b".")
}

/// Appends why a bid of the pilot at a place is denied.
fn put_cause(
    html: &mut Html,
    crew: &Crew<'_>,
    own: u32,
    cause: Option<Cause>,
) -> Result<(), Memory> {
    match cause {
        None => html.markup(b"The file of reasons has none for it."),
        Some(Cause::Tie) => {
            html.markup(b"Another legal roster grants it, with the very same scores for all.")
        }
        Some(Cause::Place(0)) => html.markup(b"No legal roster grants it, whoever gives way."),
        Some(Cause::Place(place)) if place == own => html.markup(
            b"It would cost other bids of this pilot that weigh more.",
        ),
        Some(Cause::Place(place)) => put_place(html, crew, place),
    }
}

/// Appends a bid.
fn put_bid(html: &mut Html, bid: &SeenBid) -> Result<(), Memory> {
    html.markup(b"<li value=\"")?;
    html.number(bid.number)?;
    html.markup(b"\">")?;
    html.text(bid.text.as_slice())?;
    html.markup(b"</li>\n")
}

/// Whether a bid is denied for a cause.
fn is_denied(bid: &SeenBid, cause: Option<Cause>) -> bool {
    !bid.granted && bid.cause == cause
}

/// Whether a bid before that of this number is denied for a cause.
fn was_said(bids: &[SeenBid], number: u32, cause: Option<Cause>) -> bool {
    for bid in bids {
        if bid.number < number && is_denied(bid, cause) {
            return true;
        }
    }
    false
}

/// Appends the bids that are denied for a cause.
fn put_denied(html: &mut Html, bids: &[SeenBid], cause: Option<Cause>) -> Result<(), Memory> {
    html.markup(b"<ol class=\"x\">\n")?;
    for bid in bids {
        if is_denied(bid, cause) {
            put_bid(html, bid)?;
        }
    }
    html.markup(b"</ol>\n")
}

/// Appends each cause with the bids that it is about.
fn put_causes(html: &mut Html, crew: &Crew<'_>, pilot: &Pilot) -> Result<(), Memory> {
    for bid in &pilot.bids {
        if !bid.granted && !was_said(&pilot.bids, bid.number, bid.cause) {
            html.markup(b"<p class=\"why\">")?;
            put_cause(html, crew, pilot.place, bid.cause)?;
            html.markup(b"</p>\n")?;
            put_denied(html, &pilot.bids, bid.cause)?;
        }
    }
    Ok(())
}

/// Appends the bids that are granted.
fn put_granted(html: &mut Html, pilot: &Pilot) -> Result<(), Memory> {
    html.markup(b"<h4 class=\"y\">&#10003; Granted</h4>\n<ol class=\"y\">\n")?;
    for bid in &pilot.bids {
        if bid.granted {
            put_bid(html, bid)?;
        }
    }
    html.markup(b"</ol>\n")
}

/// Appends the bids of a pilot.
pub fn put_bids(html: &mut Html, crew: &Crew<'_>, pilot: &Pilot) -> Result<(), Memory> {
    if pilot.bids.is_empty() {
        return html.markup(b"<p>No bids.</p>\n");
    }
    if pilot.count(true) > 0 {
        put_granted(html, pilot)?;
    }
    if pilot.count(false) > 0 {
        html.markup(b"<h4 class=\"x\">&#10005; Denied</h4>\n")?;
    }
    put_causes(html, crew, pilot)
}
