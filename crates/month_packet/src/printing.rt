//! The packet: what a month has before anybody bids.
ghost use Rattle.std.specs.Prelude.{◌≡◌, ◌≤◌, ◌<◌, ◌+◌};
ghost use Rattle.duty_calendar.specs.Calendar.{month_days};

use crate::crew::put_crew;
use crate::days::put_calendar;
use crate::sheet::{FORM, SHEET, STYLE};
use crate::trips::put_trips;
use bid_language::put_date;
use duty_calendar::{Base, Horizon, List, Memory};
use month_files::{Texts, read_month};
use month_page::{
    PageStop, SCRIPT, plan_texts, push_plan, put_clock, put_document, put_styles, put_title,
};
use page_parts::{Html, put_foot};
use shelf::Shelf;
use std::alloc::Global;

/// Appends the heading.
fn put_heading(html: &mut Html, base: &Base) -> Result<(), Memory> {
    html.markup(b"<header>\n<h1>Trips to bid for: ")?;
    put_title(html, &base.rules)?;
    html.markup(b"</h1>\n<p>")?;
    html.count(base.pairings.len())?;
    html.markup(b" trips, ")?;
    html.count(base.members.len())?;
    html.markup(b" pilots, ")?;
    html.number(base.rules.days_off)?;
    html.markup(b" days off at least. ")?;
    put_clock(html, &base.rules.horizon)?;
    html.markup(
        b"</p>\n<nav class=\"tool\"><a href=\"#bids\">Your bids</a><a href=\"#trips\">Trips</a><a href=\"#days\">By day</a><a href=\"#crew\">What you have</a><span id=\"search\"></span></nav>\n</header>\n",
    )
}

/// The day of the month that is next to a day, counted from the first of the horizon.
fn in_month(horizon: &Horizon, day: u32) -> u32
    ensures first { 365 ≤ result }
    ensures last { result < 365 + month_days horizon.now }
{
    let last = 364 + horizon.days();
    if day < 365 {
        return 365;
    }
    if day > last {
        return last;
    }
    day
}

/// Appends a day of the month as a date in bids.
fn put_day(alloc: Global, html: &mut Html, horizon: &Horizon, day: u32) -> Result<(), Memory> {
    let mut date = List::new(alloc);
    put_date(&mut date, horizon, in_month(horizon, day))?;
    html.text(date.as_slice())
}

/// Appends the first and the last day of the month, as the script of the sheet finds them.
fn put_month_data(alloc: Global, html: &mut Html, horizon: &Horizon) -> Result<(), Memory> {
    html.markup(b"<script>document.getElementById(\"sheet\").dataset.first = \"")?;
    put_day(alloc, html, horizon, 365)?;
    html.markup(b"\"; document.getElementById(\"sheet\").dataset.last = \"")?;
    put_day(alloc, html, horizon, 364 + horizon.days())?;
    html.markup(b"\";</script>\n")
}

/// Appends the document up to its scripts.
fn put_body(html: &mut Html, base: &Base) -> Result<(), Memory> {
    put_document(html, &base.rules)?;
    html.markup(b", trips")?;
    put_styles(html, &base.rules.horizon, STYLE)?;
    put_heading(html, base)?;
    html.markup(FORM)?;
    put_trips(html, base)?;
    put_calendar(html, base)?;
    put_crew(html, base)
}

/// The page of what is planned.
fn print_packet(
    alloc: Global,
    texts: &Texts,
    base: &Base,
    built: &[u8],
) -> Result<List<u8>, Memory> {
    let mut html = Html::new(alloc);
    put_body(&mut html, base)?;
    html.markup(SCRIPT)?;
    put_month_data(alloc, &mut html, &base.rules.horizon)?;
    html.markup(SHEET)?;
    let mut sums = Vec::new(alloc);
    push_plan(&mut sums, texts)?;
    put_foot(alloc, &mut html, &sums, built)?;
    Ok(html.into_bytes())
}

/// The page of what can be bid for. It wants no `bids.txt`. No file is written.
pub fn packet<S: Shelf>(alloc: Global, shelf: &mut S, built: &[u8]) -> Result<List<u8>, PageStop>
    ensures kept { S.holds shelf.new ≡ S.holds shelf.old }
{
    let texts = plan_texts(alloc, shelf)?;
    let problem = read_month(alloc, &texts)?;
    Ok(print_packet(alloc, &texts, &problem.base, built)?)
}
