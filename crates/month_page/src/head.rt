//! The head of a page.

use crate::style::STYLE;
use duty_calendar::{Base, Horizon, Memory, Rules};
use file_places::month_name;
use page_parts::{FIRST_DAY, Html, is_weekend, put_style};

/// Appends the base, the seat and the month.
pub fn put_title(html: &mut Html, rules: &Rules) -> Result<(), Memory> {
    html.text(&rules.base.bytes())?;
    html.markup(b" ")?;
    html.text(rules.seat.bytes())?;
    html.markup(b", ")?;
    html.markup(month_name(u32::from(rules.horizon.month())))?;
    html.markup(b" ")?;
    html.number(u32::try_from(rules.horizon.year()).unwrap_or(0))
}

/// Appends what lies behind a day of the month, which is the day of this number from 1 on.
fn put_shade(html: &mut Html, is_shaded: bool, days: u32, number: u32) -> Result<(), Memory> {
    if is_shaded {
        html.markup(b",var(--shade) 0 calc(100%*")?;
    } else {
        html.markup(b",var(--paper) 0 calc(100%*")?;
    }
    html.number(number)?;
    html.markup(b"/")?;
    html.number(days)?;
    html.markup(b")")
}

/// Appends what lies behind the days: Saturdays and Sundays are shaded.
fn put_shades(html: &mut Html, horizon: &Horizon) -> Result<(), Memory> {
    html.markup(b"linear-gradient(90deg")?;
    for day in 0..horizon.days() {
        let is_shaded = is_weekend(horizon, FIRST_DAY + day);
        put_shade(html, is_shaded, horizon.days(), day + 1)?;
    }
    html.markup(b")")
}

/// Appends the rules that hang on the month: its minutes, and what lies behind the days.
fn put_month_style(html: &mut Html, horizon: &Horizon) -> Result<(), Memory> {
    html.markup(b":root{--t:")?;
    html.number(1440 * horizon.days())?;
    html.markup(
        b"}\n.strip{background:repeating-linear-gradient(90deg,var(--rule) 0 1px,#0000 0 calc(100%/",
    )?;
    html.number(horizon.days())?;
    html.markup(b")),\n")?;
    put_shades(html, horizon)?;
    html.markup(
        b"}\n.grounds{display:flex;margin-top:.25rem}.grounds span{flex:1;font-size:.75rem}\n",
    )
}

/// Appends the head of a document about a month, up to its title's end.
pub fn put_document(html: &mut Html, rules: &Rules) -> Result<(), Memory> {
    html.markup(b"<!DOCTYPE html>\n<html lang=\"en\">\n<head>\n<meta charset=\"utf-8\">\n")?;
    html.markup(
        b"<meta name=\"viewport\" content=\"width=device-width, initial-scale=1\">\n<title>",
    )?;
    put_title(html, rules)
}

/// Appends the rest of the document's head, with the styles of pages, strips, this month and this page alone.
pub fn put_styles(html: &mut Html, horizon: &Horizon, own: &'static [u8]) -> Result<(), Memory> {
    html.markup(b"</title>\n<style>\n")?;
    put_style(html)?;
    html.markup(STYLE)?;
    put_month_style(html, horizon)?;
    html.markup(own)?;
    html.markup(b"</style>\n</head>\n<body>\n")
}

/// Appends by how much the base's clock is ahead of UTC or behind it.
fn put_offset(html: &mut Html, horizon: &Horizon) -> Result<(), Memory> {
    if horizon.offset() < 0 {
        html.markup(b"&minus;")?;
    } else {
        html.markup(b"+")?;
    }
    html.hours(u32::from(horizon.offset().unsigned_abs()))
}

/// Appends by which clock times are said.
pub fn put_clock(html: &mut Html, horizon: &Horizon) -> Result<(), Memory> {
    html.markup(b"All times are by the clock of the base, UTC")?;
    put_offset(html, horizon)?;
    html.markup(b".")
}

/// Appends the links to the parts of the roster's page, and the room of what searches.
fn put_links(html: &mut Html, has_changes: bool) -> Result<(), Memory> {
    html.markup(b"<nav class=\"tool\"><a href=\"#cards\">Lines and bids</a>")?;
    if has_changes {
        html.markup(b"<a href=\"#changes\">What is otherwise</a>")?;
    }
    html.markup(
        b"<a href=\"#trips\">Trips</a><a href=\"#open\">Open trips</a><a href=\"#charts\">Charts</a><span id=\"search\"></span></nav>\n",
    )
}

/// Appends the heading of the roster's page.
pub fn put_heading(html: &mut Html, base: &Base, has_changes: bool) -> Result<(), Memory> {
    html.markup(b"<header>\n<h1>")?;
    put_title(html, &base.rules)?;
    html.markup(b"</h1>\n<p>")?;
    html.count(base.members.len())?;
    html.markup(b" pilots in order of seniority, ")?;
    html.count(base.pairings.len())?;
    html.markup(b" trips. ")?;
    put_clock(html, &base.rules.horizon)?;
    html.markup(b"</p>\n")?;
    put_links(html, has_changes)?;
    html.markup(b"</header>\n")
}
