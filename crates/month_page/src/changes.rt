//! What is otherwise than in another roster, as a part of the page.

use crate::naming::shown_name;
use duty_calendar::Memory;
use page_parts::Html;
use roster_diff::{Change, Difference, Standing};
use staff_names::StaffNames;

/// What is otherwise than in another roster, and what that one is called.
#[derive(Clone, Copy)]
pub struct Changes<'a> {
    pub other: &'a [u8],
    pub list: &'a [Difference],
}

/// Appends a cell of words, a line for each.
fn put_words(html: &mut Html, words: &[String]) -> Result<(), Memory> {
    html.markup(b"<td>")?;
    for word in words {
        html.text(word.as_str().as_bytes())?;
        html.markup(b"<br>")?;
    }
    html.markup(b"</td>")
}

/// Appends a cell of a number, and what it was before where that is otherwise.
fn put_number(html: &mut Html, change: Change) -> Result<(), Memory> {
    html.markup(b"<td class=\"r\">")?;
    html.number(change.now)?;
    if !change.is_none() {
        html.markup(b" <small>before ")?;
        html.number(change.before)?;
        html.markup(b"</small>")?;
    }
    html.markup(b"</td>")
}

/// The same of minutes.
fn put_credit(html: &mut Html, change: Change) -> Result<(), Memory> {
    html.markup(b"<td class=\"r\" data-v=\"")?;
    html.number(change.now)?;
    html.markup(b"\">")?;
    html.hours(change.now)?;
    if !change.is_none() {
        html.markup(b" <small>before ")?;
        html.hours(change.before)?;
        html.markup(b"</small>")?;
    }
    html.markup(b"</td>")
}

/// In which of the two months the pilot stands.
fn standing_words(standing: Standing) -> &'static [u8] {
    match standing {
        Standing::Both => b"",
        Standing::Joined => b" <small>not among the pilots before</small>",
        Standing::Left => b" <small>not among the pilots now</small>",
    }
}

/// Appends the head of a pilot's row.
fn put_pilot(html: &mut Html, names: &StaffNames, found: &Difference) -> Result<(), Memory> {
    html.markup(b"<tr><th scope=\"row\" data-v=\"")?;
    html.number(found.place)?;
    html.markup(b"\">")?;
    html.text(shown_name(names, found.name.as_str().as_bytes()))?;
    html.markup(standing_words(found.standing))?;
    html.markup(b"</th>")
}

/// Appends the row of a pilot.
fn put_row(html: &mut Html, names: &StaffNames, found: &Difference) -> Result<(), Memory> {
    put_pilot(html, names, found)?;
    put_words(html, found.gained.as_slice())?;
    put_words(html, found.lost.as_slice())?;
    put_credit(html, found.credit)?;
    put_number(html, found.score)?;
    put_number(html, found.days_off)?;
    put_words(html, found.won.as_slice())?;
    put_words(html, found.denied.as_slice())?;
    html.markup(b"</tr>\n")
}

/// Appends the table's head.
fn put_table_head(html: &mut Html) -> Result<(), Memory> {
    html.markup(
        b"<div class=\"wide\"><table class=\"list sort\">\n<thead><tr><th scope=\"col\" class=\"k\">Pilot</th>",
    )?;
    html.markup(
        b"<th scope=\"col\" class=\"k\">Trips gained</th><th scope=\"col\" class=\"k\">Trips lost</th>",
    )?;
    html.markup(
        b"<th scope=\"col\" class=\"k r\">Credit</th><th scope=\"col\" class=\"k r\">Score</th><th scope=\"col\" class=\"k r\">Days off</th>",
    )?;
    html.markup(
        b"<th scope=\"col\" class=\"k\">Bids won</th><th scope=\"col\" class=\"k\">Bids lost</th></tr></thead>\n<tbody>\n",
    )
}

/// Appends what is otherwise.
pub fn put_changes(
    html: &mut Html,
    names: &StaffNames,
    changes: &Changes<'_>,
) -> Result<(), Memory> {
    html.markup(b"<h2 id=\"changes\">What is otherwise than in <code>")?;
    html.text(changes.other)?;
    html.markup(b"</code></h2>\n")?;
    if changes.list.is_empty() {
        return html.markup(b"<p>Nothing: each pilot has the same line.</p>\n");
    }
    put_table_head(html)?;
    for found in changes.list {
        put_row(html, names, found)?;
    }
    html.markup(b"</tbody></table></div>\n")
}
