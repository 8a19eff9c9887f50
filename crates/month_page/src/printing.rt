//! The page of a month.
ghost use Rattle.std.specs.Prelude.{◌≡◌, ◌<◌, All, length};

use crate::beside::Beside;
use crate::card::put_cards;
use crate::changes::put_changes;
use crate::charts::put_charts;
use crate::counting::counted;
use crate::head::{put_document, put_heading, put_styles};
use crate::naming::Crew;
use crate::pilot::{Pilot, pilots_of};
use crate::row::put_rows;
use crate::script::SCRIPT;
use crate::strip::put_day_heads;
use crate::style::LEGEND;
use crate::trips::{put_open, put_trips};
use duty_calendar::{Base, List, Memory, Rules};
use page_parts::{FileSum, Html, put_foot};
use roster_model::{Problem, Reasons, Roster};
use std::alloc::Global;

/// How many bytes the longest name of a pilot has, 24 at most: what is longer is cut short in the roster.
fn longest_name(pilots: &[Pilot]) -> u32 {
    let mut longest = 0;
    for pilot in pilots {
        longest = counted(pilot.shown.len()).max(longest);
    }
    longest.min(24)
}

/// Appends the head of the roster's table.
fn put_table_head(html: &mut Html, rules: &Rules, pilots: &[Pilot]) -> Result<(), Memory> {
    html.markup(b"<table class=\"roster sort\" aria-label=\"Roster\" style=\"--n:")?;
    html.number(longest_name(pilots))?;
    html.markup(b"\">\n<thead><tr>\n<th scope=\"col\" class=\"n k\">Pilot</th>\n")?;
    html.markup(
        b"<th scope=\"col\" class=\"c r k\">Credit</th>\n<th scope=\"col\" class=\"s r k\">Score</th>\n",
    )?;
    html.markup(
        b"<th scope=\"col\" class=\"v r k\" title=\"bids granted and denied\">Bids<br>yes / no</th>\n",
    )?;
    html.markup(
        b"<th scope=\"col\" class=\"f r k\">Days<br>off</th>\n<th scope=\"col\" class=\"l\">",
    )?;
    put_day_heads(html, &rules.horizon)?;
    html.markup(b"</th>\n</tr></thead>\n<tbody>\n")
}

/// Appends the roster: its legend, and a row for each pilot.
fn put_roster(html: &mut Html, rules: &Rules, pilots: &[Pilot]) -> Result<(), Memory> {
    html.markup(LEGEND)?;
    html.markup(b"<div class=\"sheet\">\n")?;
    put_table_head(html, rules, pilots)?;
    put_rows(html, &rules.horizon, pilots)?;
    html.markup(b"</tbody>\n</table>\n</div>\n")
}

/// Appends what stands below the roster: a card for each pilot, what is otherwise than in another roster, the trips and the open
/// ones.
fn put_parts(
    html: &mut Html,
    base: &Base,
    pilots: &[Pilot],
    beside: &Beside<'_>,
) -> Result<(), Memory> {
    let crew = Crew {
        members: base.members.as_slice(),
        names: beside.names,
    };
    put_cards(html, &base.rules.horizon, &crew, pilots)?;
    if let Some(changes) = &beside.changes {
        put_changes(html, beside.names, changes)?;
    }
    put_trips(html, base, pilots)?;
    put_open(html, base, pilots)
}

/// The page of a month: the roster as strips, below it a card for each pilot, the trips, the open ones, charts, and the
/// sums of the files. It is one file of HTML, which names no other, and is whole without its script.
pub fn print_page(
    alloc: Global,
    problem: &Problem,
    roster: &Roster,
    reasons: &Reasons,
    sums: &[FileSum],
    beside: &Beside<'_>,
) -> Result<List<u8>, Memory>
    requires lines { length roster.now ≡ length problem.now.base.members }
    requires in_range { All (All (λ p. p < length problem.now.base.pairings)) roster.now }
{
    let mut html = Html::new(alloc);
    let pilots = pilots_of(alloc, problem, roster, reasons.as_slice(), beside.names)?;
    put_document(&mut html, &problem.base.rules)?;
    put_styles(&mut html, &problem.base.rules.horizon, b"")?;
    put_heading(&mut html, &problem.base, beside.changes.is_some())?;
    put_roster(&mut html, &problem.base.rules, &pilots)?;
    put_parts(&mut html, &problem.base, &pilots, beside)?;
    put_charts(alloc, &mut html, &pilots)?;
    html.markup(
        b"<p>This page shows what stands in the files of a folder. Whether that is the award is what <code>pbs FOLDER check</code> says.</p>\n",
    )?;
    html.markup(SCRIPT)?;
    put_foot(alloc, &mut html, sums, beside.built)?;
    Ok(html.into_bytes())
}
