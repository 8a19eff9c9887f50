//! The page of one pilot: the line, the bids with reasons, and what could be traded. It has the bids of nobody else.
ghost use Rattle.std.specs.Prelude.{◌≡◌, ◌≤◌, ◌<◌, All, IfSome, length};
ghost use Rattle.month_files.specs.FileNames.{limit_of};
ghost use Rattle.month_files.specs.Reading.{AreShort, view_texts};
ghost use Rattle.month_files.specs.declared.file.File.TheVariants.{Reasons as ReasonsFile};

use crate::beside::Beside;
use crate::bids::put_bids;
use crate::card::{put_entries, put_own_name, put_sums};
use crate::head::{put_clock, put_document, put_styles, put_title};
use crate::naming::Crew;
use crate::offer_words::put_trades;
use crate::page_stop::PageStop;
use crate::paging::{Seen, read_seen};
use crate::pilot::{Pilot, member_at, pilot_of};
use crate::strip::{put_day_heads, put_strip};
use crate::style::LEGEND;
use crate::sums::sums_of;
use duty_calendar::{List, Memory, Rules};
use month_files::read_month;
use page_parts::{Html, put_foot};
use roster_model::{Problem, Reasons, Roster};
use roster_text::{read_reasons, read_roster};
use shelf::Shelf;
use staff_names::StaffNames;
use std::alloc::Global;

/// The number of the member of this name.
fn member_named(problem: &Problem, name: &[u8]) -> Option<u32>
    ensures known { IfSome result (λ m. m < length problem.now.base.members) }
{
    for member in 0..problem.base.members.len() as u32 {
        if member_at(problem, member).name.bytes() == name {
            return Some(member);
        }
    }
    None
}

/// Appends the heading: the month and the pilot.
fn put_pilot_heading(html: &mut Html, rules: &Rules, pilot: &Pilot) -> Result<(), Memory> {
    html.markup(b"<header>\n<h1>")?;
    html.text(pilot.shown)?;
    put_own_name(html, pilot)?;
    html.markup(b", ")?;
    put_title(html, rules)?;
    html.markup(b"</h1>\n<p>Place ")?;
    html.number(pilot.place)?;
    html.markup(b" of seniority. ")?;
    put_clock(html, &rules.horizon)?;
    html.markup(b"</p>\n")?;
    put_sums(html, pilot)?;
    html.markup(b"</header>\n")
}

/// Appends the pilot's month as a strip.
fn put_month(html: &mut Html, rules: &Rules, pilot: &Pilot) -> Result<(), Memory> {
    html.markup(LEGEND)?;
    html.markup(b"<div class=\"own\">\n")?;
    put_day_heads(html, &rules.horizon)?;
    put_strip(html, &rules.horizon, pilot)?;
    html.markup(b"</div>\n<h2>Trips</h2>\n")?;
    put_entries(html, &rules.horizon, &pilot.entries)
}

/// Appends the body, up to the trades.
fn put_own(
    html: &mut Html,
    problem: &Problem,
    crew: &Crew<'_>,
    pilot: &Pilot,
) -> Result<(), Memory> {
    put_document(html, &problem.base.rules)?;
    html.markup(b", ")?;
    html.text(pilot.shown)?;
    put_styles(
        html,
        &problem.base.rules.horizon,
        b".many{columns:14rem;padding-left:1.2rem}\n",
    )?;
    put_pilot_heading(html, &problem.base.rules, pilot)?;
    put_month(html, &problem.base.rules, pilot)?;
    html.markup(b"<h2>Bids</h2>\n<section>\n")?;
    put_bids(html, crew, pilot)?;
    html.markup(b"</section>\n")
}

/// The page of a member, without its foot.
fn print_pilot(
    alloc: Global,
    problem: &Problem,
    roster: &Roster,
    reasons: &Reasons,
    names: &StaffNames,
    member: u32,
) -> Result<Html, Memory>
    requires member { member < length problem.now.base.members }
    requires lines { length roster.now ≡ length problem.now.base.members }
    requires in_range { All (All (λ p. p < length problem.now.base.pairings)) roster.now }
{
    let mut html = Html::new(alloc);
    let line = &roster.as_slice()[member as usize];
    let pilot = pilot_of(alloc, problem, reasons.as_slice(), names, member, line)?;
    let crew = Crew {
        members: problem.base.members.as_slice(),
        names,
    };
    put_own(&mut html, problem, &crew, &pilot)?;
    put_trades(alloc, &mut html, problem, &crew, roster, member)?;
    Ok(html)
}

/// A page with its foot.
fn with_foot(alloc: Global, page: Html, seen: &Seen, built: &[u8]) -> Result<List<u8>, Memory> {
    let mut html = page;
    put_foot(alloc, &mut html, &sums_of(alloc, seen)?, built)?;
    Ok(html.into_bytes())
}

/// The page of the member of this name, where there is one, in the month that was read.
fn pilot_page_of(
    alloc: Global,
    seen: &Seen,
    name: &[u8],
    beside: &Beside<'_>,
) -> Result<Option<List<u8>>, PageStop>
    requires short { AreShort (view_texts seen.now.texts) }
    requires limit { length seen.now.reasons.items ≤ limit_of ReasonsFile }
{
    let problem = read_month(alloc, &seen.texts)?;
    let roster = read_roster(alloc, &seen.roster, &problem)?;
    let reasons = read_reasons(alloc, &seen.reasons, &problem)?;
    let Some(member) = member_named(&problem, name) else {
        return Ok(None);
    };
    let page = print_pilot(alloc, &problem, &roster, &reasons, beside.names, member)?;
    Ok(Some(with_foot(alloc, page, seen, beside.built)?))
}

/// The page of the member of this name, where there is one, without what is otherwise. No file is written.
pub fn pilot_page<S: Shelf>(
    alloc: Global,
    shelf: &mut S,
    name: &[u8],
    beside: &Beside<'_>,
) -> Result<Option<List<u8>>, PageStop>
    ensures kept { S.holds shelf.new ≡ S.holds shelf.old }
{
    let seen = read_seen(alloc, shelf)?;
    pilot_page_of(alloc, &seen, name, beside)
}
