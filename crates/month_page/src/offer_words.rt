//! What a pilot's page says of trades.
ghost use Rattle.std.specs.Prelude.{◌≡◌, ◌<◌, All, length};
ghost use Rattle.roster_model.specs.Rosters.{IsComplete};

use crate::naming::Crew;
use crate::offers::{gifts_of, is_complete, swaps_of, takes_of};
use duty_calendar::{Base, Memory};
use page_parts::Html;
use roster_model::{Problem, Roster};
use std::alloc::Global;
use trade_desk::Trade;

/// Appends the name of a pairing.
fn put_trip(html: &mut Html, base: &Base, pairing: u32) -> Result<(), Memory> {
    if let Some(pairing) = base.pairings.as_slice().get(pairing as usize) {
        html.text(pairing.name.bytes())?;
    }
    Ok(())
}

/// Appends the names of a pairing and of who has it, or will have it.
fn put_trip_of(
    html: &mut Html,
    base: &Base,
    crew: &Crew<'_>,
    pairing: u32,
    between: &'static [u8],
    member: u32,
) -> Result<(), Memory> {
    html.markup(b"<b>")?;
    put_trip(html, base, pairing)?;
    html.markup(b"</b>")?;
    html.markup(between)?;
    html.text(crew.shown(member))
}

/// Appends a trade, as a pilot sees it.
fn put_trade(
    html: &mut Html,
    base: &Base,
    crew: &Crew<'_>,
    own: u32,
    trade: Trade,
) -> Result<(), Memory> {
    html.markup(b"<li>")?;
    match trade {
        Trade::Move(giver, pairing, receiver) if giver == own => {
            put_trip_of(html, base, crew, pairing, b" to ", receiver)?;
        }
        Trade::Move(giver, pairing, _) => put_trip_of(html, base, crew, pairing, b" of ", giver)?,
        Trade::Swap(_, pairing, receiver, taken) => {
            put_trip(html, base, pairing)?;
            html.markup(b" for ")?;
            put_trip_of(html, base, crew, taken, b" of ", receiver)?;
        }
    }
    html.markup(b"</li>\n")
}

/// Appends trades below a heading.
fn put_list(
    html: &mut Html,
    base: &Base,
    crew: &Crew<'_>,
    own: u32,
    heading: &'static [u8],
    trades: &[Trade],
) -> Result<(), Memory> {
    html.markup(b"<details open><summary>")?;
    html.markup(heading)?;
    html.markup(b": ")?;
    html.count(trades.len())?;
    html.markup(b"</summary>\n<ul class=\"many\">\n")?;
    for trade in trades {
        put_trade(html, base, crew, own, *trade)?;
    }
    html.markup(b"</ul></details>\n")
}

/// Appends the trades of a member that would be taken on a complete roster.
fn put_offers(
    alloc: Global,
    html: &mut Html,
    problem: &Problem,
    crew: &Crew<'_>,
    roster: &Roster,
    member: u32,
) -> Result<(), Memory>
    requires complete { IsComplete problem.now roster.now }
{
    let base = &problem.base;
    let gifts = gifts_of(alloc, problem, roster, member)?;
    put_list(
        html,
        base,
        crew,
        member,
        b"Trips that somebody else could take",
        &gifts,
    )?;
    let takes = takes_of(alloc, problem, roster, member)?;
    put_list(
        html,
        base,
        crew,
        member,
        b"Trips of others that you could take",
        &takes,
    )?;
    let swaps = swaps_of(alloc, problem, roster, member)?;
    put_list(
        html,
        base,
        crew,
        member,
        b"Swaps that would be legal for both",
        &swaps,
    )
}

/// Appends what a member could trade today.
pub fn put_trades(
    alloc: Global,
    html: &mut Html,
    problem: &Problem,
    crew: &Crew<'_>,
    roster: &Roster,
    member: u32,
) -> Result<(), Memory>
    requires lines { length roster.now ≡ length problem.now.base.members }
    requires in_range { All (All (λ p. p < length problem.now.base.pairings)) roster.now }
{
    html.markup(
        b"<h2>Trades</h2>\n<p>What <code>pbs FOLDER trade</code> would take today, each by itself. Whether the other pilot agrees is another matter.</p>\n",
    )?;
    if is_complete(alloc, problem, roster)? {
        return put_offers(alloc, html, problem, crew, roster, member);
    }
    html.markup(b"<p>The roster is not complete, so nothing can be traded.</p>\n")
}
