//! The charts of the page: how much of their bids pilots got, where their credit stands, and why bids were denied.

use crate::counting::counted;
use crate::pilot::Pilot;
use duty_calendar::Memory;
use page_parts::{Bar, Html, put_bars, put_dots};
use roster_model::Cause;
use std::alloc::Global;

/// Why bids are denied, as they are counted.
#[derive(Clone, Copy, Debug, PartialEq, Eq)]
pub enum Ground {
    /// Another roster with the same scores grants the bid.
    Tie,
    /// No legal roster grants it.
    Never,
    /// It would cost other bids of the pilot.
    Own,
    /// It would cost somebody before the pilot.
    Senior,
    /// The file of reasons has none.
    Untold,
}

impl Ground {
    /// The ground of a bid of the pilot at a place.
    pub fn of(cause: Option<Cause>, own: u32) -> Ground {
        match cause {
            None => Ground::Untold,
            Some(Cause::Tie) => Ground::Tie,
            Some(Cause::Place(0)) => Ground::Never,
            Some(Cause::Place(place)) if place == own => Ground::Own,
            Some(Cause::Place(_)) => Ground::Senior,
        }
    }

    /// What it says.
    pub fn words(self) -> &'static [u8] {
        match self {
            Ground::Tie => b"tie",
            Ground::Never => b"no legal roster",
            Ground::Own => b"own bids that weigh more",
            Ground::Senior => b"a senior pilot's bids",
            Ground::Untold => b"no reason in the file",
        }
    }
}

/// All grounds.
pub static GROUNDS: [Ground; 5] = [
    Ground::Tie,
    Ground::Never,
    Ground::Own,
    Ground::Senior,
    Ground::Untold,
];

/// How many bids of a pilot are denied on a ground.
fn count_in(pilot: &Pilot, ground: Ground) -> u32 {
    let mut count: u32 = 0;
    for bid in &pilot.bids {
        if !bid.granted && Ground::of(bid.cause, pilot.place) == ground {
            count = count.saturating_add(1);
        }
    }
    count
}

/// How many bids are denied on a ground.
pub fn count_denied(pilots: &[Pilot], ground: Ground) -> u32 {
    let mut count: u32 = 0;
    for pilot in pilots {
        count = count.saturating_add(count_in(pilot, ground));
    }
    count
}

/// How many bids there are.
pub fn count_bids(pilots: &[Pilot]) -> u32 {
    let mut count: u32 = 0;
    for pilot in pilots {
        count = count.saturating_add(counted(pilot.bids.len()));
    }
    count
}

/// Of each pilot the weight of the granted bids, and that of all.
fn weights<'a>(alloc: Global, pilots: &[Pilot<'a>]) -> Result<Vec<Bar<'a>>, Memory> {
    let mut bars = Vec::new(alloc);
    for pilot in pilots {
        bars.push(Bar {
            name: pilot.shown,
            part: pilot.score,
            whole: pilot.weight(),
        })?;
    }
    Ok(bars)
}

/// Of each pilot the credit above the least one, and the greatest above that, in minutes.
fn credits<'a>(alloc: Global, pilots: &[Pilot<'a>]) -> Result<Vec<Bar<'a>>, Memory> {
    let mut bars = Vec::new(alloc);
    for pilot in pilots {
        bars.push(Bar {
            name: pilot.shown,
            part: pilot.credit.saturating_sub(pilot.low),
            whole: pilot.high.saturating_sub(pilot.low),
        })?;
    }
    Ok(bars)
}

/// Of each ground how many bids are denied on it, of all that are denied.
fn grounds<'a>(alloc: Global, pilots: &[Pilot<'a>]) -> Result<Vec<Bar<'static>>, Memory> {
    let mut all: u32 = 0;
    for ground in GROUNDS {
        all = all.saturating_add(count_denied(pilots, ground));
    }
    let mut bars = Vec::new(alloc);
    for ground in GROUNDS {
        bars.push(Bar {
            name: ground.words(),
            part: count_denied(pilots, ground),
            whole: all,
        })?;
    }
    Ok(bars)
}

/// Appends how many bids are denied on each ground, below its column.
fn put_grounds(html: &mut Html, pilots: &[Pilot]) -> Result<(), Memory> {
    html.markup(b"<div class=\"grounds\">")?;
    for ground in GROUNDS {
        html.markup(b"<span><b>")?;
        html.number(count_denied(pilots, ground))?;
        html.markup(b"</b> ")?;
        html.markup(ground.words())?;
        html.markup(b"</span>")?;
    }
    html.markup(b"</div>")
}

/// Appends the charts.
pub fn put_charts(alloc: Global, html: &mut Html, pilots: &[Pilot]) -> Result<(), Memory> {
    html.markup(
        b"<h2 id=\"charts\">Charts</h2>\n<figure><figcaption>Granted weight over the weight of all bids, a column a pilot, the most senior at the left</figcaption>\n",
    )?;
    put_bars(
        html,
        b"Granted weight over bid weight by seniority",
        &weights(alloc, pilots)?,
    )?;
    html.markup(
        b"</figure>\n<figure><figcaption>Credit between its limits, the least at the foot (minutes above it)</figcaption>\n",
    )?;
    put_dots(
        html,
        b"Credit within its limits by seniority",
        &credits(alloc, pilots)?,
    )?;
    html.markup(b"</figure>\n<figure><figcaption>Denied bids by cause, ")?;
    html.number(count_bids(pilots))?;
    html.markup(b" bids in all</figcaption>\n")?;
    put_bars(html, b"Denied bids by cause", &grounds(alloc, pilots)?)?;
    put_grounds(html, pilots)?;
    html.markup(b"</figure>\n")
}
