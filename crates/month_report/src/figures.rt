//! The figures of an award.
ghost use Rattle.std.specs.Prelude.{◌≡◌, ◌<◌, All, length};

use crate::open::{OpenTrip, open_trips};
use crate::wanted::unwanted;
use duty_calendar::Memory;
use month_page::{Pilot, pilots_of};
use page_parts::FIRST_DAY;
use roster_model::{Problem, Reasons, Roster};
use staff_names::StaffNames;
use std::alloc::Global;

/// How many bids for days off have a day in them, and how many of these are granted. Days count from the first of the horizon.
#[derive(Clone, Copy)]
pub struct DayFigure {
    pub day: u32,
    pub wanted: u32,
    pub granted: u32,
}

/// The figures of an award. Pairings are numbers from 0.
#[derive(Drop)]
pub struct Figures<'a> {
    pub pilots: Vec<Pilot<'a>>,
    pub days: Vec<DayFigure>,
    pub unwanted: Vec<u32>,
    pub open: Vec<OpenTrip>,
}

/// Counts what a pilot wanted of a day.
fn count_pilot(figure: DayFigure, pilot: &Pilot) -> DayFigure {
    let mut figure = figure;
    for bid in &pilot.bids {
        let has_day = match bid.span {
            Some(span) => span.start / 1440 <= figure.day && figure.day < span.stop / 1440,
            None => false,
        };
        if bid.is_off && has_day {
            figure.wanted = figure.wanted.saturating_add(1);
            figure.granted = figure.granted.saturating_add(u32::from(bid.granted));
        }
    }
    figure
}

/// What all pilots wanted of a day.
fn day_figure(pilots: &[Pilot], day: u32) -> DayFigure {
    let mut figure = DayFigure {
        day,
        wanted: 0,
        granted: 0,
    };
    for pilot in pilots {
        figure = count_pilot(figure, pilot);
    }
    figure
}

/// What all pilots wanted of each day.
fn day_figures(alloc: Global, pilots: &[Pilot], days: u32) -> Result<Vec<DayFigure>, Memory> {
    let mut figures = Vec::new(alloc);
    for day in 0..days.min(31) {
        figures.push(day_figure(pilots, FIRST_DAY + day))?;
    }
    Ok(figures)
}

/// The figures of a roster with its reasons.
pub fn figures_of<'a>(
    alloc: Global,
    problem: &'a Problem,
    roster: &'a Roster,
    reasons: &Reasons,
    names: &'a StaffNames,
) -> Result<Figures<'a>, Memory>
    requires lines { length roster.now ≡ length problem.now.base.members }
    requires in_range { All (All (λ p. p < length problem.now.base.pairings)) roster.now }
{
    let pilots = pilots_of(alloc, problem, roster, reasons.as_slice(), names)?;
    let days = day_figures(alloc, &pilots, problem.base.rules.horizon.days())?;
    let open = open_trips(alloc, problem, &pilots)?;
    Ok(Figures {
        days,
        unwanted: unwanted(alloc, problem)?,
        open,
        pilots,
    })
}
