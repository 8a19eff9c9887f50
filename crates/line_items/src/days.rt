//! Days of the month that are busy, as bits: bit 0 is the first day.
ghost use Rattle.std.specs.Prelude.{◌≡◌, ◌<◌, ◌≤◌, ◌-◌, ℕ, length};
ghost use Rattle.duty_calendar.specs.Calendar.{month_days};
ghost use Rattle.duty_calendar.specs.Minutes.{is_duty, is_touching};
ghost use Rattle.roster_model.specs.Spans.{event_span};
ghost use Rattle.line_items.specs.BusyDays.{is_fixed_busy, fixed_busy_days};
ghost use Rattle.line_items.specs.DayMasks.{IsDayMask};

use crate::member::{event_span, fixed_of, is_duty};
use duty_calendar::Interval;
use lens_classes::Terms;
use roster_model::{Lens, Problem};

/// Whether the span has a minute of the day.
fn is_touching(span: Interval, day: u32) -> bool
    requires near { day < 400 }
    ensures touching { result ≡ is_touching span day }
{
    span.start < 1440 * (day + 1) && 1440 * day < span.stop
}

/// The days that a span touches, in a month of so many days.
pub fn touched_days(days: u32, span: Interval) -> u32
    requires few { days ≤ 31 }
    ensures touched { IsDayMask days (is_touching span) result }
{
    let mut mask = 0;
    for place in 0..days {
        if is_touching(span, 365 + place) {
            mask |= 1 << place;
        }
    }
    mask
}

/// The days that are busy without any pairing.
pub fn fixed_days(problem: &Problem, member: u32) -> u32
    requires member { member < length problem.now.base.members }
    ensures busy { IsDayMask (month_days problem.now.base.rules.horizon)
        (is_fixed_busy problem.now member) result }
{
    let days = problem.base.rules.horizon.days();
    let mut mask = 0;
    for event in fixed_of(problem, member) {
        if is_duty(event) {
            mask |= touched_days(days, event_span(event));
        }
    }
    mask
}

/// How many days are busy without any pairing, where the lens looks at days.
pub fn fixed_busy_days(problem: &Problem, member: u32, lens: &Lens) -> u32
    requires member { member < length problem.now.base.members }
    ensures count { result ≡ fixed_busy_days problem.now member lens.now }
{
    if lens.days {
        fixed_days(problem, member).count_ones()
    } else {
        0
    }
}

/// How many days of the month may be busy by the terms.
pub fn busy_cap(problem: &Problem, terms: &Terms) -> u32
    ensures cap { result ≡ month_days problem.now.base.rules.horizon - terms.now.days_off }
{
    problem
        .base
        .rules
        .horizon
        .days()
        .saturating_sub(terms.days_off)
}
