//! Dates and times on a page, by the clock of the base.
ghost use Rattle.std.specs.Prelude.{◌≤◌, ◌<◌, ◌+◌};
ghost use Rattle.duty_calendar.specs.Calendar.{month_days};

use crate::html::Html;
use duty_calendar::{Horizon, Interval, Memory, Weekday};
use file_places::month_name;

/// The first minute of the month.
pub const MONTH_START: u32 = 525_600;

/// The first day of the month.
pub const FIRST_DAY: u32 = 365;

/// The first three letters of a day of the week.
fn weekday_letters(weekday: Weekday) -> &'static [u8] {
    match weekday {
        Weekday::Mon => b"Mon",
        Weekday::Tue => b"Tue",
        Weekday::Wed => b"Wed",
        Weekday::Thu => b"Thu",
        Weekday::Fri => b"Fri",
        Weekday::Sat => b"Sat",
        Weekday::Sun => b"Sun",
    }
}

/// A day, counted from the first of the horizon; of a later day the last.
fn within(horizon: &Horizon, day: u32) -> u32
    ensures before { result ≤ 372 + month_days horizon.now }
{
    day.min(372 + horizon.days())
}

/// Appends the day of the week of a day, counted from the first of the horizon.
pub fn put_weekday(html: &mut Html, horizon: &Horizon, day: u32) -> Result<(), Memory> {
    html.markup(weekday_letters(horizon.weekday(within(horizon, day))))
}

/// Whether a day is a Saturday or a Sunday.
pub fn is_weekend(horizon: &Horizon, day: u32) -> bool {
    let weekday = horizon.weekday(within(horizon, day));
    matches!(weekday, Weekday::Sat | Weekday::Sun)
}

/// Appends the weekday, the day and the month of a day.
pub fn put_date(html: &mut Html, horizon: &Horizon, day: u32) -> Result<(), Memory> {
    let date = horizon.date_of(within(horizon, day));
    put_weekday(html, horizon, day)?;
    html.markup(b" ")?;
    html.number(u32::try_from(date.day()).unwrap_or(0))?;
    html.markup(b" ")?;
    html.markup(month_name(u32::try_from(date.month()).unwrap_or(0)))
}

/// Appends the date and the clock of a minute.
pub fn put_moment(html: &mut Html, horizon: &Horizon, minute: u32) -> Result<(), Memory> {
    put_date(html, horizon, minute / 1440)?;
    html.markup(b" ")?;
    html.clock(minute % 1440)
}

/// Appends when a stretch begins and ends. Where that is on one day, the day stands there once.
pub fn put_span(html: &mut Html, horizon: &Horizon, span: Interval) -> Result<(), Memory> {
    put_moment(html, horizon, span.start)?;
    html.markup(b" to ")?;
    if span.start / 1440 == span.stop / 1440 {
        return html.clock(span.stop % 1440);
    }
    put_moment(html, horizon, span.stop)
}
