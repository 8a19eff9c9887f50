//! Dates and times, by the clock of the base.

use crate::prose::Prose;
use duty_calendar::{Horizon, Memory, Weekday};

/// The name of a month, 1 to 12.
pub fn month_name(month: u32) -> &'static [u8] {
    match month {
        1 => b"January",
        2 => b"February",
        3 => b"March",
        4 => b"April",
        5 => b"May",
        6 => b"June",
        7 => b"July",
        8 => b"August",
        9 => b"September",
        10 => b"October",
        11 => b"November",
        _ => b"December",
    }
}

/// The name of a day of the week.
fn weekday_name(weekday: Weekday) -> &'static [u8] {
    match weekday {
        Weekday::Mon => b"Monday",
        Weekday::Tue => b"Tuesday",
        Weekday::Wed => b"Wednesday",
        Weekday::Thu => b"Thursday",
        Weekday::Fri => b"Friday",
        Weekday::Sat => b"Saturday",
        Weekday::Sun => b"Sunday",
    }
}

/// Appends the date of a day, counted from the first of the horizon.
pub fn put_date(prose: &mut Prose, horizon: &Horizon, day: u32) -> Result<(), Memory> {
    let date = horizon.date_of(day.min(372 + horizon.days()));
    prose.say(weekday_name(horizon.weekday(day.min(372 + horizon.days()))))?;
    prose.say(b", ")?;
    prose.say(month_name(u32::try_from(date.month()).unwrap_or(0)))?;
    prose.say(b" ")?;
    prose.number(u64::try_from(date.day()).unwrap_or(0))?;
    if date.year() != horizon.year() {
        prose.say(b", ")?;
        prose.number(u64::try_from(date.year()).unwrap_or(0))?;
    }
    Ok(())
}

/// Appends the date and the clock of a minute, counted from the first of the horizon.
pub fn put_moment(prose: &mut Prose, horizon: &Horizon, minute: u32) -> Result<(), Memory> {
    put_date(prose, horizon, minute / 1440)?;
    prose.say(b" at ")?;
    prose.clock(minute)
}

/// Appends when a stretch begins and ends. Where that is on one day, the day stands there once.
pub fn put_stretch(
    prose: &mut Prose,
    horizon: &Horizon,
    start: u32,
    stop: u32,
) -> Result<(), Memory> {
    put_moment(prose, horizon, start)?;
    prose.say(b" to ")?;
    if start / 1440 == stop / 1440 {
        return prose.clock(stop);
    }
    put_moment(prose, horizon, stop)
}
