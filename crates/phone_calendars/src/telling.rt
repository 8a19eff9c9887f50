//! Times in words: by the clock of the base, and beside it in UTC.

use duty_calendar::{Horizon, Memory};
use file_places::{Prose, put_date};

/// The day of UTC beside a minute of the base, where it is another one.
fn other_day(horizon: &Horizon, minute: u32) -> &'static [u8] {
    let of_day = i64::from(minute % 1440).saturating_sub(i64::from(horizon.offset()));
    if of_day < 0 {
        return b" the day before";
    }
    if of_day >= 1440 {
        return b" the day after";
    }
    b""
}

/// Appends the clock of a minute at the base and in UTC.
pub fn put_clocks(prose: &mut Prose, horizon: &Horizon, minute: u32) -> Result<(), Memory> {
    prose.clock(minute)?;
    prose.say(b" base, ")?;
    prose.clock(horizon.moment_of(minute.min(horizon.end())).1)?;
    prose.say(b" UTC")?;
    prose.say(other_day(horizon, minute))
}

/// Appends the clocks of a minute, with the date where its day is another one than the day that was said.
pub fn put_time(
    prose: &mut Prose,
    horizon: &Horizon,
    minute: u32,
    said: u32,
) -> Result<(), Memory> {
    let day = minute / 1440;
    if day != said {
        put_date(prose, horizon, day)?;
        prose.say(b", ")?;
    }
    put_clocks(prose, horizon, minute)
}
