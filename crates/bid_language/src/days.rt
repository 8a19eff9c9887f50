//! Reading days of the month.
ghost use Rattle.std.specs.Prelude.{◌≡◌, ◌≤◌, pos};
ghost use Rattle.jiff.specs.Words.{epoch_day};
ghost use Rattle.field_text.specs.Fields.{day_field};
ghost use Rattle.bid_language.specs.Words.{Reads};
ghost use Rattle.bid_language.specs.Days.{one_of, in_month, day_in, day, not_before, later_day, last_day};

use crate::fault::{BidCode, Stop, Word};
use crate::keywords::is_text;
use crate::values::text_of;
use crate::words::{Spot, Words};
use duty_calendar::Horizon;
use field_text::read_day;
use jiff::civil::Date;

/// The day, where it is one of so many days of the month.
fn one_of(days: u32, day: u32) -> Option<u32>
    requires few { days ≤ 31 }
    ensures value { result ≡ one_of days (pos day) }
{
    if 365 <= day && day < 365 + days {
        Some(day)
    } else {
        None
    }
}

/// The number of the date's day, where it lies in the month.
fn in_month(horizon: &Horizon, date: Date) -> Option<u32>
    ensures value { result ≡ in_month horizon.now (epoch_day date) }
{
    let zero = horizon.date_of(0).to_plain().days_since_min();
    let days = date.to_plain().days_since_min();
    if days < zero {
        return None;
    }
    one_of(horizon.days(), days - zero)
}

/// The day of the month that a token names.
fn day_in(horizon: &Horizon, spot: &Spot) -> Option<u32>
    ensures value { result ≡ day_in horizon.now (day_field spot.now.text.now) }
{
    match read_day(text_of(spot)) {
        Ok(date) => in_month(horizon, date),
        Err(_) => None,
    }
}

/// A day of the month.
#[tactic(auto, unfolding(crate::specs::Days::day))]
pub fn day(horizon: &Horizon, words: &mut Words) -> Result<u32, Stop>
    ensures reads { Reads result (day horizon.now) words.old words.new }
{
    let spot = words.next(Word::Value)?;
    match day_in(horizon, &spot) {
        Some(day) => Ok(day),
        None => Err(spot.wrong(BidCode::Date)),
    }
}

fn not_before(first: u32, day: Option<u32>) -> Option<u32>
    ensures value { result ≡ not_before first day }
{
    match day {
        Some(day) => { if first <= day { Some(day) } else { None } }
        None => None,
    }
}

/// A day of the month that is not before the first one.
#[tactic(auto, unfolding(crate::specs::Days::later_day))]
fn later_day(horizon: &Horizon, first: u32, words: &mut Words) -> Result<u32, Stop>
    ensures reads { Reads result (later_day horizon.now first) words.old words.new }
{
    let spot = words.next(Word::Value)?;
    match not_before(first, day_in(horizon, &spot)) {
        Some(day) => Ok(day),
        None => Err(spot.wrong(BidCode::Date)),
    }
}

/// The last day of a stretch: the first one, where no other is named.
#[tactic(auto, unfolding(crate::specs::Days::last_day))]
pub fn last_day(horizon: &Horizon, first: u32, words: &mut Words) -> Result<u32, Stop>
    ensures reads { Reads result (last_day horizon.now first) words.old words.new }
{
    let Some(spot) = words.optional() else {
        return Ok(first);
    };
    if is_text(spot.text, b"to") {
        return later_day(horizon, first, words);
    }
    Err(spot.wrong(BidCode::Expected(Word::To)))
}
