//! The rules of a line, in words.

use crate::names::{horizon_of, put_minute};
use duty_calendar::Memory;
use file_places::{Prose, put_date};
use line_legality::Illegal;
use roster_model::Problem;

/// Appends words before a minute, and the minute.
fn put_at(
    prose: &mut Prose,
    month: Option<&Problem>,
    words: &'static [u8],
    minute: u32,
) -> Result<(), Memory> {
    prose.say(words)?;
    put_minute(prose, month, minute)
}

/// Appends words before a window of so many minutes, and from when to when it goes.
fn put_from(
    prose: &mut Prose,
    month: Option<&Problem>,
    words: &'static [u8],
    start: u32,
    width: u32,
) -> Result<(), Memory> {
    put_at(prose, month, words, start)?;
    put_at(prose, month, b" to ", start.saturating_add(width))
}

/// Appends a day, as a date where the month is known.
fn put_day(prose: &mut Prose, month: Option<&Problem>, day: u32) -> Result<(), Memory> {
    match horizon_of(month) {
        Some(horizon) => put_date(prose, horizon, day),
        None => {
            prose.say(b"day ")?;
            prose.number(u64::from(day))?;
            prose.say(b" (365 is the first of the month)")
        }
    }
}

/// Appends the rule on the flying of a year.
fn put_year(prose: &mut Prose, month: Option<&Problem>, day: u32) -> Result<(), Memory> {
    prose.say(b"there are more than 1000 hours of flying in the 365 days that end with ")?;
    put_day(prose, month, day)
}

/// Appends the rule on credit.
fn put_credit(prose: &mut Prose, credit: u32) -> Result<(), Memory> {
    prose.say(b"the credit is ")?;
    prose.hours(credit)?;
    prose.say(b", which is not from low to high of crew.csv")
}

/// Appends the rule on days off.
fn put_days_off(prose: &mut Prose, count: u32) -> Result<(), Memory> {
    prose.say(b"there are ")?;
    prose.number(u64::from(count))?;
    prose.say(b" days off, fewer than days_off of rules.toml")
}

/// Appends in which window of hours a line has too much, if it is that what it breaks.
fn put_window(prose: &mut Prose, month: Option<&Problem>, why: Illegal) -> Result<(), Memory> {
    match why {
        Illegal::Flight672(at) => put_from(
            prose,
            month,
            b"there are more than 100 hours of flying in the 672 hours from ",
            at,
            40_320,
        ),
        Illegal::Duty168(at) => put_from(
            prose,
            month,
            b"there are more than 60 hours of flight duty in the 168 hours from ",
            at,
            10_080,
        ),
        Illegal::Duty672(at) => put_from(
            prose,
            month,
            b"there are more than 190 hours of flight duty in the 672 hours from ",
            at,
            40_320,
        ),
        _ => Ok(()),
    }
}

/// Appends which rule a line breaks.
pub fn put_rule(prose: &mut Prose, month: Option<&Problem>, why: Illegal) -> Result<(), Memory> {
    match why {
        Illegal::NoMemory => prose.say(b"memory ran out"),
        Illegal::Overlap(at) => put_at(prose, month, b"two things lie in the same minute, ", at),
        Illegal::Rest(at) => put_at(
            prose,
            month,
            b"there are fewer than 10 hours without duty before the report on ",
            at,
        ),
        Illegal::Free30(at) => put_at(
            prose,
            month,
            b"no 30 hours in a row are without duty in the 168 hours before the report on ",
            at,
        ),
        Illegal::Flight672(_) | Illegal::Duty168(_) | Illegal::Duty672(_) => {
            put_window(prose, month, why)
        }
        Illegal::Flight365(day) => put_year(prose, month, day),
        Illegal::Credit(total) => put_credit(prose, total),
        Illegal::DaysOff(count) => put_days_off(prose, count),
        Illegal::Night(at) => put_at(
            prose,
            month,
            b"the fourth flight in a row with duty between 02:00 and 05:59 reports on ",
            at,
        ),
    }
}
