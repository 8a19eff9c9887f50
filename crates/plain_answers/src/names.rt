//! Pilots, trips and moments by the names that the month has for them.

use duty_calendar::{Horizon, Memory};
use file_places::{Prose, put_moment};
use roster_model::Problem;

/// Appends a pilot by number, from 1, with the name that the month has.
pub fn put_pilot(prose: &mut Prose, month: Option<&Problem>, number: u32) -> Result<(), Memory> {
    prose.say(b"pilot ")?;
    if let Some(problem) = month {
        let place = number.saturating_sub(1) as usize;
        if let Some(member) = problem.base.members.as_slice().get(place) {
            return prose.text(member.name.bytes());
        }
    }
    prose.say(b"number ")?;
    prose.number(u64::from(number))?;
    prose.say(b" of crew.csv")
}

/// Appends a trip by number, from 1, with the name that the month has.
pub fn put_trip(prose: &mut Prose, month: Option<&Problem>, number: u32) -> Result<(), Memory> {
    prose.say(b"pairing ")?;
    if let Some(problem) = month {
        let place = number.saturating_sub(1) as usize;
        if let Some(pairing) = problem.base.pairings.as_slice().get(place) {
            return prose.text(pairing.name.bytes());
        }
    }
    prose.say(b"number ")?;
    prose.number(u64::from(number))?;
    prose.say(b" of pairings.csv")
}

/// The horizon of the month, where it is known.
pub fn horizon_of(month: Option<&Problem>) -> Option<&Horizon> {
    match month {
        Some(problem) => Some(&problem.base.rules.horizon),
        None => None,
    }
}

/// Appends a minute, as a date and a clock where the month is known.
pub fn put_minute(prose: &mut Prose, month: Option<&Problem>, minute: u32) -> Result<(), Memory> {
    match horizon_of(month) {
        Some(horizon) => put_moment(prose, horizon, minute),
        None => {
            prose.say(b"minute ")?;
            prose.number(u64::from(minute))?;
            prose.say(b" (525600 is the first of the month)")
        }
    }
}
