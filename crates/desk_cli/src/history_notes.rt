//! What `history` says of what it wrote.

use crate::status::DeskStatus;
use duty_calendar::{Event, Horizon, Kind, Member, Memory, Name};
use file_places::{Prose, put_stretch};
use next_folder::RolledOver;

/// How many events the members have before the month.
fn count_history(members: &[Member]) -> u64 {
    let mut count: u64 = 0;
    for member in members {
        count = count.saturating_add(member.history.len() as u64);
    }
    count
}

/// Appends a line for each of some names, and says whether there is one.
fn put_names(prose: &mut Prose, names: &[Name], words: &'static [u8]) -> Result<bool, Memory> {
    for name in names {
        prose.text(name.bytes())?;
        prose.say(words)?;
    }
    Ok(!names.is_empty())
}

/// Appends what an event is.
fn put_event(prose: &mut Prose, horizon: &Horizon, event: &Event) -> Result<(), Memory> {
    match event.kind {
        Kind::Flight => prose.say(b"flight ")?,
        Kind::Ground => prose.say(b"ground ")?,
        Kind::Leave => prose.say(b"leave ")?,
    }
    put_stretch(prose, horizon, event.report, event.release)
}

/// Whether an event stands among others, with its times.
fn is_among(events: &[Event], event: &Event) -> bool {
    events.iter().any(|other| {
        other.kind == event.kind && other.report == event.report && other.release == event.release
    })
}

/// Appends a line for each event that this month carries into the next one and that is not among a member's there, and says
/// whether there is one.
fn put_lacking(
    prose: &mut Prose,
    horizon: &Horizon,
    member: &Member,
    taken: &Member,
) -> Result<bool, Memory> {
    let mut is_lacking = false;
    for event in member.fixed.as_slice() {
        if !is_among(taken.fixed.as_slice(), event) {
            prose.say(b"fixed.csv of the next month stays as it is, and lacks of ")?;
            prose.text(member.name.bytes())?;
            prose.say(b": ")?;
            put_event(prose, horizon, event)?;
            prose.say(b"\n")?;
            is_lacking = true;
        }
    }
    Ok(is_lacking)
}

/// Appends what the fixed events that are there lack, and says whether they lack something.
fn put_all_lacking(prose: &mut Prose, rolled: &RolledOver) -> Result<bool, Memory> {
    let mut is_lacking = false;
    for (place, taken) in rolled.taken.as_slice().iter().enumerate() {
        let Some(member) = rolled.members.as_slice().get(place) else {
            return Ok(true);
        };
        if put_lacking(prose, &rolled.rules.horizon, member, taken)? {
            is_lacking = true;
        }
    }
    Ok(is_lacking)
}

/// Appends how much was written, who is new and who is gone, and what fixed events lack.
pub fn put_rolled(prose: &mut Prose, rolled: &RolledOver) -> Result<DeskStatus, Memory> {
    prose.say(b"history ")?;
    prose.number(count_history(rolled.taken.as_slice()))?;
    prose.say(b"\n")?;
    let has_new = put_names(
        prose,
        rolled.newcomers.as_slice(),
        b" is new in crew.csv of the next month and has no history\n",
    )?;
    let has_gone = put_names(
        prose,
        rolled.leavers.as_slice(),
        b" is not in crew.csv of the next month\n",
    )?;
    let is_lacking = put_all_lacking(prose, rolled)?;
    if has_new || has_gone || is_lacking {
        return Ok(DeskStatus::Warned);
    }
    Ok(DeskStatus::Done)
}
