//! What stands in a pilot's month.
ghost use Rattle.std.specs.Prelude.{◌<◌, All, length};

use duty_calendar::{Duty, Event, Interval, Kind, Memory};
use field_text::kind_word;
use roster_model::{Problem, pairing_span};
use std::alloc::Global;

/// What a bar stands for.
#[derive(Clone, Copy, PartialEq, Eq)]
pub enum Mark {
    Trip,
    Flight,
    Ground,
    Leave,
}

impl Mark {
    /// The mark of a fixed event.
    fn of(kind: Kind) -> Mark {
        match kind {
            Kind::Flight => Mark::Flight,
            Kind::Ground => Mark::Ground,
            Kind::Leave => Mark::Leave,
        }
    }

    /// The class of the bar.
    pub fn class(self) -> &'static [u8] {
        match self {
            Mark::Trip => b"t",
            Mark::Flight => b"f",
            Mark::Ground => b"g",
            Mark::Leave => b"l",
        }
    }
}

/// A trip, or a fixed event under the word of its kind. A fixed event has no duties.
#[derive(Clone, Copy)]
pub struct Entry<'a> {
    pub mark: Mark,
    pub span: Interval,
    pub name: &'a [u8],
    pub credit: u32,
    pub duties: &'a [Duty],
}

/// The entry of a trip.
fn trip(problem: &Problem, number: u32) -> Entry<'_>
    requires in_range { number < length problem.now.base.pairings }
{
    let pairing = &problem.base.pairings.as_slice()[number as usize];
    Entry {
        mark: Mark::Trip,
        span: pairing_span(pairing),
        name: pairing.name.bytes(),
        credit: pairing.credit,
        duties: pairing.duties.as_slice(),
    }
}

/// The entry of a fixed event.
fn fixed(event: &Event) -> Entry<'_> {
    Entry {
        mark: Mark::of(event.kind),
        span: Interval {
            start: event.report,
            stop: event.release,
        },
        name: kind_word(event.kind),
        credit: event.credit,
        duties: &[],
    }
}

/// Appends the trips of a line.
fn push_trips<'a>(
    entries: &mut Vec<Entry<'a>>,
    problem: &'a Problem,
    line: &[u32],
) -> Result<(), Memory>
    requires in_range { All (λ p. p < length problem.now.base.pairings) line.now }
{
    for number in line {
        entries.push(trip(problem, *number))?;
    }
    Ok(())
}

/// Appends fixed events.
fn push_fixed<'a>(entries: &mut Vec<Entry<'a>>, events: &'a [Event]) -> Result<(), Memory> {
    for event in events {
        entries.push(fixed(event))?;
    }
    Ok(())
}

/// What is fixed for a member.
fn fixed_of(problem: &Problem, member: u32) -> &[Event]
    requires member { member < length problem.now.base.members }
{
    problem.base.members.as_slice()[member as usize]
        .fixed
        .as_slice()
}

/// The trips of a member's line and what is fixed for the member, in order of time.
pub fn entries_of<'a>(
    alloc: Global,
    problem: &'a Problem,
    member: u32,
    line: &[u32],
) -> Result<Vec<Entry<'a>>, Memory>
    requires member { member < length problem.now.base.members }
    requires in_range { All (λ p. p < length problem.now.base.pairings) line.now }
{
    let mut entries = Vec::new(alloc);
    push_trips(&mut entries, problem, line)?;
    push_fixed(&mut entries, fixed_of(problem, member))?;
    entries.sort_by_key(|entry| entry.span.start)?;
    Ok(entries)
}
