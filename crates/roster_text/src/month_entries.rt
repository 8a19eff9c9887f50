//! What stands on the days of a member's month.
ghost use Rattle.std.specs.Prelude.{◌≡◌, ◌++◌, ◌<◌, IfOk, OnOk, All, length, map, filter};
ghost use Rattle.roster_model.specs.Timelines.{fixed_of};
ghost use Rattle.roster_text.specs.MonthEntries.{pairing_entry, fixed_entry, entries_of, touches, in_time, entries_on};

use duty_calendar::{Event, Interval, Kind, Memory};
use roster_model::{Problem, pairing_span};
use std::alloc::Global;

/// What is written for an entry: the name of a pairing by its number, or the kind of a fixed event.
#[derive(Clone, Copy)]
pub enum Mark {
    Flown(u32),
    Fixed(Kind),
}

/// A pairing or a fixed event in a member's month.
#[derive(Clone, Copy)]
pub struct Entry {
    pub span: Interval,
    pub mark: Mark,
}

/// The entry of a pairing.
fn pairing_entry(problem: &Problem, pairing: u32) -> Entry
    requires in_range { pairing < length problem.now.base.pairings }
    ensures value { result ≡ pairing_entry problem.now pairing }
{
    Entry {
        span: pairing_span(&problem.base.pairings.as_slice()[pairing as usize]),
        mark: Mark::Flown(pairing),
    }
}

/// The entry of a fixed event.
fn fixed_entry(event: &Event) -> Entry
    ensures value { result ≡ fixed_entry event.now }
{
    let span = Interval {
        start: event.report,
        stop: event.release,
    };
    Entry {
        span,
        mark: Mark::Fixed(event.kind),
    }
}

/// Appends the pairings of a line.
fn push_pairings(out: &mut Vec<Entry>, problem: &Problem, line: &[u32]) -> Result<(), Memory>
    requires in_range { All (λ p. p < length problem.now.base.pairings) line.now }
    ensures more { OnOk result (out.new.items ≡ out.old.items
        ++ map (pairing_entry problem.now) line.now) }
{
    for pairing in line {
        out.push(pairing_entry(problem, *pairing))?;
    }
    Ok(())
}

/// Appends fixed events.
fn push_fixed(out: &mut Vec<Entry>, events: &[Event]) -> Result<(), Memory>
    ensures more { OnOk result (out.new.items ≡ out.old.items ++ map fixed_entry events.now) }
{
    for event in events {
        out.push(fixed_entry(event))?;
    }
    Ok(())
}

/// What is fixed for a member in the month.
fn fixed_of(problem: &Problem, member: u32) -> &[Event]
    requires member { member < length problem.now.base.members }
    ensures value { result.now ≡ fixed_of problem.now member }
{
    problem.base.members.as_slice()[member as usize]
        .fixed
        .as_slice()
}

/// The pairings of a line, and behind them what is fixed for the member.
fn entries_of(
    alloc: Global,
    problem: &Problem,
    member: u32,
    line: &[u32],
) -> Result<Vec<Entry>, Memory>
    requires member { member < length problem.now.base.members }
    requires in_range { All (λ p. p < length problem.now.base.pairings) line.now }
    ensures value { IfOk result (λ entries.
        entries.items ≡ entries_of problem.now member line.now) }
{
    let mut entries = Vec::new(alloc);
    push_pairings(&mut entries, problem, line)?;
    push_fixed(&mut entries, fixed_of(problem, member))?;
    Ok(entries)
}

/// Whether the entry has a minute of the day.
fn touches(day: u32, entry: Entry) -> bool
    ensures value { result ≡ touches day entry }
{
    u64::from(entry.span.start) < 1440 * (u64::from(day) + 1)
        && 1440 * u64::from(day) < u64::from(entry.span.stop)
}

/// The entries that touch the day.
fn touching(alloc: Global, entries: &[Entry], day: u32) -> Result<Vec<Entry>, Memory>
    ensures kept { IfOk result (λ kept. kept.items ≡ filter (touches day) entries.now) }
{
    let mut kept = Vec::new(alloc);
    for entry in entries {
        if touches(day, *entry) {
            kept.push(*entry)?;
        }
    }
    Ok(kept)
}

/// Puts entries in the order of their first minutes. Those that begin at one minute stay in order.
fn put_in_time(entries: &mut Vec<Entry>) -> Result<(), Memory>
    ensures sorted { OnOk result (entries.new.items ≡ in_time entries.old.items) }
{
    entries.sort_by_key(|entry| entry.span.start)?;
    Ok(())
}

/// The entries that touch a day, in order of time.
pub fn entries_on(
    alloc: Global,
    problem: &Problem,
    member: u32,
    line: &[u32],
    day: u32,
) -> Result<Vec<Entry>, Memory>
    requires member { member < length problem.now.base.members }
    requires in_range { All (λ p. p < length problem.now.base.pairings) line.now }
    ensures value { IfOk result (λ entries. entries.items
        ≡ entries_on problem.now member line.now day) }
{
    let all = entries_of(alloc, problem, member, line)?;
    let mut entries = touching(alloc, all.as_slice(), day)?;
    put_in_time(&mut entries)?;
    Ok(entries)
}
