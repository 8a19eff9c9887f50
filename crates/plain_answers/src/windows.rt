//! What stands in the window of a rule that a line breaks, and by how much it is passed.

use crate::stints::{Stint, stints_of};
use duty_calendar::{Event, Horizon, Interval, Kind, Member, Memory};
use field_text::kind_word;
use file_places::{Prose, put_stretch};
use line_legality::Illegal;
use roster_model::{Problem, pairing_span};
use std::alloc::Global;

/// What a window counts.
#[derive(Clone, Copy)]
enum Counts {
    Flying,
    Duty,
    /// What is duty, without a count.
    Stretches,
}

/// A window: from a minute to another, what it counts, and the most that it may hold.
#[derive(Clone, Copy)]
struct Window {
    from: u32,
    to: u32,
    counts: Counts,
    most: u32,
}

/// The minutes that a window counts of a stint.
fn minutes_of(window: Window, stint: &Stint<'_>) -> u32 {
    match window.counts {
        Counts::Flying => stint.flying(window.from, window.to),
        Counts::Duty => stint.on_duty(window.from, window.to),
        Counts::Stretches => 0,
    }
}

/// Whether a stint stands in a window.
fn stands_in(window: Window, stint: &Stint<'_>) -> bool {
    match window.counts {
        Counts::Flying | Counts::Duty => minutes_of(window, stint) > 0,
        Counts::Stretches => stint.is_in(window.from, window.to),
    }
}

/// Appends what a stint is and when.
fn put_stint(prose: &mut Prose, horizon: &Horizon, stint: &Stint<'_>) -> Result<(), Memory> {
    prose.say(b"    ")?;
    prose.text(stint.name)?;
    if stint.number > 0 {
        prose.say(b", duty ")?;
        prose.number(u64::from(stint.number))?;
    }
    prose.say(b": ")?;
    put_stretch(prose, horizon, stint.report, stint.release)
}

/// Appends what a window counts of a stint.
fn put_counted(prose: &mut Prose, window: Window, stint: &Stint<'_>) -> Result<(), Memory> {
    match window.counts {
        Counts::Flying => {
            prose.say(b", flying ")?;
            prose.hours(minutes_of(window, stint))?;
        }
        Counts::Duty => {
            prose.say(b", flight duty ")?;
            prose.hours(minutes_of(window, stint))?;
        }
        Counts::Stretches => {}
    }
    prose.say(b"\n")
}

/// Appends the stints of a window. The answer is what the window counts in all.
fn put_stints(
    prose: &mut Prose,
    horizon: &Horizon,
    window: Window,
    stints: &[Stint<'_>],
) -> Result<u32, Memory> {
    let mut total: u32 = 0;
    for stint in stints {
        if stands_in(window, stint) {
            put_stint(prose, horizon, stint)?;
            put_counted(prose, window, stint)?;
            total = total.saturating_add(minutes_of(window, stint));
        }
    }
    Ok(total)
}

/// Appends by how much a total passes what a window may hold.
fn put_passed(prose: &mut Prose, total: u32, most: u32) -> Result<(), Memory> {
    prose.say(b"    in all ")?;
    prose.hours(total)?;
    if total <= most {
        return prose.say(b": the files have changed since the line was printed\n");
    }
    prose.say(b", that is ")?;
    prose.hours(total.saturating_sub(most))?;
    prose.say(b" too much\n")
}

/// The window of duty before a report and of the report itself.
fn before(report: u32, minutes: u32) -> Window {
    Window {
        from: report.saturating_sub(minutes),
        to: report.saturating_add(1),
        counts: Counts::Stretches,
        most: 0,
    }
}

/// The window of so many minutes from a minute on.
fn from(start: u32, minutes: u32, counts: Counts, most: u32) -> Window {
    Window {
        from: start,
        to: start.saturating_add(minutes),
        counts,
        most,
    }
}

/// The first minute of the 365 days that end with a day.
fn year_start(day: u32) -> u32 {
    day.saturating_sub(364).saturating_mul(1440)
}

/// The window of a rule on duty.
fn window_of(why: Illegal) -> Option<Window> {
    match why {
        Illegal::Rest(at) => Some(before(at, 600)),
        Illegal::Free30(at) | Illegal::Night(at) => Some(before(at, 10_080)),
        Illegal::Flight672(at) => Some(from(at, 40_320, Counts::Flying, 6_000)),
        Illegal::Duty168(at) => Some(from(at, 10_080, Counts::Duty, 3_600)),
        Illegal::Duty672(at) => Some(from(at, 40_320, Counts::Duty, 11_400)),
        Illegal::Flight365(day) => Some(from(year_start(day), 525_600, Counts::Flying, 60_000)),
        Illegal::NoMemory | Illegal::Overlap(_) | Illegal::Credit(_) | Illegal::DaysOff(_) => None,
    }
}

/// Whether a window has a count.
fn has_count(window: Window) -> bool {
    matches!(window.counts, Counts::Flying | Counts::Duty)
}

/// Appends what stands in the window of a rule.
fn put_window(
    prose: &mut Prose,
    horizon: &Horizon,
    why: Illegal,
    stints: &[Stint<'_>],
) -> Result<(), Memory> {
    let Some(window) = window_of(why) else {
        return Ok(());
    };
    let total = put_stints(prose, horizon, window, stints)?;
    if has_count(window) {
        put_passed(prose, total, window.most)?;
    }
    Ok(())
}

/// The last release of duty before a minute, where there is one.
fn last_release(stints: &[Stint<'_>], before: u32) -> Option<u32> {
    let mut last: Option<u32> = None;
    for stint in stints {
        if stint.kind != Kind::Leave && stint.report < before {
            last = Some(last.unwrap_or(0).max(stint.release.min(before)));
        }
    }
    last
}

/// Appends by how much a stretch is shorter than it must be.
fn put_lack(prose: &mut Prose, stretch: u32, least: u32) -> Result<(), Memory> {
    if stretch >= least {
        return prose.say(b": the files have changed since the line was printed\n");
    }
    prose.say(b", that is ")?;
    prose.hours(least.saturating_sub(stretch))?;
    prose.say(b" too little\n")
}

/// Appends how long the rest before a report is.
fn put_rest(prose: &mut Prose, stints: &[Stint<'_>], report: u32) -> Result<(), Memory> {
    let Some(release) = last_release(stints, report) else {
        return Ok(());
    };
    let rest = report.saturating_sub(release);
    prose.say(b"    the rest before it is ")?;
    prose.hours(rest)?;
    put_lack(prose, rest, 600)
}

/// The longest stretch without duty between two minutes.
fn longest_free(stints: &[Stint<'_>], from: u32, to: u32) -> u32 {
    let mut free_from = from;
    let mut longest: u32 = 0;
    for stint in stints {
        if stint.is_in(from, to) {
            longest = longest.max(stint.report.saturating_sub(free_from));
            free_from = free_from.max(stint.release);
        }
    }
    longest.max(to.saturating_sub(free_from))
}

/// Appends how long the longest free stretch before a report is.
fn put_free(prose: &mut Prose, stints: &[Stint<'_>], report: u32) -> Result<(), Memory> {
    let free = longest_free(stints, report.saturating_sub(10_080), report);
    prose.say(b"    the longest stretch without duty before it is ")?;
    prose.hours(free)?;
    put_lack(prose, free, 1_800)
}

/// Appends the window of credit of a pilot.
fn put_credit_window(prose: &mut Prose, member: &Member, credit: u32) -> Result<(), Memory> {
    prose.say(b"    low is ")?;
    prose.hours(member.low)?;
    prose.say(b" and high is ")?;
    prose.hours(member.high)?;
    if credit < member.low {
        prose.say(b": ")?;
        prose.hours(member.low.saturating_sub(credit))?;
        return prose.say(b" too little\n");
    }
    prose.say(b": ")?;
    prose.hours(credit.saturating_sub(member.high))?;
    prose.say(b" too much\n")
}

/// Appends how many days off are due.
fn put_due(prose: &mut Prose, problem: &Problem, count: u32) -> Result<(), Memory> {
    let due = problem.base.rules.days_off;
    prose.say(b"    days_off is ")?;
    prose.number(u64::from(due))?;
    prose.say(b": ")?;
    prose.number(u64::from(due.saturating_sub(count)))?;
    prose.say(b" too few\n")
}

/// Appends a name, where its stretch holds a minute.
fn put_held(
    prose: &mut Prose,
    horizon: &Horizon,
    name: &[u8],
    span: Interval,
    at: u32,
) -> Result<(), Memory> {
    if at < span.start || span.stop <= at {
        return Ok(());
    }
    prose.say(b"    ")?;
    prose.text(name)?;
    prose.say(b": ")?;
    put_stretch(prose, horizon, span.start, span.stop)?;
    prose.say(b"\n")
}

/// Appends the fixed rows that hold a minute.
fn put_held_events(
    prose: &mut Prose,
    horizon: &Horizon,
    events: &[Event],
    at: u32,
) -> Result<(), Memory> {
    for event in events {
        let span = Interval {
            start: event.report,
            stop: event.release,
        };
        put_held(prose, horizon, kind_word(event.kind), span, at)?;
    }
    Ok(())
}

/// Appends the trips of a line that hold a minute, from the first report to the last release.
fn put_held_trips(
    prose: &mut Prose,
    problem: &Problem,
    line: &[u32],
    at: u32,
) -> Result<(), Memory> {
    let horizon = &problem.base.rules.horizon;
    for number in line {
        if let Some(trip) = problem.base.pairings.as_slice().get(*number as usize) {
            put_held(prose, horizon, trip.name.bytes(), pairing_span(trip), at)?;
        }
    }
    Ok(())
}

/// Appends what lies in one minute.
fn put_overlap(
    prose: &mut Prose,
    problem: &Problem,
    member: usize,
    line: &[u32],
    at: u32,
) -> Result<(), Memory> {
    put_held_trips(prose, problem, line, at)?;
    match problem.base.members.as_slice().get(member) {
        Some(known) => put_held_events(
            prose,
            &problem.base.rules.horizon,
            known.fixed.as_slice(),
            at,
        ),
        None => Ok(()),
    }
}

/// Appends by how much a rule without a count is passed.
fn put_more(
    prose: &mut Prose,
    problem: &Problem,
    member: usize,
    why: Illegal,
    stints: &[Stint<'_>],
) -> Result<(), Memory> {
    match why {
        Illegal::Rest(report) => put_rest(prose, stints, report),
        Illegal::Free30(report) => put_free(prose, stints, report),
        Illegal::DaysOff(count) => put_due(prose, problem, count),
        Illegal::Credit(credit) => match problem.base.members.as_slice().get(member) {
            Some(known) => put_credit_window(prose, known, credit),
            None => Ok(()),
        },
        _ => Ok(()),
    }
}

/// Appends what stands in the window of the rule that a line of a pilot, by place from 0, breaks: each duty with its times,
/// and by how much the rule is passed.
pub fn put_reasons(
    alloc: Global,
    prose: &mut Prose,
    problem: &Problem,
    member: usize,
    line: &[u32],
    why: Illegal,
) -> Result<(), Memory> {
    let stints = stints_of(alloc, problem, member, line)?;
    if let Illegal::Overlap(at) = why {
        return put_overlap(prose, problem, member, line, at);
    }
    put_window(prose, &problem.base.rules.horizon, why, &stints)?;
    put_more(prose, problem, member, why, &stints)
}
