//! Days on which nothing but leave stands.
ghost use Rattle.std.specs.Prelude.{◌≡◌, ◌<◌, ◌&&◌, false, length, not, All};
ghost use Rattle.std.specs.List.{list_any};
ghost use Rattle.std.specs.Option.{option_map_or};
ghost use Rattle.std.specs.Prelude.{slice_get};
ghost use Rattle.duty_calendar.specs.Minutes.{is_duty};
ghost use Rattle.roster_model.specs.Scores.{is_touching_days, days_off};
ghost use Rattle.roster_model.specs.Spans.{event_span, pairing_span};
ghost use Rattle.roster_model.specs.Timelines.{busy};

use crate::fixed::fixed_of;
use duty_calendar::{Event, Interval, Kind};
use roster_model::{Line, Problem, pairing_span};

/// Whether the span has a minute of the days from the first to the last.
fn is_touching(first: u32, last: u32, span: Interval) -> bool
    ensures { result ≡ is_touching_days first last span }
{
    u64::from(span.start) < 1440 * (u64::from(last) + 1)
        && 1440 * u64::from(first) < u64::from(span.stop)
}

fn is_duty(kind: Kind) -> bool
    ensures { result ≡ is_duty kind }
{
    match kind {
        Kind::Flight | Kind::Ground => true,
        Kind::Leave => false,
    }
}

fn is_fixed_in(first: u32, last: u32, event: &Event) -> bool
    ensures { result ≡ (is_duty event.now.kind && is_touching_days first last
        (event_span event.now)) }
{
    let span = Interval {
        start: event.report,
        stop: event.release,
    };
    is_duty(event.kind) && is_touching(first, last, span)
}

fn some_fixed_in(events: &[Event], first: u32, last: u32) -> bool
    ensures { result ≡ list_any (λ e. is_duty e.kind && is_touching_days first last (event_span e))
        events.now }
{
    events.iter().any(|event| is_fixed_in(first, last, event))
}

fn is_flown_in(problem: &Problem, first: u32, last: u32, number: u32) -> bool
    requires known { number < length problem.now.base.pairings }
    ensures { result ≡ option_map_or (λ p. is_touching_days first last (pairing_span p))
        (slice_get problem.now.base.pairings number) false }
{
    let pairings = problem.base.pairings.as_slice();
    is_touching(first, last, pairing_span(&pairings[number as usize]))
}

fn some_flown_in(problem: &Problem, line: &[u32], first: u32, last: u32) -> bool
    requires known { All (λ p. p < length problem.now.base.pairings) line.now }
    ensures { result ≡ list_any (λ n. option_map_or
        (λ p. is_touching_days first last (pairing_span p))
        (slice_get problem.now.base.pairings n) false) line.now }
{
    line.iter()
        .any(|number| is_flown_in(problem, first, last, *number))
}

/// Whether nothing but leave touches the days from the first to the last.
#[tactic(auto, using(crate::proofs::BusyLemmas::busy_touched))]
pub fn is_free(problem: &Problem, member: u32, line: &[u32], first: u32, last: u32) -> bool
    requires member { member < length problem.now.base.members }
    requires known { All (λ p. p < length problem.now.base.pairings) line.now }
    ensures { result ≡ not (list_any (is_touching_days first last)
        (busy problem.now member line.now)) }
{
    if some_fixed_in(fixed_of(problem, member), first, last) {
        return false;
    }
    if some_flown_in(problem, line, first, last) {
        return false;
    }
    true
}

/// How many days of the month are days off.
#[tactic(auto, using(duty_calendar::proofs::Counting::counting))]
pub(crate) fn days_off_of(problem: &Problem, member: u32, line: &[u32]) -> u32
    requires member { member < length problem.now.base.members }
    requires known { All (λ p. p < length problem.now.base.pairings) line.now }
    ensures { result ≡ days_off problem.now member line.now }
{
    let mut count = 0;
    for day in 365..365 + problem.base.rules.horizon.days() {
        if is_free(problem, member, line, day, day) {
            count += 1;
        }
    }
    count
}

/// How many days of the month are days off: those that no pairing of the line touches, and nothing that is fixed but
/// leave.
pub fn days_off(problem: &Problem, member: u32, line: &Line) -> u32
    requires member { member < length problem.now.base.members }
    requires known { All (λ p. p < length problem.now.base.pairings) line.now }
    ensures value { result ≡ days_off problem.now member line.now }
{
    days_off_of(problem, member, line.pairings())
}
