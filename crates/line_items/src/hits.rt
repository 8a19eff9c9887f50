//! What a pairing, and what the member's own events, do to a bid that a lens tracks.
ghost use Rattle.std.specs.Prelude.{◌≡◌, ◌<◌, ◌&&◌, false, length, slice_get, map, filter};
ghost use Rattle.std.specs.List.{list_any};
ghost use Rattle.std.specs.Option.{option_map_or};
ghost use Rattle.duty_calendar.specs.Minutes.{is_duty};
ghost use Rattle.roster_model.specs.Lenses.{is_trackable};
ghost use Rattle.roster_model.specs.Scores.{is_touching_days};
ghost use Rattle.roster_model.specs.Spans.{event_span, pairing_span};
ghost use Rattle.roster_model.specs.Timelines.{fixed_of};
ghost use Rattle.line_items.specs.Hits.{is_hit, is_spoiled, is_wanting};

use crate::member::{event_span, fixed_of, is_duty};
use duty_calendar::{Event, Interval};
use roster_model::{Problem, Wish, holds, pairing_span};

/// Whether one pairing of a line can decide the wish.
pub fn is_trackable(wish: &Wish) -> bool
    ensures trackable { result ≡ is_trackable wish.now }
{
    match wish {
        Wish::Fly(_) | Wish::Avoid(_) | Wish::Off(_, _) => true,
        Wish::Prefer(least, _) => *least == 1,
        Wish::CreditBelow(_) | Wish::CreditAbove(_) | Wish::DaysOff(_) => false,
    }
}

/// Whether one pairing of the wish's kind grants it, and not spoils it.
pub(crate) fn is_wanting(wish: &Wish) -> bool
    ensures wanting { result ≡ is_wanting wish.now }
{
    match wish {
        Wish::Fly(_) | Wish::Prefer(_, _) => true,
        Wish::Avoid(_) | Wish::Off(_, _) => false,
        Wish::CreditBelow(_) | Wish::CreditAbove(_) | Wish::DaysOff(_) => false,
    }
}

/// Whether the span has a minute of the days from the first to the last.
fn is_touching(first: u32, last: u32, span: Interval) -> bool
    ensures touching { result ≡ is_touching_days first last span }
{
    u64::from(span.start) < 1440 * (u64::from(last) + 1)
        && 1440 * u64::from(first) < u64::from(span.stop)
}

/// Whether the pairing of this number has a minute of the days from the first to the last.
fn is_flown_in(problem: &Problem, first: u32, last: u32, number: u32) -> bool
    requires known { number < length problem.now.base.pairings }
    ensures flown { result ≡ option_map_or (λ p. is_touching_days first last (pairing_span p))
        (slice_get problem.now.base.pairings number) false }
{
    let pairings = problem.base.pairings.as_slice();
    is_touching(first, last, pairing_span(&pairings[number as usize]))
}

/// Whether the pairing of this number, from 0, is of the kind that the wish is about.
pub(crate) fn is_hit(problem: &Problem, wish: &Wish, pairing: u32) -> bool
    requires known { pairing < length problem.now.base.pairings }
    ensures hit { result ≡ is_hit problem.now wish.now pairing }
{
    match wish {
        Wish::Fly(wanted) => pairing == *wanted,
        Wish::Avoid(filter) => holds(problem, filter, pairing),
        Wish::Prefer(_, filter) => holds(problem, filter, pairing),
        Wish::Off(first, last) => is_flown_in(problem, *first, *last, pairing),
        Wish::CreditBelow(_) | Wish::CreditAbove(_) | Wish::DaysOff(_) => false,
    }
}

/// Whether the event is duty on one of the days from the first to the last.
fn is_duty_in(first: u32, last: u32, event: &Event) -> bool
    ensures duty { result ≡ (is_duty event.now.kind && is_touching_days first last
        (event_span event.now)) }
{
    is_duty(event) && is_touching(first, last, event_span(event))
}

/// Whether one of the events is duty on one of these days.
fn some_duty_in(events: &[Event], first: u32, last: u32) -> bool
    ensures some { result ≡ list_any (λ e. is_duty e.kind && is_touching_days first last
        (event_span e)) events.now }
{
    events.iter().any(|event| is_duty_in(first, last, event))
}

/// Whether the member's own events have duty on one of these days.
fn is_busy_in(problem: &Problem, member: u32, first: u32, last: u32) -> bool
    requires member { member < length problem.now.base.members }
    ensures busy { result ≡ list_any (is_touching_days first last)
        (map event_span (filter (λ e. is_duty e.kind) (fixed_of problem.now member))) }
{
    some_duty_in(fixed_of(problem, member), first, last)
}

/// Whether the member's own events spoil the wish.
pub(crate) fn is_spoiled(problem: &Problem, member: u32, wish: &Wish) -> bool
    requires member { member < length problem.now.base.members }
    ensures spoiled { result ≡ is_spoiled problem.now member wish.now }
{
    match wish {
        Wish::Off(first, last) => is_busy_in(problem, member, *first, *last),
        Wish::Fly(_) | Wish::Avoid(_) | Wish::Prefer(_, _) => false,
        Wish::CreditBelow(_) | Wish::CreditAbove(_) | Wish::DaysOff(_) => false,
    }
}
