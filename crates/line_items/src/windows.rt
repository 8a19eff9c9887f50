//! Minutes of pairings and of a member's own events in the windows of a lens.
ghost use Rattle.std.specs.Prelude.{◌≡◌, ◌≤◌, ◌<◌, ◌+◌, ℕ, All, AllPairs, List, length};
ghost use Rattle.std.specs.List.{list_any};
ghost use Rattle.duty_calendar.specs.declared.event.Event.{Event};
ghost use Rattle.duty_calendar.specs.Checks.{IsDuty};
ghost use Rattle.duty_calendar.specs.Events.{IsEvent, HasFlightsApart};
ghost use Rattle.duty_calendar.specs.Minutes.{is_between, is_flight, count_between};
ghost use Rattle.part117_limits.specs.Peaks.{has_counted, is_counted};
ghost use Rattle.roster_model.specs.declared.proof.Lens.{Lens};
ghost use Rattle.roster_model.specs.Spans.{duty_event};
ghost use Rattle.line_items.specs.Clear.{base_of, duties_of};
ghost use Rattle.line_items.specs.Items.{item_events};
ghost use Rattle.line_items.specs.WindowMinutes.{window_minutes, kind_limit, spread, base_usage};

use crate::member::{fixed_of, history_of, is_flight};
use duty_calendar::{Duty, Event, Flown, Leg, Pairing};
use part117_limits::Minutes;
use roster_model::{Lens, Problem, Window, WindowKind};

/// Which minutes a window counts, from `from` to `to - 1`.
#[derive(Clone, Copy)]
struct Counted {
    minutes: Minutes,
    from: u64,
    to: u64,
}

/// What a window counts.
fn counted_in(window: Window) -> Counted
    ensures order { result.from ≤ result.to }
    ensures width { result.to ≤ result.from + 525600 }
    ensures minutes { (events : List Event) → window_minutes events window ≡ count_between
        (is_counted result.minutes events) result.from result.to }
{
    let start = u64::from(window.start);
    match window.kind {
        WindowKind::Flight672 => Counted {
            minutes: Minutes::Flying,
            from: start,
            to: start + 40_320,
        },
        WindowKind::Duty672 => Counted {
            minutes: Minutes::Period,
            from: start,
            to: start + 40_320,
        },
        WindowKind::Duty168 => Counted {
            minutes: Minutes::Period,
            from: start,
            to: start + 10_080,
        },
        WindowKind::Flight365 => Counted {
            minutes: Minutes::Flying,
            from: 1440 * start.saturating_sub(364),
            to: 1440 * (start + 1),
        },
    }
}

/// How many minutes of a stretch are counted.
#[tactic(auto, using(part117_limits::proofs::Overlaps::stretch_in))]
fn stretch_minutes(start: u32, stop: u32, counted: Counted) -> u64
    requires order { counted.from ≤ counted.to }
    ensures count { result ≡ count_between (is_between start stop) counted.from counted.to }
{
    let first = u64::from(start).max(counted.from);
    u64::from(stop).min(counted.to).saturating_sub(first)
}

/// How many minutes of flights in order are counted.
fn flown_minutes(flights: &[Flown], counted: Counted) -> u64
    requires order { counted.from ≤ counted.to }
    requires in_order { AllPairs (λ f g. f.in_at ≤ g.out_at) flights.now }
    ensures count { result ≡ count_between (λ m. list_any
        (λ f. is_between f.out_at f.in_at m) flights.now) counted.from counted.to }
{
    let mut total = 0;
    for flown in flights {
        total += stretch_minutes(flown.out_at, flown.in_at, counted);
    }
    total
}

/// How many minutes of the flights of legs in order are counted.
fn leg_minutes(legs: &[Leg], counted: Counted) -> u64
    requires order { counted.from ≤ counted.to }
    requires in_order { AllPairs (λ k l. k.flown.in_at ≤ l.flown.out_at) legs.now }
    ensures count { result ≡ count_between (λ m. list_any
        (λ l. is_between l.flown.out_at l.flown.in_at m) legs.now) counted.from counted.to }
{
    let mut total = 0;
    for leg in legs {
        total += stretch_minutes(leg.flown.out_at, leg.flown.in_at, counted);
    }
    total
}

/// How many minutes of an event are counted.
fn event_minutes(event: &Event, counted: Counted) -> u64
    requires order { counted.from ≤ counted.to }
    requires form { IsEvent event.now }
    ensures count { result ≡ count_between (has_counted counted.minutes event.now) counted.from
        counted.to }
{
    match counted.minutes {
        Minutes::Flying => flown_minutes(event.flights.as_slice(), counted),
        Minutes::Period if is_flight(event) => {
            stretch_minutes(event.report, event.parked, counted)
        }
        Minutes::Period => 0,
    }
}

/// How many minutes of a duty are counted.
fn duty_minutes(duty: &Duty, counted: Counted) -> u64
    requires order { counted.from ≤ counted.to }
    requires form { IsDuty duty.now }
    ensures count { result ≡ count_between (has_counted counted.minutes (duty_event duty.now))
        counted.from counted.to }
{
    match counted.minutes {
        Minutes::Flying => leg_minutes(duty.legs.as_slice(), counted),
        Minutes::Period => stretch_minutes(duty.report, duty.parked, counted),
    }
}

/// How many minutes of events that do not overlap are counted.
fn events_minutes(events: &[Event], counted: Counted) -> u64
    requires order { counted.from ≤ counted.to }
    requires forms { All IsEvent events.now }
    requires apart { HasFlightsApart events.now }
    ensures count { result ≡ count_between (is_counted counted.minutes events.now) counted.from
        counted.to }
{
    let mut total = 0;
    for event in events {
        total += event_minutes(event, counted);
    }
    total
}

/// How many minutes of the duties of a pairing are counted.
fn duties_minutes(duties: &[Duty], counted: Counted) -> u64
    requires order { counted.from ≤ counted.to }
    requires forms { All IsDuty duties.now }
    requires in_order { AllPairs (λ d e. d.release + 600 ≤ e.report) duties.now }
    ensures count { result ≡ count_between (λ m. list_any
        (λ d. has_counted counted.minutes (duty_event d) m) duties.now) counted.from counted.to }
{
    let mut total = 0;
    for duty in duties {
        total += duty_minutes(duty, counted);
    }
    total
}

/// The minutes of a pairing in a window.
fn pairing_minutes(pairing: &Pairing, window: Window) -> u32
    requires forms { All IsDuty pairing.now.duties }
    requires in_order { AllPairs (λ d e. d.release + 600 ≤ e.report) pairing.now.duties }
    ensures minutes { result ≡ window_minutes (duties_of pairing.now) window }
{
    duties_minutes(pairing.duties.as_slice(), counted_in(window)) as u32
}

/// The minutes of a member's history and fixed events in a window.
fn base_minutes(problem: &Problem, member: u32, window: Window) -> u32
    requires member { member < length problem.now.base.members }
    ensures minutes { result ≡ window_minutes (base_of problem.now member) window }
{
    let counted = counted_in(window);
    let past = events_minutes(history_of(problem, member), counted);
    let coming = events_minutes(fixed_of(problem, member), counted);
    (past + coming) as u32
}

/// The limit of a window.
fn limit_of(kind: WindowKind) -> u32
    ensures limit { result ≡ kind_limit kind }
{
    match kind {
        WindowKind::Flight672 => 6_000,
        WindowKind::Duty672 => 11_400,
        WindowKind::Duty168 => 3_600,
        WindowKind::Flight365 => 60_000,
    }
}

/// The limit of each window, and 0 for the places that no window takes.
pub fn window_caps<const N: usize>(windows: &[Window]) -> [u32; N]
    ensures caps { result ≡ spread N (λ w. kind_limit w.kind) windows.now }
{
    let mut caps = [0; N];
    for k in 0..windows.len().min(N) {
        caps[k] = limit_of(windows[k].kind);
    }
    caps
}

/// What a member's history and fixed events take of each window.
pub fn base_usage<const N: usize>(problem: &Problem, member: u32, lens: &Lens) -> [u32; N]
    requires member { member < length problem.now.base.members }
    ensures usage { result ≡ base_usage N problem.now member lens.now }
{
    let windows = lens.windows.as_slice();
    let mut amounts = [0; N];
    for k in 0..windows.len().min(N) {
        amounts[k] = base_minutes(problem, member, windows[k]);
    }
    amounts
}

/// What a pairing takes of each window.
fn pairing_usage<const N: usize>(pairing: &Pairing, windows: &[Window]) -> [u32; N]
    requires forms { All IsDuty pairing.now.duties }
    requires in_order { AllPairs (λ d e. d.release + 600 ≤ e.report) pairing.now.duties }
    ensures usage { result ≡ spread N (window_minutes (duties_of pairing.now)) windows.now }
{
    let mut amounts = [0; N];
    for k in 0..windows.len().min(N) {
        amounts[k] = pairing_minutes(pairing, windows[k]);
    }
    amounts
}

/// What an item takes of each window: nothing, where it is no pairing.
pub fn item_usage<const N: usize>(problem: &Problem, lens: &Lens, item: u32) -> [u32; N]
    ensures usage { (member : ℕ) → result ≡ spread N
        (window_minutes (item_events problem.now member lens.now item)) lens.now.windows }
{
    let pairings = problem.base.pairings.as_slice();
    if item as usize >= pairings.len() {
        return [0; N];
    }
    pairing_usage(&pairings[item as usize], lens.windows.as_slice())
}
