//! Events by the next month's count.
ghost use Rattle.std.specs.Prelude.{◌≡◌, ◌≤◌, ◌++◌, ◌∷◌, [], map, IfOk, OnOk};
ghost use Rattle.duty_calendar.specs.Minutes.{is_duty};
ghost use Rattle.next_month.specs.Carrying.{all_carried, is_carried, carried_report, carried_flight, carried};

use duty_calendar::{Event, Flown, Kind, List, Memory};
use std::alloc::Global;

fn is_duty(kind: Kind) -> bool
    ensures value { result ≡ is_duty kind }
{
    match kind {
        Kind::Flight | Kind::Ground => true,
        Kind::Leave => false,
    }
}

/// Whether the next month still needs an event.
fn is_carried(event: &Event, lag: u32) -> bool
    requires short { lag ≤ 46320 }
    ensures value { result ≡ is_carried lag event.now }
{
    if is_duty(event.kind) {
        lag <= event.report
    } else {
        lag + 525_600 < event.release
    }
}

/// The report of an event that is carried.
fn carried_report(event: &Event, lag: u32) -> u32
    ensures value { result ≡ carried_report lag event.now }
{
    let report = event.report.saturating_sub(lag);
    if is_duty(event.kind) {
        report
    } else {
        report.max(525_600)
    }
}

fn carried_flight(flight: &Flown, lag: u32) -> Flown
    ensures value { result ≡ carried_flight lag flight.now }
{
    Flown {
        out_at: flight.out_at.saturating_sub(lag),
        in_at: flight.in_at.saturating_sub(lag),
    }
}

fn carried_flights(alloc: Global, flights: &[Flown], lag: u32) -> Result<List<Flown>, Memory>
    ensures value { IfOk result (λ made. made ≡ map (carried_flight lag) flights.now) }
{
    let mut made = List::new(alloc);
    for flight in flights {
        if made.push(carried_flight(flight, lag)).is_err() {
            return Err(Memory::NoMemory);
        }
    }
    Ok(made)
}

/// An event by the next month's count.
fn carried(alloc: Global, event: &Event, lag: u32) -> Result<Event, Memory>
    ensures value { IfOk result (λ made. made ≡ carried lag event.now) }
{
    Ok(Event {
        kind: event.kind,
        report: carried_report(event, lag),
        parked: event.parked.saturating_sub(lag),
        release: event.release.saturating_sub(lag),
        flights: carried_flights(alloc, event.flights.as_slice(), lag)?,
        credit: event.credit,
    })
}

/// Appends what is carried of an event.
pub fn push_carried(
    alloc: Global,
    out: &mut Vec<Event>,
    event: &Event,
    lag: u32,
) -> Result<(), Memory>
    requires short { lag ≤ 46320 }
    ensures more { OnOk result (out.new.items
        ≡ out.old.items ++ all_carried lag (event.now ∷ [])) }
{
    if is_carried(event, lag) {
        out.push(carried(alloc, event, lag)?)?;
    }
    Ok(())
}
