//! Events in order.
ghost use Rattle.std.specs.Prelude.{◌≡◌, ◌≤◌, ◌<◌, All, AllPairs, OnOk, true, false};
ghost use Rattle.std.specs.List.Sorted.{IsPermutation, IsNonDecreasingBy};
ghost use Rattle.next_month.specs.Causes.{Overlaps};

use duty_calendar::{Event, Memory};

/// Puts events in the order of their reports.
pub fn sort_events(events: &mut Vec<Event>) -> Result<(), Memory>
    ensures moved { OnOk result (IsPermutation events.old.items events.new.items) }
    ensures sorted { OnOk result (IsNonDecreasingBy (λ e. e.report) events.new.items) }
{
    events.sort_by_key(|e| e.report)?;
    Ok(())
}

/// Whether no event begins before the one before it ends.
pub fn are_apart(events: &[Event]) -> bool
    requires sorted { IsNonDecreasingBy (λ e. e.report) events.now }
    requires last { All (λ e. e.report < e.release) events.now }
    ensures apart { result ≡ true → AllPairs (λ d e. d.release ≤ e.report) events.now }
    ensures overlap { result ≡ false → Overlaps events.now }
{
    let mut free = 0;
    for event in events {
        if event.report < free {
            return false;
        }
        free = event.release;
    }
    true
}
