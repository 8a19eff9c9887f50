//! The fixed flights that each chain of a line graph visits beside pairings, and whether any line can pass.
ghost use Rattle.std.specs.Prelude.{◌≡◌, ◌+◌, ◌<◌, ◌≤◌, ◌++◌, ◌||◌, not, nat_le, IsErr, OnOk, filter, length, map, vec_capacity};
ghost use Rattle.duty_calendar.specs.Calendar.{month_days};
ghost use Rattle.duty_calendar.specs.Minutes.{is_flight};
ghost use Rattle.roster_model.specs.Spans.{event_span};
ghost use Rattle.roster_model.specs.Timelines.{fixed_of};
ghost use Rattle.line_items.specs.Items.{visited_flights, is_base_open};

use crate::clear::is_base_rested;
use crate::member::{event_span, fixed_of};
use duty_calendar::{Event, Interval, Kind, Memory};
use lens_classes::Terms;
use roster_model::{Lens, Problem};

/// Appends the spans of the events that are flights.
fn push_flights(out: &mut Vec<Interval>, events: &[Event]) -> Result<(), Memory>
    ensures more { OnOk result (out.new.items ≡ out.old.items ++ map event_span
        (filter (λ e. is_flight e.kind) events.now)) }
    ensures capacity { vec_capacity out.old ≤ vec_capacity out.new }
    ensures calm { length out.old.items + length events.now ≤ vec_capacity out.old → IsErr result
        → ⊥ }
{
    for event in events {
        if event.kind == Kind::Flight {
            out.push(event_span(event))?;
        }
    }
    Ok(())
}

/// Lists the spans of the fixed flights that each chain visits, in their order: none where the lens doesn't look at free
/// blocks. The flight of place k is the item that comes k behind the pairings.
pub fn fill_flights(
    spans: &mut Vec<Interval>,
    problem: &Problem,
    member: u32,
    lens: &Lens,
) -> Result<(), Memory>
    requires member { member < length problem.now.base.members }
    ensures spans { OnOk result (spans.new.items ≡ map event_span
        (visited_flights problem.now member lens.now)) }
    ensures capacity { vec_capacity spans.old ≤ vec_capacity spans.new }
    ensures calm { length (fixed_of problem.now member) ≤ vec_capacity spans.old → IsErr result
        → ⊥ }
{
    spans.clear();
    if lens.free30 {
        push_flights(spans, fixed_of(problem, member))?;
    }
    Ok(())
}

/// Whether the month has as many days as the terms want off, where the lens looks at days.
fn has_days(problem: &Problem, terms: &Terms, lens: &Lens) -> bool
    ensures days { result ≡ (not lens.now.days || nat_le terms.now.days_off
        (month_days problem.now.base.rules.horizon)) }
{
    !lens.days || terms.days_off <= problem.base.rules.horizon.days()
}

/// Whether any line can pass: the fixed flights have their rest, and the month has days enough.
pub fn is_base_open(problem: &Problem, member: u32, terms: &Terms, lens: &Lens) -> bool
    requires member { member < length problem.now.base.members }
    ensures base { result ≡ is_base_open problem.now member lens.now terms.now }
{
    is_base_rested(problem, member) && has_days(problem, terms, lens)
}
