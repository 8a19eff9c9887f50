//! What lies before the month, and what in it.
ghost use Rattle.std.specs.Prelude.{◌≡◌, ◌++◌, ◌∷◌, [], nat_le, nat_lt, filter, IfOk, OnOk};

use duty_calendar::{Event, List, Memory};
use std::alloc::Global;

/// The events before the month, and those in it or later.
#[derive(Drop)]
pub struct Parts {
    pub history: List<Event>,
    pub fixed: List<Event>,
}

/// Appends an event to its part.
fn put(parts: &mut Parts, event: Event) -> Result<(), Memory>
    ensures history { OnOk result (parts.new.history
        ≡ parts.old.history ++ filter (λ e. nat_lt e.report 525600) (event ∷ [])) }
    ensures fixed { OnOk result (parts.new.fixed
        ≡ parts.old.fixed ++ filter (λ e. nat_le 525600 e.report) (event ∷ [])) }
{
    let pushed = if event.report < 525_600 {
        parts.history.push(event)
    } else {
        parts.fixed.push(event)
    };
    if pushed.is_err() {
        return Err(Memory::NoMemory);
    }
    Ok(())
}

/// Parts events at the month's first minute, each part in their order.
pub fn part_events(alloc: Global, events: Vec<Event>) -> Result<Parts, Memory>
    ensures history { IfOk result (λ p. p.history
        ≡ filter (λ e. nat_lt e.report 525600) events.items) }
    ensures fixed { IfOk result (λ p. p.fixed
        ≡ filter (λ e. nat_le 525600 e.report) events.items) }
{
    let mut parts = Parts {
        history: List::new(alloc),
        fixed: List::new(alloc),
    };
    for event in events {
        put(&mut parts, event)?;
    }
    Ok(parts)
}
