//! A member of the next month.
ghost use Rattle.std.specs.Prelude.{◌≡◌, ◌+◌, ◌≤◌, ◌<◌, ◌++◌, All, AllPairs, IfOk, IfErr, Some, List as Sequence, length, slice_get};
ghost use Rattle.std.specs.List.Sorted.{IsPermutation};
ghost use Rattle.duty_calendar.specs.Calendar.{month_end, horizon_end};
ghost use Rattle.duty_calendar.specs.Checks.{IsMember};
ghost use Rattle.duty_calendar.specs.declared.horizon.Horizon.{Horizon as Month};
ghost use Rattle.next_month.specs.Causes.{HasFault, Spoils};
ghost use Rattle.duty_calendar.specs.declared.member.Member.{Member as Person};
ghost use Rattle.next_month.specs.Heirs.{IsHeir};

use crate::fault::HeirFault;
use crate::gathering::carried_by;
use crate::order::{are_apart, sort_events};
use crate::parts::{Parts, part_events};
use duty_calendar::{Copied, Event, Member};
use roster_model::{Problem, Roster};
use std::alloc::Global;

/// The parts of the events that are carried for the member at a place.
fn sound_parts(alloc: Global, events: Vec<Event>, place: u32) -> Result<Parts, HeirFault>
    requires last { All (λ e. e.report < e.release) events.items }
    ensures same { IfOk result (λ p. IsPermutation events.items (p.history ++ p.fixed)) }
    ensures apart { IfOk result (λ p. AllPairs (λ d e. d.release ≤ e.report)
        (p.history ++ p.fixed)) }
    ensures before { IfOk result (λ p. All (λ e. e.report < 525600) p.history) }
    ensures after { IfOk result (λ p. All (λ e. 525600 ≤ e.report) p.fixed) }
    ensures few_history { IfOk result (λ p. length p.history ≤ 500) }
    ensures few_fixed { IfOk result (λ p. length p.fixed ≤ 60) }
    ensures cause { IfErr result (Spoils place events.items) }
{
    let mut sorted = events;
    sort_events(&mut sorted)?;
    if !are_apart(sorted.as_slice()) {
        return Err(HeirFault::Overlap(place));
    }
    let parts = part_events(alloc, sorted)?;
    if parts.history.len() > 500 {
        return Err(HeirFault::LongHistory(place));
    }
    if parts.fixed.len() > 60 {
        return Err(HeirFault::LongFixed(place));
    }
    Ok(parts)
}

/// A member of the crew, with what this month leaves the member.
pub fn heir(
    alloc: Global,
    problem: &Problem,
    roster: &Roster,
    person: &Member,
    place: u32,
    lag: u32,
) -> Result<Member, HeirFault>
    requires short { lag ≤ 46320 }
    requires lines { length roster.now ≡ length problem.now.base.members }
    requires in_range { All (All (λ p. p < length problem.now.base.pairings)) roster.now }
    ensures heir { IfOk result (IsHeir problem.now roster.now lag person.now) }
    ensures valid { (next : Month)
        → horizon_end problem.now.base.rules.horizon ≤ lag + month_end next
        → IsMember next person.now → IfOk result (IsMember next) }
    ensures cause { (crew : Sequence Person) → slice_get crew place ≡ Some person.now
        → IfErr result (HasFault problem.now roster.now lag crew) }
{
    let name = person.name.copy(alloc)?;
    let events = carried_by(alloc, problem, roster, person.name.bytes(), lag)?;
    let Parts { history, fixed } = sound_parts(alloc, events, place)?;
    Ok(Member {
        name,
        low: person.low,
        high: person.high,
        history,
        fixed,
    })
}
