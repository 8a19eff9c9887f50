//! Free blocks of 1,800 minutes, from item to item.
ghost use Rattle.std.specs.Prelude.{◌≡◌, ℕ, ◌+◌, ◌<◌, ◌≤◌, ◌++◌, IfOk, IsErr, List, OnOk, Some, length, map, nat_lt, slice_get, vec_capacity, ◌&&◌};
ghost use Rattle.std.specs.List.Sorted.{IsNonDecreasingBy, IsPermutation};
ghost use Rattle.duty_calendar.specs.declared.event.Event.{Event};
ghost use Rattle.duty_calendar.specs.declared.pairing.Pairing.{Pairing};
ghost use Rattle.duty_calendar.specs.Minutes.{is_duty};
ghost use Rattle.roster_model.specs.declared.proof.Lens.{Lens};
ghost use Rattle.roster_model.specs.Spans.{duty_event, event_span};
ghost use Rattle.roster_model.specs.Timelines.{fixed_of, history_of};
ghost use Rattle.line_items.specs.Clear.{base_of, duties_of};
ghost use Rattle.line_items.specs.DutyTimes.{added_duties, duty_spans, AreTimes, IsTimetable};
ghost use Rattle.line_items.specs.FreeBlocks.{item_least, is_served, last_block, least_start};
ghost use Rattle.line_items.specs.Items.{item_begins, item_events};

use crate::member::{fixed_of, history_of, is_duty};
use duty_calendar::{Duty, Event, Interval, Memory};
use label_lattice::LatestStep;
use roster_model::Problem;

/// Whether the event is duty and ends after the minute.
fn is_duty_after(event: &Event, from: u32) -> bool
    ensures duty { result ≡ (is_duty event.now.kind && nat_lt from event.now.release) }
{
    is_duty(event) && from < event.release
}

/// Appends the times of the events that are duty and end after the minute.
fn push_events(times: &mut Vec<Interval>, events: &[Event], from: u32) -> Result<(), Memory>
    ensures more { OnOk result (times.new.items ≡ times.old.items ++ duty_spans from events.now) }
    ensures capacity { vec_capacity times.old ≤ vec_capacity times.new }
    ensures grown { length times.new.items ≤ length times.old.items + length events.now }
    ensures calm { length times.old.items + length events.now ≤ vec_capacity times.old
        → IsErr result → ⊥ }
{
    for event in events {
        if is_duty_after(event, from) {
            times.push(Interval {
                start: event.report,
                stop: event.release,
            })?;
        }
    }
    Ok(())
}

/// Appends the times of duties.
fn push_duties(times: &mut Vec<Interval>, duties: &[Duty]) -> Result<(), Memory>
    ensures more { OnOk result (times.new.items ≡ times.old.items ++ map event_span
        (map duty_event duties.now)) }
    ensures capacity { vec_capacity times.old ≤ vec_capacity times.new }
    ensures calm { length times.old.items + length duties.now ≤ vec_capacity times.old
        → IsErr result → ⊥ }
{
    for duty in duties {
        times.push(Interval {
            start: duty.report,
            stop: duty.release,
        })?;
    }
    Ok(())
}

/// Lists the times of duty of history and fixed events that end after the minute.
fn fill_base(
    times: &mut Vec<Interval>,
    problem: &Problem,
    member: u32,
    from: u32,
) -> Result<(), Memory>
    requires member { member < length problem.now.base.members }
    ensures times { OnOk result (times.new.items ≡ duty_spans from (base_of problem.now member)) }
    ensures capacity { vec_capacity times.old ≤ vec_capacity times.new }
    ensures grown { length times.new.items ≤ length (history_of problem.now member) + length
        (fixed_of problem.now member) }
    ensures calm { length (history_of problem.now member) + length
        (fixed_of problem.now member) ≤ vec_capacity times.old → IsErr result → ⊥ }
{
    times.clear();
    push_events(times, history_of(problem, member), from)?;
    push_events(times, fixed_of(problem, member), from)?;
    Ok(())
}

/// Puts times in the order of their starts.
fn sort_times(times: &mut Vec<Interval>)
    ensures moved { IsPermutation times.old.items times.new.items }
    ensures sorted { IsNonDecreasingBy (λ s. s.start) times.new.items }
    ensures capacity { vec_capacity times.new ≡ vec_capacity times.old }
{
    times.sort_unstable_by_key(|span| span.start);
}

/// Lists the times of duty of an item, and those of history and fixed events that end after the minute.
fn fill_unsorted(
    times: &mut Vec<Interval>,
    problem: &Problem,
    member: u32,
    item: u32,
    from: u32,
) -> Result<(), Memory>
    requires member { member < length problem.now.base.members }
    ensures times { OnOk result (times.new.items ≡ duty_spans from
        (base_of problem.now member) ++ map event_span
        (added_duties problem.now.base.pairings item)) }
    ensures capacity { vec_capacity times.old ≤ vec_capacity times.new }
    ensures calm { 572 ≤ vec_capacity times.old → IsErr result → ⊥ }
{
    fill_base(times, problem, member, from)?;
    let pairings = problem.base.pairings.as_slice();
    if item as usize >= pairings.len() {
        return Ok(());
    }
    push_duties(times, pairings[item as usize].duties.as_slice())?;
    Ok(())
}

/// Lists the times of duty of history, fixed events and an item, in the order of their starts. An item that is no
/// pairing adds none. From the minute `from` on no duty is missing.
pub fn fill_duties(
    times: &mut Vec<Interval>,
    problem: &Problem,
    member: u32,
    item: u32,
    from: u32,
) -> Result<(), Memory>
    requires member { member < length problem.now.base.members }
    ensures timetable { OnOk result (IsTimetable times.new.items) }
    ensures times { OnOk result ((lens : Lens)
        → AreTimes (base_of problem.now member ++ item_events problem.now member lens item) from
        times.new.items) }
    ensures capacity { vec_capacity times.old ≤ vec_capacity times.new }
    ensures calm { 572 ≤ vec_capacity times.old → IsErr result → ⊥ }
{
    fill_unsorted(times, problem, member, item, from)?;
    sort_times(times);
    Ok(())
}

/// Lists the times of duty of history and fixed events, in the order of their starts.
pub fn fill_all(times: &mut Vec<Interval>, problem: &Problem, member: u32) -> Result<(), Memory>
    requires member { member < length problem.now.base.members }
    ensures timetable { OnOk result (IsTimetable times.new.items) }
    ensures times { OnOk result (AreTimes (base_of problem.now member) 0 times.new.items) }
    ensures capacity { vec_capacity times.old ≤ vec_capacity times.new }
    ensures calm { 560 ≤ vec_capacity times.old → IsErr result → ⊥ }
{
    fill_base(times, problem, member, 0)?;
    sort_times(times);
    Ok(())
}

/// The latest start of 1,800 minutes without duty that lie from minute `from` to minute `to`.
pub fn last_block(times: &[Interval], from: u32, to: u32) -> Option<u32>
    requires timetable { IsTimetable times.now }
    ensures last { (events : List Event) → AreTimes events from times.now
        → result ≡ last_block events from to }
{
    let mut free_from = from;
    let mut last = None;
    for span in times {
        let until = span.start.min(to);
        if until.saturating_sub(free_from) >= 1800 {
            last = Some(until - 1800);
        }
        free_from = free_from.max(span.stop);
    }
    if to.saturating_sub(free_from) >= 1800 {
        return Some(to - 1800);
    }
    last
}

/// Whether a free block between the first report and this one lies within the 10,080 minutes before it.
fn is_served(times: &[Interval], first: u32, report: u32) -> bool
    requires timetable { IsTimetable times.now }
    ensures served { (events : List Event) → AreTimes events first times.now
        → result ≡ is_served events first report }
{
    match last_block(times, first, report) {
        Some(start) => report.saturating_sub(10_080) <= start,
        None => false,
    }
}

/// From when on a free block must begin that ends before the first report, so that each duty has one.
fn least_start(times: &[Interval], first: u32, duties: &[Duty]) -> u32
    requires timetable { IsTimetable times.now }
    ensures least { (events : List Event) → AreTimes events first times.now
        → result ≡ least_start events first (map duty_event duties.now) }
{
    let mut least = 0;
    for duty in duties {
        if !is_served(times, first, duty.report) {
            least = least.max(duty.report.saturating_sub(10_080));
        }
    }
    least
}

/// The same for a pairing. Its times of duty are listed for it.
fn pairing_least(
    own: &mut Vec<Interval>,
    problem: &Problem,
    pairing: u32,
    first: u32,
) -> Result<u32, Memory>
    requires known { pairing < length problem.now.base.pairings }
    ensures least { IfOk result (λ least. (x : Pairing)
        → slice_get problem.now.base.pairings pairing ≡ Some x
        → least ≡ least_start (duties_of x) first (duties_of x)) }
    ensures capacity { vec_capacity own.old ≤ vec_capacity own.new }
    ensures calm { 12 ≤ vec_capacity own.old → IsErr result → ⊥ }
{
    let duties = problem.base.pairings.as_slice()[pairing as usize]
        .duties
        .as_slice();
    own.clear();
    push_duties(own, duties)?;
    Ok(least_start(own, first, duties))
}

/// From when on a free block must begin that ends before the item begins, so that each of its reports has one. The
/// times of duty of a pairing are listed for it.
pub fn item_least(
    own: &mut Vec<Interval>,
    problem: &Problem,
    item: u32,
    begins: u32,
) -> Result<u32, Memory>
    ensures least { IfOk result (λ least. (member : ℕ) (lens : Lens)
        → begins ≡ item_begins problem.now member lens item
        → least ≡ item_least problem.now member lens item) }
    ensures capacity { vec_capacity own.old ≤ vec_capacity own.new }
    ensures calm { 12 ≤ vec_capacity own.old → IsErr result → ⊥ }
{
    if (item as usize) < problem.base.pairings.len() {
        return pairing_least(own, problem, item, begins);
    }
    Ok(begins.saturating_sub(10_080))
}

/// What the way from one item to another makes of the start of the last free block, where a lens looks at free
/// blocks: the times and the begin are those of the first, the end and the least are the begin and least of the second.
pub fn free_step(times: &[Interval], from: u32, to: u32, least: u32) -> LatestStep
    requires timetable { IsTimetable times.now }
    ensures renew { (events : List Event) → AreTimes events from times.now
        → result.renew ≡ last_block events from to }
    ensures least { result.least ≡ least }
{
    LatestStep {
        renew: last_block(times, from, to),
        least,
    }
}
