//! What items make of nights in a row, and the row before the month.
ghost use Rattle.std.specs.Prelude.{◌≡◌, ℕ, ◌+◌, ◌<◌, ◌≤◌, ◌&&◌, None, Some, true, filter, length, map, min, nat_lt, slice_get, if◌then◌else◌};
ghost use Rattle.std.specs.Option.{option_map_or};
ghost use Rattle.duty_calendar.specs.Minutes.{is_flight};
ghost use Rattle.duty_calendar.specs.Nights.{infringes};
ghost use Rattle.roster_model.specs.Spans.{duty_event};
ghost use Rattle.line_items.specs.Items.{item_span};
ghost use Rattle.line_items.specs.NightRows.{is_soon_night, night_after, nights_after, released_after, lead_of, reset_of, alone_of, night_start, night_end, night_marks, flight_marks, past_until};
ghost use Rattle.roster_model.specs.Timelines.{fixed_of};
ghost use Rattle.roster_model.specs.declared.proof.Lens.{Lens as LensOf};

use crate::marks::NightMarks;
use crate::member::{fixed_of, history_of, is_flight};
use duty_calendar::{Duty, Event, Interval};
use part117_limits::{has_low, infringes};
use roster_model::{Lens, Problem};

/// Nights counted along flights: the row up to the last of them, and when that was released; how many followed night on
/// night from the start, whether all did, and whether no row had a fourth night.
#[derive(Clone, Copy)]
struct NightCount {
    row: u32,
    released: u32,
    lead: u32,
    is_one: bool,
    is_short: bool,
}

/// The row with one flight more.
fn row_with(row: u32, is_low: bool, is_soon: bool) -> u32
    requires few { row < 1000000 }
    ensures row { result ≡ (if is_low then (if is_soon then row + 1 else 1) else 0) }
{
    if !is_low {
        return 0;
    }
    if is_soon { row + 1 } else { 1 }
}

/// Whether a duty is a night.
#[tactic(auto, using(crate::proofs::NightLoops::duty_night))]
fn is_night(duty: &Duty) -> bool
    ensures night { result ≡ infringes (duty_event duty.now) }
{
    has_low(duty.report, duty.parked)
}

/// Whether a report is less than 30 hours after a release.
fn is_soon(report: u32, released: u32) -> bool
    ensures soon { result ≡ nat_lt report (released + 1800) }
{
    u64::from(report) < u64::from(released) + 1800
}

/// The count with one duty more.
fn count_with(count: NightCount, duty: &Duty) -> NightCount
    requires row { count.row < 1000000 }
    requires lead { count.lead < 1000000 }
    ensures row { result.row ≡ night_after count.row count.released (duty_event duty.now) }
    ensures released { result.released ≡ duty.now.release }
    ensures lead { result.lead ≡ count.lead
        + (if count.is_one && is_soon_night count.released (duty_event duty.now) then 1 else 0) }
    ensures is_one { result.is_one
        ≡ (count.is_one && is_soon_night count.released (duty_event duty.now)) }
    ensures is_short { result.is_short ≡ (count.is_short && nat_lt result.row 4) }
    ensures row_grows { result.row ≤ count.row + 1 }
    ensures lead_grows { result.lead ≤ count.lead + 1 }
{
    let is_low = is_night(duty);
    let soon = is_soon(duty.report, count.released);
    let row = row_with(count.row, is_low, soon);
    let is_one = count.is_one && (is_low && soon);
    let more = if is_one { 1 } else { 0 };
    NightCount {
        row,
        released: duty.release,
        lead: count.lead + more,
        is_one,
        is_short: count.is_short && row < 4,
    }
}

/// What duties that begin then make of nights in a row.
fn duties_marks(duties: &[Duty], begins: u32, until: u32) -> NightMarks
    requires few { length duties.now ≤ 12 }
    ensures marks { result ≡ record {
      until = until;
      lead = lead_of begins (map duty_event duties.now);
      reset = reset_of begins (map duty_event duties.now);
      alone = alone_of (map duty_event duties.now);
      row = nights_after 0 0 (map duty_event duties.now);
    } }
{
    let mut count = NightCount {
        row: 0,
        released: begins,
        lead: 0,
        is_one: true,
        is_short: true,
    };
    for duty in duties {
        count = count_with(count, duty);
    }
    marks_by(count, until)
}

/// The marks of counted flights.
fn marks_by(count: NightCount, until: u32) -> NightMarks
    ensures marks { result ≡ record {
      until = until;
      lead = (if count.is_short then count.lead else 4);
      reset = (if count.is_one then None else Some count.row);
      alone = (if count.is_short then 0 else 4);
      row = count.row;
    } }
{
    NightMarks {
        until,
        lead: if count.is_short { count.lead } else { 4 },
        reset: if count.is_one { None } else { Some(count.row) },
        alone: if count.is_short { 0 } else { 4 },
        row: count.row,
    }
}

/// What a fixed flight makes of nights in a row.
fn flight_marks(event: &Event) -> NightMarks
    ensures marks { result ≡ flight_marks event.now }
{
    if infringes(event) {
        NightMarks {
            until: event.release,
            lead: 1,
            reset: None,
            alone: 0,
            row: 1,
        }
    } else {
        NightMarks {
            until: event.release,
            lead: 0,
            reset: Some(0),
            alone: 0,
            row: 0,
        }
    }
}

/// What the flight of this place among the events makes of nights in a row, or what is given where there is none.
fn marks_at(events: &[Event], place: usize, other: NightMarks) -> NightMarks
    ensures marks { result ≡ option_map_or flight_marks
        (slice_get (filter (λ e. is_flight e.kind) events.now) place) other }
{
    let mut left = place;
    for event in events {
        if is_flight(event) {
            if left == 0 {
                return flight_marks(event);
            }
            left -= 1;
        }
    }
    other
}

/// The row before the month with one flight more.
fn past_with(event: &Event, row: u32, released: u32) -> u32
    requires few { row ≤ 3 }
    ensures row { result ≡ min (night_after row released event.now) 3 }
{
    let soon = is_soon(event.report, released);
    row_with(row, infringes(event), soon).min(3)
}

/// The row of nights that the flights among the events leave behind, of which three are as bad as more, and when the
/// last of them was released.
fn past_row(events: &[Event]) -> (u32, u32)
    ensures row { result.0 ≡ min 3 (nights_after 0 0 (filter (λ e. is_flight e.kind) events.now)) }
    ensures released { result.1 ≡ released_after 0 (filter (λ e. is_flight e.kind) events.now) }
{
    let mut row: u32 = 0;
    let mut released = 0;
    for event in events {
        if is_flight(event) {
            row = past_with(event, row, released);
            released = event.release;
        }
    }
    (row, released)
}

/// The row of nights at the source, and when it ends, where the lens looks at free blocks.
pub fn first_nights(problem: &Problem, member: u32, lens: &Lens) -> (u32, u32)
    requires member { member < length problem.now.base.members }
    ensures row { result.0 ≡ night_start problem.now member lens.now }
    ensures until { result.1 ≡ night_end problem.now member lens.now }
{
    if !lens.free30 {
        return (0, 0);
    }
    past_row(history_of(problem, member))
}

/// The marks of no flights.
fn no_marks(until: u32) -> NightMarks
    ensures marks { result ≡ record { until = until; lead = 0; reset = None; alone = 0; row = 0 } }
{
    NightMarks {
        until,
        lead: 0,
        reset: None,
        alone: 0,
        row: 0,
    }
}

/// What a pairing makes of nights in a row.
fn pairing_marks(problem: &Problem, pairing: u32, span: Interval) -> NightMarks
    requires known { pairing < length problem.now.base.pairings }
    ensures marks { (member : ℕ) (lens : LensOf) → span ≡ item_span problem.now member lens pairing
        → result ≡ night_marks problem.now member lens pairing }
{
    let duties = problem.base.pairings.as_slice()[pairing as usize]
        .duties
        .as_slice();
    duties_marks(duties, span.start, span.stop)
}

/// What a fixed flight by its place makes of nights in a row, and what no item does.
fn behind_marks(problem: &Problem, member: u32, place: usize) -> NightMarks
    requires member { member < length problem.now.base.members }
    ensures marks { result ≡ option_map_or flight_marks (slice_get
        (filter (λ e. is_flight e.kind) (fixed_of problem.now member)) place) (record {
          until = past_until problem.now member;
          lead = 0;
          reset = None;
          alone = 0;
          row = 0;
        }) }
{
    let (_row, until) = past_row(history_of(problem, member));
    marks_at(fixed_of(problem, member), place, no_marks(until))
}

/// What an item makes of nights in a row, where the lens looks at free blocks.
#[tactic(auto, using(crate::proofs::NightPlaces::flight_night))]
pub fn marks_of(
    problem: &Problem,
    member: u32,
    lens: &Lens,
    item: u32,
    span: Interval,
) -> NightMarks
    requires member { member < length problem.now.base.members }
    ensures marks { lens.now.free30 ≡ true → span ≡ item_span problem.now member lens.now item
        → result ≡ night_marks problem.now member lens.now item }
{
    if !lens.free30 {
        return no_marks(0);
    }
    let count = problem.base.pairings.len();
    if (item as usize) < count {
        return pairing_marks(problem, item, span);
    }
    behind_marks(problem, member, (item as usize) - count)
}
