//! Which pairings fit between a member's own events, and which a node leaves open.
ghost use Rattle.std.specs.Prelude.{◌≡◌, ◌<◌, ◌&&◌, length, map, slice_get, not, true, false};
ghost use Rattle.std.specs.List.{list_any};
ghost use Rattle.std.specs.Option.{option_map_or};
ghost use Rattle.duty_calendar.specs.Minutes.{is_duty, is_flight};
ghost use Rattle.roster_model.specs.Decided.{is_decided_as};
ghost use Rattle.roster_model.specs.Spans.{duty_event, event_span};
ghost use Rattle.roster_model.specs.Timelines.{fixed_of};
ghost use Rattle.line_items.specs.Clear.{is_tiring, is_tired_by, is_crossing, duties_of, base_of, is_base_rested, is_clear, may_fly, must_fly};

use crate::member::{fixed_of, history_of, is_duty, is_flight};
use duty_calendar::{Duty, Event, Interval, Pairing};
use roster_model::{Decision, Node, Problem, pairing_span};

/// Whether the event has duty within the 600 minutes before the report.
fn is_tiring(event: &Event, report: u32) -> bool
    ensures tiring { result ≡ is_tiring report event.now }
{
    is_duty(event) && (event.report < report && u64::from(report) < u64::from(event.release) + 600)
}

fn some_tiring(events: &[Event], report: u32) -> bool
    ensures tiring { result ≡ list_any (is_tiring report) events.now }
{
    events.iter().any(|event| is_tiring(event, report))
}

/// Whether one of the member's own events has duty within the 600 minutes before the report.
#[tactic(auto, using(crate::proofs::ClearLemmas::any_of_two))]
fn is_tired(problem: &Problem, member: u32, report: u32) -> bool
    requires member { member < length problem.now.base.members }
    ensures tired { result ≡ list_any (is_tiring report) (base_of problem.now member) }
{
    some_tiring(history_of(problem, member), report)
        || some_tiring(fixed_of(problem, member), report)
}

/// Whether a fixed flight lacks its rest without any pairing.
fn is_base_tired(problem: &Problem, member: u32) -> bool
    requires member { member < length problem.now.base.members }
    ensures tired { result ≡ is_tired_by (fixed_of problem.now member)
        (base_of problem.now member) }
{
    fixed_of(problem, member).iter().any(|event| is_flight(event)
        && is_tired(problem, member, event.report))
}

/// Whether the member's fixed flights have their rest without any pairing.
pub(crate) fn is_base_rested(problem: &Problem, member: u32) -> bool
    requires member { member < length problem.now.base.members }
    ensures rested { result ≡ is_base_rested problem.now member }
{
    !is_base_tired(problem, member)
}

/// Whether a duty lies within the 600 minutes before the report.
fn is_tired_of(duties: &[Duty], report: u32) -> bool
    ensures tired { result ≡ list_any (λ d. is_tiring report (duty_event d)) duties.now }
{
    duties.iter().any(|duty| duty.report < report
        && u64::from(report) < u64::from(duty.release) + 600)
}

/// Whether a duty begins without rest after one of the member's own events.
fn are_tired(problem: &Problem, member: u32, duties: &[Duty]) -> bool
    requires member { member < length problem.now.base.members }
    ensures tired { result ≡ list_any (λ d. list_any (is_tiring d.report)
        (base_of problem.now member)) duties.now }
{
    duties
        .iter()
        .any(|duty| is_tired(problem, member, duty.report))
}

/// Whether a fixed flight begins without rest after one of the duties.
fn are_tiring(problem: &Problem, member: u32, duties: &[Duty]) -> bool
    requires member { member < length problem.now.base.members }
    ensures tired { result ≡ list_any (λ e. is_flight e.kind && list_any
        (λ d. is_tiring e.report (duty_event d)) duties.now) (fixed_of problem.now member) }
{
    fixed_of(problem, member).iter().any(|event| is_flight(event)
        && is_tired_of(duties, event.report))
}

/// Whether the span shares a minute with a fixed event.
fn is_crossing(problem: &Problem, member: u32, span: Interval) -> bool
    requires member { member < length problem.now.base.members }
    ensures crossing { result ≡ list_any (λ e. is_crossing (event_span e) span)
        (fixed_of problem.now member) }
{
    fixed_of(problem, member).iter().any(|event| event.report < span.stop
        && span.start < event.release)
}

/// Whether the pairing fits between the member's own events.
#[tactic(auto, using(crate::proofs::ClearLemmas::duties_tired, crate::proofs::ClearLemmas::duties_tiring))]
pub(crate) fn is_clear(problem: &Problem, member: u32, pairing: &Pairing) -> bool
    requires member { member < length problem.now.base.members }
    ensures clear { result ≡ is_clear problem.now member pairing.now }
{
    let duties = pairing.duties.as_slice();
    if are_tired(problem, member, duties) {
        return false;
    }
    if are_tiring(problem, member, duties) {
        return false;
    }
    !is_crossing(problem, member, pairing_span(pairing))
}

fn is_decided_as(decisions: &[Decision], member: u32, pairing: u32, flies: bool) -> bool
    ensures decided { result ≡ is_decided_as decisions.now member pairing flies }
{
    decisions.iter().any(|d| d.member == member && d.pairing == pairing && d.flies == flies)
}

/// Whether the member must fly the pairing of this number.
#[tactic(auto, using(crate::proofs::ClearLemmas::decided_reverse))]
pub fn must_fly(member: u32, node: &Node, pairing: u32) -> bool
    ensures must { result ≡ must_fly member node.now pairing }
{
    is_decided_as(node.decisions(), member, pairing, true)
}

/// Whether the member must not fly the pairing of this number.
#[tactic(auto, using(crate::proofs::ClearLemmas::decided_reverse))]
fn is_barred(member: u32, node: &Node, pairing: u32) -> bool
    ensures barred { result ≡ is_decided_as node.now member pairing false }
{
    is_decided_as(node.decisions(), member, pairing, false)
}

/// Whether the member may fly the pairing of this number.
pub fn may_fly(problem: &Problem, member: u32, node: &Node, pairing: u32) -> bool
    requires member { member < length problem.now.base.members }
    requires known { pairing < length problem.now.base.pairings }
    ensures may { result ≡ may_fly problem.now member node.now pairing }
{
    let pairings = problem.base.pairings.as_slice();
    is_clear(problem, member, &pairings[pairing as usize]) && !is_barred(member, node, pairing)
}
