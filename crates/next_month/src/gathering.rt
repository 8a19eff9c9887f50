//! What is carried of the events of a member.
ghost use Rattle.std.specs.Prelude.{◌≡◌, ◌≤◌, ◌<◌, ◌++◌, All, IfOk, OnOk, IfSome, Some, length, map, slice_get};
ghost use Rattle.roster_model.specs.Rosters.{line_at};
ghost use Rattle.roster_model.specs.Spans.{duty_event, duty_events};
ghost use Rattle.roster_model.specs.Timelines.{pairings_of, events_of};
ghost use Rattle.next_month.specs.Carrying.{all_carried};
ghost use Rattle.next_month.specs.Heirs.{events_by, place_named};

use crate::carrying::push_carried;
use duty_calendar::{Duty, Event, Member, Memory, Pairing};
use roster_model::{Line, Problem, Roster, duty_event};
use std::alloc::Global;

/// Appends what is carried of events.
fn push_events(
    alloc: Global,
    out: &mut Vec<Event>,
    events: &[Event],
    lag: u32,
) -> Result<(), Memory>
    requires short { lag ≤ 46320 }
    ensures more { OnOk result (out.new.items ≡ out.old.items ++ all_carried lag events.now) }
{
    for event in events {
        push_carried(alloc, out, event, lag)?;
    }
    Ok(())
}

/// Appends what is carried of duties.
fn push_duties(alloc: Global, out: &mut Vec<Event>, duties: &[Duty], lag: u32) -> Result<(), Memory>
    requires short { lag ≤ 46320 }
    ensures more { OnOk result (out.new.items
        ≡ out.old.items ++ all_carried lag (map duty_event duties.now)) }
{
    for duty in duties {
        let event = duty_event(alloc, duty)?;
        push_carried(alloc, out, &event, lag)?;
    }
    Ok(())
}

/// A pairing by its number.
fn pairing_at(problem: &Problem, number: u32) -> &Pairing
    requires in_range { number < length problem.now.base.pairings }
    ensures found { slice_get problem.now.base.pairings number ≡ Some result.now }
{
    &problem.base.pairings.as_slice()[number as usize]
}

/// Appends what is carried of the duties of a line.
fn push_line(
    alloc: Global,
    out: &mut Vec<Event>,
    problem: &Problem,
    line: &Line,
    lag: u32,
) -> Result<(), Memory>
    requires short { lag ≤ 46320 }
    requires in_range { All (λ p. p < length problem.now.base.pairings) line.now }
    ensures more { OnOk result (out.new.items ≡ out.old.items
        ++ all_carried lag (duty_events (pairings_of problem.now line.now))) }
{
    for number in line.pairings() {
        let pairing = pairing_at(problem, *number);
        push_duties(alloc, out, pairing.duties.as_slice(), lag)?;
    }
    Ok(())
}

/// A member by number.
fn member_at(problem: &Problem, member: usize) -> &Member
    requires in_range { member < length problem.now.base.members }
    ensures found { slice_get problem.now.base.members member ≡ Some result.now }
{
    &problem.base.members.as_slice()[member]
}

/// The line of a member.
fn line_at(roster: &Roster, member: usize) -> &Line
    requires in_range { member < length roster.now }
    ensures line { result.now ≡ line_at roster.now member }
{
    &roster.as_slice()[member]
}

/// What is carried of the events of a member with the line.
fn carried_of(
    alloc: Global,
    problem: &Problem,
    member: usize,
    line: &Line,
    lag: u32,
) -> Result<Vec<Event>, Memory>
    requires short { lag ≤ 46320 }
    requires member { member < length problem.now.base.members }
    requires in_range { All (λ p. p < length problem.now.base.pairings) line.now }
    ensures events { IfOk result (λ events. events.items
        ≡ all_carried lag (events_of problem.now member line.now)) }
{
    let person = member_at(problem, member);
    let mut events = Vec::new(alloc);
    push_events(alloc, &mut events, person.history.as_slice(), lag)?;
    push_events(alloc, &mut events, person.fixed.as_slice(), lag)?;
    push_line(alloc, &mut events, problem, line, lag)?;
    Ok(events)
}

/// The place of this month's member of a name.
#[tactic(auto, unfolding(crate::specs::Heirs::place_named))]
pub fn place_named(problem: &Problem, name: &[u8]) -> Option<usize>
    ensures value { result ≡ place_named problem.now name.now }
    ensures known { IfSome result (λ m. m < length problem.now.base.members) }
{
    let members = problem.base.members.as_slice();
    members
        .iter()
        .position(|member| member.name.bytes() == name)
}

/// What is carried of the events of the member of a name with the line of the roster.
pub fn carried_by(
    alloc: Global,
    problem: &Problem,
    roster: &Roster,
    name: &[u8],
    lag: u32,
) -> Result<Vec<Event>, Memory>
    requires short { lag ≤ 46320 }
    requires lines { length roster.now ≡ length problem.now.base.members }
    requires in_range { All (All (λ p. p < length problem.now.base.pairings)) roster.now }
    ensures events { IfOk result (λ events. events.items
        ≡ all_carried lag (events_by problem.now roster.now name.now)) }
{
    let Some(member) = place_named(problem, name) else {
        return Ok(Vec::new(alloc));
    };
    carried_of(alloc, problem, member, line_at(roster, member), lag)
}
