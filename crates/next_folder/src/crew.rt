//! The crew of the next month.
ghost use Rattle.std.specs.Prelude.{◌≡◌, ◌≤◌, ℕ, Bool, List as Sequence, Some, IfOk, IfErr, Ok, length, map};
ghost use Rattle.crew_files.specs.Files.{members_of};
ghost use Rattle.duty_calendar.specs.Checks.{AreMembers};
ghost use Rattle.duty_calendar.specs.declared.horizon.Horizon.{Horizon as Month};
ghost use Rattle.field_text.specs.Sizes.{longest};
ghost use Rattle.next_folder.specs.Barred.{Bars, IsSpared};
ghost use Rattle.next_folder.specs.declared.barrier.Barrier.TheVariants.{NoMemory as NoRoom};
ghost use Rattle.next_folder.specs.Rolled.{IsNextCrew, bare, no_events};
ghost use Rattle.next_folder.specs.Texts.{AreBrief, Ours, view_theirs};

use crate::barrier::Barrier;
use crate::reading::NextTexts;
use crew_files::read_members;
use duty_calendar::{Copied, List, Member, Memory, Rules};
use roster_model::Problem;
use std::alloc::Global;

/// A member with no events.
fn bare(alloc: Global, member: &Member) -> Result<Member, Memory>
    ensures value { IfOk result (λ made. made ≡ bare member.now) }
{
    Ok(Member {
        name: member.name.copy(alloc)?,
        low: member.low,
        high: member.high,
        history: List::new(alloc),
        fixed: List::new(alloc),
    })
}

/// Members with no events.
fn all_bare(alloc: Global, members: &[Member]) -> Result<List<Member>, Memory>
    ensures value { IfOk result (λ made. made ≡ map bare members.now) }
{
    let mut made = List::new(alloc);
    for member in members {
        if made.push(bare(alloc, member)?).is_err() {
            return Err(Memory::NoMemory);
        }
    }
    Ok(made)
}

/// The text of a file of events that has none.
#[tactic(auto, unfolding(crate::specs::Rolled::no_events))]
fn no_events() -> &'static [u8]
    ensures value { result.now ≡ no_events }
    ensures short { length result.now ≤ longest }
{
    b"member,kind,report,parked,release,legs,credit\n"
}

/// The crew of a text.
fn given_crew(
    alloc: Global,
    problem: &Problem,
    theirs: &NextTexts,
    text: &[u8],
    rules: &Rules,
) -> Result<List<Member>, Barrier>
    requires short { length text.now ≤ longest }
    requires there { (view_theirs theirs.now).crew ≡ Some text.now }
    ensures crew { IfOk result (λ crew.
        members_of rules.now.horizon text.now no_events no_events ≡ Ok crew) }
    ensures valid { IfOk result (AreMembers rules.now.horizon) }
    ensures cause { (ours : Ours) (force : Bool) (roster : Sequence (Sequence ℕ))
        → IsSpared ours (view_theirs theirs.now) force problem.now roster rules.now
        → IfErr result (Bars ours (view_theirs theirs.now) force) }
{
    let horizon = &rules.horizon;
    Ok(read_members(alloc, text, no_events(), no_events(), horizon)?)
}

/// This month's crew, for the next month.
fn same_crew(alloc: Global, problem: &Problem) -> Result<List<Member>, Barrier>
    ensures crew { IfOk result (λ crew. crew ≡ map bare problem.now.base.members) }
    ensures valid { (h : Month) → IfOk result (AreMembers h) }
    ensures cause { IfErr result (λ why. why ≡ NoRoom) }
{
    let crew = all_bare(alloc, problem.base.members.as_slice())?;
    Ok(crew)
}

/// The crew that is there, or this month's.
pub fn next_crew(
    alloc: Global,
    problem: &Problem,
    theirs: &NextTexts,
    rules: &Rules,
) -> Result<List<Member>, Barrier>
    requires brief { AreBrief theirs.now }
    ensures crew { IfOk result (IsNextCrew problem.now.base.members rules.now.horizon
        (view_theirs theirs.now).crew) }
    ensures valid { IfOk result (AreMembers rules.now.horizon) }
    ensures cause { (ours : Ours) (force : Bool) (roster : Sequence (Sequence ℕ))
        → IsSpared ours (view_theirs theirs.now) force problem.now roster rules.now
        → IfErr result (Bars ours (view_theirs theirs.now) force) }
{
    match &theirs.crew {
        Some(text) => given_crew(alloc, problem, theirs, text, rules),
        None => same_crew(alloc, problem),
    }
}
