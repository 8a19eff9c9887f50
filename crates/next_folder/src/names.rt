//! Who comes and who goes.
ghost use Rattle.std.specs.Prelude.{◌≡◌, ◌++◌, ◌∷◌, [], IfOk, OnOk};
ghost use Rattle.std.specs.List.{list_any};
ghost use Rattle.std.specs.Str.{bytes_eq};
ghost use Rattle.next_folder.specs.Rolled.{is_gone, leavers, newcomers};

use duty_calendar::{Copied, List, Member, Memory, Name};
use next_month::place_named;
use roster_model::Problem;
use std::alloc::Global;

/// Whether a member of the crew has the name of another member.
fn is_among(crew: &[Member], member: &Member) -> bool
    ensures value { result ≡ list_any (λ n. bytes_eq n.name member.now.name) crew.now }
{
    crew.iter()
        .any(|other| other.name.bytes() == member.name.bytes())
}

/// Whether no member of the crew has the name of another member.
#[tactic(auto, unfolding(crate::specs::Rolled::is_gone))]
fn is_gone(crew: &[Member], member: &Member) -> bool
    ensures value { result ≡ is_gone crew.now member.now }
{
    !is_among(crew, member)
}

/// Appends the name of a member.
fn add_name(alloc: Global, names: &mut List<Name>, member: &Member) -> Result<(), Memory>
    ensures more { OnOk result (names.new ≡ names.old ++ member.now.name ∷ []) }
{
    if names.push(member.name.copy(alloc)?).is_err() {
        return Err(Memory::NoMemory);
    }
    Ok(())
}

/// The names of the crew that this month does not have.
pub fn newcomers(alloc: Global, problem: &Problem, crew: &[Member]) -> Result<List<Name>, Memory>
    ensures value { IfOk result (λ names. names ≡ newcomers problem.now crew.now) }
{
    let mut names = List::new(alloc);
    for member in crew {
        if place_named(problem, member.name.bytes()).is_none() {
            add_name(alloc, &mut names, member)?;
        }
    }
    Ok(names)
}

/// The names of this month's members that the crew does not have.
pub fn leavers(alloc: Global, problem: &Problem, crew: &[Member]) -> Result<List<Name>, Memory>
    ensures value { IfOk result (λ names. names ≡ leavers problem.now crew.now) }
{
    let mut names = List::new(alloc);
    for member in problem.base.members.as_slice() {
        if is_gone(crew, member) {
            add_name(alloc, &mut names, member)?;
        }
    }
    Ok(names)
}
