//! The pairings that vacant lines have, and who may fly them.
ghost use Rattle.std.specs.Prelude.{◌≡◌, ◌<◌, ◌≤◌, ◌∷◌, ◌++◌, [], count_by, length, IfOk, OnOk};
ghost use Rattle.roster_model.specs.Scores.{is_flown};
ghost use Rattle.roster_model.specs.Rosters.{IsComplete};
ghost use Rattle.roster_text.specs.RosterText.{member_name};
ghost use Rattle.open_commands.specs.OpenRows.{vacant_crew, AreEligibleNames, AreOpenRows, AreWithVacant, IsOpenRow};

use crate::open_stop::OpenRow;
use duty_calendar::{Copied, List, Memory, Name};
use open_time::eligible;
use roster_model::{Line, Problem, Roster};
use std::alloc::Global;

/// Whether the line has the pairing.
fn is_flown(line: &Line, pairing: u32) -> bool
    ensures flown { result ≡ is_flown line.now pairing }
{
    line.pairings().iter().any(|number| *number == pairing)
}

/// How many of the lines have the pairing.
fn count_flown(lines: &[Line], pairing: u32) -> usize
    ensures value { result ≡ count_by (λ line. is_flown line pairing) lines.now }
{
    lines.iter().filter(|line| is_flown(line, pairing)).count()
}

/// How many of the lines behind those of the members have the pairing.
fn vacant_crew(problem: &Problem, roster: &Roster, pairing: u32) -> u32
    requires lines { length problem.now.base.members ≤ length roster.now }
    requires few { length roster.now ≤ 200 }
    ensures value { result ≡ vacant_crew problem.now roster.now pairing }
{
    let (_, vacant) = roster.as_slice().split_at(problem.base.members.len());
    count_flown(vacant, pairing) as u32
}

/// A member's name.
fn member_name(problem: &Problem, member: u32) -> &Name
    requires member { member < length problem.now.base.members }
    ensures name { result.now ≡ member_name problem.now member }
{
    &problem.base.members.as_slice()[member as usize].name
}

/// The names of the members who could fly the pairing beside their lines, in the order of the crew.
fn eligible_names(
    alloc: Global,
    problem: &Problem,
    made: &Problem,
    roster: &Roster,
    pairing: u32,
) -> Result<List<Name>, Memory>
    requires made { AreWithVacant problem.now made.now }
    requires complete { IsComplete made.now roster.now }
    requires pairing { pairing < length problem.now.base.pairings }
    ensures names { IfOk result (AreEligibleNames problem.now made.now roster.now pairing) }
{
    let mut names = List::new(alloc);
    for number in 0..problem.base.members.len() as u32 {
        if eligible(alloc, made, roster, number, pairing)? {
            let name = member_name(problem, number).copy(alloc)?;
            add(&mut names, name)?;
        }
    }
    Ok(names)
}

/// Appends an item.
pub(crate) fn add<T: Drop>(list: &mut List<T>, item: T) -> Result<(), Memory>
    ensures ok { OnOk result (list.new ≡ list.old ++ item ∷ []) }
{
    match list.push(item) {
        Ok(()) => Ok(()),
        Err(_) => Err(Memory::NoMemory),
    }
}

/// The row of a pairing that so many vacant lines have.
fn open_row(
    alloc: Global,
    problem: &Problem,
    made: &Problem,
    roster: &Roster,
    number: u32,
    count: u32,
) -> Result<OpenRow, Memory>
    requires made { AreWithVacant problem.now made.now }
    requires complete { IsComplete made.now roster.now }
    requires number { number < length problem.now.base.pairings }
    requires count { count ≡ vacant_crew problem.now roster.now number }
    ensures row { IfOk result (IsOpenRow problem.now made.now roster.now) }
    ensures number { IfOk result (λ row. row.number ≡ number) }
{
    let pairing = problem.base.pairings.as_slice()[number as usize]
        .name
        .copy(alloc)?;
    let members = eligible_names(alloc, problem, made, roster, number)?;
    Ok(OpenRow {
        number,
        pairing,
        count,
        members,
    })
}

/// A row for each pairing that a vacant line has.
pub(crate) fn open_rows(
    alloc: Global,
    problem: &Problem,
    made: &Problem,
    roster: &Roster,
) -> Result<List<OpenRow>, Memory>
    requires made { AreWithVacant problem.now made.now }
    requires complete { IsComplete made.now roster.now }
    ensures rows { IfOk result (AreOpenRows problem.now made.now roster.now) }
{
    let mut rows = List::new(alloc);
    for number in 0..problem.base.pairings.len() as u32 {
        let count = vacant_crew(problem, roster, number);
        if count > 0 {
            let row = open_row(alloc, problem, made, roster, number, count)?;
            add(&mut rows, row)?;
        }
    }
    Ok(rows)
}
