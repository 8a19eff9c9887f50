//! `diff`: what is otherwise in the roster of a folder than in another one.
ghost use Rattle.std.specs.Prelude.{◌≡◌};
ghost use Rattle.roster_text.specs.RosterText.{IsRoster};

use crate::award::{Award, tell_award, tell_roster_in};
use crate::runner::say;
use crate::status::DeskStatus;
use duty_calendar::Memory;
use file_places::Prose;
use roster_diff::{Difference, differences};
use roster_model::{Problem, Roster};
use shelf::{Shelf, Sink};
use std::alloc::Global;

/// Appends a line for each difference, and says whether there is one.
fn put_differences(
    alloc: Global,
    prose: &mut Prose,
    list: &[Difference],
) -> Result<DeskStatus, Memory> {
    for difference in list {
        let line = format!(in alloc; "{difference}")?;
        prose.text(line.as_bytes())?;
        prose.say(b"\n")?;
    }
    if list.is_empty() {
        return Ok(DeskStatus::Done);
    }
    Ok(DeskStatus::Warned)
}

/// Whether two months are the same one.
fn are_one_month(one: &Problem, other: &Problem) -> bool {
    let here = &one.base.rules.horizon;
    let there = &other.base.rules.horizon;
    here.year() == there.year() && here.month() == there.month()
}

/// The differences from one roster to another.
fn between(
    alloc: Global,
    before: &Problem,
    before_roster: &Roster,
    now: &Award,
) -> Result<Option<Vec<Difference>>, Memory>
    requires before { IsRoster before.now before_roster.now }
    requires now { IsRoster now.now.problem now.now.roster }
{
    let list = differences(alloc, before, before_roster, &now.problem, &now.roster)?;
    Ok(Some(list))
}

/// The differences from the award in a folder; where there are none to be told, why is appended.
fn from_folder<S: Shelf>(
    alloc: Global,
    other: &mut S,
    prose: &mut Prose,
    now: &Award,
) -> Result<Option<Vec<Difference>>, Memory>
    requires now { IsRoster now.now.problem now.now.roster }
    ensures kept { S.holds other.new ≡ S.holds other.old }
{
    let Some(before) = tell_award(alloc, other, prose)? else {
        prose.say(b"(this is said of the folder behind diff)\n")?;
        return Ok(None);
    };
    if !are_one_month(&before.problem, &now.problem) {
        prose.say(b"the folders are of two months\n")?;
        return Ok(None);
    }
    between(alloc, &before.problem, &before.roster, now)
}

/// The differences from another roster of the month; where there are none to be told, why is appended.
fn from_file<S: Shelf>(
    alloc: Global,
    other: &mut S,
    prose: &mut Prose,
    file: &str,
    now: &Award,
) -> Result<Option<Vec<Difference>>, Memory>
    requires now { IsRoster now.now.problem now.now.roster }
    ensures kept { S.holds other.new ≡ S.holds other.old }
{
    if file.is_empty() || file.len() > 32 {
        prose.say(b"the name of the file behind diff must have 1 to 32 bytes\n")?;
        return Ok(None);
    }
    let Some(before) = tell_roster_in(alloc, other, prose, file, &now.problem)? else {
        prose.say(b"(this is said of the file behind diff)\n")?;
        return Ok(None);
    };
    between(alloc, &now.problem, &before, now)
}

/// The differences of an award from that in another folder, or from a roster in a file there where one is named; where there
/// are none to be told, why is appended. No file is written.
pub fn differences_from<S: Shelf>(
    alloc: Global,
    other: &mut S,
    prose: &mut Prose,
    file: Option<&str>,
    now: &Award,
) -> Result<Option<Vec<Difference>>, Memory>
    requires now { IsRoster now.now.problem now.now.roster }
    ensures kept { S.holds other.new ≡ S.holds other.old }
{
    match file {
        Some(file) => from_file(alloc, other, prose, file, now),
        None => from_folder(alloc, other, prose, now),
    }
}

/// Appends what is otherwise in the award of a folder than in another folder, or in a file there where one is named.
fn say_diff<S: Shelf, T: Shelf>(
    alloc: Global,
    shelf: &mut S,
    other: &mut T,
    prose: &mut Prose,
    file: Option<&str>,
) -> Result<DeskStatus, Memory>
    ensures kept { S.holds shelf.new ≡ S.holds shelf.old }
    ensures other_kept { T.holds other.new ≡ T.holds other.old }
{
    let Some(now) = tell_award(alloc, shelf, prose)? else {
        return Ok(DeskStatus::Faulty);
    };
    match differences_from(alloc, other, prose, file, &now)? {
        Some(list) => put_differences(alloc, prose, list.as_slice()),
        None => Ok(DeskStatus::Faulty),
    }
}

/// Says what is otherwise in the award of a folder than in another folder, or in a file there where one is named. No file is
/// written.
pub fn run_diff<S: Shelf, T: Shelf, O: Sink>(
    alloc: Global,
    shelf: &mut S,
    other: &mut T,
    out: &mut O,
    file: Option<&str>,
) -> DeskStatus
    ensures kept { S.holds shelf.new ≡ S.holds shelf.old }
    ensures other_kept { T.holds other.new ≡ T.holds other.old }
{
    let mut prose = Prose::new(alloc);
    match say_diff(alloc, shelf, other, &mut prose, file) {
        Ok(status) => say(out, &prose, status),
        Err(Memory::NoMemory) => DeskStatus::NoMemory,
    }
}
