//! Open trips, and who could fly them beside the line, by the law of lines.
ghost use Rattle.std.specs.Prelude.{◌≡◌, ◌<◌, All, length, nat_lt, true};
ghost use Rattle.std.specs.List.{list_all};

use duty_calendar::{List, Memory};
use line_legality::{Illegal, legal};
use month_page::{Pilot, counted, lack_of};
use roster_model::{Line, Problem};
use std::alloc::Global;

/// A pairing, by number from 0, for which so many pilots are wanting, and the members who could fly it, by number from 0.
#[derive(Drop)]
pub struct OpenTrip {
    pub pairing: u32,
    pub lack: u32,
    pub able: Vec<u32>,
}

/// Adds the numbers of a line on one side of a pairing: those below it, or those above.
fn push_side(list: &mut List<u32>, line: &[u32], pairing: u32, below: bool) -> Result<(), Memory> {
    for number in line {
        if *number != pairing && (*number < pairing) == below {
            if list.push(*number).is_err() {
                return Err(Memory::NoMemory);
            }
        }
    }
    Ok(())
}

/// A line and a pairing more, in order.
fn with_pairing(alloc: Global, line: &[u32], pairing: u32) -> Result<Option<Line>, Memory> {
    let mut list = List::new(alloc);
    push_side(&mut list, line, pairing, true)?;
    if list.push(pairing).is_err() {
        return Err(Memory::NoMemory);
    }
    push_side(&mut list, line, pairing, false)?;
    Ok(Line::new(list))
}

/// Whether each number is below a count.
fn are_below(numbers: &[u32], count: u32) -> bool
    ensures below { result ≡ list_all (λ n. nat_lt n count) numbers.now }
{
    numbers.iter().all(|number| *number < count)
}

/// Whether each number is one of a pairing.
#[tactic(auto, using(crate::proofs::Known::all_below))]
fn are_known(problem: &Problem, numbers: &[u32]) -> bool
    ensures known { result ≡ true → All (λ p. p < length problem.now.base.pairings) numbers.now }
{
    are_below(numbers, problem.base.pairings.len() as u32)
}

/// Whether a line is legal for a member.
fn is_legal(alloc: Global, problem: &Problem, member: u32, line: &Line) -> Result<bool, Memory> {
    if member >= problem.base.members.len() as u32 || !are_known(problem, line.pairings()) {
        return Ok(false);
    }
    match legal(alloc, problem, member, line) {
        Ok(()) => Ok(true),
        Err(Illegal::NoMemory) => Err(Memory::NoMemory),
        Err(_) => Ok(false),
    }
}

/// Whether a pilot could fly a pairing beside the line.
fn is_able(alloc: Global, problem: &Problem, pilot: &Pilot, pairing: u32) -> Result<bool, Memory> {
    if pilot.flies(pairing) {
        return Ok(false);
    }
    match with_pairing(alloc, pilot.line, pairing)? {
        Some(line) => is_legal(alloc, problem, pilot.place.saturating_sub(1), &line),
        None => Ok(false),
    }
}

/// The members who could fly a pairing beside their lines.
fn able(
    alloc: Global,
    problem: &Problem,
    pilots: &[Pilot],
    pairing: u32,
) -> Result<Vec<u32>, Memory> {
    let mut found = Vec::new(alloc);
    for pilot in pilots {
        if is_able(alloc, problem, pilot, pairing)? {
            found.push(pilot.place.saturating_sub(1))?;
        }
    }
    Ok(found)
}

/// The pairings for which pilots are wanting.
pub fn open_trips(
    alloc: Global,
    problem: &Problem,
    pilots: &[Pilot],
) -> Result<Vec<OpenTrip>, Memory> {
    let mut found = Vec::new(alloc);
    for (number, pairing) in problem.base.pairings.as_slice().iter().enumerate() {
        let pairing_number = counted(number);
        let lack = lack_of(pilots, pairing_number, pairing);
        if lack > 0 {
            found.push(OpenTrip {
                pairing: pairing_number,
                lack,
                able: able(alloc, problem, pilots, pairing_number)?,
            })?;
        }
    }
    Ok(found)
}
