//! Pairings that no pilot may fly, and credit that does not fit.
ghost use Rattle.std.specs.Prelude.{◌<◌, length};

use crate::findings::Findings;
use crate::lone::line_alone;
use crate::rows::row_line;
use duty_calendar::{Event, Member, Memory};
use line_legality::{Illegal, legal};
use month_files::{File, Texts};
use roster_model::Problem;
use std::alloc::Global;

/// Whether a rule that a line breaks is broken by each line with more pairings too: all but too little credit, and a fourth
/// night in a row, which a flight in between may end.
pub fn stays(problem: &Problem, member: u32, why: Illegal) -> bool
    requires member { member < length problem.now.base.members }
{
    match why {
        Illegal::Credit(credit) => credit > problem.base.members.as_slice()[member as usize].high,
        Illegal::Night(_) => false,
        _ => true,
    }
}

/// Whether a member may fly a pairing, as far as the pairing alone can tell.
pub fn may_fly(alloc: Global, problem: &Problem, member: u32, pairing: u32) -> Result<bool, Memory>
    requires member { member < length problem.now.base.members }
    requires pairing { pairing < length problem.now.base.pairings }
{
    let Some(line) = line_alone(alloc, problem, pairing)? else {
        return Ok(true);
    };
    match legal(alloc, problem, member, &line) {
        Ok(()) => Ok(true),
        Err(Illegal::NoMemory) => Err(Memory::NoMemory),
        Err(why) => Ok(!stays(problem, member, why)),
    }
}

/// Whether some member may fly a pairing.
fn some_may_fly(alloc: Global, problem: &Problem, pairing: u32) -> Result<bool, Memory>
    requires pairing { pairing < length problem.now.base.pairings }
{
    for member in 0..problem.base.members.len() as u32 {
        if may_fly(alloc, problem, member, pairing)? {
            return Ok(true);
        }
    }
    Ok(false)
}

/// Adds plain words of a pairing, by number from 0.
fn say_pairing(
    found: &mut Findings,
    texts: &Texts,
    pairing: u32,
    text: &'static [u8],
) -> Result<(), Memory> {
    let line = row_line(found.alloc(), &texts.pairings, pairing.saturating_add(2))?;
    found.say(File::Pairings, line, text)
}

/// Notes a pairing that needs more pilots than there are, or that no pilot may fly.
fn note_trip(
    found: &mut Findings,
    texts: &Texts,
    problem: &Problem,
    pairing: u32,
) -> Result<(), Memory>
    requires pairing { pairing < length problem.now.base.pairings }
{
    let need = problem.base.pairings.as_slice()[pairing as usize].need;
    if need as usize > problem.base.members.len() {
        let text = b"the pairing needs more pilots than crew.csv has";
        say_pairing(found, texts, pairing, text)?;
    }
    if some_may_fly(found.alloc(), problem, pairing)? {
        return Ok(());
    }
    let text =
        b"no pilot may fly the pairing: with history and fixed rows it breaks a rule for each of them";
    say_pairing(found, texts, pairing, text)
}

/// The credit of events.
pub fn credit_of(events: &[Event]) -> u64 {
    let mut total: u64 = 0;
    for event in events {
        total = total.saturating_add(u64::from(event.credit));
    }
    total
}

/// The credit that all pairings have together, each as often as it is flown.
fn credit_flown(problem: &Problem) -> u64 {
    let mut total: u64 = 0;
    for pairing in problem.base.pairings.as_slice() {
        let each = u64::from(pairing.credit).saturating_mul(u64::from(pairing.need));
        total = total.saturating_add(each);
    }
    total
}

/// The least and the most credit of pairings that pilots may have together.
#[derive(Clone, Copy)]
struct Room {
    least: u64,
    most: u64,
}

/// The room of pilots.
fn room_of(members: &[Member]) -> Room {
    let mut room = Room { least: 0, most: 0 };
    for member in members {
        let fixed = credit_of(member.fixed.as_slice());
        let least = u64::from(member.low).saturating_sub(fixed);
        let most = u64::from(member.high).saturating_sub(fixed);
        room.least = room.least.saturating_add(least);
        room.most = room.most.saturating_add(most);
    }
    room
}

/// Notes that the credit of all pairings passes a bound.
fn note_credit(
    found: &mut Findings,
    flown: u64,
    text: &'static [u8],
    bound: u64,
) -> Result<(), Memory> {
    let mut words = found.words();
    words.say(b"the pairings have ")?;
    words.hours(u32::try_from(flown).unwrap_or(u32::MAX))?;
    words.say(text)?;
    words.hours(u32::try_from(bound).unwrap_or(u32::MAX))?;
    found.add(File::Crew, 0, words)
}

/// Notes pairings that cannot be flown, and credit that does not fit.
pub fn note_trips(found: &mut Findings, texts: &Texts, problem: &Problem) -> Result<(), Memory> {
    for pairing in 0..problem.base.pairings.len() as u32 {
        note_trip(found, texts, problem, pairing)?;
    }
    let flown = credit_flown(problem);
    let room = room_of(problem.base.members.as_slice());
    if flown < room.least {
        let text =
            b" of credit in all, too little: beside fixed rows the pilots must fly at least ";
        note_credit(found, flown, text, room.least)?;
    }
    if flown > room.most {
        let text = b" of credit in all, too much: beside fixed rows the pilots may fly at most ";
        note_credit(found, flown, text, room.most)?;
    }
    Ok(())
}
