//! Pairings of vacant lines that a member can take.
ghost use Rattle.std.specs.Prelude.{◌+◌, ◌<◌, ◌≤◌, ℕ, List as Sequence, length, IfOk};
ghost use Rattle.roster_model.specs.Rosters.{IsComplete};
ghost use Rattle.open_time.specs.Moves.{IsKept, IsSettled, IsOffered, IsSwept};

use crate::lines::{is_flown, line_at};
use crate::moves::try_move;
use duty_calendar::Memory;
use roster_model::{Problem, Roster};
use std::alloc::Global;

/// More pairings than 200 lines have in a month of 600.
const MOST: u32 = 120_001;

/// A roster, and whether it came by a move.
#[derive(Drop, Debug)]
struct Swept {
    roster: Roster,
    moves: bool,
}

/// The roster after the pairing went to the first member who can take it.
fn offer(
    alloc: Global,
    problem: &Problem,
    crew: u32,
    roster: &Roster,
    giver: u32,
    pairing: u32,
) -> Result<Option<Roster>, Memory>
    requires complete { IsComplete problem.now roster.now }
    requires giver { giver < length problem.now.base.members }
    requires vacant { crew ≤ giver }
    requires pairing { pairing < length problem.now.base.pairings }
    ensures found { IfOk result (IsOffered problem.now crew roster.now giver pairing) }
{
    if !is_flown(line_at(roster, giver), pairing) {
        return Ok(None);
    }
    for taker in 0..crew {
        match try_move(alloc, problem, roster, giver, taker, pairing)? {
            Some(made) => return Ok(Some(made)),
            None => {}
        }
    }
    Ok(None)
}

/// What is swept after one pairing more was offered.
fn offer_next(
    alloc: Global,
    problem: &Problem,
    crew: u32,
    swept: Swept,
    giver: u32,
    pairing: u32,
) -> Result<Swept, Memory>
    requires complete { IsComplete problem.now swept.roster }
    requires giver { giver < length problem.now.base.members }
    requires vacant { crew ≤ giver }
    requires pairing { pairing < length problem.now.base.pairings }
    ensures swept { (first : Sequence (Sequence ℕ))
        → IsSwept problem.now crew giver pairing first swept.roster swept.moves
        → IfOk result (λ next.
        IsSwept problem.now crew giver (pairing + 1) first next.roster next.moves) }
    ensures complete { IfOk result (λ next. IsComplete problem.now next.roster) }
{
    match offer(alloc, problem, crew, &swept.roster, giver, pairing)? {
        Some(roster) => Ok(Swept {
            roster,
            moves: true,
        }),
        None => Ok(swept),
    }
}

/// What is swept after each pairing of a line was offered, in order.
fn sweep_line(
    alloc: Global,
    problem: &Problem,
    crew: u32,
    swept: Swept,
    giver: u32,
) -> Result<Swept, Memory>
    requires complete { IsComplete problem.now swept.roster }
    requires giver { giver < length problem.now.base.members }
    requires vacant { crew ≤ giver }
    ensures swept { (first : Sequence (Sequence ℕ))
        → IsSwept problem.now crew giver 0 first swept.roster swept.moves
        → IfOk result (λ next.
        IsSwept problem.now crew (giver + 1) 0 first next.roster next.moves) }
{
    let mut current = swept;
    for pairing in 0..problem.base.pairings.len() as u32 {
        current = offer_next(alloc, problem, crew, current, giver, pairing)?;
    }
    Ok(current)
}

/// The roster after each pairing of the lines from `crew` on was offered once.
fn sweep(alloc: Global, problem: &Problem, crew: u32, roster: Roster) -> Result<Swept, Memory>
    requires complete { IsComplete problem.now roster }
    requires crew { crew ≤ length problem.now.base.members }
    ensures swept { IfOk result (λ swept. IsSwept problem.now crew
        (length problem.now.base.members) 0 roster swept.roster swept.moves) }
{
    let mut current = Swept {
        roster,
        moves: false,
    };
    for giver in crew..problem.base.members.len() as u32 {
        current = sweep_line(alloc, problem, crew, current, giver)?;
    }
    Ok(current)
}

/// The roster after moves of a pairing from a line from `crew` on to one before, until there is none left to be made.
pub(crate) fn placed(
    alloc: Global,
    problem: &Problem,
    crew: u32,
    roster: Roster,
) -> Result<Roster, Memory>
    requires complete { IsComplete problem.now roster }
    requires crew { crew ≤ length problem.now.base.members }
    ensures kept { IfOk result (IsKept problem.now crew roster) }
    ensures settled { IfOk result (IsSettled problem.now crew) }
{
    let mut current = roster;
    for _sweep in 0..MOST {
        let swept = sweep(alloc, problem, crew, current)?;
        let moves = swept.moves;
        if !moves {
            return Ok(swept.roster);
        }
        current = swept.roster;
    }
    unreachable!()
}
