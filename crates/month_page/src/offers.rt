//! Which trades of a pilot would be taken today, by the tests of `trade`.
ghost use Rattle.std.specs.Prelude.{◌≡◌, ◌<◌, All, IfOk, length, true};
ghost use Rattle.roster_model.specs.Rosters.{IsComplete};
ghost use Rattle.trade_desk.specs.Trades.{IsTrade};

use duty_calendar::Memory;
use line_legality::{RosterFault, complete};
use roster_model::{Problem, Roster};
use std::alloc::Global;
use trade_desk::{Refusal, Trade, judge_trade};

/// Whether a roster is complete. Only then trades are judged.
pub fn is_complete(alloc: Global, problem: &Problem, roster: &Roster) -> Result<bool, Memory>
    requires lines { length roster.now ≡ length problem.now.base.members }
    requires in_range { All (All (λ p. p < length problem.now.base.pairings)) roster.now }
    ensures complete { IfOk result (λ b. b ≡ true → IsComplete problem.now roster.now) }
{
    match complete(alloc, problem, roster) {
        Ok(()) => Ok(true),
        Err(RosterFault::NoMemory) => Err(Memory::NoMemory),
        Err(_) => Ok(false),
    }
}

/// Whether a trade would be taken.
fn is_allowed(
    alloc: Global,
    problem: &Problem,
    roster: &Roster,
    trade: &Trade,
) -> Result<bool, Memory>
    requires complete { IsComplete problem.now roster.now }
    requires known { IsTrade problem.now trade.now }
{
    match judge_trade(alloc, problem, roster, trade) {
        Ok(()) => Ok(true),
        Err(Refusal::NoMemory) => Err(Memory::NoMemory),
        Err(_) => Ok(false),
    }
}

/// Two members and a pairing that the first would give to the second.
#[derive(Clone, Copy)]
struct Gift {
    giver: u32,
    pairing: u32,
    receiver: u32,
}

/// Adds a move that would be taken.
fn push_move(
    alloc: Global,
    problem: &Problem,
    roster: &Roster,
    found: &mut Vec<Trade>,
    gift: Gift,
) -> Result<(), Memory>
    requires complete { IsComplete problem.now roster.now }
{
    let members = problem.base.members.len() as u32;
    if gift.giver >= members || gift.receiver >= members {
        return Ok(());
    }
    if gift.pairing >= problem.base.pairings.len() as u32 {
        return Ok(());
    }
    let trade = Trade::Move(gift.giver, gift.pairing, gift.receiver);
    if is_allowed(alloc, problem, roster, &trade)? {
        found.push(trade)?;
    }
    Ok(())
}

/// Adds a swap that would be taken: of what is given for this pairing of the receiver.
fn push_swap(
    alloc: Global,
    problem: &Problem,
    roster: &Roster,
    found: &mut Vec<Trade>,
    gift: Gift,
    taken: u32,
) -> Result<(), Memory>
    requires complete { IsComplete problem.now roster.now }
{
    let members = problem.base.members.len() as u32;
    let pairings = problem.base.pairings.len() as u32;
    if gift.giver >= members || gift.receiver >= members {
        return Ok(());
    }
    if gift.pairing >= pairings || taken >= pairings {
        return Ok(());
    }
    let trade = Trade::Swap(gift.giver, gift.pairing, gift.receiver, taken);
    if is_allowed(alloc, problem, roster, &trade)? {
        found.push(trade)?;
    }
    Ok(())
}

/// The line of a member, where there is such a member.
fn line_of(roster: &Roster, member: u32) -> &[u32] {
    match roster.as_slice().get(member as usize) {
        Some(line) => line.pairings(),
        None => &[],
    }
}

/// Adds the swaps of a pairing for those of another member.
fn push_swaps(
    alloc: Global,
    problem: &Problem,
    roster: &Roster,
    found: &mut Vec<Trade>,
    gift: Gift,
) -> Result<(), Memory>
    requires complete { IsComplete problem.now roster.now }
{
    for taken in line_of(roster, gift.receiver) {
        push_swap(alloc, problem, roster, found, gift, *taken)?;
    }
    Ok(())
}

/// What a member can do with a pairing: give it to another, or swap it for one of another's.
#[derive(Clone, Copy)]
enum Offer {
    Give,
    Swap,
}

/// Adds what can be done with a pairing of a member, to or with each other member.
fn push_offers(
    alloc: Global,
    problem: &Problem,
    roster: &Roster,
    found: &mut Vec<Trade>,
    giver: u32,
    pairing: u32,
    offer: Offer,
) -> Result<(), Memory>
    requires complete { IsComplete problem.now roster.now }
{
    for receiver in 0..problem.base.members.len() as u32 {
        let gift = Gift {
            giver,
            pairing,
            receiver,
        };
        match offer {
            Offer::Give => push_move(alloc, problem, roster, found, gift)?,
            Offer::Swap => push_swaps(alloc, problem, roster, found, gift)?,
        }
    }
    Ok(())
}

/// The offers of a kind of a member that would be taken.
fn offers_of(
    alloc: Global,
    problem: &Problem,
    roster: &Roster,
    member: u32,
    offer: Offer,
) -> Result<Vec<Trade>, Memory>
    requires complete { IsComplete problem.now roster.now }
{
    let mut found = Vec::new(alloc);
    for pairing in line_of(roster, member) {
        push_offers(alloc, problem, roster, &mut found, member, *pairing, offer)?;
    }
    Ok(found)
}

/// The moves of a pairing of the member that would be taken.
pub fn gifts_of(
    alloc: Global,
    problem: &Problem,
    roster: &Roster,
    member: u32,
) -> Result<Vec<Trade>, Memory>
    requires complete { IsComplete problem.now roster.now }
{
    offers_of(alloc, problem, roster, member, Offer::Give)
}

/// The swaps of a member that would be taken.
pub fn swaps_of(
    alloc: Global,
    problem: &Problem,
    roster: &Roster,
    member: u32,
) -> Result<Vec<Trade>, Memory>
    requires complete { IsComplete problem.now roster.now }
{
    offers_of(alloc, problem, roster, member, Offer::Swap)
}

/// Adds the moves of a member's pairings to another.
fn push_taken(
    alloc: Global,
    problem: &Problem,
    roster: &Roster,
    found: &mut Vec<Trade>,
    giver: u32,
    receiver: u32,
) -> Result<(), Memory>
    requires complete { IsComplete problem.now roster.now }
{
    for pairing in line_of(roster, giver) {
        let gift = Gift {
            giver,
            pairing: *pairing,
            receiver,
        };
        push_move(alloc, problem, roster, found, gift)?;
    }
    Ok(())
}

/// The moves of others' pairings to a member that would be taken.
pub fn takes_of(
    alloc: Global,
    problem: &Problem,
    roster: &Roster,
    member: u32,
) -> Result<Vec<Trade>, Memory>
    requires complete { IsComplete problem.now roster.now }
{
    let mut found = Vec::new(alloc);
    for giver in 0..problem.base.members.len() as u32 {
        push_taken(alloc, problem, roster, &mut found, giver, member)?;
    }
    Ok(found)
}
