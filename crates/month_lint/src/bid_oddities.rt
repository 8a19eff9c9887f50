//! Bids that look wrong.
ghost use Rattle.std.specs.Prelude.{◌<◌, length};
ghost use Rattle.roster_model.specs.Scores.{bids_of};

use crate::bid_pairs::note_beside;
use crate::bids::{At, bid_at, bid_count, line_of};
use crate::findings::Findings;
use crate::lone::empty_line;
use crate::trip_oddities::may_fly;
use bid_score::granted;
use duty_calendar::{Member, Memory};
use month_files::{File, Texts};
use roster_model::{Filter, Problem, Wish, holds};
use std::alloc::Global;

/// Which of the legal lines of a member are sure to grant a bid.
#[derive(Clone, Copy)]
enum Sure {
    None,
    All,
    Open,
}

/// None where this is so, else it is open.
fn none_if(never: bool) -> Sure {
    if never { Sure::None } else { Sure::Open }
}

/// None, or all, where one of these is so.
fn sure_if(never: bool, always: bool) -> Sure {
    if never {
        return Sure::None;
    }
    if always {
        return Sure::All;
    }
    Sure::Open
}

/// How many pairings of the month a filter keeps.
fn count_kept(problem: &Problem, filter: &Filter) -> u32 {
    let mut count: u32 = 0;
    for pairing in 0..problem.base.pairings.len() as u32 {
        if holds(problem, filter, pairing) {
            count = count.saturating_add(1);
        }
    }
    count
}

/// Whether the line without a pairing grants a bid: none leaves more days free.
fn granted_empty(alloc: Global, problem: &Problem, member: u32, bid: u32) -> bool
    requires member { member < length problem.now.base.members }
    requires bid { bid < length (bids_of problem.now member) }
{
    match empty_line(alloc, problem) {
        Some(line) => granted(problem, member, bid, &line),
        None => true,
    }
}

/// Whether no line of a member that is legal has a pairing.
fn never_flies(alloc: Global, problem: &Problem, member: u32, pairing: u32) -> Result<bool, Memory>
    requires member { member < length problem.now.base.members }
{
    if pairing as usize >= problem.base.pairings.len() {
        return Ok(false);
    }
    Ok(!may_fly(alloc, problem, member, pairing)?)
}

/// What is sure of a wish, where the line without a pairing grants it or not.
fn sure_of(problem: &Problem, member: &Member, wish: &Wish, empty: bool) -> Sure {
    match wish {
        Wish::Fly(_) => Sure::Open,
        Wish::Avoid(filter) => sure_if(false, count_kept(problem, filter) == 0),
        Wish::Prefer(least, filter) => none_if(count_kept(problem, filter) < *least),
        Wish::Off(_, _) => none_if(!empty),
        Wish::CreditBelow(minutes) => sure_if(*minutes <= member.low, *minutes > member.high),
        Wish::CreditAbove(minutes) => sure_if(*minutes >= member.high, *minutes < member.low),
        Wish::DaysOff(days) => sure_if(!empty, *days <= problem.base.rules.days_off),
    }
}

/// What is sure of a bid.
fn sure_of_bid(alloc: Global, problem: &Problem, member: u32, bid: u32) -> Result<Sure, Memory>
    requires member { member < length problem.now.base.members }
    requires bid { bid < length (bids_of problem.now member) }
{
    let wish = &bid_at(problem, member, bid).wish;
    if let Wish::Fly(pairing) = wish {
        return Ok(none_if(never_flies(alloc, problem, member, *pairing)?));
    }
    let known = &problem.base.members.as_slice()[member as usize];
    let empty = granted_empty(alloc, problem, member, bid);
    Ok(sure_of(problem, known, wish, empty))
}

/// What is said of a bid of which this is sure.
fn said_of(sure: Sure) -> Option<&'static [u8]> {
    match sure {
        Sure::None => Some(b"no legal line of the pilot grants the bid"),
        Sure::All => Some(b"each legal line of the pilot grants the bid"),
        Sure::Open => None,
    }
}

/// Notes what is sure of a bid.
fn note_sure(
    found: &mut Findings,
    texts: &Texts,
    problem: &Problem,
    at: At,
    sure: Sure,
) -> Result<(), Memory> {
    match said_of(sure) {
        Some(text) => found.say(File::Bids, line_of(texts, problem, at), text),
        None => Ok(()),
    }
}

/// Notes what looks wrong of the bids of a member.
fn note_bids_of(
    found: &mut Findings,
    texts: &Texts,
    problem: &Problem,
    member: u32,
) -> Result<(), Memory>
    requires member { member < length problem.now.base.members }
{
    for bid in 0..bid_count(problem, member) {
        let at = At { member, bid };
        let sure = sure_of_bid(found.alloc(), problem, member, bid)?;
        note_sure(found, texts, problem, at, sure)?;
        note_beside(found, texts, problem, at)?;
    }
    Ok(())
}

/// Notes what looks wrong of bids.
pub fn note_bids(found: &mut Findings, texts: &Texts, problem: &Problem) -> Result<(), Memory> {
    for member in 0..problem.base.members.len() as u32 {
        note_bids_of(found, texts, problem, member)?;
    }
    Ok(())
}
