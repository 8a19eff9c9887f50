//! Bids of a pilot that exclude one another, or stand there twice.
ghost use Rattle.std.specs.Prelude.{◌<◌, length};
ghost use Rattle.roster_model.specs.Scores.{bids_of};

use crate::bids::{At, bid_at, line_of};
use crate::findings::Findings;
use crate::lone::line_alone;
use bid_score::granted;
use duty_calendar::Memory;
use file_places::Prose;
use month_files::{File, Texts};
use roster_model::{Problem, Wish};
use std::alloc::Global;

/// What two bids of a member have to do with one another.
#[derive(Clone, Copy)]
enum Pair {
    Same,
    Against,
    Apart,
}

/// The pairing that a bid asks for, where another bid is one that more pairings can only lose.
fn asked_against(wish: &Wish, other: &Wish) -> Option<u32> {
    match other {
        Wish::Avoid(_) | Wish::Off(_, _) => match wish {
            Wish::Fly(pairing) => Some(*pairing),
            _ => None,
        },
        _ => None,
    }
}

/// Whether a bid asks for a pairing with which another is denied.
fn excludes(
    alloc: Global,
    problem: &Problem,
    member: u32,
    first: u32,
    other: u32,
) -> Result<bool, Memory>
    requires member { member < length problem.now.base.members }
    requires first { first < length (bids_of problem.now member) }
    requires other { other < length (bids_of problem.now member) }
{
    let wish = &bid_at(problem, member, first).wish;
    let Some(pairing) = asked_against(wish, &bid_at(problem, member, other).wish) else {
        return Ok(false);
    };
    if pairing as usize >= problem.base.pairings.len() {
        return Ok(false);
    }
    match line_alone(alloc, problem, pairing)? {
        Some(line) => Ok(!granted(problem, member, other, &line)),
        None => Ok(false),
    }
}

/// What two bids of a member have to do with one another.
fn pair_of(
    alloc: Global,
    problem: &Problem,
    member: u32,
    bid: u32,
    other: u32,
) -> Result<Pair, Memory>
    requires member { member < length problem.now.base.members }
    requires bid { bid < length (bids_of problem.now member) }
    requires other { other < length (bids_of problem.now member) }
{
    if bid_at(problem, member, bid).wish == bid_at(problem, member, other).wish {
        return Ok(Pair::Same);
    }
    if excludes(alloc, problem, member, bid, other)? {
        return Ok(Pair::Against);
    }
    if excludes(alloc, problem, member, other, bid)? {
        return Ok(Pair::Against);
    }
    Ok(Pair::Apart)
}

/// Appends a line to a list of lines.
fn put_line(list: &mut Prose, line: u64) -> Result<(), Memory> {
    if !list.is_empty() {
        list.say(b", ")?;
    }
    list.say(b"line ")?;
    list.number(line)
}

/// Notes words of a bid with a list of lines behind them, where it has any.
fn note_lines(
    found: &mut Findings,
    texts: &Texts,
    problem: &Problem,
    at: At,
    text: &'static [u8],
    list: &Prose,
) -> Result<(), Memory> {
    if list.is_empty() {
        return Ok(());
    }
    let mut words = found.words();
    words.say(text)?;
    words.add(list)?;
    found.add(File::Bids, line_of(texts, problem, at), words)
}

/// Notes what a bid has to do with those above it.
pub fn note_beside(
    found: &mut Findings,
    texts: &Texts,
    problem: &Problem,
    at: At,
) -> Result<(), Memory>
    requires member { at.member < length problem.now.base.members }
    requires bid { at.bid < length (bids_of problem.now at.member) }
{
    let mut same = found.words();
    let mut against = found.words();
    for bid in 0..at.bid {
        let above = At { bid, ..at };
        match pair_of(found.alloc(), problem, at.member, at.bid, bid)? {
            Pair::Same => put_line(&mut same, line_of(texts, problem, above))?,
            Pair::Against => put_line(&mut against, line_of(texts, problem, above))?,
            Pair::Apart => {}
        }
    }
    let twice = b"the pilot has the same wish in ";
    note_lines(found, texts, problem, at, twice, &same)?;
    let never = b"no line grants both the bid and that of ";
    note_lines(found, texts, problem, at, never, &against)
}
