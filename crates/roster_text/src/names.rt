//! The pairings that a row names.
ghost use Rattle.std.specs.Prelude.{◌≡◌, ◌<◌, IfOk, All, length};
ghost use Rattle.std.specs.Option.{option_map};
ghost use Rattle.roster_text.specs.NameReading.{after_separator, name_at};
ghost use Rattle.roster_text.specs.RowReading.{Gives, names_in, line_in, pairings_in};

use crate::fault::RosterTextCode;
use duty_calendar::List;
use roster_model::{Line, Problem};
use std::alloc::Global;

/// What stands behind a space, or behind the comma after the last name.
fn after_separator(bytes: &[u8]) -> Option<(&[u8], bool)>
    ensures value { option_map (λ x. (x.0.now, x.1)) result ≡ after_separator bytes.now }
{
    let (first, rest) = bytes.split_first()?;
    if *first == b' ' {
        return Some((rest, false));
    }
    if *first == b',' {
        return Some((rest, true));
    }
    None
}

/// What stands behind the name of a pairing.
#[tactic(auto, unfolding(crate::specs::NameReading::name_at))]
fn after_name<'a>(problem: &Problem, pairing: u32, bytes: &'a [u8]) -> Option<(&'a [u8], bool)>
    requires in_range { pairing < length problem.now.base.pairings }
    ensures value { option_map (λ x. (x.0.now, x.1)) result
        ≡ name_at problem.now pairing bytes.now }
{
    let name = &problem.base.pairings.as_slice()[pairing as usize].name;
    let rest = bytes.strip_prefix(name.bytes())?;
    after_separator(rest)
}

/// The pairings that are named in order.
fn names_of<'a>(
    alloc: Global,
    problem: &Problem,
    bytes: &'a [u8],
) -> Result<(List<u32>, &'a [u8]), RosterTextCode>
    ensures read { Gives (λ x. (x.0, x.1.now)) result (names_in problem.now bytes.now) }
{
    let mut line = List::new(alloc);
    let mut rest = bytes;
    for pairing in 0..problem.base.pairings.len() as u32 {
        let Some((after, is_last)) = after_name(problem, pairing, rest) else {
            continue;
        };
        if line.push(pairing).is_err() {
            return Err(RosterTextCode::NoMemory);
        }
        rest = after;
        if is_last {
            return Ok((line, rest));
        }
    }
    Err(RosterTextCode::Pairing)
}

/// The pairings of a row, and what stands behind the comma after them.
fn line_of<'a>(
    alloc: Global,
    problem: &Problem,
    bytes: &'a [u8],
) -> Result<(List<u32>, &'a [u8]), RosterTextCode>
    ensures read { Gives (λ x. (x.0, x.1.now)) result (line_in problem.now bytes.now) }
{
    let Some((first, rest)) = bytes.split_first() else {
        return Err(RosterTextCode::Pairing);
    };
    if *first == b',' {
        return Ok((List::new(alloc), rest));
    }
    names_of(alloc, problem, bytes)
}

/// The line of a row, and what stands behind the comma after it.
#[tactic(auto, unfolding(crate::specs::NameReading::pairings_at))]
fn ordered<'a>(
    alloc: Global,
    problem: &Problem,
    bytes: &'a [u8],
) -> Result<(Line, &'a [u8]), RosterTextCode>
    ensures read { Gives (λ x. (x.0, x.1.now)) result (pairings_in problem.now bytes.now) }
{
    let (pairings, rest) = line_of(alloc, problem, bytes)?;
    let Some(line) = Line::new(pairings) else {
        return Err(RosterTextCode::Pairing);
    };
    Ok((line, rest))
}

/// The same, and that the pairings are ones of the month.
pub fn pairings_of<'a>(
    alloc: Global,
    problem: &Problem,
    bytes: &'a [u8],
) -> Result<(Line, &'a [u8]), RosterTextCode>
    ensures read { Gives (λ x. (x.0, x.1.now)) result (pairings_in problem.now bytes.now) }
    ensures in_range { IfOk result (λ x. All (λ p. p < length problem.now.base.pairings) x.0) }
{
    ordered(alloc, problem, bytes)
}
