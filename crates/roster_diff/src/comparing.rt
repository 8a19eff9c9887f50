//! Two rosters, pilot by pilot.
ghost use Rattle.std.specs.Prelude.{◌≡◌, ◌<◌, All, length, IfSome};

use crate::difference::{Change, Difference, Standing};
use crate::side::{HeldBid, Side, no_side, side_of, text_of};
use duty_calendar::Memory;
use roster_model::{Problem, Roster};
use std::alloc::{AllocError, Global};

/// Names that are not among others.
fn without(alloc: Global, names: &[String], others: &[String]) -> Result<Vec<String>, AllocError> {
    let mut left = Vec::new(alloc);
    for name in names {
        if !others.contains(name) {
            left.push(String::from_str(alloc, name.as_str())?)?;
        }
    }
    Ok(left)
}

/// Whether bids have this one, and it is not granted.
fn has_denied(bids: &[HeldBid], text: &str) -> bool {
    bids.iter()
        .any(|bid| !bid.granted && bid.text.as_str() == text)
}

/// Granted bids that are among others, and denied there.
fn granted_here(
    alloc: Global,
    bids: &[HeldBid],
    others: &[HeldBid],
) -> Result<Vec<String>, AllocError> {
    let mut won = Vec::new(alloc);
    for bid in bids {
        if bid.granted && has_denied(others, bid.text.as_str()) {
            won.push(String::from_str(alloc, bid.text.as_str())?)?;
        }
    }
    Ok(won)
}

/// Who is compared.
#[derive(Clone, Copy)]
struct Pilot<'a> {
    place: u32,
    name: &'a [u8],
    standing: Standing,
}

/// What is otherwise of a pilot.
fn difference_of(
    alloc: Global,
    pilot: &Pilot<'_>,
    before: &Side,
    now: &Side,
) -> Result<Difference, AllocError> {
    Ok(Difference {
        place: pilot.place,
        name: text_of(alloc, pilot.name)?,
        standing: pilot.standing,
        gained: without(alloc, now.trips.as_slice(), before.trips.as_slice())?,
        lost: without(alloc, before.trips.as_slice(), now.trips.as_slice())?,
        credit: Change {
            before: before.credit,
            now: now.credit,
        },
        score: Change {
            before: before.score,
            now: now.score,
        },
        days_off: Change {
            before: before.days_off,
            now: now.days_off,
        },
        won: granted_here(alloc, now.bids.as_slice(), before.bids.as_slice())?,
        denied: granted_here(alloc, before.bids.as_slice(), now.bids.as_slice())?,
    })
}

/// The number of the member of this name.
fn member_named(problem: &Problem, name: &[u8]) -> Option<u32>
    ensures known { IfSome result (λ m. m < length problem.now.base.members) }
{
    for member in 0..problem.base.members.len() as u32 {
        if problem.base.members.as_slice()[member as usize]
            .name
            .bytes()
            == name
        {
            return Some(member);
        }
    }
    None
}

/// What a roster says of the pilot of this name; nothing where there is none.
fn side_named(
    alloc: Global,
    problem: &Problem,
    roster: &Roster,
    name: &[u8],
) -> Result<Side, Memory>
    requires lines { length roster.now ≡ length problem.now.base.members }
    requires in_range { All (All (λ p. p < length problem.now.base.pairings)) roster.now }
{
    match member_named(problem, name) {
        Some(member) => side_of(alloc, problem, roster, member),
        None => Ok(no_side(alloc)),
    }
}

/// Adds what is otherwise, where something is.
fn add(list: &mut Vec<Difference>, found: Difference) -> Result<(), AllocError> {
    if found.is_none() {
        return Ok(());
    }
    list.push(found)?;
    Ok(())
}

/// A member by number of a month, as the pilot who is compared: one who does not stand in the other month too has this
/// standing.
fn pilot_at<'a>(problem: &'a Problem, member: u32, other: &Problem, absent: Standing) -> Pilot<'a>
    requires member { member < length problem.now.base.members }
{
    let name = problem.base.members.as_slice()[member as usize]
        .name
        .bytes();
    let standing = match member_named(other, name) {
        Some(_) => Standing::Both,
        None => absent,
    };
    Pilot {
        place: member.saturating_add(1),
        name,
        standing,
    }
}

/// Adds what is otherwise of the members of a month.
fn add_members(
    alloc: Global,
    list: &mut Vec<Difference>,
    before: &Problem,
    before_roster: &Roster,
    now: &Problem,
    roster: &Roster,
) -> Result<(), Memory>
    requires lines_before { length before_roster.now ≡ length before.now.base.members }
    requires in_range_before { All (All (λ p. p < length before.now.base.pairings))
        before_roster.now }
    requires lines { length roster.now ≡ length now.now.base.members }
    requires in_range { All (All (λ p. p < length now.now.base.pairings)) roster.now }
{
    for member in 0..now.base.members.len() as u32 {
        let pilot = pilot_at(now, member, before, Standing::Joined);
        let was = side_named(alloc, before, before_roster, pilot.name)?;
        let is = side_of(alloc, now, roster, member)?;
        add(list, difference_of(alloc, &pilot, &was, &is)?)?;
    }
    Ok(())
}

/// Adds the members of the month of before who are not in that of now.
fn add_left(
    alloc: Global,
    list: &mut Vec<Difference>,
    before: &Problem,
    before_roster: &Roster,
    now: &Problem,
) -> Result<(), Memory>
    requires lines { length before_roster.now ≡ length before.now.base.members }
    requires in_range { All (All (λ p. p < length before.now.base.pairings)) before_roster.now }
{
    for member in 0..before.base.members.len() as u32 {
        let pilot = pilot_at(before, member, now, Standing::Left);
        if pilot.standing == Standing::Left {
            let was = side_of(alloc, before, before_roster, member)?;
            add(list, difference_of(alloc, &pilot, &was, &no_side(alloc))?)?;
        }
    }
    Ok(())
}

/// What is otherwise in a roster of a month than in one before: an entry for each pilot of whom something is, in order of
/// seniority, and behind them the pilots who are not in the month now. Pilots and trips are the same by their names, bids by
/// their texts. Credit, score, days off and granted bids are by each month's own files.
pub fn differences(
    alloc: Global,
    before: &Problem,
    before_roster: &Roster,
    now: &Problem,
    roster: &Roster,
) -> Result<Vec<Difference>, Memory>
    requires lines_before { length before_roster.now ≡ length before.now.base.members }
    requires in_range_before { All (All (λ p. p < length before.now.base.pairings))
        before_roster.now }
    requires lines { length roster.now ≡ length now.now.base.members }
    requires in_range { All (All (λ p. p < length now.now.base.pairings)) roster.now }
{
    let mut list = Vec::new(alloc);
    add_members(alloc, &mut list, before, before_roster, now, roster)?;
    add_left(alloc, &mut list, before, before_roster, now)?;
    Ok(list)
}
