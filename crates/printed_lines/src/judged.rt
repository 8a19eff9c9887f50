//! What the judge says, from its numbers. Members, pairings, bids, proofs and items count from 1.

use crate::faults::{number_at, small, small_at};
use line_legality::Illegal;

/// What is wrong with a lens.
#[derive(Clone, Copy)]
pub enum LensFlaw {
    Untrackable(u32),
    Windows(u32),
    Window(u32),
    Grain,
}

/// Why an item of a proof is not accepted.
#[derive(Clone, Copy)]
pub enum ItemFlaw {
    Index,
    Decided,
    Covered,
    Undecided(u32),
    Fits,
    /// A member, and the fault of the member's lens.
    Lens(u32, LensFlaw),
    Line(u32),
    Nothing(u32),
    /// What the best lines weigh, and what the needs.
    Sum(i64, i64),
    /// How many weights and how many lenses there are.
    Width(u32, u32),
}

/// What is not so.
#[derive(Clone, Copy)]
pub enum Judged {
    /// A member, and the rule that the member's line breaks.
    Member(u32, Illegal),
    /// A pairing, and how many members fly it.
    Cover(u32, u32),
    Amount(u32),
    /// A proof, an item of it, and its fault.
    Item(u32, u32, ItemFlaw),
    Left(u32),
    /// A member, and a bid of the member.
    Reason(u32, u32),
    Shown(u32, u32),
}

/// The rule with this code, and its place.
pub fn illegal_of(code: i64, place: i64) -> Option<Illegal> {
    let place = small(place)?;
    match code {
        1 => Some(Illegal::Overlap(place)),
        2 => Some(Illegal::Rest(place)),
        3 => Some(Illegal::Free30(place)),
        4 => Some(Illegal::Flight672(place)),
        5 => Some(Illegal::Duty168(place)),
        6 => Some(Illegal::Duty672(place)),
        7 => Some(Illegal::Flight365(place)),
        8 => Some(Illegal::Credit(place)),
        9 => Some(Illegal::DaysOff(place)),
        10 => Some(Illegal::Night(place)),
        _ => None,
    }
}

/// The fault of a lens that the numbers from a place on say.
fn lens_flaw(numbers: &[i64], from: usize) -> Option<LensFlaw> {
    let next = from.saturating_add(1);
    match number_at(numbers, from)? {
        1 => Some(LensFlaw::Untrackable(small_at(numbers, next)?)),
        2 => Some(LensFlaw::Windows(small_at(numbers, next)?)),
        3 => Some(LensFlaw::Window(small_at(numbers, next)?)),
        4 => Some(LensFlaw::Grain),
        _ => None,
    }
}

/// The fault of a lens or of a sum that the numbers from a place on say.
fn long_flaw(numbers: &[i64], from: usize) -> Option<ItemFlaw> {
    let next = from.saturating_add(1);
    let last = from.saturating_add(2);
    match number_at(numbers, from)? {
        6 => Some(ItemFlaw::Lens(small_at(numbers, next)?, lens_flaw(numbers, last)?)),
        9 => Some(ItemFlaw::Sum(number_at(numbers, next)?, number_at(numbers, last)?)),
        10 => Some(ItemFlaw::Width(small_at(numbers, next)?, small_at(numbers, last)?)),
        _ => None,
    }
}

/// The fault of an item that the numbers from a place on say.
fn item_flaw(numbers: &[i64], from: usize) -> Option<ItemFlaw> {
    let next = from.saturating_add(1);
    match number_at(numbers, from)? {
        1 => Some(ItemFlaw::Index),
        2 => Some(ItemFlaw::Decided),
        3 => Some(ItemFlaw::Covered),
        4 => Some(ItemFlaw::Undecided(small_at(numbers, next)?)),
        5 => Some(ItemFlaw::Fits),
        7 => Some(ItemFlaw::Line(small_at(numbers, next)?)),
        8 => Some(ItemFlaw::Nothing(small_at(numbers, next)?)),
        _ => long_flaw(numbers, from),
    }
}

/// The line of a member that is not legal, as the numbers from a place on say.
fn member_flaw(numbers: &[i64], from: usize) -> Option<Judged> {
    let member = small_at(numbers, from)?;
    let rule = number_at(numbers, from.saturating_add(1))?;
    let place = number_at(numbers, from.saturating_add(2))?;
    Some(Judged::Member(member, illegal_of(rule, place)?))
}

/// The item of a proof that is not accepted, as the numbers from a place on say.
fn proof_flaw(numbers: &[i64], from: usize) -> Option<Judged> {
    let proof = small_at(numbers, from)?;
    let item = small_at(numbers, from.saturating_add(1))?;
    Some(Judged::Item(proof, item, item_flaw(numbers, from.saturating_add(2))?))
}

/// What the numbers from a place on say is not so.
pub fn judgement_of(numbers: &[i64], from: usize) -> Option<Judged> {
    let next = from.saturating_add(1);
    let last = from.saturating_add(2);
    match number_at(numbers, from)? {
        1 => member_flaw(numbers, next),
        2 => Some(Judged::Cover(small_at(numbers, next)?, small_at(numbers, last)?)),
        3 => Some(Judged::Amount(small_at(numbers, next)?)),
        4 => proof_flaw(numbers, next),
        5 => Some(Judged::Left(small_at(numbers, next)?)),
        6 => Some(Judged::Reason(small_at(numbers, next)?, small_at(numbers, last)?)),
        7 => Some(Judged::Shown(small_at(numbers, next)?, small_at(numbers, last)?)),
        _ => None,
    }
}
