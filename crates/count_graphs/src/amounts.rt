//! How many pairings bids want, and which pairings count.
ghost use Rattle.std.specs.Prelude.{◌≡◌, ◌<◌, length, map, if◌then◌else◌};
ghost use Rattle.roster_model.specs.Scores.{bids_of};
ghost use Rattle.count_graphs.specs.Counts.{amounts_of, counts_for, is_about, wanted_by, wanted_of, wants};

use roster_model::{Bid, Problem, Wish, holds};

/// The member's bids.
fn bids_of(problem: &Problem, member: u32) -> &[Bid]
    requires member { member < length problem.now.base.members }
    ensures bids { result.now ≡ bids_of problem.now member }
{
    let lists = problem.bids.as_slice();
    lists[member as usize].as_slice()
}

/// So many pairings the wish wants.
fn wants(wish: &Wish) -> u32
    ensures wants { result ≡ wants wish.now }
{
    match wish {
        Wish::Prefer(least, _) => *least,
        Wish::Fly(_) | Wish::Avoid(_) | Wish::Off(_, _) => 0,
        Wish::CreditBelow(_) | Wish::CreditAbove(_) | Wish::DaysOff(_) => 0,
    }
}

/// Whether the pairing is one of those that the wish wants.
fn is_about(problem: &Problem, pairing: u32, wish: &Wish) -> bool
    requires known { pairing < length problem.now.base.pairings }
    ensures about { result ≡ is_about problem.now pairing wish.now }
{
    match wish {
        Wish::Prefer(_, filter) => holds(problem, filter, pairing),
        Wish::Fly(_) | Wish::Avoid(_) | Wish::Off(_, _) => false,
        Wish::CreditBelow(_) | Wish::CreditAbove(_) | Wish::DaysOff(_) => false,
    }
}

/// So many pairings the member's bid of this number wants.
fn wanted_by(problem: &Problem, member: u32, bid: u32) -> u32
    requires member { member < length problem.now.base.members }
    ensures wanted { result ≡ wanted_by problem.now member bid }
{
    match bids_of(problem, member).get(bid as usize) {
        Some(bid) => wants(&bid.wish),
        None => 0,
    }
}

/// Whether the pairing counts for the member's bid of this number.
fn counts_for(problem: &Problem, member: u32, bid: u32, pairing: u32) -> bool
    requires member { member < length problem.now.base.members }
    ensures counts { result ≡ counts_for problem.now member bid pairing }
{
    if pairing as usize >= problem.base.pairings.len() {
        return false;
    }
    match bids_of(problem, member).get(bid as usize) {
        Some(bid) => is_about(problem, pairing, &bid.wish),
        None => false,
    }
}

/// One where it counts, else nothing.
fn amount(problem: &Problem, member: u32, bid: u32, pairing: u32) -> u32
    requires member { member < length problem.now.base.members }
    ensures amount { result ≡ (if counts_for problem.now member bid pairing then 1 else 0) }
{
    if counts_for(problem, member, bid, pairing) {
        return 1;
    }
    0
}

/// So many pairings each of the bids wants.
pub(crate) fn wanted_of(problem: &Problem, member: u32, slots: &[u32; 8]) -> [u32; 8]
    requires member { member < length problem.now.base.members }
    ensures wanted { result ≡ wanted_of problem.now member slots.now }
{
    let mut wanted = [0; 8];
    for k in 0..8usize {
        wanted[k] = wanted_by(problem, member, slots[k]);
    }
    wanted
}

/// What the pairing counts for each of the bids.
pub(crate) fn amounts_of(problem: &Problem, member: u32, slots: &[u32; 8], pairing: u32) -> [u32; 8]
    requires member { member < length problem.now.base.members }
    ensures amounts { result ≡ amounts_of problem.now member slots.now pairing }
{
    let mut amounts = [0; 8];
    for k in 0..8usize {
        amounts[k] = amount(problem, member, slots[k], pairing);
    }
    amounts
}
