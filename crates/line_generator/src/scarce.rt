//! Bids that want more pairings of a kind than the month has.
ghost use Rattle.std.specs.Prelude.{◌≡◌, ◌<◌, length, true};
ghost use Rattle.duty_calendar.specs.Minutes.{count_between};
ghost use Rattle.roster_model.specs.Filters.{is_kept};
ghost use Rattle.line_generator.specs.Scarce.{CountsScarce, IsScarce};

use lens_classes::Terms;
use line_items::{bids_of, is_set};
use roster_model::{Filter, Problem, Wish, holds};

/// How many pairings of the month the filter keeps.
#[tactic(auto, using(duty_calendar::proofs::Counting::counting))]
fn kept_pairings(problem: &Problem, filter: &Filter) -> u32
    ensures kept { result ≡ count_between (is_kept problem.now filter.now) 0
        (length problem.now.base.pairings) }
{
    let mut kept = 0;
    for pairing in 0..problem.base.pairings.len() as u32 {
        if holds(problem, filter, pairing) {
            kept += 1;
        }
    }
    kept
}

/// Whether the wish wants more pairings of a kind than the month has.
fn is_scarce(problem: &Problem, wish: &Wish) -> bool
    ensures scarce { result ≡ true → IsScarce problem.now wish.now }
{
    match wish {
        Wish::Prefer(least, filter) => kept_pairings(problem, filter) < *least,
        Wish::Fly(_) | Wish::Avoid(_) | Wish::Off(_, _) => false,
        Wish::CreditBelow(_) | Wish::CreditAbove(_) | Wish::DaysOff(_) => false,
    }
}

/// Whether the terms count pairings of a kind of which the month has too few.
pub(crate) fn counts_scarce(problem: &Problem, member: u32, terms: &Terms) -> bool
    requires member { member < length problem.now.base.members }
    ensures scarce { result ≡ true → CountsScarce problem.now member terms.now }
{
    let counted = terms.counted;
    let bids = bids_of(problem, member);
    for number in 0..bids.len() {
        if !is_set(counted, number as u32) {
            continue;
        }
        if is_scarce(problem, &bids[number].wish) {
            return true;
        }
    }
    false
}
