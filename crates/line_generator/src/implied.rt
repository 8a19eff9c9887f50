//! Bids that all lines of a class grant.
ghost use Rattle.std.specs.Prelude.{◌≡◌, ◌<◌, ◌↔◌, ◌&&◌, true, false, length, not};
ghost use Rattle.roster_model.specs.Lenses.{is_tracked};
ghost use Rattle.lens_classes.specs.Classes.{is_in};
ghost use Rattle.line_generator.specs.ClassLines.{IsImpliedBy, KeepsImplied, LosesImplied};

use lens_classes::Terms;
use line_items::{bids_of, is_set};
use roster_model::{Lens, Problem, Wish};

/// Whether all lines that keep the terms grant the wish by their credit and days off.
fn is_implied(wish: &Wish, terms: &Terms) -> bool
    ensures implied { (result ≡ true) ↔ IsImpliedBy wish.now terms.now }
{
    match wish {
        Wish::CreditBelow(credit) => terms.high < *credit,
        Wish::CreditAbove(credit) => *credit < terms.low,
        Wish::DaysOff(days) => *days <= terms.days_off,
        Wish::Fly(_) | Wish::Avoid(_) | Wish::Prefer(_, _) | Wish::Off(_, _) => false,
    }
}

/// Whether the lens tracks the bid, and the set leaves it out.
fn is_left(lens: &Lens, granted: u64, bid: u32) -> bool
    requires in_bits { bid < 64 }
    ensures left { result ≡ (is_tracked lens.now bid && not (is_in granted bid)) }
{
    is_set(lens.tracked, bid) && !is_set(granted, bid)
}

/// Whether the set leaves out a tracked bid that all lines that keep the terms grant.
pub(crate) fn loses_implied(
    problem: &Problem,
    member: u32,
    lens: &Lens,
    granted: u64,
    terms: &Terms,
) -> bool
    requires member { member < length problem.now.base.members }
    ensures implied { result ≡ true → LosesImplied problem.now member lens.now (is_in granted)
        terms.now }
    ensures kept { result ≡ false → KeepsImplied problem.now member lens.now (is_in granted)
        terms.now }
{
    let bids = bids_of(problem, member);
    for number in 0..bids.len() {
        if !is_left(lens, granted, number as u32) {
            continue;
        }
        if is_implied(&bids[number].wish, terms) {
            return true;
        }
    }
    false
}
