//! Sets of bids that need no search: a class with a smaller number has all their lines.
ghost use Rattle.std.specs.Prelude.{◌≡◌, ◌<◌, ◌≤◌, ℕ, Bool, IfSome, length, true};
ghost use Rattle.lens_classes.specs.Classes.{IsClassLens, IsTerms, is_in};
ghost use Rattle.lens_classes.specs.Laws.{IsWider};
ghost use Rattle.lens_classes.specs.TermLines.{is_counted};
ghost use Rattle.line_generator.specs.ClassLines.{HasLinesOf, IsSpared, spread};

use crate::implied::loses_implied;
use crate::question::Question;
use crate::sets::spread;
use lens_classes::{Terms, class_terms};
use line_items::is_set;
use line_lens::loose_weight;
use roster_model::{Lens, Problem};

/// The sets of a lens have numbers below 2 to this.
const BITS: u32 = 8;

/// Whether the terms want no pairings of a kind that the others do not want.
fn counts_no_more(wide: &Terms, terms: &Terms) -> bool
    ensures counted { result ≡ true → (bid : ℕ) → is_counted wide.now bid ≡ true
        → is_counted terms.now bid ≡ true }
{
    wide.counted & terms.counted == wide.counted
}

/// Whether the terms ask for no narrower credit and no more days off than the others.
fn spans_no_less(wide: &Terms, terms: &Terms) -> bool
    ensures low { result ≡ true → wide.now.low ≤ terms.now.low }
    ensures high { result ≡ true → terms.now.high ≤ wide.now.high }
    ensures days { result ≡ true → wide.now.days_off ≤ terms.now.days_off }
{
    wide.low <= terms.low && terms.high <= wide.high && wide.days_off <= terms.days_off
}

/// Whether the terms ask no more than the others, or for no more weight than all lines of the lens have.
fn is_wider(problem: &Problem, member: u32, lens: &Lens, wide: &Terms, terms: &Terms) -> bool
    requires member { member < length problem.now.base.members }
    ensures wider { result ≡ true → IsWider problem.now member lens.now wide.now terms.now }
{
    let loose = u64::from(loose_weight(problem, member, lens));
    if wide.floor > terms.floor.max(loose) || wide.asked != terms.asked {
        return false;
    }
    spans_no_less(wide, terms) && counts_no_more(wide, terms)
}

/// The number without this bit, where it has it.
fn without(number: u64, place: u32) -> Option<u64>
    requires in_bits { place < 64 }
    ensures less { IfSome result (λ less. less < number) }
{
    if !is_set(number, place) {
        return None;
    }
    number.checked_sub(1 << place)
}

impl Question<'_> {
    /// Whether the class that grants these bids has all lines of that with the terms. The lens is that of classes that ask for
    /// no days off.
    fn has_lines_of(&self, narrow: &Lens, granted: u64, terms: &Terms) -> bool
        requires member { self.now.member < length self.now.problem.now.base.members }
        requires narrow { IsClassLens self.now.problem.now self.now.member self.now.lens.now 0
            narrow.now }
        ensures lines { result ≡ true → (set : ℕ → Bool)
            → IsTerms self.now.problem.now self.now.member self.now.goal.now self.now.lens.now set
            terms.now
            → HasLinesOf self.now.problem.now self.now.member self.now.goal.now self.now.lens.now
            (is_in granted) set }
    {
        let (problem, member, lens) = (self.problem, self.member, self.lens);
        let Some(wide) = class_terms(problem, member, self.goal, lens, granted) else {
            return false;
        };
        if !is_wider(problem, member, narrow, &wide, terms) {
            return false;
        }
        !loses_implied(problem, member, lens, granted, &wide)
    }

    /// Whether the class that grants one bid less than that with this number has all its lines.
    fn is_spared_without(
        &self,
        narrow: &Lens,
        bids: u64,
        number: u64,
        place: u32,
        terms: &Terms,
    ) -> bool
        requires member { self.now.member < length self.now.problem.now.base.members }
        requires narrow { IsClassLens self.now.problem.now self.now.member self.now.lens.now 0
            narrow.now }
        requires terms { IsTerms self.now.problem.now self.now.member self.now.goal.now
            self.now.lens.now (spread (is_in bids) number) terms.now }
        requires in_bits { place < 64 }
        ensures spared { result ≡ true → IsSpared self.now.problem.now self.now.member
            self.now.goal.now self.now.lens.now (is_in bids) number }
    {
        let Some(less) = without(number, place) else {
            return false;
        };
        let granted = spread(bids, less);
        self.has_lines_of(narrow, granted, terms)
    }

    /// Whether a class with a smaller number has all lines of that with this number. The lens is that of classes that ask for no
    /// days off.
    pub(crate) fn is_spared(&self, narrow: &Lens, bids: u64, number: u64) -> bool
        requires member { self.now.member < length self.now.problem.now.base.members }
        requires narrow { IsClassLens self.now.problem.now self.now.member self.now.lens.now 0
            narrow.now }
        ensures spared { result ≡ true → IsSpared self.now.problem.now self.now.member
            self.now.goal.now self.now.lens.now (is_in bids) number }
    {
        let (problem, member) = (self.problem, self.member);
        let granted = spread(bids, number);
        let Some(terms) = class_terms(problem, member, self.goal, self.lens, granted) else {
            return false;
        };
        for place in 0..BITS {
            if self.is_spared_without(narrow, bids, number, place, &terms) {
                return true;
            }
        }
        false
    }
}
