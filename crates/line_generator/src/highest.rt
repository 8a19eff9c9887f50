//! A line above a bound, of one of the classes of a lens.
ghost use Rattle.std.specs.Prelude.{◌≡◌, false, true, ◌+◌, ◌*◌, ◌≤◌, IfOk, Ok};
ghost use Rattle.line_generator.specs.ClassLines.{raised};
ghost use Rattle.line_generator.specs.Overs.{IsClassOver, IsLensBest, IsLensOver, over_of_best, with_answer};
ghost use Rattle.line_generator.specs.Questions.{IsQuestion};
ghost use Rattle.term_lines.specs.Overs.{IfLine};

use crate::classes::{class_lens, class_of};
use crate::greatest::By;
use crate::question::Question;
use crate::sets::{sets_of, spread, whole_bids};
use duty_calendar::Memory;
use graph_climbs::{LOWEST, MOST_STEPS};
use label_lattice::Steps;
use std::alloc::Global;
use std::sync::ledger::Ledger;
use term_lines::{Over, PricedLine, Sought, TermQuestion, Wanted};

/// What is looked for above the weight of the line, where there is one.
fn raised(sought: &Sought, best: &Option<PricedLine>) -> Sought
    ensures wanted { result.wanted ≡ sought.now.wanted }
    ensures over { result.over ≡ raised best.now sought.now.over }
    ensures limit { result.limit ≡ sought.now.limit }
{
    match best {
        Some(priced) => Sought {
            over: priced.weight,
            ..*sought
        },
        None => *sought,
    }
}

/// The first line above the bound is wanted.
fn is_first(wanted: Wanted) -> bool
    ensures first { result ≡ true → wanted ≡ Wanted.First }
    ensures heaviest { result ≡ false → wanted ≡ Wanted.Heaviest }
{
    match wanted {
        Wanted::First => true,
        Wanted::Heaviest => false,
    }
}

/// After this answer no other class is looked at.
fn is_last(wanted: Wanted, answer: &Over) -> bool
    ensures first { result ≡ true → IfLine answer.now (λ b. wanted ≡ Wanted.First) }
    ensures some { result ≡ true → answer.now ≡ Over.Nothing → ⊥ }
    ensures heaviest { result ≡ false → IfLine answer.now (λ b. wanted ≡ Wanted.Heaviest) }
    ensures limit { result ≡ false → answer.now ≡ Over.Limit → ⊥ }
{
    match answer {
        Over::Line(_) => is_first(wanted),
        Over::Nothing => false,
        Over::Limit => true,
    }
}

/// The line that was found last.
fn with_answer(best: Option<PricedLine>, answer: Over) -> Option<PricedLine>
    ensures found { result ≡ with_answer best answer }
{
    match answer {
        Over::Line(priced) => Some(priced),
        Over::Nothing | Over::Limit => best,
    }
}

/// The answer where all classes were looked at.
fn answer_of(best: Option<PricedLine>) -> Over
    ensures over { result ≡ over_of_best best }
{
    match best {
        Some(priced) => Over::Line(priced),
        None => Over::Nothing,
    }
}

impl Question<'_> {
    /// A line above the bound of the class that grants these bids.
    fn over_of_class<L: Ledger>(
        &self,
        alloc: Global,
        granted: u64,
        sought: &Sought,
        steps: &mut Steps<L>,
    ) -> Result<Over, Memory>
        requires asked { IsQuestion self.now }
        ensures over { IfOk result (IsClassOver self.now granted sought.now) }
        ensures limit { result ≡ Ok Over.Limit → steps.new ≡ steps.old + sought.now.limit }
        ensures onward { IfOk result (λ answer. steps.old ≤ steps.new) }
        ensures steps { steps.new ≤ steps.old + sought.now.limit }
    {
        let (problem, member) = (self.problem, self.member);
        let Some(class) = class_of(alloc, problem, member, self.goal, self.lens, granted)? else {
            return Ok(Over::Nothing);
        };
        let asked = TermQuestion {
            problem,
            member,
            terms: &class.terms,
            node: self.node,
            lens: &class.lens,
            weights: self.weights,
        };
        asked.over(alloc, sought, steps)
    }

    /// A line above the bound of any class of a lens: the first that is found, or a heaviest of all.
    pub(crate) fn over_of_classes<L: Ledger>(
        &self,
        alloc: Global,
        sought: &Sought,
        steps: &mut Steps<L>,
    ) -> Result<Over, Memory>
        requires asked { IsQuestion self.now }
        ensures over { IfOk result (IsLensOver self.now sought.now) }
        ensures limit { result ≡ Ok Over.Limit → steps.old + sought.now.limit ≤ steps.new }
        ensures onward { IfOk result (λ answer. steps.old ≤ steps.new) }
        ensures steps { steps.new ≤ steps.old + 256 * sought.now.limit }
    {
        let bids = whole_bids(self.problem, self.member, self.lens);
        let narrow = class_lens(alloc, self.problem, self.member, self.lens, 0)?;
        let mut best: Option<PricedLine> = None;
        for number in 0..sets_of(bids) {
            if self.is_spared(&narrow, bids, number) {
                continue;
            }
            let granted = spread(bids, number);
            let higher = raised(sought, &best);
            let answer = self.over_of_class(alloc, granted, &higher, steps)?;
            if is_last(sought.wanted, &answer) {
                return Ok(answer);
            }
            best = with_answer(best, answer);
        }
        Ok(answer_of(best))
    }

    /// The heaviest line of all classes of a lens, each searched above the best line of those before it. Where that takes too
    /// many steps, each is searched by itself.
    pub(crate) fn heaviest_of_classes<L: Ledger>(
        &self,
        alloc: Global,
        steps: &mut Steps<L>,
    ) -> Result<Option<PricedLine>, Memory>
        requires asked { IsQuestion self.now }
        ensures best { IfOk result (IsLensBest self.now) }
    {
        let sought = Sought {
            wanted: Wanted::Heaviest,
            over: LOWEST,
            limit: MOST_STEPS,
        };
        let over = self.over_of_classes(alloc, &sought, steps)?;
        match over {
            Over::Line(priced) => Ok(Some(priced)),
            Over::Nothing => Ok(None),
            Over::Limit => self.greatest_of_classes(alloc, By::Climbs, steps),
        }
    }
}
