//! The greatest weight over the classes of a lens.
ghost use Rattle.std.specs.Prelude.{◌≡◌, IfOk};
ghost use Rattle.line_generator.specs.ClassLines.{heavier};
ghost use Rattle.line_generator.specs.Overs.{IsClassBest, IsLensBest};
ghost use Rattle.line_generator.specs.Questions.{IsQuestion};
ghost use Rattle.term_lines.specs.Overs.{IsTermBest};
ghost use Rattle.term_lines.specs.Questions.{IsTermQuestion};

use crate::classes::{class_lens, class_of};
use crate::question::Question;
use crate::sets::{sets_of, spread, whole_bids};
use duty_calendar::Memory;
use label_lattice::Steps;
use std::alloc::Global;
use std::sync::ledger::Ledger;
use term_lines::{PricedLine, TermQuestion};

/// How a best line is looked for.
#[derive(Clone, Copy, PartialEq, Eq)]
pub(crate) enum By {
    /// By labels alone.
    Labels,
    /// By searches above bounds.
    Climbs,
}

/// The heavier of two lines.
fn heavier(first: Option<PricedLine>, second: Option<PricedLine>) -> Option<PricedLine>
    ensures heavier { result ≡ heavier first second }
{
    let Some(one) = first else {
        return second;
    };
    let Some(two) = second else {
        return Some(one);
    };
    if one.weight < two.weight {
        return Some(two);
    }
    Some(one)
}

/// The best line that keeps the terms.
fn best_by<L: Ledger>(
    alloc: Global,
    by: By,
    asked: &TermQuestion<'_>,
    steps: &mut Steps<L>,
) -> Result<Option<PricedLine>, Memory>
    requires asked { IsTermQuestion asked.now }
    ensures best { IfOk result (IsTermBest asked.now) }
{
    match by {
        By::Labels => asked.best(alloc, steps),
        By::Climbs => asked.heaviest(alloc, steps),
    }
}

impl Question<'_> {
    /// The best line of the class that grants these bids.
    fn best_of_class<L: Ledger>(
        &self,
        alloc: Global,
        by: By,
        granted: u64,
        steps: &mut Steps<L>,
    ) -> Result<Option<PricedLine>, Memory>
        requires asked { IsQuestion self.now }
        ensures best { IfOk result (IsClassBest self.now granted) }
    {
        let (problem, member) = (self.problem, self.member);
        let Some(class) = class_of(alloc, problem, member, self.goal, self.lens, granted)? else {
            return Ok(None);
        };
        let asked = TermQuestion {
            problem,
            member,
            terms: &class.terms,
            node: self.node,
            lens: &class.lens,
            weights: self.weights,
        };
        best_by(alloc, by, &asked, steps)
    }

    /// The best line of all classes of a lens.
    pub(crate) fn greatest_of_classes<L: Ledger>(
        &self,
        alloc: Global,
        by: By,
        steps: &mut Steps<L>,
    ) -> Result<Option<PricedLine>, Memory>
        requires asked { IsQuestion self.now }
        ensures best { IfOk result (IsLensBest self.now) }
    {
        let bids = whole_bids(self.problem, self.member, self.lens);
        let narrow = class_lens(alloc, self.problem, self.member, self.lens, 0)?;
        let mut best: Option<PricedLine> = None;
        for number in 0..sets_of(bids) {
            if self.is_spared(&narrow, bids, number) {
                continue;
            }
            let granted = spread(bids, number);
            let found = self.best_of_class(alloc, by, granted, steps)?;
            best = heavier(best, found);
        }
        Ok(best)
    }
}
