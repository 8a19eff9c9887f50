//! A line above a bound in turns, where one search may take long: briefly; by looser terms, which mostly tell in a few steps
//! that there is none; and with all steps. By a lens that looks at whole lines there is one search for all.
ghost use Rattle.std.specs.Prelude.{◌≡◌, ◌+◌, ◌*◌, ◌<◌, ◌≤◌, ◌^◌, IfOk, IsErrOf, Ok, OnOk, false, length, true};
ghost use Rattle.std.specs.Int.Signed.{◌<ℤ◌};
ghost use Rattle.roster_model.specs.Goals.{IsGoal, IsNode};
ghost use Rattle.roster_model.specs.Lenses.{IsLens, IsLensLine, IsMostWeight};
ghost use Rattle.roster_model.specs.Weights.{AreSmallWeights, weight_of};
ghost use Rattle.line_lens.specs.LensFaults.{IsLensFault};
ghost use Rattle.line_lens.specs.declared.lens_fault.LensFault.{LensFault as Why};
ghost use Rattle.term_lines.specs.Overs.{IfLine, IsMost};
ghost use Rattle.line_generator.specs.Overs.{IsLensOver};
ghost use Rattle.line_generator.specs.Questions.{IsQuestion, IsUnchecked, Passes, without_low};

use crate::best_fault::BestFault;
use crate::question::Question;
use duty_calendar::Memory;
use label_lattice::Steps;
use lens_classes::Terms;
use line_lens::check_lens;
use roster_model::{Goal, Lens, Node, Problem};
use std::alloc::Global;
use std::sync::ledger::Ledger;
use term_lines::{Over, Sought, TermQuestion, Wanted};

/// How many steps the first turn may take.
const BRIEF: u64 = 5_000;

/// The terms with no least credit.
fn without_low(terms: &Terms) -> Terms
    ensures loose { result ≡ without_low terms.now }
{
    Terms { low: 0, ..*terms }
}

/// Whether the answer is that there is no line.
fn is_nothing(answer: &Over) -> bool
    ensures nothing { result ≡ true → answer.now ≡ Over.Nothing }
{
    match answer {
        Over::Nothing => true,
        Over::Line(_) | Over::Limit => false,
    }
}

/// Whether the answer is that the limit was reached.
fn is_limit(answer: &Over) -> bool
    ensures limit { result ≡ true → answer.now ≡ Over.Limit }
    ensures told { result ≡ false → answer.now ≡ Over.Limit → ⊥ }
{
    match answer {
        Over::Limit => true,
        Over::Line(_) | Over::Nothing => false,
    }
}

impl Question<'_> {
    /// Whether it is found that no line is above the bound, even of those that need not come to the least credit.
    fn has_none_over<L: Ledger>(
        &self,
        alloc: Global,
        sought: &Sought,
        steps: &mut Steps<L>,
    ) -> Result<bool, Memory>
        requires asked { IsQuestion self.now }
        requires plain { self.now.lens.now.whole ≡ false }
        ensures none { result ≡ Ok true → IsMost (Passes self.now) self.now.weights.now
            sought.now.over }
        ensures onward { IfOk result (λ none. steps.old ≤ steps.new) }
        ensures steps { steps.new ≤ steps.old + sought.now.limit }
    {
        let terms = without_low(&self.plain_terms());
        let loose = TermQuestion {
            problem: self.problem,
            member: self.member,
            terms: &terms,
            node: self.node,
            lens: self.lens,
            weights: self.weights,
        };
        let answer = loose.over(alloc, sought, steps)?;
        Ok(is_nothing(&answer))
    }

    /// A line above the bound, in turns where the lens looks at pairings one by one.
    fn over_in_turns<L: Ledger>(
        &self,
        alloc: Global,
        sought: &Sought,
        steps: &mut Steps<L>,
    ) -> Result<Over, Memory>
        requires asked { IsQuestion self.now }
        ensures over { IfOk result (IsLensOver self.now sought.now) }
        ensures limit { result ≡ Ok Over.Limit → steps.old + sought.now.limit ≤ steps.new }
        ensures onward { IfOk result (λ answer. steps.old ≤ steps.new) }
        ensures once { self.now.lens.now.whole ≡ false
            → steps.new ≤ steps.old + 3 * sought.now.limit }
        ensures steps { steps.new ≤ steps.old + 256 * sought.now.limit }
    {
        if self.lens.whole {
            return self.over(alloc, sought, steps);
        }
        let brief = Sought {
            limit: sought.limit.min(BRIEF),
            ..*sought
        };
        let answer = self.over(alloc, &brief, steps)?;
        if !is_limit(&answer) {
            return Ok(answer);
        }
        let loose = Sought {
            wanted: Wanted::First,
            ..*sought
        };
        if self.has_none_over(alloc, &loose, steps)? {
            return Ok(Over::Nothing);
        }
        if brief.limit == sought.limit {
            return Ok(Over::Limit);
        }
        self.over(alloc, sought, steps)
    }

    /// A heaviest line above the bound, in turns: a line above it, and a heaviest above that line, if there is one.
    fn heaviest_in_turns<L: Ledger>(
        &self,
        alloc: Global,
        sought: &Sought,
        steps: &mut Steps<L>,
    ) -> Result<Over, Memory>
        requires asked { IsQuestion self.now }
        requires heaviest { sought.now.wanted ≡ Wanted.Heaviest }
        ensures over { IfOk result (IsLensOver self.now sought.now) }
        ensures limit { result ≡ Ok Over.Limit → steps.old + sought.now.limit ≤ steps.new }
        ensures once { self.now.lens.now.whole ≡ false
            → steps.new ≤ steps.old + 6 * sought.now.limit }
        ensures steps { steps.new ≤ steps.old + 256 * sought.now.limit }
    {
        if self.lens.whole {
            return self.over(alloc, sought, steps);
        }
        let first = Sought {
            wanted: Wanted::First,
            ..*sought
        };
        let priced = match self.over_in_turns(alloc, &first, steps)? {
            Over::Line(priced) => priced,
            Over::Nothing => return Ok(Over::Nothing),
            Over::Limit => return Ok(Over::Limit),
        };
        let higher = Sought {
            over: priced.weight,
            ..*sought
        };
        match self.over_in_turns(alloc, &higher, steps)? {
            Over::Nothing => Ok(Over::Line(priced)),
            Over::Line(heaviest) => Ok(Over::Line(heaviest)),
            Over::Limit => Ok(Over::Limit),
        }
    }

    /// The question, where its lens has its shape.
    fn checked(&self) -> Result<(), BestFault>
        requires asked { IsUnchecked self.now }
        ensures asked { OnOk result (IsQuestion self.now) }
        ensures fault { (why : Why) → IsErrOf result (BestFault.Lens why)
            → IsLensFault self.now.problem.now self.now.member self.now.lens.now why }
    {
        if let Err(why) = check_lens(self.problem, self.member, self.lens) {
            return Err(BestFault::Lens(why));
        }
        Ok(())
    }
}

/// As `best_over`, in turns: with few steps; by looser terms, which may tell that there is none; and with so many steps as the limit
/// says. Each has the limit, where it is no brief one.
pub fn best_in_turns<L: Ledger>(
    alloc: Global,
    problem: &Problem,
    member: u32,
    goal: &Goal,
    node: &Node,
    lens: &Lens,
    weights: &[i64],
    over: i64,
    limit: u64,
    steps: &mut Steps<L>,
) -> Result<Over, BestFault>
    requires member_in_range { member < length problem.now.base.members }
    requires goal { IsGoal problem.now goal.now }
    requires node { IsNode problem.now node.now }
    requires listed { length lens.now.windows < 2 ^ 32 }
    requires per_pairing { length weights.now ≡ length problem.now.base.pairings }
    requires small { AreSmallWeights weights.now }
    ensures shape { OnOk result (IsLens problem.now member lens.now) }
    ensures fault { (why : Why) → IsErrOf result (BestFault.Lens why)
        → IsLensFault problem.now member lens.now why }
    ensures line { IfOk result (λ answer. IfLine answer
        (λ b. IsLensLine problem.now member goal.now node.now lens.now b.line)) }
    ensures weight { IfOk result (λ answer. IfLine answer
        (λ b. weight_of weights.now b.line ≡ b.weight)) }
    ensures above { IfOk result (λ answer. IfLine answer (λ b. over <ℤ b.weight)) }
    ensures none { result ≡ Ok Over.Nothing → IsMostWeight problem.now member goal.now node.now
        lens.now weights.now over }
    ensures limit { result ≡ Ok Over.Limit → steps.old + limit ≤ steps.new }
    ensures once { lens.now.whole ≡ false → steps.new ≤ steps.old + 3 * limit }
    ensures steps { steps.new ≤ steps.old + 256 * limit }
{
    let asked = Question {
        problem,
        member,
        goal,
        node,
        lens,
        weights,
    };
    let sought = Sought {
        wanted: Wanted::First,
        over,
        limit,
    };
    asked.checked()?;
    let answer = asked.over_in_turns(alloc, &sought, steps)?;
    Ok(answer)
}

/// As `heaviest_over`, in turns: a line as by `best_in_turns`, and in the same way a heaviest above that line, if there is one.
pub fn heaviest_in_turns<L: Ledger>(
    alloc: Global,
    problem: &Problem,
    member: u32,
    goal: &Goal,
    node: &Node,
    lens: &Lens,
    weights: &[i64],
    over: i64,
    limit: u64,
    steps: &mut Steps<L>,
) -> Result<Over, BestFault>
    requires member_in_range { member < length problem.now.base.members }
    requires goal { IsGoal problem.now goal.now }
    requires node { IsNode problem.now node.now }
    requires listed { length lens.now.windows < 2 ^ 32 }
    requires per_pairing { length weights.now ≡ length problem.now.base.pairings }
    requires small { AreSmallWeights weights.now }
    ensures shape { OnOk result (IsLens problem.now member lens.now) }
    ensures fault { (why : Why) → IsErrOf result (BestFault.Lens why)
        → IsLensFault problem.now member lens.now why }
    ensures line { IfOk result (λ answer. IfLine answer
        (λ b. IsLensLine problem.now member goal.now node.now lens.now b.line)) }
    ensures weight { IfOk result (λ answer. IfLine answer
        (λ b. weight_of weights.now b.line ≡ b.weight)) }
    ensures above { IfOk result (λ answer. IfLine answer (λ b. over <ℤ b.weight)) }
    ensures most { IfOk result (λ answer. IfLine answer
        (λ b. IsMostWeight problem.now member goal.now node.now lens.now weights.now b.weight)) }
    ensures none { result ≡ Ok Over.Nothing → IsMostWeight problem.now member goal.now node.now
        lens.now weights.now over }
    ensures limit { result ≡ Ok Over.Limit → steps.old + limit ≤ steps.new }
    ensures once { lens.now.whole ≡ false → steps.new ≤ steps.old + 6 * limit }
    ensures steps { steps.new ≤ steps.old + 256 * limit }
{
    let asked = Question {
        problem,
        member,
        goal,
        node,
        lens,
        weights,
    };
    let sought = Sought {
        wanted: Wanted::Heaviest,
        over,
        limit,
    };
    asked.checked()?;
    let answer = asked.heaviest_in_turns(alloc, &sought, steps)?;
    Ok(answer)
}
