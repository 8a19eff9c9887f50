//! The rules of the next month.
ghost use Rattle.std.specs.Prelude.{◌≡◌, ℕ, Bool, List as Sequence, Some, None, IfOk, IfErr, Ok};
ghost use Rattle.duty_calendar.specs.Checks.{IsRules};
ghost use Rattle.next_folder.specs.Barred.{Bars, IsMonth};
ghost use Rattle.next_folder.specs.Rolled.{IsDrafted, IsNextRules};
ghost use Rattle.next_folder.specs.Texts.{Ours, view_theirs};
ghost use Rattle.next_month.specs.Lags.{Follows};
ghost use Rattle.rules_file.specs.Rules.{rules_file, values};

use crate::barrier::Barrier;
use crate::reading::NextTexts;
use duty_calendar::{Copied, Rules};
use next_month::{following, follows};
use roster_model::Problem;
use rules_file::read_rules;
use std::alloc::Global;

/// The rules that are there, where they are of the month that follows.
fn given_rules(
    alloc: Global,
    problem: &Problem,
    theirs: &NextTexts,
    text: &[u8],
) -> Result<Rules, Barrier>
    requires there { (view_theirs theirs.now).rules ≡ Some text.now }
    ensures rules { IfOk result (λ rules. rules_file text.now ≡ Ok (values rules)) }
    ensures follows { IfOk result (λ next.
        Follows problem.now.base.rules.horizon next.horizon) }
    ensures valid { IfOk result IsRules }
    ensures cause { (ours : Ours) (force : Bool) (roster : Sequence (Sequence ℕ))
        → IsMonth ours problem.now roster
        → IfErr result (Bars ours (view_theirs theirs.now) force) }
{
    let rules = read_rules(alloc, text)?;
    if !follows(&problem.base.rules.horizon, &rules.horizon) {
        return Err(Barrier::OtherMonth);
    }
    Ok(rules)
}

/// This month's rules, for the next month.
fn drafted_rules(alloc: Global, problem: &Problem, theirs: &NextTexts) -> Result<Rules, Barrier>
    requires none { (view_theirs theirs.now).rules ≡ None }
    ensures rules { IfOk result (IsDrafted problem.now.base.rules) }
    ensures follows { IfOk result (λ next.
        Follows problem.now.base.rules.horizon next.horizon) }
    ensures valid { IfOk result IsRules }
    ensures cause { (ours : Ours) (force : Bool) (roster : Sequence (Sequence ℕ))
        → IsMonth ours problem.now roster
        → IfErr result (Bars ours (view_theirs theirs.now) force) }
{
    let rules = &problem.base.rules;
    let Some(horizon) = following(&rules.horizon) else {
        return Err(Barrier::LastMonth);
    };
    Ok(Rules {
        base: rules.base,
        seat: rules.seat.copy(alloc)?,
        horizon,
        days_off: rules.days_off,
    })
}

/// The rules of the next month, where they are of the month that follows: those that are there, or a draft.
pub fn next_rules(alloc: Global, problem: &Problem, theirs: &NextTexts) -> Result<Rules, Barrier>
    ensures rules { IfOk result
        (IsNextRules problem.now.base.rules (view_theirs theirs.now).rules) }
    ensures follows { IfOk result (λ next.
        Follows problem.now.base.rules.horizon next.horizon) }
    ensures valid { IfOk result IsRules }
    ensures cause { (ours : Ours) (force : Bool) (roster : Sequence (Sequence ℕ))
        → IsMonth ours problem.now roster
        → IfErr result (Bars ours (view_theirs theirs.now) force) }
{
    match &theirs.rules {
        Some(text) => given_rules(alloc, problem, theirs, text),
        None => drafted_rules(alloc, problem, theirs),
    }
}
