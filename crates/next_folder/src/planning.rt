//! What a month leaves the next one, as a value.
ghost use Rattle.std.specs.Prelude.{◌≡◌, ℕ, Bool, List as Sequence, IfOk, IfErr, OnOk, is_some, true};
ghost use Rattle.duty_calendar.specs.Checks.{AreMembers, IsRules};
ghost use Rattle.month_files.specs.Months.{Names};
ghost use Rattle.month_files.specs.Reading.{AreShort, view_texts};
ghost use Rattle.duty_calendar.specs.declared.member.Rules.{Rules as MonthRules};
ghost use Rattle.next_folder.specs.Barred.{AreNext, Bars, IsSpared};
ghost use Rattle.next_folder.specs.Rolled.{HasHeirs, HasRolled, Says};
ghost use Rattle.next_folder.specs.Texts.{AreBrief, Ours, Theirs, view_ours, view_theirs};
ghost use Rattle.next_month.specs.Causes.{HasFault};
ghost use Rattle.next_month.specs.Heirs.{AreHeirs};
ghost use Rattle.next_month.specs.Lags.{Follows, ForLag};
ghost use Rattle.roster_model.specs.declared.problem.Problem.{Problem as Month};
ghost use Rattle.roster_model.specs.Rosters.{IsComplete};
ghost use Rattle.roster_text.specs.RosterText.{IsTextOf};

use crate::barrier::Barrier;
use crate::crew::next_crew;
use crate::drafts::next_drafts;
use crate::names::{leavers, newcomers};
use crate::reading::{MonthTexts, NextTexts};
use crate::rolled::RolledOver;
use crate::rules::next_rules;
use crate::taking::taken;
use duty_calendar::{List, Member, Rules};
use line_legality::complete;
use month_files::read_month;
use next_month::{HeirFault, heirs, member_texts};
use roster_model::{Problem, Roster};
use roster_text::read_roster;
use std::alloc::Global;

/// The month of the texts.
fn month_of(alloc: Global, ours: &MonthTexts) -> Result<Problem, Barrier>
    requires short { AreShort (view_texts ours.now.inputs) }
    ensures names { IfOk result (Names (view_ours ours.now).inputs) }
    ensures cause { (theirs : Theirs) (force : Bool)
        → IfErr result (Bars (view_ours ours.now) theirs force) }
{
    Ok(read_month(alloc, &ours.inputs)?)
}

/// The complete roster of the texts.
fn roster_of(alloc: Global, problem: &Problem, ours: &MonthTexts) -> Result<Roster, Barrier>
    ensures read { IfOk result (IsTextOf problem.now (view_ours ours.now).roster) }
    ensures complete { IfOk result (IsComplete problem.now) }
    ensures cause { (theirs : Theirs) (force : Bool)
        → Names (view_ours ours.now).inputs problem.now
        → IfErr result (Bars (view_ours ours.now) theirs force) }
{
    let roster = read_roster(alloc, &ours.roster, problem)?;
    complete(alloc, problem, &roster)?;
    Ok(roster)
}

/// Nothing, unless history is there that may not be written over.
fn spared(theirs: &NextTexts, is_forced: bool) -> Result<(), Barrier>
    ensures spared { OnOk result (is_some (view_theirs theirs.now).history ≡ true
        → is_forced ≡ true) }
    ensures cause { (ours : Ours) (problem : Month) (roster : Sequence (Sequence ℕ))
        (rules : MonthRules) → AreNext ours (view_theirs theirs.now) problem roster rules
        → IfErr result (Bars ours (view_theirs theirs.now) is_forced) }
{
    if theirs.history.is_some() && !is_forced {
        return Err(Barrier::IsThere);
    }
    Ok(())
}

/// A crew of the next month, with what this month leaves it.
fn heirs_of(
    alloc: Global,
    problem: &Problem,
    roster: &Roster,
    crew: &[Member],
    rules: &Rules,
) -> Result<List<Member>, HeirFault>
    requires complete { IsComplete problem.now roster.now }
    requires follows { Follows problem.now.base.rules.horizon rules.now.horizon }
    requires crew { AreMembers rules.now.horizon crew.now }
    ensures heirs { IfOk result (λ made. ForLag problem.now.base.rules.horizon rules.now.horizon
        (λ d. AreHeirs problem.now roster.now d crew.now made)) }
    ensures valid { IfOk result (AreMembers rules.now.horizon) }
    ensures cause { IfErr result (λ why. ForLag problem.now.base.rules.horizon rules.now.horizon
        (λ d. HasFault problem.now roster.now d crew.now why)) }
{
    heirs(alloc, problem, roster, crew, &rules.horizon)
}

/// The members of the next month, with what this month leaves them.
fn members_of(
    alloc: Global,
    problem: &Problem,
    theirs: &NextTexts,
    roster: &Roster,
    rules: &Rules,
) -> Result<List<Member>, Barrier>
    requires complete { IsComplete problem.now roster.now }
    requires follows { Follows problem.now.base.rules.horizon rules.now.horizon }
    requires brief { AreBrief theirs.now }
    ensures members { IfOk result (HasHeirs problem.now roster.now rules.now.horizon
        (view_theirs theirs.now).crew) }
    ensures valid { IfOk result (AreMembers rules.now.horizon) }
    ensures cause { (ours : Ours) (force : Bool)
        → IsSpared ours (view_theirs theirs.now) force problem.now roster.now rules.now
        → IfErr result (Bars ours (view_theirs theirs.now) force) }
{
    let crew = next_crew(alloc, problem, theirs, rules)?;
    let members = heirs_of(alloc, problem, roster, crew.as_slice(), rules)?;
    Ok(members)
}

/// What is said of the members of the next month.
fn rolled(
    alloc: Global,
    problem: &Problem,
    theirs: &NextTexts,
    rules: Rules,
    members: List<Member>,
) -> Result<RolledOver, Barrier>
    requires valid { IsRules rules }
    requires members { AreMembers rules.horizon members }
    ensures given { IfOk result (λ made. (made.rules ≡ rules) × (made.members ≡ members)) }
    ensures said { IfOk result (Says problem.now (view_theirs theirs.now)) }
    ensures cause { (ours : Ours) (force : Bool) (roster : Sequence (Sequence ℕ))
        → IsSpared ours (view_theirs theirs.now) force problem.now roster rules
        → HasHeirs problem.now roster rules.horizon (view_theirs theirs.now).crew members
        → IfErr result (Bars ours (view_theirs theirs.now) force) }
{
    let texts = member_texts(alloc, members.as_slice(), &rules.horizon)?;
    let taken = taken(alloc, theirs, &texts, &rules)?;
    let drafts = next_drafts(alloc, theirs, &rules, texts)?;
    let newcomers = newcomers(alloc, problem, members.as_slice())?;
    let leavers = leavers(alloc, problem, members.as_slice())?;
    Ok(RolledOver {
        rules,
        members,
        taken,
        drafts,
        newcomers,
        leavers,
    })
}

/// What the texts of a month leave the next one, of which so much is there, or the first reason against it. History that is
/// there is written over by force alone.
pub fn plan(
    alloc: Global,
    ours: &MonthTexts,
    theirs: &NextTexts,
    is_forced: bool,
) -> Result<RolledOver, Barrier>
    requires short { AreShort (view_texts ours.now.inputs) }
    requires brief { AreBrief theirs.now }
    ensures rolled { IfOk result (HasRolled (view_ours ours.now) (view_theirs theirs.now)
        is_forced) }
    ensures cause { IfErr result (Bars (view_ours ours.now) (view_theirs theirs.now) is_forced) }
{
    let problem = month_of(alloc, ours)?;
    let roster = roster_of(alloc, &problem, ours)?;
    let rules = next_rules(alloc, &problem, theirs)?;
    spared(theirs, is_forced)?;
    let members = members_of(alloc, &problem, theirs, &roster, &rules)?;
    rolled(alloc, &problem, theirs, rules, members)
}
