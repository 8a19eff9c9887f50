//! Rounds of lines, each under the negated sums of the misses of those before.
ghost use Rattle.std.specs.Prelude.{◌≡◌, ◌≤◌, length, IfOk, OnOk, replicate, pos};
ghost use Rattle.roster_model.specs.Goals.{IsGoal, IsNode};
ghost use Rattle.roster_model.specs.Weights.{AreSmallWeights};
ghost use Rattle.weight_certificates.specs.Columns.{AreColumns};
ghost use Rattle.weight_certificates.specs.Evidence.{HasEnded, IsEvidence, IsNext, IsPriced};
ghost use Rattle.weight_certificates.specs.Pricing.{AreStandard};

use crate::best::heaviest_line;
use crate::columns::Columns;
use crate::lists::append;
use crate::rosters::is_whole;
use crate::rows::{product, set_miss, subtract};
use crate::shares::Shares;
use duty_calendar::{List, Memory};
use roster_model::{Goal, Lens, Node, Problem, Roster};
use std::alloc::Global;

/// The heaviest lines of all members, or a member without a line.
#[derive(Drop)]
pub(crate) enum Priced {
    Round(Roster),
    NoLine(u32),
}

/// A round that weighs no less than the needs, or why there is none.
#[derive(Drop)]
pub(crate) enum Next {
    Round(Roster),
    NoLine(u32),
    Outweighed,
}

/// How rounds end, where their weights stand in a row of the caller.
#[derive(Drop)]
pub(crate) enum Ended {
    NoLine(u32),
    Outweighed,
    Whole(Roster),
    Even(Roster),
}

/// How rounds end: with a member without a line, with weights under which the lines fall short of the needs, with a
/// whole roster, or even, with the last round.
#[derive(Drop)]
pub(crate) enum Evidence {
    NoLine(u32),
    Outweighed(Vec<i64>),
    Whole(Roster),
    Even(Roster),
}

/// A heaviest line of each member.
fn heaviest_round(
    alloc: Global,
    problem: &Problem,
    goal: &Goal,
    node: &Node,
    lenses: &[Lens],
    weights: &[i64],
) -> Result<Priced, Memory>
    requires goal { IsGoal problem.now goal.now }
    requires node { IsNode problem.now node.now }
    requires lenses { AreStandard problem.now lenses.now }
    requires per_pairing { length weights.now ≡ length problem.now.base.pairings }
    requires small { AreSmallWeights weights.now }
    ensures priced { IfOk result (IsPriced problem.now goal.now node.now weights.now lenses.now) }
{
    let mut round = List::new(alloc);
    for (member, lens) in lenses.iter().enumerate() {
        let member = member as u32;
        let Some(line) = heaviest_line(alloc, problem, member, goal, node, lens, weights)? else {
            return Ok(Priced::NoLine(member));
        };
        append(&mut round, line)?;
    }
    Ok(Priced::Round(round))
}

/// A round of heaviest lines, which join the columns, with its miss.
fn priced_round(
    alloc: Global,
    problem: &Problem,
    goal: &Goal,
    node: &Node,
    lenses: &[Lens],
    columns: &mut Columns,
    weights: &[i64],
    miss: &mut [i64],
) -> Result<Next, Memory>
    requires goal { IsGoal problem.now goal.now }
    requires node { IsNode problem.now node.now }
    requires lenses { AreStandard problem.now lenses.now }
    requires columns { AreColumns problem.now goal.now node.now columns.old }
    requires per_pairing { length weights.now ≡ length problem.now.base.pairings }
    requires small { AreSmallWeights weights.now }
    requires room { length miss.old ≡ length problem.now.base.pairings }
    ensures next { IfOk result (IsNext problem.now goal.now node.now weights.now lenses.now
        miss.new) }
    ensures columns { OnOk result (AreColumns problem.now goal.now node.now columns.new) }
{
    let round = match heaviest_round(alloc, problem, goal, node, lenses, weights)? {
        Priced::Round(round) => round,
        Priced::NoLine(member) => return Ok(Next::NoLine(member)),
    };
    set_miss(miss, problem, round.as_slice());
    if product(weights, miss) < 0 {
        return Ok(Next::Outweighed);
    }
    columns.add(alloc, round.as_slice())?;
    Ok(Next::Round(round))
}

/// A round of columns where these weigh enough, else one of heaviest lines, with its miss.
pub(crate) fn next_round(
    alloc: Global,
    problem: &Problem,
    goal: &Goal,
    node: &Node,
    lenses: &[Lens],
    columns: &mut Columns,
    weights: &[i64],
    miss: &mut [i64],
) -> Result<Next, Memory>
    requires goal { IsGoal problem.now goal.now }
    requires node { IsNode problem.now node.now }
    requires lenses { AreStandard problem.now lenses.now }
    requires columns { AreColumns problem.now goal.now node.now columns.old }
    requires per_pairing { length weights.now ≡ length problem.now.base.pairings }
    requires small { AreSmallWeights weights.now }
    requires room { length miss.old ≡ length problem.now.base.pairings }
    ensures next { IfOk result (IsNext problem.now goal.now node.now weights.now lenses.now
        miss.new) }
    ensures columns { OnOk result (AreColumns problem.now goal.now node.now columns.new) }
{
    if let Some(round) = columns.round(alloc, weights)? {
        set_miss(miss, problem, round.as_slice());
        if product(weights, miss) >= 0 {
            return Ok(Next::Round(round));
        }
    }
    priced_round(alloc, problem, goal, node, lenses, columns, weights, miss)
}

/// Whether every pairing has its crew in a round of this miss.
fn is_met(miss: &[i64]) -> bool {
    miss.iter().all(|by| *by == 0)
}

/// Rounds over a row of weights, which is zero at first, with room for a miss. Counts their lines.
fn rounds_over(
    alloc: Global,
    problem: &Problem,
    goal: &Goal,
    node: &Node,
    lenses: &[Lens],
    count: u32,
    columns: &mut Columns,
    weights: &mut [i64],
    miss: &mut [i64],
    shares: &mut Shares,
) -> Result<Ended, Memory>
    requires goal { IsGoal problem.now goal.now }
    requires node { IsNode problem.now node.now }
    requires lenses { AreStandard problem.now lenses.now }
    requires columns { AreColumns problem.now goal.now node.now columns.old }
    requires some_rounds { 1 ≤ count }
    requires few_rounds { count ≤ 2000 }
    requires zero { weights.old ≡ replicate (length problem.now.base.pairings) (pos 0) }
    requires room { length miss.old ≡ length problem.now.base.pairings }
    ensures ended { IfOk result (HasEnded problem.now goal.now node.now lenses.now count
        weights.new) }
    ensures columns { OnOk result (AreColumns problem.now goal.now node.now columns.new) }
{
    let mut last = List::new(alloc);
    for _ in 0..count {
        let round = match next_round(alloc, problem, goal, node, lenses, columns, weights, miss)? {
            Next::Round(round) => round,
            Next::NoLine(member) => return Ok(Ended::NoLine(member)),
            Next::Outweighed => return Ok(Ended::Outweighed),
        };
        if is_met(miss) && is_whole(alloc, problem, goal, node, &round)? {
            return Ok(Ended::Whole(round));
        }
        subtract(weights, miss);
        shares.add(round.as_slice());
        last = round;
    }
    Ok(Ended::Even(last))
}

/// Rounds by the standard lenses, so many unless they end before. Counts their lines.
pub(crate) fn price_rounds(
    alloc: Global,
    problem: &Problem,
    goal: &Goal,
    node: &Node,
    lenses: &[Lens],
    count: u32,
    columns: &mut Columns,
    shares: &mut Shares,
) -> Result<Evidence, Memory>
    requires goal { IsGoal problem.now goal.now }
    requires node { IsNode problem.now node.now }
    requires lenses { AreStandard problem.now lenses.now }
    requires columns { AreColumns problem.now goal.now node.now columns.old }
    requires some_rounds { 1 ≤ count }
    requires few_rounds { count ≤ 2000 }
    ensures evidence { IfOk result (IsEvidence problem.now goal.now node.now lenses.now count) }
    ensures columns { OnOk result (AreColumns problem.now goal.now node.now columns.new) }
{
    let pairings = problem.base.pairings.len();
    let mut weights = vec![in alloc; 0i64; pairings]?;
    let mut miss = vec![in alloc; 0i64; pairings]?;
    let ended = rounds_over(
        alloc,
        problem,
        goal,
        node,
        lenses,
        count,
        columns,
        &mut weights,
        &mut miss,
        shares,
    )?;
    Ok(match ended {
        Ended::NoLine(member) => Evidence::NoLine(member),
        Ended::Outweighed => Evidence::Outweighed(weights),
        Ended::Whole(round) => Evidence::Whole(round),
        Ended::Even(last) => Evidence::Even(last),
    })
}
