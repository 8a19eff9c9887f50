//! Closing a node, or showing that it is open.
ghost use Rattle.std.specs.Prelude.{◌<◌, ◌≤◌, [], IfOk, IfSome, length};
ghost use Rattle.std.specs.Option.{ForSome};
ghost use Rattle.roster_model.specs.Awards.{floor_goal};
ghost use Rattle.roster_model.specs.Closing.{IsAccepted};
ghost use Rattle.roster_model.specs.Goals.{IsGoal, IsNode};
ghost use Rattle.branch_log.specs.Honest.{IsHonest, IsWhole};
ghost use Rattle.weight_certificates.specs.Leaves.{AreFitting, HaveCrews};
ghost use Rattle.weight_certificates.specs.Pricing.{AreStandard};

use crate::bounds::{is_outweighed, narrowed};
use crate::columns::Columns;
use crate::crews::miscrewed;
use crate::fixed::misfit;
use crate::lists::append;
use crate::pairs::branch_pair;
use crate::rosters::{is_whole, parts_of};
use crate::rounds::{Evidence, price_rounds};
use crate::shares::Shares;
use crate::trials::is_lineless;
use branch_log::{Proposal, Verdict};
use closer_guide::{Bounded, FloorGuess, Guess, Guide, Part};
use duty_calendar::{List, Memory};
use line_lens::standard_lens;
use roster_model::{Goal, Item, Lens, Node, Problem, Roster};
use std::alloc::Global;

/// The standard lens of each member.
fn standard_lenses(alloc: Global, problem: &Problem) -> Result<List<Lens>, Memory>
    ensures lenses { IfOk result (AreStandard problem.now) }
{
    let mut lenses = List::new(alloc);
    for member in 0..problem.base.members.len() as u32 {
        append(&mut lenses, standard_lens(alloc, problem, member))?;
    }
    Ok(lenses)
}

/// What so many rounds by the standard lenses say of a node that neither crews nor decided lines close. The first lines
/// are tried before any are priced.
fn close_by_rounds(
    alloc: Global,
    problem: &Problem,
    goal: &Goal,
    node: &Node,
    count: u32,
    parts: &[Vec<Part>],
    pair: Option<(u32, u32)>,
) -> Result<Verdict, Memory>
    requires goal { IsGoal problem.now goal.now }
    requires node { IsNode problem.now node.now }
    requires some_rounds { 1 ≤ count }
    requires few_rounds { count ≤ 2000 }
    requires crews { HaveCrews problem.now node.now }
    requires fitting { AreFitting problem.now goal.now node.now }
    ensures honest { IfOk result (IsHonest problem.now count goal.now node.now) }
{
    let lenses = standard_lenses(alloc, problem)?;
    let mut columns = Columns::gather(alloc, problem, goal, node, lenses.as_slice(), parts)?;
    let mut shares = Shares::new(alloc, problem)?;
    let evidence = price_rounds(
        alloc,
        problem,
        goal,
        node,
        lenses.as_slice(),
        count,
        &mut columns,
        &mut shares,
    )?;
    let last = match evidence {
        Evidence::NoLine(member) => {
            let lens = standard_lens(alloc, problem, member);
            return Ok(Verdict::Closed(Item::NoLine(member, lens)));
        }
        Evidence::Outweighed(weights) => {
            let weights = narrowed(alloc, &weights)?;
            return Ok(Verdict::Closed(Item::Weights(weights, lenses)));
        }
        Evidence::Whole(round) => return Ok(Verdict::Whole(round)),
        Evidence::Even(last) => last,
    };
    let preferred = if pair.is_some() {
        pair
    } else {
        shares.greatest(problem, node, count)
    };
    let Some((member, pairing)) = branch_pair(problem, node, preferred) else {
        return Ok(Verdict::Whole(last));
    };
    Ok(Verdict::Branch(member, pairing))
}

/// The leaf of the weights, where it closes the node.
fn weights_leaf(
    alloc: Global,
    problem: &Problem,
    goal: &Goal,
    node: &Node,
    bounded: Bounded,
) -> Result<Option<Item>, Memory>
    requires goal { IsGoal problem.now goal.now }
    requires node { IsNode problem.now node.now }
    ensures accepted { IfOk result (λ answer. IfSome answer
        (IsAccepted problem.now goal.now node.now)) }
{
    let (weights, lenses) = (bounded.weights, bounded.lenses);
    let (bounds, lines) = (&bounded.bounds, &bounded.lines);
    let is_closed = is_outweighed(
        alloc,
        problem,
        goal,
        node,
        lenses.as_slice(),
        &weights,
        bounds,
        lines,
    )?;
    if !is_closed {
        return Ok(None);
    }
    Ok(Some(Item::Weights(narrowed(alloc, &weights)?, lenses)))
}

/// The leaf of a member without a line, where it closes the node.
fn lineless_leaf(
    alloc: Global,
    problem: &Problem,
    goal: &Goal,
    node: &Node,
    member: u32,
    lens: Lens,
) -> Result<Option<Item>, Memory>
    requires goal { IsGoal problem.now goal.now }
    requires node { IsNode problem.now node.now }
    ensures accepted { IfOk result (λ answer. IfSome answer
        (IsAccepted problem.now goal.now node.now)) }
{
    if is_lineless(alloc, problem, goal, node, member, &lens)? {
        Ok(Some(Item::NoLine(member, lens)))
    } else {
        Ok(None)
    }
}

/// The roster, where it is whole at the node.
fn whole_roster(
    alloc: Global,
    problem: &Problem,
    goal: &Goal,
    node: &Node,
    roster: &Roster,
) -> Result<Option<Roster>, Memory>
    requires goal { IsGoal problem.now goal.now }
    requires node { IsNode problem.now node.now }
    ensures whole { IfOk result (λ answer. IfSome answer (IsWhole problem.now goal.now node.now)) }
{
    let lenses = standard_lenses(alloc, problem)?;
    let parts = parts_of(alloc, roster)?;
    let columns = Columns::gather(alloc, problem, goal, node, lenses.as_slice(), &parts)?;
    let Some(round) = columns.round(alloc, &[])? else {
        return Ok(None);
    };
    if is_whole(alloc, problem, goal, node, &round)? {
        Ok(Some(round))
    } else {
        Ok(None)
    }
}

/// What there is to say of a node that neither crews nor decided lines close: what the guess says, if that passes its
/// test, or else what rounds say.
fn close_by_guess(
    alloc: Global,
    problem: &Problem,
    goal: &Goal,
    node: &Node,
    count: u32,
    guess: Guess,
) -> Result<Verdict, Memory>
    requires goal { IsGoal problem.now goal.now }
    requires node { IsNode problem.now node.now }
    requires some_rounds { 1 ≤ count }
    requires few_rounds { count ≤ 2000 }
    requires crews { HaveCrews problem.now node.now }
    requires fitting { AreFitting problem.now goal.now node.now }
    ensures honest { IfOk result (IsHonest problem.now count goal.now node.now) }
{
    match guess {
        Guess::Bounded(bounded) => {
            if let Some(leaf) = weights_leaf(alloc, problem, goal, node, bounded)? {
                return Ok(Verdict::Closed(leaf));
            }
        }
        Guess::NoLine(member, lens) => {
            if let Some(leaf) = lineless_leaf(alloc, problem, goal, node, member, lens)? {
                return Ok(Verdict::Closed(leaf));
            }
        }
        Guess::Whole(roster) => {
            if let Some(roster) = whole_roster(alloc, problem, goal, node, &roster)? {
                return Ok(Verdict::Whole(roster));
            }
        }
        Guess::Mixed(mixed) => {
            return close_by_rounds(alloc, problem, goal, node, count, &mixed.parts, mixed.pair);
        }
        Guess::Nothing => {}
    }
    close_by_rounds(alloc, problem, goal, node, count, &[], None)
}

/// Remembers the roster of a verdict.
fn note<G: Guide>(
    alloc: Global,
    problem: &Problem,
    guide: &mut G,
    verdict: &Verdict,
) -> Result<(), Memory> {
    if let Verdict::Whole(roster) = verdict {
        guide.note(alloc, problem, roster)?;
    }
    Ok(())
}

/// The guess that is known, or that the guide makes at the node.
fn guess<G: Guide>(
    alloc: Global,
    problem: &Problem,
    goal: &Goal,
    node: &Node,
    guide: &mut G,
    known: Option<Guess>,
) -> Result<Guess, Memory>
    requires goal { IsGoal problem.now goal.now }
{
    match known {
        Some(guess) => Ok(guess),
        None => guide.guess(alloc, problem, goal, node),
    }
}

/// What there is to say of the node: a leaf that closes it, a whole roster, or that so many rounds show it open. A guess
/// may be known; else the guide makes one.
pub(crate) fn close_node<G: Guide>(
    alloc: Global,
    problem: &Problem,
    goal: &Goal,
    node: &Node,
    count: u32,
    guide: &mut G,
    known: Option<Guess>,
) -> Result<Verdict, Memory>
    requires goal { IsGoal problem.now goal.now }
    requires node { IsNode problem.now node.now }
    requires some_rounds { 1 ≤ count }
    requires few_rounds { count ≤ 2000 }
    ensures honest { IfOk result (IsHonest problem.now count goal.now node.now) }
{
    if let Some(pairing) = miscrewed(problem, node) {
        return Ok(Verdict::Closed(Item::Count(pairing)));
    }
    if let Some(member) = misfit(alloc, problem, goal, node)? {
        return Ok(Verdict::Closed(Item::Fixed(member)));
    }
    let guess = guess(alloc, problem, goal, node, guide, known)?;
    let verdict = close_by_guess(alloc, problem, goal, node, count, guess)?;
    note(alloc, problem, guide, &verdict)?;
    Ok(verdict)
}

/// The floor that was guessed, and what there is to say of the empty node of its goal, where a guess at that was made.
pub(crate) fn test_floor<G: Guide>(
    alloc: Global,
    problem: &Problem,
    before: &[u32],
    guessed: FloorGuess,
    count: u32,
    guide: &mut G,
) -> Result<Proposal, Memory>
    requires place { length before.now < length problem.now.base.members }
    requires some_rounds { 1 ≤ count }
    requires few_rounds { count ≤ 2000 }
    ensures honest { IfOk result (λ p. ForSome p.verdict
        (IsHonest problem.now count (floor_goal before.now p.floor) [])) }
{
    let floor = guessed.floor;
    let Some(guess) = guessed.guess else {
        return Ok(Proposal {
            floor,
            verdict: None,
        });
    };
    let goal = Goal::reaching(alloc, before, floor)?;
    let root = Node::new(alloc);
    let verdict = close_node(alloc, problem, &goal, &root, count, guide, Some(guess))?;
    Ok(Proposal {
        floor,
        verdict: Some(verdict),
    })
}
