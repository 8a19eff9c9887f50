//! Weights under which the lines of all members are short of the needs, by bounds on what these weigh.
ghost use Rattle.std.specs.Prelude.{◌≡◌, ◌<◌, IfOk, IfSome, IsTrue, length};
ghost use Rattle.roster_model.specs.Goals.{IsGoal, IsNode};
ghost use Rattle.roster_model.specs.Lenses.{IsOutweighed};
ghost use Rattle.roster_model.specs.Weights.{AreSmallWeights, IsSmallWeight, needed_weight, total};
ghost use Rattle.line_bounds.specs.Bounds.{IsShapedBound};
ghost use Rattle.weight_certificates.specs.Pricing.{AreShapedBounds};

use crate::rows::{product, set_needs};
use duty_calendar::{List, Memory};
use line_bounds::{has_line, line_over};
use line_generator::{Over, are_small};
use roster_model::{Goal, Lens, Line, Node, Problem};
use std::alloc::Global;

/// The weight in 32 bits.
fn narrow(weight: i64) -> i32
    requires small { IsSmallWeight weight }
    ensures same { result ≡ weight }
{
    weight as i32
}

/// The weights in 32 bits each.
pub(crate) fn narrowed(alloc: Global, weights: &[i64]) -> Result<List<i32>, Memory>
    requires small { AreSmallWeights weights.now }
    ensures same { IfOk result (λ list. list ≡ weights.now) }
{
    let mut list = Vec::new(alloc);
    for weight in weights {
        list.push(narrow(*weight))?;
    }
    Ok(List::from_vec(list))
}

/// Whether a line of the member passes the lens, and none that does weighs more than the bound.
fn is_bound(
    alloc: Global,
    problem: &Problem,
    member: u32,
    goal: &Goal,
    node: &Node,
    lens: &Lens,
    weights: &[i64],
    bound: i64,
    line: Option<&Line>,
) -> Result<bool, Memory>
    requires member { member < length problem.now.base.members }
    requires goal { IsGoal problem.now goal.now }
    requires node { IsNode problem.now node.now }
    requires per_pairing { length weights.now ≡ length problem.now.base.pairings }
    requires small { AreSmallWeights weights.now }
    ensures bound { IfOk result (λ yes. IsTrue yes
        → IsShapedBound problem.now member goal.now node.now lens.now weights.now bound) }
{
    match line_over(alloc, problem, member, goal, node, lens, weights, bound)? {
        Over::Nothing => has_line(alloc, problem, member, goal, node, lens, weights, line),
        Over::Line(_) | Over::Limit => Ok(false),
    }
}

/// The line that is given of the member, if there is one.
fn line_of(lines: &[Option<Line>], member: u32) -> Option<&Line> {
    match lines.get(member as usize) {
        Some(line) => line.as_ref(),
        None => None,
    }
}

/// Whether these are bounds on the lines of the members, each by its lens.
fn are_bounds(
    alloc: Global,
    problem: &Problem,
    goal: &Goal,
    node: &Node,
    lenses: &[Lens],
    weights: &[i64],
    bounds: &[i64],
    lines: &[Option<Line>],
) -> Result<bool, Memory>
    requires goal { IsGoal problem.now goal.now }
    requires node { IsNode problem.now node.now }
    requires per_member { length lenses.now ≡ length problem.now.base.members }
    requires each { length bounds.now ≡ length lenses.now }
    requires per_pairing { length weights.now ≡ length problem.now.base.pairings }
    requires small { AreSmallWeights weights.now }
    ensures bounds { IfOk result (λ yes. IsTrue yes
        → AreShapedBounds problem.now goal.now node.now weights.now lenses.now bounds.now
        (length lenses.now)) }
{
    for (member, lens) in lenses.iter().enumerate() {
        let bound = bounds[member];
        let member = member as u32;
        let line = line_of(lines, member);
        let is_bound = is_bound(
            alloc, problem, member, goal, node, lens, weights, bound, line,
        )?;
        if !is_bound {
            return Ok(false);
        }
    }
    Ok(true)
}

/// What the needs weigh.
fn needed(alloc: Global, problem: &Problem, weights: &[i64]) -> Result<i64, Memory>
    requires per_pairing { length weights.now ≡ length problem.now.base.pairings }
    requires small { AreSmallWeights weights.now }
    ensures needed { IfOk result (λ needed. needed ≡ needed_weight problem.now weights.now) }
{
    let mut needs = vec![in alloc; 0i64; weights.len()]?;
    set_needs(&mut needs, problem);
    Ok(product(weights, &needs))
}

/// The sum, where that is not too much.
fn sum_of(bounds: &[i64]) -> Option<i64>
    ensures sum { IfSome result (λ sum. sum ≡ total bounds.now) }
{
    let mut sum: i64 = 0;
    for bound in bounds {
        sum = sum.checked_add(*bound)?;
    }
    Some(sum)
}

/// Whether these bounds on the lines of the members, each by its lens, are less than the needs under the weights. Lines may be given
/// that show that each member has some.
pub(crate) fn is_outweighed(
    alloc: Global,
    problem: &Problem,
    goal: &Goal,
    node: &Node,
    lenses: &[Lens],
    weights: &[i64],
    bounds: &[i64],
    lines: &[Option<Line>],
) -> Result<bool, Memory>
    requires goal { IsGoal problem.now goal.now }
    requires node { IsNode problem.now node.now }
    ensures outweighed { IfOk result (λ yes. IsTrue yes
        → IsOutweighed problem.now goal.now node.now weights.now lenses.now) }
{
    let members = problem.base.members.len();
    if weights.len() != problem.base.pairings.len() || !are_small(weights) {
        return Ok(false);
    }
    if lenses.len() != members || bounds.len() != members {
        return Ok(false);
    }
    let Some(sum) = sum_of(bounds) else {
        return Ok(false);
    };
    if sum >= needed(alloc, problem, weights)? {
        return Ok(false);
    }
    are_bounds(alloc, problem, goal, node, lenses, weights, bounds, lines)
}
