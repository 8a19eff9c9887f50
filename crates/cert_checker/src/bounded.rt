//! Items whose weights show, by bounds on what the members' lines weigh, that no lines give the crews that are needed. At nodes with
//! decisions, of which no answers are kept, bounds that need not be attained are sooner found than the greatest weights.
ghost use Rattle.std.specs.Prelude.{◌≡◌, ◌<◌, IfOk, IfSome, IsTrue, length};
ghost use Rattle.roster_model.specs.Goals.{IsGoal};
ghost use Rattle.roster_model.specs.Lenses.{HasSomeLine, IsLens, IsOutweighed, IsWeightBound};
ghost use Rattle.roster_model.specs.Weights.{needed_weight};
ghost use Rattle.line_bounds.specs.Serving.{HasServing};
ghost use Rattle.cert_checker.specs.Given.{AreQuestions, IsQuestion};
ghost use Rattle.cert_checker.specs.Bests.{BoundsWeigh};
ghost use Rattle.cert_checker.specs.Recalls.{IsRight};

use crate::bests::soon_heaviest;
use crate::guesses::{guessed_mosts, spare_of};
use crate::noted::Noted;
use crate::recall::{Recall, note};
use duty_calendar::{List, Memory};
use line_bounds::{has_line, is_serving, line_over};
use line_generator::Over;
use roster_model::{Goal, Lens, Node, Problem};
use std::alloc::Global;

/// How often a bound is set above a line that was found.
const RAISES: u32 = 8;

/// How much a member's lines may weigh: what the heaviest line weighs that is known of the member, and how much more so many members may
/// weigh together.
#[derive(Clone, Copy)]
struct Room {
    most: i64,
    left: i64,
    open: i64,
}

impl Room {
    /// The member's share above a line that weighs so much, if that is not too much.
    fn above(self, weight: i64) -> Option<i64> {
        let left = self.left.saturating_sub(weight.saturating_sub(self.most));
        if left < 0 {
            return None;
        }
        Some(weight.saturating_add(left.checked_div(self.open)?))
    }

    /// What is left behind a bound.
    fn behind(self, bound: i64) -> i64 {
        self.left.saturating_sub(bound.saturating_sub(self.most))
    }
}

/// Whether one of the noted lines serves the member.
fn is_any_serving(
    alloc: Global,
    problem: &Problem,
    noted: &[Noted],
    member: u32,
    goal: &Goal,
    node: &Node,
) -> Result<bool, Memory>
    requires member { member < length problem.now.base.members }
    requires goal { IsGoal problem.now goal.now }
    ensures serving { IfOk result (λ yes. IsTrue yes
        → HasServing problem.now goal.now node.now member) }
{
    for it in noted.iter().rev() {
        if it.member == member && is_serving(alloc, problem, goal, node, member, &it.line)? {
            return Ok(true);
        }
    }
    Ok(false)
}

/// Whether a line of the member is known to pass the lens.
fn is_passed(
    alloc: Global,
    problem: &Problem,
    noted: &[Noted],
    member: u32,
    goal: &Goal,
    node: &Node,
    lens: &Lens,
    weights: &[i64],
) -> Result<bool, Memory>
    requires asked { IsQuestion problem.now member goal.now node.now lens.now weights.now }
    requires shape { IsLens problem.now member lens.now }
    ensures line { IfOk result (λ yes. IsTrue yes
        → HasSomeLine problem.now member goal.now node.now lens.now) }
{
    if is_any_serving(alloc, problem, noted, member, goal, node)? {
        return Ok(true);
    }
    has_line(alloc, problem, member, goal, node, lens, weights, None)
}

/// A bound on what the member's lines weigh that pass the lens, within the room, if one is found. Lines that are found are noted.
fn raised_bound(
    alloc: Global,
    problem: &Problem,
    noted: &mut List<Noted>,
    member: u32,
    goal: &Goal,
    node: &Node,
    lens: &Lens,
    weights: &[i64],
    room: Room,
) -> Result<Option<i64>, Memory>
    requires asked { IsQuestion problem.now member goal.now node.now lens.now weights.now }
    requires shape { IsLens problem.now member lens.now }
    ensures bound { IfOk result (λ answer. IfSome answer
        (IsWeightBound problem.now member goal.now node.now lens.now weights.now)) }
{
    let mut weight = room.most;
    for _ in 0..RAISES {
        let Some(over) = room.above(weight) else {
            return Ok(None);
        };
        match line_over(alloc, problem, member, goal, node, lens, weights, over)? {
            Over::Line(priced) => {
                weight = priced.weight;
                note(noted, member, priced.line)?;
            }
            Over::Nothing => {
                let noted = noted.as_slice();
                let is_passed = is_passed(
                    alloc, problem, noted, member, goal, node, lens, weights,
                )?;
                return Ok(if is_passed { Some(over) } else { None });
            }
            Over::Limit => return Ok(None),
        }
    }
    Ok(None)
}

/// A bound on what the member's lines weigh that pass the lens, if one is found: what the heaviest weighs, where that is soon found, or
/// one within the room.
fn found_bound(
    alloc: Global,
    problem: &Problem,
    noted: &mut List<Noted>,
    member: u32,
    goal: &Goal,
    node: &Node,
    lens: &Lens,
    weights: &[i64],
    room: Room,
) -> Result<Option<i64>, Memory>
    requires asked { IsQuestion problem.now member goal.now node.now lens.now weights.now }
    requires shape { IsLens problem.now member lens.now }
    ensures bound { IfOk result (λ answer. IfSome answer
        (IsWeightBound problem.now member goal.now node.now lens.now weights.now)) }
{
    match soon_heaviest(alloc, problem, member, goal, node, lens, weights) {
        Some(priced) => {
            let weight = priced.weight;
            note(noted, member, priced.line)?;
            Ok(Some(weight))
        }
        None => raised_bound(
            alloc, problem, noted, member, goal, node, lens, weights, room,
        ),
    }
}

/// The sum of bounds on what the members' lines weigh, each by its lens, if they are found.
fn bounds_weigh(
    alloc: Global,
    problem: &Problem,
    noted: &mut List<Noted>,
    goal: &Goal,
    node: &Node,
    weights: &[i64],
    lenses: &[Lens],
    mosts: &[i64],
    spare: i64,
) -> Result<Option<i64>, Memory>
    requires asked { AreQuestions problem.now goal.now node.now weights.now lenses.now }
    ensures together { IfOk result (λ answer. IfSome answer
        (BoundsWeigh problem.now goal.now node.now weights.now lenses.now)) }
{
    let mut sum: i64 = 0;
    let mut left = spare;
    for (member, lens) in lenses.iter().enumerate() {
        let room = Room {
            most: mosts.get(member).copied().unwrap_or(0),
            left,
            open: lenses.len().saturating_sub(member) as i64,
        };
        let member = member as u32;
        let bound = found_bound(
            alloc, problem, noted, member, goal, node, lens, weights, room,
        )?;
        let Some(bound) = bound else {
            return Ok(None);
        };
        let Some(more) = sum.checked_add(bound) else {
            return Ok(None);
        };
        sum = more;
        left = room.behind(bound);
    }
    Ok(Some(sum))
}

/// Whether it is found, by bounds, that the members' lines, each by its lens, weigh less than the needs; not looked for at the node
/// without decisions.
pub(crate) fn is_bounded(
    alloc: Global,
    problem: &Problem,
    recall: &mut Recall,
    goal: &Goal,
    node: &Node,
    weights: &[i64],
    lenses: &[Lens],
    needs: i64,
) -> Result<bool, Memory>
    requires asked { AreQuestions problem.now goal.now node.now weights.now lenses.now }
    requires needs { needs ≡ needed_weight problem.now weights.now }
    requires right { IsRight problem.now recall.old }
    ensures outweighed { IfOk result (λ yes. IsTrue yes
        → IsOutweighed problem.now goal.now node.now weights.now lenses.now) }
    ensures right { IsRight problem.now recall.new }
{
    if node.is_empty() {
        return Ok(false);
    }
    let noted = recall.noted.as_slice();
    let Some(mosts) = guessed_mosts(alloc, problem, noted, goal, node, weights)? else {
        return Ok(false);
    };
    let spare = spare_of(&mosts, needs);
    let noted = &mut recall.noted;
    let sum = bounds_weigh(
        alloc, problem, noted, goal, node, weights, lenses, &mosts, spare,
    )?;
    match sum {
        Some(sum) => Ok(sum < needs),
        None => Ok(false),
    }
}
