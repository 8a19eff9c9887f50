//! Lenses (relaxations of the pricing problem) that see no more than they have to.
ghost use Rattle.std.specs.Prelude.{◌≡◌};
ghost use Rattle.roster_model.specs.Goals.{IsGoal};

use crate::pricing::{Priced, price_afresh};
use crate::testing::Tried;
use duty_calendar::Memory;
use flat_search::{Board, Care, Pricing, is_first};
use line_mixes::{Bounded, Kept};
use roster_model::{Goal, Lens, Problem};
use std::alloc::Global;

/// A lens under which the member has no line above the bound, by a ladder that begins with the first lens.
fn lens_again(
    alloc: Global,
    problem: &Problem,
    kept: &mut Kept,
    goal: &Goal,
    tried: Tried,
    member: usize,
    over: i64,
) -> Result<Option<Lens>, Memory>
    requires goal { IsGoal problem.now goal.now }
{
    let row = tried.board.row(member);
    let asked = Pricing {
        member,
        goal,
        row: &row,
        weights: tried.weights,
        over,
    };
    match price_afresh(alloc, problem, kept, asked, tried.care)? {
        Priced::Nothing(lens) => Ok(Some(lens)),
        Priced::Line(_, _) | Priced::Unknown => Ok(None),
    }
}

/// A lens that sees less than this one, and by which the member has no line above the bound either: one that looks at
/// pairings one by one, if it can be.
fn plainer_lens(
    alloc: Global,
    problem: &Problem,
    kept: &mut Kept,
    goal: &Goal,
    tried: Tried,
    member: usize,
    over: i64,
    lens: &Lens,
) -> Result<Option<Lens>, Memory>
    requires goal { IsGoal problem.now goal.now }
{
    if is_first(lens) && !lens.whole {
        return Ok(None);
    }
    let by_pairings = Tried {
        care: Care::Plain,
        ..tried
    };
    let plain = lens_again(alloc, problem, kept, goal, by_pairings, member, over)?;
    if plain.is_some() || is_first(lens) || !lens.whole {
        return Ok(plain);
    }
    lens_again(alloc, problem, kept, goal, tried, member, over)
}

/// The lens of a member without a line at the node, or one that sees less.
pub fn plainer_without_line(
    alloc: Global,
    problem: &Problem,
    kept: &mut Kept,
    goal: &Goal,
    board: &Board,
    member: usize,
    lens: Lens,
) -> Result<Lens, Memory>
    requires goal { IsGoal problem.now goal.now }
{
    if !lens.whole {
        return Ok(lens);
    }
    let weights = vec![in alloc; 0i64; problem.base.pairings.len()]?;
    let tried = Tried {
        board,
        weights: &weights,
        care: Care::Fine,
    };
    match plainer_lens(alloc, problem, kept, goal, tried, member, -1, &lens)? {
        Some(plainer) => Ok(plainer),
        None => Ok(lens),
    }
}

/// The leaf with lenses that see no more than they have to.
pub fn plainer(
    alloc: Global,
    problem: &Problem,
    kept: &mut Kept,
    goal: &Goal,
    board: &Board,
    leaf: Bounded,
) -> Result<Bounded, Memory>
    requires goal { IsGoal problem.now goal.now }
{
    let mut leaf = leaf;
    for member in 0..problem.base.members.len() {
        let Some(lens) = leaf.lenses.as_slice().get(member) else {
            continue;
        };
        let over = leaf.overs.get(member).copied().unwrap_or(0);
        let tried = Tried {
            board,
            weights: &leaf.weights,
            care: Care::Fine,
        };
        let plainer = plainer_lens(alloc, problem, kept, goal, tried, member, over, lens)?;
        if let Some(plainer) = plainer {
            if member < leaf.lenses.len() {
                *leaf.lenses.at_mut(member) = plainer;
            }
        }
    }
    Ok(leaf)
}
