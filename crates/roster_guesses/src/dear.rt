//! Tests of prices where some members' searches are dear: these come last, and only where the others leave the node closed.
ghost use Rattle.std.specs.Prelude.{◌≡◌};
ghost use Rattle.roster_model.specs.Goals.{IsGoal};

use crate::limits::DEAR;
use crate::pricing::{Priced, price, price_briefly};
use crate::testing::{Tried, borrowed, test_member, test_roughly};
use duty_calendar::Memory;
use flat_search::{Board, Care, Pricing, number};
use line_mixes::{Bounded, Columns, Kept, Leaf};
use roster_model::{Goal, Problem};
use std::alloc::Global;

/// Looks briefly for a line of the member that weighs more than its columns. Whose search takes longer is held to be dear.
fn test_briefly(
    alloc: Global,
    problem: &Problem,
    kept: &mut Kept,
    goal: &Goal,
    columns: &mut Columns,
    tried: Tried,
    member: usize,
    leaf: &mut Leaf,
) -> Result<(), Memory>
    requires goal { IsGoal problem.now goal.now }
{
    let row = tried.board.row(member);
    if kept.is_dear(member) || row.is_whole(problem.base.pairings.len()) {
        return Ok(());
    }
    let most = leaf.most(member);
    if let Some(line) = borrowed(alloc, problem, kept, goal, tried, member, most)? {
        return leaf.found(columns, member, line.place, line.weight);
    }
    let asked = Pricing {
        member,
        goal,
        row: &row,
        weights: tried.weights,
        over: most,
    };
    match price_briefly(alloc, problem, kept, asked, tried.care)? {
        Priced::Line(place, weight) => leaf.found(columns, member, place, weight)?,
        Priced::Unknown => kept.hold_dear(member, DEAR),
        Priced::Nothing(lens) => leaf.set(member, lens, most),
    }
    Ok(())
}

/// Looks briefly at all members that are not dear.
fn test_others(
    alloc: Global,
    problem: &Problem,
    kept: &mut Kept,
    goal: &Goal,
    columns: &mut Columns,
    tried: Tried,
    leaf: &mut Leaf,
) -> Result<(), Memory>
    requires goal { IsGoal problem.now goal.now }
{
    for member in 0..problem.base.members.len() {
        test_briefly(alloc, problem, kept, goal, columns, tried, member, leaf)?;
    }
    Ok(())
}

/// Looks once more for a line of a member of whom one was found, above the heaviest known one and the member's share of what
/// may be weighed more; tells whether there is none.
fn settle_member(
    alloc: Global,
    problem: &Problem,
    kept: &mut Kept,
    goal: &Goal,
    columns: &mut Columns,
    tried: Tried,
    member: usize,
    leaf: &mut Leaf,
) -> Result<bool, Memory>
    requires goal { IsGoal problem.now goal.now }
{
    let row = tried.board.row(member);
    let over = leaf.over(member);
    let asked = Pricing {
        member,
        goal,
        row: &row,
        weights: tried.weights,
        over,
    };
    match price_briefly(alloc, problem, kept, asked, tried.care)? {
        Priced::Line(place, weight) => leaf.found(columns, member, place, weight)?,
        Priced::Unknown => {}
        Priced::Nothing(lens) => {
            leaf.set(member, lens, over);
            leaf.spend();
            return Ok(true);
        }
    }
    Ok(false)
}

/// Looks once more at the members of whom lines were found, who share with the dear ones what may be weighed above the known
/// lines, as long as these weigh less than the needs. Where none has another line, the leaf may close after all.
fn settle(
    alloc: Global,
    problem: &Problem,
    kept: &mut Kept,
    goal: &Goal,
    columns: &mut Columns,
    tried: Tried,
    leaf: &mut Leaf,
) -> Result<(), Memory>
    requires goal { IsGoal problem.now goal.now }
{
    let risen = leaf.take_risen(alloc);
    let mut left = count_dear(problem, kept, tried.board).saturating_add(number(risen.len()));
    for member in &risen {
        if leaf.is_reached() {
            return Ok(());
        }
        leaf.share(left);
        left = left.saturating_sub(1);
        if !settle_member(alloc, problem, kept, goal, columns, tried, *member, leaf)? {
            return Ok(());
        }
    }
    leaf.is_closing = true;
    Ok(())
}

/// Whether the member is dear, and not decided whole.
fn is_dear(problem: &Problem, kept: &Kept, board: &Board, member: usize) -> bool {
    kept.is_dear(member) && !board.row(member).is_whole(problem.base.pairings.len())
}

/// How many members are dear, and not decided whole.
fn count_dear(problem: &Problem, kept: &Kept, board: &Board) -> u32 {
    let mut count: u32 = 0;
    for member in 0..problem.base.members.len() {
        if is_dear(problem, kept, board, member) {
            count = count.saturating_add(1);
        }
    }
    count
}

/// Tests the members that are dear, who share what may be weighed above the columns.
fn test_dear(
    alloc: Global,
    problem: &Problem,
    kept: &mut Kept,
    goal: &Goal,
    columns: &mut Columns,
    tried: Tried,
    leaf: &mut Leaf,
) -> Result<(), Memory>
    requires goal { IsGoal problem.now goal.now }
{
    let mut left = count_dear(problem, kept, tried.board);
    for member in 0..problem.base.members.len() {
        if !is_dear(problem, kept, tried.board, member) {
            continue;
        }
        if leaf.is_reached() {
            leaf.is_closing = false;
            return Ok(());
        }
        leaf.share(left);
        left = left.saturating_sub(1);
        kept.count_dear(member);
        test_member(alloc, problem, kept, goal, columns, tried, member, leaf)?;
        if leaf.is_closing {
            leaf.spend();
        }
    }
    Ok(())
}

/// Looks closely for lines of these members that weigh more than their columns, and tells whether one is found, which joins these.
fn found_closely(
    alloc: Global,
    problem: &Problem,
    kept: &mut Kept,
    goal: &Goal,
    columns: &mut Columns,
    tried: Tried,
    members: &[usize],
) -> Result<bool, Memory>
    requires goal { IsGoal problem.now goal.now }
{
    let before = columns.count();
    for member in members {
        let row = tried.board.row(*member);
        let asked = Pricing {
            member: *member,
            goal,
            row: &row,
            weights: tried.weights,
            over: columns.most(kept, *member, tried.weights),
        };
        if let Priced::Line(place, _weight) = price(alloc, problem, kept, asked, tried.care)? {
            columns.add(*member, place)?;
        }
    }
    Ok(columns.count() > before)
}

/// Whether the weights close the node: all members that are not dear are searched; then, as long as the lines that are known
/// weigh less than the needs, those of whom lines were found once more, and the dear ones. Lines that are found join the
/// columns. In a large month none is searched closely as long as rough searches find lines, or close ones of the members for whom
/// these ran out of steps.
pub(crate) fn test_all(
    alloc: Global,
    problem: &Problem,
    kept: &mut Kept,
    goal: &Goal,
    board: &Board,
    columns: &mut Columns,
    weights: Vec<i64>,
    care: Care,
) -> Result<Option<Bounded>, Memory>
    requires goal { IsGoal problem.now goal.now }
{
    let tried = Tried {
        board,
        weights: &weights,
        care,
    };
    let rough = test_roughly(alloc, problem, kept, goal, columns, tried, true)?;
    if rough.is_open || found_closely(alloc, problem, kept, goal, columns, tried, &rough.lost)? {
        return Ok(None);
    }
    let Some(begun) = Leaf::begun(alloc, problem, kept, columns, &weights)? else {
        return Ok(None);
    };
    let mut leaf = begun;
    test_others(alloc, problem, kept, goal, columns, tried, &mut leaf)?;
    settle(alloc, problem, kept, goal, columns, tried, &mut leaf)?;
    test_dear(alloc, problem, kept, goal, columns, tried, &mut leaf)?;
    Ok(leaf.closed(weights))
}
