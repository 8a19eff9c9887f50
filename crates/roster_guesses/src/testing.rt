//! Tests of prices of pairings (dual prices): whether no member has a line that weighs more than is known, so that they close
//! the node.
ghost use Rattle.std.specs.Prelude.{◌≡◌};
ghost use Rattle.roster_model.specs.Goals.{IsGoal};

use crate::limits::DEAR;
use crate::pooling::join_kept;
use crate::pricing::{Priced, price, price_briefly};
use duty_calendar::Memory;
use flat_search::{Board, Care, Pricing, is_large};
use line_mixes::{Borrowed, Bounded, Columns, Kept, Leaf};
use roster_model::{Goal, Problem};
use std::alloc::Global;

/// What is tested at a node, with what care.
#[derive(Clone, Copy)]
pub(crate) struct Tried<'a> {
    pub board: &'a Board,
    pub weights: &'a [i64],
    pub care: Care,
}

/// Looks for a line of the member above a bound. As long as no member is dear, one whose search takes long is held to be from now
/// on.
fn price_noting(
    alloc: Global,
    problem: &Problem,
    kept: &mut Kept,
    goal: &Goal,
    tried: Tried,
    member: usize,
    over: i64,
) -> Result<Priced, Memory>
    requires goal { IsGoal problem.now goal.now }
{
    let row = tried.board.row(member);
    let asked = Pricing {
        member,
        goal,
        row: &row,
        weights: tried.weights,
        over,
    };
    if tried.care != Care::Rough && !kept.has_dear() {
        match price_briefly(alloc, problem, kept, asked, tried.care)? {
            Priced::Unknown => kept.hold_dear(member, DEAR),
            priced => return Ok(priced),
        }
    }
    price(alloc, problem, kept, asked, tried.care)
}

/// Whether the goal asks for nothing of the member.
fn is_unasked(goal: &Goal, member: usize) -> bool {
    let floor = goal.floors.as_slice().get(member).copied().unwrap_or(0);
    let is_granting = match goal.grant {
        Some(bid) => bid.member as usize == member,
        None => false,
    };
    floor == 0 && !is_granting
}

/// At a root of a large month that asks nothing of the member, a line of another one that this one may fly too: it costs no
/// search.
pub(crate) fn borrowed(
    alloc: Global,
    problem: &Problem,
    kept: &mut Kept,
    goal: &Goal,
    tried: Tried,
    member: usize,
    over: i64,
) -> Result<Option<Borrowed>, Memory> {
    let may_borrow = tried.care != Care::Plain
        && is_large(problem)
        && tried.board.row(member).is_empty()
        && is_unasked(goal, member);
    if !may_borrow {
        return Ok(None);
    }
    kept.borrow(alloc, problem, member, goal, tried.weights, over)
}

/// Looks for a line of the member that weighs more than its columns and the slack. One that is found joins these.
pub(crate) fn test_member(
    alloc: Global,
    problem: &Problem,
    kept: &mut Kept,
    goal: &Goal,
    columns: &mut Columns,
    tried: Tried,
    member: usize,
    leaf: &mut Leaf,
) -> Result<(), Memory>
    requires goal { IsGoal problem.now goal.now }
{
    if tried
        .board
        .row(member)
        .is_whole(problem.base.pairings.len())
    {
        return Ok(());
    }
    let over = leaf.over(member);
    if let Some(line) = borrowed(alloc, problem, kept, goal, tried, member, over)? {
        return leaf.found(columns, member, line.place, line.weight);
    }
    match price_noting(alloc, problem, kept, goal, tried, member, over)? {
        Priced::Line(place, weight) => leaf.found(columns, member, place, weight)?,
        Priced::Unknown => {
            leaf.is_closing = false;
            leaf.is_lost = true;
        }
        Priced::Nothing(lens) => leaf.set(member, lens, over),
    }
    Ok(())
}

/// What a test of weights comes to: they close the node; they do not; or it is not known, since a search ran out of steps.
#[derive(Drop)]
pub(crate) enum Outcome {
    Closes(Bounded),
    Open,
    Lost,
}

/// What rough searches tell of weights at a node of a large month: that these are not worth a close look, since lines were found, or
/// the known ones weigh as much as the needs; and for which members they ran out of steps.
#[derive(Drop)]
pub(crate) struct Rough {
    pub is_open: bool,
    pub lost: Vec<usize>,
}

/// Rough searches of the members one after the other, of all, or as long as too little is found, where no kept line joins the
/// columns. Lines that they find join these. Where the month is not large, or no close search was long so far, there are none, and nothing is known.
pub(crate) fn test_roughly(
    alloc: Global,
    problem: &Problem,
    kept: &mut Kept,
    goal: &Goal,
    columns: &mut Columns,
    tried: Tried,
    all: bool,
) -> Result<Rough, Memory>
    requires goal { IsGoal problem.now goal.now }
{
    let mut rough = Rough {
        is_open: false,
        lost: Vec::new(alloc),
    };
    if tried.care != Care::Fine || !is_large(problem) || !kept.has_dear() {
        return Ok(rough);
    }
    let Some(begun) = Leaf::begun(alloc, problem, kept, columns, tried.weights)? else {
        rough.is_open = true;
        return Ok(rough);
    };
    if join_kept(problem, kept, goal, columns, tried)? {
        rough.is_open = true;
        return Ok(rough);
    }
    let mut leaf = begun;
    let before = columns.count();
    let care = Care::Rough;
    let members = problem.base.members.len();
    let turn = kept.next_turn(members);
    for step in 0..members {
        let member = turn.wrapping_add(step).checked_rem(members).unwrap_or(0);
        if leaf.is_reached() && !all {
            rough.is_open = true;
            return Ok(rough);
        }
        leaf.is_lost = false;
        let tried = Tried { care, ..tried };
        test_member(
            alloc, problem, kept, goal, columns, tried, member, &mut leaf,
        )?;
        if leaf.is_lost {
            rough.lost.push(member)?;
        }
    }
    rough.is_open = leaf.is_reached() || columns.count() > before;
    Ok(rough)
}

/// All members in turn, the first ones first.
fn in_turn(
    alloc: Global,
    problem: &Problem,
    kept: &mut Kept,
    first: &[usize],
) -> Result<Vec<usize>, Memory> {
    let members = problem.base.members.len();
    let turn = kept.next_turn(members);
    let mut order = Vec::from_slice(alloc, first)?;
    for step in 0..members {
        let member = turn.wrapping_add(step).checked_rem(members).unwrap_or(0);
        if !first.contains(&member) {
            order.push(member)?;
        }
    }
    Ok(order)
}

/// Whether the weights close the node: the columns first, and searches for lines only where these weigh less than the
/// needs. Lines that are found join the columns. In a large month rough searches come first, since most weights close nothing,
/// and then those of the members for whom these ran out of steps; others only where nothing is found.
pub(crate) fn test(
    alloc: Global,
    problem: &Problem,
    kept: &mut Kept,
    goal: &Goal,
    board: &Board,
    columns: &mut Columns,
    weights: Vec<i64>,
    care: Care,
) -> Result<Outcome, Memory>
    requires goal { IsGoal problem.now goal.now }
{
    let tried = Tried {
        board,
        weights: &weights,
        care,
    };
    let rough = test_roughly(alloc, problem, kept, goal, columns, tried, false)?;
    if rough.is_open {
        return Ok(Outcome::Open);
    }
    let Some(begun) = Leaf::begun(alloc, problem, kept, columns, &weights)? else {
        return Ok(Outcome::Open);
    };
    let mut leaf = begun;
    let before = columns.count();
    let lost = rough.lost.len();
    let order = in_turn(alloc, problem, kept, &rough.lost)?;
    for (at, member) in order.iter().enumerate() {
        let is_found = at == lost && columns.count() > before;
        if leaf.is_reached() || is_found {
            return Ok(Outcome::Open);
        }
        let tried = Tried {
            board,
            weights: &weights,
            care,
        };
        test_member(
            alloc, problem, kept, goal, columns, tried, *member, &mut leaf,
        )?;
    }
    if leaf.is_lost {
        return Ok(Outcome::Lost);
    }
    Ok(match leaf.closed(weights) {
        Some(leaf) => Outcome::Closes(leaf),
        None => Outcome::Open,
    })
}
