//! The columns with which a relaxation begins (of the restricted master): kept lines of each member that may serve.
ghost use Rattle.std.specs.Prelude.{◌≡◌};
ghost use Rattle.roster_model.specs.Goals.{IsGoal};

use crate::limits::COLUMNS;
use crate::pricing::{Priced, price_afresh};
use duty_calendar::Memory;
use flat_search::{Board, Care, Pricing, Row, is_large, number};
use line_mixes::{Columns, Kept, Mix};
use roster_choices::{Ranked, Ranking, leave_best};
use roster_model::{Goal, Lens, Problem};
use std::alloc::Global;

/// The lines that may be mixed, or why there are none.
#[derive(Drop)]
pub(crate) enum Gathered {
    Columns(Columns),
    NoLine(u32, Lens),
    Unknown,
}

/// Looks for a first line of the member.
fn first_line(
    alloc: Global,
    problem: &Problem,
    kept: &mut Kept,
    goal: &Goal,
    board: &Board,
    member: usize,
    care: Care,
) -> Result<Priced, Memory>
    requires goal { IsGoal problem.now goal.now }
{
    let weights = vec![in alloc; 0i64; problem.base.pairings.len()]?;
    let row = board.row(member);
    let asked = Pricing {
        member,
        goal,
        row: &row,
        weights: &weights,
        over: -1,
    };
    price_afresh(alloc, problem, kept, asked, care)
}

/// Looks for a first line of the member; closely, where a rough search doesn't tell at a root of a large month.
fn first_line_of(
    alloc: Global,
    problem: &Problem,
    kept: &mut Kept,
    goal: &Goal,
    board: &Board,
    member: usize,
    care: Care,
) -> Result<Priced, Memory>
    requires goal { IsGoal problem.now goal.now }
{
    match first_line(alloc, problem, kept, goal, board, member, care)? {
        Priced::Line(place, weight) => Ok(Priced::Line(place, weight)),
        _ if care == Care::Rough && is_large(problem) && board.row(member).is_empty() => {
            first_line(alloc, problem, kept, goal, board, member, Care::Fine)
        }
        other => Ok(other),
    }
}

/// The lines of all members that may be mixed.
pub(crate) fn gather(
    alloc: Global,
    problem: &Problem,
    kept: &mut Kept,
    goal: &Goal,
    board: &Board,
    care: Care,
) -> Result<Gathered, Memory>
    requires goal { IsGoal problem.now goal.now }
{
    let mut columns = Columns::new(alloc);
    for member in 0..problem.base.members.len() {
        if columns.append(alloc, kept, goal, member, &board.row(member), care)? {
            continue;
        }
        match first_line_of(alloc, problem, kept, goal, board, member, care)? {
            Priced::Line(place, _weight) => columns.add(member, place)?,
            Priced::Nothing(lens) => return Ok(Gathered::NoLine(number(member), lens)),
            Priced::Unknown => return Ok(Gathered::Unknown),
        }
    }
    Ok(Gathered::Columns(columns))
}

/// The best of the member's columns.
fn best_of(
    alloc: Global,
    kept: &Kept,
    columns: &Columns,
    ranking: Ranking,
    member: usize,
) -> Result<Vec<Ranked>, Memory> {
    let mut lines = Vec::new(alloc);
    for place in columns.places(member) {
        lines.push(ranking.rank(kept, member, *place))?;
    }
    leave_best(&mut lines, COLUMNS);
    Ok(lines)
}

/// Appends these lines of the next member, which may serve.
fn append(
    alloc: Global,
    problem: &Problem,
    kept: &Kept,
    goal: &Goal,
    member: usize,
    lines: &[Ranked],
    care: Care,
    columns: &mut Columns,
) -> Result<(), Memory> {
    let pairings = problem.base.pairings.len();
    let first = lines.first().map_or(0, |line| line.place);
    let row = Row::fixed(kept.pairings(member, first), pairings);
    columns.append(alloc, kept, goal, member, &row, care)?;
    for line in lines.iter().skip(1) {
        columns.add(member, line.place)?;
    }
    Ok(())
}

/// In a large month the columns that weigh most in the mix with which the relaxation begins; else all.
pub(crate) fn thinned(
    alloc: Global,
    problem: &Problem,
    kept: &Kept,
    goal: &Goal,
    columns: Columns,
    warm: Option<&Mix>,
    care: Care,
) -> Result<Columns, Memory> {
    let members = problem.base.members.len();
    let Some(mix) = warm else {
        return Ok(columns);
    };
    if !is_large(problem) || columns.count() <= members.saturating_mul(COLUMNS) {
        return Ok(columns);
    }
    let weights = mix.weights(alloc)?;
    let ranking = Ranking {
        mix,
        weights: &weights,
    };
    let mut thin = Columns::new(alloc);
    for member in 0..members {
        let lines = best_of(alloc, kept, &columns, ranking, member)?;
        append(alloc, problem, kept, goal, member, &lines, care, &mut thin)?;
    }
    Ok(thin)
}
