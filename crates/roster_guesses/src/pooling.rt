//! Kept lines that join the columns where they weigh more under new prices (pricing over the pool), before lines are searched for.

use crate::exchanging::weigh;
use crate::testing::Tried;
use duty_calendar::Memory;
use flat_search::Row;
use line_mixes::{Columns, Kept};
use roster_model::{Goal, Problem};

/// Whether the kept line may serve the goal and obeys the row.
fn may_join(
    kept: &Kept,
    goal: &Goal,
    tried: Tried,
    row: &Row,
    member: usize,
    place: usize,
) -> bool {
    match kept.profile(member, place) {
        Some(profile) => {
            row.flown.is_within(&profile.pairings)
                && !row.barred.meets(&profile.pairings)
                && profile.may_serve(goal, member, tried.care)
        }
        None => false,
    }
}

/// The heaviest of the member's kept lines that may join its columns and weigh more than these.
fn heaviest(
    kept: &Kept,
    goal: &Goal,
    columns: &Columns,
    tried: Tried,
    member: usize,
) -> Option<usize> {
    let row = tried.board.row(member);
    let mut most = columns.most(kept, member, tried.weights);
    let mut best = None;
    for place in 0..kept.len(member) {
        let weight = weigh(kept.pairings(member, place), tried.weights);
        if weight > most && may_join(kept, goal, tried, &row, member, place) {
            best = Some(place);
            most = weight;
        }
    }
    best
}

/// Lets the heaviest kept line of each member join its columns, where it weighs more than these; tells whether any did.
pub(crate) fn join_kept(
    problem: &Problem,
    kept: &Kept,
    goal: &Goal,
    columns: &mut Columns,
    tried: Tried,
) -> Result<bool, Memory> {
    let mut has_joined = false;
    for member in 0..problem.base.members.len() {
        if let Some(place) = heaviest(kept, goal, columns, tried, member) {
            columns.add(member, place)?;
            has_joined = true;
        }
    }
    Ok(has_joined)
}
