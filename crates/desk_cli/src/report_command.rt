//! The command `report`.
ghost use Rattle.std.specs.Prelude.{codes};
ghost use Rattle.desk_cli.specs.DeskFiles.{SameButAtTwo};

use crate::names_file::tell_names;
use crate::status::DeskStatus;
use crate::stops::say_stop;
use crate::writing::put_file;
use duty_calendar::Memory;
use file_places::Prose;
use month_page::Beside;
use month_report::{Report, planner_report};
use shelf::Shelf;
use std::alloc::Global;

/// Writes both files of a report. Where the first is not written, nor is the second.
#[tactic(auto, using(crate::proofs::Kept::same_first, crate::proofs::Kept::same_both))]
fn put_report<S: Shelf>(
    alloc: Global,
    shelf: &mut S,
    prose: &mut Prose,
    made: &Report,
) -> Result<DeskStatus, Memory>
    ensures others { SameButAtTwo (codes "report.html") (codes "report.csv") (S.holds shelf.old)
        (S.holds shelf.new) }
{
    let status = put_file(alloc, shelf, prose, "report.html", made.page.as_slice())?;
    if status != DeskStatus::Done {
        return Ok(status);
    }
    put_file(alloc, shelf, prose, "report.csv", made.records.as_slice())
}

/// Writes the report for planners, with what stands beside the files of the month.
#[tactic(auto, using(crate::proofs::Kept::two_kept))]
fn put_planner_report<S: Shelf>(
    alloc: Global,
    shelf: &mut S,
    prose: &mut Prose,
    beside: &Beside<'_>,
) -> Result<DeskStatus, Memory>
    ensures others { SameButAtTwo (codes "report.html") (codes "report.csv") (S.holds shelf.old)
        (S.holds shelf.new) }
{
    match planner_report(alloc, shelf, beside) {
        Ok(made) => put_report(alloc, shelf, prose, &made),
        Err(stop) => say_stop(alloc, shelf, prose, &stop),
    }
}

/// Writes the report for planners.
#[tactic(auto, using(crate::proofs::Kept::two_kept))]
pub fn run_report<S: Shelf>(
    alloc: Global,
    shelf: &mut S,
    prose: &mut Prose,
    built: &[u8],
) -> Result<DeskStatus, Memory>
    ensures others { SameButAtTwo (codes "report.html") (codes "report.csv") (S.holds shelf.old)
        (S.holds shelf.new) }
{
    let Some(names) = tell_names(alloc, shelf, prose)? else {
        return Ok(DeskStatus::Faulty);
    };
    let beside = Beside::new(&names, built);
    put_planner_report(alloc, shelf, prose, &beside)
}
