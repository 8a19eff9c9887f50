//! From the files of a folder to the report.
ghost use Rattle.std.specs.Prelude.{◌≡◌, ◌≤◌, length};
ghost use Rattle.month_files.specs.FileNames.{limit_of};
ghost use Rattle.month_files.specs.Reading.{AreShort, view_texts};
ghost use Rattle.month_files.specs.declared.file.File.TheVariants.{Reasons as ReasonsFile};

use crate::figures::figures_of;
use crate::page::print_report;
use crate::records::print_records;
use duty_calendar::List;
use month_files::read_month;
use month_page::{Beside, PageStop, Seen, read_seen, sums_of};
use roster_text::{read_reasons, read_roster};
use shelf::Shelf;
use std::alloc::Global;

/// The report: as a page, and as records.
#[derive(Drop)]
pub struct Report {
    pub page: List<u8>,
    pub records: List<u8>,
}

/// The report of the month that was read.
fn report_of(alloc: Global, seen: &Seen, beside: &Beside<'_>) -> Result<Report, PageStop>
    requires short { AreShort (view_texts seen.now.texts) }
    requires limit { length seen.now.reasons.items ≤ limit_of ReasonsFile }
{
    let problem = read_month(alloc, &seen.texts)?;
    let roster = read_roster(alloc, &seen.roster, &problem)?;
    let reasons = read_reasons(alloc, &seen.reasons, &problem)?;
    let figures = figures_of(alloc, &problem, &roster, &reasons, beside.names)?;
    let sums = sums_of(alloc, seen)?;
    Ok(Report {
        page: print_report(alloc, &problem.base, &figures, &sums, beside.built)?,
        records: print_records(alloc, &problem, &figures)?,
    })
}

/// The report of the award in the folder, without what is otherwise. No file is written.
pub fn planner_report<S: Shelf>(
    alloc: Global,
    shelf: &mut S,
    beside: &Beside<'_>,
) -> Result<Report, PageStop>
    ensures kept { S.holds shelf.new ≡ S.holds shelf.old }
{
    let seen = read_seen(alloc, shelf)?;
    report_of(alloc, &seen, beside)
}
