//! From the files of a folder to its page.
ghost use Rattle.std.specs.Prelude.{◌≡◌, ◌≤◌, ◌<◌, ◌++◌, All, IfOk, length};
ghost use Rattle.std.specs.Option.{ForSome};
ghost use Rattle.month_files.specs.FileNames.{limit_of};
ghost use Rattle.month_files.specs.Reading.{HasCause, Finds, AreShort, view_texts};
ghost use Rattle.month_files.specs.Writes.{FileCause};
ghost use Rattle.month_files.specs.declared.file.File.TheVariants.{Roster as RosterFile, Reasons as ReasonsFile};
ghost use Rattle.shelf.specs.Files.{SameButAt};
ghost use Rattle.month_page.specs.PageEnds.{page_name, PageCause, PageLeaves};
ghost use Rattle.month_page.specs.Pages.{seen_in, view_seen, seen_texts, ComesOf, IsPageRun, IsPageHanded};

use crate::beside::Beside;
use crate::page_stop::PageStop;
use crate::printing::print_page;
use crate::sums::sums_of;
use duty_calendar::{List, Memory};
use month_files::{File, Texts, Unread, WriteStop, read_file, read_month, read_texts};
use roster_model::{Problem, Reasons, Roster};
use roster_text::{read_reasons, read_roster};
use shelf::{Shelf, ShelfFault};
use std::alloc::Global;

/// What is read.
#[derive(Drop)]
pub struct Seen {
    pub texts: Texts,
    pub roster: Vec<u8>,
    pub reasons: Vec<u8>,
}

/// The bytes of a page, and how many members it shows.
#[derive(Drop)]
struct Sheet {
    bytes: List<u8>,
    members: u32,
}

/// Reads the inputs, the roster and the reasons.
#[tactic(auto, unfolding(crate::specs::Pages::seen_in))]
pub fn read_seen<S: Shelf>(alloc: Global, shelf: &mut S) -> Result<Seen, Unread>
    ensures cause { HasCause (S.tally shelf.old) (S.tally shelf.new) result }
    ensures told { ForSome (S.holds shelf.old) (λ files. Finds view_seen result (seen_in files)) }
    ensures short { IfOk result (λ s. AreShort (view_texts s.texts)) }
    ensures roster_limit { IfOk result (λ s. length s.roster.items ≤ limit_of RosterFile) }
    ensures reasons_limit { IfOk result (λ s. length s.reasons.items ≤ limit_of ReasonsFile) }
    ensures kept { S.holds shelf.new ≡ S.holds shelf.old }
    ensures logged { IfOk result
        (λ s. S.log shelf.new ≡ S.log shelf.old ++ seen_texts (view_seen s)) }
{
    let texts = read_texts(alloc, shelf)?;
    let roster = read_file(alloc, shelf, File::Roster)?;
    let reasons = read_file(alloc, shelf, File::Reasons)?;
    Ok(Seen {
        texts,
        roster,
        reasons,
    })
}

/// The bytes of the page, with the sums of what was read.
fn bytes_of(
    alloc: Global,
    seen: &Seen,
    problem: &Problem,
    roster: &Roster,
    reasons: &Reasons,
    beside: &Beside<'_>,
) -> Result<List<u8>, Memory>
    requires lines { length roster.now ≡ length problem.now.base.members }
    requires in_range { All (All (λ p. p < length problem.now.base.pairings)) roster.now }
{
    let sums = sums_of(alloc, seen)?;
    print_page(alloc, problem, roster, reasons, &sums, beside)
}

/// The page of the month that was read.
fn page_of(alloc: Global, seen: &Seen, beside: &Beside<'_>) -> Result<Sheet, PageStop>
    requires short { AreShort (view_texts seen.now.texts) }
    requires limit { length seen.now.reasons.items ≤ limit_of ReasonsFile }
    ensures comes { ComesOf (view_seen seen.now) result }
{
    let problem = read_month(alloc, &seen.texts)?;
    let roster = read_roster(alloc, &seen.roster, &problem)?;
    let reasons = read_reasons(alloc, &seen.reasons, &problem)?;
    let bytes = bytes_of(alloc, seen, &problem, &roster, &reasons, beside)?;
    Ok(Sheet {
        bytes,
        members: problem.base.members.len() as u32,
    })
}

/// Writes the page's file.
fn write_page<S: Shelf>(alloc: Global, shelf: &mut S, bytes: &[u8]) -> Result<(), WriteStop>
    ensures cause { FileCause page_name (S.tally shelf.old) (S.tally shelf.new) result }
    ensures others { SameButAt page_name (S.holds shelf.old) (S.holds shelf.new) }
    ensures unlogged { S.log shelf.new ≡ S.log shelf.old }
{
    match shelf.write(alloc, "month.html", bytes) {
        Ok(()) => Ok(()),
        Err(ShelfFault::WriteFailed) => Err(WriteStop::Fault),
        Err(ShelfFault::NoMemory) => Err(WriteStop::NoMemory),
        Err(ShelfFault::ReadFailed) => unreachable!(),
        Err(ShelfFault::Missing) => unreachable!(),
        Err(ShelfFault::TooLong) => unreachable!(),
    }
}

/// Writes `month.html`, the page of the month, the roster and the reasons in the folder. The answer is how many members
/// it shows.
pub fn page<S: Shelf>(alloc: Global, shelf: &mut S, beside: &Beside<'_>) -> Result<u32, PageStop>
    ensures cause { PageCause (S.tally shelf.old) (S.tally shelf.new) result }
    ensures told { ForSome (S.holds shelf.old) (λ files. IsPageRun files result) }
    ensures left { PageLeaves (S.holds shelf.old) (S.holds shelf.new) result }
    ensures handed { IsPageHanded (S.log shelf.old) (S.log shelf.new) result }
{
    let seen = read_seen(alloc, shelf)?;
    let sheet = page_of(alloc, &seen, beside)?;
    match write_page(alloc, shelf, sheet.bytes.as_slice()) {
        Ok(()) => Ok(sheet.members),
        Err(why) => Err(PageStop::Unwritten(why)),
    }
}
