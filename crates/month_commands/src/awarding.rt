//! The command `award`.
ghost use Rattle.std.specs.Prelude.{◌≡◌, ◌≤◌, ◌++◌, ◌∷◌, [], ℕ, IfOk, OnOk, All, length};
ghost use Rattle.std.specs.Option.{ForSome};
ghost use Rattle.month_award.specs.declared.outcome.MonthAward.TheVariants.{Award as MonthIsAwarded};
ghost use Rattle.month_award.specs.Months.{IsWritable, IsAwardedMonth, IsUnfillableMonth, GivesGreatestScores};
ghost use Rattle.month_files.specs.FileNames.{limit_of};
ghost use Rattle.month_files.specs.Handing.{FromReads};
ghost use Rattle.month_files.specs.declared.file.File.TheVariants.{Reasons as ReasonsFile};
ghost use Rattle.roster_model.specs.Denials.{place_of};
ghost use Rattle.roster_model.specs.Goals.{IsBidOf};
ghost use Rattle.roster_model.specs.Rosters.{IsComplete};
ghost use Rattle.roster_text.specs.ReasonText.{reasons_text, most_reasons};
ghost use Rattle.shelf.specs.Files.{Files};
ghost use Rattle.shelf.specs.Logs.{Entries};
ghost use Rattle.month_commands.specs.Award.{certificate_draft, reasons_draft, roster_draft, IsReadable, IsReadableRoster, Finds, IsFinding, IsFound, IsAward, IsAwardHanded, awarding_order};
ghost use Rattle.month_commands.specs.AwardEnds.{AwardCause, award_written};
ghost use Rattle.month_files.specs.Writes.{Leaves};

use crate::award_stop::{AwardStop, Finding, Found, Miss};
use bid_score::scores_of;
use branch_log::FreshCloser;
use cert_text::print_certificate;
use duty_calendar::{List, Memory};
use month_award::{AwardedMonth, MonthAward, UnfillableMonth, award_month};
use month_files::{Draft, File, read_month, read_texts, write_all};
use roster_model::{Certificate, Problem, Reasons, Roster};
use roster_text::{print_reasons, print_roster};
use shelf::Shelf;
use std::alloc::Global;

/// What was found, and the files that say it.
#[derive(Drop)]
struct Said {
    found: Found,
    drafts: List<Draft>,
}

/// The files to write, of which the first is the certificate's.
fn certificate_drafts(alloc: Global, certificate: &Certificate) -> Result<List<Draft>, Memory>
    requires writable { IsWritable certificate.now }
    ensures drafts { IfOk result (λ d. d ≡ certificate_draft certificate.now ∷ []) }
    ensures readable { OnOk result (IsReadable certificate.now) }
{
    let bytes = print_certificate(alloc, certificate)?;
    let mut drafts = List::new(alloc);
    let draft = Draft {
        file: File::Certificate,
        bytes,
    };
    if drafts.push(draft).is_err() {
        return Err(Memory::NoMemory);
    }
    Ok(drafts)
}

/// Adds the file of the reasons to the files to write.
fn add_reasons(
    alloc: Global,
    drafts: &mut List<Draft>,
    problem: &Problem,
    reasons: &Reasons,
) -> Result<(), Memory>
    requires bids { All (λ d. IsBidOf problem.now d.bid) reasons.now }
    requires places { All (λ d. place_of d.cause ≤ length problem.now.base.members) reasons.now }
    requires few { length reasons.now ≤ most_reasons }
    ensures drafts { OnOk result (drafts.new ≡ drafts.old ++ reasons_draft problem.now reasons.now
        ∷ []) }
    ensures fits { OnOk result (length (reasons_text problem.now reasons.now)
        ≤ limit_of ReasonsFile) }
{
    let bytes = print_reasons(alloc, problem, reasons)?;
    let draft = Draft {
        file: File::Reasons,
        bytes,
    };
    if drafts.push(draft).is_err() {
        return Err(Memory::NoMemory);
    }
    Ok(())
}

/// Adds the roster's file to the files to write.
fn add_roster(
    alloc: Global,
    drafts: &mut List<Draft>,
    problem: &Problem,
    roster: &Roster,
) -> Result<(), Memory>
    requires complete { IsComplete problem.now roster.now }
    ensures drafts { OnOk result (drafts.new ≡ drafts.old ++ roster_draft problem.now roster.now
        ∷ []) }
    ensures readable { OnOk result (IsReadableRoster problem.now roster.now) }
{
    let bytes = print_roster(alloc, problem, roster)?;
    let draft = Draft {
        file: File::Roster,
        bytes,
    };
    if drafts.push(draft).is_err() {
        return Err(Memory::NoMemory);
    }
    Ok(())
}

/// What is said of a month that is awarded.
fn awarded(
    alloc: Global,
    problem: &Problem,
    nodes: u32,
    month: &AwardedMonth,
) -> Result<Said, Memory>
    requires month { IsAwardedMonth problem.now nodes month.now }
    requires seniors { GivesGreatestScores problem.now (MonthIsAwarded month.now) }
    ensures found { IfOk result (λ s. Finds problem.now nodes s.found month.now.ledger s.drafts) }
{
    let _ = nodes;
    let mut drafts = certificate_drafts(alloc, &month.certificate)?;
    add_reasons(alloc, &mut drafts, problem, &month.reasons)?;
    add_roster(alloc, &mut drafts, problem, &month.roster)?;
    let scores = scores_of(alloc, problem, &month.roster)?;
    Ok(Said {
        found: Found::Award(scores, month.reasons.len() as u32),
        drafts,
    })
}

/// What is said of a month that no roster fills.
fn unfillable(
    alloc: Global,
    problem: &Problem,
    nodes: u32,
    month: &UnfillableMonth,
) -> Result<Said, Memory>
    requires month { IsUnfillableMonth problem.now nodes month.now }
    ensures found { IfOk result (λ s. Finds problem.now nodes s.found month.now.ledger s.drafts) }
{
    let _ = problem;
    let _ = nodes;
    let drafts = certificate_drafts(alloc, &month.certificate)?;
    Ok(Said {
        found: Found::NoRoster,
        drafts,
    })
}

/// What comes of the award of a month with so many nodes at most.
fn find<C: FreshCloser>(alloc: Global, problem: &Problem, nodes: u32) -> Result<Finding, Miss>
    requires some { 1 ≤ nodes }
    requires few { nodes ≤ 20000 }
    ensures found { IsFinding problem.now nodes result }
{
    match award_month::<C>(alloc, problem, nodes)? {
        MonthAward::Award(month) => {
            let said = awarded(alloc, problem, nodes, &month)?;
            Ok(Finding {
                found: said.found,
                ledger: month.ledger,
                drafts: said.drafts,
            })
        }
        MonthAward::NoRoster(month) => {
            let said = unfillable(alloc, problem, nodes, &month)?;
            Ok(Finding {
                found: said.found,
                ledger: month.ledger,
                drafts: said.drafts,
            })
        }
        MonthAward::Budget(ledger) => Err(Miss::Budget(ledger)),
    }
}

/// Writes the files that say what was found.
fn write_found<S: Shelf>(
    alloc: Global,
    shelf: &mut S,
    finding: Finding,
) -> Result<Finding, AwardStop>
    ensures cause { AwardCause (S.tally shelf.old) (S.tally shelf.new) result }
    ensures told { (files : Files) (nodes : ℕ) → IsFound files nodes finding
        → IsAward files nodes result }
    ensures left { Leaves (S.holds shelf.old) (S.holds shelf.new) (award_written result) }
    ensures handed { (old : Entries) (nodes : ℕ) → FromReads awarding_order old (S.log shelf.old) (λ files. IsFound files nodes finding)
        → IsAwardHanded old (S.log shelf.new) nodes result }
{
    match write_all(alloc, shelf, finding.drafts.as_slice()) {
        Ok(()) => Ok(finding),
        Err(stop) => Err(AwardStop::Unwritten(finding, stop)),
    }
}

/// Awards the month in the folder with so many nodes at most, and writes what was found.
pub fn award<C: FreshCloser, S: Shelf>(
    alloc: Global,
    shelf: &mut S,
    nodes: u32,
) -> Result<Finding, AwardStop>
    requires some { 1 ≤ nodes }
    requires few { nodes ≤ 20000 }
    ensures cause { AwardCause (S.tally shelf.old) (S.tally shelf.new) result }
    ensures told { ForSome (S.holds shelf.old) (λ files. IsAward files nodes result) }
    ensures left { Leaves (S.holds shelf.old) (S.holds shelf.new) (award_written result) }
    ensures handed { IsAwardHanded (S.log shelf.old) (S.log shelf.new) nodes result }
{
    let texts = read_texts(alloc, shelf)?;
    let problem = read_month(alloc, &texts)?;
    let finding = find::<C>(alloc, &problem, nodes)?;
    write_found(alloc, shelf, finding)
}
