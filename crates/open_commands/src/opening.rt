//! The command `open`.
ghost use Rattle.std.specs.Prelude.{◌≡◌, ◌+◌, ◌≤◌, ℕ, IfOk};
ghost use Rattle.std.specs.Option.{ForSome};
ghost use Rattle.month_files.specs.Handing.{FromReads};
ghost use Rattle.month_files.specs.Writes.{Leaves};
ghost use Rattle.roster_model.specs.Rosters.{IsComplete, scores_of};
ghost use Rattle.roster_model.specs.Splits.{splits_of, all_splits, shown_splits};
ghost use Rattle.shelf.specs.Files.{Files};
ghost use Rattle.shelf.specs.Logs.{Entries};
ghost use Rattle.open_time.specs.Opened.{IsOpened};
ghost use Rattle.open_time.specs.Refuted.{IsOpenAward};
ghost use Rattle.open_time.specs.Vacant.{HasRoomFor, IsWithVacant};
ghost use Rattle.open_commands.specs.OpenRows.{AreOpenRows, AreWithVacant};
ghost use Rattle.open_commands.specs.Opening.{opening_order, SaysAward, IsOpenEnd, IsFound, IsOpen, IsOpenHanded};
ghost use Rattle.open_commands.specs.OpeningEnds.{OpenCause, open_written};

use crate::open_drafts::{award_drafts, none_drafts};
use crate::open_rows::open_rows;
use crate::open_stop::{OpenFinding, OpenMiss, OpenRow, OpenStop, Opening};
use bid_score::scores_of;
use branch_log::FreshCloser;
use duty_calendar::{List, Memory};
use month_files::{Draft, read_month, read_texts, write_all};
use open_time::{OpenFault, Opened, fewest, with_vacant};
use roster_model::{Awarded, Problem, Proof, Reasons, Roster};
use shelf::Shelf;
use std::alloc::Global;

/// How many rounds of lines show that a node is open.
const ROUNDS: u32 = 400;

/// The scores of a roster with vacant lines, and the pairings that these have.
#[derive(Drop)]
struct Shown {
    scores: List<u32>,
    rows: List<OpenRow>,
}

/// What is said of an award with vacant lines.
#[derive(Drop)]
struct Said {
    scores: List<u32>,
    rows: List<OpenRow>,
    drafts: List<Draft>,
}

/// The month with so many vacant lines.
#[tactic(auto, using(crate::proofs::OpeningLaws::name_free))]
pub(crate) fn month_with(alloc: Global, problem: &Problem, count: u32) -> Result<Problem, Memory>
    requires room { HasRoomFor problem.now count }
    ensures made { IfOk result (IsWithVacant problem.now count) }
{
    match with_vacant(alloc, problem, count) {
        Ok(made) => Ok(made),
        Err(OpenFault::NoMemory) => Err(Memory::NoMemory),
        Err(OpenFault::Members(_)) => unreachable!(),
        Err(OpenFault::NameTaken(_)) => unreachable!(),
    }
}

/// What is said of the roster of an award with vacant lines.
fn show_roster(
    alloc: Global,
    problem: &Problem,
    made: &Problem,
    roster: &Roster,
) -> Result<Shown, Memory>
    requires made { AreWithVacant problem.now made.now }
    requires complete { IsComplete made.now roster.now }
    ensures scores { IfOk result (λ s. s.scores ≡ scores_of made.now roster.now) }
    ensures rows { IfOk result (λ s. AreOpenRows problem.now made.now roster.now s.rows) }
{
    let scores = scores_of(alloc, made, roster)?;
    let rows = open_rows(alloc, problem, made, roster)?;
    Ok(Shown { scores, rows })
}

/// What is said of an award with so many vacant lines.
fn say_award(
    alloc: Global,
    problem: &Problem,
    count: u32,
    none: Option<Proof>,
    roster: &Roster,
    reasons: &Reasons,
    awarded: Awarded,
) -> Result<Said, Memory>
    requires award { IsOpenAward problem.now count none roster.now reasons.now awarded }
    requires short { splits_of none ≤ 20000 }
    requires splits { all_splits awarded.proofs + shown_splits awarded.shown ≤ 20000 }
    ensures says { IfOk result (λ s. SaysAward problem.now count none roster.now reasons.now awarded
        s.scores s.rows s.drafts) }
{
    let made = month_with(alloc, problem, count)?;
    let drafts = award_drafts(alloc, &made, none, roster, reasons, awarded)?;
    let shown = show_roster(alloc, problem, &made, roster)?;
    Ok(Said {
        scores: shown.scores,
        rows: shown.rows,
        drafts,
    })
}

/// What is said of what the search came to.
fn say(
    alloc: Global,
    problem: &Problem,
    most: u32,
    nodes: u32,
    opened: Opened,
) -> Result<OpenFinding, OpenMiss>
    requires few { nodes ≤ 20000 }
    requires room { HasRoomFor problem.now most }
    requires opened { IsOpened problem.now most nodes opened }
    ensures end { IsOpenEnd problem.now most nodes result }
{
    let _ = most;
    let _ = nodes;
    match opened {
        Opened::Award(count, none, roster, awarded, reasons, ledger) => {
            let said = say_award(alloc, problem, count, none, &roster, &reasons, awarded)?;
            Ok(OpenFinding {
                found: Opening::Award(count, said.scores, said.rows),
                ledger,
                drafts: said.drafts,
            })
        }
        Opened::NoRoster(proof, ledger) => {
            let drafts = none_drafts(alloc, Some(proof))?;
            Ok(OpenFinding {
                found: Opening::NoRoster,
                ledger,
                drafts,
            })
        }
        Opened::Spent(_, ledger) => Err(OpenMiss::Budget(ledger)),
    }
}

/// What comes of the search for the fewest vacant lines, by rounds, with so many nodes at most for each number.
fn find<C: FreshCloser>(
    alloc: Global,
    problem: &Problem,
    most: u32,
    nodes: u32,
) -> Result<OpenFinding, OpenMiss>
    requires most { most ≤ 50 }
    requires few { nodes ≤ 20000 }
    ensures end { IsOpenEnd problem.now most nodes result }
{
    let make = |month: &Problem| -> Result<C, Memory>
        ensures rounds { IfOk result (λ closer. C.rounds closer ≡ 400) }
        ensures fits { IfOk result (λ closer. C.fits closer month.now) }
    { C::new(alloc, month, ROUNDS) };
    match fewest(alloc, problem, most, nodes, make) {
        Ok(opened) => say(alloc, problem, most, nodes, opened),
        Err(OpenFault::NoMemory) => Err(OpenMiss::NoMemory),
        Err(OpenFault::Members(total)) => Err(OpenMiss::No(OpenFault::Members(total))),
        Err(OpenFault::NameTaken(member)) => Err(OpenMiss::No(OpenFault::NameTaken(member))),
    }
}

/// Writes the files that say what was found.
fn write_found<S: Shelf>(
    alloc: Global,
    shelf: &mut S,
    finding: OpenFinding,
) -> Result<OpenFinding, OpenStop>
    ensures cause { OpenCause (S.tally shelf.old) (S.tally shelf.new) result }
    ensures told { (files : Files) (most nodes : ℕ) → IsFound files most nodes finding
        → IsOpen files most nodes result }
    ensures left { Leaves (S.holds shelf.old) (S.holds shelf.new) (open_written result) }
    ensures handed { (old : Entries) (most nodes : ℕ)
        → FromReads opening_order old (S.log shelf.old) (λ files. IsFound files most nodes finding)
        → IsOpenHanded old (S.log shelf.new) most nodes result }
{
    match write_all(alloc, shelf, finding.drafts.as_slice()) {
        Ok(()) => Ok(finding),
        Err(stop) => Err(OpenStop::Unwritten(finding, stop)),
    }
}

/// Finds the fewest vacant lines, up to so many, with which the crew in the folder can fly the month, with so many nodes at
/// most for each number, and writes the award with them.
pub fn open_lines<C: FreshCloser, S: Shelf>(
    alloc: Global,
    shelf: &mut S,
    most: u32,
    nodes: u32,
) -> Result<OpenFinding, OpenStop>
    requires most { most ≤ 50 }
    requires few { nodes ≤ 20000 }
    ensures cause { OpenCause (S.tally shelf.old) (S.tally shelf.new) result }
    ensures told { ForSome (S.holds shelf.old) (λ files. IsOpen files most nodes result) }
    ensures left { Leaves (S.holds shelf.old) (S.holds shelf.new) (open_written result) }
    ensures handed { IsOpenHanded (S.log shelf.old) (S.log shelf.new) most nodes result }
{
    let texts = read_texts(alloc, shelf)?;
    let problem = read_month(alloc, &texts)?;
    let finding = find::<C>(alloc, &problem, most, nodes)?;
    write_found(alloc, shelf, finding)
}
