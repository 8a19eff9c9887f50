//! How a run of `award` ends, and what it prints.
ghost use Rattle.std.specs.Prelude.{◌≡◌, [], ◌∷◌, ◌++◌, codes, IfOk};
ghost use Rattle.answer_texts.specs.AwardTexts.{award_status, award_text, found_status, first_text, last_text, lines_of};

use crate::lines::{budget_line, line_text, numbered, put_vector};
use crate::month_ends::{bad_input_text, input_status, unread_status, unread_text};
use crate::status::Status;
use crate::write_ends::{unwritten_text, write_status};
use duty_calendar::{List, Memory};
use field_text::put_bytes;
use month_commands::{AwardStop, Finding, Found};
use std::alloc::Global;

/// How a run ends where this was found and written.
pub fn found_status(found: &Found) -> Status
    ensures value { result ≡ found_status found.now }
{
    match found {
        Found::Award(_, _) => Status::Done,
        Found::NoRoster => Status::NoRoster,
    }
}

/// How a run of `award` ends.
pub fn award_status(end: &Result<Finding, AwardStop>) -> Status
    ensures value { result ≡ award_status end.now }
{
    match end {
        Ok(finding) => found_status(&finding.found),
        Err(AwardStop::Unread(why)) => unread_status(*why),
        Err(AwardStop::BadInput(why)) => input_status(why),
        Err(AwardStop::Budget(_)) => Status::Budget,
        Err(AwardStop::Unwritten(_, stop)) => write_status(stop.why),
        Err(AwardStop::NoMemory) => Status::NoMemory,
    }
}

/// The award, or that there is none.
fn first_text(alloc: Global, found: &Found) -> Result<List<u8>, Memory>
    ensures value { IfOk result (λ t. t ≡ first_text found.now) }
{
    match found {
        Found::Award(scores, _) => {
            let mut out = line_text(alloc, b"award")?;
            put_vector(&mut out, scores.as_slice())?;
            Ok(out)
        }
        Found::NoRoster => line_text(alloc, b"no roster"),
    }
}

/// How many bids an award denies.
fn last_text(alloc: Global, found: &Found) -> Result<List<u8>, Memory>
    ensures value { IfOk result (λ t. t ≡ last_text found.now) }
{
    match found {
        Found::Award(_, denied) => numbered(alloc, b"denials", &[u64::from(*denied)]),
        Found::NoRoster => Ok(List::new(alloc)),
    }
}

/// The lines of what was found, with so many nodes counted.
pub fn found_text(alloc: Global, found: &Found, nodes: u32) -> Result<List<u8>, Memory>
    ensures value { IfOk result (λ t. t ≡ lines_of found.now nodes) }
{
    let mut out = first_text(alloc, found)?;
    let counted = numbered(alloc, b"nodes", &[u64::from(nodes)])?;
    put_bytes(&mut out, counted.as_slice())?;
    let last = last_text(alloc, found)?;
    put_bytes(&mut out, last.as_slice())?;
    Ok(out)
}

/// The text of a run of `award`.
pub fn award_text(alloc: Global, end: &Result<Finding, AwardStop>) -> Result<List<u8>, Memory>
    ensures value { IfOk result (λ t. t ≡ award_text end.now) }
{
    match end {
        Ok(finding) => found_text(alloc, &finding.found, finding.ledger.len()),
        Err(AwardStop::Unread(why)) => unread_text(alloc, *why),
        Err(AwardStop::BadInput(why)) => bad_input_text(alloc, why),
        Err(AwardStop::Budget(ledger)) => budget_line(alloc, ledger),
        Err(AwardStop::Unwritten(_, stop)) => unwritten_text(alloc, *stop),
        Err(AwardStop::NoMemory) => Ok(List::new(alloc)),
    }
}
