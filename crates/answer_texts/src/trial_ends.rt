//! How a run of `trial` ends, and what it prints.
ghost use Rattle.std.specs.Prelude.{◌≡◌, IfOk};
ghost use Rattle.answer_texts.specs.TrialTexts.{trial_status, trial_text};

use crate::award_ends::{found_status, found_text};
use crate::lines::budget_line;
use crate::status::Status;
use duty_calendar::{List, Memory};
use month_commands::{Miss, Tried};
use std::alloc::Global;

/// How a run of `trial` ends.
pub fn trial_status(end: &Result<Tried, Miss>) -> Status
    ensures value { result ≡ trial_status end.now }
{
    match end {
        Ok(tried) => found_status(&tried.found),
        Err(Miss::Budget(_)) => Status::Budget,
        Err(Miss::NoMemory) => Status::NoMemory,
    }
}

/// The text of a run of `trial`.
pub fn trial_text(alloc: Global, end: &Result<Tried, Miss>) -> Result<List<u8>, Memory>
    ensures value { IfOk result (λ t. t ≡ trial_text end.now) }
{
    match end {
        Ok(tried) => found_text(alloc, &tried.found, tried.ledger.len()),
        Err(Miss::Budget(ledger)) => budget_line(alloc, ledger),
        Err(Miss::NoMemory) => Ok(List::new(alloc)),
    }
}
