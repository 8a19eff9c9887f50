//! The command `explain`.
ghost use Rattle.std.specs.Prelude.{◌≡◌};

use crate::status::DeskStatus;
use duty_calendar::Memory;
use file_places::{Prose, line_at};
use folder_answers::{Told, explain};
use shelf::Shelf;
use std::alloc::Global;

/// How many lines a text has.
fn count_lines(text: &[u8]) -> u64 {
    let ends = text.iter().filter(|byte| **byte == b'\n').count() as u64;
    if text.ends_with(b"\n") {
        ends
    } else {
        ends.saturating_add(1)
    }
}

/// How a run ends that says this of one line more.
fn worse(status: DeskStatus, told: Told) -> DeskStatus {
    match told {
        Told::Known => status,
        Told::Unknown => DeskStatus::Warned,
    }
}

/// Appends what each line of a text says. No file is written.
pub fn explain_all<S: Shelf>(
    alloc: Global,
    shelf: &mut S,
    prose: &mut Prose,
    text: &[u8],
) -> Result<DeskStatus, Memory>
    ensures kept { S.holds shelf.new ≡ S.holds shelf.old }
{
    let mut status = DeskStatus::Done;
    for number in 0..count_lines(text) {
        let line = line_at(text, number.saturating_add(1));
        status = worse(status, explain(alloc, shelf, prose, line)?);
    }
    Ok(status)
}
