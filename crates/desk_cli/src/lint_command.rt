//! The command `lint`.
ghost use Rattle.std.specs.Prelude.{◌≡◌};

use crate::status::DeskStatus;
use duty_calendar::Memory;
use file_places::Prose;
use month_lint::{Verdict, lint};
use shelf::Shelf;
use std::alloc::Global;

/// How a run of `lint` ends.
fn status_of(verdict: Verdict) -> DeskStatus {
    match verdict {
        Verdict::Clean => DeskStatus::Done,
        Verdict::Odd => DeskStatus::Warned,
        Verdict::Faulty | Verdict::Unread => DeskStatus::Faulty,
    }
}

/// Appends what is wrong with the files, and what looks wrong. No file is written.
pub fn say_lint<S: Shelf>(
    alloc: Global,
    shelf: &mut S,
    prose: &mut Prose,
) -> Result<DeskStatus, Memory>
    ensures kept { S.holds shelf.new ≡ S.holds shelf.old }
{
    Ok(status_of(lint(alloc, shelf, prose)?))
}
