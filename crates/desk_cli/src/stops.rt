//! Why a page is not made, as a sentence.
ghost use Rattle.std.specs.Prelude.{◌≡◌};

use crate::status::DeskStatus;
use duty_calendar::Memory;
use file_places::Prose;
use folder_answers::{input_answer, tell_answer, unread_answer};
use month_files::{BadInput, WriteStop};
use month_page::PageStop;
use printed_lines::{Answer, TextFault, TextFile, Trouble};
use roster_text::{ReasonTextFault, RosterTextFault};
use shelf::Shelf;
use std::alloc::Global;

/// What a fault of the roster says.
fn roster_answer<'a>(fault: &RosterTextFault) -> Answer<'a> {
    Answer::Text(TextFault {
        file: TextFile::Roster,
        line: u64::from(fault.row),
        code: u64::from(fault.code.code()),
    })
}

/// What a fault of the reasons says.
fn reasons_answer<'a>(fault: &ReasonTextFault) -> Answer<'a> {
    Answer::Text(TextFault {
        file: TextFile::Reasons,
        line: u64::from(fault.line),
        code: u64::from(fault.code.code()),
    })
}

/// What stands against a page, as a line that `pbs` prints; nothing where it is want of memory.
fn stop_answer(stop: &PageStop) -> Option<Answer<'_>> {
    match stop {
        PageStop::Unread(why) => unread_answer(*why),
        PageStop::BadInput(BadInput::Fault(fault)) => input_answer(fault),
        PageStop::Roster(fault) => Some(roster_answer(fault)),
        PageStop::Reasons(fault) => Some(reasons_answer(fault)),
        PageStop::Unwritten(WriteStop::Fault) => {
            Some(Answer::File(Trouble::WriteFault, b"month.html"))
        }
        PageStop::Unwritten(WriteStop::NoMemory)
        | PageStop::BadInput(BadInput::NoMemory)
        | PageStop::NoMemory => None,
    }
}

/// How a run ends that this stands against.
fn status_of(stop: &PageStop) -> DeskStatus {
    match stop {
        PageStop::Unwritten(_) => DeskStatus::WriteFault,
        _ => DeskStatus::Faulty,
    }
}

/// Appends what stands against a page, with the place in the file. No file is written.
pub fn say_stop<S: Shelf>(
    alloc: Global,
    shelf: &mut S,
    prose: &mut Prose,
    stop: &PageStop,
) -> Result<DeskStatus, Memory>
    ensures kept { S.holds shelf.new ≡ S.holds shelf.old }
{
    let Some(answer) = stop_answer(stop) else {
        return Err(Memory::NoMemory);
    };
    tell_answer(alloc, shelf, prose, &answer)?;
    Ok(status_of(stop))
}
