//! How a run ends, and what it prints, where a file was not written.
ghost use Rattle.std.specs.Prelude.{◌≡◌, IfOk};
ghost use Rattle.answer_texts.specs.WriteEnds.{write_status, unwritten_text};

use crate::lines::named;
use crate::status::Status;
use duty_calendar::{List, Memory};
use month_files::{Unwritten, WriteStop};
use std::alloc::Global;

/// How a run ends where a file was not written.
pub fn write_status(why: WriteStop) -> Status
    ensures value { result ≡ write_status why }
{
    match why {
        WriteStop::Fault => Status::WriteFault,
        WriteStop::NoMemory => Status::NoMemory,
    }
}

/// The line of a file that was not written.
pub fn unwritten_text(alloc: Global, stop: Unwritten) -> Result<List<u8>, Memory>
    ensures value { IfOk result (λ t. t ≡ unwritten_text stop) }
{
    match stop.why {
        WriteStop::Fault => named(alloc, b"write fault ", stop.file),
        WriteStop::NoMemory => Ok(List::new(alloc)),
    }
}
