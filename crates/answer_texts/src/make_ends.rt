//! How a run of `make` ends, and what it prints.
ghost use Rattle.std.specs.Prelude.{◌≡◌, IfOk};
ghost use Rattle.answer_texts.specs.MakeTexts.{make_status, make_text, made_line};

use crate::lines::put_count;
use crate::status::Status;
use crate::write_ends::{unwritten_text, write_status};
use command_words::Sizes;
use duty_calendar::{List, Memory};
use field_text::put_bytes;
use month_commands::MakeStop;
use month_files::Draft;
use std::alloc::Global;

/// How a run of `make` ends.
pub fn make_status(end: &Result<List<Draft>, MakeStop>) -> Status
    ensures value { result ≡ make_status end.now }
{
    match end {
        Ok(_) => Status::Done,
        Err(MakeStop::Unwritten(_, stop)) => write_status(stop.why),
        Err(MakeStop::NoMemory) => Status::NoMemory,
    }
}

/// The line of a month that was made.
fn made_line(alloc: Global, sizes: Sizes) -> Result<List<u8>, Memory>
    ensures value { IfOk result (λ t. t ≡ made_line sizes) }
{
    let mut out = List::new(alloc);
    put_bytes(&mut out, b"made ")?;
    put_count(&mut out, u64::from(sizes.members))?;
    put_bytes(&mut out, b" members ")?;
    put_count(&mut out, u64::from(sizes.pairings))?;
    put_bytes(&mut out, b" pairings\n")?;
    Ok(out)
}

/// The text of a run of `make` with these sizes.
pub fn make_text(
    alloc: Global,
    sizes: Sizes,
    end: &Result<List<Draft>, MakeStop>,
) -> Result<List<u8>, Memory>
    ensures value { IfOk result (λ t. t ≡ make_text sizes end.now) }
{
    match end {
        Ok(_) => made_line(alloc, sizes),
        Err(MakeStop::Unwritten(_, stop)) => unwritten_text(alloc, *stop),
        Err(MakeStop::NoMemory) => Ok(List::new(alloc)),
    }
}
