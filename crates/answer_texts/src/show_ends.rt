//! How a run of `show` ends, and what it prints.
ghost use Rattle.std.specs.Prelude.{◌≡◌, IfOk};
ghost use Rattle.answer_texts.specs.ShowTexts.{show_status, show_text, unshown_text};

use crate::lines::{numbered, titled};
use crate::month_ends::{bad_input_text, input_status, unread_status, unread_text};
use crate::status::Status;
use duty_calendar::{List, Memory};
use field_text::put_bytes;
use month_commands::{ShowStop, Unshown};
use std::alloc::Global;

/// How a run of `show` ends.
pub fn show_status(end: &Result<List<u8>, ShowStop>) -> Status
    ensures value { result ≡ show_status end.now }
{
    match end {
        Ok(_) => Status::Done,
        Err(ShowStop::Unread(why)) => unread_status(*why),
        Err(ShowStop::BadInput(why)) => input_status(why),
        Err(ShowStop::No(_)) => Status::No,
        Err(ShowStop::NoMemory) => Status::NoMemory,
    }
}

/// The line of a no.
fn unshown_line(alloc: Global, name: &[u8], why: Unshown) -> Result<List<u8>, Memory>
    ensures value { IfOk result (λ t. t ≡ unshown_text name.now why) }
{
    match why {
        Unshown::Roster(fault) => numbered(
            alloc,
            b"no roster",
            &[u64::from(fault.row), u64::from(fault.code.code())],
        ),
        Unshown::Member => titled(alloc, b"no member ", name),
    }
}

/// A view as it is printed.
fn view_text(alloc: Global, view: &List<u8>) -> Result<List<u8>, Memory>
    ensures value { IfOk result (λ t. t ≡ view.now) }
{
    let mut out = List::new(alloc);
    put_bytes(&mut out, view.as_slice())?;
    Ok(out)
}

/// The text of a run of `show` with this name.
pub fn show_text(
    alloc: Global,
    name: &[u8],
    end: &Result<List<u8>, ShowStop>,
) -> Result<List<u8>, Memory>
    ensures value { IfOk result (λ t. t ≡ show_text name.now end.now) }
{
    match end {
        Ok(view) => view_text(alloc, view),
        Err(ShowStop::Unread(why)) => unread_text(alloc, *why),
        Err(ShowStop::BadInput(why)) => bad_input_text(alloc, why),
        Err(ShowStop::No(why)) => unshown_line(alloc, name, *why),
        Err(ShowStop::NoMemory) => Ok(List::new(alloc)),
    }
}
