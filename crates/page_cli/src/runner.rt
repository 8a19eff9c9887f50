//! A run: a page, and what is said of it.

use crate::ending::{Ending, ending_of, usage};
use answer_texts::Status;
use duty_calendar::Memory;
use month_page::{Beside, page};
use shelf::{Shelf, Sink, SinkFault};
use staff_names::StaffNames;
use std::alloc::Global;

/// Puts what is said, and says how the run ends.
fn say<O: Sink>(found: Result<Ending, Memory>, out: &mut O) -> Status {
    let Ok(ending) = found else {
        return Status::NoMemory;
    };
    match out.put(ending.text.as_slice()) {
        Ok(()) => ending.status,
        Err(SinkFault::PutFailed) => Status::WriteFault,
        Err(SinkFault::NoMemory) => Status::NoMemory,
    }
}

/// Writes the page of the month on the shelf, with the names of its files. `built` says what the program was built from, or nothing.
pub fn run<S: Shelf, O: Sink>(alloc: Global, shelf: &mut S, out: &mut O, built: &[u8]) -> Status {
    let names = StaffNames::new(alloc);
    let beside = Beside::new(&names, built);
    let end = page(alloc, shelf, &beside);
    say(ending_of(alloc, end), out)
}

/// Says how the program is called.
pub fn run_usage<O: Sink>(alloc: Global, out: &mut O) -> Status {
    say(usage(alloc), out)
}
